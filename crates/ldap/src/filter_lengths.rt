//! How long filters are (RFC 4511, 4.5.1.7).
ghost use Rattle.std.specs.Prelude.{None};
ghost use Rattle.std.specs.List.{AllByRecursion};
ghost use Rattle.yasna_base.specs.AnyOrder.{sorted_set_of_encoding};
ghost use Rattle.yasna_base.specs.Canonical.{enclosed_encoding};
ghost use Rattle.yasna_base.specs.SequenceOf.{elements_encoding};
ghost use Rattle.yasna_writer.specs.Prepend.{KnownLength};
ghost use Rattle.ldap.specs.Filters.{the_filter};

use crate::filter::Filter;
use crate::filter_item::FilterItem;
use yasna::{BERMode, Tag, constructed_len};
use yasna_notation::Notation;

// The length of filters, one after the other.
#[cycle(filter_lengths)]
fn filters_len(filters: &[Filter], mode: BERMode) -> Option<usize>
    requires { AllByRecursion the_filter.can filters.now }
    ensures { KnownLength (elements_encoding (the_filter.encoding_under None) mode filters.now) result }
{
    let mut total: usize = 0;
    for filter in filters {
        total = total.checked_add(filter_len(filter, None, mode)?)?;
    }
    Some(total)
}

// The length of filters as a group under this tag. It is the same in any order.
#[cycle(filter_lengths)]
fn group_len(filters: &[Filter], tag: Tag, mode: BERMode) -> Option<usize>
    requires { AllByRecursion the_filter.can filters.now }
    ensures { KnownLength (sorted_set_of_encoding (the_filter.encoding_under None) tag mode filters.now) result }
{
    constructed_len(mode, tag, filters_len(filters, mode)?)
}

// The length of a filter that another turns, under this tag.
#[cycle(filter_lengths)]
fn negated_len(negated: &Filter, tag: Tag, mode: BERMode) -> Option<usize>
    requires { the_filter.can negated.now }
    ensures { KnownLength (enclosed_encoding (the_filter.encoding_under None) tag mode negated.now) result }
{
    constructed_len(mode, tag, filter_len(negated, None, mode)?)
}

/// The length of a filter, if it is known.
#[cycle(filter_lengths)]
pub(crate) fn filter_len(value: &Filter, under: Option<Tag>, mode: BERMode) -> Option<usize>
    requires { the_filter.can value.now }
    ensures { KnownLength (the_filter.encoding_under under mode value.now) result }
{
    match value {
        Filter::And(filters) => {
            group_len(filters.as_slice(), under.unwrap_or(Tag::context(0)), mode)
        }
        Filter::Or(filters) => {
            group_len(filters.as_slice(), under.unwrap_or(Tag::context(1)), mode)
        }
        Filter::Not(negated) => negated_len(negated, under.unwrap_or(Tag::context(2)), mode),
        Filter::Item(item) => <FilterItem as Notation>::encoded_len(item, under, mode),
    }
}
