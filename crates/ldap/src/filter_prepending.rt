//! How filters are prepended to a buffer (RFC 4511, 4.5.1.7).
ghost use Rattle.std.specs.Prelude.{None};
ghost use Rattle.std.specs.List.{AllByRecursion};
ghost use Rattle.yasna_base.specs.AnyOrder.{sorted_set_of_encoding};
ghost use Rattle.yasna_base.specs.Canonical.{enclosed_encoding};
ghost use Rattle.yasna_base.specs.SequenceOf.{elements_encoding};
ghost use Rattle.yasna_base.specs.SetWriting.{in_encoding_order};
ghost use Rattle.yasna_writer.specs.Prepend.{Prepends};
ghost use Rattle.yasna_writer.specs.PartOrder.{PrependsParts};
ghost use Rattle.ldap.specs.Filters.{the_filter};

use crate::filter::Filter;
use crate::filter_item::FilterItem;
use yasna::{ASN1Result, PrependBuffer, Tag};
use yasna_notation::Notation;

// Prepends filters, from the last to the first, and returns the length of each, in that order.
#[cycle(filter_prepending)]
fn prepend_elements(filters: &[Filter], out: &mut PrependBuffer) -> ASN1Result<Vec<usize>>
    requires { AllByRecursion the_filter.can filters.now }
    ensures { PrependsParts (the_filter.encoding_under None) filters.now out.old out.new result }
{
    let mut lens = out.part_lens(filters.len())?;
    let mut rest = filters;
    while let Some((last, others)) = rest.split_last() {
        let after = out.len();
        prepend_filter(last, None, out)?;
        lens.push(out.len() - after)?;
        rest = others;
    }
    Ok(lens)
}

// Prepends filters, in the order of their bytes.
#[cycle(filter_prepending)]
fn prepend_ordered(filters: &[Filter], out: &mut PrependBuffer) -> ASN1Result<()>
    requires { AllByRecursion the_filter.can filters.now }
    ensures { Prepends (elements_encoding (the_filter.encoding_under None) out.old.mode (in_encoding_order (the_filter.encoding_under None) out.old.mode filters.now))
        out.old out.new result }
{
    let lens = prepend_elements(filters, out)?;
    out.order_parts(&lens)
}

// Prepends filters as a group under this tag.
#[cycle(filter_prepending)]
fn prepend_group(filters: &[Filter], tag: Tag, out: &mut PrependBuffer) -> ASN1Result<()>
    requires { AllByRecursion the_filter.can filters.now }
    ensures { Prepends (sorted_set_of_encoding (the_filter.encoding_under None) tag out.old.mode filters.now) out.old out.new result }
{
    let after = out.begin_contents()?;
    prepend_ordered(filters, out)?;
    out.enclose(tag, after)
}

// Prepends a filter that another turns, under this tag.
#[cycle(filter_prepending)]
fn prepend_negated(negated: &Filter, tag: Tag, out: &mut PrependBuffer) -> ASN1Result<()>
    requires { the_filter.can negated.now }
    ensures { Prepends (enclosed_encoding (the_filter.encoding_under None) tag out.old.mode negated.now) out.old out.new result }
{
    let after = out.begin_contents()?;
    prepend_filter(negated, None, out)?;
    out.enclose(tag, after)
}

/// Prepends a filter to a buffer.
#[cycle(filter_prepending)]
pub(crate) fn prepend_filter(
    value: &Filter,
    under: Option<Tag>,
    out: &mut PrependBuffer,
) -> ASN1Result<()>
    requires { the_filter.can value.now }
    ensures { Prepends (the_filter.encoding_under under out.old.mode value.now) out.old out.new result }
{
    match value {
        Filter::And(filters) => {
            prepend_group(filters.as_slice(), under.unwrap_or(Tag::context(0)), out)
        }
        Filter::Or(filters) => {
            prepend_group(filters.as_slice(), under.unwrap_or(Tag::context(1)), out)
        }
        Filter::Not(negated) => prepend_negated(negated, under.unwrap_or(Tag::context(2)), out),
        Filter::Item(item) => <FilterItem as Notation>::prepend(item, under, out),
    }
}
