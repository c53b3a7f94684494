//! Which filters can be written (RFC 4511, 4.5.1.7).
ghost use Rattle.std.specs.Prelude.{◌≡◌, ◌↔◌, IsTrue, length, nat_lt, true};
ghost use Rattle.std.specs.List.{AllByRecursion};
ghost use Rattle.ldap.specs.Filters.{the_filter};

use crate::filter::Filter;
use crate::filter_item::FilterItem;
use yasna_notation_constraints::Checked;

// Whether each of the filters can be written.
#[cycle(filter_checking)]
fn accepts_each(filters: &[Filter]) -> bool
    ensures { IsTrue result ↔ AllByRecursion the_filter.can filters.now }
{
    for filter in filters {
        if !accepts_filter(filter) {
            return false;
        }
    }
    true
}

// Whether filters can be written as a group: they are one or more, and each can be written.
#[cycle(filter_checking)]
fn accepts_group(filters: &[Filter]) -> bool
    ensures { IsTrue result ↔ (AllByRecursion the_filter.can filters.now × (nat_lt 0 (length filters.now) ≡ true)) }
{
    !filters.is_empty() && accepts_each(filters)
}

/// Whether a filter can be written.
#[cycle(filter_checking)]
pub(crate) fn accepts_filter(value: &Filter) -> bool
    ensures { IsTrue result ↔ the_filter.can value.now }
{
    match value {
        Filter::And(filters) => accepts_group(filters.as_slice()),
        Filter::Or(filters) => accepts_group(filters.as_slice()),
        Filter::Not(negated) => accepts_filter(negated),
        Filter::Item(item) => <FilterItem as Checked>::accepts(item),
    }
}
