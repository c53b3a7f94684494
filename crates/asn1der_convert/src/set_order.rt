//! The order of the elements of a SET or a SET OF (X.690, 10.3 and 11.6).
ghost use Rattle.std.specs.Prelude.{◌≡◌, ◌≤◌, IsTrue, ◌↔◌, OnOk, List, length};
ghost use Rattle.std.specs.Ordering.{is_lt};
ghost use Rattle.yasna_base.specs.Set.{SetPart, set_tag};
ghost use Rattle.asn1der_convert.specs.Rows.{AreElements, part_of};
ghost use Rattle.asn1der_convert.specs.Parts.{PutsInOrder};
ghost use Rattle.asn1der_convert.specs.SetOrder.{set_order, InOrder, AscendByTags};

use crate::agreement::is_order_known;
use crate::elements::{first_element, have_one_tag};
use crate::sorting::{SortKey, sort_elements};
use std::alloc::{AllocError, Global};
use yasna_base::bytes::order::compare_octets;
use yasna_base::tag::Tag;
use yasna_base::tags::TAG_SET;
use yasna_bytes::bytes::walk::RawElement;

/// An order of the elements of a SET.
#[derive(Clone, Copy)]
pub enum SetOrder {
    /// That of a SET, by tags (X.690, 10.3).
    Tags,
    /// That of a SET OF, by octets (X.690, 11.6).
    Octets,
}

/// Whether an element is before another in an order.
pub fn is_before(order: SetOrder, element: RawElement<'_>, other: RawElement<'_>) -> bool
    ensures { result ≡ is_lt (set_order order (part_of element.entry) (part_of other.entry)) }
{
    match order {
        SetOrder::Tags => element.tag.cmp(&other.tag).is_lt(),
        SetOrder::Octets => compare_octets(element.bytes, other.bytes).is_lt(),
    }
}

/// Whether these elements are in an order.
pub fn are_in_order(order: SetOrder, elements: &[u8]) -> bool
    ensures { (ps : List SetPart) → AreElements ps elements.now → IsTrue result ↔ InOrder order ps }
{
    let Some((first, others)) = first_element(elements) else {
        return true;
    };
    let mut last = first;
    let mut left = others;
    while let Some((element, rest)) = first_element(left) {
        if is_before(order, element, last) {
            return false;
        }
        last = element;
        left = rest;
    }
    true
}

/// Whether each of these elements has a lower tag than the next one, as in a SET in DER: no tag is twice (X.690, 10.3; X.680, 27.3).
pub fn ascend_by_tags(elements: &[u8]) -> bool
    ensures { (ps : List SetPart) → AreElements ps elements.now → IsTrue result ↔ AscendByTags ps }
{
    let Some((first, others)) = first_element(elements) else {
        return true;
    };
    let mut last = first;
    let mut left = others;
    while let Some((element, rest)) = first_element(left) {
        let ascends = is_before(SetOrder::Tags, last, element);
        if !ascends {
            return false;
        }
        last = element;
        left = rest;
    }
    true
}

// Puts elements of several tags in the order of a SET OF, if that is the order of their tags too.
fn sort_by_both(alloc: Global, elements: &mut [u8]) -> Result<(), AllocError>
    ensures len { length elements.new ≡ length elements.old }
    ensures sorted { OnOk result (PutsInOrder set_tag elements.old elements.new) }
{
    if !is_order_known(alloc, elements)? {
        return Ok(());
    }
    sort_elements(alloc, SortKey::ByOctets, elements)
}

/// Puts the elements within one that has this tag in the order that DER requires.
///
/// The order of a SET is known if its elements, put in the order of a SET OF, are in that of a SET too. So it is where they have one tag.
pub fn put_in_order(alloc: Global, tag: Tag, elements: &mut [u8]) -> Result<(), AllocError>
    ensures len { length elements.new ≡ length elements.old }
    ensures sorted { OnOk result (PutsInOrder tag elements.old elements.new) }
{
    if tag != TAG_SET {
        return Ok(());
    }
    if are_in_order(SetOrder::Octets, elements) {
        return Ok(());
    }
    if have_one_tag(elements) {
        return sort_elements(alloc, SortKey::ByOctets, elements);
    }
    sort_by_both(alloc, elements)
}
