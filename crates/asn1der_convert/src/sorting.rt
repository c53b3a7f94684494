//! Elements sorted in their own memory, by octets or by tags (X.690, 10.3 and 11.6).
//!
//! Two halves that are sorted are woven into one: that of fewer bytes is copied, and the lesser of the two next elements goes to the front each
//! time. So it takes half of the elements' memory besides.
ghost use Rattle.std.specs.Prelude.{◌≡◌, ◌≤◌, IfOk, OnOk, List, length, take, drop};
ghost use Rattle.std.specs.Ordering.{is_lt};
ghost use Rattle.yasna_base.specs.Set.{SetPart};
ghost use Rattle.asn1der_convert.specs.Rows.{AreElements, BeforeAt, Weaves, SortsFirst, part_of};
ghost use Rattle.asn1der_convert.specs.SetOrder.{sort_order, sorted_by};

use crate::elements::{count_elements, first_element};
use std::alloc::{AllocError, Global};
use std::cmp::Ordering;
use yasna_base::bytes::order::compare_octets;
use yasna_bytes::bytes::walk::RawElement;

/// What elements are sorted by.
#[derive(Clone, Copy)]
pub enum SortKey {
    /// Tags, as in a SET (X.690, 10.3). Elements of one tag are sorted by octets.
    ByTags,
    /// Octets, as in a SET OF (X.690, 11.6).
    ByOctets,
}

// Whether an element comes before another one.
fn comes_before(key: SortKey, element: RawElement<'_>, other: RawElement<'_>) -> bool
    ensures { result ≡ is_lt (sort_order key (part_of element.entry) (part_of other.entry)) }
{
    let by_tags = match key {
        SortKey::ByTags => element.tag.cmp(&other.tag),
        SortKey::ByOctets => Ordering::Equal,
    };
    match by_tags {
        Ordering::Less => true,
        Ordering::Equal => compare_octets(element.bytes, other.bytes).is_lt(),
        Ordering::Greater => false,
    }
}

// The size of the first of these elements, if it comes before another one.
fn size_before(key: SortKey, elements: &[u8], other: RawElement<'_>) -> Option<usize>
    ensures { BeforeAt key elements.now (part_of other.entry) result }
{
    let Some((element, _)) = first_element(elements) else {
        return None;
    };
    if comes_before(key, element, other) {
        Some(element.bytes.len())
    } else {
        None
    }
}

// Weaves sorted elements into those that follow the room for them, which are sorted too.
fn weave(key: SortKey, elements: &mut [u8], others: &[u8])
    requires { length others.now ≤ length elements.old }
    ensures len { length elements.new ≡ length elements.old }
    ensures woven { Weaves key others.now elements.old elements.new }
{
    let mut left = others;
    let mut place = 0;
    let mut from = others.len();
    while let Some((first, rest)) = first_element(left) {
        if let Some(size) = size_before(key, &elements[from..], first) {
            elements.copy_within(from..from + size, place);
            place += size;
            from += size;
            continue;
        }
        let end = place + first.bytes.len();
        elements[place..end].copy_from_slice(first.bytes);
        place = end;
        left = rest;
    }
}

// Sorts elements, of which those in the first bytes are sorted, and so are the others. The former are copied.
fn copy_and_weave(
    alloc: Global,
    key: SortKey,
    elements: &mut [u8],
    size: usize,
) -> Result<(), AllocError>
    requires { size ≤ length elements.old }
    ensures len { length elements.new ≡ length elements.old }
    ensures woven { OnOk result (Weaves key (take size elements.old) elements.old elements.new) }
{
    let mut copy = Vec::with_capacity(alloc, size)?;
    copy.extend_from_slice(&elements[..size])?;
    weave(key, elements, &copy);
    Ok(())
}

// Of up to so many bytes a copy is cheaper than an exchange of two rows of elements.
const FEW_BYTES: usize = 65536;

// Sorts elements, of which those in the first bytes are sorted, and so are the others. Those of fewer bytes are copied, or the former if they are few.
fn merge(alloc: Global, key: SortKey, elements: &mut [u8], size: usize) -> Result<(), AllocError>
    requires { size ≤ length elements.old }
    ensures len { length elements.new ≡ length elements.old }
    ensures woven { OnOk result (Weaves key (take size elements.old) elements.old elements.new) }
{
    let rest = elements.len() - size;
    if size <= rest || size <= FEW_BYTES {
        return copy_and_weave(alloc, key, elements, size);
    }
    elements.rotate_left(size);
    copy_and_weave(alloc, key, elements, rest)
}

// The size of the first of these elements.
fn first_size(key: SortKey, elements: &[u8]) -> usize
    ensures within { result ≤ length elements.now }
    ensures sorted { SortsFirst key 1 elements.now elements.now result }
{
    match first_element(elements) {
        Some((first, _)) => first.bytes.len(),
        None => 0,
    }
}

// Sorts this many elements, and returns how many bytes they have.
fn sort_first(
    alloc: Global,
    key: SortKey,
    elements: &mut [u8],
    count: usize,
) -> Result<usize, AllocError>
    requires { 1 ≤ count }
    ensures len { length elements.new ≡ length elements.old }
    ensures within { IfOk result (λ size. size ≤ length elements.old) }
    ensures sorted { IfOk result (λ size. SortsFirst key count elements.old elements.new size) }
{
    if count == 1 {
        return Ok(first_size(key, elements));
    }
    let half = count / 2;
    let front = sort_first(alloc, key, elements, half)?;
    let back = sort_first(alloc, key, &mut elements[front..], count - half)?;
    merge(alloc, key, &mut elements[..front + back], front)?;
    Ok(front + back)
}

/// Sorts elements.
pub fn sort_elements(alloc: Global, key: SortKey, elements: &mut [u8]) -> Result<(), AllocError>
    ensures len { length elements.new ≡ length elements.old }
    ensures sorted { OnOk result ((ps : List SetPart) → AreElements ps elements.old → AreElements (sorted_by key ps) elements.new) }
{
    let count = count_elements(elements);
    if count == 0 {
        return Ok(());
    }
    sort_first(alloc, key, elements, count)?;
    Ok(())
}
