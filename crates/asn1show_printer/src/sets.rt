//! The order of a SET and of a SET OF (X.690, 10.3 and 11.6), and how CER cuts strings (X.690, 9.2).
ghost use Rattle.std.specs.Prelude.{◌≡◌, ◌≢◌, ◌↔◌, ◌≤◌, IsTrue, IfOk, List, length, map, true, false};
ghost use Rattle.yasna_base.specs.Octets.{octets_full};
ghost use Rattle.asn1show_printer.specs.Pieces.{RawPiece, piece_of, ArePieces, may_follow, Ascend, SaysOfOrder, order_said, IsFullSegment, IsLastSegment, AreCerSegments, RepeatsTag, tag_of_piece, IsNoneOr, SaysUnless, SaysOfCer};
ghost use Rattle.std.specs.List.{AllPairs};
ghost use Rattle.asn1show_printer.specs.declared.diagnostic.Diagnostic.TheVariants.{Uncut};

use crate::diagnostic::Diagnostic;
use crate::elements::first_element;
use asn1show_walk::Item;
use std::alloc::{AllocError, Global};
use yasna_base::bytes::order::compare_octets;
use yasna_base::tag::{PCBit, Tag};
use yasna_bytes::bytes::walk::RawElement;

// An order that DER has for the elements of a SET.
#[derive(Clone, Copy)]
enum SetOrder {
    // That of a SET, by tags, which differ (X.690, 10.3).
    Tags,
    // That of a SET OF, by octets (X.690, 11.6).
    Octets,
}

// Whether an element may be next after another one in an order.
fn may_follow(order: SetOrder, element: &RawElement<'_>, next: &RawElement<'_>) -> bool
    ensures { result ≡ may_follow order (piece_of element.now) (piece_of next.now) }
{
    match order {
        SetOrder::Tags => element.tag.cmp(&next.tag).is_lt(),
        SetOrder::Octets => !compare_octets(next.bytes, element.bytes).is_lt(),
    }
}

// Whether the elements in contents are in an order.
fn are_in_order(order: SetOrder, contents: &[u8]) -> bool
    ensures { (ps : List RawPiece) → ArePieces contents.now ps → IsTrue result ↔ Ascend order ps }
{
    let Some((first, after)) = first_element(contents) else {
        return true;
    };
    let mut last = first;
    let mut left = after;
    while let Some((next, rest)) = first_element(left) {
        if !may_follow(order, &last, &next) {
            return false;
        }
        last = next;
        left = rest;
    }
    true
}

// The tags of the elements in contents.
fn tags_in(alloc: Global, contents: &[u8]) -> Result<Vec<Tag>, AllocError>
    ensures { IfOk result (λ tags. (ps : List RawPiece) → ArePieces contents.now ps → tags.items ≡ map tag_of_piece ps) }
{
    let mut tags = Vec::new(alloc);
    let mut left = contents;
    while let Some((element, rest)) = first_element(left) {
        tags.push(element.tag)?;
        left = rest;
    }
    Ok(tags)
}

// Whether two of some tags are the same.
fn has_equal(mut tags: Vec<Tag>) -> Result<bool, AllocError>
    ensures { IfOk result (λ said. IsTrue said ↔ (AllPairs (λ t u. t ≢ u) tags.items → ⊥)) }
{
    let count = tags.len();
    tags.sort()?;
    tags.dedup();
    Ok(tags.len() < count)
}

// Whether two of the elements in contents have one tag, as no components of a SET have (X.680, 27.3).
fn has_repeated_tag(alloc: Global, contents: &[u8]) -> Result<bool, AllocError>
    ensures { IfOk result (λ said. (ps : List RawPiece) → ArePieces contents.now ps → IsTrue said ↔ RepeatsTag ps) }
{
    match tags_in(alloc, contents) {
        Ok(tags) => has_equal(tags),
        Err(error) => Err(error),
    }
}

// What is wrong with elements in no order, of whether two have one tag.
fn order_diagnostic(has_repeated_tag: bool) -> Diagnostic
    ensures { result ≡ order_said has_repeated_tag }
{
    if has_repeated_tag {
        Diagnostic::Order
    } else {
        Diagnostic::TagOrder
    }
}

/// What is wrong with the order of the elements in a SET, whatever its schema.
pub fn order_of(alloc: Global, contents: &[u8]) -> Result<Option<Diagnostic>, AllocError>
    ensures { IfOk result (λ said. SaysOfOrder contents.now said) }
{
    if are_in_order(SetOrder::Tags, contents) || are_in_order(SetOrder::Octets, contents) {
        return Ok(None);
    }
    match has_repeated_tag(alloc, contents) {
        Ok(repeated) => Ok(Some(order_diagnostic(repeated))),
        Err(error) => Err(error),
    }
}

// The most octets of a string in one piece.
const FULL: usize = 1000;

// Whether a string with these contents stays whole in CER.
fn stays_whole(contents: &[u8]) -> bool
    ensures { IsTrue result ↔ length contents.now ≤ octets_full }
{
    contents.len() <= FULL
}

// Whether an element is a segment that another one follows.
fn is_full(segment: &RawElement<'_>) -> bool
    ensures { IsTrue result ↔ IsFullSegment (piece_of segment.now) }
{
    segment.bit == PCBit::Primitive && segment.payload.len() == FULL
}

// Whether an element is the last segment.
fn is_last(segment: &RawElement<'_>) -> bool
    ensures { IsTrue result ↔ IsLastSegment (piece_of segment.now) }
{
    segment.bit == PCBit::Primitive && !segment.payload.is_empty() && stays_whole(segment.payload)
}

// Whether contents are segments as CER cuts them: primitive, two or more, and full but for the last.
fn are_cer_segments(contents: &[u8]) -> bool
    ensures { (ps : List RawPiece) → ArePieces contents.now ps → IsTrue result ↔ AreCerSegments ps }
{
    let Some((first, after)) = first_element(contents) else {
        return false;
    };
    let mut segment = first;
    let mut left = after;
    let mut is_cut = false;
    while let Some((next, rest)) = first_element(left) {
        if !is_full(&segment) {
            return false;
        }
        segment = next;
        left = rest;
        is_cut = true;
    }
    if !is_cut {
        return false;
    }
    is_last(&segment)
}

// Whether a string with these contents is as CER has it, of whether they are its segments.
fn is_cut(is_segmented: bool, contents: &[u8]) -> bool
    ensures whole { is_segmented ≡ false → IsTrue result ↔ length contents.now ≤ octets_full }
    ensures cut { is_segmented ≡ true → (ps : List RawPiece) → ArePieces contents.now ps → IsTrue result ↔ AreCerSegments ps }
{
    if is_segmented {
        are_cer_segments(contents)
    } else {
        stays_whole(contents)
    }
}

// What is said of a string in a CER encoding, of whether its contents are its segments.
fn string_diagnostic(is_string: bool, is_segmented: bool, contents: &[u8]) -> Option<Diagnostic>
    ensures said { IsNoneOr Uncut result }
    ensures whole { is_segmented ≡ false → SaysUnless (IsTrue is_string → length contents.now ≤ octets_full) Uncut result }
    ensures cut { is_segmented ≡ true → (ps : List RawPiece) → ArePieces contents.now ps → SaysUnless (IsTrue is_string → AreCerSegments ps) Uncut result }
{
    if is_string && !is_cut(is_segmented, contents) {
        return Some(Diagnostic::Uncut);
    }
    None
}

/// Why CER doesn't accept an element as it is encoded, of whether its type is a string: constructed ones have indefinite length, and long
/// strings are cut (X.690, 9.1 and 9.2).
pub fn cer_diagnostic(item: &Item<'_>, is_string: bool) -> Option<Diagnostic>
    ensures { SaysOfCer item.now.bit item.now.size item.now.contents.now is_string result }
{
    match (item.bit, item.size) {
        (PCBit::Primitive, _) => string_diagnostic(is_string, false, item.contents),
        (PCBit::Constructed, Some(_)) => Some(Diagnostic::Definite),
        (PCBit::Constructed, None) => string_diagnostic(is_string, true, item.contents),
    }
}
