//! Elements one after the other, each reported to a visitor before what is in it (X.690, 8.1).
ghost use Rattle.std.specs.Prelude.{◌≡◌, ◌+◌, ◌-◌, ◌^◌, ◌<◌, ◌≤◌, ℕ, List, [], ◌∷◌, length, false, true, IsTrue, IfOk, IfErr, OnOk, MatchOption, ⊤};
ghost use Rattle.yasna_base.specs.Grammar.{max_depth};
ghost use Rattle.yasna_base.specs.Raw.{IsRaw, IsJoining};
ghost use Rattle.asn1show_walk.specs.Listing.{Line, VisitsLines, ListsBytes};
ghost use Rattle.asn1show_walk.specs.Errors.{WalkFails};
ghost use Rattle.asn1show_walk.specs.WellFormed.{IsWellFormed, AreElements, EndsHere};
ghost use Rattle.asn1show_walk.specs.Reading.{line_of, IsFurther, ItemAt, ContentsVisited, ElementVisited, BelowVisited, IsInString, EndsAt, ElementBefore, NoElement, NotClosed, NoneBelow, NoElements};

mod header;
mod item;
mod one_element;
mod place;

use crate::error::{Expected, WalkError};
use header::open;
pub use item::Item;
pub use one_element::is_one_element;
pub use place::{Context, Place};
use yasna_base::error::ASN1ErrorKind;
use yasna_base::mode::BERMode;
use yasna_base::tag::PCBit;
use yasna_base::tags::{TAG_BITSTRING, TAG_OCTETSTRING};
use yasna_bytes::bytes::header::{ContentsEnd, end_of_contents};

/// A visitor of elements.
pub trait Visitor {
    ghost use Rattle.asn1show_walk.specs.declared.error.WalkError.{WalkError};

    // What holds of the lines of the elements that were visited.
    ghost visited: { Self → List Line → Type 0 } = { λ _ _. ⊤ };

    // The errors with which the visitor rejects an element.
    ghost rejects: { Self → WalkError → Type 0 };

    /// Visits the next element. An `Err` ends the walk.
    fn visit(&mut self, item: &Item<'_>) -> Result<(), WalkError>
        ensures reported { OnOk result (VisitsLines (visited self.old) (visited self.new) (line_of item.now ∷ [])) }
        ensures rejected { IfErr result (λ f. rejects self.new f) };

    /// Whether the walk descends into a string. Then its contents have to be elements.
    fn descends_into(&self, context: Context, string: Place<'_>) -> bool
        ensures { IsTrue result → IsJoining (IsWellFormed context.levels context.mode) string.entry.left.now };
}

// The place in a string's contents that may be an element: after the count of unused bits, which has to be 0.
fn string_of<'a>(item: &Item<'a>) -> Option<Place<'a>>
    ensures { MatchOption result ⊤ (λ p. IsInString item.now p) }
{
    if item.tag == TAG_OCTETSTRING {
        return Some(item.contents_place());
    }
    if item.tag != TAG_BITSTRING {
        return None;
    }
    match item.contents {
        [0, bytes @ ..] => Some(item.contents_place().further(bytes)),
        _ => None,
    }
}

// The bytes after contents, if they end here.
fn after_end<'a>(place: Place<'a>, is_counted: bool) -> Option<Place<'a>>
    ensures { MatchOption result (EndsHere is_counted place.entry.left.now → ⊥) (λ after. EndsAt is_counted place.entry after) }
{
    if is_counted {
        if place.left.is_empty() {
            return Some(place);
        }
        return None;
    }
    match end_of_contents(place.left) {
        Some(after) => Some(place.further(after)),
        None => None,
    }
}

// Visits the elements from a place to the end of contents, and returns the place after that. `Err` says that the visitor rejected one, or
// that they don't go on to that end.
#[cycle(listing)]
fn list_contents<'a, L: Visitor>(
    context: Context,
    contents: Place<'a>,
    is_counted: bool,
    visitor: &mut L,
) -> Result<Place<'a>, WalkError>
    ensures visited { IfOk result (λ after. ContentsVisited context contents.entry is_counted after (L.visited visitor.old) (L.visited visitor.new)) }
    ensures fails { IfErr result (λ f. WalkFails (L.rejects visitor.new) (NotClosed context contents.entry is_counted) f) }
{
    let mut place = contents;
    loop {
        if let Some(after) = after_end(place, is_counted) {
            return Ok(after);
        }
        place = match list_element(context, place, visitor) {
            Ok(after) => after,
            Err(error) => return Err(error),
        };
    }
}

// Visits what is in contents of definite length: elements, or the element in a string. `Err` says that the visitor rejected one, or that
// there are no elements in a constructed element.
#[cycle(listing)]
fn list_contents_of<L: Visitor>(
    context: Context,
    item: &Item<'_>,
    visitor: &mut L,
) -> Result<(), WalkError>
    requires { 1 ≤ context.levels }
    ensures visited { OnOk result (BelowVisited context item.now (L.visited visitor.old) (L.visited visitor.new)) }
    ensures fails { IfErr result (λ f. WalkFails (L.rejects visitor.new) (NoneBelow context item.now) f) }
{
    match item.bit {
        PCBit::Constructed => {
            match list_contents(context.below(), item.contents_place(), true, visitor) {
                Ok(_) => Ok(()),
                Err(error) => Err(error),
            }
        }
        PCBit::Primitive => {
            let Some(string) = string_of(item) else {
                return Ok(());
            };
            if !visitor.descends_into(context.for_string(), string) {
                return Ok(());
            }
            match list_contents(context.for_string(), string, true, visitor) {
                Ok(_) => Ok(()),
                Err(error) => Err(error),
            }
        }
    }
}

/// Visits the element at a place and those within it, and returns the place after it.
///
/// `Err` says that the visitor rejected one, or that there is no well formed element, and where it is malformed.
#[cycle(listing)]
pub fn list_element<'a, L: Visitor>(
    context: Context,
    place: Place<'a>,
    visitor: &mut L,
) -> Result<Place<'a>, WalkError>
    ensures visited { IfOk result (λ after. ElementVisited context place.entry after (L.visited visitor.old) (L.visited visitor.new)) }
    ensures element { IfOk result (λ after. ElementBefore context place.entry after) }
    ensures fails { IfErr result (λ f. WalkFails (L.rejects visitor.new) (NoElement context place.entry) f) }
{
    let opened = match open(context, place) {
        Ok(opened) => opened,
        Err(error) => return Err(error),
    };
    match visitor.visit(&opened.item) {
        Ok(()) => {}
        Err(error) => return Err(error),
    }
    match opened.end {
        ContentsEnd::Definite(after) => match list_contents_of(context, &opened.item, visitor) {
            Ok(()) => Ok(place.further(after)),
            Err(error) => Err(error),
        },
        ContentsEnd::Indefinite => list_contents(
            context.below(),
            opened.item.contents_place(),
            false,
            visitor,
        ),
    }
}

/// Visits the elements of an input, which are one or more.
///
/// `Err` says that the visitor rejected one, or that the input isn't one or more well formed elements within 101 levels: then its offset
/// is that of the first header that was expected. So for a visitor that rejects nothing it is `Ok` exactly if the input is such
/// elements.
pub fn list_input<L: Visitor>(input: &[u8], mode: BERMode, visitor: &mut L) -> Result<(), WalkError>
    ensures lines { OnOk result ((ls : List Line) × VisitsLines (L.visited visitor.old) (L.visited visitor.new) ls × ListsBytes max_depth mode false 0 input.now ls) }
    ensures raw { OnOk result (IsJoining (IsRaw mode max_depth) input.now) }
    ensures some { OnOk result (1 ≤ length input.now) }
    ensures elements { OnOk result (AreElements max_depth mode input.now) }
    ensures fails { IfErr result (λ f. WalkFails (L.rejects visitor.new) (NoElements max_depth mode input.now) f) }
{
    if input.is_empty() {
        return Err(WalkError::Malformed {
            offset: 0,
            kind: ASN1ErrorKind::Eof,
            expected: Expected::Element,
        });
    }
    match list_contents(Context::start(mode), Place::start(input), true, visitor) {
        Ok(_) => Ok(()),
        Err(error) => Err(error),
    }
}
