//! The part of a type that an element may be.
ghost use Rattle.std.specs.Prelude.{◌≡◌, ◌↔◌, ◌≤◌, ◌<◌, ⊤, IsTrue, MatchOption};
ghost use Rattle.asn1show_schema.specs.Matching.{HasTag, IsMatchIn, IsNoPlace};
ghost use Rattle.asn1show_schema.specs.declared.schema.Contents.TheVariants.{InAnyOrder, InOrder, One, Selected};

use crate::schema::{Beginning, Contents, Parts, Place, Schema};
use yasna_base::tag::Tag;

/// What an element is, by its tag, in what is around it.
#[derive(Clone, Copy)]
pub enum Match {
    /// The element of a place, which begins so.
    Of(usize, Beginning),
    /// One that a later version of the type may have added.
    Addition,
    /// An element that the module doesn't allow there.
    Unknown,
    /// One of which the module says nothing.
    Unspecified,
}

// Whether an element with this tag begins so.
fn has_tag(beginning: &Beginning, tag: Tag) -> bool
    ensures { IsTrue result ↔ HasTag beginning.now tag }
{
    match beginning.tag {
        Some(own) => own == tag,
        None => true,
    }
}

// The way in which an element of a place begins that has this tag.
fn beginning_of(schema: &Schema, place: &Place, tag: Tag) -> Option<Beginning>
    ensures { MatchOption result ⊤ (λ b. HasTag b tag) }
{
    for index in place.first..place.end {
        if let Some(beginning) = schema.beginnings.get(index) {
            if has_tag(beginning, tag) {
                return Some(*beginning);
            }
        }
    }
    None
}

// What an element is where only that of one place may be.
fn match_place(schema: &Schema, index: usize, tag: Tag) -> Match
    ensures { IsMatchIn (One index) tag result }
{
    let Some(place) = schema.places.get(index) else {
        return Match::Unspecified;
    };
    match beginning_of(schema, place, tag) {
        Some(beginning) => Match::Of(index, beginning),
        None => Match::Unknown,
    }
}

// What an element is where that of one place may be, or another one.
fn match_selected(schema: &Schema, index: usize, tag: Tag) -> Match
    ensures { IsMatchIn (Selected index) tag result }
{
    match match_place(schema, index, tag) {
        Match::Of(place, beginning) => Match::Of(place, beginning),
        _ => Match::Unspecified,
    }
}

// Whether elements may be added before a place.
fn is_extended_before(parts: Parts, index: usize) -> bool {
    match parts.extension {
        Some(extension) => extension <= index,
        None => false,
    }
}

// What an element is that is none of the parts up to a place.
fn match_none(parts: Parts, index: usize) -> Match
    ensures { IsNoPlace result }
{
    if is_extended_before(parts, index) {
        Match::Addition
    } else {
        Match::Unknown
    }
}

// What the next element of a SEQUENCE is.
fn match_next(schema: &Schema, parts: Parts, tag: Tag) -> Match
    ensures { IsMatchIn (InOrder parts) tag result }
{
    for index in parts.first..parts.end {
        let Some(place) = schema.places.get(index) else {
            return Match::Unspecified;
        };
        if let Some(beginning) = beginning_of(schema, place, tag) {
            return Match::Of(index, beginning);
        }
        if !place.may_be_absent {
            return match_none(parts, index);
        }
    }
    match_none(parts, parts.end)
}

// What an element of a SET is.
fn match_any(schema: &Schema, parts: Parts, tag: Tag) -> Match
    ensures { IsMatchIn (InAnyOrder parts) tag result }
{
    for index in parts.first..parts.end {
        if let Match::Of(place, beginning) = match_place(schema, index, tag) {
            return Match::Of(place, beginning);
        }
    }
    match_none(parts, parts.end)
}

/// What is left of what is around an element, after it.
pub fn rest_of(around: Contents, found: Match) -> Contents {
    match (around, found) {
        (Contents::InOrder(parts), Match::Of(index, _)) => Contents::InOrder(Parts {
            first: index.saturating_add(1),
            end: parts.end,
            extension: parts.extension,
        }),
        _ => around,
    }
}

/// What an element with this tag is in what is around it.
pub fn match_in(schema: &Schema, around: Contents, tag: Tag) -> Match
    ensures { IsMatchIn around tag result }
{
    match around {
        Contents::Any | Contents::Value(_) => Match::Unspecified,
        Contents::One(index) => match_place(schema, index, tag),
        Contents::SequenceOf(index, _) => match_place(schema, index, tag),
        Contents::SetOf(index, _) => match_place(schema, index, tag),
        Contents::Selected(index) => match_selected(schema, index, tag),
        Contents::InOrder(parts) => match_next(schema, parts, tag),
        Contents::InAnyOrder(parts) => match_any(schema, parts, tag),
    }
}
