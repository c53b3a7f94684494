//! The header of an element at a place, or the error if there is none.
ghost use Rattle.std.specs.Prelude.{◌≡◌, ◌+◌, ◌≤◌, length};
ghost use Rattle.yasna_base.specs.Grammar.{max_depth};
ghost use Rattle.yasna_bytes.specs.Opening.{end_found};
ghost use Rattle.yasna_bytes.specs.Walk.{following};
ghost use Rattle.asn1show_walk.specs.Reading.{ItemAt, counted_length};
ghost use Rattle.asn1show_walk.specs.declared.error.WalkError.TheVariants.{Malformed};

use crate::error::{Expected, WalkError};
use crate::listing::item::{Item, OpenedItem};
use crate::listing::place::{Context, LEVELS, Place};
use yasna_base::bytes::identifier::read_identifier;
use yasna_base::error::ASN1ErrorKind;
use yasna_base::mode::BERMode;
use yasna_base::tag::{PCBit, Tag};
use yasna_base::tags::TAG_EOC;
use yasna_bytes::bytes::cursor::Cursor;
use yasna_bytes::bytes::header::{ContentsEnd, Opened as Found, open_after_identifier};
use yasna_bytes::bytes::length::read_length;

// The error of a place where something else was expected.
#[cold]
fn malformed(place: Place<'_>, kind: ASN1ErrorKind, expected: Expected) -> WalkError
    ensures { result ≡ Malformed place.entry.offset kind expected }
{
    WalkError::Malformed {
        offset: place.offset,
        kind,
        expected,
    }
}

// What was expected where there is no identifier.
fn identifier_expected(place: Place<'_>, kind: ASN1ErrorKind) -> Expected {
    match kind {
        ASN1ErrorKind::Eof if place.left.is_empty() => Expected::Element,
        ASN1ErrorKind::Eof => Expected::TagNumber,
        ASN1ErrorKind::IntegerOverflow => Expected::SmallTagNumber,
        _ => Expected::ShortestTagNumber,
    }
}

// What was expected after an identifier in place of this length.
fn length_expected(mode: BERMode, size: Option<usize>, rest: &[u8]) -> Expected {
    match size {
        None => Expected::CountedLength,
        Some(size) if size > rest.len() => Expected::Contents(size, rest.len()),
        Some(_) if mode == BERMode::Cer => Expected::IndefiniteLength,
        Some(_) => Expected::Length,
    }
}

// Whether as many length octets are there as the first of them counts (X.690, 8.1.3.5).
fn has_whole_length(rest: &[u8]) -> bool {
    match rest.split_first() {
        Some((first, digits)) => digits.len() >= usize::from(first.saturating_sub(128)),
        None => false,
    }
}

// What was expected after an identifier without contents.
fn contents_expected(context: Context, rest: &[u8], kind: ASN1ErrorKind) -> Expected {
    if kind == ASN1ErrorKind::StackOverflow {
        return Expected::FewerLevels;
    }
    match read_length(rest, context.mode) {
        Ok((size, trailing)) => length_expected(context.mode, size, trailing),
        Err(ASN1ErrorKind::Eof) if !has_whole_length(rest) => Expected::Length,
        Err(ASN1ErrorKind::Eof) => Expected::SmallLength,
        Err(_) => Expected::ShortestLength,
    }
}

// The element at a place with this tag, and what was found after its identifier.
fn opened_of<'a>(context: Context, place: Place<'a>, tag: Tag, found: &Found<'a>) -> OpenedItem<'a>
    requires { length found.now.contents + length (following found.now.end) ≤ length place.left.now }
    ensures tag { result.item.tag ≡ tag }
    ensures bit { result.item.bit ≡ found.now.bit }
    ensures contents { result.item.contents.now ≡ found.now.contents }
    ensures end { end_found result.end ≡ found.now.end }
    ensures offset { result.item.offset ≡ place.entry.offset }
    ensures header { result.item.header + (length found.now.contents + length (following found.now.end)) ≡ length place.entry.left.now }
    ensures size { result.item.size ≡ counted_length found.now.end (length found.now.contents) }
    ensures depth { result.item.depth + context.levels ≡ max_depth }
    ensures in_string { result.item.in_string ≡ context.in_string }
{
    let size = found.contents.len();
    let (counted, following) = match found.end {
        ContentsEnd::Definite(after) => (Some(size), after.len()),
        ContentsEnd::Indefinite => (None, 0),
    };
    let item = Item {
        offset: place.offset,
        header: place.left.len() - (size + following),
        size: counted,
        depth: LEVELS - context.levels,
        in_string: context.in_string,
        tag,
        bit: found.bit,
        contents: found.contents,
    };
    OpenedItem {
        item,
        end: found.end,
    }
}

/// Reads the header of the element at a place. `Err` says that there is none.
pub fn open<'a>(context: Context, place: Place<'a>) -> Result<OpenedItem<'a>, WalkError>
    ensures { ItemAt context place.entry result }
{
    let (tag, bit, rest) = match read_identifier(place.left) {
        Ok(identifier) => identifier,
        Err(kind) => return Err(malformed(place, kind, identifier_expected(place, kind))),
    };
    if tag == TAG_EOC {
        return Err(malformed(place, ASN1ErrorKind::Invalid, Expected::NoEnd));
    }
    let cursor = Cursor::start(place.left, context.mode).at_depth(place.left, 0, context.levels);
    match open_after_identifier(cursor, bit, rest) {
        Ok(found) => Ok(opened_of(context, place, tag, &found)),
        Err(rejection) => {
            let expected = contents_expected(context, rest, rejection.kind);
            Err(malformed(place, rejection.kind, expected))
        }
    }
}
