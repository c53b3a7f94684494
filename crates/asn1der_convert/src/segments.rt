//! The malformed segment of a string (X.690, 8.6.4, 8.7.3 and 8.23).
//!
//! A string is read as a whole, so its error says nothing of the segment. `string_error` reads the segments again, each as a string.
ghost use Rattle.std.specs.Prelude.{◌≡◌, ◌↔◌};
ghost use Rattle.yasna_base.specs.declared.error.ASN1ErrorKind.TheVariants.{OutOfMemory};
ghost use Rattle.asn1der_convert.specs.declared.error.ConvertError.TheVariants.{Memory};

use crate::conversion::after_end;
use crate::error::{ConvertError, Expected, offset_of};
use std::alloc::Global;
use yasna_base::error::ASN1ErrorKind;
use yasna_base::tag::{PCBit, Tag};
use yasna_base::tags::{TAG_BITSTRING, TAG_OCTETSTRING};
use yasna_bytes::bytes::cursor::Cursor;
use yasna_bytes::bytes::header::{ContentsEnd, open};
use yasna_bytes::bytes::segments::{bit_string, octet_string};

/// The kind of a string, by its segments.
#[derive(Clone, Copy)]
pub enum StringKind {
    /// BIT STRING.
    Bits,
    /// A string of octets.
    Octets,
}

// A segment that is malformed.
#[derive(Clone, Copy)]
struct MalformedSegment<'a> {
    place: Cursor<'a>,
    kind: ASN1ErrorKind,
    expected: Expected,
}

impl MalformedSegment<'_> {
    // The error of the string around it.
    fn error(self) -> ConvertError
        ensures { result ≡ Memory → ⊥ }
    {
        ConvertError::Malformed {
            offset: offset_of(self.place),
            kind: self.kind,
            expected: Some(self.expected),
        }
    }
}

// The tag of each segment.
fn segment_tag(kind: StringKind) -> Tag {
    match kind {
        StringKind::Bits => TAG_BITSTRING,
        StringKind::Octets => TAG_OCTETSTRING,
    }
}

// What each segment is.
fn segment_type(kind: StringKind) -> Expected {
    match kind {
        StringKind::Bits => Expected::BitString,
        StringKind::Octets => Expected::OctetString,
    }
}

// Reads a segment: what follows it, and whether another one may.
fn read_segment(
    alloc: Global,
    cursor: Cursor<'_>,
    kind: StringKind,
) -> Result<(&[u8], bool), ASN1ErrorKind> {
    match kind {
        StringKind::Bits => match bit_string(alloc, cursor, TAG_BITSTRING) {
            Ok(((_, count), rest)) => Ok((rest, count % 8 == 0)),
            Err(rejection) => Err(rejection.kind),
        },
        StringKind::Octets => match octet_string(alloc, cursor, TAG_OCTETSTRING) {
            Ok((_, rest)) => Ok((rest, true)),
            Err(rejection) => Err(rejection.kind),
        },
    }
}

// The segment here, if it is malformed, or else what follows it.
fn check_segment<'a>(
    alloc: Global,
    place: Cursor<'a>,
    end: ContentsEnd<'a>,
    kind: StringKind,
) -> Result<&'a [u8], MalformedSegment<'a>> {
    match read_segment(alloc, place, kind) {
        Ok((rest, may_go_on)) => {
            if may_go_on || after_end(end, rest).is_some() {
                return Ok(rest);
            }
            Err(MalformedSegment {
                place,
                kind: ASN1ErrorKind::Invalid,
                expected: Expected::NoUnusedBits,
            })
        }
        Err(error) => Err(MalformedSegment {
            place,
            kind: error,
            expected: segment_type(kind),
        }),
    }
}

// The first malformed segment in contents, unless memory runs out. A segment takes a byte or more.
fn first_malformed<'a>(
    alloc: Global,
    contents: Cursor<'a>,
    end: ContentsEnd<'a>,
    kind: StringKind,
) -> Option<MalformedSegment<'a>> {
    let mut place = contents;
    for _ in 0..=contents.left.len() {
        if after_end(end, place.left).is_some() {
            return None;
        }
        match check_segment(alloc, place, end, kind) {
            Ok(rest) => place = place.further(rest),
            Err(segment) if segment.kind == ASN1ErrorKind::OutOfMemory => return None,
            Err(segment) => return Some(segment),
        }
    }
    None
}

// The first malformed segment of the string with this tag that begins here.
fn malformed_segment<'a>(
    alloc: Global,
    cursor: Cursor<'a>,
    tag: Tag,
    kind: StringKind,
) -> Option<MalformedSegment<'a>> {
    let Ok(opened) = open(cursor, tag) else {
        return None;
    };
    match opened.bit {
        PCBit::Primitive => None,
        PCBit::Constructed => first_malformed(alloc, cursor.inside(&opened), opened.end, kind),
    }
}

// The innermost malformed segment of the string with this tag that begins here. Each segment within another is a level deeper.
fn innermost<'a>(
    alloc: Global,
    cursor: Cursor<'a>,
    tag: Tag,
    kind: StringKind,
) -> Option<MalformedSegment<'a>> {
    let mut found = malformed_segment(alloc, cursor, tag, kind);
    for _ in 0..cursor.levels {
        let Some(segment) = found else {
            return found;
        };
        match malformed_segment(alloc, segment.place, segment_tag(kind), kind) {
            Some(inner) => found = Some(inner),
            None => return found,
        }
    }
    found
}

/// The error of the malformed string with this tag that begins here: that of the innermost segment that is malformed, or else its own.
pub fn string_error(
    alloc: Global,
    cursor: Cursor<'_>,
    tag: Tag,
    kind: StringKind,
    error: ASN1ErrorKind,
) -> ConvertError
    ensures { (result ≡ Memory) ↔ (error ≡ OutOfMemory) }
{
    if error == ASN1ErrorKind::OutOfMemory {
        return ConvertError::Memory;
    }
    match innermost(alloc, cursor, tag, kind) {
        Some(segment) => segment.error(),
        None => ConvertError::at(cursor, error),
    }
}
