//! The errors of the conversion.
ghost use Rattle.std.specs.Prelude.{◌≡◌, ◌↔◌, ◌-◌, length, None};
ghost use Rattle.yasna_base.specs.declared.error.ASN1ErrorKind.TheVariants.{Invalid, OutOfMemory};
ghost use Rattle.asn1der_convert.specs.declared.error.ConvertError.TheVariants.{Malformed, Memory};

use asn1_contents::contents_type::ContentsType;
use std::alloc::{AllocError, AllocFailed};
use std::fmt;
use yasna_base::error::ASN1ErrorKind;
use yasna_bytes::bytes::cursor::Cursor;

/// What was expected of a segment of a string (X.690, 8.6.4, 8.7.3 and 8.23), or of the contents of a type (X.690, 8 and 11).
#[derive(Clone, Copy, PartialEq, Eq, Debug)]
pub enum Expected {
    /// A segment of a string of octets.
    OctetString,
    /// A segment of a BIT STRING.
    BitString,
    /// No unused bits, since this segment isn't the last.
    NoUnusedBits,
    /// A number in the fewest octets.
    Number,
    /// No contents.
    Nothing,
    /// Subidentifiers, each in the fewest octets.
    Subidentifiers,
    /// Characters of the type.
    Characters,
    /// A UTCTime.
    UtcTime,
    /// A GeneralizedTime with a zone, since DER has no local time.
    GeneralizedTime,
}

impl fmt::Display for Expected {
    fn fmt<W: fmt::Write>(&self, f: &mut fmt::Formatter<W>) -> fmt::Result {
        match self {
            Expected::OctetString => f.write_str("expected an OCTET STRING as a segment"),
            Expected::BitString => f.write_str("expected a BIT STRING as a segment"),
            Expected::NoUnusedBits => {
                f.write_str("expected no unused bits in a segment that isn't the last")
            }
            Expected::Number => f.write_str("expected a number in the fewest bytes"),
            Expected::Nothing => f.write_str("expected no contents"),
            Expected::Subidentifiers => {
                f.write_str("expected subidentifiers in the fewest bytes")
            }
            Expected::Characters => f.write_str("expected characters of the type"),
            Expected::UtcTime => f.write_str("expected a UTCTime"),
            Expected::GeneralizedTime => f.write_str("expected a GeneralizedTime with a zone"),
        }
    }
}

/// An error of the conversion.
#[derive(Clone, Copy, PartialEq, Eq, Debug)]
pub enum ConvertError {
    /// There is no element in BER at a place.
    Malformed {
        /// The offset of the place. In a string in segments it is that of the malformed segment.
        offset: usize,
        /// The kind of the error.
        kind: ASN1ErrorKind,
        /// What was expected of a segment, or of contents.
        expected: Option<Expected>,
    },
    /// Memory ran out.
    Memory,
}

/// The offset of this place.
pub fn offset_of(cursor: Cursor<'_>) -> usize
    ensures { result ≡ cursor.entry.end - length cursor.entry.left.now }
{
    cursor.end.saturating_sub(cursor.left.len())
}

/// What is expected of the contents of a type.
pub fn expected_of(contents_type: ContentsType) -> Option<Expected> {
    match contents_type {
        ContentsType::Number => Some(Expected::Number),
        ContentsType::Nothing => Some(Expected::Nothing),
        ContentsType::Subidentifiers => Some(Expected::Subidentifiers),
        ContentsType::Text(_) => Some(Expected::Characters),
        ContentsType::UtcTime => Some(Expected::UtcTime),
        ContentsType::GeneralizedTime => Some(Expected::GeneralizedTime),
        ContentsType::Octets => None,
    }
}

/// The error of the element that begins here, if its contents aren't those of its type, or have no form in DER.
pub fn contents_error(cursor: Cursor<'_>, expected: Option<Expected>) -> ConvertError
    ensures { result ≡ Malformed (cursor.entry.end - length cursor.entry.left.now) Invalid expected }
{
    ConvertError::Malformed {
        offset: offset_of(cursor),
        kind: ASN1ErrorKind::Invalid,
        expected,
    }
}

impl ConvertError {
    /// The error of the element that begins here.
    pub fn at(cursor: Cursor<'_>, kind: ASN1ErrorKind) -> ConvertError
        ensures memory { (result ≡ Memory) ↔ (kind ≡ OutOfMemory) }
        ensures malformed { (kind ≡ OutOfMemory → ⊥) → result ≡ Malformed (cursor.entry.end - length cursor.entry.left.now) kind None }
    {
        if kind == ASN1ErrorKind::OutOfMemory {
            return ConvertError::Memory;
        }
        ConvertError::Malformed {
            offset: offset_of(cursor),
            kind,
            expected: None,
        }
    }
}

impl fmt::Display for ConvertError {
    fn fmt<W: fmt::Write>(&self, f: &mut fmt::Formatter<W>) -> fmt::Result {
        match self {
            ConvertError::Malformed {
                offset,
                kind,
                expected: None,
            } => write!(f, "offset {offset}: {kind:?}"),
            ConvertError::Malformed {
                offset,
                kind,
                expected: Some(expected),
            } => write!(f, "offset {offset}: {kind:?}: {expected}"),
            ConvertError::Memory => f.write_str("out of memory"),
        }
    }
}

impl From<AllocError> for ConvertError {
    ghost from_gives = { λ _ e. e ≡ Memory };

    fn from(_rejected: AllocError) -> ConvertError {
        ConvertError::Memory
    }
}

impl<T: Drop> From<AllocFailed<T>> for ConvertError {
    ghost from_gives = { λ _ e. e ≡ Memory };

    fn from(_rejected: AllocFailed<T>) -> ConvertError {
        ConvertError::Memory
    }
}
