//! The types of X.680: their characters, and whether they have parts.
ghost use Rattle.std.specs.Prelude.{◌≡◌, ◌≤◌, get_or};
ghost use Rattle.asn1show_printer.specs.Types.{diagnostic_if_constructed, is_set, is_string, is_unknown, is_utf8, type_with, universal_types};
ghost use Rattle.asn1show_printer.specs.declared.asn_type.AsnType.TheVariants.{Unknown};

use crate::diagnostic::Diagnostic;
use yasna_base::tag::{Tag, TagClass};

/// The characters of a type of text.
#[derive(Clone, Copy)]
pub enum Characters {
    /// Unicode, in UTF-8.
    Utf8,
    /// Digits and the space.
    Numeric,
    /// The characters of PrintableString.
    Printable,
    /// ASCII.
    Ia5,
    /// ASCII without control characters.
    Visible,
    /// Unicode, in two octets each.
    Bmp,
    /// Unicode, in four octets each.
    Universal,
    /// Other characters, which aren't validated.
    Other,
}

/// A type of X.680, or one that isn't known.
#[derive(Clone, Copy)]
pub enum AsnType {
    /// BOOLEAN.
    Boolean,
    /// INTEGER and ENUMERATED.
    Integer,
    /// BIT STRING.
    Bits,
    /// OCTET STRING.
    Octets,
    /// NULL.
    Null,
    /// OBJECT IDENTIFIER.
    Oid,
    /// RELATIVE-OID.
    Relative,
    /// REAL.
    Real,
    /// A text that is a string: BER may cut it into segments.
    Text(Characters),
    /// A text that is always primitive: TIME and its kin, OID-IRI and RELATIVE-OID-IRI (X.690, 8.21, 8.22 and 8.26).
    Whole(Characters),
    /// UTCTime.
    UtcTime,
    /// GeneralizedTime.
    GeneralizedTime,
    /// SET and SET OF.
    Set,
    /// Another type with parts.
    Parts,
    /// A type that isn't known.
    Unknown,
}

// The type with a universal number from 31 on: DATE and its kin, OID-IRI and RELATIVE-OID-IRI.
fn late_type(number: u64) -> AsnType
    requires { 31 ≤ number }
    ensures { result ≡ get_or universal_types number Unknown }
{
    match number {
        31..=34 => AsnType::Whole(Characters::Visible),
        35 | 36 => AsnType::Whole(Characters::Utf8),
        _ => AsnType::Unknown,
    }
}

/// The type with this universal number.
pub fn universal_type(number: u64) -> AsnType
    ensures { result ≡ get_or universal_types number Unknown }
{
    if number >= 31 {
        return late_type(number);
    }
    match number {
        1 => AsnType::Boolean,
        2 | 10 => AsnType::Integer,
        3 => AsnType::Bits,
        4 => AsnType::Octets,
        5 => AsnType::Null,
        6 => AsnType::Oid,
        9 => AsnType::Real,
        13 => AsnType::Relative,
        17 => AsnType::Set,
        8 | 11 | 16 | 29 => AsnType::Parts,
        23 => AsnType::UtcTime,
        24 => AsnType::GeneralizedTime,
        12 => AsnType::Text(Characters::Utf8),
        18 => AsnType::Text(Characters::Numeric),
        19 => AsnType::Text(Characters::Printable),
        22 => AsnType::Text(Characters::Ia5),
        26 => AsnType::Text(Characters::Visible),
        28 => AsnType::Text(Characters::Universal),
        30 => AsnType::Text(Characters::Bmp),
        7 | 20 | 21 | 25 | 27 => AsnType::Text(Characters::Other),
        14 => AsnType::Whole(Characters::Visible),
        _ => AsnType::Unknown,
    }
}

/// The type with this tag (X.680, 8.6).
pub fn type_of(tag: Tag) -> AsnType
    ensures { result ≡ type_with tag }
{
    match tag.tag_class {
        TagClass::Universal => universal_type(tag.tag_number),
        TagClass::Application | TagClass::ContextSpecific | TagClass::Private => AsnType::Unknown,
    }
}

impl AsnType {
    /// What is wrong with a constructed element of the type, whatever is in it (X.690, 8 and 10.2).
    pub fn constructed_diagnostic(self) -> Option<Diagnostic>
        ensures { result ≡ diagnostic_if_constructed self }
    {
        match self {
            AsnType::Boolean
            | AsnType::Integer
            | AsnType::Null
            | AsnType::Oid
            | AsnType::Relative
            | AsnType::Real
            | AsnType::Whole(_) => Some(Diagnostic::HasParts),
            AsnType::Bits
            | AsnType::Octets
            | AsnType::Text(_)
            | AsnType::UtcTime
            | AsnType::GeneralizedTime => Some(Diagnostic::Segments),
            AsnType::Set | AsnType::Parts | AsnType::Unknown => None,
        }
    }

    /// Whether the type is SET, or SET OF.
    pub fn is_set(self) -> bool
        ensures { result ≡ is_set self }
    {
        matches!(self, AsnType::Set)
    }

    /// Whether the type isn't known.
    pub fn is_unknown(self) -> bool
        ensures { result ≡ is_unknown self }
    {
        matches!(self, AsnType::Unknown)
    }

    /// Whether the type may be cut into segments.
    pub fn is_string(self) -> bool
        ensures { result ≡ is_string self }
    {
        matches!(
            self,
            AsnType::Bits
                | AsnType::Octets
                | AsnType::Text(_)
                | AsnType::UtcTime
                | AsnType::GeneralizedTime
        )
    }

    /// Whether the octets of the type are characters in UTF-8 or ASCII.
    pub fn is_utf8(self) -> bool
        ensures { result ≡ is_utf8 self }
    {
        match self {
            AsnType::Text(characters) | AsnType::Whole(characters) => {
                !matches!(characters, Characters::Bmp | Characters::Universal)
            }
            _ => false,
        }
    }
}
