//! The types whose contents are validated, by their tags (X.680, 8.6).
ghost use Rattle.std.specs.Prelude.{◌≡◌};
ghost use Rattle.asn1_contents.specs.ContentsType.{type_with, universal_type};

use yasna_base::tag::{Tag, TagClass};
use yasna_bytes::bytes::text::Class;

/// What the contents of a type are.
#[derive(Clone, Copy)]
pub enum ContentsType {
    /// A number: INTEGER and ENUMERATED (X.690, 8.3 and 8.4).
    Number,
    /// Nothing: NULL (X.690, 8.8).
    Nothing,
    /// Subidentifiers: OBJECT IDENTIFIER and RELATIVE-OID (X.690, 8.19 and 8.20).
    Subidentifiers,
    /// The characters of a class: UTF8String, NumericString, PrintableString, IA5String, VisibleString and BMPString (X.690, 8.23).
    Text(Class),
    /// A UTCTime (X.680, 47; X.690, 11.8).
    UtcTime,
    /// A GeneralizedTime (X.680, 46; X.690, 11.7).
    GeneralizedTime,
    /// Any octets. The contents of all other types aren't validated.
    Octets,
}

// The type with a universal number.
fn universal_type(number: u64) -> ContentsType
    ensures { result ≡ universal_type number }
{
    match number {
        2 | 10 => ContentsType::Number,
        5 => ContentsType::Nothing,
        6 | 13 => ContentsType::Subidentifiers,
        12 => ContentsType::Text(Class::Utf8),
        18 => ContentsType::Text(Class::Numeric),
        19 => ContentsType::Text(Class::Printable),
        22 => ContentsType::Text(Class::Ia5),
        23 => ContentsType::UtcTime,
        24 => ContentsType::GeneralizedTime,
        26 => ContentsType::Text(Class::Visible),
        30 => ContentsType::Text(Class::Bmp),
        _ => ContentsType::Octets,
    }
}

/// The type of the contents of an element with this tag. A tag of another class than the universal one says nothing of them.
#[tactic(auto, unfolding(crate::specs::ContentsType::type_with))]
pub fn contents_type(tag: Tag) -> ContentsType
    ensures { result ≡ type_with tag }
{
    match tag.tag_class {
        TagClass::Universal => universal_type(tag.tag_number),
        TagClass::Application | TagClass::ContextSpecific | TagClass::Private => {
            ContentsType::Octets
        }
    }
}
