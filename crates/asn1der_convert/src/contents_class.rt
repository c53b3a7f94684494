//! The types whose values BER encodes in several ways (X.690, 8.2, 8.6, 8.7, 8.23 and 8.25), and those that are always primitive or
//! always constructed.
ghost use Rattle.std.specs.Prelude.{IsTrue, ◌↔◌};
ghost use Rattle.asn1der_convert.specs.Tags.{IsStringTag, IsPrimitiveTag, IsConstructedTag};
ghost use Rattle.asn1der_convert.specs.Conversion.{Converts};
ghost use Rattle.asn1der_convert.specs.ContentsClass.{IsOfClass};

use yasna_base::tag::{Tag, TagClass};
use yasna_base::tags::{TAG_BITSTRING, TAG_BOOLEAN, TAG_EOC};

/// How the contents of an element are read.
#[derive(Clone, Copy)]
pub enum ContentsClass {
    /// No element: the tag is that of the end of contents.
    EndOfContents,
    /// BOOLEAN.
    Boolean,
    /// BIT STRING.
    Bits,
    /// A string of octets.
    Octets,
    /// Any other type.
    Other,
}

// Whether this is the tag of a string of octets.
fn is_string(tag: Tag) -> bool
    ensures { IsTrue result ↔ IsStringTag tag }
{
    tag.tag_class == TagClass::Universal && matches!(tag.tag_number, 4 | 7 | 12 | 18..=28 | 30)
}

/// Whether this is the tag of a type whose encoding is primitive.
pub fn is_primitive_type(tag: Tag) -> bool
    ensures { IsTrue result ↔ IsPrimitiveTag tag }
{
    tag.tag_class == TagClass::Universal
        && matches!(tag.tag_number, 1 | 2 | 5 | 6 | 9 | 10 | 13 | 14 | 31..=36)
}

/// Whether this is the tag of a type whose encoding is constructed.
pub fn is_constructed_type(tag: Tag) -> bool
    ensures { IsTrue result ↔ IsConstructedTag tag }
{
    tag.tag_class == TagClass::Universal && matches!(tag.tag_number, 8 | 11 | 16 | 17 | 29)
}

/// How the contents of an element with this tag are read.
pub fn class_of(tag: Tag) -> ContentsClass
    ensures { IsOfClass result tag }
{
    match tag {
        TAG_EOC => ContentsClass::EndOfContents,
        TAG_BOOLEAN => ContentsClass::Boolean,
        TAG_BITSTRING => ContentsClass::Bits,
        _ => {
            if is_string(tag) {
                ContentsClass::Octets
            } else {
                ContentsClass::Other
            }
        }
    }
}
