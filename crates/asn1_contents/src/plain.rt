//! The contents that BER and DER have in common (X.690, 8.3, 8.8, 8.19, 8.20 and 8.23).
ghost use Rattle.std.specs.Prelude.{◌≡◌, ◌↔◌, nat_lt, IsTrue, IsUtf8};
ghost use Rattle.yasna_base.specs.Integer.{IsMinimal};
ghost use Rattle.yasna_bytes.specs.Text.{MayHold};
ghost use Rattle.yasna_bytes.specs.declared.bytes.text.Class.TheVariants.{Bmp};
ghost use Rattle.asn1_contents.specs.Contents.{ArePlain, IsTextOf};
ghost use Rattle.asn1_contents.specs.Subidentifiers.{AreSubidentifiers};

use crate::contents_type::ContentsType;
use std::str;
use yasna_base::text::{is_ia5, is_numeric, is_printable, is_visible};
use yasna_bytes::bytes::text::Class;

/// Whether contents are a number in two's complement, in the fewest octets (X.690, 8.3.2).
pub fn is_number(contents: &[u8]) -> bool
    ensures { IsTrue result ↔ IsMinimal contents.now }
{
    match contents {
        [] => false,
        [0, second, ..] => *second >= 128,
        [255, second, ..] => *second < 128,
        _ => true,
    }
}

/// Whether a subidentifier ends with this octet (X.690, 8.19.2).
pub fn is_last(octet: &u8) -> bool
    ensures { result ≡ nat_lt octet.now 128 }
{
    *octet < 128
}

/// Whether contents are one or more subidentifiers, each in the fewest octets (X.690, 8.19.2 and 8.20.2).
pub fn are_subidentifiers(contents: &[u8]) -> bool
    ensures { IsTrue result ↔ AreSubidentifiers contents.now }
{
    let mut begins = true;
    for octet in contents {
        if begins && *octet == 128 {
            return false;
        }
        begins = is_last(octet);
    }
    begins && !contents.is_empty()
}

// Whether octets are a text in UTF-8.
fn is_utf8(octets: &[u8]) -> bool
    ensures { IsTrue result ↔ IsUtf8 octets.now }
{
    str::from_utf8(octets).is_ok()
}

// Whether octets are units of two each.
fn are_units(octets: &[u8]) -> bool
    ensures { IsTrue result ↔ MayHold Bmp octets.now }
{
    octets.len() % 2 == 0
}

/// Whether octets are a text of a class. A BMPString has two octets for each unit of UTF-16.
pub fn is_text(class: Class, octets: &[u8]) -> bool
    ensures { IsTrue result ↔ IsTextOf class octets.now }
{
    match class {
        Class::Utf8 => is_utf8(octets),
        Class::Numeric => is_numeric(octets),
        Class::Printable => is_printable(octets),
        Class::Ia5 => is_ia5(octets),
        Class::Visible => is_visible(octets),
        Class::Bmp => are_units(octets),
    }
}

/// Whether contents are those of a type in BER, which are those in DER too. Times are others: `der_contents` reads them.
pub fn are_plain(contents_type: ContentsType, contents: &[u8]) -> bool
    ensures { IsTrue result ↔ ArePlain contents_type contents.now }
{
    match contents_type {
        ContentsType::Number => is_number(contents),
        ContentsType::Nothing => contents.is_empty(),
        ContentsType::Subidentifiers => are_subidentifiers(contents),
        ContentsType::Text(class) => is_text(class, contents),
        ContentsType::Octets => true,
        ContentsType::UtcTime | ContentsType::GeneralizedTime => false,
    }
}
