//! OCTET STRING, BIT STRING and character strings.
ghost use Rattle.std.specs.Prelude.{IsTrue, ◌↔◌};
ghost use Rattle.std.specs.List.{AllByRecursion};
ghost use Rattle.std.specs.Str.{chars};
ghost use Rattle.yasna_base.specs.Bits.{CanBits};
ghost use Rattle.yasna_base.specs.Digits.{IsBytes};
ghost use Rattle.yasna_base.specs.Text.{InIa5};

use crate::checked::Checked;
use yasna_base::text::{is_ia5, is_numeric_text, is_printable_text, is_visible_text};
use yasna_notation::{BitString, Ia5String, NumericString, PrintableString, VisibleString};

impl Checked for Vec<u8> {
    #[inline(always)]
    fn accepts(value: &Vec<u8>) -> bool {
        are_bytes(value.as_slice())
    }
}

// Any octets can be written.
#[inline(always)]
fn are_bytes(octets: &[u8]) -> bool
    ensures { IsTrue result ↔ IsBytes octets.now }
{
    let _octets = octets;
    true
}

impl Checked for BitString {
    #[inline(always)]
    fn accepts(value: &(Vec<u8>, usize)) -> bool {
        hold_bits(value.0.as_slice(), value.1)
    }
}

// Whether the octets are as many as so many bits need (X.690, 8.6.2).
fn hold_bits(octets: &[u8], count: usize) -> bool
    ensures { IsTrue result ↔ CanBits (record { bytes = octets.now; count = count }) }
{
    let whole = count / 8;
    if count % 8 == 0 {
        octets.len() == whole
    } else {
        octets.len() == whole + 1
    }
}

impl Checked for String {
    #[inline(always)]
    fn accepts(_value: &String) -> bool {
        true
    }
}

impl Checked for PrintableString {
    #[inline(always)]
    fn accepts(value: &String) -> bool {
        is_printable_text(value.as_str())
    }
}

impl Checked for NumericString {
    #[inline(always)]
    fn accepts(value: &String) -> bool {
        is_numeric_text(value.as_str())
    }
}

impl Checked for VisibleString {
    #[inline(always)]
    fn accepts(value: &String) -> bool {
        is_visible_text(value.as_str())
    }
}

impl Checked for Ia5String {
    #[inline(always)]
    fn accepts(value: &String) -> bool {
        is_ia5_text(value.as_str())
    }
}

// Whether an IA5String may hold the text: characters below 128 (X.680, 41).
fn is_ia5_text(text: &str) -> bool
    ensures { IsTrue result ↔ AllByRecursion InIa5 (chars text.now) }
{
    is_ia5(text.as_bytes())
}
