//! BOOLEAN, INTEGER, ENUMERATED, NULL, OBJECT IDENTIFIER, times, and elements of any tag.
//!
//! A number of a type of Rust is always within the type's range, and a time or an element of any tag can always be written.
ghost use Rattle.std.specs.Prelude.{IsTrue, ◌↔◌};
ghost use Rattle.yasna_base.specs.BigInteger.{CanBigInteger};
ghost use Rattle.yasna_base.specs.Integer.{IsMinimal};

use crate::checked::Checked;
use yasna_base::models::{ObjectIdentifier, TaggedDerValue};
use yasna_notation::{BigInteger, Enumerated};
use yasna_times::models::{GeneralizedTime, UTCTime};

impl Checked for bool {
    #[inline(always)]
    fn accepts(_value: &bool) -> bool {
        true
    }
}

impl Checked for () {
    #[inline(always)]
    fn accepts(_value: &()) -> bool {
        true
    }
}

impl Checked for i64 {
    #[inline(always)]
    fn accepts(value: &i64) -> bool {
        let _number = *value;
        true
    }
}

impl Checked for i32 {
    #[inline(always)]
    fn accepts(value: &i32) -> bool {
        let _number = *value;
        true
    }
}

impl Checked for u64 {
    #[inline(always)]
    fn accepts(value: &u64) -> bool {
        let _number = *value;
        true
    }
}

impl Checked for u32 {
    #[inline(always)]
    fn accepts(value: &u32) -> bool {
        let _number = *value;
        true
    }
}

impl Checked for Enumerated {
    #[inline(always)]
    fn accepts(value: &i64) -> bool {
        let _number = *value;
        true
    }
}

impl Checked for ObjectIdentifier {
    #[inline(always)]
    fn accepts(value: &ObjectIdentifier) -> bool {
        value.is_encodable()
    }
}

impl Checked for BigInteger {
    #[inline(always)]
    fn accepts(value: &(Vec<u8>, bool)) -> bool {
        is_canonical(value.0.as_slice(), value.1)
    }
}

// Whether these are the fewest bytes of a number in two's complement: one at least, and the first nine bits aren't all equal (X.690, 8.3.2).
fn is_minimal(bytes: &[u8]) -> bool
    ensures { IsTrue result ↔ IsMinimal bytes.now }
{
    match bytes {
        [] => false,
        [_] => true,
        [first, second, ..] => (*first != 0 || *second >= 128) && (*first != 255 || *second < 128),
    }
}

// Whether these are the fewest bytes of a number, and it has this sign.
fn is_canonical(bytes: &[u8], positive: bool) -> bool
    ensures { IsTrue result ↔ CanBigInteger (record { bytes = bytes.now; positive = positive }) }
{
    is_minimal(bytes) && positive == (bytes[0] < 128)
}

impl Checked for UTCTime {
    #[inline(always)]
    fn accepts(_value: &UTCTime) -> bool {
        true
    }
}

impl Checked for GeneralizedTime {
    #[inline(always)]
    fn accepts(_value: &GeneralizedTime) -> bool {
        true
    }
}

impl Checked for TaggedDerValue {
    #[inline(always)]
    fn accepts(_value: &TaggedDerValue) -> bool {
        true
    }
}
