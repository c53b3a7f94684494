//! Ranges of an INTEGER of any size: its bytes are a number in two's complement (X.690, 8.3).
ghost use Rattle.std.specs.Prelude.{◌≡◌, ◌≤ℤ◌, ◌*ℤ◌, ◌+ℤ◌, pos, negsuc, nat_lt, get_or, []};
ghost use Rattle.yasna_base.specs.BigInteger.{signed_number};
ghost use Rattle.yasna_base.specs.Integer.{twos};
ghost use Rattle.yasna_bytes.specs.Contents.{big_integer_in};
ghost use Rattle.yasna_notation_constraints.specs.Numbers.{saturated, same_number};

use crate::numbers::HasNumber;
use yasna_notation::BigInteger;

// 2^64: numbers past it are beyond each bound of 64 bits.
const LIMIT: i128 = 18446744073709551616;

impl HasNumber for BigInteger {
    ghost number = { λ v. twos v.0.items };

    #[inline(always)]
    fn is_from(value: &(Vec<u8>, bool), low: i64) -> bool {
        nearest(value.0.as_slice()) >= i128::from(low)
    }

    #[inline(always)]
    fn is_up_to(value: &(Vec<u8>, bool), high: i64) -> bool {
        nearest(value.0.as_slice()) <= i128::from(high)
    }

    ghost numbers = { λ v w e. same_number (big_integer_in v) (big_integer_in w) e };
}

// The number that bytes represent in two's complement, or the limit on its side.
fn nearest(bytes: &[u8]) -> i128
    ensures { result ≡ saturated (twos bytes.now) }
{
    let mut number = begun(bytes);
    for place in 0..bytes.len() {
        number = followed(number, bytes[place]);
    }
    number
}

// What no bytes represent, before bytes of this sign.
fn begun(bytes: &[u8]) -> i128
    ensures { result ≡ signed_number (nat_lt (get_or bytes.now 0 0) 128) [] }
{
    if !bytes.is_empty() && bytes[0] >= 128 {
        -1
    } else {
        0
    }
}

// The number of the bytes of a number and one more, or the limit on its side.
fn followed(number: i128, byte: u8) -> i128
    requires low { negsuc 18446744073709551615 ≤ℤ number }
    requires high { number ≤ℤ pos 18446744073709551616 }
    ensures { result ≡ saturated (number *ℤ pos 256 +ℤ pos byte) }
{
    let next = number * 256 + i128::from(byte);
    next.clamp(-LIMIT, LIMIT)
}
