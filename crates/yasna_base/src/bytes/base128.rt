//! Numbers in base 128, as tag numbers and the components of object identifiers are (X.690, 8.1.2.4 and 8.19.2).
ghost use Rattle.yasna_base.specs.Base128.{Base128At};

use crate::error::ASN1ErrorKind;

// From here on a further digit in base 128 passes 2^64 - 1.
const LEAST_TOO_LARGE: u64 = 144115188075855872;

/// Reads a number in base 128, the highest digit first.
#[inline(always)]
pub fn read_base128(s: &[u8]) -> Result<(u64, &[u8]), ASN1ErrorKind>
    ensures { Base128At s.now result }
{
    let mut number: u64 = 0;
    let mut rest = s;
    while let Some((byte, after)) = rest.split_first() {
        // A first digit of zero says nothing.
        if number == 0 && *byte == 128 {
            return Err(ASN1ErrorKind::Invalid);
        }
        if number >= LEAST_TOO_LARGE {
            return Err(ASN1ErrorKind::IntegerOverflow);
        }
        rest = after;
        if *byte < 128 {
            return Ok((number * 128 + u64::from(*byte), rest));
        }
        number = number * 128 + u64::from(*byte - 128);
    }
    Err(ASN1ErrorKind::Eof)
}
