//! The parts of a SET OF, in the order of their bytes (X.690, 11.6), for `set` and `order_parts`.
ghost use Rattle.std.specs.Prelude.{◌≡◌};
ghost use Rattle.yasna_base.specs.Order.{octets_cmp};
ghost use Rattle.yasna_writer.specs.SortKey.{IsFirstEight};

use std::cmp::Ordering;
use std::convert::AsSlice;

// The count of a part's bytes in its sort key.
const KEY_LENGTH: usize = 8;

/// A part of a SET OF, after a sort key, which is the number that its first bytes spell. Most parts differ in it, and are compared
/// without their bytes.
#[derive(Drop)]
pub struct OrderedPart<'a> {
    key: u64,
    bytes: &'a [u8],

    ghost spelled: { IsFirstEight key bytes.now },
}

impl<'a> AsSlice<u8> for OrderedPart<'a> {
    ghost items = { λ p. p.bytes.now };

    fn as_slice(&self) -> &[u8] {
        self.bytes
    }
}

// The sort key: the number that the first eight bytes spell in base 256, with zeros after fewer.
fn key_of(bytes: &[u8]) -> u64
    ensures { IsFirstEight result bytes.now }
{
    let mut key: u64 = 0;
    let mut place = 0;
    while place < KEY_LENGTH {
        let byte = bytes.get(place).copied().unwrap_or(0);
        key = key * 256 + u64::from(byte);
        place += 1;
    }
    key
}

impl<'a> OrderedPart<'a> {
    /// The part of these bytes.
    pub fn new(bytes: &'a [u8]) -> OrderedPart<'a>
        ensures { result.bytes.now ≡ bytes.now }
    {
        OrderedPart {
            key: key_of(bytes),
            bytes,
        }
    }

    /// The order of two parts.
    pub fn compare(&self, other: &OrderedPart<'a>) -> Ordering
        ensures { result ≡ octets_cmp self.now.bytes.now other.now.bytes.now }
    {
        if self.key == other.key {
            return self.bytes.cmp(other.bytes);
        }
        self.key.cmp(&other.key)
    }
}
