//! The fewest bytes of a number, highest first (X.690, 8.3.2), for `primitive` and `length`.
ghost use Rattle.std.specs.Prelude.{◌≡◌, ◌-◌, ◌*◌, ◌^◌, ◌<◌, ◌≤◌};
ghost use Rattle.yasna_base.specs.BigInteger.{trim_leading};
ghost use Rattle.yasna_writer.specs.Integer.{sign_byte, needs_sign, sign_octet};
ghost use Rattle.yasna_base.specs.Integer.{distance};

// The bytes without leading ones equal to `byte`.
pub(crate) fn trim_leading(byte: u8, bytes: &[u8]) -> &[u8]
    ensures { result.now ≡ trim_leading byte bytes.now }
{
    let mut rest = bytes;
    while let Some((first, tail)) = rest.split_first() {
        if *first != byte {
            return rest;
        }
        rest = tail;
    }
    rest
}

// The byte that extends a number of this sign in two's complement.
pub(crate) fn sign_byte(positive: bool) -> u8
    ensures { result ≡ sign_byte positive }
{
    if positive { 0 } else { 255 }
}

// Whether bytes need a leading byte to have that sign.
fn needs_sign(positive: bool, bytes: &[u8]) -> bool
    ensures { result ≡ needs_sign positive bytes.now }
{
    match bytes.first() {
        None => true,
        Some(first) if positive => *first >= 128,
        Some(first) => *first < 128,
    }
}

// The leading byte for the sign, if one is needed.
pub(crate) fn sign_octet(positive: bool, bytes: &[u8]) -> &'static [u8]
    ensures { result.now ≡ sign_octet positive bytes.now }
{
    if !needs_sign(positive, bytes) {
        return &[];
    }
    if positive { &[0] } else { &[255] }
}

// The distance of a number from 0, or from -1 below that.
#[inline(always)]
fn distance(val: i64) -> u64
    ensures distance { result ≡ distance val }
    ensures small { result < 2 ^ 63 }
{
    if val < 0 {
        return (-1 - val).cast_unsigned();
    }
    val.cast_unsigned()
}

// The count of bytes of a number in two's complement: it has one more bit than its distance.
#[inline(always)]
pub(crate) fn octets(val: i64) -> usize
    ensures some { 1 ≤ result }
    ensures few { result ≤ 8 }
    ensures fits { distance val < 128 * 256 ^ (result - 1) }
    ensures least { 2 ≤ result → 128 * 256 ^ (result - 2) ≤ distance val }
{
    let bits = 64 - distance(val).leading_zeros();
    bits as usize / 8 + 1
}
