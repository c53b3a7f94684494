//! The order of encodings as bytes (X.690, 11.6).
ghost use Rattle.std.specs.Prelude.{◌≡◌};
ghost use Rattle.yasna_base.specs.Order.{octets_cmp};

use std::cmp::Ordering;

/// Compares encodings by the first byte that differs; a proper prefix is less.
#[inline(always)]
pub fn compare_octets(a: &[u8], b: &[u8]) -> Ordering
    ensures { result ≡ octets_cmp a.now b.now }
{
    let mut left = a;
    let mut right = b;
    while let Some((x, xs)) = left.split_first() {
        let Some((y, ys)) = right.split_first() else {
            return Ordering::Greater;
        };
        if *x != *y {
            return x.cmp(y);
        }
        left = xs;
        right = ys;
    }
    if right.is_empty() {
        Ordering::Equal
    } else {
        Ordering::Less
    }
}
