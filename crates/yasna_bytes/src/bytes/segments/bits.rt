//! Bit strings (X.690, 8.6, 9.2 and 11.2.1).
ghost use Rattle.std.proofs.Common.{refl};
ghost use Rattle.std.specs.Prelude.{◌≡◌, ◌∷◌, ◌+◌, ◌*◌, ◌-◌, ◌^◌, ◌≤◌, ◌<◌, length, IsTrue, ◌↔◌, MatchOption};
ghost use Rattle.yasna_base.specs.declared.mode.BERMode.TheVariants.{Der};
ghost use Rattle.yasna_base.proofs.Bits.{bits_once, joined_follow, follow_prefix};
ghost use Rattle.yasna_base.specs.Bits.{BitString, IsPadded, bits_segmentation};
ghost use Rattle.yasna_bytes.specs.Segments.{BitsAt};

use crate::bytes::cursor::Cursor;
use crate::bytes::header::Rejection;
use crate::bytes::segments::{Tally, string};
use std::alloc::Global;
use yasna_base::error::ASN1ErrorKind;
use yasna_base::mode::BERMode;
use yasna_base::tag::Tag;
use yasna_base::tags::TAG_BITSTRING;

/// The tally of a bit string: the count of its bits.
#[derive(Clone, Copy, Drop)]
pub struct Bits {
    count: usize,
}

// Whether the unused bits at the end are zero.
#[inline(always)]
fn ends_in_zeros(unused: u8, bytes: &[u8]) -> bool
    requires { unused ≤ 7 }
    ensures { IsTrue result ↔ IsPadded Der unused bytes.now }
{
    match bytes.last() {
        Some(last) => *last % (1u8 << unused) == 0,
        None => true,
    }
}

// Whether the unused bits are as the mode requires.
#[inline(always)]
fn is_padded(mode: BERMode, unused: u8, bytes: &[u8]) -> bool
    requires { unused ≤ 7 }
    ensures { IsTrue result ↔ IsPadded mode unused bytes.now }
{
    match mode {
        BERMode::Ber => true,
        BERMode::Der => ends_in_zeros(unused, bytes),
        BERMode::Cer => ends_in_zeros(unused, bytes),
    }
}

// The count of bits in these bytes, less the unused ones.
#[inline(always)]
fn used_bits(bytes: usize, unused: u8) -> Option<usize>
    requires few { unused ≤ 7 }
    requires none_of_none { bytes ≡ 0 → unused ≡ 0 }
    ensures { MatchOption result (2 ^ 64 + unused ≤ 8 * bytes) (λ count. count + unused ≡ 8 * bytes) }
{
    if bytes == 0 {
        return Some(0);
    }
    match (bytes - 1).checked_mul(8) {
        Some(count) => count.checked_add(usize::from(8 - unused)),
        None => None,
    }
}

impl Tally for Bits {
    ghost Value = { BitString };

    ghost segmentation = { bits_segmentation };

    ghost value = { λ b x. record { bytes = b; count = x.count } };

    #[inline(always)]
    fn tag() -> Tag {
        TAG_BITSTRING
    }

    #[inline(always)]
    fn full() -> usize {
        // the thousandth octet of a segment counts the unused bits
        999
    }

    #[inline(always)]
    fn none() -> Bits {
        Bits { count: 0 }
    }

    #[inline(always)]
    fn of_contents(mode: BERMode, contents: &[u8]) -> Result<(Bits, &[u8]), ASN1ErrorKind> {
        let Some((unused, bytes)) = contents.split_first() else {
            return Err(ASN1ErrorKind::Invalid);
        };
        let unused = *unused;
        if unused >= 8 {
            return Err(ASN1ErrorKind::Invalid);
        }
        if bytes.is_empty() && unused != 0 {
            return Err(ASN1ErrorKind::Invalid);
        }
        if !is_padded(mode, unused, bytes) {
            return Err(ASN1ErrorKind::Invalid);
        }
        match used_bits(bytes.len(), unused) {
            Some(count) => Ok((Bits { count }, bytes)),
            None => Err(ASN1ErrorKind::IntegerOverflow),
        }
    }

    #[inline(always)]
    fn with(self, segment: Bits) -> Result<Bits, ASN1ErrorKind> {
        match self.count.checked_add(segment.count) {
            Some(count) => Ok(Bits { count }),
            None => Err(ASN1ErrorKind::IntegerOverflow),
        }
    }

    // Only the last segment may have unused bits, so all together have as many as the last.
    #[inline(always)]
    fn may_go_on(self) -> bool {
        self.count % 8 == 0
    }

    ghost holds = { λ b x. refl };

    ghost once = { bits_once };

    ghost go_on = { record { joined = joined_follow; more = λ vs ws w h. follow_prefix vs (w ∷ ws) h } };
}

/// Reads a bit string with this tag, and returns its bytes, the count of its bits, and the rest.
#[inline(always)]
pub fn bit_string<'a>(
    alloc: Global,
    cursor: Cursor<'a>,
    tag: Tag,
) -> Result<((Vec<u8>, usize), &'a [u8]), Rejection>
    ensures { BitsAt cursor.entry.levels cursor.entry.mode tag cursor.entry.left.now result }
{
    match string::<Bits>(alloc, cursor, tag) {
        Ok(((bytes, bits), rest)) => Ok(((bytes, bits.count), rest)),
        Err(rejection) => Err(rejection),
    }
}
