//! How a string is cut into segments, as far as CER requires (X.690, 9.2).
ghost use Rattle.std.specs.Prelude.{◌≡◌, ◌↔◌, IsTrue, true, false};
ghost use Rattle.yasna_base.specs.Segmented.{StaysWhole, MaySegment, segment_mode};
ghost use Rattle.yasna_bytes.specs.Segments.{further_cut, AcceptsCuts};

use yasna_base::mode::BERMode;

/// How segments are cut, as they are read.
#[derive(Clone, Copy, Drop)]
pub struct Cuts {
    // Whether there is a segment.
    some: bool,
    // Whether all segments are full.
    full: bool,
    // Whether there are two segments or more, all full but the last, which has a byte or more and isn't longer than a full one.
    even: bool,
}

impl Cuts {
    /// The cuts of no segments.
    #[inline(always)]
    pub fn none() -> Cuts
        ensures { result ≡ record { some = false; full = true; even = false } }
    {
        Cuts {
            some: false,
            full: true,
            even: false,
        }
    }

    /// The cuts of these segments and one more of `size` bytes, if `full` bytes fill one.
    #[inline(always)]
    pub fn with(self, full: usize, size: usize) -> Cuts
        ensures { result ≡ further_cut self full size }
    {
        Cuts {
            some: true,
            full: self.full && size == full,
            even: self.some && (self.full && (1 <= size && size <= full)),
        }
    }
}

/// Whether a mode accepts strings in segments.
#[inline(always)]
pub fn may_segment(mode: BERMode) -> bool
    ensures { IsTrue result ↔ MaySegment mode }
{
    match mode {
        BERMode::Ber => true,
        BERMode::Der => false,
        BERMode::Cer => true,
    }
}

/// The mode of the segments of a string: those of CER are strings of DER.
#[inline(always)]
pub fn inner_mode(mode: BERMode) -> BERMode
    ensures { result ≡ segment_mode mode }
{
    match mode {
        BERMode::Ber => BERMode::Ber,
        BERMode::Der => BERMode::Der,
        BERMode::Cer => BERMode::Der,
    }
}

/// Whether a mode accepts `size` bytes in one primitive element, if `full` bytes fill a segment.
#[inline(always)]
pub fn stays_whole(mode: BERMode, full: usize, size: usize) -> bool
    ensures { IsTrue result ↔ StaysWhole mode full size }
{
    match mode {
        BERMode::Ber => true,
        BERMode::Der => true,
        BERMode::Cer => size <= full,
    }
}

/// Whether a mode accepts segments that are cut so.
#[inline(always)]
pub fn takes_cuts(mode: BERMode, cuts: Cuts) -> bool
    ensures { IsTrue result ↔ AcceptsCuts mode cuts }
{
    match mode {
        BERMode::Ber => true,
        BERMode::Der => true,
        BERMode::Cer => cuts.even,
    }
}
