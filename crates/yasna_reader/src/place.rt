//! The place of a reading in the input, which `parse_*_located` return with an error.
//!
//! No contract sees it. A reading with a sticky error reads nothing more. From then on its place is that of the error, which may
//! be deeper than its own contents, and goes outward with the error.

use crate::state::ReaderState;

impl<'a> ReaderState<'a> {
    ghost use Rattle.std.specs.Prelude.{◌≡◌};

    // The place, counted from the input's first byte.
    #[inline(always)]
    pub(crate) fn place(&self) -> usize {
        self.place_before(self.cursor.left.len())
    }

    // The place before this many of the bytes up to the end of the contents.
    #[inline(always)]
    pub(crate) fn place_before(&self, left: usize) -> usize {
        self.cursor.end.saturating_sub(left)
    }

    // The place of an error.
    #[inline(always)]
    pub(crate) fn place_of_error(&self) -> usize {
        place_up_to(self.cursor.end, self.cursor.left.len())
    }

    // Sets the place of an error, with this many elements more around it than around this reading.
    #[inline(always)]
    pub(crate) fn set_place(&mut self, place: usize, deeper: u8)
        ensures { self.new ≡ self.old }
    {
        self.cursor.end = place.saturating_add(self.cursor.left.len());
        self.deeper = deeper;
    }

    // Sets the place of an error in the contents of an element.
    #[inline(always)]
    pub(crate) fn set_place_in(&mut self, contents: &ReaderState<'a>)
        ensures { self.new ≡ self.old }
    {
        self.set_place(contents.place_of_error(), contents.deeper.saturating_add(1));
    }
}

// The place before this many of the bytes up to an end. It is computed only for an error, and takes no reference to a reading:
// one whose reads are inlined may be in registers.
#[cold]
#[inline(never)]
fn place_up_to(end: usize, left: usize) -> usize {
    end.saturating_sub(left)
}
