//! A place in an input's bytes.
ghost use Rattle.std.specs.Prelude.{◌≡◌, ◌-◌, ◌≤◌, length};
ghost use Rattle.yasna_base.specs.Grammar.{max_depth};

use crate::bytes::header::{ContentsEnd, Opened};
use yasna_base::mode::BERMode;

// The levels of elements that a reading descends.
const LEVELS: u8 = 101;

/// A place where elements are read, and the mode.
#[derive(Clone, Copy)]
pub struct Cursor<'a> {
    /// What is left in the innermost element of definite length, or in the input.
    pub left: &'a [u8],
    /// Where that ends, counted from the input's first byte. It decides only the kinds of some errors.
    pub end: usize,
    /// The encoding rules.
    pub mode: BERMode,
    /// How many levels of elements are still allowed.
    pub levels: u8,

    ghost few: { levels ≤ max_depth },
}

impl<'a> Cursor<'a> {
    ghost use Rattle.std.specs.Prelude.{◌≡◌, ◌-◌, ◌≤◌};

    /// The beginning of an input.
    #[inline(always)]
    pub fn start(input: &'a [u8], mode: BERMode) -> Cursor<'a>
        ensures left { result.left.now ≡ input.now }
        ensures mode { result.mode ≡ mode }
        ensures levels { result.levels ≡ max_depth }
    {
        Cursor {
            left: input,
            end: input.len(),
            mode,
            levels: LEVELS,
        }
    }

    /// The beginning of an element's contents.
    #[inline(always)]
    pub fn inside(self, opened: &Opened<'a>) -> Cursor<'a>
        requires { 1 ≤ self.levels }
        ensures left { result.left.now ≡ opened.now.contents }
        ensures mode { result.mode ≡ self.entry.mode }
        ensures levels { result.levels ≡ self.entry.levels - 1 }
    {
        let end = match opened.end {
            ContentsEnd::Definite(after) => self.end.saturating_sub(after.len()),
            ContentsEnd::Indefinite => self.end,
        };
        Cursor {
            left: opened.contents,
            end,
            mode: self.mode,
            levels: self.levels - 1,
        }
    }

    /// A place further on in the same contents.
    #[inline(always)]
    pub fn further(self, left: &'a [u8]) -> Cursor<'a>
        ensures left { result.left.now ≡ left.now }
        ensures mode { result.mode ≡ self.entry.mode }
        ensures levels { result.levels ≡ self.entry.levels }
    {
        Cursor {
            left,
            end: self.end,
            mode: self.mode,
            levels: self.levels,
        }
    }

    /// The beginning of an element that is in these contents, and ends there in the input.
    #[inline(always)]
    pub fn for_element(self, element: &'a [u8], end: usize) -> Cursor<'a>
        ensures left { result.left.now ≡ element.now }
        ensures mode { result.mode ≡ self.entry.mode }
        ensures levels { result.levels ≡ self.entry.levels }
    {
        Cursor {
            left: element,
            end,
            mode: self.mode,
            levels: self.levels,
        }
    }

    /// The cursor at this place, in another mode.
    #[inline(always)]
    pub fn with_mode(self, mode: BERMode) -> Cursor<'a>
        ensures left { result.left.now ≡ self.entry.left.now }
        ensures mode { result.mode ≡ mode }
        ensures levels { result.levels ≡ self.entry.levels }
    {
        Cursor {
            left: self.left,
            end: self.end,
            mode: mode,
            levels: self.levels,
        }
    }

    /// A place in these contents or in elements within them, by the bytes that follow the innermost and the levels that are left.
    #[inline(always)]
    pub fn at_depth(self, left: &'a [u8], trailing: usize, levels: u8) -> Cursor<'a>
        requires { levels ≤ max_depth }
        ensures left { result.left.now ≡ left.now }
        ensures mode { result.mode ≡ self.entry.mode }
        ensures levels { result.levels ≡ levels }
    {
        Cursor {
            left,
            end: self.end.saturating_sub(trailing),
            mode: self.mode,
            levels,
        }
    }
}
