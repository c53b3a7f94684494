//! Places of elements, and the context in which they are read.
ghost use Rattle.std.specs.Prelude.{◌≡◌, ◌+◌, ◌-◌, ◌^◌, ◌<◌, ◌≤◌, length, true, false};
ghost use Rattle.yasna_base.specs.Grammar.{max_depth};

use yasna_base::mode::BERMode;

/// The levels of elements that are listed.
pub const LEVELS: u8 = 101;

/// Bytes, and their offset in the input.
#[derive(Clone, Copy)]
pub struct Place<'a> {
    /// The bytes that are left in the contents around, or in the input.
    pub left: &'a [u8],
    /// The offset of the first of them in the input.
    pub offset: usize,

    ghost fits: { offset + length left.now < 2 ^ 64 },
}

impl<'a> Place<'a> {
    /// The beginning of an input.
    pub(super) fn start(input: &'a [u8]) -> Place<'a>
        ensures left { result.left.now ≡ input.now }
        ensures offset { result.offset ≡ 0 }
    {
        Place {
            left: input,
            offset: 0,
        }
    }

    /// The place where only these bytes are left of those here.
    pub(super) fn further(self, rest: &'a [u8]) -> Place<'a>
        requires { length rest.now ≤ length self.left.now }
        ensures left { result.left.now ≡ rest.now }
        ensures offset { result.offset + length rest.now ≡ self.entry.offset + length self.entry.left.now }
    {
        Place {
            left: rest,
            offset: self.offset + (self.left.len() - rest.len()),
        }
    }
}

/// How elements are read.
#[derive(Clone, Copy)]
pub struct Context {
    /// The encoding rules.
    pub mode: BERMode,
    /// How many levels of elements are still allowed.
    pub levels: u8,
    /// Whether the elements are in the contents of a string.
    pub in_string: bool,

    ghost few: { levels ≤ max_depth },
}

impl Context {
    /// The rules at the beginning of an input.
    pub(super) fn start(mode: BERMode) -> Context
        ensures mode { result.mode ≡ mode }
        ensures levels { result.levels ≡ max_depth }
        ensures in_string { result.in_string ≡ false }
    {
        Context {
            mode,
            levels: LEVELS,
            in_string: false,
        }
    }

    /// The context one level further in.
    pub(super) fn below(self) -> Context
        requires { 1 ≤ self.levels }
        ensures mode { result.mode ≡ self.mode }
        ensures levels { result.levels + 1 ≡ self.levels }
        ensures in_string { result.in_string ≡ self.in_string }
    {
        Context {
            mode: self.mode,
            levels: self.levels - 1,
            in_string: self.in_string,
        }
    }

    /// The context in the contents of a string, one level further in.
    pub(super) fn for_string(self) -> Context
        requires { 1 ≤ self.levels }
        ensures mode { result.mode ≡ self.mode }
        ensures levels { result.levels + 1 ≡ self.levels }
        ensures in_string { result.in_string ≡ true }
    {
        Context {
            mode: self.mode,
            levels: self.levels - 1,
            in_string: true,
        }
    }
}
