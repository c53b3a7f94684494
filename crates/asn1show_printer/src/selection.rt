//! What is shown of elements.
ghost use Rattle.std.specs.Prelude.{◌≡◌, is_some};
ghost use Rattle.asn1show_printer.specs.Conformance.{accepts, shows};
ghost use Rattle.asn1show_printer.specs.Selection.{is_before, keeps, lists, position_after, position_at, start_of};

use crate::diagnostic::{Conformance, Diagnostic};
use yasna_base::mode::BERMode;

/// The elements that are listed.
#[derive(Clone, Copy)]
pub struct Extent {
    /// The offset of the element that is listed with what is in it, or None if all are listed.
    pub at: Option<usize>,
    /// The most levels that a listed element is deeper than that one, or than the outermost ones.
    pub depth: u8,
}

impl Extent {
    /// All elements.
    pub fn all() -> Extent {
        Extent {
            at: None,
            depth: u8::MAX,
        }
    }

    // Whether an element at this position and depth is listed.
    fn lists(self, position: Position, depth: u8) -> bool
        ensures { result ≡ lists self position depth }
    {
        match position {
            Position::Within(base) => usize::from(depth)
                <= usize::from(base) + usize::from(self.depth),
            Position::Before | Position::After => false,
        }
    }
}

/// A part of an element.
#[derive(Clone, Copy)]
pub enum Part {
    /// The element.
    Whole,
    /// Its contents.
    Contents,
}

/// What is shown of elements.
#[derive(Clone, Copy)]
pub enum Selection {
    /// A line for each element of an extent, and last the encoding rules of the whole.
    Elements(Extent),
    /// Only what excludes these encoding rules.
    Defects(BERMode),
    /// The bytes of the element at an offset, or its contents.
    Bytes(usize, Part),
}

/// Where a listing is, relative to the element that is asked for.
#[derive(Clone, Copy)]
pub enum Position {
    /// Before that element.
    Before,
    /// At that element or in it, which is in this many others.
    Within(u8),
    /// After that element.
    After,
}

impl Position {
    // The position of the next element, with this offset and depth, if the element at an offset is asked for.
    fn next(self, at: usize, offset: usize, depth: u8) -> Position
        ensures { result ≡ position_at at self offset depth }
    {
        match self {
            Position::Before if offset == at => Position::Within(depth),
            Position::Before => Position::Before,
            Position::Within(base) if base < depth => Position::Within(base),
            Position::Within(_) | Position::After => Position::After,
        }
    }
}

impl Selection {
    // The offset of the element that is asked for, if only one is.
    fn start(self) -> Option<usize>
        ensures { result ≡ start_of self }
    {
        match self {
            Selection::Elements(extent) => extent.at,
            Selection::Defects(_) => None,
            Selection::Bytes(at, _) => Some(at),
        }
    }

    /// The position before the first element: in the whole, if no element is asked for.
    pub(crate) fn start_position(self) -> Position
        ensures { is_before result ≡ is_some (start_of self) }
    {
        match self.start() {
            Some(_) => Position::Before,
            None => Position::Within(0),
        }
    }

    /// The position of the next element, which has this offset and depth.
    pub(crate) fn position_after(self, before: Position, offset: usize, depth: u8) -> Position
        ensures { result ≡ position_after (start_of self) before offset depth }
    {
        match self.start() {
            Some(at) => before.next(at, offset, depth),
            None => Position::Within(0),
        }
    }

    /// Whether a diagnostic of an element is shown. What is in a string doesn't bear on the encoding rules of the whole.
    pub fn shows(self, in_string: bool, diagnostic: Diagnostic) -> bool
        ensures { result ≡ shows self in_string diagnostic }
    {
        match self {
            Selection::Elements(_) => {
                diagnostic.is_of_module() || diagnostic.excludes(BERMode::Der)
            }
            Selection::Defects(mode) => {
                !in_string && (diagnostic.is_of_module() || diagnostic.excludes(mode))
            }
            Selection::Bytes(..) => false,
        }
    }

    /// Whether the line of an element at this position and depth, with this conformance, is written: in a check only if the element isn't in
    /// its rules.
    pub(crate) fn keeps(self, position: Position, depth: u8, element: Conformance) -> bool
        ensures { result ≡ keeps self position depth element }
    {
        match self {
            Selection::Elements(extent) => extent.lists(position, depth),
            Selection::Defects(mode) => !element.includes(mode),
            Selection::Bytes(..) => false,
        }
    }

    /// Whether elements are as asked: in a check, in its encoding rules.
    pub fn accepts(self, conformance: Conformance) -> bool
        ensures { result ≡ accepts self conformance }
    {
        match self {
            Selection::Elements(_) | Selection::Bytes(..) => true,
            Selection::Defects(mode) => conformance.includes(mode),
        }
    }

    /// Whether lines are written, and not only bytes.
    pub(crate) fn has_lines(self) -> bool {
        !matches!(self, Selection::Bytes(..))
    }
}
