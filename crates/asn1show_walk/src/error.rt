//! The errors of a run.
ghost use Rattle.std.specs.Prelude.{◌≡◌, ◌↔◌, IsTrue};
ghost use Rattle.std.specs.IoError.{error_kind};
ghost use Rattle.asn1show_walk.specs.Errors.{output_error, IsExternal};
ghost use Rattle.asn1show_walk.specs.declared.error.WalkError.TheVariants.{Memory};

use std::alloc::{AllocError, AllocFailed};
use std::{fmt, io};
use yasna_base::error::ASN1ErrorKind;

/// What was expected at a place.
#[derive(Clone, Copy)]
pub enum Expected {
    /// Any element.
    Element,
    /// More of a tag number.
    TagNumber,
    /// A tag number in its shortest encoding.
    ShortestTagNumber,
    /// A tag number of 64 bits.
    SmallTagNumber,
    /// Anything but the tag of the end of contents.
    NoEnd,
    /// The two zeros that end contents.
    End,
    /// Fewer levels.
    FewerLevels,
    /// A length, or more of one.
    Length,
    /// A length in its shortest encoding.
    ShortestLength,
    /// A length below 2^64.
    SmallLength,
    /// A definite length.
    CountedLength,
    /// An indefinite length.
    IndefiniteLength,
    /// Contents of this many octets, of which this many are left.
    Contents(usize, usize),
    /// A hexadecimal digit, or a separator.
    HexDigit,
    /// The second hexadecimal digit of a pair.
    HexPair,
    /// A digit of base64.
    Base64Digit,
    /// No padding of base64, which is only at its end.
    Base64Unpadded,
    /// A last digit of base64 whose unused bits are zeros.
    Base64Zeros,
    /// Base64 in groups of four.
    Base64Groups,
    /// The blank line that ends the headers of a block of PEM.
    BlankLine,
    /// A block of PEM that isn't encrypted.
    PlainBlock,
    /// A line that begins a block of PEM.
    Block,
    /// A line that ends a block of PEM.
    BlockEnd,
}

impl fmt::Display for Expected {
    fn fmt<W: fmt::Write>(&self, f: &mut fmt::Formatter<W>) -> fmt::Result {
        f.write_str(match self {
            Expected::Element => "an element",
            Expected::TagNumber => "the rest of a tag number",
            Expected::ShortestTagNumber => "a tag number of 31 or more in the fewest octets",
            Expected::SmallTagNumber => "a tag number below 2^64",
            Expected::NoEnd => "an element, no end of contents",
            Expected::End => "the two zeros that end contents",
            Expected::FewerLevels => "at most 101 levels of elements",
            Expected::Length => "length octets",
            Expected::ShortestLength => "a length in the fewest octets",
            Expected::SmallLength => "a length below 2^64",
            Expected::CountedLength => "a length that is counted",
            Expected::IndefiniteLength => "a constructed element of indefinite length",
            Expected::Contents(size, left) => {
                return write!(f, "{size} octets of contents, of which {left} are there");
            }
            Expected::HexDigit => "a hexadecimal digit",
            Expected::HexPair => "one more hexadecimal digit",
            Expected::Base64Digit => "a digit of base64",
            Expected::Base64Unpadded => "no padding before the end of base64",
            Expected::Base64Zeros => "zeros in the unused bits of base64",
            Expected::Base64Groups => "base64 in groups of four digits",
            Expected::BlankLine => "a blank line after the headers of the block of PEM",
            Expected::PlainBlock => "a block of PEM that isn't encrypted",
            Expected::Block => "a line that begins a block of PEM",
            Expected::BlockEnd => "a line that ends the block of PEM",
        })
    }
}

/// An error of a run.
#[derive(Clone, Copy)]
pub enum WalkError {
    /// The input is malformed at a place.
    Malformed {
        /// The offset of the place.
        offset: usize,
        /// The kind of the error.
        kind: ASN1ErrorKind,
        /// What was expected there.
        expected: Expected,
    },
    /// Memory ran out.
    Memory,
    /// A write failed.
    Output,
    /// The reader of the output has closed it.
    ClosedOutput,
}

impl WalkError {
    /// Whether the error is out of memory or of a write: it says nothing about the input.
    pub fn is_external(&self) -> bool
        ensures { IsTrue result ↔ IsExternal self.now }
    {
        match self {
            WalkError::Malformed { .. } => false,
            WalkError::Memory | WalkError::Output | WalkError::ClosedOutput => true,
        }
    }
}

impl fmt::Display for WalkError {
    fn fmt<W: fmt::Write>(&self, f: &mut fmt::Formatter<W>) -> fmt::Result {
        match self {
            WalkError::Malformed {
                offset,
                kind,
                expected,
            } => write!(f, "offset {offset}: {kind:?}: expected {expected}"),
            WalkError::Memory => f.write_str("out of memory"),
            WalkError::Output => f.write_str("the output could not be written"),
            WalkError::ClosedOutput => f.write_str("the output is closed"),
        }
    }
}

// The error of a write that failed with an error of this kind.
fn output_error(kind: io::ErrorKind) -> WalkError
    ensures { result ≡ output_error kind }
{
    match kind {
        io::ErrorKind::BrokenPipe => WalkError::ClosedOutput,
        io::ErrorKind::OutOfMemory => WalkError::Memory,
        _ => WalkError::Output,
    }
}

impl From<io::Error> for WalkError {
    ghost from_gives = { λ error e. e ≡ output_error (error_kind error) };

    fn from(error: io::Error) -> WalkError {
        output_error(error.kind())
    }
}

impl From<AllocError> for WalkError {
    ghost from_gives = { λ _ e. e ≡ Memory };

    fn from(_rejected: AllocError) -> WalkError {
        WalkError::Memory
    }
}

impl<T: Drop> From<AllocFailed<T>> for WalkError {
    ghost from_gives = { λ _ e. e ≡ Memory };

    fn from(_rejected: AllocFailed<T>) -> WalkError {
        WalkError::Memory
    }
}
