//! Why a text is rejected.
ghost use Rattle.std.specs.Prelude.{◌≡◌};
ghost use Rattle.asn1_syntax.specs.declared.error.SyntaxError.TheVariants.{Memory};

use std::alloc::{AllocError, AllocFailed};
use std::fmt;

/// What was expected at a place.
#[derive(Clone, Copy, Debug, PartialEq, Eq)]
pub enum Expected {
    /// A lexical item (X.680, 12).
    Item,
    /// The end of a comment that `/*` begins.
    CommentEnd,
    /// The quotation mark that ends a character string.
    StringEnd,
    /// Digits between apostrophes, and then `B` or `H`.
    QuotedDigits,
    /// A lexical item with this text.
    Text(&'static str),
    /// A typereference or a modulereference.
    TypeReference,
    /// An identifier or a valuereference.
    Identifier,
    /// The number of a tag.
    TagNumber,
    /// A type.
    Type,
    /// A value.
    Value,
    /// An assignment that is no macro.
    NoMacro,
    /// Types that nest less deeply.
    FewerLevels,
}

impl fmt::Display for Expected {
    fn fmt<W: fmt::Write>(&self, f: &mut fmt::Formatter<W>) -> fmt::Result {
        f.write_str(match self {
            Expected::Text(text) => return write!(f, "`{text}`"),
            Expected::TypeReference => "a word that begins with a capital",
            Expected::Identifier => "a word that begins with a small letter",
            Expected::TagNumber => "the number of a tag",
            Expected::Type => "a type",
            Expected::Value => "a value",
            Expected::NoMacro => "an assignment, and no macro",
            Expected::FewerLevels => "at most 100 levels of types",
            Expected::Item => "a lexical item",
            Expected::CommentEnd => "a comment that ends",
            Expected::StringEnd => "a string that ends",
            Expected::QuotedDigits => "binary or hexadecimal digits in apostrophes, and `B` or `H`",
        })
    }
}

/// Why a source is rejected.
#[derive(Clone, Copy, Debug, PartialEq, Eq)]
pub enum SyntaxError {
    /// Memory ran out.
    Memory,
    /// The source is malformed at a place.
    Malformed {
        /// The offset of the place, in octets.
        offset: usize,
        /// What was expected there.
        expected: Expected,
    },
}

impl fmt::Display for SyntaxError {
    fn fmt<W: fmt::Write>(&self, f: &mut fmt::Formatter<W>) -> fmt::Result {
        match self {
            SyntaxError::Memory => f.write_str("out of memory"),
            SyntaxError::Malformed { offset, expected } => {
                write!(f, "offset {offset}: expected {expected}")
            }
        }
    }
}

impl From<AllocError> for SyntaxError {
    ghost from_gives = { λ _ e. e ≡ Memory };

    fn from(_error: AllocError) -> SyntaxError {
        SyntaxError::Memory
    }
}

impl<T: Drop> From<AllocFailed<T>> for SyntaxError {
    ghost from_gives = { λ _ e. e ≡ Memory };

    fn from(_error: AllocFailed<T>) -> SyntaxError {
        SyntaxError::Memory
    }
}
