//! Errors at the places of lexical items.
ghost use Rattle.asn1_syntax.specs.Parsing.{IsErrorAmong, IsPlaceOf};

use crate::error::SyntaxError;
use crate::token::Token;

// The first place at or after an offset at which one of these lexical items is, or else the end.
fn place_from(tokens: &[Token<'_>], end: usize, offset: usize) -> usize
    ensures { IsPlaceOf tokens.now end result }
{
    let mut rest = tokens;
    while let [token, more @ ..] = rest {
        if offset <= token.offset {
            return token.offset;
        }
        rest = more;
    }
    end
}

/// An error at the place of a lexical item, or at the end.
pub fn located(tokens: &[Token<'_>], end: usize, error: SyntaxError) -> SyntaxError
    ensures { IsErrorAmong tokens.now end result }
{
    match error {
        SyntaxError::Memory => SyntaxError::Memory,
        SyntaxError::Malformed { offset, expected } => SyntaxError::Malformed {
            offset: place_from(tokens, end, offset),
            expected,
        },
    }
}
