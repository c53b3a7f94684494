//! A source as lexical items (X.680, 12).
ghost use Rattle.std.specs.Prelude.{◌≡◌, ◌≤◌, IfOk, IfErr, length};
ghost use Rattle.asn1_syntax.specs.Spacing.{after_spacing};
ghost use Rattle.asn1_syntax.specs.Lexing.{IsToken, Lexes, LexingFails, MissesToken};

use crate::error::SyntaxError;
use crate::item::item;
use crate::spacing::after_gap;
use crate::token::Token;
use std::alloc::Global;

// The lexical item at the start of a text, and the text after it. The end of the text is at the offset `total`.
fn token_at(total: usize, text: &[u8]) -> Result<(Token<'_>, &[u8]), SyntaxError>
    requires fits { length text.now ≤ total }
    requires whole { after_spacing text.now ≡ None }
    ensures ok { IfOk result (λ x. IsToken total x.0 text.now x.1.now) }
    ensures malformed { IfErr result (MissesToken total text.now) }
{
    let offset = total - text.len();
    match item(text) {
        Ok(start) => {
            let size = text.len() - start.after.len();
            let token = Token {
                kind: start.kind,
                offset,
                text: &text[..size],
            };
            Ok((token, start.after))
        }
        Err(expected) => Err(SyntaxError::Malformed { offset, expected }),
    }
}

/// The lexical items of a source, in their order.
///
/// They are the whole source, but for white space and comments between them. If the source is rejected, the error is at the first place where
/// neither a lexical item nor a comment is.
pub fn lex<'a>(alloc: Global, source: &'a [u8]) -> Result<Vec<Token<'a>>, SyntaxError>
    ensures ok { IfOk result (λ tokens. Lexes source.now tokens.items) }
    ensures malformed { IfErr result (LexingFails source.now) }
{
    let mut tokens = Vec::new(alloc);
    let mut rest = after_gap(source);
    while !rest.is_empty() {
        let (token, after) = token_at(source.len(), rest)?;
        tokens.push(token)?;
        rest = after_gap(after);
    }
    Ok(tokens)
}
