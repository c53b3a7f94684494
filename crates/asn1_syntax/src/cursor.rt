//! A cursor in lexical items.
ghost use Rattle.std.specs.Prelude.{◌≡◌, ◌∷◌, [], codes, IfOk, OnOk, IsTrue};
ghost use Rattle.asn1_syntax.specs.Tree.{BeginsWith, braced_then, item_texts, left, parenthesized_then, texts_then};

use crate::error::{Expected, SyntaxError};
use crate::token::{Token, TokenKind};
use std::alloc::Global;

// Whether a lexical item has this text.
fn has_text(token: &Token<'_>, text: &str) -> bool
    ensures { IsTrue result → token.now.text.now ≡ text.now }
{
    token.text == text.as_bytes()
}

/// The lexical items that are left.
#[derive(Drop)]
pub struct Cursor<'t, 'a> {
    rest: &'t [Token<'a>],
    // The offset of the source's end.
    end: usize,
}

impl<'t, 'a> Cursor<'t, 'a> {
    /// A cursor before lexical items of a source that ends at this offset.
    pub fn new(rest: &'t [Token<'a>], end: usize) -> Cursor<'t, 'a>
        ensures { left result ≡ item_texts rest.now }
    {
        Cursor { rest, end }
    }

    /// Whether no lexical item is left.
    pub fn is_at_end(&self) -> bool
        ensures { IsTrue result → left self.now ≡ [] }
    {
        matches!(self.rest, [])
    }

    /// Whether the next lexical item has this text.
    pub fn next_is(&self, text: &str) -> bool
        ensures { IsTrue result → BeginsWith text.now (left self.now) }
    {
        match self.rest {
            [token, ..] => has_text(token, text),
            [] => false,
        }
    }

    /// Whether the lexical item after the next one has this text.
    pub fn second_is(&self, text: &str) -> bool {
        match self.rest {
            [_, token, ..] => has_text(token, text),
            _ => false,
        }
    }

    /// Whether the next lexical item is of this kind.
    pub fn next_is_kind(&self, kind: TokenKind) -> bool {
        match self.rest {
            [token, ..] => token.kind == kind,
            [] => false,
        }
    }

    /// The error that something was expected at the next lexical item.
    pub fn missing(&self, expected: Expected) -> SyntaxError {
        let offset = match self.rest {
            [token, ..] => token.offset,
            [] => self.end,
        };
        SyntaxError::Malformed { offset, expected }
    }

    /// The next lexical item, whatever it is.
    pub fn next(&mut self, expected: Expected) -> Result<Token<'a>, SyntaxError>
        ensures { IfOk result (λ token. left self.old ≡ token.text.now ∷ left self.new) }
    {
        match self.rest {
            [token, rest @ ..] => {
                self.rest = rest;
                Ok(*token)
            }
            [] => Err(self.missing(expected)),
        }
    }

    /// The next lexical item, which has to be of this kind.
    pub fn next_of(&mut self, kind: TokenKind, expected: Expected) -> Result<Token<'a>, SyntaxError>
        ensures text { IfOk result (λ token. left self.old ≡ token.text.now ∷ left self.new) }
        ensures kind { IfOk result (λ token. token.kind ≡ kind) }
    {
        match self.rest {
            [token, rest @ ..] if token.kind == kind => {
                self.rest = rest;
                Ok(*token)
            }
            _ => Err(self.missing(expected)),
        }
    }

    /// Goes past the next lexical item, which has to have this text.
    pub fn take(&mut self, text: &'static str) -> Result<(), SyntaxError>
        ensures { OnOk result (left self.old ≡ text.now ∷ left self.new) }
    {
        if !self.next_is(text) {
            return Err(self.missing(Expected::Text(text)));
        }
        self.next(Expected::Text(text))?;
        Ok(())
    }

    /// Moves the next lexical item to the end of a list.
    pub fn push_next(
        &mut self,
        tokens: &mut Vec<Token<'a>>,
        expected: Expected,
    ) -> Result<(), SyntaxError>
        ensures { OnOk result (texts_then tokens.old.items (left self.old) ≡ texts_then tokens.new.items (left self.new)) }
    {
        let token = self.next(expected)?;
        tokens.push(token)?;
        Ok(())
    }

    /// Moves the next lexical item, which has to have this text, to the end of a list.
    pub fn push_text(
        &mut self,
        tokens: &mut Vec<Token<'a>>,
        text: &'static str,
    ) -> Result<(), SyntaxError>
        ensures { OnOk result (texts_then tokens.old.items (left self.old) ≡ texts_then tokens.new.items (left self.new)) }
    {
        if self.next_is(text) {
            self.push_next(tokens, Expected::Text(text))
        } else {
            Err(self.missing(Expected::Text(text)))
        }
    }

    // Moves lexical items to the end of a list, up to the one that closes an open bracket.
    fn push_inside(
        &mut self,
        tokens: &mut Vec<Token<'a>>,
        open: &str,
        close: &'static str,
    ) -> Result<(), SyntaxError>
        ensures { OnOk result (texts_then tokens.old.items (left self.old) ≡ texts_then tokens.new.items (left self.new)) }
    {
        let mut others = 0usize;
        for _ in 0..self.rest.len() {
            if self.next_is(open) {
                others = others.saturating_add(1);
            } else if self.next_is(close) {
                if others == 0 {
                    return Ok(());
                }
                others -= 1;
            }
            self.push_next(tokens, Expected::Text(close))?;
        }
        Err(self.missing(Expected::Text(close)))
    }

    /// What is in the braces that are next.
    pub fn braced(&mut self, alloc: Global) -> Result<Vec<Token<'a>>, SyntaxError>
        ensures { IfOk result (λ tokens. left self.old ≡ braced_then tokens.items (left self.new)) }
    {
        let mut tokens = Vec::new(alloc);
        self.take("{")?;
        self.push_inside(&mut tokens, "{", "}")?;
        self.take("}")?;
        Ok(tokens)
    }

    /// What is in the parentheses that are next.
    pub fn parenthesized(&mut self, alloc: Global) -> Result<Vec<Token<'a>>, SyntaxError>
        ensures { IfOk result (λ tokens. left self.old ≡ parenthesized_then tokens.items (left self.new)) }
    {
        let mut tokens = Vec::new(alloc);
        self.take("(")?;
        self.push_inside(&mut tokens, "(", ")")?;
        self.take(")")?;
        Ok(tokens)
    }

    /// Moves what is in the braces that are next, and these, to the end of a list.
    pub fn push_braced(&mut self, tokens: &mut Vec<Token<'a>>) -> Result<(), SyntaxError>
        ensures { OnOk result (texts_then tokens.old.items (left self.old) ≡ texts_then tokens.new.items (left self.new)) }
    {
        self.push_text(tokens, "{")?;
        self.push_inside(tokens, "{", "}")?;
        self.push_text(tokens, "}")
    }

    /// What is up to the semicolon that is next.
    pub fn to_semicolon(&mut self, alloc: Global) -> Result<Vec<Token<'a>>, SyntaxError>
        ensures { IfOk result (λ tokens. left self.old ≡ texts_then tokens.items (codes ";" ∷ left self.new)) }
    {
        let mut tokens = Vec::new(alloc);
        self.push_inside(&mut tokens, "", ";")?;
        self.take(";")?;
        Ok(tokens)
    }

    /// How many lexical items are left.
    pub fn len(&self) -> usize {
        self.rest.len()
    }
}
