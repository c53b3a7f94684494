//! Texts of lexical items, collected from the last one to the first one.
ghost use Rattle.std.specs.Prelude.{◌≡◌, ◌∷◌, [], map, IfOk, OnOk};
ghost use Rattle.asn1_syntax.specs.Printing.{prepended};
ghost use Rattle.asn1_syntax.specs.Tree.{braced_then, braces_then, optional_then, parenthesized_then, texts_then};

use crate::token::Token;
use std::alloc::{AllocError, Global};

/// Texts, to which others are prepended.
#[derive(Drop)]
pub struct Prepended<'a> {
    // The texts, the last one first.
    reversed: Vec<&'a [u8]>,
}

impl<'a> Prepended<'a> {
    /// No text.
    pub fn new(alloc: Global) -> Prepended<'a>
        ensures { prepended result ≡ [] }
    {
        Prepended {
            reversed: Vec::new(alloc),
        }
    }

    /// Prepends a text.
    pub fn text(&mut self, text: &'a [u8]) -> Result<(), AllocError>
        ensures { OnOk result (prepended self.new ≡ text.now ∷ prepended self.old) }
    {
        self.reversed.push(text)?;
        Ok(())
    }

    /// Prepends a word or a symbol.
    pub fn word(&mut self, word: &'static str) -> Result<(), AllocError>
        ensures { OnOk result (prepended self.new ≡ word.now ∷ prepended self.old) }
    {
        self.text(word.as_bytes())
    }

    /// The texts in their order.
    pub fn into_texts(self) -> Vec<&'a [u8]>
        ensures { map (λ text. text.now) result.items ≡ prepended self.entry }
    {
        let mut texts = self.reversed;
        texts.reverse();
        texts
    }

    /// Prepends the texts of lexical items.
    pub fn tokens(&mut self, tokens: &[Token<'a>]) -> Result<(), AllocError>
        ensures { OnOk result (prepended self.new ≡ texts_then tokens.now (prepended self.old)) }
    {
        let mut left = tokens.len();
        while left > 0 {
            left -= 1;
            self.text(tokens[left].text)?;
        }
        Ok(())
    }

    /// Prepends the text of a lexical item, if there is one.
    pub fn optional(&mut self, token: &Option<Token<'a>>) -> Result<(), AllocError>
        ensures { OnOk result (prepended self.new ≡ optional_then token.now (prepended self.old)) }
    {
        match token {
            Some(token) => self.text(token.text),
            None => Ok(()),
        }
    }

    /// Prepends lexical items in braces.
    pub fn braced(&mut self, tokens: &[Token<'a>]) -> Result<(), AllocError>
        ensures { OnOk result (prepended self.new ≡ braced_then tokens.now (prepended self.old)) }
    {
        self.word("}")?;
        self.tokens(tokens)?;
        self.word("{")
    }

    /// Prepends lexical items in parentheses.
    pub fn parenthesized(&mut self, tokens: &[Token<'a>]) -> Result<(), AllocError>
        ensures { OnOk result (prepended self.new ≡ parenthesized_then tokens.now (prepended self.old)) }
    {
        self.word(")")?;
        self.tokens(tokens)?;
        self.word("(")
    }

    /// Prepends lexical items in braces, if there are some.
    pub fn braces(&mut self, tokens: &Option<Vec<Token<'a>>>) -> Result<(), AllocError>
        ensures { OnOk result (prepended self.new ≡ braces_then tokens.now (prepended self.old)) }
    {
        match tokens {
            Some(tokens) => self.braced(tokens.as_slice()),
            None => Ok(()),
        }
    }
}
