//! Lists of lexical items, as a tree keeps constraints, values and named numbers.
ghost use Rattle.std.specs.Prelude.{◌≡◌};
ghost use Rattle.std.specs.List.{list_any};
ghost use Rattle.std.specs.Str.{bytes_eq};
ghost use Rattle.asn1_types.specs.Names.{has_text};

use asn1_syntax::{Token, TokenKind};

/// Whether a lexical item has this text.
pub fn is(token: Token<'_>, text: &[u8]) -> bool
    ensures { result ≡ bytes_eq token.entry.text.now text.now }
{
    token.text == text
}

/// Whether a lexical item with this text is in a list.
pub fn has_text(tokens: &[Token<'_>], text: &[u8]) -> bool
    ensures { result ≡ list_any (has_text text.now) tokens.now }
{
    tokens.iter().any(|token| is(*token, text))
}

/// The lexical items before and after one.
#[derive(Clone, Copy)]
pub struct Halves<'a> {
    /// Those before it.
    pub before: &'a [Token<'a>],
    /// Those after it.
    pub after: &'a [Token<'a>],
}

/// The lexical items before and after the first one with this text.
pub fn halves_around<'a>(tokens: &'a [Token<'a>], text: &[u8]) -> Option<Halves<'a>> {
    let index = tokens.iter().position(|token| is(*token, text))?;
    let (before, rest) = tokens.split_at(index);
    match rest {
        [_, after @ ..] => Some(Halves { before, after }),
        [] => None,
    }
}

/// An item in the braces of an INTEGER, a BIT STRING or an ENUMERATED.
#[derive(Clone, Copy)]
pub struct NamedItem<'a> {
    /// The name.
    pub name: Token<'a>,
    /// Whether a minus is before the number.
    pub is_negative: bool,
    /// The number, or the name of a value, if one is written.
    pub number: Option<Token<'a>>,
}

/// The items that are left in braces.
#[derive(Clone, Copy)]
pub struct NamedItems<'a> {
    rest: &'a [Token<'a>],
    /// Whether `...` is before the next one.
    pub is_after_marker: bool,
}

/// The items in braces.
pub fn named_items<'a>(braces: &'a [Token<'a>]) -> NamedItems<'a> {
    NamedItems {
        rest: braces,
        is_after_marker: false,
    }
}

/// The next item, and goes past it. Other lexical items are skipped, as commas.
pub fn next_item<'a>(items: &mut NamedItems<'a>) -> Option<NamedItem<'a>> {
    for _ in 0..items.rest.len() {
        let [token, rest @ ..] = items.rest else {
            return None;
        };
        items.rest = rest;
        if token.kind == TokenKind::Identifier {
            return Some(item_at(items, *token));
        }
        if is(*token, b"...") {
            items.is_after_marker = true;
        }
    }
    None
}

// The item of a name, with the number after it, which is gone past.
fn item_at<'a>(items: &mut NamedItems<'a>, name: Token<'a>) -> NamedItem<'a> {
    match items.rest {
        [open, sign, number, close, rest @ ..]
            if is(*open, b"(") && is(*sign, b"-") && is(*close, b")") => {
            items.rest = rest;
            NamedItem {
                name,
                is_negative: true,
                number: Some(*number),
            }
        }
        [open, number, close, rest @ ..] if is(*open, b"(") && is(*close, b")") => {
            items.rest = rest;
            NamedItem {
                name,
                is_negative: false,
                number: Some(*number),
            }
        }
        _ => NamedItem {
            name,
            is_negative: false,
            number: None,
        },
    }
}
