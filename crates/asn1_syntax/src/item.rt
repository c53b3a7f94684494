//! The lexical item at the start of a text (X.680, 12).
ghost use Rattle.std.specs.Prelude.{◌≡◌, ◌∷◌, true, None, option_copied, IfOk, IfErr};
ghost use Rattle.std.specs.Char.{is_ascii_digit, is_ascii_lowercase, is_ascii_uppercase};
ghost use Rattle.asn1_syntax.specs.Spacing.{after_run, after_spacing};
ghost use Rattle.asn1_syntax.specs.Items.{after_end, after_string, after_symbol, continues_word, first_is, is_in_bstring, is_in_hstring, is_pair, is_symbol, is_triple, ItemBegins, BeginsItem};

use crate::error::Expected;
use crate::spacing::is_white_space;
use crate::token::TokenKind;

/// The kind of the lexical item at the start of a text, and the text after it.
#[derive(Clone, Copy)]
pub struct ItemStart<'a> {
    /// The kind.
    pub kind: TokenKind,
    /// The text after the item.
    pub after: &'a [u8],
}

// Whether a word goes on with this text.
fn continues_word(text: &[u8]) -> bool
    ensures { result ≡ continues_word text.now }
{
    match text {
        [b'-', c, ..] => c.is_ascii_alphanumeric(),
        [c, ..] => c.is_ascii_alphanumeric(),
        [] => false,
    }
}

// The text after the letters, digits and hyphens at its start.
fn after_word(text: &[u8]) -> &[u8]
    ensures { result.now ≡ after_run continues_word text.now }
{
    let mut rest = text;
    while let [_, more @ ..] = rest {
        if !continues_word(rest) {
            break;
        }
        rest = more;
    }
    rest
}

// The text after the digits at its start.
fn after_digits(text: &[u8]) -> &[u8]
    ensures { result.now ≡ after_run (first_is is_ascii_digit) text.now }
{
    let mut rest = text;
    while let [c, more @ ..] = rest {
        if !c.is_ascii_digit() {
            break;
        }
        rest = more;
    }
    rest
}

// The text after the quotation mark that ends a character string, if one does.
fn after_string(text: &[u8]) -> Option<&[u8]>
    ensures { option_copied result ≡ after_string text.now }
{
    let mut rest = text;
    loop {
        rest = match rest {
            [b'"', b'"', more @ ..] => more,
            [b'"', more @ ..] => return Some(more),
            [_, more @ ..] => more,
            [] => return None,
        };
    }
}

// Whether a character may be in a binary string.
fn is_in_bstring(c: u8) -> bool
    ensures { result ≡ is_in_bstring c }
{
    c == b'0' || c == b'1' || is_white_space(c)
}

// Whether a character may be in a hexadecimal string.
fn is_in_hstring(c: u8) -> bool
    ensures { result ≡ is_in_hstring c }
{
    c.is_ascii_digit() || b"ABCDEF".contains(&c) || is_white_space(c)
}

// The text after the binary digits at its start.
fn after_binary(text: &[u8]) -> &[u8]
    ensures { result.now ≡ after_run (first_is is_in_bstring) text.now }
{
    let mut rest = text;
    while let [c, more @ ..] = rest {
        if !is_in_bstring(*c) {
            break;
        }
        rest = more;
    }
    rest
}

// The text after the hexadecimal digits at its start.
fn after_hexadecimal(text: &[u8]) -> &[u8]
    ensures { result.now ≡ after_run (first_is is_in_hstring) text.now }
{
    let mut rest = text;
    while let [c, more @ ..] = rest {
        if !is_in_hstring(*c) {
            break;
        }
        rest = more;
    }
    rest
}

// The text after an apostrophe and this letter at its start, if they are there.
fn after_end(text: &[u8], letter: u8) -> Option<&[u8]>
    ensures { option_copied result ≡ after_end letter text.now }
{
    match text {
        [b'\'', c, more @ ..] if *c == letter => Some(more),
        _ => None,
    }
}

// Whether a character is a symbol.
fn is_symbol(c: u8) -> bool
    ensures { result ≡ is_symbol c }
{
    b"{}<>,./()[]-:=;@|!^&*".contains(&c)
}

// Whether two characters are a symbol: `..`, `[[` or `]]`.
fn is_pair(c: u8, d: u8) -> bool
    ensures { result ≡ is_pair c d }
{
    c == d && (c == b'.' || c == b'[' || c == b']')
}

// Whether three characters are a symbol: `...` or `::=`.
fn is_triple(c: u8, d: u8, e: u8) -> bool
    ensures { result ≡ is_triple c d e }
{
    c == d && ((c == b'.' && e == b'.') || (c == b':' && e == b'='))
}

// The text after a symbol at its start, if one is there: the longest one.
fn after_symbol(text: &[u8]) -> Option<&[u8]>
    ensures { option_copied result ≡ after_symbol text.now }
{
    match text {
        [c, d, e, more @ ..] if is_triple(*c, *d, *e) => Some(more),
        [c, d, more @ ..] if is_pair(*c, *d) => Some(more),
        [c, more @ ..] if is_symbol(*c) => Some(more),
        _ => None,
    }
}

fn string_item(body: &[u8]) -> Result<ItemStart<'_>, Expected>
    ensures { ItemBegins (34 ∷ body.now) result }
{
    match after_string(body) {
        Some(after) => Ok(ItemStart {
            kind: TokenKind::CString,
            after,
        }),
        None => Err(Expected::StringEnd),
    }
}

fn quoted_item(body: &[u8]) -> Result<ItemStart<'_>, Expected>
    ensures { ItemBegins (39 ∷ body.now) result }
{
    if let Some(after) = after_end(after_binary(body), b'B') {
        return Ok(ItemStart {
            kind: TokenKind::BString,
            after,
        });
    }
    match after_end(after_hexadecimal(body), b'H') {
        Some(after) => Ok(ItemStart {
            kind: TokenKind::HString,
            after,
        }),
        None => Err(Expected::QuotedDigits),
    }
}

// The word at the start of a text that begins with a capital.
fn upper_item(text: &[u8]) -> ItemStart<'_>
    requires { first_is is_ascii_uppercase text.now ≡ true }
    ensures { BeginsItem result.kind text.now result.after.now }
{
    ItemStart {
        kind: TokenKind::TypeReference,
        after: after_word(text),
    }
}

// The word at the start of a text that begins with a small letter.
fn lower_item(text: &[u8]) -> ItemStart<'_>
    requires { first_is is_ascii_lowercase text.now ≡ true }
    ensures { BeginsItem result.kind text.now result.after.now }
{
    ItemStart {
        kind: TokenKind::Identifier,
        after: after_word(text),
    }
}

// The digits at the start of a text that begins with one.
fn number_item(text: &[u8]) -> ItemStart<'_>
    requires { first_is is_ascii_digit text.now ≡ true }
    ensures { BeginsItem result.kind text.now result.after.now }
{
    ItemStart {
        kind: TokenKind::Number,
        after: after_digits(text),
    }
}

fn symbol_item(text: &[u8]) -> Result<ItemStart<'_>, Expected>
    ensures ok { IfOk result (λ x. BeginsItem x.kind text.now x.after.now) }
    ensures none { IfErr result (λ e. (e ≡ Expected.Item) × (after_symbol text.now ≡ None)) }
{
    match after_symbol(text) {
        Some(after) => Ok(ItemStart {
            kind: TokenKind::Symbol,
            after,
        }),
        None => Err(Expected::Item),
    }
}

/// The lexical item at the start of a text that doesn't begin with a white space or a comment that ends, or why none is there.
pub fn item(text: &[u8]) -> Result<ItemStart<'_>, Expected>
    requires { after_spacing text.now ≡ None }
    ensures { ItemBegins text.now result }
{
    match text {
        [b'A'..=b'Z', ..] => Ok(upper_item(text)),
        [b'a'..=b'z', ..] => Ok(lower_item(text)),
        [b'0'..=b'9', ..] => Ok(number_item(text)),
        [b'"', body @ ..] => string_item(body),
        [b'\'', body @ ..] => quoted_item(body),
        [b'/', b'*', ..] => Err(Expected::CommentEnd),
        _ => symbol_item(text),
    }
}
