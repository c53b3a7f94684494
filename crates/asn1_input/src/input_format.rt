//! The format of an input.
ghost use Rattle.std.specs.Prelude.{◌≡◌, ◌↔◌, ◌||◌, IsTrue, Any};
ghost use Rattle.std.specs.Char.{is_ascii_hexdigit};
ghost use Rattle.std.specs.List.{AllByRecursion};
ghost use Rattle.asn1_input.specs.Input.{BeginsAfterText, IsDetected, IsDetectedIn, IsHexIn, IsText, IsTextOrEnd};
ghost use Rattle.asn1_input.specs.Hex.{is_in_hex, is_x};

use crate::digits::text_of;
use crate::hex_layout::{HexLayout, is_in_hex, layout_of};
use crate::pem::{begins_as_block, cut_line};

/// The format of an input.
#[derive(Clone, Copy)]
pub enum InputFormat {
    /// The bytes themselves.
    Bytes,
    /// Hexadecimal digits, with spaces, line ends, colons and commas between them, numbers of C, or a dump. A byte order mark may be before.
    Hex,
    /// Blocks in base64 between lines, with any text around them. A byte order mark may be before.
    Pem,
}

// Whether an octet is one of a line of text.
fn is_text_octet(octet: u8) -> bool
    ensures { IsTrue result ↔ IsText octet }
{
    matches!(octet, 9 | 12 | 13) || (octet >= 32 && octet != 127)
}

fn is_text(line: &[u8]) -> bool
    ensures { IsTrue result ↔ AllByRecursion IsText line.now }
{
    line.iter().all(|octet| is_text_octet(*octet))
}

// Whether a block begins after lines of text.
fn has_block(input: &[u8]) -> bool
    ensures { IsTrue result ↔ BeginsAfterText input.now }
{
    let mut left = Some(input);
    while let Some(text) = left {
        let (line, after) = cut_line(text);
        if begins_as_block(line) {
            return true;
        }
        if !is_text(line) {
            return false;
        }
        left = after;
    }
    false
}

fn has_digit(input: &[u8]) -> bool
    ensures { IsTrue result ↔ Any (λ c. IsTrue (is_ascii_hexdigit c)) input.now }
{
    input.iter().any(|octet| octet.is_ascii_hexdigit())
}

// Whether a text is only digits, and what may be between them.
fn are_digits(input: &[u8]) -> bool
    ensures { IsTrue result ↔ AllByRecursion (λ c. IsTrue (is_in_hex c)) input.now }
{
    input.iter().all(|octet| is_in_hex(*octet))
}

// Whether an octet is the letter x.
fn is_x(octet: u8) -> bool
    ensures { result ≡ is_x octet }
{
    octet == b'x' || octet == b'X'
}

// Whether an octet is one of numbers of C: a digit, between digits, or the letter x.
fn is_in_numbers(octet: u8) -> bool
    ensures { result ≡ is_in_hex octet || is_x octet }
{
    is_in_hex(octet) || is_x(octet)
}

// Whether a text is only digits, what may be between them, and the letter x.
fn are_numbers(input: &[u8]) -> bool
    ensures { IsTrue result ↔ AllByRecursion (λ c. IsTrue (is_in_hex c || is_x c)) input.now }
{
    input.iter().all(|octet| is_in_numbers(*octet))
}

// Whether an octet is one of a line of text, or ends a line.
fn is_text_or_end(octet: u8) -> bool
    ensures { IsTrue result ↔ IsTextOrEnd octet }
{
    octet == b'\n' || is_text_octet(octet)
}

// Whether a text is lines of text.
fn are_lines(input: &[u8]) -> bool
    ensures { IsTrue result ↔ AllByRecursion IsTextOrEnd input.now }
{
    input.iter().all(|octet| is_text_or_end(*octet))
}

// Whether a text in this layout is hexadecimal.
fn is_hex_in(layout: HexLayout, text: &[u8]) -> bool
    ensures { IsTrue result ↔ IsHexIn layout text.now }
{
    match layout {
        HexLayout::Digits => are_digits(text) && has_digit(text),
        HexLayout::Numbers => are_numbers(text),
        HexLayout::Xxd | HexLayout::Hexdump => are_lines(text),
    }
}

// The format of a text.
fn text_format(text: &[u8]) -> InputFormat
    ensures { IsDetectedIn text.now result }
{
    if has_block(text) {
        InputFormat::Pem
    } else if is_hex_in(layout_of(text), text) {
        InputFormat::Hex
    } else {
        InputFormat::Bytes
    }
}

/// Detects the format of an input.
pub fn format_of(input: &[u8]) -> InputFormat
    ensures { IsDetected input.now result }
{
    text_format(text_of(input))
}
