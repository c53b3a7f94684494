//! Texts, quoted, with escapes for what a terminal must not get.

ghost use Rattle.std.specs.Prelude.{◌<◌, ◌↔◌, IsTrue};
ghost use Rattle.asn1show_printer.specs.Contents.{AreWide, pairs, quads};

use crate::line::LineBuffer;
use std::str;
use unicode::properties::is_default_ignorable_code_point;

// Signs and marks without ink that Unicode doesn't count as ignorable, and the marks around an annotation.
fn is_blank(c: char) -> bool {
    matches!(
        c,
        '\u{2800}' | '\u{FFF9}'..='\u{FFFB}' | '\u{16FE4}' | '\u{1D159}'
    )
}

// Characters that aren't seen, those that change how others are shown among them, and spaces other than that of ASCII.
fn is_hidden(c: char) -> bool {
    is_default_ignorable_code_point(c) || (c.is_whitespace() && c != ' ') || is_blank(c)
}

fn needs_escape(c: char) -> bool {
    c == '"' || c == '\\' || c.is_control() || is_hidden(c)
}

// The short escape of a code, where it has one.
fn short_escape(code: u32) -> Option<&'static str> {
    match code {
        34 => Some("\\\""),
        92 => Some("\\\\"),
        9 => Some("\\t"),
        10 => Some("\\n"),
        13 => Some("\\r"),
        _ => None,
    }
}

fn write_escape(line: &mut LineBuffer, code: u32) {
    match short_escape(code) {
        Some(escape) => line.write_str(escape),
        None => write!(line, "\\u{{{code:X}}}"),
    }
}

// Writes a character, or the escape of a code that is none.
fn write_code(line: &mut LineBuffer, code: u32) {
    match char::from_u32(code) {
        Some(c) => write_char(line, c),
        None => write_escape(line, code),
    }
}

fn write_char(line: &mut LineBuffer, c: char) {
    if needs_escape(c) {
        return write_escape(line, u32::from(c));
    }
    write!(line, "{c}")
}

fn write_chars(line: &mut LineBuffer, text: &str) {
    for c in text.chars() {
        write_char(line, c);
    }
}

fn is_plain(octet: u8) -> bool {
    matches!(octet, b' '..=b'~') && octet != b'"' && octet != b'\\'
}

// Writes an octet by its escape or its number.
fn write_octet(line: &mut LineBuffer, octet: u8) {
    if octet < 128 {
        return write_escape(line, u32::from(octet));
    }
    write!(line, "\\x{octet:02X}")
}

// Writes octets of which only the last may be no plain one.
fn write_piece(line: &mut LineBuffer, piece: &[u8]) {
    match piece {
        [plain @ .., last] if !is_plain(*last) => {
            line.write_all(plain);
            write_octet(line, *last)
        }
        _ => line.write_all(piece),
    }
}

// Writes ASCII, and other octets by their numbers.
fn write_ascii(line: &mut LineBuffer, octets: &[u8]) {
    for piece in octets.split_inclusive(|octet| !is_plain(*octet)) {
        write_piece(line, piece);
    }
}

/// Writes octets as text in UTF-8, or where they are none as ASCII.
pub fn write_utf8(line: &mut LineBuffer, octets: &[u8]) {
    line.write_str("\"");
    match str::from_utf8(octets) {
        Ok(text) => write_chars(line, text),
        Err(_) => write_ascii(line, octets),
    }
    line.write_str("\"")
}

/// Writes octets as ASCII, and those that are none by their numbers.
pub fn write_quoted(line: &mut LineBuffer, octets: &[u8]) {
    line.write_str("\"");
    write_ascii(line, octets);
    line.write_str("\"")
}

// The code that octets spell, the highest first.
fn code_of(octets: &[u8]) -> u32 {
    let mut code: u32 = 0;
    for octet in octets {
        code = code.wrapping_mul(256).wrapping_add(u32::from(*octet));
    }
    code
}

/// Writes characters of a number of octets each, the highest octet first.
pub fn write_wide(line: &mut LineBuffer, octets: &[u8], size: usize)
    requires { 0 < size }
{
    line.write_str("\"");
    for character in octets.chunks(size) {
        write_code(line, code_of(character));
    }
    line.write_str("\"")
}

/// Whether octets are characters of two octets each, the highest first, and none is a surrogate.
pub fn are_pairs(octets: &[u8]) -> bool
    ensures { IsTrue result ↔ AreWide 2 pairs octets.now }
{
    let mut left = octets;
    while let [high, low, trailing @ ..] = left {
        let code = u16::from_be_bytes([*high, *low]);
        if char::from_u32(u32::from(code)).is_none() {
            return false;
        }
        left = trailing;
    }
    left.is_empty()
}

/// Whether octets are characters of four octets each, the highest first: none is a surrogate or too large.
pub fn are_quads(octets: &[u8]) -> bool
    ensures { IsTrue result ↔ AreWide 4 quads octets.now }
{
    let mut left = octets;
    while let [a, b, c, d, trailing @ ..] = left {
        let code = u32::from_be_bytes([*a, *b, *c, *d]);
        if char::from_u32(code).is_none() {
            return false;
        }
        left = trailing;
    }
    left.is_empty()
}
