//! How hexadecimal digits are laid out in a text: alone, as numbers of C, or in dumps.
ghost use Rattle.std.specs.Prelude.{◌≡◌, ◌==◌, ◌∷◌, ◌++◌, ◌<◌, ◌≤◌, length, replicate, IfOk, IfSome, IsTrue, OnOk};
ghost use Rattle.std.specs.List.{position_or_len};
ghost use Rattle.asn1_input.specs.Hex.{after_offset, bare_indented, bare_line, bare_number, bare_piece, bare_pieces, columns_len, ends_piece, follows_offset, has_offset, is_between, is_in_hex, is_number, is_prefixed, layout_of, layout_of_line, offset_len, only_columns, pieces_left, pieces_of, separator_before, two_spaces};

use crate::block::is_blank;
use crate::pem::{cut_line, unindented};
use std::alloc::{AllocError, Global};

/// How hexadecimal digits are laid out in a text.
#[derive(Clone, Copy)]
pub enum HexLayout {
    /// Digits, with separators anywhere.
    Digits,
    /// Numbers of C: `0x` and two digits, with separators between them.
    Numbers,
    /// Lines of `xxd`: an offset, a colon, digits, and characters after two spaces.
    Xxd,
    /// Lines of `hexdump -C`: an offset, digits, and characters between bars.
    Hexdump,
}

/// Whether an octet may be between hexadecimal digits: a space, a line end, a colon or a comma.
pub fn is_between_digits(octet: u8) -> bool
    ensures { result ≡ is_between octet }
{
    octet.is_ascii_whitespace() || octet == b':' || octet == b','
}

/// Whether an octet is one of a text in hexadecimal: a digit, or between digits.
pub fn is_in_hex(octet: u8) -> bool
    ensures { result ≡ is_in_hex octet }
{
    octet.is_ascii_hexdigit() || is_between_digits(octet)
}

// Whether a text begins with `0x` or `0X`.
fn is_prefixed(text: &[u8]) -> bool
    ensures { result ≡ is_prefixed text.now }
{
    text.starts_with(b"0x") || text.starts_with(b"0X")
}

// Whether a piece is `0x` and two digits.
fn is_number(piece: &[u8]) -> bool
    ensures value { result ≡ is_number piece.now }
    ensures long { IsTrue result → length piece.now ≡ 4 }
{
    piece.len() == 4
        && is_prefixed(piece)
        && piece[2].is_ascii_hexdigit()
        && piece[3].is_ascii_hexdigit()
}

// How many digits a line begins with.
fn offset_len(line: &[u8]) -> usize
    ensures count { result ≡ offset_len line.now }
    ensures within { result ≤ length line.now }
{
    match line.iter().position(|octet| !octet.is_ascii_hexdigit()) {
        Some(index) => index,
        None => line.len(),
    }
}

// A line without the digits that it begins with.
fn after_offset(line: &[u8]) -> &[u8]
    ensures { result.now ≡ after_offset line.now }
{
    &line[offset_len(line)..]
}

// Whether what is after the offset of a line is as this layout has it.
fn follows_offset(layout: HexLayout, rest: &[u8]) -> bool
    ensures { result ≡ follows_offset layout rest.now }
{
    match layout {
        HexLayout::Xxd => rest.starts_with(b": "),
        HexLayout::Hexdump => rest.starts_with(b"  ") || is_blank(rest),
        HexLayout::Digits | HexLayout::Numbers => false,
    }
}

// Whether a line begins with an offset of eight digits or more.
fn has_offset(layout: HexLayout, line: &[u8]) -> bool
    ensures { result ≡ has_offset layout line.now }
{
    offset_len(line) >= 8 && follows_offset(layout, after_offset(line))
}

// Where the first two spaces are that are side by side, else the length.
fn two_spaces(text: &[u8]) -> usize
    ensures index { result ≡ two_spaces text.now }
    ensures within { result ≤ length text.now }
{
    for index in 0..text.len() {
        if text[index..].starts_with(b"  ") {
            return index;
        }
    }
    text.len()
}

// Where the first bar is, else the length.
fn first_bar(text: &[u8]) -> usize
    ensures index { result ≡ position_or_len (λ c. c == 124) text.now }
    ensures within { result ≤ length text.now }
{
    match text.iter().position(|octet| *octet == b'|') {
        Some(index) => index,
        None => text.len(),
    }
}

// Where the column of characters begins after the offset of a line.
fn columns_len(layout: HexLayout, rest: &[u8]) -> usize
    ensures count { result ≡ columns_len layout rest.now }
    ensures within { result ≤ length rest.now }
{
    match layout {
        HexLayout::Xxd => two_spaces(rest),
        HexLayout::Hexdump => first_bar(rest),
        HexLayout::Digits | HexLayout::Numbers => 0,
    }
}

// The layout of a text with this as its first line that isn't blank.
fn layout_of_line(line: &[u8]) -> HexLayout
    ensures { result ≡ layout_of_line line.now }
{
    if is_prefixed(line) {
        HexLayout::Numbers
    } else if has_offset(HexLayout::Xxd, line) {
        HexLayout::Xxd
    } else if has_offset(HexLayout::Hexdump, line) && line.contains(&b'|') {
        HexLayout::Hexdump
    } else {
        HexLayout::Digits
    }
}

/// The layout of a text, by its first line that isn't blank.
pub fn layout_of(text: &[u8]) -> HexLayout
    ensures { result ≡ layout_of text.now }
{
    let (line, _) = cut_line(unindented(text));
    layout_of_line(line)
}

// Whether an octet ends a piece of a text: a number, or a line.
fn ends_piece(layout: HexLayout, octet: u8) -> bool
    ensures { result ≡ ends_piece layout octet }
{
    match layout {
        HexLayout::Numbers => is_between_digits(octet),
        HexLayout::Digits | HexLayout::Xxd | HexLayout::Hexdump => octet == b'\n',
    }
}

// The first piece of a text, and the text after its end, if it has one.
fn cut_piece(layout: HexLayout, text: &[u8]) -> (&[u8], Option<&[u8]>)
    ensures pieces { pieces_of layout text.now ≡ result.0.now ∷ pieces_left layout result.1 }
    ensures shorter { IfSome result.1 (λ after. length after.now < length text.now) }
{
    match text.iter().position(|octet| ends_piece(layout, *octet)) {
        Some(end) => (&text[..end], Some(&text[end + 1..])),
        None => (text, None),
    }
}

// Appends this octet so many times.
fn push_copies(bare: &mut Vec<u8>, octet: u8, count: usize) -> Result<(), AllocError>
    ensures { OnOk result (bare.new.items ≡ bare.old.items ++ replicate count octet) }
{
    for _ in 0..count {
        bare.push(octet)?;
    }
    Ok(())
}

// Appends a number with spaces for `0x`, or question marks.
fn push_number(bare: &mut Vec<u8>, piece: &[u8]) -> Result<(), AllocError>
    ensures { OnOk result (bare.new.items ≡ bare.old.items ++ bare_number piece.now) }
{
    if !is_number(piece) {
        return push_copies(bare, b'?', piece.len());
    }
    bare.push(b' ')?;
    bare.push(b' ')?;
    bare.push(piece[2])?;
    Ok(bare.push(piece[3])?)
}

// Appends a line that begins with an offset, with spaces for its offset and its characters.
fn push_columns(bare: &mut Vec<u8>, layout: HexLayout, line: &[u8]) -> Result<(), AllocError>
    ensures { OnOk result (bare.new.items ≡ bare.old.items ++ only_columns layout line.now) }
{
    let rest = after_offset(line);
    let count = columns_len(layout, rest);
    push_copies(bare, b' ', offset_len(line))?;
    bare.extend_from_slice(&rest[..count])?;
    push_copies(bare, b' ', rest.len() - count)
}

// Appends a line of a dump with spaces for what is no digit of its bytes, or question marks.
fn push_line(bare: &mut Vec<u8>, layout: HexLayout, line: &[u8]) -> Result<(), AllocError>
    ensures { OnOk result (bare.new.items ≡ bare.old.items ++ bare_line layout line.now) }
{
    if has_offset(layout, line) {
        push_columns(bare, layout, line)
    } else {
        push_copies(bare, b'?', line.len())
    }
}

// As `push_line`, of a line that may be indented.
fn push_indented(bare: &mut Vec<u8>, layout: HexLayout, line: &[u8]) -> Result<(), AllocError>
    ensures { OnOk result (bare.new.items ≡ bare.old.items ++ bare_indented layout line.now) }
{
    let text = unindented(line);
    push_copies(bare, b' ', line.len().saturating_sub(text.len()))?;
    push_line(bare, layout, text)
}

// Appends a piece with spaces for what is no digit of its bytes.
fn push_piece(bare: &mut Vec<u8>, layout: HexLayout, piece: &[u8]) -> Result<(), AllocError>
    ensures { OnOk result (bare.new.items ≡ bare.old.items ++ bare_piece layout piece.now) }
{
    match layout {
        HexLayout::Digits => bare.extend_from_slice(piece),
        HexLayout::Numbers => push_number(bare, piece),
        HexLayout::Xxd | HexLayout::Hexdump => push_indented(bare, layout, piece),
    }
}

// Appends a space, if a text is left after a piece.
fn push_separator(bare: &mut Vec<u8>, after: Option<&[u8]>) -> Result<(), AllocError>
    ensures { OnOk result (bare.new.items ≡ bare.old.items ++ separator_before after.entry) }
{
    match after {
        Some(_) => Ok(bare.push(b' ')?),
        None => Ok(()),
    }
}

/// A text with spaces for what is no digit of its bytes. What isn't as its layout has it is question marks.
pub fn bare_text(alloc: Global, layout: HexLayout, text: &[u8]) -> Result<Vec<u8>, AllocError>
    ensures bare { IfOk result (λ bare. bare.items ≡ bare_pieces layout (pieces_of layout text.now)) }
    ensures aligned { IfOk result (λ bare. length bare.items ≡ length text.now) }
{
    let mut bare = Vec::new(alloc);
    let mut left = Some(text);
    while let Some(rest) = left {
        let (piece, after) = cut_piece(layout, rest);
        push_piece(&mut bare, layout, piece)?;
        push_separator(&mut bare, after)?;
        left = after;
    }
    Ok(bare)
}
