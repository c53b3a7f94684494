//! Bytes from digits, in hexadecimal and in base64 (RFC 4648, 4).
ghost use Rattle.std.specs.Prelude.{◌≡◌, ◌++◌, ◌+◌, ◌^◌, ◌-◌, min, not, IfOk, IfErr, OnOk};
ghost use Rattle.std.specs.List.{concat, position_or_len};
ghost use Rattle.yasna_base.specs.declared.error.ASN1ErrorKind.TheVariants.{Invalid};
ghost use Rattle.asn1_input.specs.Reader.{base64_place, first_stray, has_stray, octet_place, texts, NoBase64};
ghost use Rattle.asn1_input.specs.Hex.{digits_of, is_in_hex, AreDigits, AreNoDigits, IsHex, IsNoHex};
ghost use Rattle.asn1_input.specs.Text.{base64_of_text, is_in_base64, text_of, IsBase64, IsMemoryError};
ghost use Rattle.asn1show_walk.specs.Errors.{IsMalformed, WalkFails};
ghost use Rattle.asn1show_walk.specs.declared.error.WalkError.TheVariants.{Malformed};

use crate::block::TextLine;
use crate::hex_layout::{bare_text, is_between_digits, is_in_hex, layout_of};
use asn1show_walk::{Expected, WalkError};
use base64::engine::general_purpose::STANDARD;
use base64::{DecodeAllocError, DecodeError};
use hex::FromHexError;
use std::alloc::{AllocError, Global};
use yasna_base::error::ASN1ErrorKind;

// The byte order mark in UTF-8.
const BYTE_ORDER_MARK: &[u8] = b"\xEF\xBB\xBF";

/// The text of an input, without a byte order mark at its start.
pub fn text_of(input: &[u8]) -> &[u8]
    ensures { result.now ≡ text_of input.now }
{
    if input.starts_with(BYTE_ORDER_MARK) {
        &input[3..]
    } else {
        input
    }
}

// Whether an octet is white space or a digit of base64.
fn is_in_base64(octet: u8) -> bool
    ensures { result ≡ is_in_base64 octet }
{
    octet.is_ascii_whitespace() || octet.is_ascii_alphanumeric() || octet == b'+' || octet == b'/'
}

// Appends the digits of a text of digits and separators.
fn push_digits(digits: &mut Vec<u8>, text: &[u8]) -> Result<(), AllocError>
    ensures { OnOk result (digits.new.items ≡ digits.old.items ++ digits_of text.now) }
{
    for octet in text {
        if !is_between_digits(*octet) {
            digits.push(*octet)?;
        }
    }
    Ok(())
}

// Appends the octets of a text but white space.
fn push_base64(digits: &mut Vec<u8>, text: &[u8]) -> Result<(), AllocError>
    ensures { OnOk result (digits.new.items ≡ digits.old.items ++ base64_of_text text.now) }
{
    for octet in text {
        if !octet.is_ascii_whitespace() {
            digits.push(*octet)?;
        }
    }
    Ok(())
}

// Appends the octets of lines but white space.
fn push_lines(digits: &mut Vec<u8>, lines: &[TextLine<'_>]) -> Result<(), AllocError>
    ensures { OnOk result (digits.new.items ≡ digits.old.items ++ base64_of_text (concat (texts lines.now))) }
{
    for line in lines {
        push_base64(digits, line.text)?;
    }
    Ok(())
}

// The error at this offset of digits that aren't as expected.
fn malformed(offset: usize, expected: Expected) -> WalkError
    ensures { result ≡ Malformed offset Invalid expected }
{
    WalkError::Malformed {
        offset,
        kind: ASN1ErrorKind::Invalid,
        expected,
    }
}

// Why a text that begins at this offset isn't digits and separators that encode bytes.
fn malformed_hex(text: &[u8], start: usize) -> WalkError
    ensures { IsMalformed (λ offset kind.
        (offset ≡ min (start + position_or_len (λ c. not (is_in_hex c)) text.now) (2 ^ 64 - 1)) × (kind ≡ Invalid)) result }
{
    match text.iter().position(|octet| !is_in_hex(*octet)) {
        Some(index) => malformed(start.saturating_add(index), Expected::HexDigit),
        None => malformed(start.saturating_add(text.len()), Expected::HexPair),
    }
}

// The bytes of a text of digits and separators, which begins at this offset.
fn decode_digits(alloc: Global, text: &[u8], start: usize) -> Result<Vec<u8>, WalkError>
    ensures ok { IfOk result (λ bytes. AreDigits text.now bytes.items) }
    ensures malformed { IfErr result (λ f. WalkFails IsMemoryError (AreNoDigits text.now start) f) }
{
    let mut digits = Vec::new(alloc);
    push_digits(&mut digits, text)?;
    match hex::decode(alloc, digits.as_slice()) {
        Ok(bytes) => Ok(bytes),
        Err(FromHexError::OutOfMemory) => Err(WalkError::Memory),
        Err(_) => Err(malformed_hex(text, start)),
    }
}

/// The bytes of a text in hexadecimal, which begins at this offset. The text may be digits, numbers of C, or a dump.
pub fn decode_hex(alloc: Global, text: &[u8], start: usize) -> Result<Vec<u8>, WalkError>
    ensures ok { IfOk result (λ bytes. IsHex text.now bytes.items) }
    ensures malformed { IfErr result (λ f. WalkFails IsMemoryError (IsNoHex text.now start) f) }
{
    match bare_text(alloc, layout_of(text), text) {
        Ok(bare) => decode_digits(alloc, bare.as_slice(), start),
        Err(_) => Err(WalkError::Memory),
    }
}

// Whether a text has an octet that is neither white space nor a digit of base64.
fn has_stray(text: &[u8]) -> bool
    ensures { result ≡ has_stray text.now }
{
    text.iter().any(|octet| !is_in_base64(*octet))
}

// The index of the first octet that is neither white space nor a digit of base64, or else the length of the text.
fn first_stray(text: &[u8]) -> usize
    ensures { result ≡ first_stray text.now }
{
    match text.iter().position(|octet| !is_in_base64(*octet)) {
        Some(index) => index,
        None => text.len(),
    }
}

// What was expected in place of padding, if base64 is malformed for this reason.
fn expected_for_padding(error: DecodeError) -> Expected {
    match error {
        DecodeError::InvalidByte(..) => Expected::Base64Unpadded,
        DecodeError::InvalidLastSymbol { .. } => Expected::Base64Zeros,
        DecodeError::InvalidLength(_) | DecodeError::InvalidPadding => Expected::Base64Groups,
    }
}

// The error at the first octet of a line that is neither white space nor a digit of base64.
fn malformed_line(line: &TextLine<'_>, error: DecodeError) -> WalkError
    ensures { IsMalformed (λ offset kind. (offset ≡ octet_place line.now (first_stray line.now.text.now)) × (kind ≡ Invalid)) result }
{
    let index = first_stray(line.text);
    let expected = match line.text.get(index) {
        Some(b'=') => expected_for_padding(error),
        _ => Expected::Base64Digit,
    };
    malformed(line.offset.saturating_add(index), expected)
}

// The error of lines that aren't base64 for this reason, and end at this offset.
fn malformed_base64(lines: &[TextLine<'_>], end: usize, error: DecodeError) -> WalkError
    ensures { IsMalformed (λ offset kind. (offset ≡ base64_place lines.now end) × (kind ≡ Invalid)) result }
{
    match lines.iter().find(|line| has_stray(line.text)) {
        Some(line) => malformed_line(line, error),
        None => malformed(end, Expected::Base64Groups),
    }
}

/// The bytes of lines in base64, which end at this offset.
pub fn decode_base64(
    alloc: Global,
    lines: &[TextLine<'_>],
    end: usize,
) -> Result<Vec<u8>, WalkError>
    ensures ok { IfOk result (λ bytes. IsBase64 (concat (texts lines.now)) bytes.items) }
    ensures malformed { IfErr result (λ f. WalkFails IsMemoryError (NoBase64 lines.now end) f) }
{
    let mut digits = Vec::new(alloc);
    push_lines(&mut digits, lines)?;
    match STANDARD.decode(alloc, digits.as_slice()) {
        Ok(bytes) => Ok(bytes),
        Err(DecodeAllocError::OutOfMemory) => Err(WalkError::Memory),
        Err(DecodeAllocError::DecodeError(error)) => Err(malformed_base64(lines, end, error)),
    }
}
