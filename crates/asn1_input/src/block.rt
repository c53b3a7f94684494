//! The bytes of a block of PEM (RFC 7468), from its lines.
ghost use Rattle.std.specs.Prelude.{◌≡◌, IfOk, IfErr};
ghost use Rattle.yasna_base.specs.declared.error.ASN1ErrorKind.TheVariants.{Eof, Invalid};
ghost use Rattle.asn1_input.specs.Blocks.{has_headers, is_blank, says_encrypted, BlockDecodes};
ghost use Rattle.asn1_input.specs.Reader.{texts, IsBody, IsDecoded, NoBlock, NoBody};
ghost use Rattle.asn1_input.specs.Text.{IsMemoryError};
ghost use Rattle.asn1show_walk.specs.Errors.{IsMalformed, WalkFails};
ghost use Rattle.asn1show_walk.specs.declared.error.WalkError.TheVariants.{Malformed};

use crate::digits::decode_base64;
use asn1show_walk::{Expected, WalkError};
use std::alloc::Global;
use yasna_base::error::ASN1ErrorKind;

/// A line, and where it begins in the input.
#[derive(Clone, Copy)]
pub struct TextLine<'a> {
    /// The offset of its first octet.
    pub offset: usize,
    /// The octets, without the end of the line.
    pub text: &'a [u8],
}

/// The error at an offset where something is missing.
pub fn missing(offset: usize, expected: Expected) -> WalkError
    ensures { result ≡ Malformed offset Eof expected }
{
    WalkError::Malformed {
        offset,
        kind: ASN1ErrorKind::Eof,
        expected,
    }
}

// The error of a block with a header at this offset that says that it is encrypted.
fn encrypted(offset: usize) -> WalkError
    ensures { result ≡ Malformed offset Invalid Expected.PlainBlock }
{
    WalkError::Malformed {
        offset,
        kind: ASN1ErrorKind::Invalid,
        expected: Expected::PlainBlock,
    }
}

pub fn is_blank(line: &[u8]) -> bool
    ensures { result ≡ is_blank line.now }
{
    line.iter().all(|octet| octet.is_ascii_whitespace())
}

// Whether a header says that the block is encrypted (RFC 1421, 4.6.1.1).
fn says_encrypted(line: &[u8]) -> bool
    ensures { result ≡ says_encrypted line.now }
{
    line.starts_with(b"Proc-Type:") && line.trim_ascii_end().ends_with(b"ENCRYPTED")
}

// Whether the lines of a block begin with headers (RFC 1421): the first of them has a colon.
fn has_headers(lines: &[TextLine<'_>]) -> bool
    ensures { result ≡ has_headers (texts lines.now) }
{
    match lines.first() {
        Some(line) => line.text.contains(&b':'),
        None => false,
    }
}

// The lines after the headers, of a block whose last line is at this offset.
fn body_of<'a, 'b>(lines: &'a [TextLine<'b>], end: usize) -> Result<&'a [TextLine<'b>], WalkError>
    ensures ok { IfOk result (λ body. IsBody lines.now body.now) }
    ensures malformed { IfErr result (λ f. IsMalformed (NoBody lines.now end) f) }
{
    if !has_headers(lines) {
        return Ok(lines);
    }
    let Some(blank) = lines.iter().position(|line| is_blank(line.text)) else {
        return Err(missing(end, Expected::BlankLine));
    };
    match lines[..blank].iter().find(|line| says_encrypted(line.text)) {
        Some(header) => Err(encrypted(header.offset)),
        None => Ok(&lines[blank + 1..]),
    }
}

/// The bytes of a block by its lines, the last of which ends at this offset.
pub fn decode_block(alloc: Global, lines: &[TextLine<'_>], end: usize) -> Result<Vec<u8>, WalkError>
    ensures { IsDecoded lines.now end result }
{
    match body_of(lines, end) {
        Ok(body) => decode_base64(alloc, body, end),
        Err(error) => Err(error),
    }
}
