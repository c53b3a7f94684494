//! The header of an element: identifier, length, and the cut of the contents (X.690, 8.1 and 9.1).
ghost use Rattle.std.specs.Prelude.{◌≡◌, IsTrue, ◌↔◌, MatchOption};
ghost use Rattle.yasna_base.specs.Element.{TakesDefinite, TakesIndefinite};
ghost use Rattle.yasna_bytes.specs.Rejection.{BlamesBytes};
ghost use Rattle.yasna_base.specs.Header.{indefinite_end};
ghost use Rattle.yasna_bytes.specs.Header.{ContentsAt, AfterIdentifierAt, OpenedAt, ConstructedAt, PrimitiveAt, EndsBefore, NoEnd, ClosesAt};

use crate::bytes::cursor::Cursor;
use crate::bytes::length::{cut, read_length};
use std::marker::Model;
use yasna_base::bytes::identifier::read_identifier;
use yasna_base::error::ASN1ErrorKind;
use yasna_base::mode::BERMode;
use yasna_base::tag::{PCBit, Tag};

/// Why no element was taken from the start of bytes.
#[derive(Clone, Copy, PartialEq, Eq, Debug)]
pub struct Rejection {
    /// What is wrong.
    pub kind: ASN1ErrorKind,
    /// Whether input was consumed before: false if nothing is left or an element of another tag is there.
    pub consumed: bool,
}

/// Where the contents of an element end, by the form of its length (X.690, 8.1.3).
#[derive(Clone, Copy)]
pub enum ContentsEnd<'a> {
    /// The length is counted, and these bytes follow the contents.
    Definite(&'a [u8]),
    /// The end-of-contents octets end them.
    Indefinite,
}

/// An element whose header was read.
#[derive(Drop)]
pub struct Opened<'a> {
    /// Whether the contents are elements.
    pub bit: PCBit,
    /// The contents, or where their length is indefinite all bytes that are left.
    pub contents: &'a [u8],
    /// Where the contents end.
    pub end: ContentsEnd<'a>,
}

impl<'a> Model for Opened<'a> {
    ghost use Rattle.yasna_bytes.specs.Opening.{Opening, opening};

    ghost Value = { Opening };

    ghost view = { λ o. opening o.bit o.contents.now o.end };
}

/// Makes a rejection of this kind.
#[inline(always)]
pub fn reject(kind: ASN1ErrorKind, consumed: bool) -> Rejection
    ensures { result ≡ record { kind = kind; consumed = consumed } }
{
    Rejection { kind, consumed }
}

// Whether a mode accepts an element of indefinite length.
#[inline(always)]
fn takes_indefinite(mode: BERMode, bit: PCBit) -> bool
    ensures { IsTrue result ↔ TakesIndefinite mode bit }
{
    match mode {
        BERMode::Ber => match bit {
            PCBit::Primitive => false,
            PCBit::Constructed => true,
        },
        BERMode::Der => false,
        BERMode::Cer => match bit {
            PCBit::Primitive => false,
            PCBit::Constructed => true,
        },
    }
}

// Whether a mode accepts an element of definite length.
#[inline(always)]
fn takes_definite(mode: BERMode, bit: PCBit) -> bool
    ensures { IsTrue result ↔ TakesDefinite mode bit }
{
    match mode {
        BERMode::Ber => true,
        BERMode::Der => true,
        BERMode::Cer => match bit {
            PCBit::Primitive => true,
            PCBit::Constructed => false,
        },
    }
}

#[inline(always)]
fn is_tag(found: Tag, expected: Tag) -> bool
    ensures { IsTrue result ↔ (found ≡ expected) }
{
    found == expected
}

// The kind of error if fewer than `size` bytes are left up to the place `end`.
#[cold]
#[inline(never)]
fn length_error(end: usize, rest: &[u8], size: usize) -> ASN1ErrorKind
    ensures { BlamesBytes result }
{
    let place = end.saturating_sub(rest.len());
    match size.checked_add(place) {
        Some(_) => ASN1ErrorKind::Eof,
        None => ASN1ErrorKind::IntegerOverflow,
    }
}

/// Reads the header of an element of this tag, and cuts off its contents where they have a length.
#[inline(always)]
pub fn open(cursor: Cursor<'_>, tag: Tag) -> Result<Opened<'_>, Rejection>
    ensures { OpenedAt cursor.entry.mode cursor.entry.levels tag cursor.entry.left.now result }
{
    if cursor.left.is_empty() {
        return Err(reject(ASN1ErrorKind::Eof, false));
    }
    let (found, bit, rest) = match read_identifier(cursor.left) {
        Ok(identifier) => identifier,
        Err(kind) => return Err(reject(kind, true)),
    };
    if !is_tag(found, tag) {
        return Err(reject(ASN1ErrorKind::Invalid, false));
    }
    open_after_identifier(cursor, bit, rest)
}

/// Reads what follows the identifier of an element.
#[inline(always)]
pub fn open_after_identifier<'a>(
    cursor: Cursor<'a>,
    bit: PCBit,
    rest: &'a [u8],
) -> Result<Opened<'a>, Rejection>
    ensures { AfterIdentifierAt cursor.entry.mode cursor.entry.levels bit rest.now result }
{
    if cursor.levels == 0 {
        return Err(reject(ASN1ErrorKind::StackOverflow, true));
    }
    match contents(rest, cursor.mode, bit, cursor.end) {
        Ok(opened) => Ok(opened),
        Err(kind) => Err(reject(kind, true)),
    }
}

// Reads a length, and cuts off the contents that it counts.
#[inline(always)]
fn contents(s: &[u8], mode: BERMode, bit: PCBit, end: usize) -> Result<Opened<'_>, ASN1ErrorKind>
    ensures { ContentsAt mode bit s.now result }
{
    match read_length(s, mode) {
        Ok((Some(size), rest)) => match cut(rest, size) {
            Some((contents, after)) => {
                if takes_definite(mode, bit) {
                    let end = ContentsEnd::Definite(after);
                    Ok(Opened { bit, contents, end })
                } else {
                    Err(ASN1ErrorKind::Invalid)
                }
            }
            None => Err(length_error(end, rest, size)),
        },
        Ok((None, contents)) => {
            if takes_indefinite(mode, bit) {
                let end = ContentsEnd::Indefinite;
                Ok(Opened { bit, contents, end })
            } else {
                Err(ASN1ErrorKind::Invalid)
            }
        }
        Err(kind) => Err(kind),
    }
}

/// As `open`, but rejects a primitive element.
#[inline(always)]
pub fn open_constructed(cursor: Cursor<'_>, tag: Tag) -> Result<Opened<'_>, Rejection>
    ensures { ConstructedAt cursor.entry.mode cursor.entry.levels tag cursor.entry.left.now result }
{
    match open(cursor, tag) {
        Ok(opened) => match opened.bit {
            PCBit::Constructed => Ok(opened),
            PCBit::Primitive => Err(reject(ASN1ErrorKind::Invalid, true)),
        },
        Err(rejection) => Err(rejection),
    }
}

/// Reads a primitive element of this tag, and returns its contents and the rest.
#[inline(always)]
pub fn read_primitive_contents(cursor: Cursor<'_>, tag: Tag) -> Result<(&[u8], &[u8]), Rejection>
    ensures { PrimitiveAt cursor.entry.levels cursor.entry.mode tag cursor.entry.left.now result }
{
    match open(cursor, tag) {
        Ok(opened) => match opened.bit {
            PCBit::Primitive => match opened.end {
                ContentsEnd::Definite(after) => Ok((opened.contents, after)),
                // No mode accepts the indefinite form here.
                ContentsEnd::Indefinite => Err(reject(ASN1ErrorKind::Invalid, true)),
            },
            PCBit::Constructed => Err(reject(ASN1ErrorKind::Invalid, true)),
        },
        Err(rejection) => Err(rejection),
    }
}

/// What follows an element whose contents were read as far as `rest`, where they end there.
#[inline(always)]
pub fn close<'a>(opened: &Opened<'a>, rest: &'a [u8]) -> Result<&'a [u8], ASN1ErrorKind>
    ensures { ClosesAt opened.now.end rest.now result }
{
    match opened.end {
        ContentsEnd::Definite(after) => {
            if rest.is_empty() {
                Ok(after)
            } else {
                Err(ASN1ErrorKind::Extra)
            }
        }
        ContentsEnd::Indefinite => match end_of_contents(rest) {
            Some(after) => Ok(after),
            None => Err(end_of_contents_error(rest)),
        },
    }
}

/// What follows the end-of-contents octets (X.690, 8.1.5), where they are at the start.
#[inline(always)]
pub fn end_of_contents(s: &[u8]) -> Option<&[u8]>
    ensures { MatchOption result (NoEnd indefinite_end s.now) (λ after. EndsBefore indefinite_end s.now after.now) }
{
    match s {
        [0, 0, after @ ..] => Some(after),
        _ => None,
    }
}

/// The kind of error if the end-of-contents octets aren't there.
#[cold]
#[inline(never)]
pub fn end_of_contents_error(s: &[u8]) -> ASN1ErrorKind
    ensures { BlamesBytes result }
{
    match s {
        [] | [0] => ASN1ErrorKind::Eof,
        [0, ..] => ASN1ErrorKind::Invalid,
        _ => match read_identifier(s) {
            Ok(_) => ASN1ErrorKind::Invalid,
            Err(kind) => kind,
        },
    }
}
