//! The bytes of an element.
ghost use Rattle.std.specs.Prelude.{◌≡◌, drop, Some, None, MatchOption, ⊤};
ghost use Rattle.asn1show_printer.specs.Selection.{IsContentsOf, IsExtracted, IsWholeAt};

use crate::selection::Part;
use asn1show_walk::Item;
use yasna_base::mode::BERMode;
use yasna_bytes::bytes::cursor::Cursor;
use yasna_bytes::bytes::walk::raw_element;

// The whole element that bytes begin with, with a header and contents of this many octets.
fn definite_at(mode: BERMode, bytes: &[u8], header: usize, size: usize) -> Option<&[u8]>
    ensures { MatchOption result ⊤ (λ whole. IsWholeAt mode bytes.now header (Some size) whole.now) }
{
    if size > bytes.len() || header > bytes.len() - size {
        return None;
    }
    Some(&bytes[..header + size])
}

// The whole element that bytes begin with, whose length is indefinite.
fn indefinite_at(mode: BERMode, bytes: &[u8], header: usize) -> Option<&[u8]>
    ensures { MatchOption result ⊤ (λ whole. IsWholeAt mode bytes.now header None whole.now) }
{
    match raw_element(Cursor::start(bytes, mode)) {
        Ok((element, _)) => Some(element.bytes),
        Err(_) => None,
    }
}

// The whole element that bytes begin with, whose header has this many octets. The length of its contents is definite, or None.
fn whole_at(mode: BERMode, bytes: &[u8], header: usize, size: Option<usize>) -> Option<&[u8]>
    ensures { MatchOption result ⊤ (λ whole. IsWholeAt mode bytes.now header size whole.now) }
{
    match size {
        Some(size) => definite_at(mode, bytes, header, size),
        None => indefinite_at(mode, bytes, header),
    }
}

// The contents of a whole element, without the zeros that end them.
fn contents_of(whole: &[u8], header: usize, size: Option<usize>) -> Option<&[u8]>
    ensures { MatchOption result ⊤ (λ contents. IsContentsOf whole.now header size contents.now) }
{
    let end_size = match size {
        Some(_) => 0,
        None => 2,
    };
    let (_, after) = whole.split_at_checked(header)?;
    let (contents, _) = after.split_at_checked(after.len().checked_sub(end_size)?)?;
    Some(contents)
}

/// A part of an element of an input.
pub fn part_of<'a>(mode: BERMode, input: &'a [u8], item: &Item<'_>, part: Part) -> Option<&'a [u8]>
    ensures { MatchOption result ⊤ (λ bytes. IsExtracted mode part (drop item.now.offset input.now) item.now.header item.now.size bytes.now) }
{
    let whole = whole_at(mode, input.get(item.offset..)?, item.header, item.size)?;
    match part {
        Part::Whole => Some(whole),
        Part::Contents => contents_of(whole, item.header, item.size),
    }
}
