//! The header of an element: identifier and length octets (X.690, 8.1.2 and 8.1.3). `buffer` calls it.
ghost use Rattle.std.specs.Prelude.{◌≡◌, ◌≤◌, ◌++◌, length as count, OnOk, vec_len};
ghost use Rattle.yasna_base.specs.declared.tag.PCBit.TheVariants.{Constructed};
ghost use Rattle.yasna_writer.specs.Header.{header_bytes, indefinite_header, parts_header, header_of};
ghost use Rattle.yasna_writer.specs.Put.{PutBefore};

use crate::identifier::{identifier_length, leading, push_bytes, put_bytes, put_identifier};
use crate::length::{length_length, put_length};
use std::alloc::AllocError;
use yasna_base::{PCBit, Tag};

// The header of an element.
#[derive(Clone, Copy)]
pub(crate) struct Header {
    // The element's tag.
    pub(crate) tag: Tag,
    // The length of the element's contents, with the headers of its parts.
    pub(crate) length: usize,
}

// The header of an element with parts that has ended.
#[derive(Clone, Copy)]
pub(crate) enum PartsHeader {
    // Its length is definite.
    Counted(Header),
    // Its length is indefinite.
    Endless(Tag),
}

// Appends a header: two bytes, if the tag's number is below 31 and the contents are short.
#[tactic(auto, using(yasna_base::proofs::Identifier::identifier_short, yasna_base::proofs::Length::short_length))]
#[inline(always)]
pub(crate) fn push_header(out: &mut Vec<u8>, header: Header, bit: PCBit) -> Result<(), AllocError>
    ensures items { OnOk result (out.new.items ≡ out.old.items ++ header_bytes bit header) }
    ensures grows { vec_len out.old ≤ vec_len out.new }
{
    let Header { tag, length } = header;
    if tag.tag_number < 31 && length < 128 {
        return push_bytes(out, &[leading(tag, bit), length as u8]);
    }
    push_any_header(out, tag, length, bit)
}

// The bytes of the longest header: eleven of an identifier, and nine of a length.
pub(crate) const LONGEST: usize = 20;

// Appends any header, which is put together on the stack.
#[tactic(auto, using(crate::proofs::Headers::header_at_most, crate::proofs::Puts::put_last))]
#[inline(never)]
fn push_any_header(out: &mut Vec<u8>, tag: Tag, length: usize, bit: PCBit) -> Result<(), AllocError>
    ensures items { OnOk result (out.new.items ≡ out.old.items ++ header_bytes bit (record { tag = tag; length = length })) }
    ensures grows { vec_len out.old ≤ vec_len out.new }
{
    let mut header = [0; LONGEST];
    let start = put_any_header(&mut header, LONGEST, tag, length, bit);
    push_bytes(out, &header[start..])
}

// The count of bytes of an element's header.
#[inline(always)]
pub(crate) fn header_length(tag: Tag, length: usize) -> usize
    ensures octets { result ≡ count (header_bytes Constructed (record { tag = tag; length = length })) }
    ensures few { result ≤ 20 }
{
    identifier_length(tag) + length_length(length)
}

// Appends the header of an element of indefinite length: identifier and 128 (X.690, 8.1.3.6).
#[tactic(auto, using(yasna_base::proofs::Identifier::identifier_short))]
#[inline(always)]
pub(crate) fn push_indefinite_header(out: &mut Vec<u8>, tag: Tag) -> Result<(), AllocError>
    ensures items { OnOk result (out.new.items ≡ out.old.items ++ indefinite_header tag) }
    ensures grows { vec_len out.old ≤ vec_len out.new }
{
    if tag.tag_number < 31 {
        return push_bytes(out, &[leading(tag, PCBit::Constructed), 128]);
    }
    push_any_indefinite_header(out, tag)
}

// As `push_indefinite_header`, with any identifier.
#[tactic(auto, using(crate::proofs::Headers::indefinite_header_at_most, crate::proofs::Puts::put_last))]
#[inline(never)]
fn push_any_indefinite_header(out: &mut Vec<u8>, tag: Tag) -> Result<(), AllocError>
    ensures items { OnOk result (out.new.items ≡ out.old.items ++ indefinite_header tag) }
    ensures grows { vec_len out.old ≤ vec_len out.new }
{
    let mut header = [0; LONGEST];
    let start = put_indefinite_header(&mut header, LONGEST, tag);
    push_bytes(out, &header[start..])
}

// The header of an element with parts that has ended, of this length or of indefinite length.
#[inline(always)]
pub(crate) fn parts_header(tag: Tag, length: Option<usize>) -> PartsHeader
    ensures { result ≡ header_of tag length }
{
    match length {
        Some(length) => PartsHeader::Counted(Header { tag, length }),
        None => PartsHeader::Endless(tag),
    }
}

// The count of bytes of that header, which isn't made for this: it is large, and would be moved through memory.
#[inline(always)]
pub(crate) fn parts_header_length(tag: Tag, length: Option<usize>) -> usize
    ensures octets { result ≡ count (parts_header (header_of tag length)) }
    ensures few { result ≤ 20 }
{
    match length {
        Some(length) => header_length(tag, length),
        None => identifier_length(tag) + 1,
    }
}

// Writes the header of an element with parts before a place, and returns where it begins.
#[inline(always)]
pub(crate) fn put_parts_header(out: &mut [u8], end: usize, header: PartsHeader) -> usize
    requires room { count (parts_header header) ≤ end }
    requires within { end ≤ count out.old }
    ensures put { PutBefore (parts_header header) end out.old out.new result }
    ensures len { count out.new ≡ count out.old }
{
    match header {
        PartsHeader::Counted(header) => put_header(out, end, header),
        PartsHeader::Endless(tag) => put_indefinite_header(out, end, tag),
    }
}

// Writes the header of an element with parts before a place, where its length is counted, and returns where it begins.
#[tactic(auto, using(yasna_base::proofs::Identifier::identifier_short, yasna_base::proofs::Length::short_length))]
#[inline(always)]
pub(crate) fn put_header(out: &mut [u8], end: usize, header: Header) -> usize
    requires room { count (header_bytes Constructed header) ≤ end }
    requires within { end ≤ count out.old }
    ensures put { PutBefore (header_bytes Constructed header) end out.old out.new result }
    ensures len { count out.new ≡ count out.old }
{
    let Header { tag, length } = header;
    if tag.tag_number < 31 && length < 128 {
        return put_bytes(out, end, &[leading(tag, PCBit::Constructed), length as u8]);
    }
    put_any_header(out, end, tag, length, PCBit::Constructed)
}

// Writes any header before a place.
#[inline(never)]
pub(crate) fn put_any_header(
    out: &mut [u8],
    end: usize,
    tag: Tag,
    length: usize,
    bit: PCBit,
) -> usize
    requires room { count (header_bytes bit (record { tag = tag; length = length })) ≤ end }
    requires within { end ≤ count out.old }
    ensures put { PutBefore (header_bytes bit (record { tag = tag; length = length })) end out.old out.new result }
    ensures len { count out.new ≡ count out.old }
{
    let start = put_length(out, end, length);
    put_identifier(out, start, tag, bit)
}

// Writes the header of an element of indefinite length before a place.
#[inline(never)]
pub(crate) fn put_indefinite_header(out: &mut [u8], end: usize, tag: Tag) -> usize
    requires room { count (indefinite_header tag) ≤ end }
    requires within { end ≤ count out.old }
    ensures put { PutBefore (indefinite_header tag) end out.old out.new result }
    ensures len { count out.new ≡ count out.old }
{
    let start = put_bytes(out, end, &[128]);
    put_identifier(out, start, tag, PCBit::Constructed)
}
