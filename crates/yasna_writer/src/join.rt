//! Contents and headers joined where the contents are, from the last header to the first, for `buffer`.
//!
//! Room for all headers is made after the contents. Then each piece of the contents moves up to its place, once, and the header
//! before it is written. So no second copy of the bytes is needed.
ghost use Rattle.std.specs.Prelude.{◌≡◌, ◌≤◌, ◌<◌, ◌+◌, ◌^◌, length as count, take, slice_range, slice_get, MatchResult, []};
ghost use Rattle.yasna_base.specs.declared.tag.PCBit.TheVariants.{Constructed};
ghost use Rattle.yasna_writer.specs.Header.{header_bytes};
ghost use Rattle.yasna_writer.specs.Buffer.{listed_header, header_of_state, headers_length, joined, AreInOrder};
ghost use Rattle.yasna_writer.specs.Put.{PutBefore};

use crate::buffer::SlotState;
use crate::header::{Header, PartsHeader, put_header, put_indefinite_header, put_parts_header};
use crate::identifier::put_bytes;
use crate::slots::Slots;
use std::alloc::AllocError;
use yasna_base::{Tag, TagClass};

// Puts each header at its place in the contents, and takes its slot out. The headers take `headers` bytes, and those that are too
// large for a slot are in a list.
pub(crate) fn join(
    contents: &mut Vec<u8>,
    slots: &mut Slots,
    large: &[PartsHeader],
    headers: usize,
) -> Result<(), AllocError>
    requires ordered { AreInOrder 0 slots.old (count contents.old.items) }
    requires counted { headers ≡ headers_length large.now slots.old }
    requires few { headers < 2 ^ 63 }
    ensures { MatchResult result (λ _. (contents.new.items ≡ joined large.now slots.old contents.old.items) × (slots.new ≡ [])) (λ _. (contents.new.items ≡ contents.old.items) × (slots.new ≡ slots.old)) }
{
    let length = contents.len();
    make_room(contents, headers)?;
    place_headers(contents, slots, large, length);
    Ok(())
}

// As `join`, where there is room for all headers after the contents, which are `length` long.
fn place_headers(bytes: &mut [u8], slots: &mut Slots, large: &[PartsHeader], length: usize)
    requires ordered { AreInOrder 0 slots.old length }
    requires room { count bytes.old ≡ length + headers_length large.now slots.old }
    ensures joins { bytes.new ≡ joined large.now slots.old (take length bytes.old) }
    ensures taken { slots.new ≡ [] }
{
    let mut from = length;
    let mut to = bytes.len();
    while let Some(slot) = slots.pop() {
        let piece = move_up(bytes, slot.place, from, to);
        to = put_slot(bytes, piece, slot.state, large);
        from = slot.place;
    }
}

// Makes room after the contents for headers of this many bytes. For one short header these are two bytes, which are appended
// without a loop.
#[inline(always)]
fn make_room(contents: &mut Vec<u8>, headers: usize) -> Result<(), AllocError>
    requires { count contents.old.items + headers < 2 ^ 64 }
    ensures { MatchResult result (λ _. (count contents.new.items ≡ count contents.old.items + headers) × (take (count contents.old.items) contents.new.items ≡ contents.old.items)) (λ _. contents.new.items ≡ contents.old.items) }
{
    if headers == 2 {
        return contents.extend_from_slice(&[0, 0]);
    }
    contents.resize(contents.len() + headers, 0)
}

// Writes the header of a slot before a place. Mostly its length is definite: one branch is cheaper than a jump for each state.
#[inline(always)]
fn put_slot(out: &mut [u8], end: usize, state: SlotState, large: &[PartsHeader]) -> usize
    requires room { count (header_of_state large.now state) ≤ end }
    requires within { end ≤ count out.old }
    ensures put { PutBefore (header_of_state large.now state) end out.old out.new result }
    ensures len { count out.new ≡ count out.old }
{
    match state {
        SlotState::Definite {
            class,
            number,
            length,
        } => put_definite(out, end, class, number, length),
        _ => put_any_slot(out, end, state, large),
    }
}

// As `put_slot`, of a slot in any state.
#[inline(never)]
fn put_any_slot(out: &mut [u8], end: usize, state: SlotState, large: &[PartsHeader]) -> usize
    requires room { count (header_of_state large.now state) ≤ end }
    requires within { end ≤ count out.old }
    ensures put { PutBefore (header_of_state large.now state) end out.old out.new result }
    ensures len { count out.new ≡ count out.old }
{
    match state {
        SlotState::Waits { .. } => end,
        SlotState::Definite {
            class,
            number,
            length,
        } => put_definite(out, end, class, number, length),
        SlotState::Indefinite { class, number } => {
            let tag = Tag {
                tag_class: class,
                tag_number: number as u64,
            };
            put_indefinite_header(out, end, tag)
        }
        SlotState::Elsewhere(index) => put_listed(out, end, large, index as usize),
    }
}

// Writes a header of definite length before a place.
#[inline(always)]
fn put_definite(out: &mut [u8], end: usize, class: TagClass, number: u16, length: u32) -> usize
    requires room { count (header_bytes Constructed (record { tag = record { tag_class = class; tag_number = number }; length = length })) ≤ end }
    requires within { end ≤ count out.old }
    ensures put { PutBefore (header_bytes Constructed (record { tag = record { tag_class = class; tag_number = number }; length = length })) end out.old out.new result }
    ensures len { count out.new ≡ count out.old }
{
    let tag = Tag {
        tag_class: class,
        tag_number: number as u64,
    };
    let length = length as usize;
    put_header(out, end, Header { tag, length })
}

// Writes a header that is in a list before a place.
#[cold]
fn put_listed(out: &mut [u8], end: usize, large: &[PartsHeader], index: usize) -> usize
    requires room { count (listed_header (slice_get large.now index)) ≤ end }
    requires within { end ≤ count out.old }
    ensures put { PutBefore (listed_header (slice_get large.now index)) end out.old out.new result }
    ensures len { count out.new ≡ count out.old }
{
    match large.get(index) {
        Some(header) => put_parts_header(out, end, *header),
        None => end,
    }
}

// Pieces up to this many bytes are moved byte by byte, longer ones through the stack, this many bytes at a time.
const FEW: usize = 16;

const MANY: usize = 256;

// Moves the bytes between two places up, so that they end before `to`, and returns where the first of them is.
#[inline(always)]
fn move_up(bytes: &mut [u8], start: usize, end: usize, to: usize) -> usize
    requires piece { start ≤ end }
    requires up { end ≤ to }
    requires within { to ≤ count bytes.old }
    ensures put { PutBefore (slice_range bytes.old start end) to bytes.old bytes.new result }
    ensures len { count bytes.new ≡ count bytes.old }
{
    let length = end - start;
    if length > FEW {
        return move_many_up(bytes, start, end, to);
    }
    let place = to - length;
    bytes.copy_within(start..end, place);
    place
}

// As `move_up`, of many bytes.
#[inline(never)]
fn move_many_up(bytes: &mut [u8], start: usize, end: usize, to: usize) -> usize
    requires piece { start ≤ end }
    requires up { end ≤ to }
    requires within { to ≤ count bytes.old }
    ensures put { PutBefore (slice_range bytes.old start end) to bytes.old bytes.new result }
    ensures len { count bytes.new ≡ count bytes.old }
{
    let mut copy = [0; MANY];
    let mut from = end;
    let mut place = to;
    while start < from {
        let length = (from - start).min(MANY);
        copy[..length].copy_from_slice(&bytes[from - length..from]);
        from -= length;
        place = put_bytes(bytes, place, &copy[..length]);
    }
    place
}
