//! Contents, and the headers of elements with parts, which are stored separately until all is joined.
//!
//! Only a `Writer` holds one and calls it.
//!
//! When an element with parts begins, an empty slot is appended for its place; when it ends, the slot takes its header. So contents
//! are only appended to, no header is ever moved, and depth costs nothing. In CER the header has no length, and two zeros are appended
//! first (X.690, 8.1.3.6 and 9.1).
ghost use Rattle.std.specs.Prelude.{◌≡◌, ◌≤◌, ◌<◌, ◌+◌, List, ◌∷◌, ◌++◌, ◌⊎◌, [], length, length as count, vec_len, IfOk, OnOk, IfSome, MatchResult};
ghost use Rattle.yasna_base.specs.Error.{kind_of};
ghost use Rattle.yasna_base.specs.declared.error.ASN1ErrorKind.TheVariants.{OutOfMemory, Invalid};
ghost use Rattle.yasna_base.specs.declared.mode.BERMode.TheVariants.{Cer};
ghost use Rattle.yasna_base.specs.Digits.{base128};
ghost use Rattle.std.specs.List.{flat_map};
ghost use Rattle.std.specs.Str.{chars};
ghost use Rattle.yasna_base.specs.Text.{bmp_octets};
ghost use Rattle.yasna_writer.specs.Header.{header_bytes, indefinite_header, parts_header, header_of};
ghost use Rattle.yasna_writer.specs.declared.header.PartsHeader.{PartsHeader};
ghost use Rattle.yasna_writer.specs.Buffer.{IsInnermost, StatesHeader, with_header, with_element};
ghost use Rattle.yasna_writer.specs.declared.buffer.SlotState.TheVariants.{Waits};

use crate::bmp::push_bmp;
use crate::header::{
    Header, PartsHeader, header_length, parts_header, parts_header_length, push_header,
    push_indefinite_header,
};
use crate::identifier::push_bytes;
use crate::join::join;
use crate::oid::push_subidentifiers;
use crate::slots::Slots;
use std::alloc::{AllocError, Global};
use std::default::MadeWith;
use std::marker::Model;
use std::mem;
use yasna_base::{ASN1Error, ASN1ErrorKind, ASN1Result, BERMode, PCBit, Tag, TagClass};

// The state of a slot, in eight bytes.
#[derive(Clone, Copy)]
pub(crate) enum SlotState {
    // The element is open.
    Waits {
        // The number of open elements: it and those around it.
        depth: u16,
        // The count of bytes of the headers before it.
        headers: u32,
    },
    // The header has a length.
    Definite {
        class: TagClass,
        number: u16,
        length: u32,
    },
    // The length is indefinite.
    Indefinite {
        class: TagClass,
        number: u16,
    },
    // The number of the tag or the length is too large for a slot. The header is in a list, at this place.
    Elsewhere(u32),
}

// A place in the contents at which an element with parts begins.
#[derive(Clone, Copy)]
pub(crate) struct Slot {
    pub(crate) place: usize,
    pub(crate) state: SlotState,
}

// The value of a slot that isn't used yet.
impl MadeWith<Global> for Slot {
    fn made_with(_alloc: Global) -> Slot {
        let state = SlotState::Waits {
            depth: 0,
            headers: 0,
        };
        Slot { place: 0, state }
    }
}

// An open element, as the call that writes it remembers it.
#[derive(Clone, Copy)]
pub(crate) struct OpenElement {
    // The number of its slot.
    slot: usize,
    // The count of bytes before it, with those of headers.
    pub(crate) start: usize,
    pub(crate) tag: Tag,
    // The mode in which it is written, whichever writer a closure leaves in place of the one that it was lent.
    pub(crate) mode: BERMode,
}

// Contents and headers. Contracts see the bytes that they are joined to.
#[derive(Drop)]
pub(crate) struct Buffer {
    // Contents, which are only appended to.
    contents: Vec<u8>,
    // The count of bytes of all headers.
    headers: usize,
    // The places of headers.
    slots: Slots,
    // The number of open elements that have a slot.
    waits: u16,
    // The headers that are too large for a slot.
    large: Vec<PartsHeader>,
}

impl Model for Buffer {
    ghost use Rattle.std.specs.Prelude.{ℕ, List, length};
    ghost use Rattle.yasna_writer.specs.Buffer.{joined, AreSlots};

    ghost Value = { List ℕ };

    ghost view = { λ d. joined d.large.items d.slots d.contents.items };

    ghost invariant = { λ d. AreSlots d.large.items d.slots (length d.contents.items) d.headers d.waits };
}

// The place of this open element's slot, if it is the innermost one.
#[inline(always)]
fn innermost(slots: &Slots, waits: u16, opened: OpenElement) -> Option<usize>
    ensures { IfSome result (λ place. IsInnermost slots.now waits opened place) }
{
    let slot = slots.get(opened.slot)?;
    match slot.state {
        SlotState::Waits { depth, headers }
            if depth == waits
                && slot.place <= opened.start
                && headers as usize == opened.start - slot.place => { Some(slot.place) }
        _ => None,
    }
}

// The state of a slot whose element begins, by the number of open elements around it and the bytes of headers before it.
#[inline(always)]
fn waiting_state(waits: u16, headers: usize) -> Option<SlotState>
    ensures { IfSome result (λ m. (waits + 1 < 65536) × (m ≡ Waits (waits + 1) headers)) }
{
    let depth = waits.checked_add(1)?;
    let headers = u32::try_from(headers).ok()?;
    Some(SlotState::Waits { depth, headers })
}

// The state of a slot with this header, if its numbers are small enough.
#[inline(always)]
fn small_state(tag: Tag, length: Option<usize>) -> Option<SlotState>
    ensures { IfSome result (λ m. (ls : List PartsHeader) → StatesHeader (header_of tag length) ls m) }
{
    let class = tag.tag_class;
    let number = u16::try_from(tag.tag_number).ok()?;
    match length {
        Some(length) => {
            let length = u32::try_from(length).ok()?;
            Some(SlotState::Definite {
                class,
                number,
                length,
            })
        }
        None => Some(SlotState::Indefinite { class, number }),
    }
}

// The state of a slot with this header, which is listed if it is too large for a slot.
#[inline(always)]
fn state_of(
    large: &mut Vec<PartsHeader>,
    tag: Tag,
    length: Option<usize>,
) -> Result<SlotState, AllocError>
    ensures { MatchResult result (λ m. (more : List PartsHeader) × (large.new.items ≡ large.old.items ++ more) × StatesHeader (header_of tag length) large.new.items m) (λ _. large.new.items ≡ large.old.items) }
{
    match small_state(tag, length) {
        Some(state) => Ok(state),
        None => list_header(large, parts_header(tag, length)),
    }
}

// Lists a header.
#[cold]
fn list_header(large: &mut Vec<PartsHeader>, header: PartsHeader) -> Result<SlotState, AllocError>
    ensures { MatchResult result (λ m. (large.new.items ≡ large.old.items ++ (header ∷ [])) × StatesHeader header large.new.items m) (λ _. large.new.items ≡ large.old.items) }
{
    let Ok(index) = u32::try_from(large.len()) else {
        return Err(AllocError);
    };
    match large.push(header) {
        Ok(()) => Ok(SlotState::Elsewhere(index)),
        Err(_) => Err(AllocError),
    }
}

impl Buffer {
    // An empty buffer.
    #[inline(always)]
    pub(crate) fn new(alloc: Global) -> Buffer
        ensures { result ≡ [] }
    {
        Buffer {
            contents: Vec::new(alloc),
            headers: 0,
            slots: Slots::new(alloc),
            waits: 0,
            large: Vec::new(alloc),
        }
    }

    // The count of bytes, with those of headers.
    #[inline(always)]
    pub(crate) fn len(&self) -> usize
        ensures { result ≡ length self.now }
    {
        self.contents.len() + self.headers
    }

    // Appends bytes.
    #[tactic(auto, using(crate::proofs::Buffers::joined_append))]
    #[inline(always)]
    pub(crate) fn add(&mut self, bytes: &[u8]) -> Result<(), AllocError>
        ensures { OnOk result (self.new ≡ self.old ++ bytes.now) }
    {
        push_bytes(&mut self.contents, bytes)
    }

    // Appends the header of an element whose contents follow.
    #[tactic(auto, using(crate::proofs::Buffers::joined_append))]
    #[inline(always)]
    pub(crate) fn add_header(&mut self, header: Header, bit: PCBit) -> Result<(), AllocError>
        ensures { OnOk result (self.new ≡ self.old ++ header_bytes bit header) }
    {
        push_header_with_room(&mut self.contents, header, bit)
    }

    // Appends the header of an element of indefinite length, and makes room for so many bytes after it.
    #[tactic(auto, using(crate::proofs::Buffers::joined_append))]
    pub(crate) fn add_indefinite_header(
        &mut self,
        tag: Tag,
        length: usize,
    ) -> Result<(), AllocError>
        ensures { OnOk result (self.new ≡ self.old ++ indefinite_header tag) }
    {
        reserve_and_push_indefinite_header(&mut self.contents, tag, length)
    }

    // Appends numbers in base 128.
    #[tactic(auto, using(crate::proofs::Buffers::joined_append))]
    pub(crate) fn add_subidentifiers(
        &mut self,
        first: u64,
        further: &[u64],
    ) -> Result<(), AllocError>
        ensures { OnOk result (self.new ≡ self.old ++ (base128 first ++ flat_map base128 further.now)) }
    {
        push_subidentifiers(&mut self.contents, first, further)
    }

    // Appends a text in UTF-16.
    #[tactic(auto, using(crate::proofs::Buffers::joined_append))]
    pub(crate) fn add_bmp(&mut self, string: &str) -> Result<(), AllocError>
        ensures { OnOk result (self.new ≡ self.old ++ bmp_octets (chars string.now)) }
    {
        push_bmp(&mut self.contents, string)
    }

    // Opens an element with parts. If there is no memory for its slot, or a slot can't hold its numbers, its end does without.
    #[inline(always)]
    pub(crate) fn open_element(&mut self, alloc: Global, tag: Tag, mode: BERMode) -> OpenElement
        ensures same { self.new ≡ self.old }
        ensures start { result.start ≡ length self.old }
        ensures tagged { result.tag ≡ tag }
        ensures mode { result.mode ≡ mode }
    {
        let place = self.contents.len();
        let start = self.len();
        let opened = OpenElement {
            slot: self.slots.len(),
            start,
            tag,
            mode,
        };
        let Some(state) = waiting_state(self.waits, self.headers) else {
            return opened;
        };
        if let Ok(()) = self.slots.push(alloc, Slot { place, state }) {
            self.waits += 1;
        }
        opened
    }

    // Ends an open element over the bytes from its start on, or returns `OutOfMemory`, or `Invalid` if fewer bytes are left than when it
    // began.
    #[inline(always)]
    pub(crate) fn enclose(&mut self, alloc: Global, opened: OpenElement) -> ASN1Result<()>
        ensures { MatchResult result (λ _. (opened.start ≤ length self.old) × (self.new ≡ with_element opened.mode opened.tag opened.start self.old)) (λ e. (kind_of e ≡ OutOfMemory) ⊎ ((kind_of e ≡ Invalid) × (length self.old < opened.start))) }
    {
        let all = self.len();
        if all < opened.start {
            return Err(ASN1Error::new(ASN1ErrorKind::Invalid));
        }
        if let BERMode::Cer = opened.mode {
            return self.enclose_in_cer(alloc, opened.slot, opened.start, opened.tag);
        }
        self.place_header(alloc, opened, Some(all - opened.start))
    }

    // As `enclose`, in CER: two zeros end the contents, whose length isn't counted (X.690, 9.1).
    #[inline(never)]
    fn enclose_in_cer(
        &mut self,
        alloc: Global,
        slot: usize,
        start: usize,
        tag: Tag,
    ) -> ASN1Result<()>
        requires { start ≤ length self.old }
        ensures { MatchResult result (λ _. self.new ≡ with_element Cer tag start self.old) (λ e. kind_of e ≡ OutOfMemory) }
    {
        let mode = BERMode::Cer;
        let opened = OpenElement {
            slot,
            start,
            tag,
            mode,
        };
        match self.add(&[0, 0]) {
            Ok(()) => self.place_header(alloc, opened, None),
            Err(_) => Err(ASN1Error::new(ASN1ErrorKind::OutOfMemory)),
        }
    }

    // Puts a header where an element began, of this length or of indefinite length, or runs out of memory.
    #[inline(always)]
    fn place_header(
        &mut self,
        alloc: Global,
        opened: OpenElement,
        length: Option<usize>,
    ) -> ASN1Result<()>
        requires { opened.start ≤ count self.old }
        ensures { MatchResult result (λ _. self.new ≡ with_header opened.start (parts_header (header_of opened.tag length)) self.old) (λ e. kind_of e ≡ OutOfMemory) }
    {
        let Some(place) = innermost(&self.slots, self.waits, opened) else {
            return self.place_header_apart(alloc, opened.start, opened.tag, length);
        };
        let headers = self.headers + parts_header_length(opened.tag, length);
        if headers > usize::MAX / 2 {
            return Err(ASN1Error::new(ASN1ErrorKind::OutOfMemory));
        }
        let Ok(state) = state_of(&mut self.large, opened.tag, length) else {
            return Err(ASN1Error::new(ASN1ErrorKind::OutOfMemory));
        };
        self.slots.set(opened.slot, Slot { place, state });
        self.headers = headers;
        self.waits -= 1;
        Ok(())
    }

    // As `place_header`, where the element has no slot, or other open elements follow it: all is joined, so that the
    // element's start is a place in the contents.
    #[cold]
    fn place_header_apart(
        &mut self,
        alloc: Global,
        start: usize,
        tag: Tag,
        length: Option<usize>,
    ) -> ASN1Result<()>
        requires { start ≤ count self.old }
        ensures { MatchResult result (λ _. self.new ≡ with_header start (parts_header (header_of tag length)) self.old) (λ e. kind_of e ≡ OutOfMemory) }
    {
        match self.joined_with(alloc, start, tag, length) {
            Ok(buffer) => {
                *self = buffer;
                Ok(())
            }
            Err(_) => Err(ASN1Error::new(ASN1ErrorKind::OutOfMemory)),
        }
    }

    // The bytes with a header at a place.
    fn joined_with(
        &mut self,
        alloc: Global,
        place: usize,
        tag: Tag,
        length: Option<usize>,
    ) -> Result<Buffer, AllocError>
        requires { place ≤ count self.old }
        ensures { IfOk result (λ buffer. buffer ≡ with_header place (parts_header (header_of tag length)) self.old) }
    {
        let contents = self.take_joined(alloc)?;
        let mut large = Vec::new(alloc);
        let state = state_of(&mut large, tag, length)?;
        let mut slots = Slots::new(alloc);
        slots.push(alloc, Slot { place, state })?;
        Ok(Buffer {
            contents,
            headers: parts_header_length(tag, length),
            slots,
            waits: 0,
            large,
        })
    }

    // Takes out the contents with each header at its place.
    #[inline(always)]
    pub(crate) fn take_joined(&mut self, alloc: Global) -> Result<Vec<u8>, AllocError>
        ensures { IfOk result (λ v. v.items ≡ self.old) }
    {
        if self.slots.len() > 0 {
            join(
                &mut self.contents,
                &mut self.slots,
                &self.large,
                self.headers,
            )?;
            self.large.clear();
            self.headers = 0;
            self.waits = 0;
        }
        Ok(mem::replace(&mut self.contents, Vec::new(alloc)))
    }
}

// Appends the header of an element whose contents follow.
#[inline(always)]
fn push_header_with_room(out: &mut Vec<u8>, header: Header, bit: PCBit) -> Result<(), AllocError>
    ensures items { OnOk result (out.new.items ≡ out.old.items ++ header_bytes bit header) }
    ensures grows { vec_len out.old ≤ vec_len out.new }
{
    if header.length < 128 {
        return push_header(out, header, bit);
    }
    reserve_and_push_header(out, header, bit)
}

// As `push_header_with_room`, where the contents are long: room is made for the whole element first.
#[inline(never)]
fn reserve_and_push_header(out: &mut Vec<u8>, header: Header, bit: PCBit) -> Result<(), AllocError>
    ensures items { OnOk result (out.new.items ≡ out.old.items ++ header_bytes bit header) }
    ensures grows { vec_len out.old ≤ vec_len out.new }
{
    let room = header_length(header.tag, header.length);
    out.reserve(header.length.saturating_add(room))?;
    push_header(out, header, bit)
}

// Appends the header of an element of indefinite length, and makes room for so many bytes after it.
fn reserve_and_push_indefinite_header(
    out: &mut Vec<u8>,
    tag: Tag,
    length: usize,
) -> Result<(), AllocError>
    ensures items { OnOk result (out.new.items ≡ out.old.items ++ indefinite_header tag) }
    ensures grows { vec_len out.old ≤ vec_len out.new }
{
    out.reserve(length.saturating_add(header_length(tag, 0)))?;
    push_indefinite_header(out, tag)
}
