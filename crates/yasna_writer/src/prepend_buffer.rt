//! A buffer that grows at its front: an encoding is written into it from its last byte to its first.
//!
//! If the parts of an element are prepended, from the last to the first, its length is known when its header comes. So no byte is
//! moved, and of an open element only the count of bytes after its contents is kept.
ghost use Rattle.std.specs.Prelude.{◌≡◌, ◌≤◌, ◌-◌, ◌∷◌, [], ◌++◌, drop, length as count, Err, MatchResult, IfOk};
ghost use Rattle.yasna_base.specs.declared.error.ASN1ErrorKind.TheVariants.{OutOfMemory};
ghost use Rattle.yasna_base.specs.Error.{kind_of};
ghost use Rattle.yasna_writer.specs.Prepend.{HasRoom, nothing_prepended, PrependsAll, Prepends};
ghost use Rattle.yasna_writer.specs.View.{begun};

use crate::identifier::put_bytes;
use crate::state::Writer;
use std::alloc::{AllocError, Global};
use std::marker::Model;
use yasna_base::{ASN1Error, ASN1ErrorKind, ASN1Result, BERMode, Tag};

/// A buffer that grows at its front, and the mode (DER or CER) of what is prepended.
///
/// Memory is first asked for when bytes are prepended. An `Err` of a call is `OutOfMemory`. The buffer then holds the bytes that it held, and
/// maybe a part of those that were to be prepended.
#[derive(Drop)]
pub struct PrependBuffer {
    // The bytes are at its end.
    block: Vec<u8>,
    // Where they begin. What is before that place is room.
    start: usize,
    // How many bytes the first block has at least.
    first_block: usize,
    mode: BERMode,
    alloc: Global,
}

impl Model for PrependBuffer {
    ghost use Rattle.std.specs.Prelude.{◌≤◌, length, drop};
    ghost use Rattle.yasna_writer.specs.Prepend.{Prepended};

    ghost Value = { Prepended };

    ghost view = { λ b. record { bytes = drop b.start b.block.items; mode = b.mode } };

    ghost invariant = { λ b. b.start ≤ length b.block.items };
}

// The bytes of the first block, if no length is known.
const FIRST_BLOCK: usize = 32;

// This few bytes are moved to the start of their block at the end. More are copied to a block of their own.
const FEW: usize = 32;

// Makes room for this many bytes before a place, and returns the place of the bytes that were from there on.
#[inline(always)]
fn room(
    alloc: Global,
    block: &mut Vec<u8>,
    start: usize,
    more: usize,
    first_block: usize,
) -> Result<usize, AllocError>
    requires { start ≤ count block.old.items }
    ensures { MatchResult result (λ place. HasRoom more start block.old.items block.new.items place) (λ _. block.new.items ≡ block.old.items) }
{
    if more <= start {
        return Ok(start);
    }
    larger(alloc, block, start, more, first_block)
}

// As `room`, in a larger block.
#[cold]
#[inline(never)]
fn larger(
    alloc: Global,
    block: &mut Vec<u8>,
    start: usize,
    more: usize,
    first_block: usize,
) -> Result<usize, AllocError>
    requires { start ≤ count block.old.items }
    ensures { MatchResult result (λ place. HasRoom more start block.old.items block.new.items place) (λ _. block.new.items ≡ block.old.items) }
{
    let length = block.len() - start;
    let Some(least) = length.checked_add(more) else {
        return Err(AllocError);
    };
    let size = least.max(block.len().saturating_mul(2)).max(first_block);
    let place = size - length;
    let mut new = Vec::with_capacity(alloc, size)?;
    new.resize(place, 0)?;
    new.extend_from_slice(&block[start..])?;
    *block = new;
    Ok(place)
}

// Prepends many bytes to those from a place on, in a larger block, and returns where they begin. They aren't written over zeros.
#[cold]
#[inline(never)]
fn prepend_in_larger(
    alloc: Global,
    block: &mut Vec<u8>,
    start: usize,
    bytes: &[u8],
    first_block: usize,
) -> Result<usize, AllocError>
    requires { start ≤ count block.old.items }
    ensures { MatchResult result (λ place. (place ≤ count block.new.items) × (drop place block.new.items ≡ bytes.now ++ drop start block.old.items)) (λ _. block.new.items ≡ block.old.items) }
{
    let Some(least) = (block.len() - start).checked_add(bytes.len()) else {
        return Err(AllocError);
    };
    let size = least.max(block.len().saturating_mul(2)).max(first_block);
    let place = size - least;
    let mut new = Vec::with_capacity(alloc, size)?;
    new.resize(place, 0)?;
    new.extend_from_slice(bytes)?;
    new.extend_from_slice(&block[start..])?;
    *block = new;
    Ok(place)
}

// The bytes from a place on.
#[inline(always)]
fn from_place(alloc: Global, block: Vec<u8>, start: usize) -> Result<Vec<u8>, AllocError>
    requires { start ≤ count block.items }
    ensures { IfOk result (λ v. v.items ≡ drop start block.items) }
{
    if start == 0 {
        return Ok(block);
    }
    if block.len() - start > FEW {
        return Vec::from_slice(alloc, &block[start..]);
    }
    Ok(shifted_down(block, start))
}

// As `from_place`, in the same block.
#[inline(always)]
fn shifted_down(block: Vec<u8>, start: usize) -> Vec<u8>
    requires { start ≤ count block.items }
    ensures { result.items ≡ drop start block.items }
{
    let mut block = block;
    let length = block.len() - start;
    block.copy_within(start.., 0);
    block.truncate(length);
    block
}

impl PrependBuffer {
    /// An empty buffer, in this mode.
    #[inline(always)]
    pub fn new(alloc: Global, mode: BERMode) -> PrependBuffer
        ensures { result ≡ nothing_prepended mode }
    {
        PrependBuffer::with_len(alloc, mode, 0)
    }

    /// An empty buffer, in this mode, whose first block has room for `len` bytes.
    ///
    /// If just that many are prepended, `finish` returns that block, and no byte is moved.
    #[inline(always)]
    pub fn with_len(alloc: Global, mode: BERMode, len: usize) -> PrependBuffer
        ensures { result ≡ nothing_prepended mode }
    {
        PrependBuffer {
            block: Vec::new(alloc),
            start: 0,
            first_block: if len == 0 { FIRST_BLOCK } else { len },
            mode,
            alloc,
        }
    }

    /// The count of bytes so far.
    #[inline(always)]
    pub fn len(&self) -> usize
        ensures { result ≡ count self.now.bytes }
    {
        self.block.len() - self.start
    }

    /// The mode of what is prepended.
    #[inline(always)]
    pub fn mode(&self) -> BERMode
        ensures { result ≡ self.now.mode }
    {
        self.mode
    }

    // The bytes so far.
    #[inline(always)]
    pub(crate) fn bytes(&self) -> &[u8]
        ensures { result.now ≡ self.now.bytes }
    {
        &self.block[self.start..]
    }

    // Removes the first bytes.
    #[inline(always)]
    pub(crate) fn remove_first(&mut self, some: usize)
        requires { some ≤ count self.old.bytes }
        ensures { self.new ≡ record self.old { bytes = drop some self.old.bytes } }
    {
        self.start += some;
    }

    // The allocator.
    #[inline(always)]
    pub(crate) fn alloc(&self) -> Global {
        self.alloc
    }

    /// The bytes.
    #[inline(always)]
    pub fn finish(self) -> ASN1Result<Vec<u8>>
        ensures { MatchResult result (λ v. v.items ≡ self.bytes) (λ e. kind_of e ≡ OutOfMemory) }
    {
        let PrependBuffer {
            block,
            start,
            first_block: _,
            mode: _,
            alloc,
        } = self;
        Ok(from_place(alloc, block, start)?)
    }

    /// Prepends bytes. After an `Err` the buffer is as it was.
    #[inline(always)]
    pub fn prepend(&mut self, bytes: &[u8]) -> ASN1Result<()>
        ensures { PrependsAll bytes.now self.old self.new result }
    {
        let end = room(
            self.alloc,
            &mut self.block,
            self.start,
            bytes.len(),
            self.first_block,
        )?;
        self.start = put_bytes(self.block.as_mut_slice(), end, bytes);
        Ok(())
    }

    // Prepends bytes, of which there may be many.
    #[inline(always)]
    pub(crate) fn prepend_many(&mut self, bytes: &[u8]) -> ASN1Result<()>
        ensures { PrependsAll bytes.now self.old self.new result }
    {
        if bytes.len() <= self.start {
            self.start = put_bytes(self.block.as_mut_slice(), self.start, bytes);
            return Ok(());
        }
        self.start = prepend_in_larger(
            self.alloc,
            &mut self.block,
            self.start,
            bytes,
            self.first_block,
        )?;
        Ok(())
    }

    // Prepends the last `some` of eight bytes. If there is room, all eight are written, and those before the last ones count as room.
    #[inline(always)]
    pub(crate) fn prepend_last(&mut self, bytes: [u8; 8], some: usize) -> ASN1Result<()>
        requires { some ≤ 8 }
        ensures { Prepends (drop (8 - some) bytes) self.old self.new result }
    {
        if self.start < 8 {
            return self.prepend(&bytes[8 - some..]);
        }
        let place = put_bytes(self.block.as_mut_slice(), self.start, &bytes);
        self.start = place + (8 - some);
        Ok(())
    }

    /// An empty writing in the mode of the buffer, for `prepend_written`.
    #[inline(always)]
    pub fn writer(&self) -> Writer
        ensures { result ≡ begun self.now.mode }
    {
        Writer::new(self.alloc, self.mode)
    }

    /// As `writer`, with this implicit tag for the next element.
    #[inline(always)]
    pub fn writer_under(&self, under: Option<Tag>) -> Writer
        ensures { result ≡ record (begun self.now.mode) { tag = under } }
    {
        Writer::under(self.alloc, self.mode, under)
    }

    /// Prepends what was written to a writer of `writer` or `writer_under`. `written` is what the write returned: an `Err` is returned.
    ///
    /// An empty buffer takes the bytes over, and no byte is moved.
    pub fn prepend_written(&mut self, writer: Writer, written: ASN1Result<()>) -> ASN1Result<()>
        ensures { MatchResult written (λ _. Prepends writer.bytes self.old self.new result) (λ e. result ≡ Err e) }
    {
        written?;
        self.prepend_writing(writer)
    }

    // Prepends the bytes of a writing.
    pub(crate) fn prepend_writing(&mut self, writer: Writer) -> ASN1Result<()>
        ensures { Prepends writer.bytes self.old self.new result }
    {
        let mut writer = writer;
        let bytes = writer.take_bytes()?;
        if self.block.is_empty() {
            self.block = bytes;
            self.start = 0;
            return Ok(());
        }
        self.prepend_many(&bytes)
    }
}
