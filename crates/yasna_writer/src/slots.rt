//! The slots of headers, in blocks of one size, for `buffer`.
//!
//! A full block is never moved. So the memory of many slots is what they need, and contents that grow beside them find the room
//! where they were before.
ghost use Rattle.std.specs.Prelude.{◌≡◌, ◌<◌, ◌∷◌, ◌++◌, [], length, set, slice_get, MatchOption, MatchResult};
ghost use Rattle.yasna_writer.specs.Slots.{in_blocks, AreFull, PutsAfter};

use crate::buffer::Slot;
use smallvec::SmallVec;
use std::alloc::{AllocError, Global};
use std::marker::Model;
use std::mem;

// The number of slots in a full block: 64 KiB.
const BLOCK: usize = 4096;

// The slots, which contracts see as one list.
#[derive(Drop)]
pub(crate) struct Slots {
    // Blocks that are full.
    full: Vec<Vec<Slot>>,
    // The number of slots in full blocks.
    before: usize,
    // The last block.
    last: SmallVec<Slot, 4, Global>,
}

impl Model for Slots {
    ghost use Rattle.std.specs.Prelude.{List, ◌++◌};
    ghost use Rattle.yasna_writer.specs.Slots.{in_blocks, AreBlocks};
    ghost use Rattle.yasna_writer.specs.declared.buffer.Slot.{Slot};

    ghost Value = { List Slot };

    ghost view = { λ s. in_blocks s.full.items ++ s.last.items };

    ghost invariant = { λ s. AreBlocks s.full.items s.before s.last.items };
}

impl Slots {
    // Makes an empty list of slots.
    #[inline(always)]
    pub(crate) fn new(alloc: Global) -> Slots
        ensures { result ≡ [] }
    {
        Slots {
            full: Vec::new(alloc),
            before: 0,
            last: SmallVec::new(alloc),
        }
    }

    // The number of slots.
    #[inline(always)]
    pub(crate) fn len(&self) -> usize
        ensures { result ≡ length self.now }
    {
        self.before + self.last.as_slice().len()
    }

    // The slot of this number.
    #[inline(always)]
    pub(crate) fn get(&self, index: usize) -> Option<Slot>
        ensures { result ≡ slice_get self.now index }
    {
        match index.checked_sub(self.before) {
            Some(place) => self.last.get(place).copied(),
            None => get_in(&self.full, index),
        }
    }

    // Replaces a slot.
    #[inline(always)]
    pub(crate) fn set(&mut self, index: usize, slot: Slot)
        requires { index < length self.old }
        ensures { self.new ≡ set self.old index slot }
    {
        match index.checked_sub(self.before) {
            Some(place) => self.last[place] = slot,
            None => set_in(&mut self.full, index, slot),
        }
    }

    // Appends a slot.
    #[inline(always)]
    pub(crate) fn push(&mut self, alloc: Global, slot: Slot) -> Result<(), AllocError>
        ensures { MatchResult result (λ _. self.new ≡ self.old ++ (slot ∷ [])) (λ _. self.new ≡ self.old) }
    {
        if self.last.len() == self.last.capacity() {
            self.make_room(alloc)?;
        }
        match self.last.push(slot) {
            Ok(()) => Ok(()),
            Err(_) => Err(AllocError),
        }
    }

    // Makes room for a slot. The first block grows by four times at each step, each further one has its full size at once, and a full
    // block is followed by another.
    #[cold]
    #[inline(never)]
    fn make_room(&mut self, alloc: Global) -> Result<(), AllocError>
        ensures { self.new ≡ self.old }
    {
        let length = self.last.len();
        if length != BLOCK {
            let more = match self.before {
                0 => length.saturating_mul(3),
                _ => BLOCK.saturating_sub(length),
            };
            return self.last.reserve(more);
        }
        let before = self.before + BLOCK;
        if before > usize::MAX / 2 {
            return Err(AllocError);
        }
        put_after(alloc, &mut self.full, &mut self.last)?;
        self.before = before;
        Ok(())
    }

    // Takes out the last slot.
    #[inline(always)]
    pub(crate) fn pop(&mut self) -> Option<Slot>
        ensures { MatchOption result ((self.old ≡ []) × (self.new ≡ [])) (λ e. self.old ≡ self.new ++ (e ∷ [])) }
    {
        if let Some(slot) = self.last.pop() {
            return Some(slot);
        }
        self.last = SmallVec::from_vec(self.full.pop()?);
        self.before -= BLOCK;
        self.last.pop()
    }
}

// Appends the last block to the full ones, and begins another.
fn put_after(
    alloc: Global,
    full: &mut Vec<Vec<Slot>>,
    last: &mut SmallVec<Slot, 4, Global>,
) -> Result<(), AllocError>
    ensures { MatchResult result (λ _. PutsAfter last.old.items full.old.items full.new.items last.new.items) (λ _. (full.new.items ≡ full.old.items) × (last.new.items ≡ last.old.items)) }
{
    let block = match mem::replace(last, SmallVec::new(alloc)).into_vec() {
        Ok(block) => block,
        Err(failed) => {
            *last = failed.value;
            return Err(AllocError);
        }
    };
    match full.push(block) {
        Ok(()) => Ok(()),
        Err(failed) => {
            *last = SmallVec::from_vec(failed.value);
            Err(AllocError)
        }
    }
}

// The slot of this number in full blocks.
#[tactic(auto, using(crate::proofs::Blocks::slot_in_block, crate::proofs::Blocks::slot_in_none))]
fn get_in(full: &[Vec<Slot>], index: usize) -> Option<Slot>
    requires { AreFull full.now }
    ensures { result ≡ slice_get (in_blocks full.now) index }
{
    let block = full.get(index / BLOCK)?;
    get_of(block, index % BLOCK)
}

// The slot of this number in a block.
fn get_of(block: &[Slot], index: usize) -> Option<Slot>
    ensures { result ≡ slice_get block.now index }
{
    block.get(index).copied()
}

// Replaces a slot in full blocks.
fn set_in(full: &mut [Vec<Slot>], index: usize, slot: Slot)
    requires full { AreFull full.old }
    requires within { index < length (in_blocks full.old) }
    ensures full { AreFull full.new }
    ensures len { length full.new ≡ length full.old }
    ensures put { in_blocks full.new ≡ set (in_blocks full.old) index slot }
{
    full[index / BLOCK][index % BLOCK] = slot;
}
