//! Reads of raw elements (X.690, 8.1), whose contents aren't given a type: of any element, kept as it came. Users call them on a
//! reader.
ghost use Rattle.std.specs.Prelude.{ℕ, List, IfOk, ◌≡◌};
ghost use Rattle.yasna_base.specs.declared.mode.BERMode.{BERMode};
ghost use Rattle.yasna_base.specs.Grammar.{Grammar};
ghost use Rattle.yasna_base.specs.Raw.{RawValue, IsRaw};
ghost use Rattle.yasna_base.specs.TaggedDerValue.{raw_of};
ghost use Rattle.yasna_reader.specs.Raw.{IsWhole, CopiedAt, value_of_pieces};
ghost use Rattle.yasna_bytes.specs.Walk.{element_of};

use crate::state::ReaderState;
use std::alloc::{AllocError, Global};
use yasna_base::error::{ASN1ErrorKind, ASN1Result};
use yasna_base::models::TaggedDerValue;
use yasna_base::tag::{PCBit, Tag, TagClass};
use yasna_bytes::bytes::cursor::Cursor;
use yasna_bytes::bytes::header::{Rejection, reject};
use yasna_bytes::bytes::walk::{RawElement, raw_element};

/// A value that is copied from a raw element.
trait Copied: Sized {
    // What contracts see of such values, and what a raw element is to be for them.
    ghost Seen: { Type 0 };

    ghost view: { Self → Seen };

    ghost copies: { Grammar Seen };

    fn of_element(alloc: Global, element: &RawElement<'_>) -> Result<Self, AllocError>
        ensures { IfOk result (λ v. (n : ℕ) (m : BERMode) → IsRaw m n (element_of element.now) element.now.bytes.now → copies m n (view v) element.now.bytes.now) };

    ghost element: { (n : ℕ) (m : BERMode) (v : Seen) (b : List ℕ) → copies m n v b → (x : RawValue) × IsRaw m n x b };
}

// A raw element's tag, bit and payload, one beside the other: a `TaggedDerValue` is moved with its padding, as words that
// overlap, which stalls the processor.
#[derive(Drop)]
struct Pieces {
    class: TagClass,
    number: u64,
    bit: PCBit,
    payload: Vec<u8>,
}

impl Pieces {
    // The raw element's value.
    #[inline(always)]
    fn value(self) -> TaggedDerValue
        ensures { raw_of result ≡ value_of_pieces self }
    {
        let tag = Tag {
            tag_class: self.class,
            tag_number: self.number,
        };
        TaggedDerValue::from_tag_pc_and_bytes(tag, self.bit, self.payload)
    }
}

impl Copied for Pieces {
    ghost Seen = { RawValue };

    ghost view = { value_of_pieces };

    ghost copies = { IsRaw };

    #[inline(always)]
    fn of_element(alloc: Global, element: &RawElement<'_>) -> Result<Pieces, AllocError> {
        let payload = Vec::from_slice(alloc, element.payload)?;
        Ok(Pieces {
            class: element.tag.tag_class,
            number: element.tag.tag_number,
            bit: element.bit,
            payload,
        })
    }

    ghost element = { λ n m v b x. (v, x) };
}

/// All bytes of the raw element.
impl Copied for Vec<u8> {
    ghost Seen = { List ℕ };

    ghost view = { λ v. v.items };

    ghost copies = { IsWhole };

    fn of_element(alloc: Global, element: &RawElement<'_>) -> Result<Vec<u8>, AllocError> {
        Vec::from_slice(alloc, element.bytes)
    }

    ghost element = { λ n m v b x. (x.element, x.raw) };
}

// Parses a raw element, copies it, and returns the copy and the rest.
#[inline(always)]
fn parse_copy<T: Copied>(alloc: Global, cursor: Cursor<'_>) -> Result<(T, &[u8]), Rejection>
    ensures { CopiedAt T.copies T.view cursor.entry.levels cursor.entry.mode cursor.entry.left.now result }
{
    match raw_element(cursor) {
        Ok((element, rest)) => match T::of_element(alloc, &element) {
            Ok(value) => Ok((value, rest)),
            Err(_) => Err(reject(ASN1ErrorKind::OutOfMemory, true)),
        },
        Err(rejection) => Err(rejection),
    }
}

impl<'a> ReaderState<'a> {
    ghost use Rattle.yasna_base.specs.Raw.{IsRaw};
    ghost use Rattle.yasna_base.specs.TaggedDerValue.{raw_of};
    ghost use Rattle.yasna_reader.specs.Raw.{IsWhole, CopiedAt, ReadsRaw};

    /// Reads an element of any tag but that of the end of contents: its tag, its bit, and what follows its length (X.690, 8.1).
    ///
    /// In DER constructed contents have to be elements one after the other, in BER and CER those of indefinite length; levels count in
    /// them too. Their values aren't validated. An implicit tag is ignored, and used up. At an end of contents the result is
    /// `Invalid`, and isn't sticky.
    #[tactic(auto, using(crate::proofs::RawReads::reads_raw_as, crate::proofs::RawReads::rejects_raw_as))]
    pub fn read_tagged_der(&mut self) -> ASN1Result<TaggedDerValue>
        ensures { ReadsRaw IsRaw raw_of self.old result self.new }
    {
        match self.read_raw::<Pieces>() {
            Ok(pieces) => Ok(pieces.value()),
            Err(error) => Err(error),
        }
    }

    /// Reads an element as `read_tagged_der` does, and returns all its bytes: from the identifier on, with the two zeros that end
    /// contents of indefinite length.
    pub fn read_der(&mut self) -> ASN1Result<Vec<u8>>
        ensures { ReadsRaw IsWhole (λ v. v.items) self.old result self.new }
    {
        self.read_raw::<Vec<u8>>()
    }

    #[inline(always)]
    fn copy_of<T: Copied>(&self) -> Result<(T, &'a [u8]), Rejection>
        ensures { CopiedAt T.copies T.view self.now.levels self.now.mode self.now.left result }
    {
        parse_copy::<T>(self.alloc, self.cursor)
    }

    // Reads a raw element, and copies it.
    #[inline(always)]
    #[tactic(auto, using(crate::proofs::RawReads::reads_raw, crate::proofs::RawReads::reads_raw_sticky))]
    fn read_raw<T: Copied + Drop>(&mut self) -> ASN1Result<T>
        ensures { ReadsRaw T.copies T.view self.old result self.new }
    {
        if let Some(error) = self.failed {
            return Err(error);
        }
        let parsed = self.copy_of::<T>();
        self.commit(parsed)
    }
}
