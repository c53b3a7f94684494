//! SET and SET OF (X.690, 8.11, 8.12, 9.3, 10.3 and 11.6), calls of users. Their parts are written separately, and then put in
//! order. So parts of CER are ordered by the bytes that they have in CER.
ghost use Rattle.std.specs.Prelude.{◌≡◌, ◌++◌, ◌∷◌, [], None, IsTrue, ◌↔◌, IfOk, MatchOption, MatchResult};
ghost use Rattle.std.specs.Borrow.{sem};
ghost use Rattle.std.specs.Fn.{FnOnceTakesAtMut};
ghost use Rattle.std.specs.List.{AllByRecursion, concat, flat_map};
ghost use Rattle.yasna_base.specs.declared.error.ASN1ErrorKind.TheVariants.{OutOfMemory};
ghost use Rattle.yasna_base.specs.declared.tag.PCBit.TheVariants.{Constructed};
ghost use Rattle.yasna_base.specs.Canonical.{canonical_element};
ghost use Rattle.yasna_base.specs.Error.{kind_of};
ghost use Rattle.yasna_base.specs.Identifier.{tag_or};
ghost use Rattle.yasna_base.specs.Order.{octets_cmp, in_order};
ghost use Rattle.yasna_base.specs.Set.{set_tag, SetOfContents, SetContents};
ghost use Rattle.yasna_writer.specs.Parts.{begun_set, only_part, bytes_each, ordered_bytes};
ghost use Rattle.yasna_writer.specs.Set.{Pushes, LosesParts, EndsPart, BeginsPart, BeginsNext, LendsPart, FailsAtSet, EndsSet, WritesSet, contents_in};
ghost use Rattle.yasna_writer.specs.State.{Appended};
ghost use Rattle.yasna_writer.specs.View.{holding, handed};

use crate::order_parts::order_by_bytes;
use crate::ordered_part::OrderedPart;
use crate::state::{DERWriter, Writer};
use crate::tagged_part::{TaggedPart, order_by_tag, tag_parts};
use std::alloc::{AllocError, Global};
use std::convert::AsSlice;
use std::marker::Model;
use yasna_base::tags::TAG_SET;
use yasna_base::{ASN1Error, ASN1ErrorKind, ASN1Result, BERMode, Tag};

/// The order of the parts of a set.
#[derive(Clone, Copy)]
pub enum PartOrder {
    /// By their bytes, as those of a SET OF.
    Bytes,
    /// By the tags that they begin with, as those of a SET.
    Tags,
}

/// The parts of a set, which a closure writes in any order.
///
/// ```rust
/// pub fn write_values(values: &[Vec<u8>], writer: DERWriter<'_>) -> ASN1Result<()> {
///     writer.write_set_of(|items| {
///         for value in values {
///             items.next().write_bytes(value)?;
///         }
///         Ok(())
///     })
/// }
/// ```
#[derive(Drop)]
pub struct DERWriterSet {
    // The parts before the last.
    parts: Vec<Vec<u8>>,
    // The writing of the last part.
    last: Writer,
    // Whether there is a last part.
    begun: bool,
    // The mode in which each part is written.
    mode: BERMode,
}

impl Model for DERWriterSet {
    ghost use Rattle.std.specs.Prelude.{◌++◌};
    ghost use Rattle.yasna_writer.specs.Parts.{WrittenParts, bytes_each, last_part};

    ghost Value = { WrittenParts };

    ghost view = { λ s. record { parts = bytes_each s.parts.items ++ last_part s.begun s.last.bytes; mode = s.mode; failed = s.last.failed } };
}

// Appends the bytes of a part to those of the earlier parts, or runs out of memory.
fn push_part(parts: &mut Vec<Vec<u8>>, last: &mut Writer) -> ASN1Result<()>
    ensures { Pushes last.old.bytes parts.old.items parts.new.items result }
{
    let part = last.take_bytes()?;
    match parts.push(part) {
        Ok(()) => Ok(()),
        Err(_) => Err(ASN1Error::new(ASN1ErrorKind::OutOfMemory)),
    }
}

// Appends the last part to the earlier parts, if one was begun.
fn end_part(parts: &mut Vec<Vec<u8>>, last: &mut Writer, begun: bool) -> ASN1Result<()>
    ensures { EndsPart begun parts.old.items last.old parts.new.items result }
{
    if let Some(error) = last.failed() {
        return Err(error);
    }
    if begun {
        return push_part(parts, last);
    }
    Ok(())
}

// Begins a part after the earlier parts.
fn begin_part(parts: &mut Vec<Vec<u8>>, last: &mut Writer, begun: bool, mode: BERMode)
    ensures { BeginsNext mode begun parts.old.items last.old parts.new.items last.new }
{
    match end_part(parts, last, begun) {
        Ok(()) => last.restart(mode, None),
        Err(error) => {
            parts.clear();
            last.restart(mode, Some(error));
        }
    }
}

fn is_non_empty(part: &[u8]) -> bool
    ensures { IsTrue result ↔ (part.now ≡ [] → ⊥) }
{
    !part.is_empty()
}

// Whether no part is empty.
fn are_non_empty(parts: &[Vec<u8>]) -> bool
    ensures { IsTrue result ↔ AllByRecursion (λ v. v.items ≡ [] → ⊥) parts.now }
{
    parts.iter().all(|part| is_non_empty(part))
}

// Takes out the bytes of the only part of a SET OF, or returns why there are none.
fn non_empty_bytes(part: &mut Writer) -> ASN1Result<Vec<u8>>
    ensures { MatchResult result (λ v. (part.old.failed ≡ None) × SetOfContents (part.old.bytes ∷ []) (flat_map (λ w. w.items) (v ∷ []))) (λ e. FailsAtSet SetOfContents (only_part part.old) e) }
{
    if let Some(error) = part.failed() {
        return Err(error);
    }
    let bytes = part.take_bytes()?;
    if bytes.is_empty() {
        return Err(ASN1Error::new(ASN1ErrorKind::Invalid));
    }
    Ok(bytes)
}

// The parts, each after its sort key.
fn number_parts<'a>(alloc: Global, parts: &'a [Vec<u8>]) -> Result<Vec<OrderedPart<'a>>, AllocError>
    ensures { IfOk result (λ v. ordered_bytes v.items ≡ bytes_each parts.now) }
{
    let mut numbered = Vec::with_capacity(alloc, parts.len())?;
    for bytes in parts {
        numbered.push(OrderedPart::new(bytes))?;
    }
    Ok(numbered)
}

// The parts in the order of a SET OF.
fn in_set_of_order<'a>(
    alloc: Global,
    parts: &'a [Vec<u8>],
) -> Result<Vec<OrderedPart<'a>>, AllocError>
    ensures { IfOk result (λ v. ordered_bytes v.items ≡ in_order octets_cmp (bytes_each parts.now)) }
{
    let mut ordered = number_parts(alloc, parts)?;
    order_by_bytes(&mut ordered)?;
    Ok(ordered)
}

impl DERWriterSet {
    // A set without parts.
    #[inline(always)]
    pub(crate) fn new(alloc: Global, mode: BERMode) -> DERWriterSet
        ensures { result ≡ begun_set mode }
    {
        DERWriterSet {
            parts: Vec::new(alloc),
            last: Writer::new(alloc, mode),
            begun: false,
            mode,
        }
    }

    // The parts, or why there are none.
    fn into_parts(self) -> ASN1Result<Vec<Vec<u8>>>
        ensures { MatchResult result (λ v. (self.failed ≡ None) × (bytes_each v.items ≡ self.parts)) (λ e. LosesParts self.failed e) }
    {
        let DERWriterSet {
            mut parts,
            mut last,
            begun,
            mode: _,
        } = self;
        end_part(&mut parts, &mut last, begun)?;
        Ok(parts)
    }

    // The parts of a SET OF, or why there are none.
    fn into_set_of(self) -> ASN1Result<Vec<Vec<u8>>>
        ensures { MatchResult result (λ v. (self.failed ≡ None) × SetOfContents self.parts (concat (in_order octets_cmp (bytes_each v.items)))) (λ e. FailsAtSet SetOfContents self e) }
    {
        let parts = self.into_parts()?;
        if !are_non_empty(&parts) {
            return Err(ASN1Error::new(ASN1ErrorKind::Invalid));
        }
        Ok(parts)
    }

    // The parts in the order of a SET, or why there are none.
    fn into_set(self) -> ASN1Result<Vec<TaggedPart>>
        ensures { MatchResult result (λ v. (self.failed ≡ None) × SetContents self.parts (flat_map (λ part. part.bytes.items) v.items)) (λ e. FailsAtSet SetContents self e) }
    {
        let alloc = self.last.alloc();
        let mut parts = tag_parts(alloc, self.into_parts()?)?;
        match order_by_tag(&mut parts) {
            Ok(()) => Ok(parts),
            Err(_) => Err(ASN1Error::new(ASN1ErrorKind::OutOfMemory)),
        }
    }

    /// The writer of a further part, in the mode that the set began with.
    ///
    /// If there is no memory for the parts before, this writer returns `OutOfMemory`, which is sticky.
    #[inline(always)]
    pub fn next(&mut self) -> DERWriter<'_>
        ensures* lends { sem 𝓛 (LendsPart self.entry result) }
        ensures value { BeginsPart self.old.mode self.old.failed result.now }
    {
        begin_part(&mut self.parts, &mut self.last, self.begun, self.mode);
        self.begun = true;
        &mut self.last
    }
}

impl Writer {
    // Appends parts, one after the other, or fails with a sticky `OutOfMemory`.
    fn append_parts<P: AsSlice<u8>>(&mut self, parts: &[P]) -> ASN1Result<()>
        ensures { Appended (flat_map P.items parts.now) self.old self.new result }
    {
        for part in parts {
            self.append(part.as_slice())?;
        }
        Ok(())
    }

    // Writes an element around parts, or fails with a sticky `OutOfMemory`.
    fn write_parts<P: AsSlice<u8>>(&mut self, tag: Tag, parts: &[P])
        requires { self.old ≡ handed self.old }
        ensures { MatchOption self.new.failed (self.new ≡ holding self.old (self.old.bytes ++ canonical_element self.old.mode tag Constructed (flat_map P.items parts.now))) (λ k. kind_of k ≡ OutOfMemory) }
    {
        let opened = self.begin(tag);
        if self.append_parts(parts).is_ok() {
            self.end(opened);
        }
    }

    // Writes an element around parts in the order of a SET OF, or fails with a sticky `OutOfMemory`.
    fn write_ordered(&mut self, tag: Tag, parts: &[Vec<u8>])
        requires { self.old ≡ handed self.old }
        ensures { MatchOption self.new.failed (self.new ≡ holding self.old (self.old.bytes ++ canonical_element self.old.mode tag Constructed (concat (in_order octets_cmp (bytes_each parts.now))))) (λ k. kind_of k ≡ OutOfMemory) }
    {
        match in_set_of_order(self.alloc(), parts) {
            Ok(ordered) => self.write_parts(tag, &ordered),
            Err(_) => self.fail(ASN1Error::new(ASN1ErrorKind::OutOfMemory)),
        }
    }

    // Writes a SET OF around its only part, which needs no order, or fails with a sticky error.
    fn end_set_of_one(&mut self, tag: Tag, part: &mut Writer)
        requires { self.old ≡ handed self.old }
        ensures { EndsSet SetOfContents (canonical_element self.old.mode tag Constructed) (only_part part.old) self.old self.new }
    {
        match non_empty_bytes(part) {
            Ok(bytes) => self.write_parts(tag, &[bytes]),
            Err(error) => self.fail(error),
        }
    }

    // Writes a SET OF around the parts, or fails with a sticky error.
    fn end_set_of(&mut self, tag: Tag, mut set: DERWriterSet)
        requires { self.old ≡ handed self.old }
        ensures { EndsSet SetOfContents (canonical_element self.old.mode tag Constructed) set self.old self.new }
    {
        if set.begun && set.parts.is_empty() {
            return self.end_set_of_one(tag, &mut set.last);
        }
        match set.into_set_of() {
            Ok(parts) => self.write_ordered(tag, &parts),
            Err(error) => self.fail(error),
        }
    }

    // Writes a SET around the parts, or fails with a sticky error.
    fn end_set_by_tag(&mut self, tag: Tag, set: DERWriterSet)
        requires { self.old ≡ handed self.old }
        ensures { EndsSet SetContents (canonical_element self.old.mode tag Constructed) set self.old self.new }
    {
        match set.into_set() {
            Ok(parts) => self.write_parts(tag, &parts),
            Err(error) => self.fail(error),
        }
    }

    // Writes a SET or a SET OF around the parts, or fails with a sticky error.
    fn end_set(&mut self, tag: Tag, order: PartOrder, set: DERWriterSet)
        requires { self.old ≡ handed self.old }
        ensures { EndsSet (contents_in order) (canonical_element self.old.mode tag Constructed) set self.old self.new }
    {
        match order {
            PartOrder::Bytes => self.end_set_of(tag, set),
            PartOrder::Tags => self.end_set_by_tag(tag, set),
        }
    }

    // Writes a set of the parts that the closure writes, in this order.
    fn write_in_order<
        T: Drop,
        E: From<ASN1Error> + Drop,
        F: FnOnce(&mut DERWriterSet) -> Result<T, E>,
    >(&mut self, order: PartOrder, f: F) -> Result<T, E>
        requires { self.old.failed ≡ None → FnOnceTakesAtMut F.FnOnce f (begun_set self.old.mode) }
        ensures { WritesSet F.FnOnce E.from_gives f (contents_in order) (canonical_element self.old.mode (tag_or self.old.tag set_tag) Constructed) self.old self.new result }
    {
        let tag = match self.fresh_tag(TAG_SET) {
            Ok(tag) => tag,
            Err(error) => return Err(E::from(error)),
        };
        let mut set = self.begin_set();
        let own = f(&mut set);
        self.end_set(tag, order, set);
        self.resolve(own)
    }

    /// Writes a SET (X.690, 8.11, 9.3 and 10.3): its contents are the parts that the closure writes, by the tags that they
    /// begin with, first the class, then the number.
    ///
    /// Parts of one tag stay in the order of calls, or are ordered by their bytes if the tag's number is 31 or more. Errors are those of
    /// `write_set_of`; a part that doesn't begin with an identifier is `Invalid` too.
    pub fn write_set<
        T: Drop,
        E: From<ASN1Error> + Drop,
        F: FnOnce(&mut DERWriterSet) -> Result<T, E>,
    >(&mut self, f: F) -> Result<T, E>
        requires { self.old.failed ≡ None → FnOnceTakesAtMut F.FnOnce f (begun_set self.old.mode) }
        ensures { WritesSet F.FnOnce E.from_gives f SetContents (canonical_element self.old.mode (tag_or self.old.tag set_tag) Constructed) self.old self.new result }
    {
        self.write_in_order(PartOrder::Tags, f)
    }

    /// Writes a SET OF (X.690, 8.12): its contents are the parts that the closure writes, in ascending order as bytes.
    ///
    /// A sticky error is returned, and the closure doesn't run. Else the closure's result is returned. After an `Err` of the closure's own
    /// the set still ends over the parts so far, and the writing goes on. If a write of the closure failed, or there is no memory
    /// (`OutOfMemory`), or a part is empty (`Invalid`), that error is returned instead, and is sticky, and nothing of the set is written.
    pub fn write_set_of<
        T: Drop,
        E: From<ASN1Error> + Drop,
        F: FnOnce(&mut DERWriterSet) -> Result<T, E>,
    >(&mut self, f: F) -> Result<T, E>
        requires { self.old.failed ≡ None → FnOnceTakesAtMut F.FnOnce f (begun_set self.old.mode) }
        ensures { WritesSet F.FnOnce E.from_gives f SetOfContents (canonical_element self.old.mode (tag_or self.old.tag set_tag) Constructed) self.old self.new result }
    {
        self.write_in_order(PartOrder::Bytes, f)
    }
}
