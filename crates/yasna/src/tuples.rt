//! Tuples: a SEQUENCE of their parts (X.690, 8.9).
//!
//! A tuple is read as pairs that end in `()`: `(A, B)` as `(A, (B, ()))`. So the laws and the reading of every tuple
//! are those of its parts, one after the other.
ghost use Rattle.std.specs.Prelude.{◌≡◌, ℕ, List, Bool, None, false, ◌||◌, ◌++◌, []};
ghost use Rattle.yasna_base.specs.declared.mode.BERMode.{BERMode};
ghost use Rattle.yasna_base.specs.Grammar.{Grammar, Members, Encoding};
ghost use Rattle.yasna_base.specs.Sequence.{sequence_tag, PartOf, NoParts, AnyPart, AnyNothing, SamePart, SameNothing, part_encoding, part_depth, part_can, nothing_encoding, nothing_depth};
ghost use Rattle.yasna_base.specs.Element.{Enclosed, AnyEnclosed};
ghost use Rattle.yasna_base.specs.Coding.{ArePartsCoding};
ghost use Rattle.yasna_base.specs.Canonical.{enclosed_encoding, enclosed_depth, Always};
ghost use Rattle.yasna_base.proofs.Sequence.{part, no_part, tuple, part_written, no_part_written, tuple_written};
ghost use Rattle.yasna_writer.specs.Prepend.{Prepends, KnownLength};
ghost use Rattle.yasna_writer.specs.View.{Writes, WroteParts};
ghost use Rattle.yasna_reader.specs.State.{IsFresh, part_of};
ghost use Rattle.yasna_reader.specs.Decodes.{Decodes, DecodesParts, RepeatsError};
ghost use Rattle.yasna.specs.Tuples.{six_may_allocate, six_encoding, six_can, in_pairs, values_in_pairs, SixPartsOf, AnySixParts};

mod exact;
mod seven_to_twelve;
mod three_to_six;

use crate::traits::{BERDecodable, DERCanonical, DEREncodable};
use yasna_base::error::ASN1Result;
use yasna_base::mode::BERMode;
use yasna_base::tags::TAG_SEQUENCE;
use yasna_reader::{BERReader, BERReaderSeq};
use yasna_writer::{DERWriter, DERWriterSeq, PrependBuffer, constructed_len};

/// The parts of a tuple, as they are read.
pub trait TupleParts: Sized {
    // Which contents encode the parts.
    ghost parts: { Grammar Self };

    // Which contents encode some parts.
    ghost any_parts: { Members };

    // Whether reading the parts may allocate.
    ghost parts_may_allocate: { Bool };

    // Which parts are equal.
    ghost same_parts: { Self → Self → Type 0 };

    /// Reads the parts, one after the other.
    fn read_parts(seq: &mut BERReaderSeq) -> ASN1Result<Self>
        requires { IsFresh (part_of seq.old) }
        ensures { DecodesParts parts_may_allocate parts any_parts (part_of seq.old) result (part_of seq.new) };

    // The laws of reading.
    ghost lawful: { ArePartsCoding same_parts parts any_parts };
}

impl TupleParts for () {
    ghost parts = { NoParts };

    ghost any_parts = { AnyNothing };

    ghost parts_may_allocate = { false };

    ghost same_parts = { SameNothing };

    fn read_parts(_seq: &mut BERReaderSeq) -> ASN1Result<()> {
        Ok(())
    }

    ghost lawful = { no_part };
}

impl<A: BERDecodable, W: TupleParts> TupleParts for (A, W) {
    ghost parts = { PartOf A.encodes W.parts };

    ghost any_parts = { AnyPart A.elements W.any_parts };

    ghost parts_may_allocate = { (A.may_allocate || W.parts_may_allocate) };

    ghost same_parts = { SamePart A.same W.same_parts };

    fn read_parts(seq: &mut BERReaderSeq) -> ASN1Result<(A, W)> {
        let first = A::decode_ber(seq.next())?;
        let others = W::read_parts(seq)?;
        Ok((first, others))
    }

    ghost lawful = { part A.coding W.lawful };
}

// Reads a SEQUENCE of these parts.
#[inline(always)]
fn read_tuple<W: TupleParts + Drop>(reader: BERReader) -> ASN1Result<W>
    requires { reader.old.tag ≡ None }
    ensures decodes { reader.old.failed ≡ None → Decodes W.parts_may_allocate (Enclosed W.parts sequence_tag) (AnyEnclosed W.any_parts sequence_tag) reader.old result reader.new }
    ensures failed { RepeatsError reader.old result reader.new }
{
    reader.read_sequence(|seq| W::read_parts(seq))
}

// Reads a SEQUENCE of six parts and of those after them.
fn read_long_tuple<
    A: BERDecodable,
    B: BERDecodable,
    C: BERDecodable,
    D: BERDecodable,
    E: BERDecodable,
    F: BERDecodable,
    W: TupleParts + Drop,
>(reader: BERReader) -> ASN1Result<((A, B, C, D, E, F), W)>
    requires { reader.old.tag ≡ None }
    ensures decodes { reader.old.failed ≡ None → Decodes
        (six_may_allocate A.may_allocate B.may_allocate C.may_allocate D.may_allocate E.may_allocate F.may_allocate W.parts_may_allocate)
        (λ m n v b. Enclosed (SixPartsOf A.encodes B.encodes C.encodes D.encodes E.encodes F.encodes W.parts) sequence_tag m n (in_pairs v) b)
        (AnyEnclosed (AnySixParts A.elements B.elements C.elements D.elements E.elements F.elements W.any_parts) sequence_tag)
        reader.old result reader.new }
    ensures failed { RepeatsError reader.old result reader.new }
{
    match read_tuple(reader) {
        Ok((a, (b, (c, (d, (e, (f, others))))))) => Ok(((a, b, c, d, e, f), others)),
        Err(error) => Err(error),
    }
}

/// Values that are written one after the other: pairs that end in `()`, as `(&a, (&b, (&c, ())))`.
pub trait EncodableParts {
    // The encodings of the values, one after the other.
    ghost parts_encoding: { Encoding Self };

    // Whether each has an encoding.
    ghost parts_encodable: { Self → Type 0 };

    /// Writes the values as parts of a SEQUENCE.
    fn write_parts(&self, seq: &mut DERWriterSeq) -> ASN1Result<()>
        requires { parts_encodable self.now }
        ensures { WroteParts (parts_encoding seq.old.mode self.now) seq.old seq.new result };

    /// Prepends the values, from the last to the first.
    fn prepend_parts(&self, out: &mut PrependBuffer) -> ASN1Result<()>
        requires { parts_encodable self.now }
        ensures { Prepends (parts_encoding out.old.mode self.now) out.old out.new result };

    /// The length of their encodings, one after the other, if it is known.
    fn parts_len(&self, mode: BERMode) -> Option<usize>
        requires { parts_encodable self.now }
        ensures { KnownLength (parts_encoding mode self.now) result };
}

impl EncodableParts for () {
    ghost parts_encoding = { nothing_encoding };

    ghost parts_encodable = { Always };

    fn write_parts(&self, _seq: &mut DERWriterSeq) -> ASN1Result<()> {
        Ok(())
    }

    #[inline(always)]
    fn prepend_parts(&self, _out: &mut PrependBuffer) -> ASN1Result<()> {
        Ok(())
    }

    #[inline(always)]
    fn parts_len(&self, _mode: BERMode) -> Option<usize> {
        Some(0)
    }
}

impl<A: DEREncodable, W: EncodableParts> EncodableParts for (A, W) {
    ghost parts_encoding = { part_encoding A.encoding W.parts_encoding };

    ghost parts_encodable = { part_can A.encodable W.parts_encodable };

    fn write_parts(&self, seq: &mut DERWriterSeq) -> ASN1Result<()> {
        self.0.encode_der(seq.next())?;
        self.1.write_parts(seq)
    }

    #[inline(always)]
    fn prepend_parts(&self, out: &mut PrependBuffer) -> ASN1Result<()> {
        self.1.prepend_parts(out)?;
        self.0.prepend_der(out)
    }

    #[inline(always)]
    fn parts_len(&self, mode: BERMode) -> Option<usize> {
        let first = self.0.encoded_len(mode)?;
        let others = self.1.parts_len(mode)?;
        first.checked_add(others)
    }
}

// Writes a SEQUENCE of these parts.
#[inline(always)]
fn write_tuple<W: EncodableParts>(parts: &W, writer: DERWriter<'_>) -> ASN1Result<()>
    requires can { W.parts_encodable parts.now }
    requires untagged { writer.old.tag ≡ None }
    ensures { Writes (enclosed_encoding W.parts_encoding sequence_tag writer.old.mode parts.now) writer.old writer.new result }
{
    writer.write_sequence(|seq| parts.write_parts(seq))
}

// Prepends a SEQUENCE of these parts.
#[inline(always)]
fn prepend_tuple<W: EncodableParts>(parts: &W, out: &mut PrependBuffer) -> ASN1Result<()>
    requires { W.parts_encodable parts.now }
    ensures { Prepends (enclosed_encoding W.parts_encoding sequence_tag out.old.mode parts.now) out.old out.new result }
{
    let after = out.begin_contents()?;
    parts.prepend_parts(out)?;
    out.enclose(TAG_SEQUENCE, after)
}

// The length of that.
#[inline(always)]
fn tuple_len<W: EncodableParts>(parts: &W, mode: BERMode) -> Option<usize>
    requires { W.parts_encodable parts.now }
    ensures { KnownLength (enclosed_encoding W.parts_encoding sequence_tag mode parts.now) result }
{
    constructed_len(mode, TAG_SEQUENCE, parts.parts_len(mode)?)
}

// Writes a SEQUENCE of six parts and of those after them.
fn write_long_tuple<
    A: DEREncodable,
    B: DEREncodable,
    C: DEREncodable,
    D: DEREncodable,
    E: DEREncodable,
    F: DEREncodable,
    W: EncodableParts + Drop,
>(first: (&A, &B, &C, &D, &E, &F), others: W, writer: DERWriter<'_>) -> ASN1Result<()>
    requires can { six_can A.encodable B.encodable C.encodable D.encodable E.encodable F.encodable W.parts_encodable (values_in_pairs first others) }
    requires untagged { writer.old.tag ≡ None }
    ensures { Writes (enclosed_encoding (six_encoding A.encoding B.encoding C.encoding D.encoding E.encoding F.encoding W.parts_encoding) sequence_tag writer.old.mode (values_in_pairs first.entry others)) writer.old writer.new result }
{
    let (a, b, c, d, e, f) = first;
    write_tuple(&(a, (b, (c, (d, (e, (f, others)))))), writer)
}

// Prepends a SEQUENCE of six parts and of those after them.
fn prepend_long_tuple<
    A: DEREncodable,
    B: DEREncodable,
    C: DEREncodable,
    D: DEREncodable,
    E: DEREncodable,
    F: DEREncodable,
    W: EncodableParts + Drop,
>(first: (&A, &B, &C, &D, &E, &F), others: W, out: &mut PrependBuffer) -> ASN1Result<()>
    requires { six_can A.encodable B.encodable C.encodable D.encodable E.encodable F.encodable W.parts_encodable (values_in_pairs first others) }
    ensures { Prepends (enclosed_encoding (six_encoding A.encoding B.encoding C.encoding D.encoding E.encoding F.encoding W.parts_encoding) sequence_tag out.old.mode (values_in_pairs first.entry others)) out.old out.new result }
{
    let (a, b, c, d, e, f) = first;
    prepend_tuple(&(a, (b, (c, (d, (e, (f, others)))))), out)
}

// The length of that.
fn long_tuple_len<
    A: DEREncodable,
    B: DEREncodable,
    C: DEREncodable,
    D: DEREncodable,
    E: DEREncodable,
    F: DEREncodable,
    W: EncodableParts + Drop,
>(first: (&A, &B, &C, &D, &E, &F), others: W, mode: BERMode) -> Option<usize>
    requires { six_can A.encodable B.encodable C.encodable D.encodable E.encodable F.encodable W.parts_encodable (values_in_pairs first others) }
    ensures { KnownLength (enclosed_encoding (six_encoding A.encoding B.encoding C.encoding D.encoding E.encoding F.encoding W.parts_encoding) sequence_tag mode (values_in_pairs first.entry others)) result }
{
    let (a, b, c, d, e, f) = first;
    tuple_len(&(a, (b, (c, (d, (e, (f, others)))))), mode)
}

/// A SEQUENCE of these parts, which are pairs that end in `()`.
#[derive(Drop)]
pub struct InSequence<W> {
    /// The parts.
    pub parts: W,
}

impl<W: TupleParts + Drop> BERDecodable for InSequence<W> {
    ghost encodes = { λ m n v b. Enclosed W.parts sequence_tag m n v.parts b };

    ghost elements = { AnyEnclosed W.any_parts sequence_tag };

    ghost may_allocate = { W.parts_may_allocate };

    ghost same = { λ v w. W.same_parts v.parts w.parts };

    #[inline(always)]
    fn decode_ber(reader: BERReader) -> ASN1Result<InSequence<W>> {
        let parts = read_tuple(reader)?;
        Ok(InSequence { parts })
    }

    ghost coding = { tuple (λ v. v.parts) W.lawful };
}

impl<A: BERDecodable, B: BERDecodable> BERDecodable for (A, B) {
    ghost encodes = { λ m n v b. Enclosed (PartOf A.encodes (PartOf B.encodes NoParts)) sequence_tag m n (v.0, (v.1, tt)) b };

    ghost elements = { AnyEnclosed (AnyPart A.elements (AnyPart B.elements AnyNothing)) sequence_tag };

    ghost may_allocate = { (A.may_allocate || (B.may_allocate || false)) };

    ghost same = { λ v w. SamePart A.same (SamePart B.same SameNothing) (v.0, (v.1, tt)) (w.0, (w.1, tt)) };

    #[inline(always)]
    fn decode_ber(reader: BERReader) -> ASN1Result<(A, B)> {
        match read_tuple(reader) {
            Ok((a, (b, ()))) => Ok((a, b)),
            Err(error) => Err(error),
        }
    }

    ghost coding = { tuple (λ v. (v.0, (v.1, tt))) (part A.coding (part B.coding no_part)) };
}

impl<A: DEREncodable, B: DEREncodable> DEREncodable for (A, B) {
    ghost encoding = { λ m v. enclosed_encoding (part_encoding A.encoding (part_encoding B.encoding nothing_encoding)) sequence_tag m (v.0, (v.1, tt)) };

    ghost depth = { λ m v. enclosed_depth (part_depth A.depth (part_depth B.depth nothing_depth)) m (v.0, (v.1, tt)) };

    ghost encodable = { λ v. part_can A.encodable (part_can B.encodable Always) (v.0, (v.1, tt {0})) };

    fn encode_der(&self, writer: DERWriter<'_>) -> ASN1Result<()> {
        write_tuple(&(&self.0, (&self.1, ())), writer)
    }

    #[inline(always)]
    fn prepend_der(&self, out: &mut PrependBuffer) -> ASN1Result<()> {
        prepend_tuple(&(&self.0, (&self.1, ())), out)
    }

    #[inline(always)]
    fn encoded_len(&self, mode: BERMode) -> Option<usize> {
        tuple_len(&(&self.0, (&self.1, ())), mode)
    }
}

impl<A: DERCanonical, B: DERCanonical> DERCanonical for (A, B) {
    ghost written = { tuple_written (λ v. (v.0, (v.1, tt))) (part_written A.written (part_written B.written no_part_written)) };
}
