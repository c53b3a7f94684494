//! DEFAULT of a part whose value is `None` for the default (X.680, 25.9; X.690, 8.9.3 and 11.5).
//!
//! To make a text, an object identifier or a struct takes memory, and reading has no allocator to hand out. So an omitted part is `None`,
//! and a value that is there is tested.
ghost use Rattle.std.specs.Prelude.{◌≡◌, ◌++◌, ◌∷◌, ◌||◌, ◌&&◌, Bool, None, true};
ghost use Rattle.yasna_base.specs.Beginnings.{share_none};
ghost use Rattle.yasna_base.specs.Coding.{Any};
ghost use Rattle.yasna_base.specs.Default.{default_encoding, default_can};
ghost use Rattle.yasna_base.specs.Exact.{part_fits};
ghost use Rattle.yasna_base.specs.Identifier.{end_tag};
ghost use Rattle.yasna_base.specs.Sequence.{PartOf, AnyPart, SamePart, part_encoding, part_depth, part_can};
ghost use Rattle.yasna_reader.specs.Optional.{ReadsOptional};
ghost use Rattle.yasna_reader.specs.State.{Does, part_of};
ghost use Rattle.yasna_writer.specs.Prepend.{Prepends, KnownLength};
ghost use Rattle.yasna_writer.specs.View.{WroteParts};
ghost use Rattle.yasna_notation.specs.Notation.{ReadsAs};
ghost use Rattle.yasna_notation.specs.Parts.{all_known};
ghost use Rattle.yasna_notation.specs.WithinMode.{WithinMode};
ghost use Rattle.yasna_notation_constraints.specs.OrDefault.{accepted_by, SameOrDefault, OrDefaultOf, or_default_encoding, or_default_depth, or_default_can, or_default_fits};
ghost use Rattle.yasna_notation_constraints.specs.OrDefault.{or_default_laws, or_default_writes};

use crate::tested_defaults::TestedDefault;
use std::marker::PhantomData;
use yasna_base::{ASN1Error, ASN1ErrorKind, ASN1Result, BERMode};
use yasna_notation::{CanonicalNotation, CanonicalParts, Notation, Parts, PartsBy};
use yasna_reader::{BERReader, BERReaderSeq};
use yasna_writer::{DERWriterSeq, PrependBuffer};

/// `N DEFAULT D` and the parts `W` after it, where the value is `None` for the default.
///
/// BER also reads the default where it is encoded, as `Some`. That is equal to `None`, and is written alike: it is omitted.
pub struct OrDefault<N, D, W> {
    of: PhantomData<N>,
    default: PhantomData<D>,
    before: PhantomData<W>,
}

// Whether a mode accepts a value: DER and CER reject the default (X.690, 11.5).
fn accepts<A: Notation, D: TestedDefault<A>>(mode: BERMode, value: &A::Value) -> bool
    ensures { result ≡ accepted_by D.is mode value.now }
{
    match mode {
        BERMode::Ber => true,
        BERMode::Der => !D::is_default(value),
        BERMode::Cer => !D::is_default(value),
    }
}

// What reads a part.
trait PartReader {
    // What is read.
    type Value: Drop;

    // Whether tags make it unambiguous, and what reading it does.
    ghost unambiguous: { Bool };

    ghost reads: { Does Self.Value };

    // Reads it.
    fn read(reader: BERReader) -> ASN1Result<Self::Value>
        requires { unambiguous ≡ true }
        ensures { reads reader.old result reader.new };
}

// A value that the mode accepts: where it accepts no default, that is `Invalid`.
struct Accepted<N, D> {
    of: PhantomData<N>,
    default: PhantomData<D>,
}

impl<A: Notation, D: TestedDefault<A>> PartReader for Accepted<A, D> {
    type Value = A::Value;

    ghost unambiguous = { A.unambiguous };

    ghost reads = { ReadsAs A.means.tags_known A.means.tags A.means.retagged A.means.may_allocate (λ u. WithinMode (accepted_by D.is) (A.means.under u)) (λ u. Any (WithinMode (accepted_by D.is) (A.means.under u))) };

    #[inline(always)]
    fn read(reader: BERReader) -> ASN1Result<A::Value> {
        let mode = reader.mode();
        let value = A::read(reader)?;
        if !accepts::<A, D>(mode, &value) {
            return Err(ASN1Error::new(ASN1ErrorKind::Invalid));
        }
        Ok(value)
    }
}

// Reads a part that may be omitted.
#[inline(always)]
fn read_if_there<P: PartReader>(seq: &mut BERReaderSeq) -> ASN1Result<Option<P::Value>>
    requires { P.unambiguous ≡ true }
    ensures { ReadsOptional P.reads (part_of seq.old) result (part_of seq.new) }
{
    seq.read_optional(|part| P::read(part))
}

impl<A: Notation, D: TestedDefault<A>, W: Parts> Parts for OrDefault<A, D, W> {
    type Values = (Option<A::Value>, W::Values);

    type Inner = (A::Inner, W::Inner);

    ghost tags_known = { true };

    ghost tags = { A.means.tags ++ W.tags };

    ghost unambiguous = { all_known A.means.tags_known W.tags_known (share_none A.means.tags (end_tag ∷ W.tags)) (A.unambiguous && W.unambiguous) };

    ghost parts = { PartOf (OrDefaultOf D.is (A.means.under None)) W.parts };

    ghost any_parts = { AnyPart (Any (OrDefaultOf D.is (A.means.under None))) W.any_parts };

    ghost may_allocate = { (A.means.may_allocate || W.may_allocate) };

    ghost same = { SamePart (SameOrDefault D.is A.means.same) W.same };

    ghost encoding = { part_encoding (or_default_encoding D.is (A.means.encoding_under None)) W.encoding };

    ghost depth = { part_depth (or_default_depth D.is A.means.depth) W.depth };

    ghost can = { part_can (or_default_can D.is A.means.can) W.can };

    ghost fits = { part_fits (or_default_fits D.is A.means.fits) W.fits };

    #[inline(always)]
    fn read_parts(seq: &mut BERReaderSeq) -> ASN1Result<(Option<A::Value>, W::Values)> {
        let first = match read_if_there::<Accepted<A, D>>(seq) {
            Ok(first) => first,
            Err(error) => return Err(error),
        };
        let others = match W::read_parts(seq) {
            Ok(others) => others,
            Err(error) => return Err(error),
        };
        Ok((first, others))
    }

    #[inline(always)]
    fn write_parts(
        values: &(Option<A::Value>, W::Values),
        seq: &mut DERWriterSeq,
    ) -> ASN1Result<()> {
        write_or_default::<A, D>(&values.0, seq)?;
        W::write_parts(&values.1, seq)
    }

    #[inline(always)]
    fn prepend_parts(
        values: &(Option<A::Value>, W::Values),
        out: &mut PrependBuffer,
    ) -> ASN1Result<()> {
        W::prepend_parts(&values.1, out)?;
        prepend_or_default::<A, D>(&values.0, out)
    }

    #[inline(always)]
    fn parts_len(values: &(Option<A::Value>, W::Values), mode: BERMode) -> Option<usize> {
        let first = or_default_len::<A, D>(&values.0, mode)?;
        let others = W::parts_len(&values.1, mode)?;
        first.checked_add(others)
    }

    ghost laws = { λ a. or_default_laws D.is D.one (λ b. (A.lawful b).own) W.laws a };
}

impl<A: CanonicalNotation, D: TestedDefault<A>, W: CanonicalParts> CanonicalParts
    for OrDefault<A, D, W> {
    ghost written = { λ a. or_default_writes D.is D.one A.means.tags_known W.tags_known (share_none A.means.tags (end_tag ∷ W.tags)) (λ b. (A.written b).own) W.written (λ b. (A.lawful b).own) a };
}

impl<'a, A: Notation, D: TestedDefault<A>, R, W: PartsBy<R>> PartsBy<(&'a Option<A::Value>, R)>
    for OrDefault<A, D, W> {
    type Held = (Option<A::Value>, W::Held);

    ghost held = { λ r. (r.0.now, W.held r.1) };

    ghost encoding_by = { part_encoding (or_default_encoding D.is (A.means.encoding_under None)) W.encoding_by };

    ghost can_by = { part_can (or_default_can D.is A.means.can) W.can_by };

    #[inline(always)]
    fn write_each(fields: &(&'a Option<A::Value>, R), seq: &mut DERWriterSeq) -> ASN1Result<()> {
        write_or_default::<A, D>(fields.0, seq)?;
        W::write_each(&fields.1, seq)
    }

    #[inline(always)]
    fn prepend_each(fields: &(&'a Option<A::Value>, R), out: &mut PrependBuffer) -> ASN1Result<()> {
        W::prepend_each(&fields.1, out)?;
        prepend_or_default::<A, D>(fields.0, out)
    }

    #[inline(always)]
    fn each_len(fields: &(&'a Option<A::Value>, R), mode: BERMode) -> Option<usize> {
        let first = or_default_len::<A, D>(fields.0, mode)?;
        let others = W::each_len(&fields.1, mode)?;
        first.checked_add(others)
    }
}

/// Writes a part, unless it is the default.
#[inline(always)]
pub fn write_or_default<A: Notation, D: TestedDefault<A>>(
    value: &Option<A::Value>,
    seq: &mut DERWriterSeq,
) -> ASN1Result<()>
    requires { or_default_can D.is A.means.can value.now }
    ensures { WroteParts (or_default_encoding D.is (A.means.encoding_under None) seq.old.mode value.now) seq.old seq.new result }
{
    match value {
        Some(part) => write_other::<A, D>(part, seq),
        None => Ok(()),
    }
}

// Writes a value that is there, unless it is the default.
#[inline(always)]
fn write_other<A: Notation, D: TestedDefault<A>>(
    part: &A::Value,
    seq: &mut DERWriterSeq,
) -> ASN1Result<()>
    requires { default_can D.is A.means.can part.now }
    ensures { WroteParts (default_encoding D.is (A.means.encoding_under None) seq.old.mode part.now) seq.old seq.new result }
{
    if D::is_default(part) {
        return Ok(());
    }
    A::write(part, seq.next())
}

/// Prepends a part to a buffer, as `Notation::prepend`, unless it is the default.
#[inline(always)]
pub fn prepend_or_default<A: Notation, D: TestedDefault<A>>(
    value: &Option<A::Value>,
    out: &mut PrependBuffer,
) -> ASN1Result<()>
    requires { or_default_can D.is A.means.can value.now }
    ensures { Prepends (or_default_encoding D.is (A.means.encoding_under None) out.old.mode value.now) out.old out.new result }
{
    match value {
        Some(part) => prepend_other::<A, D>(part, out),
        None => Ok(()),
    }
}

// Prepends a value that is there, unless it is the default.
#[inline(always)]
fn prepend_other<A: Notation, D: TestedDefault<A>>(
    part: &A::Value,
    out: &mut PrependBuffer,
) -> ASN1Result<()>
    requires { default_can D.is A.means.can part.now }
    ensures { Prepends (default_encoding D.is (A.means.encoding_under None) out.old.mode part.now) out.old out.new result }
{
    if D::is_default(part) {
        Ok(())
    } else {
        A::prepend(part, None, out)
    }
}

/// The length of a part, as `Notation::encoded_len`, or 0 if it is the default.
#[inline(always)]
pub fn or_default_len<A: Notation, D: TestedDefault<A>>(
    value: &Option<A::Value>,
    mode: BERMode,
) -> Option<usize>
    requires { or_default_can D.is A.means.can value.now }
    ensures { KnownLength (or_default_encoding D.is (A.means.encoding_under None) mode value.now) result }
{
    match value {
        Some(part) => other_len::<A, D>(part, mode),
        None => Some(0),
    }
}

// The length of a value that is there, or 0 if it is the default.
#[inline(always)]
fn other_len<A: Notation, D: TestedDefault<A>>(part: &A::Value, mode: BERMode) -> Option<usize>
    requires { default_can D.is A.means.can part.now }
    ensures { KnownLength (default_encoding D.is (A.means.encoding_under None) mode part.now) result }
{
    if D::is_default(part) {
        Some(0)
    } else {
        A::encoded_len(part, None, mode)
    }
}
