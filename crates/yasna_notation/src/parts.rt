//! The parts of a SEQUENCE: mandatory ones, OPTIONAL ones, and ones with a DEFAULT (X.690, 8.9).
//!
//! A value that was read is tested by a `match`: `?` moves it first, and the values of many parts are large.
ghost use Rattle.std.specs.Prelude.{◌≡◌, ◌∷◌, ◌++◌, ◌||◌, ◌&&◌, [], Bool, List, None, true, false};
ghost use Rattle.yasna_base.specs.declared.tag.Tag.{Tag};
ghost use Rattle.yasna_base.specs.Beginnings.{share_none};
ghost use Rattle.yasna_base.specs.Canonical.{Always};
ghost use Rattle.yasna_base.specs.Exact.{Fitting, part_fits, nothing_fits, option_fits};
ghost use Rattle.yasna_base.specs.Grammar.{Grammar, Members, Encoding, Depth};
ghost use Rattle.yasna_base.specs.Identifier.{end_tag};
ghost use Rattle.yasna_base.specs.Optional.{OptionOf, AnyOption, SameOption, option_encoding, option_depth, option_can};
ghost use Rattle.yasna_base.specs.Sequence.{PartOf, NoParts, AnyPart, AnyNothing, SamePart, SameNothing, part_encoding, part_depth, part_can, nothing_encoding, nothing_depth};
ghost use Rattle.yasna_reader.specs.State.{IsFresh, part_of};
ghost use Rattle.yasna_writer.specs.Prepend.{Prepends, KnownLength};
ghost use Rattle.yasna_writer.specs.View.{WroteParts};
ghost use Rattle.yasna_notation.specs.Parts.{ReadsContents, AreParts, no_parts, part_laws, option_laws, all_known};

use crate::notation::Notation;
use std::marker::PhantomData;
use yasna_base::{ASN1Result, BERMode};
use yasna_reader::BERReaderSeq;
use yasna_writer::{DERWriterSeq, PrependBuffer};

/// The parts of a SEQUENCE, as pairs that end in `()`: `(i64, (Optional<bool>, ()))` of an INTEGER and a BOOLEAN OPTIONAL.
pub trait Parts {
    /// Their values in Rust: pairs that end in `()` too.
    type Values;

    /// The types of values inside these, which their type doesn't name: bounds name them.
    type Inner;

    // Whether the tags are known by which they begin, up to the first mandatory part, and these tags.
    ghost tags_known: { Bool };

    ghost tags: { List Tag };

    // Whether tags make unambiguous what has to be in them.
    ghost unambiguous: { Bool };

    // Which contents encode the values.
    ghost parts: { Grammar Self.Values };

    // Which contents encode some values.
    ghost any_parts: { Members };

    // Whether reading them may allocate.
    ghost may_allocate: { Bool };

    // Which values are equal.
    ghost same: { Self.Values → Self.Values → Type 0 };

    // The encodings, one after the other.
    ghost encoding: { Encoding Self.Values };

    ghost depth: { Depth Self.Values };

    ghost can: { Self.Values → Type 0 };

    ghost fits: { Fitting Self.Values };

    /// Reads the parts up to the end of the contents.
    fn read_parts(seq: &mut BERReaderSeq) -> ASN1Result<Self::Values>
        requires unambiguous { unambiguous ≡ true }
        requires fresh { IsFresh (part_of seq.old) }
        ensures { ReadsContents may_allocate parts any_parts (part_of seq.old) result (part_of seq.new) };

    /// Writes the parts.
    fn write_parts(values: &Self::Values, seq: &mut DERWriterSeq) -> ASN1Result<()>
        requires { can values.now }
        ensures { WroteParts (encoding seq.old.mode values.now) seq.old seq.new result };

    /// Prepends the parts to a buffer, from the last to the first.
    ///
    /// `Err` is `OutOfMemory`.
    fn prepend_parts(values: &Self::Values, out: &mut PrependBuffer) -> ASN1Result<()>
        requires { can values.now }
        ensures { Prepends (encoding out.old.mode values.now) out.old out.new result }
    {
        let mut writer = out.writer();
        let written = Self::write_parts(values, &mut writer);
        out.prepend_written(writer, written)
    }

    /// The length of their encodings, one after the other, if it is known.
    fn parts_len(values: &Self::Values, mode: BERMode) -> Option<usize>
        requires { can values.now }
        ensures { KnownLength (encoding mode values.now) result }
    {
        let _ = values;
        let _ = mode;
        None
    }

    // The laws of reading and of a canonical mode.
    ghost laws: { unambiguous ≡ true → AreParts tags_known tags same parts any_parts encoding fits can };
}

impl Parts for () {
    type Values = ();

    type Inner = ();

    ghost tags_known = { true };

    ghost tags = { [] };

    ghost unambiguous = { true };

    ghost parts = { NoParts };

    ghost any_parts = { AnyNothing };

    ghost may_allocate = { false };

    ghost same = { SameNothing };

    ghost encoding = { nothing_encoding };

    ghost depth = { nothing_depth };

    ghost can = { Always };

    ghost fits = { nothing_fits };

    #[inline(always)]
    fn read_parts(_seq: &mut BERReaderSeq) -> ASN1Result<()> {
        Ok(())
    }

    #[inline(always)]
    fn write_parts(_values: &(), _seq: &mut DERWriterSeq) -> ASN1Result<()> {
        Ok(())
    }

    #[inline(always)]
    fn prepend_parts(_values: &(), _out: &mut PrependBuffer) -> ASN1Result<()> {
        Ok(())
    }

    #[inline(always)]
    fn parts_len(_values: &(), _mode: BERMode) -> Option<usize> {
        Some(0)
    }

    ghost laws = { λ _. no_parts };
}

impl<A: Notation, W: Parts> Parts for (A, W) {
    type Values = (A::Value, W::Values);

    type Inner = (A::Inner, W::Inner);

    ghost tags_known = { A.means.tags_known };

    ghost tags = { A.means.tags };

    ghost unambiguous = { (A.unambiguous && W.unambiguous) };

    ghost parts = { PartOf (A.means.under None) W.parts };

    ghost any_parts = { AnyPart (A.means.any_under None) W.any_parts };

    ghost may_allocate = { (A.means.may_allocate || W.may_allocate) };

    ghost same = { SamePart A.means.same W.same };

    ghost encoding = { part_encoding (A.means.encoding_under None) W.encoding };

    ghost depth = { part_depth A.means.depth W.depth };

    ghost can = { part_can A.means.can W.can };

    ghost fits = { part_fits A.means.fits W.fits };

    #[inline(always)]
    fn read_parts(seq: &mut BERReaderSeq) -> ASN1Result<(A::Value, W::Values)> {
        let first = match A::read(seq.next()) {
            Ok(first) => first,
            Err(error) => return Err(error),
        };
        let others = match W::read_parts(seq) {
            Ok(others) => others,
            Err(error) => return Err(error),
        };
        Ok((first, others))
    }

    #[inline(always)]
    fn write_parts(values: &(A::Value, W::Values), seq: &mut DERWriterSeq) -> ASN1Result<()> {
        A::write(&values.0, seq.next())?;
        W::write_parts(&values.1, seq)
    }

    #[inline(always)]
    fn prepend_parts(values: &(A::Value, W::Values), out: &mut PrependBuffer) -> ASN1Result<()> {
        W::prepend_parts(&values.1, out)?;
        A::prepend(&values.0, None, out)
    }

    #[inline(always)]
    fn parts_len(values: &(A::Value, W::Values), mode: BERMode) -> Option<usize> {
        let first = A::encoded_len(&values.0, None, mode)?;
        let others = W::parts_len(&values.1, mode)?;
        first.checked_add(others)
    }

    ghost laws = { λ a. part_laws (λ b. (A.lawful b).own) W.laws a };
}

/// `N OPTIONAL`: a part that may be omitted.
pub struct Optional<N> {
    of: PhantomData<N>,
}

impl<A: Notation, W: Parts> Parts for (Optional<A>, W) {
    type Values = (Option<A::Value>, W::Values);

    type Inner = (A::Inner, W::Inner);

    ghost tags_known = { true };

    ghost tags = { A.means.tags ++ W.tags };

    ghost unambiguous = { all_known A.means.tags_known W.tags_known (share_none A.means.tags (end_tag ∷ W.tags)) (A.unambiguous && W.unambiguous) };

    ghost parts = { PartOf (OptionOf (A.means.under None)) W.parts };

    ghost any_parts = { AnyPart (AnyOption (A.means.any_under None)) W.any_parts };

    ghost may_allocate = { (A.means.may_allocate || W.may_allocate) };

    ghost same = { SamePart (SameOption A.means.same) W.same };

    ghost encoding = { part_encoding (option_encoding (A.means.encoding_under None)) W.encoding };

    ghost depth = { part_depth (option_depth A.means.depth) W.depth };

    ghost can = { part_can (option_can A.means.can) W.can };

    ghost fits = { part_fits (option_fits A.means.fits) W.fits };

    #[inline(always)]
    fn read_parts(seq: &mut BERReaderSeq) -> ASN1Result<(Option<A::Value>, W::Values)> {
        let first = match seq.read_optional(|part| A::read(part)) {
            Ok(first) => first,
            Err(error) => return Err(error),
        };
        let others = match W::read_parts(seq) {
            Ok(others) => others,
            Err(error) => return Err(error),
        };
        Ok((first, others))
    }

    #[inline(always)]
    fn write_parts(
        values: &(Option<A::Value>, W::Values),
        seq: &mut DERWriterSeq,
    ) -> ASN1Result<()> {
        write_optional::<A>(&values.0, seq)?;
        W::write_parts(&values.1, seq)
    }

    #[inline(always)]
    fn prepend_parts(
        values: &(Option<A::Value>, W::Values),
        out: &mut PrependBuffer,
    ) -> ASN1Result<()> {
        W::prepend_parts(&values.1, out)?;
        prepend_optional::<A>(&values.0, out)
    }

    #[inline(always)]
    fn parts_len(values: &(Option<A::Value>, W::Values), mode: BERMode) -> Option<usize> {
        let first = optional_len::<A>(&values.0, mode)?;
        let others = W::parts_len(&values.1, mode)?;
        first.checked_add(others)
    }

    ghost laws = { λ a. option_laws (λ b. (A.lawful b).own) W.laws a };
}

/// Writes a part that may be omitted.
#[inline(always)]
pub fn write_optional<A: Notation>(
    value: &Option<A::Value>,
    seq: &mut DERWriterSeq,
) -> ASN1Result<()>
    requires { option_can A.means.can value.now }
    ensures { WroteParts (option_encoding (A.means.encoding_under None) seq.old.mode value.now) seq.old seq.new result }
{
    match value {
        Some(part) => A::write(part, seq.next()),
        None => Ok(()),
    }
}

/// Prepends a part that may be omitted to a buffer, as `Notation::prepend`.
#[inline(always)]
pub fn prepend_optional<A: Notation>(
    value: &Option<A::Value>,
    out: &mut PrependBuffer,
) -> ASN1Result<()>
    requires { option_can A.means.can value.now }
    ensures { Prepends (option_encoding (A.means.encoding_under None) out.old.mode value.now) out.old out.new result }
{
    match value {
        Some(part) => A::prepend(part, None, out),
        None => Ok(()),
    }
}

/// The length of a part that may be omitted, as `Notation::encoded_len`: 0 if it is.
#[inline(always)]
pub fn optional_len<A: Notation>(value: &Option<A::Value>, mode: BERMode) -> Option<usize>
    requires { option_can A.means.can value.now }
    ensures { KnownLength (option_encoding (A.means.encoding_under None) mode value.now) result }
{
    match value {
        Some(part) => A::encoded_len(part, None, mode),
        None => Some(0),
    }
}

/// Parts whose values are separate, as the fields of a struct: `R` is references to them, as pairs that end in `()`.
pub trait PartsBy<R> {
    /// The values of the parts, which the references represent.
    type Held;

    // The values.
    ghost held: { R → Self.Held };

    // Their encodings, and which can be written. A call that writes them as parts requires that these are those of `Parts`. If `Parts` were
    // a supertrait, each pair in a pair would prove that for all pairs inside.
    ghost encoding_by: { Encoding Self.Held };

    ghost can_by: { Self.Held → Type 0 };

    /// Writes the parts.
    fn write_each(fields: &R, seq: &mut DERWriterSeq) -> ASN1Result<()>
        requires { can_by (held fields.now) }
        ensures { WroteParts (encoding_by seq.old.mode (held fields.now)) seq.old seq.new result };

    /// Prepends the parts to a buffer, from the last to the first.
    ///
    /// `Err` is `OutOfMemory`.
    fn prepend_each(fields: &R, out: &mut PrependBuffer) -> ASN1Result<()>
        requires { can_by (held fields.now) }
        ensures { Prepends (encoding_by out.old.mode (held fields.now)) out.old out.new result }
    {
        let mut writer = out.writer();
        let written = Self::write_each(fields, &mut writer);
        out.prepend_written(writer, written)
    }

    /// The length of their encodings, one after the other, if it is known.
    fn each_len(fields: &R, mode: BERMode) -> Option<usize>
        requires { can_by (held fields.now) }
        ensures { KnownLength (encoding_by mode (held fields.now)) result }
    {
        let _ = fields;
        let _ = mode;
        None
    }
}

impl PartsBy<()> for () {
    type Held = ();

    ghost held = { λ r. tt };

    ghost encoding_by = { nothing_encoding };

    ghost can_by = { Always };

    #[inline(always)]
    fn write_each(_fields: &(), _seq: &mut DERWriterSeq) -> ASN1Result<()> {
        Ok(())
    }

    #[inline(always)]
    fn prepend_each(_fields: &(), _out: &mut PrependBuffer) -> ASN1Result<()> {
        Ok(())
    }

    #[inline(always)]
    fn each_len(_fields: &(), _mode: BERMode) -> Option<usize> {
        Some(0)
    }
}

impl<'a, A: Notation, R, W: PartsBy<R>> PartsBy<(&'a A::Value, R)> for (A, W) {
    type Held = (A::Value, W::Held);

    ghost held = { λ r. (r.0.now, W.held r.1) };

    ghost encoding_by = { part_encoding (A.means.encoding_under None) W.encoding_by };

    ghost can_by = { part_can A.means.can W.can_by };

    #[inline(always)]
    fn write_each(fields: &(&'a A::Value, R), seq: &mut DERWriterSeq) -> ASN1Result<()> {
        A::write(fields.0, seq.next())?;
        W::write_each(&fields.1, seq)
    }

    #[inline(always)]
    fn prepend_each(fields: &(&'a A::Value, R), out: &mut PrependBuffer) -> ASN1Result<()> {
        W::prepend_each(&fields.1, out)?;
        A::prepend(fields.0, None, out)
    }

    #[inline(always)]
    fn each_len(fields: &(&'a A::Value, R), mode: BERMode) -> Option<usize> {
        let first = A::encoded_len(fields.0, None, mode)?;
        let others = W::each_len(&fields.1, mode)?;
        first.checked_add(others)
    }
}

impl<'a, A: Notation, R, W: PartsBy<R>> PartsBy<(&'a Option<A::Value>, R)> for (Optional<A>, W) {
    type Held = (Option<A::Value>, W::Held);

    ghost held = { λ r. (r.0.now, W.held r.1) };

    ghost encoding_by = { part_encoding (option_encoding (A.means.encoding_under None)) W.encoding_by };

    ghost can_by = { part_can (option_can A.means.can) W.can_by };

    #[inline(always)]
    fn write_each(fields: &(&'a Option<A::Value>, R), seq: &mut DERWriterSeq) -> ASN1Result<()> {
        write_optional::<A>(fields.0, seq)?;
        W::write_each(&fields.1, seq)
    }

    #[inline(always)]
    fn prepend_each(fields: &(&'a Option<A::Value>, R), out: &mut PrependBuffer) -> ASN1Result<()> {
        W::prepend_each(&fields.1, out)?;
        prepend_optional::<A>(fields.0, out)
    }

    #[inline(always)]
    fn each_len(fields: &(&'a Option<A::Value>, R), mode: BERMode) -> Option<usize> {
        let first = optional_len::<A>(fields.0, mode)?;
        let others = W::each_len(&fields.1, mode)?;
        first.checked_add(others)
    }
}
