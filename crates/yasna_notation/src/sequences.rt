//! SEQUENCE (X.690, 8.9).
ghost use Rattle.std.specs.Prelude.{◌≡◌, ◌∷◌, [], true};
ghost use Rattle.std.proofs.Common.{arith};
ghost use Rattle.yasna_base.specs.Canonical.{enclosed_encoding, enclosed_depth};
ghost use Rattle.yasna_base.specs.Element.{Enclosed, AnyEnclosed};
ghost use Rattle.yasna_base.specs.Exact.{enclosed_fits};
ghost use Rattle.yasna_base.specs.Identifier.{tag_or};
ghost use Rattle.yasna_base.specs.Sequence.{sequence_tag};
ghost use Rattle.yasna_base.proofs.ExplicitTags.{enclosed_begins};
ghost use Rattle.yasna_base.proofs.Identifier.{not_end};
ghost use Rattle.yasna_writer.specs.Prepend.{Prepends, KnownLength};
ghost use Rattle.yasna_writer.specs.View.{Writes};
ghost use Rattle.yasna_notation.specs.Making.{in_sequence};
ghost use Rattle.yasna_notation.specs.Laws.{element_lawful, element_non_empty};
ghost use Rattle.yasna_notation.specs.Parts.{WrittenAlike, sequence_laws};

use crate::notation::Notation;
use crate::parts::{Parts, PartsBy};
use std::marker::PhantomData;
use yasna_base::tags::TAG_SEQUENCE;
use yasna_base::{ASN1Result, BERMode, Tag};
use yasna_reader::BERReader;
use yasna_writer::{DERWriter, PrependBuffer, constructed_len};

/// `SEQUENCE { P }`, as `Sequence<(i64, (Optional<bool>, ()))>`.
pub struct Sequence<P> {
    of: PhantomData<P>,
}

impl<P: Parts> Notation for Sequence<P>
where
    P::Values: Drop,
{
    type Value = P::Values;

    type Inner = P::Inner;

    ghost means = { record {
      tags_known = true;
      tags = sequence_tag ∷ [];
      retagged = true;
      under = λ u. Enclosed P.parts (tag_or u sequence_tag);
      any_under = λ u. AnyEnclosed P.any_parts (tag_or u sequence_tag);
      may_allocate = P.may_allocate;
      same = P.same;
      encoding_under = λ u. enclosed_encoding P.encoding (tag_or u sequence_tag);
      depth = enclosed_depth P.depth;
      can = P.can;
      fits = enclosed_fits P.fits;
    } };

    ghost unambiguous = { P.unambiguous };

    #[inline(always)]
    fn has_tag(tag: Tag) -> bool {
        tag == TAG_SEQUENCE
    }

    #[inline(always)]
    fn read(reader: BERReader) -> ASN1Result<P::Values> {
        reader.read_sequence(|seq| P::read_parts(seq))
    }

    #[inline(always)]
    fn write(value: &P::Values, writer: DERWriter<'_>) -> ASN1Result<()> {
        writer.write_sequence(|seq| P::write_parts(value, seq))
    }

    #[inline(always)]
    fn prepend(value: &P::Values, under: Option<Tag>, out: &mut PrependBuffer) -> ASN1Result<()> {
        let after = out.begin_contents()?;
        P::prepend_parts(value, out)?;
        out.enclose(under.unwrap_or(TAG_SEQUENCE), after)
    }

    #[inline(always)]
    fn encoded_len(value: &P::Values, under: Option<Tag>, mode: BERMode) -> Option<usize> {
        constructed_len(
            mode,
            under.unwrap_or(TAG_SEQUENCE),
            P::parts_len(value, mode)?,
        )
    }

    ghost lawful = { λ a. in_sequence (P.laws a) };

    ghost non_empty = { λ u m v. element_non_empty _ _ _ _ };
}

impl<P: Parts> Sequence<P> {
    /// Writes a SEQUENCE of these fields: references to them, as pairs that end in `()`.
    #[inline(always)]
    pub fn write_fields<R: Drop>(fields: R, writer: DERWriter<'_>) -> ASN1Result<()>
    where
        P: PartsBy<R, Held = P::Values>,
        requires can { P.can (P.held fields) }
        requires alike { WrittenAlike P.encoding P.can P.encoding_by P.can_by }
        ensures { Writes (enclosed_encoding P.encoding (tag_or writer.old.tag sequence_tag) writer.old.mode (P.held fields)) writer.old writer.new result }
    {
        writer.write_sequence(|seq| P::write_each(&fields, seq))
    }

    /// Prepends a SEQUENCE of these fields to a buffer.
    #[inline(always)]
    pub fn prepend_fields<R: Drop>(
        fields: R,
        under: Option<Tag>,
        out: &mut PrependBuffer,
    ) -> ASN1Result<()>
    where
        P: PartsBy<R, Held = P::Values>,
        requires can { P.can (P.held fields) }
        requires alike { WrittenAlike P.encoding P.can P.encoding_by P.can_by }
        ensures { Prepends (enclosed_encoding P.encoding (tag_or under sequence_tag) out.old.mode (P.held fields)) out.old out.new result }
    {
        let after = out.begin_contents()?;
        P::prepend_each(&fields, out)?;
        out.enclose(under.unwrap_or(TAG_SEQUENCE), after)
    }

    /// The length of that SEQUENCE, if it is known.
    #[inline(always)]
    pub fn fields_len<R: Drop>(fields: R, under: Option<Tag>, mode: BERMode) -> Option<usize>
    where
        P: PartsBy<R, Held = P::Values>,
        requires can { P.can (P.held fields) }
        requires alike { WrittenAlike P.encoding P.can P.encoding_by P.can_by }
        ensures { KnownLength (enclosed_encoding P.encoding (tag_or under sequence_tag) mode (P.held fields)) result }
    {
        let contents = P::each_len(&fields, mode)?;
        constructed_len(mode, under.unwrap_or(TAG_SEQUENCE), contents)
    }
}
