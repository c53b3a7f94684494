//! SEQUENCE OF (X.690, 8.10).
ghost use Rattle.std.specs.Prelude.{◌≡◌, ◌∷◌, [], None, true};
ghost use Rattle.std.specs.List.{AllByRecursion};
ghost use Rattle.yasna_base.specs.Canonical.{enclosed_encoding, enclosed_depth};
ghost use Rattle.yasna_base.specs.Exact.{enclosed_fits, elements_fit};
ghost use Rattle.yasna_base.specs.Identifier.{tag_or};
ghost use Rattle.yasna_base.specs.Pieces.{Each};
ghost use Rattle.yasna_base.specs.Sequence.{sequence_tag};
ghost use Rattle.yasna_base.specs.SequenceOf.{IsListOf, AnyListOf, elements_encoding, elements_depth, AnyElements};
ghost use Rattle.yasna_base.proofs.ExplicitTags.{enclosed_begins};
ghost use Rattle.yasna_base.proofs.Identifier.{not_end};
ghost use Rattle.std.proofs.Common.{arith};
ghost use Rattle.yasna_writer.specs.Prepend.{Prepends, KnownLength};
ghost use Rattle.yasna_writer.specs.View.{Writes, WroteParts};
ghost use Rattle.yasna_notation.specs.Making.{in_sequence_of};
ghost use Rattle.yasna_notation.specs.Laws.{element_lawful, list_laws, element_non_empty};

use crate::notation::Notation;
use std::marker::PhantomData;
use yasna_base::tags::TAG_SEQUENCE;
use yasna_base::{ASN1Result, BERMode, Tag};
use yasna_reader::BERReader;
use yasna_writer::{DERWriter, DERWriterSeq, PrependBuffer, constructed_len};

/// `SEQUENCE OF N`.
pub struct SequenceOf<N> {
    of: PhantomData<N>,
}

impl<N: Notation> Notation for SequenceOf<N> {
    type Value = Vec<N::Value>;

    type Inner = N::Inner;

    ghost means = { record {
      tags_known = true;
      tags = sequence_tag ∷ [];
      retagged = true;
      under = λ u m n v b. IsListOf (N.means.under None) (tag_or u sequence_tag) m n v.items b;
      any_under = λ u. AnyListOf (N.means.any_under None) (tag_or u sequence_tag);
      may_allocate = true;
      same = λ v w. Each N.means.same v.items w.items;
      encoding_under = λ u m v. enclosed_encoding (elements_encoding (N.means.encoding_under None)) (tag_or u sequence_tag) m v.items;
      depth = λ m v. enclosed_depth (elements_depth N.means.depth) m v.items;
      can = λ v. AllByRecursion N.means.can v.items;
      fits = λ m n v. enclosed_fits (elements_fit N.means.fits) m n v.items;
    } };

    ghost unambiguous = { N.unambiguous };

    #[inline(always)]
    fn has_tag(tag: Tag) -> bool {
        tag == TAG_SEQUENCE
    }

    #[inline(always)]
    fn read(reader: BERReader) -> ASN1Result<Vec<N::Value>> {
        reader.collect_sequence_of(|item| N::read(item))
    }

    #[inline(always)]
    fn write(value: &Vec<N::Value>, writer: DERWriter<'_>) -> ASN1Result<()> {
        write_list::<N>(value.as_slice(), writer)
    }

    #[inline(always)]
    fn prepend(
        value: &Vec<N::Value>,
        under: Option<Tag>,
        out: &mut PrependBuffer,
    ) -> ASN1Result<()> {
        prepend_list::<N>(value.as_slice(), under.unwrap_or(TAG_SEQUENCE), out)
    }

    #[inline(always)]
    fn encoded_len(value: &Vec<N::Value>, under: Option<Tag>, mode: BERMode) -> Option<usize> {
        list_len::<N>(value.as_slice(), under.unwrap_or(TAG_SEQUENCE), mode)
    }

    ghost lawful = { λ a. in_sequence_of (N.lawful a).own };

    ghost non_empty = { λ u m v. element_non_empty _ _ _ _ };
}

// Writes a SEQUENCE OF these items.
fn write_list<N: Notation>(items: &[N::Value], writer: DERWriter<'_>) -> ASN1Result<()>
    requires { AllByRecursion N.means.can items.now }
    ensures { Writes (enclosed_encoding (elements_encoding (N.means.encoding_under None)) (tag_or writer.old.tag sequence_tag) writer.old.mode items.now) writer.old writer.new result }
{
    writer.write_sequence_of(|seq| write_items::<N>(items, seq))
}

/// Writes items, one after the other.
pub fn write_items<N: Notation>(items: &[N::Value], seq: &mut DERWriterSeq) -> ASN1Result<()>
    requires { AllByRecursion N.means.can items.now }
    ensures { WroteParts (elements_encoding (N.means.encoding_under None) seq.old.mode items.now) seq.old seq.new result }
{
    for item in items {
        N::write(item, seq.next())?;
    }
    Ok(())
}

// Prepends an element of this tag around items.
pub(crate) fn prepend_list<N: Notation>(
    items: &[N::Value],
    tag: Tag,
    out: &mut PrependBuffer,
) -> ASN1Result<()>
    requires { AllByRecursion N.means.can items.now }
    ensures { Prepends (enclosed_encoding (elements_encoding (N.means.encoding_under None)) tag out.old.mode items.now) out.old out.new result }
{
    let after = out.begin_contents()?;
    prepend_items::<N>(items, out)?;
    out.enclose(tag, after)
}

// The length of that.
fn list_len<N: Notation>(items: &[N::Value], tag: Tag, mode: BERMode) -> Option<usize>
    requires { AllByRecursion N.means.can items.now }
    ensures { KnownLength (enclosed_encoding (elements_encoding (N.means.encoding_under None)) tag mode items.now) result }
{
    constructed_len(mode, tag, items_len::<N>(items, mode)?)
}

/// Prepends items to a buffer, from the last to the first, as `Notation::prepend`.
pub fn prepend_items<N: Notation>(items: &[N::Value], out: &mut PrependBuffer) -> ASN1Result<()>
    requires { AllByRecursion N.means.can items.now }
    ensures { Prepends (elements_encoding (N.means.encoding_under None) out.old.mode items.now) out.old out.new result }
{
    let mut rest = items;
    while let Some((last, others)) = rest.split_last() {
        N::prepend(last, None, out)?;
        rest = others;
    }
    Ok(())
}

/// The length of items, one after the other, as `Notation::encoded_len`.
pub fn items_len<N: Notation>(items: &[N::Value], mode: BERMode) -> Option<usize>
    requires { AllByRecursion N.means.can items.now }
    ensures { KnownLength (elements_encoding (N.means.encoding_under None) mode items.now) result }
{
    let mut total: usize = 0;
    for item in items {
        total = total.checked_add(N::encoded_len(item, None, mode)?)?;
    }
    Some(total)
}
