//! SET OF (X.690, 8.12 and 11.6): its values are equal in any order.
ghost use Rattle.std.specs.Prelude.{◌≡◌, ◌∷◌, [], None, true};
ghost use Rattle.std.specs.List.{AllByRecursion};
ghost use Rattle.std.proofs.Common.{arith};
ghost use Rattle.yasna_base.specs.AnyOrder.{SameSetOf, InSomeOrder, sorted_set_of_encoding};
ghost use Rattle.yasna_base.specs.Exact.{enclosed_fits, elements_fit};
ghost use Rattle.yasna_base.specs.Identifier.{tag_or};
ghost use Rattle.yasna_base.specs.SequenceOf.{elements_encoding};
ghost use Rattle.yasna_base.specs.Set.{set_tag, IsSetOf, AnySetOf, AnySetOfElements};
ghost use Rattle.yasna_base.specs.SetWriting.{encodings, in_encoding_order, set_of_depth};
ghost use Rattle.yasna_base.proofs.ExplicitTags.{enclosed_begins};
ghost use Rattle.yasna_base.proofs.Identifier.{not_end};
ghost use Rattle.yasna_writer.specs.Parts.{begun_set};
ghost use Rattle.yasna_writer.specs.Prepend.{Prepends, KnownLength};
ghost use Rattle.yasna_writer.specs.PartOrder.{PrependsParts};
ghost use Rattle.yasna_writer.specs.View.{Writes};
ghost use Rattle.yasna_notation.specs.Making.{in_set_of};
ghost use Rattle.yasna_notation.specs.Laws.{element_lawful, element_non_empty};
ghost use Rattle.yasna_notation.specs.Sets.{set_of_laws, FailsOnlyOutOfMemory, WroteElement, WroteElements};

use crate::lists::{items_len, prepend_list};
use crate::notation::Notation;
use std::marker::PhantomData;
use yasna_base::tags::TAG_SET;
use yasna_base::{ASN1Result, BERMode, Tag};
use yasna_reader::BERReader;
use yasna_writer::{DERWriter, DERWriterSet, PrependBuffer, constructed_len};

/// `SET OF N`. It is written in the order of its elements' bytes, whatever the order of its values.
pub struct SetOf<N> {
    of: PhantomData<N>,
}

impl<N: Notation> Notation for SetOf<N> {
    type Value = Vec<N::Value>;

    type Inner = N::Inner;

    ghost means = { record {
      tags_known = true;
      tags = set_tag ∷ [];
      retagged = true;
      under = λ u m n v b. InSomeOrder (IsSetOf (N.means.under None) (tag_or u set_tag)) m n v.items b;
      any_under = λ u. AnySetOf (N.means.any_under None) (tag_or u set_tag);
      may_allocate = true;
      same = λ v w. SameSetOf N.means.same v.items w.items;
      encoding_under = λ u m v. sorted_set_of_encoding (N.means.encoding_under None) (tag_or u set_tag) m v.items;
      depth = λ m v. set_of_depth N.means.depth m v.items;
      can = λ v. AllByRecursion N.means.can v.items;
      fits = λ m n v. enclosed_fits (elements_fit N.means.fits) m n v.items;
    } };

    ghost unambiguous = { N.unambiguous };

    #[inline(always)]
    fn has_tag(tag: Tag) -> bool {
        tag == TAG_SET
    }

    #[inline(always)]
    fn read(reader: BERReader) -> ASN1Result<Vec<N::Value>> {
        reader.collect_set_of(|item| N::read(item))
    }

    #[inline(always)]
    fn write(value: &Vec<N::Value>, writer: DERWriter<'_>) -> ASN1Result<()> {
        write_set::<N>(value.as_slice(), writer)
    }

    #[inline(always)]
    fn prepend(
        value: &Vec<N::Value>,
        under: Option<Tag>,
        out: &mut PrependBuffer,
    ) -> ASN1Result<()> {
        prepend_set::<N>(value.as_slice(), under.unwrap_or(TAG_SET), out)
    }

    #[inline(always)]
    fn encoded_len(value: &Vec<N::Value>, under: Option<Tag>, mode: BERMode) -> Option<usize> {
        set_len::<N>(value.as_slice(), under.unwrap_or(TAG_SET), mode)
    }

    ghost lawful = { λ a. in_set_of (N.lawful a).own };

    ghost non_empty = { λ u m v. element_non_empty _ _ _ _ };
}

// Writes a SET OF these items.
fn write_set<N: Notation>(items: &[N::Value], writer: DERWriter<'_>) -> ASN1Result<()>
    requires { AllByRecursion N.means.can items.now }
    ensures { Writes (sorted_set_of_encoding (N.means.encoding_under None) (tag_or writer.old.tag set_tag) writer.old.mode items.now) writer.old writer.new result }
{
    writer.write_set_of(|set| write_elements::<N>(items, set))
}

// Writes items as the parts of a set.
fn write_elements<N: Notation>(items: &[N::Value], set: &mut DERWriterSet) -> ASN1Result<()>
    requires can { AllByRecursion N.means.can items.now }
    requires begins { set.old ≡ begun_set set.old.mode }
    ensures { WroteElements (encodings (N.means.encoding_under None) set.old.mode items.now) set.new result }
{
    for item in items {
        write_element::<N>(item, set.next())?;
    }
    Ok(())
}

// Writes an item as a part that begins. A set rejects an empty part. So if there is no memory and that isn't sticky, a NULL is left, and
// `OutOfMemory` is returned.
fn write_element<N: Notation>(item: &N::Value, writer: DERWriter<'_>) -> ASN1Result<()>
    requires can { N.means.can item.now }
    requires begins { (writer.old.bytes ≡ []) × (writer.old.tag ≡ None) }
    requires failed { FailsOnlyOutOfMemory writer.old.failed }
    ensures { WroteElement (N.means.encoding_under None writer.old.mode item.now) writer.old writer.new result }
{
    match N::write(item, writer) {
        Ok(()) => Ok(()),
        Err(error) => {
            writer.write_null()?;
            Err(error)
        }
    }
}

// Prepends a SET OF these items. At most one needs no order.
fn prepend_set<N: Notation>(items: &[N::Value], tag: Tag, out: &mut PrependBuffer) -> ASN1Result<()>
    requires { AllByRecursion N.means.can items.now }
    ensures { Prepends (sorted_set_of_encoding (N.means.encoding_under None) tag out.old.mode items.now) out.old out.new result }
{
    if items.len() <= 1 {
        return prepend_list::<N>(items, tag, out);
    }
    let after = out.begin_contents()?;
    prepend_ordered::<N>(items, out)?;
    out.enclose(tag, after)
}

// Prepends items, in the order of their bytes.
fn prepend_ordered<N: Notation>(items: &[N::Value], out: &mut PrependBuffer) -> ASN1Result<()>
    requires { AllByRecursion N.means.can items.now }
    ensures { Prepends (elements_encoding (N.means.encoding_under None) out.old.mode (in_encoding_order (N.means.encoding_under None) out.old.mode items.now)) out.old out.new result }
{
    let lens = prepend_elements::<N>(items, out)?;
    out.order_parts(&lens)
}

// Prepends items, from the last to the first, and returns the length of each, in that order.
fn prepend_elements<N: Notation>(
    items: &[N::Value],
    out: &mut PrependBuffer,
) -> ASN1Result<Vec<usize>>
    requires { AllByRecursion N.means.can items.now }
    ensures { PrependsParts (N.means.encoding_under None) items.now out.old out.new result }
{
    let mut lens = out.part_lens(items.len())?;
    let mut rest = items;
    while let Some((last, others)) = rest.split_last() {
        let after = out.len();
        N::prepend(last, None, out)?;
        lens.push(out.len() - after)?;
        rest = others;
    }
    Ok(lens)
}

// The length of that. It is the same in any order.
fn set_len<N: Notation>(items: &[N::Value], tag: Tag, mode: BERMode) -> Option<usize>
    requires { AllByRecursion N.means.can items.now }
    ensures { KnownLength (sorted_set_of_encoding (N.means.encoding_under None) tag mode items.now) result }
{
    constructed_len(mode, tag, items_len::<N>(items, mode)?)
}
