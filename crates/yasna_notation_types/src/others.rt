//! OPTIONAL parts of an extensible SEQUENCE, and the elements after them that it doesn't know (X.680, 25 and 52).
ghost use Rattle.std.specs.Prelude.{◌≡◌, ◌||◌, ◌&&◌, [], None, true, false};
ghost use Rattle.std.specs.List.{AllByRecursion};
ghost use Rattle.yasna_base.specs.Canonical.{Always, leaf_depth};
ghost use Rattle.yasna_base.specs.Coding.{Any};
ghost use Rattle.yasna_base.specs.Exact.{part_fits, option_fits, elements_fit};
ghost use Rattle.yasna_base.specs.Identifier.{end_tag};
ghost use Rattle.yasna_base.specs.Optional.{OptionOf, AnyOption, SameOption, option_encoding, option_depth, option_can};
ghost use Rattle.yasna_base.specs.Pieces.{Each};
ghost use Rattle.yasna_base.specs.Raw.{IsRaw};
ghost use Rattle.yasna_base.specs.Sequence.{PartOf, AnyPart, SamePart, part_encoding, part_depth, part_can};
ghost use Rattle.yasna_base.specs.SequenceOf.{ElementsOf, AnyElements, elements_encoding, elements_depth};
ghost use Rattle.yasna_reader.specs.State.{part_of};
ghost use Rattle.yasna_writer.specs.View.{WroteParts};
ghost use Rattle.yasna_notation_types.specs.Beginning.{none_may, first_may, possible_begins};
ghost use Rattle.yasna_notation_types.specs.OpenChoice.{EncodesRawElement, is_other, same_any, any_encoding, any_fits, any_lawful};
ghost use Rattle.yasna_notation_types.specs.Others.{OthersOf, AnyOthers, others_fit, other_may, others_laws, others_within, possible_laws, LooksFor};

use crate::beginning::Beginning;
use std::marker::PhantomData;
use yasna_base::models::TaggedDerValue;
use yasna_base::{ASN1Error, ASN1ErrorKind, ASN1Result, BERMode};
use yasna_notation::{
    Notation, Parts, PartsBy, items_len, optional_len, prepend_items, prepend_optional,
    write_items, write_optional,
};
use yasna_reader::BERReaderSeq;
use yasna_writer::{DERWriterSeq, PrependBuffer};

/// Elements as they came, up to the end of a SEQUENCE, of which the first has none of the tags of `X`.
///
/// `X` is a `Choice` of the parts before it that may be omitted, or the one such part. An element with such a tag is `Invalid`.
pub struct Others<X> {
    of: PhantomData<X>,
}

impl<X: Notation> Parts for Others<X> {
    type Values = Vec<TaggedDerValue>;

    type Inner = ();

    ghost tags_known = { false };

    ghost tags = { [] };

    ghost unambiguous = { is_other X.means.tags end_tag };

    ghost parts = { OthersOf X.means.tags (λ m n v c. ElementsOf EncodesRawElement m n v.items c) };

    ghost any_parts = { AnyOthers X.means.tags (AnyElements (Any IsRaw)) };

    ghost may_allocate = { true };

    ghost same = { λ v w. Each same_any v.items w.items };

    ghost encoding = { λ m v. elements_encoding any_encoding m v.items };

    ghost depth = { λ m v. elements_depth leaf_depth m v.items };

    ghost can = { λ v. AllByRecursion Always v.items };

    ghost fits = { others_fit X.means.tags (λ m v. elements_encoding any_encoding m v.items) (λ m n v. elements_fit any_fits m n v.items) };

    #[inline(always)]
    fn read_parts(seq: &mut BERReaderSeq) -> ASN1Result<Vec<TaggedDerValue>> {
        if next_is::<X>(seq) {
            return Err(ASN1Error::new(ASN1ErrorKind::Invalid));
        }
        seq.collect_rest(|item| <TaggedDerValue as Notation>::read(item))
    }

    #[inline(always)]
    fn write_parts(values: &Vec<TaggedDerValue>, seq: &mut DERWriterSeq) -> ASN1Result<()> {
        write_items::<TaggedDerValue>(values.as_slice(), seq)
    }

    #[inline(always)]
    fn prepend_parts(values: &Vec<TaggedDerValue>, out: &mut PrependBuffer) -> ASN1Result<()> {
        prepend_items::<TaggedDerValue>(values.as_slice(), out)
    }

    #[inline(always)]
    fn parts_len(values: &Vec<TaggedDerValue>, mode: BERMode) -> Option<usize> {
        items_len::<TaggedDerValue>(values.as_slice(), mode)
    }

    ghost laws = { λ a. others_laws X.means.tags any_lawful.own };
}

impl<X: Notation> Beginning for Others<X> {
    ghost may = { other_may X.means.tags };

    ghost within = { λ a. others_within X.means.tags any_lawful.own.coding };
}

impl<'a, X: Notation> PartsBy<&'a Vec<TaggedDerValue>> for Others<X> {
    type Held = Vec<TaggedDerValue>;

    ghost held = { λ r. r.now };

    ghost encoding_by = { λ m v. elements_encoding any_encoding m v.items };

    ghost can_by = { λ v. AllByRecursion Always v.items };

    #[inline(always)]
    fn write_each(fields: &&'a Vec<TaggedDerValue>, seq: &mut DERWriterSeq) -> ASN1Result<()> {
        write_items::<TaggedDerValue>(fields.as_slice(), seq)
    }

    #[inline(always)]
    fn prepend_each(fields: &&'a Vec<TaggedDerValue>, out: &mut PrependBuffer) -> ASN1Result<()> {
        prepend_items::<TaggedDerValue>(fields.as_slice(), out)
    }

    #[inline(always)]
    fn each_len(fields: &&'a Vec<TaggedDerValue>, mode: BERMode) -> Option<usize> {
        items_len::<TaggedDerValue>(fields.as_slice(), mode)
    }
}

// Whether the next element has one of the tags of `X`.
#[inline(always)]
fn next_is<X: Notation>(seq: &mut BERReaderSeq) -> bool
    ensures stays { part_of seq.new ≡ part_of seq.old }
    ensures looks { LooksFor X.means.tags (part_of seq.old) result }
{
    match seq.next().lookahead_tag() {
        Ok(tag) => X::has_tag(tag),
        Err(_) => false,
    }
}

/// `N OPTIONAL` and the parts `W` after it, which may begin with any other tag. Before parts with known tags, `(Optional<N>, W)` is the same.
pub struct Possible<N, W> {
    of: PhantomData<N>,
    before: PhantomData<W>,
}

impl<A: Notation, W: Beginning> Parts for Possible<A, W> {
    type Values = (Option<A::Value>, W::Values);

    type Inner = (A::Inner, W::Inner);

    ghost tags_known = { false };

    ghost tags = { [] };

    ghost unambiguous = { (A.means.tags_known && (none_may W.may A.means.tags && (A.unambiguous && W.unambiguous))) };

    ghost parts = { PartOf (OptionOf (A.means.under None)) W.parts };

    ghost any_parts = { AnyPart (AnyOption (A.means.any_under None)) W.any_parts };

    ghost may_allocate = { (A.means.may_allocate || W.may_allocate) };

    ghost same = { SamePart (SameOption A.means.same) W.same };

    ghost encoding = { part_encoding (option_encoding (A.means.encoding_under None)) W.encoding };

    ghost depth = { part_depth (option_depth A.means.depth) W.depth };

    ghost can = { part_can (option_can A.means.can) W.can };

    ghost fits = { part_fits (option_fits A.means.fits) W.fits };

    #[inline(always)]
    fn read_parts(seq: &mut BERReaderSeq) -> ASN1Result<(Option<A::Value>, W::Values)> {
        let first = match seq.read_optional(|part| A::read(part)) {
            Ok(first) => first,
            Err(error) => return Err(error),
        };
        let others = match W::read_parts(seq) {
            Ok(others) => others,
            Err(error) => return Err(error),
        };
        Ok((first, others))
    }

    #[inline(always)]
    fn write_parts(
        values: &(Option<A::Value>, W::Values),
        seq: &mut DERWriterSeq,
    ) -> ASN1Result<()> {
        write_optional::<A>(&values.0, seq)?;
        W::write_parts(&values.1, seq)
    }

    #[inline(always)]
    fn prepend_parts(
        values: &(Option<A::Value>, W::Values),
        out: &mut PrependBuffer,
    ) -> ASN1Result<()> {
        W::prepend_parts(&values.1, out)?;
        prepend_optional::<A>(&values.0, out)
    }

    #[inline(always)]
    fn parts_len(values: &(Option<A::Value>, W::Values), mode: BERMode) -> Option<usize> {
        let first = optional_len::<A>(&values.0, mode)?;
        let others = W::parts_len(&values.1, mode)?;
        first.checked_add(others)
    }

    ghost laws = { λ a. possible_laws W.may (λ b. (A.lawful b).own) W.laws W.within a };
}

impl<A: Notation, W: Beginning> Beginning for Possible<A, W> {
    ghost may = { λ t. first_may A.means.tags_known A.means.tags t || W.may t };

    ghost within = { λ a. possible_begins (none_may W.may A.means.tags) W.may (λ b. (A.lawful b).own) W.within a };
}

impl<'a, A: Notation, R, W: PartsBy<R>> PartsBy<(&'a Option<A::Value>, R)> for Possible<A, W> {
    type Held = (Option<A::Value>, W::Held);

    ghost held = { λ r. (r.0.now, W.held r.1) };

    ghost encoding_by = { part_encoding (option_encoding (A.means.encoding_under None)) W.encoding_by };

    ghost can_by = { part_can (option_can A.means.can) W.can_by };

    #[inline(always)]
    fn write_each(fields: &(&'a Option<A::Value>, R), seq: &mut DERWriterSeq) -> ASN1Result<()> {
        write_optional::<A>(fields.0, seq)?;
        W::write_each(&fields.1, seq)
    }

    #[inline(always)]
    fn prepend_each(fields: &(&'a Option<A::Value>, R), out: &mut PrependBuffer) -> ASN1Result<()> {
        W::prepend_each(&fields.1, out)?;
        prepend_optional::<A>(fields.0, out)
    }

    #[inline(always)]
    fn each_len(fields: &(&'a Option<A::Value>, R), mode: BERMode) -> Option<usize> {
        let first = optional_len::<A>(fields.0, mode)?;
        let others = W::each_len(&fields.1, mode)?;
        first.checked_add(others)
    }
}
