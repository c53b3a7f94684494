//! SET of parts: in any order in BER, in the order of their tags in DER and CER (X.690, 8.11, 9.3 and 10.3).
ghost use Rattle.std.specs.Prelude.{◌≡◌, ◌∷◌, ◌++◌, ◌&&◌, [], Bool, List, None, true};
ghost use Rattle.yasna_base.specs.declared.tag.Tag.{Tag};
ghost use Rattle.yasna_base.specs.Beginnings.{share_none};
ghost use Rattle.yasna_base.specs.Canonical.{enclosed_encoding, enclosed_depth};
ghost use Rattle.yasna_base.specs.Choice.{AnyEither};
ghost use Rattle.yasna_base.specs.Coding.{Any};
ghost use Rattle.yasna_base.specs.Element.{Enclosed, AnyEnclosed};
ghost use Rattle.yasna_base.specs.Exact.{enclosed_fits};
ghost use Rattle.yasna_base.specs.Grammar.{Members};
ghost use Rattle.yasna_base.specs.Identifier.{tag_or};
ghost use Rattle.yasna_base.specs.Set.{set_tag};
ghost use Rattle.yasna_writer.specs.Prepend.{Prepends, KnownLength};
ghost use Rattle.yasna_writer.specs.View.{Writes};
ghost use Rattle.yasna_notation.specs.Laws.{element_non_empty};
ghost use Rattle.yasna_notation.specs.Parts.{WrittenAlike};
ghost use Rattle.yasna_notation_types.specs.SetParts.{Pieced, PickOf, OptionPick, NoPick, NoMembers, SetOfParts, AreSetParts, tags_precede, no_set_parts, set_part_laws, set_option_laws, set_lawful_of, set_writes_of};
ghost use Rattle.yasna_notation_types.specs.SetReading.{ReadsSetParts};

use crate::set_part::SetPart;
use std::marker::PhantomData;
use yasna_base::tags::TAG_SET;
use yasna_base::{ASN1Error, ASN1ErrorKind, ASN1Result, BERMode, Tag};
use yasna_notation::{
    CanonicalNotation, CanonicalParts, Notation, Optional, Parts, PartsBy, Represents, Sequence,
};
use yasna_reader::{BERReader, BERReaderSet};
use yasna_writer::{DERWriter, PrependBuffer};

/// The parts of a SET, as pairs that end in `()`, in the order of their tags.
pub trait SetParts: Parts {
    // Their tags.
    ghost set_tags: { List Tag };

    // Which elements are encodings of one of them.
    ghost members: { Members };

    // Which elements, in any order, encode the values.
    ghost picks: { Pieced Self.Values };

    // Whether the tags ascend, and all parts are unambiguous.
    ghost set_unambiguous: { Bool };

    /// Reads the parts from the elements of a SET.
    fn read_set_parts(set: &mut BERReaderSet) -> ASN1Result<Self::Values>
        requires { set_unambiguous ≡ true }
        ensures { ReadsSetParts picks set.old result set.new };

    // The laws of a SET of them.
    ghost set_laws: { set_unambiguous ≡ true → AreSetParts set_tags Self.same Self.parts picks members };
}

impl SetParts for () {
    ghost set_tags = { [] };

    ghost members = { NoMembers };

    ghost picks = { NoPick };

    ghost set_unambiguous = { true };

    #[inline(always)]
    fn read_set_parts(_set: &mut BERReaderSet) -> ASN1Result<()> {
        Ok(())
    }

    ghost set_laws = { λ a. no_set_parts };
}

impl<A: SetPart, W: SetParts> SetParts for (A, W) {
    ghost set_tags = { A.means.tags ++ W.set_tags };

    ghost members = { AnyEither (A.means.any_under None) W.members };

    ghost picks = { PickOf (A.means.under None) W.picks };

    ghost set_unambiguous = { (tags_precede A.means.tags W.set_tags && (share_none A.means.tags W.set_tags && (A.unambiguous && W.set_unambiguous))) };

    #[inline(always)]
    fn read_set_parts(set: &mut BERReaderSet) -> ASN1Result<(A::Value, W::Values)> {
        let found = match A::read_chosen(set) {
            Ok(found) => found,
            Err(error) => return Err(error),
        };
        let first = match found {
            Some(first) => first,
            None => return Err(ASN1Error::new(ASN1ErrorKind::Invalid)),
        };
        let others = match W::read_set_parts(set) {
            Ok(others) => others,
            Err(error) => return Err(error),
        };
        Ok((first, others))
    }

    ghost set_laws = { λ a. set_part_laws A.is_known (λ b. (A.lawful b).own) W.set_laws a };
}

impl<A: SetPart, W: SetParts> SetParts for (Optional<A>, W) {
    ghost set_tags = { A.means.tags ++ W.set_tags };

    ghost members = { AnyEither (A.means.any_under None) W.members };

    ghost picks = { OptionPick (A.means.under None) W.picks };

    ghost set_unambiguous = { (tags_precede A.means.tags W.set_tags && (share_none A.means.tags W.set_tags && (A.unambiguous && W.set_unambiguous))) };

    #[inline(always)]
    fn read_set_parts(set: &mut BERReaderSet) -> ASN1Result<(Option<A::Value>, W::Values)> {
        let first = match A::read_chosen(set) {
            Ok(first) => first,
            Err(error) => return Err(error),
        };
        let others = match W::read_set_parts(set) {
            Ok(others) => others,
            Err(error) => return Err(error),
        };
        Ok((first, others))
    }

    ghost set_laws = { λ a. set_option_laws A.is_known (λ b. (A.lawful b).own) W.set_laws a };
}

/// Reads parts from the elements of a SET, as a value of a type whose values represent those of the parts.
#[inline(always)]
pub fn read_set_parts_as<P: SetParts, T: Represents<P::Values>>(
    set: &mut BERReaderSet,
) -> ASN1Result<T>
where
    P::Values: Drop,
    requires { P.set_unambiguous ≡ true }
    ensures { ReadsSetParts (λ m n v ps. P.picks m n (T.value_of v) ps) set.old result set.new }
{
    match P::read_set_parts(set) {
        Ok(values) => Ok(T::from_value(values)),
        Err(error) => Err(error),
    }
}

/// `SET { P }`, as `Set<(bool, (Optional<i64>, ()))>`.
///
/// The parts are named in the order of their tags: universal, application, context-specific and private ones, each by number. The module may
/// name them in another order, and so may the fields of a struct. BER allows any order of the elements; DER and CER allow only that of the tags.
pub struct Set<P> {
    of: PhantomData<P>,
}

impl<P: SetParts> Notation for Set<P>
where
    P::Values: Drop,
{
    type Value = P::Values;

    type Inner = P::Inner;

    ghost means = { record {
      tags_known = true;
      tags = set_tag ∷ [];
      retagged = true;
      under = λ u. Enclosed (SetOfParts P.picks) (tag_or u set_tag);
      any_under = λ u. AnyEnclosed (Any (SetOfParts P.picks)) (tag_or u set_tag);
      may_allocate = true;
      same = P.same;
      encoding_under = λ u. enclosed_encoding P.encoding (tag_or u set_tag);
      depth = enclosed_depth P.depth;
      can = P.can;
      fits = enclosed_fits P.fits;
    } };

    ghost unambiguous = { (P.unambiguous && P.set_unambiguous) };

    #[inline(always)]
    fn has_tag(tag: Tag) -> bool {
        tag == TAG_SET
    }

    #[inline(always)]
    fn read(reader: BERReader) -> ASN1Result<P::Values> {
        reader.read_set(|set| P::read_set_parts(set))
    }

    #[inline(always)]
    fn write(value: &P::Values, writer: DERWriter<'_>) -> ASN1Result<()> {
        writer.write_tagged_implicit(
            TAG_SET,
            |inner| <Sequence<P> as Notation>::write(value, inner),
        )
    }

    #[inline(always)]
    fn prepend(value: &P::Values, under: Option<Tag>, out: &mut PrependBuffer) -> ASN1Result<()> {
        <Sequence<P> as Notation>::prepend(value, Some(under.unwrap_or(TAG_SET)), out)
    }

    #[inline(always)]
    fn encoded_len(value: &P::Values, under: Option<Tag>, mode: BERMode) -> Option<usize> {
        <Sequence<P> as Notation>::encoded_len(value, Some(under.unwrap_or(TAG_SET)), mode)
    }

    ghost lawful = { λ a. set_lawful_of P.unambiguous P.set_unambiguous P.laws P.set_laws a };

    ghost non_empty = { λ u m v. element_non_empty _ _ _ _ };
}

impl<P: SetParts + CanonicalParts> CanonicalNotation for Set<P>
where
    P::Values: Drop,
{
    ghost written = { λ a. set_writes_of P.unambiguous P.set_unambiguous P.written P.set_laws a };
}

impl<P: Parts> Set<P> {
    /// Writes a SET of these fields: references to them, as pairs that end in `()`.
    #[inline(always)]
    pub fn write_fields<R: Drop>(fields: R, writer: DERWriter<'_>) -> ASN1Result<()>
    where
        P: PartsBy<R, Held = P::Values>,
        requires can { P.can (P.held fields) }
        requires alike { WrittenAlike P.encoding P.can P.encoding_by P.can_by }
        ensures { Writes (enclosed_encoding P.encoding (tag_or writer.old.tag set_tag) writer.old.mode (P.held fields)) writer.old writer.new result }
    {
        writer.write_tagged_implicit(TAG_SET, |inner| Sequence::<P>::write_fields(fields, inner))
    }

    /// Prepends a SET of these fields to a buffer.
    #[inline(always)]
    pub fn prepend_fields<R: Drop>(
        fields: R,
        under: Option<Tag>,
        out: &mut PrependBuffer,
    ) -> ASN1Result<()>
    where
        P: PartsBy<R, Held = P::Values>,
        requires can { P.can (P.held fields) }
        requires alike { WrittenAlike P.encoding P.can P.encoding_by P.can_by }
        ensures { Prepends (enclosed_encoding P.encoding (tag_or under set_tag) out.old.mode (P.held fields)) out.old out.new result }
    {
        Sequence::<P>::prepend_fields(fields, Some(under.unwrap_or(TAG_SET)), out)
    }

    /// The length of that SET, if it is known.
    #[inline(always)]
    pub fn fields_len<R: Drop>(fields: R, under: Option<Tag>, mode: BERMode) -> Option<usize>
    where
        P: PartsBy<R, Held = P::Values>,
        requires can { P.can (P.held fields) }
        requires alike { WrittenAlike P.encoding P.can P.encoding_by P.can_by }
        ensures { KnownLength (enclosed_encoding P.encoding (tag_or under set_tag) mode (P.held fields)) result }
    {
        Sequence::<P>::fields_len(fields, Some(under.unwrap_or(TAG_SET)), mode)
    }
}
