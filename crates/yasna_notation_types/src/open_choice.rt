//! An extensible CHOICE: an element that it doesn't know is a value as it came (X.680, 29 and 52).
ghost use Rattle.std.specs.Prelude.{◌≡◌, [], None, true, false};
ghost use Rattle.yasna_base.specs.Canonical.{Always, leaf_depth};
ghost use Rattle.yasna_base.specs.Choice.{EitherOf, AnyEither, SameEither, either_encoding, either_depth, either_can, either_fits};
ghost use Rattle.yasna_base.specs.Coding.{Any};
ghost use Rattle.yasna_base.specs.Identifier.{tag_or};
ghost use Rattle.yasna_base.specs.Raw.{raw_encoding};
ghost use Rattle.yasna_base.specs.TaggedDerValue.{raw_of};
ghost use Rattle.yasna_notation.specs.Choices.{sides};
ghost use Rattle.yasna_notation_types.specs.OpenChoice.{EncodesOther, is_other, same_any, any_fits, open_lawful, open_non_empty};

use std::marker::PhantomData;
use yasna_base::models::TaggedDerValue;
use yasna_base::{ASN1Result, BERMode, Tag};
use yasna_notation::{Alternatives, Either, Notation};
use yasna_reader::BERReader;
use yasna_writer::{DERWriter, PrependBuffer};

/// `CHOICE { A, ... }`: a value of one of the known types, or an element with any other tag.
///
/// What follows it in a SEQUENCE has to be mandatory, as after an ANY.
pub struct OpenChoice<A> {
    of: PhantomData<A>,
}

impl<A: Alternatives> Notation for OpenChoice<A>
where
    A::Value: Drop,
{
    type Value = Either<A::Value, TaggedDerValue>;

    type Inner = (A::Value, A::Inner);

    ghost means = { record {
      tags_known = false;
      tags = [];
      retagged = false;
      under = λ u m n v b. EitherOf A.encodes (EncodesOther A.tags) m n (sides v) b;
      any_under = λ u. AnyEither A.elements (Any (EncodesOther A.tags));
      may_allocate = true;
      same = λ v w. SameEither A.same same_any (sides v) (sides w);
      encoding_under = λ u m v. either_encoding (A.encoding_under u) (λ m w. raw_encoding (tag_or u (raw_of w).tag) m (raw_of w)) m (sides v);
      depth = λ m v. either_depth A.depth leaf_depth m (sides v);
      can = λ v. either_can A.can Always (sides v);
      fits = λ m n v. either_fits A.fits (λ m n v. any_fits m n v × (is_other A.tags v.tag ≡ true)) m n (sides v);
    } };

    ghost unambiguous = { A.unambiguous };

    #[inline(always)]
    fn has_tag(_tag: Tag) -> bool {
        false
    }

    #[inline(always)]
    fn read(reader: BERReader) -> ASN1Result<Either<A::Value, TaggedDerValue>> {
        let tag = reader.lookahead_tag()?;
        if A::has_tag(tag) {
            let value = A::read_found(tag, reader)?;
            return Ok(Either::First(value));
        }
        let other = reader.read_tagged_der()?;
        Ok(Either::Second(other))
    }

    #[inline(always)]
    fn write(value: &Either<A::Value, TaggedDerValue>, writer: DERWriter<'_>) -> ASN1Result<()> {
        match value {
            Either::First(known) => A::write(known, writer),
            Either::Second(other) => writer.write_tagged_der(other),
        }
    }

    #[inline(always)]
    fn prepend(
        value: &Either<A::Value, TaggedDerValue>,
        under: Option<Tag>,
        out: &mut PrependBuffer,
    ) -> ASN1Result<()> {
        match value {
            Either::First(known) => A::prepend(known, under, out),
            Either::Second(other) => <TaggedDerValue as Notation>::prepend(other, under, out),
        }
    }

    #[inline(always)]
    fn encoded_len(
        value: &Either<A::Value, TaggedDerValue>,
        under: Option<Tag>,
        mode: BERMode,
    ) -> Option<usize> {
        match value {
            Either::First(known) => A::encoded_len(known, under, mode),
            Either::Second(other) => <TaggedDerValue as Notation>::encoded_len(other, under, mode),
        }
    }

    ghost lawful = { λ a. open_lawful A.encoding_under (A.laws a) };

    ghost non_empty = { open_non_empty A.encoding_under A.non_empty };
}
