//! An element with a given tag, whose contents aren't given a type: of a type that isn't known, under an IMPLICIT tag (X.690, 8.1 and 8.14).
ghost use Rattle.std.specs.Prelude.{◌≡◌, ◌∷◌, [], true, false};
ghost use Rattle.yasna_base.specs.Canonical.{Always, leaf_depth};
ghost use Rattle.yasna_base.specs.Coding.{Any};
ghost use Rattle.yasna_base.specs.Identifier.{tag_or};
ghost use Rattle.yasna_base.specs.Raw.{raw_encoding};
ghost use Rattle.yasna_base.specs.TaggedDerValue.{raw_of};
ghost use Rattle.yasna_notation.specs.Laws.{raw_non_empty};
ghost use Rattle.yasna_notation_types.specs.AnyUnder.{EncodesUnder, has_given_tag, any_under_lawful};
ghost use Rattle.yasna_notation_types.specs.OpenChoice.{same_any, any_fits};

use std::marker::PhantomData;
use yasna_base::models::TaggedDerValue;
use yasna_base::{ASN1Error, ASN1ErrorKind, ASN1Result, BERMode, Tag};
use yasna_notation::{Notation, TagName};
use yasna_reader::BERReader;
use yasna_writer::{DERWriter, PrependBuffer};

/// `[T] IMPLICIT` before a type that isn't known, as `AnyUnder<Context<0>>`: any element with this tag, as it came.
///
/// It is written as it came, so one that BER read with indefinite length isn't an element of DER. Its depth isn't counted. A value with another tag
/// can't be written.
pub struct AnyUnder<T> {
    tag: PhantomData<T>,
}

impl<T: TagName> Notation for AnyUnder<T> {
    type Value = TaggedDerValue;

    type Inner = ();

    ghost means = { record {
      tags_known = true;
      tags = T.tag ∷ [];
      retagged = false;
      under = λ u. EncodesUnder T.tag;
      any_under = λ u. Any (EncodesUnder T.tag);
      may_allocate = true;
      same = same_any;
      encoding_under = λ u m v. raw_encoding (tag_or u (raw_of v).tag) m (raw_of v);
      depth = leaf_depth;
      can = λ v. Always v × (has_given_tag T.tag v ≡ true);
      fits = λ m n v. any_fits m n v × (has_given_tag T.tag v ≡ true);
    } };

    #[inline(always)]
    fn has_tag(tag: Tag) -> bool {
        tag == T::tag()
    }

    #[inline(always)]
    fn read(reader: BERReader) -> ASN1Result<TaggedDerValue> {
        let tag = reader.lookahead_tag()?;
        if <AnyUnder<T> as Notation>::has_tag(tag) {
            return reader.read_tagged_der();
        }
        Err(ASN1Error::new(ASN1ErrorKind::Invalid))
    }

    #[inline(always)]
    fn write(value: &TaggedDerValue, writer: DERWriter<'_>) -> ASN1Result<()> {
        writer.write_tagged_der(value)
    }

    #[inline(always)]
    fn prepend(
        value: &TaggedDerValue,
        under: Option<Tag>,
        out: &mut PrependBuffer,
    ) -> ASN1Result<()> {
        <TaggedDerValue as Notation>::prepend(value, under, out)
    }

    #[inline(always)]
    fn encoded_len(value: &TaggedDerValue, under: Option<Tag>, mode: BERMode) -> Option<usize> {
        <TaggedDerValue as Notation>::encoded_len(value, under, mode)
    }

    ghost lawful = { λ _. any_under_lawful T.tag };

    ghost non_empty = { λ u m v. raw_non_empty (tag_or u (raw_of v).tag) m (raw_of v) };
}
