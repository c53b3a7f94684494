//! EXPLICIT tags: an element of another tag around an element of the type (X.690, 8.14).
ghost use Rattle.std.specs.Prelude.{◌≡◌, ◌∷◌, [], None, true};
ghost use Rattle.yasna_base.specs.Canonical.{enclosed_encoding, enclosed_depth};
ghost use Rattle.yasna_base.specs.Element.{Enclosed, AnyEnclosed};
ghost use Rattle.yasna_base.specs.Exact.{enclosed_fits};
ghost use Rattle.yasna_base.specs.Identifier.{tag_or};
ghost use Rattle.yasna_base.proofs.ExplicitTags.{enclosed_begins};
ghost use Rattle.yasna_notation.specs.Elements.{explicit_elements};
ghost use Rattle.yasna_notation.specs.Laws.{element_lawful, explicit_laws, element_non_empty};

use crate::notation::Notation;
use crate::tag_names::TagName;
use std::marker::PhantomData;
use yasna_base::{ASN1Result, BERMode, Tag};
use yasna_reader::BERReader;
use yasna_writer::{DERWriter, PrependBuffer, constructed_len};

/// `[T] EXPLICIT N`, as `Explicit<Context<0>, i64>` of `[0] EXPLICIT INTEGER`.
pub struct Explicit<T, N> {
    tag: PhantomData<T>,
    of: PhantomData<N>,
}

impl<T: TagName, N: Notation> Notation for Explicit<T, N> {
    type Value = N::Value;

    type Inner = N::Inner;

    ghost means = { record {
      tags_known = true;
      tags = T.tag ∷ [];
      retagged = true;
      under = λ u. Enclosed (N.means.under None) (tag_or u T.tag);
      any_under = λ u. AnyEnclosed (N.means.any_under None) (tag_or u T.tag);
      may_allocate = N.means.may_allocate;
      same = N.means.same;
      encoding_under = λ u. enclosed_encoding (N.means.encoding_under None) (tag_or u T.tag);
      depth = enclosed_depth N.means.depth;
      can = N.means.can;
      fits = enclosed_fits N.means.fits;
    } };

    ghost unambiguous = { N.unambiguous };

    #[inline(always)]
    fn has_tag(tag: Tag) -> bool {
        tag == T::tag()
    }

    #[inline(always)]
    fn read(reader: BERReader) -> ASN1Result<N::Value> {
        reader.read_tagged(T::tag(), |inner| N::read(inner))
    }

    #[inline(always)]
    fn write(value: &N::Value, writer: DERWriter<'_>) -> ASN1Result<()> {
        writer.write_tagged(T::tag(), |inner| N::write(value, inner))
    }

    #[inline(always)]
    fn prepend(value: &N::Value, under: Option<Tag>, out: &mut PrependBuffer) -> ASN1Result<()> {
        let after = out.begin_contents()?;
        N::prepend(value, None, out)?;
        out.enclose(under.unwrap_or(T::tag()), after)
    }

    #[inline(always)]
    fn encoded_len(value: &N::Value, under: Option<Tag>, mode: BERMode) -> Option<usize> {
        constructed_len(
            mode,
            under.unwrap_or(T::tag()),
            N::encoded_len(value, None, mode)?,
        )
    }

    ghost lawful = { λ a. element_lawful T.tag (explicit_laws (N.lawful a).own) (enclosed_begins (N.means.any_under None)) (explicit_elements (N.lawful a).own.single) T.not_end T.in_range };

    ghost non_empty = { λ u m v. element_non_empty _ _ _ _ };
}
