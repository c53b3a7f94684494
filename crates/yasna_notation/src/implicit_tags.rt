//! IMPLICIT tags: a tag in place of the type's own (X.690, 8.14).
ghost use Rattle.std.specs.Prelude.{◌≡◌, ◌∷◌, ◌&&◌, [], Some, true};
ghost use Rattle.yasna_base.specs.Identifier.{tag_or};
ghost use Rattle.yasna_notation.specs.Laws.{implicit_lawful};

use crate::notation::Notation;
use crate::tag_names::TagName;
use std::marker::PhantomData;
use yasna_base::{ASN1Result, BERMode, Tag};
use yasna_reader::BERReader;
use yasna_writer::{DERWriter, PrependBuffer};

/// `[T] IMPLICIT N`, as `Implicit<Context<0>, i64>` of `[0] IMPLICIT INTEGER`. `N` is a type that has a tag itself.
pub struct Implicit<T, N> {
    tag: PhantomData<T>,
    of: PhantomData<N>,
}

impl<T: TagName, N: Notation> Notation for Implicit<T, N> {
    type Value = N::Value;

    type Inner = N::Inner;

    ghost means = { record {
      tags_known = true;
      tags = T.tag ∷ [];
      retagged = true;
      under = λ u. N.means.under (Some (tag_or u T.tag));
      any_under = λ u. N.means.any_under (Some (tag_or u T.tag));
      may_allocate = N.means.may_allocate;
      same = N.means.same;
      encoding_under = λ u. N.means.encoding_under (Some (tag_or u T.tag));
      depth = N.means.depth;
      can = N.means.can;
      fits = N.means.fits;
    } };

    ghost unambiguous = { (N.means.retagged && N.unambiguous) };

    #[inline(always)]
    fn has_tag(tag: Tag) -> bool {
        tag == T::tag()
    }

    #[inline(always)]
    fn read(reader: BERReader) -> ASN1Result<N::Value> {
        reader.read_tagged_implicit(T::tag(), |inner| N::read(inner))
    }

    #[inline(always)]
    fn write(value: &N::Value, writer: DERWriter<'_>) -> ASN1Result<()> {
        writer.write_tagged_implicit(T::tag(), |inner| N::write(value, inner))
    }

    #[inline(always)]
    fn prepend(value: &N::Value, under: Option<Tag>, out: &mut PrependBuffer) -> ASN1Result<()> {
        N::prepend(value, Some(under.unwrap_or(T::tag())), out)
    }

    #[inline(always)]
    fn encoded_len(value: &N::Value, under: Option<Tag>, mode: BERMode) -> Option<usize> {
        N::encoded_len(value, Some(under.unwrap_or(T::tag())), mode)
    }

    ghost lawful = { λ a. implicit_lawful T.tag (λ b. N.lawful b) a T.not_end T.in_range };

    ghost non_empty = { λ u. N.non_empty (Some (tag_or u T.tag)) };
}
