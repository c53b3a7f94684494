//! Types of which a module accepts only some values (X.680, 49 to 51): those that pass a bound.
ghost use Rattle.std.specs.Prelude.{◌≡◌, ◌<◌, ◌≤◌, Bool, List, Option, None, true};
ghost use Rattle.yasna_base.specs.Coding.{Any};
ghost use Rattle.yasna_notation.specs.Bounded.{Within, within_lawful};

use crate::notation::Notation;
use std::marker::PhantomData;
use yasna_base::{ASN1Error, ASN1ErrorKind, ASN1Result, BERMode, Tag};
use yasna_reader::BERReader;
use yasna_writer::{DERWriter, PrependBuffer};

/// A bound: the values of a notation that pass it.
pub trait Bound<N: Notation> {
    // The test.
    ghost passes: { N.Value → Bool };

    /// Whether a value passes.
    fn lets(value: &N::Value) -> bool
        ensures { result ≡ passes value.now };

    // Of equal values all pass or none.
    ghost alike: { (v w : N.Value) → N.means.same v w → passes v ≡ passes w };
}

/// `N (C)`: the values that pass the bound `C`. Other values are rejected as `Invalid`.
pub struct Bounded<N, C> {
    of: PhantomData<N>,
    bound: PhantomData<C>,
}

impl<N: Notation, C: Bound<N>> Notation for Bounded<N, C> {
    type Value = N::Value;

    type Inner = N::Inner;

    ghost means = { record {
      tags_known = N.means.tags_known;
      tags = N.means.tags;
      retagged = N.means.retagged;
      under = λ u. Within C.passes (N.means.under u);
      any_under = λ u. Any (Within C.passes (N.means.under u));
      may_allocate = N.means.may_allocate;
      same = N.means.same;
      encoding_under = N.means.encoding_under;
      depth = N.means.depth;
      can = λ v. N.means.can v × (C.passes v ≡ true);
      fits = λ m n v. N.means.fits m n v × (C.passes v ≡ true);
    } };

    ghost unambiguous = { N.unambiguous };

    #[inline(always)]
    fn has_tag(tag: Tag) -> bool {
        N::has_tag(tag)
    }

    #[inline(always)]
    fn read(reader: BERReader) -> ASN1Result<N::Value> {
        let value = N::read(reader)?;
        if !C::lets(&value) {
            return Err(ASN1Error::new(ASN1ErrorKind::Invalid));
        }
        Ok(value)
    }

    #[inline(always)]
    fn write(value: &N::Value, writer: DERWriter<'_>) -> ASN1Result<()> {
        N::write(value, writer)
    }

    #[inline(always)]
    fn prepend(value: &N::Value, under: Option<Tag>, out: &mut PrependBuffer) -> ASN1Result<()> {
        N::prepend(value, under, out)
    }

    #[inline(always)]
    fn encoded_len(value: &N::Value, under: Option<Tag>, mode: BERMode) -> Option<usize> {
        N::encoded_len(value, under, mode)
    }

    ghost lawful = { λ a. within_lawful C.passes C.alike (N.lawful a) };

    ghost non_empty = { N.non_empty };
}
