//! Types that may be a part of a SET: each of their encodings is one element, which is chosen by its tag (X.690, 8.11).
ghost use Rattle.std.specs.Prelude.{◌≡◌, ◌∷◌, [], None, true, refl};
ghost use Rattle.yasna_base.specs.declared.tag.Tag.{Tag};
ghost use Rattle.yasna_notation_types.specs.SetReading.{ReadsSetPart};

use crate::any_under::AnyUnder;
use yasna_base::models::TaggedDerValue;
use yasna_base::tags::{TAG_BOOLEAN, TAG_INTEGER, TAG_OCTETSTRING, TAG_SEQUENCE};
use yasna_base::{ASN1Result, Tag};
use yasna_notation::{Explicit, Implicit, Notation, Parts, Sequence, SequenceOf, TagName};
use yasna_reader::BERReaderSet;

/// A type that may be a part of a SET: each encoding is one element, with one of its tags.
pub trait SetPart: Notation {
    /// Chooses an element of a SET by the type's tags, takes it out, and reads a value from it.
    ///
    /// Returns `None` if there is none. An error is sticky.
    fn read_chosen(set: &mut BERReaderSet) -> ASN1Result<Option<Self::Value>>
        requires { Self.unambiguous ≡ true }
        ensures { ReadsSetPart Self.means.tags (Self.means.under None) (Self.means.any_under None) set.old result set.new };

    // It is known by its tags.
    ghost is_known: { Self.means.tags_known ≡ true };
}

/// Chooses the first element of a SET that has one of these tags, takes it out, and reads a value from it.
///
/// Returns `None` if there is none. An error is sticky. So a type with these tags is a `SetPart`.
pub fn read_part<A: Notation>(tags: &[Tag], set: &mut BERReaderSet) -> ASN1Result<Option<A::Value>>
    requires { A.unambiguous ≡ true }
    ensures { ReadsSetPart tags.now (A.means.under None) (A.means.any_under None) set.old result set.new }
{
    set.read_optional(tags, |part| A::read(part))
}

// As `read_part`, of a type with one tag.
fn read_by_tag<A: Notation>(tag: Tag, set: &mut BERReaderSet) -> ASN1Result<Option<A::Value>>
    requires { A.unambiguous ≡ true }
    ensures { ReadsSetPart (tag ∷ []) (A.means.under None) (A.means.any_under None) set.old result set.new }
{
    read_part::<A>(&[tag], set)
}

impl SetPart for bool {
    #[inline(always)]
    fn read_chosen(set: &mut BERReaderSet) -> ASN1Result<Option<bool>> {
        read_by_tag::<bool>(TAG_BOOLEAN, set)
    }

    ghost is_known = { refl };
}

impl SetPart for i64 {
    #[inline(always)]
    fn read_chosen(set: &mut BERReaderSet) -> ASN1Result<Option<i64>> {
        read_by_tag::<i64>(TAG_INTEGER, set)
    }

    ghost is_known = { refl };
}

impl SetPart for Vec<u8> {
    #[inline(always)]
    fn read_chosen(set: &mut BERReaderSet) -> ASN1Result<Option<Vec<u8>>> {
        read_by_tag::<Vec<u8>>(TAG_OCTETSTRING, set)
    }

    ghost is_known = { refl };
}

impl<T: TagName, N: Notation> SetPart for Implicit<T, N> {
    #[inline(always)]
    fn read_chosen(set: &mut BERReaderSet) -> ASN1Result<Option<N::Value>> {
        read_by_tag::<Implicit<T, N>>(T::tag(), set)
    }

    ghost is_known = { refl };
}

impl<T: TagName> SetPart for AnyUnder<T> {
    #[inline(always)]
    fn read_chosen(set: &mut BERReaderSet) -> ASN1Result<Option<TaggedDerValue>> {
        read_by_tag::<AnyUnder<T>>(T::tag(), set)
    }

    ghost is_known = { refl };
}

impl<T: TagName, N: Notation> SetPart for Explicit<T, N> {
    #[inline(always)]
    fn read_chosen(set: &mut BERReaderSet) -> ASN1Result<Option<N::Value>> {
        read_by_tag::<Explicit<T, N>>(T::tag(), set)
    }

    ghost is_known = { refl };
}

impl<P: Parts> SetPart for Sequence<P>
where
    P::Values: Drop,
{
    #[inline(always)]
    fn read_chosen(set: &mut BERReaderSet) -> ASN1Result<Option<P::Values>> {
        read_by_tag::<Sequence<P>>(TAG_SEQUENCE, set)
    }

    ghost is_known = { refl };
}

impl<N: Notation> SetPart for SequenceOf<N> {
    #[inline(always)]
    fn read_chosen(set: &mut BERReaderSet) -> ASN1Result<Option<Vec<N::Value>>> {
        read_by_tag::<SequenceOf<N>>(TAG_SEQUENCE, set)
    }

    ghost is_known = { refl };
}
