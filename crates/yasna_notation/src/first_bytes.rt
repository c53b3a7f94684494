//! The bytes of a SEQUENCE's first part, which a signature over it is verified with.
ghost use Rattle.std.specs.Prelude.{◌≡◌, ◌||◌, ◌&&◌, None, true};
ghost use Rattle.yasna_base.specs.Sequence.{AnyPart};
ghost use Rattle.yasna_reader.specs.State.{IsFresh, part_of};
ghost use Rattle.yasna_notation.specs.FirstBytes.{PartsWithFirst};
ghost use Rattle.yasna_notation.specs.Parts.{ReadsContents};

use crate::notation::Notation;
use crate::parts::Parts;
use yasna_base::ASN1Result;
use yasna_reader::BERReaderSeq;

/// The values of a SEQUENCE's parts, and the bytes of the first.
#[derive(Drop)]
pub struct WithFirst<'a, V, W> {
    /// The value of the first part.
    pub first: V,
    /// The values of the other parts.
    pub others: W,
    /// The bytes that the first part was read from: the input's own.
    pub first_bytes: &'a [u8],
}

/// Reads parts up to the end of the contents, as `<(A, W)>::read_parts` does, and returns the bytes of the first beside its value.
///
/// A SEQUENCE is read by a function with named types, and not by a closure, since the bytes borrow from the input:
///
/// ```rust
/// fn read_parts<'a>(seq: &mut BERReaderSeq<'a, '_>) -> ASN1Result<WithFirst<'a, Body, (Signature, ())>> {
///     read_parts_with_first::<Body, (Signature, ())>(seq)
/// }
///
/// pub fn read_signed<'a>(reader: BERReader<'a, '_>) -> ASN1Result<WithFirst<'a, Body, (Signature, ())>> {
///     reader.read_sequence(read_parts)
/// }
/// ```
#[inline(always)]
pub fn read_parts_with_first<'a, A: Notation, W: Parts>(
    seq: &mut BERReaderSeq<'a, '_>,
) -> ASN1Result<WithFirst<'a, A::Value, W::Values>>
    requires unambiguous { (A.unambiguous && W.unambiguous) ≡ true }
    requires fresh { IsFresh (part_of seq.old) }
    ensures { ReadsContents (A.means.may_allocate || W.may_allocate) (PartsWithFirst (A.means.under None) W.parts)
        (AnyPart (A.means.any_under None) W.any_parts) (part_of seq.old) result (part_of seq.new) }
{
    let (first, first_bytes) = seq.next().read_with_buffer(|first| A::read(first))?;
    let others = W::read_parts(seq)?;
    Ok(WithFirst {
        first,
        others,
        first_bytes,
    })
}
