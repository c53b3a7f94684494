//! A CHOICE as a part of a SET (X.690, 8.11 and 8.13).
ghost use Rattle.std.specs.Prelude.{◌≡◌, true, refl};
ghost use Rattle.yasna_notation_types.specs.SetReading.{ReadsSetPart, as_second};

use crate::set_part::SetPart;
use yasna_base::ASN1Result;
use yasna_notation::{Alternatives, Choice, Either, Notation};
use yasna_reader::BERReaderSet;

/// The types of a CHOICE that is a part of a SET.
pub trait SetAlternatives: Alternatives {
    /// Chooses an element of a SET by the tags of the CHOICE, takes it out, and reads a value from it.
    ///
    /// Returns `None` if there is none. An error is sticky.
    fn read_alternative(set: &mut BERReaderSet) -> ASN1Result<Option<Self::Value>>
        requires { Self.unambiguous ≡ true }
        ensures { ReadsSetPart Self.tags Self.encodes Self.elements set.old result set.new };
}

// A value of the second type, if one was read.
fn as_second<A, B>(found: ASN1Result<Option<B>>) -> ASN1Result<Option<Either<A, B>>>
    ensures { result ≡ as_second found }
{
    match found {
        Ok(Some(other)) => Ok(Some(Either::Second(other))),
        Ok(None) => Ok(None),
        Err(error) => Err(error),
    }
}

impl<A: SetPart> SetAlternatives for (A,) {
    #[inline(always)]
    fn read_alternative(set: &mut BERReaderSet) -> ASN1Result<Option<A::Value>> {
        A::read_chosen(set)
    }
}

impl<A: SetPart, W: SetAlternatives> SetAlternatives for (A, W) {
    #[inline(always)]
    fn read_alternative(set: &mut BERReaderSet) -> ASN1Result<Option<Either<A::Value, W::Value>>> {
        let found = match A::read_chosen(set) {
            Ok(found) => found,
            Err(error) => return Err(error),
        };
        match found {
            Some(first) => Ok(Some(Either::First(first))),
            None => as_second(W::read_alternative(set)),
        }
    }
}

impl<A: SetAlternatives> SetPart for Choice<A>
where
    A::Value: Drop,
{
    #[inline(always)]
    fn read_chosen(set: &mut BERReaderSet) -> ASN1Result<Option<A::Value>> {
        A::read_alternative(set)
    }

    ghost is_known = { refl };
}
