//! Types that are notations themselves: a message is cut into them, and each is checked separately.
ghost use Rattle.std.specs.Prelude.{◌≡◌, true};
ghost use Rattle.yasna_reader.specs.State.{IsFresh, part_of};
ghost use Rattle.yasna_notation.specs.Notation.{ReadsMeaning, represented_by};
ghost use Rattle.yasna_notation.specs.Parts.{ReadsContents};

use crate::notation::Notation;
use crate::parts::Parts;
use yasna_base::ASN1Result;
use yasna_reader::{BERReader, BERReaderSeq};

/// A type that is the notation of its own values.
pub trait Message: Notation<Value = Self> + Drop {
    // Tags make unambiguous what has to be: `refl` proves it where they do.
    ghost is_unambiguous: { Self.unambiguous ≡ true };
}

/// A type whose values represent those of another.
pub trait Represents<V: Drop>: Sized + Drop {
    // The other type's value that represents a value.
    ghost value_of: { Self → V };

    /// Makes a value of the other type's one that represents it.
    fn from_value(value: V) -> Self
        ensures { value_of result ≡ value };
}

/// Reads a value of a type whose values represent those of a notation.
#[inline(always)]
pub fn read_as<N: Notation, T: Represents<N::Value>>(reader: BERReader) -> ASN1Result<T>
    requires { N.unambiguous ≡ true }
    ensures { ReadsMeaning (represented_by T.value_of N.means) reader.old result reader.new }
{
    let value = N::read(reader)?;
    Ok(T::from_value(value))
}

/// Reads parts up to the end of the contents, as a value of a type whose values represent those of the parts.
///
/// By it a type is the notation of some parts of a long SEQUENCE, whose values are its own: the values of parts are pairs in pairs, and a struct in
/// their place ends these.
#[inline(always)]
pub fn read_parts_as<P: Parts, T: Represents<P::Values>>(seq: &mut BERReaderSeq) -> ASN1Result<T>
where
    P::Values: Drop,
    requires unambiguous { P.unambiguous ≡ true }
    requires fresh { IsFresh (part_of seq.old) }
    ensures { ReadsContents P.may_allocate (λ m n v c. P.parts m n (T.value_of v) c) P.any_parts (part_of seq.old) result (part_of seq.new) }
{
    match P::read_parts(seq) {
        Ok(values) => Ok(T::from_value(values)),
        Err(error) => Err(error),
    }
}
