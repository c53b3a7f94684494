//! Values of examples, in one holder. It is generic: so it is proved once, and not for each example anew.
ghost use Rattle.std.specs.Prelude.{◌≡◌, ◌↔◌, IsTrue, true};

use yasna_base::{ASN1Result, BERMode, Tag};
use yasna_notation::{DefinedType, Notation};
use yasna_notation_constraints::{Checked, CheckedType};
use yasna_writer::{DERWriter, PrependBuffer};

/// A type that a module assigns, whose values are those of its notation: it has no struct of its own.
pub trait Assigned {
    /// The notation that the module writes after `::=`.
    type Notation: Notation;

    // Tags make unambiguous what has to be: `refl` proves it where they do.
    ghost unambiguous: { Self.Notation.unambiguous ≡ true };
}

/// A value of such a type.
#[derive(Drop)]
pub struct ValueOf<A: Assigned> {
    pub value: <A::Notation as Notation>::Value,
}

impl<A: Assigned> DefinedType for ValueOf<A> {
    type Notation = A::Notation;

    ghost value_of = { λ v. v.value };

    fn from_value(value: <A::Notation as Notation>::Value) -> ValueOf<A> {
        ValueOf { value }
    }

    fn write_value(&self, writer: DERWriter<'_>) -> ASN1Result<()> {
        <A::Notation as Notation>::write(&self.value, writer)
    }

    fn prepend_value(&self, under: Option<Tag>, out: &mut PrependBuffer) -> ASN1Result<()> {
        <A::Notation as Notation>::prepend(&self.value, under, out)
    }

    fn value_len(&self, under: Option<Tag>, mode: BERMode) -> Option<usize> {
        <A::Notation as Notation>::encoded_len(&self.value, under, mode)
    }

    ghost unambiguous = { A.unambiguous };
}

impl<A: Assigned> CheckedType for ValueOf<A>
where
    A::Notation: Checked,
{
    fn accepts_value(&self) -> bool {
        <A::Notation as Checked>::accepts(&self.value)
    }
}
