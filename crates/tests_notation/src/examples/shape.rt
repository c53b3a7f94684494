//! An example of `OpenChoice`.
//!
//! ```text
//! Shape ::= CHOICE { number INTEGER, flag BOOLEAN, ... }
//! ```
ghost use Rattle.std.specs.Prelude.{◌≡◌, refl};
ghost use Rattle.yasna_notation.specs.declared.choices.Either.TheVariants.{First, Second};
ghost use Rattle.tests_notation.specs.declared.examples.shape.Shape.TheVariants.{Number, Flag, Unknown};

use yasna_base::models::TaggedDerValue;
use yasna_base::{ASN1Result, BERMode, Tag};
use yasna_notation::Either::{First, Second};
use yasna_notation::{DefinedType, Either, Notation};
use yasna_notation_types::OpenChoice;
use yasna_writer::{DERWriter, PrependBuffer};

/// A shape.
#[derive(Drop)]
pub enum Shape {
    Number(i64),
    Flag(bool),
    /// An element that this version doesn't know, as it came.
    Unknown(TaggedDerValue),
}

impl DefinedType for Shape {
    type Notation = OpenChoice<(i64, (bool,))>;

    ghost value_of = { λ v. elim v [
      | Number x ↦ First (First x)
      | Flag x ↦ First (Second x)
      | Unknown x ↦ Second x
    ] };

    fn from_value(value: Either<Either<i64, bool>, TaggedDerValue>) -> Shape {
        match value {
            First(First(value)) => Shape::Number(value),
            First(Second(value)) => Shape::Flag(value),
            Second(value) => Shape::Unknown(value),
        }
    }

    fn write_value(&self, writer: DERWriter<'_>) -> ASN1Result<()> {
        match self {
            Shape::Number(value) => <i64 as Notation>::write(value, writer),
            Shape::Flag(value) => <bool as Notation>::write(value, writer),
            Shape::Unknown(value) => <TaggedDerValue as Notation>::write(value, writer),
        }
    }

    fn prepend_value(&self, under: Option<Tag>, out: &mut PrependBuffer) -> ASN1Result<()> {
        match self {
            Shape::Number(value) => <i64 as Notation>::prepend(value, under, out),
            Shape::Flag(value) => <bool as Notation>::prepend(value, under, out),
            Shape::Unknown(value) => <TaggedDerValue as Notation>::prepend(value, under, out),
        }
    }

    fn value_len(&self, under: Option<Tag>, mode: BERMode) -> Option<usize> {
        match self {
            Shape::Number(value) => <i64 as Notation>::encoded_len(value, under, mode),
            Shape::Flag(value) => <bool as Notation>::encoded_len(value, under, mode),
            Shape::Unknown(value) => <TaggedDerValue as Notation>::encoded_len(value, under, mode),
        }
    }

    ghost unambiguous = { refl };
}
