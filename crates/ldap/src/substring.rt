//! Parts of a string that is looked for (RFC 4511, 4.5.1.7.2).
//!
//! ```text
//! CHOICE {
//!     initial  [0] AssertionValue,
//!     any      [1] AssertionValue,
//!     final    [2] AssertionValue }
//!
//! AssertionValue ::= OCTET STRING
//! ```
ghost use Rattle.std.specs.Prelude.{◌≡◌, ◌↔◌, [], IsTrue, refl};
ghost use Rattle.std.proofs.Common.{arith};
ghost use Rattle.yasna_notation.specs.Laws.{represented_lawful, octets_non_empty};
ghost use Rattle.yasna_notation.specs.Making.{in_choice, alternative, in_implicit};
ghost use Rattle.yasna_notation.specs.Notation.{represented_by};
ghost use Rattle.yasna_notation.specs.declared.choices.Either.TheVariants.{First, Second};
ghost use Rattle.ldap.specs.declared.substring.Substring.TheVariants.{Initial, Any, Final};
ghost use Rattle.yasna_notation.specs.contracts.strings.VecU8Notation.TheImpl.Laws.{lawful-law as octets};
ghost use Rattle.yasna_notation.specs.Canonical.{represented_written, choice_written_as};
ghost use Rattle.yasna_notation.specs.Writing.{alternative_written, under_context};
ghost use Rattle.yasna_notation.specs.contracts.canonical.VecU8CanonicalNotation.TheImpl.Laws.{written-law as octets_written};

use yasna::{ASN1Result, BERMode, BERReader, DERWriter, PrependBuffer, Tag};
use yasna_notation::Either::{First, Second};
use yasna_notation::{
    Alternatives, CanonicalNotation, Choice, Context, Either, Implicit, Message, Notation,
    Represents, read_as,
};
use yasna_notation_constraints::Checked;

type InitialNotation = Implicit<Context<0>, Vec<u8>>;

type AnyNotation = Implicit<Context<1>, Vec<u8>>;

type FinalNotation = Implicit<Context<2>, Vec<u8>>;

type Types = (InitialNotation, (AnyNotation, (FinalNotation,)));

type Notated = Choice<Types>;

type Fields = Either<Vec<u8>, Either<Vec<u8>, Vec<u8>>>;

/// A part of a string that is looked for. That an initial one is first and a final one last isn't checked.
#[derive(Drop)]
pub enum Substring {
    Initial(Vec<u8>),
    Any(Vec<u8>),
    Final(Vec<u8>),
}

impl Represents<Fields> for Substring {
    ghost value_of = { λ v. elim v [ Initial s ↦ First s | Any s ↦ Second (First s) | Final s ↦ Second (Second s) ] };

    fn from_value(value: Fields) -> Substring {
        match value {
            First(octets) => Substring::Initial(octets),
            Second(First(octets)) => Substring::Any(octets),
            Second(Second(octets)) => Substring::Final(octets),
        }
    }
}

impl Notation for Substring {
    type Value = Substring;

    type Inner = ();

    ghost means = { represented_by ⟦<Substring as Represents<Fields>>⟧.value_of ⟦<Notated as Notation>⟧.means };

    fn has_tag(tag: Tag) -> bool {
        <Types as Alternatives>::has_tag(tag)
    }

    fn read(reader: BERReader) -> ASN1Result<Substring> {
        read_as::<Notated, Substring>(reader)
    }

    fn write(value: &Substring, writer: DERWriter<'_>) -> ASN1Result<()> {
        match value {
            Substring::Initial(octets) => InitialNotation::write(octets, writer),
            Substring::Any(octets) => AnyNotation::write(octets, writer),
            Substring::Final(octets) => FinalNotation::write(octets, writer),
        }
    }

    fn prepend(value: &Substring, under: Option<Tag>, out: &mut PrependBuffer) -> ASN1Result<()> {
        match value {
            Substring::Initial(octets) => InitialNotation::prepend(octets, under, out),
            Substring::Any(octets) => AnyNotation::prepend(octets, under, out),
            Substring::Final(octets) => FinalNotation::prepend(octets, under, out),
        }
    }

    fn encoded_len(value: &Substring, under: Option<Tag>, mode: BERMode) -> Option<usize> {
        match value {
            Substring::Initial(octets) => InitialNotation::encoded_len(octets, under, mode),
            Substring::Any(octets) => AnyNotation::encoded_len(octets, under, mode),
            Substring::Final(octets) => FinalNotation::encoded_len(octets, under, mode),
        }
    }

    ghost lawful = { λ _. represented_lawful ⟦<Substring as Represents<Fields>>⟧.value_of
        (in_choice ⟦<Notated as Notation>⟧.means.encoding_under (alternative (in_implicit 0 (omega arith) (octets refl)).own refl
        (alternative (in_implicit 1 (omega arith) (octets refl)).own refl (in_implicit 2 (omega arith) (octets refl)).own))) };

    ghost non_empty = { λ u m v. elim v as (λ k. ⟦<Notated as Notation>⟧.means.encoding_under u m (⟦<Substring as Represents<Fields>>⟧.value_of k) ≡ [] → ⊥) [
      | Initial s ↦
          octets_non_empty _ m s.items
      | Any s ↦ octets_non_empty _ m s.items
      | Final s ↦ octets_non_empty _ m s.items
    ] };
}

impl Message for Substring {
    ghost is_unambiguous = { refl };
}

impl CanonicalNotation for Substring {
    ghost written = { λ _. represented_written ⟦<Substring as Represents<Fields>>⟧.value_of (choice_written_as ⟦<Notated as Notation>⟧.means.encoding_under
        (alternative_written (under_context 0 (omega arith) (octets_written refl)).own (alternative_written (under_context 1 (omega arith)
        (octets_written refl)).own (under_context 2 (omega arith) (octets_written refl)).own))) };
}

impl Checked for Substring {
    fn accepts(value: &Substring) -> bool {
        match value {
            Substring::Initial(octets) => InitialNotation::accepts(octets),
            Substring::Any(octets) => AnyNotation::accepts(octets),
            Substring::Final(octets) => FinalNotation::accepts(octets),
        }
    }
}
