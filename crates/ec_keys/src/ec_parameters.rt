//! `ECParameters` of the module ECPrivateKey.
//!
//! ```text
//! ECParameters ::= CHOICE {
//!     namedCurve  OBJECT IDENTIFIER }
//! ```
ghost use Rattle.std.specs.Prelude.{◌≡◌, ◌↔◌, IsTrue, refl};
ghost use Rattle.yasna_notation.specs.Canonical.{choice_written_as, represented_written};
ghost use Rattle.yasna_notation.specs.Laws.{represented_lawful};
ghost use Rattle.yasna_notation.specs.Making.{in_choice};
ghost use Rattle.yasna_notation.specs.Notation.{represented_by};
ghost use Rattle.yasna_notation.specs.contracts.simple.ObjectIdentifierNotation.TheImpl.Laws.{lawful-law as oid_law, non_empty-law as oid_non_empty};
ghost use Rattle.yasna_notation.specs.contracts.canonical.ObjectIdentifierCanonicalNotation.TheImpl.Laws.{written-law as oid_written};
ghost use Rattle.std.specs.Prelude.{[]};
ghost use Rattle.ec_keys.specs.declared.ec_parameters.EcParameters.TheVariants.{NamedCurve};

use yasna::models::ObjectIdentifier;
use yasna::{ASN1Result, BERMode, BERReader, DERWriter, PrependBuffer, Tag};
use yasna_notation::{CanonicalNotation, Choice, Message, Notation, Represents, read_as};
use yasna_notation_constraints::Checked;

type Types = (ObjectIdentifier,);

type Sides = ObjectIdentifier;

type Notated = Choice<Types>;

/// `ECParameters`.
#[derive(Drop)]
pub enum EcParameters {
    NamedCurve(ObjectIdentifier),
}

impl Represents<Sides> for EcParameters {
    ghost value_of = { λ v. elim v [
      | NamedCurve x ↦ x
    ] };

    fn from_value(value: Sides) -> EcParameters {
        match value {
            value => EcParameters::NamedCurve(value),
        }
    }
}

impl Notation for EcParameters {
    type Value = EcParameters;

    type Inner = ();

    ghost means = { represented_by ⟦<EcParameters as Represents<Sides>>⟧.value_of ⟦<Notated as Notation>⟧.means };

    fn has_tag(tag: Tag) -> bool {
        <Notated as Notation>::has_tag(tag)
    }

    fn read(reader: BERReader) -> ASN1Result<EcParameters> {
        read_as::<Notated, EcParameters>(reader)
    }

    fn write(value: &EcParameters, writer: DERWriter<'_>) -> ASN1Result<()> {
        match value {
            EcParameters::NamedCurve(value) => <ObjectIdentifier as Notation>::write(value, writer),
        }
    }

    fn prepend(
        value: &EcParameters,
        under: Option<Tag>,
        out: &mut PrependBuffer,
    ) -> ASN1Result<()> {
        match value {
            EcParameters::NamedCurve(value) => <ObjectIdentifier as Notation>::prepend(
                value, under, out,
            ),
        }
    }

    fn encoded_len(value: &EcParameters, under: Option<Tag>, mode: BERMode) -> Option<usize> {
        match value {
            EcParameters::NamedCurve(value) => <ObjectIdentifier as Notation>::encoded_len(
                value, under, mode,
            ),
        }
    }

    ghost lawful = { λ _. represented_lawful ⟦<EcParameters as Represents<Sides>>⟧.value_of (in_choice ⟦<Notated as Notation>⟧.means.encoding_under
        (oid_law refl).own) };

    ghost non_empty = { λ u m v. elim v as (λ k. ⟦<Notated as Notation>⟧.means.encoding_under u m (⟦<EcParameters as Represents<Sides>>⟧.value_of k) ≡ [] → ⊥) [
      | NamedCurve x ↦ (oid_non_empty u) m x
    ] };
}

impl Message for EcParameters {
    ghost is_unambiguous = { refl };
}

impl CanonicalNotation for EcParameters {
    ghost written = { λ _. represented_written ⟦<EcParameters as Represents<Sides>>⟧.value_of (choice_written_as ⟦<Notated as Notation>⟧.means.encoding_under
        (oid_written refl).own) };
}

impl Checked for EcParameters {
    fn accepts(value: &EcParameters) -> bool {
        match value {
            EcParameters::NamedCurve(value) => <ObjectIdentifier as Checked>::accepts(value),
        }
    }
}
