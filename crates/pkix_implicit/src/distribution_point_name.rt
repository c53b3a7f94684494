//! `DistributionPointName` of the module PKIX1Implicit88.
//!
//! ```text
//! DistributionPointName ::= CHOICE {
//!     fullName                 [0] GeneralNames,
//!     nameRelativeToCRLIssuer  [1] RelativeDistinguishedName }
//! ```
ghost use Rattle.std.specs.Prelude.{◌≡◌, ◌↔◌, IsTrue, Some, refl};
ghost use Rattle.std.proofs.Common.{arith};
ghost use Rattle.yasna_notation.specs.Laws.{represented_lawful};
ghost use Rattle.yasna_notation.specs.Making.{alternative, in_choice, in_implicit, context, tag_or};
ghost use Rattle.yasna_notation.specs.Notation.{represented_by};
ghost use Rattle.yasna_notation.specs.declared.choices.Either.TheVariants.{First, Second};
ghost use Rattle.pkix_implicit.specs.contracts.general_names.GeneralNamesNotation.TheImpl.Laws.{lawful-law as general_names_law};
ghost use Rattle.pkix_implicit.specs.contracts.general_names.GeneralNamesNotation.TheImpl.Laws.{non_empty-law as general_names_non_empty};
ghost use Rattle.x509.specs.contracts.relative_distinguished_name.RelativeDistinguishedNameNotation.TheImpl.Laws.{lawful-law as x509_relative_distinguished_name_law};
ghost use Rattle.x509.specs.contracts.relative_distinguished_name.RelativeDistinguishedNameNotation.TheImpl.Laws.{non_empty-law as x509_relative_distinguished_name_non_empty};
ghost use Rattle.std.specs.Prelude.{[]};
ghost use Rattle.pkix_implicit.specs.declared.distribution_point_name.DistributionPointName.TheVariants.{FullName, NameRelativeToCrlIssuer};

use crate::general_names::GeneralNames;
use x509::RelativeDistinguishedName;
use yasna::{ASN1Result, BERMode, BERReader, DERWriter, PrependBuffer, Tag};
use yasna_notation::Either::{First, Second};
use yasna_notation::{Choice, Context, Either, Implicit, Message, Notation, Represents, read_as};
use yasna_notation_constraints::Checked;

type Types = (
    Implicit<Context<0>, GeneralNames>,
    (Implicit<Context<1>, RelativeDistinguishedName>,),
);

type Sides = Either<GeneralNames, RelativeDistinguishedName>;

type Notated = Choice<Types>;

/// `DistributionPointName`.
#[derive(Drop)]
pub enum DistributionPointName {
    FullName(GeneralNames),
    NameRelativeToCrlIssuer(RelativeDistinguishedName),
}

impl Represents<Sides> for DistributionPointName {
    ghost value_of = { λ v. elim v [
      | FullName x ↦ First (x)
      | NameRelativeToCrlIssuer x ↦ Second (x)
    ] };

    fn from_value(value: Sides) -> DistributionPointName {
        match value {
            First(value) => DistributionPointName::FullName(value),
            Second(value) => DistributionPointName::NameRelativeToCrlIssuer(value),
        }
    }
}

impl Notation for DistributionPointName {
    type Value = DistributionPointName;

    type Inner = ();

    ghost means = { represented_by ⟦<DistributionPointName as Represents<Sides>>⟧.value_of ⟦<Notated as Notation>⟧.means };

    fn has_tag(tag: Tag) -> bool {
        <Notated as Notation>::has_tag(tag)
    }

    fn read(reader: BERReader) -> ASN1Result<DistributionPointName> {
        read_as::<Notated, DistributionPointName>(reader)
    }

    fn write(value: &DistributionPointName, writer: DERWriter<'_>) -> ASN1Result<()> {
        match value {
            DistributionPointName::FullName(value) => <Implicit<
                Context<0>,
                GeneralNames,
            > as Notation>::write(value, writer),
            DistributionPointName::NameRelativeToCrlIssuer(value) => <Implicit<
                Context<1>,
                RelativeDistinguishedName,
            > as Notation>::write(value, writer),
        }
    }

    fn prepend(
        value: &DistributionPointName,
        under: Option<Tag>,
        out: &mut PrependBuffer,
    ) -> ASN1Result<()> {
        match value {
            DistributionPointName::FullName(value) => <Implicit<
                Context<0>,
                GeneralNames,
            > as Notation>::prepend(value, under, out),
            DistributionPointName::NameRelativeToCrlIssuer(value) => <Implicit<
                Context<1>,
                RelativeDistinguishedName,
            > as Notation>::prepend(value, under, out),
        }
    }

    fn encoded_len(
        value: &DistributionPointName,
        under: Option<Tag>,
        mode: BERMode,
    ) -> Option<usize> {
        match value {
            DistributionPointName::FullName(value) => <Implicit<
                Context<0>,
                GeneralNames,
            > as Notation>::encoded_len(value, under, mode),
            DistributionPointName::NameRelativeToCrlIssuer(value) => <Implicit<
                Context<1>,
                RelativeDistinguishedName,
            > as Notation>::encoded_len(value, under, mode),
        }
    }

    ghost lawful = { λ _. represented_lawful ⟦<DistributionPointName as Represents<Sides>>⟧.value_of (in_choice ⟦<Notated as Notation>⟧.means.encoding_under
        (alternative (in_implicit 0 (omega arith) (general_names_law refl)).own refl (in_implicit 1 (omega arith)
        (x509_relative_distinguished_name_law refl)).own)) };

    ghost non_empty = { λ u m v. elim v as (λ k. ⟦<Notated as Notation>⟧.means.encoding_under u m (⟦<DistributionPointName as Represents<Sides>>⟧.value_of k) ≡ [] → ⊥) [
      | FullName x ↦ (general_names_non_empty (Some (tag_or u (context 0)))) m x
      | NameRelativeToCrlIssuer x ↦ (x509_relative_distinguished_name_non_empty (Some (tag_or u (context 1)))) m x
    ] };
}

impl Message for DistributionPointName {
    ghost is_unambiguous = { refl };
}

impl Checked for DistributionPointName {
    fn accepts(value: &DistributionPointName) -> bool {
        match value {
            DistributionPointName::FullName(value) => <Implicit<
                Context<0>,
                GeneralNames,
            > as Checked>::accepts(value),
            DistributionPointName::NameRelativeToCrlIssuer(value) => <Implicit<
                Context<1>,
                RelativeDistinguishedName,
            > as Checked>::accepts(value),
        }
    }
}
