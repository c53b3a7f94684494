//! `CertificatePolicies` of the module PKIX1Implicit88.
//!
//! ```text
//! CertificatePolicies ::= SEQUENCE SIZE (1..MAX) OF PolicyInformation
//! ```
ghost use Rattle.std.specs.Prelude.{◌≡◌, ◌↔◌, IsTrue, refl};
ghost use Rattle.yasna_notation.specs.Laws.{element_non_empty, represented_lawful};
ghost use Rattle.yasna_notation.specs.Making.{in_sequence_of, not_empty};
ghost use Rattle.yasna_notation.specs.Notation.{represented_by};
ghost use Rattle.pkix_implicit.specs.contracts.policy_information.PolicyInformationNotation.TheImpl.Laws.{lawful-law as policy_information_law};

use crate::policy_information::PolicyInformation;
use yasna::{ASN1Result, BERMode, BERReader, DERWriter, PrependBuffer, Tag};
use yasna_notation::{Bounded, Message, NotEmpty, Notation, Represents, SequenceOf, read_as};
use yasna_notation_constraints::Checked;

type Notated = Bounded<SequenceOf<PolicyInformation>, NotEmpty>;

/// `CertificatePolicies`.
#[derive(Drop)]
pub struct CertificatePolicies {
    pub items: Vec<PolicyInformation>,
}

impl Represents<Vec<PolicyInformation>> for CertificatePolicies {
    ghost value_of = { λ v. v.items };

    fn from_value(items: Vec<PolicyInformation>) -> CertificatePolicies {
        CertificatePolicies { items }
    }
}

impl Notation for CertificatePolicies {
    type Value = CertificatePolicies;

    type Inner = ();

    ghost means = { represented_by ⟦<CertificatePolicies as Represents<Vec<PolicyInformation>>>⟧.value_of ⟦<Notated as Notation>⟧.means };

    fn has_tag(tag: Tag) -> bool {
        <Notated as Notation>::has_tag(tag)
    }

    fn read(reader: BERReader) -> ASN1Result<CertificatePolicies> {
        read_as::<Notated, CertificatePolicies>(reader)
    }

    fn write(value: &CertificatePolicies, writer: DERWriter<'_>) -> ASN1Result<()> {
        <Notated as Notation>::write(&value.items, writer)
    }

    fn prepend(
        value: &CertificatePolicies,
        under: Option<Tag>,
        out: &mut PrependBuffer,
    ) -> ASN1Result<()> {
        <Notated as Notation>::prepend(&value.items, under, out)
    }

    fn encoded_len(
        value: &CertificatePolicies,
        under: Option<Tag>,
        mode: BERMode,
    ) -> Option<usize> {
        <Notated as Notation>::encoded_len(&value.items, under, mode)
    }

    ghost lawful = { λ _. represented_lawful ⟦<CertificatePolicies as Represents<Vec<PolicyInformation>>>⟧.value_of (not_empty (in_sequence_of
        (policy_information_law refl).own)) };

    ghost non_empty = { λ u m v. element_non_empty _ _ _ _ };
}

impl Message for CertificatePolicies {
    ghost is_unambiguous = { refl };
}

impl Checked for CertificatePolicies {
    fn accepts(value: &CertificatePolicies) -> bool {
        <Notated as Checked>::accepts(&value.items)
    }
}
