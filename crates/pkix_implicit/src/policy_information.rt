//! `PolicyInformation` of the module PKIX1Implicit88.
//!
//! ```text
//! PolicyInformation ::= SEQUENCE {
//!     policyIdentifier  CertPolicyId,
//!     policyQualifiers  SEQUENCE SIZE (1..MAX) OF PolicyQualifierInfo OPTIONAL }
//! ```
ghost use Rattle.std.specs.Prelude.{◌≡◌, ◌↔◌, IsTrue, refl};
ghost use Rattle.yasna_notation.specs.Laws.{element_non_empty, represented_lawful};
ghost use Rattle.yasna_notation.specs.Making.{in_sequence, in_sequence_of, not_empty, optional_part, part};
ghost use Rattle.yasna_notation.specs.Notation.{represented_by};
ghost use Rattle.yasna_notation.specs.Parts.{no_parts};
ghost use Rattle.yasna_notation.specs.contracts.simple.ObjectIdentifierNotation.TheImpl.Laws.{lawful-law as oid_law};
ghost use Rattle.pkix_implicit.specs.contracts.policy_qualifier_info.PolicyQualifierInfoNotation.TheImpl.Laws.{lawful-law as policy_qualifier_info_law};

use crate::policy_qualifier_info::PolicyQualifierInfo;
use yasna::models::ObjectIdentifier;
use yasna::{ASN1Result, BERMode, BERReader, DERWriter, PrependBuffer, Tag};
use yasna_notation::{
    Bounded, Message, NotEmpty, Notation, Optional, Represents, Sequence, SequenceOf, read_as,
};
use yasna_notation_constraints::{Checked, accepts_fields};

type Parts = (
    ObjectIdentifier,
    (
        Optional<Bounded<SequenceOf<PolicyQualifierInfo>, NotEmpty>>,
        (),
    ),
);

type Fields = (ObjectIdentifier, (Option<Vec<PolicyQualifierInfo>>, ()));

type Notated = Sequence<Parts>;

/// `PolicyInformation`.
#[derive(Drop)]
pub struct PolicyInformation {
    pub policy_identifier: ObjectIdentifier,
    pub policy_qualifiers: Option<Vec<PolicyQualifierInfo>>,
}

impl Represents<Fields> for PolicyInformation {
    ghost value_of = { λ v. (v.policy_identifier, (v.policy_qualifiers, tt)) };

    fn from_value((policy_identifier, (policy_qualifiers, ())): Fields) -> PolicyInformation {
        PolicyInformation {
            policy_identifier,
            policy_qualifiers,
        }
    }
}

impl Notation for PolicyInformation {
    type Value = PolicyInformation;

    type Inner = ();

    ghost means = { represented_by ⟦<PolicyInformation as Represents<Fields>>⟧.value_of ⟦<Notated as Notation>⟧.means };

    fn has_tag(tag: Tag) -> bool {
        <Notated as Notation>::has_tag(tag)
    }

    fn read(reader: BERReader) -> ASN1Result<PolicyInformation> {
        read_as::<Notated, PolicyInformation>(reader)
    }

    fn write(value: &PolicyInformation, writer: DERWriter<'_>) -> ASN1Result<()> {
        Sequence::<Parts>::write_fields(
            (&value.policy_identifier, (&value.policy_qualifiers, ())),
            writer,
        )
    }

    fn prepend(
        value: &PolicyInformation,
        under: Option<Tag>,
        out: &mut PrependBuffer,
    ) -> ASN1Result<()> {
        Sequence::<Parts>::prepend_fields(
            (&value.policy_identifier, (&value.policy_qualifiers, ())),
            under,
            out,
        )
    }

    fn encoded_len(value: &PolicyInformation, under: Option<Tag>, mode: BERMode) -> Option<usize> {
        Sequence::<Parts>::fields_len(
            (&value.policy_identifier, (&value.policy_qualifiers, ())),
            under,
            mode,
        )
    }

    ghost lawful = { λ _. represented_lawful ⟦<PolicyInformation as Represents<Fields>>⟧.value_of (in_sequence
        (part (oid_law refl).own (optional_part refl (not_empty (in_sequence_of (policy_qualifier_info_law refl).own)).own no_parts))) };

    ghost non_empty = { λ u m v. element_non_empty _ _ _ _ };
}

impl Message for PolicyInformation {
    ghost is_unambiguous = { refl };
}

impl Checked for PolicyInformation {
    fn accepts(value: &PolicyInformation) -> bool {
        accepts_fields::<Parts, _>((&value.policy_identifier, (&value.policy_qualifiers, ())))
    }
}
