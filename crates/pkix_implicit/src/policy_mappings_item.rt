//! `PolicyMappings.item` of the module PKIX1Implicit88.
//!
//! ```text
//! PolicyMappings ::= SEQUENCE SIZE (1..MAX) OF SEQUENCE {
//!     issuerDomainPolicy   CertPolicyId,
//!     subjectDomainPolicy  CertPolicyId }
//! ```
ghost use Rattle.std.specs.Prelude.{◌≡◌, ◌↔◌, IsTrue, refl};
ghost use Rattle.yasna_notation.specs.Canonical.{represented_written};
ghost use Rattle.yasna_notation.specs.Laws.{element_non_empty, represented_lawful};
ghost use Rattle.yasna_notation.specs.Making.{in_sequence, part};
ghost use Rattle.yasna_notation.specs.Notation.{represented_by};
ghost use Rattle.yasna_notation.specs.Parts.{no_parts};
ghost use Rattle.yasna_notation.specs.Writing.{no_part_written, part_written, sequence_written};
ghost use Rattle.yasna_notation.specs.contracts.simple.ObjectIdentifierNotation.TheImpl.Laws.{lawful-law as oid_law};
ghost use Rattle.yasna_notation.specs.contracts.canonical.ObjectIdentifierCanonicalNotation.TheImpl.Laws.{written-law as oid_written};

use crate::policy_mappings::PolicyMappings;
use yasna::models::ObjectIdentifier;
use yasna::{ASN1Result, BERMode, BERReader, DERWriter, PrependBuffer, Tag};
use yasna_notation::{CanonicalNotation, Message, Notation, Represents, Sequence, read_as};
use yasna_notation_constraints::{Checked, accepts_fields};

type Parts = (ObjectIdentifier, (ObjectIdentifier, ()));

type Fields = (ObjectIdentifier, (ObjectIdentifier, ()));

type Notated = Sequence<Parts>;

/// `PolicyMappings.item`.
#[derive(Drop)]
pub struct PolicyMappingsItem {
    pub issuer_domain_policy: ObjectIdentifier,
    pub subject_domain_policy: ObjectIdentifier,
}

impl Represents<Fields> for PolicyMappingsItem {
    ghost value_of = { λ v. (v.issuer_domain_policy, (v.subject_domain_policy, tt)) };

    fn from_value(
        (issuer_domain_policy, (subject_domain_policy, ())): Fields,
    ) -> PolicyMappingsItem {
        PolicyMappingsItem {
            issuer_domain_policy,
            subject_domain_policy,
        }
    }
}

impl Notation for PolicyMappingsItem {
    type Value = PolicyMappingsItem;

    type Inner = ();

    ghost means = { represented_by ⟦<PolicyMappingsItem as Represents<Fields>>⟧.value_of ⟦<Notated as Notation>⟧.means };

    fn has_tag(tag: Tag) -> bool {
        <Notated as Notation>::has_tag(tag)
    }

    fn read(reader: BERReader) -> ASN1Result<PolicyMappingsItem> {
        read_as::<Notated, PolicyMappingsItem>(reader)
    }

    fn write(value: &PolicyMappingsItem, writer: DERWriter<'_>) -> ASN1Result<()> {
        Sequence::<Parts>::write_fields(
            (
                &value.issuer_domain_policy,
                (&value.subject_domain_policy, ()),
            ),
            writer,
        )
    }

    fn prepend(
        value: &PolicyMappingsItem,
        under: Option<Tag>,
        out: &mut PrependBuffer,
    ) -> ASN1Result<()> {
        Sequence::<Parts>::prepend_fields(
            (
                &value.issuer_domain_policy,
                (&value.subject_domain_policy, ()),
            ),
            under,
            out,
        )
    }

    fn encoded_len(value: &PolicyMappingsItem, under: Option<Tag>, mode: BERMode) -> Option<usize> {
        Sequence::<Parts>::fields_len(
            (
                &value.issuer_domain_policy,
                (&value.subject_domain_policy, ()),
            ),
            under,
            mode,
        )
    }

    ghost lawful = { λ _. represented_lawful ⟦<PolicyMappingsItem as Represents<Fields>>⟧.value_of (in_sequence
        (part (oid_law refl).own (part (oid_law refl).own no_parts))) };

    ghost non_empty = { λ u m v. element_non_empty _ _ _ _ };
}

impl Message for PolicyMappingsItem {
    ghost is_unambiguous = { refl };
}

impl CanonicalNotation for PolicyMappingsItem {
    ghost written = { λ _. represented_written ⟦<PolicyMappingsItem as Represents<Fields>>⟧.value_of (sequence_written
        (part_written (oid_written refl).own (part_written (oid_written refl).own no_part_written))) };
}

impl Checked for PolicyMappingsItem {
    fn accepts(value: &PolicyMappingsItem) -> bool {
        accepts_fields::<Parts, _>((
            &value.issuer_domain_policy,
            (&value.subject_domain_policy, ()),
        ))
    }
}
