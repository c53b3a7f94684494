//! `PolicyMappings` of the module PKIX1Implicit88.
//!
//! ```text
//! PolicyMappings ::= SEQUENCE SIZE (1..MAX) OF SEQUENCE {
//!     issuerDomainPolicy   CertPolicyId,
//!     subjectDomainPolicy  CertPolicyId }
//! ```
ghost use Rattle.std.specs.Prelude.{◌≡◌, ◌↔◌, IsTrue, refl};
ghost use Rattle.yasna_notation.specs.Canonical.{represented_written};
ghost use Rattle.yasna_notation.specs.Laws.{element_non_empty, represented_lawful};
ghost use Rattle.yasna_notation.specs.Making.{in_sequence_of, not_empty};
ghost use Rattle.yasna_notation.specs.Notation.{represented_by};
ghost use Rattle.yasna_notation.specs.Writing.{non_empty_list_written, sequence_of_written};
ghost use Rattle.pkix_implicit.specs.contracts.policy_mappings_item.PolicyMappingsItemNotation.TheImpl.Laws.{lawful-law as policy_mappings_item_law};
ghost use Rattle.pkix_implicit.specs.contracts.policy_mappings_item.PolicyMappingsItemCanonicalNotation.TheImpl.Laws.{written-law as policy_mappings_item_written};

use crate::policy_mappings_item::PolicyMappingsItem;
use yasna::{ASN1Result, BERMode, BERReader, DERWriter, PrependBuffer, Tag};
use yasna_notation::{
    Bounded, CanonicalNotation, Message, NotEmpty, Notation, Represents, SequenceOf, read_as,
};
use yasna_notation_constraints::Checked;

type Notated = Bounded<SequenceOf<PolicyMappingsItem>, NotEmpty>;

/// `PolicyMappings`.
#[derive(Drop)]
pub struct PolicyMappings {
    pub items: Vec<PolicyMappingsItem>,
}

impl Represents<Vec<PolicyMappingsItem>> for PolicyMappings {
    ghost value_of = { λ v. v.items };

    fn from_value(items: Vec<PolicyMappingsItem>) -> PolicyMappings {
        PolicyMappings { items }
    }
}

impl Notation for PolicyMappings {
    type Value = PolicyMappings;

    type Inner = ();

    ghost means = { represented_by ⟦<PolicyMappings as Represents<Vec<PolicyMappingsItem>>>⟧.value_of ⟦<Notated as Notation>⟧.means };

    fn has_tag(tag: Tag) -> bool {
        <Notated as Notation>::has_tag(tag)
    }

    fn read(reader: BERReader) -> ASN1Result<PolicyMappings> {
        read_as::<Notated, PolicyMappings>(reader)
    }

    fn write(value: &PolicyMappings, writer: DERWriter<'_>) -> ASN1Result<()> {
        <Notated as Notation>::write(&value.items, writer)
    }

    fn prepend(
        value: &PolicyMappings,
        under: Option<Tag>,
        out: &mut PrependBuffer,
    ) -> ASN1Result<()> {
        <Notated as Notation>::prepend(&value.items, under, out)
    }

    fn encoded_len(value: &PolicyMappings, under: Option<Tag>, mode: BERMode) -> Option<usize> {
        <Notated as Notation>::encoded_len(&value.items, under, mode)
    }

    ghost lawful = { λ _. represented_lawful ⟦<PolicyMappings as Represents<Vec<PolicyMappingsItem>>>⟧.value_of (not_empty (in_sequence_of
        (policy_mappings_item_law refl).own)) };

    ghost non_empty = { λ u m v. element_non_empty _ _ _ _ };
}

impl Message for PolicyMappings {
    ghost is_unambiguous = { refl };
}

impl CanonicalNotation for PolicyMappings {
    ghost written = { λ _. represented_written ⟦<PolicyMappings as Represents<Vec<PolicyMappingsItem>>>⟧.value_of (non_empty_list_written
        (sequence_of_written (policy_mappings_item_written refl).own)) };
}

impl Checked for PolicyMappings {
    fn accepts(value: &PolicyMappings) -> bool {
        <Notated as Checked>::accepts(&value.items)
    }
}
