//! `PolicyQualifierInfo` of the module PKIX1Implicit88.
//!
//! ```text
//! PolicyQualifierInfo ::= SEQUENCE {
//!     policyQualifierId  PolicyQualifierId,
//!     qualifier          ANY DEFINED BY policyQualifierId }
//! ```
ghost use Rattle.std.specs.Prelude.{◌≡◌, ◌↔◌, IsTrue, refl};
ghost use Rattle.yasna_notation.specs.Laws.{element_non_empty, represented_lawful};
ghost use Rattle.yasna_notation.specs.Making.{in_sequence, part};
ghost use Rattle.yasna_notation.specs.Notation.{represented_by};
ghost use Rattle.yasna_notation.specs.Parts.{no_parts};
ghost use Rattle.yasna_notation.specs.contracts.simple.ObjectIdentifierNotation.TheImpl.Laws.{lawful-law as oid_law};
ghost use Rattle.yasna_notation.specs.contracts.any.TaggedDerValueNotation.TheImpl.Laws.{lawful-law as any_law};

use yasna::models::{ObjectIdentifier, TaggedDerValue};
use yasna::{ASN1Result, BERMode, BERReader, DERWriter, PrependBuffer, Tag};
use yasna_notation::{Message, Notation, Represents, Sequence, read_as};
use yasna_notation_constraints::{Checked, accepts_fields};

type Parts = (ObjectIdentifier, (TaggedDerValue, ()));

type Fields = (ObjectIdentifier, (TaggedDerValue, ()));

type Notated = Sequence<Parts>;

/// `PolicyQualifierInfo`.
#[derive(Drop)]
pub struct PolicyQualifierInfo {
    pub policy_qualifier_id: ObjectIdentifier,
    pub qualifier: TaggedDerValue,
}

impl Represents<Fields> for PolicyQualifierInfo {
    ghost value_of = { λ v. (v.policy_qualifier_id, (v.qualifier, tt)) };

    fn from_value((policy_qualifier_id, (qualifier, ())): Fields) -> PolicyQualifierInfo {
        PolicyQualifierInfo {
            policy_qualifier_id,
            qualifier,
        }
    }
}

impl Notation for PolicyQualifierInfo {
    type Value = PolicyQualifierInfo;

    type Inner = ();

    ghost means = { represented_by ⟦<PolicyQualifierInfo as Represents<Fields>>⟧.value_of ⟦<Notated as Notation>⟧.means };

    fn has_tag(tag: Tag) -> bool {
        <Notated as Notation>::has_tag(tag)
    }

    fn read(reader: BERReader) -> ASN1Result<PolicyQualifierInfo> {
        read_as::<Notated, PolicyQualifierInfo>(reader)
    }

    fn write(value: &PolicyQualifierInfo, writer: DERWriter<'_>) -> ASN1Result<()> {
        Sequence::<Parts>::write_fields(
            (&value.policy_qualifier_id, (&value.qualifier, ())),
            writer,
        )
    }

    fn prepend(
        value: &PolicyQualifierInfo,
        under: Option<Tag>,
        out: &mut PrependBuffer,
    ) -> ASN1Result<()> {
        Sequence::<Parts>::prepend_fields(
            (&value.policy_qualifier_id, (&value.qualifier, ())),
            under,
            out,
        )
    }

    fn encoded_len(
        value: &PolicyQualifierInfo,
        under: Option<Tag>,
        mode: BERMode,
    ) -> Option<usize> {
        Sequence::<Parts>::fields_len(
            (&value.policy_qualifier_id, (&value.qualifier, ())),
            under,
            mode,
        )
    }

    ghost lawful = { λ _. represented_lawful ⟦<PolicyQualifierInfo as Represents<Fields>>⟧.value_of (in_sequence
        (part (oid_law refl).own (part (any_law refl).own no_parts))) };

    ghost non_empty = { λ u m v. element_non_empty _ _ _ _ };
}

impl Message for PolicyQualifierInfo {
    ghost is_unambiguous = { refl };
}

impl Checked for PolicyQualifierInfo {
    fn accepts(value: &PolicyQualifierInfo) -> bool {
        accepts_fields::<Parts, _>((&value.policy_qualifier_id, (&value.qualifier, ())))
    }
}
