//! Encrypted contents, for some who receive them (RFC 5652, 6.1).
//!
//! ```text
//! EnvelopedData ::= SEQUENCE {
//!     version               CMSVersion,
//!     originatorInfo        [0] IMPLICIT OriginatorInfo OPTIONAL,
//!     recipientInfos        RecipientInfos,
//!     encryptedContentInfo  EncryptedContentInfo,
//!     unprotectedAttrs      [1] IMPLICIT UnprotectedAttributes OPTIONAL }
//!
//! CMSVersion ::= INTEGER { v0(0), v1(1), v2(2), v3(3), v4(4), v5(5) }
//!
//! RecipientInfos ::= SET SIZE (1..MAX) OF RecipientInfo
//! ```
//!
//! An OriginatorInfo is a SEQUENCE. Its parts are kept as they came, and so is each RecipientInfo.
ghost use Rattle.std.specs.Prelude.{◌≡◌, ◌↔◌, IsTrue, refl};
ghost use Rattle.std.proofs.Common.{arith};
ghost use Rattle.yasna_notation.specs.Laws.{represented_lawful, element_non_empty};
ghost use Rattle.yasna_notation.specs.Making.{in_sequence, in_sequence_of, in_set_of, part, optional_part, in_implicit, at_most, set_not_empty};
ghost use Rattle.yasna_notation.specs.Notation.{represented_by};
ghost use Rattle.yasna_notation.specs.Parts.{no_parts};
ghost use Rattle.yasna_notation.specs.contracts.simple.U64Notation.TheImpl.Laws.{lawful-law as number};
ghost use Rattle.yasna_notation.specs.contracts.any.TaggedDerValueNotation.TheImpl.Laws.{lawful-law as any};
ghost use Rattle.cms.specs.contracts.encrypted_content_info.EncryptedContentInfoNotation.TheImpl.Laws.{lawful-law as encrypted};
ghost use Rattle.cms.specs.contracts.attributes.AttributesNotation.TheImpl.Laws.{lawful-law as attributes};

use crate::attributes::Attributes;
use crate::encrypted_content_info::EncryptedContentInfo;
use yasna::models::TaggedDerValue;
use yasna::tags::TAG_SEQUENCE;
use yasna::{ASN1Result, BERMode, BERReader, DERWriter, PrependBuffer, Tag};
use yasna_notation::{
    AtMost, Bounded, Context, Implicit, Message, NotEmpty, Notation, Optional, Represents,
    Sequence, SequenceOf, SetOf, read_as,
};
use yasna_notation_constraints::{Checked, accepts_fields};

type Version = Bounded<u64, AtMost<5>>;

type OriginatorInfo = Optional<Implicit<Context<0>, SequenceOf<TaggedDerValue>>>;

type RecipientInfos = Bounded<SetOf<TaggedDerValue>, NotEmpty>;

type UnprotectedAttributes = Optional<Implicit<Context<1>, Attributes>>;

type Ends = (EncryptedContentInfo, (UnprotectedAttributes, ()));

type Parts = (Version, (OriginatorInfo, (RecipientInfos, Ends)));

type EndFields = (EncryptedContentInfo, (Option<Attributes>, ()));

type Fields = (
    u64,
    (
        Option<Vec<TaggedDerValue>>,
        (Vec<TaggedDerValue>, EndFields),
    ),
);

/// Encrypted contents, and for each who receives them what gives the key.
#[derive(Drop)]
pub struct EnvelopedData {
    /// From 0 to 5.
    pub version: u64,
    pub originator_info: Option<Vec<TaggedDerValue>>,
    /// One or more. They are in no order.
    pub recipient_infos: Vec<TaggedDerValue>,
    pub encrypted_content_info: EncryptedContentInfo,
    pub unprotected_attrs: Option<Attributes>,
}

impl Represents<Fields> for EnvelopedData {
    ghost value_of = { λ v. (v.version, (v.originator_info, (v.recipient_infos, (v.encrypted_content_info, (v.unprotected_attrs, tt))))) };

    fn from_value(
        (
            version,
            (originator_info, (recipient_infos, (encrypted_content_info, (unprotected_attrs, ())))),
        ): Fields,
    ) -> EnvelopedData {
        EnvelopedData {
            version,
            originator_info,
            recipient_infos,
            encrypted_content_info,
            unprotected_attrs,
        }
    }
}

impl Notation for EnvelopedData {
    type Value = EnvelopedData;

    type Inner = ();

    ghost means = { represented_by ⟦<EnvelopedData as Represents<Fields>>⟧.value_of ⟦<Sequence<Parts> as Notation>⟧.means };

    fn has_tag(tag: Tag) -> bool {
        tag == TAG_SEQUENCE
    }

    fn read(reader: BERReader) -> ASN1Result<EnvelopedData> {
        read_as::<Sequence<Parts>, EnvelopedData>(reader)
    }

    fn write(value: &EnvelopedData, writer: DERWriter<'_>) -> ASN1Result<()> {
        Sequence::<Parts>::write_fields(
            (
                &value.version,
                (
                    &value.originator_info,
                    (
                        &value.recipient_infos,
                        (
                            &value.encrypted_content_info,
                            (&value.unprotected_attrs, ()),
                        ),
                    ),
                ),
            ),
            writer,
        )
    }

    fn prepend(
        value: &EnvelopedData,
        under: Option<Tag>,
        out: &mut PrependBuffer,
    ) -> ASN1Result<()> {
        Sequence::<Parts>::prepend_fields(
            (
                &value.version,
                (
                    &value.originator_info,
                    (
                        &value.recipient_infos,
                        (
                            &value.encrypted_content_info,
                            (&value.unprotected_attrs, ()),
                        ),
                    ),
                ),
            ),
            under,
            out,
        )
    }

    fn encoded_len(value: &EnvelopedData, under: Option<Tag>, mode: BERMode) -> Option<usize> {
        Sequence::<Parts>::fields_len(
            (
                &value.version,
                (
                    &value.originator_info,
                    (
                        &value.recipient_infos,
                        (
                            &value.encrypted_content_info,
                            (&value.unprotected_attrs, ()),
                        ),
                    ),
                ),
            ),
            under,
            mode,
        )
    }

    ghost lawful = { λ _. represented_lawful ⟦<EnvelopedData as Represents<Fields>>⟧.value_of
        (in_sequence (part (at_most 5 (number refl)).own (optional_part refl (in_implicit 0 (omega arith) (in_sequence_of (any refl).own)).own
        (part (set_not_empty (in_set_of (any refl).own)).own
        (part (encrypted refl).own (optional_part refl (in_implicit 1 (omega arith) (attributes refl)).own no_parts)))))) };

    ghost non_empty = { λ u m v. element_non_empty _ _ _ _ };
}

impl Message for EnvelopedData {
    ghost is_unambiguous = { refl };
}

impl Checked for EnvelopedData {
    fn accepts(value: &EnvelopedData) -> bool {
        accepts_fields::<Parts, _>((
            &value.version,
            (
                &value.originator_info,
                (
                    &value.recipient_infos,
                    (
                        &value.encrypted_content_info,
                        (&value.unprotected_attrs, ()),
                    ),
                ),
            ),
        ))
    }
}
