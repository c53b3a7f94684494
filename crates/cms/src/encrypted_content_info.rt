//! What is encrypted (RFC 5652, 6.1).
//!
//! ```text
//! EncryptedContentInfo ::= SEQUENCE {
//!     contentType                 ContentType,
//!     contentEncryptionAlgorithm  ContentEncryptionAlgorithmIdentifier,
//!     encryptedContent            [0] IMPLICIT EncryptedContent OPTIONAL }
//!
//! ContentType ::= OBJECT IDENTIFIER
//!
//! ContentEncryptionAlgorithmIdentifier ::= AlgorithmIdentifier
//!
//! EncryptedContent ::= OCTET STRING
//! ```
ghost use Rattle.std.specs.Prelude.{◌≡◌, ◌↔◌, IsTrue, refl};
ghost use Rattle.std.proofs.Common.{arith};
ghost use Rattle.yasna_notation.specs.Laws.{represented_lawful, element_non_empty};
ghost use Rattle.yasna_notation.specs.Making.{in_sequence, part, optional_part, in_implicit};
ghost use Rattle.yasna_notation.specs.Notation.{represented_by};
ghost use Rattle.yasna_notation.specs.Parts.{no_parts};
ghost use Rattle.yasna_notation.specs.contracts.simple.ObjectIdentifierNotation.TheImpl.Laws.{lawful-law as oid};
ghost use Rattle.yasna_notation.specs.contracts.strings.VecU8Notation.TheImpl.Laws.{lawful-law as octets};
ghost use Rattle.x509.specs.contracts.algorithm.AlgorithmIdentifierNotation.TheImpl.Laws.{lawful-law as algorithm};

use x509::AlgorithmIdentifier;
use yasna::models::ObjectIdentifier;
use yasna::tags::TAG_SEQUENCE;
use yasna::{ASN1Result, BERMode, BERReader, DERWriter, PrependBuffer, Tag};
use yasna_notation::{
    Context, Implicit, Message, Notation, Optional, Represents, Sequence, read_as,
};
use yasna_notation_constraints::{Checked, accepts_fields};

type EncryptedContent = Optional<Implicit<Context<0>, Vec<u8>>>;

type Parts = (
    ObjectIdentifier,
    (AlgorithmIdentifier, (EncryptedContent, ())),
);

type Fields = (
    ObjectIdentifier,
    (AlgorithmIdentifier, (Option<Vec<u8>>, ())),
);

/// What is encrypted: its type, the algorithm, and the octets that came of it, unless they are elsewhere.
#[derive(Drop)]
pub struct EncryptedContentInfo {
    pub content_type: ObjectIdentifier,
    pub content_encryption_algorithm: AlgorithmIdentifier,
    pub encrypted_content: Option<Vec<u8>>,
}

impl Represents<Fields> for EncryptedContentInfo {
    ghost value_of = { λ v. (v.content_type, (v.content_encryption_algorithm, (v.encrypted_content, tt))) };

    fn from_value(
        (content_type, (content_encryption_algorithm, (encrypted_content, ()))): Fields,
    ) -> EncryptedContentInfo {
        EncryptedContentInfo {
            content_type,
            content_encryption_algorithm,
            encrypted_content,
        }
    }
}

impl Notation for EncryptedContentInfo {
    type Value = EncryptedContentInfo;

    type Inner = ();

    ghost means = { represented_by ⟦<EncryptedContentInfo as Represents<Fields>>⟧.value_of ⟦<Sequence<Parts> as Notation>⟧.means };

    fn has_tag(tag: Tag) -> bool {
        tag == TAG_SEQUENCE
    }

    fn read(reader: BERReader) -> ASN1Result<EncryptedContentInfo> {
        read_as::<Sequence<Parts>, EncryptedContentInfo>(reader)
    }

    fn write(value: &EncryptedContentInfo, writer: DERWriter<'_>) -> ASN1Result<()> {
        Sequence::<Parts>::write_fields(
            (
                &value.content_type,
                (
                    &value.content_encryption_algorithm,
                    (&value.encrypted_content, ()),
                ),
            ),
            writer,
        )
    }

    fn prepend(
        value: &EncryptedContentInfo,
        under: Option<Tag>,
        out: &mut PrependBuffer,
    ) -> ASN1Result<()> {
        Sequence::<Parts>::prepend_fields(
            (
                &value.content_type,
                (
                    &value.content_encryption_algorithm,
                    (&value.encrypted_content, ()),
                ),
            ),
            under,
            out,
        )
    }

    fn encoded_len(
        value: &EncryptedContentInfo,
        under: Option<Tag>,
        mode: BERMode,
    ) -> Option<usize> {
        Sequence::<Parts>::fields_len(
            (
                &value.content_type,
                (
                    &value.content_encryption_algorithm,
                    (&value.encrypted_content, ()),
                ),
            ),
            under,
            mode,
        )
    }

    ghost lawful = { λ _. represented_lawful ⟦<EncryptedContentInfo as Represents<Fields>>⟧.value_of
        (in_sequence (part (oid refl).own (part (algorithm refl).own (optional_part refl (in_implicit 0 (omega arith) (octets refl)).own no_parts)))) };

    ghost non_empty = { λ u m v. element_non_empty _ _ _ _ };
}

impl Message for EncryptedContentInfo {
    ghost is_unambiguous = { refl };
}

impl Checked for EncryptedContentInfo {
    fn accepts(value: &EncryptedContentInfo) -> bool {
        accepts_fields::<Parts, _>((
            &value.content_type,
            (
                &value.content_encryption_algorithm,
                (&value.encrypted_content, ()),
            ),
        ))
    }
}
