//! What is signed (RFC 5652, 5.2).
//!
//! ```text
//! EncapsulatedContentInfo ::= SEQUENCE {
//!     eContentType  ContentType,
//!     eContent      [0] EXPLICIT OCTET STRING OPTIONAL }
//!
//! ContentType ::= OBJECT IDENTIFIER
//! ```
ghost use Rattle.std.specs.Prelude.{◌≡◌, ◌↔◌, IsTrue, refl};
ghost use Rattle.std.proofs.Common.{arith};
ghost use Rattle.yasna_notation.specs.Laws.{represented_lawful, element_non_empty};
ghost use Rattle.yasna_notation.specs.Making.{in_sequence, part, optional_part, in_explicit};
ghost use Rattle.yasna_notation.specs.Notation.{represented_by};
ghost use Rattle.yasna_notation.specs.Parts.{no_parts};
ghost use Rattle.yasna_notation.specs.contracts.simple.ObjectIdentifierNotation.TheImpl.Laws.{lawful-law as oid};
ghost use Rattle.yasna_notation.specs.contracts.strings.VecU8Notation.TheImpl.Laws.{lawful-law as octets};

use yasna::models::ObjectIdentifier;
use yasna::tags::TAG_SEQUENCE;
use yasna::{ASN1Result, BERMode, BERReader, DERWriter, PrependBuffer, Tag};
use yasna_notation::{
    Context, Explicit, Message, Notation, Optional, Represents, Sequence, read_as,
};
use yasna_notation_constraints::{Checked, accepts_fields};

type EContent = Optional<Explicit<Context<0>, Vec<u8>>>;

type Parts = (ObjectIdentifier, (EContent, ()));

type Fields = (ObjectIdentifier, (Option<Vec<u8>>, ()));

/// What is signed: its type, and the octets that hold it. They are omitted where the content is elsewhere, or there is none.
#[derive(Drop)]
pub struct EncapsulatedContentInfo {
    pub e_content_type: ObjectIdentifier,
    pub e_content: Option<Vec<u8>>,
}

impl Represents<Fields> for EncapsulatedContentInfo {
    ghost value_of = { λ v. (v.e_content_type, (v.e_content, tt)) };

    fn from_value((e_content_type, (e_content, ())): Fields) -> EncapsulatedContentInfo {
        EncapsulatedContentInfo {
            e_content_type,
            e_content,
        }
    }
}

impl Notation for EncapsulatedContentInfo {
    type Value = EncapsulatedContentInfo;

    type Inner = ();

    ghost means = { represented_by ⟦<EncapsulatedContentInfo as Represents<Fields>>⟧.value_of ⟦<Sequence<Parts> as Notation>⟧.means };

    fn has_tag(tag: Tag) -> bool {
        tag == TAG_SEQUENCE
    }

    fn read(reader: BERReader) -> ASN1Result<EncapsulatedContentInfo> {
        read_as::<Sequence<Parts>, EncapsulatedContentInfo>(reader)
    }

    fn write(value: &EncapsulatedContentInfo, writer: DERWriter<'_>) -> ASN1Result<()> {
        Sequence::<Parts>::write_fields((&value.e_content_type, (&value.e_content, ())), writer)
    }

    fn prepend(
        value: &EncapsulatedContentInfo,
        under: Option<Tag>,
        out: &mut PrependBuffer,
    ) -> ASN1Result<()> {
        Sequence::<Parts>::prepend_fields(
            (&value.e_content_type, (&value.e_content, ())),
            under,
            out,
        )
    }

    fn encoded_len(
        value: &EncapsulatedContentInfo,
        under: Option<Tag>,
        mode: BERMode,
    ) -> Option<usize> {
        Sequence::<Parts>::fields_len((&value.e_content_type, (&value.e_content, ())), under, mode)
    }

    ghost lawful = { λ _. represented_lawful ⟦<EncapsulatedContentInfo as Represents<Fields>>⟧.value_of
        (in_sequence (part (oid refl).own (optional_part refl (in_explicit 0 (omega arith) (octets refl).own).own no_parts))) };

    ghost non_empty = { λ u m v. element_non_empty _ _ _ _ };
}

impl Message for EncapsulatedContentInfo {
    ghost is_unambiguous = { refl };
}

impl Checked for EncapsulatedContentInfo {
    fn accepts(value: &EncapsulatedContentInfo) -> bool {
        accepts_fields::<Parts, _>((&value.e_content_type, (&value.e_content, ())))
    }
}
