//! `ResponseBytes` of the module OCSP.
//!
//! ```text
//! ResponseBytes ::= SEQUENCE {
//!     responseType  OBJECT IDENTIFIER,
//!     response      OCTET STRING }
//! ```
ghost use Rattle.std.specs.Prelude.{◌≡◌, ◌↔◌, IsTrue, refl};
ghost use Rattle.yasna_notation.specs.Canonical.{represented_written};
ghost use Rattle.yasna_notation.specs.Laws.{element_non_empty, represented_lawful};
ghost use Rattle.yasna_notation.specs.Making.{in_sequence, part};
ghost use Rattle.yasna_notation.specs.Notation.{represented_by};
ghost use Rattle.yasna_notation.specs.Parts.{no_parts};
ghost use Rattle.yasna_notation.specs.Writing.{no_part_written, part_written, sequence_written};
ghost use Rattle.yasna_notation.specs.contracts.simple.ObjectIdentifierNotation.TheImpl.Laws.{lawful-law as oid_law};
ghost use Rattle.yasna_notation.specs.contracts.canonical.ObjectIdentifierCanonicalNotation.TheImpl.Laws.{written-law as oid_written};
ghost use Rattle.yasna_notation.specs.contracts.strings.VecU8Notation.TheImpl.Laws.{lawful-law as octets_law};
ghost use Rattle.yasna_notation.specs.contracts.canonical.VecU8CanonicalNotation.TheImpl.Laws.{written-law as octets_written};

use yasna::models::ObjectIdentifier;
use yasna::{ASN1Result, BERMode, BERReader, DERWriter, PrependBuffer, Tag};
use yasna_notation::{CanonicalNotation, Message, Notation, Represents, Sequence, read_as};
use yasna_notation_constraints::{Checked, accepts_fields};

type Parts = (ObjectIdentifier, (Vec<u8>, ()));

type Fields = (ObjectIdentifier, (Vec<u8>, ()));

type Notated = Sequence<Parts>;

/// `ResponseBytes`.
#[derive(Drop)]
pub struct ResponseBytes {
    pub response_type: ObjectIdentifier,
    pub response: Vec<u8>,
}

impl Represents<Fields> for ResponseBytes {
    ghost value_of = { λ v. (v.response_type, (v.response, tt)) };

    fn from_value((response_type, (response, ())): Fields) -> ResponseBytes {
        ResponseBytes {
            response_type,
            response,
        }
    }
}

impl Notation for ResponseBytes {
    type Value = ResponseBytes;

    type Inner = ();

    ghost means = { represented_by ⟦<ResponseBytes as Represents<Fields>>⟧.value_of ⟦<Notated as Notation>⟧.means };

    fn has_tag(tag: Tag) -> bool {
        <Notated as Notation>::has_tag(tag)
    }

    fn read(reader: BERReader) -> ASN1Result<ResponseBytes> {
        read_as::<Notated, ResponseBytes>(reader)
    }

    fn write(value: &ResponseBytes, writer: DERWriter<'_>) -> ASN1Result<()> {
        Sequence::<Parts>::write_fields((&value.response_type, (&value.response, ())), writer)
    }

    fn prepend(
        value: &ResponseBytes,
        under: Option<Tag>,
        out: &mut PrependBuffer,
    ) -> ASN1Result<()> {
        Sequence::<Parts>::prepend_fields((&value.response_type, (&value.response, ())), under, out)
    }

    fn encoded_len(value: &ResponseBytes, under: Option<Tag>, mode: BERMode) -> Option<usize> {
        Sequence::<Parts>::fields_len((&value.response_type, (&value.response, ())), under, mode)
    }

    ghost lawful = { λ _. represented_lawful ⟦<ResponseBytes as Represents<Fields>>⟧.value_of (in_sequence
        (part (oid_law refl).own (part (octets_law refl).own no_parts))) };

    ghost non_empty = { λ u m v. element_non_empty _ _ _ _ };
}

impl Message for ResponseBytes {
    ghost is_unambiguous = { refl };
}

impl CanonicalNotation for ResponseBytes {
    ghost written = { λ _. represented_written ⟦<ResponseBytes as Represents<Fields>>⟧.value_of (sequence_written
        (part_written (oid_written refl).own (part_written (octets_written refl).own no_part_written))) };
}

impl Checked for ResponseBytes {
    fn accepts(value: &ResponseBytes) -> bool {
        accepts_fields::<Parts, _>((&value.response_type, (&value.response, ())))
    }
}
