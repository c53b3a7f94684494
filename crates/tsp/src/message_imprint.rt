//! `MessageImprint` of the module PKIXTSP.
//!
//! ```text
//! MessageImprint ::= SEQUENCE {
//!     hashAlgorithm  AlgorithmIdentifier,
//!     hashedMessage  OCTET STRING }
//! ```
ghost use Rattle.std.specs.Prelude.{◌≡◌, ◌↔◌, IsTrue, refl};
ghost use Rattle.yasna_notation.specs.Laws.{element_non_empty, represented_lawful};
ghost use Rattle.yasna_notation.specs.Making.{in_sequence, part};
ghost use Rattle.yasna_notation.specs.Notation.{represented_by};
ghost use Rattle.yasna_notation.specs.Parts.{no_parts};
ghost use Rattle.yasna_notation.specs.contracts.strings.VecU8Notation.TheImpl.Laws.{lawful-law as octets_law};
ghost use Rattle.x509.specs.contracts.algorithm.AlgorithmIdentifierNotation.TheImpl.Laws.{lawful-law as x509_algorithm_law};

use x509::AlgorithmIdentifier;
use yasna::{ASN1Result, BERMode, BERReader, DERWriter, PrependBuffer, Tag};
use yasna_notation::{Message, Notation, Represents, Sequence, read_as};
use yasna_notation_constraints::{Checked, accepts_fields};

type Parts = (AlgorithmIdentifier, (Vec<u8>, ()));

type Fields = (AlgorithmIdentifier, (Vec<u8>, ()));

type Notated = Sequence<Parts>;

/// `MessageImprint`.
#[derive(Drop)]
pub struct MessageImprint {
    pub hash_algorithm: AlgorithmIdentifier,
    pub hashed_message: Vec<u8>,
}

impl Represents<Fields> for MessageImprint {
    ghost value_of = { λ v. (v.hash_algorithm, (v.hashed_message, tt)) };

    fn from_value((hash_algorithm, (hashed_message, ())): Fields) -> MessageImprint {
        MessageImprint {
            hash_algorithm,
            hashed_message,
        }
    }
}

impl Notation for MessageImprint {
    type Value = MessageImprint;

    type Inner = ();

    ghost means = { represented_by ⟦<MessageImprint as Represents<Fields>>⟧.value_of ⟦<Notated as Notation>⟧.means };

    fn has_tag(tag: Tag) -> bool {
        <Notated as Notation>::has_tag(tag)
    }

    fn read(reader: BERReader) -> ASN1Result<MessageImprint> {
        read_as::<Notated, MessageImprint>(reader)
    }

    fn write(value: &MessageImprint, writer: DERWriter<'_>) -> ASN1Result<()> {
        Sequence::<Parts>::write_fields(
            (&value.hash_algorithm, (&value.hashed_message, ())),
            writer,
        )
    }

    fn prepend(
        value: &MessageImprint,
        under: Option<Tag>,
        out: &mut PrependBuffer,
    ) -> ASN1Result<()> {
        Sequence::<Parts>::prepend_fields(
            (&value.hash_algorithm, (&value.hashed_message, ())),
            under,
            out,
        )
    }

    fn encoded_len(value: &MessageImprint, under: Option<Tag>, mode: BERMode) -> Option<usize> {
        Sequence::<Parts>::fields_len(
            (&value.hash_algorithm, (&value.hashed_message, ())),
            under,
            mode,
        )
    }

    ghost lawful = { λ _. represented_lawful ⟦<MessageImprint as Represents<Fields>>⟧.value_of (in_sequence
        (part (x509_algorithm_law refl).own (part (octets_law refl).own no_parts))) };

    ghost non_empty = { λ u m v. element_non_empty _ _ _ _ };
}

impl Message for MessageImprint {
    ghost is_unambiguous = { refl };
}

impl Checked for MessageImprint {
    fn accepts(value: &MessageImprint) -> bool {
        accepts_fields::<Parts, _>((&value.hash_algorithm, (&value.hashed_message, ())))
    }
}
