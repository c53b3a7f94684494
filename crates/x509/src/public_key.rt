//! Public keys (RFC 5280, 4.1.2.7).
//!
//! ```text
//! SubjectPublicKeyInfo ::= SEQUENCE {
//!     algorithm         AlgorithmIdentifier,
//!     subjectPublicKey  BIT STRING }
//! ```
ghost use Rattle.std.specs.Prelude.{◌≡◌, ◌↔◌, IsTrue, refl};
ghost use Rattle.yasna_notation.specs.Laws.{represented_lawful, element_non_empty};
ghost use Rattle.yasna_notation.specs.Making.{in_sequence, part};
ghost use Rattle.yasna_notation.specs.Notation.{represented_by};
ghost use Rattle.yasna_notation.specs.Parts.{no_parts};
ghost use Rattle.yasna_notation.specs.contracts.strings.BitStringNotation.TheImpl.Laws.{lawful-law as bits};
ghost use Rattle.x509.specs.contracts.algorithm.AlgorithmIdentifierNotation.TheImpl.Laws.{lawful-law as algorithm};

use crate::algorithm::AlgorithmIdentifier;
use yasna::tags::TAG_SEQUENCE;
use yasna::{ASN1Result, BERMode, BERReader, DERWriter, PrependBuffer, Tag};
use yasna_notation::{BitString, Message, Notation, Represents, Sequence, read_as};
use yasna_notation_constraints::{Checked, accepts_fields};

type Parts = (AlgorithmIdentifier, (BitString, ()));

type Fields = (AlgorithmIdentifier, ((Vec<u8>, usize), ()));

/// A public key: its bits, as octets and a count, and the algorithm that it is for.
#[derive(Drop)]
pub struct SubjectPublicKeyInfo {
    pub algorithm: AlgorithmIdentifier,
    pub subject_public_key: (Vec<u8>, usize),
}

impl Represents<Fields> for SubjectPublicKeyInfo {
    ghost value_of = { λ v. (v.algorithm, (v.subject_public_key, tt)) };

    fn from_value((algorithm, (subject_public_key, ())): Fields) -> SubjectPublicKeyInfo {
        SubjectPublicKeyInfo {
            algorithm,
            subject_public_key,
        }
    }
}

impl Notation for SubjectPublicKeyInfo {
    type Value = SubjectPublicKeyInfo;

    type Inner = ();

    ghost means = { represented_by ⟦<SubjectPublicKeyInfo as Represents<Fields>>⟧.value_of ⟦<Sequence<Parts> as Notation>⟧.means };

    fn has_tag(tag: Tag) -> bool {
        tag == TAG_SEQUENCE
    }

    fn read(reader: BERReader) -> ASN1Result<SubjectPublicKeyInfo> {
        read_as::<Sequence<Parts>, SubjectPublicKeyInfo>(reader)
    }

    fn write(value: &SubjectPublicKeyInfo, writer: DERWriter<'_>) -> ASN1Result<()> {
        Sequence::<Parts>::write_fields((&value.algorithm, (&value.subject_public_key, ())), writer)
    }

    fn prepend(
        value: &SubjectPublicKeyInfo,
        under: Option<Tag>,
        out: &mut PrependBuffer,
    ) -> ASN1Result<()> {
        Sequence::<Parts>::prepend_fields(
            (&value.algorithm, (&value.subject_public_key, ())),
            under,
            out,
        )
    }

    fn encoded_len(
        value: &SubjectPublicKeyInfo,
        under: Option<Tag>,
        mode: BERMode,
    ) -> Option<usize> {
        Sequence::<Parts>::fields_len(
            (&value.algorithm, (&value.subject_public_key, ())),
            under,
            mode,
        )
    }

    ghost lawful = { λ _. represented_lawful ⟦<SubjectPublicKeyInfo as Represents<Fields>>⟧.value_of (in_sequence (part (algorithm refl).own
        (part (bits refl).own no_parts))) };

    ghost non_empty = { λ u m v. element_non_empty _ _ _ _ };
}

impl Message for SubjectPublicKeyInfo {
    ghost is_unambiguous = { refl };
}

impl Checked for SubjectPublicKeyInfo {
    fn accepts(value: &SubjectPublicKeyInfo) -> bool {
        accepts_fields::<Parts, _>((&value.algorithm, (&value.subject_public_key, ())))
    }
}
