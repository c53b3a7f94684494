//! `CertID` of the module OCSP.
//!
//! ```text
//! CertID ::= SEQUENCE {
//!     hashAlgorithm   AlgorithmIdentifier,
//!     issuerNameHash  OCTET STRING,
//!     issuerKeyHash   OCTET STRING,
//!     serialNumber    CertificateSerialNumber }
//! ```
ghost use Rattle.std.specs.Prelude.{◌≡◌, ◌↔◌, IsTrue, refl};
ghost use Rattle.yasna_notation.specs.Laws.{element_non_empty, represented_lawful};
ghost use Rattle.yasna_notation.specs.Making.{in_sequence, part};
ghost use Rattle.yasna_notation.specs.Notation.{represented_by};
ghost use Rattle.yasna_notation.specs.Parts.{no_parts};
ghost use Rattle.yasna_notation.specs.contracts.simple.BigIntegerNotation.TheImpl.Laws.{lawful-law as big_law};
ghost use Rattle.yasna_notation.specs.contracts.strings.VecU8Notation.TheImpl.Laws.{lawful-law as octets_law};
ghost use Rattle.x509.specs.contracts.algorithm.AlgorithmIdentifierNotation.TheImpl.Laws.{lawful-law as x509_algorithm_law};

use x509::AlgorithmIdentifier;
use yasna::{ASN1Result, BERMode, BERReader, DERWriter, PrependBuffer, Tag};
use yasna_notation::{BigInteger, Message, Notation, Represents, Sequence, read_as};
use yasna_notation_constraints::{Checked, accepts_fields};

type Parts = (AlgorithmIdentifier, (Vec<u8>, (Vec<u8>, (BigInteger, ()))));

type Fields = (
    AlgorithmIdentifier,
    (Vec<u8>, (Vec<u8>, ((Vec<u8>, bool), ()))),
);

type Notated = Sequence<Parts>;

/// `CertID`.
#[derive(Drop)]
pub struct CertId {
    pub hash_algorithm: AlgorithmIdentifier,
    pub issuer_name_hash: Vec<u8>,
    pub issuer_key_hash: Vec<u8>,
    pub serial_number: (Vec<u8>, bool),
}

impl Represents<Fields> for CertId {
    ghost value_of = { λ v. (v.hash_algorithm, (v.issuer_name_hash, (v.issuer_key_hash, (v.serial_number, tt)))) };

    fn from_value(
        (hash_algorithm, (issuer_name_hash, (issuer_key_hash, (serial_number, ())))): Fields,
    ) -> CertId {
        CertId {
            hash_algorithm,
            issuer_name_hash,
            issuer_key_hash,
            serial_number,
        }
    }
}

impl Notation for CertId {
    type Value = CertId;

    type Inner = ();

    ghost means = { represented_by ⟦<CertId as Represents<Fields>>⟧.value_of ⟦<Notated as Notation>⟧.means };

    fn has_tag(tag: Tag) -> bool {
        <Notated as Notation>::has_tag(tag)
    }

    fn read(reader: BERReader) -> ASN1Result<CertId> {
        read_as::<Notated, CertId>(reader)
    }

    fn write(value: &CertId, writer: DERWriter<'_>) -> ASN1Result<()> {
        Sequence::<Parts>::write_fields(
            (
                &value.hash_algorithm,
                (
                    &value.issuer_name_hash,
                    (&value.issuer_key_hash, (&value.serial_number, ())),
                ),
            ),
            writer,
        )
    }

    fn prepend(value: &CertId, under: Option<Tag>, out: &mut PrependBuffer) -> ASN1Result<()> {
        Sequence::<Parts>::prepend_fields(
            (
                &value.hash_algorithm,
                (
                    &value.issuer_name_hash,
                    (&value.issuer_key_hash, (&value.serial_number, ())),
                ),
            ),
            under,
            out,
        )
    }

    fn encoded_len(value: &CertId, under: Option<Tag>, mode: BERMode) -> Option<usize> {
        Sequence::<Parts>::fields_len(
            (
                &value.hash_algorithm,
                (
                    &value.issuer_name_hash,
                    (&value.issuer_key_hash, (&value.serial_number, ())),
                ),
            ),
            under,
            mode,
        )
    }

    ghost lawful = { λ _. represented_lawful ⟦<CertId as Represents<Fields>>⟧.value_of (in_sequence
        (part (x509_algorithm_law refl).own (part (octets_law refl).own (part (octets_law refl).own (part (big_law refl).own no_parts))))) };

    ghost non_empty = { λ u m v. element_non_empty _ _ _ _ };
}

impl Message for CertId {
    ghost is_unambiguous = { refl };
}

impl Checked for CertId {
    fn accepts(value: &CertId) -> bool {
        accepts_fields::<Parts, _>((
            &value.hash_algorithm,
            (
                &value.issuer_name_hash,
                (&value.issuer_key_hash, (&value.serial_number, ())),
            ),
        ))
    }
}
