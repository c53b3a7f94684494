//! Certificates by issuer and number (RFC 5652, 10.2.4).
//!
//! ```text
//! IssuerAndSerialNumber ::= SEQUENCE {
//!     issuer        Name,
//!     serialNumber  CertificateSerialNumber }
//!
//! CertificateSerialNumber ::= INTEGER
//! ```
ghost use Rattle.std.specs.Prelude.{◌≡◌, ◌↔◌, IsTrue, refl};
ghost use Rattle.yasna_notation.specs.Laws.{represented_lawful, element_non_empty};
ghost use Rattle.yasna_notation.specs.Making.{in_sequence, part};
ghost use Rattle.yasna_notation.specs.Notation.{represented_by};
ghost use Rattle.yasna_notation.specs.Parts.{no_parts};
ghost use Rattle.yasna_notation.specs.contracts.simple.BigIntegerNotation.TheImpl.Laws.{lawful-law as big};
ghost use Rattle.x509.specs.contracts.name.NameNotation.TheImpl.Laws.{lawful-law as name};

use x509::Name;
use yasna::tags::TAG_SEQUENCE;
use yasna::{ASN1Result, BERMode, BERReader, DERWriter, PrependBuffer, Tag};
use yasna_notation::{BigInteger, Message, Notation, Represents, Sequence, read_as};
use yasna_notation_constraints::{Checked, accepts_fields};

type Parts = (Name, (BigInteger, ()));

type Fields = (Name, ((Vec<u8>, bool), ()));

/// Which certificate is meant: its issuer, and the number that it has there.
#[derive(Drop)]
pub struct IssuerAndSerialNumber {
    pub issuer: Name,
    /// Its octets in two's complement, the highest first, and whether it isn't negative.
    pub serial_number: (Vec<u8>, bool),
}

impl Represents<Fields> for IssuerAndSerialNumber {
    ghost value_of = { λ v. (v.issuer, (v.serial_number, tt)) };

    fn from_value((issuer, (serial_number, ())): Fields) -> IssuerAndSerialNumber {
        IssuerAndSerialNumber {
            issuer,
            serial_number,
        }
    }
}

impl Notation for IssuerAndSerialNumber {
    type Value = IssuerAndSerialNumber;

    type Inner = ();

    ghost means = { represented_by ⟦<IssuerAndSerialNumber as Represents<Fields>>⟧.value_of ⟦<Sequence<Parts> as Notation>⟧.means };

    fn has_tag(tag: Tag) -> bool {
        tag == TAG_SEQUENCE
    }

    fn read(reader: BERReader) -> ASN1Result<IssuerAndSerialNumber> {
        read_as::<Sequence<Parts>, IssuerAndSerialNumber>(reader)
    }

    fn write(value: &IssuerAndSerialNumber, writer: DERWriter<'_>) -> ASN1Result<()> {
        Sequence::<Parts>::write_fields((&value.issuer, (&value.serial_number, ())), writer)
    }

    fn prepend(
        value: &IssuerAndSerialNumber,
        under: Option<Tag>,
        out: &mut PrependBuffer,
    ) -> ASN1Result<()> {
        Sequence::<Parts>::prepend_fields((&value.issuer, (&value.serial_number, ())), under, out)
    }

    fn encoded_len(
        value: &IssuerAndSerialNumber,
        under: Option<Tag>,
        mode: BERMode,
    ) -> Option<usize> {
        Sequence::<Parts>::fields_len((&value.issuer, (&value.serial_number, ())), under, mode)
    }

    ghost lawful = { λ _. represented_lawful ⟦<IssuerAndSerialNumber as Represents<Fields>>⟧.value_of
        (in_sequence (part (name refl).own (part (big refl).own no_parts))) };

    ghost non_empty = { λ u m v. element_non_empty _ _ _ _ };
}

impl Message for IssuerAndSerialNumber {
    ghost is_unambiguous = { refl };
}

impl Checked for IssuerAndSerialNumber {
    fn accepts(value: &IssuerAndSerialNumber) -> bool {
        accepts_fields::<Parts, _>((&value.issuer, (&value.serial_number, ())))
    }
}
