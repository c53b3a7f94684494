//! Entries of a revocation list (RFC 5280, 5.1).
//!
//! ```text
//! SEQUENCE {
//!     userCertificate     CertificateSerialNumber,
//!     revocationDate      Time,
//!     crlEntryExtensions  Extensions OPTIONAL }
//! ```
ghost use Rattle.std.specs.Prelude.{◌≡◌, ◌↔◌, IsTrue, refl};
ghost use Rattle.yasna_notation.specs.Laws.{represented_lawful, element_non_empty};
ghost use Rattle.yasna_notation.specs.Making.{in_sequence, part};
ghost use Rattle.yasna_notation.specs.Notation.{represented_by};
ghost use Rattle.yasna_notation.specs.Parts.{last_part_laws};
ghost use Rattle.yasna_notation.specs.contracts.simple.BigIntegerNotation.TheImpl.Laws.{lawful-law as big};
ghost use Rattle.x509.specs.contracts.time_part.TimePartNotation.TheImpl.Laws.{lawful-law as time};
ghost use Rattle.x509.specs.contracts.extensions.ExtensionsNotation.TheImpl.Laws.{lawful-law as extensions};

use crate::extensions::Extensions;
use crate::time::Time;
use crate::time_part::TimePart;
use yasna::tags::TAG_SEQUENCE;
use yasna::{ASN1Result, BERMode, BERReader, DERWriter, PrependBuffer, Tag};
use yasna_notation::{BigInteger, Last, Message, Notation, Represents, Sequence, read_as};
use yasna_notation_constraints::{Checked, accepts_fields};

type Parts = (BigInteger, (TimePart, Last<Extensions>));

type Fields = ((Vec<u8>, bool), (Time, Option<Extensions>));

/// A certificate that was revoked.
#[derive(Drop)]
pub struct RevokedCertificate {
    /// Its octets in two's complement, the highest first, and whether it isn't negative.
    pub user_certificate: (Vec<u8>, bool),
    pub revocation_date: Time,
    pub crl_entry_extensions: Option<Extensions>,
}

impl Represents<Fields> for RevokedCertificate {
    ghost value_of = { λ v. (v.user_certificate, (v.revocation_date, v.crl_entry_extensions)) };

    fn from_value(
        (user_certificate, (revocation_date, crl_entry_extensions)): Fields,
    ) -> RevokedCertificate {
        RevokedCertificate {
            user_certificate,
            revocation_date,
            crl_entry_extensions,
        }
    }
}

impl Notation for RevokedCertificate {
    type Value = RevokedCertificate;

    type Inner = ();

    ghost means = { represented_by ⟦<RevokedCertificate as Represents<Fields>>⟧.value_of ⟦<Sequence<Parts> as Notation>⟧.means };

    fn has_tag(tag: Tag) -> bool {
        tag == TAG_SEQUENCE
    }

    fn read(reader: BERReader) -> ASN1Result<RevokedCertificate> {
        read_as::<Sequence<Parts>, RevokedCertificate>(reader)
    }

    fn write(value: &RevokedCertificate, writer: DERWriter<'_>) -> ASN1Result<()> {
        Sequence::<Parts>::write_fields(
            (
                &value.user_certificate,
                (&value.revocation_date, &value.crl_entry_extensions),
            ),
            writer,
        )
    }

    fn prepend(
        value: &RevokedCertificate,
        under: Option<Tag>,
        out: &mut PrependBuffer,
    ) -> ASN1Result<()> {
        Sequence::<Parts>::prepend_fields(
            (
                &value.user_certificate,
                (&value.revocation_date, &value.crl_entry_extensions),
            ),
            under,
            out,
        )
    }

    fn encoded_len(value: &RevokedCertificate, under: Option<Tag>, mode: BERMode) -> Option<usize> {
        Sequence::<Parts>::fields_len(
            (
                &value.user_certificate,
                (&value.revocation_date, &value.crl_entry_extensions),
            ),
            under,
            mode,
        )
    }

    ghost lawful = { λ _. represented_lawful ⟦<RevokedCertificate as Represents<Fields>>⟧.value_of
        (in_sequence (part (big refl).own (part (time refl).own (last_part_laws (extensions refl).own)))) };

    ghost non_empty = { λ u m v. element_non_empty _ _ _ _ };
}

impl Message for RevokedCertificate {
    ghost is_unambiguous = { refl };
}

impl Checked for RevokedCertificate {
    fn accepts(value: &RevokedCertificate) -> bool {
        accepts_fields::<Parts, _>((
            &value.user_certificate,
            (&value.revocation_date, &value.crl_entry_extensions),
        ))
    }
}
