//! Certificates (RFC 5280, 4.1).
//!
//! ```text
//! Certificate ::= SEQUENCE {
//!     tbsCertificate      TBSCertificate,
//!     signatureAlgorithm  AlgorithmIdentifier,
//!     signatureValue      BIT STRING }
//! ```
ghost use Rattle.std.specs.Prelude.{◌≡◌, ◌↔◌, IsTrue, refl};
ghost use Rattle.yasna_notation.specs.Laws.{represented_lawful, element_non_empty};
ghost use Rattle.yasna_notation.specs.Making.{in_sequence, part};
ghost use Rattle.yasna_notation.specs.Notation.{represented_by};
ghost use Rattle.yasna_notation.specs.Parts.{no_parts};
ghost use Rattle.yasna_notation.specs.contracts.strings.BitStringNotation.TheImpl.Laws.{lawful-law as bits};
ghost use Rattle.x509.specs.contracts.algorithm.AlgorithmIdentifierNotation.TheImpl.Laws.{lawful-law as algorithm};
ghost use Rattle.x509.specs.contracts.tbs_certificate.TbsCertificateNotation.TheImpl.Laws.{lawful-law as tbs};

use crate::algorithm::AlgorithmIdentifier;
use crate::tbs_certificate::TbsCertificate;
use yasna::tags::TAG_SEQUENCE;
use yasna::{ASN1Result, BERMode, BERReader, DERWriter, PrependBuffer, Tag};
use yasna_notation::{BitString, Message, Notation, Represents, Sequence};
use yasna_notation_constraints::{Checked, accepts_fields};

type Parts = (TbsCertificate, (AlgorithmIdentifier, (BitString, ())));

type Fields = (
    TbsCertificate,
    (AlgorithmIdentifier, ((Vec<u8>, usize), ())),
);

/// A certificate.
#[derive(Drop)]
pub struct Certificate {
    pub tbs_certificate: TbsCertificate,
    pub signature_algorithm: AlgorithmIdentifier,
    /// The bits of the signature, as octets and a count.
    pub signature_value: (Vec<u8>, usize),
}

impl Represents<Fields> for Certificate {
    ghost value_of = { λ v. (v.tbs_certificate, (v.signature_algorithm, (v.signature_value, tt))) };

    fn from_value(
        (tbs_certificate, (signature_algorithm, (signature_value, ()))): Fields,
    ) -> Certificate {
        Certificate {
            tbs_certificate,
            signature_algorithm,
            signature_value,
        }
    }
}

impl Notation for Certificate {
    type Value = Certificate;

    type Inner = ();

    ghost means = { represented_by ⟦<Certificate as Represents<Fields>>⟧.value_of ⟦<Sequence<Parts> as Notation>⟧.means };

    fn has_tag(tag: Tag) -> bool {
        tag == TAG_SEQUENCE
    }

    fn read(reader: BERReader) -> ASN1Result<Certificate> {
        // As `read_as` does it, but the value, which is large, is moved less often.
        let fields = match <Sequence<Parts> as Notation>::read(reader) {
            Ok(fields) => fields,
            Err(error) => return Err(error),
        };
        Ok(<Certificate as Represents<Fields>>::from_value(fields))
    }

    fn write(value: &Certificate, writer: DERWriter<'_>) -> ASN1Result<()> {
        Sequence::<Parts>::write_fields(
            (
                &value.tbs_certificate,
                (&value.signature_algorithm, (&value.signature_value, ())),
            ),
            writer,
        )
    }

    fn prepend(
        certificate: &Certificate,
        under: Option<Tag>,
        out: &mut PrependBuffer,
    ) -> ASN1Result<()> {
        Sequence::<Parts>::prepend_fields(
            (
                &certificate.tbs_certificate,
                (
                    &certificate.signature_algorithm,
                    (&certificate.signature_value, ()),
                ),
            ),
            under,
            out,
        )
    }

    fn encoded_len(certificate: &Certificate, under: Option<Tag>, mode: BERMode) -> Option<usize> {
        Sequence::<Parts>::fields_len(
            (
                &certificate.tbs_certificate,
                (
                    &certificate.signature_algorithm,
                    (&certificate.signature_value, ()),
                ),
            ),
            under,
            mode,
        )
    }

    ghost lawful = { λ _. represented_lawful ⟦<Certificate as Represents<Fields>>⟧.value_of
        (in_sequence (part (tbs refl).own (part (algorithm refl).own (part (bits refl).own no_parts)))) };

    ghost non_empty = { λ u m v. element_non_empty _ _ _ _ };
}

impl Message for Certificate {
    ghost is_unambiguous = { refl };
}

impl Checked for Certificate {
    fn accepts(value: &Certificate) -> bool {
        accepts_fields::<Parts, _>((
            &value.tbs_certificate,
            (&value.signature_algorithm, (&value.signature_value, ())),
        ))
    }
}
