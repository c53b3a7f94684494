//! `CertificationRequest` of the module PKCS-10.
//!
//! ```text
//! CertificationRequest ::= SEQUENCE {
//!     certificationRequestInfo  CertificationRequestInfo,
//!     signatureAlgorithm        AlgorithmIdentifier,
//!     signature                 BIT STRING }
//! ```
ghost use Rattle.std.specs.Prelude.{◌≡◌, ◌↔◌, IsTrue, refl};
ghost use Rattle.yasna_notation.specs.Laws.{element_non_empty, represented_lawful};
ghost use Rattle.yasna_notation.specs.Making.{in_sequence, part};
ghost use Rattle.yasna_notation.specs.Notation.{represented_by};
ghost use Rattle.yasna_notation.specs.Parts.{no_parts};
ghost use Rattle.yasna_notation.specs.contracts.strings.BitStringNotation.TheImpl.Laws.{lawful-law as bits_law};
ghost use Rattle.pkcs10.specs.contracts.certification_request_info.CertificationRequestInfoNotation.TheImpl.Laws.{lawful-law as certification_request_info_law};
ghost use Rattle.x509.specs.contracts.algorithm.AlgorithmIdentifierNotation.TheImpl.Laws.{lawful-law as x509_algorithm_law};

use crate::certification_request_info::CertificationRequestInfo;
use x509::AlgorithmIdentifier;
use yasna::{ASN1Result, BERMode, BERReader, DERWriter, PrependBuffer, Tag};
use yasna_notation::{BitString, Message, Notation, Represents, Sequence, read_as};
use yasna_notation_constraints::{Checked, accepts_fields};

type Parts = (
    CertificationRequestInfo,
    (AlgorithmIdentifier, (BitString, ())),
);

type Fields = (
    CertificationRequestInfo,
    (AlgorithmIdentifier, ((Vec<u8>, usize), ())),
);

type Notated = Sequence<Parts>;

/// `CertificationRequest`.
#[derive(Drop)]
pub struct CertificationRequest {
    pub certification_request_info: CertificationRequestInfo,
    pub signature_algorithm: AlgorithmIdentifier,
    pub signature: (Vec<u8>, usize),
}

impl Represents<Fields> for CertificationRequest {
    ghost value_of = { λ v. (v.certification_request_info, (v.signature_algorithm, (v.signature, tt))) };

    fn from_value(
        (certification_request_info, (signature_algorithm, (signature, ()))): Fields,
    ) -> CertificationRequest {
        CertificationRequest {
            certification_request_info,
            signature_algorithm,
            signature,
        }
    }
}

impl Notation for CertificationRequest {
    type Value = CertificationRequest;

    type Inner = ();

    ghost means = { represented_by ⟦<CertificationRequest as Represents<Fields>>⟧.value_of ⟦<Notated as Notation>⟧.means };

    fn has_tag(tag: Tag) -> bool {
        <Notated as Notation>::has_tag(tag)
    }

    fn read(reader: BERReader) -> ASN1Result<CertificationRequest> {
        read_as::<Notated, CertificationRequest>(reader)
    }

    fn write(value: &CertificationRequest, writer: DERWriter<'_>) -> ASN1Result<()> {
        Sequence::<Parts>::write_fields(
            (
                &value.certification_request_info,
                (&value.signature_algorithm, (&value.signature, ())),
            ),
            writer,
        )
    }

    fn prepend(
        value: &CertificationRequest,
        under: Option<Tag>,
        out: &mut PrependBuffer,
    ) -> ASN1Result<()> {
        Sequence::<Parts>::prepend_fields(
            (
                &value.certification_request_info,
                (&value.signature_algorithm, (&value.signature, ())),
            ),
            under,
            out,
        )
    }

    fn encoded_len(
        value: &CertificationRequest,
        under: Option<Tag>,
        mode: BERMode,
    ) -> Option<usize> {
        Sequence::<Parts>::fields_len(
            (
                &value.certification_request_info,
                (&value.signature_algorithm, (&value.signature, ())),
            ),
            under,
            mode,
        )
    }

    ghost lawful = { λ _. represented_lawful ⟦<CertificationRequest as Represents<Fields>>⟧.value_of (in_sequence
        (part (certification_request_info_law refl).own (part (x509_algorithm_law refl).own (part (bits_law refl).own no_parts)))) };

    ghost non_empty = { λ u m v. element_non_empty _ _ _ _ };
}

impl Message for CertificationRequest {
    ghost is_unambiguous = { refl };
}

impl Checked for CertificationRequest {
    fn accepts(value: &CertificationRequest) -> bool {
        accepts_fields::<Parts, _>((
            &value.certification_request_info,
            (&value.signature_algorithm, (&value.signature, ())),
        ))
    }
}
