//! `BasicOCSPResponse` of the module OCSP.
//!
//! ```text
//! BasicOCSPResponse ::= SEQUENCE {
//!     tbsResponseData     ResponseData,
//!     signatureAlgorithm  AlgorithmIdentifier,
//!     signature           BIT STRING,
//!     certs               [0] SEQUENCE OF Certificate OPTIONAL }
//! ```
ghost use Rattle.std.specs.Prelude.{◌≡◌, ◌↔◌, IsTrue, refl};
ghost use Rattle.std.proofs.Common.{arith};
ghost use Rattle.yasna_notation.specs.Laws.{element_non_empty, represented_lawful};
ghost use Rattle.yasna_notation.specs.Making.{in_explicit, in_sequence, in_sequence_of, optional_part, part};
ghost use Rattle.yasna_notation.specs.Notation.{represented_by};
ghost use Rattle.yasna_notation.specs.Parts.{no_parts};
ghost use Rattle.yasna_notation.specs.contracts.strings.BitStringNotation.TheImpl.Laws.{lawful-law as bits_law};
ghost use Rattle.ocsp.specs.contracts.response_data.ResponseDataNotation.TheImpl.Laws.{lawful-law as response_data_law};
ghost use Rattle.x509.specs.contracts.algorithm.AlgorithmIdentifierNotation.TheImpl.Laws.{lawful-law as x509_algorithm_law};
ghost use Rattle.x509.specs.contracts.certificate.CertificateNotation.TheImpl.Laws.{lawful-law as x509_certificate_law};

use crate::response_data::ResponseData;
use x509::{AlgorithmIdentifier, Certificate};
use yasna::{ASN1Result, BERMode, BERReader, DERWriter, PrependBuffer, Tag};
use yasna_notation::{
    BitString, Context, Explicit, Message, Notation, Optional, Represents, Sequence, SequenceOf,
    read_as,
};
use yasna_notation_constraints::{Checked, accepts_fields};

type Parts = (
    ResponseData,
    (
        AlgorithmIdentifier,
        (
            BitString,
            (Optional<Explicit<Context<0>, SequenceOf<Certificate>>>, ()),
        ),
    ),
);

type Fields = (
    ResponseData,
    (
        AlgorithmIdentifier,
        ((Vec<u8>, usize), (Option<Vec<Certificate>>, ())),
    ),
);

type Notated = Sequence<Parts>;

/// `BasicOCSPResponse`.
#[derive(Drop)]
pub struct BasicOcspResponse {
    pub tbs_response_data: ResponseData,
    pub signature_algorithm: AlgorithmIdentifier,
    pub signature: (Vec<u8>, usize),
    pub certs: Option<Vec<Certificate>>,
}

impl Represents<Fields> for BasicOcspResponse {
    ghost value_of = { λ v. (v.tbs_response_data, (v.signature_algorithm, (v.signature, (v.certs, tt)))) };

    fn from_value(
        (tbs_response_data, (signature_algorithm, (signature, (certs, ())))): Fields,
    ) -> BasicOcspResponse {
        BasicOcspResponse {
            tbs_response_data,
            signature_algorithm,
            signature,
            certs,
        }
    }
}

impl Notation for BasicOcspResponse {
    type Value = BasicOcspResponse;

    type Inner = ();

    ghost means = { represented_by ⟦<BasicOcspResponse as Represents<Fields>>⟧.value_of ⟦<Notated as Notation>⟧.means };

    fn has_tag(tag: Tag) -> bool {
        <Notated as Notation>::has_tag(tag)
    }

    fn read(reader: BERReader) -> ASN1Result<BasicOcspResponse> {
        read_as::<Notated, BasicOcspResponse>(reader)
    }

    fn write(value: &BasicOcspResponse, writer: DERWriter<'_>) -> ASN1Result<()> {
        Sequence::<Parts>::write_fields(
            (
                &value.tbs_response_data,
                (
                    &value.signature_algorithm,
                    (&value.signature, (&value.certs, ())),
                ),
            ),
            writer,
        )
    }

    fn prepend(
        value: &BasicOcspResponse,
        under: Option<Tag>,
        out: &mut PrependBuffer,
    ) -> ASN1Result<()> {
        Sequence::<Parts>::prepend_fields(
            (
                &value.tbs_response_data,
                (
                    &value.signature_algorithm,
                    (&value.signature, (&value.certs, ())),
                ),
            ),
            under,
            out,
        )
    }

    fn encoded_len(value: &BasicOcspResponse, under: Option<Tag>, mode: BERMode) -> Option<usize> {
        Sequence::<Parts>::fields_len(
            (
                &value.tbs_response_data,
                (
                    &value.signature_algorithm,
                    (&value.signature, (&value.certs, ())),
                ),
            ),
            under,
            mode,
        )
    }

    ghost lawful = { λ _. represented_lawful ⟦<BasicOcspResponse as Represents<Fields>>⟧.value_of (in_sequence
        (part (response_data_law refl).own (part (x509_algorithm_law refl).own (part (bits_law refl).own (optional_part refl
        (in_explicit 0 (omega arith) (in_sequence_of (x509_certificate_law refl).own).own).own no_parts))))) };

    ghost non_empty = { λ u m v. element_non_empty _ _ _ _ };
}

impl Message for BasicOcspResponse {
    ghost is_unambiguous = { refl };
}

impl Checked for BasicOcspResponse {
    fn accepts(value: &BasicOcspResponse) -> bool {
        accepts_fields::<Parts, _>((
            &value.tbs_response_data,
            (
                &value.signature_algorithm,
                (&value.signature, (&value.certs, ())),
            ),
        ))
    }
}
