//! `OCSPResponse` of the module OCSP.
//!
//! ```text
//! OCSPResponse ::= SEQUENCE {
//!     responseStatus  OCSPResponseStatus,
//!     responseBytes   [0] ResponseBytes OPTIONAL }
//! ```
ghost use Rattle.std.specs.Prelude.{◌≡◌, ◌↔◌, IsTrue, refl};
ghost use Rattle.std.proofs.Common.{arith};
ghost use Rattle.yasna_notation.specs.Canonical.{represented_written};
ghost use Rattle.yasna_notation.specs.Laws.{element_non_empty, represented_lawful};
ghost use Rattle.yasna_notation.specs.Making.{in_explicit, in_sequence, optional_part, part};
ghost use Rattle.yasna_notation.specs.Notation.{represented_by};
ghost use Rattle.yasna_notation.specs.Parts.{no_parts};
ghost use Rattle.yasna_notation.specs.Writing.{explicit_written, no_part_written, optional_written, part_written, sequence_written};
ghost use Rattle.yasna_notation_types.specs.Named.{named_lawful, named_written};
ghost use Rattle.ocsp.specs.OcspResponseStatus.{ocsp_response_status_number};
ghost use Rattle.ocsp.specs.OcspResponseStatus.{ocsp_response_status_named};
ghost use Rattle.ocsp.specs.OcspResponseStatus.{ocsp_response_status_writable};
ghost use Rattle.ocsp.specs.contracts.response_bytes.ResponseBytesNotation.TheImpl.Laws.{lawful-law as response_bytes_law};
ghost use Rattle.ocsp.specs.contracts.response_bytes.ResponseBytesCanonicalNotation.TheImpl.Laws.{written-law as response_bytes_written};

use crate::ocsp_response_status::OcspResponseStatus;
use crate::response_bytes::ResponseBytes;
use yasna::{ASN1Result, BERMode, BERReader, DERWriter, PrependBuffer, Tag};
use yasna_notation::{
    CanonicalNotation, Context, Explicit, Message, Notation, Optional, Represents, Sequence,
    read_as,
};
use yasna_notation_constraints::{Checked, accepts_fields};
use yasna_notation_types::Named;

type Parts = (
    Named<OcspResponseStatus>,
    (Optional<Explicit<Context<0>, ResponseBytes>>, ()),
);

type Fields = (OcspResponseStatus, (Option<ResponseBytes>, ()));

type Notated = Sequence<Parts>;

/// `OCSPResponse`.
#[derive(Drop)]
pub struct OcspResponse {
    pub response_status: OcspResponseStatus,
    pub response_bytes: Option<ResponseBytes>,
}

impl Represents<Fields> for OcspResponse {
    ghost value_of = { λ v. (v.response_status, (v.response_bytes, tt)) };

    fn from_value((response_status, (response_bytes, ())): Fields) -> OcspResponse {
        OcspResponse {
            response_status,
            response_bytes,
        }
    }
}

impl Notation for OcspResponse {
    type Value = OcspResponse;

    type Inner = ();

    ghost means = { represented_by ⟦<OcspResponse as Represents<Fields>>⟧.value_of ⟦<Notated as Notation>⟧.means };

    fn has_tag(tag: Tag) -> bool {
        <Notated as Notation>::has_tag(tag)
    }

    fn read(reader: BERReader) -> ASN1Result<OcspResponse> {
        read_as::<Notated, OcspResponse>(reader)
    }

    fn write(value: &OcspResponse, writer: DERWriter<'_>) -> ASN1Result<()> {
        Sequence::<Parts>::write_fields(
            (&value.response_status, (&value.response_bytes, ())),
            writer,
        )
    }

    fn prepend(
        value: &OcspResponse,
        under: Option<Tag>,
        out: &mut PrependBuffer,
    ) -> ASN1Result<()> {
        Sequence::<Parts>::prepend_fields(
            (&value.response_status, (&value.response_bytes, ())),
            under,
            out,
        )
    }

    fn encoded_len(value: &OcspResponse, under: Option<Tag>, mode: BERMode) -> Option<usize> {
        Sequence::<Parts>::fields_len(
            (&value.response_status, (&value.response_bytes, ())),
            under,
            mode,
        )
    }

    ghost lawful = { λ _. represented_lawful ⟦<OcspResponse as Represents<Fields>>⟧.value_of (in_sequence
        (part (named_lawful ocsp_response_status_number ocsp_response_status_named ocsp_response_status_writable).own
        (optional_part refl (in_explicit 0 (omega arith) (response_bytes_law refl).own).own no_parts))) };

    ghost non_empty = { λ u m v. element_non_empty _ _ _ _ };
}

impl Message for OcspResponse {
    ghost is_unambiguous = { refl };
}

impl CanonicalNotation for OcspResponse {
    ghost written = { λ _. represented_written ⟦<OcspResponse as Represents<Fields>>⟧.value_of (sequence_written
        (part_written (named_written ocsp_response_status_number ocsp_response_status_named ocsp_response_status_writable).own
        (optional_written (explicit_written (response_bytes_written refl).own 0 (omega arith)).own no_part_written))) };
}

impl Checked for OcspResponse {
    fn accepts(value: &OcspResponse) -> bool {
        accepts_fields::<Parts, _>((&value.response_status, (&value.response_bytes, ())))
    }
}
