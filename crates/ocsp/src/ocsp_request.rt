//! `OCSPRequest` of the module OCSP.
//!
//! ```text
//! OCSPRequest ::= SEQUENCE {
//!     tbsRequest         TBSRequest,
//!     optionalSignature  [0] Signature OPTIONAL }
//! ```
ghost use Rattle.std.specs.Prelude.{◌≡◌, ◌↔◌, IsTrue, refl};
ghost use Rattle.std.proofs.Common.{arith};
ghost use Rattle.yasna_notation.specs.Laws.{element_non_empty, represented_lawful};
ghost use Rattle.yasna_notation.specs.Making.{in_explicit, in_sequence, optional_part, part};
ghost use Rattle.yasna_notation.specs.Notation.{represented_by};
ghost use Rattle.yasna_notation.specs.Parts.{no_parts};
ghost use Rattle.ocsp.specs.contracts.signature.SignatureNotation.TheImpl.Laws.{lawful-law as signature_law};
ghost use Rattle.ocsp.specs.contracts.tbs_request.TbsRequestNotation.TheImpl.Laws.{lawful-law as tbs_request_law};

use crate::signature::Signature;
use crate::tbs_request::TbsRequest;
use yasna::{ASN1Result, BERMode, BERReader, DERWriter, PrependBuffer, Tag};
use yasna_notation::{
    Context, Explicit, Message, Notation, Optional, Represents, Sequence, read_as,
};
use yasna_notation_constraints::{Checked, accepts_fields};

type Parts = (TbsRequest, (Optional<Explicit<Context<0>, Signature>>, ()));

type Fields = (TbsRequest, (Option<Signature>, ()));

type Notated = Sequence<Parts>;

/// `OCSPRequest`.
#[derive(Drop)]
pub struct OcspRequest {
    pub tbs_request: TbsRequest,
    pub optional_signature: Option<Signature>,
}

impl Represents<Fields> for OcspRequest {
    ghost value_of = { λ v. (v.tbs_request, (v.optional_signature, tt)) };

    fn from_value((tbs_request, (optional_signature, ())): Fields) -> OcspRequest {
        OcspRequest {
            tbs_request,
            optional_signature,
        }
    }
}

impl Notation for OcspRequest {
    type Value = OcspRequest;

    type Inner = ();

    ghost means = { represented_by ⟦<OcspRequest as Represents<Fields>>⟧.value_of ⟦<Notated as Notation>⟧.means };

    fn has_tag(tag: Tag) -> bool {
        <Notated as Notation>::has_tag(tag)
    }

    fn read(reader: BERReader) -> ASN1Result<OcspRequest> {
        read_as::<Notated, OcspRequest>(reader)
    }

    fn write(value: &OcspRequest, writer: DERWriter<'_>) -> ASN1Result<()> {
        Sequence::<Parts>::write_fields(
            (&value.tbs_request, (&value.optional_signature, ())),
            writer,
        )
    }

    fn prepend(value: &OcspRequest, under: Option<Tag>, out: &mut PrependBuffer) -> ASN1Result<()> {
        Sequence::<Parts>::prepend_fields(
            (&value.tbs_request, (&value.optional_signature, ())),
            under,
            out,
        )
    }

    fn encoded_len(value: &OcspRequest, under: Option<Tag>, mode: BERMode) -> Option<usize> {
        Sequence::<Parts>::fields_len(
            (&value.tbs_request, (&value.optional_signature, ())),
            under,
            mode,
        )
    }

    ghost lawful = { λ _. represented_lawful ⟦<OcspRequest as Represents<Fields>>⟧.value_of (in_sequence
        (part (tbs_request_law refl).own (optional_part refl (in_explicit 0 (omega arith) (signature_law refl).own).own no_parts))) };

    ghost non_empty = { λ u m v. element_non_empty _ _ _ _ };
}

impl Message for OcspRequest {
    ghost is_unambiguous = { refl };
}

impl Checked for OcspRequest {
    fn accepts(value: &OcspRequest) -> bool {
        accepts_fields::<Parts, _>((&value.tbs_request, (&value.optional_signature, ())))
    }
}
