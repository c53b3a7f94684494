//! `ResponseData` of the module OCSP.
//!
//! ```text
//! ResponseData ::= SEQUENCE {
//!     version             [0] Version DEFAULT v1,
//!     responderID         ResponderID,
//!     producedAt          GeneralizedTime,
//!     responses           SEQUENCE OF SingleResponse,
//!     responseExtensions  [1] Extensions OPTIONAL }
//! ```
//!
//! It rejects numbers that the module allows:
//!
//! - `version`: a number past 64 bits is rejected.
ghost use Rattle.std.specs.Prelude.{◌≡◌, ◌↔◌, IsTrue, pos, refl};
ghost use Rattle.std.specs.Ordering.{int_eq};
ghost use Rattle.std.proofs.Common.{arith};
ghost use Rattle.yasna_notation.specs.Laws.{element_non_empty, represented_lawful};
ghost use Rattle.yasna_notation.specs.Making.{default_part, in_explicit, in_sequence, in_sequence_of, optional_part, part};
ghost use Rattle.yasna_notation.specs.Notation.{represented_by};
ghost use Rattle.yasna_notation.specs.Parts.{no_parts};
ghost use Rattle.yasna_notation_constraints.specs.Defaults.{detects_integer};
ghost use Rattle.yasna_notation.specs.contracts.simple.I64Notation.TheImpl.Laws.{lawful-law as int64_law};
ghost use Rattle.yasna_notation.specs.contracts.times.GeneralizedTimeNotation.TheImpl.Laws.{lawful-law as general_law};
ghost use Rattle.ocsp.specs.contracts.responder_id.ResponderIdNotation.TheImpl.Laws.{lawful-law as responder_id_law};
ghost use Rattle.ocsp.specs.contracts.single_response.SingleResponseNotation.TheImpl.Laws.{lawful-law as single_response_law};
ghost use Rattle.x509.specs.contracts.extensions.ExtensionsNotation.TheImpl.Laws.{lawful-law as x509_extensions_law};

use crate::responder_id::ResponderId;
use crate::single_response::SingleResponse;
use x509::Extensions;
use yasna::models::GeneralizedTime;
use yasna::{ASN1Result, BERMode, BERReader, DERWriter, PrependBuffer, Tag};
use yasna_notation::{
    Context, Default, Explicit, Message, Notation, Optional, Represents, Sequence, SequenceOf,
    read_as,
};
use yasna_notation_constraints::{Checked, Signed, accepts_fields};

type Parts = (
    Default<Explicit<Context<0>, i64>, Signed<0>>,
    (
        ResponderId,
        (
            GeneralizedTime,
            (
                SequenceOf<SingleResponse>,
                (Optional<Explicit<Context<1>, Extensions>>, ()),
            ),
        ),
    ),
);

type Fields = (
    i64,
    (
        ResponderId,
        (
            GeneralizedTime,
            (Vec<SingleResponse>, (Option<Extensions>, ())),
        ),
    ),
);

type Notated = Sequence<Parts>;

/// `ResponseData`.
#[derive(Drop)]
pub struct ResponseData {
    pub version: i64,
    pub responder_id: ResponderId,
    pub produced_at: GeneralizedTime,
    pub responses: Vec<SingleResponse>,
    pub response_extensions: Option<Extensions>,
}

impl Represents<Fields> for ResponseData {
    ghost value_of = { λ v. (v.version, (v.responder_id, (v.produced_at, (v.responses, (v.response_extensions, tt))))) };

    fn from_value(
        (version, (responder_id, (produced_at, (responses, (response_extensions, ()))))): Fields,
    ) -> ResponseData {
        ResponseData {
            version,
            responder_id,
            produced_at,
            responses,
            response_extensions,
        }
    }
}

impl Notation for ResponseData {
    type Value = ResponseData;

    type Inner = ();

    ghost means = { represented_by ⟦<ResponseData as Represents<Fields>>⟧.value_of ⟦<Notated as Notation>⟧.means };

    fn has_tag(tag: Tag) -> bool {
        <Notated as Notation>::has_tag(tag)
    }

    fn read(reader: BERReader) -> ASN1Result<ResponseData> {
        read_as::<Notated, ResponseData>(reader)
    }

    fn write(value: &ResponseData, writer: DERWriter<'_>) -> ASN1Result<()> {
        Sequence::<Parts>::write_fields(
            (
                &value.version,
                (
                    &value.responder_id,
                    (
                        &value.produced_at,
                        (&value.responses, (&value.response_extensions, ())),
                    ),
                ),
            ),
            writer,
        )
    }

    fn prepend(
        value: &ResponseData,
        under: Option<Tag>,
        out: &mut PrependBuffer,
    ) -> ASN1Result<()> {
        Sequence::<Parts>::prepend_fields(
            (
                &value.version,
                (
                    &value.responder_id,
                    (
                        &value.produced_at,
                        (&value.responses, (&value.response_extensions, ())),
                    ),
                ),
            ),
            under,
            out,
        )
    }

    fn encoded_len(value: &ResponseData, under: Option<Tag>, mode: BERMode) -> Option<usize> {
        Sequence::<Parts>::fields_len(
            (
                &value.version,
                (
                    &value.responder_id,
                    (
                        &value.produced_at,
                        (&value.responses, (&value.response_extensions, ())),
                    ),
                ),
            ),
            under,
            mode,
        )
    }

    ghost lawful = { λ _. represented_lawful ⟦<ResponseData as Represents<Fields>>⟧.value_of (in_sequence
        (default_part (λ v. int_eq v (pos 0)) (pos 0) (detects_integer (pos 0)) refl (in_explicit 0 (omega arith)
        (int64_law refl).own).own (part (responder_id_law refl).own (part (general_law refl).own (part (in_sequence_of
        (single_response_law refl).own).own (optional_part refl (in_explicit 1 (omega arith) (x509_extensions_law refl).own).own no_parts)))))) };

    ghost non_empty = { λ u m v. element_non_empty _ _ _ _ };
}

impl Message for ResponseData {
    ghost is_unambiguous = { refl };
}

impl Checked for ResponseData {
    fn accepts(value: &ResponseData) -> bool {
        accepts_fields::<Parts, _>((
            &value.version,
            (
                &value.responder_id,
                (
                    &value.produced_at,
                    (&value.responses, (&value.response_extensions, ())),
                ),
            ),
        ))
    }
}
