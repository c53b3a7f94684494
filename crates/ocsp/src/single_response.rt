//! `SingleResponse` of the module OCSP.
//!
//! ```text
//! SingleResponse ::= SEQUENCE {
//!     certID            CertID,
//!     certStatus        CertStatus,
//!     thisUpdate        GeneralizedTime,
//!     nextUpdate        [0] GeneralizedTime OPTIONAL,
//!     singleExtensions  [1] Extensions OPTIONAL }
//! ```
ghost use Rattle.std.specs.Prelude.{◌≡◌, ◌↔◌, IsTrue, refl};
ghost use Rattle.std.proofs.Common.{arith};
ghost use Rattle.yasna_notation.specs.Laws.{element_non_empty, represented_lawful};
ghost use Rattle.yasna_notation.specs.Making.{in_explicit, in_sequence, optional_part, part};
ghost use Rattle.yasna_notation.specs.Notation.{represented_by};
ghost use Rattle.yasna_notation.specs.Parts.{no_parts};
ghost use Rattle.yasna_notation.specs.contracts.times.GeneralizedTimeNotation.TheImpl.Laws.{lawful-law as general_law};
ghost use Rattle.ocsp.specs.contracts.cert_id.CertIdNotation.TheImpl.Laws.{lawful-law as cert_id_law};
ghost use Rattle.ocsp.specs.contracts.cert_status.CertStatusNotation.TheImpl.Laws.{lawful-law as cert_status_law};
ghost use Rattle.x509.specs.contracts.extensions.ExtensionsNotation.TheImpl.Laws.{lawful-law as x509_extensions_law};

use crate::cert_id::CertId;
use crate::cert_status::CertStatus;
use x509::Extensions;
use yasna::models::GeneralizedTime;
use yasna::{ASN1Result, BERMode, BERReader, DERWriter, PrependBuffer, Tag};
use yasna_notation::{
    Context, Explicit, Message, Notation, Optional, Represents, Sequence, read_as,
};
use yasna_notation_constraints::{Checked, accepts_fields};

type Parts = (
    CertId,
    (
        CertStatus,
        (
            GeneralizedTime,
            (
                Optional<Explicit<Context<0>, GeneralizedTime>>,
                (Optional<Explicit<Context<1>, Extensions>>, ()),
            ),
        ),
    ),
);

type Fields = (
    CertId,
    (
        CertStatus,
        (
            GeneralizedTime,
            (Option<GeneralizedTime>, (Option<Extensions>, ())),
        ),
    ),
);

type Notated = Sequence<Parts>;

/// `SingleResponse`.
#[derive(Drop)]
pub struct SingleResponse {
    pub cert_id: CertId,
    pub cert_status: CertStatus,
    pub this_update: GeneralizedTime,
    pub next_update: Option<GeneralizedTime>,
    pub single_extensions: Option<Extensions>,
}

impl Represents<Fields> for SingleResponse {
    ghost value_of = { λ v. (v.cert_id, (v.cert_status, (v.this_update, (v.next_update, (v.single_extensions, tt))))) };

    fn from_value(
        (cert_id, (cert_status, (this_update, (next_update, (single_extensions, ()))))): Fields,
    ) -> SingleResponse {
        SingleResponse {
            cert_id,
            cert_status,
            this_update,
            next_update,
            single_extensions,
        }
    }
}

impl Notation for SingleResponse {
    type Value = SingleResponse;

    type Inner = ();

    ghost means = { represented_by ⟦<SingleResponse as Represents<Fields>>⟧.value_of ⟦<Notated as Notation>⟧.means };

    fn has_tag(tag: Tag) -> bool {
        <Notated as Notation>::has_tag(tag)
    }

    fn read(reader: BERReader) -> ASN1Result<SingleResponse> {
        read_as::<Notated, SingleResponse>(reader)
    }

    fn write(value: &SingleResponse, writer: DERWriter<'_>) -> ASN1Result<()> {
        Sequence::<Parts>::write_fields(
            (
                &value.cert_id,
                (
                    &value.cert_status,
                    (
                        &value.this_update,
                        (&value.next_update, (&value.single_extensions, ())),
                    ),
                ),
            ),
            writer,
        )
    }

    fn prepend(
        value: &SingleResponse,
        under: Option<Tag>,
        out: &mut PrependBuffer,
    ) -> ASN1Result<()> {
        Sequence::<Parts>::prepend_fields(
            (
                &value.cert_id,
                (
                    &value.cert_status,
                    (
                        &value.this_update,
                        (&value.next_update, (&value.single_extensions, ())),
                    ),
                ),
            ),
            under,
            out,
        )
    }

    fn encoded_len(value: &SingleResponse, under: Option<Tag>, mode: BERMode) -> Option<usize> {
        Sequence::<Parts>::fields_len(
            (
                &value.cert_id,
                (
                    &value.cert_status,
                    (
                        &value.this_update,
                        (&value.next_update, (&value.single_extensions, ())),
                    ),
                ),
            ),
            under,
            mode,
        )
    }

    ghost lawful = { λ _. represented_lawful ⟦<SingleResponse as Represents<Fields>>⟧.value_of (in_sequence
        (part (cert_id_law refl).own (part (cert_status_law refl).own (part (general_law refl).own (optional_part refl
        (in_explicit 0 (omega arith) (general_law refl).own).own (optional_part refl (in_explicit 1 (omega arith)
        (x509_extensions_law refl).own).own no_parts)))))) };

    ghost non_empty = { λ u m v. element_non_empty _ _ _ _ };
}

impl Message for SingleResponse {
    ghost is_unambiguous = { refl };
}

impl Checked for SingleResponse {
    fn accepts(value: &SingleResponse) -> bool {
        accepts_fields::<Parts, _>((
            &value.cert_id,
            (
                &value.cert_status,
                (
                    &value.this_update,
                    (&value.next_update, (&value.single_extensions, ())),
                ),
            ),
        ))
    }
}
