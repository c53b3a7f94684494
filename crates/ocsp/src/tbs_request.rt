//! `TBSRequest` of the module OCSP.
//!
//! ```text
//! TBSRequest ::= SEQUENCE {
//!     version            [0] Version DEFAULT v1,
//!     requestorName      [1] GeneralName OPTIONAL,
//!     requestList        SEQUENCE OF Request,
//!     requestExtensions  [2] Extensions OPTIONAL }
//! ```
//!
//! It rejects numbers that the module allows:
//!
//! - `version`: a number past 64 bits is rejected.
ghost use Rattle.std.specs.Prelude.{◌≡◌, ◌↔◌, IsTrue, pos, refl};
ghost use Rattle.std.specs.Ordering.{int_eq};
ghost use Rattle.std.proofs.Common.{arith};
ghost use Rattle.yasna_notation.specs.Laws.{element_non_empty, represented_lawful};
ghost use Rattle.yasna_notation.specs.Making.{default_part, in_explicit, in_sequence, in_sequence_of, optional_part, part};
ghost use Rattle.yasna_notation.specs.Notation.{represented_by};
ghost use Rattle.yasna_notation.specs.Parts.{no_parts};
ghost use Rattle.yasna_notation_constraints.specs.Defaults.{detects_integer};
ghost use Rattle.yasna_notation.specs.contracts.simple.I64Notation.TheImpl.Laws.{lawful-law as int64_law};
ghost use Rattle.ocsp.specs.contracts.request.RequestNotation.TheImpl.Laws.{lawful-law as request_law};
ghost use Rattle.x509.specs.contracts.extensions.ExtensionsNotation.TheImpl.Laws.{lawful-law as x509_extensions_law};
ghost use Rattle.pkix_implicit.specs.contracts.general_name.GeneralNameNotation.TheImpl.Laws.{lawful-law as pkix_implicit_general_name_law};

use crate::request::Request;
use pkix_implicit::GeneralName;
use x509::Extensions;
use yasna::{ASN1Result, BERMode, BERReader, DERWriter, PrependBuffer, Tag};
use yasna_notation::{
    Context, Default, Explicit, Message, Notation, Optional, Represents, Sequence, SequenceOf,
    read_as,
};
use yasna_notation_constraints::{Checked, Signed, accepts_fields};

type Parts = (
    Default<Explicit<Context<0>, i64>, Signed<0>>,
    (
        Optional<Explicit<Context<1>, GeneralName>>,
        (
            SequenceOf<Request>,
            (Optional<Explicit<Context<2>, Extensions>>, ()),
        ),
    ),
);

type Fields = (
    i64,
    (
        Option<GeneralName>,
        (Vec<Request>, (Option<Extensions>, ())),
    ),
);

type Notated = Sequence<Parts>;

/// `TBSRequest`.
#[derive(Drop)]
pub struct TbsRequest {
    pub version: i64,
    pub requestor_name: Option<GeneralName>,
    pub request_list: Vec<Request>,
    pub request_extensions: Option<Extensions>,
}

impl Represents<Fields> for TbsRequest {
    ghost value_of = { λ v. (v.version, (v.requestor_name, (v.request_list, (v.request_extensions, tt)))) };

    fn from_value(
        (version, (requestor_name, (request_list, (request_extensions, ())))): Fields,
    ) -> TbsRequest {
        TbsRequest {
            version,
            requestor_name,
            request_list,
            request_extensions,
        }
    }
}

impl Notation for TbsRequest {
    type Value = TbsRequest;

    type Inner = ();

    ghost means = { represented_by ⟦<TbsRequest as Represents<Fields>>⟧.value_of ⟦<Notated as Notation>⟧.means };

    fn has_tag(tag: Tag) -> bool {
        <Notated as Notation>::has_tag(tag)
    }

    fn read(reader: BERReader) -> ASN1Result<TbsRequest> {
        read_as::<Notated, TbsRequest>(reader)
    }

    fn write(value: &TbsRequest, writer: DERWriter<'_>) -> ASN1Result<()> {
        Sequence::<Parts>::write_fields(
            (
                &value.version,
                (
                    &value.requestor_name,
                    (&value.request_list, (&value.request_extensions, ())),
                ),
            ),
            writer,
        )
    }

    fn prepend(value: &TbsRequest, under: Option<Tag>, out: &mut PrependBuffer) -> ASN1Result<()> {
        Sequence::<Parts>::prepend_fields(
            (
                &value.version,
                (
                    &value.requestor_name,
                    (&value.request_list, (&value.request_extensions, ())),
                ),
            ),
            under,
            out,
        )
    }

    fn encoded_len(value: &TbsRequest, under: Option<Tag>, mode: BERMode) -> Option<usize> {
        Sequence::<Parts>::fields_len(
            (
                &value.version,
                (
                    &value.requestor_name,
                    (&value.request_list, (&value.request_extensions, ())),
                ),
            ),
            under,
            mode,
        )
    }

    ghost lawful = { λ _. represented_lawful ⟦<TbsRequest as Represents<Fields>>⟧.value_of (in_sequence
        (default_part (λ v. int_eq v (pos 0)) (pos 0) (detects_integer (pos 0)) refl (in_explicit 0 (omega arith)
        (int64_law refl).own).own (optional_part refl (in_explicit 1 (omega arith) (pkix_implicit_general_name_law refl).own).own
        (part (in_sequence_of (request_law refl).own).own (optional_part refl (in_explicit 2 (omega arith) (x509_extensions_law refl).own).own no_parts))))) };

    ghost non_empty = { λ u m v. element_non_empty _ _ _ _ };
}

impl Message for TbsRequest {
    ghost is_unambiguous = { refl };
}

impl Checked for TbsRequest {
    fn accepts(value: &TbsRequest) -> bool {
        accepts_fields::<Parts, _>((
            &value.version,
            (
                &value.requestor_name,
                (&value.request_list, (&value.request_extensions, ())),
            ),
        ))
    }
}
