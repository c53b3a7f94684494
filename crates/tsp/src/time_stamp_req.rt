//! `TimeStampReq` of the module PKIXTSP.
//!
//! ```text
//! TimeStampReq ::= SEQUENCE {
//!     version         INTEGER { v1(1) },
//!     messageImprint  MessageImprint,
//!     reqPolicy       TSAPolicyId OPTIONAL,
//!     nonce           INTEGER OPTIONAL,
//!     certReq         BOOLEAN DEFAULT FALSE,
//!     extensions      [0] IMPLICIT Extensions OPTIONAL }
//! ```
ghost use Rattle.std.specs.Prelude.{◌≡◌, ◌↔◌, IsTrue, not, false, refl};
ghost use Rattle.yasna_notation.specs.Laws.{element_non_empty, represented_lawful};
ghost use Rattle.yasna_notation.specs.Making.{default_part, in_sequence, optional_part, part};
ghost use Rattle.yasna_notation.specs.Notation.{represented_by};
ghost use Rattle.yasna_notation.specs.Parts.{detects_false};
ghost use Rattle.yasna_notation.specs.contracts.simple.BoolNotation.TheImpl.Laws.{lawful-law as flag_law};
ghost use Rattle.yasna_notation.specs.contracts.simple.BigIntegerNotation.TheImpl.Laws.{lawful-law as big_law};
ghost use Rattle.yasna_notation.specs.contracts.simple.ObjectIdentifierNotation.TheImpl.Laws.{lawful-law as oid_law};
ghost use Rattle.tsp.specs.contracts.message_imprint.MessageImprintNotation.TheImpl.Laws.{lawful-law as message_imprint_law};
ghost use Rattle.tsp.specs.contracts.time_stamp_req_parts2.TimeStampReqParts2Parts.TheImpl.Laws.{laws-law as time_stamp_req_parts2_parts};

use crate::message_imprint::MessageImprint;
use crate::time_stamp_req_parts2::TimeStampReqParts2;
use x509::Extensions;
use yasna::models::ObjectIdentifier;
use yasna::{ASN1Result, BERMode, BERReader, DERWriter, PrependBuffer, Tag};
use yasna_notation::{
    BigInteger, Default, False, Message, Notation, Optional, Represents, Sequence, read_as,
};
use yasna_notation_constraints::{Checked, accepts_fields};

type Parts = (
    BigInteger,
    (
        MessageImprint,
        (
            Optional<ObjectIdentifier>,
            (
                Optional<BigInteger>,
                (Default<bool, False>, TimeStampReqParts2),
            ),
        ),
    ),
);

type Fields = (
    (Vec<u8>, bool),
    (
        MessageImprint,
        (
            Option<ObjectIdentifier>,
            (Option<(Vec<u8>, bool)>, (bool, TimeStampReqParts2)),
        ),
    ),
);

type Notated = Sequence<Parts>;

/// `TimeStampReq`.
#[derive(Drop)]
pub struct TimeStampReq {
    pub version: (Vec<u8>, bool),
    pub message_imprint: MessageImprint,
    pub req_policy: Option<ObjectIdentifier>,
    pub nonce: Option<(Vec<u8>, bool)>,
    pub cert_req: bool,
    pub extensions: Option<Extensions>,
}

impl Represents<Fields> for TimeStampReq {
    ghost value_of = { λ v. (v.version, (v.message_imprint, (v.req_policy, (v.nonce, (v.cert_req, record { extensions = v.extensions }))))) };

    fn from_value(
        (
            version,
            (message_imprint, (req_policy, (nonce, (cert_req, TimeStampReqParts2 { extensions })))),
        ): Fields,
    ) -> TimeStampReq {
        TimeStampReq {
            version,
            message_imprint,
            req_policy,
            nonce,
            cert_req,
            extensions,
        }
    }
}

impl Notation for TimeStampReq {
    type Value = TimeStampReq;

    type Inner = ();

    ghost means = { represented_by ⟦<TimeStampReq as Represents<Fields>>⟧.value_of ⟦<Notated as Notation>⟧.means };

    fn has_tag(tag: Tag) -> bool {
        <Notated as Notation>::has_tag(tag)
    }

    fn read(reader: BERReader) -> ASN1Result<TimeStampReq> {
        read_as::<Notated, TimeStampReq>(reader)
    }

    fn write(value: &TimeStampReq, writer: DERWriter<'_>) -> ASN1Result<()> {
        Sequence::<Parts>::write_fields(
            (
                &value.version,
                (
                    &value.message_imprint,
                    (&value.req_policy, (&value.nonce, (&value.cert_req, value))),
                ),
            ),
            writer,
        )
    }

    fn prepend(
        value: &TimeStampReq,
        under: Option<Tag>,
        out: &mut PrependBuffer,
    ) -> ASN1Result<()> {
        Sequence::<Parts>::prepend_fields(
            (
                &value.version,
                (
                    &value.message_imprint,
                    (&value.req_policy, (&value.nonce, (&value.cert_req, value))),
                ),
            ),
            under,
            out,
        )
    }

    fn encoded_len(value: &TimeStampReq, under: Option<Tag>, mode: BERMode) -> Option<usize> {
        Sequence::<Parts>::fields_len(
            (
                &value.version,
                (
                    &value.message_imprint,
                    (&value.req_policy, (&value.nonce, (&value.cert_req, value))),
                ),
            ),
            under,
            mode,
        )
    }

    ghost lawful = { λ _. represented_lawful ⟦<TimeStampReq as Represents<Fields>>⟧.value_of (in_sequence
        (part (big_law refl).own (part (message_imprint_law refl).own (optional_part refl (oid_law refl).own (optional_part refl
        (big_law refl).own (default_part not false detects_false refl (flag_law refl).own (time_stamp_req_parts2_parts refl))))))) };

    ghost non_empty = { λ u m v. element_non_empty _ _ _ _ };
}

impl Message for TimeStampReq {
    ghost is_unambiguous = { refl };
}

impl Checked for TimeStampReq {
    fn accepts(value: &TimeStampReq) -> bool {
        accepts_fields::<Parts, _>((
            &value.version,
            (
                &value.message_imprint,
                (&value.req_policy, (&value.nonce, (&value.cert_req, value))),
            ),
        ))
    }
}
