//! `TSTInfo` of the module PKIXTSP.
//!
//! ```text
//! TSTInfo ::= SEQUENCE {
//!     version         INTEGER { v1(1) },
//!     policy          TSAPolicyId,
//!     messageImprint  MessageImprint,
//!     serialNumber    INTEGER,
//!     genTime         GeneralizedTime,
//!     accuracy        Accuracy OPTIONAL,
//!     ordering        BOOLEAN DEFAULT FALSE,
//!     nonce           INTEGER OPTIONAL,
//!     tsa             [0] GeneralName OPTIONAL,
//!     extensions      [1] IMPLICIT Extensions OPTIONAL }
//! ```
ghost use Rattle.std.specs.Prelude.{◌≡◌, ◌↔◌, IsTrue, refl};
ghost use Rattle.yasna_notation.specs.Laws.{element_non_empty, represented_lawful};
ghost use Rattle.yasna_notation.specs.Making.{in_sequence, optional_part, part};
ghost use Rattle.yasna_notation.specs.Notation.{represented_by};
ghost use Rattle.yasna_notation.specs.contracts.simple.BigIntegerNotation.TheImpl.Laws.{lawful-law as big_law};
ghost use Rattle.yasna_notation.specs.contracts.simple.ObjectIdentifierNotation.TheImpl.Laws.{lawful-law as oid_law};
ghost use Rattle.yasna_notation.specs.contracts.times.GeneralizedTimeNotation.TheImpl.Laws.{lawful-law as general_law};
ghost use Rattle.tsp.specs.contracts.accuracy.AccuracyNotation.TheImpl.Laws.{lawful-law as accuracy_law};
ghost use Rattle.tsp.specs.contracts.message_imprint.MessageImprintNotation.TheImpl.Laws.{lawful-law as message_imprint_law};
ghost use Rattle.tsp.specs.contracts.tst_info_parts2.TstInfoParts2Parts.TheImpl.Laws.{laws-law as tst_info_parts2_parts};

use crate::accuracy::Accuracy;
use crate::message_imprint::MessageImprint;
use crate::tst_info_parts2::TstInfoParts2;
use crate::tst_info_parts3::TstInfoParts3;
use pkix_implicit::GeneralName;
use x509::Extensions;
use yasna::models::{GeneralizedTime, ObjectIdentifier};
use yasna::{ASN1Result, BERMode, BERReader, DERWriter, PrependBuffer, Tag};
use yasna_notation::{BigInteger, Message, Notation, Optional, Represents, Sequence, read_as};
use yasna_notation_constraints::{Checked, accepts_fields};

type Parts = (
    BigInteger,
    (
        ObjectIdentifier,
        (
            MessageImprint,
            (
                BigInteger,
                (GeneralizedTime, (Optional<Accuracy>, TstInfoParts2)),
            ),
        ),
    ),
);

type Fields = (
    (Vec<u8>, bool),
    (
        ObjectIdentifier,
        (
            MessageImprint,
            (
                (Vec<u8>, bool),
                (GeneralizedTime, (Option<Accuracy>, TstInfoParts2)),
            ),
        ),
    ),
);

type Notated = Sequence<Parts>;

/// `TSTInfo`.
#[derive(Drop)]
pub struct TstInfo {
    pub version: (Vec<u8>, bool),
    pub policy: ObjectIdentifier,
    pub message_imprint: MessageImprint,
    pub serial_number: (Vec<u8>, bool),
    pub gen_time: GeneralizedTime,
    pub accuracy: Option<Accuracy>,
    pub ordering: bool,
    pub nonce: Option<(Vec<u8>, bool)>,
    pub tsa: Option<GeneralName>,
    pub extensions: Option<Extensions>,
}

impl Represents<Fields> for TstInfo {
    ghost value_of = { λ v. (v.version, (v.policy, (v.message_imprint, (v.serial_number, (v.gen_time, (v.accuracy, record { ordering = v.ordering; nonce = v.nonce; tsa = v.tsa; others = record { extensions = v.extensions } })))))) };

    fn from_value(
        (
            version,
            (
                policy,
                (
                    message_imprint,
                    (
                        serial_number,
                        (
                            gen_time,
                            (
                                accuracy,
                                TstInfoParts2 {
                                    ordering,
                                    nonce,
                                    tsa,
                                    others: TstInfoParts3 { extensions },
                                },
                            ),
                        ),
                    ),
                ),
            ),
        ): Fields,
    ) -> TstInfo {
        TstInfo {
            version,
            policy,
            message_imprint,
            serial_number,
            gen_time,
            accuracy,
            ordering,
            nonce,
            tsa,
            extensions,
        }
    }
}

impl Notation for TstInfo {
    type Value = TstInfo;

    type Inner = ();

    ghost means = { represented_by ⟦<TstInfo as Represents<Fields>>⟧.value_of ⟦<Notated as Notation>⟧.means };

    fn has_tag(tag: Tag) -> bool {
        <Notated as Notation>::has_tag(tag)
    }

    fn read(reader: BERReader) -> ASN1Result<TstInfo> {
        read_as::<Notated, TstInfo>(reader)
    }

    fn write(value: &TstInfo, writer: DERWriter<'_>) -> ASN1Result<()> {
        Sequence::<Parts>::write_fields(
            (
                &value.version,
                (
                    &value.policy,
                    (
                        &value.message_imprint,
                        (
                            &value.serial_number,
                            (&value.gen_time, (&value.accuracy, value)),
                        ),
                    ),
                ),
            ),
            writer,
        )
    }

    fn prepend(value: &TstInfo, under: Option<Tag>, out: &mut PrependBuffer) -> ASN1Result<()> {
        Sequence::<Parts>::prepend_fields(
            (
                &value.version,
                (
                    &value.policy,
                    (
                        &value.message_imprint,
                        (
                            &value.serial_number,
                            (&value.gen_time, (&value.accuracy, value)),
                        ),
                    ),
                ),
            ),
            under,
            out,
        )
    }

    fn encoded_len(value: &TstInfo, under: Option<Tag>, mode: BERMode) -> Option<usize> {
        Sequence::<Parts>::fields_len(
            (
                &value.version,
                (
                    &value.policy,
                    (
                        &value.message_imprint,
                        (
                            &value.serial_number,
                            (&value.gen_time, (&value.accuracy, value)),
                        ),
                    ),
                ),
            ),
            under,
            mode,
        )
    }

    ghost lawful = { λ _. represented_lawful ⟦<TstInfo as Represents<Fields>>⟧.value_of (in_sequence
        (part (big_law refl).own (part (oid_law refl).own (part (message_imprint_law refl).own (part (big_law refl).own
        (part (general_law refl).own (optional_part refl (accuracy_law refl).own (tst_info_parts2_parts refl)))))))) };

    ghost non_empty = { λ u m v. element_non_empty _ _ _ _ };
}

impl Message for TstInfo {
    ghost is_unambiguous = { refl };
}

impl Checked for TstInfo {
    fn accepts(value: &TstInfo) -> bool {
        accepts_fields::<Parts, _>((
            &value.version,
            (
                &value.policy,
                (
                    &value.message_imprint,
                    (
                        &value.serial_number,
                        (&value.gen_time, (&value.accuracy, value)),
                    ),
                ),
            ),
        ))
    }
}
