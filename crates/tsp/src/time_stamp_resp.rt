//! `TimeStampResp` of the module PKIXTSP.
//!
//! ```text
//! TimeStampResp ::= SEQUENCE {
//!     status          PKIStatusInfo,
//!     timeStampToken  TimeStampToken OPTIONAL }
//! ```
ghost use Rattle.std.specs.Prelude.{◌≡◌, ◌↔◌, IsTrue, refl};
ghost use Rattle.yasna_notation.specs.Laws.{element_non_empty, represented_lawful};
ghost use Rattle.yasna_notation.specs.Making.{in_sequence, optional_part, part};
ghost use Rattle.yasna_notation.specs.Notation.{represented_by};
ghost use Rattle.yasna_notation.specs.Parts.{no_parts};
ghost use Rattle.tsp.specs.contracts.content_info.ContentInfoNotation.TheImpl.Laws.{lawful-law as content_info_law};
ghost use Rattle.tsp.specs.contracts.pki_status_info.PkiStatusInfoNotation.TheImpl.Laws.{lawful-law as pki_status_info_law};

use crate::content_info::ContentInfo;
use crate::pki_status_info::PkiStatusInfo;
use yasna::{ASN1Result, BERMode, BERReader, DERWriter, PrependBuffer, Tag};
use yasna_notation::{Message, Notation, Optional, Represents, Sequence, read_as};
use yasna_notation_constraints::{Checked, accepts_fields};

type Parts = (PkiStatusInfo, (Optional<ContentInfo>, ()));

type Fields = (PkiStatusInfo, (Option<ContentInfo>, ()));

type Notated = Sequence<Parts>;

/// `TimeStampResp`.
#[derive(Drop)]
pub struct TimeStampResp {
    pub status: PkiStatusInfo,
    pub time_stamp_token: Option<ContentInfo>,
}

impl Represents<Fields> for TimeStampResp {
    ghost value_of = { λ v. (v.status, (v.time_stamp_token, tt)) };

    fn from_value((status, (time_stamp_token, ())): Fields) -> TimeStampResp {
        TimeStampResp {
            status,
            time_stamp_token,
        }
    }
}

impl Notation for TimeStampResp {
    type Value = TimeStampResp;

    type Inner = ();

    ghost means = { represented_by ⟦<TimeStampResp as Represents<Fields>>⟧.value_of ⟦<Notated as Notation>⟧.means };

    fn has_tag(tag: Tag) -> bool {
        <Notated as Notation>::has_tag(tag)
    }

    fn read(reader: BERReader) -> ASN1Result<TimeStampResp> {
        read_as::<Notated, TimeStampResp>(reader)
    }

    fn write(value: &TimeStampResp, writer: DERWriter<'_>) -> ASN1Result<()> {
        Sequence::<Parts>::write_fields((&value.status, (&value.time_stamp_token, ())), writer)
    }

    fn prepend(
        value: &TimeStampResp,
        under: Option<Tag>,
        out: &mut PrependBuffer,
    ) -> ASN1Result<()> {
        Sequence::<Parts>::prepend_fields(
            (&value.status, (&value.time_stamp_token, ())),
            under,
            out,
        )
    }

    fn encoded_len(value: &TimeStampResp, under: Option<Tag>, mode: BERMode) -> Option<usize> {
        Sequence::<Parts>::fields_len((&value.status, (&value.time_stamp_token, ())), under, mode)
    }

    ghost lawful = { λ _. represented_lawful ⟦<TimeStampResp as Represents<Fields>>⟧.value_of (in_sequence
        (part (pki_status_info_law refl).own (optional_part refl (content_info_law refl).own no_parts))) };

    ghost non_empty = { λ u m v. element_non_empty _ _ _ _ };
}

impl Message for TimeStampResp {
    ghost is_unambiguous = { refl };
}

impl Checked for TimeStampResp {
    fn accepts(value: &TimeStampResp) -> bool {
        accepts_fields::<Parts, _>((&value.status, (&value.time_stamp_token, ())))
    }
}
