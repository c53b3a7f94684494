//! `RevokedInfo` of the module OCSP.
//!
//! ```text
//! RevokedInfo ::= SEQUENCE {
//!     revocationTime    GeneralizedTime,
//!     revocationReason  [0] CRLReason OPTIONAL }
//! ```
ghost use Rattle.std.specs.Prelude.{◌≡◌, ◌↔◌, IsTrue, refl};
ghost use Rattle.std.proofs.Common.{arith};
ghost use Rattle.yasna_notation.specs.Canonical.{represented_written};
ghost use Rattle.yasna_notation.specs.Laws.{element_non_empty, represented_lawful};
ghost use Rattle.yasna_notation.specs.Making.{in_explicit, in_sequence, optional_part, part};
ghost use Rattle.yasna_notation.specs.Notation.{represented_by};
ghost use Rattle.yasna_notation.specs.Parts.{no_parts};
ghost use Rattle.yasna_notation.specs.Writing.{explicit_written, no_part_written, optional_written, part_written, sequence_written};
ghost use Rattle.yasna_notation_types.specs.Named.{named_lawful, named_written};
ghost use Rattle.yasna_notation.specs.contracts.times.GeneralizedTimeNotation.TheImpl.Laws.{lawful-law as general_law};
ghost use Rattle.yasna_notation.specs.contracts.canonical.GeneralizedTimeCanonicalNotation.TheImpl.Laws.{written-law as general_written};
ghost use Rattle.pkix_implicit.specs.CrlReason.{crl_reason_number as pkix_implicit_crl_reason_number};
ghost use Rattle.pkix_implicit.specs.CrlReason.{crl_reason_named as pkix_implicit_crl_reason_named};
ghost use Rattle.pkix_implicit.specs.CrlReason.{crl_reason_writable as pkix_implicit_crl_reason_writable};

use pkix_implicit::CrlReason;
use yasna::models::GeneralizedTime;
use yasna::{ASN1Result, BERMode, BERReader, DERWriter, PrependBuffer, Tag};
use yasna_notation::{
    CanonicalNotation, Context, Explicit, Message, Notation, Optional, Represents, Sequence,
    read_as,
};
use yasna_notation_constraints::{Checked, accepts_fields};
use yasna_notation_types::Named;

type Parts = (
    GeneralizedTime,
    (Optional<Explicit<Context<0>, Named<CrlReason>>>, ()),
);

type Fields = (GeneralizedTime, (Option<CrlReason>, ()));

type Notated = Sequence<Parts>;

/// `RevokedInfo`.
#[derive(Drop)]
pub struct RevokedInfo {
    pub revocation_time: GeneralizedTime,
    pub revocation_reason: Option<CrlReason>,
}

impl Represents<Fields> for RevokedInfo {
    ghost value_of = { λ v. (v.revocation_time, (v.revocation_reason, tt)) };

    fn from_value((revocation_time, (revocation_reason, ())): Fields) -> RevokedInfo {
        RevokedInfo {
            revocation_time,
            revocation_reason,
        }
    }
}

impl Notation for RevokedInfo {
    type Value = RevokedInfo;

    type Inner = ();

    ghost means = { represented_by ⟦<RevokedInfo as Represents<Fields>>⟧.value_of ⟦<Notated as Notation>⟧.means };

    fn has_tag(tag: Tag) -> bool {
        <Notated as Notation>::has_tag(tag)
    }

    fn read(reader: BERReader) -> ASN1Result<RevokedInfo> {
        read_as::<Notated, RevokedInfo>(reader)
    }

    fn write(value: &RevokedInfo, writer: DERWriter<'_>) -> ASN1Result<()> {
        Sequence::<Parts>::write_fields(
            (&value.revocation_time, (&value.revocation_reason, ())),
            writer,
        )
    }

    fn prepend(value: &RevokedInfo, under: Option<Tag>, out: &mut PrependBuffer) -> ASN1Result<()> {
        Sequence::<Parts>::prepend_fields(
            (&value.revocation_time, (&value.revocation_reason, ())),
            under,
            out,
        )
    }

    fn encoded_len(value: &RevokedInfo, under: Option<Tag>, mode: BERMode) -> Option<usize> {
        Sequence::<Parts>::fields_len(
            (&value.revocation_time, (&value.revocation_reason, ())),
            under,
            mode,
        )
    }

    ghost lawful = { λ _. represented_lawful ⟦<RevokedInfo as Represents<Fields>>⟧.value_of (in_sequence
        (part (general_law refl).own (optional_part refl (in_explicit 0 (omega arith) (named_lawful pkix_implicit_crl_reason_number pkix_implicit_crl_reason_named pkix_implicit_crl_reason_writable).own).own no_parts))) };

    ghost non_empty = { λ u m v. element_non_empty _ _ _ _ };
}

impl Message for RevokedInfo {
    ghost is_unambiguous = { refl };
}

impl CanonicalNotation for RevokedInfo {
    ghost written = { λ _. represented_written ⟦<RevokedInfo as Represents<Fields>>⟧.value_of (sequence_written
        (part_written (general_written refl).own (optional_written (explicit_written (named_written pkix_implicit_crl_reason_number pkix_implicit_crl_reason_named pkix_implicit_crl_reason_writable).own 0
        (omega arith)).own no_part_written))) };
}

impl Checked for RevokedInfo {
    fn accepts(value: &RevokedInfo) -> bool {
        accepts_fields::<Parts, _>((&value.revocation_time, (&value.revocation_reason, ())))
    }
}
