//! `CertStatus` of the module OCSP.
//!
//! ```text
//! CertStatus ::= CHOICE {
//!     good     [0] IMPLICIT NULL,
//!     revoked  [1] IMPLICIT RevokedInfo,
//!     unknown  [2] IMPLICIT UnknownInfo }
//! ```
ghost use Rattle.std.specs.Prelude.{◌≡◌, ◌↔◌, IsTrue, Some, refl};
ghost use Rattle.std.proofs.Common.{arith};
ghost use Rattle.yasna_notation.specs.Canonical.{choice_written_as, represented_written};
ghost use Rattle.yasna_notation.specs.Laws.{represented_lawful};
ghost use Rattle.yasna_notation.specs.Making.{alternative, in_choice, in_implicit, context, tag_or};
ghost use Rattle.yasna_notation.specs.Notation.{represented_by};
ghost use Rattle.yasna_notation.specs.Writing.{alternative_written, under_context};
ghost use Rattle.yasna_notation.specs.declared.choices.Either.TheVariants.{First, Second};
ghost use Rattle.yasna_notation.specs.contracts.simple.UnitNotation.TheImpl.Laws.{lawful-law as null_law, non_empty-law as null_non_empty};
ghost use Rattle.yasna_notation.specs.contracts.canonical.UnitCanonicalNotation.TheImpl.Laws.{written-law as null_written};
ghost use Rattle.ocsp.specs.contracts.revoked_info.RevokedInfoNotation.TheImpl.Laws.{lawful-law as revoked_info_law};
ghost use Rattle.ocsp.specs.contracts.revoked_info.RevokedInfoNotation.TheImpl.Laws.{non_empty-law as revoked_info_non_empty};
ghost use Rattle.ocsp.specs.contracts.revoked_info.RevokedInfoCanonicalNotation.TheImpl.Laws.{written-law as revoked_info_written};
ghost use Rattle.std.specs.Prelude.{[]};
ghost use Rattle.ocsp.specs.declared.cert_status.CertStatus.TheVariants.{Good, Revoked, Unknown};

use crate::revoked_info::RevokedInfo;
use yasna::{ASN1Result, BERMode, BERReader, DERWriter, PrependBuffer, Tag};
use yasna_notation::Either::{First, Second};
use yasna_notation::{
    CanonicalNotation, Choice, Context, Either, Implicit, Message, Notation, Represents, read_as,
};
use yasna_notation_constraints::Checked;

type Types = (
    Implicit<Context<0>, ()>,
    (
        Implicit<Context<1>, RevokedInfo>,
        (Implicit<Context<2>, ()>,),
    ),
);

type Sides = Either<(), Either<RevokedInfo, ()>>;

type Notated = Choice<Types>;

/// `CertStatus`.
#[derive(Drop)]
pub enum CertStatus {
    Good,
    Revoked(RevokedInfo),
    Unknown,
}

impl Represents<Sides> for CertStatus {
    ghost value_of = { λ v. elim v [
      | Good ↦ First (tt)
      | Revoked x ↦ Second (First (x))
      | Unknown ↦ Second (Second (tt))
    ] };

    fn from_value(value: Sides) -> CertStatus {
        match value {
            First(()) => CertStatus::Good,
            Second(First(value)) => CertStatus::Revoked(value),
            Second(Second(())) => CertStatus::Unknown,
        }
    }
}

impl Notation for CertStatus {
    type Value = CertStatus;

    type Inner = ();

    ghost means = { represented_by ⟦<CertStatus as Represents<Sides>>⟧.value_of ⟦<Notated as Notation>⟧.means };

    fn has_tag(tag: Tag) -> bool {
        <Notated as Notation>::has_tag(tag)
    }

    fn read(reader: BERReader) -> ASN1Result<CertStatus> {
        read_as::<Notated, CertStatus>(reader)
    }

    fn write(value: &CertStatus, writer: DERWriter<'_>) -> ASN1Result<()> {
        match value {
            CertStatus::Good => <Implicit<Context<0>, ()> as Notation>::write(&(), writer),
            CertStatus::Revoked(value) => <Implicit<Context<1>, RevokedInfo> as Notation>::write(
                value, writer,
            ),
            CertStatus::Unknown => <Implicit<Context<2>, ()> as Notation>::write(&(), writer),
        }
    }

    fn prepend(value: &CertStatus, under: Option<Tag>, out: &mut PrependBuffer) -> ASN1Result<()> {
        match value {
            CertStatus::Good => <Implicit<Context<0>, ()> as Notation>::prepend(&(), under, out),
            CertStatus::Revoked(value) => <Implicit<Context<1>, RevokedInfo> as Notation>::prepend(
                value, under, out,
            ),
            CertStatus::Unknown => <Implicit<Context<2>, ()> as Notation>::prepend(&(), under, out),
        }
    }

    fn encoded_len(value: &CertStatus, under: Option<Tag>, mode: BERMode) -> Option<usize> {
        match value {
            CertStatus::Good => <Implicit<Context<0>, ()> as Notation>::encoded_len(
                &(),
                under,
                mode,
            ),
            CertStatus::Revoked(value) => <Implicit<
                Context<1>,
                RevokedInfo,
            > as Notation>::encoded_len(value, under, mode),
            CertStatus::Unknown => <Implicit<Context<2>, ()> as Notation>::encoded_len(
                &(),
                under,
                mode,
            ),
        }
    }

    ghost lawful = { λ _. represented_lawful ⟦<CertStatus as Represents<Sides>>⟧.value_of (in_choice ⟦<Notated as Notation>⟧.means.encoding_under
        (alternative (in_implicit 0 (omega arith) (null_law refl)).own refl (alternative (in_implicit 1 (omega arith)
        (revoked_info_law refl)).own refl (in_implicit 2 (omega arith) (null_law refl)).own))) };

    ghost non_empty = { λ u m v. elim v as (λ k. ⟦<Notated as Notation>⟧.means.encoding_under u m (⟦<CertStatus as Represents<Sides>>⟧.value_of k) ≡ [] → ⊥) [
      | Good ↦ (null_non_empty (Some (tag_or u (context 0)))) m tt
      | Revoked x ↦ (revoked_info_non_empty (Some (tag_or u (context 1)))) m x
      | Unknown ↦ (null_non_empty (Some (tag_or u (context 2)))) m tt
    ] };
}

impl Message for CertStatus {
    ghost is_unambiguous = { refl };
}

impl CanonicalNotation for CertStatus {
    ghost written = { λ _. represented_written ⟦<CertStatus as Represents<Sides>>⟧.value_of (choice_written_as ⟦<Notated as Notation>⟧.means.encoding_under
        (alternative_written (under_context 0 (omega arith) (null_written refl)).own (alternative_written (under_context 1
        (omega arith) (revoked_info_written refl)).own (under_context 2 (omega arith) (null_written refl)).own))) };
}

impl Checked for CertStatus {
    fn accepts(value: &CertStatus) -> bool {
        match value {
            CertStatus::Good => <Implicit<Context<0>, ()> as Checked>::accepts(&()),
            CertStatus::Revoked(value) => <Implicit<Context<1>, RevokedInfo> as Checked>::accepts(
                value,
            ),
            CertStatus::Unknown => <Implicit<Context<2>, ()> as Checked>::accepts(&()),
        }
    }
}
