//! Protocol data units (RFC 3416, 3).
//!
//! ```text
//! PDUs ::= CHOICE {
//!     get-request       [0] IMPLICIT PDU,
//!     get-next-request  [1] IMPLICIT PDU,
//!     get-bulk-request  [5] IMPLICIT BulkPDU,
//!     response          [2] IMPLICIT PDU,
//!     set-request       [3] IMPLICIT PDU,
//!     inform-request    [6] IMPLICIT PDU,
//!     snmpV2-trap       [7] IMPLICIT PDU,
//!     report            [8] IMPLICIT PDU }
//! ```
ghost use Rattle.std.specs.Prelude.{◌≡◌, ◌↔◌, IsTrue, Some, refl};
ghost use Rattle.std.proofs.Common.{arith};
ghost use Rattle.yasna_notation.specs.Canonical.{represented_written, choice_written_as};
ghost use Rattle.yasna_notation.specs.Laws.{represented_lawful};
ghost use Rattle.yasna_notation.specs.Making.{alternative, alternative_non_empty, in_choice, in_implicit};
ghost use Rattle.yasna_notation.specs.Making.{context, tag_or};
ghost use Rattle.yasna_notation.specs.Notation.{represented_by};
ghost use Rattle.yasna_notation.specs.Writing.{alternative_written, under_context};
ghost use Rattle.snmp.specs.contracts.v2c.bulk_pdu.BulkPduNotation.TheImpl.Laws.{lawful-law as bulk, non_empty-law as bulk_non_empty};
ghost use Rattle.snmp.specs.contracts.v2c.bulk_pdu.BulkPduCanonicalNotation.TheImpl.Laws.{written-law as bulk_written};
ghost use Rattle.snmp.specs.contracts.v2c.pdu.PduNotation.TheImpl.Laws.{lawful-law as pdu, non_empty-law as pdu_non_empty};
ghost use Rattle.snmp.specs.contracts.v2c.pdu.PduCanonicalNotation.TheImpl.Laws.{written-law as pdu_written};
ghost use Rattle.yasna_notation.specs.declared.choices.Either.TheVariants.{First, Second};
ghost use Rattle.snmp.specs.declared.v2c.pdus.Pdus.TheVariants.{GetRequest, GetNextRequest, GetBulkRequest, Response, SetRequest, InformRequest, SnmpV2Trap, Report};

use crate::v2c::bulk_pdu::BulkPdu;
use crate::v2c::pdu::Pdu;
use yasna::{ASN1Result, BERMode, BERReader, DERWriter, PrependBuffer, Tag};
use yasna_notation::Either::{First, Second};
use yasna_notation::{
    Alternatives, CanonicalNotation, Choice, Context, Either, Implicit, Message, Notation,
    Represents, read_as,
};
use yasna_notation_constraints::Checked;

type GetRequestPdu = Implicit<Context<0>, Pdu>;

type GetNextRequestPdu = Implicit<Context<1>, Pdu>;

type GetBulkRequestPdu = Implicit<Context<5>, BulkPdu>;

type ResponsePdu = Implicit<Context<2>, Pdu>;

type SetRequestPdu = Implicit<Context<3>, Pdu>;

type InformRequestPdu = Implicit<Context<6>, Pdu>;

type SnmpV2TrapPdu = Implicit<Context<7>, Pdu>;

type ReportPdu = Implicit<Context<8>, Pdu>;

type Types = (
    GetRequestPdu,
    (
        GetNextRequestPdu,
        (
            GetBulkRequestPdu,
            (
                ResponsePdu,
                (
                    SetRequestPdu,
                    (InformRequestPdu, (SnmpV2TrapPdu, (ReportPdu,))),
                ),
            ),
        ),
    ),
);

type Sides = Either<
    Pdu,
    Either<Pdu, Either<BulkPdu, Either<Pdu, Either<Pdu, Either<Pdu, Either<Pdu, Pdu>>>>>>,
>;

/// A protocol data unit.
#[derive(Drop)]
pub enum Pdus {
    GetRequest(Pdu),
    GetNextRequest(Pdu),
    GetBulkRequest(BulkPdu),
    Response(Pdu),
    SetRequest(Pdu),
    InformRequest(Pdu),
    SnmpV2Trap(Pdu),
    Report(Pdu),
}

impl Represents<Sides> for Pdus {
    ghost value_of = { λ v. elim v [
      | GetRequest x ↦ First x
      | GetNextRequest x ↦ Second (First x)
      | GetBulkRequest x ↦ Second (Second (First x))
      | Response x ↦ Second (Second (Second (First x)))
      | SetRequest x ↦ Second (Second (Second (Second (First x))))
      | InformRequest x ↦ Second (Second (Second (Second (Second (First x)))))
      | SnmpV2Trap x ↦ Second (Second (Second (Second (Second (Second (First x))))))
      | Report x ↦ Second (Second (Second (Second (Second (Second (Second x))))))
    ] };

    fn from_value(value: Sides) -> Pdus {
        match value {
            First(value) => Pdus::GetRequest(value),
            Second(First(value)) => Pdus::GetNextRequest(value),
            Second(Second(First(value))) => Pdus::GetBulkRequest(value),
            Second(Second(Second(First(value)))) => Pdus::Response(value),
            Second(Second(Second(Second(First(value))))) => Pdus::SetRequest(value),
            Second(Second(Second(Second(Second(First(value)))))) => Pdus::InformRequest(value),
            Second(Second(Second(Second(Second(Second(First(value))))))) => Pdus::SnmpV2Trap(value),
            Second(Second(Second(Second(Second(Second(Second(value))))))) => Pdus::Report(value),
        }
    }
}

impl Notation for Pdus {
    type Value = Pdus;

    type Inner = ();

    ghost means = { represented_by ⟦<Pdus as Represents<Sides>>⟧.value_of ⟦<Choice<Types> as Notation>⟧.means };

    fn has_tag(tag: Tag) -> bool {
        <Types as Alternatives>::has_tag(tag)
    }

    fn read(reader: BERReader) -> ASN1Result<Pdus> {
        read_as::<Choice<Types>, Pdus>(reader)
    }

    fn write(value: &Pdus, writer: DERWriter<'_>) -> ASN1Result<()> {
        match value {
            Pdus::GetRequest(value) => <GetRequestPdu as Notation>::write(value, writer),
            Pdus::GetNextRequest(value) => <GetNextRequestPdu as Notation>::write(value, writer),
            Pdus::GetBulkRequest(value) => <GetBulkRequestPdu as Notation>::write(value, writer),
            Pdus::Response(value) => <ResponsePdu as Notation>::write(value, writer),
            Pdus::SetRequest(value) => <SetRequestPdu as Notation>::write(value, writer),
            Pdus::InformRequest(value) => <InformRequestPdu as Notation>::write(value, writer),
            Pdus::SnmpV2Trap(value) => <SnmpV2TrapPdu as Notation>::write(value, writer),
            Pdus::Report(value) => <ReportPdu as Notation>::write(value, writer),
        }
    }

    fn prepend(value: &Pdus, under: Option<Tag>, out: &mut PrependBuffer) -> ASN1Result<()> {
        match value {
            Pdus::GetRequest(value) => <GetRequestPdu as Notation>::prepend(value, under, out),
            Pdus::GetNextRequest(value) => <GetNextRequestPdu as Notation>::prepend(
                value, under, out,
            ),
            Pdus::GetBulkRequest(value) => <GetBulkRequestPdu as Notation>::prepend(
                value, under, out,
            ),
            Pdus::Response(value) => <ResponsePdu as Notation>::prepend(value, under, out),
            Pdus::SetRequest(value) => <SetRequestPdu as Notation>::prepend(value, under, out),
            Pdus::InformRequest(value) => <InformRequestPdu as Notation>::prepend(
                value, under, out,
            ),
            Pdus::SnmpV2Trap(value) => <SnmpV2TrapPdu as Notation>::prepend(value, under, out),
            Pdus::Report(value) => <ReportPdu as Notation>::prepend(value, under, out),
        }
    }

    fn encoded_len(value: &Pdus, under: Option<Tag>, mode: BERMode) -> Option<usize> {
        match value {
            Pdus::GetRequest(value) => <GetRequestPdu as Notation>::encoded_len(value, under, mode),
            Pdus::GetNextRequest(value) => <GetNextRequestPdu as Notation>::encoded_len(
                value, under, mode,
            ),
            Pdus::GetBulkRequest(value) => <GetBulkRequestPdu as Notation>::encoded_len(
                value, under, mode,
            ),
            Pdus::Response(value) => <ResponsePdu as Notation>::encoded_len(value, under, mode),
            Pdus::SetRequest(value) => <SetRequestPdu as Notation>::encoded_len(value, under, mode),
            Pdus::InformRequest(value) => <InformRequestPdu as Notation>::encoded_len(
                value, under, mode,
            ),
            Pdus::SnmpV2Trap(value) => <SnmpV2TrapPdu as Notation>::encoded_len(value, under, mode),
            Pdus::Report(value) => <ReportPdu as Notation>::encoded_len(value, under, mode),
        }
    }

    ghost lawful = { λ _. represented_lawful ⟦<Pdus as Represents<Sides>>⟧.value_of (in_choice ⟦<Choice<Types> as Notation>⟧.means.encoding_under
        (alternative (in_implicit 0 (omega arith) (pdu refl)).own refl (alternative (in_implicit 1 (omega arith) (pdu refl)).own refl
        (alternative (in_implicit 5 (omega arith) (bulk refl)).own refl (alternative (in_implicit 2 (omega arith) (pdu refl)).own refl
        (alternative (in_implicit 3 (omega arith) (pdu refl)).own refl (alternative (in_implicit 6 (omega arith) (pdu refl)).own refl
        (alternative (in_implicit 7 (omega arith) (pdu refl)).own refl (in_implicit 8 (omega arith) (pdu refl)).own)))))))) };

    ghost non_empty = { λ u m v.
        alternative_non_empty (pdu_non_empty (Some (tag_or u (context 0)))) (alternative_non_empty (pdu_non_empty (Some (tag_or u (context 1))))
        (alternative_non_empty (bulk_non_empty (Some (tag_or u (context 5)))) (alternative_non_empty (pdu_non_empty (Some (tag_or u (context 2))))
        (alternative_non_empty (pdu_non_empty (Some (tag_or u (context 3)))) (alternative_non_empty (pdu_non_empty (Some (tag_or u (context 6))))
        (alternative_non_empty (pdu_non_empty (Some (tag_or u (context 7)))) (pdu_non_empty (Some (tag_or u (context 8)))))))))) m (⟦<Pdus as Represents<Sides>>⟧.value_of v) };
}

impl Message for Pdus {
    ghost is_unambiguous = { refl };
}

impl CanonicalNotation for Pdus {
    ghost written = { λ _. represented_written ⟦<Pdus as Represents<Sides>>⟧.value_of (choice_written_as ⟦<Choice<Types> as Notation>⟧.means.encoding_under
        (alternative_written (under_context 0 (omega arith) (pdu_written refl)).own
        (alternative_written (under_context 1 (omega arith) (pdu_written refl)).own
        (alternative_written (under_context 5 (omega arith) (bulk_written refl)).own
        (alternative_written (under_context 2 (omega arith) (pdu_written refl)).own
        (alternative_written (under_context 3 (omega arith) (pdu_written refl)).own
        (alternative_written (under_context 6 (omega arith) (pdu_written refl)).own
        (alternative_written (under_context 7 (omega arith) (pdu_written refl)).own (under_context 8 (omega arith) (pdu_written refl)).own)))))))) };
}

impl Checked for Pdus {
    fn accepts(value: &Pdus) -> bool {
        match value {
            Pdus::GetRequest(value) => GetRequestPdu::accepts(value),
            Pdus::GetNextRequest(value) => GetNextRequestPdu::accepts(value),
            Pdus::GetBulkRequest(value) => GetBulkRequestPdu::accepts(value),
            Pdus::Response(value) => ResponsePdu::accepts(value),
            Pdus::SetRequest(value) => SetRequestPdu::accepts(value),
            Pdus::InformRequest(value) => InformRequestPdu::accepts(value),
            Pdus::SnmpV2Trap(value) => SnmpV2TrapPdu::accepts(value),
            Pdus::Report(value) => ReportPdu::accepts(value),
        }
    }
}
