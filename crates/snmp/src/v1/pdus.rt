//! Protocol data units of SNMPv1 (RFC 1157, 4.1).
//!
//! ```text
//! PDUs ::= CHOICE {
//!     get-request       [0] IMPLICIT PDU,
//!     get-next-request  [1] IMPLICIT PDU,
//!     get-response      [2] IMPLICIT PDU,
//!     set-request       [3] IMPLICIT PDU,
//!     trap              [4] IMPLICIT Trap-PDU }
//! ```
ghost use Rattle.std.specs.Prelude.{◌≡◌, ◌↔◌, IsTrue, Some, refl};
ghost use Rattle.std.proofs.Common.{arith};
ghost use Rattle.yasna_notation.specs.Canonical.{represented_written, choice_written_as};
ghost use Rattle.yasna_notation.specs.Laws.{represented_lawful};
ghost use Rattle.yasna_notation.specs.Making.{alternative, alternative_non_empty, in_choice, in_implicit};
ghost use Rattle.yasna_notation.specs.Making.{context, tag_or};
ghost use Rattle.yasna_notation.specs.Notation.{represented_by};
ghost use Rattle.yasna_notation.specs.Writing.{alternative_written, under_context};
ghost use Rattle.snmp.specs.contracts.v1.pdu.PduNotation.TheImpl.Laws.{lawful-law as pdu1, non_empty-law as pdu1_non_empty};
ghost use Rattle.snmp.specs.contracts.v1.pdu.PduCanonicalNotation.TheImpl.Laws.{written-law as pdu1_written};
ghost use Rattle.snmp.specs.contracts.v1.trap_pdu.TrapPduNotation.TheImpl.Laws.{lawful-law as trap, non_empty-law as trap_non_empty};
ghost use Rattle.snmp.specs.contracts.v1.trap_pdu.TrapPduCanonicalNotation.TheImpl.Laws.{written-law as trap_written};
ghost use Rattle.yasna_notation.specs.declared.choices.Either.TheVariants.{First, Second};
ghost use Rattle.snmp.specs.declared.v1.pdus.Pdus.TheVariants.{GetRequest, GetNextRequest, GetResponse, SetRequest, Trap};

use crate::v1::pdu::Pdu;
use crate::v1::trap_pdu::TrapPdu;
use yasna::{ASN1Result, BERMode, BERReader, DERWriter, PrependBuffer, Tag};
use yasna_notation::Either::{First, Second};
use yasna_notation::{
    Alternatives, CanonicalNotation, Choice, Context, Either, Implicit, Message, Notation,
    Represents, read_as,
};
use yasna_notation_constraints::Checked;

type GetRequestPdu = Implicit<Context<0>, Pdu>;

type GetNextRequestPdu = Implicit<Context<1>, Pdu>;

type GetResponsePdu = Implicit<Context<2>, Pdu>;

type SetRequestPdu = Implicit<Context<3>, Pdu>;

type Trap = Implicit<Context<4>, TrapPdu>;

type Types = (
    GetRequestPdu,
    (
        GetNextRequestPdu,
        (GetResponsePdu, (SetRequestPdu, (Trap,))),
    ),
);

type Sides = Either<Pdu, Either<Pdu, Either<Pdu, Either<Pdu, TrapPdu>>>>;

/// A protocol data unit.
#[derive(Drop)]
pub enum Pdus {
    GetRequest(Pdu),
    GetNextRequest(Pdu),
    GetResponse(Pdu),
    SetRequest(Pdu),
    Trap(TrapPdu),
}

impl Represents<Sides> for Pdus {
    ghost value_of = { λ v. elim v [
      | GetRequest x ↦ First x
      | GetNextRequest x ↦ Second (First x)
      | GetResponse x ↦ Second (Second (First x))
      | SetRequest x ↦ Second (Second (Second (First x)))
      | Trap x ↦ Second (Second (Second (Second x)))
    ] };

    fn from_value(value: Sides) -> Pdus {
        match value {
            First(value) => Pdus::GetRequest(value),
            Second(First(value)) => Pdus::GetNextRequest(value),
            Second(Second(First(value))) => Pdus::GetResponse(value),
            Second(Second(Second(First(value)))) => Pdus::SetRequest(value),
            Second(Second(Second(Second(value)))) => Pdus::Trap(value),
        }
    }
}

impl Notation for Pdus {
    type Value = Pdus;

    type Inner = ();

    ghost means = { represented_by ⟦<Pdus as Represents<Sides>>⟧.value_of ⟦<Choice<Types> as Notation>⟧.means };

    fn has_tag(tag: Tag) -> bool {
        <Types as Alternatives>::has_tag(tag)
    }

    fn read(reader: BERReader) -> ASN1Result<Pdus> {
        read_as::<Choice<Types>, Pdus>(reader)
    }

    fn write(value: &Pdus, writer: DERWriter<'_>) -> ASN1Result<()> {
        match value {
            Pdus::GetRequest(value) => <GetRequestPdu as Notation>::write(value, writer),
            Pdus::GetNextRequest(value) => <GetNextRequestPdu as Notation>::write(value, writer),
            Pdus::GetResponse(value) => <GetResponsePdu as Notation>::write(value, writer),
            Pdus::SetRequest(value) => <SetRequestPdu as Notation>::write(value, writer),
            Pdus::Trap(value) => <Trap as Notation>::write(value, writer),
        }
    }

    fn prepend(value: &Pdus, under: Option<Tag>, out: &mut PrependBuffer) -> ASN1Result<()> {
        match value {
            Pdus::GetRequest(value) => <GetRequestPdu as Notation>::prepend(value, under, out),
            Pdus::GetNextRequest(value) => <GetNextRequestPdu as Notation>::prepend(
                value, under, out,
            ),
            Pdus::GetResponse(value) => <GetResponsePdu as Notation>::prepend(value, under, out),
            Pdus::SetRequest(value) => <SetRequestPdu as Notation>::prepend(value, under, out),
            Pdus::Trap(value) => <Trap as Notation>::prepend(value, under, out),
        }
    }

    fn encoded_len(value: &Pdus, under: Option<Tag>, mode: BERMode) -> Option<usize> {
        match value {
            Pdus::GetRequest(value) => <GetRequestPdu as Notation>::encoded_len(value, under, mode),
            Pdus::GetNextRequest(value) => <GetNextRequestPdu as Notation>::encoded_len(
                value, under, mode,
            ),
            Pdus::GetResponse(value) => <GetResponsePdu as Notation>::encoded_len(
                value, under, mode,
            ),
            Pdus::SetRequest(value) => <SetRequestPdu as Notation>::encoded_len(value, under, mode),
            Pdus::Trap(value) => <Trap as Notation>::encoded_len(value, under, mode),
        }
    }

    ghost lawful = { λ _. represented_lawful ⟦<Pdus as Represents<Sides>>⟧.value_of (in_choice ⟦<Choice<Types> as Notation>⟧.means.encoding_under
        (alternative (in_implicit 0 (omega arith) (pdu1 refl)).own refl (alternative (in_implicit 1 (omega arith) (pdu1 refl)).own refl
        (alternative (in_implicit 2 (omega arith) (pdu1 refl)).own refl
        (alternative (in_implicit 3 (omega arith) (pdu1 refl)).own refl (in_implicit 4 (omega arith) (trap refl)).own))))) };

    ghost non_empty = { λ u m v.
        alternative_non_empty (pdu1_non_empty (Some (tag_or u (context 0)))) (alternative_non_empty (pdu1_non_empty (Some (tag_or u (context 1))))
        (alternative_non_empty (pdu1_non_empty (Some (tag_or u (context 2))))
        (alternative_non_empty (pdu1_non_empty (Some (tag_or u (context 3)))) (trap_non_empty (Some (tag_or u (context 4))))))) m (⟦<Pdus as Represents<Sides>>⟧.value_of v) };
}

impl Message for Pdus {
    ghost is_unambiguous = { refl };
}

impl CanonicalNotation for Pdus {
    ghost written = { λ _. represented_written ⟦<Pdus as Represents<Sides>>⟧.value_of (choice_written_as ⟦<Choice<Types> as Notation>⟧.means.encoding_under
        (alternative_written (under_context 0 (omega arith) (pdu1_written refl)).own
        (alternative_written (under_context 1 (omega arith) (pdu1_written refl)).own
        (alternative_written (under_context 2 (omega arith) (pdu1_written refl)).own
        (alternative_written (under_context 3 (omega arith) (pdu1_written refl)).own (under_context 4 (omega arith) (trap_written refl)).own))))) };
}

impl Checked for Pdus {
    fn accepts(value: &Pdus) -> bool {
        match value {
            Pdus::GetRequest(value) => GetRequestPdu::accepts(value),
            Pdus::GetNextRequest(value) => GetNextRequestPdu::accepts(value),
            Pdus::GetResponse(value) => GetResponsePdu::accepts(value),
            Pdus::SetRequest(value) => SetRequestPdu::accepts(value),
            Pdus::Trap(value) => Trap::accepts(value),
        }
    }
}
