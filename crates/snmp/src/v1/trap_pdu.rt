//! What a trap of SNMPv1 holds (RFC 1157, 4.1.6).
//!
//! ```text
//! Trap-PDU ::= [4] IMPLICIT SEQUENCE {
//!     enterprise         OBJECT IDENTIFIER,
//!     agent-addr         NetworkAddress,
//!     generic-trap       INTEGER { coldStart(0), .., enterpriseSpecific(6) },
//!     specific-trap      INTEGER,
//!     time-stamp         TimeTicks,
//!     variable-bindings  VarBindList }
//! ```
ghost use Rattle.std.specs.Prelude.{◌≡◌, ◌↔◌, IsTrue, refl};
ghost use Rattle.std.proofs.Common.{arith};
ghost use Rattle.yasna_notation.specs.Canonical.{represented_written};
ghost use Rattle.yasna_notation.specs.Laws.{represented_lawful, element_non_empty};
ghost use Rattle.yasna_notation.specs.Making.{in_application, in_sequence, in_sequence_of, part, exactly, octets_sized};
ghost use Rattle.yasna_notation.specs.Notation.{represented_by};
ghost use Rattle.yasna_notation.specs.Parts.{no_parts};
ghost use Rattle.yasna_notation.specs.Writing.{no_part_written, part_written, sequence_of_written, sequence_written, under_application, octets_sized_written};
ghost use Rattle.snmp.specs.contracts.v1.var_bind.VarBindNotation.TheImpl.Laws.{lawful-law as binding1};
ghost use Rattle.snmp.specs.contracts.v1.var_bind.VarBindCanonicalNotation.TheImpl.Laws.{written-law as binding1_written};
ghost use Rattle.yasna_notation.specs.contracts.simple.U32Notation.TheImpl.Laws.{lawful-law as count32};
ghost use Rattle.yasna_notation.specs.contracts.canonical.U32CanonicalNotation.TheImpl.Laws.{written-law as count32_written};
ghost use Rattle.yasna_notation.specs.contracts.simple.I64Notation.TheImpl.Laws.{lawful-law as int64};
ghost use Rattle.yasna_notation.specs.contracts.canonical.I64CanonicalNotation.TheImpl.Laws.{written-law as int64_written};
ghost use Rattle.yasna_notation.specs.contracts.strings.VecU8Notation.TheImpl.Laws.{lawful-law as octets};
ghost use Rattle.yasna_notation.specs.contracts.canonical.VecU8CanonicalNotation.TheImpl.Laws.{written-law as octets_written};
ghost use Rattle.yasna_notation.specs.contracts.simple.ObjectIdentifierNotation.TheImpl.Laws.{lawful-law as oid};
ghost use Rattle.yasna_notation.specs.contracts.canonical.ObjectIdentifierCanonicalNotation.TheImpl.Laws.{written-law as oid_written};

use crate::v1::generic_trap::GenericTrap;
use crate::v1::var_bind::VarBind;
use yasna::models::ObjectIdentifier;
use yasna::tags::TAG_SEQUENCE;
use yasna::{ASN1Result, BERMode, BERReader, DERWriter, PrependBuffer, Tag};
use yasna_notation::{
    Application, Bounded, CanonicalNotation, DefinedType, Implicit, Message, Notation, Represents,
    Sequence, SequenceOf, Size, read_as,
};
use yasna_notation_constraints::{Checked, accepts_fields};

type NetworkAddress = Implicit<Application<0>, Bounded<Vec<u8>, Size<4>>>;

type TimeTicks = Implicit<Application<3>, u32>;

type VarBindList = SequenceOf<VarBind>;

type Parts = (
    ObjectIdentifier,
    (
        NetworkAddress,
        (GenericTrap, (i64, (TimeTicks, (VarBindList, ())))),
    ),
);

type Fields = (
    ObjectIdentifier,
    (Vec<u8>, (GenericTrap, (i64, (u32, (Vec<VarBind>, ()))))),
);

/// What a trap holds.
#[derive(Drop)]
pub struct TrapPdu {
    pub enterprise: ObjectIdentifier,
    /// Four octets.
    pub agent_addr: Vec<u8>,
    pub generic_trap: GenericTrap,
    pub specific_trap: i64,
    /// Hundredths of a second.
    pub time_stamp: u32,
    pub variable_bindings: Vec<VarBind>,
}

impl Represents<Fields> for TrapPdu {
    ghost value_of = { λ v. (v.enterprise, (v.agent_addr, (v.generic_trap, (v.specific_trap, (v.time_stamp, (v.variable_bindings, tt)))))) };

    fn from_value(
        (
            enterprise,
            (agent_addr, (generic_trap, (specific_trap, (time_stamp, (variable_bindings, ()))))),
        ): Fields,
    ) -> TrapPdu {
        TrapPdu {
            enterprise,
            agent_addr,
            generic_trap,
            specific_trap,
            time_stamp,
            variable_bindings,
        }
    }
}

impl Notation for TrapPdu {
    type Value = TrapPdu;

    type Inner = ();

    ghost means = { represented_by ⟦<TrapPdu as Represents<Fields>>⟧.value_of ⟦<Sequence<Parts> as Notation>⟧.means };

    fn has_tag(tag: Tag) -> bool {
        tag == TAG_SEQUENCE
    }

    fn read(reader: BERReader) -> ASN1Result<TrapPdu> {
        read_as::<Sequence<Parts>, TrapPdu>(reader)
    }

    fn write(value: &TrapPdu, writer: DERWriter<'_>) -> ASN1Result<()> {
        let ends = (
            &value.specific_trap,
            (&value.time_stamp, (&value.variable_bindings, ())),
        );
        Sequence::<Parts>::write_fields(
            (
                &value.enterprise,
                (&value.agent_addr, (&value.generic_trap, ends)),
            ),
            writer,
        )
    }

    fn prepend(value: &TrapPdu, under: Option<Tag>, out: &mut PrependBuffer) -> ASN1Result<()> {
        let ends = (
            &value.specific_trap,
            (&value.time_stamp, (&value.variable_bindings, ())),
        );
        Sequence::<Parts>::prepend_fields(
            (
                &value.enterprise,
                (&value.agent_addr, (&value.generic_trap, ends)),
            ),
            under,
            out,
        )
    }

    fn encoded_len(value: &TrapPdu, under: Option<Tag>, mode: BERMode) -> Option<usize> {
        let ends = (
            &value.specific_trap,
            (&value.time_stamp, (&value.variable_bindings, ())),
        );
        Sequence::<Parts>::fields_len(
            (
                &value.enterprise,
                (&value.agent_addr, (&value.generic_trap, ends)),
            ),
            under,
            mode,
        )
    }

    ghost lawful = { λ _. represented_lawful ⟦<TrapPdu as Represents<Fields>>⟧.value_of (in_sequence
        (part (oid refl).own
        (part (in_application 0 (omega arith) (octets_sized (exactly 4) (octets refl))).own
        (part (represented_lawful ⟦<GenericTrap as DefinedType>⟧.value_of (int64 refl)).own (part (int64 refl).own (part (in_application 3 (omega arith) (count32 refl)).own
        (part (in_sequence_of (binding1 refl).own).own no_parts))))))) };

    ghost non_empty = { λ u m v. element_non_empty _ _ _ _ };
}

impl Message for TrapPdu {
    ghost is_unambiguous = { refl };
}

impl CanonicalNotation for TrapPdu {
    ghost written = { λ _. represented_written ⟦<TrapPdu as Represents<Fields>>⟧.value_of (sequence_written
        (part_written (oid_written refl).own
        (part_written (under_application 0 (omega arith) (octets_sized_written (exactly 4) (octets_written refl))).own
        (part_written (represented_written ⟦<GenericTrap as DefinedType>⟧.value_of (int64_written refl)).own (part_written (int64_written refl).own
        (part_written (under_application 3 (omega arith) (count32_written refl)).own
        (part_written (sequence_of_written (binding1_written refl).own).own no_part_written))))))) };
}

impl Checked for TrapPdu {
    fn accepts(value: &TrapPdu) -> bool {
        let ends = (
            &value.specific_trap,
            (&value.time_stamp, (&value.variable_bindings, ())),
        );
        accepts_fields::<Parts, _>((
            &value.enterprise,
            (&value.agent_addr, (&value.generic_trap, ends)),
        ))
    }
}
