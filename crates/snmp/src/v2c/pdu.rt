//! What most protocol data units hold (RFC 3416, 3).
//!
//! ```text
//! PDU ::= SEQUENCE {
//!     request-id         INTEGER (-214783648..214783647),
//!     error-status       INTEGER { noError(0), .., inconsistentName(18) },
//!     error-index        INTEGER (0..max-bindings),
//!     variable-bindings  VarBindList }
//!
//! VarBindList ::= SEQUENCE (SIZE (0..max-bindings)) OF VarBind
//!
//! max-bindings INTEGER ::= 2147483647
//! ```
//!
//! The bounds of `request-id` lack a digit in the RFC: programs send numbers of 32 bits, and these are taken.
ghost use Rattle.std.specs.Prelude.{◌≡◌, ◌↔◌, IsTrue, nat_lt, not, refl};
ghost use Rattle.yasna_notation.specs.Canonical.{represented_written};
ghost use Rattle.yasna_notation.specs.Laws.{represented_lawful, element_non_empty};
ghost use Rattle.yasna_notation.specs.Making.{at_most, in_sequence, in_sequence_of, part, list_sized};
ghost use Rattle.yasna_notation.specs.Notation.{represented_by};
ghost use Rattle.yasna_notation.specs.Parts.{no_parts};
ghost use Rattle.yasna_notation.specs.Writing.{at_most_written, no_part_written, part_written, sequence_of_written, sequence_written, list_sized_written};
ghost use Rattle.snmp.specs.contracts.v2c.var_bind.VarBindNotation.TheImpl.Laws.{lawful-law as binding};
ghost use Rattle.snmp.specs.contracts.v2c.var_bind.VarBindCanonicalNotation.TheImpl.Laws.{written-law as binding_written};
ghost use Rattle.yasna_notation.specs.contracts.simple.U64Notation.TheImpl.Laws.{lawful-law as count64};
ghost use Rattle.yasna_notation.specs.contracts.canonical.U64CanonicalNotation.TheImpl.Laws.{written-law as count64_written};
ghost use Rattle.yasna_notation.specs.contracts.simple.I32Notation.TheImpl.Laws.{lawful-law as int32};
ghost use Rattle.yasna_notation.specs.contracts.canonical.I32CanonicalNotation.TheImpl.Laws.{written-law as int32_written};

use crate::v2c::error_status::ErrorStatus;
use crate::v2c::var_bind::VarBind;
use yasna::tags::TAG_SEQUENCE;
use yasna::{ASN1Result, BERMode, BERReader, DERWriter, PrependBuffer, Tag};
use yasna_notation::{
    AtMost, Bounded, CanonicalNotation, DefinedType, Message, Notation, Represents, Sequence,
    SequenceOf, SizeAtMost, read_as,
};
use yasna_notation_constraints::{Checked, accepts_fields};

type Index = Bounded<u64, AtMost<2147483647>>;

type VarBindList = Bounded<SequenceOf<VarBind>, SizeAtMost<2147483647>>;

type Parts = (i32, (ErrorStatus, (Index, (VarBindList, ()))));

type Fields = (i32, (ErrorStatus, (u64, (Vec<VarBind>, ()))));

/// What most protocol data units hold.
#[derive(Drop)]
pub struct Pdu {
    pub request_id: i32,
    pub error_status: ErrorStatus,
    /// The number of the variable at error, from 1 to 2147483647; 0 for none.
    pub error_index: u64,
    /// 2147483647 at most.
    pub variable_bindings: Vec<VarBind>,
}

impl Represents<Fields> for Pdu {
    ghost value_of = { λ v. (v.request_id, (v.error_status, (v.error_index, (v.variable_bindings, tt)))) };

    fn from_value(
        (request_id, (error_status, (error_index, (variable_bindings, ())))): Fields,
    ) -> Pdu {
        Pdu {
            request_id,
            error_status,
            error_index,
            variable_bindings,
        }
    }
}

impl Notation for Pdu {
    type Value = Pdu;

    type Inner = ();

    ghost means = { represented_by ⟦<Pdu as Represents<Fields>>⟧.value_of ⟦<Sequence<Parts> as Notation>⟧.means };

    fn has_tag(tag: Tag) -> bool {
        tag == TAG_SEQUENCE
    }

    fn read(reader: BERReader) -> ASN1Result<Pdu> {
        read_as::<Sequence<Parts>, Pdu>(reader)
    }

    fn write(value: &Pdu, writer: DERWriter<'_>) -> ASN1Result<()> {
        Sequence::<Parts>::write_fields(
            (
                &value.request_id,
                (
                    &value.error_status,
                    (&value.error_index, (&value.variable_bindings, ())),
                ),
            ),
            writer,
        )
    }

    fn prepend(value: &Pdu, under: Option<Tag>, out: &mut PrependBuffer) -> ASN1Result<()> {
        Sequence::<Parts>::prepend_fields(
            (
                &value.request_id,
                (
                    &value.error_status,
                    (&value.error_index, (&value.variable_bindings, ())),
                ),
            ),
            under,
            out,
        )
    }

    fn encoded_len(value: &Pdu, under: Option<Tag>, mode: BERMode) -> Option<usize> {
        Sequence::<Parts>::fields_len(
            (
                &value.request_id,
                (
                    &value.error_status,
                    (&value.error_index, (&value.variable_bindings, ())),
                ),
            ),
            under,
            mode,
        )
    }

    ghost lawful = { λ _. represented_lawful ⟦<Pdu as Represents<Fields>>⟧.value_of (in_sequence
        (part (int32 refl).own (part (represented_lawful ⟦<ErrorStatus as DefinedType>⟧.value_of (int32 refl)).own (part (at_most 2147483647 (count64 refl)).own
        (part (list_sized (λ k. not (nat_lt 2147483647 k)) (in_sequence_of (binding refl).own)).own no_parts))))) };

    ghost non_empty = { λ u m v. element_non_empty _ _ _ _ };
}

impl Message for Pdu {
    ghost is_unambiguous = { refl };
}

impl CanonicalNotation for Pdu {
    ghost written = { λ _. represented_written ⟦<Pdu as Represents<Fields>>⟧.value_of (sequence_written
        (part_written (int32_written refl).own (part_written (represented_written ⟦<ErrorStatus as DefinedType>⟧.value_of (int32_written refl)).own
        (part_written (at_most_written 2147483647 (count64_written refl)).own
        (part_written (list_sized_written (λ k. not (nat_lt 2147483647 k))
        (sequence_of_written (binding_written refl).own)).own no_part_written))))) };
}

impl Checked for Pdu {
    fn accepts(value: &Pdu) -> bool {
        accepts_fields::<Parts, _>((
            &value.request_id,
            (
                &value.error_status,
                (&value.error_index, (&value.variable_bindings, ())),
            ),
        ))
    }
}
