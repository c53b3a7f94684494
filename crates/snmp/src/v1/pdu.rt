//! What most protocol data units of SNMPv1 hold (RFC 1157, 4.1.2).
//!
//! ```text
//! PDU ::= SEQUENCE {
//!     request-id         INTEGER,
//!     error-status       ErrorStatus,
//!     error-index        INTEGER,
//!     variable-bindings  VarBindList }
//!
//! VarBindList ::= SEQUENCE OF VarBind
//! ```
ghost use Rattle.std.specs.Prelude.{◌≡◌, ◌↔◌, IsTrue, refl};
ghost use Rattle.yasna_notation.specs.Canonical.{represented_written};
ghost use Rattle.yasna_notation.specs.Laws.{represented_lawful, element_non_empty};
ghost use Rattle.yasna_notation.specs.Making.{in_sequence, in_sequence_of, part};
ghost use Rattle.yasna_notation.specs.Notation.{represented_by};
ghost use Rattle.yasna_notation.specs.Parts.{no_parts};
ghost use Rattle.yasna_notation.specs.Writing.{no_part_written, part_written, sequence_of_written, sequence_written};
ghost use Rattle.snmp.specs.contracts.v1.var_bind.VarBindNotation.TheImpl.Laws.{lawful-law as binding1};
ghost use Rattle.snmp.specs.contracts.v1.var_bind.VarBindCanonicalNotation.TheImpl.Laws.{written-law as binding1_written};
ghost use Rattle.yasna_notation.specs.contracts.simple.I64Notation.TheImpl.Laws.{lawful-law as int64};
ghost use Rattle.yasna_notation.specs.contracts.canonical.I64CanonicalNotation.TheImpl.Laws.{written-law as int64_written};

use crate::v1::error_status::ErrorStatus;
use crate::v1::var_bind::VarBind;
use yasna::tags::TAG_SEQUENCE;
use yasna::{ASN1Result, BERMode, BERReader, DERWriter, PrependBuffer, Tag};
use yasna_notation::{
    CanonicalNotation, DefinedType, Message, Notation, Represents, Sequence, SequenceOf, read_as,
};
use yasna_notation_constraints::{Checked, accepts_fields};

type VarBindList = SequenceOf<VarBind>;

type Parts = (i64, (ErrorStatus, (i64, (VarBindList, ()))));

type Fields = (i64, (ErrorStatus, (i64, (Vec<VarBind>, ()))));

/// What most protocol data units hold.
#[derive(Drop)]
pub struct Pdu {
    pub request_id: i64,
    pub error_status: ErrorStatus,
    /// The number of the variable at error, from 1; 0 for none.
    pub error_index: i64,
    pub variable_bindings: Vec<VarBind>,
}

impl Represents<Fields> for Pdu {
    ghost value_of = { λ v. (v.request_id, (v.error_status, (v.error_index, (v.variable_bindings, tt)))) };

    fn from_value(
        (request_id, (error_status, (error_index, (variable_bindings, ())))): Fields,
    ) -> Pdu {
        Pdu {
            request_id,
            error_status,
            error_index,
            variable_bindings,
        }
    }
}

impl Notation for Pdu {
    type Value = Pdu;

    type Inner = ();

    ghost means = { represented_by ⟦<Pdu as Represents<Fields>>⟧.value_of ⟦<Sequence<Parts> as Notation>⟧.means };

    fn has_tag(tag: Tag) -> bool {
        tag == TAG_SEQUENCE
    }

    fn read(reader: BERReader) -> ASN1Result<Pdu> {
        read_as::<Sequence<Parts>, Pdu>(reader)
    }

    fn write(value: &Pdu, writer: DERWriter<'_>) -> ASN1Result<()> {
        Sequence::<Parts>::write_fields(
            (
                &value.request_id,
                (
                    &value.error_status,
                    (&value.error_index, (&value.variable_bindings, ())),
                ),
            ),
            writer,
        )
    }

    fn prepend(value: &Pdu, under: Option<Tag>, out: &mut PrependBuffer) -> ASN1Result<()> {
        Sequence::<Parts>::prepend_fields(
            (
                &value.request_id,
                (
                    &value.error_status,
                    (&value.error_index, (&value.variable_bindings, ())),
                ),
            ),
            under,
            out,
        )
    }

    fn encoded_len(value: &Pdu, under: Option<Tag>, mode: BERMode) -> Option<usize> {
        Sequence::<Parts>::fields_len(
            (
                &value.request_id,
                (
                    &value.error_status,
                    (&value.error_index, (&value.variable_bindings, ())),
                ),
            ),
            under,
            mode,
        )
    }

    ghost lawful = { λ _. represented_lawful ⟦<Pdu as Represents<Fields>>⟧.value_of (in_sequence
        (part (int64 refl).own (part (represented_lawful ⟦<ErrorStatus as DefinedType>⟧.value_of (int64 refl)).own
        (part (int64 refl).own (part (in_sequence_of (binding1 refl).own).own no_parts))))) };

    ghost non_empty = { λ u m v. element_non_empty _ _ _ _ };
}

impl Message for Pdu {
    ghost is_unambiguous = { refl };
}

impl CanonicalNotation for Pdu {
    ghost written = { λ _. represented_written ⟦<Pdu as Represents<Fields>>⟧.value_of (sequence_written
        (part_written (int64_written refl).own (part_written (represented_written ⟦<ErrorStatus as DefinedType>⟧.value_of (int64_written refl)).own
        (part_written (int64_written refl).own
        (part_written (sequence_of_written (binding1_written refl).own).own no_part_written))))) };
}

impl Checked for Pdu {
    fn accepts(value: &Pdu) -> bool {
        accepts_fields::<Parts, _>((
            &value.request_id,
            (
                &value.error_status,
                (&value.error_index, (&value.variable_bindings, ())),
            ),
        ))
    }
}
