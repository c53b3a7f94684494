//! Requests for many values at once (RFC 3416, 3).
//!
//! ```text
//! BulkPDU ::= SEQUENCE {
//!     request-id         INTEGER (-214783648..214783647),
//!     non-repeaters      INTEGER (0..max-bindings),
//!     max-repetitions    INTEGER (0..max-bindings),
//!     variable-bindings  VarBindList }
//! ```
//!
//! The bounds of `request-id` lack a digit in the RFC: programs send numbers of 32 bits, and these are taken.
ghost use Rattle.std.specs.Prelude.{◌≡◌, ◌↔◌, IsTrue, nat_lt, not, refl};
ghost use Rattle.yasna_notation.specs.Canonical.{represented_written};
ghost use Rattle.yasna_notation.specs.Laws.{represented_lawful, element_non_empty};
ghost use Rattle.yasna_notation.specs.Making.{at_most, in_sequence, in_sequence_of, part, list_sized};
ghost use Rattle.yasna_notation.specs.Notation.{represented_by};
ghost use Rattle.yasna_notation.specs.Parts.{no_parts};
ghost use Rattle.yasna_notation.specs.Writing.{at_most_written, no_part_written, part_written, sequence_of_written, sequence_written, list_sized_written};
ghost use Rattle.snmp.specs.contracts.v2c.var_bind.VarBindNotation.TheImpl.Laws.{lawful-law as binding};
ghost use Rattle.snmp.specs.contracts.v2c.var_bind.VarBindCanonicalNotation.TheImpl.Laws.{written-law as binding_written};
ghost use Rattle.yasna_notation.specs.contracts.simple.U64Notation.TheImpl.Laws.{lawful-law as count64};
ghost use Rattle.yasna_notation.specs.contracts.canonical.U64CanonicalNotation.TheImpl.Laws.{written-law as count64_written};
ghost use Rattle.yasna_notation.specs.contracts.simple.I32Notation.TheImpl.Laws.{lawful-law as int32};
ghost use Rattle.yasna_notation.specs.contracts.canonical.I32CanonicalNotation.TheImpl.Laws.{written-law as int32_written};

use crate::v2c::var_bind::VarBind;
use yasna::tags::TAG_SEQUENCE;
use yasna::{ASN1Result, BERMode, BERReader, DERWriter, PrependBuffer, Tag};
use yasna_notation::{
    AtMost, Bounded, CanonicalNotation, Message, Notation, Represents, Sequence, SequenceOf,
    SizeAtMost, read_as,
};
use yasna_notation_constraints::{Checked, accepts_fields};

type Repeaters = Bounded<u64, AtMost<2147483647>>;

type Repetitions = Bounded<u64, AtMost<2147483647>>;

type VarBindList = Bounded<SequenceOf<VarBind>, SizeAtMost<2147483647>>;

type Parts = (i32, (Repeaters, (Repetitions, (VarBindList, ()))));

type Fields = (i32, (u64, (u64, (Vec<VarBind>, ()))));

/// A request for many values at once.
#[derive(Drop)]
pub struct BulkPdu {
    pub request_id: i32,
    /// The number of variables for which one value is requested: at most 2147483647.
    pub non_repeaters: u64,
    /// The number of values that are requested of each other variable: at most 2147483647.
    pub max_repetitions: u64,
    /// 2147483647 at most.
    pub variable_bindings: Vec<VarBind>,
}

impl Represents<Fields> for BulkPdu {
    ghost value_of = { λ v. (v.request_id, (v.non_repeaters, (v.max_repetitions, (v.variable_bindings, tt)))) };

    fn from_value(
        (request_id, (non_repeaters, (max_repetitions, (variable_bindings, ())))): Fields,
    ) -> BulkPdu {
        BulkPdu {
            request_id,
            non_repeaters,
            max_repetitions,
            variable_bindings,
        }
    }
}

impl Notation for BulkPdu {
    type Value = BulkPdu;

    type Inner = ();

    ghost means = { represented_by ⟦<BulkPdu as Represents<Fields>>⟧.value_of ⟦<Sequence<Parts> as Notation>⟧.means };

    fn has_tag(tag: Tag) -> bool {
        tag == TAG_SEQUENCE
    }

    fn read(reader: BERReader) -> ASN1Result<BulkPdu> {
        read_as::<Sequence<Parts>, BulkPdu>(reader)
    }

    fn write(value: &BulkPdu, writer: DERWriter<'_>) -> ASN1Result<()> {
        Sequence::<Parts>::write_fields(
            (
                &value.request_id,
                (
                    &value.non_repeaters,
                    (&value.max_repetitions, (&value.variable_bindings, ())),
                ),
            ),
            writer,
        )
    }

    fn prepend(value: &BulkPdu, under: Option<Tag>, out: &mut PrependBuffer) -> ASN1Result<()> {
        Sequence::<Parts>::prepend_fields(
            (
                &value.request_id,
                (
                    &value.non_repeaters,
                    (&value.max_repetitions, (&value.variable_bindings, ())),
                ),
            ),
            under,
            out,
        )
    }

    fn encoded_len(value: &BulkPdu, under: Option<Tag>, mode: BERMode) -> Option<usize> {
        Sequence::<Parts>::fields_len(
            (
                &value.request_id,
                (
                    &value.non_repeaters,
                    (&value.max_repetitions, (&value.variable_bindings, ())),
                ),
            ),
            under,
            mode,
        )
    }

    ghost lawful = { λ _. represented_lawful ⟦<BulkPdu as Represents<Fields>>⟧.value_of (in_sequence
        (part (int32 refl).own (part (at_most 2147483647 (count64 refl)).own (part (at_most 2147483647 (count64 refl)).own
        (part (list_sized (λ k. not (nat_lt 2147483647 k)) (in_sequence_of (binding refl).own)).own no_parts))))) };

    ghost non_empty = { λ u m v. element_non_empty _ _ _ _ };
}

impl Message for BulkPdu {
    ghost is_unambiguous = { refl };
}

impl CanonicalNotation for BulkPdu {
    ghost written = { λ _. represented_written ⟦<BulkPdu as Represents<Fields>>⟧.value_of (sequence_written
        (part_written (int32_written refl).own (part_written (at_most_written 2147483647 (count64_written refl)).own
        (part_written (at_most_written 2147483647 (count64_written refl)).own
        (part_written (list_sized_written (λ k. not (nat_lt 2147483647 k))
        (sequence_of_written (binding_written refl).own)).own no_part_written))))) };
}

impl Checked for BulkPdu {
    fn accepts(value: &BulkPdu) -> bool {
        accepts_fields::<Parts, _>((
            &value.request_id,
            (
                &value.non_repeaters,
                (&value.max_repetitions, (&value.variable_bindings, ())),
            ),
        ))
    }
}
