//! Variables with what is bound to them (RFC 3416, 3).
//!
//! ```text
//! VarBind ::= SEQUENCE { name ObjectName, CHOICE { .. } }
//!
//! ObjectName ::= OBJECT IDENTIFIER
//! ```
ghost use Rattle.std.specs.Prelude.{◌≡◌, ◌↔◌, IsTrue, refl};
ghost use Rattle.yasna_notation.specs.Canonical.{represented_written};
ghost use Rattle.yasna_notation.specs.Laws.{represented_lawful, element_non_empty};
ghost use Rattle.yasna_notation.specs.Making.{in_sequence, part};
ghost use Rattle.yasna_notation.specs.Notation.{represented_by};
ghost use Rattle.yasna_notation.specs.Parts.{no_parts};
ghost use Rattle.yasna_notation.specs.Writing.{no_part_written, part_written, sequence_written};
ghost use Rattle.yasna_notation.specs.contracts.simple.ObjectIdentifierNotation.TheImpl.Laws.{lawful-law as oid};
ghost use Rattle.yasna_notation.specs.contracts.canonical.ObjectIdentifierCanonicalNotation.TheImpl.Laws.{written-law as oid_written};
ghost use Rattle.snmp.specs.contracts.v2c.bound_value.BoundValueNotation.TheImpl.Laws.{lawful-law as value};
ghost use Rattle.snmp.specs.contracts.v2c.bound_value.BoundValueCanonicalNotation.TheImpl.Laws.{written-law as value_written};

use crate::v2c::bound_value::BoundValue;
use yasna::models::ObjectIdentifier;
use yasna::tags::TAG_SEQUENCE;
use yasna::{ASN1Result, BERMode, BERReader, DERWriter, PrependBuffer, Tag};
use yasna_notation::{CanonicalNotation, Message, Notation, Represents, Sequence, read_as};
use yasna_notation_constraints::{Checked, accepts_fields};

type Parts = (ObjectIdentifier, (BoundValue, ()));

type Fields = (ObjectIdentifier, (BoundValue, ()));

/// A variable, and what is bound to it.
#[derive(Drop)]
pub struct VarBind {
    pub name: ObjectIdentifier,
    pub value: BoundValue,
}

impl Represents<Fields> for VarBind {
    ghost value_of = { λ v. (v.name, (v.value, tt)) };

    fn from_value((name, (value, ())): Fields) -> VarBind {
        VarBind { name, value }
    }
}

impl Notation for VarBind {
    type Value = VarBind;

    type Inner = ();

    ghost means = { represented_by ⟦<VarBind as Represents<Fields>>⟧.value_of ⟦<Sequence<Parts> as Notation>⟧.means };

    fn has_tag(tag: Tag) -> bool {
        tag == TAG_SEQUENCE
    }

    fn read(reader: BERReader) -> ASN1Result<VarBind> {
        read_as::<Sequence<Parts>, VarBind>(reader)
    }

    fn write(value: &VarBind, writer: DERWriter<'_>) -> ASN1Result<()> {
        Sequence::<Parts>::write_fields((&value.name, (&value.value, ())), writer)
    }

    fn prepend(value: &VarBind, under: Option<Tag>, out: &mut PrependBuffer) -> ASN1Result<()> {
        Sequence::<Parts>::prepend_fields((&value.name, (&value.value, ())), under, out)
    }

    fn encoded_len(value: &VarBind, under: Option<Tag>, mode: BERMode) -> Option<usize> {
        Sequence::<Parts>::fields_len((&value.name, (&value.value, ())), under, mode)
    }

    ghost lawful = { λ _. represented_lawful ⟦<VarBind as Represents<Fields>>⟧.value_of (in_sequence
        (part (oid refl).own (part (value refl).own no_parts))) };

    ghost non_empty = { λ u m v. element_non_empty _ _ _ _ };
}

impl Message for VarBind {
    ghost is_unambiguous = { refl };
}

impl CanonicalNotation for VarBind {
    ghost written = { λ _. represented_written ⟦<VarBind as Represents<Fields>>⟧.value_of (sequence_written
        (part_written (oid_written refl).own (part_written (value_written refl).own no_part_written))) };
}

impl Checked for VarBind {
    fn accepts(value: &VarBind) -> bool {
        accepts_fields::<Parts, _>((&value.name, (&value.value, ())))
    }
}
