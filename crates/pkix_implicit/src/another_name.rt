//! `AnotherName` of the module PKIX1Implicit88.
//!
//! ```text
//! AnotherName ::= SEQUENCE {
//!     type-id  OBJECT IDENTIFIER,
//!     value    [0] EXPLICIT ANY DEFINED BY type-id }
//! ```
ghost use Rattle.std.specs.Prelude.{◌≡◌, ◌↔◌, IsTrue, refl};
ghost use Rattle.std.proofs.Common.{arith};
ghost use Rattle.yasna_notation.specs.Laws.{element_non_empty, represented_lawful};
ghost use Rattle.yasna_notation.specs.Making.{in_explicit, in_sequence, part};
ghost use Rattle.yasna_notation.specs.Notation.{represented_by};
ghost use Rattle.yasna_notation.specs.Parts.{no_parts};
ghost use Rattle.yasna_notation.specs.contracts.simple.ObjectIdentifierNotation.TheImpl.Laws.{lawful-law as oid_law};
ghost use Rattle.yasna_notation.specs.contracts.any.TaggedDerValueNotation.TheImpl.Laws.{lawful-law as any_law};

use yasna::models::{ObjectIdentifier, TaggedDerValue};
use yasna::{ASN1Result, BERMode, BERReader, DERWriter, PrependBuffer, Tag};
use yasna_notation::{Context, Explicit, Message, Notation, Represents, Sequence, read_as};
use yasna_notation_constraints::{Checked, accepts_fields};

type Parts = (ObjectIdentifier, (Explicit<Context<0>, TaggedDerValue>, ()));

type Fields = (ObjectIdentifier, (TaggedDerValue, ()));

type Notated = Sequence<Parts>;

/// `AnotherName`.
#[derive(Drop)]
pub struct AnotherName {
    pub type_id: ObjectIdentifier,
    pub value: TaggedDerValue,
}

impl Represents<Fields> for AnotherName {
    ghost value_of = { λ v. (v.type_id, (v.value, tt)) };

    fn from_value((type_id, (value, ())): Fields) -> AnotherName {
        AnotherName { type_id, value }
    }
}

impl Notation for AnotherName {
    type Value = AnotherName;

    type Inner = ();

    ghost means = { represented_by ⟦<AnotherName as Represents<Fields>>⟧.value_of ⟦<Notated as Notation>⟧.means };

    fn has_tag(tag: Tag) -> bool {
        <Notated as Notation>::has_tag(tag)
    }

    fn read(reader: BERReader) -> ASN1Result<AnotherName> {
        read_as::<Notated, AnotherName>(reader)
    }

    fn write(value: &AnotherName, writer: DERWriter<'_>) -> ASN1Result<()> {
        Sequence::<Parts>::write_fields((&value.type_id, (&value.value, ())), writer)
    }

    fn prepend(value: &AnotherName, under: Option<Tag>, out: &mut PrependBuffer) -> ASN1Result<()> {
        Sequence::<Parts>::prepend_fields((&value.type_id, (&value.value, ())), under, out)
    }

    fn encoded_len(value: &AnotherName, under: Option<Tag>, mode: BERMode) -> Option<usize> {
        Sequence::<Parts>::fields_len((&value.type_id, (&value.value, ())), under, mode)
    }

    ghost lawful = { λ _. represented_lawful ⟦<AnotherName as Represents<Fields>>⟧.value_of (in_sequence
        (part (oid_law refl).own (part (in_explicit 0 (omega arith) (any_law refl).own).own no_parts))) };

    ghost non_empty = { λ u m v. element_non_empty _ _ _ _ };
}

impl Message for AnotherName {
    ghost is_unambiguous = { refl };
}

impl Checked for AnotherName {
    fn accepts(value: &AnotherName) -> bool {
        accepts_fields::<Parts, _>((&value.type_id, (&value.value, ())))
    }
}
