//! Attributes of names (RFC 5280, 4.1.2.4).
//!
//! ```text
//! AttributeTypeAndValue ::= SEQUENCE {
//!     type   OBJECT IDENTIFIER,
//!     value  ANY DEFINED BY type }
//! ```
ghost use Rattle.std.specs.Prelude.{◌≡◌, ◌↔◌, IsTrue, refl};
ghost use Rattle.yasna_notation.specs.Laws.{represented_lawful, element_non_empty};
ghost use Rattle.yasna_notation.specs.Making.{in_sequence, part};
ghost use Rattle.yasna_notation.specs.Notation.{represented_by};
ghost use Rattle.yasna_notation.specs.Parts.{no_parts};
ghost use Rattle.yasna_notation.specs.contracts.any.TaggedDerValueNotation.TheImpl.Laws.{lawful-law as any};
ghost use Rattle.yasna_notation.specs.contracts.simple.ObjectIdentifierNotation.TheImpl.Laws.{lawful-law as oid};

use yasna::models::{ObjectIdentifier, TaggedDerValue};
use yasna::tags::TAG_SEQUENCE;
use yasna::{ASN1Result, BERMode, BERReader, DERWriter, PrependBuffer, Tag};
use yasna_notation::{Message, Notation, Represents, Sequence, read_as};
use yasna_notation_constraints::{Checked, accepts_fields};

type Parts = (ObjectIdentifier, (TaggedDerValue, ()));

type Fields = (ObjectIdentifier, (TaggedDerValue, ()));

/// An attribute of a name: its type, and its value as it came.
#[derive(Drop)]
pub struct AttributeTypeAndValue {
    pub attribute_type: ObjectIdentifier,
    pub value: TaggedDerValue,
}

impl Represents<Fields> for AttributeTypeAndValue {
    ghost value_of = { λ v. (v.attribute_type, (v.value, tt)) };

    fn from_value((attribute_type, (value, ())): Fields) -> AttributeTypeAndValue {
        AttributeTypeAndValue {
            attribute_type,
            value,
        }
    }
}

impl Notation for AttributeTypeAndValue {
    type Value = AttributeTypeAndValue;

    type Inner = ();

    ghost means = { represented_by ⟦<AttributeTypeAndValue as Represents<Fields>>⟧.value_of ⟦<Sequence<Parts> as Notation>⟧.means };

    fn has_tag(tag: Tag) -> bool {
        tag == TAG_SEQUENCE
    }

    fn read(reader: BERReader) -> ASN1Result<AttributeTypeAndValue> {
        read_as::<Sequence<Parts>, AttributeTypeAndValue>(reader)
    }

    fn write(value: &AttributeTypeAndValue, writer: DERWriter<'_>) -> ASN1Result<()> {
        Sequence::<Parts>::write_fields((&value.attribute_type, (&value.value, ())), writer)
    }

    fn prepend(
        value: &AttributeTypeAndValue,
        under: Option<Tag>,
        out: &mut PrependBuffer,
    ) -> ASN1Result<()> {
        Sequence::<Parts>::prepend_fields((&value.attribute_type, (&value.value, ())), under, out)
    }

    fn encoded_len(
        value: &AttributeTypeAndValue,
        under: Option<Tag>,
        mode: BERMode,
    ) -> Option<usize> {
        Sequence::<Parts>::fields_len((&value.attribute_type, (&value.value, ())), under, mode)
    }

    ghost lawful = { λ _. represented_lawful ⟦<AttributeTypeAndValue as Represents<Fields>>⟧.value_of
        (in_sequence (part (oid refl).own (part (any refl).own no_parts))) };

    ghost non_empty = { λ u m v. element_non_empty _ _ _ _ };
}

impl Message for AttributeTypeAndValue {
    ghost is_unambiguous = { refl };
}

impl Checked for AttributeTypeAndValue {
    fn accepts(value: &AttributeTypeAndValue) -> bool {
        accepts_fields::<Parts, _>((&value.attribute_type, (&value.value, ())))
    }
}
