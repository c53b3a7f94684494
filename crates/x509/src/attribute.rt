//! Attributes (RFC 5280, A.1).
//!
//! ```text
//! Attribute ::= SEQUENCE {
//!     type    OBJECT IDENTIFIER,
//!     values  SET OF ANY DEFINED BY type }
//! ```
ghost use Rattle.std.specs.Prelude.{◌≡◌, ◌↔◌, IsTrue, refl};
ghost use Rattle.yasna_notation.specs.Laws.{represented_lawful, element_non_empty};
ghost use Rattle.yasna_notation.specs.Making.{in_sequence, in_set_of, part};
ghost use Rattle.yasna_notation.specs.Notation.{represented_by};
ghost use Rattle.yasna_notation.specs.Parts.{no_parts};
ghost use Rattle.yasna_notation.specs.contracts.simple.ObjectIdentifierNotation.TheImpl.Laws.{lawful-law as oid};
ghost use Rattle.yasna_notation.specs.contracts.any.TaggedDerValueNotation.TheImpl.Laws.{lawful-law as any};

use yasna::models::{ObjectIdentifier, TaggedDerValue};
use yasna::tags::TAG_SEQUENCE;
use yasna::{ASN1Result, BERMode, BERReader, DERWriter, PrependBuffer, Tag};
use yasna_notation::{Message, Notation, Represents, Sequence, SetOf, read_as};
use yasna_notation_constraints::{Checked, accepts_fields};

type Parts = (ObjectIdentifier, (SetOf<TaggedDerValue>, ()));

type Fields = (ObjectIdentifier, (Vec<TaggedDerValue>, ()));

/// An attribute: its type, and its values as they came.
#[derive(Drop)]
pub struct Attribute {
    pub attribute_type: ObjectIdentifier,
    pub values: Vec<TaggedDerValue>,
}

impl Represents<Fields> for Attribute {
    ghost value_of = { λ v. (v.attribute_type, (v.values, tt)) };

    fn from_value((attribute_type, (values, ())): Fields) -> Attribute {
        Attribute {
            attribute_type,
            values,
        }
    }
}

impl Notation for Attribute {
    type Value = Attribute;

    type Inner = ();

    ghost means = { represented_by ⟦<Attribute as Represents<Fields>>⟧.value_of ⟦<Sequence<Parts> as Notation>⟧.means };

    fn has_tag(tag: Tag) -> bool {
        tag == TAG_SEQUENCE
    }

    fn read(reader: BERReader) -> ASN1Result<Attribute> {
        read_as::<Sequence<Parts>, Attribute>(reader)
    }

    fn write(value: &Attribute, writer: DERWriter<'_>) -> ASN1Result<()> {
        Sequence::<Parts>::write_fields((&value.attribute_type, (&value.values, ())), writer)
    }

    fn prepend(value: &Attribute, under: Option<Tag>, out: &mut PrependBuffer) -> ASN1Result<()> {
        Sequence::<Parts>::prepend_fields((&value.attribute_type, (&value.values, ())), under, out)
    }

    fn encoded_len(value: &Attribute, under: Option<Tag>, mode: BERMode) -> Option<usize> {
        Sequence::<Parts>::fields_len((&value.attribute_type, (&value.values, ())), under, mode)
    }

    ghost lawful = { λ _. represented_lawful ⟦<Attribute as Represents<Fields>>⟧.value_of (in_sequence (part (oid refl).own
        (part (in_set_of (any refl).own).own no_parts))) };

    ghost non_empty = { λ u m v. element_non_empty _ _ _ _ };
}

impl Message for Attribute {
    ghost is_unambiguous = { refl };
}

impl Checked for Attribute {
    fn accepts(value: &Attribute) -> bool {
        accepts_fields::<Parts, _>((&value.attribute_type, (&value.values, ())))
    }
}
