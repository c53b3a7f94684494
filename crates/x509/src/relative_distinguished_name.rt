//! Parts of names (RFC 5280, 4.1.2.4).
//!
//! ```text
//! RelativeDistinguishedName ::= SET SIZE (1..MAX) OF AttributeTypeAndValue
//! ```
ghost use Rattle.std.specs.Prelude.{◌≡◌, ◌↔◌, IsTrue, refl};
ghost use Rattle.yasna_notation.specs.Laws.{represented_lawful, element_non_empty};
ghost use Rattle.yasna_notation.specs.Making.{in_set_of, set_not_empty};
ghost use Rattle.yasna_notation.specs.Notation.{represented_by};
ghost use Rattle.x509.specs.contracts.attribute_type_and_value.AttributeTypeAndValueNotation.TheImpl.Laws.{lawful-law as attribute};

use crate::attribute_type_and_value::AttributeTypeAndValue;
use yasna::tags::TAG_SET;
use yasna::{ASN1Result, BERMode, BERReader, DERWriter, PrependBuffer, Tag};
use yasna_notation::{Bounded, Message, NotEmpty, Notation, Represents, SetOf, read_as};
use yasna_notation_constraints::Checked;

type Set = Bounded<SetOf<AttributeTypeAndValue>, NotEmpty>;

/// A part of a name: one attribute, or several that represent one level together.
#[derive(Drop)]
pub struct RelativeDistinguishedName {
    /// One or more. They are in no order.
    pub attributes: Vec<AttributeTypeAndValue>,
}

impl Represents<Vec<AttributeTypeAndValue>> for RelativeDistinguishedName {
    ghost value_of = { λ v. v.attributes };

    fn from_value(attributes: Vec<AttributeTypeAndValue>) -> RelativeDistinguishedName {
        RelativeDistinguishedName { attributes }
    }
}

impl Notation for RelativeDistinguishedName {
    type Value = RelativeDistinguishedName;

    type Inner = ();

    ghost means = { represented_by ⟦<RelativeDistinguishedName as Represents<Vec<AttributeTypeAndValue>>>⟧.value_of ⟦<Set as Notation>⟧.means };

    fn has_tag(tag: Tag) -> bool {
        tag == TAG_SET
    }

    fn read(reader: BERReader) -> ASN1Result<RelativeDistinguishedName> {
        read_as::<Set, RelativeDistinguishedName>(reader)
    }

    fn write(value: &RelativeDistinguishedName, writer: DERWriter<'_>) -> ASN1Result<()> {
        <Set as Notation>::write(&value.attributes, writer)
    }

    fn prepend(
        value: &RelativeDistinguishedName,
        under: Option<Tag>,
        out: &mut PrependBuffer,
    ) -> ASN1Result<()> {
        <Set as Notation>::prepend(&value.attributes, under, out)
    }

    fn encoded_len(
        value: &RelativeDistinguishedName,
        under: Option<Tag>,
        mode: BERMode,
    ) -> Option<usize> {
        <Set as Notation>::encoded_len(&value.attributes, under, mode)
    }

    ghost lawful = { λ _. represented_lawful ⟦<RelativeDistinguishedName as Represents<Vec<AttributeTypeAndValue>>>⟧.value_of
        (set_not_empty (in_set_of (attribute refl).own)) };

    ghost non_empty = { λ u m v. element_non_empty _ _ _ _ };
}

impl Message for RelativeDistinguishedName {
    ghost is_unambiguous = { refl };
}

impl Checked for RelativeDistinguishedName {
    fn accepts(value: &RelativeDistinguishedName) -> bool {
        Set::accepts(&value.attributes)
    }
}
