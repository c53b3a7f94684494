//! `Attributes` of the module PKCS-10.
//!
//! ```text
//! Attributes ::= SET OF Attribute
//! ```
ghost use Rattle.std.specs.Prelude.{◌≡◌, ◌↔◌, IsTrue, refl};
ghost use Rattle.yasna_notation.specs.Laws.{element_non_empty, represented_lawful};
ghost use Rattle.yasna_notation.specs.Making.{in_set_of};
ghost use Rattle.yasna_notation.specs.Notation.{represented_by};
ghost use Rattle.x509.specs.contracts.attribute.AttributeNotation.TheImpl.Laws.{lawful-law as x509_attribute_law};

use x509::Attribute;
use yasna::{ASN1Result, BERMode, BERReader, DERWriter, PrependBuffer, Tag};
use yasna_notation::{Message, Notation, Represents, SetOf, read_as};
use yasna_notation_constraints::Checked;

type Notated = SetOf<Attribute>;

/// `Attributes`.
#[derive(Drop)]
pub struct Attributes {
    pub items: Vec<Attribute>,
}

impl Represents<Vec<Attribute>> for Attributes {
    ghost value_of = { λ v. v.items };

    fn from_value(items: Vec<Attribute>) -> Attributes {
        Attributes { items }
    }
}

impl Notation for Attributes {
    type Value = Attributes;

    type Inner = ();

    ghost means = { represented_by ⟦<Attributes as Represents<Vec<Attribute>>>⟧.value_of ⟦<Notated as Notation>⟧.means };

    fn has_tag(tag: Tag) -> bool {
        <Notated as Notation>::has_tag(tag)
    }

    fn read(reader: BERReader) -> ASN1Result<Attributes> {
        read_as::<Notated, Attributes>(reader)
    }

    fn write(value: &Attributes, writer: DERWriter<'_>) -> ASN1Result<()> {
        <Notated as Notation>::write(&value.items, writer)
    }

    fn prepend(value: &Attributes, under: Option<Tag>, out: &mut PrependBuffer) -> ASN1Result<()> {
        <Notated as Notation>::prepend(&value.items, under, out)
    }

    fn encoded_len(value: &Attributes, under: Option<Tag>, mode: BERMode) -> Option<usize> {
        <Notated as Notation>::encoded_len(&value.items, under, mode)
    }

    ghost lawful = { λ _. represented_lawful ⟦<Attributes as Represents<Vec<Attribute>>>⟧.value_of (in_set_of (x509_attribute_law refl).own) };

    ghost non_empty = { λ u m v. element_non_empty _ _ _ _ };
}

impl Message for Attributes {
    ghost is_unambiguous = { refl };
}

impl Checked for Attributes {
    fn accepts(value: &Attributes) -> bool {
        <Notated as Checked>::accepts(&value.items)
    }
}
