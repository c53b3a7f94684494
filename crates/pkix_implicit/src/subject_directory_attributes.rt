//! `SubjectDirectoryAttributes` of the module PKIX1Implicit88.
//!
//! ```text
//! SubjectDirectoryAttributes ::= SEQUENCE SIZE (1..MAX) OF Attribute
//! ```
ghost use Rattle.std.specs.Prelude.{◌≡◌, ◌↔◌, IsTrue, refl};
ghost use Rattle.yasna_notation.specs.Laws.{element_non_empty, represented_lawful};
ghost use Rattle.yasna_notation.specs.Making.{in_sequence_of, not_empty};
ghost use Rattle.yasna_notation.specs.Notation.{represented_by};
ghost use Rattle.x509.specs.contracts.attribute.AttributeNotation.TheImpl.Laws.{lawful-law as x509_attribute_law};

use x509::Attribute;
use yasna::{ASN1Result, BERMode, BERReader, DERWriter, PrependBuffer, Tag};
use yasna_notation::{Bounded, Message, NotEmpty, Notation, Represents, SequenceOf, read_as};
use yasna_notation_constraints::Checked;

type Notated = Bounded<SequenceOf<Attribute>, NotEmpty>;

/// `SubjectDirectoryAttributes`.
#[derive(Drop)]
pub struct SubjectDirectoryAttributes {
    pub items: Vec<Attribute>,
}

impl Represents<Vec<Attribute>> for SubjectDirectoryAttributes {
    ghost value_of = { λ v. v.items };

    fn from_value(items: Vec<Attribute>) -> SubjectDirectoryAttributes {
        SubjectDirectoryAttributes { items }
    }
}

impl Notation for SubjectDirectoryAttributes {
    type Value = SubjectDirectoryAttributes;

    type Inner = ();

    ghost means = { represented_by ⟦<SubjectDirectoryAttributes as Represents<Vec<Attribute>>>⟧.value_of ⟦<Notated as Notation>⟧.means };

    fn has_tag(tag: Tag) -> bool {
        <Notated as Notation>::has_tag(tag)
    }

    fn read(reader: BERReader) -> ASN1Result<SubjectDirectoryAttributes> {
        read_as::<Notated, SubjectDirectoryAttributes>(reader)
    }

    fn write(value: &SubjectDirectoryAttributes, writer: DERWriter<'_>) -> ASN1Result<()> {
        <Notated as Notation>::write(&value.items, writer)
    }

    fn prepend(
        value: &SubjectDirectoryAttributes,
        under: Option<Tag>,
        out: &mut PrependBuffer,
    ) -> ASN1Result<()> {
        <Notated as Notation>::prepend(&value.items, under, out)
    }

    fn encoded_len(
        value: &SubjectDirectoryAttributes,
        under: Option<Tag>,
        mode: BERMode,
    ) -> Option<usize> {
        <Notated as Notation>::encoded_len(&value.items, under, mode)
    }

    ghost lawful = { λ _. represented_lawful ⟦<SubjectDirectoryAttributes as Represents<Vec<Attribute>>>⟧.value_of (not_empty (in_sequence_of
        (x509_attribute_law refl).own)) };

    ghost non_empty = { λ u m v. element_non_empty _ _ _ _ };
}

impl Message for SubjectDirectoryAttributes {
    ghost is_unambiguous = { refl };
}

impl Checked for SubjectDirectoryAttributes {
    fn accepts(value: &SubjectDirectoryAttributes) -> bool {
        <Notated as Checked>::accepts(&value.items)
    }
}
