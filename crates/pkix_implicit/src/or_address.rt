//! `ORAddress` of the module PKIX1Implicit88.
//!
//! ```text
//! ORAddress ::= SEQUENCE OF ANY
//! ```
ghost use Rattle.std.specs.Prelude.{◌≡◌, ◌↔◌, IsTrue, refl};
ghost use Rattle.yasna_notation.specs.Laws.{element_non_empty, represented_lawful};
ghost use Rattle.yasna_notation.specs.Making.{in_sequence_of};
ghost use Rattle.yasna_notation.specs.Notation.{represented_by};
ghost use Rattle.yasna_notation.specs.contracts.any.TaggedDerValueNotation.TheImpl.Laws.{lawful-law as any_law};

use yasna::models::TaggedDerValue;
use yasna::{ASN1Result, BERMode, BERReader, DERWriter, PrependBuffer, Tag};
use yasna_notation::{Message, Notation, Represents, SequenceOf, read_as};
use yasna_notation_constraints::Checked;

type Notated = SequenceOf<TaggedDerValue>;

/// `ORAddress`.
#[derive(Drop)]
pub struct OrAddress {
    pub items: Vec<TaggedDerValue>,
}

impl Represents<Vec<TaggedDerValue>> for OrAddress {
    ghost value_of = { λ v. v.items };

    fn from_value(items: Vec<TaggedDerValue>) -> OrAddress {
        OrAddress { items }
    }
}

impl Notation for OrAddress {
    type Value = OrAddress;

    type Inner = ();

    ghost means = { represented_by ⟦<OrAddress as Represents<Vec<TaggedDerValue>>>⟧.value_of ⟦<Notated as Notation>⟧.means };

    fn has_tag(tag: Tag) -> bool {
        <Notated as Notation>::has_tag(tag)
    }

    fn read(reader: BERReader) -> ASN1Result<OrAddress> {
        read_as::<Notated, OrAddress>(reader)
    }

    fn write(value: &OrAddress, writer: DERWriter<'_>) -> ASN1Result<()> {
        <Notated as Notation>::write(&value.items, writer)
    }

    fn prepend(value: &OrAddress, under: Option<Tag>, out: &mut PrependBuffer) -> ASN1Result<()> {
        <Notated as Notation>::prepend(&value.items, under, out)
    }

    fn encoded_len(value: &OrAddress, under: Option<Tag>, mode: BERMode) -> Option<usize> {
        <Notated as Notation>::encoded_len(&value.items, under, mode)
    }

    ghost lawful = { λ _. represented_lawful ⟦<OrAddress as Represents<Vec<TaggedDerValue>>>⟧.value_of (in_sequence_of
        (any_law refl).own) };

    ghost non_empty = { λ u m v. element_non_empty _ _ _ _ };
}

impl Message for OrAddress {
    ghost is_unambiguous = { refl };
}

impl Checked for OrAddress {
    fn accepts(value: &OrAddress) -> bool {
        <Notated as Checked>::accepts(&value.items)
    }
}
