//! `GeneralNames` of the module PKIX1Implicit88.
//!
//! ```text
//! GeneralNames ::= SEQUENCE SIZE (1..MAX) OF GeneralName
//! ```
ghost use Rattle.std.specs.Prelude.{◌≡◌, ◌↔◌, IsTrue, refl};
ghost use Rattle.yasna_notation.specs.Laws.{element_non_empty, represented_lawful};
ghost use Rattle.yasna_notation.specs.Making.{in_sequence_of, not_empty};
ghost use Rattle.yasna_notation.specs.Notation.{represented_by};
ghost use Rattle.pkix_implicit.specs.contracts.general_name.GeneralNameNotation.TheImpl.Laws.{lawful-law as general_name_law};

use crate::general_name::GeneralName;
use yasna::{ASN1Result, BERMode, BERReader, DERWriter, PrependBuffer, Tag};
use yasna_notation::{Bounded, Message, NotEmpty, Notation, Represents, SequenceOf, read_as};
use yasna_notation_constraints::Checked;

type Notated = Bounded<SequenceOf<GeneralName>, NotEmpty>;

/// `GeneralNames`.
#[derive(Drop)]
pub struct GeneralNames {
    pub items: Vec<GeneralName>,
}

impl Represents<Vec<GeneralName>> for GeneralNames {
    ghost value_of = { λ v. v.items };

    fn from_value(items: Vec<GeneralName>) -> GeneralNames {
        GeneralNames { items }
    }
}

impl Notation for GeneralNames {
    type Value = GeneralNames;

    type Inner = ();

    ghost means = { represented_by ⟦<GeneralNames as Represents<Vec<GeneralName>>>⟧.value_of ⟦<Notated as Notation>⟧.means };

    fn has_tag(tag: Tag) -> bool {
        <Notated as Notation>::has_tag(tag)
    }

    fn read(reader: BERReader) -> ASN1Result<GeneralNames> {
        read_as::<Notated, GeneralNames>(reader)
    }

    fn write(value: &GeneralNames, writer: DERWriter<'_>) -> ASN1Result<()> {
        <Notated as Notation>::write(&value.items, writer)
    }

    fn prepend(
        value: &GeneralNames,
        under: Option<Tag>,
        out: &mut PrependBuffer,
    ) -> ASN1Result<()> {
        <Notated as Notation>::prepend(&value.items, under, out)
    }

    fn encoded_len(value: &GeneralNames, under: Option<Tag>, mode: BERMode) -> Option<usize> {
        <Notated as Notation>::encoded_len(&value.items, under, mode)
    }

    ghost lawful = { λ _. represented_lawful ⟦<GeneralNames as Represents<Vec<GeneralName>>>⟧.value_of (not_empty (in_sequence_of
        (general_name_law refl).own)) };

    ghost non_empty = { λ u m v. element_non_empty _ _ _ _ };
}

impl Message for GeneralNames {
    ghost is_unambiguous = { refl };
}

impl Checked for GeneralNames {
    fn accepts(value: &GeneralNames) -> bool {
        <Notated as Checked>::accepts(&value.items)
    }
}
