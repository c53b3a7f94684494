//! `GeneralSubtrees` of the module PKIX1Implicit88.
//!
//! ```text
//! GeneralSubtrees ::= SEQUENCE SIZE (1..MAX) OF GeneralSubtree
//! ```
ghost use Rattle.std.specs.Prelude.{◌≡◌, ◌↔◌, IsTrue, refl};
ghost use Rattle.yasna_notation.specs.Laws.{element_non_empty, represented_lawful};
ghost use Rattle.yasna_notation.specs.Making.{in_sequence_of, not_empty};
ghost use Rattle.yasna_notation.specs.Notation.{represented_by};
ghost use Rattle.pkix_implicit.specs.contracts.general_subtree.GeneralSubtreeNotation.TheImpl.Laws.{lawful-law as general_subtree_law};

use crate::general_subtree::GeneralSubtree;
use yasna::{ASN1Result, BERMode, BERReader, DERWriter, PrependBuffer, Tag};
use yasna_notation::{Bounded, Message, NotEmpty, Notation, Represents, SequenceOf, read_as};
use yasna_notation_constraints::Checked;

type Notated = Bounded<SequenceOf<GeneralSubtree>, NotEmpty>;

/// `GeneralSubtrees`.
#[derive(Drop)]
pub struct GeneralSubtrees {
    pub items: Vec<GeneralSubtree>,
}

impl Represents<Vec<GeneralSubtree>> for GeneralSubtrees {
    ghost value_of = { λ v. v.items };

    fn from_value(items: Vec<GeneralSubtree>) -> GeneralSubtrees {
        GeneralSubtrees { items }
    }
}

impl Notation for GeneralSubtrees {
    type Value = GeneralSubtrees;

    type Inner = ();

    ghost means = { represented_by ⟦<GeneralSubtrees as Represents<Vec<GeneralSubtree>>>⟧.value_of ⟦<Notated as Notation>⟧.means };

    fn has_tag(tag: Tag) -> bool {
        <Notated as Notation>::has_tag(tag)
    }

    fn read(reader: BERReader) -> ASN1Result<GeneralSubtrees> {
        read_as::<Notated, GeneralSubtrees>(reader)
    }

    fn write(value: &GeneralSubtrees, writer: DERWriter<'_>) -> ASN1Result<()> {
        <Notated as Notation>::write(&value.items, writer)
    }

    fn prepend(
        value: &GeneralSubtrees,
        under: Option<Tag>,
        out: &mut PrependBuffer,
    ) -> ASN1Result<()> {
        <Notated as Notation>::prepend(&value.items, under, out)
    }

    fn encoded_len(value: &GeneralSubtrees, under: Option<Tag>, mode: BERMode) -> Option<usize> {
        <Notated as Notation>::encoded_len(&value.items, under, mode)
    }

    ghost lawful = { λ _. represented_lawful ⟦<GeneralSubtrees as Represents<Vec<GeneralSubtree>>>⟧.value_of (not_empty (in_sequence_of
        (general_subtree_law refl).own)) };

    ghost non_empty = { λ u m v. element_non_empty _ _ _ _ };
}

impl Message for GeneralSubtrees {
    ghost is_unambiguous = { refl };
}

impl Checked for GeneralSubtrees {
    fn accepts(value: &GeneralSubtrees) -> bool {
        <Notated as Checked>::accepts(&value.items)
    }
}
