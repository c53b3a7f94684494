//! `CRLDistributionPoints` of the module PKIX1Implicit88.
//!
//! ```text
//! CRLDistributionPoints ::= SEQUENCE SIZE (1..MAX) OF DistributionPoint
//! ```
ghost use Rattle.std.specs.Prelude.{◌≡◌, ◌↔◌, IsTrue, refl};
ghost use Rattle.yasna_notation.specs.Laws.{element_non_empty, represented_lawful};
ghost use Rattle.yasna_notation.specs.Making.{in_sequence_of, not_empty};
ghost use Rattle.yasna_notation.specs.Notation.{represented_by};
ghost use Rattle.pkix_implicit.specs.contracts.distribution_point.DistributionPointNotation.TheImpl.Laws.{lawful-law as distribution_point_law};

use crate::distribution_point::DistributionPoint;
use yasna::{ASN1Result, BERMode, BERReader, DERWriter, PrependBuffer, Tag};
use yasna_notation::{Bounded, Message, NotEmpty, Notation, Represents, SequenceOf, read_as};
use yasna_notation_constraints::Checked;

type Notated = Bounded<SequenceOf<DistributionPoint>, NotEmpty>;

/// `CRLDistributionPoints`.
#[derive(Drop)]
pub struct CrlDistributionPoints {
    pub items: Vec<DistributionPoint>,
}

impl Represents<Vec<DistributionPoint>> for CrlDistributionPoints {
    ghost value_of = { λ v. v.items };

    fn from_value(items: Vec<DistributionPoint>) -> CrlDistributionPoints {
        CrlDistributionPoints { items }
    }
}

impl Notation for CrlDistributionPoints {
    type Value = CrlDistributionPoints;

    type Inner = ();

    ghost means = { represented_by ⟦<CrlDistributionPoints as Represents<Vec<DistributionPoint>>>⟧.value_of ⟦<Notated as Notation>⟧.means };

    fn has_tag(tag: Tag) -> bool {
        <Notated as Notation>::has_tag(tag)
    }

    fn read(reader: BERReader) -> ASN1Result<CrlDistributionPoints> {
        read_as::<Notated, CrlDistributionPoints>(reader)
    }

    fn write(value: &CrlDistributionPoints, writer: DERWriter<'_>) -> ASN1Result<()> {
        <Notated as Notation>::write(&value.items, writer)
    }

    fn prepend(
        value: &CrlDistributionPoints,
        under: Option<Tag>,
        out: &mut PrependBuffer,
    ) -> ASN1Result<()> {
        <Notated as Notation>::prepend(&value.items, under, out)
    }

    fn encoded_len(
        value: &CrlDistributionPoints,
        under: Option<Tag>,
        mode: BERMode,
    ) -> Option<usize> {
        <Notated as Notation>::encoded_len(&value.items, under, mode)
    }

    ghost lawful = { λ _. represented_lawful ⟦<CrlDistributionPoints as Represents<Vec<DistributionPoint>>>⟧.value_of (not_empty (in_sequence_of
        (distribution_point_law refl).own)) };

    ghost non_empty = { λ u m v. element_non_empty _ _ _ _ };
}

impl Message for CrlDistributionPoints {
    ghost is_unambiguous = { refl };
}

impl Checked for CrlDistributionPoints {
    fn accepts(value: &CrlDistributionPoints) -> bool {
        <Notated as Checked>::accepts(&value.items)
    }
}
