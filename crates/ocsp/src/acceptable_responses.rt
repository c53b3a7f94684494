//! `AcceptableResponses` of the module OCSP.
//!
//! ```text
//! AcceptableResponses ::= SEQUENCE OF OBJECT IDENTIFIER
//! ```
ghost use Rattle.std.specs.Prelude.{◌≡◌, ◌↔◌, IsTrue, refl};
ghost use Rattle.yasna_notation.specs.Canonical.{represented_written};
ghost use Rattle.yasna_notation.specs.Laws.{element_non_empty, represented_lawful};
ghost use Rattle.yasna_notation.specs.Making.{in_sequence_of};
ghost use Rattle.yasna_notation.specs.Notation.{represented_by};
ghost use Rattle.yasna_notation.specs.Writing.{sequence_of_written};
ghost use Rattle.yasna_notation.specs.contracts.simple.ObjectIdentifierNotation.TheImpl.Laws.{lawful-law as oid_law};
ghost use Rattle.yasna_notation.specs.contracts.canonical.ObjectIdentifierCanonicalNotation.TheImpl.Laws.{written-law as oid_written};

use yasna::models::ObjectIdentifier;
use yasna::{ASN1Result, BERMode, BERReader, DERWriter, PrependBuffer, Tag};
use yasna_notation::{CanonicalNotation, Message, Notation, Represents, SequenceOf, read_as};
use yasna_notation_constraints::Checked;

type Notated = SequenceOf<ObjectIdentifier>;

/// `AcceptableResponses`.
#[derive(Drop)]
pub struct AcceptableResponses {
    pub items: Vec<ObjectIdentifier>,
}

impl Represents<Vec<ObjectIdentifier>> for AcceptableResponses {
    ghost value_of = { λ v. v.items };

    fn from_value(items: Vec<ObjectIdentifier>) -> AcceptableResponses {
        AcceptableResponses { items }
    }
}

impl Notation for AcceptableResponses {
    type Value = AcceptableResponses;

    type Inner = ();

    ghost means = { represented_by ⟦<AcceptableResponses as Represents<Vec<ObjectIdentifier>>>⟧.value_of ⟦<Notated as Notation>⟧.means };

    fn has_tag(tag: Tag) -> bool {
        <Notated as Notation>::has_tag(tag)
    }

    fn read(reader: BERReader) -> ASN1Result<AcceptableResponses> {
        read_as::<Notated, AcceptableResponses>(reader)
    }

    fn write(value: &AcceptableResponses, writer: DERWriter<'_>) -> ASN1Result<()> {
        <Notated as Notation>::write(&value.items, writer)
    }

    fn prepend(
        value: &AcceptableResponses,
        under: Option<Tag>,
        out: &mut PrependBuffer,
    ) -> ASN1Result<()> {
        <Notated as Notation>::prepend(&value.items, under, out)
    }

    fn encoded_len(
        value: &AcceptableResponses,
        under: Option<Tag>,
        mode: BERMode,
    ) -> Option<usize> {
        <Notated as Notation>::encoded_len(&value.items, under, mode)
    }

    ghost lawful = { λ _. represented_lawful ⟦<AcceptableResponses as Represents<Vec<ObjectIdentifier>>>⟧.value_of (in_sequence_of
        (oid_law refl).own) };

    ghost non_empty = { λ u m v. element_non_empty _ _ _ _ };
}

impl Message for AcceptableResponses {
    ghost is_unambiguous = { refl };
}

impl CanonicalNotation for AcceptableResponses {
    ghost written = { λ _. represented_written ⟦<AcceptableResponses as Represents<Vec<ObjectIdentifier>>>⟧.value_of (sequence_of_written
        (oid_written refl).own) };
}

impl Checked for AcceptableResponses {
    fn accepts(value: &AcceptableResponses) -> bool {
        <Notated as Checked>::accepts(&value.items)
    }
}
