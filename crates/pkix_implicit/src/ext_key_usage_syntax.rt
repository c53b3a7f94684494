//! `ExtKeyUsageSyntax` of the module PKIX1Implicit88.
//!
//! ```text
//! ExtKeyUsageSyntax ::= SEQUENCE SIZE (1..MAX) OF KeyPurposeId
//! ```
ghost use Rattle.std.specs.Prelude.{◌≡◌, ◌↔◌, IsTrue, refl};
ghost use Rattle.yasna_notation.specs.Canonical.{represented_written};
ghost use Rattle.yasna_notation.specs.Laws.{element_non_empty, represented_lawful};
ghost use Rattle.yasna_notation.specs.Making.{in_sequence_of, not_empty};
ghost use Rattle.yasna_notation.specs.Notation.{represented_by};
ghost use Rattle.yasna_notation.specs.Writing.{non_empty_list_written, sequence_of_written};
ghost use Rattle.yasna_notation.specs.contracts.simple.ObjectIdentifierNotation.TheImpl.Laws.{lawful-law as oid_law};
ghost use Rattle.yasna_notation.specs.contracts.canonical.ObjectIdentifierCanonicalNotation.TheImpl.Laws.{written-law as oid_written};

use yasna::models::ObjectIdentifier;
use yasna::{ASN1Result, BERMode, BERReader, DERWriter, PrependBuffer, Tag};
use yasna_notation::{
    Bounded, CanonicalNotation, Message, NotEmpty, Notation, Represents, SequenceOf, read_as,
};
use yasna_notation_constraints::Checked;

type Notated = Bounded<SequenceOf<ObjectIdentifier>, NotEmpty>;

/// `ExtKeyUsageSyntax`.
#[derive(Drop)]
pub struct ExtKeyUsageSyntax {
    pub items: Vec<ObjectIdentifier>,
}

impl Represents<Vec<ObjectIdentifier>> for ExtKeyUsageSyntax {
    ghost value_of = { λ v. v.items };

    fn from_value(items: Vec<ObjectIdentifier>) -> ExtKeyUsageSyntax {
        ExtKeyUsageSyntax { items }
    }
}

impl Notation for ExtKeyUsageSyntax {
    type Value = ExtKeyUsageSyntax;

    type Inner = ();

    ghost means = { represented_by ⟦<ExtKeyUsageSyntax as Represents<Vec<ObjectIdentifier>>>⟧.value_of ⟦<Notated as Notation>⟧.means };

    fn has_tag(tag: Tag) -> bool {
        <Notated as Notation>::has_tag(tag)
    }

    fn read(reader: BERReader) -> ASN1Result<ExtKeyUsageSyntax> {
        read_as::<Notated, ExtKeyUsageSyntax>(reader)
    }

    fn write(value: &ExtKeyUsageSyntax, writer: DERWriter<'_>) -> ASN1Result<()> {
        <Notated as Notation>::write(&value.items, writer)
    }

    fn prepend(
        value: &ExtKeyUsageSyntax,
        under: Option<Tag>,
        out: &mut PrependBuffer,
    ) -> ASN1Result<()> {
        <Notated as Notation>::prepend(&value.items, under, out)
    }

    fn encoded_len(value: &ExtKeyUsageSyntax, under: Option<Tag>, mode: BERMode) -> Option<usize> {
        <Notated as Notation>::encoded_len(&value.items, under, mode)
    }

    ghost lawful = { λ _. represented_lawful ⟦<ExtKeyUsageSyntax as Represents<Vec<ObjectIdentifier>>>⟧.value_of (not_empty (in_sequence_of
        (oid_law refl).own)) };

    ghost non_empty = { λ u m v. element_non_empty _ _ _ _ };
}

impl Message for ExtKeyUsageSyntax {
    ghost is_unambiguous = { refl };
}

impl CanonicalNotation for ExtKeyUsageSyntax {
    ghost written = { λ _. represented_written ⟦<ExtKeyUsageSyntax as Represents<Vec<ObjectIdentifier>>>⟧.value_of (non_empty_list_written
        (sequence_of_written (oid_written refl).own)) };
}

impl Checked for ExtKeyUsageSyntax {
    fn accepts(value: &ExtKeyUsageSyntax) -> bool {
        <Notated as Checked>::accepts(&value.items)
    }
}
