//! `PKIFreeText` of the module PKIXTSP.
//!
//! ```text
//! PKIFreeText ::= SEQUENCE SIZE (1..MAX) OF UTF8String
//! ```
ghost use Rattle.std.specs.Prelude.{◌≡◌, ◌↔◌, IsTrue, refl};
ghost use Rattle.yasna_notation.specs.Canonical.{represented_written};
ghost use Rattle.yasna_notation.specs.Laws.{element_non_empty, represented_lawful};
ghost use Rattle.yasna_notation.specs.Making.{in_sequence_of, not_empty};
ghost use Rattle.yasna_notation.specs.Notation.{represented_by};
ghost use Rattle.yasna_notation.specs.Writing.{non_empty_list_written, sequence_of_written};
ghost use Rattle.yasna_notation.specs.contracts.strings.StringNotation.TheImpl.Laws.{lawful-law as text_law};
ghost use Rattle.yasna_notation.specs.contracts.canonical.StringCanonicalNotation.TheImpl.Laws.{written-law as text_written};

use yasna::{ASN1Result, BERMode, BERReader, DERWriter, PrependBuffer, Tag};
use yasna_notation::{
    Bounded, CanonicalNotation, Message, NotEmpty, Notation, Represents, SequenceOf, read_as,
};
use yasna_notation_constraints::Checked;

type Notated = Bounded<SequenceOf<String>, NotEmpty>;

/// `PKIFreeText`.
#[derive(Drop)]
pub struct PkiFreeText {
    pub items: Vec<String>,
}

impl Represents<Vec<String>> for PkiFreeText {
    ghost value_of = { λ v. v.items };

    fn from_value(items: Vec<String>) -> PkiFreeText {
        PkiFreeText { items }
    }
}

impl Notation for PkiFreeText {
    type Value = PkiFreeText;

    type Inner = ();

    ghost means = { represented_by ⟦<PkiFreeText as Represents<Vec<String>>>⟧.value_of ⟦<Notated as Notation>⟧.means };

    fn has_tag(tag: Tag) -> bool {
        <Notated as Notation>::has_tag(tag)
    }

    fn read(reader: BERReader) -> ASN1Result<PkiFreeText> {
        read_as::<Notated, PkiFreeText>(reader)
    }

    fn write(value: &PkiFreeText, writer: DERWriter<'_>) -> ASN1Result<()> {
        <Notated as Notation>::write(&value.items, writer)
    }

    fn prepend(value: &PkiFreeText, under: Option<Tag>, out: &mut PrependBuffer) -> ASN1Result<()> {
        <Notated as Notation>::prepend(&value.items, under, out)
    }

    fn encoded_len(value: &PkiFreeText, under: Option<Tag>, mode: BERMode) -> Option<usize> {
        <Notated as Notation>::encoded_len(&value.items, under, mode)
    }

    ghost lawful = { λ _. represented_lawful ⟦<PkiFreeText as Represents<Vec<String>>>⟧.value_of (not_empty (in_sequence_of
        (text_law refl).own)) };

    ghost non_empty = { λ u m v. element_non_empty _ _ _ _ };
}

impl Message for PkiFreeText {
    ghost is_unambiguous = { refl };
}

impl CanonicalNotation for PkiFreeText {
    ghost written = { λ _. represented_written ⟦<PkiFreeText as Represents<Vec<String>>>⟧.value_of (non_empty_list_written
        (sequence_of_written (text_written refl).own)) };
}

impl Checked for PkiFreeText {
    fn accepts(value: &PkiFreeText) -> bool {
        <Notated as Checked>::accepts(&value.items)
    }
}
