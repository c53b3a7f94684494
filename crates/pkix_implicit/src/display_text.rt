//! `DisplayText` of the module PKIX1Implicit88.
//!
//! ```text
//! DisplayText ::= CHOICE {
//!     ia5String      IA5String (SIZE (1..200)),
//!     visibleString  VisibleString (SIZE (1..200)),
//!     bmpString      BMPString (SIZE (1..200)),
//!     utf8String     UTF8String (SIZE (1..200)) }
//! ```
//!
//! It accepts more than the module says:
//!
//! - `bmpString`: a constraint isn't tested.
ghost use Rattle.std.specs.Prelude.{◌≡◌, ◌↔◌, IsTrue, length, refl};
ghost use Rattle.std.proofs.Common.{ap};
ghost use Rattle.yasna_base.specs.Text.{characters};
ghost use Rattle.yasna_notation.specs.Bounded.{passes_alike, within_lawful};
ghost use Rattle.yasna_notation.specs.Canonical.{bounded_written, choice_written_as, represented_written};
ghost use Rattle.yasna_notation.specs.Laws.{represented_lawful};
ghost use Rattle.yasna_notation.specs.Making.{alternative, from_to, in_choice};
ghost use Rattle.yasna_notation.specs.Notation.{represented_by};
ghost use Rattle.yasna_notation.specs.Writing.{alternative_written};
ghost use Rattle.yasna_notation.specs.declared.choices.Either.TheVariants.{First, Second};
ghost use Rattle.yasna_notation.specs.contracts.strings.StringNotation.TheImpl.Laws.{lawful-law as text_law, non_empty-law as text_non_empty};
ghost use Rattle.yasna_notation.specs.contracts.canonical.StringCanonicalNotation.TheImpl.Laws.{written-law as text_written};
ghost use Rattle.yasna_notation.specs.contracts.strings.Ia5StringNotation.TheImpl.Laws.{lawful-law as ia5_law, non_empty-law as ia5_non_empty};
ghost use Rattle.yasna_notation.specs.contracts.canonical.Ia5StringCanonicalNotation.TheImpl.Laws.{written-law as ia5_written};
ghost use Rattle.yasna_notation.specs.contracts.strings.VisibleStringNotation.TheImpl.Laws.{lawful-law as visible_law, non_empty-law as visible_non_empty};
ghost use Rattle.yasna_notation.specs.contracts.canonical.VisibleStringCanonicalNotation.TheImpl.Laws.{written-law as visible_written};
ghost use Rattle.yasna_notation_types.specs.contracts.bmp_string.BmpStringNotation.TheImpl.Laws.{lawful-law as bmp_law, non_empty-law as bmp_non_empty};
ghost use Rattle.yasna_notation_types.specs.contracts.bmp_string.BmpStringCanonicalNotation.TheImpl.Laws.{written-law as bmp_written};
ghost use Rattle.std.specs.Prelude.{[]};
ghost use Rattle.pkix_implicit.specs.declared.display_text.DisplayText.TheVariants.{Ia5String as Ia5StringVariant, VisibleString as VisibleStringVariant, BmpString as BmpStringVariant, Utf8String};

use yasna::{ASN1Result, BERMode, BERReader, DERWriter, PrependBuffer, Tag};
use yasna_notation::Either::{First, Second};
use yasna_notation::{
    Bounded, CanonicalNotation, Choice, Either, Ia5String, Message, Notation, Represents,
    VisibleString, read_as,
};
use yasna_notation_constraints::{Checked, SizeFromTo};
use yasna_notation_types::BmpString;

type Types = (
    Bounded<Ia5String, SizeFromTo<1, 200>>,
    (
        Bounded<VisibleString, SizeFromTo<1, 200>>,
        (BmpString, (Bounded<String, SizeFromTo<1, 200>>,)),
    ),
);

type Sides = Either<String, Either<String, Either<String, String>>>;

type Notated = Choice<Types>;

/// `DisplayText`.
#[derive(Drop)]
pub enum DisplayText {
    Ia5String(String),
    VisibleString(String),
    BmpString(String),
    Utf8String(String),
}

impl Represents<Sides> for DisplayText {
    ghost value_of = { λ v. elim v [
      | Ia5StringVariant x ↦ First (x)
      | VisibleStringVariant x ↦ Second (First (x))
      | BmpStringVariant x ↦ Second (Second (First (x)))
      | Utf8String x ↦ Second (Second (Second (x)))
    ] };

    fn from_value(value: Sides) -> DisplayText {
        match value {
            First(value) => DisplayText::Ia5String(value),
            Second(First(value)) => DisplayText::VisibleString(value),
            Second(Second(First(value))) => DisplayText::BmpString(value),
            Second(Second(Second(value))) => DisplayText::Utf8String(value),
        }
    }
}

impl Notation for DisplayText {
    type Value = DisplayText;

    type Inner = ();

    ghost means = { represented_by ⟦<DisplayText as Represents<Sides>>⟧.value_of ⟦<Notated as Notation>⟧.means };

    fn has_tag(tag: Tag) -> bool {
        <Notated as Notation>::has_tag(tag)
    }

    fn read(reader: BERReader) -> ASN1Result<DisplayText> {
        read_as::<Notated, DisplayText>(reader)
    }

    fn write(value: &DisplayText, writer: DERWriter<'_>) -> ASN1Result<()> {
        match value {
            DisplayText::Ia5String(value) => <Bounded<
                Ia5String,
                SizeFromTo<1, 200>,
            > as Notation>::write(value, writer),
            DisplayText::VisibleString(value) => <Bounded<
                VisibleString,
                SizeFromTo<1, 200>,
            > as Notation>::write(value, writer),
            DisplayText::BmpString(value) => <BmpString as Notation>::write(value, writer),
            DisplayText::Utf8String(value) => <Bounded<
                String,
                SizeFromTo<1, 200>,
            > as Notation>::write(value, writer),
        }
    }

    fn prepend(value: &DisplayText, under: Option<Tag>, out: &mut PrependBuffer) -> ASN1Result<()> {
        match value {
            DisplayText::Ia5String(value) => <Bounded<
                Ia5String,
                SizeFromTo<1, 200>,
            > as Notation>::prepend(value, under, out),
            DisplayText::VisibleString(value) => <Bounded<
                VisibleString,
                SizeFromTo<1, 200>,
            > as Notation>::prepend(value, under, out),
            DisplayText::BmpString(value) => <BmpString as Notation>::prepend(value, under, out),
            DisplayText::Utf8String(value) => <Bounded<
                String,
                SizeFromTo<1, 200>,
            > as Notation>::prepend(value, under, out),
        }
    }

    fn encoded_len(value: &DisplayText, under: Option<Tag>, mode: BERMode) -> Option<usize> {
        match value {
            DisplayText::Ia5String(value) => <Bounded<
                Ia5String,
                SizeFromTo<1, 200>,
            > as Notation>::encoded_len(value, under, mode),
            DisplayText::VisibleString(value) => <Bounded<
                VisibleString,
                SizeFromTo<1, 200>,
            > as Notation>::encoded_len(value, under, mode),
            DisplayText::BmpString(value) => <BmpString as Notation>::encoded_len(
                value, under, mode,
            ),
            DisplayText::Utf8String(value) => <Bounded<
                String,
                SizeFromTo<1, 200>,
            > as Notation>::encoded_len(value, under, mode),
        }
    }

    ghost lawful = { λ _. represented_lawful ⟦<DisplayText as Represents<Sides>>⟧.value_of (in_choice ⟦<Notated as Notation>⟧.means.encoding_under
        (alternative (within_lawful (λ v. from_to 1 200 (length (characters v))) (λ v w e. passes_alike (from_to 1 200)
        (ap length e)) (ia5_law refl)).own refl (alternative (within_lawful (λ v. from_to 1 200 (length (characters v)))
        (λ v w e. passes_alike (from_to 1 200) (ap length e)) (visible_law refl)).own refl (alternative (bmp_law refl).own refl
        (within_lawful (λ v. from_to 1 200 (length (characters v))) (λ v w e. passes_alike (from_to 1 200) (ap length e))
        (text_law refl)).own)))) };

    ghost non_empty = { λ u m v. elim v as (λ k. ⟦<Notated as Notation>⟧.means.encoding_under u m (⟦<DisplayText as Represents<Sides>>⟧.value_of k) ≡ [] → ⊥) [
      | Ia5StringVariant x ↦ (ia5_non_empty u) m x
      | VisibleStringVariant x ↦ (visible_non_empty u) m x
      | BmpStringVariant x ↦ (bmp_non_empty u) m x
      | Utf8String x ↦ (text_non_empty u) m x
    ] };
}

impl Message for DisplayText {
    ghost is_unambiguous = { refl };
}

impl CanonicalNotation for DisplayText {
    ghost written = { λ _. represented_written ⟦<DisplayText as Represents<Sides>>⟧.value_of (choice_written_as ⟦<Notated as Notation>⟧.means.encoding_under
        (alternative_written (bounded_written (λ v. from_to 1 200 (length (characters v))) (λ v w e. passes_alike
        (from_to 1 200) (ap length e)) (ia5_written refl)).own (alternative_written (bounded_written (λ v. from_to 1 200
        (length (characters v))) (λ v w e. passes_alike (from_to 1 200) (ap length e)) (visible_written refl)).own
        (alternative_written (bmp_written refl).own (bounded_written (λ v. from_to 1 200 (length (characters v)))
        (λ v w e. passes_alike (from_to 1 200) (ap length e)) (text_written refl)).own)))) };
}

impl Checked for DisplayText {
    fn accepts(value: &DisplayText) -> bool {
        match value {
            DisplayText::Ia5String(value) => <Bounded<
                Ia5String,
                SizeFromTo<1, 200>,
            > as Checked>::accepts(value),
            DisplayText::VisibleString(value) => <Bounded<
                VisibleString,
                SizeFromTo<1, 200>,
            > as Checked>::accepts(value),
            DisplayText::BmpString(value) => <BmpString as Checked>::accepts(value),
            DisplayText::Utf8String(value) => <Bounded<
                String,
                SizeFromTo<1, 200>,
            > as Checked>::accepts(value),
        }
    }
}
