//! `DirectoryString` of the module PKIX1Implicit88.
//!
//! ```text
//! DirectoryString ::= CHOICE {
//!     teletexString    TeletexString (SIZE (1..MAX)),
//!     printableString  PrintableString (SIZE (1..MAX)),
//!     universalString  UniversalString (SIZE (1..MAX)),
//!     utf8String       UTF8String (SIZE (1..MAX)),
//!     bmpString        BMPString (SIZE (1..MAX)) }
//! ```
//!
//! It accepts more than the module says:
//!
//! - `teletexString`: the characters of a string aren't read.
//! - `teletexString`: a constraint isn't tested.
//! - `universalString`: the characters of a string aren't read.
//! - `universalString`: a constraint isn't tested.
//! - `bmpString`: a constraint isn't tested.
ghost use Rattle.std.specs.Prelude.{◌≡◌, ◌↔◌, IsTrue, Some, length, refl};
ghost use Rattle.std.proofs.Common.{ap, arith};
ghost use Rattle.yasna_base.specs.Text.{characters};
ghost use Rattle.yasna_notation.specs.Bounded.{passes_alike, within_lawful};
ghost use Rattle.yasna_notation.specs.Canonical.{bounded_written, choice_written_as, represented_written};
ghost use Rattle.yasna_notation.specs.Laws.{represented_lawful};
ghost use Rattle.yasna_notation.specs.Making.{alternative, in_choice, tag_or};
ghost use Rattle.yasna_base.specs.Identifier.{universal};
ghost use Rattle.yasna_notation.specs.Notation.{represented_by};
ghost use Rattle.yasna_notation.specs.Writing.{alternative_written};
ghost use Rattle.yasna_notation.specs.declared.choices.Either.TheVariants.{First, Second};
ghost use Rattle.yasna_notation_constraints.specs.Sizes.{from_on};
ghost use Rattle.yasna_notation_types.specs.Making.{in_universal, under_universal};
ghost use Rattle.yasna_notation.specs.contracts.strings.VecU8Notation.TheImpl.Laws.{lawful-law as octets_law, non_empty-law as octets_non_empty};
ghost use Rattle.yasna_notation.specs.contracts.canonical.VecU8CanonicalNotation.TheImpl.Laws.{written-law as octets_written};
ghost use Rattle.yasna_notation.specs.contracts.strings.StringNotation.TheImpl.Laws.{lawful-law as text_law, non_empty-law as text_non_empty};
ghost use Rattle.yasna_notation.specs.contracts.canonical.StringCanonicalNotation.TheImpl.Laws.{written-law as text_written};
ghost use Rattle.yasna_notation.specs.contracts.strings.PrintableStringNotation.TheImpl.Laws.{lawful-law as printable_law, non_empty-law as printable_non_empty};
ghost use Rattle.yasna_notation.specs.contracts.canonical.PrintableStringCanonicalNotation.TheImpl.Laws.{written-law as printable_written};
ghost use Rattle.yasna_notation_types.specs.contracts.bmp_string.BmpStringNotation.TheImpl.Laws.{lawful-law as bmp_law, non_empty-law as bmp_non_empty};
ghost use Rattle.yasna_notation_types.specs.contracts.bmp_string.BmpStringCanonicalNotation.TheImpl.Laws.{written-law as bmp_written};
ghost use Rattle.std.specs.Prelude.{[]};
ghost use Rattle.pkix_implicit.specs.declared.directory_string.DirectoryString.TheVariants.{TeletexString, PrintableString as PrintableStringVariant, UniversalString, Utf8String, BmpString as BmpStringVariant};

use yasna::{ASN1Result, BERMode, BERReader, DERWriter, PrependBuffer, Tag};
use yasna_notation::Either::{First, Second};
use yasna_notation::{
    Bounded, CanonicalNotation, Choice, Either, Implicit, Message, Notation, PrintableString,
    Represents, read_as,
};
use yasna_notation_constraints::{Checked, SizeFrom};
use yasna_notation_types::{BmpString, Universal};

type Types = (
    Implicit<Universal<20>, Vec<u8>>,
    (
        Bounded<PrintableString, SizeFrom<1>>,
        (
            Implicit<Universal<28>, Vec<u8>>,
            (Bounded<String, SizeFrom<1>>, (BmpString,)),
        ),
    ),
);

type Sides = Either<Vec<u8>, Either<String, Either<Vec<u8>, Either<String, String>>>>;

type Notated = Choice<Types>;

/// `DirectoryString`.
#[derive(Drop)]
pub enum DirectoryString {
    TeletexString(Vec<u8>),
    PrintableString(String),
    UniversalString(Vec<u8>),
    Utf8String(String),
    BmpString(String),
}

impl Represents<Sides> for DirectoryString {
    ghost value_of = { λ v. elim v [
      | TeletexString x ↦ First (x)
      | PrintableStringVariant x ↦ Second (First (x))
      | UniversalString x ↦ Second (Second (First (x)))
      | Utf8String x ↦ Second (Second (Second (First (x))))
      | BmpStringVariant x ↦ Second (Second (Second (Second (x))))
    ] };

    fn from_value(value: Sides) -> DirectoryString {
        match value {
            First(value) => DirectoryString::TeletexString(value),
            Second(First(value)) => DirectoryString::PrintableString(value),
            Second(Second(First(value))) => DirectoryString::UniversalString(value),
            Second(Second(Second(First(value)))) => DirectoryString::Utf8String(value),
            Second(Second(Second(Second(value)))) => DirectoryString::BmpString(value),
        }
    }
}

impl Notation for DirectoryString {
    type Value = DirectoryString;

    type Inner = ();

    ghost means = { represented_by ⟦<DirectoryString as Represents<Sides>>⟧.value_of ⟦<Notated as Notation>⟧.means };

    fn has_tag(tag: Tag) -> bool {
        <Notated as Notation>::has_tag(tag)
    }

    fn read(reader: BERReader) -> ASN1Result<DirectoryString> {
        read_as::<Notated, DirectoryString>(reader)
    }

    fn write(value: &DirectoryString, writer: DERWriter<'_>) -> ASN1Result<()> {
        match value {
            DirectoryString::TeletexString(value) => <Implicit<
                Universal<20>,
                Vec<u8>,
            > as Notation>::write(value, writer),
            DirectoryString::PrintableString(value) => <Bounded<
                PrintableString,
                SizeFrom<1>,
            > as Notation>::write(value, writer),
            DirectoryString::UniversalString(value) => <Implicit<
                Universal<28>,
                Vec<u8>,
            > as Notation>::write(value, writer),
            DirectoryString::Utf8String(value) => <Bounded<String, SizeFrom<1>> as Notation>::write(
                value, writer,
            ),
            DirectoryString::BmpString(value) => <BmpString as Notation>::write(value, writer),
        }
    }

    fn prepend(
        value: &DirectoryString,
        under: Option<Tag>,
        out: &mut PrependBuffer,
    ) -> ASN1Result<()> {
        match value {
            DirectoryString::TeletexString(value) => <Implicit<
                Universal<20>,
                Vec<u8>,
            > as Notation>::prepend(value, under, out),
            DirectoryString::PrintableString(value) => <Bounded<
                PrintableString,
                SizeFrom<1>,
            > as Notation>::prepend(value, under, out),
            DirectoryString::UniversalString(value) => <Implicit<
                Universal<28>,
                Vec<u8>,
            > as Notation>::prepend(value, under, out),
            DirectoryString::Utf8String(value) => <Bounded<
                String,
                SizeFrom<1>,
            > as Notation>::prepend(value, under, out),
            DirectoryString::BmpString(value) => <BmpString as Notation>::prepend(
                value, under, out,
            ),
        }
    }

    fn encoded_len(value: &DirectoryString, under: Option<Tag>, mode: BERMode) -> Option<usize> {
        match value {
            DirectoryString::TeletexString(value) => <Implicit<
                Universal<20>,
                Vec<u8>,
            > as Notation>::encoded_len(value, under, mode),
            DirectoryString::PrintableString(value) => <Bounded<
                PrintableString,
                SizeFrom<1>,
            > as Notation>::encoded_len(value, under, mode),
            DirectoryString::UniversalString(value) => <Implicit<
                Universal<28>,
                Vec<u8>,
            > as Notation>::encoded_len(value, under, mode),
            DirectoryString::Utf8String(value) => <Bounded<
                String,
                SizeFrom<1>,
            > as Notation>::encoded_len(value, under, mode),
            DirectoryString::BmpString(value) => <BmpString as Notation>::encoded_len(
                value, under, mode,
            ),
        }
    }

    ghost lawful = { λ _. represented_lawful ⟦<DirectoryString as Represents<Sides>>⟧.value_of (in_choice ⟦<Notated as Notation>⟧.means.encoding_under
        (alternative (in_universal 20 (λ e. omega arith) (omega arith) (octets_law refl)).own refl (alternative
        (within_lawful (λ v. from_on 1 (length (characters v))) (λ v w e. passes_alike (from_on 1) (ap length e))
        (printable_law refl)).own refl (alternative (in_universal 28 (λ e. omega arith) (omega arith) (octets_law refl)).own refl
        (alternative (within_lawful (λ v. from_on 1 (length (characters v))) (λ v w e. passes_alike (from_on 1)
        (ap length e)) (text_law refl)).own refl (bmp_law refl).own))))) };

    ghost non_empty = { λ u m v. elim v as (λ k. ⟦<Notated as Notation>⟧.means.encoding_under u m (⟦<DirectoryString as Represents<Sides>>⟧.value_of k) ≡ [] → ⊥) [
      | TeletexString x ↦ (octets_non_empty (Some (tag_or u (universal 20)))) m x
      | PrintableStringVariant x ↦ (printable_non_empty u) m x
      | UniversalString x ↦ (octets_non_empty (Some (tag_or u (universal 28)))) m x
      | Utf8String x ↦ (text_non_empty u) m x
      | BmpStringVariant x ↦ (bmp_non_empty u) m x
    ] };
}

impl Message for DirectoryString {
    ghost is_unambiguous = { refl };
}

impl CanonicalNotation for DirectoryString {
    ghost written = { λ _. represented_written ⟦<DirectoryString as Represents<Sides>>⟧.value_of (choice_written_as ⟦<Notated as Notation>⟧.means.encoding_under
        (alternative_written (under_universal 20 (λ e. omega arith) (omega arith) (octets_written refl)).own (alternative_written
        (bounded_written (λ v. from_on 1 (length (characters v))) (λ v w e. passes_alike (from_on 1) (ap length e))
        (printable_written refl)).own (alternative_written (under_universal 28 (λ e. omega arith) (omega arith)
        (octets_written refl)).own (alternative_written (bounded_written (λ v. from_on 1 (length (characters v)))
        (λ v w e. passes_alike (from_on 1) (ap length e)) (text_written refl)).own (bmp_written refl).own))))) };
}

impl Checked for DirectoryString {
    fn accepts(value: &DirectoryString) -> bool {
        match value {
            DirectoryString::TeletexString(value) => <Implicit<
                Universal<20>,
                Vec<u8>,
            > as Checked>::accepts(value),
            DirectoryString::PrintableString(value) => <Bounded<
                PrintableString,
                SizeFrom<1>,
            > as Checked>::accepts(value),
            DirectoryString::UniversalString(value) => <Implicit<
                Universal<28>,
                Vec<u8>,
            > as Checked>::accepts(value),
            DirectoryString::Utf8String(value) => <Bounded<
                String,
                SizeFrom<1>,
            > as Checked>::accepts(value),
            DirectoryString::BmpString(value) => <BmpString as Checked>::accepts(value),
        }
    }
}
