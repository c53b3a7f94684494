//! A time as a part of another type.
//!
//! It is `Time`'s own notation by one name, so a type that holds times names it, and not what a time is made of.
ghost use Rattle.std.specs.Prelude.{◌≡◌, ◌↔◌, IsTrue, refl};
ghost use Rattle.yasna_notation.specs.Laws.{represented_lawful};
ghost use Rattle.yasna_notation.specs.Making.{in_choice, alternative, alternative_non_empty};
ghost use Rattle.yasna_notation.specs.contracts.times.UTCTimeNotation.TheImpl.Laws.{lawful-law as utc, non_empty-law as utc_non_empty};
ghost use Rattle.yasna_notation.specs.contracts.times.GeneralizedTimeNotation.TheImpl.Laws.{lawful-law as general, non_empty-law as general_non_empty};

use crate::time::Time;
use yasna::models::{GeneralizedTime, UTCTime};
use yasna::{ASN1Result, BERMode, BERReader, DERWriter, PrependBuffer, Tag};
use yasna_notation::{Choice, DefinedType, Notation};
use yasna_notation_constraints::Checked;

/// The notation of a part whose value is a `Time`.
pub struct TimePart;

impl Notation for TimePart {
    type Value = Time;

    type Inner = ();

    ghost means = { ⟦<Time as Notation>⟧.means };

    #[inline(always)]
    fn has_tag(tag: Tag) -> bool {
        <Time as Notation>::has_tag(tag)
    }

    #[inline(always)]
    fn read(reader: BERReader) -> ASN1Result<Time> {
        <Time as Notation>::read(reader)
    }

    #[inline(always)]
    fn write(value: &Time, writer: DERWriter<'_>) -> ASN1Result<()> {
        <Time as Notation>::write(value, writer)
    }

    #[inline(always)]
    fn prepend(value: &Time, under: Option<Tag>, out: &mut PrependBuffer) -> ASN1Result<()> {
        <Time as Notation>::prepend(value, under, out)
    }

    #[inline(always)]
    fn encoded_len(value: &Time, under: Option<Tag>, mode: BERMode) -> Option<usize> {
        <Time as Notation>::encoded_len(value, under, mode)
    }

    ghost lawful = { λ _. represented_lawful ⟦<Time as DefinedType>⟧.value_of
        (in_choice ⟦<Choice<(UTCTime, (GeneralizedTime,))> as Notation>⟧.means.encoding_under (alternative (utc refl).own refl (general refl).own)) };

    ghost non_empty = { λ u m v. alternative_non_empty (utc_non_empty u) (general_non_empty u) m (⟦<Time as DefinedType>⟧.value_of v) };
}

impl Checked for TimePart {
    #[inline(always)]
    fn accepts(value: &Time) -> bool {
        <Time as Checked>::accepts(value)
    }
}
