//! Times (RFC 5280, 4.1.2.5).
ghost use Rattle.std.specs.Prelude.{◌≡◌, ◌↔◌, IsTrue, refl};
ghost use Rattle.yasna_notation.specs.declared.choices.Either.TheVariants.{First, Second};
ghost use Rattle.x509.specs.declared.time.Time.TheVariants.{Utc, General};

use yasna::models::{GeneralizedTime, UTCTime};
use yasna::{ASN1Result, BERMode, DERWriter, PrependBuffer, Tag};
use yasna_notation::{Choice, DefinedType, Either, Notation, Sequence};
use yasna_notation_constraints::{Checked, CheckedType};

/// A time.
#[derive(Drop)]
pub enum Time {
    Utc(UTCTime),
    General(GeneralizedTime),
}

impl DefinedType for Time {
    type Notation = Choice<(UTCTime, (GeneralizedTime,))>;

    ghost value_of = { λ v. elim v [ Utc t ↦ First t | General t ↦ Second t ] };

    fn from_value(value: Either<UTCTime, GeneralizedTime>) -> Time {
        match value {
            Either::First(time) => Time::Utc(time),
            Either::Second(time) => Time::General(time),
        }
    }

    fn write_value(&self, writer: DERWriter<'_>) -> ASN1Result<()> {
        match self {
            Time::Utc(time) => <UTCTime as Notation>::write(time, writer),
            Time::General(time) => <GeneralizedTime as Notation>::write(time, writer),
        }
    }

    fn prepend_value(&self, under: Option<Tag>, out: &mut PrependBuffer) -> ASN1Result<()> {
        match self {
            Time::Utc(time) => <UTCTime as Notation>::prepend(time, under, out),
            Time::General(time) => <GeneralizedTime as Notation>::prepend(time, under, out),
        }
    }

    fn value_len(&self, under: Option<Tag>, mode: BERMode) -> Option<usize> {
        match self {
            Time::Utc(time) => <UTCTime as Notation>::encoded_len(time, under, mode),
            Time::General(time) => <GeneralizedTime as Notation>::encoded_len(time, under, mode),
        }
    }

    ghost unambiguous = { refl };
}

impl CheckedType for Time {
    fn accepts_value(&self) -> bool {
        match self {
            Time::Utc(time) => UTCTime::accepts(time),
            Time::General(time) => GeneralizedTime::accepts(time),
        }
    }
}
