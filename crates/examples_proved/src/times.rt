//! Times made from the parts of other times.
ghost use Rattle.std.specs.Prelude.{◌≡◌, ◌+◌, ◌%◌, ◌<◌, IfOk};
ghost use Rattle.yasna.specs.Words.{utc_of, moment_of};
ghost use Rattle.examples_proved.specs.Times.{to_the_second, with_second_59, with_tenths};

use std::alloc::{AllocError, Global};
use yasna::models::{GeneralizedTime, Offset, UTCTime};

/// A UTCTime made of another's date-time: it is equal to that.
pub fn remade_utc_time(time: &UTCTime) -> UTCTime
    ensures { utc_of result ≡ utc_of time.now }
{
    UTCTime::from_datetime(*time.datetime(), Offset::UTC)
}

/// A UTCTime's moment as a GeneralizedTime.
pub fn as_generalized_time(alloc: Global, time: &UTCTime) -> GeneralizedTime
    ensures { moment_of result ≡ to_the_second (utc_of time.now) }
{
    GeneralizedTime::from_datetime(alloc, *time.datetime(), Offset::UTC)
}

/// A GeneralizedTime's moment and fraction, at second 59 if it is at second 60.
///
/// For clocks that know no second 60.
pub fn without_leap_second(
    alloc: Global,
    time: &GeneralizedTime,
) -> Result<GeneralizedTime, AllocError>
    ensures { IfOk result (λ t. moment_of t ≡ with_second_59 (moment_of time.now)) }
{
    let local = *time.datetime();
    GeneralizedTime::from_datetime_and_sub_nano(alloc, local, Offset::UTC, time.sub_nano())
}

/// The moment of a date-time, and a number of tenths of a picosecond after its nanosecond.
///
/// For clocks that count finer than a nanosecond.
pub fn with_tenths_of_a_picosecond(
    alloc: Global,
    time: &GeneralizedTime,
    tenths: u16,
) -> Result<GeneralizedTime, AllocError>
    requires { tenths < 10000 }
    ensures { IfOk result (λ t. moment_of t ≡ with_tenths time.now.datetime tenths) }
{
    let local = *time.datetime();
    let digits = [
        last_digit(tenths / 1000),
        last_digit(tenths / 100),
        last_digit(tenths / 10),
        last_digit(tenths),
    ];
    GeneralizedTime::from_datetime_and_sub_nano(alloc, local, Offset::UTC, digits.as_slice())
}

// The last digit of a number.
fn last_digit(number: u16) -> u8
    ensures { result ≡ 48 + number % 10 }
{
    b'0' + (number % 10) as u8
}
