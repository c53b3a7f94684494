//! The clock of a GeneralizedTime's text: date, hour, minute or not, second or not (X.680, 46).
ghost use Rattle.std.specs.Prelude.{◌≡◌, ◌↔◌, ◌+◌, ◌*◌, ◌<◌, ◌≤◌, pos, true, IsTrue, MatchOption, length};
ghost use Rattle.jiff.specs.Types.{DateTime as Plain};
ghost use Rattle.yasna_times.specs.Decimal.{HasDigits, two_at};
ghost use Rattle.yasna_times.specs.GeneralizedTime.{IsClockEnd, IsGeneralClock, IsGeneralReading, IsWholeMinutes, is_leap, minute_of, second_of, unit_of};

use crate::models::civil::in_years;
use crate::models::decimal::{signed_two, two};
use jiff::civil::DateTime;
use jiff::tz::Offset;

// The year.
fn year(bytes: &[u8]) -> i16
    requires inside { 4 ≤ length bytes.now }
    requires digits { HasDigits bytes.now 0 4 }
    ensures value { result ≡ pos (two_at bytes.now 0 * 100 + two_at bytes.now 2) }
    ensures bound { two_at bytes.now 0 * 100 + two_at bytes.now 2 < 10000 }
{
    two(bytes, 0) as i16 * 100 + two(bytes, 2) as i16
}

// Whether second 60 is shown.
pub(crate) fn shows_leap(bytes: &[u8], end: usize) -> bool
    requires inside { end ≤ length bytes.now }
    requires digits { HasDigits bytes.now 0 end }
    ensures { result ≡ is_leap bytes.now end }
{
    end == 14 && two(bytes, 12) == 60
}

// The seconds of the last unit.
pub(crate) fn unit(end: usize) -> u32
    ensures value { result ≡ unit_of end }
    ensures some { 0 < result }
    ensures bound { result ≤ 3600 }
{
    match end {
        10 => 3600,
        12 => 60,
        _ => 1,
    }
}

// The minute.
fn minute(bytes: &[u8], end: usize, seconds: u32) -> i8
    requires ends { IsClockEnd end }
    requires inside { end ≤ length bytes.now }
    requires digits { HasDigits bytes.now 0 end }
    requires bound { seconds < 3600 }
    ensures value { result ≡ pos (minute_of bytes.now end seconds) }
    ensures bound { minute_of bytes.now end seconds < 100 }
{
    if end == 10 {
        (seconds / 60) as i8
    } else {
        signed_two(bytes, 10)
    }
}

// The second, for 60 the one before.
fn second(bytes: &[u8], end: usize, seconds: u32) -> i8
    requires inside { end ≤ length bytes.now }
    requires digits { HasDigits bytes.now 0 end }
    ensures value { result ≡ pos (second_of bytes.now end seconds) }
    ensures bound { second_of bytes.now end seconds < 100 }
{
    if end != 14 {
        return (seconds % 60) as i8;
    }
    if two(bytes, 12) == 60 {
        return 59;
    }
    signed_two(bytes, 12)
}

// The local date-time of a clock that ends at `end`, with the whole seconds of its fraction.
fn local(bytes: &[u8], end: usize, seconds: u32) -> Option<DateTime>
    requires ends { IsClockEnd end }
    requires inside { end ≤ length bytes.now }
    requires digits { HasDigits bytes.now 0 end }
    requires bound { seconds < 3600 }
    ensures { MatchOption result ((local : Plain) → ¬ (IsGeneralClock bytes.now end seconds local)) (λ local. IsGeneralClock bytes.now end seconds local) }
{
    let year = year(bytes);
    let month = signed_two(bytes, 4);
    let day = signed_two(bytes, 6);
    let hour = signed_two(bytes, 8);
    let minute = minute(bytes, end, seconds);
    let second = second(bytes, end, seconds);
    match DateTime::new(year, month, day, hour, minute, second, 0) {
        Ok(local) => Some(local),
        Err(_) => None,
    }
}

// The offset is a whole number of minutes.
fn is_whole(offset: Offset) -> bool
    ensures { IsTrue result ↔ IsWholeMinutes offset.seconds }
{
    offset.seconds() % 60 == 0
}

// Second 60 is accepted only with an offset of whole minutes.
fn is_timely(bytes: &[u8], end: usize, offset: Offset) -> bool
    requires inside { end ≤ length bytes.now }
    requires digits { HasDigits bytes.now 0 end }
    ensures { IsTrue result ↔ (is_leap bytes.now end ≡ true → IsWholeMinutes offset.seconds) }
{
    if shows_leap(bytes, end) {
        is_whole(offset)
    } else {
        true
    }
}

// That clock in UTC.
pub(crate) fn reading(bytes: &[u8], end: usize, seconds: u32, offset: Offset) -> Option<DateTime>
    requires ends { IsClockEnd end }
    requires inside { end ≤ length bytes.now }
    requires digits { HasDigits bytes.now 0 end }
    requires bound { seconds < 3600 }
    ensures { MatchOption result ((utc : Plain) → ¬ (IsGeneralReading bytes.now end seconds offset.seconds utc)) (λ utc. IsGeneralReading bytes.now end seconds offset.seconds utc) }
{
    if !is_timely(bytes, end, offset) {
        return None;
    }
    let Some(local) = local(bytes, end, seconds) else {
        return None;
    };
    match in_years(local, offset) {
        Some(utc) => Some(utc),
        None => None,
    }
}
