//! UTCTime (X.680, 47; X.690, 11.8). Users make and read it; readers and writers of times call it.
ghost use Rattle.std.specs.Prelude.{◌≡◌, ◌↔◌, ◌⊎◌, ◌/◌, ◌%◌, ◌<◌, ◌≤◌, pos, IsTrue, IfOk, MatchOption, length, string_bytes, unsigned_abs};
ghost use Rattle.jiff.specs.Types.{DateTime as Plain};
ghost use Rattle.yasna_times.specs.Decimal.{HasDigits, two_at};
ghost use Rattle.yasna_times.specs.Moment.{IsLess};
ghost use Rattle.yasna_times.specs.UtcTime.{IsUtcDateTime, HasUtcTime, IsUtcClock, IsUtcText, utc_year, utc_second, utc_text};

use crate::models::civil::in_utc;
use crate::models::decimal::{digits_end, ones, signed_two, tens, two, unsigned};
use crate::models::zone::utc_zone;
use jiff::civil::DateTime;
use jiff::tz::Offset;
use std::alloc::{AllocError, Global};

/// A time in UTC to the second, of the years 1950 to 2049.
///
/// Times are ordered by date-time.
#[derive(Clone, Copy, PartialEq, Eq, PartialOrd, Ord, Hash)]
pub struct UTCTime {
    datetime: DateTime,
    ghost in_range: { IsUtcDateTime datetime },
}

// The date-time is one of a `UTCTime`.
fn is_utc_datetime(dt: DateTime) -> bool
    ensures { IsTrue result ↔ IsUtcDateTime dt }
{
    dt.year() >= 1950 && dt.year() < 2050 && dt.subsec_nanosecond() == 0
}

// The year of the first two digits (X.501, 6.2).
fn year(bytes: &[u8]) -> i16
    requires inside { 2 ≤ length bytes.now }
    requires digits { HasDigits bytes.now 0 2 }
    ensures value { result ≡ pos (utc_year (two_at bytes.now 0)) }
    ensures bound { two_at bytes.now 0 < 100 }
{
    let year = two(bytes, 0) as i16;
    if year < 50 { 2000 + year } else { 1900 + year }
}

// The second of a clock that ends at `end`.
fn second(bytes: &[u8], end: usize) -> i8
    requires ends { (end ≡ 10) ⊎ (end ≡ 12) }
    requires inside { end ≤ length bytes.now }
    requires digits { HasDigits bytes.now 0 end }
    ensures value { result ≡ pos (utc_second bytes.now end) }
    ensures bound { utc_second bytes.now end < 100 }
{
    if end == 12 { signed_two(bytes, 10) } else { 0 }
}

// The local date-time of a clock that ends at `end`.
fn clock(bytes: &[u8], end: usize) -> Option<DateTime>
    requires ends { (end ≡ 10) ⊎ (end ≡ 12) }
    requires inside { end ≤ length bytes.now }
    requires digits { HasDigits bytes.now 0 end }
    ensures { MatchOption result ((local : Plain) → ¬ (IsUtcClock bytes.now end local)) (λ local. IsUtcClock bytes.now end local) }
{
    let year = year(bytes);
    let month = signed_two(bytes, 2);
    let day = signed_two(bytes, 4);
    let hour = signed_two(bytes, 6);
    let minute = signed_two(bytes, 8);
    let second = second(bytes, end);
    match DateTime::new(year, month, day, hour, minute, second, 0) {
        Ok(local) => Some(local),
        Err(_) => None,
    }
}

impl UTCTime {
    ghost use Rattle.yasna_times.specs.Models.{utc_of};

    /// The time that a text of X.680's UTCTime says: `YYMMDDhhmm`, the second or not, and `Z`, `+hhmm` or `-hhmm`.
    ///
    /// Years from 50 on are in the twentieth century, the others in the next. There is no second 60. A text whose year in UTC isn't
    /// one of 1950 to 2049 is rejected.
    pub fn parse(bytes: &[u8]) -> Option<UTCTime>
        ensures { MatchOption result ((utc : Plain) → ¬ (IsUtcText bytes.now utc)) (λ t. IsUtcText bytes.now (utc_of t)) }
    {
        let end = digits_end(bytes, 0);
        if end != 10 && end != 12 {
            return None;
        }
        let Some(offset) = utc_zone(bytes, end) else {
            return None;
        };
        let Some(local) = clock(bytes, end) else {
            return None;
        };
        match UTCTime::from_datetime_opt(local, offset) {
            Some(time) => Some(time),
            None => None,
        }
    }

    /// The local date-time less the offset.
    pub fn from_datetime(local: DateTime, offset: Offset) -> UTCTime
        requires { HasUtcTime local offset.seconds }
        ensures { IsLess local offset.seconds (utc_of result) }
    {
        UTCTime::from_datetime_opt(local, offset).unwrap()
    }

    /// The local date-time less the offset, where its year is 1950 to 2049 and it has no fraction of a second.
    pub fn from_datetime_opt(local: DateTime, offset: Offset) -> Option<UTCTime>
        ensures { MatchOption result (¬ (HasUtcTime local offset.seconds)) (λ t. IsLess local offset.seconds (utc_of t)) }
    {
        let Some(datetime) = in_utc(local, offset) else {
            return None;
        };
        if !is_utc_datetime(datetime) {
            return None;
        }
        Some(UTCTime { datetime })
    }

    /// The date-time in UTC.
    pub fn datetime(&self) -> &DateTime
        ensures value { result.now ≡ utc_of self.now }
        ensures bound { IsUtcDateTime result.now }
    {
        &self.datetime
    }

    /// The canonical text: `YYMMDDhhmmssZ`.
    #[doc(hidden)]
    pub fn text(&self) -> [u8; 13]
        ensures { result ≡ utc_text (utc_of self.now) }
    {
        let dt = self.datetime;
        let year = (dt.year() % 100) as u8;
        let month = unsigned(dt.month());
        let day = unsigned(dt.day());
        let hour = unsigned(dt.hour());
        let minute = unsigned(dt.minute());
        let second = unsigned(dt.second());
        [
            tens(year),
            ones(year),
            tens(month),
            ones(month),
            tens(day),
            ones(day),
            tens(hour),
            ones(hour),
            tens(minute),
            ones(minute),
            tens(second),
            ones(second),
            b'Z',
        ]
    }

    /// The canonical text as bytes.
    pub fn to_bytes(&self, alloc: Global) -> Result<Vec<u8>, AllocError>
        ensures text { IfOk result (λ v. v.items ≡ utc_text (utc_of self.now)) }
        ensures spells { IfOk result (λ v. IsUtcText v.items (utc_of self.now)) }
    {
        Vec::from_slice(alloc, &self.text())
    }

    /// The canonical text.
    pub fn to_string(&self, alloc: Global) -> Result<String, AllocError>
        ensures { IfOk result (λ t. string_bytes t ≡ utc_text (utc_of self.now)) }
    {
        String::from_str(alloc, std::str::from_utf8(&self.text()).unwrap())
    }

    /// Whether a text of this time is the canonical one. Only that has thirteen bytes, so their number decides.
    #[doc(hidden)]
    #[inline(always)]
    pub fn is_canonical(&self, text: &[u8]) -> bool
        ensures length { IsTrue result ↔ length text.now ≡ 13 }
        ensures canonical { IsUtcText text.now (utc_of self.now) → (IsTrue result ↔ text.now ≡ utc_text (utc_of self.now)) }
    {
        text.len() == 13
    }
}
