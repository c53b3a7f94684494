//! GeneralizedTime (X.680, 46; X.690, 11.7). Users make and read it; readers and writers of times call it.
ghost use Rattle.std.specs.Prelude.{◌≡◌, ◌↔◌, ◌<◌, ◌≤◌, ◌/◌, ◌%◌, ◌++◌, [], ℕ, ℤ, Option, None, Some, IfOk, IfErr, IsTrue, List, OnOk, MatchOption, length, string_bytes, unsigned_abs};
ghost use Rattle.yasna_times.specs.Decimal.{AreDigits};
ghost use Rattle.yasna_times.specs.Fraction.{IsTrimmed, nine_digits, trimmed};
ghost use Rattle.yasna_times.specs.GeneralizedTime.{HasLongFraction, IsFlagged, IsGeneralText, IsInYears, HasGeneralizedTime, clock_digits, general_text, part_digits, point_digits};
ghost use Rattle.yasna_times.specs.Moment.{Moment};
ghost use Rattle.yasna_times.specs.Zone.{seconds_of};

mod clock;
mod layout;

use crate::models::civil::{at_nanosecond, in_years};
use crate::models::decimal::{are_digits, ones, tens, unsigned};
use crate::models::fraction::{copied, nine, split, trim};
use clock::{reading, shows_leap, unit};
use jiff::civil::DateTime;
use jiff::tz::Offset;
use layout::Layout;
use std::alloc::{AllocError, Global};

/// A time in UTC of the years 0 to 9999, with a fraction of a second of any length.
///
/// Second 60 is a second of its own, which `datetime` shows as 59. Times are ordered by date-time, then by the digits
/// after the nanosecond, then by whether the second is 60: so 60.1 is before 59.5.
#[derive(PartialEq, Eq, PartialOrd, Ord, Hash, Drop)]
pub struct GeneralizedTime {
    datetime: DateTime,
    sub_nano: Vec<u8>,
    is_leap_second: bool,
    ghost in_years: { IsInYears datetime },
    ghost digits: { AreDigits sub_nano.items },
    ghost trimmed: { IsTrimmed sub_nano.items },
    ghost flagged: { IsFlagged is_leap_second datetime },
}

// The digits of the fraction.
fn part(bytes: &[u8], end: usize, zone_at: usize) -> &[u8]
    requires order { end ≤ zone_at }
    requires inside { zone_at ≤ length bytes.now }
    ensures { result.now ≡ part_digits bytes.now end zone_at }
{
    if end == zone_at {
        return &[];
    }
    &bytes[end + 1..zone_at]
}

// The first nine digits of a second's fraction, without zeros at their end where no digits follow.
fn shown<'a>(nine: &'a [u8], sub_nano: &[u8]) -> &'a [u8]
    requires some { 0 < length nine.now }
    requires trimmed { IsTrimmed sub_nano.now }
    ensures all { result.now ++ sub_nano.now ≡ trimmed (nine.now ++ sub_nano.now) }
    ensures none { length result.now ≡ 0 → length sub_nano.now ≡ 0 }
{
    if sub_nano.is_empty() {
        trim(nine)
    } else {
        nine
    }
}

// Appends the digits after a point, if there are any.
fn push_fraction(text: &mut Vec<u8>, first: &[u8], sub_nano: &[u8]) -> Result<(), AllocError>
    requires { length first.now ≡ 0 → length sub_nano.now ≡ 0 }
    ensures { OnOk result (text.new.items ≡ text.old.items ++ point_digits (first.now ++ sub_nano.now)) }
{
    if first.is_empty() {
        return Ok(());
    }
    text.push(b'.')?;
    text.extend_from_slice(first)?;
    text.extend_from_slice(sub_nano)
}

fn is_same(bytes: &[u8], others: &[u8]) -> bool
    ensures { IsTrue result ↔ bytes.now ≡ others.now }
{
    bytes == others
}

// The text after a prefix.
fn after_prefix<'a>(bytes: &'a [u8], prefix: &[u8]) -> Option<&'a [u8]>
    ensures { MatchOption result ((r : List ℕ) → ¬ (bytes.now ≡ prefix.now ++ r)) (λ r. bytes.now ≡ prefix.now ++ r.now) }
{
    if bytes.len() < prefix.len() {
        return None;
    }
    let (start, rest) = bytes.split_at(prefix.len());
    if !is_same(start, prefix) {
        return None;
    }
    Some(rest)
}

// The text after a fraction of these digits.
fn after_fraction<'a>(bytes: &'a [u8], first: &[u8], sub_nano: &[u8]) -> Option<&'a [u8]>
    requires { length first.now ≡ 0 → length sub_nano.now ≡ 0 }
    ensures { MatchOption result ((r : List ℕ) → ¬ (bytes.now ≡ point_digits (first.now ++ sub_nano.now) ++ r)) (λ r. bytes.now ≡ point_digits (first.now ++ sub_nano.now) ++ r.now) }
{
    if first.is_empty() {
        return Some(bytes);
    }
    let Some(digits) = after_prefix(bytes, b".".as_slice()) else {
        return None;
    };
    let Some(rest) = after_prefix(digits, first) else {
        return None;
    };
    match after_prefix(rest, sub_nano) {
        Some(rest) => Some(rest),
        None => None,
    }
}

impl GeneralizedTime {
    ghost use Rattle.yasna_times.specs.Models.{moment_of, IsTimeAt, SameTime};

    /// The time that a text of X.680's GeneralizedTime says: `YYYYMMDDhh`, the minute or not, the second or not, the
    /// fraction of the last of these after `.` or `,` or not, and `Z`, `+hh`, `-hh`, `+hhmm` or `-hhmm`.
    ///
    /// The fraction may have any number of digits, and is kept as it is. A text without a zone is rejected. It allocates only if the
    /// fraction has more than nine digits.
    pub fn parse(alloc: Global, bytes: &[u8]) -> Result<Option<GeneralizedTime>, AllocError>
        ensures exact { IfOk result (λ o. MatchOption o ((m : Moment) → ¬ (IsGeneralText bytes.now None m)) (λ t. IsGeneralText bytes.now None (moment_of t))) }
        ensures memory { IfErr result (λ _. HasLongFraction bytes.now None) }
    {
        GeneralizedTime::general(alloc, bytes, None)
    }

    /// As `parse`, where a text without a zone is at the offset.
    ///
    /// Second 60 is accepted only with an offset of whole minutes.
    pub fn parse_with_offset(
        alloc: Global,
        bytes: &[u8],
        offset: Offset,
    ) -> Result<Option<GeneralizedTime>, AllocError>
        ensures exact { IfOk result (λ o. MatchOption o ((m : Moment) → ¬ (IsGeneralText bytes.now (Some offset.seconds) m)) (λ t. IsGeneralText bytes.now (Some offset.seconds) (moment_of t))) }
        ensures memory { IfErr result (λ _. HasLongFraction bytes.now (Some offset.seconds)) }
    {
        GeneralizedTime::general(alloc, bytes, Some(offset))
    }

    // Parses a text; one without a zone is at the given offset.
    fn general(
        alloc: Global,
        bytes: &[u8],
        given: Option<Offset>,
    ) -> Result<Option<GeneralizedTime>, AllocError>
        ensures exact { IfOk result (λ o. MatchOption o ((m : Moment) → ¬ (IsGeneralText bytes.now (seconds_of given) m)) (λ t. IsGeneralText bytes.now (seconds_of given) (moment_of t))) }
        ensures memory { IfErr result (λ _. HasLongFraction bytes.now (seconds_of given)) }
    {
        let Some(layout) = Layout::of(bytes, given) else {
            return Ok(None);
        };
        let digits = part(bytes, layout.clock_end, layout.zone_at);
        let fraction = split(alloc, digits, unit(layout.clock_end))?;
        let Some(utc) = reading(bytes, layout.clock_end, fraction.seconds, layout.offset) else {
            return Ok(None);
        };
        Ok(Some(GeneralizedTime {
            datetime: at_nanosecond(utc, fraction.nanosecond),
            sub_nano: fraction.sub_nano,
            is_leap_second: shows_leap(bytes, layout.clock_end),
        }))
    }

    /// The local date-time less the offset.
    pub fn from_datetime(alloc: Global, local: DateTime, offset: Offset) -> GeneralizedTime
        requires { HasGeneralizedTime local offset.seconds }
        ensures { IsTimeAt local offset.seconds [] result }
    {
        GeneralizedTime::from_datetime_opt(alloc, local, offset).unwrap()
    }

    /// The local date-time less the offset, where its year is 0 to 9999.
    pub fn from_datetime_opt(
        alloc: Global,
        local: DateTime,
        offset: Offset,
    ) -> Option<GeneralizedTime>
        ensures { MatchOption result (¬ (HasGeneralizedTime local offset.seconds)) (IsTimeAt local offset.seconds []) }
    {
        let Some(datetime) = in_years(local, offset) else {
            return None;
        };
        Some(GeneralizedTime {
            datetime,
            sub_nano: Vec::new(alloc),
            is_leap_second: false,
        })
    }

    /// The local date-time less the offset, with these digits after its nanosecond, less the zeros at their end. It allocates only
    /// if digits are left.
    pub fn from_datetime_and_sub_nano(
        alloc: Global,
        local: DateTime,
        offset: Offset,
        sub_nano: &[u8],
    ) -> Result<GeneralizedTime, AllocError>
        requires years { HasGeneralizedTime local offset.seconds }
        requires digits { AreDigits sub_nano.now }
        ensures time { IfOk result (IsTimeAt local offset.seconds (trimmed sub_nano.now)) }
        ensures memory { IfErr result (λ _. 0 < length (trimmed sub_nano.now)) }
    {
        Ok(GeneralizedTime::from_datetime_and_sub_nano_opt(
            alloc, local, offset, sub_nano,
        )?.unwrap())
    }

    /// As `from_datetime_and_sub_nano`, or None unless the year in UTC is 0 to 9999 and each byte is an ASCII digit.
    pub fn from_datetime_and_sub_nano_opt(
        alloc: Global,
        local: DateTime,
        offset: Offset,
        sub_nano: &[u8],
    ) -> Result<Option<GeneralizedTime>, AllocError>
        ensures time { IfOk result (λ o. MatchOption o (HasGeneralizedTime local offset.seconds → AreDigits sub_nano.now → ⊥) (IsTimeAt local offset.seconds (trimmed sub_nano.now))) }
        ensures memory { IfErr result (λ _. 0 < length (trimmed sub_nano.now)) }
    {
        if !are_digits(sub_nano, 0, sub_nano.len()) {
            return Ok(None);
        }
        let Some(datetime) = in_years(local, offset) else {
            return Ok(None);
        };
        Ok(Some(GeneralizedTime {
            datetime,
            sub_nano: copied(alloc, trim(sub_nano))?,
            is_leap_second: false,
        }))
    }

    /// The date-time in UTC; second 60 shows as 59.
    pub fn datetime(&self) -> &DateTime
        ensures { result.now ≡ self.now.datetime }
    {
        &self.datetime
    }

    /// The digits of the second's fraction after the nanosecond, in ASCII, without zeros at their end.
    pub fn sub_nano(&self) -> &[u8]
        ensures { result.now ≡ self.now.sub_nano.items }
    {
        self.sub_nano.as_slice()
    }

    /// A copy of the time. Without digits after the nanosecond it doesn't allocate.
    pub fn clone(&self) -> Result<GeneralizedTime, AllocError>
        ensures same { IfOk result (SameTime self.now) }
        ensures memory { IfErr result (λ _. 0 < length self.now.sub_nano.items) }
    {
        Ok(GeneralizedTime {
            datetime: self.datetime,
            sub_nano: copied(*self.sub_nano.allocator(), self.sub_nano.as_slice())?,
            is_leap_second: self.is_leap_second,
        })
    }

    // The second that a clock shows.
    fn second(&self) -> u8
        ensures value { result ≡ (moment_of self.now).second }
        ensures bound { result < 100 }
    {
        if self.is_leap_second {
            60
        } else {
            unsigned(self.datetime.second())
        }
    }

    // The first two digits of the year, as a number.
    fn century(&self) -> u8
        ensures value { result ≡ unsigned_abs (moment_of self.now).date.year / 100 }
        ensures bound { result < 100 }
    {
        (self.datetime.year() / 100) as u8
    }

    // The last two digits of the year, as a number.
    fn year_of_century(&self) -> u8
        ensures value { result ≡ unsigned_abs (moment_of self.now).date.year % 100 }
        ensures bound { result < 100 }
    {
        (self.datetime.year() % 100) as u8
    }

    // The fourteen digits of the clock.
    fn clock(&self) -> [u8; 14]
        ensures { result ≡ clock_digits (moment_of self.now) }
    {
        let dt = self.datetime;
        let high = self.century();
        let low = self.year_of_century();
        let month = unsigned(dt.month());
        let day = unsigned(dt.day());
        let hour = unsigned(dt.hour());
        let minute = unsigned(dt.minute());
        let second = self.second();
        [
            tens(high),
            ones(high),
            tens(low),
            ones(low),
            tens(month),
            ones(month),
            tens(day),
            ones(day),
            tens(hour),
            ones(hour),
            tens(minute),
            ones(minute),
            tens(second),
            ones(second),
        ]
    }

    // The nanosecond's digits.
    fn nine(&self) -> [u8; 9]
        ensures { result ≡ nine_digits self.now.datetime.time.subsec_nanosecond }
    {
        nine(self.datetime.subsec_nanosecond() as u32)
    }

    /// The canonical text as bytes: `YYYYMMDDhhmmss`, the fraction of the second after `.` if there is one, `Z`.
    pub fn to_bytes(&self, alloc: Global) -> Result<Vec<u8>, AllocError>
        ensures text { IfOk result (λ v. v.items ≡ general_text (moment_of self.now)) }
        ensures spells { IfOk result (λ v. (given : Option ℤ) → IsGeneralText v.items given (moment_of self.now)) }
    {
        let nine = self.nine();
        let first = shown(nine.as_slice(), self.sub_nano.as_slice());
        let mut text = Vec::with_capacity(alloc, 25 + self.sub_nano.len())?;
        text.extend_from_slice(self.clock().as_slice())?;
        push_fraction(&mut text, first, self.sub_nano.as_slice())?;
        text.push(b'Z')?;
        Ok(text)
    }

    /// The canonical text.
    pub fn to_string(&self, alloc: Global) -> Result<String, AllocError>
        ensures { IfOk result (λ t. string_bytes t ≡ general_text (moment_of self.now)) }
    {
        Ok(String::from_utf8(self.to_bytes(alloc)?).unwrap())
    }

    /// Whether the bytes are the canonical text.
    #[doc(hidden)]
    pub fn is_canonical(&self, bytes: &[u8]) -> bool
        ensures { IsTrue result ↔ bytes.now ≡ general_text (moment_of self.now) }
    {
        let nine = self.nine();
        let first = shown(nine.as_slice(), self.sub_nano.as_slice());
        let Some(fraction) = after_prefix(bytes, self.clock().as_slice()) else {
            return false;
        };
        let Some(zone) = after_fraction(fraction, first, self.sub_nano.as_slice()) else {
            return false;
        };
        is_same(zone, b"Z".as_slice())
    }
}
