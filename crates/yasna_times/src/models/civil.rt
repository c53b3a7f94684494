//! Local date-times in UTC, for `utc_time` and `generalized_time` (X.680, 46 and 47).
ghost use Rattle.std.specs.Prelude.{◌≡◌, ◌<◌, pos, MatchOption};
ghost use Rattle.jiff.specs.Types.{DateTime as Plain};
ghost use Rattle.jiff.specs.Words.{IsHms};
ghost use Rattle.yasna_times.specs.GeneralizedTime.{IsInYears, HasGeneralizedTime};
ghost use Rattle.yasna_times.specs.Moment.{IsLess};

use jiff::SignedDuration;
use jiff::civil::{DateTime, Time};
use jiff::tz::Offset;

// The local date-time less the offset, where the calendar has it.
pub(crate) fn in_utc(local: DateTime, offset: Offset) -> Option<DateTime>
    ensures { MatchOption result ((utc : Plain) → ¬ (IsLess local offset.seconds utc)) (λ utc. IsLess local offset.seconds utc) }
{
    let seconds = offset.seconds();
    if seconds == 0 {
        return Some(local);
    }
    match local.checked_sub(SignedDuration::from_secs(seconds as i64)) {
        Ok(utc) => Some(utc),
        Err(_) => None,
    }
}

// The local date-time less the offset, where the calendar has it and its year is 0 or later.
pub(crate) fn in_years(local: DateTime, offset: Offset) -> Option<DateTime>
    ensures { MatchOption result (¬ (HasGeneralizedTime local offset.seconds)) (λ utc. IsInYears utc × IsLess local offset.seconds utc) }
{
    let Some(utc) = in_utc(local, offset) else {
        return None;
    };
    if utc.year() < 0 {
        return None;
    }
    Some(utc)
}

// The date-time with another nanosecond.
pub(crate) fn at_nanosecond(dt: DateTime, nanosecond: u32) -> DateTime
    requires { nanosecond < 1000000000 }
    ensures date { result.date ≡ dt.date }
    ensures time { IsHms (pos dt.time.hour) (pos dt.time.minute) (pos dt.time.second) (pos nanosecond) result.time }
{
    let time = Time::new(dt.hour(), dt.minute(), dt.second(), nanosecond as i32).unwrap();
    DateTime::from_parts(dt.date(), time)
}
