//! The zone at the end of a text, for `utc_time` and `generalized_time` (X.680, 46 and 47).
ghost use Rattle.std.specs.Prelude.{◌≡◌, ◌↔◌, ℕ, ◌+◌, ◌*◌, ◌<◌, ◌≤◌, ℤ, pos, neg_ℤ, IsTrue, MatchOption, length, ◌≤ℤ◌};
ghost use Rattle.yasna_times.specs.GeneralizedTime.{IsZone};
ghost use Rattle.yasna_times.specs.UtcTime.{IsUtcZone};
ghost use Rattle.yasna_times.specs.Zone.{IsZulu, IsHours, IsHoursAndMinutes, IsAmount, IsOffset, seconds_of};

use crate::models::decimal::{are_digits, two};
use jiff::tz::Offset;

// The text ends by `Z` at `at`.
fn is_zulu(bytes: &[u8], at: usize) -> bool
    requires { at ≤ length bytes.now }
    ensures { IsTrue result ↔ IsZulu bytes.now at }
{
    bytes.len() - at == 1 && bytes[at] == b'Z'
}

// The seconds of the hours and minutes that the text ends by at `at`.
fn hours_and_minutes(bytes: &[u8], at: usize) -> Option<u32>
    requires { at ≤ length bytes.now }
    ensures { MatchOption result ((n : ℕ) → ¬ (IsHoursAndMinutes bytes.now at n)) (λ n. IsHoursAndMinutes bytes.now at n) }
{
    if bytes.len() - at != 4 {
        return None;
    }
    if !are_digits(bytes, at, at + 4) {
        return None;
    }
    let hours = two(bytes, at);
    let minutes = two(bytes, at + 2);
    if hours >= 24 || minutes >= 60 {
        return None;
    }
    Some(hours as u32 * 3600 + minutes as u32 * 60)
}

// The seconds of the hours that the text ends by at `at`.
fn hours(bytes: &[u8], at: usize) -> Option<u32>
    requires { at ≤ length bytes.now }
    ensures { MatchOption result ((n : ℕ) → ¬ (IsHours bytes.now at n)) (λ n. IsHours bytes.now at n) }
{
    if bytes.len() - at != 2 {
        return None;
    }
    if !are_digits(bytes, at, at + 2) {
        return None;
    }
    let hours = two(bytes, at);
    if hours >= 24 {
        return None;
    }
    Some(hours as u32 * 3600)
}

// The seconds of the hours, or the hours and minutes, that the text ends by at `at`.
fn amount(bytes: &[u8], at: usize) -> Option<u32>
    requires { at ≤ length bytes.now }
    ensures { MatchOption result ((n : ℕ) → ¬ (IsAmount bytes.now at n)) (λ n. IsAmount bytes.now at n × (n < 86400)) }
{
    if let Some(seconds) = hours(bytes, at) {
        return Some(seconds);
    }
    match hours_and_minutes(bytes, at) {
        Some(seconds) => Some(seconds),
        None => None,
    }
}

// The offset of a number of seconds.
fn offset_of(seconds: i32) -> Offset
    requires low { neg_ℤ (pos 86400) ≤ℤ seconds }
    requires high { seconds ≤ℤ pos 86400 }
    ensures { result.seconds ≡ seconds }
{
    Offset::from_seconds(seconds).unwrap()
}

// The offset from UTC with this sign, `+` or `-`, and these seconds; none by another sign.
fn signed(sign: u8, seconds: u32) -> Option<Offset>
    requires { seconds < 86400 }
    ensures { MatchOption result ((z : ℤ) → ¬ (IsOffset sign seconds z)) (λ o. IsOffset sign seconds o.seconds) }
{
    match sign {
        b'+' => Some(offset_of(seconds as i32)),
        b'-' => Some(offset_of(-(seconds as i32))),
        _ => None,
    }
}

// The offset of the zone of a `UTCTime` that is at `at`.
pub(crate) fn utc_zone(bytes: &[u8], at: usize) -> Option<Offset>
    requires { at ≤ length bytes.now }
    ensures { MatchOption result ((z : ℤ) → ¬ (IsUtcZone bytes.now at z)) (λ o. IsUtcZone bytes.now at o.seconds) }
{
    if at == bytes.len() {
        return None;
    }
    if is_zulu(bytes, at) {
        return Some(Offset::UTC);
    }
    let Some(seconds) = hours_and_minutes(bytes, at + 1) else {
        return None;
    };
    signed(bytes[at], seconds)
}

// The offset of the zone of a `GeneralizedTime` that is at `at`, or the given one where the text ends there.
pub(crate) fn zone(bytes: &[u8], at: usize, given: Option<Offset>) -> Option<Offset>
    requires { at ≤ length bytes.now }
    ensures { MatchOption result ((z : ℤ) → ¬ (IsZone bytes.now (seconds_of given) at z)) (λ o. IsZone bytes.now (seconds_of given) at o.seconds) }
{
    if at == bytes.len() {
        return given;
    }
    if is_zulu(bytes, at) {
        return Some(Offset::UTC);
    }
    let Some(seconds) = amount(bytes, at + 1) else {
        return None;
    };
    signed(bytes[at], seconds)
}
