//! Where the parts of a GeneralizedTime's text are: clock, fraction and zone (X.680, 46).
ghost use Rattle.std.specs.Prelude.{◌≡◌, ◌↔◌, ℕ, ◌+◌, ◌<◌, ◌≤◌, ℤ, IsTrue, IfSome, MatchOption, length, slice_index};
ghost use Rattle.yasna_times.specs.Decimal.{IsRun};
ghost use Rattle.yasna_times.specs.GeneralizedTime.{IsDecimalMark, IsLayout};
ghost use Rattle.yasna_times.specs.Zone.{seconds_of};

use crate::models::decimal::digits_end;
use crate::models::zone::zone;
use jiff::tz::Offset;

// Where the clock ends, where the fraction ends and the zone begins, and the offset that this says.
#[derive(Clone, Copy)]
pub(crate) struct Layout {
    pub(crate) clock_end: usize,
    pub(crate) zone_at: usize,
    pub(crate) offset: Offset,
}

// A point or a comma is at `at`.
fn has_decimal_mark(bytes: &[u8], at: usize) -> bool
    ensures { IsTrue result ↔ (at < length bytes.now) × IsDecimalMark (slice_index bytes.now at) }
{
    at < bytes.len() && (bytes[at] == b'.' || bytes[at] == b',')
}

// Where the fraction at `at` ends, which is `at` where there is none.
fn part_end(bytes: &[u8], at: usize) -> usize
    requires { at ≤ length bytes.now }
    ensures some { (result ≡ at → ⊥) → IsDecimalMark (slice_index bytes.now at) × IsRun bytes.now (at + 1) result }
    ensures none { result ≡ at → at < length bytes.now → IsDecimalMark (slice_index bytes.now at) → ⊥ }
    ensures order { at ≤ result }
    ensures inside { result ≤ length bytes.now }
{
    if has_decimal_mark(bytes, at) {
        digits_end(bytes, at + 1)
    } else {
        at
    }
}

impl Layout {
    // The layout of a text, which has the given offset where it has no zone.
    pub(crate) fn of(bytes: &[u8], given: Option<Offset>) -> Option<Layout>
        ensures exact { MatchOption result ((end zone : ℕ) (z : ℤ) → ¬ (IsLayout bytes.now (seconds_of given) end zone z)) (λ l. IsLayout bytes.now (seconds_of given) l.clock_end l.zone_at l.offset.seconds) }
        ensures inside { IfSome result (λ l. (l.clock_end ≤ l.zone_at) × (l.zone_at ≤ length bytes.now)) }
    {
        let clock_end = digits_end(bytes, 0);
        if clock_end != 10 && clock_end != 12 && clock_end != 14 {
            return None;
        }
        let zone_at = part_end(bytes, clock_end);
        if zone_at == clock_end + 1 {
            return None;
        }
        let Some(offset) = zone(bytes, zone_at, given) else {
            return None;
        };
        Some(Layout {
            clock_end,
            zone_at,
            offset,
        })
    }
}
