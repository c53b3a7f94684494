//! What is proved of times and their texts, of which no program is part.
//!
//! These functions do nothing. Their contracts state the laws that every reader and every writer of times relies on: a text
//! says one moment, a moment has one canonical text, and both types satisfy the laws of reading and of writing.
ghost use Rattle.std.specs.Prelude.{◌≡◌, ◌++◌, IsTrue, ◌↔◌};
ghost use Rattle.std.specs.Cmp.Lexicographic.{slice_cmp};
ghost use Rattle.std.specs.Hash as fed;
ghost use Rattle.std.specs.Ordering.{nat_cmp, int_cmp, bool_cmp, ordering_then};
ghost use Rattle.jiff.specs.Words.{civil_nanos};
ghost use Rattle.yasna_times.specs.UtcTime.{UtcTextsAreExact, UtcTimeKeepsLaws};
ghost use Rattle.yasna_times.specs.GeneralizedTime.{GeneralTextsAreExact, GeneralizedTimeKeepsLaws};
ghost use Rattle.yasna_times.specs.declared.models.utc_time.UTCTime.{UTCTime};
ghost use Rattle.yasna_times.specs.declared.models.generalized_time.GeneralizedTime.{GeneralizedTime};
ghost use Rattle.yasna_times.specs.Models.{TimesAreMoments, utc_of, moment_of};

use crate::models::{DateTime, GeneralizedTime, UTCTime};
use std::hash::Hash;

/// A text of a time says one moment, of the ranges of its type, and the canonical text of a moment says it.
pub fn texts_of_times()
    ensures utc { UtcTextsAreExact }
    ensures general { GeneralTextsAreExact }
{}

/// Times of one moment are equal, and print the same bytes.
pub fn moments()
    ensures { TimesAreMoments }
{}

/// Both times satisfy the laws of reading and of writing, as `simple_types` says them, however BER or CER cuts their texts
/// into segments.
pub fn times()
    ensures utc { UtcTimeKeepsLaws }
    ensures general { GeneralizedTimeKeepsLaws }
{}

/// UTCTimes are ordered by date-time. GeneralizedTimes are ordered by date-time, which shows second 60 as 59, then by the digits
/// after the nanosecond, then by whether the second is 60. Times of one moment are equal.
pub fn time_orders()
    ensures utc { (a b : UTCTime) → ⟦<UTCTime as Ord>⟧.cmp a b ≡ int_cmp (civil_nanos (utc_of a)) (civil_nanos (utc_of b)) }
    ensures utc_equality { (a b : UTCTime) → IsTrue (⟦<UTCTime as PartialEq>⟧.eq a b) ↔ (utc_of a ≡ utc_of b) }
    ensures general { (a b : GeneralizedTime) → ⟦<GeneralizedTime as Ord>⟧.cmp a b ≡ ordering_then (int_cmp (civil_nanos a.datetime) (civil_nanos b.datetime)) (ordering_then (slice_cmp nat_cmp a.sub_nano.items b.sub_nano.items) (bool_cmp a.is_leap_second b.is_leap_second)) }
    ensures general_equality { (a b : GeneralizedTime) → IsTrue (⟦<GeneralizedTime as PartialEq>⟧.eq a b) ↔ (moment_of a ≡ moment_of b) }
{}

/// A UTCTime is hashed as its date-time, a GeneralizedTime as its date-time, the digits after the nanosecond, and whether the
/// second is 60. So times that are equal, which are of one moment, have one hash.
pub fn time_hashes()
    ensures utc { (a : UTCTime) → ⟦<UTCTime as Hash>⟧.hash_input a ≡ ⟦<DateTime as Hash>⟧.hash_input (utc_of a) }
    ensures general { (a : GeneralizedTime) → ⟦<GeneralizedTime as Hash>⟧.hash_input a ≡ ⟦<DateTime as Hash>⟧.hash_input a.datetime ++ (fed.slice fed.u8 a.sub_nano.items ++ fed.bool a.is_leap_second) }
    ensures utc_moments { (a b : UTCTime) → utc_of a ≡ utc_of b → ⟦<UTCTime as Hash>⟧.hash_input a ≡ ⟦<UTCTime as Hash>⟧.hash_input b }
    ensures general_moments { (a b : GeneralizedTime) → moment_of a ≡ moment_of b → ⟦<GeneralizedTime as Hash>⟧.hash_input a ≡ ⟦<GeneralizedTime as Hash>⟧.hash_input b }
{}
