//! Which integers of any size are in their ranges. The rows are written by hand.

use crate::checks::{bytes_of, finds_none};
use std::alloc::Global;
use yasna_notation::{BigInteger, Bound};
use yasna_notation_constraints::{AnyOf, IntegerFrom, IntegerFromTo, IntegerUpTo};

/// A row's name, the octets of an INTEGER, whether it isn't negative, and whether it is in `(1..MAX)` and in `(MIN..-1 | 10..20)`.
type Row = (&'static str, &'static str, bool, bool, bool);

static ROWS: [Row; 15] = [
    ("0", "00", true, false, false),
    ("1", "01", true, true, false),
    ("-1", "ff", false, false, true),
    ("9", "09", true, true, false),
    ("10", "0a", true, true, true),
    ("20", "14", true, true, true),
    ("21", "15", true, true, false),
    (
        "the least of 64 bits",
        "8000000000000000",
        false,
        false,
        true,
    ),
    ("one less", "ff7fffffffffffffff", false, false, true),
    (
        "the greatest of 64 bits",
        "7fffffffffffffff",
        true,
        true,
        false,
    ),
    ("one more", "008000000000000000", true, true, false),
    ("2^64", "010000000000000000", true, true, false),
    ("-2^64", "ff0000000000000000", false, false, true),
    ("2^71", "00800000000000000000", true, true, false),
    ("-2^100", "f0000000000000000000000000", false, false, true),
];

fn allowed(number: &(Vec<u8>, bool)) -> (bool, bool) {
    (
        <IntegerFrom<1> as Bound<BigInteger>>::lets(number),
        <AnyOf<IntegerUpTo<{ -1 }>, IntegerFromTo<10, 20>> as Bound<BigInteger>>::lets(number),
    )
}

fn is_row(alloc: Global, row: &Row) -> bool {
    match bytes_of(alloc, row.1) {
        Some(octets) => allowed(&(octets, row.2)) == (row.3, row.4),
        None => false,
    }
}

fn first_failing(alloc: Global) -> Option<&'static str> {
    for row in &ROWS {
        if !is_row(alloc, row) {
            return Some(row.0);
        }
    }
    None
}

#[test]
fn numbers_of_any_size_are_in_their_ranges(rt: HostRuntime) {
    finds_none(&rt, first_failing(rt.alloc()));
}
