//! A SEQUENCE of parts that are pairs, as of more parts than a tuple has, and one whose parts are read up to its end.

use crate::checks::{Claim, Fields, Looks, bytes_of, finds_none, says};
use crate::kinds::{Kind, Row, first_failing};
use std::alloc::Global;
use yasna::BERMode::Der;
use yasna::{ASN1Result, InSequence, decode_ber_general, parse_ber};

type Parts = InSequence<(i64, (bool, ()))>;

static ROWS: [Row; 2] = [
    (
        Kind::Pairs,
        Claim::Says(Der, Fields::All),
        "parts of a SEQUENCE are read",
        "30060201050101ff",
    ),
    (
        Kind::Pairs,
        Claim::IsRejected(Der),
        "parts of a SET are rejected",
        "31060201050101ff",
    ),
];

impl Looks for Parts {
    // Whether they are 5 and true.
    fn has(&self, _fields: Fields) -> bool {
        matches!(self.parts, (5, (true, ())))
    }
}

/// Whether the claim is so of such parts.
pub fn is_in_a_sequence(alloc: Global, bytes: &[u8], claim: Claim) -> bool {
    match claim {
        Claim::Says(mode, fields) => says::<Parts>(alloc, bytes, mode, fields),
        Claim::IsRejected(mode) => decode_ber_general::<Parts>(alloc, bytes, mode).is_err(),
        _ => false,
    }
}

#[test]
fn parts_are_in_a_sequence(rt: HostRuntime) {
    finds_none(&rt, first_failing(rt.alloc(), &ROWS));
}

// Numbers in a SEQUENCE, and which they are; None if one part is no number.
static RESTS: [(&str, &str, Option<&[i64]>); 5] = [
    ("no part is left", "3000", Some(&[])),
    ("two parts are left", "3006020101020102", Some(&[1, 2])),
    (
        "a part in a SEQUENCE of indefinite length",
        "30800201050000",
        Some(&[5]),
    ),
    ("a BOOLEAN is no number", "3006020101010100", None),
    ("a part is cut", "30050201010201", None),
];

// All parts that are left of a SEQUENCE.
fn rest_of(alloc: Global, bytes: &[u8]) -> ASN1Result<Vec<i64>> {
    parse_ber(
        alloc,
        bytes,
        |reader| reader.read_sequence(|seq| seq.collect_rest(|part| part.read_i64())),
    )
}

// Whether the parts of a SEQUENCE are as a row says.
fn is_rest(alloc: Global, text: &str, numbers: Option<&[i64]>) -> bool {
    let Ok(bytes) = bytes_of(alloc, text) else {
        return false;
    };
    match (rest_of(alloc, &bytes), numbers) {
        (Ok(read), Some(numbers)) => read.as_slice() == numbers,
        (Err(_), None) => true,
        _ => false,
    }
}

fn wrong_rest(alloc: Global) -> Option<&'static str> {
    for (name, text, numbers) in &RESTS {
        if !is_rest(alloc, text, *numbers) {
            return Some(*name);
        }
    }
    None
}

#[test]
fn parts_are_collected_up_to_the_end(rt: HostRuntime) {
    finds_none(&rt, wrong_rest(rt.alloc()));
}
