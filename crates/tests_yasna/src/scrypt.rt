//! The parameters of scrypt, from real bytes, with the last part and without.

use crate::checks::finds_none;
use crate::pieces::Outcome::{Rejected, Same, Written};
use crate::pieces::{Piece, Row, expected, first_other};
use examples_proved::{ScryptParameters, normalized};
use std::alloc::Global;
use yasna::ASN1ErrorKind::{IntegerOverflow, Invalid};
use yasna::BERMode::{Ber, Der};
use yasna::{ASN1Result, BERMode, decode_ber_general};

// Parameters of the key in RFC 7914, 13, with such a length.
#[derive(Clone, Copy)]
struct Length(Option<u64>);

impl Piece for Length {
    fn rewritten(self, alloc: Global, mode: BERMode, bytes: &[u8]) -> ASN1Result<Vec<u8>> {
        let ScryptParameters {
            salt,
            cost,
            block_size,
            parallelization,
            key_length,
        } = decode_ber_general::<ScryptParameters>(alloc, bytes, mode)?;
        expected(salt.as_slice() == b"Mouse".as_slice() && cost == 1_048_576)?;
        expected(block_size == 8 && parallelization == 1 && key_length == self.0)?;
        normalized::<ScryptParameters>(alloc, bytes)
    }
}

const NONE: Length = Length(None);

const PLAIN: &str = "301204054D6F7573650203100000020108020101";

// A last part of another type is no length, and neither is one that is malformed, or followed by another.
static ROWS: [Row<Length>; 7] = [
    (
        "with a length",
        Length(Some(32)),
        Der,
        "301504054D6F7573650203100000020108020101020120",
        Same,
    ),
    ("without a length", NONE, Der, PLAIN, Same),
    (
        "of indefinite length, with a length in two bytes",
        NONE,
        Ber,
        "30800481054D6F75736502031000000201080201010000",
        Written(PLAIN),
    ),
    (
        "a NULL for a length",
        NONE,
        Ber,
        "3080040002010202010802010105000000",
        Rejected(Invalid),
    ),
    (
        "an empty length",
        NONE,
        Ber,
        "3080040002010202010802010102000000",
        Rejected(Invalid),
    ),
    (
        "a negative length",
        NONE,
        Ber,
        "308004000201020201080201010201FF0000",
        Rejected(IntegerOverflow),
    ),
    (
        "two lengths",
        NONE,
        Ber,
        "308004000201020201080201010201200201200000",
        Rejected(Invalid),
    ),
];

#[test]
fn optional_length_round_trips_or_is_rejected(rt: HostRuntime) {
    finds_none(&rt, first_other(rt.alloc(), &ROWS));
}
