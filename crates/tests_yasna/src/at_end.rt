//! Where contents end, errors of a reading callback's own, and memory that it asks for itself.

use crate::checks::{bytes_of, holds, results};
use std::alloc::Global;
use yasna::ASN1ErrorKind::Invalid;
use yasna::BERMode::{Ber, Der};
use yasna::{
    ASN1Error, ASN1ErrorKind, ASN1Result, BERMode, BERReader, BERReaderSeq, parse_ber_general,
    try_parse_ber, try_parse_cer,
};

// A name, a SEQUENCE that begins with a number, the mode, whether the number is its last part, and the rejection if there is one.
static ENDS: [(&str, BERMode, &str, bool, Option<ASN1ErrorKind>); 4] = [
    (
        "a counted SEQUENCE ends behind its number",
        Der,
        "3003020107",
        true,
        None,
    ),
    (
        "a NULL is behind the number",
        Der,
        "30050201070500",
        false,
        None,
    ),
    (
        "two zeros end a SEQUENCE",
        Ber,
        "30800201070000",
        true,
        None,
    ),
    (
        "a sticky error ends the parts",
        Der,
        "3006020200070500",
        true,
        Some(Invalid),
    ),
];

// Whether the number is 7, and is the last part as often as is wanted.
fn is_seven(parts: &mut BERReaderSeq, is_last: bool) -> ASN1Result<bool> {
    let number = parts.next().read_i64();
    let ends = parts.is_at_end();
    if !ends {
        parts.next().read_null()?;
    }
    Ok(ends == is_last && (number.is_err() || number == Ok(7)))
}

fn is_end(
    alloc: Global,
    mode: BERMode,
    text: &str,
    is_last: bool,
    rejection: Option<ASN1ErrorKind>,
) -> ASN1Result<bool> {
    let bytes = bytes_of(alloc, text)?;
    let outcome = parse_ber_general(alloc, &bytes, mode, |reader| {
        reader.read_sequence(|parts| is_seven(parts, is_last))
    });
    Ok(results(outcome, rejection))
}

#[derive(Clone, Copy)]
enum Rejected {
    Large,
    Encoding(ASN1Error),
}

impl From<ASN1Error> for Rejected {
    fn from(error: ASN1Error) -> Rejected {
        Rejected::Encoding(error)
    }
}

// A number below 100, kept in a vector.
fn small(alloc: Global, reader: BERReader) -> Result<Vec<i64>, Rejected> {
    let number = reader.read_i64()?;
    if number >= 100 {
        return Err(Rejected::Large);
    }
    match Vec::from_slice(alloc, &[number]) {
        Ok(numbers) => Ok(numbers),
        Err(error) => Err(Rejected::Encoding(ASN1Error::from(error))),
    }
}

// What becomes of a number.
#[derive(Clone, Copy)]
enum Outcome {
    Read,
    Large,
    Encoding,
}

// A name, the mode, a number, and what becomes of it.
static NUMBERS: [(&str, BERMode, &[u8], Outcome); 4] = [
    (
        "BER takes a long length",
        Ber,
        &[0x02, 0x81, 0x01, 0x07],
        Outcome::Read,
    ),
    (
        "a callback's own error",
        Ber,
        &[0x02, 0x01, 0x64],
        Outcome::Large,
    ),
    (
        "a long length becomes one of its errors",
        BERMode::Cer,
        &[0x02, 0x81, 0x01, 0x07],
        Outcome::Encoding,
    ),
    (
        "bytes that are left become one of its errors",
        BERMode::Cer,
        &[0x02, 0x01, 0x07, 0x00],
        Outcome::Encoding,
    ),
];

fn has_outcome(alloc: Global, mode: BERMode, bytes: &[u8], outcome: Outcome) -> bool {
    let callback = |reader: BERReader| small(alloc, reader);
    let parsed = match mode {
        Ber => try_parse_ber(alloc, bytes, callback),
        _ => try_parse_cer(alloc, bytes, callback),
    };
    match parsed {
        Ok(_) => matches!(outcome, Outcome::Read),
        Err(Rejected::Large) => matches!(outcome, Outcome::Large),
        Err(Rejected::Encoding(_)) => matches!(outcome, Outcome::Encoding),
    }
}

// Parts end after the last one, by two zeros too, and a sticky error ends them.
#[test]
fn parts_end_and_callbacks_have_errors_of_their_own(rt: HostRuntime) {
    for row in &ENDS {
        holds(&rt, row.0, is_end(rt.alloc(), row.1, row.2, row.3, row.4));
    }
    for row in &NUMBERS {
        holds(&rt, row.0, Ok(has_outcome(rt.alloc(), row.1, row.2, row.3)));
    }
}
