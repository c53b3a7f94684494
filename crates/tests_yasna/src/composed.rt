//! Lists, tuples and borrowed values, each impl once at types of its own.

use crate::checks::{finds_none, first_failing, gives, is_rejected};
use crate::pieces::Outcome::{Rejected, Written};
use crate::pieces::{Piece, Row, expected, first_other};
use examples_proved::{normalized, reencoded};
use std::alloc::{AllocError, Global};
use yasna::ASN1ErrorKind::{Eof, Invalid};
use yasna::BERMode::Ber;
use yasna::{ASN1ErrorKind, ASN1Result, BERMode, DERCanonical, decode_ber, encode_der};

// The INTEGERs of a SEQUENCE.
#[derive(Clone, Copy)]
enum Numbers {
    /// 0, 1 and so on.
    Rising,
    /// 10 each.
    Tens,
}

// A SEQUENCE of so many INTEGERs.
fn sequence(alloc: Global, numbers: Numbers, count: u8) -> Result<Vec<u8>, AllocError> {
    let mut bytes = Vec::from_slice(alloc, &[48, count.saturating_mul(3)])?;
    for place in 0..count {
        let number = match numbers {
            Numbers::Rising => place,
            Numbers::Tens => 10,
        };
        bytes.extend_from_slice(&[2, 1, number])?;
    }
    Ok(bytes)
}

// Whether a SEQUENCE of so many INTEGERs is a value of this type, and its encoding, and nothing may follow it.
fn is_encoding_of<T: DERCanonical>(alloc: Global, numbers: Numbers, count: u8) -> bool {
    let Ok(mut bytes) = sequence(alloc, numbers, count) else {
        return false;
    };
    let is_encoding = gives(normalized::<T>(alloc, &bytes), &bytes)
        && gives(reencoded::<T>(alloc, &bytes), &bytes);
    match bytes.extend_from_slice(&[2, 1, count.saturating_add(1)]) {
        Ok(()) => is_encoding
            && is_rejected::<T>(alloc, BERMode::Ber, &bytes, ASN1ErrorKind::Extra),
        Err(_) => false,
    }
}

// Whether this is so of both lists.
fn is_tuple<T: DERCanonical>(alloc: Global, count: u8) -> bool {
    is_encoding_of::<T>(alloc, Numbers::Rising, count)
        && is_encoding_of::<T>(alloc, Numbers::Tens, count)
}

fn are_tuples_to_six(alloc: Global) -> [(&'static str, bool); 7] {
    [
        ("1", is_tuple::<(i64,)>(alloc, 1)),
        ("2", is_tuple::<(i64, i64)>(alloc, 2)),
        ("3", is_tuple::<(i64, i64, u16)>(alloc, 3)),
        ("4", is_tuple::<(i64, i64, i64, i64)>(alloc, 4)),
        (
            "5, one of them unsigned",
            is_tuple::<(i64, i64, u64, i64, i64)>(alloc, 5),
        ),
        ("5", is_tuple::<(i64, i64, i64, i64, i64)>(alloc, 5)),
        ("6", is_tuple::<(i64, i64, i64, i64, i64, i64)>(alloc, 6)),
    ]
}

fn are_tuples_to_twelve(alloc: Global) -> [(&'static str, bool); 7] {
    [
        (
            "7, one of them short",
            is_tuple::<(i64, i64, i64, i64, i64, i64, i16)>(alloc, 7),
        ),
        (
            "7",
            is_tuple::<(i64, i64, i64, i64, i64, i64, i64)>(alloc, 7),
        ),
        (
            "8",
            is_tuple::<(i64, i64, i64, i64, i64, i64, i64, i64)>(alloc, 8),
        ),
        (
            "9",
            is_tuple::<(i64, i64, i64, i64, i64, i64, i64, i64, i64)>(alloc, 9),
        ),
        (
            "10",
            is_tuple::<(i64, i64, i64, i64, i64, i64, i64, i64, i64, i64)>(alloc, 10),
        ),
        (
            "11",
            is_tuple::<(i64, i64, i64, i64, i64, i64, i64, i64, i64, i64, i64)>(alloc, 11),
        ),
        (
            "12",
            is_tuple::<(i64, i64, i64, i64, i64, i64, i64, i64, i64, i64, i64, i32)>(alloc, 12),
        ),
    ]
}

#[test]
fn tuples_of_one_to_twelve_round_trip(rt: HostRuntime) {
    finds_none(&rt, first_failing(&are_tuples_to_six(rt.alloc())));
    finds_none(&rt, first_failing(&are_tuples_to_twelve(rt.alloc())));
}

// A type, and what is to be read of it.
#[derive(Clone, Copy)]
enum List {
    Numbers(&'static [i64]),
    Pair,
    Pairs,
}

impl Piece for List {
    fn rewritten(self, alloc: Global, _mode: BERMode, bytes: &[u8]) -> ASN1Result<Vec<u8>> {
        match self {
            List::Numbers(numbers) => {
                let read = decode_ber::<Vec<i64>>(alloc, bytes)?;
                expected(read.as_slice() == numbers)?;
                normalized::<Vec<i64>>(alloc, bytes)
            }
            List::Pair => normalized::<(i64, i64)>(alloc, bytes),
            List::Pairs => normalized::<Vec<(Vec<u8>, Vec<bool>)>>(alloc, bytes),
        }
    }
}

// A list goes on to the two zeros, a malformed item is no end of it, and a part that isn't read is too much.
static LISTS: [Row<List>; 6] = [
    (
        "a list within a list",
        List::Pairs,
        Ber,
        "30803080040109300301010700000000",
        Written("300A300804010930030101FF"),
    ),
    (
        "a NULL that is no number",
        List::Numbers(&[10]),
        Ber,
        "308002010A0500000000",
        Rejected(Invalid),
    ),
    (
        "a list goes on to the two zeros",
        List::Numbers(&[10, 11]),
        Ber,
        "308002010A02010B0000",
        Written("300602010A02010B"),
    ),
    (
        "a broken item",
        List::Numbers(&[10]),
        Ber,
        "300502010A0200",
        Rejected(Invalid),
    ),
    (
        "a list without its end",
        List::Numbers(&[10]),
        Ber,
        "308002010A",
        Rejected(Eof),
    ),
    (
        "an unread part",
        List::Pair,
        Ber,
        "30800201010201020201030000",
        Rejected(Invalid),
    ),
];

fn are_written(alloc: Global) -> [(&'static str, bool); 7] {
    let ten: &i64 = &10;
    let flags: &[bool] = &[true, false];
    let numbers: &[i64] = &[10, -129];
    let octets: &[u8] = b"Hello!".as_slice();
    let text = "Hello!";
    [
        (
            "an empty list",
            is_encoding_of::<Vec<i64>>(alloc, Numbers::Rising, 0),
        ),
        (
            "a list of five",
            is_encoding_of::<Vec<u32>>(alloc, Numbers::Rising, 5),
        ),
        (
            "a borrowed number",
            gives(encode_der(alloc, &ten), &[0x02, 0x01, 0x0a]),
        ),
        (
            "borrowed flags",
            gives(
                encode_der(alloc, &flags),
                &[0x30, 0x06, 0x01, 0x01, 0xff, 0x01, 0x01, 0x00],
            ),
        ),
        (
            "borrowed numbers",
            gives(
                encode_der(alloc, &numbers),
                &[0x30, 0x07, 0x02, 0x01, 0x0a, 0x02, 0x02, 0xff, 0x7f],
            ),
        ),
        (
            "borrowed octets",
            gives(
                encode_der(alloc, &octets),
                &[0x04, 0x06, 0x48, 0x65, 0x6c, 0x6c, 0x6f, 0x21],
            ),
        ),
        (
            "a borrowed text",
            gives(
                encode_der(alloc, &text),
                &[0x0c, 0x06, 0x48, 0x65, 0x6c, 0x6c, 0x6f, 0x21],
            ),
        ),
    ]
}

// Of each list, and of borrowed values.
#[test]
fn lists_and_borrowed_values_round_trip(rt: HostRuntime) {
    finds_none(&rt, first_other(rt.alloc(), &LISTS));
    finds_none(&rt, first_failing(&are_written(rt.alloc())));
}
