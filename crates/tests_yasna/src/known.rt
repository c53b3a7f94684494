//! Calls whose closures are known, and a list of a CHOICE.

use crate::checks::finds_none;
use crate::pieces::Outcome::{Rejected, Same};
use crate::pieces::{Piece, Row, bytes_if, bytes_of_items, expected, first_other};
use examples_proved::{
    constructed_integer, parsed_integer, parsed_items, parsed_numbers, parsed_pair, third_number,
};
use std::alloc::Global;
use yasna::ASN1ErrorKind::{Extra, IntegerOverflow, Invalid};
use yasna::BERMode::{Ber, Der};
use yasna::{ASN1Result, BERMode, construct_der};

// A call, and what it reads.
#[derive(Clone, Copy)]
enum Call {
    Integer(i64),
    Pair(i64, bool),
    Numbers(&'static [i64]),
    Items(&'static [Option<i64>]),
    Third(i64),
}

impl Piece for Call {
    fn rewritten(self, alloc: Global, _mode: BERMode, bytes: &[u8]) -> ASN1Result<Vec<u8>> {
        match self {
            Call::Integer(number) => {
                let read = parsed_integer(alloc, bytes)?;
                expected(read == number)?;
                constructed_integer(alloc, read)
            }
            Call::Pair(number, flag) => {
                let (found, set) = parsed_pair(alloc, bytes)?;
                bytes_if(alloc, found == number && set == flag, bytes)
            }
            Call::Numbers(numbers) => {
                bytes_of_items(alloc, parsed_numbers(alloc, bytes), numbers, bytes)
            }
            Call::Items(items) => bytes_of_items(alloc, parsed_items(alloc, bytes), items, bytes),
            Call::Third(number) => bytes_if(alloc, third_number(alloc, bytes)? == number, bytes),
        }
    }
}

use Call::{Integer, Items, Numbers, Pair, Third};

static ROWS: [Row<Call>; 12] = [
    ("-129", Integer(-129), Der, "0202FF7F", Same),
    (
        "an ENUMERATED",
        Integer(13),
        Der,
        "0A010D",
        Rejected(Invalid),
    ),
    ("10 and TRUE", Pair(10, true), Der, "300602010A0101FF", Same),
    (
        "TRUE that isn't 255",
        Pair(10, true),
        Der,
        "300602010A010101",
        Rejected(Invalid),
    ),
    (
        "two numbers",
        Numbers(&[10, -129]),
        Der,
        "300702010A0202FF7F",
        Same,
    ),
    ("no numbers", Numbers(&[]), Der, "3000", Same),
    (
        "a NULL that is no number",
        Numbers(&[10]),
        Der,
        "300502010A0500",
        Rejected(Extra),
    ),
    (
        "a number and a NULL",
        Items(&[Some(10), None]),
        Der,
        "300502010A0500",
        Same,
    ),
    (
        "a BOOLEAN that is no item",
        Items(&[]),
        Der,
        "30030101FF",
        Rejected(Extra),
    ),
    (
        "the third number",
        Third(12),
        Ber,
        "300902010A02010B02010C",
        Same,
    ),
    (
        "a number of nine bytes",
        Third(12),
        Ber,
        "3011020901000000000000000002010B02010C",
        Rejected(IntegerOverflow),
    ),
    // the second is a BOOLEAN, and so is what the third is read from
    (
        "a BOOLEAN among numbers",
        Third(12),
        Ber,
        "300902010A0101FF02010C",
        Rejected(Invalid),
    ),
];

// 0, 1 and so on to 99,999.
fn encoding_of_many(alloc: Global) -> ASN1Result<Vec<u8>> {
    construct_der(alloc, |writer| {
        writer.write_sequence_of(|list| -> ASN1Result<()> {
            for number in 0..100_000i64 {
                list.next().write_i64(number)?;
            }
            Ok(())
        })
    })
}

fn ends_at(numbers: &[i64], count: usize, last: i64) -> bool {
    numbers.len() == count && numbers.last() == Some(&last)
}

// Whether they are read as they are.
fn many_are_read(alloc: Global) -> bool {
    let Ok(encoding) = encoding_of_many(alloc) else {
        return false;
    };
    match parsed_numbers(alloc, &encoding) {
        Ok(numbers) => ends_at(numbers.as_slice(), 100_000, 99_999),
        Err(_) => false,
    }
}

#[test]
fn values_and_lists_are_read_or_rejected(rt: HostRuntime) {
    finds_none(&rt, first_other(rt.alloc(), &ROWS));
    assert!(rt; many_are_read(rt.alloc()), "100,000 numbers");
}
