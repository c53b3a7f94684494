//! Calls that a driver times: each does one piece of work with `yasna` and returns one number.
//!
//! `bench/` at the top of the repository holds the driver. Values read go into a checksum, so that the optimiser drops no work.
//! Of bytes written the length is returned.
//!
//! | Module | Holds |
//! |---|---|
//! | `reading` | calls that read numbers, pairs and nested elements |
//! | `options` | calls that read optional parts |
//! | `writing` | calls that write numbers, pairs and nested elements |
//! | `sets` | calls that read and write SET OF |
//! | `numbers` | a type with a SET OF |
//! | `raw` | calls that read raw elements |
//! | `strings`, `oid` | calls that read and write octet strings, texts and object identifiers |
//! | `times` | calls that parse, print, read and write both times |
//! | `messages` | calls that read and write certificates |
#![tactic(auto)]

ghost use Rattle.std.specs.Prelude.{◌≡◌, ◌-◌, ◌^◌, MatchResult};

mod messages;
mod numbers;
mod oid;
mod options;
mod raw;
mod reading;
mod sets;
mod strings;
mod times;
mod writing;

use yasna::ASN1Result;

// The result of a call that was rejected.
const REJECTED: u64 = u64::MAX;

// The number that a call returns.
fn number_of(outcome: ASN1Result<u64>) -> u64
    ensures { MatchResult outcome (λ number. result ≡ number) (λ _. result ≡ 2 ^ 64 - 1) }
{
    match outcome {
        Ok(number) => number,
        Err(_) => REJECTED,
    }
}

// The length of the bytes that a call wrote.
fn length(written: ASN1Result<Vec<u8>>) -> u64 {
    number_of(written.map(|bytes| bytes.len() as u64))
}

// A checksum with one more number in it.
fn mixed(checksum: u64, number: i64) -> u64 {
    checksum.rotate_left(5) ^ number.cast_unsigned()
}
