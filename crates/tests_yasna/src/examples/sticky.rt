//! Errors that are sticky.

use std::alloc::Global;
use yasna::{ASN1Result, parse_der};

pub fn number_or_zero(alloc: Global, bytes: &[u8]) -> ASN1Result<i64> {
    parse_der(alloc, bytes, |reader| {
        reader.read_sequence(|parts| {
            match parts.next().read_i64() {
                Ok(number) => Ok(number),
                Err(_) => Ok(0),
            }
        })
    })
}
