//! Calls that read and write SET OF.

use crate::numbers::Numbers;
use crate::reading::{list_checksum, mode};
use crate::{length, number_of};
use std::alloc::Global;
use yasna::{
    ASN1Result, DERWriterSet, construct_der, decode_ber, encode_der, one_encoding,
    parse_ber_general,
};
use yasna_notation::Encoded;

/// The checksum of the numbers of a SET OF, which are collected first.
#[unsafe(no_mangle)]
pub extern "C" fn yasna_read_set_of(alloc: Global, bytes: &[u8], der: bool) -> u64 {
    let list = parse_ber_general(
        alloc,
        bytes,
        mode(der),
        |reader| reader.collect_set_of(|item| item.read_i64()),
    );
    number_of(list.map(|numbers| list_checksum(&numbers)))
}

/// The length of a SET OF these numbers.
#[unsafe(no_mangle)]
pub extern "C" fn yasna_write_set_of(alloc: Global, numbers: &[i64]) -> u64 {
    length(construct_der(
        alloc,
        |writer| writer.write_set_of(|set| write_parts(set, numbers)),
    ))
}

/// The lengths of a SEQUENCE with a SET OF numbers that is read once, in any order, and written so many times as a value, in sum.
#[unsafe(no_mangle)]
pub extern "C" fn yasna_write_set_values(alloc: Global, bytes: &[u8], times: u64) -> u64 {
    number_of(values_written(alloc, bytes, times))
}

// The lengths of that value, in sum.
fn values_written(alloc: Global, bytes: &[u8], times: u64) -> ASN1Result<u64> {
    one_encoding::<Encoded<Numbers>>();
    let value: Encoded<Numbers> = decode_ber(alloc, bytes)?;
    let mut total: u64 = 0;
    for _ in 0..times {
        let encoding = encode_der(alloc, &value)?;
        total = total.wrapping_add(encoding.len() as u64);
    }
    Ok(total)
}

// Writes each of these numbers.
fn write_parts(set: &mut DERWriterSet, numbers: &[i64]) -> ASN1Result<()> {
    for number in numbers {
        set.next().write_i64(*number)?;
    }
    Ok(())
}
