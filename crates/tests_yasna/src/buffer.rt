//! The bytes that a read took.

use std::alloc::Global;
use yasna::{ASN1Result, BERReader, BERReaderSeq, parse_der};

// The first part, a number, and the bytes of its element.
fn number_and_bytes<'a>(parts: &mut BERReaderSeq<'a, '_>) -> ASN1Result<(i64, &'a [u8])> {
    parts.read_with_buffer(|parts| parts.next().read_i64())
}

fn first_number_and_bytes<'a>(reader: BERReader<'a, '_>) -> ASN1Result<(i64, &'a [u8])> {
    reader.read_sequence(number_and_bytes)
}

// The bytes outlive the reading that they were taken by.
fn bytes_of_number(alloc: Global, input: &[u8]) -> ASN1Result<&[u8]> {
    let (_, bytes) = parse_der(alloc, input, first_number_and_bytes)?;
    Ok(bytes)
}

fn has_bytes_of_number(alloc: Global, input: &[u8], bytes: &[u8]) -> bool {
    match bytes_of_number(alloc, input) {
        Ok(found) => found == bytes,
        Err(_) => false,
    }
}

#[test]
fn bytes_outlive_their_reading(rt: HostRuntime) {
    let input = [0x30, 0x04, 0x02, 0x02, 0x01, 0x2c];
    assert!(rt; has_bytes_of_number(rt.alloc(), &input, &[0x02, 0x02, 0x01, 0x2c]));
}
