//! What values of a module's type are in DER.

use crate::schemas::schema_in;
use asn1_types::model::KnownType;
use asn1der_typed::convert_by_type;
use asn1show_schema::Schema;
use std::alloc::Global;
use std::process::Abort;

const SOURCE: &[u8] = b"M DEFINITIONS AUTOMATIC TAGS ::= BEGIN
A ::= SEQUENCE { version INTEGER { v1(0), v2(1) } DEFAULT v1, name UTF8String, rows SEQUENCE OF B, kept BOOLEAN DEFAULT FALSE }
B ::= SEQUENCE { number INTEGER, flags BIT STRING { first(0), second(1), tenth(9) } OPTIONAL }
S ::= SET { a INTEGER, b BOOLEAN OPTIONAL, c SET OF OCTET STRING OPTIONAL }
E ::= SEQUENCE { level [5] EXPLICIT INTEGER DEFAULT 3, open [6] EXPLICIT ANY OPTIONAL }
END";

/// A type, a value in BER, and the value in DER.
type Row = (&'static str, &'static [u8], &'static [u8]);

static ROWS: [Row; 8] = [
    (
        "A",
        b"\x30\x80\x80\x01\x00\xa1\x80\x04\x01a\x04\x01b\x00\x00\xa2\x80\x30\x80\x80\x01\x05\x81\x03\x00\x80\x00\x00\x00\x00\x00\x83\x01\x00\x00\x00",
        b"\x30\x0f\x81\x02ab\xa2\x09\x30\x07\x80\x01\x05\x81\x02\x07\x80",
    ),
    (
        "A",
        b"\x30\x0b\x80\x01\x01\x81\x01a\xa2\x00\x83\x01\x01",
        b"\x30\x0b\x80\x01\x01\x81\x01a\xa2\x00\x83\x01\xff",
    ),
    (
        "B",
        b"\x30\x06\x80\x01\x05\x81\x01\x00",
        b"\x30\x06\x80\x01\x05\x81\x01\x00",
    ),
    (
        "B",
        b"\x30\x08\x80\x01\x05\x81\x03\x00\x00\x00",
        b"\x30\x06\x80\x01\x05\x81\x01\x00",
    ),
    (
        "S",
        b"\x31\x80\x81\x01\x05\xa2\x06\x04\x01b\x04\x01a\x80\x01\x03\x00\x00",
        b"\x31\x0e\x80\x01\x03\x81\x01\xff\xa2\x06\x04\x01a\x04\x01b",
    ),
    ("E", b"\x30\x05\xa5\x03\x02\x01\x03", b"\x30\x00"),
    (
        "E",
        b"\x30\x05\xa5\x03\x02\x01\x04",
        b"\x30\x05\xa5\x03\x02\x01\x04",
    ),
    (
        "E",
        b"\x30\x80\xa6\x80\x24\x80\x04\x01a\x00\x00\x00\x00\x00\x00",
        b"\x30\x05\xa6\x03\x04\x01a",
    ),
];

fn is_converted(alloc: Global, schema: &Schema, row: &Row) -> bool {
    match convert_by_type(alloc, schema, row.1) {
        Ok(bytes) => bytes.as_slice() == row.2,
        Err(_) => false,
    }
}

// The number of the first row that is converted otherwise.
fn first_otherwise(
    alloc: Global,
    rows: &'static [Row],
    known: &'static [KnownType<'static>],
) -> Option<usize> {
    for (number, row) in rows.iter().enumerate() {
        let is_so = match schema_in(alloc, SOURCE, known, row.0) {
            Some(schema) => is_converted(alloc, &schema, row),
            None => false,
        };
        if !is_so {
            return Some(number);
        }
    }
    None
}

#[test]
fn values_are_converted_by_their_module(rt: HostRuntime) {
    assert!(rt; first_otherwise(rt.alloc(), &ROWS, &[]).is_none());
}

/// A type, bytes, and why they aren't converted.
type Rejection = (&'static str, &'static [u8], &'static str);

static REJECTED: [Rejection; 4] = [
    (
        "B",
        b"\x30\x03\x02\x01\x05",
        "offset 2, number: not in the module",
    ),
    (
        "A",
        b"\x30\x05\x81\x01\xff\xa2\x00",
        "offset 2: Invalid: expected characters of the type",
    ),
    (
        "A",
        b"\x30\x05\x81\x01a\x82\x00",
        "offset 5, rows: not in the module",
    ),
    (
        "B",
        b"\x30\x03\x80\x02\x05",
        "offset 2: Eof: expected 2 octets of contents, of which 1 are there",
    ),
];

fn is_rejected(alloc: Global, schema: &Schema, row: &Rejection) -> bool {
    match convert_by_type(alloc, schema, row.1) {
        Ok(_) => false,
        Err(error) => match format!(in alloc; "{error}") {
            Ok(text) => text.as_str() == row.2,
            Err(_) => false,
        },
    }
}

// The number of the first row that is rejected otherwise.
fn first_rejected_otherwise(
    alloc: Global,
    rows: &'static [Rejection],
    known: &'static [KnownType<'static>],
) -> Option<usize> {
    for (number, row) in rows.iter().enumerate() {
        let is_so = match schema_in(alloc, SOURCE, known, row.0) {
            Some(schema) => is_rejected(alloc, &schema, row),
            None => false,
        };
        if !is_so {
            return Some(number);
        }
    }
    None
}

#[test]
fn what_is_not_of_a_module_is_not_converted(rt: HostRuntime) {
    assert!(rt; first_rejected_otherwise(rt.alloc(), &REJECTED, &[]).is_none());
}
