//! Elements that are prepended to a buffer by one call each: bit strings and numbers, and a type without bodies of its own for that.
ghost use Rattle.std.specs.Prelude.{◌≡◌, refl};

use crate::checks::{bytes_of, finds_none};
use std::alloc::Global;
use yasna::BERMode::{Cer, Der};
use yasna::tags::{TAG_BITSTRING, TAG_INTEGER};
use yasna::{
    ASN1Result, BERMode, DERExact, DERWriter, PrependBuffer, bigint_len, bitvec_len, decode_der,
    encode_der, one_der_encoding,
};
use yasna_notation::{DefinedType, Encoded, Sequence};

// What is prepended to a buffer by one call.
#[derive(Clone, Copy)]
enum Element {
    /// 18 bits of three bytes.
    Bits,
    /// No bits.
    NoBits,
    /// The number of these bytes, which isn't negative if `true`.
    Number(&'static [u8], bool),
}

impl Element {
    fn prepend(self, out: &mut PrependBuffer) -> ASN1Result<()> {
        match self {
            Element::Bits => out.prepend_bitvec_bytes(TAG_BITSTRING, &[0x75, 0x0d, 0x41], 18),
            Element::NoBits => out.prepend_bitvec_bytes(TAG_BITSTRING, &[], 0),
            Element::Number(bytes, positive) => {
                out.prepend_bigint_bytes(TAG_INTEGER, bytes, positive)
            }
        }
    }

    fn len(self, mode: BERMode) -> Option<usize> {
        match self {
            Element::Bits => bitvec_len(mode, TAG_BITSTRING, &[0x75, 0x0d, 0x41]),
            Element::NoBits => bitvec_len(mode, TAG_BITSTRING, &[]),
            Element::Number(bytes, positive) => bigint_len(TAG_INTEGER, bytes, positive),
        }
    }
}

// A name, a mode, what is prepended, and its encoding.
static ROWS: [(&str, BERMode, Element, &str); 11] = [
    ("bits", Der, Element::Bits, "030406750d40"),
    ("bits in CER", Cer, Element::Bits, "030406750d40"),
    ("no bits", Der, Element::NoBits, "030100"),
    ("0", Der, Element::Number(&[], true), "020100"),
    (
        "0 of two bytes",
        Der,
        Element::Number(&[0x00, 0x00], false),
        "020100",
    ),
    ("127", Der, Element::Number(&[127], true), "02017f"),
    ("128", Der, Element::Number(&[128], true), "02020080"),
    (
        "128 in CER",
        Cer,
        Element::Number(&[0x00, 0x80], true),
        "02020080",
    ),
    ("-128", Der, Element::Number(&[128], false), "020180"),
    (
        "-128 of two bytes",
        Der,
        Element::Number(&[0xff, 0x80], false),
        "020180",
    ),
    ("-129", Der, Element::Number(&[127], false), "0202ff7f"),
];

// Whether what is prepended is the encoding, and as long as it says.
fn is_prepended(alloc: Global, mode: BERMode, element: Element, digits: &str) -> ASN1Result<bool> {
    let encoding = bytes_of(alloc, digits)?;
    let mut out = PrependBuffer::new(alloc, mode);
    element.prepend(&mut out)?;
    let bytes = out.finish()?;
    let has_len = matches!(element.len(mode), Some(len) if len == encoding.len());
    Ok(has_len && bytes.as_slice() == encoding.as_slice())
}

// The name of the first row that isn't so.
fn first_failing(alloc: Global) -> Option<&'static str> {
    for row in &ROWS {
        if !is_prepended(alloc, row.1, row.2, row.3).unwrap_or(false) {
            return Some(row.0);
        }
    }
    None
}

#[test]
fn elements_are_prepended(rt: HostRuntime) {
    finds_none(&rt, first_failing(rt.alloc()));
}

// Contents of a BIT STRING that CER cuts into a segment of 999 bytes and one of the last byte (X.690, 9.2).
const LONG_BITS: [u8; 1000] = [0; 1000];

// How that begins: the header, and the header of a segment with no unused bits.
const FIRST_SEGMENT: [u8; 7] = [0x23, 0x80, 0x03, 0x82, 0x03, 0xe8, 0x00];

// How it ends: the last byte, in a segment of its own, and the end of contents.
const LAST_SEGMENT: [u8; 6] = [0x03, 0x02, 0x00, 0x00, 0x00, 0x00];

// Whether a BIT STRING that CER cuts is prepended in its segments.
fn are_segments_prepended(alloc: Global) -> ASN1Result<bool> {
    let mut encoding = Vec::from_slice(alloc, &FIRST_SEGMENT)?;
    encoding.extend_from_slice(&LONG_BITS[1..])?;
    encoding.extend_from_slice(&LAST_SEGMENT)?;
    let mut out = PrependBuffer::new(alloc, Cer);
    out.prepend_bitvec_bytes(TAG_BITSTRING, &LONG_BITS, 8000)?;
    let bytes = out.finish()?;
    let has_no_len = bitvec_len(Cer, TAG_BITSTRING, &LONG_BITS).is_none();
    Ok(has_no_len && bytes.as_slice() == encoding.as_slice())
}

#[test]
fn segments_of_bits_are_prepended(rt: HostRuntime) {
    match are_segments_prepended(rt.alloc()) {
        Ok(true) => {}
        _ => finds_none(&rt, Some("bits in segments")),
    }
}

type NumberParts = (i64, ());

/// A number in a SEQUENCE, which is only written in order: how it is prepended is left to the trait.
#[derive(Drop)]
struct Number {
    number: i64,
}

impl DefinedType for Number {
    type Notation = Sequence<NumberParts>;

    ghost value_of = { λ v. (v.number, tt) };

    fn from_value((number, ()): (i64, ())) -> Number {
        Number { number }
    }

    fn write_value(&self, writer: DERWriter<'_>) -> ASN1Result<()> {
        Sequence::<NumberParts>::write_fields((&self.number, ()), writer)
    }

    ghost unambiguous = { refl };
}

// Whether the value that these bytes encode has no known length, and is prepended and written as them.
fn is_prepended_as_written<T: DERExact>(alloc: Global, bytes: &[u8]) -> ASN1Result<bool> {
    one_der_encoding::<T>();
    let value: T = decode_der(alloc, bytes)?;
    let has_no_len = value.encoded_len(Der).is_none();
    let mut out = PrependBuffer::new(alloc, Der);
    value.prepend_der(&mut out)?;
    let backwards = out.finish()?;
    let forwards = encode_der(alloc, &value)?;
    let are_bytes = backwards.as_slice() == bytes && forwards.as_slice() == bytes;
    Ok(has_no_len && are_bytes)
}

#[test]
fn types_without_bodies_are_prepended(rt: HostRuntime) {
    match is_prepended_as_written::<Encoded<Number>>(rt.alloc(), &[0x30, 0x03, 0x02, 0x01, 0x05]) {
        Ok(true) => {}
        _ => finds_none(&rt, Some("a number in a SEQUENCE")),
    }
}
