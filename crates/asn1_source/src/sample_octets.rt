//! The octets of elements in DER (X.690, 8.1 and 10.1), of which samples are made.

use crate::text::Text;
use asn1_types::model::{Integer, Tag, TagClass};
use std::alloc::Global;

// The bits of a class in an identifier (X.690, 8.1.2.2).
fn class_bits(class: TagClass) -> u8 {
    match class {
        TagClass::Universal => 0,
        TagClass::Application => 64,
        TagClass::ContextSpecific => 128,
        TagClass::Private => 192,
    }
}

// How far each digit in base 128 is from the last bit of a number.
static SHIFTS: [u32; 10] = [63, 56, 49, 42, 35, 28, 21, 14, 7, 0];

// Appends a number in base 128.
fn put_base128(number: u64, out: &mut Text) {
    let mut is_begun = false;
    for shift in SHIFTS.as_slice() {
        let digit = (number.checked_shr(*shift).unwrap_or(0) & 127) as u8;
        let is_last = *shift == 0;
        if digit != 0 || is_begun || is_last {
            out.put_octet(if is_last { digit } else { digit | 128 });
            is_begun = true;
        }
    }
}

// Appends an identifier, whose bit 6 is `form`.
fn put_identifier(tag: Tag, form: u8, out: &mut Text) {
    let bits = class_bits(tag.class) | form;
    if tag.number < 31 {
        out.put_octet(bits | (tag.number & 31) as u8);
    } else {
        out.put_octet(bits | 31);
        put_base128(tag.number, out);
    }
}

// Appends a length below 65536.
fn put_length(length: usize, out: &mut Text) {
    let low = (length & 255) as u8;
    if length < 128 {
        out.put_octet(low);
    } else if length < 256 {
        out.put_octet(0x81);
        out.put_octet(low);
    } else {
        out.put_octet(0x82);
        out.put_octet((length.checked_shr(8).unwrap_or(0) & 255) as u8);
        out.put_octet(low);
    }
}

/// Appends an element.
pub fn put_element(tag: Tag, is_constructed: bool, contents: &[u8], out: &mut Text) {
    put_identifier(tag, if is_constructed { 32 } else { 0 }, out);
    put_length(contents.len(), out);
    out.put(contents);
}

/// Appends a primitive element of a tag of the class UNIVERSAL.
pub fn put_primitive(number: u64, contents: &[u8], out: &mut Text) {
    let tag = Tag {
        class: TagClass::Universal,
        number,
    };
    put_element(tag, false, contents, out);
}

// What is after the identifier of an element.
fn after_identifier(element: &[u8]) -> &[u8] {
    let [first, rest @ ..] = element else {
        return element;
    };
    if *first & 31 != 31 {
        return rest;
    }
    for (place, octet) in rest.iter().enumerate() {
        if *octet < 128 {
            return match rest.get(place.saturating_add(1)..) {
                Some(after) => after,
                None => b"",
            };
        }
    }
    b""
}

/// Appends an element with another tag.
pub fn put_retagged(tag: Tag, element: &[u8], out: &mut Text) {
    let form = match element.first() {
        Some(first) => *first & 32,
        None => 0,
    };
    put_identifier(tag, form, out);
    out.put(after_identifier(element));
}

// The octets of a number in two's complement, in nine of them.
fn wide_octets(alloc: Global, number: Integer) -> Text {
    let is_negative = number.is_negative && number.magnitude > 0;
    let (sign, word) = if is_negative {
        (255, !(number.magnitude - 1))
    } else {
        (0, number.magnitude)
    };
    let mut text = Text::new(alloc);
    text.put_octet(sign);
    for shift in [56u32, 48, 40, 32, 24, 16, 8, 0].as_slice() {
        text.put_octet((word.checked_shr(*shift).unwrap_or(0) & 255) as u8);
    }
    text
}

// Whether the first of two octets says nothing that the second one doesn't say.
fn is_spare(first: u8, second: u8) -> bool {
    match first {
        0 => second < 128,
        255 => second >= 128,
        _ => false,
    }
}

// The fewest octets of a number in two's complement (X.690, 8.3.2).
fn fewest(octets: &[u8]) -> &[u8] {
    for place in 0..octets.len() {
        let Some(rest) = octets.get(place..) else {
            return octets;
        };
        match rest {
            [first, second, ..] if is_spare(*first, *second) => {}
            _ => return rest,
        }
    }
    octets
}

/// Appends an INTEGER or an ENUMERATED by the number of its tag.
pub fn put_number(tag_number: u64, number: Integer, alloc: Global, out: &mut Text) {
    let wide = wide_octets(alloc, number);
    put_primitive(tag_number, fewest(wide.as_slice()), out);
}
