//! Octet strings and lists of any length, made by the call.
//!
//! | Call | ARG | Bytes |
//! |---|---|---|
//! | `whole` | N | N bytes in one primitive element |
//! | `cut` | N/K | the same in segments of K bytes, of definite length, in an element of indefinite length |
//! | `seqof_many` | N | N INTEGERs 0 to N - 1 in a SEQUENCE OF |
//!
//! The result is how many bytes were read, which are those that were put in, and how many the encoding has that is written of
//! them; of a list how many numbers were collected, and of how many bytes.

use crate::calls::{BYTES, NUMBERS};
use crate::leaf::Leaf;
use crate::parts::{Element, Frame, Group, Part};
use crate::reading::{encoding_of, parse};
use crate::text::Text;
use std::alloc::Global;
use yasna::{ASN1ErrorKind, ASN1Result, BERMode, construct_der};

/// Appends what a call of this family returns, and says whether there are such a call and argument.
pub fn append_outcome(mode: BERMode, call: &str, arg: &str, text: &mut Text) -> bool {
    let (count, size) = match arg.split_once('/') {
        Some((count, size)) => match size.parse() {
            Ok(size) => (count, Some(size)),
            Err(_) => return false,
        },
        None => (arg, None),
    };
    let Ok(count) = count.parse() else {
        return false;
    };
    match call {
        "seqof_many" => append_collected(mode, count, text),
        "whole" | "cut" => append_octets(mode, count, size, text),
        _ => return false,
    }
    true
}

// Appends two counts.
fn append_counts(read: usize, written: usize, text: &mut Text) {
    text.push("ok ");
    text.push_value(&read);
    text.push(" ");
    text.push_value(&written);
}

// Appends how many octets of so many are read in segments of so many, if they are these, and how many are written of them.
fn append_octets(mode: BERMode, count: usize, size: Option<usize>, text: &mut Text) {
    let Some(bytes) = counting(count, text) else {
        return;
    };
    let encoded = match size {
        Some(size) => cut(text.allocator(), &bytes, size),
        None => whole(text.allocator(), &bytes),
    };
    match encoded {
        Ok(encoded) => append_read(mode, &encoded, &bytes, text),
        Err(error) => text.reject(error.kind()),
    }
}

// Appends how many octets are read, if they are these, and how many are written of them.
fn append_read(mode: BERMode, encoded: &[u8], octets: &[u8], text: &mut Text) {
    let element = match parse(text.allocator(), mode, BYTES, encoded) {
        Ok(element) => element,
        Err(error) => return text.reject(error.kind()),
    };
    let written = match encoding_of(text.allocator(), mode, &element) {
        Ok(written) => written.len(),
        Err(error) => return text.reject(error.kind()),
    };
    match element.leaf() {
        Some(Leaf::Bytes(read)) if read.as_slice() == octets => {
            append_counts(octets.len(), written, text);
        }
        _ => append_counts(0, 0, text),
    }
}

// So many bytes, none like its neighbours; without memory for them, that is the result.
fn counting(count: usize, came: &mut Text) -> Option<Vec<u8>> {
    let Ok(mut bytes) = Vec::with_capacity(came.allocator(), count) else {
        came.reject(ASN1ErrorKind::OutOfMemory);
        return None;
    };
    let mut next = 0u8;
    for _ in 0..count {
        if bytes.push(next).is_err() {
            came.reject(ASN1ErrorKind::OutOfMemory);
            return None;
        }
        next = next.wrapping_add(7);
    }
    Some(bytes)
}

// The bytes as one element.
fn whole(alloc: Global, bytes: &[u8]) -> ASN1Result<Vec<u8>> {
    construct_der(alloc, |writer| writer.write_bytes(bytes))
}

// The bytes in segments of this size, of one byte at least; the last may be shorter.
fn cut(alloc: Global, bytes: &[u8], size: usize) -> ASN1Result<Vec<u8>> {
    let mut all = Vec::from_slice(alloc, &[36, 128])?;
    for segment in bytes.chunks(size.max(1)) {
        all.extend_from_slice(&whole(alloc, segment)?)?;
    }
    all.extend_from_slice(&[0, 0])?;
    Ok(all)
}

// Appends how many numbers are collected of so many that are written, and in how many bytes.
fn append_collected(mode: BERMode, count: usize, text: &mut Text) {
    let Some(numbers) = numbers(count, text) else {
        return;
    };
    let bytes = match encoding_of(text.allocator(), mode, &numbers) {
        Ok(bytes) => bytes,
        Err(error) => return text.reject(error.kind()),
    };
    match parse(text.allocator(), mode, NUMBERS, &bytes) {
        Ok(element) => append_counts(element.parts.len(), bytes.len(), text),
        Err(error) => text.reject(error.kind()),
    }
}

// The numbers below this one; without memory for them, that is the result.
fn numbers(count: usize, came: &mut Text) -> Option<Element> {
    let mut parts = Vec::new(came.allocator());
    for number in 0..i64::try_from(count).unwrap_or(0) {
        if parts
            .push(Part::new(Frame::Plain, Leaf::I64(number)))
            .is_err()
        {
            came.reject(ASN1ErrorKind::OutOfMemory);
            return None;
        }
    }
    Some(Element::new(Group::SequenceOf, parts))
}
