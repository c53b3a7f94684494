//! Contents of any length. ARG is the length.
//!
//! | Call | Written |
//! |---|---|
//! | `w:seqbigint` | a SEQUENCE of an INTEGER of bytes 01, which is read back |
//! | `w:seqlen` | a SEQUENCE of an octet string of bytes 5b |
//! | `w:seqseqlen` | a SEQUENCE of such a SEQUENCE |
//!
//! The answer shows how many bytes were written and the first 16 of these.

use crate::calls::BIG_NUMBER;
use crate::leaf::Leaf;
use crate::parts::{Around, Element, Group, Part};
use crate::reading::{encoding_of, parse};
use crate::text::Text;
use std::alloc::{AllocError, Global};
use yasna::BERMode;

/// What the call of this name writes, if the argument is a length: a value of so many bytes in a SEQUENCE or two. Without memory for it,
/// that is noted in a result.
pub fn element(name: &str, arg: &str, came: &mut Text) -> Option<Element> {
    let Ok(count) = arg.parse() else {
        return None;
    };
    let Ok(leaf) = leaf(came.allocator(), name, count) else {
        came.out_of_memory = true;
        return None;
    };
    match Element::alone(leaf, came) {
        Some(element) => Some(Element {
            around: match name {
                "seqseqlen" => Around::Sequence,
                _ => Around::Nothing,
            },
            group: Group::Sequence,
            parts: element.parts,
        }),
        None => None,
    }
}

// A value of so many bytes.
fn leaf(alloc: Global, name: &str, count: usize) -> Result<Leaf, AllocError> {
    match name {
        "seqbigint" => Ok(Leaf::BigInteger(vec![in alloc; 1u8; count]?, true)),
        _ => Ok(Leaf::Bytes(vec![in alloc; 91u8; count]?)),
    }
}

/// Appends how many bytes are written of an element, and the first 16, if a number is read back as it.
pub fn append_written(name: &str, element: &Element, text: &mut Text) {
    match encoding_of(text.allocator(), BERMode::Der, element) {
        Ok(encoding) if name == "seqbigint" => read_back(&encoding, element, text),
        Ok(encoding) => append_prefix(&encoding, text),
        Err(error) => text.reject(error.kind()),
    }
}

// Appends how many bytes there are, and the first 16.
fn append_prefix(encoding: &[u8], text: &mut Text) {
    text.push("ok ");
    text.push_value(&encoding.len());
    text.push(" ");
    text.push_bytes(encoding.get(..16).unwrap_or(encoding));
}

// Appends how many bytes there are, and the first 16, if they end in the number and are read as it.
fn read_back(encoding: &[u8], written: &Element, text: &mut Text) {
    match parse(text.allocator(), BERMode::Der, BIG_NUMBER, encoding) {
        Ok(read) if is_end_of(encoding, &read.parts, &written.parts) => {
            append_prefix(encoding, text);
        }
        Ok(_) => text.push("read back as another number"),
        Err(error) => text.reject(error.kind()),
    }
}

// Whether both are one number that isn't negative, and end the encoding.
fn is_end_of(encoding: &[u8], read: &[Part], written: &[Part]) -> bool {
    match (read, written) {
        (
            [
                Part {
                    leaf: Leaf::BigInteger(read, true),
                    ..
                },
            ],
            [
                Part {
                    leaf: Leaf::BigInteger(number, true),
                    ..
                },
            ],
        ) => read.as_slice() == number.as_slice() && encoding.ends_with(number.as_slice()),
        _ => false,
    }
}
