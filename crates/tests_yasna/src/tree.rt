//! Trees, and elements of the greatest depth, by a type that refers to itself and by functions that call themselves.

use crate::checks::{bytes_of, holds, results, spelled};
use examples_proved::Tree;
use std::alloc::Global;
use yasna::ASN1ErrorKind::{Extra, StackOverflow};
use yasna::BERMode::{Ber, Cer, Der};
use yasna::{
    ASN1ErrorKind, ASN1Result, BERMode, BERReaderSeq, DERWriterSeq, construct_der_seq,
    decode_ber_general, parse_ber_general,
};

// Writes so many SEQUENCEs, one in the other.
fn write_nested(seq: &mut DERWriterSeq, depth: u8) -> ASN1Result<()> {
    match depth.checked_sub(1) {
        None => Ok(()),
        Some(below) => seq
            .next()
            .write_sequence(|inner| write_nested(inner, below)),
    }
}

// Reads so many SEQUENCEs, one in the other.
fn read_nested(seq: &mut BERReaderSeq, depth: u8) -> ASN1Result<()> {
    match depth.checked_sub(1) {
        None => Ok(()),
        Some(below) => seq.next().read_sequence(|inner| read_nested(inner, below)),
    }
}

// So many SEQUENCEs one in the other, of definite length as they are written, or of indefinite length.
fn nested(alloc: Global, is_definite: bool, depth: u8) -> ASN1Result<Vec<u8>> {
    if is_definite {
        return construct_der_seq(alloc, |seq| write_nested(seq, depth));
    }
    let text = spelled(alloc, ["", "3080", "", "0000"], usize::from(depth))?;
    bytes_of(alloc, &text)
}

// A name, the mode, whether lengths are definite, how many SEQUENCEs there are, and the rejection if there is one.
static DEPTHS: [(&str, BERMode, bool, u8, Option<ASN1ErrorKind>); 8] = [
    ("101 of definite length in DER", Der, true, 101, None),
    ("101 of definite length in BER", Ber, true, 101, None),
    ("101 of indefinite length in BER", Ber, false, 101, None),
    ("101 of indefinite length in CER", Cer, false, 101, None),
    (
        "102 of definite length in DER",
        Der,
        true,
        102,
        Some(StackOverflow),
    ),
    (
        "102 of definite length in BER",
        Ber,
        true,
        102,
        Some(StackOverflow),
    ),
    (
        "102 of indefinite length in BER",
        Ber,
        false,
        102,
        Some(StackOverflow),
    ),
    (
        "102 of indefinite length in CER",
        Cer,
        false,
        102,
        Some(StackOverflow),
    ),
];

// Whether the type returns so, and the function too.
fn is_read(
    alloc: Global,
    mode: BERMode,
    is_definite: bool,
    depth: u8,
    rejection: Option<ASN1ErrorKind>,
) -> ASN1Result<bool> {
    let bytes = nested(alloc, is_definite, depth)?;
    let tree = match decode_ber_general::<Tree>(alloc, &bytes, mode) {
        Ok(_) => Ok(true),
        Err(error) => Err(error),
    };
    let read = parse_ber_general(alloc, &bytes, mode, |reader| {
        reader.read_sequence(|seq| read_nested(seq, depth.saturating_sub(1)))?;
        Ok(true)
    });
    Ok(results(tree, rejection) && results(read, rejection))
}

// Whether a tree has two branches, of which the second has one.
fn has_branches(alloc: Global, mode: BERMode, text: &str) -> ASN1Result<bool> {
    let bytes = bytes_of(alloc, text)?;
    let tree = decode_ber_general::<Tree>(alloc, &bytes, mode)?;
    Ok(match tree.branches.as_slice() {
        [first, second] => first.branches.is_empty() && second.branches.len() == 1,
        _ => false,
    })
}

// Also the deepest ones, and one more.
#[test]
fn trees_reach_101_levels(rt: HostRuntime) {
    for row in &DEPTHS {
        holds(&rt, row.0, is_read(rt.alloc(), row.1, row.2, row.3, row.4));
    }
    let branches = has_branches(rt.alloc(), Ber, "30803000300230000000");
    holds(&rt, "a tree has its branches", branches);
    let is_rejected = results(has_branches(rt.alloc(), Der, "300430020500"), Some(Extra));
    holds(&rt, "a NULL is no branch", Ok(is_rejected));
}
