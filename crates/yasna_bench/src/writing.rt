//! Calls that write.

use crate::{length, number_of};
use std::alloc::Global;
use yasna::{
    ASN1Result, DERExact, DERWriter, DERWriterSeq, construct_cer, construct_der, decode_der,
    encode_der, one_der_encoding,
};

/// The length of a SEQUENCE of the parts that `write` writes, given a value and a count.
#[inline(always)]
pub(crate) fn of_written<T: Copy, F>(alloc: Global, value: T, count: usize, write: F) -> u64
where
    F: FnOnce(&mut DERWriterSeq, T, usize) -> ASN1Result<()>,
    requires { F.IsAlwaysCallable write }
{
    length(construct_der(
        alloc,
        |writer| writer.write_sequence(|seq| write(seq, value, count)),
    ))
}

/// The length of a pair, encoded as a whole.
#[unsafe(no_mangle)]
pub extern "C" fn yasna_encode_pair(alloc: Global, number: i64, flag: bool) -> u64 {
    length(encode_der(alloc, &(number, flag)))
}

/// The lengths of a SEQUENCE OF pairs that is read once and written so many times as a value, in sum. They are of two numbers, so that no
/// code is shared with the call that decodes a pair.
#[unsafe(no_mangle)]
pub extern "C" fn yasna_write_pair_values(alloc: Global, bytes: &[u8], times: u64) -> u64 {
    number_of(written::<Vec<(u64, u16)>>(alloc, bytes, times))
}

// The lengths of a value that is read once and written so many times, in sum.
pub(crate) fn written<T: DERExact>(alloc: Global, bytes: &[u8], times: u64) -> ASN1Result<u64> {
    one_der_encoding::<T>();
    let value: T = decode_der(alloc, bytes)?;
    let mut total: u64 = 0;
    for _ in 0..times {
        let encoding = encode_der(alloc, &value)?;
        total = total.wrapping_add(encoding.len() as u64);
    }
    Ok(total)
}

/// The length of a SEQUENCE of these numbers.
#[unsafe(no_mangle)]
pub extern "C" fn yasna_write_integers(alloc: Global, numbers: &[i64]) -> u64 {
    length(construct_der(
        alloc,
        |writer| writer.write_sequence(|seq| integers(seq, numbers)),
    ))
}

// Writes each of these numbers.
fn integers(seq: &mut DERWriterSeq, numbers: &[i64]) -> ASN1Result<()> {
    for number in numbers {
        seq.next().write_i64(*number)?;
    }
    Ok(())
}

/// The length of `count` pairs in a SEQUENCE, within `depth` more SEQUENCEs.
#[unsafe(no_mangle)]
pub extern "C" fn yasna_write_pairs(alloc: Global, count: u32, depth: usize) -> u64 {
    of_written(alloc, count, depth, pairs_within)
}

/// The length of `count` pairs in a SEQUENCE, in CER.
#[unsafe(no_mangle)]
pub extern "C" fn yasna_write_pairs_cer(alloc: Global, count: u32) -> u64 {
    length(construct_cer(
        alloc,
        |writer| writer.write_sequence(|seq| pairs(seq, count)),
    ))
}

// Writes `depth` sequences, one in the other, around `count` pairs.
fn pairs_within(seq: &mut DERWriterSeq, count: u32, depth: usize) -> ASN1Result<()> {
    match depth.checked_sub(1) {
        None => pairs(seq, count),
        Some(below) => seq
            .next()
            .write_sequence(|inner| pairs_within(inner, count, below)),
    }
}

// Writes the pairs of the numbers up to this one, and whether each is even.
fn pairs(seq: &mut DERWriterSeq, count: u32) -> ASN1Result<()> {
    for number in 0..count {
        seq.next().write_sequence(|parts| {
            parts.next().write_i64(i64::from(number))?;
            parts.next().write_bool(number % 2 == 0)
        })?;
    }
    Ok(())
}

/// The length of an INTEGER with these contents in `depth` SEQUENCEs, one in the other.
#[unsafe(no_mangle)]
pub extern "C" fn yasna_write_nested(alloc: Global, contents: &[u8], depth: usize) -> u64 {
    length(construct_der(alloc, |writer| nested(writer, contents, depth)))
}

// Writes `depth` sequences around a number, one in the other.
fn nested(writer: DERWriter<'_>, contents: &[u8], depth: usize) -> ASN1Result<()> {
    match depth.checked_sub(1) {
        None => writer.write_bigint_bytes(contents, true),
        Some(below) => writer.write_sequence(|seq| nested_within(seq, contents, below)),
    }
}

// Writes `depth` sequences around a number, in the contents of another sequence.
fn nested_within(seq: &mut DERWriterSeq, contents: &[u8], depth: usize) -> ASN1Result<()> {
    match depth.checked_sub(1) {
        None => seq.next().write_bigint_bytes(contents, true),
        Some(below) => seq
            .next()
            .write_sequence(|inner| nested_within(inner, contents, below)),
    }
}
