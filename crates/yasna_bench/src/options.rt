//! Calls that read ten optional parts, each with its own tag.
use crate::{mixed, number_of};
use std::alloc::Global;
use yasna::{ASN1Result, BERReaderSeq, Tag, parse_der};

/// The checksum of ten numbers with explicit tags, by ten calls one after the other.
#[unsafe(no_mangle)]
pub extern "C" fn yasna_ten_explicit(alloc: Global, bytes: &[u8]) -> u64 {
    number_of(parse_der(alloc, bytes, |reader| {
        reader.read_sequence(|parts| {
            let first = first_explicit(parts)?;
            let second = last_explicit(parts)?;
            Ok(mixed(first, second.cast_signed()))
        })
    }))
}

// The checksum of the first five numbers with explicit tags.
#[inline(always)]
fn first_explicit(parts: &mut BERReaderSeq) -> ASN1Result<u64> {
    let mut checksum = mixed(0, explicit(parts, 0)?);
    checksum = mixed(checksum, explicit(parts, 1)?);
    checksum = mixed(checksum, explicit(parts, 2)?);
    checksum = mixed(checksum, explicit(parts, 3)?);
    Ok(mixed(checksum, explicit(parts, 4)?))
}

// The checksum of the last five numbers with explicit tags.
#[inline(always)]
fn last_explicit(parts: &mut BERReaderSeq) -> ASN1Result<u64> {
    let mut checksum = mixed(0, explicit(parts, 5)?);
    checksum = mixed(checksum, explicit(parts, 6)?);
    checksum = mixed(checksum, explicit(parts, 7)?);
    checksum = mixed(checksum, explicit(parts, 8)?);
    Ok(mixed(checksum, explicit(parts, 9)?))
}

/// As `yasna_ten_explicit`, with implicit tags.
#[unsafe(no_mangle)]
pub extern "C" fn yasna_ten_implicit(alloc: Global, bytes: &[u8]) -> u64 {
    number_of(parse_der(alloc, bytes, |reader| {
        reader.read_sequence(|parts| {
            let first = first_implicit(parts)?;
            let second = last_implicit(parts)?;
            Ok(mixed(first, second.cast_signed()))
        })
    }))
}

// The checksum of the first five numbers with implicit tags.
#[inline(always)]
fn first_implicit(parts: &mut BERReaderSeq) -> ASN1Result<u64> {
    let mut checksum = mixed(0, implicit(parts, 0)?);
    checksum = mixed(checksum, implicit(parts, 1)?);
    checksum = mixed(checksum, implicit(parts, 2)?);
    checksum = mixed(checksum, implicit(parts, 3)?);
    Ok(mixed(checksum, implicit(parts, 4)?))
}

// The checksum of the last five numbers with implicit tags.
#[inline(always)]
fn last_implicit(parts: &mut BERReaderSeq) -> ASN1Result<u64> {
    let mut checksum = mixed(0, implicit(parts, 5)?);
    checksum = mixed(checksum, implicit(parts, 6)?);
    checksum = mixed(checksum, implicit(parts, 7)?);
    checksum = mixed(checksum, implicit(parts, 8)?);
    Ok(mixed(checksum, implicit(parts, 9)?))
}

/// The checksum of ten numbers with explicit tags, by one call in a loop.
#[unsafe(no_mangle)]
pub extern "C" fn yasna_ten_explicit_looped(alloc: Global, bytes: &[u8]) -> u64 {
    number_of(parse_der(alloc, bytes, |reader| reader.read_sequence(explicit_looped)))
}

// All ten. The callback is this loop's own.
fn explicit_looped(parts: &mut BERReaderSeq) -> ASN1Result<u64> {
    let mut checksum = 0;
    for tag in 0..10 {
        let part = parts.read_optional(|part| part.read_tagged(
            Tag::context(tag),
            |number| number.read_i64(),
        ))?;
        checksum = mixed(checksum, part.unwrap_or(0));
    }
    Ok(checksum)
}

/// As `yasna_ten_explicit_looped`, with implicit tags.
#[unsafe(no_mangle)]
pub extern "C" fn yasna_ten_implicit_looped(alloc: Global, bytes: &[u8]) -> u64 {
    number_of(parse_der(alloc, bytes, |reader| reader.read_sequence(implicit_looped)))
}

// All ten. The callback is this loop's own.
fn implicit_looped(parts: &mut BERReaderSeq) -> ASN1Result<u64> {
    let mut checksum = 0;
    for tag in 0..10 {
        let part = parts.read_optional(|part| part.read_tagged_implicit(
            Tag::context(tag),
            |number| number.read_i64(),
        ))?;
        checksum = mixed(checksum, part.unwrap_or(0));
    }
    Ok(checksum)
}

// The number with this explicit tag, or 0 where it is omitted.
#[inline(always)]
fn explicit(parts: &mut BERReaderSeq, tag: u64) -> ASN1Result<i64> {
    let part = parts.read_optional(|part| part.read_tagged(
        Tag::context(tag),
        |number| number.read_i64(),
    ))?;
    Ok(part.unwrap_or(0))
}

// The number with this implicit tag, or 0 where it is omitted.
#[inline(always)]
fn implicit(parts: &mut BERReaderSeq, tag: u64) -> ASN1Result<i64> {
    let part = parts.read_optional(|part| part.read_tagged_implicit(
        Tag::context(tag),
        |number| number.read_i64(),
    ))?;
    Ok(part.unwrap_or(0))
}
