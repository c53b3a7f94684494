//! Calls that parse, print, read and write both times.

use crate::reading::of_parts;
use crate::writing::of_written;
use crate::{REJECTED, mixed};
use std::alloc::Global;
use yasna::models::{GeneralizedTime, UTCTime};
use yasna::{ASN1Result, BERReaderSeq, DERWriterSeq};

// What a time adds to a checksum.
fn second_in(checksum: u64, second: i8) -> u64 {
    mixed(checksum, second as i64)
}

// What a text adds to a checksum.
fn length_in(checksum: u64, text: &[u8]) -> u64 {
    mixed(checksum, (text.len() as u64).cast_signed())
}

/// The checksum of the seconds of UTCTimes, whose texts of 13 bytes are one after the other.
#[unsafe(no_mangle)]
pub extern "C" fn yasna_parse_utc_times(texts: &[u8]) -> u64 {
    let mut checksum = 0;
    for text in texts.chunks(13) {
        let Some(time) = UTCTime::parse(text) else {
            return REJECTED;
        };
        checksum = second_in(checksum, time.datetime().second());
    }
    checksum
}

/// The checksum of the seconds of GeneralizedTimes, whose texts of 19 bytes are one after the other.
#[unsafe(no_mangle)]
pub extern "C" fn yasna_parse_generalized_times(alloc: Global, texts: &[u8]) -> u64 {
    let mut checksum = 0;
    for text in texts.chunks(19) {
        let Ok(Some(time)) = GeneralizedTime::parse(alloc, text) else {
            return REJECTED;
        };
        checksum = second_in(checksum, time.datetime().second());
    }
    checksum
}

/// The checksum of the lengths of a UTCTime's text, printed `count` times.
#[unsafe(no_mangle)]
pub extern "C" fn yasna_print_utc_times(alloc: Global, text: &[u8], count: usize) -> u64 {
    let Some(time) = UTCTime::parse(text) else {
        return REJECTED;
    };
    let mut checksum = 0;
    for _ in 0..count {
        let Ok(text) = time.to_bytes(alloc) else {
            return REJECTED;
        };
        checksum = length_in(checksum, text.as_slice());
    }
    checksum
}

/// The checksum of the lengths of a GeneralizedTime's text, printed `count` times.
#[unsafe(no_mangle)]
pub extern "C" fn yasna_print_generalized_times(alloc: Global, text: &[u8], count: usize) -> u64 {
    let Ok(Some(time)) = GeneralizedTime::parse(alloc, text) else {
        return REJECTED;
    };
    let mut checksum = 0;
    for _ in 0..count {
        let Ok(text) = time.to_bytes(alloc) else {
            return REJECTED;
        };
        checksum = length_in(checksum, text.as_slice());
    }
    checksum
}

/// The checksum of the seconds of `count` UTCTimes in a SEQUENCE.
#[unsafe(no_mangle)]
pub extern "C" fn yasna_read_utc_times(
    alloc: Global,
    bytes: &[u8],
    count: usize,
    der: bool,
) -> u64 {
    of_parts(alloc, bytes, count, der, utc_times)
}

// The checksum of `count` UTCTimes.
fn utc_times(seq: &mut BERReaderSeq, count: usize) -> ASN1Result<u64> {
    let mut checksum = 0;
    for _ in 0..count {
        let time = seq.next().read_utctime()?;
        checksum = second_in(checksum, time.datetime().second());
    }
    Ok(checksum)
}

/// The checksum of the seconds of `count` GeneralizedTimes in a SEQUENCE.
#[unsafe(no_mangle)]
pub extern "C" fn yasna_read_generalized_times(
    alloc: Global,
    bytes: &[u8],
    count: usize,
    der: bool,
) -> u64 {
    of_parts(alloc, bytes, count, der, generalized_times)
}

// The checksum of `count` GeneralizedTimes.
fn generalized_times(seq: &mut BERReaderSeq, count: usize) -> ASN1Result<u64> {
    let mut checksum = 0;
    for _ in 0..count {
        let time = seq.next().read_generalized_time()?;
        checksum = second_in(checksum, time.datetime().second());
    }
    Ok(checksum)
}

/// The length of a SEQUENCE of `count` times the UTCTime of this text.
#[unsafe(no_mangle)]
pub extern "C" fn yasna_write_utc_times(alloc: Global, text: &[u8], count: usize) -> u64 {
    let Some(time) = UTCTime::parse(text) else {
        return REJECTED;
    };
    of_written(alloc, &time, count, write_utc_times)
}

// Writes a UTCTime `count` times.
fn write_utc_times(seq: &mut DERWriterSeq, time: &UTCTime, count: usize) -> ASN1Result<()> {
    for _ in 0..count {
        seq.next().write_utctime(time)?;
    }
    Ok(())
}

/// The length of a SEQUENCE of `count` times the GeneralizedTime of this text.
#[unsafe(no_mangle)]
pub extern "C" fn yasna_write_generalized_times(alloc: Global, text: &[u8], count: usize) -> u64 {
    let Ok(Some(time)) = GeneralizedTime::parse(alloc, text) else {
        return REJECTED;
    };
    of_written(alloc, &time, count, write_generalized_times)
}

// Writes a GeneralizedTime `count` times.
fn write_generalized_times(
    seq: &mut DERWriterSeq,
    time: &GeneralizedTime,
    count: usize,
) -> ASN1Result<()> {
    for _ in 0..count {
        seq.next().write_generalized_time(time)?;
    }
    Ok(())
}
