//! Calls that read and write octet strings and texts.

use crate::reading::{mode, of_parts};
use crate::writing::of_written;
use crate::{length, mixed, number_of};
use simdutf8::basic::from_utf8;
use std::alloc::Global;
use yasna::{
    ASN1Result, BERReaderSeq, DERWriterSeq, construct_cer, construct_der, parse_ber_general,
    parse_cer, parse_der,
};

/// The length of an octet string that is read.
#[unsafe(no_mangle)]
pub extern "C" fn yasna_read_bytes(alloc: Global, bytes: &[u8], der: bool) -> u64 {
    length(parse_ber_general(alloc, bytes, mode(der), |reader| reader.read_bytes()))
}

/// The length of an octet string that is read in CER.
#[unsafe(no_mangle)]
pub extern "C" fn yasna_read_bytes_cer(alloc: Global, bytes: &[u8]) -> u64 {
    length(parse_cer(alloc, bytes, |reader| reader.read_bytes()))
}

/// The length of an octet string that is written.
#[unsafe(no_mangle)]
pub extern "C" fn yasna_write_bytes(alloc: Global, contents: &[u8]) -> u64 {
    length(construct_der(alloc, |writer| writer.write_bytes(contents)))
}

/// The length of an octet string that is written in CER.
#[unsafe(no_mangle)]
pub extern "C" fn yasna_write_bytes_cer(alloc: Global, contents: &[u8]) -> u64 {
    length(construct_cer(alloc, |writer| writer.write_bytes(contents)))
}

/// The checksum of the lengths of `count` UTF8Strings in a SEQUENCE.
#[unsafe(no_mangle)]
pub extern "C" fn yasna_read_texts(alloc: Global, bytes: &[u8], count: usize, der: bool) -> u64 {
    of_parts(alloc, bytes, count, der, texts)
}

// The checksum of the lengths of `count` texts.
fn texts(seq: &mut BERReaderSeq, count: usize) -> ASN1Result<u64> {
    let mut checksum = 0;
    for _ in 0..count {
        let text = seq.next().read_utf8string()?;
        checksum = mixed(checksum, (text.len() as u64).cast_signed());
    }
    Ok(checksum)
}

/// The length of a SEQUENCE of `count` times this text. A text that isn't UTF-8 is rejected.
#[unsafe(no_mangle)]
pub extern "C" fn yasna_write_texts(alloc: Global, text: &[u8], count: usize) -> u64 {
    let Ok(text) = from_utf8(text) else {
        return crate::REJECTED;
    };
    of_written(alloc, text, count, write_texts)
}

// Writes a text `count` times.
fn write_texts(seq: &mut DERWriterSeq, text: &str, count: usize) -> ASN1Result<()> {
    for _ in 0..count {
        seq.next().write_utf8string(text)?;
    }
    Ok(())
}

/// The length of a UTF8String that is read.
#[unsafe(no_mangle)]
pub extern "C" fn yasna_read_text(alloc: Global, bytes: &[u8]) -> u64 {
    text_length(parse_der(alloc, bytes, |reader| reader.read_utf8string()))
}

/// The length in UTF-8 of a BMPString that is read.
#[unsafe(no_mangle)]
pub extern "C" fn yasna_read_bmp(alloc: Global, bytes: &[u8]) -> u64 {
    text_length(parse_der(alloc, bytes, |reader| reader.read_bmp_string()))
}

// The length of the text that a call read.
fn text_length(read: ASN1Result<String>) -> u64 {
    number_of(read.map(|text| text.len() as u64))
}

/// The length of this text as a BMPString. A text that isn't UTF-8 is rejected.
#[unsafe(no_mangle)]
pub extern "C" fn yasna_write_bmp(alloc: Global, text: &[u8]) -> u64 {
    let Ok(text) = from_utf8(text) else {
        return crate::REJECTED;
    };
    length(construct_der(alloc, |writer| writer.write_bmp_string(text)))
}
