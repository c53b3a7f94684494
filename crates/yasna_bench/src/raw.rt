//! Calls that read raw elements.

use crate::mixed;
use crate::reading::of_parts;
use std::alloc::Global;
use yasna::{ASN1Result, BERReaderSeq};

/// The checksum of the lengths of `count` raw elements in a SEQUENCE, each copied as a whole.
#[unsafe(no_mangle)]
pub extern "C" fn yasna_read_raw(alloc: Global, bytes: &[u8], count: usize, der: bool) -> u64 {
    of_parts(alloc, bytes, count, der, elements)
}

// The checksum of the lengths of `count` elements.
fn elements(seq: &mut BERReaderSeq, count: usize) -> ASN1Result<u64> {
    let mut checksum = 0;
    for _ in 0..count {
        let element = seq.next().read_der()?;
        checksum = mixed(checksum, (element.len() as u64).cast_signed());
    }
    Ok(checksum)
}
