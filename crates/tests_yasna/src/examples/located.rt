//! Where a parse failed.

use std::alloc::Global;
use yasna::{Located, parse_der_located};

pub fn table_located(alloc: Global, bytes: &[u8]) -> Result<Vec<Vec<i64>>, Located> {
    parse_der_located(alloc, bytes, |reader| {
        reader.collect_sequence_of(|row| row.collect_sequence_of(|cell| cell.read_i64()))
    })
}
