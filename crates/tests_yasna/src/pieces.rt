//! Rows of bytes: what is written of what was read from them, or how they are rejected.

use crate::checks::{bytes_of, gives, rejects};
use std::alloc::Global;
use yasna::{ASN1Error, ASN1ErrorKind, ASN1Result, BERMode};

/// The end of a row.
#[derive(Clone, Copy)]
pub enum Outcome {
    /// The bytes that were read are written.
    Same,
    /// These are written.
    Written(&'static str),
    /// The bytes are rejected, or what was read from them.
    Rejected(ASN1ErrorKind),
}

/// A row: its name, what reads it and writes it, by which rules, the bytes and the outcome.
pub type Row<P> = (&'static str, P, BERMode, &'static str, Outcome);

/// Code that reads a value, and writes what it read.
pub trait Piece: Copy {
    /// What is written of what was read from these bytes. Where another value was read, an error that no row wants.
    fn rewritten(self, alloc: Global, mode: BERMode, bytes: &[u8]) -> ASN1Result<Vec<u8>>;
}

/// An error that no row wants, unless this is so of the value that was read.
pub fn expected(is_so: bool) -> ASN1Result<()> {
    if is_so {
        Ok(())
    } else {
        Err(ASN1Error::new(ASN1ErrorKind::OutOfMemory))
    }
}

/// The bytes again, if this is so of what was read from them.
pub fn bytes_if(alloc: Global, is_so: bool, bytes: &[u8]) -> ASN1Result<Vec<u8>> {
    expected(is_so)?;
    Ok(Vec::from_slice(alloc, bytes)?)
}

/// The bytes again, if they were read as these items.
pub fn bytes_of_items<T: PartialEq + Drop>(
    alloc: Global,
    read: ASN1Result<Vec<T>>,
    items: &[T],
    bytes: &[u8],
) -> ASN1Result<Vec<u8>> {
    let found = read?;
    bytes_if(alloc, found.as_slice() == items, bytes)
}

fn is_row<P: Piece>(alloc: Global, row: &Row<P>) -> bool {
    let Ok(bytes) = bytes_of(alloc, row.3) else {
        return false;
    };
    let outcome = row.1.rewritten(alloc, row.2, &bytes);
    match row.4 {
        Outcome::Same => gives(outcome, &bytes),
        Outcome::Written(text) => match bytes_of(alloc, text) {
            Ok(written) => gives(outcome, &written),
            Err(_) => false,
        },
        Outcome::Rejected(kind) => rejects(outcome, kind),
    }
}

/// The name of the first row that has another outcome.
pub fn first_other<P: Piece>(alloc: Global, rows: &[Row<P>]) -> Option<&'static str> {
    for row in rows {
        if !is_row(alloc, row) {
            return Some(row.0);
        }
    }
    None
}
