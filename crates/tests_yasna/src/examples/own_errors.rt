//! Errors of one's own.

use std::alloc::Global;
use yasna::{ASN1Error, try_construct_der, try_parse_der};

#[derive(Drop)]
pub enum StoreError {
    NoSuchEntry,
    Encoding(ASN1Error),
}

impl From<ASN1Error> for StoreError {
    fn from(error: ASN1Error) -> StoreError {
        StoreError::Encoding(error)
    }
}

pub fn entries_to_der(
    alloc: Global,
    store: &[i64],
    places: &[usize],
) -> Result<Vec<u8>, StoreError> {
    try_construct_der(alloc, |writer| {
        writer.write_sequence_of(|items| {
            for place in places {
                let Some(entry) = store.get(*place) else {
                    return Err(StoreError::NoSuchEntry);
                };
                items.next().write_i64(*entry)?;
            }
            Ok(())
        })
    })
}

pub fn entry_of_der(alloc: Global, store: &[i64], bytes: &[u8]) -> Result<i64, StoreError> {
    try_parse_der(alloc, bytes, |reader| {
        let place = reader.read_u16()?;
        store
            .get(usize::from(place))
            .copied()
            .ok_or(StoreError::NoSuchEntry)
    })
}
