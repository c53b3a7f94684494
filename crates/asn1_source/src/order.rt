//! The order in which a source lists names.

use std::alloc::{AllocError, Global};

// Whether a text is before another one, octet by octet.
fn is_before(first: &[u8], second: &[u8]) -> bool {
    for (one, other) in first.iter().zip(second.iter()) {
        if *one != *other {
            return *one < *other;
        }
    }
    first.len() < second.len()
}

/// The places of keys in ascending order.
#[derive(Drop)]
pub struct Order<'k> {
    keys: Vec<&'k [u8]>,
    /// The places.
    pub places: Vec<usize>,
}

impl<'k> Order<'k> {
    /// No keys.
    pub fn new(alloc: Global) -> Order<'k> {
        Order {
            keys: Vec::new(alloc),
            places: Vec::new(alloc),
        }
    }

    // How many keys are before this one.
    fn rank(&self, key: &[u8]) -> usize {
        let mut rank = 0usize;
        for other in self.keys.iter() {
            if is_before(key, *other) {
                return rank;
            }
            rank = rank.saturating_add(1);
        }
        rank
    }

    /// Adds a key and its place.
    pub fn add(&mut self, key: &'k [u8], place: usize) -> Result<(), AllocError> {
        let rank = self.rank(key);
        if rank > self.keys.len() || rank > self.places.len() {
            return Ok(());
        }
        if self.keys.insert(rank, key).is_err() || self.places.insert(rank, place).is_err() {
            return Err(AllocError);
        }
        Ok(())
    }
}
