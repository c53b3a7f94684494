//! Elements at the start of bytes (X.690, 8.1): what all reads of `yasna_reader` share, over bytes only.
//!
//! It is part of that crate. A user calls the reads of `yasna`.
#![tactic(auto)]

#[doc(hidden)]
pub mod bytes;
