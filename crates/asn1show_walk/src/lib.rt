//! The elements of ASN.1 bytes, one after the other, each reported to a visitor (X.690, 8.1).
//!
//! It is part of `asn1show`: `asn1show_printer` prints the elements.
//!
//! | Module | Holds |
//! |---|---|
//! | `listing` | the walk over the elements |
//! | `error` | the errors of a run |
//!
//! Their public items are those of the crate: `asn1show_walk::list_input`.
#![tactic(auto)]

mod error;
mod listing;

pub use error::{Expected, WalkError};
pub use listing::{Context, Item, Place, Visitor, is_one_element, list_element, list_input};
