//! The usual names of object identifiers.
//!
//! It is part of `asn1show`: `asn1show_printer` prints them.
//!
//! | Module | Holds |
//! |---|---|
//! | `table` | the object identifiers and their names |
//! | `names` | the search of a name |
#![tactic(auto)]

mod names;
mod table;

pub use names::Names;
