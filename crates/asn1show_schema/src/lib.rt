//! Types of modules as tables, and which part of a type each element of a listing is.
//!
//! It is part of `asn1show`, whose lines have the names of parts if a module is given.
//!
//! | Module | Holds |
//! |---|---|
//! | `schema` | the tables |
//! | `matching` | the part of a type that an element may be |
//! | `values` | whether values are as their types say |
//! | `fields` | the elements that are open, and what the next one is |
#![tactic(auto)]

mod fields;
mod matching;
pub mod schema;
mod values;

pub use fields::{Fields, Label};
pub use matching::{Match, match_in, rest_of};
pub use schema::Schema;
pub use values::{ValueError, error_of, has_number, has_size, name_of, number_of};
