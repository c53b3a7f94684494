//! The tables of `asn1show_schema` for the types of modules.
//!
//! | Module | Holds |
//! |---|---|
//! | `own_tags` | the tags of types that have one by themselves |
//! | `builder` | tables that are being filled |
//! | `sizes` | numbers, bounds and sizes |
//! | `defaults` | the values of parts that may be absent |
//! | `notations` | types as they are used in another one |
//! | `bodies` | types that are declared |
//! | `selections` | the types that object identifiers select |
//! | `schema` | all types of modules |
#![tactic(auto)]

mod bodies;
mod builder;
mod defaults;
mod notations;
mod own_tags;
mod schema;
mod selections;
mod sizes;

pub use schema::{position_of, position_of_reference, schema_of};
