//! A visitor that writes elements as JSON (RFC 8259).
//!
//! It is part of `asn1show`: `asn1show_lines` hands it the elements of an input. Strings are escaped by the crate `json`.
//!
//! | Module | Holds |
//! |---|---|
//! | `element` | the JSON of an element, up to the elements in it |
//! | `open_elements` | the elements that are open |
//! | `printer` | the visitor |
#![tactic(auto)]

mod element;
mod open_elements;
mod printer;

pub use open_elements::OpenElements;
pub use printer::JsonPrinter;
