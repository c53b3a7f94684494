//! The lines that show ASN.1 bytes, one for each element.
//!
//! It is part of the program `asn1show`. `asn1_input` has the bytes of an input.
//!
//! | Module | Holds |
//! |---|---|
//! | `lines` | an input from its text to its lines |
#![tactic(auto)]

mod lines;

pub use asn1_input::InputFormat;
pub use asn1show_printer::{
    Conformance, Extent, Layout, Numbers, Output, Part, Schema, Selection, View,
};
pub use lines::show;
