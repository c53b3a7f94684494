//! What the program `yasna_tool` does between its ends: it decodes a value of a type, and writes its DER encoding.
//!
//! | Module | Holds |
//! |---|---|
//! | `ends` | the source and the sink of bytes, with a count of failures |
//! | `engine` | read to the end, decode, encode, write |
//! | `value_type` | the types of values that the program knows |
//! | `tool` | the arguments, the texts of errors and the exit statuses |
#![tactic(auto)]

pub mod ends;
pub mod engine;
pub mod tool;
pub mod value_type;
