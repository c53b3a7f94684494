//! What ASN.1's basic encoding rules (X.690) mean: tags, modes and errors as Rust types,
//! and in `specs/` the grammar that the contracts of all crates above cite.
//!
//! | Module | Holds |
//! |---|---|
//! | `bytes` | numbers in base 128 and identifiers at the start of bytes, and how encodings compare |
//! | `error` | errors of reading and writing |
//! | `laws` | what is proved of the grammar itself |
//! | `mode` | the encoding rules: BER, DER and CER |
//! | `models` | values of ASN.1 that Rust has no type for: object identifiers and raw elements |
//! | `tag` | identifiers: class, number, and whether the contents are constructed |
//! | `tags` | the universal tags, by name |
//! | `text` | the characters of each class of text |
#![tactic(auto)]

pub mod bytes;
pub mod error;
pub mod laws;
pub mod mode;
pub mod models;
pub mod tag;
pub mod tags;
pub mod text;

pub use error::{ASN1Error, ASN1ErrorKind, ASN1Result};
pub use mode::BERMode;
pub use tag::{PCBit, Tag, TagClass};
pub use text::{is_numeric_text, is_printable_text, is_visible_text};
