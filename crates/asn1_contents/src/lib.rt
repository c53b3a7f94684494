//! The contents of primitive elements, by their universal type, and the contents in DER of the same values.
//!
//! | Module | Holds |
//! |---|---|
//! | `contents_type` | the types whose contents are validated, by their tags |
//! | `plain` | the contents that BER and DER have in common |
//! | `der_contents` | contents in BER turned into those in DER |
//! | `laws` | what is proved of these contents, of which no program is part |
#![tactic(auto)]

pub mod contents_type;
pub mod der_contents;
pub mod laws;
pub mod plain;
