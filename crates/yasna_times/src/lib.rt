//! The times of ASN.1, UTCTime and GeneralizedTime (X.680, 46 and 47; X.690, 11.7 and 11.8): their texts, the moments
//! that these say, and in `specs/` their grammars.
//!
//! | Module | Holds |
//! |---|---|
//! | `laws` | what is proved of times and their texts |
//! | `models` | both times, and what they are made of |
#![tactic(auto)]

pub mod laws;
pub mod models;
