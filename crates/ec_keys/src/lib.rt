//! Types of the module ECPrivateKey.
//!
//! Each type is a notation itself. `yasna_notation::Encoded` of it has the traits, so `decode_der` reads an `Encoded` of it.
//! `is_valid` of `yasna_notation_constraints` tests whether a value that was filled from input can be written.
//!
//! | Module | Holds |
//! |---|---|
//! | `ec_parameters` | `EcParameters` |
//! | `ec_private_key` | `EcPrivateKey` |
#![tactic(auto)]

mod ec_parameters;
mod ec_private_key;

pub use ec_parameters::EcParameters;
pub use ec_private_key::EcPrivateKey;
