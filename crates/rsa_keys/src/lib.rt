//! Types of the module PKCS-1.
//!
//! Each type is a notation itself. `yasna_notation::Encoded` of it has the traits, so `decode_der` reads an `Encoded` of it.
//! `is_valid` of `yasna_notation_constraints` tests whether a value that was filled from input can be written.
//!
//! | Module | Holds |
//! |---|---|
//! | `other_prime_info` | `OtherPrimeInfo` |
//! | `other_prime_infos` | `OtherPrimeInfos` |
//! | `rsa_private_key` | `RsaPrivateKey` |
//! | `rsa_public_key` | `RsaPublicKey` |
//! | `constants` | named numbers, named bits and values |
#![tactic(auto)]

pub mod constants;
mod other_prime_info;
mod other_prime_infos;
mod rsa_private_key;
mod rsa_private_key_parts2;
mod rsa_public_key;

pub use other_prime_info::OtherPrimeInfo;
pub use other_prime_infos::OtherPrimeInfos;
pub use rsa_private_key::RsaPrivateKey;
pub use rsa_public_key::RsaPublicKey;
