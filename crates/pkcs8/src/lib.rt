//! Private keys (PKCS #8: RFC 5208, and RFC 5958 in place of it).
//!
//! Each type is a notation itself. `yasna_notation::Encoded` of it has the traits, so `decode_der` reads an `Encoded<PrivateKeyInfo>`.
//! `is_valid` of `yasna_notation_constraints` tests whether a value that was filled from input can be written.
//!
//! What is read has the syntax of these RFCs' modules. Other rules of theirs are left to the caller:
//!
//! - What the octets of a private key hold isn't read. A value under ANY, as a parameter of an algorithm or an attribute's value, is only
//!   framed: its identifier and length are read, and in DER those of the elements in it.
//! - A `OneAsymmetricKey` may have a public key in v1, and none in v2. Attributes may be of any type, and of one type twice.
//! - The numbers of versions that a later module may add are rejected. Elements that it may add to a `OneAsymmetricKey` are read.
//! - An arc of 2^64 or more in any object identifier rejects the whole.
//!
//! | Module | Holds |
//! |---|---|
//! | `private_key_info` | a private key, of version 1 |
//! | `one_asymmetric_key` | a private key of version 1, or of version 2 with the public key |
#![tactic(auto)]

mod one_asymmetric_key;
mod private_key_info;

pub use one_asymmetric_key::OneAsymmetricKey;
pub use private_key_info::PrivateKeyInfo;
