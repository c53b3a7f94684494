//! Messages of the Simple Network Management Protocol, SNMPv1 (RFC 1157) and SNMPv2c (RFC 1901 and RFC 3416).
//!
//! Each type is a notation of its own. `yasna_notation::Encoded` of it has the traits, `DERCanonical` too: so `decode_ber` reads a
//! `Encoded<v2c::SnmpMessage>`, and `encode_der` writes it in its one encoding. `is_valid` of `yasna_notation_constraints` tests whether a
//! value that was filled from input can be written.
//!
//! Each version has types of its own, as its RFC has. Those of messages and of variables differ only by a number and a type, but take no
//! parameters: they are declared as every other type is, and what holds them cites their laws by name.
//!
//! | Module | Holds |
//! |---|---|
//! | `v1` | messages of SNMPv1 |
//! | `v2c` | messages of SNMPv2c |
//! | `simple_syntax`, `application_syntax` | values of variables, of types of ASN.1's own and of those that SNMP adds |
#![tactic(auto)]

mod application_syntax;
mod simple_syntax;
pub mod v1;
pub mod v2c;

pub use application_syntax::ApplicationSyntax;
pub use simple_syntax::SimpleSyntax;
