//! Values of ASN.1 that Rust has no type for. Times are in `yasna_times`.
//!
//! | Module | Holds |
//! |---|---|
//! | `oid` | object identifiers |
//! | `oid_text` | their texts, written and read |
//! | `tagged_der_value` | raw elements |

mod oid;
mod oid_text;
pub mod tagged_der_value;

pub use oid::ObjectIdentifier;
pub use oid_text::ParseOidError;
pub use tagged_der_value::TaggedDerValue;
