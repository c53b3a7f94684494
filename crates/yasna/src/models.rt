//! Values of ASN.1 that Rust has no type for, and the date-times and offsets that times are made of.

pub use yasna_base::models::{ObjectIdentifier, ParseOidError, TaggedDerValue};
pub use yasna_times::models::{DateTime, GeneralizedTime, Offset, UTCTime};
