//! Elements converted from BER to DER by their type in a module of ASN.1, which decides what their tags don't.
//!
//! Values under IMPLICIT tags are converted as those of their types, a SET is put in the order of its tags, and a SET OF in that of its octets. A part
//! with the value of its DEFAULT is omitted (X.690, 11.5), and so are zeros after the last one of named bits (X.690, 11.2.2). What is of an open type
//! is converted by its tags alone.
//!
//! | Module | Holds |
//! |---|---|
//! | `conversion` | the elements, one after the other |
//! | `values` | elements in which no others are |
//! | `bits` | values of BIT STRING |
//! | `error` | the errors of the conversion |
#![tactic(auto)]

mod bits;
mod conversion;
mod error;
mod values;

pub use conversion::convert_by_type;
pub use error::TypedError;
