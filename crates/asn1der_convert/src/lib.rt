//! Elements converted from BER to DER, for the program `asn1der`.
//!
//! | Module | Holds |
//! |---|---|
//! | `conversion` | the walk over the elements |
//! | `contents_class` | how the contents of an element are read, by its tag |
//! | `elements` | elements in memory, one after the other |
//! | `primitives` | primitive elements that are written |
//! | `segments` | the malformed segment of a string |
//! | `set_order` | the order of a SET or a SET OF |
//! | `agreement` | whether these two orders of a SET agree |
//! | `sorting` | elements sorted in their own memory |
//! | `writing` | elements and headers that are written |
//! | `ambiguity` | where the DER encoding depends on a schema |
//! | `error` | the errors of the conversion |
#![tactic(auto)]

mod agreement;
pub mod ambiguity;
pub mod contents_class;
pub mod conversion;
mod elements;
pub mod error;
pub mod primitives;
pub mod segments;
mod set_order;
pub mod sorting;
pub mod writing;
