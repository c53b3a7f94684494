//! What a user of `yasna` writes, and what is proved of it.
//!
//! The crate depends on `yasna` alone, as a user's does: its contracts and proofs name only what `yasna` hands on. The tests
//! of it are in `tests_yasna`.
//!
//! | Module | Holds |
//! |---|---|
//! | `by_tuple`, `by_closure` | the two types of docs/CONTRACTS.md: one that is read and written as a tuple, one step by step |
//! | `choice` | a list of a CHOICE, read by the next tag |
//! | `encoders` | types that aren't written by one call: one allocates first, one may write nothing |
//! | `exact` | the section of docs/GUIDE.md on what is proved of values as a whole |
//! | `known` | calls whose closures are known: their exact results follow from the contracts of `yasna` |
//! | `parts` | a type whose parts are omitted, tagged, chosen, and in any order |
//! | `public_key`, `scrypt` | types of which a part may be omitted, read by closures |
//! | `records` | types of three, five and seven parts, each read and written as a tuple |
//! | `strings` | the section of docs/GUIDE.md on strings, with no contract; the others are in `tests_yasna` |
//! | `third_party` | types that are read step by step: by typed reads, and with allocation |
//! | `times` | times made of the parts of others, and of digits after the nanosecond |
//! | `tree` | a type that refers to itself |
#![tactic(auto)]

mod by_closure;
mod by_tuple;
mod choice;
mod encoders;
mod exact;
mod known;
mod parts;
mod public_key;
mod records;
mod scrypt;
mod strings;
mod third_party;
mod times;
mod tree;

pub use by_closure::Sample;
pub use by_tuple::Measurement;
pub use choice::parsed_items;
pub use encoders::{Serial, Trail};
pub use exact::reencoded;
pub use known::{constructed_integer, parsed_integer, parsed_numbers, parsed_pair, third_number};
pub use parts::{Ticket, TicketKind};
pub use public_key::{AlgorithmIdentifier, SubjectPublicKeyInfo, encoded_key};
pub use records::{DirectoryEntry, DomainParameters, RequestHeader};
pub use scrypt::ScryptParameters;
pub use strings::{read_directory_string, read_ldap_string, write_directory_string};
pub use third_party::{Report, Version, encoded_report, normalized, normalized_report};
pub use times::{
    as_generalized_time, remade_utc_time, with_tenths_of_a_picosecond, without_leap_second,
};
pub use tree::Tree;
