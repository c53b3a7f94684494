//! Types of small modules, each an example of some notations.
//!
//! | Module | Example of |
//! |---|---|
//! | `reply` | `Named`, by the enums of `yasna_notation_types` |
//! | `key_info` | `PlainBits` |
//! | `usage` | `LeastBits` |
//! | `shape` | `OpenChoice` |
//! | `header` | `NamedBits`, `Rest`, as docs/NOTATION.md shows it |
//! | `profile` | `Others`, `Possible`, `PossibleDefault` |
//! | `person` | `Set` |
//! | `entry` | `Set`, and parts by one name |
//! | `principal_name` | `GeneralString` |
//! | `badge` | strings that are octets, `Private` |
//! | `ticket` | fields under an EXPLICIT tag |
//! | `station` | sizes and characters of strings, a range of numbers |
//! | `frame` | sizes of octets, bits and sets; `AnyUnder` |
//! | `settings` | defaults of numbers |
//! | `label` | defaults of strings and an object identifier |
//! | `pss_params` | defaults of structs |
//! | `outline` | defaults of lists and bits, in a SET too |
//!
//! `header`, `label`, `person`, `principal_name`, `profile`, `reply`, `shape` and `ticket` show a struct or an enum with its functions. The others are their
//! notation alone, whose values `crate::values` holds.

pub mod badge;
pub mod entry;
pub mod frame;
pub mod header;
pub mod key_info;
pub mod label;
pub mod outline;
pub mod person;
pub mod principal_name;
pub mod profile;
pub mod pss_params;
pub mod reply;
pub mod settings;
pub mod shape;
pub mod station;
pub mod ticket;
pub mod usage;
