//! A visitor that prints a line for each element: its place, its type and its value.
//!
//! It is part of `asn1show`: `asn1show_lines` hands it the elements of an input.
//!
//! | Module | Holds |
//! |---|---|
//! | `asn_type` | the types of X.680 |
//! | `value` | the values of primitive elements |
//! | `elements` | the elements in contents |
//! | `module_parts` | what a module says of an element besides its names |
//! | `lengths` | the octets that headers take |
//! | `sets` | the order of a SET, and how CER cuts strings |
//! | `segments` | the segments of strings |
//! | `defects` | what is wrong with an element by X.690 |
//! | `diagnostic` | diagnostics of elements, and the conformance of the whole |
//! | `selection` | what is shown of elements |
//! | `extraction` | the bytes of an element |
//! | `line` | a line as it is made |
//! | `output` | where lines are written |
//! | `type_names` | names of types |
//! | `notes` | what is noted of an element |
//! | `report` | what is written of an element |
//! | `head` | the beginning of a line |
//! | `dump` | the octets of an element beside its line |
//! | `printer` | the lines |
//!
//! What `asn1show_lines` calls are items of the crate: `asn1show_printer::Printer`.
#![tactic(auto)]

mod asn_type;
mod defects;
mod diagnostic;
mod dump;
mod elements;
mod extraction;
mod head;
mod lengths;
mod line;
mod module_parts;
mod notes;
mod output;
mod printer;
mod report;
mod segments;
mod selection;
mod sets;
mod type_names;
mod value;

pub use asn1show_names::Names;
pub use asn1show_schema::{Label, Schema};
pub use diagnostic::{Conformance, Diagnostic};
pub use dump::{octets_of, own_len};
pub use head::{ShownTag, write_tag};
pub use line::LineBuffer;
pub use output::Output;
pub use printer::{Printer, Source};
pub use report::Report;
pub use selection::{Extent, Part, Selection};
pub use value::{Layout, Numbers, Style, View, characters_of, write_digits, write_quoted};
