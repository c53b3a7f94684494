//! The files of ASN.1 modules that a program reads, and what it prints of their errors.
//!
//! | Module | Holds |
//! |---|---|
//! | `files` | the files, and the modules in them |
//! | `location` | lines and columns |
#![tactic(auto)]

mod files;
mod location;

pub use files::{ModuleFile, Modules, parse_files, read_files, report_place, report_problems};
pub use location::{Location, locate, report_at};
