//! The arguments and the standard streams of the programs, and what is printed if one of them fails.
//!
//! | Module | Holds |
//! |---|---|
//! | `error` | why a program ends without its result, and its exit status |
//! | `input` | the input that a program reads: a file, or standard input |
//! | `streams` | the arguments, standard input and standard output |
//! | `usage` | help, the version and usage errors |
#![tactic(auto)]

mod error;
mod input;
mod streams;
mod usage;

pub use error::{ProgramError, report};
pub use input::Input;
pub use streams::{arguments, read_input, write_output};
pub use usage::{VERSION, explain};
