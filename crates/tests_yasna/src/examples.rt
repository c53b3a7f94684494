//! The pieces of code of README.md, docs/GUIDE.md and docs/NOTATION.md, which are there word for word: `ci/guide.sh` compares them.
//!
//! A file is a piece of GUIDE.md, with all that it uses. Its functions have no contract: they are proved safe, and `guide` runs them on
//! real bytes. They are in the crate of the tests, since a library that passes readers on takes a minute more.
//!
//! They have no mutants: the section on strings, which has one, is in `examples_proved`.

pub mod alternatives;
pub mod any;
pub mod choice;
pub mod defaults;
pub mod errors;
pub mod first;
pub mod implicit;
pub mod lists;
pub mod located;
pub mod numbers;
pub mod optional;
pub mod own_errors;
pub mod sequence;
pub mod set_of;
pub mod sets;
pub mod signed;
pub mod sticky;
pub mod tagged;
pub mod times;
pub mod whole;
