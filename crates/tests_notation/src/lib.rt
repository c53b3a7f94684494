//! Tests of the crates of notations, `yasna_notation_constraints` and `yasna_notation_types`.
//!
//! They are a crate of their own, since a crate with tests is proved twice. Each has ample memory.
//!
//! | Module | Holds |
//! |---|---|
//! | `checks` | no test: it holds what a row is, and what is checked of every type |
//! | `constraints`, `defaults`, `tags`, `types` | rows of octets, which the examples read, write or reject |
//! | `examples` | no test: it holds types of small modules |
//! | `numbers` | integers of any size in their ranges |
//! | `validity` | values within each bound, and beyond it |
//! | `values` | no test: it holds a value of an example without a struct |
#![tactic(auto)]

#[cfg(test)]
mod checks;
#[cfg(test)]
mod constraints;
#[cfg(test)]
mod defaults;
#[cfg(test)]
mod examples;
#[cfg(test)]
mod numbers;
#[cfg(test)]
mod tags;
#[cfg(test)]
mod types;
#[cfg(test)]
mod validity;
#[cfg(test)]
mod values;
