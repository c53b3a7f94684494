//! Tests of the crates that read modules of ASN.1.
//!
//! | Module | Holds |
//! |---|---|
//! | `conversions` | what values of a module's type are in DER |
//! | `described` | resolved types, described in one line each |
//! | `fields` | which part of a type each element is |
//! | `imported_names` | what `asn1_source` calls types of other crates |
//! | `listing` | what is listed and rejected of elements by their module |
//! | `schemas` | the tables of a module's types |
//! | `sources` | what `asn1_source` writes for types |
//! | `syntax` | lexical items and trees of `asn1_syntax` |
//! | `types` | what `asn1_types` resolves modules to |
#![tactic(auto)]

#[cfg(test)]
mod conversions;
#[cfg(test)]
mod described;
#[cfg(test)]
mod fields;
#[cfg(test)]
mod imported_names;
#[cfg(test)]
mod listing;
#[cfg(test)]
mod schemas;
#[cfg(test)]
mod sources;
#[cfg(test)]
mod syntax;
#[cfg(test)]
mod types;
