//! Tests of the public calls of `yasna`, of the code in `examples` and `examples_proved`, and of what the programs do.
//!
//! They are a crate of their own, since a crate with tests is proved twice. Each has ample memory.
//!
//! | Module | Holds tests of |
//! |---|---|
//! | `algorithm`, `public_key` | keys and their algorithms, as types of one's own and by closures |
//! | `buffer` | the bytes that a read took |
//! | `at_end` | where contents end, and errors of reading callbacks |
//! | `checks` | none: it holds what many of them check, and how they fail |
//! | `conversion` | elements in BER turned into DER, those that may be something else without a schema, and malformed ones |
//! | `engine` | the program `yasna_tool` over memory, and over ends that fail |
//! | `composed` | lists, tuples and borrowed values |
//! | `examples` | none: it holds the pieces of code of README.md and docs/GUIDE.md |
//! | `exact` | types that keep an element of any type as it came |
//! | `guide` | these pieces, each once on bytes |
//! | `hex_layouts` | hexadecimal digits as numbers of C and in dumps |
//! | `known` | calls whose closures are known |
//! | `lines` | the lines of the elements of any input |
//! | `located` | where a parse failed |
//! | `object_names` | the usual names of object identifiers |
//! | `oid` | object identifiers |
//! | `pieces` | none: it holds how rows of bytes are read and written again |
//! | `records`, `scrypt`, `third_party` | types of one's own |
//! | `shown` | the lines of malformed and unusual elements |
//! | `shown_fields` | elements with the names of a module |
//! | `shown_html` | the HTML of elements |
//! | `shown_json` | the JSON of elements |
//! | `times` | both times |
//! | `tree` | a type that refers to itself, and elements at 101 levels |
//! | `writing` | exchanged writers, discarded errors of parts |
#![tactic(auto)]

#[cfg(test)]
mod algorithm;
#[cfg(test)]
mod at_end;
#[cfg(test)]
mod buffer;
#[cfg(test)]
mod checks;
#[cfg(test)]
mod composed;
#[cfg(test)]
mod conversion;
#[cfg(test)]
mod engine;
#[cfg(test)]
mod exact;
#[cfg(test)]
mod examples;
#[cfg(test)]
mod guide;
#[cfg(test)]
mod hex_layouts;
#[cfg(test)]
mod known;
#[cfg(test)]
mod lines;
#[cfg(test)]
mod located;
#[cfg(test)]
mod object_names;
#[cfg(test)]
mod oid;
#[cfg(test)]
mod pieces;
#[cfg(test)]
mod public_key;
#[cfg(test)]
mod records;
#[cfg(test)]
mod scrypt;
#[cfg(test)]
mod shown;
#[cfg(test)]
mod shown_fields;
#[cfg(test)]
mod shown_html;
#[cfg(test)]
mod shown_json;
#[cfg(test)]
mod third_party;
#[cfg(test)]
mod times;
#[cfg(test)]
mod tree;
#[cfg(test)]
mod writing;
