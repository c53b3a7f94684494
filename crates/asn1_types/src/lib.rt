//! The types of ASN.1 modules, resolved (X.680): names, values, tags, bounds and defaults.
//!
//! Proved of X.680, as `specs/` says, are:
//!
//! - the functions of `tags`: whether a tag is EXPLICIT or IMPLICIT (30.6), when parts are tagged automatically (24.2 and 28.2), and by which numbers
//!   (24.7);
//! - the number of a tag (`values::number_of`): decimal digits, or the name of such a value, through any number of names;
//! - the notation under one tag (`plain::tagged`): the tag's number, its class and its mode, by its words, the TagDefault of its module, and whether the
//!   notation under it is untagged;
//! - the tags before the body of an assignment (`bodies::layers`): the same of each of them, in their order;
//! - the numbers of the parts in one pair of braces (`bodies::numbers_of`): whether these are tagged automatically, and the number of each. The parts
//!   of COMPONENTS OF get numbers too, but their own tags don't count;
//! - one part (`bodies::finished`): its name, whether it may be absent, and its notation under the automatic tag of its number;
//! - which definitions are untagged (`tags_of_types::set_of_body`): a CHOICE without a tag around it, and a name of an untagged notation. It is of
//!   definitions that are there, so more definitions change none of it;
//! - the body of a SEQUENCE, a SET or a CHOICE (`bodies::body_of`): it is of its word, and has all its parts in their order;
//! - what a definition is added as (`resolver::add_definition`);
//! - what a name means (`scope::meaning_of`, 13.10 to 13.17): what is assigned in the module, or what it imports, through any number of modules;
//! - which words begin a type, such as INTEGER, and the UNIVERSAL tag of each whose contents are kept as they came (`builtins::builtin_of`);
//! - the type that a type means through names, tags and constraints (`cores::core`);
//! - the parts in braces (`components::written_parts`): each with its name, its type and whether it is an addition, and for COMPONENTS OF those of the
//!   root of the SEQUENCE or SET that the type after it means (24.4);
//! - whole types and all definitions (`resolve`): each definition is that of an assigned type or of a type inside one, with the tags before its body,
//!   and each notation in it is that of the type that a module writes, by the rules above (`AreResolved`, `IsNotation`). A name is the definition or
//!   the notation of the assigned type that it means, or the type of another crate; a selection is the alternative of its name (29). A word has its
//!   own notation. A parameter is any element, and so is a field of a class whose type has none of four words. A type inside itself has the elements
//!   of what its name means, under the tag before it.
//!
//! The last of these leaves open which one-word names are parameters, which type a field of a class has, and the items of an ENUMERATED. Of
//! `resolve_incomplete` it also leaves open which one-word names are of types that no module gives. `resolve` has no such type.
//!
//! Only tested are these, and what constraints are resolved to, and values but the numbers of tags.
//!
//! | Module | Holds |
//! |---|---|
//! | `model` | resolved types |
//! | `problem` | why types are rejected |
//! | `tokens` | lists of lexical items |
//! | `scope` | what a name means in a module |
//! | `values` | values of INTEGER and OBJECT IDENTIFIER |
//! | `integers` | the order of integers, and bounds |
//! | `constraints` | constraints of numbers and sizes |
//! | `enumerations` | the items of an ENUMERATED |
//! | `builtins` | the types that have words of their own |
//! | `cores` | the type that a name means |
//! | `components` | parts, with those of COMPONENTS OF |
//! | `additions` | additions that may be absent where their version has them |
//! | `tags` | the tags of X.680 |
//! | `tags_of_types` | the tags that encodings begin with, and parts that no tag distinguishes |
//! | `defaults` | the values after DEFAULT |
//! | `bits`, `digits` | those of BIT STRINGs, and binary and hexadecimal strings |
//! | `resolver` | what is known while types are resolved |
//! | `named_numbers` | the names in the braces of an INTEGER or a BIT STRING |
//! | `plain` | types in which no other type is, tags, and constraints |
//! | `open_types` | parameters, fields of classes, and types that no module gives |
//! | `bodies` | SEQUENCEs, SETs and CHOICEs |
//! | `types` | types, of whatever depth |
//! | `constants` | the values that have a name |
//! | `modules` | all types and values of modules |
#![tactic(auto)]

mod additions;
mod bits;
mod bodies;
mod builtins;
mod components;
mod constants;
mod constraints;
mod cores;
mod defaults;
mod digits;
mod enumerations;
mod integers;
pub mod model;
mod modules;
mod named_numbers;
mod open_types;
mod plain;
mod problem;
mod resolver;
mod scope;
pub mod tags;
mod tags_of_types;
mod tokens;
mod types;
mod values;

pub use modules::{resolve, resolve_incomplete};
pub use problem::{Problem, ProblemKind, problem_text};
pub use tags_of_types::TagSet;
