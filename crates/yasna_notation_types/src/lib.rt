//! More notations of ASN.1's types, for `yasna_notation`: what modules have beside its constructs, and tags of all classes.
//!
//! | Module | Holds |
//! |---|---|
//! | `named` | ENUMERATED as an enum, extensible too |
//! | `plain_bits` | BIT STRING whose unused bits have no meaning |
//! | `named_bits`, `least_bits` | BIT STRING with named bits, written as it is or without zero bits at its end |
//! | `open_choice` | an extensible CHOICE |
//! | `any_under` | an element with a given tag, of a type that isn't known |
//! | `rest` | the elements at the end of an extensible SEQUENCE, after mandatory parts |
//! | `others`, `possible_default`, `beginning` | these elements after OPTIONAL and DEFAULT parts, and such parts |
//! | `set_part`, `set_choices` | types that may be a part of a SET |
//! | `set_parts`, `set_defaults`, `set_or_defaults` | SET of parts |
//! | `empty_lists`, `tested_bits` | the defaults of lists and of BIT STRINGs |
//! | `tag_names` | the tags of the classes UNIVERSAL and PRIVATE, as types |
//! | `tagged_fields` | the fields of a SEQUENCE, written under a tag of its own |
//! | `bmp_string`, `octet_strings` | BMPString; strings of which `yasna` reads no text, as octets under their tag |
//! | `checked` | whether a value of one of these types can be written |
//! | `statuses` | two enums, as examples of `named` |
//!
//! `tests_notation` has a type of a small module as an example of each.
#![tactic(auto)]

mod any_under;
mod beginning;
mod bmp_string;
mod checked;
mod empty_lists;
mod least_bits;
mod named;
mod named_bits;
mod octet_strings;
mod open_choice;
mod others;
mod plain_bits;
mod possible_default;
mod rest;
mod set_choices;
mod set_defaults;
mod set_or_defaults;
mod set_part;
mod set_parts;
mod statuses;
mod tag_names;
mod tagged_fields;
mod tested_bits;

pub use any_under::AnyUnder;
pub use beginning::Beginning;
pub use bmp_string::BmpString;
pub use empty_lists::{EmptyList, has_no_items};
pub use least_bits::LeastBits;
pub use named::{Named, Numbered};
pub use named_bits::NamedBits;
pub use octet_strings::{
    GeneralString, GraphicString, ObjectDescriptor, TeletexString, UniversalString, VideotexString,
};
pub use open_choice::OpenChoice;
pub use others::{Others, Possible};
pub use plain_bits::PlainBits;
pub use possible_default::PossibleDefault;
pub use rest::Rest;
pub use set_choices::SetAlternatives;
pub use set_part::{SetPart, read_part};
pub use set_parts::{Set, SetParts, read_set_parts_as};
pub use statuses::{ResponseStatus, ResultCode};
pub use tag_names::{Private, Universal};
pub use tagged_fields::{
    explicit_fields_len, implicit_fields_len, prepend_explicit_fields, prepend_implicit_fields,
    write_explicit_fields, write_implicit_fields,
};
pub use tested_bits::{Bits, BitsValue};
