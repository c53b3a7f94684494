//! Types as the notation of ASN.1 writes them (X.680): a message is a type made of types, and is read and written with no further code.
//!
//! | Module | Holds |
//! |---|---|
//! | `notation` | a notation: which bytes encode which values, how they are read and written, and their laws |
//! | `tag_names` | the tags that a module writes, as types |
//! | `simple` | BOOLEAN, INTEGER, ENUMERATED, NULL, OBJECT IDENTIFIER |
//! | `strings`, `times` | strings and times |
//! | `bounded`, `bounds` | types of which a module accepts only some values, and bounds of numbers and sizes |
//! | `first_bytes` | the bytes of a SEQUENCE's first part |
//! | `canonical` | notations of which also BER is written again |
#![tactic(auto)]

mod any;
mod bounded;
mod bounds;
mod canonical;
mod choices;
mod defaults;
mod defined_type;
mod encoded;
mod explicit_tags;
mod first_bytes;
mod implicit_tags;
mod last;
mod lists;
mod messages;
mod notation;
mod parts;
mod sequences;
mod set_lists;
mod simple;
mod strings;
mod tag_names;
mod times;

pub use bounded::{Bound, Bounded};
pub use bounds::{AtMost, Exactly, FromTo, FromZero, NotEmpty, Size, SizeAtMost, UpTo};
pub use canonical::{CanonicalAlternatives, CanonicalNotation, CanonicalParts};
pub use choices::{Alternatives, Choice, Either};
pub use defaults::{
    Default, DefaultValue, False, Number, prepend_unless_default, unless_default_len,
    write_unless_default,
};
pub use defined_type::DefinedType;
pub use encoded::Encoded;
pub use explicit_tags::Explicit;
pub use first_bytes::{WithFirst, read_parts_with_first};
pub use implicit_tags::Implicit;
pub use last::Last;
pub use lists::{SequenceOf, items_len, prepend_items, write_items};
pub use messages::{Message, Represents, read_as, read_parts_as};
pub use notation::Notation;
pub use parts::{Optional, Parts, PartsBy, optional_len, prepend_optional, write_optional};
pub use sequences::Sequence;
pub use set_lists::SetOf;
pub use simple::{BigInteger, Enumerated};
pub use strings::{BitString, Ia5String, NumericString, PrintableString, VisibleString};
pub use tag_names::{Application, Context, TagName};
