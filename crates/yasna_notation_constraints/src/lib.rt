//! Constraints and defaults for `yasna_notation`, and whether a value is within them, so that it can be written.
//!
//! A constraint (X.680, 50 and 51) is a `Bound`: `Bounded<N, C>` has the values of `N` that it allows, and rejects others as `Invalid`.
//!
//! `encode_der` requires of a value that it is `encodable`. A value that was read always is. For any other its numbers, sizes and texts have to
//! be within their bounds, and `is_valid` tests that: it is true exactly of the values that are `encodable`.
//!
//! | Module | Holds |
//! |---|---|
//! | `sizes` | `SIZE` of strings, SEQUENCE OF and SET OF |
//! | `numbers`, `big_numbers` | ranges of numbers |
//! | `alphabets` | `FROM`, the permitted characters of a string |
//! | `combined` | both of two constraints, or one of them |
//! | `default_values` | defaults of BOOLEAN, INTEGER and ENUMERATED |
//! | `tested_defaults` | defaults of OBJECT IDENTIFIER, OCTET STRING, strings and structs, which are tested and never made |
//! | `or_default` | a part of a SEQUENCE with such a default |
//! | `checked` | a notation whose values can be tested, and the test as a method of a message |
//! | `simple`, `strings` | this test of BOOLEAN, INTEGER, ENUMERATED, NULL, OBJECT IDENTIFIER, times, ANY; of strings |
//! | `composed` | of bounds, tags, SEQUENCE, SEQUENCE OF, SET OF, CHOICE |
//! | `components`, `checked_defaults` | of the parts of a SEQUENCE, by their values and by references to fields |
//! | `alternatives` | of the types of a CHOICE |
//! | `defined` | of types that a module defines |
//!
//! `tests_notation` has examples of them.
#![tactic(auto)]

mod alphabets;
mod alternatives;
mod big_numbers;
mod checked;
mod checked_defaults;
mod combined;
mod components;
mod composed;
mod default_values;
mod defined;
mod numbers;
mod or_default;
mod simple;
mod sizes;
mod strings;
mod tested_defaults;

pub use alphabets::{Alphabet, CharacterRange, FromCharacters, HasCharacters};
pub use alternatives::CheckedAlternatives;
pub use checked::{Checked, IsValid};
pub use checked_defaults::accepts_or_default;
pub use combined::{AnyOf, Both};
pub use components::{CheckedBy, CheckedParts, accepts_default, accepts_fields, accepts_optional};
pub use default_values::{Natural, PlainValues, Signed, True, Unset};
pub use defined::CheckedType;
pub use numbers::{HasNumber, IntegerFrom, IntegerFromTo, IntegerUpTo};
pub use or_default::{OrDefault, or_default_len, prepend_or_default, write_or_default};
pub use sizes::{HasSize, SizeFrom, SizeFromTo, SizeIs};
pub use tested_defaults::{
    Element, ElementValue, Identifier, IdentifierValue, Octets, OctetsValue, TestedDefault, Text,
    TextValue, is_some_default,
};
