//! The syntax of ASN.1 modules (X.680): lexical items, and the tree of a module.
//!
//! What is between brackets in a constraint, after a type's name, in a class or in a value is kept as lexical items. So are parameters and
//! arguments (X.683) and information objects (X.681). Macros (X.208) are rejected.
//!
//! | Module | Holds |
//! |---|---|
//! | `error` | why a source is rejected |
//! | `token` | lexical items, and their kinds |
//! | `spacing` | white space and comments between lexical items |
//! | `item` | the lexical item at the start of a text |
//! | `lexer` | a source as lexical items |
//! | `tree` | the tree of a module |
//! | `cursor` | a cursor in lexical items |
//! | `notation` | the parts of types and of values in which no other type is |
//! | `types` | types, of whatever depth |
//! | `module` | modules |
//! | `located` | errors at the places of lexical items |
//! | `place` | lines and columns |
//! | `prepended` | texts, collected from the last one to the first one |
//! | `printed_notation` | the lexical items of these parts again |
//! | `printed_types` | the lexical items of types |
//! | `printed_module` | the lexical items of modules |
#![tactic(auto)]

mod cursor;
mod error;
mod item;
mod lexer;
mod located;
mod module;
mod notation;
mod place;
mod prepended;
mod printed_module;
mod printed_notation;
mod printed_types;
mod spacing;
mod token;
pub mod tree;
mod types;

pub use error::{Expected, SyntaxError};
pub use lexer::lex;
pub use module::{MAX_DEPTH, parse};
pub use place::{Place, place_at};
pub use printed_module::print;
pub use token::{Token, TokenKind};
