//! The bytes of an input: as they are, in hexadecimal, or in blocks of PEM.
//!
//! | Module | Holds |
//! |---|---|
//! | `input_format` | the format of an input |
//! | `hex_layout` | how hexadecimal digits are laid out in a text |
//! | `digits` | bytes from digits, in hexadecimal and in base64 |
//! | `block` | the bytes of a block of PEM, from its lines |
//! | `pem` | blocks of PEM, line by line |
//! | `pieces` | bytes as elements, one after the other |
#![tactic(auto)]

mod block;
mod digits;
mod hex_layout;
mod input_format;
mod pem;
mod pieces;

pub use block::missing;
pub use digits::{decode_hex, text_of};
pub use input_format::{InputFormat, format_of};
pub use pem::{Block, PemReader, cut_line};
pub use pieces::{Pieces, first_piece};
