//! What readers and writers alike read at the start of bytes, one notion a module: a number in base 128, an
//! identifier (X.690, 8.1.2), and how encodings compare as bytes (X.690, 11.6).

pub mod base128;
pub mod identifier;
pub mod order;
