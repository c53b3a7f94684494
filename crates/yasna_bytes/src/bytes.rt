//! What is at the start of bytes, one notion a module: an element's length, its header, its contents (X.690, 8.1).
//! Identifiers and numbers in base 128 are read by `yasna_base::bytes`, since the writer reads identifiers too.
//!
//! Everything here works on a `Cursor` or a slice, and knows nothing of implicit tags, sticky errors and callbacks.
//! Every read of an element of an expected tag passes `header::open`, every one of any tag `walk::open_any`.

pub mod contents;
pub mod cursor;
pub mod header;
pub mod length;
pub mod segments;
pub mod text;
pub mod walk;
