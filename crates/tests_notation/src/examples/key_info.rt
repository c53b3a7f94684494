//! An example of `PlainBits`: a SEQUENCE with a BIT STRING.
//!
//! ```text
//! KeyInfo ::= SEQUENCE { usage BIT STRING, number INTEGER }
//! ```
ghost use Rattle.std.specs.Prelude.{◌≡◌, refl};

use crate::values::Assigned;
use yasna_notation::Sequence;
use yasna_notation_types::PlainBits;

/// What a key is for: bytes, and how many bits there are, and the key's number.
pub struct KeyInfo;

impl Assigned for KeyInfo {
    type Notation = Sequence<(PlainBits, (i64, ()))>;

    ghost unambiguous = { refl };
}
