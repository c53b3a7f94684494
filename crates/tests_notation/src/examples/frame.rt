//! An example of `SIZE` of octets, bits and sets, and of a type that isn't known: a frame with its flags and keys. No module gives `Trailer`.
//!
//! ```text
//! Frame ::= SEQUENCE {
//!     flags    BIT STRING (SIZE (4..16)),
//!     keys     SET (SIZE (1..2)) OF OCTET STRING (SIZE (2..4)),
//!     payload  OCTET STRING (SIZE (3..MAX)),
//!     note     UTF8String (SIZE (0..3)) OPTIONAL,
//!     trailer  [0] IMPLICIT Trailer OPTIONAL }
//! ```
ghost use Rattle.std.specs.Prelude.{◌≡◌, refl};

use crate::values::Assigned;
use yasna_notation::{BitString, Bounded, Context, Optional, Sequence, SetOf};
use yasna_notation_constraints::{SizeFrom, SizeFromTo};
use yasna_notation_types::AnyUnder;

// The bytes of 4 to 16 bits, and how many bits there are.
type Flags = Bounded<BitString, SizeFromTo<4, 16>>;

// One or two keys, each of 2 to 4 octets.
type Keys = Bounded<SetOf<Bounded<Vec<u8>, SizeFromTo<2, 4>>>, SizeFromTo<1, 2>>;

// Three octets or more.
type Payload = Bounded<Vec<u8>, SizeFrom<3>>;

// Up to three characters.
type Note = Bounded<String, SizeFromTo<0, 3>>;

// The trailer is an element under [0], as it came.
type Ends = (Optional<Note>, (Optional<AnyUnder<Context<0>>>, ()));

/// A frame.
pub struct Frame;

impl Assigned for Frame {
    type Notation = Sequence<(Flags, (Keys, (Payload, Ends)))>;

    ghost unambiguous = { refl };
}
