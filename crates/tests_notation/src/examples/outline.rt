//! An example of defaults of lists and bits: the outline of a drawing, and a folder of such.
//!
//! ```text
//! Outline ::= SEQUENCE {
//!     heights  SEQUENCE OF INTEGER                              DEFAULT {},
//!     marks    [0] IMPLICIT SET OF UTF8String                   DEFAULT {},
//!     inner    [1] IMPLICIT BIT STRING                          DEFAULT '0110'B,
//!     shown    [2] IMPLICIT BIT STRING { front(0), back(1) }    DEFAULT { back } }
//!
//! Folder ::= SET {
//!     inner    [1] IMPLICIT BIT STRING                          DEFAULT '0110'B,
//!     heights  SEQUENCE OF INTEGER                              DEFAULT {},
//!     number   INTEGER }
//! ```
//!
//! The type of a folder names the parts in the order of their tags.
ghost use Rattle.std.specs.Prelude.{◌≡◌, ◌∷◌, [], refl};

use crate::values::Assigned;
use yasna_notation::{BitString, Context, Implicit, Sequence, SequenceOf, SetOf};
use yasna_notation_constraints::OrDefault;
use yasna_notation_types::{Bits, BitsValue, EmptyList, NamedBits, Set};

/// `'0110'B`.
pub struct InnerBits;

impl BitsValue for InnerBits {
    ghost bits = { record { bytes = 96 ∷ []; count = 4 } };

    fn octets() -> &'static [u8] {
        &[96]
    }

    fn count() -> usize {
        4
    }
}

/// `{ back }`.
pub struct BackBits;

impl BitsValue for BackBits {
    ghost bits = { record { bytes = 64 ∷ []; count = 2 } };

    fn octets() -> &'static [u8] {
        &[64]
    }

    fn count() -> usize {
        2
    }
}

type Inner<W> = OrDefault<Implicit<Context<1>, BitString>, Bits<InnerBits>, W>;

type Heights<W> = OrDefault<SequenceOf<i64>, EmptyList, W>;

type Shown = OrDefault<Implicit<Context<2>, NamedBits>, Bits<BackBits>, ()>;

type Marks<W> = OrDefault<Implicit<Context<0>, SetOf<String>>, EmptyList, W>;

/// The outline of a drawing.
pub struct Outline;

impl Assigned for Outline {
    type Notation = Sequence<Heights<Marks<Inner<Shown>>>>;

    ghost unambiguous = { refl };
}

/// A folder: its number, heights and inner bits.
pub struct Folder;

impl Assigned for Folder {
    type Notation = Set<(i64, Heights<Inner<()>>)>;

    ghost unambiguous = { refl };
}
