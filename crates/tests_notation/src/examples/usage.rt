//! An example of `LeastBits`: a SEQUENCE with a BIT STRING of named bits.
//!
//! ```text
//! Usage ::= SEQUENCE { number INTEGER, usage [1] IMPLICIT BIT STRING { sign(0), encrypt(1) } }
//! ```
ghost use Rattle.std.specs.Prelude.{◌≡◌, refl};

use crate::values::Assigned;
use yasna_notation::{Context, Implicit, Sequence};
use yasna_notation_types::LeastBits;

/// What the key with a number is for: bytes, and how many bits there are.
pub struct Usage;

impl Assigned for Usage {
    type Notation = Sequence<(i64, (Implicit<Context<1>, LeastBits>, ()))>;

    ghost unambiguous = { refl };
}
