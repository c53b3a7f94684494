//! An example of defaults other than FALSE: the settings of a device.
//!
//! ```text
//! Settings ::= SEQUENCE {
//!     enabled  BOOLEAN DEFAULT TRUE,
//!     level    [0] IMPLICIT INTEGER (-10..10) DEFAULT -1,
//!     mode     ENUMERATED { off(0), slow(1), fast(2) } DEFAULT slow }
//! ```
ghost use Rattle.std.specs.Prelude.{◌≡◌, refl};

use crate::values::Assigned;
use yasna_notation::{Bounded, Context, Default, Enumerated, Implicit, Sequence, UpTo};
use yasna_notation_constraints::{IntegerFromTo, Signed, True};

// From -10 to 10; -1, if it is omitted.
type Level = Default<
    Implicit<Context<0>, Bounded<i64, IntegerFromTo<{ -10 }, 10>>>,
    Signed<{ -1 }>,
>;

// From 0 to 2; 1, if it is omitted.
type Mode = Default<Bounded<Enumerated, UpTo<2>>, Signed<1>>;

/// Settings: a device is enabled, if they don't say so.
pub struct Settings;

impl Assigned for Settings {
    type Notation = Sequence<(Default<bool, True>, (Level, (Mode, ())))>;

    ghost unambiguous = { refl };
}
