//! The types of a CHOICE.
ghost use Rattle.std.specs.Prelude.{IsTrue, ◌↔◌};

use crate::checked::Checked;
use yasna_notation::{Alternatives, Either};

/// Types of a CHOICE that can test whether a value of one of them can be written.
pub trait CheckedAlternatives: Alternatives {
    /// Whether a value can be written.
    fn accepts_either(value: &Self::Value) -> bool
        ensures { IsTrue result ↔ Self.can value.now };
}

impl<A: Checked> CheckedAlternatives for (A,) {
    #[inline(always)]
    fn accepts_either(value: &A::Value) -> bool {
        A::accepts(value)
    }
}

impl<A: Checked, W: CheckedAlternatives> CheckedAlternatives for (A, W) {
    #[inline(always)]
    fn accepts_either(value: &Either<A::Value, W::Value>) -> bool {
        match value {
            Either::First(first) => A::accepts(first),
            Either::Second(second) => W::accepts_either(second),
        }
    }
}
