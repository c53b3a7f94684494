//! Types that a module defines.
ghost use Rattle.std.specs.Prelude.{IsTrue, ◌↔◌};

use crate::checked::Checked;
use yasna_notation::DefinedType;

/// A type that a module defines, and that can test whether a value can be written.
pub trait CheckedType: DefinedType {
    /// Whether the notation's value that represents this one can be written: `accepts_fields` of the fields does that.
    fn accepts_value(&self) -> bool
        ensures { IsTrue result ↔ Self.Notation.means.can (Self.value_of self.now) };
}

impl<T: CheckedType> Checked for T {
    #[inline(always)]
    fn accepts(value: &T) -> bool {
        value.accepts_value()
    }
}
