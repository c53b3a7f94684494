//! Notations whose values can be tested.
ghost use Rattle.std.specs.Prelude.{IsTrue, ◌↔◌};

use yasna_notation::{Message, Notation};

/// A notation that can test whether a value can be written.
pub trait Checked: Notation {
    /// Whether a value can be written: it is within the bounds of the notation, and of all that is inside it.
    fn accepts(value: &Self::Value) -> bool
        ensures { IsTrue result ↔ Self.means.can value.now };
}

/// A message that can be asked whether it can be written.
///
/// ```rust
/// pub fn extension_to_der(alloc: Global, extension: Extension) -> ASN1Result<Option<Vec<u8>>> {
///     if !extension.is_valid() {
///         return Ok(None);
///     }
///     let encoded = Encoded { value: extension };
///     let bytes = encode_der(alloc, &encoded)?;
///     Ok(Some(bytes))
/// }
/// ```
pub trait IsValid {
    // Which values can be written.
    ghost valid: { Self → Type 0 };

    /// Whether the value can be written: whether `Encoded` of it is `encodable`.
    fn is_valid(&self) -> bool
        ensures { IsTrue result ↔ valid self.now };
}

impl<T: Message + Checked> IsValid for T {
    ghost valid = { T.means.can };

    #[inline(always)]
    fn is_valid(&self) -> bool {
        <T as Checked>::accepts(self)
    }
}
