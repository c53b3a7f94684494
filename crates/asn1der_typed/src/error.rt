//! The errors of the conversion.

use asn1der_convert::error::ConvertError;
use asn1show_walk::WalkError;
use std::alloc::{AllocError, AllocFailed};
use std::{fmt, str};

/// An error of the conversion.
#[derive(Drop)]
pub enum TypedError {
    /// The input isn't elements in BER.
    Walk(WalkError),
    /// The contents of an element aren't those of its type, or memory ran out.
    Convert(ConvertError),
    /// The module doesn't allow the element at an offset. The names lead to the part that is expected there.
    NotInModule(usize, Vec<u8>),
}

impl TypedError {
    /// Whether the error is out of memory.
    pub fn is_memory(&self) -> bool {
        match self {
            TypedError::Walk(error) => error.is_external(),
            TypedError::Convert(ConvertError::Memory) => true,
            TypedError::Convert(ConvertError::Malformed { .. }) => false,
            TypedError::NotInModule(..) => false,
        }
    }
}

impl fmt::Display for TypedError {
    fn fmt<W: fmt::Write>(&self, f: &mut fmt::Formatter<W>) -> fmt::Result {
        match self {
            TypedError::Walk(error) => write!(f, "{error}"),
            TypedError::Convert(error) => write!(f, "{error}"),
            TypedError::NotInModule(offset, path) => {
                write!(f, "offset {offset}")?;
                if !path.is_empty() {
                    let path = str::from_utf8(path.as_slice()).unwrap_or("?");
                    write!(f, ", {path}")?;
                }
                f.write_str(": not in the module")
            }
        }
    }
}

impl From<AllocError> for TypedError {
    fn from(_rejected: AllocError) -> TypedError {
        TypedError::Convert(ConvertError::Memory)
    }
}

impl<T: Drop> From<AllocFailed<T>> for TypedError {
    fn from(_rejected: AllocFailed<T>) -> TypedError {
        TypedError::Convert(ConvertError::Memory)
    }
}

impl From<ConvertError> for TypedError {
    fn from(error: ConvertError) -> TypedError {
        TypedError::Convert(error)
    }
}

impl From<WalkError> for TypedError {
    fn from(error: WalkError) -> TypedError {
        TypedError::Walk(error)
    }
}
