//! The errors of reading and writing.
ghost use Rattle.std.specs.Prelude.{◌≡◌};

use std::alloc::{AllocError, AllocFailed};
use std::error::Error;
use std::fmt;

/// The result of reading or writing.
pub type ASN1Result<T> = Result<T, ASN1Error>;

/// Why bytes were rejected, or a value was not written.
#[derive(Clone, Copy, PartialEq, Eq, Debug)]
pub enum ASN1ErrorKind {
    /// The bytes end before the element does.
    Eof,
    /// Bytes are left where none should be.
    Extra,
    /// A number, a tag number or a place passes what its type holds.
    IntegerOverflow,
    /// Elements are nested more than 101 deep.
    StackOverflow,
    /// The bytes aren't an encoding of what was asked for.
    Invalid,
    /// Out of memory.
    OutOfMemory,
}

/// An error of reading or writing.
#[derive(Clone, Copy, PartialEq, Eq, Debug)]
pub struct ASN1Error {
    kind: ASN1ErrorKind,
}

impl ASN1Error {
    ghost use Rattle.yasna_base.specs.Error.{kind_of, error_of};

    /// Makes an error of this kind.
    pub fn new(kind: ASN1ErrorKind) -> ASN1Error
        ensures { result ≡ error_of kind }
    {
        ASN1Error { kind }
    }

    /// The kind of this error.
    pub fn kind(&self) -> ASN1ErrorKind
        ensures { result ≡ kind_of self.now }
    {
        self.kind
    }
}

impl fmt::Display for ASN1Error {
    ghost use Rattle.std.specs.Prelude.{Some};
    ghost use Rattle.yasna_base.specs.Error.{error_text};

    ghost output = { λ e. Some (error_text e) };

    fn fmt<W: fmt::Write>(&self, f: &mut fmt::Formatter<W>) -> fmt::Result {
        match self.kind {
            ASN1ErrorKind::Eof => write!(f, "ASN1Error {{ kind: Eof }}"),
            ASN1ErrorKind::Extra => write!(f, "ASN1Error {{ kind: Extra }}"),
            ASN1ErrorKind::IntegerOverflow => write!(f, "ASN1Error {{ kind: IntegerOverflow }}"),
            ASN1ErrorKind::StackOverflow => write!(f, "ASN1Error {{ kind: StackOverflow }}"),
            ASN1ErrorKind::Invalid => write!(f, "ASN1Error {{ kind: Invalid }}"),
            ASN1ErrorKind::OutOfMemory => write!(f, "ASN1Error {{ kind: OutOfMemory }}"),
        }
    }
}

impl Error for ASN1Error {}

/// Lets `?` turn a failed allocation into `OutOfMemory`.
impl From<AllocError> for ASN1Error {
    ghost use Rattle.yasna_base.specs.Error.{error_of};
    ghost use Rattle.yasna_base.specs.declared.error.ASN1ErrorKind.TheVariants.{OutOfMemory};

    ghost from_gives = { λ _ e. e ≡ error_of OutOfMemory };

    fn from(_rejected: AllocError) -> ASN1Error {
        ASN1Error::new(ASN1ErrorKind::OutOfMemory)
    }
}

/// Lets `?` turn a failed allocation that hands a value back into `OutOfMemory`.
impl<T: Drop> From<AllocFailed<T>> for ASN1Error {
    ghost use Rattle.yasna_base.specs.Error.{error_of};
    ghost use Rattle.yasna_base.specs.declared.error.ASN1ErrorKind.TheVariants.{OutOfMemory};

    ghost from_gives = { λ _ e. e ≡ error_of OutOfMemory };

    fn from(_rejected: AllocFailed<T>) -> ASN1Error {
        ASN1Error::from(AllocError)
    }
}
