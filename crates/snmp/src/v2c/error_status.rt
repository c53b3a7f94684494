//! What became of a request of SNMPv2 (RFC 3416, 3).
//!
//! ```text
//! INTEGER {
//!     noError(0), tooBig(1), noSuchName(2), badValue(3), readOnly(4), genErr(5),
//!     noAccess(6), wrongType(7), wrongLength(8), wrongEncoding(9), wrongValue(10),
//!     noCreation(11), inconsistentValue(12), resourceUnavailable(13), commitFailed(14),
//!     undoFailed(15), authorizationError(16), notWritable(17), inconsistentName(18) }
//! ```
//!
//! The names of an INTEGER's numbers restrict no value (X.680, 19), so any number of 32 bits is read.
ghost use Rattle.std.specs.Prelude.{◌≡◌, ◌↔◌, IsTrue, refl};
ghost use Rattle.snmp.specs.V2cErrors.{status_number};

use yasna::{ASN1Result, BERMode, DERWriter, PrependBuffer, Tag};
use yasna_notation::{DefinedType, Notation};
use yasna_notation_constraints::{Checked, CheckedType};

/// What became of a request.
#[derive(Clone, Copy, Debug, PartialEq, Eq)]
pub enum ErrorStatus {
    NoError,
    /// The response would be too large.
    TooBig,
    /// Of SNMPv1, through a proxy, as `BadValue` and `ReadOnly`.
    NoSuchName,
    BadValue,
    ReadOnly,
    /// An error of another kind.
    GenErr,
    NoAccess,
    WrongType,
    WrongLength,
    WrongEncoding,
    WrongValue,
    NoCreation,
    InconsistentValue,
    ResourceUnavailable,
    CommitFailed,
    UndoFailed,
    AuthorizationError,
    NotWritable,
    InconsistentName,
    /// A number without a name.
    Other(i32),
}

impl ErrorStatus {
    /// The number.
    pub fn number(&self) -> i32
        ensures { result ≡ status_number self.now }
    {
        match self {
            ErrorStatus::NoError => 0,
            ErrorStatus::TooBig => 1,
            ErrorStatus::NoSuchName => 2,
            ErrorStatus::BadValue => 3,
            ErrorStatus::ReadOnly => 4,
            ErrorStatus::GenErr => 5,
            ErrorStatus::NoAccess => 6,
            ErrorStatus::WrongType => 7,
            ErrorStatus::WrongLength => 8,
            ErrorStatus::WrongEncoding => 9,
            ErrorStatus::WrongValue => 10,
            ErrorStatus::NoCreation => 11,
            ErrorStatus::InconsistentValue => 12,
            ErrorStatus::ResourceUnavailable => 13,
            ErrorStatus::CommitFailed => 14,
            ErrorStatus::UndoFailed => 15,
            ErrorStatus::AuthorizationError => 16,
            ErrorStatus::NotWritable => 17,
            ErrorStatus::InconsistentName => 18,
            ErrorStatus::Other(number) => *number,
        }
    }
}

impl DefinedType for ErrorStatus {
    type Notation = i32;

    ghost value_of = { status_number };

    fn from_value(number: i32) -> ErrorStatus {
        match number {
            0 => ErrorStatus::NoError,
            1 => ErrorStatus::TooBig,
            2 => ErrorStatus::NoSuchName,
            3 => ErrorStatus::BadValue,
            4 => ErrorStatus::ReadOnly,
            5 => ErrorStatus::GenErr,
            6 => ErrorStatus::NoAccess,
            7 => ErrorStatus::WrongType,
            8 => ErrorStatus::WrongLength,
            9 => ErrorStatus::WrongEncoding,
            10 => ErrorStatus::WrongValue,
            11 => ErrorStatus::NoCreation,
            12 => ErrorStatus::InconsistentValue,
            13 => ErrorStatus::ResourceUnavailable,
            14 => ErrorStatus::CommitFailed,
            15 => ErrorStatus::UndoFailed,
            16 => ErrorStatus::AuthorizationError,
            17 => ErrorStatus::NotWritable,
            18 => ErrorStatus::InconsistentName,
            _ => ErrorStatus::Other(number),
        }
    }

    fn write_value(&self, writer: DERWriter<'_>) -> ASN1Result<()> {
        <i32 as Notation>::write(&self.number(), writer)
    }

    fn prepend_value(&self, under: Option<Tag>, out: &mut PrependBuffer) -> ASN1Result<()> {
        <i32 as Notation>::prepend(&self.number(), under, out)
    }

    fn value_len(&self, under: Option<Tag>, mode: BERMode) -> Option<usize> {
        <i32 as Notation>::encoded_len(&self.number(), under, mode)
    }

    ghost unambiguous = { refl };
}

impl CheckedType for ErrorStatus {
    fn accepts_value(&self) -> bool {
        <i32 as Checked>::accepts(&self.number())
    }
}
