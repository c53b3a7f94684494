//! What became of a request of SNMPv1 (RFC 1157, 4.1.1).
//!
//! ```text
//! ErrorStatus ::= INTEGER {
//!     noError(0), tooBig(1), noSuchName(2), badValue(3), readOnly(4), genErr(5) }
//! ```
//!
//! The names of an INTEGER's numbers restrict no value (X.680, 19), so any number of 64 bits is read.
ghost use Rattle.std.specs.Prelude.{◌≡◌, ◌↔◌, IsTrue, refl};
ghost use Rattle.snmp.specs.V1Errors.{error_number};

use yasna::{ASN1Result, BERMode, DERWriter, PrependBuffer, Tag};
use yasna_notation::{DefinedType, Notation};
use yasna_notation_constraints::{Checked, CheckedType};

/// What became of a request.
#[derive(Clone, Copy, Debug, PartialEq, Eq)]
pub enum ErrorStatus {
    NoError,
    /// The response would be too large.
    TooBig,
    NoSuchName,
    BadValue,
    ReadOnly,
    /// An error of another kind.
    GenErr,
    /// A number without a name.
    Other(i64),
}

impl ErrorStatus {
    /// The number.
    pub fn number(&self) -> i64
        ensures { result ≡ error_number self.now }
    {
        match self {
            ErrorStatus::NoError => 0,
            ErrorStatus::TooBig => 1,
            ErrorStatus::NoSuchName => 2,
            ErrorStatus::BadValue => 3,
            ErrorStatus::ReadOnly => 4,
            ErrorStatus::GenErr => 5,
            ErrorStatus::Other(number) => *number,
        }
    }
}

impl DefinedType for ErrorStatus {
    type Notation = i64;

    ghost value_of = { error_number };

    fn from_value(number: i64) -> ErrorStatus {
        match number {
            0 => ErrorStatus::NoError,
            1 => ErrorStatus::TooBig,
            2 => ErrorStatus::NoSuchName,
            3 => ErrorStatus::BadValue,
            4 => ErrorStatus::ReadOnly,
            5 => ErrorStatus::GenErr,
            _ => ErrorStatus::Other(number),
        }
    }

    fn write_value(&self, writer: DERWriter<'_>) -> ASN1Result<()> {
        <i64 as Notation>::write(&self.number(), writer)
    }

    fn prepend_value(&self, under: Option<Tag>, out: &mut PrependBuffer) -> ASN1Result<()> {
        <i64 as Notation>::prepend(&self.number(), under, out)
    }

    fn value_len(&self, under: Option<Tag>, mode: BERMode) -> Option<usize> {
        <i64 as Notation>::encoded_len(&self.number(), under, mode)
    }

    ghost unambiguous = { refl };
}

impl CheckedType for ErrorStatus {
    fn accepts_value(&self) -> bool {
        <i64 as Checked>::accepts(&self.number())
    }
}
