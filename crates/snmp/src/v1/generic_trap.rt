//! Kinds of traps (RFC 1157, 4.1.6).
//!
//! ```text
//! INTEGER {
//!     coldStart(0), warmStart(1), linkDown(2), linkUp(3),
//!     authenticationFailure(4), egpNeighborLoss(5), enterpriseSpecific(6) }
//! ```
//!
//! The names of an INTEGER's numbers restrict no value (X.680, 19), so any number of 64 bits is read.
ghost use Rattle.std.specs.Prelude.{◌≡◌, ◌↔◌, IsTrue, refl};
ghost use Rattle.snmp.specs.Traps.{trap_number};

use yasna::{ASN1Result, BERMode, DERWriter, PrependBuffer, Tag};
use yasna_notation::{DefinedType, Notation};
use yasna_notation_constraints::{Checked, CheckedType};

/// A kind of trap.
#[derive(Clone, Copy, Debug, PartialEq, Eq)]
pub enum GenericTrap {
    ColdStart,
    WarmStart,
    LinkDown,
    LinkUp,
    AuthenticationFailure,
    EgpNeighborLoss,
    /// The enterprise and `specific_trap` say which trap it is.
    EnterpriseSpecific,
    /// A number without a name.
    Other(i64),
}

impl GenericTrap {
    /// The number.
    pub fn number(&self) -> i64
        ensures { result ≡ trap_number self.now }
    {
        match self {
            GenericTrap::ColdStart => 0,
            GenericTrap::WarmStart => 1,
            GenericTrap::LinkDown => 2,
            GenericTrap::LinkUp => 3,
            GenericTrap::AuthenticationFailure => 4,
            GenericTrap::EgpNeighborLoss => 5,
            GenericTrap::EnterpriseSpecific => 6,
            GenericTrap::Other(number) => *number,
        }
    }
}

impl DefinedType for GenericTrap {
    type Notation = i64;

    ghost value_of = { trap_number };

    fn from_value(number: i64) -> GenericTrap {
        match number {
            0 => GenericTrap::ColdStart,
            1 => GenericTrap::WarmStart,
            2 => GenericTrap::LinkDown,
            3 => GenericTrap::LinkUp,
            4 => GenericTrap::AuthenticationFailure,
            5 => GenericTrap::EgpNeighborLoss,
            6 => GenericTrap::EnterpriseSpecific,
            _ => GenericTrap::Other(number),
        }
    }

    fn write_value(&self, writer: DERWriter<'_>) -> ASN1Result<()> {
        <i64 as Notation>::write(&self.number(), writer)
    }

    fn prepend_value(&self, under: Option<Tag>, out: &mut PrependBuffer) -> ASN1Result<()> {
        <i64 as Notation>::prepend(&self.number(), under, out)
    }

    fn value_len(&self, under: Option<Tag>, mode: BERMode) -> Option<usize> {
        <i64 as Notation>::encoded_len(&self.number(), under, mode)
    }

    ghost unambiguous = { refl };
}

impl CheckedType for GenericTrap {
    fn accepts_value(&self) -> bool {
        <i64 as Checked>::accepts(&self.number())
    }
}
