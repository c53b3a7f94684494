//! SNMPv1 (RFC 1155 and RFC 1157).
//!
//! | Module | Holds |
//! |---|---|
//! | `object_syntax`, `var_bind` | values, and variables with them |
//! | `pdu`, `trap_pdu`, `pdus` | protocol data units |
//! | `error_status`, `generic_trap` | what became of a request, and kinds of traps |
//! | `message` | messages |

mod error_status;
mod generic_trap;
mod message;
mod object_syntax;
mod pdu;
mod pdus;
mod trap_pdu;
mod var_bind;

pub use error_status::ErrorStatus;
pub use generic_trap::GenericTrap;
pub use message::SnmpMessage;
pub use object_syntax::ObjectSyntax;
pub use pdu::Pdu;
pub use pdus::Pdus;
pub use trap_pdu::TrapPdu;
pub use var_bind::VarBind;
