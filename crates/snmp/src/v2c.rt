//! SNMPv2c (RFC 1901 and RFC 3416).
//!
//! | Module | Holds |
//! |---|---|
//! | `bound_value`, `var_bind` | what is bound to variables, and variables with it |
//! | `pdu`, `bulk_pdu`, `pdus` | protocol data units |
//! | `error_status` | what became of a request |
//! | `message` | messages |

mod bound_value;
mod bulk_pdu;
mod error_status;
mod message;
mod pdu;
mod pdus;
mod var_bind;

pub use bound_value::BoundValue;
pub use bulk_pdu::BulkPdu;
pub use error_status::ErrorStatus;
pub use message::SnmpMessage;
pub use pdu::Pdu;
pub use pdus::Pdus;
pub use var_bind::VarBind;
