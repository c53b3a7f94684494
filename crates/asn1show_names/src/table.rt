//! Object identifiers and their names.
//!
//! The names are those that standards give:
//!
//! - X.411, X.413, X.420, X.501, X.509, X.520, X.521 and X.660 of messages, of the directory and of the upper arcs;
//! - RFC 3279, 4055, 4210, 4211, 5280, 5480, 5639, 5652, 5753, 5912, 6402, 6960, 8410 and 9480 of certificates, keys and signed data;
//! - RFC 1155, 1213, 2578 and 3411 to 3418 of SNMP, RFC 4120 and 4556 of Kerberos, and RFC 4512 to 4524 of LDAP;
//! - PKCS #1 to #12, SEC 2, X9.42, X9.57 and X9.62, and NIST's Computer Security Objects Register;
//! - ETSI TS 101 671, 3GPP TS 29.078 and STANAG 4406 of interception, intelligent networks and military messages;
//! - OpenSSL's list (`openssl list -objects`) for what none of these names, as what vendors add to certificates.
//!
//! | Module | Holds |
//! |---|---|
//! | `itu` | the object identifiers of ITU-T (0) |
//! | `iso` | the object identifiers of ISO (1) but for those of organizations |
//! | `organizations` | the object identifiers of organizations that ISO identifies (1.3) |
//! | `joint` | the object identifiers that ISO and ITU-T share (2), but for those of the directory, of messages and of management |
//! | `directory` | the object identifiers of the directory, of messages and of management (2.5, 2.6 and 2.9) |

mod directory;
mod iso;
mod itu;
mod joint;
mod organizations;

use directory::DIRECTORY;
use iso::ISO;
use itu::ITU;
use joint::JOINT;
use organizations::ORGANIZATIONS;

/// The tables, in the order of the octets of their object identifiers. A line has an identifier with its dots, a space and its name.
pub static TABLES: [&str; 5] = [ITU, ISO, ORGANIZATIONS, JOINT, DIRECTORY];
