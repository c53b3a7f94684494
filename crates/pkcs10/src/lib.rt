//! Types of the module PKCS-10.
//!
//! Each type is a notation itself. `yasna_notation::Encoded` of it has the traits, so `decode_der` reads an `Encoded` of it.
//! `is_valid` of `yasna_notation_constraints` tests whether a value that was filled from input can be written.
//!
//! | Module | Holds |
//! |---|---|
//! | `attributes` | `Attributes` |
//! | `certification_request` | `CertificationRequest` |
//! | `certification_request_info` | `CertificationRequestInfo` |
#![tactic(auto)]

mod attributes;
mod certification_request;
mod certification_request_info;

pub use attributes::Attributes;
pub use certification_request::CertificationRequest;
pub use certification_request_info::CertificationRequestInfo;
