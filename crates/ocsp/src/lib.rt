//! Types of the module OCSP.
//!
//! Each type is a notation itself. `yasna_notation::Encoded` of it has the traits, so `decode_der` reads an `Encoded` of it.
//! `is_valid` of `yasna_notation_constraints` tests whether a value that was filled from input can be written.
//!
//! | Module | Holds |
//! |---|---|
//! | `acceptable_responses` | `AcceptableResponses` |
//! | `basic_ocsp_response` | `BasicOcspResponse` |
//! | `cert_id` | `CertId` |
//! | `cert_status` | `CertStatus` |
//! | `crl_id` | `CrlId` |
//! | `ocsp_request` | `OcspRequest` |
//! | `ocsp_response` | `OcspResponse` |
//! | `ocsp_response_status` | `OcspResponseStatus` |
//! | `preferred_signature_algorithm` | `PreferredSignatureAlgorithm` |
//! | `preferred_signature_algorithms` | `PreferredSignatureAlgorithms` |
//! | `request` | `Request` |
//! | `responder_id` | `ResponderId` |
//! | `response_bytes` | `ResponseBytes` |
//! | `response_data` | `ResponseData` |
//! | `revoked_info` | `RevokedInfo` |
//! | `service_locator` | `ServiceLocator` |
//! | `signature` | `Signature` |
//! | `single_response` | `SingleResponse` |
//! | `tbs_request` | `TbsRequest` |
//! | `constants` | named numbers, named bits and values |
#![tactic(auto)]

mod acceptable_responses;
mod basic_ocsp_response;
mod cert_id;
mod cert_status;
pub mod constants;
mod crl_id;
mod ocsp_request;
mod ocsp_response;
mod ocsp_response_status;
mod preferred_signature_algorithm;
mod preferred_signature_algorithms;
mod request;
mod responder_id;
mod response_bytes;
mod response_data;
mod revoked_info;
mod service_locator;
mod signature;
mod single_response;
mod tbs_request;

pub use acceptable_responses::AcceptableResponses;
pub use basic_ocsp_response::BasicOcspResponse;
pub use cert_id::CertId;
pub use cert_status::CertStatus;
pub use crl_id::CrlId;
pub use ocsp_request::OcspRequest;
pub use ocsp_response::OcspResponse;
pub use ocsp_response_status::OcspResponseStatus;
pub use preferred_signature_algorithm::PreferredSignatureAlgorithm;
pub use preferred_signature_algorithms::PreferredSignatureAlgorithms;
pub use request::Request;
pub use responder_id::ResponderId;
pub use response_bytes::ResponseBytes;
pub use response_data::ResponseData;
pub use revoked_info::RevokedInfo;
pub use service_locator::ServiceLocator;
pub use signature::Signature;
pub use single_response::SingleResponse;
pub use tbs_request::TbsRequest;
