//! Certificates and revocation lists (RFC 5280).
//!
//! Each type is a notation itself. `yasna_notation::Encoded` of it has the traits, so `decode_der` reads an `Encoded<Certificate>`.
//! `is_valid` of `yasna_notation_constraints` tests whether a value that was filled from input can be written.
//!
//! What is read has the syntax of the module of RFC 5280. Other rules of that RFC are left to the caller:
//!
//! - A value under ANY, as a parameter of an algorithm or an attribute's value, is only framed: its identifier and length are read, and in
//!   DER those of the elements in it. A NULL with contents passes. What the octets of an extension hold isn't read.
//! - A certificate may have fields that its version doesn't allow, as extensions in v1. It may have an extension twice, a serial number of
//!   any sign and size, no issuer, an end before its beginning, a time of either type, and two algorithms that differ. So may a list.
//! - An arc of 2^64 or more in any object identifier rejects the whole.
//!
//! | Module | Holds |
//! |---|---|
//! | `time`, `time_part`, `validity` | times, and from when until when a certificate holds |
//! | `algorithm`, `public_key` | algorithms, and public keys with them |
//! | `attribute_type_and_value`, `relative_distinguished_name`, `name` | names, their levels and the attributes of these |
//! | `attribute` | attributes |
//! | `extension`, `extensions` | an extension, and all of a certificate or a list |
//! | `key_usage`, `reason_flags` | what a key may be used for, and reasons of a revocation, as extensions hold them |
//! | `subject_parts`, `tbs_certificate`, `certificate` | certificates, and what is signed of them |
//! | `revoked_certificate`, `tbs_cert_list`, `certificate_list` | revocation lists, their entries, and what is signed of them |
//! | `bits` | the bits of a BIT STRING by their numbers |
//! | `signed` | certificates and lists with the bytes that are signed |
#![tactic(auto)]

mod algorithm;
mod attribute;
mod attribute_type_and_value;
mod bits;
mod certificate;
mod certificate_list;
mod extension;
mod extensions;
mod key_usage;
mod name;
mod public_key;
mod reason_flags;
mod relative_distinguished_name;
mod revoked_certificate;
mod signed;
mod subject_parts;
mod tbs_cert_list;
mod tbs_certificate;
mod time;
mod time_part;
mod validity;

pub use algorithm::AlgorithmIdentifier;
pub use attribute::Attribute;
pub use attribute_type_and_value::AttributeTypeAndValue;
pub use certificate::Certificate;
pub use certificate_list::CertificateList;
pub use extension::Extension;
pub use extensions::Extensions;
pub use key_usage::KeyUsage;
pub use name::Name;
pub use public_key::SubjectPublicKeyInfo;
pub use reason_flags::ReasonFlags;
pub use relative_distinguished_name::RelativeDistinguishedName;
pub use revoked_certificate::RevokedCertificate;
pub use signed::{Signed, read_signed_certificate, read_signed_list};
pub use tbs_cert_list::TbsCertList;
pub use tbs_certificate::TbsCertificate;
pub use time::Time;
pub use validity::Validity;
