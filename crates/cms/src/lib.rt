//! Signed and encrypted messages: the Cryptographic Message Syntax (RFC 5652).
//!
//! Each type is a notation itself. `yasna_notation::Encoded` of it has the traits, so `decode_der` reads an `Encoded<ContentInfo>`. The
//! content of that is kept as it came, and `decode_content` reads it as a value of its type. Both lengths are read, as in what
//! `openssl cms -sign -stream` writes:
//!
//! ```rust
//! pub fn signed_data(alloc: Global, bytes: &[u8]) -> ASN1Result<SignedData> {
//!     let message: Encoded<ContentInfo> = decode_ber(alloc, bytes)?;
//!     let signed: Encoded<SignedData> = decode_content(alloc, &message.value)?;
//!     Ok(signed.into_value())
//! }
//! ```
//!
//! `is_valid` of `yasna_notation_constraints` tests whether a value that was filled from input can be written.
//!
//! A `TaggedDerValue` that came with indefinite length is written anew by `encode_der` with the shortest length that holds its payload,
//! and that ends by two zeros. So these bytes are an element, but no encoding of its type. `encode_cer` writes it as it came.
//!
//! What is read has the syntax of the module of RFC 5652. Other rules of that RFC are left to the caller:
//!
//! - A value under ANY, as a content or an attribute's value, is only framed: its identifier and length are read, and those of the elements
//!   in it where they are in DER or the length is indefinite. So are recipients, originators, and certificates and lists of other formats.
//! - A version from 0 to 5 may come with any fields. A content may be of another type than `content_type` names. There may be no signer,
//!   and attributes may be of any type, of one type twice, and without those that a signature needs.
//! - What `x509` leaves to the caller is left to the caller here too. An arc of 2^64 or more in any object identifier rejects the whole.
//!
//! | Module | Holds |
//! |---|---|
//! | `content_info`, `content` | contents of any type, and reading them as a value of theirs |
//! | `attributes` | attributes, signed or not |
//! | `issuer_and_serial_number`, `signer_identifier` | which certificate is a signer's |
//! | `encapsulated_content_info`, `signer_info`, `signed_data` | signed contents |
//! | `certificate_choices`, `revocation_info_choice` | certificates and revocation lists, of this format and of other formats |
//! | `encrypted_content_info`, `enveloped_data` | encrypted contents |
#![tactic(auto)]

mod attributes;
mod certificate_choices;
mod content;
mod content_info;
mod encapsulated_content_info;
mod encrypted_content_info;
mod enveloped_data;
mod issuer_and_serial_number;
mod revocation_info_choice;
mod signed_data;
mod signer_identifier;
mod signer_info;

pub use attributes::Attributes;
pub use certificate_choices::CertificateChoices;
pub use content::decode_content;
pub use content_info::ContentInfo;
pub use encapsulated_content_info::EncapsulatedContentInfo;
pub use encrypted_content_info::EncryptedContentInfo;
pub use enveloped_data::EnvelopedData;
pub use issuer_and_serial_number::IssuerAndSerialNumber;
pub use revocation_info_choice::RevocationInfoChoice;
pub use signed_data::SignedData;
pub use signer_identifier::SignerIdentifier;
pub use signer_info::SignerInfo;
