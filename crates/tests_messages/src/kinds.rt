//! What a row is, and by what its kind is checked.

use crate::certificates::is_signed;
use crate::checks::{Claim, bytes_of, holds_of, holds_of_message, holds_or_says, message_becomes};
use crate::extensions::{Extension, is_extension};
use crate::keys::{is_content, is_raw};
use crate::messages::{Part, is_part};
use crate::named_bits::{is_key_usage, is_reason_flags};
use crate::parts::is_in_a_sequence;
use crate::texts::Texts;
use cms::{ContentInfo, EnvelopedData, SignedData};
use ec_keys::EcPrivateKey;
use ldap::{Filter, LdapMessage};
use ocsp::{BasicOcspResponse, OcspRequest, OcspResponse};
use pkcs8::{OneAsymmetricKey, PrivateKeyInfo};
use pkcs10::CertificationRequest;
use rsa_keys::{RsaPrivateKey, RsaPublicKey};
use snmp::{v1, v2c};
use std::alloc::Global;
use tsp::{TimeStampReq, TimeStampResp, TstInfo};
use x509::{Certificate, CertificateList};

/// A message of OCSP or of the time-stamp protocol.
#[derive(Clone, Copy)]
pub enum OnlineMessage {
    OcspRequest,
    OcspResponse,
    BasicOcspResponse,
    TimeStampReq,
    TimeStampResp,
    TstInfo,
}

/// What a row's bytes are, or are not.
#[derive(Clone, Copy)]
pub enum Kind {
    Certificate,
    CertificateList,
    /// A certificate that is read with the bytes that are signed of it.
    SignedCertificate,
    /// A list that is read so.
    SignedList,
    PrivateKeyInfo,
    OneAsymmetricKey,
    CertificationRequest,
    RsaPublicKey,
    RsaPrivateKey,
    EcPrivateKey,
    ContentInfo,
    /// The SignedData that ends a ContentInfo.
    SignedData,
    /// The EnvelopedData that ends a ContentInfo.
    EnvelopedData,
    /// The SignedData that `decode_content` reads from a ContentInfo.
    SignedContent,
    /// The EnvelopedData that `decode_content` reads from a ContentInfo.
    EnvelopedContent,
    /// An element that is kept as it came.
    Raw,
    LdapMessage,
    LdapFilter,
    SnmpV1,
    SnmpV2c,
    /// A message of OCSP or of the time-stamp protocol.
    Online(OnlineMessage),
    /// The contents of an extension.
    Extension(Extension),
    KeyUsage,
    ReasonFlags,
    /// A part of a message.
    Part(Part),
    /// Parts that are pairs.
    Pairs,
    /// A text of each class, and a number.
    Texts,
}

/// A kind, what is claimed, the row's name, and its bytes in hexadecimal.
pub type Row = (Kind, Claim, &'static str, &'static str);

// The content of a ContentInfo, which ends it: what comes after 19 octets.
fn content_of(bytes: &[u8]) -> &[u8] {
    bytes.get(19..).unwrap_or(&[])
}

fn is_so(alloc: Global, kind: Kind, bytes: &[u8], claim: Claim) -> bool {
    match kind {
        Kind::Certificate => holds_or_says::<Certificate>(alloc, bytes, claim),
        Kind::CertificateList => holds_or_says::<CertificateList>(alloc, bytes, claim),
        Kind::SignedCertificate => is_signed(alloc, bytes, claim, false),
        Kind::SignedList => is_signed(alloc, bytes, claim, true),
        Kind::PrivateKeyInfo => holds_of::<PrivateKeyInfo>(alloc, bytes, claim),
        Kind::OneAsymmetricKey => holds_or_says::<OneAsymmetricKey>(alloc, bytes, claim),
        Kind::CertificationRequest => holds_of::<CertificationRequest>(alloc, bytes, claim),
        Kind::RsaPublicKey => holds_of::<RsaPublicKey>(alloc, bytes, claim),
        Kind::RsaPrivateKey => match claim {
            Claim::Becomes(encoding) => message_becomes::<RsaPrivateKey>(alloc, bytes, encoding),
            _ => holds_of::<RsaPrivateKey>(alloc, bytes, claim),
        },
        Kind::EcPrivateKey => holds_of::<EcPrivateKey>(alloc, bytes, claim),
        Kind::ContentInfo => holds_or_says::<ContentInfo>(alloc, bytes, claim),
        Kind::SignedData => holds_of::<SignedData>(alloc, content_of(bytes), claim),
        Kind::EnvelopedData => holds_of::<EnvelopedData>(alloc, content_of(bytes), claim),
        Kind::SignedContent => is_content::<SignedData>(alloc, bytes, claim),
        Kind::EnvelopedContent => is_content::<EnvelopedData>(alloc, bytes, claim),
        Kind::Raw => is_raw(alloc, bytes, claim),
        Kind::LdapMessage => holds_or_says::<LdapMessage>(alloc, bytes, claim),
        Kind::LdapFilter => match claim {
            Claim::Becomes(encoding) => message_becomes::<Filter>(alloc, bytes, encoding),
            _ => holds_of::<Filter>(alloc, bytes, claim),
        },
        Kind::SnmpV1 => holds_or_says::<v1::SnmpMessage>(alloc, bytes, claim),
        Kind::SnmpV2c => match claim {
            Claim::Becomes(encoding) => message_becomes::<v2c::SnmpMessage>(alloc, bytes, encoding),
            _ => holds_or_says::<v2c::SnmpMessage>(alloc, bytes, claim),
        },
        Kind::Online(message) => is_online(alloc, message, bytes, claim),
        Kind::Extension(extension) => is_extension(alloc, extension, bytes, claim),
        Kind::KeyUsage => is_key_usage(alloc, bytes, claim),
        Kind::ReasonFlags => is_reason_flags(alloc, bytes, claim),
        Kind::Part(part) => is_part(alloc, part, bytes, claim),
        Kind::Pairs => is_in_a_sequence(alloc, bytes, claim),
        Kind::Texts => holds_of::<Texts>(alloc, bytes, claim),
    }
}

// Whether the claim is so of these bytes.
fn is_online(alloc: Global, message: OnlineMessage, bytes: &[u8], claim: Claim) -> bool {
    match message {
        OnlineMessage::OcspRequest => holds_of_message::<OcspRequest>(alloc, bytes, claim),
        OnlineMessage::OcspResponse => holds_of_message::<OcspResponse>(alloc, bytes, claim),
        OnlineMessage::BasicOcspResponse => holds_of_message::<BasicOcspResponse>(
            alloc, bytes, claim,
        ),
        OnlineMessage::TimeStampReq => holds_of_message::<TimeStampReq>(alloc, bytes, claim),
        OnlineMessage::TimeStampResp => holds_of_message::<TimeStampResp>(alloc, bytes, claim),
        OnlineMessage::TstInfo => holds_of_message::<TstInfo>(alloc, bytes, claim),
    }
}

fn is_row(alloc: Global, row: &Row) -> bool {
    match bytes_of(alloc, row.3) {
        Ok(bytes) => is_so(alloc, row.0, &bytes, row.1),
        Err(_) => false,
    }
}

/// The name of the first row that isn't so.
pub fn first_failing(alloc: Global, rows: &[Row]) -> Option<&'static str> {
    for row in rows {
        if !is_row(alloc, row) {
            return Some(row.2);
        }
    }
    None
}
