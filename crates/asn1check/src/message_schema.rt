//! The tables of the modules of messages, which name the parts of a message that is rejected.

use crate::message_type::MessageType;
use asn1_syntax::tree::Module;
use asn1_types::resolve;
use asn1show_modules::{position_of_reference, schema_of};
use asn1show_schema::Schema;
use message_modules::{
    CMS_LINES, EC_PRIVATE_KEY_LINES, LDAP_LINES, OCSP_LINES, PKCS1_LINES, PKCS8_LINES,
    PKCS10_LINES, PKIX_EXPLICIT_LINES, PKIX_IMPLICIT_LINES, SNMP_LINES, TSP_LINES, modules_of,
};
use std::alloc::{AllocError, Global};

// The modules of a type of messages.
fn modules_for(alloc: Global, kind: MessageType) -> Result<&'static [Module<'static>], AllocError> {
    let explicit = PKIX_EXPLICIT_LINES.as_slice();
    let implicit = PKIX_IMPLICIT_LINES.as_slice();
    match kind {
        MessageType::Certificate
        | MessageType::CertificateList
        | MessageType::SubjectPublicKeyInfo => modules_of(alloc, &[explicit, implicit]),
        MessageType::CertificationRequest => {
            modules_of(alloc, &[PKCS10_LINES.as_slice(), explicit])
        }
        MessageType::OneAsymmetricKey => modules_of(alloc, &[PKCS8_LINES.as_slice(), explicit]),
        MessageType::RsaPublicKey | MessageType::RsaPrivateKey => {
            modules_of(alloc, &[PKCS1_LINES.as_slice(), explicit])
        }
        MessageType::EcPrivateKey => {
            modules_of(alloc, &[EC_PRIVATE_KEY_LINES.as_slice(), explicit])
        }
        MessageType::ContentInfo => modules_of(alloc, &[CMS_LINES.as_slice(), explicit]),
        MessageType::SnmpV1 | MessageType::SnmpV2c => {
            modules_of(alloc, &[SNMP_LINES.as_slice()])
        }
        MessageType::LdapMessage => modules_of(alloc, &[LDAP_LINES.as_slice()]),
        MessageType::OcspRequest | MessageType::OcspResponse => {
            modules_of(alloc, &[OCSP_LINES.as_slice(), explicit, implicit])
        }
        MessageType::TimeStampReq | MessageType::TimeStampResp => {
            modules_of(alloc, &[TSP_LINES.as_slice(), explicit, implicit])
        }
    }
}

// The name of a type of messages in its module.
fn type_name(kind: MessageType) -> &'static str {
    match kind {
        MessageType::Certificate => "Certificate",
        MessageType::CertificateList => "CertificateList",
        MessageType::CertificationRequest => "CertificationRequest",
        MessageType::SubjectPublicKeyInfo => "SubjectPublicKeyInfo",
        MessageType::OneAsymmetricKey => "OneAsymmetricKey",
        MessageType::RsaPublicKey => "RSAPublicKey",
        MessageType::RsaPrivateKey => "RSAPrivateKey",
        MessageType::EcPrivateKey => "ECPrivateKey",
        MessageType::ContentInfo => "ContentInfo",
        MessageType::SnmpV1 => "RFC1157-SNMP.Message",
        MessageType::SnmpV2c => "COMMUNITY-BASED-SNMPv2.Message",
        MessageType::LdapMessage => "LDAPMessage",
        MessageType::OcspRequest => "OCSPRequest",
        MessageType::OcspResponse => "OCSPResponse",
        MessageType::TimeStampReq => "TimeStampReq",
        MessageType::TimeStampResp => "TimeStampResp",
    }
}

/// The tables of the module of a type of messages, if it has the type. `Err` says that memory ran out.
pub fn schema_for(alloc: Global, kind: MessageType) -> Result<Option<Schema>, AllocError> {
    let modules = modules_for(alloc, kind)?;
    let known = Vec::new(alloc);
    let resolved = resolve(alloc, modules, known.leak())?;
    let definitions = resolved.definitions.as_slice();
    match position_of_reference(modules, definitions, type_name(kind).as_bytes()) {
        Some(position) => Ok(Some(schema_of(alloc, modules, &resolved, position)?)),
        None => Ok(None),
    }
}
