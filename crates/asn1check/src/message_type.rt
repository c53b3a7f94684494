//! The types of messages, and how each is checked and encoded.
ghost use Rattle.std.specs.Prelude.{◌≡◌, None, IfOk, IsSomeAnd, MatchOption};
ghost use Rattle.yasna.proofs.Laws.{can_be_written};
ghost use Rattle.asn1check.specs.Kinds.{kind_word, sent_in, IsLabel, ForType};
ghost use Rattle.asn1check.specs.Rewriting.{Rewritten};
ghost use Rattle.asn1check.specs.Messages.{AllChecked, Reencoded};
ghost use Rattle.asn1check.specs.declared.message_type.MessageType.{MessageType};

use crate::reading::{message_converted, message_located, message_rewritten, messages_checked};
use cms::ContentInfo;
use ec_keys::EcPrivateKey;
use ldap::LdapMessage;
use ocsp::{OcspRequest, OcspResponse};
use pkcs8::OneAsymmetricKey;
use pkcs10::CertificationRequest;
use rsa_keys::{RsaPrivateKey, RsaPublicKey};
use snmp::{v1, v2c};
use std::alloc::Global;
use tsp::{TimeStampReq, TimeStampResp};
use x509::{Certificate, CertificateList, SubjectPublicKeyInfo};
use yasna::{ASN1Result, BERDecodable, BERMode, DEREncodable, Located};
use yasna_notation::Encoded;

/// A type of messages.
#[derive(Clone, Copy, PartialEq)]
pub enum MessageType {
    /// A certificate of X.509 (RFC 5280).
    Certificate,
    /// A certificate revocation list (RFC 5280).
    CertificateList,
    /// A request for a certificate (RFC 2986).
    CertificationRequest,
    /// A public key (RFC 5280).
    SubjectPublicKeyInfo,
    /// A private key (RFC 5958).
    OneAsymmetricKey,
    /// A public key of RSA (RFC 8017).
    RsaPublicKey,
    /// A private key of RSA (RFC 8017).
    RsaPrivateKey,
    /// A private key on an elliptic curve (RFC 5915).
    EcPrivateKey,
    /// A message of CMS (RFC 5652).
    ContentInfo,
    /// A message of SNMPv1 (RFC 1157).
    SnmpV1,
    /// A message of SNMPv2c (RFC 1901).
    SnmpV2c,
    /// A message of LDAP (RFC 4511).
    LdapMessage,
    /// A request for the status of certificates (RFC 6960).
    OcspRequest,
    /// A response on the status of certificates (RFC 6960).
    OcspResponse,
    /// A request for a time-stamp (RFC 3161).
    TimeStampReq,
    /// A response to a request for a time-stamp (RFC 3161).
    TimeStampResp,
}

impl MessageType {
    /// The type of this name.
    pub fn named(word: &str) -> Option<MessageType>
        ensures { MatchOption result ((k : MessageType) → word.now ≡ kind_word k → ⊥) (λ k. word.now ≡ kind_word k) }
    {
        match word {
            "certificate" => Some(MessageType::Certificate),
            "crl" => Some(MessageType::CertificateList),
            "csr" => Some(MessageType::CertificationRequest),
            "public-key" => Some(MessageType::SubjectPublicKeyInfo),
            "private-key" => Some(MessageType::OneAsymmetricKey),
            "rsa-public-key" => Some(MessageType::RsaPublicKey),
            "rsa-private-key" => Some(MessageType::RsaPrivateKey),
            "ec-private-key" => Some(MessageType::EcPrivateKey),
            "cms" => Some(MessageType::ContentInfo),
            "snmp-v1" => Some(MessageType::SnmpV1),
            "snmp-v2c" => Some(MessageType::SnmpV2c),
            "ldap" => Some(MessageType::LdapMessage),
            "ocsp-request" => Some(MessageType::OcspRequest),
            "ocsp-response" => Some(MessageType::OcspResponse),
            "tsp-request" => Some(MessageType::TimeStampReq),
            "tsp-response" => Some(MessageType::TimeStampResp),
            _ => None,
        }
    }

    /// The type whose messages have this label in PEM (RFC 7468).
    pub fn labelled(label: &[u8]) -> Option<MessageType>
        ensures { MatchOption result ((k : MessageType) → IsLabel k label.now → ⊥) (λ k. IsLabel k label.now) }
    {
        if label == b"CERTIFICATE".as_slice() {
            Some(MessageType::Certificate)
        } else if label == b"X509 CRL".as_slice() {
            Some(MessageType::CertificateList)
        } else if label == b"CERTIFICATE REQUEST".as_slice() {
            Some(MessageType::CertificationRequest)
        } else if label == b"NEW CERTIFICATE REQUEST".as_slice() {
            Some(MessageType::CertificationRequest)
        } else if label == b"PUBLIC KEY".as_slice() {
            Some(MessageType::SubjectPublicKeyInfo)
        } else if label == b"PRIVATE KEY".as_slice() {
            Some(MessageType::OneAsymmetricKey)
        } else if label == b"RSA PUBLIC KEY".as_slice() {
            Some(MessageType::RsaPublicKey)
        } else if label == b"RSA PRIVATE KEY".as_slice() {
            Some(MessageType::RsaPrivateKey)
        } else if label == b"EC PRIVATE KEY".as_slice() {
            Some(MessageType::EcPrivateKey)
        } else if label == b"CMS".as_slice() {
            Some(MessageType::ContentInfo)
        } else if label == b"PKCS7".as_slice() {
            Some(MessageType::ContentInfo)
        } else {
            None
        }
    }

    /// The encoding rules that messages of this type are sent in: BER for SNMP and LDAP, DER for all others.
    pub fn mode(self) -> BERMode
        ensures { result ≡ sent_in self }
    {
        match self {
            MessageType::SnmpV1 | MessageType::SnmpV2c | MessageType::LdapMessage => BERMode::Ber,
            _ => BERMode::Der,
        }
    }

    /// Reads messages of this type in these encoding rules, one after the other, drops them, and returns how many they are.
    ///
    /// An error is one of the bytes, of which a piece is no such message, or `OutOfMemory`.
    pub fn checked(self, alloc: Global, mode: BERMode, bytes: &[u8]) -> ASN1Result<usize>
        ensures { ForType self
            (AllChecked ⟦<Encoded<Certificate> as BERDecodable>⟧.encodes mode bytes.now result)
            (AllChecked ⟦<Encoded<CertificateList> as BERDecodable>⟧.encodes mode bytes.now result)
            (AllChecked ⟦<Encoded<CertificationRequest> as BERDecodable>⟧.encodes mode bytes.now result)
            (AllChecked ⟦<Encoded<SubjectPublicKeyInfo> as BERDecodable>⟧.encodes mode bytes.now result)
            (AllChecked ⟦<Encoded<OneAsymmetricKey> as BERDecodable>⟧.encodes mode bytes.now result)
            (AllChecked ⟦<Encoded<RsaPublicKey> as BERDecodable>⟧.encodes mode bytes.now result)
            (AllChecked ⟦<Encoded<RsaPrivateKey> as BERDecodable>⟧.encodes mode bytes.now result)
            (AllChecked ⟦<Encoded<EcPrivateKey> as BERDecodable>⟧.encodes mode bytes.now result)
            (AllChecked ⟦<Encoded<ContentInfo> as BERDecodable>⟧.encodes mode bytes.now result)
            (AllChecked ⟦<Encoded<v1::SnmpMessage> as BERDecodable>⟧.encodes mode bytes.now result)
            (AllChecked ⟦<Encoded<v2c::SnmpMessage> as BERDecodable>⟧.encodes mode bytes.now result)
            (AllChecked ⟦<Encoded<LdapMessage> as BERDecodable>⟧.encodes mode bytes.now result)
            (AllChecked ⟦<Encoded<OcspRequest> as BERDecodable>⟧.encodes mode bytes.now result)
            (AllChecked ⟦<Encoded<OcspResponse> as BERDecodable>⟧.encodes mode bytes.now result)
            (AllChecked ⟦<Encoded<TimeStampReq> as BERDecodable>⟧.encodes mode bytes.now result)
            (AllChecked ⟦<Encoded<TimeStampResp> as BERDecodable>⟧.encodes mode bytes.now result) }
    {
        match self {
            MessageType::Certificate => messages_checked::<Certificate>(alloc, mode, bytes),
            MessageType::CertificateList => messages_checked::<CertificateList>(alloc, mode, bytes),
            MessageType::CertificationRequest => messages_checked::<CertificationRequest>(
                alloc, mode, bytes,
            ),
            MessageType::SubjectPublicKeyInfo => messages_checked::<SubjectPublicKeyInfo>(
                alloc, mode, bytes,
            ),
            MessageType::OneAsymmetricKey => messages_checked::<OneAsymmetricKey>(
                alloc, mode, bytes,
            ),
            MessageType::RsaPublicKey => messages_checked::<RsaPublicKey>(alloc, mode, bytes),
            MessageType::RsaPrivateKey => messages_checked::<RsaPrivateKey>(alloc, mode, bytes),
            MessageType::EcPrivateKey => messages_checked::<EcPrivateKey>(alloc, mode, bytes),
            MessageType::ContentInfo => messages_checked::<ContentInfo>(alloc, mode, bytes),
            MessageType::SnmpV1 => messages_checked::<v1::SnmpMessage>(alloc, mode, bytes),
            MessageType::SnmpV2c => messages_checked::<v2c::SnmpMessage>(alloc, mode, bytes),
            MessageType::LdapMessage => messages_checked::<LdapMessage>(alloc, mode, bytes),
            MessageType::OcspRequest => messages_checked::<OcspRequest>(alloc, mode, bytes),
            MessageType::OcspResponse => messages_checked::<OcspResponse>(alloc, mode, bytes),
            MessageType::TimeStampReq => messages_checked::<TimeStampReq>(alloc, mode, bytes),
            MessageType::TimeStampResp => messages_checked::<TimeStampResp>(alloc, mode, bytes),
        }
    }

    /// Reads a message of this type in DER, and writes it: the bytes are its DER encoding, which is written again.
    ///
    /// An error is one of the bytes, which are no such message, or `OutOfMemory`.
    pub fn rewritten(self, alloc: Global, bytes: &[u8]) -> ASN1Result<Vec<u8>>
        ensures same { IfOk result (λ encoding. encoding.items ≡ bytes.now) }
        ensures written { ForType self
            (Rewritten ⟦<Encoded<Certificate> as BERDecodable>⟧.encodes ⟦<Encoded<Certificate> as DEREncodable>⟧.encoding bytes.now result)
            (Rewritten ⟦<Encoded<CertificateList> as BERDecodable>⟧.encodes ⟦<Encoded<CertificateList> as DEREncodable>⟧.encoding bytes.now result)
            (Rewritten ⟦<Encoded<CertificationRequest> as BERDecodable>⟧.encodes ⟦<Encoded<CertificationRequest> as DEREncodable>⟧.encoding bytes.now result)
            (Rewritten ⟦<Encoded<SubjectPublicKeyInfo> as BERDecodable>⟧.encodes ⟦<Encoded<SubjectPublicKeyInfo> as DEREncodable>⟧.encoding bytes.now result)
            (Rewritten ⟦<Encoded<OneAsymmetricKey> as BERDecodable>⟧.encodes ⟦<Encoded<OneAsymmetricKey> as DEREncodable>⟧.encoding bytes.now result)
            (Rewritten ⟦<Encoded<RsaPublicKey> as BERDecodable>⟧.encodes ⟦<Encoded<RsaPublicKey> as DEREncodable>⟧.encoding bytes.now result)
            (Rewritten ⟦<Encoded<RsaPrivateKey> as BERDecodable>⟧.encodes ⟦<Encoded<RsaPrivateKey> as DEREncodable>⟧.encoding bytes.now result)
            (Rewritten ⟦<Encoded<EcPrivateKey> as BERDecodable>⟧.encodes ⟦<Encoded<EcPrivateKey> as DEREncodable>⟧.encoding bytes.now result)
            (Rewritten ⟦<Encoded<ContentInfo> as BERDecodable>⟧.encodes ⟦<Encoded<ContentInfo> as DEREncodable>⟧.encoding bytes.now result)
            (Rewritten ⟦<Encoded<v1::SnmpMessage> as BERDecodable>⟧.encodes ⟦<Encoded<v1::SnmpMessage> as DEREncodable>⟧.encoding bytes.now result)
            (Rewritten ⟦<Encoded<v2c::SnmpMessage> as BERDecodable>⟧.encodes ⟦<Encoded<v2c::SnmpMessage> as DEREncodable>⟧.encoding bytes.now result)
            (Rewritten ⟦<Encoded<LdapMessage> as BERDecodable>⟧.encodes ⟦<Encoded<LdapMessage> as DEREncodable>⟧.encoding bytes.now result)
            (Rewritten ⟦<Encoded<OcspRequest> as BERDecodable>⟧.encodes ⟦<Encoded<OcspRequest> as DEREncodable>⟧.encoding bytes.now result)
            (Rewritten ⟦<Encoded<OcspResponse> as BERDecodable>⟧.encodes ⟦<Encoded<OcspResponse> as DEREncodable>⟧.encoding bytes.now result)
            (Rewritten ⟦<Encoded<TimeStampReq> as BERDecodable>⟧.encodes ⟦<Encoded<TimeStampReq> as DEREncodable>⟧.encoding bytes.now result)
            (Rewritten ⟦<Encoded<TimeStampResp> as BERDecodable>⟧.encodes ⟦<Encoded<TimeStampResp> as DEREncodable>⟧.encoding bytes.now result) }
    {
        match self {
            MessageType::Certificate => message_rewritten::<Certificate>(alloc, bytes),
            MessageType::CertificateList => message_rewritten::<CertificateList>(alloc, bytes),
            MessageType::CertificationRequest => message_rewritten::<CertificationRequest>(
                alloc, bytes,
            ),
            MessageType::SubjectPublicKeyInfo => message_rewritten::<SubjectPublicKeyInfo>(
                alloc, bytes,
            ),
            MessageType::OneAsymmetricKey => message_rewritten::<OneAsymmetricKey>(alloc, bytes),
            MessageType::RsaPublicKey => message_rewritten::<RsaPublicKey>(alloc, bytes),
            MessageType::RsaPrivateKey => message_rewritten::<RsaPrivateKey>(alloc, bytes),
            MessageType::EcPrivateKey => message_rewritten::<EcPrivateKey>(alloc, bytes),
            MessageType::ContentInfo => message_rewritten::<ContentInfo>(alloc, bytes),
            MessageType::SnmpV1 => message_rewritten::<v1::SnmpMessage>(alloc, bytes),
            MessageType::SnmpV2c => message_rewritten::<v2c::SnmpMessage>(alloc, bytes),
            MessageType::LdapMessage => message_rewritten::<LdapMessage>(alloc, bytes),
            MessageType::OcspRequest => message_rewritten::<OcspRequest>(alloc, bytes),
            MessageType::OcspResponse => message_rewritten::<OcspResponse>(alloc, bytes),
            MessageType::TimeStampReq => message_rewritten::<TimeStampReq>(alloc, bytes),
            MessageType::TimeStampResp => message_rewritten::<TimeStampResp>(alloc, bytes),
        }
    }

    /// Reads a message of this type in these encoding rules, and writes it in DER, or None for a type of which parts stay as they came.
    ///
    /// An error is one of the bytes, which are no such message, or `OutOfMemory`.
    pub fn converted(
        self,
        alloc: Global,
        mode: BERMode,
        bytes: &[u8],
    ) -> Option<ASN1Result<Vec<u8>>>
        ensures rsa_public_key { self ≡ MessageType.RsaPublicKey → IsSomeAnd result (Reencoded
            ⟦<Encoded<RsaPublicKey> as BERDecodable>⟧.encodes ⟦<Encoded<RsaPublicKey> as DEREncodable>⟧.encoding mode bytes.now) }
        ensures rsa_private_key { self ≡ MessageType.RsaPrivateKey → IsSomeAnd result (Reencoded
            ⟦<Encoded<RsaPrivateKey> as BERDecodable>⟧.encodes ⟦<Encoded<RsaPrivateKey> as DEREncodable>⟧.encoding mode bytes.now) }
        ensures snmp_v1 { self ≡ MessageType.SnmpV1 → IsSomeAnd result (Reencoded
            ⟦<Encoded<v1::SnmpMessage> as BERDecodable>⟧.encodes ⟦<Encoded<v1::SnmpMessage> as DEREncodable>⟧.encoding mode bytes.now) }
        ensures snmp_v2c { self ≡ MessageType.SnmpV2c → IsSomeAnd result (Reencoded
            ⟦<Encoded<v2c::SnmpMessage> as BERDecodable>⟧.encodes ⟦<Encoded<v2c::SnmpMessage> as DEREncodable>⟧.encoding mode bytes.now) }
        ensures ocsp_response { self ≡ MessageType.OcspResponse → IsSomeAnd result (Reencoded
            ⟦<Encoded<OcspResponse> as BERDecodable>⟧.encodes ⟦<Encoded<OcspResponse> as DEREncodable>⟧.encoding mode bytes.now) }
        ensures others { (self ≡ MessageType.RsaPublicKey → ⊥) → (self ≡ MessageType.RsaPrivateKey → ⊥) →
            (self ≡ MessageType.SnmpV1 → ⊥) → (self ≡ MessageType.SnmpV2c → ⊥) → (self ≡ MessageType.OcspResponse → ⊥) →
            result ≡ None }
    {
        match self {
            MessageType::RsaPublicKey => Some(message_converted::<RsaPublicKey>(
                alloc, mode, bytes,
            )),
            MessageType::RsaPrivateKey => Some(message_converted::<RsaPrivateKey>(
                alloc, mode, bytes,
            )),
            MessageType::SnmpV1 => Some(message_converted::<v1::SnmpMessage>(alloc, mode, bytes)),
            MessageType::SnmpV2c => Some(message_converted::<v2c::SnmpMessage>(alloc, mode, bytes)),
            MessageType::OcspResponse => Some(message_converted::<OcspResponse>(
                alloc, mode, bytes,
            )),
            _ => None,
        }
    }

    /// Reads a message of this type in these encoding rules again, and returns why it is rejected, and where.
    ///
    /// It is for reports: no contract says what it returns.
    pub fn located(self, alloc: Global, mode: BERMode, bytes: &[u8]) -> Option<Located> {
        match self {
            MessageType::Certificate => message_located::<Certificate>(alloc, mode, bytes),
            MessageType::CertificateList => message_located::<CertificateList>(alloc, mode, bytes),
            MessageType::CertificationRequest => message_located::<CertificationRequest>(
                alloc, mode, bytes,
            ),
            MessageType::SubjectPublicKeyInfo => message_located::<SubjectPublicKeyInfo>(
                alloc, mode, bytes,
            ),
            MessageType::OneAsymmetricKey => message_located::<OneAsymmetricKey>(
                alloc, mode, bytes,
            ),
            MessageType::RsaPublicKey => message_located::<RsaPublicKey>(alloc, mode, bytes),
            MessageType::RsaPrivateKey => message_located::<RsaPrivateKey>(alloc, mode, bytes),
            MessageType::EcPrivateKey => message_located::<EcPrivateKey>(alloc, mode, bytes),
            MessageType::ContentInfo => message_located::<ContentInfo>(alloc, mode, bytes),
            MessageType::SnmpV1 => message_located::<v1::SnmpMessage>(alloc, mode, bytes),
            MessageType::SnmpV2c => message_located::<v2c::SnmpMessage>(alloc, mode, bytes),
            MessageType::LdapMessage => message_located::<LdapMessage>(alloc, mode, bytes),
            MessageType::OcspRequest => message_located::<OcspRequest>(alloc, mode, bytes),
            MessageType::OcspResponse => message_located::<OcspResponse>(alloc, mode, bytes),
            MessageType::TimeStampReq => message_located::<TimeStampReq>(alloc, mode, bytes),
            MessageType::TimeStampResp => message_located::<TimeStampResp>(alloc, mode, bytes),
        }
    }
}
