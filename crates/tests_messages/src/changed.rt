//! Messages that were changed after they were read: which of them can be written.

use crate::checks::{bytes_of, finds_none};
use pkcs8::PrivateKeyInfo;
use snmp::ApplicationSyntax;
use std::alloc::Global;
use x509::{Certificate, Extensions, Name, RelativeDistinguishedName};
use yasna::{ASN1Result, decode_der, encode_der};
use yasna_notation::{Encoded, Message};
use yasna_notation_constraints::{Checked, IsValid};

// A certificate of v3 with an extension, made by hand.
const CERTIFICATE: &str =
    "3077306aa003020102020105300506032b6570300c310a300806035504030c0161301e170d3235303130313030303030305a\
    170d3236303130313030303030305a300c310a300806035504030c0161300b300506032b6570030200aaa310300e300c0603\
    551d130101ff04023000300506032b6570030200aa";

// A key of v1.
const KEY: &str = "300c020100300506032b65700400";

/// Writes a message that can be written. Any such message may be encoded: that is proved here.
pub fn is_written<T: Message + Checked>(alloc: Global, message: T) -> ASN1Result<bool> {
    if !message.is_valid() {
        return Ok(false);
    }
    let encoded = Encoded { value: message };
    let bytes = encode_der(alloc, &encoded)?;
    Ok(bytes.len() > 0)
}

// What is changed of a certificate.
#[derive(Clone, Copy)]
enum Change {
    Nothing,
    /// The version.
    Version(u64),
    /// The sign of the serial number.
    Sign,
    /// The octets of the serial number: none are left.
    SerialNumber,
    /// How many bits the signature has.
    SignatureBits(usize),
    /// The extensions: none are left.
    Extensions,
    /// The issuer: a level of its name without attributes.
    Issuer,
}

static ROWS: [(&str, Change, bool); 9] = [
    ("a certificate", Change::Nothing, true),
    ("a certificate of v1", Change::Version(0), true),
    ("a version out of range", Change::Version(3), false),
    ("a serial number of the wrong sign", Change::Sign, false),
    ("a serial number of no octets", Change::SerialNumber, false),
    ("a signature of 1 bit", Change::SignatureBits(1), true),
    (
        "a signature of more bits than octets",
        Change::SignatureBits(9),
        false,
    ),
    ("a list of no extension", Change::Extensions, false),
    ("a level of a name that is empty", Change::Issuer, false),
];

fn apply(alloc: Global, certificate: &mut Certificate, change: Change) -> ASN1Result<()> {
    let signed = &mut certificate.tbs_certificate;
    match change {
        Change::Nothing => {}
        Change::Version(version) => signed.version = version,
        Change::Sign => signed.serial_number.1 = false,
        Change::SerialNumber => signed.serial_number.0 = Vec::new(alloc),
        Change::SignatureBits(count) => certificate.signature_value.1 = count,
        Change::Extensions => {
            signed.extensions = Some(Extensions {
                extensions: Vec::new(alloc),
            });
        }
        Change::Issuer => {
            let mut levels = Vec::new(alloc);
            levels.push(RelativeDistinguishedName {
                attributes: Vec::new(alloc),
            })?;
            signed.issuer = Name::RdnSequence(levels);
        }
    }
    Ok(())
}

// Whether the certificate can be written after a change.
fn is_written_after(alloc: Global, change: Change) -> ASN1Result<bool> {
    let bytes = bytes_of(alloc, CERTIFICATE)?;
    let encoded: Encoded<Certificate> = decode_der(alloc, bytes.as_slice())?;
    let mut certificate = encoded.into_value();
    apply(alloc, &mut certificate, change)?;
    is_written(alloc, certificate)
}

fn wrong_certificate(alloc: Global) -> Option<&'static str> {
    for (name, change, valid) in &ROWS {
        if is_written_after(alloc, *change) != Ok(*valid) {
            return Some(*name);
        }
    }
    None
}

// Whether a key of this version can be written.
fn is_written_key(alloc: Global, version: u64) -> ASN1Result<bool> {
    let bytes = bytes_of(alloc, KEY)?;
    let encoded: Encoded<PrivateKeyInfo> = decode_der(alloc, bytes.as_slice())?;
    let mut key = encoded.into_value();
    key.version = version;
    is_written(alloc, key)
}

// Whether an address of these octets can be written.
fn is_written_address(alloc: Global, octets: &[u8]) -> ASN1Result<bool> {
    let mut address = Vec::new(alloc);
    address.extend_from_slice(octets)?;
    is_written(alloc, ApplicationSyntax::IpAddressValue(address))
}

#[test]
fn changed_messages_are_tested(rt: HostRuntime) {
    let alloc = rt.alloc();
    finds_none(&rt, wrong_certificate(alloc));
    let rows = [
        ("a key", is_written_key(alloc, 0) == Ok(true)),
        ("a key of v2", is_written_key(alloc, 1) == Ok(false)),
        (
            "an address",
            is_written_address(alloc, &[127, 0, 0, 1]) == Ok(true),
        ),
        (
            "an address of five octets",
            is_written_address(alloc, &[127, 0, 0, 1, 0]) == Ok(false),
        ),
    ];
    let wrong = rows.iter().find(|row| !row.1);
    finds_none(&rt, wrong.map(|row| row.0));
}
