//! The named bits of `KeyUsage` and `ReasonFlags`: what the octets hold of extensions in certificates that `openssl req -x509` made, with
//! `keyUsage` and `reasons` in its configuration, and rows made of these.

use crate::checks::{Claim, Fields, Looks, finds_none, holds_or_says, message_becomes};
use crate::kinds::{Kind, Row, first_failing};
use std::alloc::Global;
use x509::{KeyUsage, ReasonFlags};
use yasna::BERMode::Ber;

static ROWS: [Row; 18] = [
    (
        Kind::KeyUsage,
        Claim::IsEncoding,
        "digitalSignature, keyCertSign, cRLSign",
        "03020186",
    ),
    (
        Kind::KeyUsage,
        Claim::IsEncoding,
        "keyCertSign, cRLSign, as the root certificate ISRG Root X1 has it",
        "03020106",
    ),
    (
        Kind::KeyUsage,
        Claim::IsEncoding,
        "digitalSignature, keyEncipherment",
        "030205a0",
    ),
    (
        Kind::KeyUsage,
        Claim::IsEncoding,
        "keyAgreement, decipherOnly",
        "0303070880",
    ),
    (Kind::KeyUsage, Claim::IsEncoding, "all nine", "030307ff80"),
    (
        Kind::KeyUsage,
        Claim::IsEncoding,
        "none, which the module allows",
        "030100",
    ),
    (
        Kind::KeyUsage,
        Claim::IsEncoding,
        "bit 9, which the module doesn't name",
        "0303060040",
    ),
    (
        Kind::KeyUsage,
        Claim::Says(Ber, Fields::Numbers),
        "that a key agrees and deciphers only",
        "0303070880",
    ),
    (
        Kind::KeyUsage,
        Claim::Says(Ber, Fields::All),
        "that all nine are there",
        "030307ff80",
    ),
    (
        Kind::KeyUsage,
        Claim::Says(Ber, Fields::Unknown),
        "that the unused bits of BER are no bits",
        "030204ff",
    ),
    (
        Kind::KeyUsage,
        Claim::Becomes("03020186"),
        "zero bits at the end",
        "0303008600",
    ),
    (
        Kind::KeyUsage,
        Claim::IsNoEncoding,
        "no DER encoding: unused bits that are one",
        "03020187",
    ),
    (
        Kind::KeyUsage,
        Claim::IsRejected(Ber),
        "nine unused bits",
        "03020986",
    ),
    (
        Kind::ReasonFlags,
        Claim::IsEncoding,
        "keyCompromise, cACompromise",
        "03020560",
    ),
    (
        Kind::ReasonFlags,
        Claim::IsEncoding,
        "superseded, aACompromise",
        "0303070880",
    ),
    (
        Kind::ReasonFlags,
        Claim::Says(Ber, Fields::Numbers),
        "that keys are compromised",
        "03020560",
    ),
    (
        Kind::ReasonFlags,
        Claim::Says(Ber, Fields::All),
        "that all eight are there",
        "0303077f80",
    ),
    (
        Kind::ReasonFlags,
        Claim::Becomes("03020560"),
        "zero bits at the end of reasons",
        "03020060",
    ),
];

/// Whether the claim is so of a KeyUsage.
pub fn is_key_usage(alloc: Global, bytes: &[u8], claim: Claim) -> bool {
    match claim {
        Claim::Becomes(encoding) => message_becomes::<KeyUsage>(alloc, bytes, encoding),
        _ => holds_or_says::<KeyUsage>(alloc, bytes, claim),
    }
}

/// Whether the claim is so of ReasonFlags.
pub fn is_reason_flags(alloc: Global, bytes: &[u8], claim: Claim) -> bool {
    match claim {
        Claim::Becomes(encoding) => message_becomes::<ReasonFlags>(alloc, bytes, encoding),
        _ => holds_or_says::<ReasonFlags>(alloc, bytes, claim),
    }
}

// The names that are there, as the digits of a number: the bit 0 is its lowest.
fn names_of(usage: &KeyUsage) -> u16 {
    let names = [
        usage.digital_signature(),
        usage.content_commitment(),
        usage.key_encipherment(),
        usage.data_encipherment(),
        usage.key_agreement(),
        usage.key_cert_sign(),
        usage.crl_sign(),
        usage.encipher_only(),
        usage.decipher_only(),
    ];
    number_of(&names)
}

fn reasons_of(reasons: &ReasonFlags) -> u16 {
    let names = [
        false,
        reasons.key_compromise(),
        reasons.ca_compromise(),
        reasons.affiliation_changed(),
        reasons.superseded(),
        reasons.cessation_of_operation(),
        reasons.certificate_hold(),
        reasons.privilege_withdrawn(),
        reasons.aa_compromise(),
    ];
    number_of(&names)
}

fn number_of(flags: &[bool]) -> u16 {
    let mut number = 0;
    for flag in flags.iter().rev() {
        number = number % 256 * 2 + u16::from(*flag);
    }
    number
}

impl Looks for KeyUsage {
    fn has(&self, fields: Fields) -> bool {
        let names = match fields {
            Fields::Numbers => 0b1_0001_0000,
            Fields::Unknown => 0b0_0000_1111,
            _ => 0b1_1111_1111,
        };
        names_of(self) == names
    }
}

impl Looks for ReasonFlags {
    fn has(&self, fields: Fields) -> bool {
        let names = match fields {
            Fields::Numbers => 0b0_0000_0110,
            _ => 0b1_1111_1110,
        };
        reasons_of(self) == names
    }
}

// They come back, zeros at the end are removed, and each name has its bit.
#[test]
fn named_bits_come_back(rt: HostRuntime) {
    finds_none(&rt, first_failing(rt.alloc(), &ROWS));
}
