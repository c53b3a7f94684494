//! Messages that are types made of types: a DER encoding comes back as it was, and what is none is rejected.

use crate::checks::{Claim, bytes_of, finds_none, gives, holds_of, rejects};
use crate::kinds::{Kind, Row, first_failing};
use crate::rewritten::{extension_from_ber, rewritten_extension};
use snmp::{ApplicationSyntax, SimpleSyntax};
use std::alloc::Global;
use x509::{AlgorithmIdentifier, Attribute, Extensions, Name, SubjectPublicKeyInfo, Validity};
use yasna::ASN1Result;
use yasna::BERMode::Ber;

/// A part of a message.
#[derive(Clone, Copy)]
pub enum Part {
    Algorithm,
    PublicKey,
    Name,
    Attribute,
    Validity,
    Extensions,
    Simple,
    Application,
}

static ROWS: [Row; 24] = [
    (
        Kind::Part(Part::Algorithm),
        Claim::IsEncoding,
        "an algorithm with NULL",
        "300d06092a864886f70d0101010500",
    ),
    (
        Kind::Part(Part::Algorithm),
        Claim::IsEncoding,
        "an algorithm whose last arc is 2^64 - 1",
        "300d060b2a81ffffffffffffffff7f",
    ),
    (
        Kind::Part(Part::Algorithm),
        Claim::IsRejected(Ber),
        "an algorithm whose last arc is 2^64",
        "300d060b2a82808080808080808000",
    ),
    (
        Kind::Part(Part::PublicKey),
        Claim::IsEncoding,
        "a public key",
        "300b300506032b6570030200aa",
    ),
    (
        Kind::Part(Part::Name),
        Claim::IsEncoding,
        "a name of one part",
        "300c310a300806035504030c0161",
    ),
    (
        Kind::Part(Part::Attribute),
        Claim::IsEncoding,
        "an attribute",
        "300a060355040331030c0161",
    ),
    (
        Kind::Part(Part::Validity),
        Claim::IsEncoding,
        "a validity from a UTCTime to a GeneralizedTime",
        "3020170d3235303130313030303030305a180f32303530303130313030303030305a",
    ),
    (
        Kind::Part(Part::Extensions),
        Claim::IsEncoding,
        "an extension",
        "300e300c0603551d130101ff04023000",
    ),
    (
        Kind::Part(Part::Simple),
        Claim::IsEncoding,
        "a number",
        "020105",
    ),
    (
        Kind::Part(Part::Simple),
        Claim::IsEncoding,
        "a string",
        "040161",
    ),
    (
        Kind::Part(Part::Simple),
        Claim::IsEncoding,
        "an object identifier",
        "0603550403",
    ),
    (
        Kind::Part(Part::Application),
        Claim::IsEncoding,
        "an address",
        "40047f000001",
    ),
    (
        Kind::Part(Part::Application),
        Claim::IsEncoding,
        "a counter",
        "410107",
    ),
    (
        Kind::Part(Part::Application),
        Claim::IsEncoding,
        "an unsigned number",
        "420107",
    ),
    (
        Kind::Part(Part::Application),
        Claim::IsEncoding,
        "ticks",
        "430107",
    ),
    (
        Kind::Part(Part::Application),
        Claim::IsEncoding,
        "an opaque value",
        "440161",
    ),
    (
        Kind::Part(Part::Application),
        Claim::IsEncoding,
        "a count of 64 bits",
        "460107",
    ),
    (
        Kind::Part(Part::Application),
        Claim::IsNoEncoding,
        "an address of three octets",
        "40037f0000",
    ),
    (
        Kind::Part(Part::Name),
        Claim::IsNoEncoding,
        "a part of a name with no attribute",
        "30023100",
    ),
    (
        Kind::Part(Part::Extensions),
        Claim::IsNoEncoding,
        "no extension",
        "3000",
    ),
    (
        Kind::Part(Part::Name),
        Claim::IsCerEncoding,
        "a name of one part in CER",
        "30803180308006035504030c0161000000000000",
    ),
    (
        Kind::Part(Part::Attribute),
        Claim::IsCerEncoding,
        "an attribute in CER",
        "3080060355040331800c016100000000",
    ),
    (
        Kind::Part(Part::Validity),
        Claim::IsCerEncoding,
        "a validity from a UTCTime to a GeneralizedTime in CER",
        "3080170d3235303130313030303030305a180f32303530303130313030303030305a0000",
    ),
    (
        Kind::Part(Part::Extensions),
        Claim::IsCerEncoding,
        "an extension in CER",
        "308030800603551d130101ff0402300000000000",
    ),
];

/// Whether the claim is so of such a part.
pub fn is_part(alloc: Global, part: Part, bytes: &[u8], claim: Claim) -> bool {
    match part {
        Part::Algorithm => holds_of::<AlgorithmIdentifier>(alloc, bytes, claim),
        Part::PublicKey => holds_of::<SubjectPublicKeyInfo>(alloc, bytes, claim),
        Part::Name => holds_of::<Name>(alloc, bytes, claim),
        Part::Attribute => holds_of::<Attribute>(alloc, bytes, claim),
        Part::Validity => holds_of::<Validity>(alloc, bytes, claim),
        Part::Extensions => holds_of::<Extensions>(alloc, bytes, claim),
        Part::Simple => holds_of::<SimpleSyntax>(alloc, bytes, claim),
        Part::Application => holds_of::<ApplicationSyntax>(alloc, bytes, claim),
    }
}

// Parts of certificates, values of variables, and too few parts.
#[test]
fn parts_and_values_round_trip_or_are_rejected(rt: HostRuntime) {
    finds_none(&rt, first_failing(rt.alloc(), &ROWS));
}

// A name, an extension in BER, whether it is critical, and whether DER takes it.
static EXTENSIONS: [(&str, &str, bool, bool); 2] = [
    ("an extension", "300c0603551d130101ff04023000", true, true),
    (
        "a default that is written out",
        "300c0603551d1301010004023000",
        false,
        false,
    ),
];

// Whether BER reads an extension that is critical as the row says, with an empty SEQUENCE, and it is rewritten in DER or rejected.
fn is_extension(alloc: Global, text: &str, is_critical: bool, is_der: bool) -> ASN1Result<bool> {
    let bytes = bytes_of(alloc, text)?;
    let extension = extension_from_ber(alloc, &bytes)?;
    let outcome = rewritten_extension(alloc, &bytes);
    let is_expected = if is_der {
        gives(outcome, &bytes)
    } else {
        rejects(outcome)
    };
    Ok(
        is_expected
            && extension.critical == is_critical
            && extension.extn_value.as_slice() == [0x30, 0x00].as_slice(),
    )
}

#[test]
fn extensions_are_rewritten(rt: HostRuntime) {
    for row in &EXTENSIONS {
        let is_so = is_extension(rt.alloc(), row.1, row.2, row.3);
        assert!(rt; matches!(is_so, Ok(true)), "{:?}", row.0);
    }
}
