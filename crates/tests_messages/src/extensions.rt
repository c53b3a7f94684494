//! Contents of the extensions of certificates and revocation lists (RFC 5280).

use crate::checks::{Claim, finds_none, holds_of_message};
use crate::kinds::{Kind, Row, first_failing};
use pkix_implicit::{
    AuthorityInfoAccessSyntax, AuthorityKeyIdentifier, BasicConstraints, CertificatePolicies,
    CrlDistributionPoints, ExtKeyUsageSyntax, GeneralNames, IssuingDistributionPoint,
    NameConstraints, PolicyConstraints, PolicyMappings,
};
use std::alloc::Global;
use yasna::BERMode::Ber;

/// The contents of an extension.
#[derive(Clone, Copy)]
pub enum Extension {
    AuthorityInfoAccessSyntax,
    AuthorityKeyIdentifier,
    BasicConstraints,
    CertificatePolicies,
    CrlDistributionPoints,
    ExtKeyUsageSyntax,
    GeneralNames,
    IssuingDistributionPoint,
    NameConstraints,
    PolicyConstraints,
    PolicyMappings,
}

/// Whether the claim is so of these bytes.
pub fn is_extension(alloc: Global, extension: Extension, bytes: &[u8], claim: Claim) -> bool {
    match extension {
        Extension::AuthorityInfoAccessSyntax => holds_of_message::<AuthorityInfoAccessSyntax>(
            alloc, bytes, claim,
        ),
        Extension::AuthorityKeyIdentifier => holds_of_message::<AuthorityKeyIdentifier>(
            alloc, bytes, claim,
        ),
        Extension::BasicConstraints => holds_of_message::<BasicConstraints>(alloc, bytes, claim),
        Extension::CertificatePolicies => holds_of_message::<CertificatePolicies>(
            alloc, bytes, claim,
        ),
        Extension::CrlDistributionPoints => holds_of_message::<CrlDistributionPoints>(
            alloc, bytes, claim,
        ),
        Extension::ExtKeyUsageSyntax => holds_of_message::<ExtKeyUsageSyntax>(alloc, bytes, claim),
        Extension::GeneralNames => holds_of_message::<GeneralNames>(alloc, bytes, claim),
        Extension::IssuingDistributionPoint => holds_of_message::<IssuingDistributionPoint>(
            alloc, bytes, claim,
        ),
        Extension::NameConstraints => holds_of_message::<NameConstraints>(alloc, bytes, claim),
        Extension::PolicyConstraints => holds_of_message::<PolicyConstraints>(alloc, bytes, claim),
        Extension::PolicyMappings => holds_of_message::<PolicyMappings>(alloc, bytes, claim),
    }
}

// The rows with a name of a constant are from a certificate that `openssl req -x509` wrote with these extensions.
const KEY_IDENTIFIER: &str =
    "3044801439a7280933ba218be7bceba5310a28537aeb4ccea116a41430123110300e06035504030c074578616d706c658214\
    5a10f4fad68d698c01b7ce69c0f43117fe8f307d";

const NAMES: &str =
    "308181820b6578616d706c652e636f6d810d61406578616d706c652e636f6d861468747470733a2f2f6578616d706c652e63\
    6f6d2f8704c0000201871020010db800000000000000000000000188032a0304a421301f310b3009060355040613024e4c31\
    10300e060355040a0c074578616d706c65a00d06032a0304a0060c046e616d65";

const POLICIES: &str =
    "305d300506032a0304305406032a0305304d302206082b060105050702011616687474703a2f2f6578616d706c652e636f6d\
    2f637073302706082b06010505070202301b30111a074578616d706c6530060201010201020c064e6f74696365";

const CONSTRAINTS: &str = "301fa00f300d820b6578616d706c652e636f6da10c300a8708c0000200ffffff00";

const POINTS: &str =
    "305c3048a01da01b8619687474703a2f2f6578616d706c652e636f6d2f63612e63726c81020560a223a421301f310b300906\
    0355040613024e4c3110300e060355040a0c074578616d706c653010a00ea10c300a06035504030c0363726c";

const ACCESS: &str =
    "304d302406082b060105050730018618687474703a2f2f6f6373702e6578616d706c652e636f6d2f302506082b0601050507\
    30028619687474703a2f2f6578616d706c652e636f6d2f63612e636572";

const ISSUING_POINT: &str =
    "3029a01da01b8619687474703a2f2f6578616d706c652e636f6d2f63612e63726c8101ff830206408401ff";

static ROWS: [Row; 20] = [
    (
        Kind::Extension(Extension::BasicConstraints),
        Claim::IsEncoding,
        "a CA of three levels",
        "30060101ff020103",
    ),
    (
        Kind::Extension(Extension::BasicConstraints),
        Claim::IsEncoding,
        "no CA",
        "3000",
    ),
    (
        Kind::Extension(Extension::BasicConstraints),
        Claim::Becomes("30030101ff"),
        "TRUE as 1",
        "3003010101",
    ),
    (
        Kind::Extension(Extension::BasicConstraints),
        Claim::Becomes("3000"),
        "FALSE, which is the default",
        "3003010100",
    ),
    (
        Kind::Extension(Extension::BasicConstraints),
        Claim::IsRejected(Ber),
        "a negative number of levels",
        "30060101ff0201ff",
    ),
    (
        Kind::Extension(Extension::ExtKeyUsageSyntax),
        Claim::IsEncoding,
        "two purposes",
        "301406082b0601050507030106082b06010505070302",
    ),
    (
        Kind::Extension(Extension::ExtKeyUsageSyntax),
        Claim::IsRejected(Ber),
        "no purpose",
        "3000",
    ),
    (
        Kind::Extension(Extension::AuthorityKeyIdentifier),
        Claim::IsEncoding,
        "KEY_IDENTIFIER",
        KEY_IDENTIFIER,
    ),
    (
        Kind::Extension(Extension::GeneralNames),
        Claim::IsEncoding,
        "NAMES",
        NAMES,
    ),
    (
        Kind::Extension(Extension::GeneralNames),
        Claim::IsRejected(Ber),
        "a name that isn't in IA5",
        "30058203616280",
    ),
    (
        Kind::Extension(Extension::GeneralNames),
        Claim::IsRejected(Ber),
        "a name of no alternative",
        "30028900",
    ),
    (
        Kind::Extension(Extension::CertificatePolicies),
        Claim::IsEncoding,
        "POLICIES",
        POLICIES,
    ),
    (
        Kind::Extension(Extension::PolicyConstraints),
        Claim::IsEncoding,
        "levels before a policy is required",
        "3006800103810100",
    ),
    (
        Kind::Extension(Extension::PolicyConstraints),
        Claim::IsRejected(Ber),
        "a negative number of certificates",
        "30038001ff",
    ),
    (
        Kind::Extension(Extension::NameConstraints),
        Claim::IsEncoding,
        "CONSTRAINTS",
        CONSTRAINTS,
    ),
    (
        Kind::Extension(Extension::PolicyMappings),
        Claim::IsEncoding,
        "a policy for another one",
        "300c300a06032a030406032a0305",
    ),
    (
        Kind::Extension(Extension::CrlDistributionPoints),
        Claim::IsEncoding,
        "POINTS",
        POINTS,
    ),
    (
        Kind::Extension(Extension::AuthorityInfoAccessSyntax),
        Claim::IsEncoding,
        "ACCESS",
        ACCESS,
    ),
    (
        Kind::Extension(Extension::IssuingDistributionPoint),
        Claim::IsEncoding,
        "ISSUING_POINT",
        ISSUING_POINT,
    ),
    (
        Kind::Extension(Extension::IssuingDistributionPoint),
        Claim::Becomes("3000"),
        "a default that is written",
        "3003820100",
    ),
];

#[test]
fn contents_of_extensions_come_back(rt: HostRuntime) {
    finds_none(&rt, first_failing(rt.alloc(), &ROWS));
}
