//! Certificates and revocation lists (RFC 5280), as OpenSSL 3.0.19 made them: the bytes that they were come back.

use crate::checks::{Claim, Fields, Looks, finds_none};
use crate::kinds::{Kind, Row, first_failing};
use std::alloc::Global;
use x509::{Certificate, CertificateList, Signed, read_signed_certificate, read_signed_list};
use yasna::BERMode::{Ber, Cer};
use yasna::{ASN1Error, ASN1ErrorKind, ASN1Result, BERReader, parse_der};

// `openssl req -x509` with a key on P-256 and extensions: v3.
const AUTHORITY: &str =
    "308201b83082015ea003020102020800f1e2d3c4b5a697300a06082a8648ce3d040302303f310b3009060355040613024e4c\
    31143012060355040a0c0b4578616d706c65204f7267311a301806035504030c114578616d706c6520417574686f72697479\
    3020170d3236313132353038303435375a180f32303531303731373038303435375a303f310b3009060355040613024e4c31\
    143012060355040a0c0b4578616d706c65204f7267311a301806035504030c114578616d706c6520417574686f7269747930\
    59301306072a8648ce3d020106082a8648ce3d03010703420004b49db5bd057563983b5df2da4f9b2cc3d7ca5b3ab154989b\
    9ebd8498c429ca3be4b490aa64bf04be28a7582b2105743992a610be655b356aab6677db4f077e31a3423040300f0603551d\
    130101ff040530030101ff300e0603551d0f0101ff040403020106301d0603551d0e041604146ebabfcc06afddd7c785d460\
    1a2db969bd747754300a06082a8648ce3d04030203480030450221009d556b5dc9837ef3f3e8759189d972f0f1f492a7f213\
    234a85045fb06368403602206ec0dad2f0edcdb3cefb0267341dec7bf01444054bf49e1430fafd90fe454a00";

// `openssl x509 -req` with no extensions: v1.
const LEAF: &str =
    "308201053081ad020105300a06082a8648ce3d040302303f310b3009060355040613024e4c31143012060355040a0c0b4578\
    616d706c65204f7267311a301806035504030c114578616d706c6520417574686f72697479301e170d323631313235303830\
    3435375a170d3237313132353038303435375a300f310d300b06035504030c046c656166302a300506032b65700321006f90\
    df22420d4519c963cdab5980f30545cd52e22df4af153c57187f928326f7300a06082a8648ce3d040302034700304402204b\
    db17a817dcca992ac9cdda5ea9d0a48280bb4d1d2576f31e3f7656ad3ae60602206f4b99d6c1a1cccacbe282e0167f6f0052\
    5aea00ae45bc7ab0b74852d15acff1";

// `openssl ca -gencrl` after one `-revoke`: v2, with an entry that has extensions.
const REVOKED: &str =
    "3082011c3081c3020101300a06082a8648ce3d040302303f310b3009060355040613024e4c31143012060355040a0c0b4578\
    616d706c65204f7267311a301806035504030c114578616d706c6520417574686f72697479170d3236313132353038303435\
    375a170d3236313232353038303435375a30223020020106170d3236313132353038303435375a300c300a0603551d150403\
    0a0101a02f302d301f0603551d230418301680146ebabfcc06afddd7c785d4601a2db969bd747754300a0603551d14040302\
    0101300a06082a8648ce3d04030203480030450220223b31a996765ce918e9f9f9dffafceab29055f1d2fadc0d56c878afca\
    9a5fec022100a81803f202b500c5c834aaa800b28f39ce5dee989da5d8ce30caf15364b11fc9";

// AUTHORITY with both unique identifiers put in by hand.
const UNIQUE: &str =
    "308201c130820167a003020102020800f1e2d3c4b5a697300a06082a8648ce3d040302303f310b3009060355040613024e4c\
    31143012060355040a0c0b4578616d706c65204f7267311a301806035504030c114578616d706c6520417574686f72697479\
    3020170d3236313132353038303435375a180f32303531303731373038303435375a303f310b3009060355040613024e4c31\
    143012060355040a0c0b4578616d706c65204f7267311a301806035504030c114578616d706c6520417574686f7269747930\
    59301306072a8648ce3d020106082a8648ce3d03010703420004b49db5bd057563983b5df2da4f9b2cc3d7ca5b3ab154989b\
    9ebd8498c429ca3be4b490aa64bf04be28a7582b2105743992a610be655b356aab6677db4f077e31810304abc082020055a3\
    423040300f0603551d130101ff040530030101ff300e0603551d0f0101ff040403020106301d0603551d0e041604146ebabf\
    cc06afddd7c785d4601a2db969bd747754300a06082a8648ce3d04030203480030450221009d556b5dc9837ef3f3e8759189\
    d972f0f1f492a7f213234a85045fb06368403602206ec0dad2f0edcdb3cefb0267341dec7bf01444054bf49e1430fafd90fe\
    454a00";

// LEAF with its version put in by hand, which is the default.
const WRITTEN_OUT: &str =
    "3082010a3081b2a003020100020105300a06082a8648ce3d040302303f310b3009060355040613024e4c3114301206035504\
    0a0c0b4578616d706c65204f7267311a301806035504030c114578616d706c6520417574686f72697479301e170d32363131\
    32353038303435375a170d3237313132353038303435375a300f310d300b06035504030c046c656166302a300506032b6570\
    0321006f90df22420d4519c963cdab5980f30545cd52e22df4af153c57187f928326f7300a06082a8648ce3d040302034700\
    304402204bdb17a817dcca992ac9cdda5ea9d0a48280bb4d1d2576f31e3f7656ad3ae60602206f4b99d6c1a1cccacbe282e0\
    167f6f00525aea00ae45bc7ab0b74852d15acff1";

// LEAF with the number 3 put in by hand, which is that of no version.
const NO_VERSION: &str =
    "3082010a3081b2a003020103020105300a06082a8648ce3d040302303f310b3009060355040613024e4c3114301206035504\
    0a0c0b4578616d706c65204f7267311a301806035504030c114578616d706c6520417574686f72697479301e170d32363131\
    32353038303435375a170d3237313132353038303435375a300f310d300b06035504030c046c656166302a300506032b6570\
    0321006f90df22420d4519c963cdab5980f30545cd52e22df4af153c57187f928326f7300a06082a8648ce3d040302034700\
    304402204bdb17a817dcca992ac9cdda5ea9d0a48280bb4d1d2576f31e3f7656ad3ae60602206f4b99d6c1a1cccacbe282e0\
    167f6f00525aea00ae45bc7ab0b74852d15acff1";

// REVOKED with the number 0 in place of its version.
const OLDER: &str =
    "3082011c3081c3020100300a06082a8648ce3d040302303f310b3009060355040613024e4c31143012060355040a0c0b4578\
    616d706c65204f7267311a301806035504030c114578616d706c6520417574686f72697479170d3236313132353038303435\
    375a170d3236313232353038303435375a30223020020106170d3236313132353038303435375a300c300a0603551d150403\
    0a0101a02f302d301f0603551d230418301680146ebabfcc06afddd7c785d4601a2db969bd747754300a0603551d14040302\
    0101300a06082a8648ce3d04030203480030450220223b31a996765ce918e9f9f9dffafceab29055f1d2fadc0d56c878afca\
    9a5fec022100a81803f202b500c5c834aaa800b28f39ce5dee989da5d8ce30caf15364b11fc9";

// LEAF in CER, where each constructed element has an indefinite length.
const LEAF_IN_CER: &str =
    "30803080020105308006082a8648ce3d0403020000308031803080060355040613024e4c0000000031803080060355040a0c\
    0b4578616d706c65204f7267000000003180308006035504030c114578616d706c6520417574686f72697479000000000000\
    3080170d3236313132353038303435375a170d3237313132353038303435375a000030803180308006035504030c046c6561\
    660000000000003080308006032b657000000321006f90df22420d4519c963cdab5980f30545cd52e22df4af153c57187f92\
    8326f700000000308006082a8648ce3d0403020000034700304402204bdb17a817dcca992ac9cdda5ea9d0a48280bb4d1d25\
    76f31e3f7656ad3ae60602206f4b99d6c1a1cccacbe282e0167f6f00525aea00ae45bc7ab0b74852d15acff10000";

// A certificate that breaks rules of RFC 5280 other than those of its module. It has no version but extensions, one of them twice, and a
// unique identifier. Its serial number is negative and has 21 octets. Nobody issued it, its end is before its beginning, and its two
// algorithms differ. The NULL that is the parameter of one of them has contents.
const UNRULY: &str =
    "3076306a0215800000000000000000000000000000000000000000300806032b65700501003000301e170d32373132333132\
    33353935395a170d3236303130313030303030305a3000300a300506032b6570030100810100a314301230070603551d1304\
    0030070603551d130400300506032b6571030100";

static ROWS: [Row; 19] = [
    (Kind::Certificate, Claim::IsEncoding, "AUTHORITY", AUTHORITY),
    (Kind::Certificate, Claim::IsEncoding, "LEAF", LEAF),
    (Kind::Certificate, Claim::IsEncoding, "UNIQUE", UNIQUE),
    (Kind::Certificate, Claim::IsEncoding, "UNRULY", UNRULY),
    (
        Kind::Certificate,
        Claim::IsCerEncoding,
        "LEAF_IN_CER",
        LEAF_IN_CER,
    ),
    (
        Kind::Certificate,
        Claim::IsNoEncoding,
        "LEAF_IN_CER is none of DER",
        LEAF_IN_CER,
    ),
    (
        Kind::Certificate,
        Claim::IsRejected(Cer),
        "LEAF is none of CER",
        LEAF,
    ),
    // a default that is written out is none of DER, and BER takes it
    (
        Kind::Certificate,
        Claim::IsNoEncoding,
        "WRITTEN_OUT",
        WRITTEN_OUT,
    ),
    (
        Kind::Certificate,
        Claim::Says(Ber, Fields::FirstVersion),
        "what WRITTEN_OUT says",
        WRITTEN_OUT,
    ),
    (
        Kind::CertificateList,
        Claim::IsNoEncoding,
        "LEAF is no list",
        LEAF,
    ),
    (Kind::CertificateList, Claim::IsEncoding, "REVOKED", REVOKED),
    (
        Kind::Certificate,
        Claim::Says(Ber, Fields::All),
        "what AUTHORITY says",
        AUTHORITY,
    ),
    (
        Kind::Certificate,
        Claim::Says(Ber, Fields::IssuerId),
        "what UNIQUE says",
        UNIQUE,
    ),
    (
        Kind::Certificate,
        Claim::Says(Ber, Fields::FirstVersion),
        "what LEAF says",
        LEAF,
    ),
    // no version has the number 3
    (
        Kind::Certificate,
        Claim::IsInvalid,
        "NO_VERSION",
        NO_VERSION,
    ),
    (
        Kind::CertificateList,
        Claim::Says(Ber, Fields::All),
        "what REVOKED says",
        REVOKED,
    ),
    // a list names version 2 or none
    (
        Kind::CertificateList,
        Claim::IsRejected(Ber),
        "OLDER",
        OLDER,
    ),
    (
        Kind::SignedCertificate,
        Claim::IsSigned(4, 358),
        "what is signed of AUTHORITY",
        AUTHORITY,
    ),
    (
        Kind::SignedList,
        Claim::IsSigned(4, 202),
        "what is signed of REVOKED",
        REVOKED,
    ),
];

impl Looks for Certificate {
    // Whether it has the version and the number of AUTHORITY, the first version, or the issuer's number of UNIQUE.
    fn has(&self, fields: Fields) -> bool {
        let certificate = &self.tbs_certificate;
        match fields {
            Fields::All => certificate.version == 2 && is_of_authority(&certificate.serial_number),
            Fields::FirstVersion => certificate.version == 0,
            _ => has_issuer_id(&certificate.issuer_unique_id),
        }
    }
}

fn is_of_authority(serial: &(Vec<u8>, bool)) -> bool {
    serial.0.as_slice() == [0x00, 0xf1, 0xe2, 0xd3, 0xc4, 0xb5, 0xa6, 0x97].as_slice() && serial.1
}

fn has_issuer_id(id: &Option<(Vec<u8>, usize)>) -> bool {
    match id {
        Some((octets, bits)) => octets.as_slice() == [0xab, 0xc0].as_slice() && *bits == 12,
        None => false,
    }
}

impl Looks for CertificateList {
    // Whether it is of version 2, and revokes one certificate.
    fn has(&self, _fields: Fields) -> bool {
        match &self.tbs_cert_list.revoked_certificates {
            Some(certificates) => {
                self.tbs_cert_list.version == Some(1) && certificates.len() == 1
            }
            None => false,
        }
    }
}

fn part_of<'a, T: Drop>(signed: Signed<'a, T>) -> &'a [u8] {
    signed.signed_bytes
}

// What is signed of a certificate of version 3.
fn part_of_certificate<'a>(reader: BERReader<'a, '_>) -> ASN1Result<&'a [u8]> {
    match read_signed_certificate(reader) {
        Ok(signed) => {
            let version = signed.value.tbs_certificate.version;
            let part = part_of(signed);
            match version {
                2 => Ok(part),
                _ => Err(ASN1Error::new(ASN1ErrorKind::Invalid)),
            }
        }
        Err(error) => Err(error),
    }
}

// What is signed of a revocation list.
fn part_of_list<'a>(reader: BERReader<'a, '_>) -> ASN1Result<&'a [u8]> {
    match read_signed_list(reader) {
        Ok(signed) => Ok(part_of(signed)),
        Err(error) => Err(error),
    }
}

fn gives_part(outcome: ASN1Result<&[u8]>, part: Option<&[u8]>) -> bool {
    match outcome {
        Ok(found) => match part {
            Some(part) => found == part,
            None => false,
        },
        Err(_) => false,
    }
}

/// Whether what is signed of a certificate, or of a list, are those of its bytes that the claim names.
pub fn is_signed(alloc: Global, bytes: &[u8], claim: Claim, is_list: bool) -> bool {
    match claim {
        Claim::IsSigned(from, to) => {
            let part = bytes.get(from..to);
            if is_list {
                gives_part(parse_der(alloc, bytes, part_of_list), part)
            } else {
                gives_part(parse_der(alloc, bytes, part_of_certificate), part)
            }
        }
        _ => false,
    }
}

// They come back, and so do lists; what certificates and lists say, and what is signed of them.
#[test]
fn certificates_and_lists_round_trip_and_say_what_they_hold(rt: HostRuntime) {
    finds_none(&rt, first_failing(rt.alloc(), &ROWS));
}
