//! Private keys (RFC 5208 and RFC 5958), and contents that are signed or enveloped (RFC 5652).

use crate::checks::{Claim, Fields, Looks, bytes_of, finds_none, gives};
use crate::kinds::{Kind, Row, first_failing};
use cms::{ContentInfo, EncapsulatedContentInfo, EnvelopedData, SignedData, decode_content};
use pkcs8::OneAsymmetricKey;
use std::alloc::Global;
use yasna::BERMode::Ber;
use yasna::models::TaggedDerValue;
use yasna::tags::TAG_SEQUENCE;
use yasna::{ASN1Result, decode_ber, encode_der};
use yasna_notation::{Encoded, Message};

// `openssl genpkey -algorithm ED25519 -outform DER`.
const ED25519: &str =
    "302e020100300506032b6570042204209836907d8d3657a5d2de93c7dd419d0b2a93218640545f099ced376f6f107f13";

// The key with an attribute and its public key of RFC 8410, 10.3.
const WITH_PUBLIC_KEY: &str =
    "3072020101300506032b657004220420d4ee72dbf913584ad5b6d8f1f769f8ad3afe7c28cbf1d4fbe097a88f44755842a01f\
    301d060a2a864886f70d01090914310f0c0d437572646c652043686169727381210019bf44096984cdfe8541bac167dc3b96\
    c85086aa30b6b6cb0c5c38ad703166e1";

// WITH_PUBLIC_KEY, and an element [2] that the module doesn't name.
const WITH_UNKNOWN: &str =
    "3077020101300506032b657004220420d4ee72dbf913584ad5b6d8f1f769f8ad3afe7c28cbf1d4fbe097a88f44755842a01f\
    301d060a2a864886f70d01090914310f0c0d437572646c652043686169727381210019bf44096984cdfe8541bac167dc3b96\
    c85086aa30b6b6cb0c5c38ad703166e1a2030c0161";

// ED25519, and an element [2].
const ED25519_WITH_UNKNOWN: &str =
    "3030020100300506032b6570042204209836907d8d3657a5d2de93c7dd419d0b2a93218640545f099ced376f6f107f13a200";

// WITH_PUBLIC_KEY with another public key.
const WITH_TWO_KEYS: &str =
    "3076020101300506032b657004220420d4ee72dbf913584ad5b6d8f1f769f8ad3afe7c28cbf1d4fbe097a88f44755842a01f\
    301d060a2a864886f70d01090914310f0c0d437572646c652043686169727381210019bf44096984cdfe8541bac167dc3b96\
    c85086aa30b6b6cb0c5c38ad703166e181020055";

// ED25519 with the number 2 in place of its version 0.
const VERSION_3: &str =
    "302e020102300506032b6570042204209836907d8d3657a5d2de93c7dd419d0b2a93218640545f099ced376f6f107f13";

// `openssl cms -sign -keyid -nosmimecap -nodetach -nocerts -binary -outform DER`, with a key on P-256.
const SIGNED: &str =
    "3082013006092a864886f70d010702a08201213082011d020103310d300b0609608648016503040201301d06092a864886f7\
    0d010701a010040e48656c6c6f2c20776f726c642e0a3181e93081e602010380147125960dbb405705f71658ec58904d9aa2\
    492115300b0609608648016503040201a069301806092a864886f70d010903310b06092a864886f70d010701301c06092a86\
    4886f70d010905310f170d3236313132353038333431365a302f06092a864886f70d010904312204201ab1a2bb8502820a83\
    881a5b66910b819121bafe336d76374637aa4ea7ba2616300a06082a8648ce3d04030204473045022100888ef06bb9c1a01e\
    31e37bb02dbdce989dccd976246cd259f37b78c0aea7ffc502204e4d4e488fe3eaa842c23aef64b398d13c74539ae7e6c9ce\
    7a1f2f79680a4195";

// `openssl cms -encrypt -aes-128-cbc -binary -outform DER`, for a key on P-256.
const ENVELOPED: &str =
    "3082012e06092a864886f70d010703a082011f3082011b0201023181d7a181d4020103a051a14f300906072a8648ce3d0201\
    034200041e89cdcab415b1f76b979a0a74107a8cd016d87d2b7e00d597f8d05cfa396b9b6d177c2c697ad8c43b3574a5266d\
    0f305824c69e8627420403c47d4085764239301806092b81051086483f0002300b0609608648016503040105306230603044\
    303f310b3009060355040613024e4c31143012060355040a0c0b4578616d706c65204f7267311a301806035504030c114578\
    616d706c6520417574686f726974790201050418b8edc0678c1db17152b1015de762a9d4452259cb26951c45303c06092a86\
    4886f70d010701301d0609608648016503040102041010629df62a97e9eedd62ff864ac1d5d2801026505059af79adef8ef0\
    8a33b96231d7";

// As SIGNED, with `-stream`: indefinite lengths, and the content in segments.
const STREAMED: &str =
    "308006092a864886f70d010702a0803080020103310d300b0609608648016503040201308006092a864886f70d010701a080\
    2480040e48656c6c6f2c20776f726c642e0a0000000000003181e93081e602010380147125960dbb405705f71658ec58904d\
    9aa2492115300b0609608648016503040201a069301806092a864886f70d010903310b06092a864886f70d010701301c0609\
    2a864886f70d010905310f170d3236313132353038333733325a302f06092a864886f70d010904312204201ab1a2bb850282\
    0a83881a5b66910b819121bafe336d76374637aa4ea7ba2616300a06082a8648ce3d040302044730450221008ec2a5f7de3f\
    d9509c246f649e5063e3efccdadbb11fad5f76f4fb52486bd4f602203e573c6c16b26b172e4432cc1dbaf67b1b92003c7955\
    be7c22257c7b79e3b99f000000000000";

// `openssl cms -encrypt -stream -aes-128-cbc -binary -outform DER`, for who has a key with the identifier 1.
const STREAMED_ENVELOPE: &str =
    "308006092a864886f70d010703a08030800201023131a22f0201043003040101300b06096086480165030401050418c1e0f0\
    a0eb31e88533c979331da6366f156fb4d152208aa2308006092a864886f70d010701301d0609608648016503040102041089\
    7adacaaa290c014a4f4c24cc628195a08004108d273d2a3825dabf1a95179cb62251bd00000000000000000000";

// A SignedData of version 0 that no one signed, with no content.
const UNSIGNED: &str = "302306092a864886f70d010702a01630140201003100300b06092a864886f70d0107013100";

// UNSIGNED in CER, where each constructed element has an indefinite length.
const UNSIGNED_IN_CER: &str =
    "308006092a864886f70d010702a080308002010031800000308006092a864886f70d010701000031800000000000000000";

// WITH_PUBLIC_KEY with the number of the older version, which has no public key in RFC 5958.
const OLDER_WITH_PUBLIC_KEY: &str =
    "3072020100300506032b657004220420d4ee72dbf913584ad5b6d8f1f769f8ad3afe7c28cbf1d4fbe097a88f44755842a01f\
    301d060a2a864886f70d01090914310f0c0d437572646c652043686169727381210019bf44096984cdfe8541bac167dc3b96\
    c85086aa30b6b6cb0c5c38ad703166e1";

// WITH_PUBLIC_KEY in CER.
const WITH_PUBLIC_KEY_IN_CER: &str =
    "3080020101308006032b6570000004220420d4ee72dbf913584ad5b6d8f1f769f8ad3afe7c28cbf1d4fbe097a88f44755842\
    a0803080060a2a864886f70d0109091431800c0d437572646c652043686169727300000000000081210019bf44096984cdfe\
    8541bac167dc3b96c85086aa30b6b6cb0c5c38ad703166e10000";

// A key with its public key is none of the older type; where contents were streamed, BER alone reads them.
static ROWS: [Row; 30] = [
    (
        Kind::PrivateKeyInfo,
        Claim::IsEncoding,
        "ED25519, of the older type",
        ED25519,
    ),
    (
        Kind::OneAsymmetricKey,
        Claim::IsEncoding,
        "ED25519",
        ED25519,
    ),
    (
        Kind::OneAsymmetricKey,
        Claim::IsEncoding,
        "WITH_PUBLIC_KEY",
        WITH_PUBLIC_KEY,
    ),
    (
        Kind::PrivateKeyInfo,
        Claim::IsNoEncoding,
        "WITH_PUBLIC_KEY, of the older type",
        WITH_PUBLIC_KEY,
    ),
    (Kind::ContentInfo, Claim::IsEncoding, "SIGNED", SIGNED),
    (
        Kind::SignedData,
        Claim::IsEncoding,
        "the content of SIGNED",
        SIGNED,
    ),
    (Kind::ContentInfo, Claim::IsNoEncoding, "STREAMED", STREAMED),
    (Kind::ContentInfo, Claim::IsEncoding, "ENVELOPED", ENVELOPED),
    (
        Kind::EnvelopedData,
        Claim::IsEncoding,
        "the content of ENVELOPED",
        ENVELOPED,
    ),
    (
        Kind::SignedData,
        Claim::IsNoEncoding,
        "ENVELOPED isn't signed",
        ENVELOPED,
    ),
    (
        Kind::OneAsymmetricKey,
        Claim::Says(Ber, Fields::All),
        "what WITH_PUBLIC_KEY says",
        WITH_PUBLIC_KEY,
    ),
    (
        Kind::OneAsymmetricKey,
        Claim::IsInvalid,
        "VERSION_3",
        VERSION_3,
    ),
    (
        Kind::OneAsymmetricKey,
        Claim::IsEncoding,
        "WITH_UNKNOWN",
        WITH_UNKNOWN,
    ),
    (
        Kind::OneAsymmetricKey,
        Claim::Says(Ber, Fields::Unknown),
        "that WITH_UNKNOWN has an unknown element",
        WITH_UNKNOWN,
    ),
    (
        Kind::OneAsymmetricKey,
        Claim::IsEncoding,
        "ED25519_WITH_UNKNOWN",
        ED25519_WITH_UNKNOWN,
    ),
    (
        Kind::PrivateKeyInfo,
        Claim::IsNoEncoding,
        "ED25519_WITH_UNKNOWN, of the older type",
        ED25519_WITH_UNKNOWN,
    ),
    (
        Kind::OneAsymmetricKey,
        Claim::IsInvalid,
        "WITH_TWO_KEYS",
        WITH_TWO_KEYS,
    ),
    (
        Kind::SignedContent,
        Claim::Says(Ber, Fields::All),
        "what SIGNED says",
        SIGNED,
    ),
    (
        Kind::SignedContent,
        Claim::Says(Ber, Fields::All),
        "what is signed in STREAMED",
        STREAMED,
    ),
    (
        Kind::SignedContent,
        Claim::Says(Ber, Fields::FirstVersion),
        "what UNSIGNED says",
        UNSIGNED,
    ),
    (
        Kind::SignedContent,
        Claim::IsRejected(Ber),
        "STREAMED_ENVELOPE isn't signed",
        STREAMED_ENVELOPE,
    ),
    (
        Kind::ContentInfo,
        Claim::Says(Ber, Fields::All),
        "what STREAMED says",
        STREAMED,
    ),
    (
        Kind::EnvelopedContent,
        Claim::Says(Ber, Fields::All),
        "what ENVELOPED says",
        ENVELOPED,
    ),
    (
        Kind::EnvelopedContent,
        Claim::Says(Ber, Fields::All),
        "what is encrypted in STREAMED_ENVELOPE",
        STREAMED_ENVELOPE,
    ),
    (
        Kind::ContentInfo,
        Claim::IsCerEncoding,
        "UNSIGNED_IN_CER",
        UNSIGNED_IN_CER,
    ),
    (
        Kind::OneAsymmetricKey,
        Claim::IsEncoding,
        "OLDER_WITH_PUBLIC_KEY",
        OLDER_WITH_PUBLIC_KEY,
    ),
    (
        Kind::OneAsymmetricKey,
        Claim::IsCerEncoding,
        "WITH_PUBLIC_KEY_IN_CER",
        WITH_PUBLIC_KEY_IN_CER,
    ),
    // the two zeros that ended it end what is written of it
    (
        Kind::Raw,
        Claim::Becomes("30080201050101ff0000"),
        "an element of indefinite length, kept as it came",
        "30800201050101ff0000",
    ),
    (
        Kind::Pairs,
        Claim::Says(Ber, Fields::All),
        "an element of indefinite length is a SEQUENCE",
        "30800201050101ff0000",
    ),
    (
        Kind::Pairs,
        Claim::IsRejected(Ber),
        "what is written of it is none",
        "30080201050101ff0000",
    ),
];

impl Looks for OneAsymmetricKey {
    // Whether it has a version and a public key of 32 octets, and as many unknown elements as the row says.
    fn has(&self, fields: Fields) -> bool {
        let unknown = match fields {
            Fields::Unknown => 1,
            _ => 0,
        };
        if self.unknown.len() != unknown {
            return false;
        }
        match &self.public_key {
            Some((octets, bits)) => self.version == 1 && octets.len() == 32 && *bits == 256,
            None => false,
        }
    }
}

impl Looks for SignedData {
    // Whether it is a greeting that one has signed, or of the first version and signed by no one.
    fn has(&self, fields: Fields) -> bool {
        match fields {
            Fields::FirstVersion => self.version == 0 && self.signer_infos.is_empty(),
            _ => {
                self.version == 3
                    && self.signer_infos.len() == 1
                    && greets(&self.encap_content_info)
            }
        }
    }
}

fn greets(signed: &EncapsulatedContentInfo) -> bool {
    match &signed.e_content {
        Some(octets) => octets.as_slice() == b"Hello, world.\n".as_slice(),
        None => false,
    }
}

impl Looks for ContentInfo {
    fn has(&self, _fields: Fields) -> bool {
        self.content.tag() == TAG_SEQUENCE
    }
}

impl Looks for EnvelopedData {
    fn has(&self, _fields: Fields) -> bool {
        self.recipient_infos.len() == 1 && self.encrypted_content_info.encrypted_content.is_some()
    }
}

fn content<T: Message>(alloc: Global, bytes: &[u8]) -> ASN1Result<Encoded<T>> {
    let message: Encoded<ContentInfo> = decode_ber(alloc, bytes)?;
    decode_content(alloc, &message.value)
}

/// Whether the claim is so of what a ContentInfo of these bytes contains, as BER reads both.
pub fn is_content<T: Message + Looks>(alloc: Global, bytes: &[u8], claim: Claim) -> bool {
    match content::<T>(alloc, bytes) {
        Ok(read) => match claim {
            Claim::Says(_, fields) => read.value.has(fields),
            _ => false,
        },
        Err(_) => matches!(claim, Claim::IsRejected(_)),
    }
}

fn rewritten_raw(alloc: Global, bytes: &[u8]) -> ASN1Result<Vec<u8>> {
    let element: TaggedDerValue = decode_ber(alloc, bytes)?;
    encode_der(alloc, &element)
}

/// Whether the claim is so of an element that BER reads, and DER writes as it came.
pub fn is_raw(alloc: Global, bytes: &[u8], claim: Claim) -> bool {
    match claim {
        Claim::Becomes(text) => match bytes_of(alloc, text) {
            Ok(written) => gives(rewritten_raw(alloc, bytes), &written),
            Err(_) => false,
        },
        _ => false,
    }
}

// Keys, of which one is newer than the type, and signed and enveloped contents.
#[test]
fn keys_and_contents_round_trip_and_say_what_they_hold(rt: HostRuntime) {
    finds_none(&rt, first_failing(rt.alloc(), &ROWS));
}
