//! Keys of RSA (RFC 8017) and on elliptic curves (RFC 5915), and requests for certificates (RFC 2986).

use crate::checks::{Claim, finds_none};
use crate::kinds::{Kind, Row, first_failing};

// `openssl genrsa -traditional 512`, in DER.
const RSA_PRIVATE: &str =
    "3082013b020100024100dd4c82b8fe0f17d883aae03f63788b9f1708064076bdd81fc431f57858ed190eca1f23f2ff2aa9d3\
    169a6b75045aa4c75f14f6c946ba962bdc83f22446e6e0d90203010001024005e01e2863366b5fa83f452ce9ab2da9cfa6ba\
    e3c3434f15a8d3dabc933fd8466b995b9bf54ff3b885365aa6e5ab183b79fa3fb9d7bbd7d55b4f63f3e17992b1022100f77c\
    573e8aa9a0830938d30ffae5e6eaf13a499934564578e021e2662d22a4bb022100e4e9896beeed2b6064a54b1dc7d6be123f\
    1bc001a8cd2207db511a716287017b0221009e475d9cd81de85425bfbbecca6fe2a17ba9e58c2016d4d39bb4d010bce91d25\
    022100bf7aaa3ce2aaf8f1b4be9f4ad5f2c723342ede39851db22da842fb3f850f3129022042a3843ad0f19b8fbbb4133e49\
    8d5b40f0dfec28ff07a023eba207949063b26e";

// `openssl rsa -RSAPublicKey_out -outform DER` of RSA_PRIVATE.
const RSA_PUBLIC: &str =
    "3048024100dd4c82b8fe0f17d883aae03f63788b9f1708064076bdd81fc431f57858ed190eca1f23f2ff2aa9d3169a6b7504\
    5aa4c75f14f6c946ba962bdc83f22446e6e0d90203010001";

// A key of small numbers with one more prime, which has the version 1.
const THREE_PRIMES: &str =
    "302802010102010f02010f02010f02010f02010f02010f02010f02010f300b300902010b02010b02010b";

// `openssl ecparam -name prime256v1 -genkey -noout -outform DER`.
const EC_PRIVATE: &str =
    "30770201010420c38069487e7a951d8ee0304fb5cc0a5b1f4ef4705946a73216ef0a26b979182ba00a06082a8648ce3d0301\
    07a14403420004fe18a26bf0f2b99f32a323a0b5068adce2feafe164ee6e23154114211cf46a7f8fa41b6c45a5e845a34ac6\
    12f99e5af573be7456f37e5fba06eec109c601e370";

// `openssl ec -no_public -outform DER` of a key on P-256.
const EC_WITHOUT_PUBLIC: &str =
    "303102010104204039b42ce347bdc73b2d680deb1c9bea55940e1450c2c8f77aae7bbbe43ad349a00a06082a8648ce3d0301\
    07";

// `openssl req -new -subj /CN=h -outform DER`, with a key on P-256.
const REQUEST: &str =
    "3081c7306e020100300c310a300806035504030c01683059301306072a8648ce3d020106082a8648ce3d030107034200048c\
    8841b38dc1a23d77e42e73461b6e2fba1b86e2c1a056408614ea604509945bb0c819ba5cc1f7c85cb0bbc4d4be0e367be34e\
    7ee53515b76f6df2783c6483c1a000300a06082a8648ce3d0403020349003046022100ec3055b69641dd23f10b479624f7ea\
    bfbb00a976a7906006eeb7ded994a94538022100daab6a16fc828aef8aec44ce74c9d580004e5fac0d43f777bab4e1441633\
    cfdd";

static ROWS: [Row; 14] = [
    (
        Kind::RsaPrivateKey,
        Claim::IsEncoding,
        "RSA_PRIVATE",
        RSA_PRIVATE,
    ),
    (
        Kind::RsaPublicKey,
        Claim::IsEncoding,
        "RSA_PUBLIC",
        RSA_PUBLIC,
    ),
    (
        Kind::RsaPublicKey,
        Claim::IsNoEncoding,
        "RSA_PRIVATE is no public key",
        RSA_PRIVATE,
    ),
    (
        Kind::RsaPrivateKey,
        Claim::IsEncoding,
        "THREE_PRIMES",
        THREE_PRIMES,
    ),
    (
        Kind::RsaPrivateKey,
        Claim::IsNoEncoding,
        "a key of RSA of version 2",
        "301b02010202010f02010f02010f02010f02010f02010f02010f02010f",
    ),
    (
        Kind::RsaPrivateKey,
        Claim::IsNoEncoding,
        "a key of RSA with no further prime in the list of them",
        "301d02010102010f02010f02010f02010f02010f02010f02010f02010f3000",
    ),
    (
        Kind::RsaPrivateKey,
        Claim::Becomes("301b02010002010f02010f02010f02010f02010f02010f02010f02010f"),
        "a key of RSA of indefinite length",
        "308002010002010f02010f02010f02010f02010f02010f02010f02010f0000",
    ),
    (
        Kind::EcPrivateKey,
        Claim::IsEncoding,
        "EC_PRIVATE",
        EC_PRIVATE,
    ),
    (
        Kind::EcPrivateKey,
        Claim::IsEncoding,
        "EC_WITHOUT_PUBLIC",
        EC_WITHOUT_PUBLIC,
    ),
    (
        Kind::EcPrivateKey,
        Claim::IsNoEncoding,
        "a key of EC of version 2",
        "3006020102040155",
    ),
    (
        Kind::EcPrivateKey,
        Claim::IsEncoding,
        "a key of EC without parameters",
        "3006020101040155",
    ),
    (
        Kind::EcPrivateKey,
        Claim::IsCerEncoding,
        "a key of EC in CER",
        "30800201010401550000",
    ),
    (
        Kind::CertificationRequest,
        Claim::IsEncoding,
        "REQUEST",
        REQUEST,
    ),
    (
        Kind::Certificate,
        Claim::IsNoEncoding,
        "REQUEST is no certificate",
        REQUEST,
    ),
];

#[test]
fn keys_and_requests_round_trip_or_are_rejected(rt: HostRuntime) {
    finds_none(&rt, first_failing(rt.alloc(), &ROWS));
}
