//! Requests and responses of the time-stamp protocol (RFC 3161).

use crate::checks::{Claim, finds_none};
use crate::kinds::{Kind, OnlineMessage, Row, first_failing};
use yasna::BERMode::Ber;

// `openssl ts -query -sha256 -cert`.
const QUERY: &str =
    "30440201013031300d0609608648016503040201050004205891b5b522d5df086d0ff0b110fbd9d21bb4fc7163af34d08286\
    a2e846f6be03020900cfacaf5fcaef42b40101ff";

// `openssl ts -query -sha256 -no_nonce -tspolicy 1.2.3.4.5`.
const QUERY_OF_A_POLICY: &str =
    "303c0201013031300d0609608648016503040201050004205891b5b522d5df086d0ff0b110fbd9d21bb4fc7163af34d08286\
    a2e846f6be0306042a030405";

// `openssl ts -reply` for a query without `-cert`.
const GRANTED: &str =
    "308201ea3003020100308201e106092a864886f70d010702a08201d2308201ce020103310f300d0609608648016503040201\
    0500308193060b2a864886f70d0109100104a08183048180307e02010106042a0304013031300d0609608648016503040201\
    050004205891b5b522d5df086d0ff0b110fbd9d21bb4fc7163af34d08286a2e846f6be03020103180f323032363131323932\
    33333630375a300a020101800201f48101640101ff020900c60d2900faba94e3a012a410300e310c300a06035504030c0374\
    7361318201203082011c020101301730123110300e06035504030c074578616d706c65020103300d06096086480165030402\
    010500a08198301a06092a864886f70d010903310d060b2a864886f70d0109100104301c06092a864886f70d010905310f17\
    0d3236313132393233333630375a302b060b2a864886f70d010910020c311c301a3018301604143139b530108b9d60109d48\
    babcd70759101633bb302f06092a864886f70d010904312204204d0f8a27d08a0bde1c948f1a7a9e3a11c80cb9d705f7033b\
    162bd62a4e06eca1300a06082a8648ce3d04030204483046022100bcb082fc7eab856b93efaaa56c47e7158c055fce433ecc\
    bd9cd9be3c7c5d83e4022100a0984eb2661094501354cb9b267d8f9a6f45c741fbc262d3f619683622142040";

// `openssl ts -reply` for a query whose digest isn't among those of the service.
const REJECTED: &str =
    "30373035020102302c0c2a4d6573736167652064696765737420616c676f726974686d206973206e6f7420737570706f7274\
    65642e03020780";

// The TSTInfo that a token of a reply contains.
const STAMP: &str =
    "307e02010106042a0304013031300d0609608648016503040201050004205891b5b522d5df086d0ff0b110fbd9d21bb4fc71\
    63af34d08286a2e846f6be03020102180f32303236313132393233323031315a300a020101800201f48101640101ff020900\
    cfacaf5fcaef42b4a012a410300e310c300a06035504030c03747361";

// STAMP with an indefinite length.
const INDEFINITE_STAMP: &str =
    "308002010106042a0304013031300d0609608648016503040201050004205891b5b522d5df086d0ff0b110fbd9d21bb4fc71\
    63af34d08286a2e846f6be03020102180f32303236313132393233323031315a300a020101800201f48101640101ff020900\
    cfacaf5fcaef42b4a012a410300e310c300a06035504030c037473610000";

// QUERY with another octet for TRUE.
const WITH_ONE_FOR_TRUE: &str =
    "30440201013031300d0609608648016503040201050004205891b5b522d5df086d0ff0b110fbd9d21bb4fc7163af34d08286\
    a2e846f6be03020900cfacaf5fcaef42b4010101";

// QUERY with FALSE, which is the default, in place of TRUE.
const WITH_FALSE: &str =
    "30440201013031300d0609608648016503040201050004205891b5b522d5df086d0ff0b110fbd9d21bb4fc7163af34d08286\
    a2e846f6be03020900cfacaf5fcaef42b4010100";

// QUERY without its last part.
const WITHOUT_FALSE: &str =
    "30410201013031300d0609608648016503040201050004205891b5b522d5df086d0ff0b110fbd9d21bb4fc7163af34d08286\
    a2e846f6be03020900cfacaf5fcaef42b4";

// STAMP with an accuracy of 1000 milliseconds.
const OF_MANY_MILLIS: &str =
    "307e02010106042a0304013031300d0609608648016503040201050004205891b5b522d5df086d0ff0b110fbd9d21bb4fc71\
    63af34d08286a2e846f6be03020102180f32303236313132393233323031315a300a020101800203e88101640101ff020900\
    cfacaf5fcaef42b4a012a410300e310c300a06035504030c03747361";

// STAMP with the tag [2] for the name of the service.
const OF_ANOTHER_TAG: &str =
    "307e02010106042a0304013031300d0609608648016503040201050004205891b5b522d5df086d0ff0b110fbd9d21bb4fc71\
    63af34d08286a2e846f6be03020102180f32303236313132393233323031315a300a020101800201f48101640101ff020900\
    cfacaf5fcaef42b4a212a410300e310c300a06035504030c03747361";

// A number is rejected that is out of its bounds.
static ROWS: [Row; 12] = [
    (
        Kind::Online(OnlineMessage::TimeStampReq),
        Claim::IsEncoding,
        "QUERY",
        QUERY,
    ),
    (
        Kind::Online(OnlineMessage::TimeStampReq),
        Claim::IsEncoding,
        "QUERY_OF_A_POLICY",
        QUERY_OF_A_POLICY,
    ),
    (
        Kind::Online(OnlineMessage::TimeStampReq),
        Claim::Becomes(QUERY),
        "WITH_ONE_FOR_TRUE",
        WITH_ONE_FOR_TRUE,
    ),
    (
        Kind::Online(OnlineMessage::TimeStampReq),
        Claim::Becomes(WITHOUT_FALSE),
        "WITH_FALSE",
        WITH_FALSE,
    ),
    (
        Kind::Online(OnlineMessage::TimeStampReq),
        Claim::IsEncoding,
        "WITHOUT_FALSE",
        WITHOUT_FALSE,
    ),
    (
        Kind::Online(OnlineMessage::TimeStampResp),
        Claim::IsEncoding,
        "GRANTED",
        GRANTED,
    ),
    (
        Kind::Online(OnlineMessage::TimeStampResp),
        Claim::IsEncoding,
        "REJECTED",
        REJECTED,
    ),
    (
        Kind::Online(OnlineMessage::TimeStampResp),
        Claim::IsRejected(Ber),
        "a text of no lines",
        "300730050201023000",
    ),
    (
        Kind::Online(OnlineMessage::TstInfo),
        Claim::IsEncoding,
        "STAMP",
        STAMP,
    ),
    (
        Kind::Online(OnlineMessage::TstInfo),
        Claim::Becomes(STAMP),
        "INDEFINITE_STAMP",
        INDEFINITE_STAMP,
    ),
    (
        Kind::Online(OnlineMessage::TstInfo),
        Claim::IsRejected(Ber),
        "OF_MANY_MILLIS",
        OF_MANY_MILLIS,
    ),
    (
        Kind::Online(OnlineMessage::TstInfo),
        Claim::IsRejected(Ber),
        "OF_ANOTHER_TAG",
        OF_ANOTHER_TAG,
    ),
];

#[test]
fn queries_and_stamps_come_back(rt: HostRuntime) {
    finds_none(&rt, first_failing(rt.alloc(), &ROWS));
}
