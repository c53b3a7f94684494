//! Messages of `ldap` in CER, which no program sends: elements with parts have an indefinite length.

use crate::checks::{Claim, finds_none};
use crate::kinds::{Kind, Row, first_failing};

static ROWS: [Row; 6] = [
    (
        Kind::LdapMessage,
        Claim::IsCerEncoding,
        "bind request, SASL PLAIN with credentials in CER",
        "308002010160800201030400a3800405504c41494e04080075736572007077000000000000",
    ),
    (
        Kind::LdapMessage,
        Claim::IsCerEncoding,
        "bind response, referral (10) to two servers, SASL credentials in CER",
        "308002010161800a010a040464633d610405676f206f6ea38004096c6461703a2f2f612f04096c6461703a2f2f622f00\
        008702010200000000",
    ),
    (
        Kind::LdapMessage,
        Claim::IsCerEncoding,
        "search result entry, two attributes, one with no values in CER",
        "308002010264800404636e3d61308030800402636e31800401610401620000000030800402736e318000000000000000\
        000000",
    ),
    (
        Kind::LdapMessage,
        Claim::IsCerEncoding,
        "search result done with a critical control and one that has no value in CER",
        "308002010265800a0100040004000000a08030800416312e322e3834302e3131333535362e312e342e3331390101ff04\
        0730050201000400000030800405312e322e33000000000000",
    ),
    (
        Kind::LdapMessage,
        Claim::IsCerEncoding,
        "search request, (cn=x), one level, limits, attributes in CER",
        "30800201026380040464633d610a01010a010302047fffffff02011e0101ffa3800402636e040178000030800402636e\
        0402736e000000000000",
    ),
    (
        Kind::LdapMessage,
        Claim::IsCerEncoding,
        "search result reference in CER",
        "30800201027380040d6c6461703a2f2f612f64633d6100000000",
    ),
];

#[test]
fn messages_come_back_in_cer(rt: HostRuntime) {
    finds_none(&rt, first_failing(rt.alloc(), &ROWS));
}
