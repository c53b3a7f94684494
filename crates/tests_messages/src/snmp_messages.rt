//! Messages of SNMPv1 and SNMPv2c (RFC 1157, RFC 1901 and RFC 3416), made by hand as programs of net-snmp send them.

use crate::checks::{Claim, Fields, Looks, finds_none};
use crate::kinds::{Kind, Row, first_failing};
use snmp::{ApplicationSyntax, SimpleSyntax, v1, v2c};
use yasna::BERMode::{Ber, Der};

// A get-request of SNMPv1, for sysDescr.0.
const GET: &str =
    "302602010004067075626c6963a019020101020100020100300e300c06082b060102010101000500";

// A trap of SNMPv1, with two variables.
const TRAP: &str =
    "304c02010004067075626c6963a43f06072b06010401bf084004c0000201020106020101430230393024300e06082b060102\
    0101030043023039301206082b060102010101000406726f75746572";

// A response of SNMPv2c: ticks, a text, a count of 64 bits, and two that are not there.
const RESPONSE: &str =
    "306f02010104067075626c6963a2620204012345670201000201003054301106082b06010201010300430500ffffffff3011\
    06082b0601020101010004054c696e75783017060a2b060102010202010a01460900ffffffffffffffff300b06072b060102\
    0163008000300606022b078200";

// A get-bulk-request of SNMPv2c.
const BULK: &str =
    "302602010104067075626c6963a5190201ff02010002010a300e300c06082b060102010101000500";

// GET with the version of SNMPv2c, in BER: of an indefinite length, and a length that is not the shortest.
const LONG: &str =
    "308002010104067075626c6963a08119020101020100020100300e300c06082b0601020101010005000000";

// The DER encoding of LONG: GET with the other version's number.
const SHORTEST: &str =
    "302602010104067075626c6963a019020101020100020100300e300c06082b060102010101000500";

// A message that says that it is of version 3.
const VERSION_3: &str =
    "302602010304067075626c6963a019020101020100020100300e300c06082b060102010101000500";

// Each version has its own messages.
static ROWS: [Row; 21] = [
    (Kind::SnmpV1, Claim::IsEncoding, "GET", GET),
    (Kind::SnmpV1, Claim::IsEncoding, "TRAP", TRAP),
    (Kind::SnmpV2c, Claim::IsEncoding, "RESPONSE", RESPONSE),
    (Kind::SnmpV2c, Claim::IsEncoding, "BULK", BULK),
    (
        Kind::SnmpV1,
        Claim::IsRejected(Ber),
        "BULK is none of SNMPv1",
        BULK,
    ),
    (
        Kind::SnmpV2c,
        Claim::IsRejected(Ber),
        "GET is none of SNMPv2c",
        GET,
    ),
    (Kind::SnmpV1, Claim::IsRejected(Ber), "VERSION_3", VERSION_3),
    (
        Kind::SnmpV2c,
        Claim::Says(Ber, Fields::All),
        "what RESPONSE says",
        RESPONSE,
    ),
    (
        Kind::SnmpV2c,
        Claim::IsEncoding,
        "response with the error notWritable (17)",
        "302602010104067075626c6963a219020101020111020101300e300c06082b060102010101000500",
    ),
    (
        Kind::SnmpV2c,
        Claim::Says(Ber, Fields::Numbers),
        "that the error is notWritable",
        "302602010104067075626c6963a219020101020111020101300e300c06082b060102010101000500",
    ),
    (
        Kind::SnmpV1,
        Claim::Says(Ber, Fields::Numbers),
        "that the trap is of an enterprise",
        TRAP,
    ),
    (
        Kind::SnmpV1,
        Claim::Says(Ber, Fields::Numbers),
        "that the error is noSuchName (2)",
        "302602010004067075626c6963a219020101020102020101300e300c06082b060102010101000500",
    ),
    (
        Kind::SnmpV1,
        Claim::IsEncoding,
        "response with the error 18, which SNMPv1 doesn't name",
        "302602010004067075626c6963a219020101020112020101300e300c06082b060102010101000500",
    ),
    (
        Kind::SnmpV1,
        Claim::Says(Ber, Fields::Unknown),
        "that SNMPv1 doesn't name the error 18",
        "302602010004067075626c6963a219020101020112020101300e300c06082b060102010101000500",
    ),
    (Kind::SnmpV2c, Claim::Becomes(SHORTEST), "LONG in DER", LONG),
    (Kind::SnmpV2c, Claim::IsEncoding, "SHORTEST", SHORTEST),
    (
        Kind::SnmpV2c,
        Claim::IsRejected(Der),
        "LONG is no DER encoding",
        LONG,
    ),
    (
        Kind::SnmpV1,
        Claim::IsCerEncoding,
        "GET in CER",
        "308002010004067075626c6963a0800201010201000201003080308006082b0601020101010005000000000000000000",
    ),
    (
        Kind::SnmpV1,
        Claim::IsCerEncoding,
        "TRAP in CER",
        "308002010004067075626c6963a48006072b06010401bf084004c0000201020106020101430230393080308006082b06\
        010201010300430230390000308006082b060102010101000406726f757465720000000000000000",
    ),
    (
        Kind::SnmpV2c,
        Claim::IsCerEncoding,
        "RESPONSE in CER",
        "308002010104067075626c6963a2800204012345670201000201003080308006082b06010201010300430500ffffffff\
        0000308006082b0601020101010004054c696e757800003080060a2b060102010202010a01460900ffffffffffffffff\
        0000308006072b06010201630080000000308006022b0782000000000000000000",
    ),
    (
        Kind::SnmpV2c,
        Claim::IsCerEncoding,
        "BULK in CER",
        "308002010104067075626c6963a5800201ff02010002010a3080308006082b0601020101010005000000000000000000",
    ),
];

impl Looks for v2c::SnmpMessage {
    // Whether it is the result to the public community that RESPONSE is.
    fn has(&self, fields: Fields) -> bool {
        match fields {
            Fields::Numbers => is_not_writable(&self.data),
            _ => { self.community.as_slice() == b"public".as_slice() && is_response(&self.data) }
        }
    }
}

fn is_not_writable(data: &v2c::Pdus) -> bool {
    match data {
        v2c::Pdus::Response(pdu) => pdu.error_status == v2c::ErrorStatus::NotWritable,
        _ => false,
    }
}

impl Looks for v1::SnmpMessage {
    // Whether it is a trap of an enterprise, or a response with the error that the row speaks of.
    fn has(&self, fields: Fields) -> bool {
        match &self.data {
            v1::Pdus::Trap(trap) => trap.generic_trap == v1::GenericTrap::EnterpriseSpecific,
            v1::Pdus::GetResponse(pdu) => match fields {
                Fields::Unknown => pdu.error_status == v1::ErrorStatus::Other(18),
                _ => pdu.error_status == v1::ErrorStatus::NoSuchName,
            },
            _ => false,
        }
    }
}

// Whether it has the number and the values of RESPONSE.
fn is_response(data: &v2c::Pdus) -> bool {
    match data {
        v2c::Pdus::Response(pdu) => {
            pdu.request_id == 19088743 && are_of_response(&pdu.variable_bindings)
        }
        _ => false,
    }
}

fn are_of_response(bindings: &[v2c::VarBind]) -> bool {
    match bindings {
        [ticks, name, count, missing, end] => {
            kind_of(&ticks.value) == 1
                && kind_of(&name.value) == 5
                && kind_of(&count.value) == 3
                && kind_of(&missing.value) == 4
                && kind_of(&end.value) == 6
        }
        _ => false,
    }
}

fn kind_of(value: &v2c::BoundValue) -> usize {
    match value {
        v2c::BoundValue::ApplicationWide(ApplicationSyntax::TimeTicksValue(4294967295)) => 1,
        v2c::BoundValue::Simple(SimpleSyntax::StringValue(text)) => text.len(),
        v2c::BoundValue::ApplicationWide(ApplicationSyntax::BigCounterValue(u64::MAX)) => 3,
        v2c::BoundValue::NoSuchObject => 4,
        v2c::BoundValue::EndOfMibView => 6,
        _ => 0,
    }
}

#[test]
fn messages_round_trip_or_are_rejected(rt: HostRuntime) {
    finds_none(&rt, first_failing(rt.alloc(), &ROWS));
}
