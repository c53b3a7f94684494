//! Types of three, five and seven parts, each from its DER encoding and from another one.

use crate::checks::{finds_none, says};
use crate::pieces::Outcome::{Rejected, Same, Written};
use crate::pieces::{Piece, Row, expected, first_other};
use examples_proved::{DirectoryEntry, DomainParameters, RequestHeader, normalized, reencoded};
use std::alloc::Global;
use yasna::ASN1ErrorKind::{Eof, Extra, Invalid};
use yasna::BERMode::{Ber, Der};
use yasna::{ASN1Result, BERMode, decode_ber_general};

// A type, of which one value is to be read.
#[derive(Clone, Copy)]
enum Record {
    /// The prime is the greatest below 2 ^ 64.
    Parameters,
    Header,
    Slot,
}

// Whether it says this of a name.
fn is_named(read: &DirectoryEntry) -> bool {
    read.name.as_str() == "é"
        && read.class.components().as_slice() == [2, 5, 6, 6].as_slice()
        && read.made.text().as_slice() == b"820102120000Z".as_slice()
}

fn is_entry(read: &DirectoryEntry) -> bool {
    is_named(read)
        && read.versions.as_slice() == [1, -129].as_slice()
        && read.picture.as_slice() == [0x48, 0x65].as_slice()
        && read.measurement.number == 10
        && read.measurement.valid
        && read.in_use
}

fn header_normalized(alloc: Global, mode: BERMode, bytes: &[u8]) -> ASN1Result<Vec<u8>> {
    let RequestHeader {
        version,
        community,
        request,
        status,
        index,
    } = decode_ber_general::<RequestHeader>(alloc, bytes, mode)?;
    expected(version == 0 && community.as_slice() == b"public".as_slice())?;
    expected(request == 641 && status == 2 && index == 7)?;
    normalized::<RequestHeader>(alloc, bytes)
}

impl Piece for Record {
    fn rewritten(self, alloc: Global, mode: BERMode, bytes: &[u8]) -> ASN1Result<Vec<u8>> {
        match self {
            Record::Parameters => {
                let DomainParameters {
                    prime,
                    subprime,
                    base,
                } = decode_ber_general::<DomainParameters>(alloc, bytes, mode)?;
                expected(prime == 18_446_744_073_709_551_557 && subprime == 11 && base == 4)?;
                normalized::<DomainParameters>(alloc, bytes)
            }
            Record::Header => header_normalized(alloc, mode, bytes),
            Record::Slot => {
                let outcome = match mode {
                    BERMode::Der => reencoded::<DirectoryEntry>(alloc, bytes),
                    _ => normalized::<DirectoryEntry>(alloc, bytes),
                }?;
                expected(says(alloc, mode, bytes, is_entry))?;
                Ok(outcome)
            }
        }
    }
}

const PARAMETERS: &str = "3011020900FFFFFFFFFFFFFFC502010B020104";

const INDEFINITE: &str = "3080020900FFFFFFFFFFFFFFC502010B0201040000";

const HEADER: &str = "301502010004067075626C696302020281020102020107";

// The community comes in two segments.
const IN_PIECES: &str = "30800201002480040270750404626C6963000002020281020102028101070000";

const ENTRY: &str =
    "30300C02C3A90603550606170D3832303130323132303030305A30070201010202FF7F04024865300602010A0101FF0101FF";

// The entry with indefinite lengths, a time in another zone, and another byte for true.
const OTHER_ENTRY: &str =
    "30800C8102C3A9060355060617113832303130323037303030302D3035303030800201010202FF7F000004024865308002010A01010100000101090000";

static ROWS: [Row<Record>; 16] = [
    ("parameters", Record::Parameters, Der, PARAMETERS, Same),
    (
        "parameters in BER",
        Record::Parameters,
        Ber,
        PARAMETERS,
        Same,
    ),
    (
        "BER takes parameters of indefinite length",
        Record::Parameters,
        Ber,
        INDEFINITE,
        Written(PARAMETERS),
    ),
    (
        "DER rejects parameters of indefinite length",
        Record::Parameters,
        Der,
        INDEFINITE,
        Rejected(Invalid),
    ),
    (
        "parameters without the last part",
        Record::Parameters,
        Der,
        "300602011702010B",
        Rejected(Eof),
    ),
    (
        "parameters with a fourth part",
        Record::Parameters,
        Der,
        "300C02011702010B020104020104",
        Rejected(Extra),
    ),
    ("a header", Record::Header, Der, HEADER, Same),
    ("a header in BER", Record::Header, Ber, HEADER, Same),
    (
        "BER takes a header in pieces",
        Record::Header,
        Ber,
        IN_PIECES,
        Written(HEADER),
    ),
    (
        "DER rejects a header in pieces",
        Record::Header,
        Der,
        IN_PIECES,
        Rejected(Invalid),
    ),
    (
        "a header without the last part",
        Record::Header,
        Der,
        "300B0201000400020101020100",
        Rejected(Eof),
    ),
    (
        "a header with a sixth part",
        Record::Header,
        Der,
        "301002010004000201010201000201000500",
        Rejected(Extra),
    ),
    ("an entry", Record::Slot, Der, ENTRY, Same),
    ("an entry in BER", Record::Slot, Ber, ENTRY, Same),
    (
        "BER takes an entry in another encoding",
        Record::Slot,
        Ber,
        OTHER_ENTRY,
        Written(ENTRY),
    ),
    (
        "DER rejects an entry in another encoding",
        Record::Slot,
        Der,
        OTHER_ENTRY,
        Rejected(Invalid),
    ),
];

// Domain parameters, heads of requests and entries of directories.
#[test]
fn records_round_trip(rt: HostRuntime) {
    finds_none(&rt, first_other(rt.alloc(), &ROWS));
}
