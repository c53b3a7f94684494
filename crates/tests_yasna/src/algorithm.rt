//! AlgorithmIdentifier, with parameters of several types and without, and keys with it.

use crate::checks::finds_none;
use crate::pieces::Outcome::{Rejected, Same, Written};
use crate::pieces::{Piece, Row, expected, first_other};
use crate::public_key::{ED25519, RSA};
use examples_proved::{AlgorithmIdentifier, SubjectPublicKeyInfo, encoded_key};
use std::alloc::Global;
use yasna::ASN1ErrorKind::{Eof, Extra, Invalid};
use yasna::BERMode::{Ber, Der};
use yasna::tags::{TAG_NULL, TAG_OID, TAG_SEQUENCE};
use yasna::{ASN1Result, BERMode, Tag, decode_ber_general, encode_der};

// A type, and what is to be read of it.
#[derive(Clone, Copy)]
enum Record {
    /// An algorithm of this name, and the tag of its parameters.
    Algorithm(&'static [u64], Option<Tag>),
    /// A key of so many bits, whether its algorithm has parameters, and how many bits it says when it is written.
    Key(usize, bool, usize),
}

fn algorithm_rewritten(
    alloc: Global,
    mode: BERMode,
    bytes: &[u8],
    name: &[u64],
    tag: Option<Tag>,
) -> ASN1Result<Vec<u8>> {
    let read = decode_ber_general::<AlgorithmIdentifier>(alloc, bytes, mode)?;
    let found = match &read.parameters {
        Some(parameters) => Some(parameters.tag()),
        None => None,
    };
    expected(read.algorithm.components().as_slice() == name && found == tag)?;
    if read.algorithm.is_encodable() {
        encode_der(alloc, &read)
    } else {
        Ok(Vec::new(alloc))
    }
}

impl Piece for Record {
    fn rewritten(self, alloc: Global, mode: BERMode, bytes: &[u8]) -> ASN1Result<Vec<u8>> {
        match self {
            Record::Algorithm(name, tag) => algorithm_rewritten(alloc, mode, bytes, name, tag),
            Record::Key(bits, has_parameters, written_bits) => {
                let mut key = decode_ber_general::<SubjectPublicKeyInfo>(alloc, bytes, mode)?;
                expected(key.bits == bits)?;
                expected(key.algorithm.parameters.is_some() == has_parameters)?;
                key.bits = written_bits;
                encoded_key(alloc, &key)
            }
        }
    }
}

const ED: &[u64] = &[1, 3, 101, 112];

// Its parameters are of indefinite length.
const INDEFINITE: &str = "308006032B6570308002010700000000";

// Parameters of indefinite length are kept as they came, with the two zeros that end them. Parameters that are malformed
// aren't taken for none, and after them nothing may follow. A key of more bits than its bytes hold has no encoding.
static ROWS: [Row<Record>; 10] = [
    (
        "Ed25519 without parameters",
        Record::Algorithm(ED, None),
        Der,
        "300506032B6570",
        Same,
    ),
    (
        "RSA with NULL",
        Record::Algorithm(&[1, 2, 840, 113549, 1, 1, 1], Some(TAG_NULL)),
        Der,
        "300D06092A864886F70D0101010500",
        Same,
    ),
    // its parameters are the name of the curve P-256
    (
        "a curve's name",
        Record::Algorithm(&[1, 2, 840, 10045, 2, 1], Some(TAG_OID)),
        Der,
        "301306072A8648CE3D020106082A8648CE3D030107",
        Same,
    ),
    (
        "parameters of indefinite length are kept",
        Record::Algorithm(ED, Some(TAG_SEQUENCE)),
        Ber,
        INDEFINITE,
        Written("300C06032B657030050201070000"),
    ),
    (
        "DER rejects an indefinite length",
        Record::Algorithm(ED, Some(TAG_SEQUENCE)),
        Der,
        INDEFINITE,
        Rejected(Invalid),
    ),
    (
        "broken parameters are rejected",
        Record::Algorithm(ED, None),
        Ber,
        "300706032B65700409",
        Rejected(Eof),
    ),
    (
        "a second NULL is rejected",
        Record::Algorithm(ED, Some(TAG_NULL)),
        Ber,
        "300906032B657005000500",
        Rejected(Extra),
    ),
    (
        "an Ed25519 key round-trips",
        Record::Key(256, false, 256),
        Der,
        ED25519,
        Same,
    ),
    (
        "an RSA key round-trips",
        Record::Key(64, true, 64),
        Der,
        RSA,
        Same,
    ),
    (
        "257 bits are rejected",
        Record::Key(256, false, 257),
        Der,
        ED25519,
        Rejected(Invalid),
    ),
];

#[test]
fn algorithms_and_keys_round_trip_or_are_rejected(rt: HostRuntime) {
    finds_none(&rt, first_other(rt.alloc(), &ROWS));
}
