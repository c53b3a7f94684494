//! SubjectPublicKeyInfo with its AlgorithmIdentifier (RFC 5280, 4.1), read from and written to real bytes by closures.

use crate::checks::finds_none;
use crate::examples::any::{Algorithm, read_algorithm, write_algorithm};
use crate::pieces::Outcome::Same;
use crate::pieces::{Piece, Row, expected, first_other};
use std::alloc::Global;
use yasna::BERMode::Der;
use yasna::{
    ASN1Error, ASN1ErrorKind, ASN1Result, BERMode, DERWriter, construct_der, parse_ber_general,
};

// The Ed25519 key of RFC 8410, 10.1, whose algorithm has no parameters.
pub const ED25519: &str =
    "302A300506032B657003210019BF44096984CDFE8541BAC167DC3B96C85086AA30B6B6CB0C5C38AD703166E1";

// An RSA key with the modulus 33, whose algorithm has NULL for its parameters.
pub const RSA: &str = "301A300D06092A864886F70D01010105000309003006020121020103";

// A key whose algorithm has this name, of so many bits, and whether its algorithm has parameters.
#[derive(Clone, Copy)]
struct Key(&'static [u64], usize, bool);

fn write_bits(key: &[u8], bits: usize, writer: DERWriter<'_>) -> ASN1Result<()> {
    if bits % 8 != 0 || key.len() != bits / 8 {
        return Err(ASN1Error::new(ASN1ErrorKind::Invalid));
    }
    writer.write_bitvec_bytes(key, bits)
}

fn key_written(
    alloc: Global,
    algorithm: &Algorithm,
    key: &[u8],
    bits: usize,
) -> ASN1Result<Vec<u8>> {
    construct_der(alloc, |writer| {
        writer.write_sequence(|parts| {
            write_algorithm(algorithm, parts.next())?;
            write_bits(key, bits, parts.next())
        })
    })
}

impl Piece for Key {
    fn rewritten(self, alloc: Global, mode: BERMode, bytes: &[u8]) -> ASN1Result<Vec<u8>> {
        let Key(name, wanted_bits, has_parameters) = self;
        parse_ber_general(alloc, bytes, mode, |reader| {
            reader.read_sequence(|parts| {
                let algorithm = read_algorithm(parts.next())?;
                let (key, bits) = parts.next().read_bitvec_bytes()?;
                expected(algorithm.name.components().as_slice() == name && bits == wanted_bits)?;
                expected(algorithm.parameters.is_some() == has_parameters)?;
                key_written(alloc, &algorithm, &key, bits)
            })
        })
    }
}

static ROWS: [Row<Key>; 2] = [
    (
        "an Ed25519 key",
        Key(&[1, 3, 101, 112], 256, false),
        Der,
        ED25519,
        Same,
    ),
    (
        "an RSA key",
        Key(&[1, 2, 840, 113549, 1, 1, 1], 64, true),
        Der,
        RSA,
        Same,
    ),
];

#[test]
fn public_keys_round_trip(rt: HostRuntime) {
    finds_none(&rt, first_other(rt.alloc(), &ROWS));
}
