//! Calls that read and write certificates, as the types of `x509`.

use crate::writing::written;
use crate::{length, mixed, number_of};
use std::alloc::Global;
use x509::Certificate;
use yasna::{ASN1Result, DERExact, decode_der, encode_der, one_der_encoding, parse_der};
use yasna_notation::{Encoded, Notation};

/// The checksum of the bit lengths of the signatures in a SEQUENCE OF certificates.
#[unsafe(no_mangle)]
pub extern "C" fn yasna_read_certificates(alloc: Global, bytes: &[u8]) -> u64 {
    number_of(read(alloc, bytes).map(|certificates| bits_checksum(&certificates)))
}

// Reads a SEQUENCE OF certificates.
fn read(alloc: Global, bytes: &[u8]) -> ASN1Result<Vec<Certificate>> {
    parse_der(alloc, bytes, |reader| {
        reader.collect_sequence_of(|item| Certificate::read(item))
    })
}

// The checksum of the bit lengths of the certificates' signatures.
fn bits_checksum(certificates: &[Certificate]) -> u64 {
    let mut checksum = 0;
    for certificate in certificates {
        let (_, bits) = &certificate.signature_value;
        checksum = mixed(checksum, (*bits as u64).cast_signed());
    }
    checksum
}

/// The length of a SEQUENCE OF certificates that is read and written again.
#[unsafe(no_mangle)]
pub extern "C" fn yasna_rewrite_certificates(alloc: Global, bytes: &[u8]) -> u64 {
    length(rewritten::<Vec<Encoded<Certificate>>>(alloc, bytes))
}

// A value, read and written again.
fn rewritten<T: DERExact>(alloc: Global, bytes: &[u8]) -> ASN1Result<Vec<u8>> {
    one_der_encoding::<T>();
    let value: T = decode_der(alloc, bytes)?;
    encode_der(alloc, &value)
}

/// The lengths of a SEQUENCE OF certificates that is read once and written so many times, in sum.
#[unsafe(no_mangle)]
pub extern "C" fn yasna_write_certificates(alloc: Global, bytes: &[u8], times: u64) -> u64 {
    number_of(written::<Vec<Encoded<Certificate>>>(alloc, bytes, times))
}
