//! Values of a type as a whole.

use std::alloc::Global;
use yasna::{ASN1Result, decode_ber, encode_der};

pub fn read_table(alloc: Global, bytes: &[u8]) -> ASN1Result<Vec<(String, bool)>> {
    decode_ber(alloc, bytes)
}

pub fn write_flag(alloc: Global, name: &str, flag: bool) -> ASN1Result<Vec<u8>> {
    encode_der(alloc, &(name, flag))
}
