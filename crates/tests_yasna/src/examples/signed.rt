//! The bytes that a value was read from.

use yasna::{ASN1Result, BERReader, BERReaderSeq};

#[derive(Drop)]
pub struct Signed<'a> {
    pub serial: i64,
    pub signed_bytes: &'a [u8],
    pub signature: Vec<u8>,
}

fn read_serial(reader: BERReader) -> ASN1Result<i64> {
    reader.read_sequence(|parts| parts.next().read_i64())
}

fn read_signed_parts<'a>(parts: &mut BERReaderSeq<'a, '_>) -> ASN1Result<Signed<'a>> {
    let (serial, signed_bytes) = parts.next().read_with_buffer(read_serial)?;
    let (signature, _) = parts.next().read_bitvec_bytes()?;
    Ok(Signed {
        serial,
        signed_bytes,
        signature,
    })
}

pub fn read_signed<'a>(reader: BERReader<'a, '_>) -> ASN1Result<Signed<'a>> {
    reader.read_sequence(read_signed_parts)
}
