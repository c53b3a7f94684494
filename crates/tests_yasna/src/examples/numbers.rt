//! ENUMERATED, INTEGER of any size, BIT STRING.

use yasna::{ASN1Error, ASN1ErrorKind, ASN1Result, BERReader, DERWriter};

#[derive(Clone, Copy)]
pub enum Status {
    Successful,
    Malformed,
}

pub fn read_status(reader: BERReader) -> ASN1Result<Status> {
    match reader.read_enum()? {
        0 => Ok(Status::Successful),
        1 => Ok(Status::Malformed),
        _ => Err(ASN1Error::new(ASN1ErrorKind::Invalid)),
    }
}

pub fn write_status(status: Status, writer: DERWriter<'_>) -> ASN1Result<()> {
    match status {
        Status::Successful => writer.write_enum(0),
        Status::Malformed => writer.write_enum(1),
    }
}

#[derive(Drop)]
pub struct RsaPublicKey {
    pub modulus: Vec<u8>,
    pub exponent: u64,
}

pub fn read_key(reader: BERReader) -> ASN1Result<RsaPublicKey> {
    reader.read_sequence(|parts| {
        let (modulus, is_positive) = parts.next().read_bigint_bytes()?;
        if !is_positive {
            return Err(ASN1Error::new(ASN1ErrorKind::Invalid));
        }
        let exponent = parts.next().read_u64()?;
        Ok(RsaPublicKey { modulus, exponent })
    })
}

pub fn write_key(key: &RsaPublicKey, writer: DERWriter<'_>) -> ASN1Result<()> {
    writer.write_sequence(|parts| {
        parts.next().write_bigint_bytes(&key.modulus, true)?;
        parts.next().write_u64(key.exponent)
    })
}

pub fn write_signature(signature: &[u8], writer: DERWriter<'_>) -> ASN1Result<()> {
    match signature.len().checked_mul(8) {
        Some(bits) => writer.write_bitvec_bytes(signature, bits),
        None => Err(ASN1Error::new(ASN1ErrorKind::Invalid)),
    }
}
