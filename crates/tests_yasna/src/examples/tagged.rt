//! Explicit tags.

use yasna::{ASN1Result, BERReader, DERWriter, Tag};

#[derive(Drop)]
pub struct EncryptedData {
    pub etype: i32,
    pub version: Option<u32>,
    pub cipher: Vec<u8>,
}

pub fn read_encrypted(reader: BERReader) -> ASN1Result<EncryptedData> {
    reader.read_sequence(|parts| {
        let etype = parts
            .next()
            .read_tagged(Tag::context(0), |part| part.read_i32())?;
        let version = parts.read_optional(|part| {
            part.read_tagged(Tag::context(1), |part| part.read_u32())
        })?;
        let cipher = parts
            .next()
            .read_tagged(Tag::context(2), |part| part.read_bytes())?;
        Ok(EncryptedData {
            etype,
            version,
            cipher,
        })
    })
}

pub fn write_encrypted(data: &EncryptedData, writer: DERWriter<'_>) -> ASN1Result<()> {
    writer.write_sequence(|parts| {
        parts
            .next()
            .write_tagged(Tag::context(0), |part| part.write_i32(data.etype))?;
        if let Some(version) = data.version {
            parts
                .next()
                .write_tagged(Tag::context(1), |part| part.write_u32(version))?;
        }
        parts
            .next()
            .write_tagged(Tag::context(2), |part| part.write_bytes(&data.cipher))
    })
}
