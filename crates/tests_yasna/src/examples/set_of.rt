//! SET OF.

use yasna::tags::TAG_SET;
use yasna::{ASN1Result, BERReader, DERWriter};

pub fn read_values(reader: BERReader) -> ASN1Result<Vec<Vec<u8>>> {
    reader.collect_set_of(|item| item.read_bytes())
}

pub fn write_values(values: &[Vec<u8>], writer: DERWriter<'_>) -> ASN1Result<()> {
    writer.write_set_of(|items| {
        for value in values {
            items.next().write_bytes(value)?;
        }
        Ok(())
    })
}

pub fn write_values_as_they_are(values: &[Vec<u8>], writer: DERWriter<'_>) -> ASN1Result<()> {
    writer.write_tagged_implicit(TAG_SET, |list| {
        list.write_sequence_of(|items| -> ASN1Result<()> {
            for value in values {
                items.next().write_bytes(value)?;
            }
            Ok(())
        })
    })
}
