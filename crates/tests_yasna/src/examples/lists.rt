//! SEQUENCE OF.

use yasna::{ASN1Result, BERReader, DERWriter};

pub fn read_names(reader: BERReader) -> ASN1Result<Vec<String>> {
    reader.collect_sequence_of(|item| item.read_utf8string())
}

pub fn write_names(names: &[String], writer: DERWriter<'_>) -> ASN1Result<()> {
    writer.write_sequence_of(|items| {
        for name in names {
            items.next().write_utf8string(name)?;
        }
        Ok(())
    })
}

pub fn highest(reader: BERReader) -> ASN1Result<Option<i64>> {
    let mut highest = None;
    reader.read_sequence_of(|item| {
        let number = item.read_i64()?;
        highest = Some(highest.map_or(number, |so_far: i64| so_far.max(number)));
        Ok(())
    })?;
    Ok(highest)
}
