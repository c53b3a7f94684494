//! DEFAULT.

use yasna::{ASN1Result, BERReader, DERWriter};

#[derive(Clone, Copy)]
pub struct BasicConstraints {
    pub is_authority: bool,
    pub path_length: Option<u64>,
}

pub fn read_constraints(reader: BERReader) -> ASN1Result<BasicConstraints> {
    reader.read_sequence(|parts| {
        let is_authority = parts.read_default(false, |part| part.read_bool())?;
        let path_length = parts.read_optional(|part| part.read_u64())?;
        Ok(BasicConstraints {
            is_authority,
            path_length,
        })
    })
}

pub fn write_constraints(constraints: BasicConstraints, writer: DERWriter<'_>) -> ASN1Result<()> {
    writer.write_sequence(|parts| {
        if constraints.is_authority {
            parts.next().write_bool(true)?;
        }
        match constraints.path_length {
            Some(length) => parts.next().write_u64(length),
            None => Ok(()),
        }
    })
}
