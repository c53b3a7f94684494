//! ANY: elements that are kept as they are.

use yasna::models::{ObjectIdentifier, TaggedDerValue};
use yasna::{ASN1Error, ASN1ErrorKind, ASN1Result, BERReader, DERWriter};

#[derive(Drop)]
pub struct Algorithm {
    pub name: ObjectIdentifier,
    pub parameters: Option<TaggedDerValue>,
}

pub fn read_algorithm(reader: BERReader) -> ASN1Result<Algorithm> {
    reader.read_sequence(|parts| {
        let name = parts.next().read_oid()?;
        let parameters = parts.read_optional(|part| part.read_tagged_der())?;
        Ok(Algorithm { name, parameters })
    })
}

pub fn write_algorithm(algorithm: &Algorithm, writer: DERWriter<'_>) -> ASN1Result<()> {
    if !algorithm.name.is_encodable() {
        return Err(ASN1Error::new(ASN1ErrorKind::Invalid));
    }
    writer.write_sequence(|parts| {
        parts.next().write_oid(&algorithm.name)?;
        match &algorithm.parameters {
            Some(parameters) => parts.next().write_tagged_der(parameters),
            None => Ok(()),
        }
    })
}
