//! OPTIONAL.

use yasna::{ASN1Result, BERReader, DERWriter};

#[derive(Drop)]
pub struct Person {
    pub name: String,
    pub age: Option<u16>,
}

pub fn read_person(reader: BERReader) -> ASN1Result<Person> {
    reader.read_sequence(|parts| {
        let name = parts.next().read_utf8string()?;
        let age = parts.read_optional(|part| part.read_u16())?;
        Ok(Person { name, age })
    })
}

pub fn write_person(person: &Person, writer: DERWriter<'_>) -> ASN1Result<()> {
    writer.write_sequence(|parts| {
        parts.next().write_utf8string(&person.name)?;
        match person.age {
            Some(age) => parts.next().write_u16(age),
            None => Ok(()),
        }
    })
}
