//! One read after another.

use yasna::{ASN1Result, BERReader};

#[derive(Drop)]
pub enum Id {
    Number(i64),
    Name(String),
}

pub fn read_id(reader: BERReader) -> ASN1Result<Id> {
    match reader.read_i64() {
        Ok(number) => Ok(Id::Number(number)),
        Err(_) => Ok(Id::Name(reader.read_utf8string()?)),
    }
}
