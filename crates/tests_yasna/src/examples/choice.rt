//! CHOICE.

use yasna::{ASN1Error, ASN1ErrorKind, ASN1Result, BERReader, DERWriter, Tag};

#[derive(Drop)]
pub enum Name {
    Mail(String),
    Domain(String),
    Address(Vec<u8>),
}

pub fn read_name(reader: BERReader) -> ASN1Result<Name> {
    let tag = reader.lookahead_tag()?;
    if tag == Tag::context(1) {
        let mail = reader.read_tagged_implicit(tag, |text| text.read_ia5_string())?;
        Ok(Name::Mail(mail))
    } else if tag == Tag::context(2) {
        let domain = reader.read_tagged_implicit(tag, |text| text.read_ia5_string())?;
        Ok(Name::Domain(domain))
    } else if tag == Tag::context(7) {
        let address = reader.read_tagged_implicit(tag, |octets| octets.read_bytes())?;
        Ok(Name::Address(address))
    } else {
        Err(ASN1Error::new(ASN1ErrorKind::Invalid))
    }
}

pub fn write_name(name: &Name, writer: DERWriter<'_>) -> ASN1Result<()> {
    match name {
        Name::Mail(mail) => {
            writer.write_tagged_implicit(Tag::context(1), |text| write_ia5(mail, text))
        }
        Name::Domain(domain) => {
            writer.write_tagged_implicit(Tag::context(2), |text| write_ia5(domain, text))
        }
        Name::Address(address) => {
            writer.write_tagged_implicit(Tag::context(7), |octets| octets.write_bytes(address))
        }
    }
}

#[tactic(auto, using(yasna::proofs::Laws::ascii_text))]
fn write_ia5(text: &str, writer: DERWriter<'_>) -> ASN1Result<()> {
    if text.is_ascii() {
        writer.write_ia5_string(text)
    } else {
        Err(ASN1Error::new(ASN1ErrorKind::Invalid))
    }
}
