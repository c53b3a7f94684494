//! Implicit tags.

use yasna::{ASN1Result, BERReader, DERWriter, Tag};

#[derive(Clone, Copy)]
pub struct Accuracy {
    pub seconds: Option<u64>,
    pub millis: Option<u16>,
    pub micros: Option<u16>,
}

pub fn read_accuracy(reader: BERReader) -> ASN1Result<Accuracy> {
    reader.read_sequence(|parts| {
        let seconds = parts.read_optional(|part| part.read_u64())?;
        let millis = parts.read_optional(|part| {
            part.read_tagged_implicit(Tag::context(0), |part| part.read_u16())
        })?;
        let micros = parts.read_optional(|part| {
            part.read_tagged_implicit(Tag::context(1), |part| part.read_u16())
        })?;
        Ok(Accuracy {
            seconds,
            millis,
            micros,
        })
    })
}

fn write_fraction(tag: Tag, fraction: Option<u16>, writer: DERWriter<'_>) -> ASN1Result<()> {
    match fraction {
        Some(number) => writer.write_tagged_implicit(tag, |part| part.write_u16(number)),
        None => Ok(()),
    }
}

pub fn write_accuracy(accuracy: Accuracy, writer: DERWriter<'_>) -> ASN1Result<()> {
    writer.write_sequence(|parts| {
        if let Some(seconds) = accuracy.seconds {
            parts.next().write_u64(seconds)?;
        }
        write_fraction(Tag::context(0), accuracy.millis, parts.next())?;
        write_fraction(Tag::context(1), accuracy.micros, parts.next())
    })
}
