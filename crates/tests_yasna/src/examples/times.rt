//! Times.

use std::alloc::{AllocError, Global};
use yasna::models::{GeneralizedTime, UTCTime};
use yasna::tags::TAG_UTCTIME;
use yasna::{ASN1Result, BERReader, DERWriter};

#[derive(Drop)]
pub enum Time {
    Utc(UTCTime),
    Generalized(GeneralizedTime),
}

pub fn read_time(reader: BERReader) -> ASN1Result<Time> {
    if reader.lookahead_tag()? == TAG_UTCTIME {
        Ok(Time::Utc(reader.read_utctime()?))
    } else {
        Ok(Time::Generalized(reader.read_generalized_time()?))
    }
}

pub fn write_time(time: &Time, writer: DERWriter<'_>) -> ASN1Result<()> {
    match time {
        Time::Utc(time) => writer.write_utctime(time),
        Time::Generalized(time) => writer.write_generalized_time(time),
    }
}

pub fn time_of_text(alloc: Global, text: &str) -> Result<Option<Time>, AllocError> {
    if let Some(time) = UTCTime::parse(text.as_bytes()) {
        return Ok(Some(Time::Utc(time)));
    }
    let time = GeneralizedTime::parse(alloc, text.as_bytes())?;
    Ok(time.map(Time::Generalized))
}
