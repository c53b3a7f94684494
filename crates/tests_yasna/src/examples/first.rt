//! The first example: a struct of a list and an option under a tag.

use std::alloc::Global;
use yasna::{ASN1Result, Tag, construct_der, parse_der};

// Report ::= SEQUENCE { readings SEQUENCE OF INTEGER, battery [0] EXPLICIT INTEGER OPTIONAL }
#[derive(Drop)]
pub struct Report {
    pub readings: Vec<i64>,
    pub battery: Option<u8>,
}

pub fn decode_report(alloc: Global, bytes: &[u8]) -> ASN1Result<Report> {
    parse_der(alloc, bytes, |reader| {
        reader.read_sequence(|parts| {
            let readings = parts.next().collect_sequence_of(|item| item.read_i64())?;
            let battery = parts.read_optional(|part| {
                part.read_tagged(Tag::context(0), |charge| charge.read_u8())
            })?;
            Ok(Report { readings, battery })
        })
    })
}

pub fn encode_report(alloc: Global, report: &Report) -> ASN1Result<Vec<u8>> {
    construct_der(alloc, |writer| {
        writer.write_sequence(|parts| {
            parts.next().write_sequence_of(|items| -> ASN1Result<()> {
                for reading in &report.readings {
                    items.next().write_i64(*reading)?;
                }
                Ok(())
            })?;
            match report.battery {
                Some(charge) => parts
                    .next()
                    .write_tagged(Tag::context(0), |part| part.write_u8(charge)),
                None => Ok(()),
            }
        })
    })
}
