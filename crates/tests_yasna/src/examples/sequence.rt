//! SEQUENCE.

use std::alloc::Global;
use yasna::{ASN1Result, BERReader, DERWriter, construct_der, parse_ber, parse_der};

#[derive(Clone, Copy)]
pub struct Point {
    pub x: i64,
    pub y: i64,
}

pub fn read_point(reader: BERReader) -> ASN1Result<Point> {
    reader.read_sequence(|parts| {
        let x = parts.next().read_i64()?;
        let y = parts.next().read_i64()?;
        Ok(Point { x, y })
    })
}

pub fn write_point(point: Point, writer: DERWriter<'_>) -> ASN1Result<()> {
    writer.write_sequence(|parts| {
        parts.next().write_i64(point.x)?;
        parts.next().write_i64(point.y)
    })
}

pub fn point_from_der(alloc: Global, bytes: &[u8]) -> ASN1Result<Point> {
    parse_der(alloc, bytes, read_point)
}

pub fn point_from_ber(alloc: Global, bytes: &[u8]) -> ASN1Result<Point> {
    parse_ber(alloc, bytes, read_point)
}

pub fn point_to_der(alloc: Global, point: Point) -> ASN1Result<Vec<u8>> {
    construct_der(alloc, |writer| write_point(point, writer))
}
