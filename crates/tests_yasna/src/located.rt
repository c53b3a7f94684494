//! Where a parse failed: the offset of the element and the elements around it.

use crate::checks::{bytes_of, holds, is_kind};
use std::alloc::Global;
use yasna::ASN1ErrorKind::{Eof, Extra, Invalid, StackOverflow};
use yasna::BERMode::{Ber, Cer, Der};
use yasna::{
    ASN1Error, ASN1ErrorKind, ASN1Result, BERMode, BERReader, BERReaderSeq, BERReaderSet, Located,
    Tag, parse_ber_located, parse_cer_located, parse_der_located, tags,
};

// What is read.
#[derive(Clone, Copy)]
enum Reading {
    /// SEQUENCE { number INTEGER, flag BOOLEAN DEFAULT TRUE, rows SEQUENCE OF SET OF INTEGER }
    Table,
    /// `[0] { [1] IMPLICIT SEQUENCE { flag BOOLEAN } }`
    Tagged,
    /// SEQUENCE { first INTEGER, second INTEGER }, by a callback that rejects 7 as the first.
    OtherThanSeven,
    /// SET { number INTEGER, name UTF8String OPTIONAL }, whose number is 7.
    Setting,
    /// SEQUENCE { setting SET { number INTEGER, name UTF8String OPTIONAL } }
    Enclosed,
}

use Reading::{Enclosed, OtherThanSeven, Setting, Table, Tagged};

fn setting(elements: &mut BERReaderSet) -> ASN1Result<bool> {
    elements.read_optional(&[tags::TAG_UTF8STRING], |name| name.read_utf8string())?;
    Ok(elements.next(&[tags::TAG_INTEGER])?.read_i64()? == 7)
}

impl Reading {
    fn read(self, reader: BERReader) -> ASN1Result<bool> {
        match self {
            Setting => reader.read_set(setting),
            Enclosed => reader.read_sequence(|parts| parts.next().read_set(setting)),
            Tagged => reader.read_tagged(Tag::context(0), |inner| {
                inner.read_tagged_implicit(Tag::context(1), |part| {
                    part.read_sequence(|parts| parts.next().read_bool())
                })
            }),
            _ => reader.read_sequence(|parts| self.read_parts(parts)),
        }
    }

    fn read_parts(self, parts: &mut BERReaderSeq) -> ASN1Result<bool> {
        let first = parts.next().read_i64()?;
        if matches!(self, OtherThanSeven) {
            if first == 7 {
                return Err(ASN1Error::new(Invalid));
            }
            parts.next().read_i64()?;
        } else {
            parts.read_default(true, |flag| flag.read_bool())?;
            parts.next().read_sequence_of(|row| {
                row.read_set_of(|cell| {
                    cell.read_i64()?;
                    Ok(())
                })
            })?;
        }
        Ok(true)
    }
}

fn read(alloc: Global, mode: BERMode, bytes: &[u8], reading: Reading) -> Result<bool, Located> {
    let callback = |reader: BERReader| reading.read(reader);
    match mode {
        BERMode::Ber => parse_ber_located(alloc, bytes, callback),
        BERMode::Der => parse_der_located(alloc, bytes, callback),
        BERMode::Cer => parse_cer_located(alloc, bytes, callback),
    }
}

// How and where a parse failed: the offset of the element, and how many are around it.
type Error = (ASN1ErrorKind, usize, usize);

// A name, what is read in which mode, and how it fails, if it does.
static READINGS: [(&str, Reading, BERMode, &str, Option<Error>); 29] = [
    // the outermost element, which fails at the beginning
    (
        "a table",
        Table,
        Der,
        "301002010701010030083106020101020102",
        None,
    ),
    ("no bytes", Table, Der, "", Some((Eof, 0, 0))),
    (
        "a SET in place of the table",
        Table,
        Der,
        "3103020107",
        Some((Invalid, 0, 0)),
    ),
    ("a cut table", Table, Der, "30100201", Some((Eof, 0, 0))),
    // a part, which fails where it begins, and so does a default
    (
        "a text in place of the number",
        Table,
        Der,
        "3003040107",
        Some((Invalid, 2, 1)),
    ),
    ("a cut number", Table, Der, "3003020207", Some((Eof, 2, 1))),
    ("no rows", Table, Der, "3003020107", Some((Eof, 5, 1))),
    (
        "a default that is written out",
        Table,
        Der,
        "30080201070101FF3000",
        Some((Invalid, 5, 1)),
    ),
    (
        "BER takes a default that is written out",
        Table,
        Ber,
        "30080201070101FF3000",
        None,
    ),
    (
        "TRUE in another byte",
        Table,
        Der,
        "30080201070101013000",
        Some((Invalid, 5, 1)),
    ),
    // an item, which fails where it begins
    (
        "DER rejects items out of order",
        Table,
        Der,
        "300D02010730083106020102020101",
        Some((Invalid, 12, 3)),
    ),
    (
        "BER takes items in any order",
        Table,
        Ber,
        "300D02010730083106020102020101",
        None,
    ),
    (
        "an INTEGER of no bytes",
        Table,
        Der,
        "300D02010730083106020102020000",
        Some((Invalid, 12, 3)),
    ),
    (
        "an item of another type",
        Table,
        Der,
        "300D02010730083106020102010101",
        Some((Extra, 12, 3)),
    ),
    // what is left, and ends of contents, which are where they are
    (
        "a NULL behind the rows",
        Table,
        Der,
        "300702010730000500",
        Some((Extra, 7, 1)),
    ),
    (
        "a NULL behind the table",
        Table,
        Der,
        "300502010730000500",
        Some((Extra, 7, 0)),
    ),
    (
        "a table without its end",
        Table,
        Ber,
        "30800201073080318002010100000000",
        Some((Eof, 16, 1)),
    ),
    (
        "a NULL in place of a row's end, in BER",
        Table,
        Ber,
        "308002010730803180020101000005000000",
        Some((Invalid, 14, 2)),
    ),
    (
        "a NULL in place of a row's end, in CER",
        Table,
        Cer,
        "308002010730803180020101000005000000",
        Some((Invalid, 14, 2)),
    ),
    // a tagged part is an element of its own, a callback rejects where it is, and elements of a SET fail where they begin
    (
        "a tagged part is an element of its own",
        Tagged,
        Der,
        "A004A1020100",
        Some((Invalid, 4, 2)),
    ),
    (
        "a callback rejects where it is",
        OtherThanSeven,
        Der,
        "3006020107020108",
        Some((Invalid, 5, 1)),
    ),
    (
        "an element of a SET fails where it begins",
        Setting,
        Ber,
        "31060201070C01FF",
        Some((Invalid, 5, 1)),
    ),
    ("a SET is read", Setting, Ber, "31060201070C0141", None),
    (
        "an unknown element of a SET",
        Setting,
        Ber,
        "310802010705000C0141",
        Some((Invalid, 5, 1)),
    ),
    (
        "a long number in a SET",
        Setting,
        Ber,
        "3107020200070C0141",
        Some((Invalid, 2, 1)),
    ),
    // so do those that the callback is never handed, and a SET of which it takes nothing fails at its first element
    (
        "a cut element of a SET",
        Setting,
        Ber,
        "31050201010203",
        Some((Eof, 5, 1)),
    ),
    (
        "an element of a SET that is out of order",
        Setting,
        Der,
        "31060C0141020107",
        Some((Invalid, 5, 1)),
    ),
    (
        "a SET without a number",
        Setting,
        Ber,
        "31800101000000",
        Some((Invalid, 2, 1)),
    ),
    (
        "a SET without a number, before other elements",
        Enclosed,
        Ber,
        "3080318001010000000201010201FF0000",
        Some((Invalid, 4, 2)),
    ),
];

fn is_read(
    alloc: Global,
    reading: Reading,
    mode: BERMode,
    text: &str,
    error: Option<Error>,
) -> ASN1Result<bool> {
    let bytes = bytes_of(alloc, text)?;
    match read(alloc, mode, &bytes, reading) {
        Ok(is_so) => Ok(is_so && error.is_none()),
        Err(found) => match error {
            Some((kind, offset, depth)) => Ok(
                is_kind(found.error.kind(), kind) && found.offset == offset && found.depth == depth,
            ),
            None => Ok(false),
        },
    }
}

// Whether the inner reading fails within its input of two bytes, and the outer one doesn't.
fn are_exchanged(alloc: Global) -> bool {
    let longer = [0x02, 0x01, 0x01, 0x02, 0x01, 0x02, 0x02, 0x03, 0x00];
    let mut in_string = false;
    let outcome = parse_der_located(alloc, &longer, |outer| {
        let mut failed = Ok(());
        let inner = parse_der_located(alloc, &[0x05, 0x00], |other| {
            outer.read_i64()?;
            outer.read_i64()?;
            std::mem::swap(outer, other);
            failed = outer.read_null();
            let _ = other.read_i64();
            Ok(())
        });
        in_string = inner.is_err_and(|found| found.offset == 2);
        failed
    });
    in_string && outcome.is_ok()
}

// Whether an element of a SET that is too deep fails where it begins.
fn is_too_deep(alloc: Global) -> ASN1Result<bool> {
    let mut bytes = bytes_of(alloc, "3180")?;
    for _ in 0..101 {
        bytes.extend_from_slice(&[0x30, 0x80])?;
    }
    match read(alloc, Ber, &bytes, Setting) {
        Ok(_) => Ok(false),
        Err(found) => Ok(
            is_kind(found.error.kind(), StackOverflow) && found.offset == 2 && found.depth == 1,
        ),
    }
}

// Whether the line of a failure says where a table is malformed.
fn is_line(alloc: Global, malformed: &[u8], line: &str) -> ASN1Result<bool> {
    match read(alloc, Der, malformed, Table) {
        Ok(_) => Ok(false),
        Err(found) => Ok(found.to_string(alloc)?.as_str() == line),
    }
}

// Also that exchanged readings fail within their inputs.
#[test]
fn parses_fail_where_elements_are_malformed(rt: HostRuntime) {
    for row in &READINGS {
        holds(&rt, row.0, is_read(rt.alloc(), row.1, row.2, row.3, row.4));
    }
    holds(&rt, "exchanged readings", Ok(are_exchanged(rt.alloc())));
    holds(&rt, "a deep element of a SET", is_too_deep(rt.alloc()));
    let line = "ASN1Error { kind: Eof } at offset 2, depth 1";
    holds(
        &rt,
        line,
        is_line(rt.alloc(), &[0x30, 0x03, 0x02, 0x02, 0x07], line),
    );
}
