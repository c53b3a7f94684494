//! Types that are read and written as a tuple or step by step, each on bytes.

use crate::checks::finds_none;
use crate::pieces::Outcome::{Rejected, Same, Written};
use crate::pieces::{Piece, Row, expected, first_other};
use examples_proved::{
    Measurement, Report, Sample, Serial, Trail, Version, encoded_report, normalized_report,
    reencoded,
};
use std::alloc::Global;
use yasna::ASN1ErrorKind::{Eof, Invalid};
use yasna::BERMode::{Ber, Cer, Der};
use yasna::{
    ASN1Result, BERMode, EncodableParts, construct_der, decode_ber_general, encode_cer, encode_der,
};

// A type, and what is to be read of it where that isn't one value.
#[derive(Clone, Copy)]
enum Record {
    Measurement,
    Version,
    Sample,
    /// With these bytes.
    Report(&'static [u8]),
    Trail,
    NoSerial,
    /// In a SEQUENCE, and TRUE after it. It isn't read.
    Serial(Option<u64>),
}

const VERSION: Version = Version {
    major: 300,
    flag: false,
};

const SAMPLE: Sample = Sample {
    count: 300,
    last: true,
    shift: -129,
};

fn version_rewritten(alloc: Global, mode: BERMode, bytes: &[u8]) -> ASN1Result<Vec<u8>> {
    let Version { major, flag } = decode_ber_general::<Version>(alloc, bytes, mode)?;
    expected(major == 300 && !flag)?;
    match mode {
        BERMode::Cer => encode_cer(alloc, &VERSION),
        _ => encode_der(alloc, &VERSION),
    }
}

// DER's is written of its parts, and that of another encoding as it was read.
fn report_rewritten(
    alloc: Global,
    mode: BERMode,
    bytes: &[u8],
    wanted_raw: &[u8],
) -> ASN1Result<Vec<u8>> {
    let Report { name, raw, number } = decode_ber_general::<Report>(alloc, bytes, mode)?;
    expected(name.as_str() == "é" && raw.as_slice() == wanted_raw && number == -129)?;
    match mode {
        BERMode::Der => encoded_report(alloc, name, raw, number),
        _ => normalized_report(alloc, bytes),
    }
}

fn serial_written(alloc: Global, number: Option<u64>) -> ASN1Result<Vec<u8>> {
    let serial = Serial { number };
    construct_der(alloc, |writer| {
        writer.write_sequence(|parts| (&serial, (true, ())).write_parts(parts))
    })
}

impl Piece for Record {
    fn rewritten(self, alloc: Global, mode: BERMode, bytes: &[u8]) -> ASN1Result<Vec<u8>> {
        match self {
            Record::Measurement => {
                let read = decode_ber_general::<Measurement>(alloc, bytes, mode)?;
                expected(read.number == 10 && read.valid)?;
                encode_der(alloc, &read)
            }
            Record::Version => version_rewritten(alloc, mode, bytes),
            Record::Sample => {
                let Sample { count, last, shift } = decode_ber_general::<Sample>(
                    alloc, bytes, mode,
                )?;
                expected(count == 300 && last && shift == -129)?;
                encode_der(alloc, &SAMPLE)
            }
            Record::Report(raw) => report_rewritten(alloc, mode, bytes, raw),
            Record::Trail => {
                let Trail { steps } = decode_ber_general::<Trail>(alloc, bytes, mode)?;
                expected(steps.as_slice() == [300, 2, -1].as_slice())?;
                reencoded::<Trail>(alloc, bytes)
            }
            Record::NoSerial => encode_der(alloc, &Serial { number: None }),
            Record::Serial(number) => serial_written(alloc, number),
        }
    }
}

const VERSION_BYTES: &str = "30070202012C010100";

const SAMPLE_BYTES: &str = "300B0202012C0101FF0202FF7F";

const IN_PIECES: &str = "300E2C060401C30401A904000202FF7F";

static ROWS: [Row<Record>; 13] = [
    ("a version", Record::Version, Der, VERSION_BYTES, Same),
    (
        "a version in CER",
        Record::Version,
        Cer,
        "30800202012C0101000000",
        Same,
    ),
    (
        "CER rejects a length",
        Record::Version,
        Cer,
        VERSION_BYTES,
        Rejected(Invalid),
    ),
    ("a sample", Record::Sample, Der, SAMPLE_BYTES, Same),
    (
        "a sample without a part",
        Record::Sample,
        Der,
        "300602010A0101FF",
        Rejected(Eof),
    ),
    (
        "a measurement",
        Record::Measurement,
        Ber,
        "308002010A0101010000",
        Written("300602010A0101FF"),
    ),
    (
        "a report",
        Record::Report(&[0x48, 0x65]),
        Der,
        "300C0C02C3A9040248650202FF7F",
        Same,
    ),
    (
        "a report in pieces",
        Record::Report(&[]),
        Ber,
        IN_PIECES,
        Written("300A0C02C3A904000202FF7F"),
    ),
    (
        "DER rejects pieces",
        Record::Report(&[]),
        Der,
        IN_PIECES,
        Rejected(Invalid),
    ),
    (
        "a trail",
        Record::Trail,
        Der,
        "300A0201FF0201020202012C",
        Same,
    ),
    ("no serial number", Record::NoSerial, Der, "", Written("")),
    (
        "a part that is left out",
        Record::Serial(None),
        Der,
        "",
        Written("30030101FF"),
    ),
    (
        "a part that is given",
        Record::Serial(Some(10)),
        Der,
        "",
        Written("300602010A0101FF"),
    ),
];

#[test]
fn values_of_own_types_round_trip(rt: HostRuntime) {
    finds_none(&rt, first_other(rt.alloc(), &ROWS));
}
