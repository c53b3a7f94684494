//! The pieces of README.md and docs/GUIDE.md, each once on bytes.

use crate::checks::finds_none;
use crate::examples::alternatives::{Id, read_id};
use crate::examples::any::{read_algorithm, write_algorithm};
use crate::examples::choice::{Name, read_name, write_name};
use crate::examples::defaults::{read_constraints, write_constraints};
use crate::examples::errors::reason;
use crate::examples::first::{decode_report, encode_report};
use crate::examples::implicit::{read_accuracy, write_accuracy};
use crate::examples::lists::{highest, read_names, write_names};
use crate::examples::located::table_located;
use crate::examples::numbers::{
    Status, read_key, read_status, write_key, write_signature, write_status,
};
use crate::examples::optional::{read_person, write_person};
use crate::examples::own_errors::{StoreError, entries_to_der, entry_of_der};
use crate::examples::sequence::{point_from_ber, point_from_der, point_to_der};
use crate::examples::set_of::{read_values, write_values, write_values_as_they_are};
use crate::examples::sets::{read_setting, write_setting};
use crate::examples::signed::read_signed;
use crate::examples::sticky::number_or_zero;
use crate::examples::tagged::{read_encrypted, write_encrypted};
use crate::examples::times::{Time, read_time, time_of_text, write_time};
use crate::examples::whole::{read_table, write_flag};
use crate::pieces::Outcome::{Rejected, Same, Written};
use crate::pieces::{Piece, Row, bytes_if, expected, first_other};
use examples_proved::{read_directory_string, read_ldap_string, reencoded, write_directory_string};
use std::alloc::Global;
use yasna::ASN1ErrorKind::{Eof, Extra, Invalid, StackOverflow};
use yasna::BERMode::{Ber, Der};
use yasna::{
    ASN1Error, ASN1ErrorKind, ASN1Result, BERMode, BERReader, DERWriter, construct_der,
    parse_ber_general,
};

// A piece of code that takes the bytes, and what it is to read.
#[derive(Clone, Copy)]
enum Whole {
    /// A report with this battery, and with readings if it has none.
    Report(Option<u8>),
    Point(i64, i64),
    /// The only row of a table is written.
    Table,
    Flag,
    NumberOrZero(i64),
    /// The entries of these places are written.
    Stored(&'static [usize]),
    Slot(i64),
    /// This is said of where the table is malformed.
    Located(&'static str),
}

const STORE: [i64; 2] = [5, 6];

// `StackOverflow` only where the entry is missing: an encoding that is rejected so becomes `Invalid`, and no row takes one for the other.
fn encoding_error(error: StoreError) -> ASN1Error {
    match error {
        StoreError::NoSuchEntry => ASN1Error::new(StackOverflow),
        StoreError::Encoding(error) => match error.kind() {
            StackOverflow => ASN1Error::new(Invalid),
            _ => error,
        },
    }
}

impl Whole {
    fn of_store(self, alloc: Global, bytes: &[u8]) -> ASN1Result<Vec<u8>> {
        match self {
            Whole::Stored(places) => match entries_to_der(alloc, &STORE, places) {
                Ok(written) => Ok(written),
                Err(error) => Err(encoding_error(error)),
            },
            Whole::Slot(entry) => match entry_of_der(alloc, &STORE, bytes) {
                Ok(found) => bytes_if(alloc, found == entry, bytes),
                Err(error) => Err(encoding_error(error)),
            },
            Whole::Located(said) => match table_located(alloc, bytes) {
                Ok(_) => bytes_if(alloc, true, bytes),
                Err(found) => match found.to_string(alloc) {
                    Ok(line) => {
                        expected(line.as_str() == said)?;
                        Err(found.error)
                    }
                    Err(_) => bytes_if(alloc, false, bytes),
                },
            },
            Whole::NumberOrZero(number) => {
                bytes_if(alloc, number_or_zero(alloc, bytes)? == number, bytes)
            }
            _ => bytes_if(alloc, false, bytes),
        }
    }
}

impl Piece for Whole {
    fn rewritten(self, alloc: Global, mode: BERMode, bytes: &[u8]) -> ASN1Result<Vec<u8>> {
        match self {
            Whole::Report(charge) => {
                let report = decode_report(alloc, bytes)?;
                expected(report.battery == charge)?;
                expected(report.readings.is_empty() == charge.is_some())?;
                encode_report(alloc, &report)
            }
            Whole::Point(x, y) => {
                let point = match mode {
                    BERMode::Der => point_from_der(alloc, bytes),
                    _ => point_from_ber(alloc, bytes),
                }?;
                expected(point.x == x && point.y == y)?;
                point_to_der(alloc, point)
            }
            Whole::Table => {
                let table = read_table(alloc, bytes)?;
                match table.as_slice() {
                    [(name, flag)] => write_flag(alloc, name.as_str(), *flag),
                    _ => bytes_if(alloc, false, bytes),
                }
            }
            Whole::Flag => reencoded::<(String, bool)>(alloc, bytes),
            _ => self.of_store(alloc, bytes),
        }
    }
}

const POINT: &str = "300702010A0202FF7F";

const INDEFINITE_POINT: &str = "308002010A0202FF7F0000";

const ROW: &str = "30060C01610101FF";

// Structs and tables.
static VALUES: [Row<Whole>; 8] = [
    (
        "a report of one reading",
        Whole::Report(None),
        Der,
        "300630040202FF7F",
        Same,
    ),
    (
        "a report of a battery",
        Whole::Report(Some(90)),
        Der,
        "30073000A00302015A",
        Same,
    ),
    ("a point in DER", Whole::Point(10, -129), Der, POINT, Same),
    (
        "a point in BER",
        Whole::Point(10, -129),
        Ber,
        INDEFINITE_POINT,
        Written(POINT),
    ),
    (
        "DER rejects an indefinite length",
        Whole::Point(10, -129),
        Der,
        INDEFINITE_POINT,
        Rejected(Invalid),
    ),
    (
        "a table of one row",
        Whole::Table,
        Ber,
        "308030060C01610101010000",
        Written(ROW),
    ),
    ("a row", Whole::Flag, Der, ROW, Same),
    (
        "a row in another encoding is rejected",
        Whole::Flag,
        Der,
        "30060C0161010101",
        Rejected(Invalid),
    ),
];

// Bytes hold a number, or none that is taken for zero. Errors of a writing closure, of a reading one, and where a table is
// malformed.
static ERRORS: [Row<Whole>; 9] = [
    ("a number", Whole::NumberOrZero(7), Der, "3003020107", Same),
    (
        "no number is zero",
        Whole::NumberOrZero(0),
        Der,
        "3000",
        Same,
    ),
    (
        "a number in too many bytes is rejected",
        Whole::NumberOrZero(7),
        Der,
        "300402020007",
        Rejected(Invalid),
    ),
    (
        "an entry is written",
        Whole::Stored(&[1]),
        Der,
        "",
        Written("3003020106"),
    ),
    (
        "no such entry to write",
        Whole::Stored(&[2]),
        Der,
        "",
        Rejected(StackOverflow),
    ),
    ("an entry is read", Whole::Slot(6), Der, "020101", Same),
    (
        "no such entry to read",
        Whole::Slot(6),
        Der,
        "020102",
        Rejected(StackOverflow),
    ),
    (
        "bytes that are left are rejected",
        Whole::Slot(6),
        Der,
        "02010100",
        Rejected(Extra),
    ),
    (
        "a table fails where it is broken",
        Whole::Located("ASN1Error { kind: Eof } at offset 7, depth 2"),
        Der,
        "30083006020101020200",
        Rejected(Eof),
    ),
];

#[test]
fn structs_and_tables_round_trip(rt: HostRuntime) {
    finds_none(&rt, first_other(rt.alloc(), &VALUES));
}

#[test]
fn errors_have_their_causes(rt: HostRuntime) {
    let cut = reason(ASN1Error::new(ASN1ErrorKind::Eof));
    assert!(rt; cut == "an element is cut off or missing", "{cut}");
    finds_none(&rt, first_other(rt.alloc(), &ERRORS));
}

// A piece of code that takes a reader or a writer, and what it is to read.
#[derive(Clone, Copy)]
enum Part {
    /// Of this age.
    Person(Option<u16>),
    Constraints(bool, Option<u64>),
    Name,
    /// A UTF8String is written as a mail address.
    Mail,
    Id,
    Encrypted,
    /// Of so many seconds and microseconds.
    Accuracy(Option<u64>, Option<u16>),
    /// So many of them.
    Names(usize),
    Highest,
    Values,
    ValuesAsTheyAre,
    /// Enabled and without a note, or neither.
    Setting(bool),
    /// With parameters or without.
    Algorithm(bool),
    /// The signature is written.
    Signed,
    DirectoryString,
    LdapString,
    /// A UTCTime, or the other time.
    Time(bool),
    /// The time whose text a UTF8String is, or NULL, where it is that of none.
    TimeOfText,
    Malformed,
    Key(&'static [u8], u64),
    /// An OCTET STRING is written as a signature.
    Signature,
}

impl Part {
    // What is optional, chosen or tagged.
    fn copied(self, alloc: Global, reader: BERReader, writer: DERWriter<'_>) -> ASN1Result<()> {
        match self {
            Part::Person(age) => {
                let person = read_person(reader)?;
                expected(person.age == age)?;
                write_person(&person, writer)
            }
            Part::Constraints(is_authority, path_length) => {
                let read = read_constraints(reader)?;
                expected(read.is_authority == is_authority && read.path_length == path_length)?;
                write_constraints(read, writer)
            }
            Part::Name => write_name(&read_name(reader)?, writer),
            Part::Mail => write_name(&Name::Mail(reader.read_utf8string()?), writer),
            Part::Id => match read_id(reader)? {
                Id::Number(number) => writer.write_i64(number),
                Id::Name(name) => writer.write_utf8string(&name),
            },
            Part::Encrypted => {
                let data = read_encrypted(reader)?;
                expected(data.etype == 18 && data.cipher.as_slice() == [7].as_slice())?;
                write_encrypted(&data, writer)
            }
            Part::Accuracy(seconds, micros) => {
                let read = read_accuracy(reader)?;
                expected(read.seconds == seconds && read.micros == micros)?;
                write_accuracy(read, writer)
            }
            _ => self.list_copied(alloc, reader, writer),
        }
    }

    // Of one type, in any order, or kept as it came.
    fn list_copied(
        self,
        alloc: Global,
        reader: BERReader,
        writer: DERWriter<'_>,
    ) -> ASN1Result<()> {
        match self {
            Part::Names(count) => {
                let names = read_names(reader)?;
                expected(names.len() == count)?;
                write_names(&names, writer)
            }
            Part::Highest => match highest(reader)? {
                Some(number) => writer.write_i64(number),
                None => Ok(()),
            },
            Part::Values => write_values(&read_values(reader)?, writer),
            Part::ValuesAsTheyAre => write_values_as_they_are(&read_values(reader)?, writer),
            Part::Setting(is_enabled) => {
                let setting = read_setting(reader)?;
                expected(setting.number == 10 && setting.enabled == is_enabled)?;
                expected(setting.note.is_none() == is_enabled)?;
                write_setting(&setting, writer)
            }
            Part::Algorithm(has_parameters) => {
                let algorithm = read_algorithm(reader)?;
                expected(algorithm.parameters.is_some() == has_parameters)?;
                write_algorithm(&algorithm, writer)
            }
            Part::Signed => {
                let signed = read_signed(reader)?;
                expected(signed.serial == 10)?;
                expected(signed.signed_bytes == [0x30, 0x03, 0x02, 0x01, 0x0a].as_slice())?;
                writer.write_bytes(&signed.signature)
            }
            _ => self.text_copied(alloc, reader, writer),
        }
    }

    // Texts, times and numbers.
    fn text_copied(
        self,
        alloc: Global,
        reader: BERReader,
        writer: DERWriter<'_>,
    ) -> ASN1Result<()> {
        match self {
            Part::DirectoryString => write_directory_string(
                &read_directory_string(reader)?,
                writer,
            ),
            Part::LdapString => writer.write_utf8string(&read_ldap_string(reader)?),
            Part::Time(is_utc) => {
                let time = read_time(reader)?;
                expected(matches!(&time, Time::Utc(_)) == is_utc)?;
                write_time(&time, writer)
            }
            Part::TimeOfText => match time_of_text(alloc, &reader.read_utf8string()?)? {
                Some(time) => write_time(&time, writer),
                None => writer.write_null(),
            },
            Part::Malformed => {
                let status = read_status(reader)?;
                expected(matches!(&status, Status::Malformed))?;
                write_status(status, writer)
            }
            Part::Key(modulus, exponent) => {
                let key = read_key(reader)?;
                expected(key.modulus.as_slice() == modulus && key.exponent == exponent)?;
                write_key(&key, writer)
            }
            Part::Signature => write_signature(&reader.read_bytes()?, writer),
            _ => expected(false),
        }
    }
}

impl Piece for Part {
    fn rewritten(self, alloc: Global, mode: BERMode, bytes: &[u8]) -> ASN1Result<Vec<u8>> {
        parse_ber_general(alloc, bytes, mode, |reader| {
            construct_der(alloc, |writer| self.copied(alloc, reader, writer))
        })
    }
}

const CONSTRAINTS_SAY_FALSE: &str = "3003010100";

// Parts that may be omitted, that are chosen, or that are under tags. An age that is there and malformed isn't taken for
// none. In BER defaults may be there.
static PARTS: [Row<Part>; 19] = [
    (
        "an age",
        Part::Person(Some(10)),
        Der,
        "30060C016102010A",
        Same,
    ),
    ("no age", Part::Person(None), Der, "30030C0161", Same),
    (
        "a broken age is rejected",
        Part::Person(None),
        Der,
        "30060C01610201",
        Rejected(Eof),
    ),
    (
        "empty constraints",
        Part::Constraints(false, None),
        Der,
        "3000",
        Same,
    ),
    (
        "constraints of an authority",
        Part::Constraints(true, Some(3)),
        Der,
        "30060101FF020103",
        Same,
    ),
    (
        "BER reads a default that is written out",
        Part::Constraints(false, None),
        Ber,
        CONSTRAINTS_SAY_FALSE,
        Written("3000"),
    ),
    (
        "DER rejects a default that is written out",
        Part::Constraints(false, None),
        Der,
        CONSTRAINTS_SAY_FALSE,
        Rejected(Invalid),
    ),
    ("a mail address", Part::Name, Der, "8103614062", Same),
    ("a host name", Part::Name, Der, "8203612E62", Same),
    (
        "an address of four octets",
        Part::Name,
        Der,
        "87047F000001",
        Same,
    ),
    (
        "an unknown alternative is rejected",
        Part::Name,
        Der,
        "88012A",
        Rejected(Invalid),
    ),
    (
        "a mail address beyond ASCII is rejected",
        Part::Mail,
        Der,
        "0C02C3A9",
        Rejected(Invalid),
    ),
    ("a number as an id", Part::Id, Der, "020107", Same),
    ("a name as an id", Part::Id, Der, "0C0161", Same),
    (
        "a number in too many bytes is rejected",
        Part::Id,
        Der,
        "02020007",
        Rejected(Invalid),
    ),
    (
        "encrypted data without a version",
        Part::Encrypted,
        Der,
        "300AA003020112A203040107",
        Same,
    ),
    (
        "encrypted data with a version",
        Part::Encrypted,
        Der,
        "300FA003020112A103020105A203040107",
        Same,
    ),
    (
        "an accuracy in seconds",
        Part::Accuracy(Some(60), None),
        Der,
        "300302013C",
        Same,
    ),
    (
        "an accuracy in microseconds",
        Part::Accuracy(None, Some(500)),
        Der,
        "3007800101810201F4",
        Same,
    ),
];

#[test]
fn optional_chosen_and_tagged_parts_round_trip(rt: HostRuntime) {
    finds_none(&rt, first_other(rt.alloc(), &PARTS));
}

const FALLING: &str = "310704026161040162";

// Those in a SEQUENCE OF, those in a SET OF, SETs, and elements that are kept as they came.
static LISTS: [Row<Part>; 10] = [
    ("two names", Part::Names(2), Der, "30070C01610C026263", Same),
    (
        "the highest of three",
        Part::Highest,
        Der,
        "30090201FF020107020103",
        Written("020107"),
    ),
    (
        "values are sorted",
        Part::Values,
        Ber,
        FALLING,
        Written("310704016204026161"),
    ),
    (
        "values keep their order",
        Part::ValuesAsTheyAre,
        Ber,
        FALLING,
        Same,
    ),
    (
        "a setting with all parts",
        Part::Setting(false),
        Ber,
        "31090C016101010002010A",
        Written("310901010002010A0C0161"),
    ),
    (
        "a setting of one part",
        Part::Setting(true),
        Der,
        "310302010A",
        Same,
    ),
    (
        "a default that is written out is rejected",
        Part::Setting(true),
        Der,
        "31060101FF02010A",
        Rejected(Invalid),
    ),
    (
        "an algorithm without parameters",
        Part::Algorithm(false),
        Der,
        "300506032B6570",
        Same,
    ),
    (
        "an algorithm with NULL",
        Part::Algorithm(true),
        Der,
        "300D06092A864886F70D0101010500",
        Same,
    ),
    (
        "signed contents",
        Part::Signed,
        Der,
        "3009300302010A03020007",
        Written("040107"),
    ),
];

#[test]
fn lists_sets_and_raw_elements_round_trip(rt: HostRuntime) {
    finds_none(&rt, first_other(rt.alloc(), &LISTS));
}

const UTC_TIME: &str = "170D3832303130323132303030305A";

const GENERALIZED_TIME: &str = "181131393832303130323132303030302E355A";

// Texts and times, and numbers: one of an ENUMERATED, those of a key, and the bits of a signature.
static TEXTS: [Row<Part>; 12] = [
    (
        "a PrintableString",
        Part::DirectoryString,
        Der,
        "13026162",
        Same,
    ),
    ("a UTF8String", Part::DirectoryString, Der, "0C02C3A9", Same),
    (
        "an LDAP string",
        Part::LdapString,
        Ber,
        "0402C3A9",
        Written("0C02C3A9"),
    ),
    ("a UTCTime", Part::Time(true), Der, UTC_TIME, Same),
    (
        "a GeneralizedTime",
        Part::Time(false),
        Der,
        GENERALIZED_TIME,
        Same,
    ),
    (
        "the text of a UTCTime",
        Part::TimeOfText,
        Der,
        "0C0D3832303130323132303030305A",
        Written(UTC_TIME),
    ),
    (
        "the text of a GeneralizedTime",
        Part::TimeOfText,
        Der,
        "0C1131393832303130323132303030302E355A",
        Written(GENERALIZED_TIME),
    ),
    (
        "a text that is no time",
        Part::TimeOfText,
        Der,
        "0C0D3832303133323132303030305A",
        Written("0500"),
    ),
    ("an ENUMERATED", Part::Malformed, Der, "0A0101", Same),
    (
        "an unknown ENUMERATED is rejected",
        Part::Malformed,
        Der,
        "0A0102",
        Rejected(Invalid),
    ),
    (
        "a key",
        Part::Key(&[0, 255], 65537),
        Der,
        "3009020200FF0203010001",
        Same,
    ),
    (
        "a signature",
        Part::Signature,
        Der,
        "04020709",
        Written("0303000709"),
    ),
];

#[test]
fn texts_times_and_numbers_round_trip(rt: HostRuntime) {
    finds_none(&rt, first_other(rt.alloc(), &TEXTS));
}
