//! The lines of `asn1show_lines`, diagnostics and rejections. The offsets, depths, lengths and tags of the key are those that `openssl asn1parse -i` prints of it.

use crate::checks::{finds_none, holds, spelled};
use asn1show_lines::InputFormat::Hex;
use asn1show_lines::{
    Conformance, Extent, InputFormat, Layout, Numbers, Output, Selection, View, show,
};
use asn1show_walk::{Context, Place, WalkError, is_one_element};
use std::alloc::Global;
use yasna::BERMode::{Ber, Cer, Der};
use yasna::{ASN1Result, BERMode};

// What is wanted of an input.
#[derive(Clone, Copy)]
pub(crate) enum Expectation {
    /// These lines, and this error, or none where it says nothing.
    Listed(&'static str, &'static str),
    /// This as the first line.
    Head(&'static str),
    /// This line after the first one, and after it these rules.
    Line(&'static str, &'static str),
    /// That the input is taken whole.
    Taken,
    /// That it is malformed, and this is said of it.
    Malformed(&'static str),
    /// That it is taken whole, and its first element is said not to be in BER, since it is constructed.
    Constructed,
}

use Expectation::{Constructed, Head, Line, Listed, Malformed, Taken};

impl Expectation {
    // Whether this was written, and this said of an error, which is of malformed input or not.
    fn is_met(self, text: &str, said: &str, is_malformed: bool) -> bool {
        let mut rows = text.lines();
        let head = rows.next().unwrap_or("");
        let element = rows.next().unwrap_or("");
        match self {
            Listed(lines, error) => text == lines && said == error,
            Head(first) => head == first,
            Line(line, rules) => {
                element.trim_start().strip_prefix("0  ") == Some(line)
                    && rows.next().unwrap_or("").strip_prefix("rules: ") == Some(rules)
            }
            Taken => said.is_empty(),
            Malformed(error) => is_malformed && said == error,
            Constructed => {
                said.is_empty()
                    && element.contains(" -- not BER: constructed, where the type is primitive")
                    && text.ends_with("rules: none\n")
            }
        }
    }
}

/// An input, its format where it isn't detected, the rules, and what is wanted of it.
pub(crate) type Row = (&'static str, Option<InputFormat>, BERMode, Expectation);

/// Each element, with 16 hexadecimal digits of a value.
pub(crate) const ALL: View<'static> = View {
    name: "input",
    selection: Selection::Elements(Extent {
        at: None,
        depth: 255,
    }),
    layout: Layout::Lines,
    numbers: Numbers::Hexadecimal,
    width: 16,
    has_dump: false,
    schema: None,
};

// Whether this was written with this outcome.
fn is_met(
    alloc: Global,
    written: &[u8],
    outcome: Result<Conformance, WalkError>,
    expected: Expectation,
) -> ASN1Result<bool> {
    let text = std::str::from_utf8(written).unwrap_or("");
    match outcome {
        Ok(_) => Ok(expected.is_met(text, "", false)),
        Err(error) => {
            let is_malformed = matches!(error, WalkError::Malformed { .. });
            Ok(expected.is_met(text, &error.to_string(alloc)?, is_malformed))
        }
    }
}

/// Whether an input is shown so in a view. If it is listed to its end, its elements are as asked and the one that is asked for was found, or
/// not.
pub(crate) fn is_viewed(
    alloc: Global,
    row: &Row,
    view: View<'_>,
    is_accepted: bool,
) -> ASN1Result<bool> {
    let (input, input_format, mode, expected) = *row;
    let mut output = Output::new(Vec::new(alloc));
    let outcome = show(
        alloc,
        &mut output,
        mode,
        input_format,
        view,
        input.as_bytes(),
    );
    let is_as_asked = match outcome {
        Ok(conformance) => {
            let accepted = view.selection.accepts(conformance) && !output.is_missing();
            accepted == is_accepted
        }
        Err(_) => true,
    };
    Ok(is_as_asked && is_met(alloc, output.writer().as_slice(), outcome, expected)?)
}

/// Whether exactly these bytes are written of an input in a view.
pub(crate) fn is_written(alloc: Global, input: &str, view: View<'_>, bytes: &[u8]) -> bool {
    let mut output = Output::new(Vec::new(alloc));
    let outcome = show(alloc, &mut output, Ber, None, view, input.as_bytes());
    outcome.is_ok() && output.writer().as_slice() == bytes
}

fn is_shown(
    alloc: Global,
    input: &str,
    input_format: Option<InputFormat>,
    mode: BERMode,
    expected: Expectation,
) -> ASN1Result<bool> {
    let mut output = Output::new(Vec::new(alloc));
    let outcome = show(
        alloc,
        &mut output,
        mode,
        input_format,
        ALL,
        input.as_bytes(),
    );
    is_met(alloc, output.writer().as_slice(), outcome, expected)
}

/// The first input that is shown otherwise.
pub(crate) fn first_other(alloc: Global, rows: &[Row]) -> Option<&'static str> {
    for row in rows {
        if !matches!(is_shown(alloc, row.0, row.1, row.2, row.3), Ok(true)) {
            return Some(row.0);
        }
    }
    None
}

const KEY: &str = "A key:
-----BEGIN PUBLIC KEY-----
MFkwEwYHKoZIzj0CAQYIKoZIzj0DAQcDQgAE+CJBf22HZggwwIIlf8bcFqqlxl5w
FAS09q/vMsaZpxQqACy4ath3ntPoBK/7vwBscMw1CWqWcv/YJyVHQlaC7A==
-----END PUBLIC KEY-----
";

const KEY_LINES: &str = "input: PEM \"PUBLIC KEY\", 91 bytes
      0  2+89       SEQUENCE
      2  2+19         SEQUENCE
      4  2+7            OBJECT IDENTIFIER 1.2.840.10045.2.1 ecPublicKey
     13  2+8            OBJECT IDENTIFIER 1.2.840.10045.3.1.7 prime256v1
     23  2+66         BIT STRING '04F822417F6D8766..'H
rules: BER, DER
";

// An element of indefinite length around a SET OF out of order, a string in segments, and a string that holds an element.
pub(crate) const NESTED: &str = "3080 3106 020102 020101 2480 0401AA 0401BB 0000 0403 020105 0000";

const NESTED_LINES: &str = "input: hexadecimal, 27 bytes
      0  2+indef    SEQUENCE -- not DER: indefinite length
      2  2+6          SET -- not DER: a SET OF out of order
      4  2+1            INTEGER 2
      7  2+1            INTEGER 1
     10  2+indef      OCTET STRING -- not DER: indefinite length -- not DER: cut into segments
     12  2+1            OCTET STRING 'AA'H
     15  2+1            OCTET STRING 'BB'H
     20  2+3          OCTET STRING '020105'H
     22  2+1      >     INTEGER 5
rules: BER
";

// Inputs whose encoding isn't given, the rules, and what is wanted of them.
static LINES: [Row; 25] = [
    (
        "01, 01, FF,",
        None,
        Ber,
        Line("2+1        BOOLEAN TRUE", "BER, DER, CER"),
    ),
    (KEY, None, Der, Listed(KEY_LINES, "")),
    (NESTED, None, Ber, Listed(NESTED_LINES, "")),
    ("30 00\n", None, Ber, Head("input: hexadecimal, 2 bytes")),
    ("0\x00", None, Ber, Head("input: 2 bytes")),
    (
        "\u{4}\u{14}\n-----BEGIN X-----\n",
        None,
        Ber,
        Head("input: 21 bytes"),
    ),
    (
        "0101FF",
        None,
        Ber,
        Line("2+1        BOOLEAN TRUE", "BER, DER, CER"),
    ),
    (
        "010101",
        None,
        Ber,
        Line("2+1        BOOLEAN TRUE -- not DER: TRUE isn't FF", "BER"),
    ),
    (
        "0202FF7F",
        None,
        Ber,
        Line("2+2        INTEGER -129", "BER, DER, CER"),
    ),
    (
        "0209010000000000000000",
        None,
        Ber,
        Line("2+9        INTEGER '0100000000000000..'H", "BER, DER, CER"),
    ),
    (
        "02088000000000000000",
        None,
        Ber,
        Line("2+8        INTEGER -9223372036854775808", "BER, DER, CER"),
    ),
    (
        "0202007F",
        None,
        Ber,
        Line(
            "2+2        INTEGER 127 -- not BER: a number in too many octets or none",
            "none",
        ),
    ),
    (
        "028101 05",
        None,
        Ber,
        Line(
            "3+1        INTEGER 5 -- not DER: the length isn't the shortest",
            "BER",
        ),
    ),
    (
        "0303 04 A5 F0",
        None,
        Ber,
        Line("2+3        BIT STRING 'A5F0'H less 4 bits", "BER, DER, CER"),
    ),
    (
        "0302 04 A5",
        None,
        Ber,
        Line(
            "2+2        BIT STRING 'A5'H less 4 bits -- not DER: unused bits aren't zeros",
            "BER",
        ),
    ),
    (
        "0603550403",
        None,
        Ber,
        Line(
            "2+3        OBJECT IDENTIFIER 2.5.4.3 commonName",
            "BER, DER, CER",
        ),
    ),
    (
        "0C07 41 07 E2 80 AE 22 7F",
        None,
        Ber,
        Line(
            "2+7        UTF8String \"A\\u{7}\\u{202E}\\\"\\u{7F}\"",
            "BER, DER, CER",
        ),
    ),
    (
        "1302 41 2A",
        None,
        Ber,
        Line(
            "2+2        PrintableString \"A*\" -- not BER: a character that the type hasn't",
            "none",
        ),
    ),
    (
        "1E04 0041 D800",
        None,
        Ber,
        Line(
            "2+4        BMPString \"A\\u{D800}\" -- not BER: a character that the type hasn't",
            "none",
        ),
    ),
    (
        "170B 38323031303231323030 5A",
        None,
        Ber,
        Line(
            "2+11       UTCTime 1982-01-02T12:00:00Z -- not DER: the time isn't canonical",
            "BER",
        ),
    ),
    (
        "1813 31393835313130363231303832392E3732345A",
        None,
        Ber,
        Line(
            "2+19       GeneralizedTime 1985-11-06T21:08:29.724Z",
            "BER, DER, CER",
        ),
    ),
    (
        "180E 3139383531313036323130383239",
        None,
        Ber,
        Line(
            "2+14       GeneralizedTime 1985-11-06T21:08:29 -- not DER: local time",
            "BER",
        ),
    ),
    ("0500", None, Ber, Line("2+0        NULL", "BER, DER, CER")),
    (
        "8505 0102030405",
        None,
        Ber,
        Line("2+5        [5] '0102030405'H", "BER, DER, CER"),
    ),
    ("3000", None, Ber, Line("2+0        SEQUENCE", "BER, DER")),
];

#[test]
fn each_element_has_its_line(rt: HostRuntime) {
    finds_none(&rt, first_other(rt.alloc(), &LINES));
}

// Malformed input in hexadecimal, and what is said of it.
static MALFORMED: [Row; 12] = [
    (
        "3003 020101 02",
        Some(Hex),
        Ber,
        Malformed("offset 5: Eof: expected length octets"),
    ),
    (
        "3005 020101",
        Some(Hex),
        Ber,
        Malformed("offset 0: Eof: expected 5 octets of contents, of which 3 are there"),
    ),
    (
        "3080 020101",
        Some(Hex),
        Ber,
        Malformed("offset 5: Eof: expected an element"),
    ),
    (
        "3002 0000",
        Some(Hex),
        Ber,
        Malformed("offset 2: Invalid: expected an element, no end of contents"),
    ),
    (
        "1F 1E 00",
        Some(Hex),
        Ber,
        Malformed("offset 0: Invalid: expected a tag number of 31 or more in the fewest octets"),
    ),
    (
        "3080 0000",
        Some(Hex),
        Der,
        Malformed("offset 0: Invalid: expected a length that is counted"),
    ),
    (
        "028101 05",
        Some(Hex),
        Der,
        Malformed("offset 0: Invalid: expected a length in the fewest octets"),
    ),
    (
        "3000",
        Some(Hex),
        Cer,
        Malformed("offset 0: Invalid: expected a constructed element of indefinite length"),
    ),
    (
        "030",
        Some(Hex),
        Ber,
        Malformed("offset 3: Invalid: expected one more hexadecimal digit"),
    ),
    (
        "05 0G\n0\n",
        Some(Hex),
        Ber,
        Malformed("offset 4: Invalid: expected a hexadecimal digit"),
    ),
    (
        "\u{FEFF}050G",
        Some(Hex),
        Ber,
        Malformed("offset 6: Invalid: expected a hexadecimal digit"),
    ),
    (
        "\u{FEFF}050",
        Some(Hex),
        Ber,
        Malformed("offset 6: Invalid: expected one more hexadecimal digit"),
    ),
];

// A name, an encoding, the texts that an input is spelled of, how often, and what is wanted of it. The greatest depth is 101. Base64 is
// padded at its end alone, however much of it is before.
static SPELLED: [(&str, Option<InputFormat>, [&str; 4], usize, Expectation); 5] = [
    (
        "101 elements are taken",
        Some(Hex),
        ["", "3080", "0500", "0000"],
        100,
        Taken,
    ),
    (
        "102 elements are rejected",
        Some(Hex),
        ["", "3080", "30803080", ""],
        100,
        Malformed("offset 202: StackOverflow: expected at most 101 levels of elements"),
    ),
    (
        "a cut block of PEM is rejected",
        None,
        ["text\n-----BEGIN X-----\n", "", "", ""],
        0,
        Malformed("offset 23: Eof: expected a line that ends the block of PEM"),
    ),
    (
        "padding in the first group",
        None,
        [
            "-----BEGIN X-----\n",
            "BAFB",
            "QQ==QUFB\n-----END X-----\n",
            "",
        ],
        0,
        Malformed("offset 20: Invalid: expected no padding before the end of base64"),
    ),
    (
        "padding in a later group",
        None,
        [
            "-----BEGIN X-----\n",
            "BAFB",
            "QQ==QUFB\n-----END X-----\n",
            "",
        ],
        1023,
        Malformed("offset 4112: Invalid: expected no padding before the end of base64"),
    ),
];

fn is_spelled(
    alloc: Global,
    input_format: Option<InputFormat>,
    texts: [&str; 4],
    times: usize,
    expected: Expectation,
) -> ASN1Result<bool> {
    let input = spelled(alloc, texts, times)?;
    is_shown(alloc, &input, input_format, Ber, expected)
}

fn first_spelled_otherwise(alloc: Global) -> Option<&'static str> {
    for row in &SPELLED {
        if !matches!(is_spelled(alloc, row.1, row.2, row.3, row.4), Ok(true)) {
            return Some(row.0);
        }
    }
    None
}

#[test]
fn malformed_input_is_rejected_at_its_offset(rt: HostRuntime) {
    finds_none(&rt, first_other(rt.alloc(), &MALFORMED));
    finds_none(&rt, first_spelled_otherwise(rt.alloc()));
}

// Contents of a string, and whether they are one element.
static CONTENTS: [(&str, &[u8], bool); 5] = [
    ("a number", &[0x02, 0x01, 0x0a], true),
    (
        "a NULL in a SEQUENCE",
        &[0x30, 0x80, 0x05, 0x00, 0x00, 0x00],
        true,
    ),
    ("nothing", &[], false),
    ("a zero behind a number", &[0x02, 0x01, 0x0a, 0x00], false),
    (
        "a cut number in a SEQUENCE",
        &[0x30, 0x02, 0x02, 0x01],
        false,
    ),
];

fn is_one(contents: &[u8]) -> bool {
    let rules = Context {
        mode: Ber,
        levels: 101,
        in_string: true,
    };
    let place = Place {
        left: contents,
        offset: 0,
    };
    is_one_element(rules, place)
}

/// Bytes are one well-formed element where one is there, each constructed one in it holds such elements, and nothing is after it.
#[test]
fn strings_hold_one_element_or_none(rt: HostRuntime) {
    for row in &CONTENTS {
        holds(&rt, row.0, Ok(is_one(row.1) == row.2));
    }
}
