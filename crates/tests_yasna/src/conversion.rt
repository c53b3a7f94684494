//! Elements by hand, as X.690 spells them: what is written for them, where the first ambiguities are, and where malformed ones are rejected.

use crate::checks::{bytes_of, holds, is_kind, spelled};
use asn1der_convert::ambiguity::Ambiguity;
use asn1der_convert::conversion::convert;
use asn1der_convert::error::{ConvertError, Expected};
use std::alloc::Global;
use yasna::ASN1ErrorKind::{Eof, Invalid, StackOverflow};
use yasna::{ASN1ErrorKind, ASN1Result};

// Elements in BER, the same in DER, and the first ambiguity of each kind: segments, an implicit SET OF, the order of a SET.
static CONVERTED: [(&str, &str, [Option<usize>; 3]); 51] = [
    // booleans
    ("010101", "0101FF", [None, None, None]),
    ("010100", "010100", [None, None, None]),
    ("01810180", "0101FF", [None, None, None]),
    // lengths in more bytes than it takes
    ("02810105", "020105", [None, None, None]),
    ("02840000000105", "020105", [None, None, None]),
    // a tag in the long form
    ("1F1F8100", "1F1F00", [None, None, None]),
    // indefinite lengths
    ("30800000", "3000", [None, None, None]),
    (
        "30803180010101000005000000",
        "300731030101FF0500",
        [None, None, None],
    ),
    // several elements
    ("050030800000010107", "050030000101FF", [None, None, None]),
    // octets in segments, and in segments of segments
    ("24800401610401620000", "04026162", [None, None, None]),
    ("24082403040161040162", "04026162", [None, None, None]),
    ("2400", "0400", [None, None, None]),
    // bits in segments, and unused ones
    ("2309030200FF030304ABCF", "030404FFABC0", [None, None, None]),
    ("030204FF", "030204F0", [None, None, None]),
    ("23800000", "030100", [None, None, None]),
    // a text
    ("2C800401C30401A90000", "0C02C3A9", [None, None, None]),
    // elements of a SET OF, which are ordered by what is written
    (
        "3109020103020101020102",
        "3109020101020102020103",
        [None, None, None],
    ),
    (
        "3180028101020201010000",
        "3106020101020102",
        [None, None, None],
    ),
    ("310704016224020400", "31050400040162", [None, None, None]),
    // elements in doubt
    ("A0800401610000", "A003040161", [Some(0), None, None]),
    // lengths in more bytes than it takes, of 127 and of 128 zeros
    (
        "0488000000000000007F00000000000000000000000000000000000000000000000000000000000000000000000000000000000000000000000000000000000000000000000000000000000000000000000000000000000000000000000000000000000000000000000000000000000000000000000000000000000000000000000000000000000000",
        "047F00000000000000000000000000000000000000000000000000000000000000000000000000000000000000000000000000000000000000000000000000000000000000000000000000000000000000000000000000000000000000000000000000000000000000000000000000000000000000000000000000000000000000",
        [None, None, None],
    ),
    (
        "048800000000000000800000000000000000000000000000000000000000000000000000000000000000000000000000000000000000000000000000000000000000000000000000000000000000000000000000000000000000000000000000000000000000000000000000000000000000000000000000000000000000000000000000000000000000",
        "0481800000000000000000000000000000000000000000000000000000000000000000000000000000000000000000000000000000000000000000000000000000000000000000000000000000000000000000000000000000000000000000000000000000000000000000000000000000000000000000000000000000000000000000",
        [None, None, None],
    ),
    // no segments
    ("A0020500", "A0020500", [None, None, None]),
    ("A003020102", "A003020102", [None, None, None]),
    ("A006030100040161", "A006030100040161", [None, None, None]),
    (
        "A3123010300E0603551D0F0101FF040403020106",
        "A3123010300E0603551D0F0101FF040403020106",
        [None, None, None],
    ),
    // segments: an OCTET STRING, two of which one is in segments itself, a BIT STRING, and none
    ("A003040161", "A003040161", [Some(0), None, None]),
    (
        "A1082403040161040162",
        "A106040161040162",
        [Some(0), None, None],
    ),
    ("6203030100", "6203030100", [Some(0), None, None]),
    ("05006102E200", "05006102E200", [Some(4), None, None]),
    // an implicit SET OF in order, and out of it
    ("A006020101020102", "A006020101020102", [None, None, None]),
    (
        "A006020102020101",
        "A006020102020101",
        [None, Some(0), None],
    ),
    (
        "3008A006020102020101",
        "3008A006020102020101",
        [None, Some(2), None],
    ),
    (
        "A006040161030100",
        "A006040161030100",
        [None, Some(0), None],
    ),
    (
        "A006040162040161",
        "A006040162040161",
        [Some(0), Some(0), None],
    ),
    // a SEQUENCE is neither
    ("3006040162040161", "3006040162040161", [None, None, None]),
    // a SET whose two orders are one, in order and out of it
    ("31060101FF020101", "31060101FF020101", [None, None, None]),
    ("31060201010101FF", "31060101FF020101", [None, None, None]),
    (
        "30083106020101010105",
        "300831060101FF020101",
        [None, None, None],
    ),
    ("3180A30081000000", "31048100A300", [Some(2), None, None]),
    (
        "3109020102040161020101",
        "3109020101020102040161",
        [None, None, None],
    ),
    // the elements of a SET, which are ordered by what is written
    ("310704810161010105", "31060101FF040161", [None, None, None]),
    // a SET in the order of tags, of octets, and of neither
    ("3106A00205008100", "3106A00205008100", [None, None, None]),
    ("31068100A0020500", "31068100A0020500", [None, None, None]),
    (
        "310882008100A0020500",
        "310882008100A0020500",
        [None, None, Some(0)],
    ),
    (
        "300A310882008100A0020500",
        "300A310882008100A0020500",
        [None, None, Some(2)],
    ),
    // a SET with a tag twice, which is in no order of a SET, and one whose tags are each lower than the next one
    (
        "310AA0020500A00205008100",
        "310AA0020500A00205008100",
        [None, None, Some(0)],
    ),
    (
        "311C3006020100010100300F010100300A02010A30050101FF0500160160",
        "311C3006020100010100300F010100300A02010A30050101FF0500160160",
        [None, None, Some(0)],
    ),
    (
        "310AA0020500A10205008200",
        "310AA0020500A10205008200",
        [None, None, None],
    ),
    // a type that is always primitive, and one that X.680 doesn't define
    ("0E8100", "0E00", [None, None, None]),
    ("3F2503040161", "3F2503040161", [None, None, None]),
];

// Elements whose contents are validated, and the same in DER.
static CONTENTS: [(&str, &str, [Option<usize>; 3]); 46] = [
    // numbers in the fewest octets
    ("020105", "020105", [None, None, None]),
    ("020100", "020100", [None, None, None]),
    ("0201FF", "0201FF", [None, None, None]),
    ("020180", "020180", [None, None, None]),
    ("02020080", "02020080", [None, None, None]),
    ("0202FF7F", "0202FF7F", [None, None, None]),
    (
        "020A00FFFFFFFFFFFFFFFFFF",
        "020A00FFFFFFFFFFFFFFFFFF",
        [None, None, None],
    ),
    ("0A01FF", "0A01FF", [None, None, None]),
    // subidentifiers: one of 2.25 with 128 bits, and a relative one
    (
        "06146983DAE8B2C1F0A9D8E5B6C4D2A1F0E9B7C3D15A",
        "06146983DAE8B2C1F0A9D8E5B6C4D2A1F0E9B7C3D15A",
        [None, None, None],
    ),
    ("0D02817F", "0D02817F", [None, None, None]),
    // texts: in UTF-8, of each class, and units of UTF-16
    ("0C05C3A9E29C93", "0C05C3A9E29C93", [None, None, None]),
    ("0C00", "0C00", [None, None, None]),
    ("120430312039", "120430312039", [None, None, None]),
    (
        "1308412D7A202830293F",
        "1308412D7A202830293F",
        [None, None, None],
    ),
    ("1602007F", "1602007F", [None, None, None]),
    ("1A02207E", "1A02207E", [None, None, None]),
    ("1E0600E9D83DDE00", "1E0600E9D83DDE00", [None, None, None]),
    ("1E00", "1E00", [None, None, None]),
    // characters of other types aren't validated
    ("1401E9", "1401E9", [None, None, None]),
    ("1C0100", "1C0100", [None, None, None]),
    ("0701FF", "0701FF", [None, None, None]),
    ("1B0180", "1B0180", [None, None, None]),
    // nor are contents under tags of other classes, or of types that aren't known
    ("8200", "8200", [None, None, None]),
    ("C2020001", "C2020001", [None, None, None]),
    ("45020500", "45020500", [None, None, None]),
    ("0F020001", "0F020001", [None, None, None]),
    // a UTCTime: in DER, without seconds, and at offsets, also over the end of a year
    (
        "170D3236303331383132333034355A",
        "170D3236303331383132333034355A",
        [None, None, None],
    ),
    (
        "170B323630333138313233305A",
        "170D3236303331383132333030305A",
        [None, None, None],
    ),
    (
        "17113236303331383132333034352B30313330",
        "170D3236303331383131303034355A",
        [None, None, None],
    ),
    (
        "170F393931323331323333302D30313030",
        "170D3030303130313030333030305A",
        [None, None, None],
    ),
    (
        "3780040632363033313804073132333034355A0000",
        "170D3236303331383132333034355A",
        [None, None, None],
    ),
    (
        "378004083236303331383132040333305A0000",
        "170D3236303331383132333030305A",
        [None, None, None],
    ),
    // a GeneralizedTime: in DER, in its other forms, and second 60
    (
        "180F32303236303331383132333034355A",
        "180F32303236303331383132333034355A",
        [None, None, None],
    ),
    (
        "181132303236303331383132333034352E355A",
        "181132303236303331383132333034352E355A",
        [None, None, None],
    ),
    (
        "180B323032363033313831325A",
        "180F32303236303331383132303030305A",
        [None, None, None],
    ),
    (
        "180D3230323630333138313233305A",
        "180F32303236303331383132333030305A",
        [None, None, None],
    ),
    (
        "181332303236303331383132333034352E3530305A",
        "181132303236303331383132333034352E355A",
        [None, None, None],
    ),
    (
        "181332303236303331383132333034352E3030305A",
        "180F32303236303331383132333034355A",
        [None, None, None],
    ),
    (
        "181232303236303331383132333034352C32355A",
        "181232303236303331383132333034352E32355A",
        [None, None, None],
    ),
    (
        "180D323032363033313831322E355A",
        "180F32303236303331383132333030305A",
        [None, None, None],
    ),
    (
        "18103230323630333138313233302E37355A",
        "180F32303236303331383132333034355A",
        [None, None, None],
    ),
    (
        "182232303236303331383132333034352E30303030303030303031323334302B30353330",
        "181D32303236303331383037303034352E303030303030303030313233345A",
        [None, None, None],
    ),
    (
        "181132303236303331383030333034352D3031",
        "180F32303236303331383031333034355A",
        [None, None, None],
    ),
    (
        "180F32303136313233313233353936305A",
        "180F32303136313233313233353936305A",
        [None, None, None],
    ),
    (
        "3880040A32303236303331383132040333305A0000",
        "180F32303236303331383132333030305A",
        [None, None, None],
    ),
    // elements of a SET OF, which are ordered by what is written: two times and one moment
    (
        "3120170B323630333138313233305A17113236303331383132333030302B30313030",
        "311E170D3236303331383131333030305A170D3236303331383132333030305A",
        [None, None, None],
    ),
];

fn is_converted(
    alloc: Global,
    input: &str,
    output: &str,
    [segments, implicit, order]: [Option<usize>; 3],
) -> ASN1Result<bool> {
    let input = bytes_of(alloc, input)?;
    let output = bytes_of(alloc, output)?;
    match convert(alloc, &input) {
        Ok(converted) => {
            let found = &converted.ambiguities;
            let is_certain = segments.is_none() && implicit.is_none() && order.is_none();
            Ok(
                converted.bytes.as_slice() == output.as_slice()
                    && found.first(Ambiguity::Segments) == segments
                    && found.first(Ambiguity::ImplicitSetOf) == implicit
                    && found.first(Ambiguity::Order) == order
                    && found.are_any() != is_certain,
            )
        }
        Err(_) => Ok(false),
    }
}

// Whether the first elements become the second ones, and where nothing is ambiguous these themselves.
fn is_row(
    alloc: Global,
    input: &str,
    output: &str,
    ambiguities: [Option<usize>; 3],
) -> ASN1Result<bool> {
    let is_so = is_converted(alloc, input, output, ambiguities)?;
    let is_certain = matches!(ambiguities, [None, None, None]);
    Ok(is_so && (!is_certain || is_converted(alloc, output, output, ambiguities)?))
}

// How elements are malformed: where, by which error, and what was expected of a segment.
type Malformed = (usize, ASN1ErrorKind, Option<Expected>);

// Malformed elements, and where and how they are.
static MALFORMED: [(&str, usize, ASN1ErrorKind, Option<Expected>); 33] = [
    // cut off
    ("", 0, Eof, None),
    ("02", 0, Eof, None),
    ("30030101", 0, Eof, None),
    ("0500040261", 2, Eof, None),
    // no end of contents, one too many, and one that isn't
    ("3080010101", 5, Eof, None),
    ("0000", 0, Invalid, None),
    ("30020000", 2, Invalid, None),
    ("30800500000100", 4, Invalid, None),
    // a primitive element of indefinite length
    ("300402800000", 2, Invalid, None),
    // booleans that aren't, and bits
    ("01020000", 0, Invalid, None),
    ("05002103010101", 2, Invalid, None),
    // a small tag number in the long form
    ("300505001F1E00", 4, Invalid, None),
    // constructed, where the type is primitive
    ("2103010100", 0, Invalid, None),
    ("2203020105", 0, Invalid, None),
    ("2D03040141", 0, Invalid, None),
    ("2E03040141", 0, Invalid, None),
    ("05002E800000", 2, Invalid, None),
    ("3F1F03040141", 0, Invalid, None),
    ("30063F2403040141", 2, Invalid, None),
    // primitive, where the type is constructed
    ("1000", 0, Invalid, None),
    ("30021100", 2, Invalid, None),
    ("1D00", 0, Invalid, None),
    // a segment of another type, also within a segment
    ("2403020105", 2, Invalid, Some(Expected::OctetString)),
    ("05002403020105", 4, Invalid, Some(Expected::OctetString)),
    ("24052403020105", 4, Invalid, Some(Expected::OctetString)),
    ("2C030C0161", 2, Invalid, Some(Expected::OctetString)),
    ("2303040161", 2, Invalid, Some(Expected::BitString)),
    // segments that are cut off, and a malformed one
    ("2480040161", 5, Eof, Some(Expected::OctetString)),
    ("240404056162", 2, Eof, Some(Expected::OctetString)),
    ("2303030108", 2, Invalid, Some(Expected::BitString)),
    // unused bits in a segment that isn't the last
    (
        "2308030204F0030200AA",
        2,
        Invalid,
        Some(Expected::NoUnusedBits),
    ),
    (
        "230A2304030204F0030200AA",
        2,
        Invalid,
        Some(Expected::NoUnusedBits),
    ),
    // a string in one piece
    ("03020801", 0, Invalid, None),
];

// Malformed contents, where their elements are, and what was expected.
static MALFORMED_CONTENTS: [(&str, usize, ASN1ErrorKind, Option<Expected>); 46] = [
    // numbers in no octets, and in too many
    ("0200", 0, Invalid, Some(Expected::Number)),
    ("02020001", 0, Invalid, Some(Expected::Number)),
    ("0202FF80", 0, Invalid, Some(Expected::Number)),
    ("30050201050A00", 5, Invalid, Some(Expected::Number)),
    ("0A020000", 0, Invalid, Some(Expected::Number)),
    // a NULL with contents
    ("050100", 0, Invalid, Some(Expected::Nothing)),
    // no subidentifier, one in too many octets, and one that isn't finished
    ("0600", 0, Invalid, Some(Expected::Subidentifiers)),
    ("06022A80", 0, Invalid, Some(Expected::Subidentifiers)),
    ("06032A8001", 0, Invalid, Some(Expected::Subidentifiers)),
    ("0602802A", 0, Invalid, Some(Expected::Subidentifiers)),
    ("0D00", 0, Invalid, Some(Expected::Subidentifiers)),
    ("30040D028001", 2, Invalid, Some(Expected::Subidentifiers)),
    ("0D0181", 0, Invalid, Some(Expected::Subidentifiers)),
    // characters that the type hasn't, in one piece and in segments
    ("0C01FF", 0, Invalid, Some(Expected::Characters)),
    ("0C02C080", 0, Invalid, Some(Expected::Characters)),
    ("0C03EDA080", 0, Invalid, Some(Expected::Characters)),
    ("120141", 0, Invalid, Some(Expected::Characters)),
    ("130140", 0, Invalid, Some(Expected::Characters)),
    ("160180", 0, Invalid, Some(Expected::Characters)),
    ("1A011F", 0, Invalid, Some(Expected::Characters)),
    ("1A017F", 0, Invalid, Some(Expected::Characters)),
    ("1E0141", 0, Invalid, Some(Expected::Characters)),
    ("1E03004100", 0, Invalid, Some(Expected::Characters)),
    ("050033050403414042", 2, Invalid, Some(Expected::Characters)),
    (
        "2C800401C30401410000",
        0,
        Invalid,
        Some(Expected::Characters),
    ),
    // what isn't a UTCTime
    ("1700", 0, Invalid, Some(Expected::UtcTime)),
    ("17023236", 0, Invalid, Some(Expected::UtcTime)),
    (
        "170C323630333138313233303435",
        0,
        Invalid,
        Some(Expected::UtcTime),
    ),
    (
        "170D3236313331383132333034355A",
        0,
        Invalid,
        Some(Expected::UtcTime),
    ),
    (
        "170D3236303233303132333034355A",
        0,
        Invalid,
        Some(Expected::UtcTime),
    ),
    (
        "170D3236303331383132363034355A",
        0,
        Invalid,
        Some(Expected::UtcTime),
    ),
    (
        "170D3236303331383132333036305A",
        0,
        Invalid,
        Some(Expected::UtcTime),
    ),
    (
        "170F3236303331383132333034352E355A",
        0,
        Invalid,
        Some(Expected::UtcTime),
    ),
    (
        "170F3236303331383132333034352B3031",
        0,
        Invalid,
        Some(Expected::UtcTime),
    ),
    (
        "170D3236303331383132333020355A",
        0,
        Invalid,
        Some(Expected::UtcTime),
    ),
    (
        "378004063236303331380404313233300000",
        0,
        Invalid,
        Some(Expected::UtcTime),
    ),
    // what isn't a GeneralizedTime, or has no zone, or a year after 9999
    ("1800", 0, Invalid, Some(Expected::GeneralizedTime)),
    (
        "180932303236303331385A",
        0,
        Invalid,
        Some(Expected::GeneralizedTime),
    ),
    (
        "180E3230323630333138313233303435",
        0,
        Invalid,
        Some(Expected::GeneralizedTime),
    ),
    (
        "181032303236303331383132333034352E5A",
        0,
        Invalid,
        Some(Expected::GeneralizedTime),
    ),
    (
        "181032303236303331383132333034352E35",
        0,
        Invalid,
        Some(Expected::GeneralizedTime),
    ),
    (
        "180F32303236313331383132333034355A",
        0,
        Invalid,
        Some(Expected::GeneralizedTime),
    ),
    (
        "180F32303236303331383234333034355A",
        0,
        Invalid,
        Some(Expected::GeneralizedTime),
    ),
    (
        "181332303236303331383132333034352B32343030",
        0,
        Invalid,
        Some(Expected::GeneralizedTime),
    ),
    (
        "181339393939313233313233353935392D30313030",
        0,
        Invalid,
        Some(Expected::GeneralizedTime),
    ),
    (
        "181232303236303331383132333034352E355A5A",
        0,
        Invalid,
        Some(Expected::GeneralizedTime),
    ),
];

// Whether elements are malformed there and so, or converted where that is none.
fn is_malformed(alloc: Global, text: &str, malformed: Option<Malformed>) -> ASN1Result<bool> {
    let bytes = bytes_of(alloc, text)?;
    match convert(alloc, &bytes) {
        Ok(_) => Ok(malformed.is_none()),
        Err(
            ConvertError::Malformed {
                offset,
                kind,
                expected,
            },
        ) => match malformed {
            Some((place, error, wanted)) => {
                Ok(offset == place && is_kind(kind, error) && expected == wanted)
            }
            None => Ok(false),
        },
        Err(ConvertError::Memory) => Ok(false),
    }
}

// Names, headers of elements one in the other, of indefinite length, how many there are, and where they are malformed, if they are.
static DEEP: [(&str, &str, usize, Option<Malformed>); 3] = [
    ("101 SEQUENCEs are taken", "3080", 101, None),
    (
        "102 SEQUENCEs are rejected",
        "3080",
        102,
        Some((202, StackOverflow, None)),
    ),
    (
        "102 strings are rejected",
        "2480",
        102,
        Some((202, StackOverflow, Some(Expected::OctetString))),
    ),
];

fn is_deep(
    alloc: Global,
    header: &'static str,
    depth: usize,
    malformed: Option<Malformed>,
) -> ASN1Result<bool> {
    let text = spelled(alloc, ["", header, "", "0000"], depth)?;
    is_malformed(alloc, &text, malformed)
}

// What is written, the first ambiguities, and where malformed elements are rejected.
#[test]
fn elements_in_ber_become_der_or_are_rejected(rt: HostRuntime) {
    for row in &CONVERTED {
        holds(&rt, row.0, is_row(rt.alloc(), row.0, row.1, row.2));
    }
    for row in &MALFORMED {
        let malformed = Some((row.1, row.2, row.3));
        holds(&rt, row.0, is_malformed(rt.alloc(), row.0, malformed));
    }
    for row in &DEEP {
        holds(&rt, row.0, is_deep(rt.alloc(), row.1, row.2, row.3));
    }
}

// As above, of contents that aren't copied as they are.
#[test]
fn contents_in_ber_become_der_or_are_rejected(rt: HostRuntime) {
    for row in &CONTENTS {
        holds(&rt, row.0, is_row(rt.alloc(), row.0, row.1, row.2));
    }
    for row in &MALFORMED_CONTENTS {
        let malformed = Some((row.1, row.2, row.3));
        holds(&rt, row.0, is_malformed(rt.alloc(), row.0, malformed));
    }
}
