//! Hexadecimal digits as numbers of C and in dumps. The dumps are those that `xxd`, `xxd -i` and `hexdump -C` write.

use crate::checks::finds_none;
use crate::lines::Expectation::{Head, Listed, Malformed};
use crate::lines::{Row, first_other};
use asn1show_lines::InputFormat::Hex;
use yasna::BERMode::Ber;

// The octets have two spaces and bars among their characters.
const LINES: &str = "input: hexadecimal, 27 bytes
      0  2+25       SEQUENCE
      2  2+1          INTEGER 5
      5  2+17         OCTET STRING '41427C4344202065..'H
     24  2+1          BOOLEAN TRUE
rules: BER, DER
";

const NUMBERS: &str = "  0x30, 0x19, 0x02, 0x01, 0x05, 0x04, 0x11, 0x41, 0x42, 0x7c, 0x43, 0x44,
  0x20, 0x20, 0x65, 0x66, 0x30, 0x31, 0x32, 0x20, 0x7c, 0x20, 0x20, 0x7c,
  0x01, 0x01, 0xff
";

const XXD: &str = "00000000: 3019 0201 0504 1141 427c 4344 2020 6566  0......AB|CD  ef
00000010: 3031 3220 7c20 207c 0101 ff              012 |  |...
";

const XXD_BY_FIVE: &str = "00000000: 30 19 02 01 05  0....
00000005: 04 11 41 42 7C  ..AB|
0000000a: 43 44 20 20 65  CD  e
0000000f: 66 30 31 32 20  f012\x20
00000014: 7C 20 20 7C 01  |  |.
00000019: 01 FF           ..
";

const HEXDUMP: &str =
    "00000000  30 19 02 01 05 04 11 41  42 7c 43 44 20 20 65 66  |0......AB|CD  ef|
00000010  30 31 32 20 7c 20 20 7c  01 01 ff                 |012 |  |...|
0000001b
";

static LAYOUTS: [Row; 9] = [
    (NUMBERS, None, Ber, Listed(LINES, "")),
    (XXD, None, Ber, Listed(LINES, "")),
    (XXD_BY_FIVE, None, Ber, Listed(LINES, "")),
    (HEXDUMP, None, Ber, Listed(LINES, "")),
    ("0X05 0x00,", None, Ber, Head("input: hexadecimal, 2 bytes")),
    (
        "\u{FEFF}\r\n  00000000: 0500  ..\r\n\r\n",
        None,
        Ber,
        Head("input: hexadecimal, 2 bytes"),
    ),
    // An offset has eight digits.
    ("0000: 0500", None, Ber, Head("input: hexadecimal, 4 bytes")),
    // Another letter than x.
    ("0x05 zz", None, Ber, Head("input: 7 bytes")),
    ("00000000: 0500  \x01.", None, Ber, Head("input: 18 bytes")),
];

#[test]
fn numbers_and_dumps_are_read(rt: HostRuntime) {
    finds_none(&rt, first_other(rt.alloc(), &LAYOUTS));
}

static MALFORMED: [Row; 8] = [
    // A number of one digit, one of four, and one without `0x`.
    (
        "0x05, 0x0",
        Some(Hex),
        Ber,
        Malformed("offset 6: Invalid: expected a hexadecimal digit"),
    ),
    (
        "0x0500",
        Some(Hex),
        Ber,
        Malformed("offset 0: Invalid: expected a hexadecimal digit"),
    ),
    (
        "0x05, 00",
        Some(Hex),
        Ber,
        Malformed("offset 6: Invalid: expected a hexadecimal digit"),
    ),
    // A line without an offset, a line in place of equal ones, a wrong digit, and half an octet.
    (
        "00000000: 0500  ..\n0500\n",
        None,
        Ber,
        Malformed("offset 19: Invalid: expected a hexadecimal digit"),
    ),
    (
        "00000000  05 00  |..|\n*\n00000020\n",
        None,
        Ber,
        Malformed("offset 22: Invalid: expected a hexadecimal digit"),
    ),
    (
        "00000000: 050G  ..",
        None,
        Ber,
        Malformed("offset 13: Invalid: expected a hexadecimal digit"),
    ),
    (
        "\u{FEFF}00000000: 05G0  ..",
        None,
        Ber,
        Malformed("offset 15: Invalid: expected a hexadecimal digit"),
    ),
    (
        "00000000  05 0   |..|",
        None,
        Ber,
        Malformed("offset 21: Invalid: expected one more hexadecimal digit"),
    ),
];

#[test]
fn malformed_numbers_and_dumps_are_rejected_at_their_offset(rt: HostRuntime) {
    finds_none(&rt, first_other(rt.alloc(), &MALFORMED));
}
