//! What is listed of elements whose types are those of a module, and what is rejected of them.

use crate::schemas::schema_in;
use asn1_types::model::KnownType;
use asn1show_lines::{Extent, InputFormat, Layout, Numbers, Output, Selection, View, show};
use asn1show_names::Names;
use asn1show_schema::Schema;
use module_check::check;
use std::alloc::Global;
use std::process::Abort;
use yasna_base::mode::BERMode;

/// A source, the name of a type in it, an input in hexadecimal, and what is listed of it after the first line.
type Row = (&'static [u8], &'static str, &'static str, &'static str);

const PARTS: &[u8] = b"M DEFINITIONS AUTOMATIC TAGS ::= BEGIN
A ::= SEQUENCE { version INTEGER { v1(0), v2(1) } DEFAULT v1, name UTF8String (SIZE (1..4)), rows SEQUENCE (SIZE (1..2)) OF B,
    colour Colour DEFAULT red, kept BOOLEAN DEFAULT FALSE }
B ::= SEQUENCE { number INTEGER (0..9), flags BIT STRING { first(0), second(1), tenth(9) } OPTIONAL }
Colour ::= ENUMERATED { red(0), blue(1) }
S ::= SET { a INTEGER, b BOOLEAN OPTIONAL }
END";

const OBJECTS: &[u8] = b"M DEFINITIONS ::= BEGIN
Box ::= SEQUENCE { id OBJECT IDENTIFIER, value ANY DEFINED BY id }
Ext ::= SEQUENCE { id OBJECT IDENTIFIER, critical BOOLEAN DEFAULT FALSE, value OCTET STRING }
id-keyUse OBJECT IDENTIFIER ::= { 2 5 29 15 }
KeyUse ::= BIT STRING { digitalSignature(0), keyCertSign(5) }
id-limit OBJECT IDENTIFIER ::= { 2 5 29 16 }
LimitSyntax ::= SEQUENCE { most INTEGER }
id-named OBJECT IDENTIFIER ::= { 2 5 29 17 }
named BOX ::= { SYNTAX Other IDENTIFIED BY id-named }
Other ::= ENUMERATED { on(1) }
END";

static ROWS: [Row; 9] = [
    (
        PARTS,
        "A",
        "300D 810161 A208 3006 800105 810100",
        "      0  2+13       SEQUENCE -- by default: version v1 -- by default: colour red -- by default: kept FALSE
      2  2+1          name [1] \"a\"
      5  2+8          rows [2]
      7  2+6            SEQUENCE
      9  2+1              number [0] 5
     12  2+1              flags [1] ''H
rules: BER, DER
",
    ),
    (
        PARTS,
        "A",
        "3016 800100 81056162636465 A20A 3003 80010A 3003 800100",
        "      0  2+22       SEQUENCE -- by default: colour red -- by default: kept FALSE
      2  2+1          version [0] 0 (v1) -- not DER: the value is the default
      5  2+5          name [1] \"abcde\" -- not in the module: another size
     12  2+10         rows [2]
     14  2+3            SEQUENCE
     16  2+1              number [0] 10 -- not in the module: a number out of its bounds
     19  2+3            SEQUENCE
     21  2+1              number [0] 0
rules: BER
",
    ),
    (
        PARTS,
        "A",
        "3010 800101 810161 A202 3000 830102 840100",
        "      0  2+16       SEQUENCE
      2  2+1          version [0] 1 (v2)
      5  2+1          name [1] \"a\"
      8  2+2          rows [2]
     10  2+0            SEQUENCE -- missing: number -- not in the module: a part is missing
     12  2+1          colour [3] 2 -- not in the module: a number of no item
     15  2+1          kept [4] FALSE -- not DER: the value is the default
rules: BER
",
    ),
    (
        PARTS,
        "B",
        "3008 800101 8103 068040",
        "      0  2+8        SEQUENCE
      2  2+1          number [0] 1
      5  2+3          flags [1] '8040'H less 6 bits (first, tenth)
rules: BER, DER
",
    ),
    (
        PARTS,
        "B",
        "3007 800101 8102 0780",
        "      0  2+7        SEQUENCE
      2  2+1          number [0] 1
      5  2+2          flags [1] '80'H less 7 bits (first)
rules: BER, DER
",
    ),
    (
        PARTS,
        "S",
        "3106 800101 800102",
        "      0  2+6        SET -- not in the module: a part is there twice
      2  2+1          a [0] 1
      5  2+1          a [0] 2
rules: BER, DER
",
    ),
    (
        OBJECTS,
        "Ext",
        "300B 0603551D0F 0404 03020284",
        "      0  2+11       SEQUENCE -- by default: critical FALSE
      2  2+3          id OBJECT IDENTIFIER 2.5.29.15 keyUsage
      7  2+4          value OCTET STRING '03020284'H
      9  2+2      >     BIT STRING '84'H less 2 bits (digitalSignature, keyCertSign)
rules: BER, DER
",
    ),
    (
        OBJECTS,
        "Box",
        "300A 0603551D10 3003 020105",
        "      0  2+10       SEQUENCE
      2  2+3          id OBJECT IDENTIFIER 2.5.29.16 privateKeyUsagePeriod
      7  2+3          value SEQUENCE
      9  2+1            most INTEGER 5
rules: BER, DER
",
    ),
    (
        OBJECTS,
        "Box",
        "3008 0603551D11 0A0101",
        "      0  2+8        SEQUENCE
      2  2+3          id OBJECT IDENTIFIER 2.5.29.17 subjectAltName
      7  2+1          value ENUMERATED 1 (on)
rules: BER, DER
",
    ),
];

fn view(schema: &Schema) -> View<'_> {
    View {
        name: "input",
        selection: Selection::Elements(Extent {
            at: None,
            depth: 255,
        }),
        layout: Layout::Lines,
        numbers: Numbers::Hexadecimal,
        width: 16,
        has_dump: false,
        schema: Some(schema),
    }
}

// Whether these lines are listed after the first one.
fn lists(alloc: Global, schema: &Schema, input: &str, lines: &str) -> bool {
    let mut output = Output::new(Vec::new(alloc));
    let format = Some(InputFormat::Hex);
    let shown = show(
        alloc,
        &mut output,
        BERMode::Ber,
        format,
        view(schema),
        input.as_bytes(),
    );
    let text = std::str::from_utf8(output.writer().as_slice()).unwrap_or("");
    match text.split_once('\n') {
        Some((_, rest)) => shown.is_ok() && rest == lines,
        None => false,
    }
}

// The input of the first row of which something else is listed.
fn first_listed_otherwise(
    alloc: Global,
    rows: &'static [Row],
    known: &'static [KnownType<'static>],
) -> Option<&'static str> {
    for (source, type_name, input, lines) in rows {
        let is_listed = match schema_in(alloc, source, known, type_name) {
            Some(schema) => lists(alloc, &schema, input, lines),
            None => false,
        };
        if !is_listed {
            return Some(*input);
        }
    }
    None
}

#[test]
fn elements_are_listed_as_their_module_names_them(rt: HostRuntime) {
    assert!(rt; first_listed_otherwise(rt.alloc(), &ROWS, &[]).is_none());
}

/// A type, encoding rules, bytes, and why they are rejected, or nothing.
type Check = (&'static str, BERMode, &'static [u8], &'static str);

static CHECKS: [Check; 9] = [
    ("B", BERMode::Der, b"\x30\x03\x80\x01\x09", ""),
    (
        "B",
        BERMode::Der,
        b"\x30\x03\x80\x01\x0a",
        "offset 2, number: not in the module: a number out of its bounds",
    ),
    (
        "B",
        BERMode::Der,
        b"\x30\x03\x02\x01\x05",
        "offset 2, number: not in the module: INTEGER",
    ),
    (
        "A",
        BERMode::Der,
        b"\x30\x0c\x81\x01a\xa2\x07\x30\x05\x80\x01\x05\x81\x00",
        "offset 12, rows[0].flags: not BER: no count of unused bits that fits",
    ),
    (
        "A",
        BERMode::Der,
        b"\x30\x0f\x81\x01a\xa2\x0a\x30\x03\x80\x01\x05\x30\x03\x82\x01\x05",
        "offset 14, rows[1].number: not in the module: [2]",
    ),
    (
        "A",
        BERMode::Der,
        b"\x30\x0d\x80\x01\x00\x81\x01a\xa2\x05\x30\x03\x80\x01\x05",
        "offset 2, version: not DER: the value is the default",
    ),
    (
        "A",
        BERMode::Ber,
        b"\x30\x0d\x80\x01\x00\x81\x01a\xa2\x05\x30\x03\x80\x01\x05",
        "",
    ),
    ("B", BERMode::Cer, b"\x30\x80\x80\x01\x01\x00\x00", ""),
    (
        "S",
        BERMode::Der,
        b"\x31\x03\x81\x01\xff",
        "offset 0: not in the module: a part is missing",
    ),
];

// Whether bytes are rejected so.
fn is_checked(alloc: Global, schema: &Schema, row: &Check) -> bool {
    let (_, mode, bytes, why) = *row;
    let Ok(names) = Names::new(alloc) else {
        return false;
    };
    match check(alloc, &names, schema, mode, 0, bytes) {
        Ok(Some(rejection)) => match format!(in alloc; "{rejection}") {
            Ok(text) => text.as_str() == why,
            Err(_) => false,
        },
        Ok(None) => why.is_empty(),
        Err(_) => false,
    }
}

// The number of the first row that is rejected otherwise.
fn first_checked_otherwise(
    alloc: Global,
    rows: &'static [Check],
    known: &'static [KnownType<'static>],
) -> Option<usize> {
    for (number, row) in rows.iter().enumerate() {
        let is_so = match schema_in(alloc, PARTS, known, row.0) {
            Some(schema) => is_checked(alloc, &schema, row),
            None => false,
        };
        if !is_so {
            return Some(number);
        }
    }
    None
}

#[test]
fn values_are_checked_by_their_module(rt: HostRuntime) {
    assert!(rt; first_checked_otherwise(rt.alloc(), &CHECKS, &[]).is_none());
}
