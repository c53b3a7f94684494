//! The program over memory: statuses and texts for rows of bytes and for arguments.

mod ends;

use crate::checks::{bytes_of, holds};
use std::alloc::Global;
use yasna::ASN1Result;
use yasna_tool_run::ends::Counted;
use yasna_tool_run::tool::tool;

const EOF: &str = "ASN1Error { kind: Eof }\n";

const EXTRA: &str = "ASN1Error { kind: Extra }\n";

const INVALID: &str = "ASN1Error { kind: Invalid }\n";

const USAGE: &str = "usage: yasna_tool ber|der|cer KIND\n";

// The words and the input, the status, the output, and what is written of an error.
static RUNS: [(&str, u8, &str, &str); 80] = [
    // pairs
    ("ber pair < ", 1, "", EOF),
    ("der pair < ", 1, "", EOF),
    ("cer pair < ", 1, "", EOF),
    ("ber pair < 300602010A0101FF00", 1, "", EXTRA),
    ("der pair < 300602010A0101FF00", 1, "", EXTRA),
    ("cer pair < 300602010A0101FF00", 1, "", INVALID),
    ("ber pair < 300702010A0101FF00", 1, "", EXTRA),
    ("der pair < 300702010A0101FF00", 1, "", EXTRA),
    ("cer pair < 300702010A0101FF00", 1, "", INVALID),
    ("ber pair < 300802010A0101FF", 1, "", EOF),
    ("der pair < 300802010A0101FF", 1, "", EOF),
    ("cer pair < 300802010A0101FF", 1, "", EOF),
    ("ber pair < 30810602010A010101", 0, "300602010A0101FF", ""),
    ("der pair < 30810602010A010101", 1, "", INVALID),
    ("cer pair < 30810602010A010101", 1, "", INVALID),
    ("ber pair < 308002010A0101FF", 1, "", EOF),
    ("der pair < 308002010A0101FF", 1, "", INVALID),
    ("cer pair < 308002010A0101FF", 1, "", EOF),
    ("ber pair < 30060101FF02010A", 1, "", INVALID),
    ("der pair < 30060101FF02010A", 1, "", INVALID),
    ("cer pair < 30060101FF02010A", 1, "", INVALID),
    (
        "ber pair < 300D02087FFFFFFFFFFFFFFF010100",
        0,
        "300D02087FFFFFFFFFFFFFFF010100",
        "",
    ),
    (
        "der pair < 300D02087FFFFFFFFFFFFFFF010100",
        0,
        "300D02087FFFFFFFFFFFFFFF010100",
        "",
    ),
    ("cer pair < 300D02087FFFFFFFFFFFFFFF010100", 1, "", INVALID),
    ("ber pair < 300602010A0101FF", 0, "300602010A0101FF", ""),
    ("der pair < 300602010A0101FF", 0, "300602010A0101FF", ""),
    ("cer pair < 300602010A0101FF", 1, "", INVALID),
    ("ber pair < 300602010A0101", 1, "", EOF),
    ("der pair < 300602010A0101", 1, "", EOF),
    ("cer pair < 300602010A0101", 1, "", EOF),
    ("ber pair < 308002010A0101FF0000", 0, "300602010A0101FF", ""),
    ("der pair < 308002010A0101FF0000", 1, "", INVALID),
    ("cer pair < 308002010A0101FF0000", 0, "300602010A0101FF", ""),
    // each kind reads its own encoding, and no ENUMERATED, and in CER its encoding where that has no parts, whose length would be counted
    ("ber pair < 0A0100", 1, "", INVALID),
    ("der int < 0202FF7F", 0, "0202FF7F", ""),
    ("ber int < 0A0100", 1, "", INVALID),
    ("cer int < 0202FF7F", 0, "0202FF7F", ""),
    ("der bool < 0101FF", 0, "0101FF", ""),
    ("ber bool < 0A0100", 1, "", INVALID),
    ("cer bool < 0101FF", 0, "0101FF", ""),
    ("der null < 0500", 0, "0500", ""),
    ("ber null < 0A0100", 1, "", INVALID),
    ("cer null < 0500", 0, "0500", ""),
    ("der octets < 040648656C6C6F21", 0, "040648656C6C6F21", ""),
    ("ber octets < 0A0100", 1, "", INVALID),
    ("cer octets < 040648656C6C6F21", 0, "040648656C6C6F21", ""),
    ("der text < 0C02C3A9", 0, "0C02C3A9", ""),
    ("ber text < 0A0100", 1, "", INVALID),
    ("cer text < 0C02C3A9", 0, "0C02C3A9", ""),
    ("der oid < 06042A818000", 0, "06042A818000", ""),
    ("ber oid < 0A0100", 1, "", INVALID),
    ("cer oid < 06042A818000", 0, "06042A818000", ""),
    (
        "der utime < 170D3832303130323132303030305A",
        0,
        "170D3832303130323132303030305A",
        "",
    ),
    ("ber utime < 0A0100", 1, "", INVALID),
    (
        "cer utime < 170D3832303130323132303030305A",
        0,
        "170D3832303130323132303030305A",
        "",
    ),
    (
        "der gtime < 181331393835313130363231303832392E3732345A",
        0,
        "181331393835313130363231303832392E3732345A",
        "",
    ),
    ("ber gtime < 0A0100", 1, "", INVALID),
    (
        "cer gtime < 181331393835313130363231303832392E3732345A",
        0,
        "181331393835313130363231303832392E3732345A",
        "",
    ),
    ("der ints < 300702010A0202FF7F", 0, "300702010A0202FF7F", ""),
    ("ber ints < 0A0100", 1, "", INVALID),
    ("cer ints < 300702010A0202FF7F", 1, "", INVALID),
    // strings in pieces, one cut inside a character, are read in BER alone
    (
        "ber octets < 24800402486504046C6C6F210000",
        0,
        "040648656C6C6F21",
        "",
    ),
    ("der octets < 24800402486504046C6C6F210000", 1, "", INVALID),
    ("cer octets < 24800402486504046C6C6F210000", 1, "", INVALID),
    ("ber text < 2C060401C30401A9", 0, "0C02C3A9", ""),
    ("der text < 2C060401C30401A9", 1, "", INVALID),
    // and so are these texts, the second of them in pieces
    (
        "ber utime < 170F383230313032303730302D30353030",
        0,
        "170D3832303130323132303030305A",
        "",
    ),
    (
        "der utime < 170F383230313032303730302D30353030",
        1,
        "",
        INVALID,
    ),
    (
        "cer utime < 170F383230313032303730302D30353030",
        1,
        "",
        INVALID,
    ),
    (
        "ber gtime < 388004083139383531313036040932312E31343135395A0000",
        0,
        "181331393835313130363231303832392E3732345A",
        "",
    ),
    (
        "der gtime < 388004083139383531313036040932312E31343135395A0000",
        1,
        "",
        INVALID,
    ),
    // a list of indefinite length isn't read in DER
    (
        "ber ints < 308002010A0202FF7F0000",
        0,
        "300702010A0202FF7F",
        "",
    ),
    (
        "cer ints < 308002010A0202FF7F0000",
        0,
        "300702010A0202FF7F",
        "",
    ),
    ("der ints < 308002010A0202FF7F0000", 1, "", INVALID),
    // other words
    ("xer pair < 300602010A0101FF", 2, "", USAGE),
    ("xer ints < 300602010A0101FF", 2, "", USAGE),
    ("ber lists < 300602010A0101FF", 2, "", USAGE),
    ("ber < 300602010A0101FF", 2, "", USAGE),
    (" < 300602010A0101FF", 2, "", USAGE),
    ("ber pair pair < 300602010A0101FF", 2, "", USAGE),
];

/// These words, as the program takes them.
fn strings(alloc: Global, words: &str) -> ASN1Result<Vec<String>> {
    let mut all = Vec::new(alloc);
    for word in words.split_whitespace() {
        all.push(String::from_str(alloc, word)?)?;
    }
    Ok(all)
}

// Whether the program returns so. Where the words are others, nothing is read.
fn is_run(alloc: Global, run: &str, status: u8, output: &str, errors: &str) -> ASN1Result<bool> {
    let Some((words, input)) = run.split_once(" < ") else {
        return Ok(false);
    };
    let words = strings(alloc, words)?;
    let input = bytes_of(alloc, input)?;
    let mut reader = Counted::new(input.as_slice());
    let mut writer = Counted::new(Vec::new(alloc));
    let mut said = Vec::new(alloc);
    let found = tool(alloc, &words, &mut reader, &mut writer, &mut said);
    let is_read = status != 2 || reader.into_end().len() == input.len();
    let output = bytes_of(alloc, output)?;
    Ok(
        found == status
            && is_read
            && writer.into_end().as_slice() == output.as_slice()
            && said.as_slice() == errors.as_bytes(),
    )
}

#[test]
fn encodings_are_written_or_rejected(rt: HostRuntime) {
    for row in &RUNS {
        holds(&rt, row.0, is_run(rt.alloc(), row.0, row.1, row.2, row.3));
    }
}
