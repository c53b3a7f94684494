//! Input that is cut, or whose length is changed: the vectors once more, each of 300 bytes at most that a line reads and
//! accepts.
//!
//! | Group | Bytes | Answer |
//! |---|---|---|
//! | cut | each proper front | Eof |
//! | length | the first byte of the outermost element's length is 255 (X.690, 8.1.3.5) | Invalid |
//! | | it is 254, for a length of 126 bytes | Eof |
//! | | it is 128, in DER (X.690, 10.1), and in CER of a primitive element (X.690, 9.1) | Invalid |
//! | | it is 0 in place of 128, in CER (X.690, 9.1) | Invalid |
//!
//! Some prefixes answer otherwise: those of a SET of indefinite length that end after its header or after an element. Its
//! callback runs before its end is missed; where it rejects these elements, that is the result.

use crate::line::{Case, VectorLine};
use crate::outcome::outcome;
use crate::run::Verdict;
use crate::text::Text;

/// What becomes of a vector.
#[derive(Clone, Copy)]
pub enum Group {
    /// It is cut at each place.
    Cut,
    /// Its length is changed.
    Length,
}

// How many inputs were tried, and how many failed.
#[derive(Clone, Copy)]
struct Tally {
    tried: u64,
    failed: u64,
}

/// Checks a group of all lines, and says how many inputs there were.
pub fn check_group(group: Group, input: &str, text: &mut Text) -> Verdict {
    let mut tally = Tally {
        tried: 0,
        failed: 0,
    };
    for line in input.lines() {
        if let Some(case) = accepted(line) {
            match case.bytes(text) {
                Some(bytes) if bytes.len() <= 300 => {
                    check_bytes(group, case, &bytes, &mut tally, text);
                }
                _ => (),
            }
        }
    }
    text.push_value(&tally.tried);
    text.push(match group {
        Group::Cut => " cuts, ",
        Group::Length => " changed lengths, ",
    });
    text.push_value(&tally.failed);
    text.push(" failed\n");
    Verdict::of(tally.failed)
}

// The case of a line that reads a byte or more and accepts them.
fn accepted(line: &str) -> Option<Case<'_>> {
    let Some(line) = VectorLine::parse(line) else {
        return None;
    };
    let case = line.case;
    if case.takes_bytes()
        && case.arg != "-"
        && case.arg.len() <= 600
        && line.expected.starts_with("ok ")
    {
        Some(case)
    } else {
        None
    }
}

// Checks a case with these bytes cut, or with another length.
fn check_bytes(group: Group, case: Case, bytes: &[u8], tally: &mut Tally, text: &mut Text) {
    let mut digits = Text::with_room(text.allocator());
    digits.push_bytes(bytes);
    text.out_of_memory = text.out_of_memory || digits.out_of_memory;
    match group {
        Group::Cut => check_prefixes(case, &digits.text, tally, text),
        Group::Length => {
            let place = identifier_length(bytes).saturating_mul(2);
            let (identifier, length) = digits.text.split_at_checked(place).unwrap_or(("", ""));
            check_lengths(case, identifier, length, tally, text);
        }
    }
}

// Checks each proper prefix of a case's bytes.
fn check_prefixes(case: Case, digits: &str, tally: &mut Tally, text: &mut Text) {
    for end in (0..digits.len()).step_by(2) {
        let prefix = digits.get(..end).unwrap_or("");
        let expected = prefix_outcome(case, prefix, text);
        check(case, prefix, expected, tally, text);
    }
}

// What a prefix is to return.
fn prefix_outcome(case: Case, prefix: &str, text: &mut Text) -> &'static str {
    if !prefix.starts_with("3180") {
        return "err Eof";
    }
    let alloc = text.allocator();
    let mut ended = Text::with_room(alloc);
    ended.push(prefix);
    ended.push("0000");
    let whole = outcome(alloc, with(case, "der", &ended.text));
    let again = outcome(alloc, with(case, case.call, &ended.text));
    text.out_of_memory = text.out_of_memory
        || ended.out_of_memory
        || whole.out_of_memory
        || again.out_of_memory;
    if whole.text.starts_with("ok ") && again.text.starts_with("err Invalid") {
        "err Invalid"
    } else {
        "err Eof"
    }
}

// A change of the first byte of a length.
#[derive(Clone, Copy)]
struct Change {
    // the mode in which it is made; in each where there is none
    mode: Option<&'static str>,
    // what is there, where it matters
    from: &'static str,
    to: &'static str,
    expected: &'static str,
}

// These changes: none is made where the byte is there.
static CHANGES: [Change; 5] = [
    Change {
        mode: None,
        from: "",
        to: "ff",
        expected: "err Invalid",
    },
    Change {
        mode: None,
        from: "",
        to: "fe",
        expected: "err Eof",
    },
    Change {
        mode: Some("der"),
        from: "",
        to: "80",
        expected: "err Invalid",
    },
    Change {
        mode: Some("cer"),
        from: "",
        to: "80",
        expected: "err Invalid",
    },
    Change {
        mode: Some("cer"),
        from: "80",
        to: "00",
        expected: "err Invalid",
    },
];

// Checks a case's bytes with other first bytes of their length.
fn check_lengths(case: Case, identifier: &str, length: &str, tally: &mut Tally, text: &mut Text) {
    let mode = case.mode_name();
    for change in &CHANGES {
        let is_made = change.mode.unwrap_or(mode) == mode
            && length.starts_with(change.from)
            && !length.starts_with(change.to);
        if is_made {
            let mut changed = Text::with_room(text.allocator());
            changed.push(identifier);
            changed.push(change.to);
            changed.push(length.get(2..).unwrap_or(""));
            text.out_of_memory = text.out_of_memory || changed.out_of_memory;
            check(case, &changed.text, change.expected, tally, text);
        }
    }
}

// How many bytes the first identifier has (X.690, 8.1.2): one, and where its last five bits are set those from 128 on after it, and
// the one that follows these.
fn identifier_length(bytes: &[u8]) -> usize {
    let mut count = 1usize;
    if let [31 | 63 | 95 | 127 | 159 | 191 | 223 | 255, number @ ..] = bytes {
        count = 2;
        for byte in number {
            if *byte < 128 {
                break;
            }
            count = count.saturating_add(1);
        }
    }
    count
}

// A case like this one, of another call and on other bytes.
fn with<'a>(case: Case, call: &'a str, bytes: &'a str) -> Case<'a> {
    Case {
        mode: case.mode,
        call,
        second: None,
        arg: if bytes.is_empty() { "-" } else { bytes },
        marked: false,
    }
}

// Checks what a case's call returns on other bytes.
fn check(case: Case, bytes: &str, expected: &str, tally: &mut Tally, text: &mut Text) {
    tally.tried = tally.tried.saturating_add(1);
    let changed = with(case, case.call, bytes);
    let came = outcome(text.allocator(), changed);
    if came.text.as_str() == expected {
        return;
    }
    tally.failed = tally.failed.saturating_add(1);
    changed.show(text);
    text.push(" => ");
    text.push(expected);
    text.push("\n    came ");
    text.push_text(&came);
    text.push("\n");
}
