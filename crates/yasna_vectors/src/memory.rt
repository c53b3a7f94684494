//! Lines in whose calls a request for memory is refused.
//!
//! `ci/refused_memory.sh` refuses one request of a run. The line whose request it is returns `OutOfMemory`, or nothing where
//! the harness found none for an argument or a text, or what it says where it does without; each other line returns what it
//! says.

use crate::line::{Case, VectorLine, is_outcome};
use crate::outcome::outcome;
use crate::run::Verdict;
use crate::text::Text;

// What the lines returned.
#[derive(Clone, Copy)]
struct Tally {
    lines: u64,
    // lines that `yasna` rejected when out of memory
    rejected: u64,
    // lines with no result, as there was no memory for their argument or their text
    silent: u64,
    failed: u64,
    // the last line that ran out of memory
    place: u64,
}

/// Runs the lines, and counts those that ran out of memory.
pub fn run_lines(lines: &str, text: &mut Text) -> Verdict {
    let mut tally = Tally {
        lines: 0,
        rejected: 0,
        silent: 0,
        failed: 0,
        place: 0,
    };
    for line in lines.lines() {
        if let Some(line) = VectorLine::parse(line) {
            tally = run_line(line, tally, text);
        }
    }
    let counts = [
        (tally.lines, " lines, "),
        (tally.rejected, " refused, "),
        (tally.silent, " silent, "),
        (tally.failed, " failed, place "),
        (tally.place, "\n"),
    ];
    for (count, after) in &counts {
        text.push_value(count);
        text.push(after);
    }
    Verdict::of(tally.failed)
}

// The tally after a line too. Whether an error consumed something isn't asked, as that takes further calls.
fn run_line(line: VectorLine, tally: Tally, text: &mut Text) -> Tally {
    let case = Case {
        second: None,
        marked: false,
        ..line.case
    };
    let came = outcome(text.allocator(), case);
    let lines = tally.lines.saturating_add(1);
    let tally = Tally { lines, ..tally };
    if came.out_of_memory {
        return Tally {
            silent: tally.silent.saturating_add(1),
            place: lines,
            ..tally
        };
    }
    if !came.is_unknown && is_outcome(&came.text, unmarked(line.expected)) {
        return tally;
    }
    if came.text.starts_with("err OutOfMemory") {
        return Tally {
            rejected: tally.rejected.saturating_add(1),
            place: lines,
            ..tally
        };
    }
    case.show(text);
    text.push("\n    came ");
    text.push_text(&came);
    text.push("\n");
    Tally {
        failed: tally.failed.saturating_add(1),
        ..tally
    }
}

// A result without what it says of consumed bytes.
fn unmarked(outcome: &str) -> &str {
    match outcome.strip_suffix(" consumed") {
        Some(unmarked) => unmarked,
        None => outcome.strip_suffix(" unconsumed").unwrap_or(outcome),
    }
}
