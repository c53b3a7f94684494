//! All lines of a text, one after the other.

use crate::line::{Case, VectorLine, is_outcome};
use crate::outcome::outcome;
use crate::text::Text;

/// How a run ended.
#[derive(Clone, Copy)]
pub enum Verdict {
    /// No line failed.
    Right,
    /// A line failed.
    Wrong,
    /// A line is none, or names no call.
    NoLine,
}

impl Verdict {
    /// How a run ended of which so many lines failed.
    pub fn of(failed: u64) -> Verdict {
        if failed == 0 {
            Verdict::Right
        } else {
            Verdict::Wrong
        }
    }
}

/// Appends a result for each line that has none.
pub fn append_outcomes(input: &str, text: &mut Text) -> Verdict {
    for line in input.lines() {
        match Case::parse(line, false) {
            Some(case) => text.push_text(&outcome(text.allocator(), case)),
            None => text.push("unknown"),
        }
        text.push("\n");
    }
    Verdict::Right
}

/// Checks the result of each line, and says how many there were.
pub fn check_lines(input: &str, text: &mut Text) -> Verdict {
    let mut count = 0u64;
    let mut failed = 0u64;
    for line in input.lines() {
        if line.is_empty() || line.starts_with('#') {
            continue;
        }
        match check_line(line, text) {
            Verdict::Right => (),
            Verdict::Wrong => failed = failed.saturating_add(1),
            Verdict::NoLine => return Verdict::NoLine,
        }
        count = count.saturating_add(1);
    }
    text.push_value(&count);
    text.push(" lines, ");
    text.push_value(&failed);
    text.push(" failed\n");
    Verdict::of(failed)
}

// Checks a line, and appends it where it isn't right.
fn check_line(line: &str, text: &mut Text) -> Verdict {
    let Some(parsed) = VectorLine::parse(line) else {
        return no_line("no line", line, text);
    };
    let came = outcome(text.allocator(), parsed.case);
    if came.is_unknown {
        return no_line("no such call or argument", line, text);
    }
    if is_outcome(&came.text, parsed.expected) && !came.out_of_memory {
        return Verdict::Right;
    }
    text.push(line);
    text.push("\n    came ");
    text.push_text(&came);
    text.push("\n");
    Verdict::Wrong
}

// Says why a line is none.
fn no_line(why: &str, line: &str, text: &mut Text) -> Verdict {
    text.push(why);
    text.push(": ");
    text.push(line);
    text.push("\n");
    Verdict::NoLine
}
