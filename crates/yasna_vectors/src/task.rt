//! What the arguments ask for.
//!
//! | Arguments | What is done with the lines of standard input |
//! |---|---|
//! | none | they are checked, then cut, then their lengths are changed |
//! | `lines`, `cut`, `length` | one of these alone |
//! | `answer` | lines with no answer are returned |
//! | `memory` | they are run where a request for memory is refused |

use crate::hostile::{Group, check_group};
use crate::memory::run_lines;
use crate::names::named;
use crate::run::{Verdict, append_outcomes, check_lines};
use crate::text::Text;

/// A task of the program.
#[derive(Clone, Copy)]
pub enum Task {
    All,
    Lines,
    Outcomes,
    Group(Group),
    Memory,
}

// The tasks by their names, which take no more words.
static TASKS: [(&str, Task); 5] = [
    ("lines", Task::Lines),
    ("answer", Task::Outcomes),
    ("cut", Task::Group(Group::Cut)),
    ("length", Task::Group(Group::Length)),
    ("memory", Task::Memory),
];

impl Task {
    /// The task that these words name, of which the first is the program's name.
    pub fn parse(words: &[String]) -> Option<Task> {
        match words {
            [] | [_] => Some(Task::All),
            [_, word] => named(&TASKS, word.as_str()),
            _ => None,
        }
    }

    /// Does it on these lines, and appends what came of it.
    pub fn run(self, input: &str, text: &mut Text) -> Verdict {
        match self {
            Task::All => run_all(input, text),
            Task::Lines => check_lines(input, text),
            Task::Outcomes => append_outcomes(input, text),
            Task::Group(group) => check_group(group, input, text),
            Task::Memory => run_lines(input, text),
        }
    }
}

// Checks the lines as they are, cut, and with other lengths: it is wrong where one of them is.
fn run_all(input: &str, text: &mut Text) -> Verdict {
    let lines = check_lines(input, text);
    if let Verdict::NoLine = lines {
        return lines;
    }
    let cuts = check_group(Group::Cut, input, text);
    let lengths = check_group(Group::Length, input, text);
    match (lines, cuts, lengths) {
        (Verdict::Right, Verdict::Right, Verdict::Right) => Verdict::Right,
        _ => Verdict::Wrong,
    }
}
