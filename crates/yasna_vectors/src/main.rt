//! Lines of calls and answers, run through the public calls of `yasna`.
//!
//! A line is `MODE CALL ARG => ANSWER`. MODE is `ber`, `der` or `cer` where bytes are read, `x` elsewhere. ARG is the bytes in
//! hexadecimal, `-` for none, unless the call says otherwise; `3080*200+00` is 200 times the bytes 3080, and a byte 00 after.
//! ANSWER is `ok VALUE HEX`, where HEX is what the matching writes make of the value in DER, or `err KIND`. After a rejected
//! read may be ` consumed` or ` unconsumed`: then the call is made twice in a SEQUENCE around ARG, in CER in none, and says
//! whether the error is sticky. ANSWER may say how often a text is in it too: `ok h+5b*3+ 0403+5b*3` is `ok h5b5b5b 04035b5b5b`.
//! Lines that begin with `#` and blank lines are passed over.
//!
//! With no argument the program reads such lines from standard input, and says how many ran and how many failed; each
//! that failed is printed with what came. Then it says the same of the lines' bytes, cut and with other lengths. With the
//! argument `answer` it reads lines with no answer, and prints one each, `unknown` where it has no such call. `task` lists
//! the other arguments.
//!
//! | Status | When |
//! |---|---|
//! | 0 | no line failed |
//! | 1 | a line failed |
//! | 2 | a line is none, or names no call, or a usage error |
//! | 3 | a read or a write failed |
//! | 4 | out of memory for the program itself |
//!
//! | Module | Holds |
//! |---|---|
//! | `line`, `names` | what a line says |
//! | `task` | what the arguments ask for |
//! | `run` | all lines, one after the other |
//! | `hostile` | their bytes, cut and with other lengths |
//! | `memory` | lines of which a request for memory fails |
//! | `text` | results as text |
//! | `outcome` | which family a call belongs to |
//! | `calls` | the calls that read, by their names |
//! | `reads` | what such a call reads |
//! | `reading` | how such a call is made |
//! | `kind`, `steps` | what an element is read as that is one value, and what is read in a SEQUENCE and in a SET |
//! | `leaf`, `parts` | what was read: values, and elements made of them |
//! | `strings`, `nest` | classes of text, SEQUENCEs one in the other |
//! | `tree` | elements of many types, as deep as they are |
//! | `many` | octet strings and lists of any length |
//! | `sticky_errors` | errors that callbacks discard, call in call |
//! | `whole` | types that are read and written as a whole |
//! | `writing`, `length` | calls that write |
//! | `rejecting_closures` | writes whose closures reject, call in call |
//! | `oid`, `times` | object identifiers and times from texts |
//! | `tag`, `rejection`, `mode` | tags, the texts of errors, the mode that a callback sees |
//! | `encodings` | parses and writes by the mode |
#![tactic(auto)]

mod calls;
mod encodings;
mod hostile;
mod kind;
mod leaf;
mod length;
mod line;
mod many;
mod memory;
mod mode;
mod names;
mod nest;
mod oid;
mod outcome;
mod parts;
mod reading;
mod reads;
mod rejecting_closures;
mod rejection;
mod run;
mod steps;
mod sticky_errors;
mod strings;
mod tag;
mod task;
mod text;
mod times;
mod tree;
mod whole;
mod writing;

use run::Verdict;
use std::alloc::{AllocError, Global};
use std::process::ExitCode;
use std::{env, io};
use task::Task;
use text::Text;

const USAGE: &str = "usage: yasna_vectors [lines|answer|cut|length|memory]";

fn main(rt: HostRuntime) -> ExitCode {
    match verdict(&rt) {
        Ok(Verdict::Right) => ExitCode::SUCCESS,
        Ok(Verdict::Wrong) => ExitCode::from(1),
        Ok(Verdict::NoLine) => ExitCode::from(2),
        Err(error) => {
            let _ = eprintln!(rt; "{error}");
            match error.kind() {
                io::ErrorKind::OutOfMemory => ExitCode::from(4),
                _ => ExitCode::from(3),
            }
        }
    }
}

// Runs what the arguments ask for.
fn verdict(rt: &HostRuntime) -> io::Result<Verdict> {
    let alloc = rt.alloc();
    match asked(rt, alloc)? {
        Some(task) => perform(rt, alloc, task),
        None => {
            eprintln!(rt; "{USAGE}")?;
            Ok(Verdict::NoLine)
        }
    }
}

// What the arguments ask for, if they ask for anything that there is.
fn asked(rt: &HostRuntime, alloc: Global) -> io::Result<Option<Task>> {
    let words = env::args(rt)?.collect::<Vec<String>>(alloc)?;
    Ok(Task::parse(words.as_slice()))
}

// Does a task on standard input, and prints what came of it.
fn perform(rt: &HostRuntime, alloc: Global, task: Task) -> io::Result<Verdict> {
    let input = io::read_to_string(alloc, rt.reader())?;
    let mut text = Text::new(alloc);
    let verdict = task.run(input.as_str(), &mut text);
    if text.out_of_memory {
        return Err(AllocError.into());
    }
    rt.print(&text.text)?;
    Ok(verdict)
}
