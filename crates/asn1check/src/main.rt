//! `asn1check KIND [FILE ..]` checks that each file is messages of a type, one after the other.
//!
//! With `--module` and `--type` it checks that each file is values of a type of a module.
//!
//! With `--encode` it writes each message in DER. What was read in DER is then written as it was, since a value has one encoding there.
//!
//! | Status | When |
//! |---|---|
//! | 0 | each file is such messages |
//! | 1 | one isn't; the errors are on standard error |
//! | 2 | usage error |
//! | 3 | I/O error, or out of memory |
//!
//! | Module | Holds |
//! |---|---|
//! | `message_type` | the types of messages, and how each is checked and encoded |
//! | `subject` | what messages are checked as: a type of messages, or one of a module |
//! | `message_schema` | the modules of the types of messages |
//! | `reading` | how values of any type are checked and encoded |
//! | `rejection` | why bytes are no message, and at which of their parts |
//! | `tally` | the count of an input's messages, and reports |
//! | `input` | the messages of an input |
//! | `options` | the options of the command line |
#![tactic(auto)]

mod input;
mod message_schema;
mod message_type;
mod options;
mod reading;
mod rejection;
mod subject;
mod tally;

use asn1show_names::Names;
use asn1show_schema::Schema;
use input::Task;
use options::{Options, options_of};
use program_io::{Input, ProgramError, arguments, explain};
use schema_files::schema_of_options;
use std::process::ExitCode;
use subject::{ModuleType, Subject};

// Checks each input, and returns the greatest of their statuses.
fn take_files(rt: &HostRuntime, task: Task<'_, '_>) -> u8 {
    let mut status = 0;
    for name in task.options.files.iter() {
        let ended = input::take(rt, task, Input::named(Some(*name)));
        if status < ended {
            status = ended;
        }
    }
    status
}

// The names of object identifiers. Else the error is printed, and the exit status is returned.
fn names(rt: &HostRuntime) -> Result<Names, u8> {
    match Names::new(rt.alloc()) {
        Ok(names) => Ok(names),
        Err(_) => Err(ProgramError::Memory.report(rt)),
    }
}

// Checks values of a type of modules, and returns the status.
fn take_values(rt: &HostRuntime, options: &Options<'_>, schema: &Schema, names: &Names) -> u8 {
    let subject = Subject::Module(ModuleType {
        schema: &*schema,
        names: &*names,
    });
    let task = Task {
        options: &*options,
        subject: Some(subject),
    };
    take_files(rt, task)
}

// Checks values of a type of modules by their tables, and returns the status.
fn run_by_module(rt: &HostRuntime, options: &Options<'_>, schema: Schema) -> u8 {
    let checked = schema.without_selections();
    match names(rt) {
        Ok(names) => take_values(rt, options, &checked, &names),
        Err(status) => status,
    }
}

// Checks messages, and returns the status.
fn run_by_kind(rt: &HostRuntime, options: &Options<'_>) -> u8 {
    let subject = match options.kind {
        Some(kind) => Some(Subject::Message(kind)),
        None => None,
    };
    let task = Task {
        options: &*options,
        subject,
    };
    take_files(rt, task)
}

// Checks what the options ask for, and returns the status.
fn run(rt: &HostRuntime, options: &Options<'_>) -> u8 {
    match schema_of_options(rt, options.matches()) {
        Ok(Some(schema)) => run_by_module(rt, options, schema),
        Ok(None) => run_by_kind(rt, options),
        Err(status) => status,
    }
}

fn main(rt: HostRuntime) -> ExitCode {
    let words = match arguments(&rt) {
        Ok(words) => words,
        Err(error) => return ExitCode::from(error.report(&rt)),
    };
    let status = match options_of(rt.alloc(), words.as_slice()) {
        Ok(options) => run(&rt, &options),
        Err(error) => explain(&rt, &error),
    };
    ExitCode::from(status)
}
