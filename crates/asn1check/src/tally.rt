//! The count of an input's messages, and the reports of those that are rejected.

use program_io::{ProgramError, report, write_output};
use std::fmt::Display;
use std::io::Write;

// The status if an input isn't messages.
const REJECTED: u8 = 1;

/// The messages of an input so far.
#[derive(Drop)]
pub struct Tally<'a> {
    /// What reports call the input.
    pub name: &'a str,
    /// How many were accepted.
    pub accepted: usize,
    /// How many were rejected.
    pub rejected: usize,
    /// The DER encodings of those that were encoded.
    pub output: Vec<u8>,
}

impl<'a> Tally<'a> {
    /// No message of the input of this name.
    pub fn new(rt: &HostRuntime, name: &'a str) -> Tally<'a> {
        Tally {
            name,
            accepted: 0,
            rejected: 0,
            output: Vec::new(rt.alloc()),
        }
    }

    /// Accepts this many messages.
    pub fn accept(&mut self, count: usize) {
        self.accepted = self.accepted.saturating_add(count);
    }

    /// Rejects a message, and reports why.
    pub fn reject<D: Display>(&mut self, rt: &HostRuntime, why: &D) {
        self.rejected = self.rejected.saturating_add(1);
        let number = self.accepted.saturating_add(self.rejected);
        let _ = writeln!(rt.stderr(), "{}: message {number}: {why}", self.name);
    }

    // The status for what was accepted and rejected.
    fn status(&self) -> u8 {
        if self.rejected == 0 { 0 } else { REJECTED }
    }

    // Says how many messages were rejected, if there are several.
    fn report_count(&self, rt: &HostRuntime) -> u8 {
        let Tally {
            name,
            accepted,
            rejected,
            ..
        } = self;
        let count = accepted.saturating_add(*rejected);
        if count > 1 {
            let _ = writeln!(
                rt.stderr(),
                "{name}: {rejected} of {count} messages rejected"
            );
        }
        REJECTED
    }

    // Says that all messages were accepted.
    fn approve(&self, rt: &HostRuntime) -> u8 {
        let Tally { name, accepted, .. } = self;
        let line = match accepted {
            1 => format!(in rt.alloc(); "{name}: OK\n"),
            count => format!(in rt.alloc(); "{name}: OK, {count} messages\n"),
        };
        match line {
            Ok(line) => write(rt, line.as_bytes()),
            Err(_) => ProgramError::Memory.report(rt),
        }
    }

    /// Says whether the messages were accepted, and returns the status.
    pub fn finish(&self, rt: &HostRuntime) -> u8 {
        if self.rejected == 0 {
            self.approve(rt)
        } else {
            self.report_count(rt)
        }
    }

    /// Writes the encodings, and returns the status.
    pub fn finish_encoding(&self, rt: &HostRuntime) -> u8 {
        self.status().max(write(rt, self.output.as_slice()))
    }
}

// Writes to standard output, and returns the status.
fn write(rt: &HostRuntime, output: &[u8]) -> u8 {
    match write_output(rt, output) {
        Ok(()) => 0,
        Err(error) => error.report(rt),
    }
}

/// Reports that memory ran out, and returns the status.
pub fn out_of_memory(rt: &HostRuntime) -> u8 {
    ProgramError::Memory.report(rt)
}

/// Reports that messages of a type aren't written in DER if they were read in other encoding rules, and returns the status.
pub fn not_written(rt: &HostRuntime) -> u8 {
    report(
        rt,
        "asn1check",
        &"parts of this type stay as they came: it is written from DER only",
    );
    2
}
