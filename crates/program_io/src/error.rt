//! Why a program ends without its result, and its exit status.
ghost use Rattle.std.specs.Prelude.{◌≡◌, ◌↔◌, ◌⊎◌};
ghost use Rattle.program_io.specs.declared.error.ProgramError.{ProgramError};

use std::fmt;
use std::fmt::Display;
use std::io::{ErrorKind, Write};

/// Why a program ends without its result.
#[derive(Clone, Copy)]
pub enum ProgramError {
    /// An argument isn't UTF-8.
    NotText,
    /// Memory ran out.
    Memory,
    /// The arguments can't be read.
    Arguments,
    /// Standard input can't be read.
    Input,
    /// Standard output can't be written.
    Output,
    /// Standard output is a pipe that nothing reads.
    ClosedPipe,
}

impl ProgramError {
    // `Memory` if this kind of I/O error is out of memory, or else the other error.
    pub(crate) fn of_kind(kind: ErrorKind, other: ProgramError) -> ProgramError
        ensures { (result ≡ ProgramError.Memory) ⊎ (result ≡ other) }
    {
        match kind {
            ErrorKind::OutOfMemory => ProgramError::Memory,
            _ => other,
        }
    }

    /// The exit status: 2 for a usage error, 3 for an I/O error or if memory ran out.
    pub fn status(self) -> u8
        ensures usage { (result ≡ 2) ↔ (self ≡ ProgramError.NotText) }
        ensures io { (result ≡ 3) ↔ (self ≡ ProgramError.NotText → ⊥) }
    {
        match self {
            ProgramError::NotText => 2,
            _ => 3,
        }
    }

    /// Prints the error, unless a pipe was closed, and returns the exit status.
    pub fn report(self, rt: &HostRuntime) -> u8
        ensures usage { (result ≡ 2) ↔ (self ≡ ProgramError.NotText) }
        ensures io { (result ≡ 3) ↔ (self ≡ ProgramError.NotText → ⊥) }
    {
        match self {
            ProgramError::ClosedPipe => {}
            _ => {
                let _ = writeln!(rt.stderr(), "{self}");
            }
        }
        self.status()
    }
}

impl fmt::Display for ProgramError {
    fn fmt<W: fmt::Write>(&self, f: &mut fmt::Formatter<W>) -> fmt::Result {
        f.write_str(match self {
            ProgramError::NotText => "an argument isn't text in UTF-8",
            ProgramError::Memory => "out of memory",
            ProgramError::Arguments => "the arguments can't be read",
            ProgramError::Input => "standard input can't be read",
            ProgramError::Output | ProgramError::ClosedPipe => "standard output can't be written",
        })
    }
}

/// Prints an error of the input that has this name.
pub fn report<D: Display>(rt: &HostRuntime, name: &str, why: &D) {
    let _ = writeln!(rt.stderr(), "{name}: {why}");
}
