//! The arguments, standard input and standard output.
ghost use Rattle.std.specs.Prelude.{◌≡◌, ◌⊎◌, IfErr};
ghost use Rattle.program_io.specs.declared.error.ProgramError.{ProgramError};

use crate::error::ProgramError;
use std::io::{ErrorKind, Read, Write};
use std::{env, io};

// The arguments, of which the first is the program's name.
fn read_words(rt: &HostRuntime) -> io::Result<Vec<String>> {
    let words = env::args(rt)?;
    Ok(words.collect(rt.alloc())?)
}

/// The arguments, of which the first is the program's name.
///
/// The contract names the errors. No contract says what the arguments are, nor when they can be read.
pub fn arguments(rt: &HostRuntime) -> Result<Vec<String>, ProgramError>
    ensures { IfErr result (λ e. (e ≡ ProgramError.NotText) ⊎ (e ≡ ProgramError.Memory) ⊎ (e ≡ ProgramError.Arguments)) }
{
    match read_words(rt) {
        Ok(words) => Ok(words),
        Err(error) => match error.kind() {
            ErrorKind::InvalidData => Err(ProgramError::NotText),
            kind => Err(ProgramError::of_kind(kind, ProgramError::Arguments)),
        },
    }
}

/// All of standard input.
///
/// The contract names the errors. No contract says which bytes a stream gives, nor when it fails.
pub fn read_input(rt: &HostRuntime) -> Result<Vec<u8>, ProgramError>
    ensures { IfErr result (λ e. (e ≡ ProgramError.Memory) ⊎ (e ≡ ProgramError.Input)) }
{
    let mut input = Vec::new(rt.alloc());
    match rt.stdin().read_to_end(&mut input) {
        Ok(_) => Ok(input),
        Err(error) => Err(ProgramError::of_kind(error.kind(), ProgramError::Input)),
    }
}

// Writes these bytes to standard output, and flushes.
fn write_and_flush(rt: &HostRuntime, bytes: &[u8]) -> io::Result<()> {
    let mut out = rt.stdout();
    out.write_all(bytes)?;
    out.flush()
}

/// Writes these bytes to standard output.
///
/// The contract names the errors. No contract says that a stream takes the bytes.
pub fn write_output(rt: &HostRuntime, bytes: &[u8]) -> Result<(), ProgramError>
    ensures { IfErr result (λ e. (e ≡ ProgramError.Memory) ⊎ (e ≡ ProgramError.Output) ⊎ (e ≡ ProgramError.ClosedPipe)) }
{
    match write_and_flush(rt, bytes) {
        Ok(()) => Ok(()),
        Err(error) => match error.kind() {
            ErrorKind::BrokenPipe => Err(ProgramError::ClosedPipe),
            kind => Err(ProgramError::of_kind(kind, ProgramError::Output)),
        },
    }
}
