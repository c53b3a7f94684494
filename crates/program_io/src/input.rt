//! The input that a program reads: a file, or standard input.
ghost use Rattle.std.specs.Prelude.{◌≡◌, IfErr};

use crate::error::report;
use crate::streams::read_input;
use std::fs;

// The exit status if the input can't be read.
const IO_ERROR: u8 = 3;

/// Where a program reads its input.
#[derive(Clone, Copy)]
pub enum Input<'a> {
    /// Standard input.
    Stdin,
    /// The file of this name.
    File(&'a str),
}

impl<'a> Input<'a> {
    /// The file of this name, or standard input if there is no name, or it is `-`.
    pub fn named(name: Option<&'a str>) -> Input<'a> {
        match name {
            None | Some("-") => Input::Stdin,
            Some(path) => Input::File(path),
        }
    }

    /// What messages call it: the file's name, or `stdin`.
    pub fn name(self) -> &'a str {
        match self {
            Input::Stdin => "stdin",
            Input::File(path) => path,
        }
    }

    /// All its bytes. Else the error is printed, and the exit status is returned.
    ///
    /// No contract says which bytes a file or a stream has, nor when it can be read.
    pub fn read(self, rt: &HostRuntime) -> Result<Vec<u8>, u8>
        ensures { IfErr result (λ status. status ≡ 3) }
    {
        match self {
            Input::Stdin => match read_input(rt) {
                Ok(bytes) => Ok(bytes),
                Err(error) => Err(error.report(rt)),
            },
            Input::File(path) => match fs::read(rt, path) {
                Ok(bytes) => Ok(bytes),
                Err(error) => {
                    report(rt, path, &error);
                    Err(IO_ERROR)
                }
            },
        }
    }
}
