//! The types that crates export to modules, by their files `exports`.

use asn1_source::{Export, ExportsError, add_exports};
use asn1_syntax::tree::Module;
use program_io::{ProgramError, report};
use std::{fs, str};

// The exit status if a file is malformed.
const REJECTED: u8 = 1;

// The exit status after an I/O error.
const IO_ERROR: u8 = 3;

/// The file `exports` of a crate.
#[derive(Drop)]
pub struct ExportsFile {
    // The crate.
    krate: String,
    // Its path.
    path: String,
    // Its text.
    text: Vec<u8>,
}

// The path of the file of a crate in a folder.
fn path_of(rt: &HostRuntime, folder: &str, krate: &str) -> Option<String> {
    format!(in rt.alloc(); "{folder}/{krate}/exports").ok()
}

// Reads the file of a crate. Else the error is printed, and the exit status is returned.
fn read_file(rt: &HostRuntime, folder: &str, krate: &str) -> Result<ExportsFile, u8> {
    let (Some(path), Ok(krate)) = (
        path_of(rt, folder, krate),
        String::from_str(rt.alloc(), krate),
    ) else {
        return Err(ProgramError::Memory.report(rt));
    };
    match fs::read(rt, path.as_str()) {
        Ok(text) => Ok(ExportsFile { krate, path, text }),
        Err(error) => {
            report(rt, path.as_str(), &error);
            Err(IO_ERROR)
        }
    }
}

/// Reads the files of crates in a folder. Else the error is printed, and the exit status is returned.
pub fn read_exports(
    rt: &HostRuntime,
    folder: &str,
    crates: &[&str],
) -> Result<Vec<ExportsFile>, u8> {
    let mut files = Vec::new(rt.alloc());
    for krate in crates {
        let file = read_file(rt, folder, *krate)?;
        if files.push(file).is_err() {
            return Err(ProgramError::Memory.report(rt));
        }
    }
    Ok(files)
}

// Adds the types of a file that modules import.
fn add_file<'a>(
    rt: &HostRuntime,
    file: &'a ExportsFile,
    modules: &[Module<'_>],
    exports: &mut Vec<Export<'a>>,
) -> Result<(), ExportsError> {
    match str::from_utf8(file.text.as_slice()) {
        Ok(text) => add_exports(rt.alloc(), file.krate.as_str(), text, modules, exports),
        Err(_) => Err(ExportsError::Malformed),
    }
}

/// The types of files that modules import. Else the error is printed, and the exit status is returned.
pub fn parse_exports<'a>(
    rt: &HostRuntime,
    files: &'a [ExportsFile],
    modules: &[Module<'_>],
) -> Result<Vec<Export<'a>>, u8> {
    let mut exports = Vec::new(rt.alloc());
    for file in files {
        match add_file(rt, file, modules, &mut exports) {
            Ok(()) => {}
            Err(ExportsError::Malformed) => {
                report(rt, file.path.as_str(), &"it isn't a list of types");
                return Err(REJECTED);
            }
            Err(ExportsError::Memory) => return Err(ProgramError::Memory.report(rt)),
        }
    }
    Ok(exports)
}
