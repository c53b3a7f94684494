//! The files of a crate: they are written, or compared with those that are there.

use asn1_source::SourceFile;
use module_files::{locate, report_at};
use program_io::report;
use std::io::ErrorKind;
use std::{fs, io, str};

// The exit status if a file that is there differs from what the modules give, or isn't there.
const DIFFERENT: u8 = 1;

// The exit status after an I/O error, or if memory ran out.
const IO_ERROR: u8 = 3;

// The path of a file in a folder of crates.
fn path_of(rt: &HostRuntime, folder: &str, krate: &str, path: &[u8]) -> Option<String> {
    let path = str::from_utf8(path).ok()?;
    format!(in rt.alloc(); "{folder}/{krate}/{path}").ok()
}

// Writes a file, in a folder that is made if it isn't there.
fn write_in_folder(rt: &HostRuntime, path: &str, text: &[u8]) -> io::Result<()> {
    if let Some((folder, _)) = path.rsplit_once('/') {
        fs::create_dir_all(rt, folder)?;
    }
    fs::write(rt, path, text)
}

// Writes a file, and returns the status.
fn write_file(rt: &HostRuntime, path: &str, text: &[u8]) -> u8 {
    match write_in_folder(rt, path, text) {
        Ok(()) => 0,
        Err(error) => {
            report(rt, path, &error);
            IO_ERROR
        }
    }
}

/// Writes the files of a crate, and returns the status.
pub fn write_files(rt: &HostRuntime, folder: &str, krate: &str, files: &[SourceFile]) -> u8 {
    for file in files {
        let Some(path) = path_of(rt, folder, krate, file.path.as_slice()) else {
            return IO_ERROR;
        };
        let status = write_file(rt, path.as_str(), file.text.as_slice());
        if status != 0 {
            return status;
        }
    }
    0
}

// Whether an octet is only layout: white space, or what a layout adds where it begins a line.
fn is_layout(octet: u8) -> bool {
    octet.is_ascii_whitespace() || octet == b',' || octet == b'{' || octet == b'}'
}

// Whether a text begins with a line that brings names in.
fn is_import(text: &[u8]) -> bool {
    matches!(text, [b'\n', b'u', b's', b'e', b' ', ..])
}

// The octets of a source that are no layout, without what it brings in.
#[derive(Drop)]
struct Significant {
    octets: Vec<u8>,
    // The offset of each in the source.
    offsets: Vec<usize>,
}

fn significant_octets(rt: &HostRuntime, text: &[u8]) -> io::Result<Significant> {
    let mut octets = Vec::new(rt.alloc());
    let mut offsets = Vec::new(rt.alloc());
    let mut skips = false;
    for (place, octet) in text.iter().enumerate() {
        let rest = match text.get(place..) {
            Some(rest) => rest,
            None => b"",
        };
        if is_import(rest) {
            skips = true;
        }
        if !skips && !is_layout(*octet) {
            octets.push(*octet)?;
            offsets.push(place)?;
        }
        if *octet == b';' {
            skips = false;
        }
    }
    Ok(Significant { octets, offsets })
}

// The index of the first octet that differs. A shorter source differs where it ends.
fn first_difference(one: &[u8], other: &[u8]) -> Option<usize> {
    for (place, octets) in one.iter().zip(other.iter()).enumerate() {
        if *octets.0 != *octets.1 {
            return Some(place);
        }
    }
    if one.len() == other.len() {
        None
    } else {
        Some(one.len().min(other.len()))
    }
}

// The offset of an octet in its source, or that of the end.
fn offset_of(source: &Significant, place: usize, text: &[u8]) -> usize {
    match source.offsets.get(place) {
        Some(offset) => *offset,
        None => text.len(),
    }
}

// Compares a source that is there with the one that the modules give, and returns the status.
fn compare(rt: &HostRuntime, path: &str, there: &[u8], given: &[u8]) -> io::Result<u8> {
    let one = significant_octets(rt, there)?;
    let other = significant_octets(rt, given)?;
    let Some(place) = first_difference(one.octets.as_slice(), other.octets.as_slice()) else {
        return Ok(0);
    };
    let line = locate(given, offset_of(&other, place, given)).text;
    let why = match str::from_utf8(line).unwrap_or("").trim() {
        "" => format!(in rt.alloc(); "the modules give nothing more")?,
        line => format!(in rt.alloc(); "the modules give {line}")?,
    };
    report_at(rt, path, there, offset_of(&one, place, there), why.as_str());
    Ok(DIFFERENT)
}

// Reports why a file can't be compared, and returns the status: 1 if it isn't there.
fn report_missing(rt: &HostRuntime, path: &str, error: &io::Error) -> u8 {
    report(rt, path, error);
    match error.kind() {
        ErrorKind::NotFound => DIFFERENT,
        _ => IO_ERROR,
    }
}

// Compares a file with the one that is there, and returns the status.
fn check_file(rt: &HostRuntime, path: &str, text: &[u8]) -> u8 {
    let there = match fs::read(rt, path) {
        Ok(there) => there,
        Err(error) => return report_missing(rt, path, &error),
    };
    match compare(rt, path, there.as_slice(), text) {
        Ok(status) => status,
        Err(error) => {
            report(rt, path, &error);
            IO_ERROR
        }
    }
}

/// Compares the files of a crate with those that are there, prints the first difference of each, and returns the greatest status.
pub fn check_files(rt: &HostRuntime, folder: &str, krate: &str, files: &[SourceFile]) -> u8 {
    let mut status = 0;
    for file in files {
        let Some(path) = path_of(rt, folder, krate, file.path.as_slice()) else {
            return IO_ERROR;
        };
        let ended = check_file(rt, path.as_str(), file.text.as_slice());
        status = status.max(ended);
    }
    status
}
