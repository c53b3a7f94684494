//! Object identifiers with their dots (X.690, 8.19 and 8.20).
ghost use Rattle.std.specs.Prelude.{◌≡◌, ◌↔◌, nat_lt, true, IsTrue};
ghost use Rattle.yasna_base.specs.declared.mode.BERMode.{BERMode};
ghost use Rattle.asn1show_printer.specs.Conformance.{excludes};
ghost use Rattle.asn1show_printer.specs.Contents.{AreSubidentifiers};

use crate::diagnostic::Diagnostic;
use crate::line::LineBuffer;
use crate::value::number::write_base128;
use asn1show_names::Names;
use std::alloc::Global;
use yasna_base::bytes::base128::read_base128;

// A longer component is shown only by its size: to write it in decimal would take long.
const LONGEST_COMPONENT: usize = 64;

// A longer identifier has no name.
const LONGEST_NAMED: usize = 32;

// Whether a component ends with this octet.
fn is_last(octet: &u8) -> bool
    ensures { result ≡ nat_lt octet.now 128 }
{
    *octet < 128
}

/// Whether contents are one or more components, each in the fewest octets.
pub fn are_components(contents: &[u8]) -> bool
    ensures { IsTrue result ↔ AreSubidentifiers contents.now }
{
    let mut begins = true;
    for octet in contents {
        if begins && *octet == 128 {
            return false;
        }
        begins = is_last(octet);
    }
    begins && !contents.is_empty()
}

/// What is wrong with contents that aren't components.
pub fn components_diagnostic(contents: &[u8]) -> Diagnostic
    ensures { (m : BERMode) → excludes result m ≡ true }
{
    match contents.last() {
        None => Diagnostic::NoComponent,
        Some(octet) if is_last(octet) => Diagnostic::LongComponent,
        Some(_) => Diagnostic::CutComponent,
    }
}

// The octets of a component without leading zeros in base 128; None if the component is cut off.
fn significant(component: &[u8]) -> Option<&[u8]> {
    let start = component.iter().position(|octet| *octet != 128)?;
    let digits = component.get(start..)?;
    digits.last().filter(|octet| is_last(octet))?;
    Some(digits)
}

fn write_number(line: &mut LineBuffer, alloc: Global, digits: &[u8]) {
    match read_base128(digits) {
        Ok((number, [])) => write!(line, "{number}"),
        _ if digits.len() > LONGEST_COMPONENT => {
            let size = digits.len();
            write!(line, "({size} octets)")
        }
        _ => write_base128(line, alloc, digits),
    }
}

fn write_component(line: &mut LineBuffer, alloc: Global, component: &[u8]) {
    match significant(component) {
        Some(digits) => write_number(line, alloc, digits),
        None => line.write_str("(cut off)"),
    }
}

// Writes the number that the first two components are in.
fn write_roots(line: &mut LineBuffer, digits: &[u8]) {
    let Ok((number, _)) = read_base128(digits) else {
        let size = digits.len();
        return write!(line, "2.({size} octets)");
    };
    let root = (number / 40).min(2);
    let second = number - 40 * root;
    write!(line, "{root}.{second}")
}

fn write_first(line: &mut LineBuffer, first: &[u8]) {
    match significant(first) {
        Some(digits) => write_roots(line, digits),
        None => line.write_str("(cut off)"),
    }
}

/// Writes components with dots between them.
pub fn write_relative(line: &mut LineBuffer, alloc: Global, contents: &[u8]) {
    for (number, component) in contents.split_inclusive(is_last).enumerate() {
        if number > 0 {
            line.write_str(".");
        }
        write_component(line, alloc, component);
    }
}

fn write_absolute(line: &mut LineBuffer, alloc: Global, contents: &[u8]) {
    for (number, component) in contents.split_inclusive(is_last).enumerate() {
        if number == 0 {
            write_first(line, component);
        } else {
            line.write_str(".");
            write_component(line, alloc, component);
        }
    }
}

fn write_named(line: &mut LineBuffer, names: &Names, dotted: &[u8]) {
    line.write_all(dotted);
    if let Some(name) = names.find(dotted) {
        write!(line, " {name}");
    }
}

/// Writes an object identifier, and its usual name where it is whole and has one.
pub fn write_oid(line: &mut LineBuffer, alloc: Global, names: &Names, contents: &[u8]) {
    if contents.len() > LONGEST_NAMED || !are_components(contents) {
        return write_absolute(line, alloc, contents);
    }
    let mut dotted = LineBuffer::new(alloc);
    write_absolute(&mut dotted, alloc, contents);
    match dotted.text() {
        Ok(dotted) => write_named(line, names, dotted),
        Err(_) => line.fail_out_of_memory(),
    }
}
