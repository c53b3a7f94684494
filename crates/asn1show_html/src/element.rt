//! The row of an element, up to the elements in it.

use crate::escape::write_text;
use asn1show_printer::{
    Diagnostic, Label, LineBuffer, octets_of, own_len, write_digits, write_tag,
};
use asn1show_walk::Item;
use std::alloc::Global;
use yasna_base::tag::PCBit;

/// Writes the ends of elements.
pub fn write_ends(line: &mut LineBuffer, ends: u8) {
    for _ in 0..ends {
        line.write_str("</details>");
    }
}

// Writes the count of octets of the contents, if it is known.
fn write_size(line: &mut LineBuffer, size: Option<usize>) {
    match size {
        Some(size) => write!(line, "{size}"),
        None => line.write_str("indef"),
    }
}

// The class of a row.
fn class_of(item: &Item<'_>) -> &'static str {
    match item.bit {
        PCBit::Constructed => "constructed",
        PCBit::Primitive => "primitive",
    }
}

// Writes the place of an element, and its lengths.
fn write_place(line: &mut LineBuffer, item: &Item<'_>) {
    let (class, offset, header) = (class_of(item), item.offset, item.header);
    write!(
        line,
        "<details open class=\"{class}\"><summary><i>{offset}</i> <i>{header}+"
    );
    write_size(line, item.size);
    line.write_str(if item.in_string { "</i> &gt;" } else { "</i>" })
}

// Writes a name that a module gives an element, if it gives one.
fn write_name(line: &mut LineBuffer, alloc: Global, name: &[u8]) {
    if !name.is_empty() {
        line.write_str(" <u>");
        write_text(line, alloc, name);
        line.write_str("</u>");
    }
}

// Writes the names of an element, and its type.
fn write_type(line: &mut LineBuffer, alloc: Global, item: &Item<'_>, label: Label<'_>) {
    write_name(line, alloc, label.part);
    write_name(line, alloc, label.alternative);
    line.write_str(" <b>");
    write_tag(line, item.tag);
    line.write_str("</b>")
}

/// Writes the beginning of a row: the place, the lengths, the names and the type.
pub fn write_head(line: &mut LineBuffer, alloc: Global, item: &Item<'_>, label: Label<'_>) {
    write_place(line, item);
    write_type(line, alloc, item, label)
}

/// Writes a value, if there is one.
pub fn write_value(line: &mut LineBuffer, alloc: Global, value: &[u8]) {
    if !value.is_empty() {
        line.write_str(" <span>");
        write_text(line, alloc, value);
        line.write_str("</span>");
    }
}

/// Writes diagnostics.
pub fn write_diagnostics(line: &mut LineBuffer, alloc: Global, diagnostics: &[Diagnostic]) {
    for diagnostic in diagnostics {
        line.write_str(" <em>");
        write_text(line, alloc, diagnostic.text().as_bytes());
        line.write_str("</em>");
    }
}

/// Writes the end of a row: the octets that are beside it.
pub fn write_octets(line: &mut LineBuffer, alloc: Global, input: &[u8], item: &Item<'_>) {
    let octets = octets_of(input, item).unwrap_or(&[]);
    line.write_str(" <code>");
    write_digits(line, alloc, octets);
    line.write_str(if octets.len() < own_len(item) {
        "..</code></summary>"
    } else {
        "</code></summary>"
    })
}
