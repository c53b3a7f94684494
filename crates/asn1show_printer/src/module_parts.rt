//! What a module says of an element besides its names: parts that are absent, and names of numbers and bits.
ghost use Rattle.std.specs.Prelude.{◌≡◌};
ghost use Rattle.asn1show_schema.specs.declared.schema.Contents.TheVariants.{Any};
ghost use Rattle.asn1show_printer.specs.Types.{type_with};

use crate::asn_type::{AsnType, type_of, universal_type};
use crate::diagnostic::Diagnostic;
use crate::elements::Elements;
use crate::line::LineBuffer;
use asn1show_schema::schema::{Contents, Number, Parts, Place, Rows, Size, ValueType};
use asn1show_schema::{
    Label, Match, Schema, ValueError, error_of, has_number, has_size, match_in, name_of, number_of,
    rest_of,
};
use asn1show_walk::Item;
use std::alloc::{AllocError, Global};
use yasna_base::tag::PCBit;

/// The type of an element, which is the module's if the label says it.
pub fn labelled_type(item: &Item<'_>, label: Label<'_>) -> AsnType
    ensures { label.entry.contents ≡ Any → result ≡ type_with item.now.tag }
{
    match label.contents {
        Contents::Any | Contents::Selected(_) => type_of(item.tag),
        Contents::Value(value) => universal_type(value.universal_number()),
        Contents::One(_) | Contents::InOrder(_) | Contents::SequenceOf(..) => AsnType::Parts,
        Contents::InAnyOrder(_) | Contents::SetOf(..) => AsnType::Set,
    }
}

// The parts of a SEQUENCE or a SET that are there, whether one is there twice, and whether an element is none of them.
#[derive(Drop)]
struct Present {
    flags: Vec<bool>,
    is_repeated: bool,
    has_others: bool,
}

impl Present {
    // Notes the part of a number.
    fn note(&mut self, number: usize) {
        if let Some(flag) = self.flags.get_mut(number) {
            self.is_repeated = self.is_repeated || *flag;
            *flag = true;
        }
    }

    // Whether the part of a number is there.
    fn has(&self, number: usize) -> bool {
        match self.flags.get(number) {
            Some(flag) => *flag,
            None => true,
        }
    }
}

// The parts of an element that are among the elements in it.
fn present_in(
    alloc: Global,
    schema: &Schema,
    contents: Contents,
    parts: Parts,
    octets: &[u8],
) -> Result<Present, AllocError> {
    let mut present = Present {
        flags: vec![in alloc; false; parts.end.saturating_sub(parts.first)]?,
        is_repeated: false,
        has_others: false,
    };
    let mut rest = contents;
    for element in Elements::new(octets) {
        let found = match_in(schema, rest, element.tag);
        match found {
            Match::Of(index, _) => present.note(index.saturating_sub(parts.first)),
            Match::Unknown => present.has_others = true,
            Match::Addition | Match::Unspecified => {}
        }
        rest = rest_of(rest, found);
    }
    Ok(present)
}

// Writes what a part is that isn't there. One that may not be absent may be an element that is no part.
fn write_absent(line: &mut LineBuffer, schema: &Schema, place: &Place, has_others: bool) {
    let default = schema.name(place.default);
    if !place.may_be_absent {
        if !has_others {
            line.write_str(" -- missing: ");
            line.write_all(schema.name(place.name));
        }
    } else if !default.is_empty() {
        line.write_str(" -- by default: ");
        line.write_all(schema.name(place.name));
        line.write_str(" ");
        line.write_all(default);
    }
}

/// What is wrong with the parts of an element.
#[derive(Clone, Copy)]
pub struct PartErrors {
    /// Whether one is missing.
    pub is_missing: bool,
    /// Whether one is there twice.
    pub is_repeated: bool,
}

// Writes the parts that aren't there, and returns whether one of them is missing.
fn write_each_absent(
    line: &mut LineBuffer,
    schema: &Schema,
    parts: Parts,
    present: &Present,
) -> bool {
    let mut is_missing = false;
    for index in parts.first..parts.end {
        if present.has(index.saturating_sub(parts.first)) {
            continue;
        }
        if let Some(place) = schema.places.get(index) {
            write_absent(line, schema, place, present.has_others);
            is_missing = is_missing || !(place.may_be_absent || present.has_others);
        }
    }
    is_missing
}

/// Writes the parts of an element that aren't there, and what is wrong with its parts.
pub fn write_parts(
    line: &mut LineBuffer,
    alloc: Global,
    schema: &Schema,
    contents: Contents,
    octets: &[u8],
) -> PartErrors {
    let none = PartErrors {
        is_missing: false,
        is_repeated: false,
    };
    let parts = match contents {
        Contents::InOrder(parts) | Contents::InAnyOrder(parts) => parts,
        _ => return none,
    };
    match present_in(alloc, schema, contents, parts, octets) {
        Ok(present) => PartErrors {
            is_missing: write_each_absent(line, schema, parts, &present),
            is_repeated: present.is_repeated,
        },
        Err(_) => {
            line.fail_out_of_memory();
            none
        }
    }
}

/// Whether as many elements are in a list as its size says.
pub fn has_list_size(contents: Contents, octets: &[u8]) -> bool {
    match contents {
        Contents::SequenceOf(_, size) | Contents::SetOf(_, size) => has_count(size, octets),
        _ => true,
    }
}

// Whether a size has as many as there are elements in contents.
fn has_count(size: Size, octets: &[u8]) -> bool {
    if size.low == 0 && size.high.is_none() {
        return true;
    }
    has_size(size, Elements::new(octets).count() as u64)
}

// Writes the name of a number, if it has one.
fn write_number_name(line: &mut LineBuffer, schema: &Schema, names: Rows, contents: &[u8]) {
    if let Some(number) = number_of(contents) {
        write_name(line, " (", name_of(schema, names, number), ")");
    }
}

// Writes a name between two texts, if it isn't empty.
fn write_name(line: &mut LineBuffer, before: &str, name: &[u8], after: &str) {
    if !name.is_empty() {
        line.write_str(before);
        line.write_all(name);
        line.write_str(after);
    }
}

// Writes the names of the bits of an octet that are ones, after a text that is `(` before the first one of all.
fn write_octet_names(
    line: &mut LineBuffer,
    schema: &Schema,
    names: Rows,
    first: u64,
    octet: u8,
    before: &'static str,
) -> &'static str {
    let mut before = before;
    for bit in 0..8u32 {
        if octet & (128 >> bit) == 0 {
            continue;
        }
        let number = Number {
            is_negative: false,
            magnitude: first.saturating_add(u64::from(bit)),
        };
        let name = name_of(schema, names, number);
        if !name.is_empty() {
            write_name(line, before, name, "");
            before = ", ";
        }
    }
    before
}

// Writes the names of the bits that are ones.
fn write_bit_names(line: &mut LineBuffer, schema: &Schema, names: Rows, contents: &[u8]) {
    let [_, octets @ ..] = contents else {
        return;
    };
    let mut before = " (";
    let mut first: u64 = 0;
    for octet in octets {
        before = write_octet_names(line, schema, names, first, *octet, before);
        first = first.saturating_add(8);
    }
    if before == ", " {
        line.write_str(")");
    }
}

/// Writes the names that a module has for a value.
pub fn write_names(line: &mut LineBuffer, schema: &Schema, label: Label<'_>, contents: &[u8]) {
    match label.contents {
        Contents::Value(ValueType::Integer(_, names)) => {
            write_number_name(line, schema, names, contents)
        }
        Contents::Value(ValueType::Enumerated(names, _)) => {
            write_number_name(line, schema, names, contents)
        }
        Contents::Value(ValueType::NamedBits(names)) => {
            write_bit_names(line, schema, names, contents)
        }
        _ => {}
    }
}

/// What of its type in the module a value doesn't have.
pub fn diagnostic_in(schema: &Schema, label: Label<'_>, contents: &[u8]) -> Option<Diagnostic> {
    let Contents::Value(value) = label.contents else {
        return None;
    };
    Some(match error_of(schema, value, contents)? {
        ValueError::Bounds => Diagnostic::Bounds,
        ValueError::Size => Diagnostic::Size,
        ValueError::Item => Diagnostic::Item,
        ValueError::LastZeros => Diagnostic::LastZeros,
    })
}

/// Whether a value is that which it has if it is absent.
pub fn is_default(item: &Item<'_>, label: Label<'_>) -> bool {
    match (label.contents, label.default_number, item.bit) {
        (Contents::Value(value), Some(number), PCBit::Primitive) => {
            has_number(value, item.contents, number)
        }
        _ => false,
    }
}
