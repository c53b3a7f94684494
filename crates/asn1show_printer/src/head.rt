//! The beginning of an element's line: its place, its lengths and its type.

use crate::line::LineBuffer;
use crate::type_names::type_name;
use asn1show_schema::Label;
use asn1show_walk::Item;
use std::fmt;
use yasna_base::tag::{PCBit, Tag, TagClass};
use yasna_base::tags::TAG_NULL;

// The prefix of a tag number of this class.
fn class_prefix(class: TagClass) -> &'static str {
    match class {
        TagClass::Universal => "[UNIVERSAL ",
        TagClass::Application => "[APPLICATION ",
        TagClass::ContextSpecific => "[",
        TagClass::Private => "[PRIVATE ",
    }
}

// The name of the type with this tag, if it is one of X.680.
fn name_of(tag: Tag) -> Option<&'static str> {
    match tag.tag_class {
        TagClass::Universal => type_name(tag.tag_number),
        _ => None,
    }
}

/// A tag, which is shown as the name of its type, or in brackets.
#[derive(Clone, Copy)]
pub struct ShownTag(pub Tag);

impl fmt::Display for ShownTag {
    fn fmt<W: fmt::Write>(&self, f: &mut fmt::Formatter<W>) -> fmt::Result {
        let tag = self.0;
        if let Some(name) = name_of(tag) {
            return f.write_str(name);
        }
        let prefix = class_prefix(tag.tag_class);
        write!(f, "{prefix}{}]", tag.tag_number)
    }
}

/// Writes the name of the type with a tag, or the tag in brackets.
pub fn write_tag(line: &mut LineBuffer, tag: Tag) {
    let shown = ShownTag(tag);
    write!(line, "{shown}")
}

fn write_size(line: &mut LineBuffer, size: Option<usize>) {
    match size {
        Some(size) => write!(line, "{size:<7}"),
        None => line.write_str("indef  "),
    }
}

/// Writes an element's place and lengths.
pub fn write_place(line: &mut LineBuffer, item: &Item<'_>) {
    let (offset, header) = (item.offset, item.header);
    write!(line, "{offset:>7} {header:>2}+");
    write_size(line, item.size)
}

// Whether a value is after the type.
fn has_value(item: &Item<'_>) -> bool {
    item.bit == PCBit::Primitive && item.tag != TAG_NULL
}

// Writes the names that a module gives an element, if it gives one.
fn write_label(line: &mut LineBuffer, label: Label<'_>) {
    if label.part.is_empty() && label.alternative.is_empty() {
        return;
    }
    line.write_all(label.part);
    if !label.part.is_empty() && !label.alternative.is_empty() {
        line.write_str(".");
    }
    line.write_all(label.alternative);
    line.write_str(" ")
}

/// Writes an element's names and type by its depth, up to its value.
pub fn write_type(line: &mut LineBuffer, item: &Item<'_>, label: Label<'_>) {
    line.write_str(if item.in_string { ">" } else { " " });
    let indent = 1 + 2 * usize::from(item.depth);
    write!(line, "{:indent$}", "");
    write_label(line, label);
    write_tag(line, item.tag);
    if has_value(item) {
        line.write_str(" ")
    }
}
