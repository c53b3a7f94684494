//! The elements that are open, and what the next one is.
ghost use Rattle.std.specs.Prelude.{◌≡◌};
ghost use Rattle.asn1show_schema.specs.declared.schema.Contents.TheVariants.{Any};

use crate::matching::{Match, match_in, rest_of};
use crate::schema::{Contents, Name, Number, Schema, ValueType};
use std::alloc::{AllocError, Global};
use std::io::Write;
use yasna_base::tag::Tag;
use yasna_base::tags::TAG_OID;

/// What an element is in the type around it.
#[derive(Clone, Copy)]
pub struct Label<'m> {
    /// The name of the part, which is empty if it has none.
    pub part: &'m [u8],
    /// The name of the alternative of a CHOICE, which is empty if it is in none.
    pub alternative: &'m [u8],
    /// What is in it.
    pub contents: Contents,
    /// The number that its value has if it is absent, if it may be absent for that.
    pub default_number: Option<Number>,
    /// Whether the module doesn't allow the element there.
    pub is_unknown: bool,
}

// An element that is open.
#[derive(Clone, Copy)]
struct Level {
    part: Name,
    alternative: Name,
    // Its index among the elements of a list.
    index: Option<u64>,
    // What is in it. What is left of a SEQUENCE is after its last part.
    contents: Contents,
    // How many elements of it were entered.
    count: u64,
    // The place of the type that the last object identifier in it selects, or around it if it is no SEQUENCE or SET.
    selected: Option<usize>,
}

const NO_NAME: Name = Name { start: 0, end: 0 };

/// Which part of a type each element of a listing is.
#[derive(Drop)]
pub struct Fields<'m> {
    schema: &'m Schema,
    // The elements that are open, the outermost first.
    open: Vec<Level>,
}

impl<'m> Label<'m> {
    /// The label of an element of which no module says anything.
    pub fn unnamed() -> Label<'m>
        ensures { result.contents ≡ Any }
    {
        Label {
            part: b"",
            alternative: b"",
            contents: Contents::Any,
            default_number: None,
            is_unknown: false,
        }
    }
}

// What is around an outermost element.
fn outermost(start: usize) -> Level {
    Level {
        part: NO_NAME,
        alternative: NO_NAME,
        index: None,
        contents: Contents::One(start),
        count: 0,
        selected: None,
    }
}

// The index of the next element, if it is one of a list.
fn next_index(around: Level) -> Option<u64> {
    match around.contents {
        Contents::SequenceOf(..) | Contents::SetOf(..) => Some(around.count),
        _ => None,
    }
}

// The place of the type that was selected, which is that of the elements in one that isn't a SEQUENCE or a SET.
fn inherited(around: Level, contents: Contents) -> Option<usize> {
    match contents {
        Contents::InOrder(_) | Contents::InAnyOrder(_) => None,
        _ => around.selected,
    }
}

// Whether two identifiers have the same octets.
fn selected_by(schema: &Schema, identifier: &[u8]) -> Option<usize> {
    for selected in schema.selections.as_slice() {
        if schema.name(selected.identifier) == identifier {
            return Some(selected.place);
        }
    }
    None
}

// The name of the part that is expected next in a SEQUENCE, if one may not be absent.
fn expected_name(schema: &Schema, around: Contents) -> Name {
    let Contents::InOrder(parts) = around else {
        return NO_NAME;
    };
    for index in parts.first..parts.end {
        if let Some(place) = schema.places.get(index) {
            if !place.may_be_absent {
                return place.name;
            }
        }
    }
    NO_NAME
}

// An open element of a place that begins so. The name of one that the module doesn't allow is that of the part that is expected there.
fn level_in(schema: &Schema, around: Level, found: Match) -> Level {
    let mut level = outermost(0);
    level.index = next_index(around);
    level.contents = Contents::Any;
    if let Match::Of(index, beginning) = found {
        if let Some(place) = schema.places.get(index) {
            level.part = place.name;
        }
        level.alternative = beginning.alternative;
        level.contents = beginning.contents;
    }
    if let Match::Unknown = found {
        level.part = expected_name(schema, around.contents);
    }
    level.selected = inherited(around, level.contents);
    level
}

// An open element of any type, or of the type that is selected there.
fn selected_level(schema: &Schema, level: Level, tag: Tag) -> Level {
    let mut opened = level;
    match (level.contents, level.selected) {
        (Contents::Any, Some(place)) => {
            if let Match::Of(_, beginning) = match_in(schema, Contents::Selected(place), tag) {
                opened.alternative = beginning.alternative;
                opened.contents = beginning.contents;
                opened.selected = None;
            }
        }
        _ => {}
    }
    opened
}

// What may be in a string, if a type is selected there.
fn in_string(level: Level) -> Contents {
    match (level.contents, level.selected) {
        (Contents::Value(ValueType::OctetString(_)), Some(place)) => Contents::Selected(place),
        (contents, _) => contents,
    }
}

// The number that an element has if it is absent.
fn default_of(schema: &Schema, found: Match) -> Option<Number> {
    match found {
        Match::Of(index, _) => schema.places.get(index)?.default_number,
        _ => None,
    }
}

impl<'m> Fields<'m> {
    /// No elements of a type.
    pub fn new(alloc: Global, schema: &'m Schema) -> Fields<'m> {
        Fields {
            schema,
            open: Vec::new(alloc),
        }
    }

    // What is around the next element.
    fn around(&self) -> Level {
        match self.open.last() {
            Some(level) => *level,
            None => outermost(self.schema.start),
        }
    }

    // Notes an element with these contents in what is around it.
    fn count(&mut self, rest: Contents, tag: Tag, contents: &[u8]) {
        let schema = self.schema;
        if let Some(level) = self.open.last_mut() {
            level.contents = rest;
            level.count = level.count.saturating_add(1);
            if tag == TAG_OID {
                level.selected = selected_by(schema, contents);
            }
        }
    }

    /// What the next element is, which is at this depth and has this tag and these contents. `Err` says that memory ran out.
    pub fn enter(&mut self, depth: u8, tag: Tag, contents: &[u8]) -> Result<Label<'m>, AllocError> {
        self.open.truncate(usize::from(depth));
        let (schema, around) = (self.schema, self.around());
        let found = match_in(schema, around.contents, tag);
        let level = selected_level(schema, level_in(schema, around, found), tag);
        self.count(rest_of(around.contents, found), tag, contents);
        let mut opened = level;
        opened.contents = in_string(level);
        if self.open.push(opened).is_err() {
            return Err(AllocError);
        }
        let is_unknown = matches!(found, Match::Unknown);
        Ok(Label {
            part: if is_unknown {
                b""
            } else {
                schema.name(level.part)
            },
            alternative: schema.name(level.alternative),
            contents: level.contents,
            default_number: default_of(schema, found),
            is_unknown,
        })
    }

    /// The names that lead to the last element, with points between them, and the indices of elements of lists. The last name is that of the part
    /// that is expected there, if the module doesn't allow the element.
    pub fn path(&self, alloc: Global) -> Result<Vec<u8>, AllocError> {
        let mut path = Vec::new(alloc);
        for level in self.open.as_slice() {
            push_name(&mut path, self.schema.name(level.part))?;
            push_name(&mut path, self.schema.name(level.alternative))?;
            if let Some(index) = level.index {
                if write!(path, "[{index}]").is_err() {
                    return Err(AllocError);
                }
            }
        }
        Ok(path)
    }
}

// Appends a name to a path, if it isn't empty.
fn push_name(path: &mut Vec<u8>, name: &[u8]) -> Result<(), AllocError> {
    if name.is_empty() {
        return Ok(());
    }
    if !path.is_empty() && path.push(b'.').is_err() {
        return Err(AllocError);
    }
    if path.extend_from_slice(name).is_err() {
        return Err(AllocError);
    }
    Ok(())
}
