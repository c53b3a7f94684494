//! Calls that read: what each reads, and what is made of that.

use crate::calls::{CALLS, KINDS, RAW};
use crate::kind::ElementType;
use crate::leaf::Leaf;
use crate::names::named;
use crate::parts::{Around, Element, Frame, Group, Part, Piece};
use crate::steps::{Ask, Choice, Step, read_buffered, read_choices, read_steps};
use crate::text::Text;
use crate::tree::read_tree;
use std::alloc::Global;
use yasna::{ASN1Error, ASN1ErrorKind, ASN1Result, BERReader, Tag};

/// What a call reads.
#[derive(Clone, Copy)]
pub enum Body {
    /// A part alone.
    Alone(Piece),
    /// read_with_buffer of a part.
    Buffered(Piece),
    /// read_sequence of these steps.
    Sequence(&'static [Step]),
    /// read_set of these steps.
    Set(&'static [Choice]),
    /// collect_sequence_of or collect_set_of.
    List(Group, Piece),
    /// read_sequence_of or read_set_of; the sum of the INTEGERs that are read, wrapping, is shown, and written as it is.
    Each(Group, ElementType),
    /// An element of many types, as deep as it is.
    Tree,
}

/// What is made of what was read.
#[derive(Clone, Copy)]
pub enum Then {
    /// It is shown.
    Shown,
    /// It is shown; read_tagged_implicit of this tag is around its read.
    Under(Tag),
    /// Its last part alone is shown, NULL where it has none.
    Last,
    /// NULL is shown in its place.
    Null,
    /// It is discarded, and an error too: NULL is shown.
    Discarded,
    /// It is discarded, and an error too: the result is Err(Extra).
    Replaced,
}

/// A call that reads: what is made of what it reads.
#[derive(Clone, Copy)]
pub struct Read(pub Then, pub Body);

impl Read {
    /// The call of this name.
    pub fn named(name: &str) -> Option<Read> {
        if let Some(read) = named(&CALLS, name) {
            return Some(read);
        }
        let kind = match (named(&KINDS, name), name.strip_prefix("nest")) {
            (Some(kind), _) => kind,
            (None, Some(depth)) => match depth.parse() {
                Ok(depth) => ElementType::Nest(depth),
                Err(_) => return None,
            },
            (None, None) => return None,
        };
        Some(Read(Then::Shown, Body::Alone(Piece(Frame::Plain, kind))))
    }

    /// The element that a text represents, as what this call reads is shown, if it does; without memory for it, that is noted in
    /// a result.
    pub fn value(self, text: &str, came: &mut Text) -> Option<Element> {
        let mut parts = Vec::new(came.allocator());
        let is_known = match self.1 {
            Body::Alone(piece) => append(&mut parts, piece.value(text, came), came),
            Body::Sequence(steps) => append_parts(&mut parts, steps, text, came),
            _ => false,
        };
        if is_known {
            Some(self.element(parts))
        } else {
            None
        }
    }

    /// Makes the call.
    pub fn read(self, alloc: Global, reader: BERReader) -> ASN1Result<Element> {
        let Read(then, body) = self;
        let mut parts = Vec::new(alloc);
        let read = match then {
            Then::Under(tag) => {
                reader.read_tagged_implicit(tag, |inner| body.read(inner, &mut parts))
            }
            _ => body.read(reader, &mut parts),
        };
        match (then, read) {
            (Then::Replaced, _) => Err(ASN1Error::new(ASN1ErrorKind::Extra)),
            (Then::Discarded, _) | (_, Ok(())) => Ok(self.element(parts)),
            (_, Err(error)) => Err(error),
        }
    }

    // What is made of these parts.
    fn element(self, mut parts: Vec<Part>) -> Element {
        let group = self.1.group();
        match self.0 {
            Then::Under(tag) => Element {
                around: Around::Implicit(tag),
                group,
                parts,
            },
            Then::Last => Element::new(Group::Alone, parts),
            Then::Null | Then::Discarded => {
                parts.clear();
                Element::new(Group::Alone, parts)
            }
            _ => Element::new(group, parts),
        }
    }
}

impl Body {
    // What holds its parts.
    fn group(self) -> Group {
        match self {
            Body::Sequence(_) => Group::Sequence,
            Body::Set(_) => Group::Set,
            Body::List(group, _) => group,
            _ => Group::Alone,
        }
    }

    // Reads it.
    fn read(self, reader: BERReader, parts: &mut Vec<Part>) -> ASN1Result<()> {
        match self {
            Body::Alone(piece) => push(parts, piece.read(reader)),
            Body::Buffered(piece) => {
                let read = read_buffered(*parts.allocator(), piece, reader);
                push(parts, read)
            }
            Body::Tree => {
                let read = read_tree(*parts.allocator(), reader);
                push(parts, read)
            }
            Body::Sequence(steps) => reader.read_sequence(|seq| read_steps(steps, seq, parts)),
            Body::Set(steps) => reader.read_set(|set| read_choices(steps, set, parts)),
            Body::List(group, piece) => read_list(group, piece, reader, parts),
            Body::Each(group, kind) => push(parts, read_each(group, kind, reader)),
        }
    }
}

/// Appends the part that was read.
pub fn push(parts: &mut Vec<Part>, read: ASN1Result<Part>) -> ASN1Result<()> {
    match read {
        Ok(part) => match parts.push(part) {
            Ok(()) => Ok(()),
            Err(_) => Err(ASN1Error::new(ASN1ErrorKind::OutOfMemory)),
        },
        Err(error) => Err(error),
    }
}

// Collects the items of a list.
fn read_list(
    group: Group,
    piece: Piece,
    reader: BERReader,
    parts: &mut Vec<Part>,
) -> ASN1Result<()> {
    let read = |item: BERReader| piece.read(item);
    let items = match group {
        Group::SetOf => reader.collect_set_of(read),
        _ => reader.collect_sequence_of(read),
    };
    match items {
        Ok(items) => {
            *parts = items;
            Ok(())
        }
        Err(error) => Err(error),
    }
}

// Adds the INTEGER that was read; nothing for anything else.
fn add_number(read: ASN1Result<Leaf>, sum: &mut i64) -> ASN1Result<()> {
    match read {
        Ok(Leaf::I64(number)) => {
            *sum = sum.wrapping_add(number);
            Ok(())
        }
        Ok(_) => Ok(()),
        Err(error) => Err(error),
    }
}

// Reads the sum of those items of a list that are INTEGERs.
fn read_each(group: Group, kind: ElementType, reader: BERReader) -> ASN1Result<Part> {
    let mut sum = 0i64;
    let add = |item: BERReader| add_number(kind.read(item), &mut sum);
    let read = match group {
        Group::SetOf => reader.read_set_of(add),
        _ => reader.read_sequence_of(add),
    };
    match read {
        Ok(()) => Ok(Part::new(Frame::Plain, Leaf::I64(sum))),
        Err(error) => Err(error),
    }
}

// Appends a part, if it is one; without memory for it, that is noted in a result.
fn append(parts: &mut Vec<Part>, part: Option<Part>, came: &mut Text) -> bool {
    let Some(part) = part else {
        return false;
    };
    let appended = parts.push(part).is_ok();
    came.out_of_memory = came.out_of_memory || !appended;
    appended
}

// Appends the parts of a SEQUENCE that a text represents, in brackets and with commas between them, if it does.
fn append_parts(
    parts: &mut Vec<Part>,
    steps: &'static [Step],
    text: &str,
    came: &mut Text,
) -> bool {
    let Some(inner) = unbracketed(text) else {
        return false;
    };
    let mut texts = inner.split(',');
    for step in steps {
        let (Step(Ask::Next, piece), Some(text)) = (step, texts.next()) else {
            return false;
        };
        if !append(parts, piece.value(text, came), came) {
            return false;
        }
    }
    true
}

/// What is in a pair of brackets.
pub fn unbracketed(text: &str) -> Option<&str> {
    match text.strip_prefix('(') {
        Some(others) => others.strip_suffix(')'),
        None => None,
    }
}

/// The elements that a text represents, with commas between them; `-` alone is none, and among others an empty one. `none` is a part
/// that isn't written. Without memory for them, that is noted in a result.
pub fn raw_parts(group: Group, text: &str, came: &mut Text) -> Option<Element> {
    let mut parts = Vec::new(came.allocator());
    if text == "-" {
        return Some(Element::new(group, parts));
    }
    for element in text.split(',') {
        let part = match element {
            "none" => Some(Part::new(Frame::Plain, Leaf::Absent)),
            _ => RAW.value(element, came),
        };
        if !append(&mut parts, part, came) {
            return None;
        }
    }
    Some(Element::new(group, parts))
}
