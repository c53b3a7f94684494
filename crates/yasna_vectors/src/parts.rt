//! What calls read, made of values: how it is shown, and by which calls it is written.
//!
//! | Read | Shown | Written |
//! |---|---|---|
//! | a SEQUENCE, its parts | `(..)` | write_sequence |
//! | a SEQUENCE OF | `(..)` | write_sequence_of |
//! | a SET, in the order in which its elements are asked for | `{..}` | write_set |
//! | a SET OF | `[..]` | write_set_of |
//! | what is under a tag | after the tag | write_tagged, write_tagged_implicit |
//! | a part with the bytes that it took | `<..,rHEX>` | as the part |
//! | a part that is the default, or absent | as its value, `none` | not |

use crate::kind::ElementType;
use crate::leaf::Leaf;
use crate::tag::show_tag;
use crate::text::Text;
use yasna::{ASN1Result, BERReader, DERWriter, DERWriterSeq, DERWriterSet, Tag};

/// How a part is where it was read.
#[derive(Clone, Copy)]
pub enum Frame {
    Plain,
    Explicit(Tag),
    Implicit(Tag),
    /// Under the tag that lookahead_tag returns, which its read takes too.
    LookedAt,
    /// Shown, and not written.
    Unwritten,
}

/// What a part is read as: the tag that it is under, and the type of its value.
#[derive(Clone, Copy)]
pub struct Piece(pub Frame, pub ElementType);

/// A part, or an element alone.
#[derive(Drop)]
pub struct Part {
    pub frame: Frame,
    pub leaf: Leaf,
    /// The bytes that it took, where they are shown.
    pub taken: Option<Vec<u8>>,
}

/// What holds parts.
#[derive(Clone, Copy)]
pub enum Group {
    /// Nothing: it is the last part alone, and NULL where there is none.
    Alone,
    Sequence,
    SequenceOf,
    Set,
    SetOf,
}

/// What is around an element.
#[derive(Clone, Copy)]
pub enum Around {
    Nothing,
    /// It is under an implicit tag.
    Implicit(Tag),
    /// A SEQUENCE, which isn't shown.
    Sequence,
}

/// What a call reads.
#[derive(Drop)]
pub struct Element {
    pub around: Around,
    pub group: Group,
    pub parts: Vec<Part>,
}

impl Piece {
    /// Reads such a part.
    pub fn read(self, reader: BERReader) -> ASN1Result<Part> {
        let Piece(frame, kind) = self;
        let read = |inner: BERReader| kind.read(inner);
        match frame {
            Frame::Explicit(tag) => Part::of(frame, reader.read_tagged(tag, read)),
            Frame::Implicit(tag) => Part::of(frame, reader.read_tagged_implicit(tag, read)),
            Frame::LookedAt => match reader.lookahead_tag() {
                Ok(tag) => Part::of(Frame::Implicit(tag), kind.read(reader)),
                Err(error) => Err(error),
            },
            Frame::Plain | Frame::Unwritten => Part::of(frame, kind.read(reader)),
        }
    }

    /// The part that a text represents, if it does; without memory for it, that is noted in a result.
    pub fn value(self, text: &str, came: &mut Text) -> Option<Part> {
        if let Frame::LookedAt = self.0 {
            return None;
        }
        match self.1.value(text, came) {
            Some(leaf) => Some(Part::new(self.0, leaf)),
            None => None,
        }
    }
}

impl Part {
    /// The part of this value.
    pub fn new(frame: Frame, leaf: Leaf) -> Part {
        Part {
            frame,
            leaf,
            taken: None,
        }
    }

    // The part of the value that was read.
    fn of(frame: Frame, leaf: ASN1Result<Leaf>) -> ASN1Result<Part> {
        match leaf {
            Ok(leaf) => Ok(Part::new(frame, leaf)),
            Err(error) => Err(error),
        }
    }

    // Appends it to a text.
    fn show(&self, text: &mut Text) {
        if self.taken.is_some() {
            text.push("<");
        }
        if let Frame::Explicit(tag) | Frame::Implicit(tag) = self.frame {
            show_tag(tag, text);
            text.push(":");
        }
        self.leaf.show(text);
        if let Some(taken) = &self.taken {
            text.push(",r");
            text.push_bytes(taken);
            text.push(">");
        }
    }

    // Writes it.
    fn write(&self, writer: DERWriter<'_>) -> ASN1Result<()> {
        let write = |inner: DERWriter<'_>| self.leaf.write(inner);
        match self.frame {
            Frame::Explicit(tag) => writer.write_tagged(tag, write),
            Frame::Implicit(tag) => writer.write_tagged_implicit(tag, write),
            Frame::Unwritten => Ok(()),
            Frame::Plain | Frame::LookedAt => self.leaf.write(writer),
        }
    }
}

impl Group {
    // Writes these parts.
    fn write(self, parts: &[Part], writer: DERWriter<'_>) -> ASN1Result<()> {
        let write_parts = |seq: &mut DERWriterSeq| write_parts(seq, parts);
        let write_elements = |set: &mut DERWriterSet| write_elements(set, parts);
        match self {
            Group::Sequence => writer.write_sequence(write_parts),
            Group::SequenceOf => writer.write_sequence_of(write_parts),
            Group::Set => writer.write_set(write_elements),
            Group::SetOf => writer.write_set_of(write_elements),
            Group::Alone => match parts {
                [] => writer.write_null(),
                [.., last] => last.write(writer),
            },
        }
    }
}

impl Element {
    /// These parts, under no tag.
    pub fn new(group: Group, parts: Vec<Part>) -> Element {
        Element {
            around: Around::Nothing,
            group,
            parts,
        }
    }

    /// This value alone; without memory for it, that is noted in a result.
    pub fn alone(leaf: Leaf, came: &mut Text) -> Option<Element> {
        let mut parts = Vec::new(came.allocator());
        if parts.push(Part::new(Frame::Plain, leaf)).is_ok() {
            return Some(Element::new(Group::Alone, parts));
        }
        came.out_of_memory = true;
        None
    }

    /// Appends it to a text.
    pub fn show(&self, text: &mut Text) {
        if let Around::Implicit(tag) = self.around {
            show_tag(tag, text);
            text.push(":");
        }
        let (first, last) = match self.group {
            Group::Alone => return self.show_last(text),
            Group::Sequence | Group::SequenceOf => ("(", ")"),
            Group::Set => ("{", "}"),
            Group::SetOf => ("[", "]"),
        };
        text.push(first);
        let mut between = "";
        for part in &self.parts {
            text.push(between);
            part.show(text);
            between = ",";
        }
        text.push(last);
    }

    // Appends its last part.
    fn show_last(&self, text: &mut Text) {
        match self.parts.last() {
            Some(part) => part.show(text),
            None => text.push("()"),
        }
    }

    /// Writes it.
    pub fn write(&self, writer: DERWriter<'_>) -> ASN1Result<()> {
        match self.around {
            Around::Nothing => self.group.write(&self.parts, writer),
            Around::Implicit(tag) => {
                writer.write_tagged_implicit(tag, |inner| self.group.write(&self.parts, inner))
            }
            Around::Sequence => {
                writer.write_sequence(|seq| self.group.write(&self.parts, seq.next()))
            }
        }
    }

    /// The value that it is, if it is one alone.
    pub fn leaf(&self) -> Option<&Leaf> {
        match (self.group, self.parts.as_slice()) {
            (Group::Alone, [part]) => Some(&part.leaf),
            _ => None,
        }
    }
}

/// Writes parts with no header around them.
pub fn write_parts(seq: &mut DERWriterSeq, parts: &[Part]) -> ASN1Result<()> {
    for part in parts {
        if !matches!(part.frame, Frame::Unwritten) {
            part.write(seq.next())?;
        }
    }
    Ok(())
}

// Writes elements of a set.
fn write_elements(set: &mut DERWriterSet, elements: &[Part]) -> ASN1Result<()> {
    for element in elements {
        if !matches!(element.frame, Frame::Unwritten) {
            element.write(set.next())?;
        }
    }
    Ok(())
}
