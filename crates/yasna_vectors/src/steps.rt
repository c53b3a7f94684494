//! What is in a SEQUENCE or a SET, read part by part.
//!
//! | Step in a SEQUENCE | Reads |
//! |---|---|
//! | `Next` | next |
//! | `Optional` | read_optional; `none` is shown where the part is absent |
//! | `Ten` | read_default of an INTEGER that is 10 where there is none; 10 is shown and not written |
//! | `Discarded` | next, discarded |
//! | `OptionalDiscarded` | read_optional, discarded |
//! | `Buffered` | read_with_buffer of the parts, around next |
//! | `NextBuffered` | next, and read_with_buffer of it |
//! | `Rejected` | nothing: the callback returns this error |
//!
//! | Step in a SET | Reads |
//! |---|---|
//! | `Next` | next with these tags |
//! | `Asked` | nothing after next with these tags; `none` is shown |
//! | `AskedInVain` | the same, whatever next returns |
//! | `Optional` | read_optional with these tags |
//! | `OptionalDiscarded` | read_optional, discarded |
//! | `Default` | read_default of a BOOLEAN that has this value where there is none; the default is shown and not written |
//! | `DefaultDiscarded` | read_default, discarded |
//! | `Any` | each element as it is, by next with the tags of each class that are numbered 0 to 199, as long as it gives one |

use crate::calls::RAW;
use crate::leaf::Leaf;
use crate::parts::{Frame, Part, Piece};
use crate::reads::push;
use std::alloc::Global;
use yasna::{
    ASN1Error, ASN1ErrorKind, ASN1Result, BERReader, BERReaderSeq, BERReaderSet, Tag, TagClass,
};

/// How a part of a SEQUENCE is asked for.
#[derive(Clone, Copy)]
pub enum Ask {
    Next,
    Optional,
    Ten,
    Discarded,
    OptionalDiscarded,
    Buffered,
    NextBuffered,
    Rejected(ASN1ErrorKind),
}

/// A step in a SEQUENCE: how a part is asked for, and what it is read as.
#[derive(Clone, Copy)]
pub struct Step(pub Ask, pub Piece);

/// How an element of a SET is asked for.
#[derive(Clone, Copy)]
pub enum SetAsk {
    Next,
    Asked,
    AskedInVain,
    Optional,
    OptionalDiscarded,
    Default(bool),
    DefaultDiscarded(bool),
    Any,
}

/// A step in a SET: how an element is asked for, by which tags, and what it is read as.
#[derive(Clone, Copy)]
pub struct Choice(pub SetAsk, pub &'static [Tag], pub Piece);

/// Takes these steps in a SEQUENCE.
pub fn read_steps(steps: &[Step], seq: &mut BERReaderSeq, parts: &mut Vec<Part>) -> ASN1Result<()> {
    for step in steps {
        let read = step.read(*parts.allocator(), seq);
        if let Ask::Discarded | Ask::OptionalDiscarded = step.0 {
            continue;
        }
        if let Err(error) = push(parts, read) {
            return Err(error);
        }
    }
    Ok(())
}

/// Takes these steps in a SET.
pub fn read_choices(
    steps: &[Choice],
    set: &mut BERReaderSet,
    parts: &mut Vec<Part>,
) -> ASN1Result<()> {
    for step in steps {
        let read = match step.0 {
            SetAsk::Any => read_any(set, parts),
            SetAsk::AskedInVain | SetAsk::OptionalDiscarded | SetAsk::DefaultDiscarded(_) => {
                let _ = step.read(set);
                continue;
            }
            _ => push(parts, step.read(set)),
        };
        if let Err(error) = read {
            return Err(error);
        }
    }
    Ok(())
}

// Reads the elements of a SET that have a tag numbered 0 to 199, each as it is.
fn read_any(set: &mut BERReaderSet, parts: &mut Vec<Part>) -> ASN1Result<()> {
    let tags = all_tags(*parts.allocator())?;
    for _ in 0..u64::MAX {
        let read = match set.next(&tags) {
            Ok(reader) => push(parts, RAW.read(reader)),
            Err(_) => break,
        };
        if let Err(error) = read {
            return Err(error);
        }
    }
    Ok(())
}

// The tags of each class that are numbered 0 to 199.
fn all_tags(alloc: Global) -> ASN1Result<Vec<Tag>> {
    let mut tags = Vec::with_capacity(alloc, 800)?;
    for number in 0..200u64 {
        let universal = Tag {
            tag_class: TagClass::Universal,
            tag_number: number,
        };
        tags.extend_from_slice(&[
            universal,
            Tag::application(number),
            Tag::context(number),
            Tag::private(number),
        ])?;
    }
    Ok(tags)
}

/// Reads a part, and the bytes that it took.
pub fn read_buffered(alloc: Global, piece: Piece, reader: BERReader) -> ASN1Result<Part> {
    with_taken(alloc, reader.read_with_buffer(|inner| piece.read(inner)))
}

// The part that was read, with the bytes that it took.
fn with_taken(alloc: Global, read: ASN1Result<(Part, &[u8])>) -> ASN1Result<Part> {
    match read {
        Ok((part, taken)) => match Vec::from_slice(alloc, taken) {
            Ok(taken) => Ok(Part {
                frame: part.frame,
                leaf: part.leaf,
                taken: Some(taken),
            }),
            Err(_) => Err(ASN1Error::new(ASN1ErrorKind::OutOfMemory)),
        },
        Err(error) => Err(error),
    }
}

// The part that was read, or that it is absent.
fn or_absent(read: ASN1Result<Option<Part>>) -> ASN1Result<Part> {
    match read {
        Ok(Some(part)) => Ok(part),
        Ok(None) => Ok(Part::new(Frame::Unwritten, Leaf::Absent)),
        Err(error) => Err(error),
    }
}

impl Step {
    // Takes the step: the part that is shown, unless it is discarded.
    fn read(self, alloc: Global, seq: &mut BERReaderSeq) -> ASN1Result<Part> {
        let Step(ask, piece) = self;
        match ask {
            Ask::Next | Ask::Discarded => piece.read(seq.next()),
            Ask::Optional | Ask::OptionalDiscarded => {
                or_absent(seq.read_optional(|part| piece.read(part)))
            }
            Ask::Ten => match seq.read_default(10, read_integer) {
                Ok(10) => Ok(Part::new(Frame::Unwritten, Leaf::I64(10))),
                Ok(other) => Ok(Part::new(Frame::Plain, Leaf::I64(other))),
                Err(error) => Err(error),
            },
            Ask::Buffered => with_taken(
                alloc,
                seq.read_with_buffer(|parts| piece.read(parts.next())),
            ),
            Ask::NextBuffered => read_buffered(alloc, piece, seq.next()),
            Ask::Rejected(kind) => Err(ASN1Error::new(kind)),
        }
    }
}

// Reads an INTEGER.
fn read_integer(reader: BERReader) -> ASN1Result<i64> {
    reader.read_i64()
}

impl Choice {
    // Takes the step: the element that is shown, unless it is discarded.
    fn read(self, set: &mut BERReaderSet) -> ASN1Result<Part> {
        let Choice(ask, tags, piece) = self;
        match ask {
            SetAsk::Next | SetAsk::Any => match set.next(tags) {
                Ok(reader) => piece.read(reader),
                Err(error) => Err(error),
            },
            SetAsk::Asked | SetAsk::AskedInVain => match set.next(tags) {
                Ok(_) => Ok(Part::new(Frame::Unwritten, Leaf::Absent)),
                Err(error) => Err(error),
            },
            SetAsk::Optional | SetAsk::OptionalDiscarded => {
                or_absent(set.read_optional(tags, |part| piece.read(part)))
            }
            SetAsk::Default(default) | SetAsk::DefaultDiscarded(default) => {
                match set.read_default(tags, default, read_boolean) {
                    Ok(flag) if flag == default => {
                        Ok(Part::new(Frame::Unwritten, Leaf::Bool(flag)))
                    }
                    Ok(flag) => Ok(Part::new(Frame::Plain, Leaf::Bool(flag))),
                    Err(error) => Err(error),
                }
            }
        }
    }
}

// Reads a BOOLEAN.
fn read_boolean(reader: BERReader) -> ASN1Result<bool> {
    reader.read_bool()
}
