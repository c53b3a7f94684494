//! Elements of any of these types, as deep as they are, by the next tag: `tree`.
//!
//! | Tag | Read |
//! |---|---|
//! | of the context | read_tagged of it, of such an element |
//! | of an application | read_tagged_implicit of it, of an OCTET STRING |
//! | SEQUENCE, SET | collect_sequence_of, collect_set_of such an element |
//! | BOOLEAN, NULL, OCTET STRING, BIT STRING, OBJECT IDENTIFIER, UTF8String, PrintableString, UTCTime, GeneralizedTime, ENUMERATED | the read of the type |
//! | any other | read_bigint_bytes |
//!
//! What is within an element is shown and written when it has been read, and is written into it as it is.
ghost use Rattle.yasna.specs.reader.State.{IsFresh};

use crate::kind::ElementType;
use crate::leaf::Leaf;
use crate::parts::{Element, Frame, Group, Part, Piece};
use crate::reading::encoding_of;
use crate::reads::push;
use crate::strings::Class;
use crate::text::Text;
use std::alloc::Global;
use yasna::tags::{
    TAG_BITSTRING, TAG_BOOLEAN, TAG_ENUM, TAG_GENERALIZEDTIME, TAG_NULL, TAG_OCTETSTRING, TAG_OID,
    TAG_PRINTABLESTRING, TAG_SEQUENCE, TAG_SET, TAG_UTCTIME, TAG_UTF8STRING,
};
use yasna::{ASN1Error, ASN1ErrorKind, ASN1Result, BERMode, BERReader, Tag, TagClass};

// The types that hold no element.
static KINDS: [(Tag, ElementType); 10] = [
    (TAG_BOOLEAN, ElementType::Bool),
    (TAG_NULL, ElementType::Null),
    (TAG_ENUM, ElementType::Enum),
    (TAG_OID, ElementType::Identifier),
    (TAG_UTCTIME, ElementType::UtcTime),
    (TAG_GENERALIZEDTIME, ElementType::GeneralizedTime),
    (TAG_OCTETSTRING, ElementType::Bytes),
    (TAG_BITSTRING, ElementType::Bits),
    (TAG_UTF8STRING, ElementType::Text(Class::Utf8)),
    (TAG_PRINTABLESTRING, ElementType::Text(Class::Printable)),
];

/// Reads an element by its tag.
pub fn read_tree(alloc: Global, reader: BERReader) -> ASN1Result<Part> {
    let tag = match reader.lookahead_tag() {
        Ok(tag) => tag,
        Err(error) => return Err(error),
    };
    let mode = reader.mode();
    let read = |inner: BERReader| -> ASN1Result<Part>
        requires { IsFresh inner.old }
    { read_tree(alloc, inner) };
    let (group, parts) = if tag == TAG_SEQUENCE {
        (Group::SequenceOf, reader.collect_sequence_of(read))
    } else if tag == TAG_SET {
        (Group::SetOf, reader.collect_set_of(read))
    } else if tag.tag_class == TagClass::ContextSpecific {
        (
            Group::Alone,
            one(alloc, under(tag, reader.read_tagged(tag, read))),
        )
    } else {
        (Group::Alone, one(alloc, piece_of(tag).read(reader)))
    };
    known(alloc, mode, group, parts)
}

// The part alone that was read.
fn one(alloc: Global, read: ASN1Result<Part>) -> ASN1Result<Vec<Part>> {
    let mut parts = Vec::new(alloc);
    match push(&mut parts, read) {
        Ok(()) => Ok(parts),
        Err(error) => Err(error),
    }
}

// The part that was read, which is under this tag.
fn under(tag: Tag, read: ASN1Result<Part>) -> ASN1Result<Part> {
    match read {
        Ok(part) => Ok(Part::new(Frame::Explicit(tag), part.leaf)),
        Err(error) => Err(error),
    }
}

// What an element of this tag is read as that holds no element.
fn piece_of(tag: Tag) -> Piece {
    if tag.tag_class == TagClass::Application {
        return Piece(Frame::Implicit(tag), ElementType::Bytes);
    }
    for (known, kind) in &KINDS {
        if *known == tag {
            return Piece(Frame::Plain, *kind);
        }
    }
    Piece(Frame::Plain, ElementType::BigInteger)
}

// How an element of these parts is shown, and its encoding.
fn known(
    alloc: Global,
    mode: BERMode,
    group: Group,
    parts: ASN1Result<Vec<Part>>,
) -> ASN1Result<Part> {
    let element = match parts {
        Ok(parts) => Element::new(group, parts),
        Err(error) => return Err(error),
    };
    let mut shown = Text::with_room(alloc);
    element.show(&mut shown);
    match encoding_of(alloc, mode, &element) {
        Ok(_) if shown.out_of_memory => Err(ASN1Error::new(ASN1ErrorKind::OutOfMemory)),
        Ok(encoding) => Ok(Part::new(Frame::Plain, Leaf::Known(shown.text, encoding))),
        Err(error) => Err(error),
    }
}
