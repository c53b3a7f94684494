//! Elements that a call reads as one value: by which read, and from which text.
//!
//! | Kind | Read by | Its text |
//! |---|---|---|
//! | numbers, BOOLEAN, NULL | the read of the type | as it is shown |
//! | a big INTEGER | read_bigint_bytes | contents in hexadecimal, a slash, whether it isn't negative |
//! | strings | the read of the type | bytes in hexadecimal; after those of a bit string a slash and the count of bits |
//! | OBJECT IDENTIFIER | read_oid | its components with points between them |
//! | `Raw` | read_der | bytes in hexadecimal |
//! | `Tagged` | read_tagged_der | |
//! | `Nest`, `Nests` | `nest.rt` | |
//! | `Around` | read_sequence of an INTEGER, the next part | the number in brackets |
//! | `Within` | the same; the number alone is what was read | |
//! | `Choice` | lookahead_tag: INTEGER, or else NULL | |
//! | `Again` | read_i64, and once more where that is rejected | |
//! | `Idle`, `Rejected` | nothing: NULL comes of it, or an error | |
//!
//! Where there is no text, such a value is read alone, and not made by a call that writes.

use crate::leaf::Leaf;
use crate::line::octets;
use crate::nest::{Nested, read_nests, read_within};
use crate::oid::identifier;
use crate::reads::unbracketed;
use crate::strings::Class;
use crate::text::Text;
use yasna::tags::TAG_INTEGER;
use yasna::{ASN1Error, ASN1ErrorKind, ASN1Result, BERReader};

/// What such an element is read as.
#[derive(Clone, Copy)]
pub enum ElementType {
    Bool,
    Null,
    Enum,
    I64,
    I32,
    I16,
    I8,
    U64,
    U32,
    U16,
    U8,
    BigInteger,
    Bytes,
    Bits,
    Text(Class),
    Identifier,
    UtcTime,
    GeneralizedTime,
    Raw,
    Tagged,
    Nest(u8),
    Nests,
    Around,
    Within,
    Choice,
    Again,
    Idle,
    Rejected(ASN1ErrorKind),
}

impl ElementType {
    /// Reads such an element.
    pub fn read(self, reader: BERReader) -> ASN1Result<Leaf> {
        let mut error = None;
        let noted = &mut error;
        let leaf = match self {
            ElementType::Bool => Leaf::Bool(taken(reader.read_bool(), noted)),
            ElementType::Enum => Leaf::Enum(taken(reader.read_enum(), noted)),
            ElementType::I64 => Leaf::I64(taken(reader.read_i64(), noted)),
            ElementType::I32 => Leaf::I32(taken(reader.read_i32(), noted)),
            ElementType::I16 => Leaf::I16(taken(reader.read_i16(), noted)),
            ElementType::I8 => Leaf::I8(taken(reader.read_i8(), noted)),
            ElementType::U64 => Leaf::U64(taken(reader.read_u64(), noted)),
            ElementType::U32 => Leaf::U32(taken(reader.read_u32(), noted)),
            ElementType::U16 => Leaf::U16(taken(reader.read_u16(), noted)),
            ElementType::U8 => Leaf::U8(taken(reader.read_u8(), noted)),
            _ => return self.read_other(reader),
        };
        match error {
            None => Ok(leaf),
            Some(kind) => Err(ASN1Error::new(kind)),
        }
    }

    // Reads an element that isn't a number as Rust has it or a BOOLEAN.
    fn read_other(self, reader: BERReader) -> ASN1Result<Leaf> {
        Ok(match self {
            ElementType::BigInteger => {
                let (contents, positive) = reader.read_bigint_bytes()?;
                Leaf::BigInteger(contents, positive)
            }
            ElementType::Bytes => Leaf::Bytes(reader.read_bytes()?),
            ElementType::Bits => {
                let (bytes, count) = reader.read_bitvec_bytes()?;
                Leaf::Bits(bytes, count)
            }
            ElementType::Text(class) => Leaf::Text(class, class.read(reader)?),
            ElementType::Identifier => Leaf::Identifier(reader.read_oid()?),
            ElementType::UtcTime => Leaf::UtcTime(reader.read_utctime()?),
            ElementType::GeneralizedTime => Leaf::GeneralizedTime(reader.read_generalized_time()?),
            ElementType::Raw => Leaf::Raw(reader.read_der()?),
            ElementType::Tagged => Leaf::Tagged(reader.read_tagged_der()?),
            _ => return self.read_composed(reader),
        })
    }

    // Reads an element that takes several reads, or none.
    fn read_composed(self, reader: BERReader) -> ASN1Result<Leaf> {
        match self {
            ElementType::Null => read_null(reader),
            ElementType::Nest(depth) => nested(read_within(reader, depth), depth, 0),
            ElementType::Nests => match read_nests(reader) {
                Ok(nested) => Ok(Leaf::Nested(nested)),
                Err(error) => Err(error),
            },
            ElementType::Around => nested(read_within(reader, 1), 1, 1),
            ElementType::Within => integer(read_within(reader, 1)),
            ElementType::Choice => match reader.lookahead_tag() {
                Ok(tag) if tag == TAG_INTEGER => integer(reader.read_i64()),
                Ok(_) => read_null(reader),
                Err(error) => Err(error),
            },
            ElementType::Again => match reader.read_i64() {
                Ok(number) => Ok(Leaf::I64(number)),
                Err(_) => integer(reader.read_i64()),
            },
            ElementType::Rejected(kind) => Err(ASN1Error::new(kind)),
            _ => Ok(Leaf::Null),
        }
    }

    /// The value that a text represents, if it does; without memory for it, that is noted in a result.
    pub fn value(self, text: &str, came: &mut Text) -> Option<Leaf> {
        match self {
            ElementType::BigInteger | ElementType::Bits => match text.split_once('/') {
                Some((bytes, others)) => self.value_of_bytes(octets(bytes, came), others),
                None => None,
            },
            ElementType::Bytes | ElementType::Text(_) | ElementType::Raw => {
                self.value_of_bytes(octets(text, came), "")
            }
            ElementType::Identifier => match identifier(text, came) {
                Some(identifier) => Some(Leaf::Identifier(identifier)),
                None => None,
            },
            _ => self.small(text),
        }
    }

    // The value that bytes represent, and what is after them in a text.
    fn value_of_bytes(self, bytes: Option<Vec<u8>>, others: &str) -> Option<Leaf> {
        let Some(bytes) = bytes else {
            return None;
        };
        match self {
            ElementType::BigInteger => match others.parse() {
                Ok(positive) => Some(Leaf::BigInteger(bytes, positive)),
                Err(_) => None,
            },
            ElementType::Bits => match others.parse() {
                Ok(count) => Some(Leaf::Bits(bytes, count)),
                Err(_) => None,
            },
            ElementType::Text(class) => match String::from_utf8(bytes) {
                Ok(characters) => Some(Leaf::Text(class, characters)),
                Err(_) => None,
            },
            ElementType::Raw => Some(Leaf::Raw(bytes)),
            _ => Some(Leaf::Bytes(bytes)),
        }
    }

    // The value of a text for which no memory is asked for.
    fn small(self, text: &str) -> Option<Leaf> {
        let mut is_known = true;
        let known = &mut is_known;
        let leaf = match self {
            ElementType::Bool => Leaf::Bool(parsed(text.parse(), known)),
            ElementType::Null if text == "()" => Leaf::Null,
            ElementType::Around => Leaf::Nested(Nested {
                depth: 1,
                number: parsed(unbracketed(text).unwrap_or("").parse(), known),
                brackets: 1,
            }),
            ElementType::Enum => Leaf::Enum(parsed(text.parse(), known)),
            ElementType::I64 => Leaf::I64(parsed(text.parse(), known)),
            ElementType::I32 => Leaf::I32(parsed(text.parse(), known)),
            ElementType::I16 => Leaf::I16(parsed(text.parse(), known)),
            ElementType::I8 => Leaf::I8(parsed(text.parse(), known)),
            ElementType::U64 => Leaf::U64(parsed(text.parse(), known)),
            ElementType::U32 => Leaf::U32(parsed(text.parse(), known)),
            ElementType::U16 => Leaf::U16(parsed(text.parse(), known)),
            ElementType::U8 => Leaf::U8(parsed(text.parse(), known)),
            _ => return None,
        };
        if is_known { Some(leaf) } else { None }
    }
}

// The value that was read; the default where there is none, for which the error is noted.
fn taken<T: Default>(read: ASN1Result<T>, noted: &mut Option<ASN1ErrorKind>) -> T {
    match read {
        Ok(value) => value,
        Err(error) => {
            *noted = Some(error.kind());
            T::default()
        }
    }
}

/// The value that was parsed; the default where there is none, which is noted.
pub fn parsed<T: Default, E: Drop>(parsed: Result<T, E>, is_known: &mut bool) -> T {
    match parsed {
        Ok(value) => value,
        Err(_) => {
            *is_known = false;
            T::default()
        }
    }
}

// The number that was read in so many SEQUENCEs, and how many pairs of brackets are shown.
fn nested(read: ASN1Result<i64>, depth: u8, brackets: u8) -> ASN1Result<Leaf> {
    match read {
        Ok(number) => Ok(Leaf::Nested(Nested {
            depth,
            number,
            brackets,
        })),
        Err(error) => Err(error),
    }
}

// The number that was read.
fn integer(read: ASN1Result<i64>) -> ASN1Result<Leaf> {
    match read {
        Ok(number) => Ok(Leaf::I64(number)),
        Err(error) => Err(error),
    }
}

// Reads NULL.
fn read_null(reader: BERReader) -> ASN1Result<Leaf> {
    match reader.read_null() {
        Ok(()) => Ok(Leaf::Null),
        Err(error) => Err(error),
    }
}
