//! Values that are read as one: how each is shown, and by which call it is written.
//!
//! | Value | Shown | Written by |
//! |---|---|---|
//! | a number, a BOOLEAN | as Rust writes it | the write of its type |
//! | NULL | `()` | write_null |
//! | a big INTEGER | its contents, a slash, whether it isn't negative | write_bigint_bytes |
//! | octets | `hHEX` | write_bytes |
//! | bits | `HEX/N`, N of them | write_bitvec_bytes |
//! | a text | `sHEX` | the write of its class |
//! | an object identifier | `o1.2.3` | write_oid |
//! | a time | `tTEXT` | the write of its type |
//! | an element as it is | `rHEX` | write_der |
//! | a tagged value | its tag, its bit and its payload | write_tagged_der |
//! | SEQUENCEs one in the other around an INTEGER | the number | `nest.rt` |
//! | an element that was shown and written before | as it was | write_der |
//! | a number that is rejected | the number | write_sequence of write_i64, whose closure then returns Err(Invalid) |
//! | a number whose error is discarded | the number | the same, discarded |
//! | what is absent | `none` | no call |
ghost use Rattle.std.specs.Prelude.{◌↔◌, ◌≤◌, ◌<◌, ◌+◌, ◌*◌, IsTrue};

use crate::nest::{Nested, write_within};
use crate::strings::Class;
use crate::tag::show_tag;
use crate::text::Text;
use std::alloc::AllocError;
use yasna::models::{GeneralizedTime, ObjectIdentifier, TaggedDerValue, UTCTime};
use yasna::{ASN1Error, ASN1ErrorKind, ASN1Result, DERWriter, PCBit};

/// A value that is read as one.
#[derive(Drop)]
pub enum Leaf {
    Bool(bool),
    Null,
    Enum(i64),
    I64(i64),
    I32(i32),
    I16(i16),
    I8(i8),
    U64(u64),
    U32(u32),
    U16(u16),
    U8(u8),
    /// Contents, and whether the number isn't negative.
    BigInteger(Vec<u8>, bool),
    Bytes(Vec<u8>),
    /// Bytes, and how many bits there are.
    Bits(Vec<u8>, usize),
    Text(Class, String),
    Identifier(ObjectIdentifier),
    UtcTime(UTCTime),
    GeneralizedTime(GeneralizedTime),
    Raw(Vec<u8>),
    Tagged(TaggedDerValue),
    Nested(Nested),
    /// How an element is shown, and its encoding.
    Known(String, Vec<u8>),
    Rejected(i64),
    Discarded(i64),
    /// Shown as NULL, and not written.
    Nothing,
    Absent,
}

impl Leaf {
    /// Appends the value to a text.
    pub fn show(&self, text: &mut Text) {
        match self {
            Leaf::Bool(flag) => text.push_value(flag),
            Leaf::Enum(number)
            | Leaf::I64(number)
            | Leaf::Rejected(number)
            | Leaf::Discarded(number) => text.push_value(number),
            Leaf::I32(number) => text.push_value(number),
            Leaf::I16(number) => text.push_value(number),
            Leaf::I8(number) => text.push_value(number),
            Leaf::U64(number) => text.push_value(number),
            Leaf::U32(number) => text.push_value(number),
            Leaf::U16(number) => text.push_value(number),
            Leaf::U8(number) => text.push_value(number),
            Leaf::Nested(nested) => nested.show(text),
            _ => self.show_other(text),
        }
    }

    // Appends a value that isn't a number as Rust has it, a BOOLEAN or NULL.
    fn show_other(&self, text: &mut Text) {
        match self {
            Leaf::BigInteger(contents, positive) => {
                text.push_bytes(contents);
                text.push(if *positive { "/true" } else { "/false" });
            }
            Leaf::Bits(bytes, count) => {
                text.push_bytes(bytes);
                text.push("/");
                text.push_value(count);
            }
            Leaf::Bytes(bytes) => show_octets(bytes, text),
            Leaf::Text(_, characters) => show_text(characters, text),
            Leaf::Identifier(identifier) => show_identifier(identifier, text),
            Leaf::UtcTime(time) => show_utc_time(time, text),
            Leaf::GeneralizedTime(time) => show_generalized_time(time, text),
            Leaf::Raw(element) => {
                text.push("r");
                text.push_bytes(element);
            }
            Leaf::Tagged(value) => show_tagged(value, text),
            Leaf::Known(shown, _) => text.push(shown),
            Leaf::Null | Leaf::Nothing => text.push("()"),
            _ => text.push("none"),
        }
    }

    /// Writes the value.
    pub fn write(&self, writer: DERWriter<'_>) -> ASN1Result<()> {
        match self {
            Leaf::Bool(flag) => writer.write_bool(*flag),
            Leaf::Null => writer.write_null(),
            Leaf::Enum(number) => writer.write_enum(*number),
            Leaf::I64(number) => writer.write_i64(*number),
            Leaf::I32(number) => writer.write_i32(*number),
            Leaf::I16(number) => writer.write_i16(*number),
            Leaf::I8(number) => writer.write_i8(*number),
            Leaf::U64(number) => writer.write_u64(*number),
            Leaf::U32(number) => writer.write_u32(*number),
            Leaf::U16(number) => writer.write_u16(*number),
            Leaf::U8(number) => writer.write_u8(*number),
            _ => self.write_other(writer),
        }
    }

    // Writes a value that isn't a number as Rust has it, a BOOLEAN or NULL.
    fn write_other(&self, writer: DERWriter<'_>) -> ASN1Result<()> {
        match self {
            Leaf::BigInteger(contents, positive) => writer.write_bigint_bytes(contents, *positive),
            Leaf::Bytes(bytes) => writer.write_bytes(bytes),
            Leaf::Bits(bytes, count) if takes(bytes.len(), *count) => {
                writer.write_bitvec_bytes(bytes, *count)
            }
            Leaf::Text(class, text) => class.write(writer, text),
            Leaf::Identifier(identifier) if identifier.is_encodable() => {
                writer.write_oid(identifier)
            }
            Leaf::UtcTime(time) => writer.write_utctime(time),
            Leaf::GeneralizedTime(time) => writer.write_generalized_time(time),
            Leaf::Raw(element) | Leaf::Known(_, element) => writer.write_der(element),
            Leaf::Tagged(value) => writer.write_tagged_der(value),
            Leaf::Nested(nested) => write_within(writer, nested.depth, nested.number),
            Leaf::Rejected(number) => write_rejected(writer, *number),
            Leaf::Discarded(number) => {
                let _ = write_rejected(writer, *number);
                Ok(())
            }
            Leaf::Nothing | Leaf::Absent => Ok(()),
            _ => Err(ASN1Error::new(ASN1ErrorKind::Invalid)),
        }
    }
}

// Whether so many bits take just so many bytes.
fn takes(bytes: usize, bits: usize) -> bool
    ensures { IsTrue result ↔ (bits ≤ 8 * bytes) × (8 * bytes < bits + 8) }
{
    bytes == bits / 8 + usize::from(bits % 8 != 0)
}

/// Shows octets.
pub fn show_octets(octets: &Vec<u8>, text: &mut Text) {
    text.push("h");
    text.push_bytes(octets);
}

/// Shows a text.
pub fn show_text(characters: &String, text: &mut Text) {
    text.push("s");
    text.push_bytes(characters.as_bytes());
}

/// Shows an object identifier.
pub fn show_identifier(identifier: &ObjectIdentifier, text: &mut Text) {
    text.push("o");
    text.push_value(identifier);
}

/// Shows a time.
pub fn show_utc_time(time: &UTCTime, text: &mut Text) {
    text.push("t");
    push_shown(time.to_string(text.allocator()), text);
}

/// Shows a time.
pub fn show_generalized_time(time: &GeneralizedTime, text: &mut Text) {
    text.push("t");
    push_shown(time.to_string(text.allocator()), text);
}

// Appends what shows a time, if there was memory for it.
fn push_shown(made: Result<String, AllocError>, text: &mut Text) {
    match made {
        Ok(shown) => text.push(&shown),
        Err(_) => text.out_of_memory = true,
    }
}

// Shows a tag, a bit and a payload.
fn show_tagged(value: &TaggedDerValue, text: &mut Text) {
    show_tag(value.tag(), text);
    text.push(match value.pcbit() {
        PCBit::Primitive => ".0.",
        PCBit::Constructed => ".1.",
    });
    text.push_bytes(value.value());
}

// Writes a number in a sequence whose closure returns an Err.
fn write_rejected(writer: DERWriter<'_>, number: i64) -> ASN1Result<()> {
    writer.write_sequence(|seq| {
        seq.next().write_i64(number)?;
        Err(ASN1Error::new(ASN1ErrorKind::Invalid))
    })
}
