//! Types that are read and written as a whole.
//!
//! `d:TYPE` decodes by decode_ber, decode_der or decode_cer, and encodes by encode_der, or by encode_cer what was read in CER.
//!
//! | TYPE | Decoded |
//! |---|---|
//! | `null`, `bool`, `int`, `i32`, `i16`, `u64`, `u32`, `u16` | `()`, `bool`, `i64`, and the number types of these names |
//! | `octets`, `text`, `oid`, `utime`, `gtime` | `Vec<u8>`, `String`, `ObjectIdentifier`, `UTCTime`, `GeneralizedTime` |
//! | `pair`, `pairs` | `(i64, bool)`, `((i64, bool), (bool, i64))` |
//! | `deep`, `t1n` | `(bool, (i64, (bool, ())))`, `((((i64,),),),)` |
//! | `named`, `t3` | `(String, Vec<u8>)`, `(u16, (), Vec<u8>)` |
//! | `ints`, `vvi`, `vpair` | `Vec<i64>`, `Vec<Vec<i64>>`, `Vec<(i64, bool)>` |
//! | `vbytes`, `vtext` | `Vec<Vec<u8>>`, `Vec<String>` |
//! | `tdv`, `vtdv` | `TaggedDerValue`, `Vec<TaggedDerValue>`, by decode_ber_general; written by write_tagged_der |
//!
//! `tup1`, `tup3` and `tup12` are tuples of `i64`. `general` is decode_ber_general of an `i64`.

use crate::encodings::encode_in;
use crate::leaf::{
    Leaf, show_generalized_time, show_identifier, show_octets, show_text, show_utc_time,
};
use crate::names::named;
use crate::parts::{Element, Frame, Group, Part};
use crate::reading::{append_leaf, append_shown};
use crate::text::Text;
use std::alloc::AllocError;
use std::fmt::Debug;
use yasna::models::{GeneralizedTime, ObjectIdentifier, TaggedDerValue, UTCTime};
use yasna::{BERMode, DERCanonical, decode_ber, decode_ber_general, decode_cer, decode_der};

type Pairs = ((i64, bool), (bool, i64));

type Deep = (bool, (i64, (bool, ())));

type Nested = ((((i64,),),),);

type Twelve = (i64, i64, i64, i64, i64, i64, i64, i64, i64, i64, i64, i64);

// A type, or what it is made of.
#[derive(Clone, Copy)]
enum Type {
    Null,
    Bool,
    I64,
    I32,
    I16,
    U64,
    U32,
    U16,
    Octets,
    Text,
    Identifier,
    UtcTime,
    GeneralizedTime,
    General,
    Raw,
    Raws,
    Pair,
    Pairs,
    Deep,
    Numbers,
    Lists,
    PairList,
    Nested,
    OctetsList,
    TextList,
    Named,
    Mixed,
    One,
    Three,
    Twelve,
}

// The types by their names.
static TYPES: [(&str, Type); 30] = [
    ("general", Type::General),
    ("d:null", Type::Null),
    ("d:bool", Type::Bool),
    ("d:int", Type::I64),
    ("d:i32", Type::I32),
    ("d:i16", Type::I16),
    ("d:u64", Type::U64),
    ("d:u32", Type::U32),
    ("d:u16", Type::U16),
    ("d:octets", Type::Octets),
    ("d:text", Type::Text),
    ("d:oid", Type::Identifier),
    ("d:utime", Type::UtcTime),
    ("d:gtime", Type::GeneralizedTime),
    ("d:tdv", Type::Raw),
    ("d:vtdv", Type::Raws),
    ("d:pair", Type::Pair),
    ("d:pairs", Type::Pairs),
    ("d:deep", Type::Deep),
    ("d:ints", Type::Numbers),
    ("d:vvi", Type::Lists),
    ("d:vpair", Type::PairList),
    ("d:t1n", Type::Nested),
    ("d:vbytes", Type::OctetsList),
    ("d:vtext", Type::TextList),
    ("d:named", Type::Named),
    ("d:t3", Type::Mixed),
    ("tup1", Type::One),
    ("tup3", Type::Three),
    ("tup12", Type::Twelve),
];

impl Type {
    // Appends what decoding it returns.
    fn append_outcome(self, mode: BERMode, bytes: &[u8], text: &mut Text) {
        match self {
            Type::Null => plain::<()>(mode, bytes, text),
            Type::Bool => plain::<bool>(mode, bytes, text),
            Type::I64 => plain::<i64>(mode, bytes, text),
            Type::I32 => plain::<i32>(mode, bytes, text),
            Type::I16 => plain::<i16>(mode, bytes, text),
            Type::U64 => plain::<u64>(mode, bytes, text),
            Type::U32 => plain::<u32>(mode, bytes, text),
            Type::U16 => plain::<u16>(mode, bytes, text),
            Type::Octets => decoded(mode, bytes, text, show_octets),
            Type::Text => decoded(mode, bytes, text, show_text),
            Type::Identifier => decoded(mode, bytes, text, show_identifier),
            Type::UtcTime => decoded(mode, bytes, text, show_utc_time),
            Type::GeneralizedTime => decoded(mode, bytes, text, show_generalized_time),
            Type::General => general(mode, bytes, text),
            Type::Raw => raw(mode, bytes, text),
            Type::Raws => raws(mode, bytes, text),
            _ => self.append_composed(mode, bytes, text),
        }
    }

    // Appends what decoding a type that is made of others returns.
    fn append_composed(self, mode: BERMode, bytes: &[u8], text: &mut Text) {
        match self {
            Type::Pair => plain::<(i64, bool)>(mode, bytes, text),
            Type::Pairs => plain::<Pairs>(mode, bytes, text),
            Type::Deep => plain::<Deep>(mode, bytes, text),
            Type::Numbers => plain::<Vec<i64>>(mode, bytes, text),
            Type::Lists => plain::<Vec<Vec<i64>>>(mode, bytes, text),
            Type::PairList => plain::<Vec<(i64, bool)>>(mode, bytes, text),
            Type::Nested => plain::<Nested>(mode, bytes, text),
            Type::OctetsList => decoded(mode, bytes, text, show_vectors),
            Type::TextList => decoded(mode, bytes, text, show_strings),
            Type::Named => decoded(mode, bytes, text, show_named),
            Type::Mixed => decoded(mode, bytes, text, show_mixed),
            Type::One => plain::<(i64,)>(mode, bytes, text),
            Type::Three => plain::<(i64, i64, i64)>(mode, bytes, text),
            _ => plain::<Twelve>(mode, bytes, text),
        }
    }
}

/// Appends what decoding the type of this name returns on these bytes, and says whether there is one.
pub fn append_outcome(mode: BERMode, call: &str, bytes: &[u8], text: &mut Text) -> bool {
    match named(&TYPES, call) {
        Some(kind) => {
            kind.append_outcome(mode, bytes, text);
            true
        }
        None => false,
    }
}

// Appends what decoding returns, and encoding after it.
fn decoded<T: DERCanonical, F>(mode: BERMode, bytes: &[u8], text: &mut Text, show: F)
where
    F: FnOnce(&T, &mut Text),
    requires { F.IsAlwaysCallable show }
{
    let alloc = text.allocator();
    let read = match mode {
        BERMode::Ber => decode_ber(alloc, bytes),
        BERMode::Der => decode_der(alloc, bytes),
        BERMode::Cer => decode_cer(alloc, bytes),
    };
    match read {
        Ok(value) => {
            text.push("ok ");
            show(&value, text);
            text.push_encoding(encode_in::<T>(alloc, mode, &value));
        }
        Err(error) => text.reject(error.kind()),
    }
}

// Appends what decoding a value that is made of numbers and BOOLEANs alone returns.
fn plain<T: DERCanonical + Debug>(mode: BERMode, bytes: &[u8], text: &mut Text) {
    decoded::<T, _>(mode, bytes, text, Text::push_plain);
}

// Shows a list of octets.
fn show_vectors(items: &Vec<Vec<u8>>, text: &mut Text) {
    let mut between = "(";
    for item in items {
        text.push(between);
        show_octets(item, text);
        between = ",";
    }
    end_list(items.is_empty(), text);
}

// Shows a list of texts.
fn show_strings(items: &Vec<String>, text: &mut Text) {
    let mut between = "(";
    for item in items {
        text.push(between);
        show_text(item, text);
        between = ",";
    }
    end_list(items.is_empty(), text);
}

// Ends what shows a list.
fn end_list(is_empty: bool, text: &mut Text) {
    text.push(if is_empty { "()" } else { ")" });
}

// Shows a text and octets.
fn show_named(value: &(String, Vec<u8>), text: &mut Text) {
    text.push("(");
    show_text(&value.0, text);
    text.push(",");
    show_octets(&value.1, text);
    text.push(")");
}

// Shows a number, NULL and octets.
fn show_mixed(value: &(u16, (), Vec<u8>), text: &mut Text) {
    text.push("(");
    text.push_value(&value.0);
    text.push(",(),");
    show_octets(&value.2, text);
    text.push(")");
}

// Appends what decoding a number in this mode returns, and its own write after it.
fn general(mode: BERMode, bytes: &[u8], text: &mut Text) {
    match decode_ber_general(text.allocator(), bytes, mode) {
        Ok(number) => append_leaf(mode, Leaf::I64(number), text),
        Err(error) => text.reject(error.kind()),
    }
}

// Appends what decoding a raw element returns, and its own write after it.
fn raw(mode: BERMode, bytes: &[u8], text: &mut Text) {
    match decode_ber_general(text.allocator(), bytes, mode) {
        Ok(value) => append_leaf(mode, Leaf::Tagged(value), text),
        Err(error) => text.reject(error.kind()),
    }
}

// Appends what decoding a list of raw elements returns, and its own write after it.
fn raws(mode: BERMode, bytes: &[u8], text: &mut Text) {
    match decode_ber_general(text.allocator(), bytes, mode) {
        Ok(values) => match list(values) {
            Ok(element) => append_shown(mode, &element, text),
            Err(_) => text.out_of_memory = true,
        },
        Err(error) => text.reject(error.kind()),
    }
}

// A list of raw elements.
fn list(values: Vec<TaggedDerValue>) -> Result<Element, AllocError> {
    let mut parts = Vec::new(*values.allocator());
    for value in values {
        parts.push(Part::new(Frame::Plain, Leaf::Tagged(value)))?;
    }
    Ok(Element::new(Group::SequenceOf, parts))
}
