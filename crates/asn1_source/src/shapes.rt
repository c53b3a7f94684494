//! Which form a notation has, and the numbers in it.

use crate::forms::*;
use asn1_types::model::{
    Integer, IntegerBounds, Notation, Size, TagClass, TagLayer, TagMode, TextKind,
};

/// A form and its numbers.
#[derive(Clone, Copy)]
pub struct Shape {
    /// The form.
    pub form: &'static Form,
    /// The first number.
    pub first: Integer,
    /// The second number.
    pub second: Integer,
}

const fn natural(magnitude: u64) -> Integer {
    Integer {
        is_negative: false,
        magnitude,
    }
}

fn plain(form: &'static Form) -> Shape {
    Shape {
        form,
        first: natural(0),
        second: natural(0),
    }
}

fn numbered(form: &'static Form, first: u64, second: u64) -> Shape {
    Shape {
        form,
        first: natural(first),
        second: natural(second),
    }
}

// The least and the greatest number of 64 bits with a sign, by how far they are from zero.
const LEAST: u64 = 9223372036854775808;

const GREATEST: u64 = 9223372036854775807;

// Whether a number has 64 bits with a sign.
fn is_signed(number: Integer) -> bool {
    if number.is_negative {
        number.magnitude <= LEAST
    } else {
        number.magnitude <= GREATEST
    }
}

// An INTEGER from a number on that isn't negative, to another one.
fn natural_range(low: u64, high: u64, is_default: bool) -> Shape {
    if low == high {
        numbered(&EXACT_NUMBER, low, high)
    } else if low > 0 {
        numbered(&NUMBER_FROM_TO, low, high)
    } else if high == u64::MAX {
        plain(&NUMBER64)
    } else if high == 4294967295 && !is_default {
        plain(&NUMBER32)
    } else {
        numbered(&AT_MOST, low, high)
    }
}

// The nearest number of 64 bits with a sign.
fn nearest_signed(number: Integer) -> Integer {
    if is_signed(number) {
        return number;
    }
    Integer {
        is_negative: number.is_negative,
        magnitude: if number.is_negative { LEAST } else { GREATEST },
    }
}

// An INTEGER from a negative number on, to another number. Bounds past 64 bits are the nearest ones where it has a default.
fn signed_range(low: Integer, high: Integer, is_default: bool) -> Shape {
    if !is_default && !(is_signed(low) && is_signed(high)) {
        return plain(&BIG_INTEGER);
    }
    let (low, high) = (nearest_signed(low), nearest_signed(high));
    if low.magnitude == LEAST && high.magnitude == GREATEST && !high.is_negative {
        return plain(&INT64);
    }
    if low.magnitude == 2147483648
        && high.magnitude == 2147483647
        && !high.is_negative
        && !is_default
    {
        return plain(&INT32);
    }
    Shape {
        form: &SIGNED_FROM_TO,
        first: low,
        second: high,
    }
}

// An INTEGER from a number on.
fn range_from(low: Integer, is_default: bool) -> Shape {
    if is_default && !low.is_negative {
        return numbered(&NUMBER_FROM_TO, low.magnitude, u64::MAX);
    }
    if is_default || !is_signed(low) {
        return signed_range(low, natural(GREATEST), is_default);
    }
    Shape {
        form: &INTEGER_FROM,
        first: low,
        second: natural(0),
    }
}

// An INTEGER up to a number.
fn range_up_to(high: Integer, is_default: bool) -> Shape {
    if is_default || !is_signed(high) {
        let least = Integer {
            is_negative: true,
            magnitude: LEAST,
        };
        return signed_range(least, high, is_default);
    }
    Shape {
        form: &INTEGER_UP_TO,
        first: natural(0),
        second: high,
    }
}

/// The form of an INTEGER, whose numbers have at most 64 bits where it has a default.
pub fn integer_shape(bounds: IntegerBounds, is_default: bool) -> Shape {
    match (bounds.low, bounds.high) {
        (None, None) => plain(if is_default { &INT64 } else { &BIG_INTEGER }),
        (Some(low), None) => range_from(low, is_default),
        (None, Some(high)) => range_up_to(high, is_default),
        (Some(low), Some(high)) => {
            if low.is_negative {
                signed_range(low, high, is_default)
            } else {
                natural_range(low.magnitude, high.magnitude, is_default)
            }
        }
    }
}

// What a size is of.
#[derive(Clone, Copy)]
enum Measured {
    Octets,
    Bits,
    Text,
    List,
    Set,
}

fn exact_form(of: Measured) -> &'static Form {
    match of {
        Measured::Octets => &OCTETS_SIZE_IS,
        Measured::Bits => &BITS_SIZE_IS,
        Measured::Text => &TEXT_SIZE_IS,
        Measured::List => &LIST_SIZE_IS,
        Measured::Set => &SET_SIZE_IS,
    }
}

fn least_form(of: Measured) -> &'static Form {
    match of {
        Measured::Octets => &OCTETS_SIZE_FROM,
        Measured::Bits => &BITS_SIZE_FROM,
        Measured::Text => &TEXT_SIZE_FROM,
        Measured::List => &LIST_SIZE_FROM,
        Measured::Set => &SET_SIZE_FROM,
    }
}

fn range_form(of: Measured) -> &'static Form {
    match of {
        Measured::Octets => &OCTETS_SIZE_FROM_TO,
        Measured::Bits => &BITS_SIZE_FROM_TO,
        Measured::Text => &TEXT_SIZE_FROM_TO,
        Measured::List => &LIST_SIZE_FROM_TO,
        Measured::Set => &SET_SIZE_FROM_TO,
    }
}

// The form of a size, if it says something.
fn size_shape(size: Size, of: Measured) -> Option<Shape> {
    match size.high {
        None if size.low == 0 => None,
        None => Some(numbered(least_form(of), size.low, 0)),
        Some(high) if high == size.low => Some(numbered(exact_form(of), high, high)),
        Some(high) => Some(numbered(range_form(of), size.low, high)),
    }
}

// The form of the size of a list or a set.
fn items_shape(size: Size, of: Measured, not_empty: &'static Form) -> Option<Shape> {
    match size.high {
        None if size.low == 1 => Some(plain(not_empty)),
        _ => size_shape(size, of),
    }
}

/// The form of the size of a notation, if it says something.
pub fn size_of(notation: &Notation) -> Option<Shape> {
    match notation {
        Notation::OctetString(size) => size_shape(*size, Measured::Octets),
        Notation::BitString(size) => size_shape(*size, Measured::Bits),
        Notation::Text(TextKind::Bmp, _) => None,
        Notation::Text(_, size) => size_shape(*size, Measured::Text),
        Notation::SequenceOf(_, size) => items_shape(*size, Measured::List, &NOT_EMPTY),
        Notation::SetOf(_, size) => items_shape(*size, Measured::Set, &SET_NOT_EMPTY),
        _ => None,
    }
}

fn text_form(kind: TextKind) -> &'static Form {
    match kind {
        TextKind::Utf8 => &UTF8,
        TextKind::Numeric => &NUMERIC,
        TextKind::Printable => &PRINTABLE,
        TextKind::Ia5 => &IA5,
        TextKind::Visible => &VISIBLE,
        TextKind::Bmp => &BMP,
    }
}

/// The form of a tag.
pub fn tag_shape(tag: TagLayer) -> Shape {
    let form = match (tag.mode, tag.class) {
        (TagMode::Explicit, TagClass::Application) => &EXPLICIT_APPLICATION,
        (TagMode::Explicit, TagClass::Private) => &EXPLICIT_PRIVATE,
        (TagMode::Explicit, _) => &EXPLICIT_CONTEXT,
        (TagMode::Implicit, TagClass::Application) => &IMPLICIT_APPLICATION,
        (TagMode::Implicit, TagClass::Private) => &IMPLICIT_PRIVATE,
        (TagMode::Implicit, TagClass::Universal) => &IMPLICIT_UNIVERSAL,
        (TagMode::Implicit, TagClass::ContextSpecific) => &IMPLICIT_CONTEXT,
    };
    numbered(form, tag.number, 0)
}

// The form of any element with a tag.
fn given_shape(tag: TagLayer) -> Shape {
    let form = match tag.class {
        TagClass::Application => &ANY_UNDER_APPLICATION,
        TagClass::Private => &ANY_UNDER_PRIVATE,
        TagClass::Universal => &ANY_UNDER_UNIVERSAL,
        TagClass::ContextSpecific => &ANY_UNDER_CONTEXT,
    };
    numbered(form, tag.number, 0)
}

/// Whether a notation is of a type that no module gives, under no tag that is EXPLICIT. Under tags it is any element with the outermost one.
pub fn is_missing(notation: &Notation) -> bool {
    let mut current = notation;
    while let Notation::Tagged(tag, inner) = current {
        if tag.mode == TagMode::Explicit {
            return false;
        }
        current = &**inner;
    }
    matches!(current, Notation::Missing)
}

/// The form of a notation, or `None` for a type by its name.
pub fn shape_of(notation: &Notation, is_default: bool) -> Option<Shape> {
    Some(match notation {
        Notation::Defined(_) | Notation::Imported(_) => return None,
        Notation::Integer(bounds, _) => integer_shape(*bounds, is_default),
        Notation::Text(kind, _) => plain(text_form(*kind)),
        Notation::Tagged(tag, _) if is_missing(notation) => given_shape(*tag),
        Notation::Tagged(tag, _) => tag_shape(*tag),
        Notation::OctetsUnder(tag) => numbered(&OCTETS_UNDER, *tag, 0),
        Notation::ElementsUnder(tag) => numbered(&ELEMENTS_UNDER, *tag, 0),
        Notation::Boolean => plain(&BOOLEAN),
        Notation::Null => plain(&NULL),
        Notation::ObjectIdentifier => plain(&OBJECT_IDENTIFIER),
        Notation::OctetString(_) => plain(&OCTETS),
        Notation::BitString(_) => plain(&BITS),
        Notation::NamedBits(_, _) => plain(&NAMED_BITS),
        Notation::UtcTime => plain(&UTC_TIME),
        Notation::GeneralizedTime => plain(&GENERALIZED_TIME),
        Notation::Any | Notation::Missing => plain(&ANY),
        Notation::SequenceOf(_, _) => plain(&SEQUENCE_OF),
        Notation::SetOf(_, _) => plain(&SET_OF),
    })
}

/// The notation in which no other one is, inside another one.
pub fn innermost(notation: &Notation) -> &Notation {
    let mut current = notation;
    loop {
        current = match current {
            Notation::SequenceOf(inner, _) => &**inner,
            Notation::SetOf(inner, _) => &**inner,
            Notation::Tagged(_, inner) => &**inner,
            _ => return current,
        };
    }
}
