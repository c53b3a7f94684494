//! Types as they are used in another one.

use crate::builder::{Builder, NO_DEFAULT, NO_NAME, NO_ROWS};
use crate::own_tags::{layer_tag, simple_tag, text_number, universal};
use crate::sizes::{bounds_of, size_of};
use asn1_types::model::{Notation, Size, TagLayer, TagMode};
use asn1show_schema::schema::{Contents, Rows, ValueType};
use std::alloc::{AllocError, Global};

/// Adds a tag around rows.
pub fn add_layer(builder: &mut Builder, layer: TagLayer, rows: Rows) -> Result<Rows, AllocError> {
    let tag = layer_tag(layer);
    match layer.mode {
        TagMode::Implicit => builder.add_tagged(rows, tag),
        TagMode::Explicit => {
            let place = builder.add_place(NO_NAME, false, NO_DEFAULT, rows)?;
            builder.add_beginning(Some(tag), Contents::One(place))
        }
    }
}

// Adds a SEQUENCE OF elements that begin as rows do.
fn add_sequence_of(builder: &mut Builder, size: Size, rows: Rows) -> Result<Rows, AllocError> {
    let place = builder.add_place(NO_NAME, false, NO_DEFAULT, rows)?;
    builder.add_beginning(
        Some(universal(16)),
        Contents::SequenceOf(place, size_of(size)),
    )
}

// Adds a SET OF elements that begin as rows do.
fn add_set_of(builder: &mut Builder, size: Size, rows: Rows) -> Result<Rows, AllocError> {
    let place = builder.add_place(NO_NAME, false, NO_DEFAULT, rows)?;
    builder.add_beginning(Some(universal(17)), Contents::SetOf(place, size_of(size)))
}

// What is in a type in which no other one is.
fn contents_of(builder: &Builder, notation: &Notation) -> Contents {
    Contents::Value(match notation {
        Notation::Boolean => ValueType::Other(1),
        Notation::Null => ValueType::Other(5),
        Notation::Integer(bounds, names) => {
            ValueType::Integer(bounds_of(*bounds), builder.names(*names))
        }
        Notation::ObjectIdentifier => ValueType::Other(6),
        Notation::OctetString(size) => ValueType::OctetString(size_of(*size)),
        Notation::BitString(size) => ValueType::BitString(size_of(*size)),
        Notation::NamedBits(_, names) => ValueType::NamedBits(builder.names(*names)),
        Notation::Text(kind, size) => ValueType::Text(text_number(*kind), size_of(*size)),
        Notation::UtcTime => ValueType::Other(23),
        Notation::GeneralizedTime => ValueType::Other(24),
        Notation::OctetsUnder(number) => ValueType::Other(*number),
        _ => return Contents::Any,
    })
}

// Adds a type in which no other one is.
fn add_simple(builder: &mut Builder, notation: &Notation) -> Result<Rows, AllocError> {
    if let Notation::Defined(index) = notation {
        if let Some(rows) = builder.definition(*index) {
            return Ok(rows);
        }
    }
    let contents = contents_of(builder, notation);
    builder.add_beginning(simple_tag(notation), contents)
}

// Adds a type around rows, or one in which no other is.
fn add_around(builder: &mut Builder, notation: &Notation, rows: Rows) -> Result<Rows, AllocError> {
    match notation {
        Notation::SequenceOf(_, size) => add_sequence_of(builder, *size, rows),
        Notation::SetOf(_, size) => add_set_of(builder, *size, rows),
        Notation::Tagged(layer, _) => add_layer(builder, *layer, rows),
        _ => add_simple(builder, notation),
    }
}

// The types in one another, the outermost first.
fn nested<'n>(alloc: Global, notation: &'n Notation) -> Result<Vec<&'n Notation>, AllocError> {
    let mut all = Vec::new(alloc);
    let mut current = notation;
    loop {
        if all.push(current).is_err() {
            return Err(AllocError);
        }
        current = match current {
            Notation::SequenceOf(inner, _) => &**inner,
            Notation::SetOf(inner, _) => &**inner,
            Notation::Tagged(_, inner) => &**inner,
            _ => return Ok(all),
        };
    }
}

/// Adds how the values of a type begin.
pub fn add_notation(builder: &mut Builder, notation: &Notation) -> Result<Rows, AllocError> {
    let all = nested(builder.alloc, notation)?;
    let mut rows = NO_ROWS;
    for one in all.as_slice().iter().rev() {
        rows = add_around(builder, *one, rows)?;
    }
    Ok(rows)
}
