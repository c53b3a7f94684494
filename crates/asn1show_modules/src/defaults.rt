//! The values of parts that may be absent for them.

use crate::builder::{Builder, DefaultValue, NO_DEFAULT};
use crate::sizes::{number_of, number_of_i64};
use asn1_types::model::{self, Notation, Part, Presence, TagMode};
use asn1show_schema::schema::{Name, Number, Rows};
use std::alloc::AllocError;
use std::io::Write;

// A type without the tags before it.
fn untagged(notation: &Notation) -> &Notation {
    let mut current = notation;
    while let Notation::Tagged(_, inner) = current {
        current = &**inner;
    }
    current
}

// Adds a number in decimal.
fn add_decimal(builder: &mut Builder, number: Number) -> Result<Name, AllocError> {
    let mut text = Vec::new(builder.alloc);
    let (sign, magnitude) = (if number.is_negative { "-" } else { "" }, number.magnitude);
    if write!(text, "{sign}{magnitude}").is_err() {
        return Err(AllocError);
    }
    builder.add_name(text.as_slice())
}

// The text of a number of a type: its name, or its digits.
fn add_number(
    builder: &mut Builder,
    notation: &Notation,
    number: Number,
) -> Result<Name, AllocError> {
    if let Notation::Integer(_, names) = untagged(notation) {
        let name = builder.name_of(builder.names(*names), number);
        if name.start < name.end {
            return Ok(name);
        }
    }
    add_decimal(builder, number)
}

// The value of a BOOLEAN.
fn truth(builder: &mut Builder, is_true: bool) -> Result<DefaultValue, AllocError> {
    let text: &[u8] = if is_true { b"TRUE" } else { b"FALSE" };
    Ok(DefaultValue {
        text: builder.add_name(text)?,
        number: Some(Number {
            is_negative: false,
            magnitude: u64::from(is_true),
        }),
    })
}

/// The value that a part has if it is absent.
pub fn default_of(builder: &mut Builder, part: &Part<'_>) -> Result<DefaultValue, AllocError> {
    let Presence::Default(value) = &part.presence else {
        return Ok(NO_DEFAULT);
    };
    match value {
        model::DefaultValue::Boolean(is_true) => truth(builder, *is_true),
        model::DefaultValue::Integer(number) => {
            let number = number_of(*number);
            Ok(DefaultValue {
                text: add_number(builder, &part.notation, number)?,
                number: Some(number),
            })
        }
        model::DefaultValue::Enumerated(name, number) => Ok(DefaultValue {
            text: builder.add_name(name)?,
            number: Some(number_of_i64(*number)),
        }),
        model::DefaultValue::ObjectIdentifier(_)
        | model::DefaultValue::Octets(_)
        | model::DefaultValue::Bits(_, _)
        | model::DefaultValue::EmptySequenceOf
        | model::DefaultValue::EmptySetOf
        | model::DefaultValue::Text(_) => Ok(NO_DEFAULT),
    }
}

/// Notes the number that a part has if it is absent for the elements under its EXPLICIT tags too.
pub fn spread_default(
    builder: &mut Builder,
    notation: &Notation,
    rows: Rows,
    number: Option<Number>,
) {
    let mut current = notation;
    let mut rows = rows;
    while let Notation::Tagged(layer, inner) = current {
        if layer.mode == TagMode::Explicit {
            if let Some(place) = builder.place_under(rows) {
                rows = builder.set_default(place, number);
            }
        }
        current = &**inner;
    }
}
