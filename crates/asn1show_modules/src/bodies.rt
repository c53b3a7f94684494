//! Types that are declared.

use crate::builder::Builder;
use crate::defaults::{default_of, spread_default};
use crate::notations::{add_layer, add_notation};
use crate::own_tags::universal;
use crate::sizes::number_of_i64;
use asn1_types::model::{
    Alternatives, Body, Components, Definition, Enumeration, Part, Presence, TagLayer,
};
use asn1show_schema::schema::{Contents, Parts, Rows, ValueType};
use std::alloc::AllocError;

// Whether an element of a part may be absent: earlier versions leave additions out.
fn may_be_absent(part: &Part<'_>) -> bool {
    part.is_addition || !matches!(part.presence, Presence::Required)
}

// Adds how the values of each part begin.
fn add_rows(builder: &mut Builder, components: &Components<'_>) -> Result<Vec<Rows>, AllocError> {
    let mut all = Vec::new(builder.alloc);
    for part in components.parts.iter() {
        let rows = add_notation(builder, &part.notation)?;
        if all.push(rows).is_err() {
            return Err(AllocError);
        }
    }
    Ok(all)
}

// Adds the places of parts, one after the other.
fn add_parts(builder: &mut Builder, components: &Components<'_>) -> Result<Parts, AllocError> {
    let all = add_rows(builder, components)?;
    let first = builder.count_places();
    for (part, rows) in components.parts.iter().zip(all.iter()) {
        let name = builder.add_name(part.name)?;
        let default = default_of(builder, part)?;
        spread_default(builder, &part.notation, *rows, default.number);
        builder.add_place(name, may_be_absent(part), default, *rows)?;
    }
    let extension = match components.extension {
        Some(count) => Some(first.saturating_add(count)),
        None => None,
    };
    Ok(Parts {
        first,
        end: builder.count_places(),
        extension,
    })
}

// Adds how the values of each alternative begin.
fn add_alternatives(builder: &mut Builder, choice: &Alternatives<'_>) -> Result<Rows, AllocError> {
    let mut all = Vec::new(builder.alloc);
    for alternative in choice.alternatives.iter() {
        let rows = add_notation(builder, &alternative.notation)?;
        if all.push(rows).is_err() {
            return Err(AllocError);
        }
    }
    let first = builder.count_beginnings();
    for (alternative, rows) in choice.alternatives.iter().zip(all.iter()) {
        let name = builder.add_name(alternative.name)?;
        builder.add_alternative(*rows, name)?;
    }
    Ok(Rows {
        first,
        end: builder.count_beginnings(),
    })
}

// Adds the items of an ENUMERATED.
fn add_items(builder: &mut Builder, items: &Enumeration<'_>) -> Result<Rows, AllocError> {
    let first = builder.count_named_numbers();
    for item in items.items.iter() {
        builder.add_named_number(item.name, number_of_i64(item.number))?;
    }
    let rows = Rows {
        first,
        end: builder.count_named_numbers(),
    };
    builder.add_beginning(
        Some(universal(10)),
        Contents::Value(ValueType::Enumerated(rows, items.is_extensible)),
    )
}

// Adds how the values of a body begin.
fn add_body(builder: &mut Builder, body: &Body<'_>) -> Result<Rows, AllocError> {
    match body {
        Body::Sequence(components) => {
            let parts = add_parts(builder, components)?;
            builder.add_beginning(Some(universal(16)), Contents::InOrder(parts))
        }
        Body::Set(components) => {
            let parts = add_parts(builder, components)?;
            builder.add_beginning(Some(universal(17)), Contents::InAnyOrder(parts))
        }
        Body::Choice(choice) => add_alternatives(builder, choice),
        Body::Enumerated(items) => add_items(builder, items),
        Body::Value(notation) | Body::Alias(notation) => add_notation(builder, notation),
    }
}

// Adds tags around rows, of which the outermost is first.
fn add_layers(builder: &mut Builder, layers: &[TagLayer], rows: Rows) -> Result<Rows, AllocError> {
    let mut around = rows;
    for layer in layers.iter().rev() {
        around = add_layer(builder, *layer, around)?;
    }
    Ok(around)
}

/// Adds how the values of a definition begin.
pub fn add_definition(
    builder: &mut Builder,
    definition: &Definition<'_>,
) -> Result<(), AllocError> {
    let rows = add_body(builder, &definition.body)?;
    let around = add_layers(builder, definition.tags.as_slice(), rows)?;
    builder.add_definition(around)
}
