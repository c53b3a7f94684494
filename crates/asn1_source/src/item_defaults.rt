//! The types of defaults that are items of an ENUMERATED.

use crate::defaults::untagged;
use crate::naming::item_names;
use crate::parts::{Field, Fields, put_default_name, put_field_text};
use crate::template::Fragments;
use crate::templates::{ITEM_CLAUSES, ITEM_DEFAULT, LIST_CLAUSES};
use crate::terms::{Aspect, TypeName, put_integer};
use crate::tested_types::put_tested_types;
use crate::type_source::CrateSource;
use crate::words::put_imported_variant;
use asn1_types::model::{Body, DefaultValue, Enumeration, Integer, Notation, Presence};
use std::alloc::{AllocError, Global};

// An item of an ENUMERATED.
#[derive(Clone, Copy)]
struct Item<'p> {
    name: &'p [u8],
    number: i64,
}

// The item that is the default of a part, if it has such a default.
fn default_of<'p>(field: &Field<'p, '_>) -> Option<Item<'p>> {
    match &field.part.presence {
        Presence::Default(DefaultValue::Enumerated(name, number)) => Some(Item {
            name: *name,
            number: *number,
        }),
        _ => None,
    }
}

// The place of the item with a number.
fn place_of(enumeration: &Enumeration<'_>, number: i64) -> usize {
    for (place, item) in enumeration.items.iter().enumerate() {
        if item.number == number {
            return place;
        }
    }
    enumeration.items.len()
}

// Sets `v` to the variant of an item, and `V` to it where a clause brings it in.
fn set_variant(
    alloc: Global,
    fragments: &mut Fragments,
    enumeration: &Enumeration<'_>,
    number: i64,
) -> Result<(), AllocError> {
    let variants = item_names(
        alloc,
        enumeration.items.as_slice(),
        enumeration.is_extensible,
    )?;
    let variant = match variants.get(place_of(enumeration, number)) {
        Some(name) => name.as_slice(),
        None => b"",
    };
    fragments.set_octets(b'v', variant);
    let mut imported = fragments.text();
    put_imported_variant(variant, &mut imported);
    fragments.set(b'V', imported);
    Ok(())
}

// Sets the marks of the default of a part.
fn set_item(
    fragments: &mut Fragments,
    source: &CrateSource<'_, '_>,
    field: &Field<'_, '_>,
    name: &TypeName,
    item: Item<'_>,
) {
    let number = Integer {
        is_negative: item.number < 0,
        magnitude: item.number.unsigned_abs(),
    };
    let mut own = fragments.text();
    put_default_name(field.name, &mut own);
    fragments.set(b'X', own);
    let mut notation = fragments.text();
    put_field_text(Aspect::Notation, field, source.names, &mut notation);
    fragments.set(b'B', notation);
    let mut written = fragments.text();
    put_integer(number, &mut written);
    fragments.set(b'n', written);
    fragments.set_octets(b'i', item.name);
    fragments.set_octets(b'C', name.name.as_slice());
    fragments.set_octets(b'F', name.file.as_slice());
    fragments.set_octets(b'P', name.law.as_slice());
    fragments.set_octets(b'K', source.krate);
}

// The place of the definition of a notation within tags.
fn definition_of(notation: &Notation) -> Option<usize> {
    match untagged(notation) {
        Notation::Defined(place) => Some(*place),
        _ => None,
    }
}

// The marks of the default of a part, if it is an item.
fn item_of(
    alloc: Global,
    source: &CrateSource<'_, '_>,
    field: &Field<'_, '_>,
) -> Result<Option<Fragments>, AllocError> {
    let (Some(item), Some(place)) = (default_of(field), definition_of(&field.part.notation)) else {
        return Ok(None);
    };
    let (Some(definition), Some(name)) = (
        source.definitions.get(place),
        source.names.defined.get(place),
    ) else {
        return Ok(None);
    };
    let Body::Enumerated(enumeration) = &definition.body else {
        return Ok(None);
    };
    let mut fragments = Fragments::new(alloc);
    set_variant(alloc, &mut fragments, enumeration, item.number)?;
    set_item(&mut fragments, source, field, name, item);
    Ok(Some(fragments))
}

/// Sets `d` to the types of the defaults of parts, of items and of values that are tested, and `j` to what they bring in.
pub fn set_default_types(
    alloc: Global,
    fragments: &mut Fragments,
    source: &CrateSource<'_, '_>,
    fields: &Fields<'_, '_>,
) -> Result<(), AllocError> {
    let mut types = fragments.text();
    let mut clauses = fragments.text();
    for place in 0..fields.count() {
        let Some(field) = fields.at(place) else { break };
        if let Some(item) = item_of(alloc, source, &field)? {
            item.fill(ITEM_DEFAULT, &mut types);
            item.fill(ITEM_CLAUSES, &mut clauses);
        }
    }
    if put_tested_types(fields, source.names, &mut types) {
        clauses.say(LIST_CLAUSES);
    }
    fragments.set(b'd', types);
    fragments.set(b'j', clauses);
    Ok(())
}
