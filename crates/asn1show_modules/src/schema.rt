//! All types of modules.

use crate::bodies::add_definition;
use crate::builder::{Builder, NO_DEFAULT, NO_NAME, NO_ROWS};
use crate::selections::add_selections;
use crate::sizes::number_of;
use asn1_syntax::tree::Module;
use asn1_types::model::{Definition, NamedNumbers, Resolved};
use asn1show_schema::Schema;
use asn1show_schema::schema::Rows;
use std::alloc::{AllocError, Global};

/// The position of the first type with this name, if one is there.
pub fn position_of(definitions: &[Definition<'_>], name: &[u8]) -> Option<usize> {
    for (index, definition) in definitions.iter().enumerate() {
        if is_named(definition, name) {
            return Some(index);
        }
    }
    None
}

// Whether an assignment gives a type this name.
fn is_named(definition: &Definition<'_>, name: &[u8]) -> bool {
    match definition.path.as_slice() {
        [own] => *own == name,
        _ => false,
    }
}

// Whether a module has this name.
fn is_of_module(modules: &[Module<'_>], definition: &Definition<'_>, name: &[u8]) -> bool {
    match modules.get(definition.place.module) {
        Some(module) => module.name.text == name,
        None => false,
    }
}

// The position of the type with this name in the module with that name.
fn position_in(
    modules: &[Module<'_>],
    definitions: &[Definition<'_>],
    module: &[u8],
    name: &[u8],
) -> Option<usize> {
    for (index, definition) in definitions.iter().enumerate() {
        if is_named(definition, name) && is_of_module(modules, definition, module) {
            return Some(index);
        }
    }
    None
}

/// The position of a type, by its name, or by that of its module, a point and its name (X.680, 14).
pub fn position_of_reference(
    modules: &[Module<'_>],
    definitions: &[Definition<'_>],
    reference: &[u8],
) -> Option<usize> {
    match reference.iter().position(|octet| *octet == b'.') {
        Some(point) => {
            let module = reference.get(..point)?;
            let name = reference.get(point.checked_add(1)?..)?;
            position_in(modules, definitions, module, name)
        }
        None => position_of(definitions, reference),
    }
}

// Adds the names in the braces of an INTEGER or a BIT STRING.
fn add_names(builder: &mut Builder, names: &NamedNumbers<'_>) -> Result<(), AllocError> {
    let first = builder.count_named_numbers();
    for item in names.items.iter() {
        builder.add_named_number(item.name, number_of(item.number))?;
    }
    let end = builder.count_named_numbers();
    builder.add_names(Rows { first, end })
}

/// The tables of the types of modules, for values of the one at a position. `Err` says that memory ran out.
pub fn schema_of<'a>(
    alloc: Global,
    modules: &'a [Module<'a>],
    resolved: &Resolved<'a>,
    position: usize,
) -> Result<Schema, AllocError> {
    let mut builder = Builder::new(alloc);
    for names in &resolved.named_numbers {
        add_names(&mut builder, names)?;
    }
    let definitions = resolved.definitions.as_slice();
    for definition in definitions {
        add_definition(&mut builder, definition)?;
    }
    add_selections(
        &mut builder,
        modules,
        definitions,
        resolved.constants.as_slice(),
    )?;
    let rows = builder.definition(position).unwrap_or(NO_ROWS);
    let start = builder.add_place(NO_NAME, false, NO_DEFAULT, rows)?;
    Ok(builder.finish(start))
}
