//! The tables of a module's types.

use asn1_syntax::parse;
use asn1_syntax::tree::Module;
use asn1_types::model::KnownType;
use asn1_types::resolve;
use asn1show_modules::{position_of_reference, schema_of};
use asn1show_schema::Schema;
use std::alloc::Global;

// The tables of modules for a type.
fn schema_of_modules<'a>(
    alloc: Global,
    modules: &'a [Module<'a>],
    known: &'a [KnownType<'a>],
    type_name: &str,
) -> Option<Schema> {
    let Ok(resolved) = resolve(alloc, modules, known) else {
        return None;
    };
    let definitions = resolved.definitions.as_slice();
    let position = position_of_reference(modules, definitions, type_name.as_bytes())?;
    match schema_of(alloc, modules, &resolved, position) {
        Ok(schema) => Some(schema),
        Err(_) => None,
    }
}

/// The tables of a source for a type. Modules are never freed, since they are lent for as long as they are.
pub(crate) fn schema_in(
    alloc: Global,
    source: &'static [u8],
    known: &'static [KnownType<'static>],
    type_name: &str,
) -> Option<Schema> {
    match parse(alloc, source) {
        Ok(modules) => schema_of_modules(alloc, modules.leak(), known, type_name),
        Err(_) => None,
    }
}
