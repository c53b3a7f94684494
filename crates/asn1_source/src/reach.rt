//! Which types are wanted: those of some names, and those that they name.

use crate::shapes::innermost;
use asn1_types::model::{Body, Components, Definition, Notation};
use std::alloc::{AllocError, Global};

// Marks the type that a notation names.
fn mark(notation: &Notation, wanted: &mut Vec<bool>) {
    if let Notation::Defined(index) = innermost(notation) {
        if let Some(place) = wanted.get_mut(*index) {
            *place = true;
        }
    }
}

fn mark_parts(components: &Components<'_>, wanted: &mut Vec<bool>) {
    for part in components.parts.iter() {
        mark(&part.notation, wanted);
    }
}

/// Marks the types that a type names.
pub fn mark_body(body: &Body<'_>, wanted: &mut Vec<bool>) {
    match body {
        Body::Sequence(components) => mark_parts(components, wanted),
        Body::Set(components) => mark_parts(components, wanted),
        Body::Choice(choice) => {
            for alternative in choice.alternatives.iter() {
                mark(&alternative.notation, wanted);
            }
        }
        Body::Value(notation) => mark(notation, wanted),
        Body::Alias(notation) => mark(notation, wanted),
        Body::Enumerated(_) => {}
    }
}

// Whether a definition has one of these names.
fn is_named(definition: &Definition<'_>, types: Option<&[&str]>) -> bool {
    let Some(types) = types else { return true };
    let [name] = definition.path.as_slice() else {
        return false;
    };
    for one in types {
        if one.as_bytes() == *name {
            return true;
        }
    }
    false
}

/// Which definitions are of types with these names, or named by one that is. Each is after those that it names.
pub fn reached(
    alloc: Global,
    definitions: &[Definition<'_>],
    types: Option<&[&str]>,
) -> Result<Vec<bool>, AllocError> {
    let mut wanted = Vec::new(alloc);
    for definition in definitions {
        if wanted.push(is_named(definition, types)).is_err() {
            return Err(AllocError);
        }
    }
    for back in 0..definitions.len() {
        let place = definitions.len() - 1 - back;
        let is_wanted = match wanted.get(place) {
            Some(one) => *one,
            None => false,
        };
        if let (true, Some(definition)) = (is_wanted, definitions.get(place)) {
            mark_body(&definition.body, &mut wanted);
        }
    }
    Ok(wanted)
}
