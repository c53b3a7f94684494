//! Of which extensible CHOICEs an alternative that this version doesn't know is a value.
//!
//! Such a CHOICE may begin with any tag, so it isn't where tags have to distinguish it from what is before or beside it.

use asn1_types::model::{Body, Components, Definition, Notation, Part, Presence};
use std::alloc::{AllocError, Global};

// Notes that tags have to distinguish a type without a tag of its own.
fn close(notation: &Notation, definitions: &[Definition<'_>], open: &mut Vec<bool>) {
    let Notation::Defined(place) = notation else {
        return
    };
    let Some(definition) = definitions.get(*place) else {
        return;
    };
    if !definition.tags.is_empty() {
        return;
    }
    if let Some(is_open) = open.get_mut(*place) {
        *is_open = false;
    }
}

/// Whether a part may be absent.
pub fn may_be_absent(part: &Part<'_>) -> bool {
    part.is_addition || !matches!(&part.presence, Presence::Required)
}

// Notes this of the parts of a SEQUENCE or a SET. In a SEQUENCE, tags don't have to distinguish a mandatory part from another one before it.
fn close_parts(
    components: &Components<'_>,
    is_set: bool,
    definitions: &[Definition<'_>],
    open: &mut Vec<bool>,
) {
    let mut is_distinguished = is_set;
    for part in components.parts.iter() {
        if is_distinguished || may_be_absent(part) {
            close(&part.notation, definitions, open);
        }
        is_distinguished = is_set || may_be_absent(part);
    }
}

// Notes this of all types that a type names.
fn close_body(body: &Body<'_>, definitions: &[Definition<'_>], open: &mut Vec<bool>) {
    match body {
        Body::Sequence(components) => close_parts(components, false, definitions, open),
        Body::Set(components) => close_parts(components, true, definitions, open),
        Body::Choice(choice) => {
            for alternative in choice.alternatives.iter() {
                close(&alternative.notation, definitions, open);
            }
        }
        Body::Value(notation) | Body::Alias(notation) => close(notation, definitions, open),
        Body::Enumerated(_) => {}
    }
}

fn is_extensible(body: &Body<'_>) -> bool {
    match body {
        Body::Choice(choice) => choice.is_extensible,
        _ => false,
    }
}

/// Of which definitions an alternative that this version doesn't know is a value.
pub fn open_choices(
    alloc: Global,
    definitions: &[Definition<'_>],
) -> Result<Vec<bool>, AllocError> {
    let mut open = Vec::new(alloc);
    for definition in definitions {
        if open.push(is_extensible(&definition.body)).is_err() {
            return Err(AllocError);
        }
    }
    for definition in definitions {
        close_body(&definition.body, definitions, &mut open);
    }
    Ok(open)
}
