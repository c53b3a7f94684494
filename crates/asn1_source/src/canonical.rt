//! Of which types what BER reads is written in DER.

use crate::extension::tail_of;
use crate::terms::{TypeName, TypeNames, is_canonical};
use asn1_types::model::{Alternative, Body, Part};

fn are_parts_canonical(parts: &[Part<'_>], names: &TypeNames) -> bool {
    for part in parts {
        if !is_canonical(&part.notation, names) {
            return false;
        }
    }
    true
}

fn are_alternatives_canonical(alternatives: &[Alternative<'_>], names: &TypeNames) -> bool {
    for alternative in alternatives {
        if !is_canonical(&alternative.notation, names) {
            return false;
        }
    }
    true
}

/// Whether what BER reads of a type with this name is written in DER, where the types that it names are known. Elements that this version doesn't know are as they
/// came, so where they are values, it isn't.
pub fn is_body_canonical(body: &Body<'_>, name: &TypeName, names: &TypeNames) -> bool {
    match body {
        Body::Sequence(components) => {
            tail_of(components).is_none() && are_parts_canonical(components.parts.as_slice(), names)
        }
        Body::Set(components) => {
            name.unread.is_none() && are_parts_canonical(components.parts.as_slice(), names)
        }
        Body::Choice(choice) => {
            !name.is_open && are_alternatives_canonical(choice.alternatives.as_slice(), names)
        }
        Body::Enumerated(_) => true,
        Body::Value(notation) | Body::Alias(notation) => is_canonical(notation, names),
    }
}
