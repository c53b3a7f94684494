//! Where a type differs from its module: why it accepts more, and whether it rejects numbers past 64 bits or what a later version adds.

use crate::defaults::{has_number_default, has_tested_default, untagged};
use crate::extension::tail_of;
use crate::shapes::integer_shape;
use crate::terms::TypeName;
use asn1_types::model::{Body, Components, Definition, Loosening, Looser, Notation, Part, Place};
use std::alloc::{AllocError, Global};

/// A place where a type accepts more than its module says, or less.
#[derive(Clone, Copy)]
pub struct Difference {
    /// The place.
    pub place: Place,
    /// Why.
    pub text: &'static str,
}

// Why a type accepts more than its module says.
fn looser_text(what: Loosening) -> &'static str {
    match what {
        Loosening::Constraint => "a constraint isn't tested",
        Loosening::InnerConstraint => "a constraint of components isn't tested",
        Loosening::Contents => "the contents of a string aren't read",
        Loosening::OpenType => "an open type is any element",
        Loosening::Parameter => "a parameter isn't applied",
        Loosening::Missing => "a type that no module gives is any element",
        Loosening::Additions =>
            "a mandatory addition may be absent though a later one, or another one of its group, is there",
        Loosening::Default => "a part with a default may be encoded though it is the default",
        Loosening::Recursion => "a type inside itself is read as it came",
        Loosening::Characters => "the characters of a string aren't read",
        Loosening::Contained => "the contents of a value aren't read",
    }
}

fn difference_of(looser: Looser) -> Difference {
    Difference {
        place: looser.place,
        text: looser_text(looser.what),
    }
}

// Appends the parts from a place on whose default isn't tested there, though it could be.
fn push_untested(
    components: &Components<'_>,
    start: usize,
    all: &mut Vec<Difference>,
) -> Result<(), AllocError> {
    for (place, part) in components.parts.iter().enumerate() {
        if place >= start && has_tested_default(part) {
            all.push(difference_of(Looser {
                place: part.place,
                what: Loosening::Default,
            }))?;
        }
    }
    Ok(())
}

// Appends the parts at the end of an extensible SEQUENCE whose default isn't tested there.
fn push_defaults(body: &Body<'_>, all: &mut Vec<Difference>) -> Result<(), AllocError> {
    match body {
        Body::Sequence(components) => match tail_of(components) {
            Some(start) => push_untested(components, start, all),
            None => Ok(()),
        },
        Body::Set(_) | Body::Choice(_) | Body::Enumerated(_) | Body::Value(_) | Body::Alias(_) =>
            Ok(()),
    }
}

/// Where a type accepts more than its module says, but for the components of a SET.
pub fn inner_differences(
    alloc: Global,
    definition: &Definition<'_>,
) -> Result<Vec<Difference>, AllocError> {
    let mut all = Vec::new(alloc);
    for looser in definition.looser.iter() {
        all.push(difference_of(*looser))?;
    }
    push_defaults(&definition.body, &mut all)?;
    Ok(all)
}

/// Where a type accepts more than its module says.
pub fn differences_of(
    alloc: Global,
    definition: &Definition<'_>,
    name: &TypeName,
) -> Result<Vec<Difference>, AllocError> {
    let mut all = inner_differences(alloc, definition)?;
    if let Some(text) = name.unread {
        let place = definition.place;
        all.push(Difference { place, text })?;
    }
    Ok(all)
}

// Whether numbers of a part are rejected that its module allows: it has a default, for which 64 bits are read.
fn rejects_large(part: &Part<'_>) -> bool {
    match untagged(&part.notation) {
        Notation::Integer(bounds, _) if has_number_default(part) => {
            integer_shape(*bounds, false)
                .form
                .notation
                .contains("BigInteger")
        }
        _ => false,
    }
}

// Appends the parts that reject numbers of more than 64 bits.
fn push_large(components: &Components<'_>, all: &mut Vec<Difference>) -> Result<(), AllocError> {
    for part in components.parts.iter() {
        if rejects_large(part) {
            all.push(Difference {
                place: part.place,
                text: "a number past 64 bits is rejected",
            })?;
        }
    }
    Ok(())
}

/// Where a type rejects numbers that its module allows, unless it is a SET whose elements are as they came.
pub fn large_numbers(
    alloc: Global,
    definition: &Definition<'_>,
    name: &TypeName,
) -> Result<Vec<Difference>, AllocError> {
    let mut all = Vec::new(alloc);
    match &definition.body {
        Body::Sequence(components) => push_large(components, &mut all)?,
        Body::Set(components) if name.unread.is_none() => push_large(components, &mut all)?,
        _ => {}
    }
    Ok(all)
}

/// Whether a SEQUENCE rejects the elements that a later version may add.
pub fn rejects_elements(components: &Components<'_>) -> bool {
    components.extension.is_some() && tail_of(components).is_none()
}

/// Whether a type rejects what a later version may add. `is_open`: an alternative that this version doesn't know is a value.
pub fn rejects_additions(body: &Body<'_>, is_open: bool) -> bool {
    match body {
        Body::Sequence(components) => rejects_elements(components),
        Body::Choice(choice) => choice.is_extensible && !is_open,
        Body::Set(_) | Body::Enumerated(_) | Body::Value(_) | Body::Alias(_) => false,
    }
}
