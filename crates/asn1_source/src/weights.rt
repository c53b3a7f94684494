//! How much it takes to find that the parts of a file are a notation, by which long ones are cut into several files.
//!
//! Where a function of a notation is called, the checker proves that it is one, with all that it is made of, and rejects a proof of too many steps
//! ("overflow evaluating the requirement"). A wrapper nearly doubles these steps. So does a part that may be absent, for what follows it: a pair that
//! begins with `Optional` or `Default` is tried as a mandatory part too.
//!
//! The numbers were fitted to 152 shapes, of which the checker accepted half. Of 3,546 types of real modules that were cut by their count of parts alone
//! it rejected 13. The lightest of these weighs 28,670. Some types that it accepted weigh more than `MOST`, and are cut anyway.

use crate::defaults::has_tested_default;
use crate::open_choices::may_be_absent;
use crate::parts::{Field, Fields, is_last};
use crate::shapes::size_of;
use crate::terms::TypeNames;
use asn1_types::model::Notation;

// The weight of a notation without a wrapper.
const PLAIN: u64 = 100;

// The weight of no parts, and of those in another file.
const END: u64 = 466;

// The most that the parts of one file weigh.
const MOST: u64 = 27000;

// The weight of a notation in a wrapper more.
fn wrapped(weight: u64) -> u64 {
    weight.saturating_mul(7) / 4 + 133
}

// How many wrappers a notation has around what is inside: tags, lists, bounds and sizes.
fn own_wrappers(notation: &Notation, names: &TypeNames) -> usize {
    let own = match notation {
        Notation::SequenceOf(_, _) | Notation::SetOf(_, _) | Notation::Tagged(_, _) => 1,
        Notation::OctetsUnder(_) => 1,
        Notation::ElementsUnder(_) => 2,
        Notation::Integer(bounds, _) if bounds.low.is_some() || bounds.high.is_some() => 1,
        _ => match names.named(notation) {
            Some(name) if name.is_enumeration => name.tags.len(),
            _ => 0,
        },
    };
    match size_of(notation) {
        Some(_) => own.saturating_add(1),
        None => own,
    }
}

// How many wrappers a notation has in all.
fn wrappers(notation: &Notation, names: &TypeNames) -> usize {
    let mut count = 0usize;
    let mut current = notation;
    loop {
        count = count.saturating_add(own_wrappers(current, names));
        current = match current {
            Notation::SequenceOf(inner, _) => &**inner,
            Notation::SetOf(inner, _) => &**inner,
            Notation::Tagged(_, inner) => &**inner,
            _ => return count,
        };
    }
}

// The weight of a part's notation.
fn part_weight(field: &Field<'_, '_>, names: &TypeNames) -> u64 {
    let mut weight = PLAIN;
    for _ in 0..wrappers(&field.part.notation, names) {
        weight = wrapped(weight);
    }
    match &field.under {
        Some(_) => wrapped(weight),
        None => weight,
    }
}

// Whether a part is a pair that begins with `Optional` or `Default`.
fn is_tried_twice(field: &Field<'_, '_>) -> bool {
    may_be_absent(field.part) && !has_tested_default(field.part) && !is_last(field.part)
}

// The weight of a part and of those after it.
fn with_part(field: &Field<'_, '_>, is_in_tail: bool, names: &TypeNames, after: u64) -> u64 {
    let own = part_weight(field, names);
    if is_tried_twice(field) && !is_in_tail {
        let part = own.saturating_mul(282) / 100;
        return part
            .saturating_add(after.saturating_mul(2))
            .saturating_add(332);
    }
    let part = own.saturating_mul(177) / 100;
    let others = after.saturating_mul(6) / 5;
    part.saturating_add(others).saturating_add(18)
}

/// Whether the first of these parts are light enough for one file.
pub fn are_light(fields: &Fields<'_, '_>, count: usize, names: &TypeNames) -> bool {
    let mut weight = END;
    for back in 1..count.saturating_add(1) {
        let place = count.saturating_sub(back);
        let Some(field) = fields.at(place) else { break };
        let is_in_tail = match fields.tail {
            Some(start) => place >= start,
            None => false,
        };
        weight = with_part(&field, is_in_tail, names, weight);
    }
    if fields.is_tagged {
        weight = wrapped(weight);
    }
    weight <= MOST
}
