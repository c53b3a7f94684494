//! Whether the orders of elements by tags and by octets agree (X.690, 10.3 and 11.6).
//!
//! Two elements disagree if one has the lower tag, and the other the lower octets. By octets, elements of two tags are in the order of their
//! identifiers. Those of one class, one bit and one size are in the order of their numbers. So what agrees with the least and the greatest
//! number among these agrees with those between. Two elements are remembered of each such shape, of which there are at most 88.
ghost use Rattle.std.specs.Prelude.{◌≡◌, ◌↔◌, IsTrue, IfOk, OnOk, List};
ghost use Rattle.yasna_base.specs.Set.{SetPart};
ghost use Rattle.asn1der_convert.specs.Agreement.{Agree, AgreesWithAll, ShapeAt, PlaceAt, Widens, Remembers};
ghost use Rattle.asn1der_convert.specs.Rows.{AreElements, part_of};
ghost use Rattle.asn1der_convert.specs.SetOrder.{IsOrderKnown};

use crate::elements::first_element;
use crate::set_order::{SetOrder, is_before};
use std::alloc::{AllocError, Global};
use yasna_base::bytes::identifier::read_identifier;
use yasna_base::tag::{PCBit, TagClass};
use yasna_bytes::bytes::walk::RawElement;

// What an identifier is besides its number: its class, its bit and how many octets it has.
#[derive(Clone, Copy, PartialEq, Eq)]
struct Shape {
    class: TagClass,
    bit: PCBit,
    size: usize,
}

// The elements with the least and the greatest number among those whose identifiers have a shape.
#[derive(Clone, Copy)]
struct Bounds<'a> {
    shape: Shape,
    least: RawElement<'a>,
    greatest: RawElement<'a>,
}

// Whether neither of two elements is before the other by tags and after it by octets.
fn agrees(element: RawElement<'_>, other: RawElement<'_>) -> bool
    ensures { IsTrue result ↔ Agree (part_of element.entry) (part_of other.entry) }
{
    if is_before(SetOrder::Tags, element, other) {
        return !is_before(SetOrder::Octets, other, element);
    }
    if is_before(SetOrder::Tags, other, element) {
        return !is_before(SetOrder::Octets, element, other);
    }
    true
}

// Whether an element agrees with all bounds.
fn agrees_with_all(element: RawElement<'_>, all: &[Bounds<'_>]) -> bool
    ensures { IsTrue result ↔ AgreesWithAll (part_of element.entry) all.now }
{
    for bounds in all {
        if !agrees(element, bounds.least) || !agrees(element, bounds.greatest) {
            return false;
        }
    }
    true
}

// The shape of the identifier that bytes begin with.
fn shape_of(bytes: &[u8]) -> Option<Shape>
    ensures { ShapeAt bytes.now result }
{
    match read_identifier(bytes) {
        Ok((tag, bit, rest)) => Some(Shape {
            class: tag.tag_class,
            bit,
            size: bytes.len() - rest.len(),
        }),
        Err(_) => None,
    }
}

fn is_shape(found: Shape, expected: Shape) -> bool
    ensures { IsTrue result ↔ (found ≡ expected) }
{
    found == expected
}

// The place of the bounds with a shape.
fn place_of(all: &[Bounds<'_>], shape: Shape) -> Option<usize>
    ensures { PlaceAt all.now shape result }
{
    let mut place = 0;
    while place < all.len() {
        if is_shape(all[place].shape, shape) {
            return Some(place);
        }
        place += 1;
    }
    None
}

// The bounds of what was within these and one more element of their shape.
fn widened<'a>(bounds: Bounds<'a>, element: RawElement<'a>) -> Bounds<'a>
    ensures { Widens bounds.entry element.entry result }
{
    if element.tag.tag_number < bounds.least.tag.tag_number {
        return Bounds {
            shape: bounds.shape,
            least: element,
            greatest: bounds.greatest,
        };
    }
    if bounds.greatest.tag.tag_number < element.tag.tag_number {
        return Bounds {
            shape: bounds.shape,
            least: bounds.least,
            greatest: element,
        };
    }
    bounds
}

// Remembers an element: what agrees with all bounds from then on agrees with it too.
fn remember<'a>(all: &mut Vec<Bounds<'a>>, element: RawElement<'a>) -> Result<(), AllocError>
    ensures { OnOk result (Remembers all.old.items element.entry all.new.items) }
{
    let Some(shape) = shape_of(element.bytes) else {
        // No element is without an identifier.
        return Ok(());
    };
    match place_of(all, shape) {
        Some(place) => {
            all[place] = widened(all[place], element);
        }
        None => {
            all.push(Bounds {
                shape,
                least: element,
                greatest: element,
            })?;
        }
    }
    Ok(())
}

/// Whether these elements, put in the order of a SET OF, are in that of a SET too.
pub fn is_order_known(alloc: Global, elements: &[u8]) -> Result<bool, AllocError>
    ensures { IfOk result (λ known. (ps : List SetPart) → AreElements ps elements.now → IsTrue known ↔ IsOrderKnown ps) }
{
    let mut all = Vec::new(alloc);
    let mut left = elements;
    while let Some((element, rest)) = first_element(left) {
        if !agrees_with_all(element, &all) {
            return Ok(false);
        }
        remember(&mut all, element)?;
        left = rest;
    }
    Ok(true)
}
