//! The elements of an input, one after the other.

ghost use Rattle.std.specs.Prelude.{◌≤◌, OnOk, length};
ghost use Rattle.asn1der_typed.specs.Appending.{Extends, ExtendsFrom, PutsInOrderOf};

use crate::error::TypedError;
use crate::values::{Place, append_untyped, append_value, identifier_of};
use asn1der_convert::error::ConvertError;
use asn1der_convert::sorting::{SortKey, sort_elements};
use asn1der_convert::writing::enclose_contents;
use asn1show_schema::schema::Contents;
use asn1show_schema::{Fields, Schema};
use asn1show_walk::{Context, Item, Place as WalkPlace, Visitor, WalkError, list_input};
use std::alloc::{AllocError, Global};
use yasna_base::error::ASN1ErrorKind;
use yasna_base::mode::BERMode;
use yasna_base::tag::PCBit;
use yasna_bytes::bytes::cursor::Cursor;
use yasna_bytes::bytes::walk::raw_element;

// The levels of elements of an input.
const LEVELS: u8 = 101;

// A visitor that does nothing.
#[derive(Clone, Copy)]
struct Silent;

impl Visitor for Silent {
    ghost rejects = { λ _ _. ⊥ };

    fn visit(&mut self, _item: &Item<'_>) -> Result<(), WalkError> {
        Ok(())
    }

    fn descends_into(&self, _context: Context, _string: WalkPlace<'_>) -> bool {
        false
    }
}

// Where a conversion is.
#[derive(Drop)]
struct Conversion<'m> {
    alloc: Global,
    fields: Fields<'m>,
    // The elements in DER so far, without the headers of those that are open.
    out: Vec<u8>,
}

// The error of an element that the module doesn't allow there.
fn not_in_module(state: &Conversion<'_>, offset: usize) -> TypedError {
    match state.fields.path(state.alloc) {
        Ok(path) => TypedError::NotInModule(offset, path),
        Err(error) => TypedError::from(error),
    }
}

// The error of an element that is in more than 101 others.
fn too_deep(offset: usize) -> TypedError {
    TypedError::Convert(ConvertError::Malformed {
        offset,
        kind: ASN1ErrorKind::StackOverflow,
        expected: None,
    })
}

// Puts elements that begin at a place of the output in the order that DER has for what they are in.
fn put_in_order(
    alloc: Global,
    contents: Contents,
    start: usize,
    out: &mut Vec<u8>,
) -> Result<(), AllocError>
    requires { start ≤ length out.old.items }
    ensures stays { OnOk result (ExtendsFrom start out.old.items out.new.items) }
    ensures order { OnOk result (PutsInOrderOf contents start out.old.items out.new.items) }
{
    let bytes = out.as_mut_slice();
    let elements = &mut bytes[start..];
    match contents {
        Contents::SetOf(..) => sort_elements(alloc, SortKey::ByOctets, elements),
        Contents::InAnyOrder(_) => sort_elements(alloc, SortKey::ByTags, elements),
        _ => Ok(()),
    }
}

// Puts the header of a constructed element before its parts, which begin at a place of the output. One with no part under an EXPLICIT tag is omitted.
fn enclose(
    alloc: Global,
    place: Place<'_>,
    contents: Contents,
    start: usize,
    out: &mut Vec<u8>,
) -> Result<(), AllocError>
    requires { start ≤ length out.old.items }
    ensures { OnOk result (ExtendsFrom start out.old.items out.new.items) }
{
    match contents {
        Contents::One(_) if out.len() == start => return Ok(()),
        _ => {}
    }
    put_in_order(alloc, contents, start, out)?;
    enclose_contents(out, start, identifier_of(place))
}

// Appends a constructed element.
#[cycle(typed)]
fn convert_constructed(
    state: &mut Conversion<'_>,
    place: Place<'_>,
    contents: Contents,
    levels: u8,
) -> Result<(), TypedError>
    ensures { OnOk result (Extends state.old.out.items state.new.out.items) }
{
    let element = place.element;
    if levels == 0 {
        return Err(too_deep(place.offset));
    }
    if element.bit == PCBit::Primitive {
        return Err(not_in_module(state, place.offset));
    }
    let header = element.bytes.len().saturating_sub(element.payload.len());
    let offset = place.offset.saturating_add(header);
    let depth = place.depth.saturating_add(1);
    let start = state.out.len();
    convert_contents(state, element.payload, offset, depth, levels - 1)?;
    enclose(state.alloc, place, contents, start, &mut state.out)?;
    Ok(())
}

// Appends an element, or nothing for a part with the value of its DEFAULT.
#[cycle(typed)]
fn convert_element(
    state: &mut Conversion<'_>,
    place: Place<'_>,
    levels: u8,
) -> Result<(), TypedError>
    ensures { OnOk result (Extends state.old.out.items state.new.out.items) }
{
    let element = place.element;
    let label = state
        .fields
        .enter(place.depth, element.tag, element.payload)?;
    if label.is_unknown {
        return Err(not_in_module(state, place.offset));
    }
    match label.contents {
        Contents::Any | Contents::Selected(_) => {
            append_untyped(state.alloc, place, &mut state.out)?;
            Ok(())
        }
        Contents::Value(value) => {
            append_value(
                state.alloc,
                place,
                value,
                label.default_number,
                &mut state.out,
            )?;
            Ok(())
        }
        contents => convert_constructed(state, place, contents, levels),
    }
}

// Appends the elements in contents that begin at an offset, up to their end.
#[cycle(typed)]
fn convert_contents(
    state: &mut Conversion<'_>,
    contents: &[u8],
    offset: usize,
    depth: u8,
    levels: u8,
) -> Result<(), TypedError>
    ensures { OnOk result (Extends state.old.out.items state.new.out.items) }
{
    let mut left = contents;
    let mut offset = offset;
    for _ in 0..=contents.len() {
        let Ok((element, rest)) = raw_element(Cursor::start(left, BERMode::Ber)) else {
            return Ok(());
        };
        let place = Place {
            offset,
            depth,
            element,
        };
        convert_element(state, place, levels)?;
        offset = offset.saturating_add(element.bytes.len());
        left = rest;
    }
    Ok(())
}

/// Converts values of the type of a schema, one after the other, from BER to DER.
pub fn convert_by_type(
    alloc: Global,
    schema: &Schema,
    input: &[u8],
) -> Result<Vec<u8>, TypedError> {
    list_input(input, BERMode::Ber, &mut Silent)?;
    let mut state = Conversion {
        alloc,
        fields: Fields::new(alloc, schema),
        out: Vec::with_capacity(alloc, input.len())?,
    };
    convert_contents(&mut state, input, 0, 0, LEVELS)?;
    let Conversion { out, .. } = state;
    Ok(out)
}
