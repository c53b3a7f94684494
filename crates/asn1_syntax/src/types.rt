//! Types, of whatever depth.
ghost use Rattle.std.specs.Prelude.{◌≡◌, ◌∷◌, codes, map, IfOk};
ghost use Rattle.asn1_syntax.specs.Tree.{comma_then, component_texts, component_then, components_then, left, part_texts, part_then, type_then, Texts};

use crate::cursor::Cursor;
use crate::error::{Expected, SyntaxError};
use crate::notation::{constraints, exception, list_head, plain, presence, tag, version};
use crate::token::{Token, TokenKind};
use crate::tree::{Component, Part, TypeNotation};
use std::alloc::Global;

/// A type, in which types nest at most `depth` deep.
#[cycle(types)]
pub fn type_notation<'a>(
    alloc: Global,
    cursor: &mut Cursor<'_, 'a>,
    depth: usize,
) -> Result<TypeNotation<'a>, SyntaxError>
    ensures { IfOk result (λ notation. left cursor.old ≡ type_then notation (left cursor.new)) }
{
    if depth == 0 {
        return Err(cursor.missing(Expected::FewerLevels));
    }
    let inner = unconstrained(alloc, cursor, depth - 1)?;
    if !cursor.next_is("(") {
        return Ok(inner);
    }
    let constraints = constraints(alloc, cursor)?;
    Ok(TypeNotation::Constrained(Box::new(alloc, inner)?, constraints))
}

// A type without the constraints after it.
#[cycle(types)]
fn unconstrained<'a>(
    alloc: Global,
    cursor: &mut Cursor<'_, 'a>,
    depth: usize,
) -> Result<TypeNotation<'a>, SyntaxError>
    ensures { IfOk result (λ notation. left cursor.old ≡ type_then notation (left cursor.new)) }
{
    if cursor.next_is("[") {
        let tag = tag(cursor)?;
        let inner = type_notation(alloc, cursor, depth)?;
        return Ok(TypeNotation::Tagged(tag, Box::new(alloc, inner)?));
    }
    if cursor.next_is_kind(TokenKind::Identifier) {
        let name = cursor.next(Expected::Type)?;
        cursor.take("<")?;
        let inner = type_notation(alloc, cursor, depth)?;
        return Ok(TypeNotation::Selected(name, Box::new(alloc, inner)?));
    }
    constructed_or_plain(alloc, cursor, depth)
}

// Whether SEQUENCE or SET is next.
fn is_list(cursor: &Cursor<'_, '_>) -> bool {
    cursor.next_is("SEQUENCE") || cursor.next_is("SET")
}

// Whether SEQUENCE, SET or CHOICE is next, and then a brace.
fn is_constructed(cursor: &Cursor<'_, '_>) -> bool {
    (is_list(cursor) || cursor.next_is("CHOICE")) && cursor.second_is("{")
}

// The type of this word and these parts in braces.
fn constructed<'a>(
    word: Token<'a>,
    components: Vec<Component<'a, TypeNotation<'a>>>,
) -> TypeNotation<'a>
    ensures { (rest : Texts) → type_then result rest
        ≡ word.entry.text.now ∷ codes "{" ∷ components_then (map component_texts components.entry.items) (codes "}" ∷ rest) }
{
    TypeNotation::Constructed(word, components)
}

// A SEQUENCE, a SET, a CHOICE, or a type in which no other type is.
#[cycle(types)]
fn constructed_or_plain<'a>(
    alloc: Global,
    cursor: &mut Cursor<'_, 'a>,
    depth: usize,
) -> Result<TypeNotation<'a>, SyntaxError>
    ensures { IfOk result (λ notation. left cursor.old ≡ type_then notation (left cursor.new)) }
{
    if is_constructed(cursor) {
        let word = cursor.next(Expected::Type)?;
        cursor.take("{")?;
        let components = components(alloc, cursor, depth)?;
        cursor.take("}")?;
        return Ok(constructed(word, components));
    }
    if is_list(cursor) {
        let head = list_head(alloc, cursor)?;
        let inner = type_notation(alloc, cursor, depth)?;
        return Ok(TypeNotation::ListOf(head, Box::new(alloc, inner)?));
    }
    let plain = plain(alloc, cursor)?;
    Ok(TypeNotation::Plain(plain))
}

// Where a part is in the braces of a SEQUENCE, a SET or a CHOICE.
#[derive(Clone, Copy)]
struct Place {
    // Whether a comma has to be before it.
    is_after_part: bool,
    // Whether it is between `[[` and `]]`.
    is_in_group: bool,
}

// The place after a part.
fn place_after<T>(place: Place, part: &Part<'_, T>) -> Place {
    match part {
        Part::GroupStart(_) => Place {
            is_after_part: false,
            is_in_group: true,
        },
        Part::GroupEnd => Place {
            is_after_part: true,
            is_in_group: false,
        },
        Part::Named(..) | Part::ComponentsOf(_) | Part::Extension(_) => Place {
            is_after_part: true,
            is_in_group: place.is_in_group,
        },
    }
}

// The parts in the braces of a SEQUENCE, a SET or a CHOICE.
#[cycle(types)]
fn components<'a>(
    alloc: Global,
    cursor: &mut Cursor<'_, 'a>,
    depth: usize,
) -> Result<Vec<Component<'a, TypeNotation<'a>>>, SyntaxError>
    ensures { IfOk result (λ components. left cursor.old ≡ components_then (map component_texts components.items) (left cursor.new)) }
{
    let mut components = Vec::new(alloc);
    let mut place = Place {
        is_after_part: false,
        is_in_group: false,
    };
    for _ in 0..cursor.len() {
        if cursor.next_is("}") && !place.is_in_group {
            return Ok(components);
        }
        let component = component(alloc, cursor, depth, place)?;
        place = place_after(place, &component.part);
        components.push(component)?;
    }
    Err(cursor.missing(Expected::Text("}")))
}

// Whether a comma is next, which has to be there between two parts, but not before `]]`.
fn comma(cursor: &mut Cursor<'_, '_>, place: Place) -> Result<bool, SyntaxError>
    ensures { IfOk result (λ comma. left cursor.old ≡ comma_then comma (left cursor.new)) }
{
    if !place.is_after_part || cursor.next_is("]]") {
        return Ok(false);
    }
    cursor.take(",")?;
    Ok(true)
}

// A part, and the comma before it.
#[cycle(types)]
fn component<'a>(
    alloc: Global,
    cursor: &mut Cursor<'_, 'a>,
    depth: usize,
    place: Place,
) -> Result<Component<'a, TypeNotation<'a>>, SyntaxError>
    ensures { IfOk result (λ component. left cursor.old ≡ component_then (component_texts component) (left cursor.new)) }
{
    let comma = comma(cursor, place)?;
    let part = part(alloc, cursor, depth, place)?;
    Ok(Component { comma, part })
}

// A part.
#[cycle(types)]
fn part<'a>(
    alloc: Global,
    cursor: &mut Cursor<'_, 'a>,
    depth: usize,
    place: Place,
) -> Result<Part<'a, TypeNotation<'a>>, SyntaxError>
    ensures { IfOk result (λ part. left cursor.old ≡ part_then (part_texts part) (left cursor.new)) }
{
    if cursor.next_is("...") {
        cursor.take("...")?;
        let exception = exception(alloc, cursor)?;
        return Ok(Part::Extension(exception));
    }
    if cursor.next_is("[[") && !place.is_in_group {
        cursor.take("[[")?;
        let version = version(cursor)?;
        return Ok(Part::GroupStart(version));
    }
    if cursor.next_is("]]") && place.is_in_group {
        cursor.take("]]")?;
        return Ok(Part::GroupEnd);
    }
    named_part(alloc, cursor, depth)
}

// A part with a type.
#[cycle(types)]
fn named_part<'a>(
    alloc: Global,
    cursor: &mut Cursor<'_, 'a>,
    depth: usize,
) -> Result<Part<'a, TypeNotation<'a>>, SyntaxError>
    ensures { IfOk result (λ part. left cursor.old ≡ part_then (part_texts part) (left cursor.new)) }
{
    if cursor.next_is("COMPONENTS") {
        cursor.take("COMPONENTS")?;
        cursor.take("OF")?;
        let inner = type_notation(alloc, cursor, depth)?;
        return Ok(Part::ComponentsOf(inner));
    }
    let name = cursor.next_of(TokenKind::Identifier, Expected::Identifier)?;
    let inner = type_notation(alloc, cursor, depth)?;
    let presence = presence(alloc, cursor)?;
    Ok(Part::Named(name, inner, presence))
}
