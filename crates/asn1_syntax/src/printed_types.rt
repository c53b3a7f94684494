//! The lexical items of types, of whatever depth.
ghost use Rattle.std.specs.Prelude.{◌≡◌, map, OnOk};
ghost use Rattle.asn1_syntax.specs.Printing.{prepended};
ghost use Rattle.asn1_syntax.specs.Tree.{comma_then, component_texts, component_then, components_then, part_texts, part_then, type_then};

use crate::prepended::Prepended;
use crate::printed_notation::{constraints, exception, list_head, plain, presence, tag, version};
use crate::tree::{Component, Part, TypeNotation};
use std::alloc::AllocError;

/// Prepends a type.
#[cycle(printed_types)]
pub fn type_notation<'a>(
    out: &mut Prepended<'a>,
    notation: &TypeNotation<'a>,
) -> Result<(), AllocError>
    ensures { OnOk result (prepended out.new ≡ type_then notation.now (prepended out.old)) }
{
    match notation {
        TypeNotation::Plain(inner) => plain(out, inner),
        TypeNotation::Tagged(head, inner) => {
            type_notation(out, inner)?;
            tag(out, head)
        }
        TypeNotation::Selected(name, inner) => {
            type_notation(out, inner)?;
            out.word("<")?;
            out.text(name.text)
        }
        TypeNotation::ListOf(head, inner) => {
            type_notation(out, inner)?;
            list_head(out, head)
        }
        TypeNotation::Constructed(word, parts) => {
            out.word("}")?;
            components(out, parts.as_slice())?;
            out.word("{")?;
            out.text(word.text)
        }
        TypeNotation::Constrained(inner, after) => {
            constraints(out, after.as_slice())?;
            type_notation(out, inner)
        }
    }
}

// Prepends the parts in the braces of a SEQUENCE, a SET or a CHOICE.
#[cycle(printed_types)]
fn components<'a>(
    out: &mut Prepended<'a>,
    components: &[Component<'a, TypeNotation<'a>>],
) -> Result<(), AllocError>
    ensures { OnOk result (prepended out.new ≡ components_then (map component_texts components.now) (prepended out.old)) }
{
    let mut left = components.len();
    while left > 0 {
        left -= 1;
        component(out, &components[left])?;
    }
    Ok(())
}

/// Prepends a comma, if one is there.
pub fn comma(out: &mut Prepended<'_>, comma: bool) -> Result<(), AllocError>
    ensures { OnOk result (prepended out.new ≡ comma_then comma (prepended out.old)) }
{
    if comma { out.word(",") } else { Ok(()) }
}

// Prepends a part, and the comma before it.
#[cycle(printed_types)]
fn component<'a>(
    out: &mut Prepended<'a>,
    component: &Component<'a, TypeNotation<'a>>,
) -> Result<(), AllocError>
    ensures { OnOk result (prepended out.new ≡ component_then (component_texts component.now) (prepended out.old)) }
{
    part(out, &component.part)?;
    comma(out, component.comma)
}

// Prepends a part.
#[cycle(printed_types)]
fn part<'a>(out: &mut Prepended<'a>, part: &Part<'a, TypeNotation<'a>>) -> Result<(), AllocError>
    ensures { OnOk result (prepended out.new ≡ part_then (part_texts part.now) (prepended out.old)) }
{
    match part {
        Part::Named(name, inner, after) => {
            presence(out, after)?;
            type_notation(out, inner)?;
            out.text(name.text)
        }
        Part::ComponentsOf(inner) => {
            type_notation(out, inner)?;
            out.word("OF")?;
            out.word("COMPONENTS")
        }
        Part::Extension(after) => {
            exception(out, after)?;
            out.word("...")
        }
        Part::GroupStart(number) => {
            version(out, number)?;
            out.word("[[")
        }
        Part::GroupEnd => out.word("]]"),
    }
}
