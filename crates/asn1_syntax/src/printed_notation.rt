//! The lexical items of the parts of types and of values in which no other type is.
ghost use Rattle.std.specs.Prelude.{◌≡◌, OnOk};
ghost use Rattle.asn1_syntax.specs.Printing.{prepended};
ghost use Rattle.asn1_syntax.specs.Tree.{constraints_then, exception_then, list_head_then, plain_then, presence_then, size_then, tag_then, version_then};

use crate::prepended::Prepended;
use crate::token::Token;
use crate::tree::{ListHead, ListSize, PlainType, Presence, TagNotation};
use std::alloc::AllocError;

/// Prepends a type in which no other type is.
pub fn plain<'a>(out: &mut Prepended<'a>, plain: &PlainType<'a>) -> Result<(), AllocError>
    ensures { OnOk result (prepended out.new ≡ plain_then plain.now (prepended out.old)) }
{
    out.braces(&plain.braces)?;
    out.tokens(plain.words.as_slice())
}

/// Prepends a tag.
pub fn tag<'a>(out: &mut Prepended<'a>, tag: &TagNotation<'a>) -> Result<(), AllocError>
    ensures { OnOk result (prepended out.new ≡ tag_then tag.now (prepended out.old)) }
{
    out.optional(&tag.mode)?;
    out.word("]")?;
    out.text(tag.number.text)?;
    out.optional(&tag.class)?;
    out.word("[")
}

// Prepends the constraint of a list before OF.
fn list_size<'a>(out: &mut Prepended<'a>, size: &ListSize<'a>) -> Result<(), AllocError>
    ensures { OnOk result (prepended out.new ≡ size_then size.now (prepended out.old)) }
{
    match size {
        ListSize::Any => Ok(()),
        ListSize::Size(tokens) => {
            out.parenthesized(tokens.as_slice())?;
            out.word("SIZE")
        }
        ListSize::Constraint(tokens) => out.parenthesized(tokens.as_slice()),
    }
}

/// Prepends what is before the type of a list's elements.
pub fn list_head<'a>(out: &mut Prepended<'a>, head: &ListHead<'a>) -> Result<(), AllocError>
    ensures { OnOk result (prepended out.new ≡ list_head_then head.now (prepended out.old)) }
{
    out.optional(&head.element)?;
    out.word("OF")?;
    list_size(out, &head.size)?;
    out.text(head.word.text)
}

/// Prepends whether a component may be absent.
pub fn presence<'a>(out: &mut Prepended<'a>, presence: &Presence<'a>) -> Result<(), AllocError>
    ensures { OnOk result (prepended out.new ≡ presence_then presence.now (prepended out.old)) }
{
    match presence {
        Presence::Required => Ok(()),
        Presence::Optional => out.word("OPTIONAL"),
        Presence::Default(value) => {
            out.tokens(value.as_slice())?;
            out.word("DEFAULT")
        }
    }
}

/// Prepends an exception, if there is one.
pub fn exception<'a>(
    out: &mut Prepended<'a>,
    exception: &Option<Vec<Token<'a>>>,
) -> Result<(), AllocError>
    ensures { OnOk result (prepended out.new ≡ exception_then exception.now (prepended out.old)) }
{
    match exception {
        Some(tokens) => {
            out.tokens(tokens.as_slice())?;
            out.word("!")
        }
        None => Ok(()),
    }
}

/// Prepends a version number, if there is one.
pub fn version<'a>(out: &mut Prepended<'a>, version: &Option<Token<'a>>) -> Result<(), AllocError>
    ensures { OnOk result (prepended out.new ≡ version_then version.now (prepended out.old)) }
{
    match version {
        Some(number) => {
            out.word(":")?;
            out.text(number.text)
        }
        None => Ok(()),
    }
}

/// Prepends constraints in parentheses.
pub fn constraints<'a>(
    out: &mut Prepended<'a>,
    constraints: &[Vec<Token<'a>>],
) -> Result<(), AllocError>
    ensures { OnOk result (prepended out.new ≡ constraints_then constraints.now (prepended out.old)) }
{
    let mut left = constraints.len();
    while left > 0 {
        left -= 1;
        out.parenthesized(constraints[left].as_slice())?;
    }
    Ok(())
}
