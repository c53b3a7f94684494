//! The values that have a name: value assignments, named numbers and named bits.

use crate::builtins::{Builtin, builtin_of};
use crate::cores::{TypeAt, braces, core, first_word, untagged};
use crate::model::{Constant, Place, Value};
use crate::plain::at;
use crate::problem::{Problem, Stop};
use crate::scope::Scope;
use crate::tokens::{NamedItem, is, named_items, next_item};
use crate::values::{identifier_value, integer_value, item_number};
use asn1_syntax::tree::{Assignment, Module, TypeNotation};
use asn1_syntax::{Token, TokenKind};
use std::alloc::Global;

/// Constants, and why values have none.
#[derive(Drop)]
pub struct Constants<'a> {
    /// The constants.
    pub list: Vec<Constant<'a>>,
    /// Why values are rejected.
    pub problems: Vec<Problem>,
}

/// What a value is.
#[derive(Clone, Copy)]
enum ValueKind {
    Boolean,
    Integer,
    ObjectIdentifier,
    Text,
    Other,
}

// What the values of a type are.
fn kind_of<'a>(scope: Scope<'a>, at: TypeAt<'a>) -> ValueKind {
    let Ok(found) = core(scope, at, true) else {
        return ValueKind::Other;
    };
    let Some(word) = first_word(found.notation) else {
        return ValueKind::Other;
    };
    match builtin_of(word.text) {
        Some(Builtin::Boolean) => ValueKind::Boolean,
        Some(Builtin::Integer) => ValueKind::Integer,
        Some(Builtin::ObjectIdentifier) => ValueKind::ObjectIdentifier,
        Some(Builtin::Text(_)) => ValueKind::Text,
        _ => ValueKind::Other,
    }
}

// What is between the quotation marks of a character string.
fn quoted<'a>(text: &'a [u8]) -> &'a [u8] {
    match text {
        [_, inner @ .., _] => inner,
        _ => text,
    }
}

// A value of a BOOLEAN or of a string of characters.
fn literal_value<'a>(kind: ValueKind, value: &'a [Token<'a>]) -> Option<Value<'a>> {
    match (kind, value) {
        (ValueKind::Boolean, [word]) if is(*word, b"TRUE") => Some(Value::Boolean(true)),
        (ValueKind::Boolean, [word]) if is(*word, b"FALSE") => Some(Value::Boolean(false)),
        (ValueKind::Text, [text]) if text.kind == TokenKind::CString => {
            Some(Value::Text(quoted(text.text)))
        }
        _ => None,
    }
}

// The value of an assignment, if it has a form here.
fn value_of_kind<'a>(
    alloc: Global,
    scope: Scope<'a>,
    module: usize,
    kind: ValueKind,
    value: &'a [Token<'a>],
) -> Result<Option<Value<'a>>, Stop> {
    match kind {
        ValueKind::Integer => {
            let number = integer_value(scope, module, value)?;
            Ok(Some(Value::Integer(number)))
        }
        ValueKind::ObjectIdentifier => {
            let arcs = identifier_value(alloc, scope, module, value)?;
            Ok(Some(Value::ObjectIdentifier(arcs)))
        }
        ValueKind::Boolean | ValueKind::Text | ValueKind::Other => Ok(literal_value(kind, value)),
    }
}

// Adds the constant of a value assignment.
fn add_value<'a>(
    alloc: Global,
    scope: Scope<'a>,
    name: Token<'a>,
    at_type: TypeAt<'a>,
    value: &'a [Token<'a>],
    constants: &mut Constants<'a>,
) -> Result<(), Stop> {
    let kind = kind_of(scope, at_type);
    let Some(value) = value_of_kind(alloc, scope, at_type.module, kind, value)? else {
        return Ok(());
    };
    constants.list.push(Constant {
        place: at(at_type.module, name),
        of: None,
        name: name.text,
        value,
    })?;
    Ok(())
}

// The value of a named number or a named bit.
fn item_value<'a>(
    scope: Scope<'a>,
    module: usize,
    item: NamedItem<'a>,
    is_bit: bool,
) -> Result<Option<Value<'a>>, Problem> {
    let Some(number) = item_number(scope, module, item)? else {
        return Ok(None);
    };
    Ok(Some(if is_bit {
        Value::Bit(number.magnitude)
    } else {
        Value::Integer(number)
    }))
}

// Adds the constants of the named numbers or bits of a type.
fn add_items<'a>(
    scope: Scope<'a>,
    name: Token<'a>,
    at_type: TypeAt<'a>,
    is_bit: bool,
    constants: &mut Constants<'a>,
) -> Result<(), Stop> {
    let braces = braces(at_type.notation);
    let mut items = named_items(braces);
    for _ in 0..braces.len() {
        let Some(item) = next_item(&mut items) else {
            return Ok(());
        };
        let Some(value) = item_value(scope, at_type.module, item, is_bit)? else {
            continue;
        };
        constants.list.push(Constant {
            place: Place {
                module: at_type.module,
                offset: item.name.offset,
            },
            of: Some(name.text),
            name: item.name.text,
            value,
        })?;
    }
    Ok(())
}

// Adds the constants of a type assignment.
fn add_type<'a>(
    scope: Scope<'a>,
    module: usize,
    name: Token<'a>,
    notation: &'a TypeNotation<'a>,
    constants: &mut Constants<'a>,
) -> Result<(), Stop> {
    let notation = untagged(notation);
    let at_type = TypeAt { module, notation };
    let Some(word) = first_word(notation) else {
        return Ok(());
    };
    match builtin_of(word.text) {
        Some(Builtin::Integer) => add_items(scope, name, at_type, false, constants),
        Some(Builtin::BitString) => add_items(scope, name, at_type, true, constants),
        _ => Ok(()),
    }
}

// Adds the constants of an assignment.
fn add_assignment<'a>(
    alloc: Global,
    scope: Scope<'a>,
    module: usize,
    assignment: &'a Assignment<'a>,
    constants: &mut Constants<'a>,
) -> Result<(), Stop> {
    match assignment {
        Assignment::Type(name, notation) => add_type(scope, module, *name, notation, constants),
        Assignment::Value(name, notation, value) => {
            let at_type = TypeAt { module, notation };
            add_value(alloc, scope, *name, at_type, value.as_slice(), constants)
        }
        _ => Ok(()),
    }
}

// Adds the constants of a module, and why values are rejected.
fn add_module<'a>(
    alloc: Global,
    scope: Scope<'a>,
    index: usize,
    module: &'a Module<'a>,
    constants: &mut Constants<'a>,
) -> Result<(), Stop> {
    for assignment in &module.assignments {
        match add_assignment(alloc, scope, index, assignment, constants) {
            Ok(()) => {}
            Err(Stop::Rejected(problem)) => constants.problems.push(problem)?,
            Err(Stop::Memory) => return Err(Stop::Memory),
        }
    }
    Ok(())
}

/// The constants of modules.
pub fn constants_of<'a>(alloc: Global, scope: Scope<'a>) -> Result<Constants<'a>, Stop> {
    let mut constants = Constants {
        list: Vec::new(alloc),
        problems: Vec::new(alloc),
    };
    for (index, module) in scope.modules.iter().enumerate() {
        add_module(alloc, scope, index, module, &mut constants)?;
    }
    Ok(constants)
}
