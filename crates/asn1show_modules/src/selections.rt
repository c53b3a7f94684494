//! The types that object identifiers select.
//!
//! An object of a class selects one, as in `{ SYNTAX KeyUsage IDENTIFIED BY id-ce-keyUsage }` (X.681, A.2). Without such objects it is the type whose
//! name is that of the identifier after its last hyphen, as `KeyUsage` of `id-ce-keyUsage`, or that name and `Syntax`.

use crate::builder::{Builder, NO_DEFAULT, NO_NAME};
use crate::schema::position_of;
use asn1_syntax::Token;
use asn1_syntax::tree::{Assignment, Module};
use asn1_types::model::{Constant, Definition, Value};
use std::alloc::{AllocError, Global};

// Appends a number in base 128, the highest digit first.
fn push_base128(out: &mut Vec<u8>, number: u64) -> Result<(), AllocError> {
    for index in (1..10u32).rev() {
        let left = number >> (7 * index);
        if left > 0 {
            out.push((left % 128) as u8 | 128)?;
        }
    }
    out.push((number % 128) as u8)?;
    Ok(())
}

// The contents of an object identifier (X.690, 8.19), if 64 bits hold each subidentifier.
fn contents_of(alloc: Global, arcs: &[u64]) -> Result<Option<Vec<u8>>, AllocError> {
    let mut contents = Vec::new(alloc);
    let [first, second, rest @ ..] = arcs else {
        return Ok(None);
    };
    if *first > 2 || *second >= u64::MAX - 80 {
        return Ok(None);
    }
    push_base128(&mut contents, *first * 40 + *second)?;
    for arc in rest {
        push_base128(&mut contents, *arc)?;
    }
    Ok(Some(contents))
}

// The name of the type that an identifier's name leads to.
fn type_name(alloc: Global, name: &[u8], after: &[u8]) -> Result<Vec<u8>, AllocError> {
    let last = match name.iter().rposition(|octet| *octet == b'-') {
        Some(index) => name.get(index.saturating_add(1)..).unwrap_or(name),
        None => name,
    };
    let mut found = Vec::new(alloc);
    for (index, octet) in last.iter().enumerate() {
        found.push(if index == 0 {
            octet.to_ascii_uppercase()
        } else {
            *octet
        })?;
    }
    found.extend_from_slice(after)?;
    Ok(found)
}

// Whether a lexical item is this word.
fn is(token: Option<&Token<'_>>, word: &[u8]) -> bool {
    match token {
        Some(token) => token.text == word,
        None => false,
    }
}

// The name of the type in an object that an identifier of this name identifies.
fn type_identified<'a>(tokens: &'a [Token<'a>], name: &[u8]) -> Option<&'a [u8]> {
    for index in 0..tokens.len() {
        let after = tokens.get(index..)?;
        if is(after.get(1), b"IDENTIFIED") && is(after.get(2), b"BY") && is(after.get(3), name) {
            return Some(after.first()?.text);
        }
    }
    None
}

// The name of the type that an identifier of this name selects in an object of a module.
fn type_selected<'a>(modules: &'a [Module<'a>], name: &[u8]) -> Option<&'a [u8]> {
    for module in modules {
        for assignment in &module.assignments {
            if let Assignment::Value(_, _, tokens) = assignment {
                if let Some(found) = type_identified(tokens.as_slice(), name) {
                    return Some(found);
                }
            }
        }
    }
    None
}

// The position of the type that an identifier selects.
fn position_selected<'a>(
    alloc: Global,
    modules: &'a [Module<'a>],
    definitions: &[Definition<'_>],
    name: &[u8],
) -> Result<Option<usize>, AllocError> {
    if let Some(found) = type_selected(modules, name) {
        return Ok(position_of(definitions, found));
    }
    let own = type_name(alloc, name, b"")?;
    if let Some(position) = position_of(definitions, own.as_slice()) {
        return Ok(Some(position));
    }
    let syntax = type_name(alloc, name, b"Syntax")?;
    Ok(position_of(definitions, syntax.as_slice()))
}

// Adds the type that an identifier selects, if it selects one.
fn add_selection<'a>(
    builder: &mut Builder,
    modules: &'a [Module<'a>],
    definitions: &[Definition<'_>],
    constant: &Constant<'_>,
) -> Result<(), AllocError> {
    let Value::ObjectIdentifier(arcs) = &constant.value else {
        return Ok(());
    };
    let Some(position) = position_selected(builder.alloc, modules, definitions, constant.name)?
    else {
        return Ok(());
    };
    let Some(rows) = builder.definition(position) else {
        return Ok(());
    };
    let Some(contents) = contents_of(builder.alloc, arcs.as_slice())? else {
        return Ok(());
    };
    let place = builder.add_place(NO_NAME, false, NO_DEFAULT, rows)?;
    builder.add_selected(contents.as_slice(), place)
}

/// Adds the types that the identifiers of modules select.
pub fn add_selections<'a>(
    builder: &mut Builder,
    modules: &'a [Module<'a>],
    definitions: &[Definition<'_>],
    constants: &[Constant<'_>],
) -> Result<(), AllocError> {
    for constant in constants {
        add_selection(builder, modules, definitions, constant)?;
    }
    Ok(())
}
