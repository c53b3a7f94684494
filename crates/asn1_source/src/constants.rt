//! The constants of a crate: named numbers and bits, and values that modules assign.

use crate::naming::{is_used, keep, with_ending};
use crate::text::Text;
use crate::type_source::{CrateSource, Files};
use crate::words::put_snake;
use asn1_types::model::{Constant, Integer, Value};
use std::alloc::{AllocError, Global};

// The name of a constant: that of its type, if it is of one, and its own, in capitals.
fn constant_name(alloc: Global, constant: &Constant<'_>) -> Text {
    let mut text = Text::new(alloc);
    if let Some(of) = constant.of {
        put_snake(of, &mut text);
        text.say("_");
    }
    put_snake(constant.name, &mut text);
    let mut capitals = Text::new(alloc);
    for octet in text.as_slice() {
        capitals.put_octet(octet.to_ascii_uppercase());
    }
    capitals
}

// Appends the value of a number.
fn put_integer(number: Integer, out: &mut Text) {
    if number.is_negative && number.magnitude > 9223372036854775808 {
        out.say("i128 = -");
    } else if number.is_negative {
        out.say("i64 = -");
    } else if number.magnitude > 9223372036854775807 {
        out.say("u64 = ");
    } else {
        out.say("i64 = ");
    }
    out.put_number(number.magnitude);
}

// Appends arcs.
fn put_arcs(arcs: &[u64], out: &mut Text) {
    out.say("[u64; ");
    out.put_number(arcs.len() as u64);
    out.say("] = [");
    let mut is_first = true;
    for arc in arcs {
        if !is_first {
            out.say(", ");
        }
        is_first = false;
        out.put_number(*arc);
    }
    out.say("]");
}

// Appends the characters of a string as Rust writes them. `""` is one quotation mark, and spaces around the end of a line are no part of the
// string (X.680, 12.14).
fn put_characters(text: &[u8], out: &mut Text) {
    let mut spaces = 0usize;
    let mut is_quoted = false;
    let mut is_begun = true;
    for octet in text {
        match *octet {
            b' ' => {
                spaces = spaces.saturating_add(1);
                continue;
            }
            b'\n' | b'\r' => {
                spaces = 0;
                is_begun = false;
                continue;
            }
            _ => {}
        }
        out.repeat(" ", if is_begun { spaces } else { 0 });
        spaces = 0;
        is_begun = true;
        is_quoted = *octet == b'"' && !is_quoted;
        match *octet {
            b'\\' => out.say("\\\\"),
            b'"' if !is_quoted => {}
            b'"' => out.say("\\\""),
            other => out.put_octet(other),
        }
    }
    out.repeat(" ", if is_begun { spaces } else { 0 });
}

// Appends the type and the value of a constant.
fn put_value(value: &Value<'_>, out: &mut Text) {
    match value {
        Value::Boolean(true) => out.say("bool = true"),
        Value::Boolean(false) => out.say("bool = false"),
        Value::Integer(number) => put_integer(*number, out),
        Value::Bit(place) => {
            out.say("usize = ");
            out.put_number(*place);
        }
        Value::ObjectIdentifier(arcs) => put_arcs(arcs.as_slice(), out),
        Value::Text(text) => {
            out.say("&str = \"");
            put_characters(*text, out);
            out.say("\"");
        }
    }
}

// Appends which constant of the modules it is, and of which of them, if a constant before it has its name in Rust.
fn put_comment(
    constant: &Constant<'_>,
    source: &CrateSource<'_, '_>,
    is_second: bool,
    out: &mut Text,
) {
    out.say("\n/// `");
    out.put(constant.name);
    if let Some(of) = constant.of {
        out.say("` of `");
        out.put(of);
    }
    if let (true, Some(module)) = (is_second, source.modules.get(constant.place.module)) {
        let tree = module.tree;
        out.say("` of the module `");
        out.put(tree.name.text);
    }
    out.say("`.\n");
}

// Appends a constant after its comment.
fn put_constant(constant: &Constant<'_>, name: &[u8], out: &mut Text) {
    out.say(match &constant.value {
        Value::ObjectIdentifier(_) => "pub static ",
        _ => "pub const ",
    });
    out.put(name);
    out.say(": ");
    put_value(&constant.value, out);
    out.say(";\n");
}

// Appends a constant and its comment, under a name that differs from those before it.
fn add_constant(
    alloc: Global,
    source: &CrateSource<'_, '_>,
    constant: &Constant<'_>,
    names: &mut Vec<Vec<u8>>,
    out: &mut Text,
) -> Result<(), AllocError> {
    let own = constant_name(alloc, constant);
    let is_second = is_used(names.as_slice(), own.as_slice());
    let text = with_ending(names.as_slice(), own, "_2");
    let name = keep(names, alloc, text)?;
    put_comment(constant, source, is_second, out);
    put_constant(constant, name.as_slice(), out);
    Ok(())
}

/// Adds the file of constants, if there are any, and returns whether there are.
pub fn add_constants(
    alloc: Global,
    source: &CrateSource<'_, '_>,
    files: &mut Files,
) -> Result<bool, AllocError> {
    let mut names: Vec<Vec<u8>> = Vec::new(alloc);
    let mut text = Text::new(alloc);
    text.say(
        "//! Named numbers, named bits and values of the modules. An object identifier is its arcs.\n",
    );
    for constant in source.constants {
        add_constant(alloc, source, constant, &mut names, &mut text)?;
    }
    if names.is_empty() {
        return Ok(false);
    }
    files.add("src/", b"constants", ".rt", text)?;
    Ok(true)
}
