//! The head of a source: the notation of the type, as the module has it.

use crate::differences::{
    Difference, inner_differences, large_numbers, rejects_additions, rejects_elements,
};
use crate::terms::TypeName;
use crate::text::Text;
use asn1_syntax::tree::{Assignment, Module};
use asn1_syntax::{Token, lex};
use asn1_types::model::{Body, Components, Definition, Place, Presence};
use std::alloc::{AllocError, Global};

/// A module: its source, and its tree.
#[derive(Clone, Copy)]
pub struct ModuleSource<'a> {
    /// The source.
    pub source: &'a [u8],
    /// The tree.
    pub tree: &'a Module<'a>,
}

fn name_of<'a>(assignment: &Assignment<'a>) -> Token<'a> {
    match assignment {
        Assignment::Type(name, _)
        | Assignment::Value(name, _, _)
        | Assignment::ParameterizedType(name, _, _)
        | Assignment::ParameterizedValue(name, _, _, _)
        | Assignment::Class(name, _, _) => *name,
    }
}

// The offset where an assignment begins, or that of the end.
fn start_of(module: ModuleSource<'_>, assignment: usize) -> usize {
    match module.tree.assignments.get(assignment) {
        Some(found) => name_of(found).offset,
        None => module.source.len(),
    }
}

// The offset where the last lexical item between two offsets ends, but for a last END.
fn end_between(tokens: &[Token<'_>], start: usize, limit: usize) -> usize {
    let mut end = start;
    for token in tokens {
        if token.offset < start {
            continue;
        }
        if token.offset >= limit || token.text == b"END".as_slice() {
            break;
        }
        end = token.offset.saturating_add(token.text.len());
    }
    end
}

// The text of an assignment.
fn assignment_text<'a>(alloc: Global, module: ModuleSource<'a>, assignment: usize) -> &'a [u8] {
    let start = start_of(module, assignment);
    let limit = start_of(module, assignment.saturating_add(1));
    let Ok(tokens) = lex(alloc, module.source) else {
        return b"";
    };
    let end = end_between(tokens.as_slice(), start, limit);
    match module.source.get(start..end) {
        Some(text) => text,
        None => b"",
    }
}

// Appends lines of a text as comments.
fn put_lines(text: &[u8], out: &mut Text) {
    out.say("//! ");
    for octet in text {
        match *octet {
            b'\n' => out.say("\n//! "),
            b'\t' => out.say("    "),
            b'\r' => {}
            other => out.put_octet(other),
        }
    }
    out.say("\n");
}

/// A part of a SEQUENCE or a SET, or an alternative of a CHOICE.
#[derive(Clone, Copy)]
struct NamedPart<'a> {
    /// Where its name is.
    place: Place,
    /// Its name.
    name: &'a [u8],
}

// The parts or the alternatives of a type.
fn named_parts<'a>(alloc: Global, body: &Body<'a>) -> Result<Vec<NamedPart<'a>>, AllocError> {
    let mut found = Vec::new(alloc);
    match body {
        Body::Sequence(components) | Body::Set(components) => {
            for part in components.parts.iter() {
                found.push(NamedPart {
                    place: part.place,
                    name: part.name,
                })?;
            }
        }
        Body::Choice(choice) => {
            for alternative in choice.alternatives.iter() {
                found.push(NamedPart {
                    place: alternative.place,
                    name: alternative.name,
                })?;
            }
        }
        Body::Enumerated(_) | Body::Value(_) | Body::Alias(_) => {}
    }
    Ok(found)
}

// The offset where the assignment that a place is in begins.
fn start_before(modules: &[ModuleSource<'_>], place: Place) -> usize {
    let Some(module) = modules.get(place.module) else {
        return 0;
    };
    let mut start = 0;
    for assignment in module.tree.assignments.iter() {
        let offset = name_of(assignment).offset;
        if start < offset && offset <= place.offset {
            start = offset;
        }
    }
    start
}

// The part that a place is in: of those of its assignment whose names are before it, the last one.
fn part_at<'a>(
    modules: &[ModuleSource<'_>],
    parts: &[NamedPart<'a>],
    place: Place,
) -> Option<NamedPart<'a>> {
    let mut start = start_before(modules, place);
    let mut found: Option<NamedPart<'a>> = None;
    for part in parts {
        let own = part.place;
        if own.module == place.module && start <= own.offset && own.offset <= place.offset {
            start = own.offset;
            found = Some(*part);
        }
    }
    found
}

// Appends why a type accepts more, and the name of the part where it does.
fn put_difference(
    modules: &[ModuleSource<'_>],
    parts: &[NamedPart<'_>],
    difference: Difference,
    out: &mut Text,
) {
    if let Some(part) = part_at(modules, parts, difference.place) {
        out.say("`");
        out.put(part.name);
        out.say("`: ");
    }
    out.say(difference.text);
}

/// Appends why a type accepts more than its module says: each reason between the first text and the last one.
pub fn put_differences(
    alloc: Global,
    modules: &[ModuleSource<'_>],
    body: &Body<'_>,
    differences: &[Difference],
    first: &str,
    last: &str,
    out: &mut Text,
) {
    let Ok(parts) = named_parts(alloc, body) else {
        out.cut();
        return;
    };
    for one in differences {
        out.say(first);
        put_difference(modules, parts.as_slice(), *one, out);
        out.say(last);
    }
}

// Appends how a type differs from its module, after a text that says it.
fn put_reasons(
    alloc: Global,
    modules: &[ModuleSource<'_>],
    body: &Body<'_>,
    heading: &str,
    differences: Result<Vec<Difference>, AllocError>,
    out: &mut Text,
) {
    let Ok(differences) = differences else {
        out.cut();
        return;
    };
    if differences.is_empty() {
        return;
    }
    out.say(heading);
    let all = differences.as_slice();
    put_differences(alloc, modules, body, all, "//! - ", ".\n", out);
}

// Whether earlier versions leave out parts that are mandatory in this one.
fn has_addition(components: &Components<'_>) -> bool {
    for part in components.parts.iter() {
        if part.is_addition && matches!(&part.presence, Presence::Required) {
            return true;
        }
    }
    false
}

// What a SEQUENCE leaves out, and what it adds.
fn sequence_text(components: &Components<'_>) -> &'static str {
    match (rejects_elements(components), has_addition(components)) {
        (true, true) =>
            "//!\n//! An element that a later version may add is rejected. A part after `...` may be absent, as in an earlier version.\n",
        (true, false) => "//!\n//! An element that a later version may add is rejected.\n",
        (false, true) => "//!\n//! A part after `...` may be absent, as in an earlier version.\n",
        (false, false) => "",
    }
}

// What a type has that its source leaves out.
fn missing_text(body: &Body<'_>, is_open: bool) -> &'static str {
    match body {
        Body::Sequence(components) => sequence_text(components),
        Body::Choice(_) if rejects_additions(body, is_open) => {
            "//!\n//! An alternative that a later version may add is rejected.\n"
        }
        _ => "",
    }
}

/// Appends the path of a type: its name, and for a type inside another one the components that lead to it.
pub fn put_path(path: &[&[u8]], out: &mut Text) {
    let mut is_first = true;
    for name in path {
        if !is_first {
            out.say(".");
        }
        is_first = false;
        out.put(*name);
    }
}

// Appends why the components of a SET aren't read.
fn put_unread(name: &TypeName, out: &mut Text) {
    if let Some(reason) = name.unread {
        out.say("//!\n//! Its elements are as they came: ");
        out.say(reason);
        out.say(".\n");
    }
}

// What is before the reasons why a type accepts more.
const LOOSER: &str = "//!\n//! It accepts more than the module says:\n//!\n";

// What is before the parts of which numbers are rejected.
const LARGE: &str = "//!\n//! It rejects numbers that the module allows:\n//!\n";

/// Appends the head of the source of a type with this name.
pub fn put_head(
    alloc: Global,
    modules: &[ModuleSource<'_>],
    definition: &Definition<'_>,
    name: &TypeName,
    out: &mut Text,
) {
    out.say("//! `");
    put_path(definition.path.as_slice(), out);
    out.say("`");
    let Some(module) = modules.get(definition.place.module) else {
        out.say(".\n");
        return;
    };
    let tree = module.tree;
    out.say(" of the module ");
    out.put(tree.name.text);
    out.say(".\n//!\n//! ```text\n");
    put_lines(assignment_text(alloc, *module, definition.assignment), out);
    out.say("//! ```\n");
    put_unread(name, out);
    out.say(missing_text(&definition.body, name.is_open));
    let body = &definition.body;
    let more = inner_differences(alloc, definition);
    put_reasons(alloc, modules, body, LOOSER, more, out);
    let large = large_numbers(alloc, definition, name);
    put_reasons(alloc, modules, body, LARGE, large, out);
}
