//! Which part of a module's type each element of a listing is.

use asn1_syntax::parse;
use asn1_syntax::tree::Module;
use asn1_types::model::KnownType;
use asn1_types::resolve;
use asn1show_modules::{position_of, schema_of};
use asn1show_schema::{Fields, Label, Schema};
use std::alloc::Global;
use std::process::Abort;
use yasna_base::tag::{Tag, TagClass};
use yasna_base::tags::{TAG_BOOLEAN, TAG_INTEGER, TAG_NULL, TAG_SEQUENCE, TAG_SET};

const C0: Tag = Tag {
    tag_class: TagClass::ContextSpecific,
    tag_number: 0,
};

const C1: Tag = Tag {
    tag_class: TagClass::ContextSpecific,
    tag_number: 1,
};

const C2: Tag = Tag {
    tag_class: TagClass::ContextSpecific,
    tag_number: 2,
};

/// An element: its depth and its tag.
type Element = (u8, Tag);

/// A source, the name of a type in it, elements, and what each is: the name of its part, with that of its alternative after a dot; `-` if it
/// has none; `?` if the type has no such element.
type Row = (
    &'static [u8],
    &'static [u8],
    &'static [Element],
    &'static str,
);

static ROWS: [Row; 7] = [
    (
        b"M DEFINITIONS ::= BEGIN A ::= SEQUENCE { a INTEGER, b [0] C OPTIONAL, d BOOLEAN DEFAULT FALSE } C ::= CHOICE { e NULL, f INTEGER } END",
        b"A",
        &[
            (0, TAG_SEQUENCE),
            (1, TAG_INTEGER),
            (1, C0),
            (2, TAG_INTEGER),
            (1, TAG_BOOLEAN),
            (1, TAG_NULL),
        ],
        "- a b -.f d ?",
    ),
    (
        b"M DEFINITIONS IMPLICIT TAGS ::= BEGIN A ::= SEQUENCE { a INTEGER OPTIONAL, b [0] SEQUENCE { c NULL }, d BOOLEAN } END",
        b"A",
        &[
            (0, TAG_SEQUENCE),
            (1, C0),
            (2, TAG_NULL),
            (2, TAG_NULL),
            (1, TAG_BOOLEAN),
        ],
        "- b c ? d",
    ),
    (
        b"M DEFINITIONS AUTOMATIC TAGS ::= BEGIN A ::= SEQUENCE { a C, ..., b NULL } C ::= CHOICE { d NULL, e C2 } C2 ::= CHOICE { f NULL, g BOOLEAN } END",
        b"A",
        &[
            (0, TAG_SEQUENCE),
            (1, C0),
            (2, C1),
            (3, C1),
            (1, C1),
            (1, C2),
        ],
        "- a -.e -.g b -",
    ),
    (
        b"M DEFINITIONS ::= BEGIN A ::= SET { a INTEGER, b BOOLEAN OPTIONAL } END",
        b"A",
        &[
            (0, TAG_SET),
            (1, TAG_BOOLEAN),
            (1, TAG_INTEGER),
            (1, TAG_NULL),
            (0, TAG_SET),
            (1, TAG_INTEGER),
            (0, TAG_SEQUENCE),
        ],
        "- b a ? - a ?",
    ),
    (
        b"M DEFINITIONS ::= BEGIN A ::= SEQUENCE OF B B ::= SEQUENCE { a ANY, b SET OF INTEGER } END",
        b"A",
        &[
            (0, TAG_SEQUENCE),
            (1, TAG_SEQUENCE),
            (2, TAG_SEQUENCE),
            (3, TAG_NULL),
            (2, TAG_SET),
            (3, TAG_INTEGER),
            (3, TAG_NULL),
            (1, TAG_SET),
        ],
        "- - a - b - ? ?",
    ),
    (
        b"M DEFINITIONS ::= BEGIN A ::= [1] IMPLICIT SEQUENCE { a [0] IMPLICIT B, b [2] EXPLICIT B } B ::= SEQUENCE { c NULL } END",
        b"A",
        &[
            (0, C1),
            (1, C0),
            (2, TAG_NULL),
            (1, C2),
            (2, TAG_SEQUENCE),
            (3, TAG_NULL),
        ],
        "- a c b - c",
    ),
    (
        b"M DEFINITIONS ::= BEGIN A ::= CHOICE { a INTEGER, b [0] EXPLICIT NULL } END",
        b"A",
        &[(0, TAG_INTEGER), (0, C0), (1, TAG_NULL), (0, TAG_NULL)],
        "-.a -.b - ?",
    ),
];

fn put(text: &mut String, name: &[u8]) {
    if let Ok(name) = std::str::from_utf8(name) {
        let _ = text.push_str(name);
    }
}

// Appends what an element is.
fn describe(text: &mut String, label: Label<'_>) {
    if !text.is_empty() {
        put(text, b" ");
    }
    if label.part.is_empty() {
        put(text, if label.is_unknown { b"?" } else { b"-" });
    }
    put(text, label.part);
    if !label.alternative.is_empty() {
        put(text, b".");
    }
    put(text, label.alternative);
}

// What elements are in a value.
fn described(alloc: Global, schema: &Schema, elements: &[Element]) -> String {
    let mut text = String::new(alloc);
    let mut fields = Fields::new(alloc, schema);
    for (depth, tag) in elements {
        if let Ok(label) = fields.enter(*depth, *tag, &[]) {
            describe(&mut text, label);
        }
    }
    text
}

// Whether the elements of a row are as it says in its modules.
fn is_described<'a>(
    alloc: Global,
    modules: &'a [Module<'a>],
    known: &'a [KnownType<'a>],
    row: &Row,
) -> bool {
    let Ok(resolved) = resolve(alloc, modules, known) else {
        return false;
    };
    let definitions = resolved.definitions.as_slice();
    let Some(position) = position_of(definitions, row.1) else {
        return false;
    };
    match schema_of(alloc, modules, &resolved, position) {
        Ok(schema) => described(alloc, &schema, row.2).as_str() == row.3,
        Err(_) => false,
    }
}

// The expected words of the first row that is otherwise. Modules are never freed, since they are lent for as long as they are.
fn first_other(
    alloc: Global,
    rows: &'static [Row],
    known: &'static [KnownType<'static>],
) -> Option<&'static str> {
    for row in rows {
        let is_so = match parse(alloc, row.0) {
            Ok(modules) => is_described(alloc, modules.leak(), known, row),
            Err(_) => false,
        };
        if !is_so {
            return Some(row.3);
        }
    }
    None
}

#[test]
fn elements_have_the_names_of_their_parts(rt: HostRuntime) {
    assert!(rt; first_other(rt.alloc(), &ROWS, &[]).is_none());
}

#[test]
fn a_type_that_is_not_there_has_no_position(rt: HostRuntime) {
    assert!(rt; position_of(&[], b"A").is_none());
}
