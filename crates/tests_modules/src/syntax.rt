//! What sources are read as. The sources are written by hand; the clauses of X.680 are named beside them.

use asn1_syntax::tree::{Assignment, Part, TagDefault, TypeNotation};
use asn1_syntax::{Expected, Place, SyntaxError, Token, lex, parse, place_at, print};
use std::alloc::Global;
use std::process::Abort;

/// A source, and its lexical items.
type Row = (&'static [u8], &'static [&'static [u8]]);

static ROWS: [Row; 10] = [
    (b"", &[]),
    (b" \t\r\n-- a comment\n", &[]),
    (b"A ::= B", &[b"A", b"::=", b"B"]),
    (b"a-b--c--d-e", &[b"a-b", b"d-e"]),
    (b"a - b-", &[b"a", b"-", b"b", b"-"]),
    (
        b"(0..15,...)",
        &[b"(", b"0", b"..", b"15", b",", b"...", b")"],
    ),
    (
        b"[[ a [1] B ]]",
        &[b"[[", b"a", b"[", b"1", b"]", b"B", b"]]"],
    ),
    (b"/* a /* b */ c */D", &[b"D"]),
    (b"'0 1'B'AF 0'H", &[b"'0 1'B", b"'AF 0'H"]),
    (b"\"a\"\"b\" \"--\"", &[b"\"a\"\"b\"", b"\"--\""]),
];

/// A source, and where and why it is rejected.
type BadRow = (&'static [u8], usize, Expected);

static BAD_ROWS: [BadRow; 6] = [
    (b"a /* b", 2, Expected::CommentEnd),
    (b"a /* /* b */", 2, Expected::CommentEnd),
    (b"a \"b\"\"", 2, Expected::StringEnd),
    (b"'02'B", 0, Expected::QuotedDigits),
    (b"'af'H", 0, Expected::QuotedDigits),
    (b"a $", 2, Expected::Item),
];

// Whether a source is read as these lexical items.
fn is_read_as(alloc: Global, source: &[u8], texts: &[&[u8]]) -> bool {
    match lex(alloc, source) {
        Ok(tokens) => {
            tokens.len() == texts.len()
                && tokens
                    .iter()
                    .zip(texts.iter())
                    .all(|(token, text)| token.text == *text)
        }
        Err(_) => false,
    }
}

#[test]
fn sources_are_read(rt: HostRuntime) {
    for (source, texts) in &ROWS {
        assert!(rt; is_read_as(rt.alloc(), source, texts), "{:?}", *source);
    }
}

#[test]
fn sources_are_rejected(rt: HostRuntime) {
    for (source, offset, expected) in &BAD_ROWS {
        let rejected = match lex(rt.alloc(), source) {
            Err(
                SyntaxError::Malformed {
                    offset: place,
                    expected: missing,
                },
            ) => place == *offset && missing == *expected,
            _ => false,
        };
        assert!(rt; rejected, "{:?}", *source);
    }
}

/// A module, and how many assignments it has.
type ModuleRow = (&'static [u8], usize);

static MODULE_ROWS: [ModuleRow; 14] = [
    (b"M DEFINITIONS ::= BEGIN END", 0),
    (
        b"M { iso 1 } DEFINITIONS IMPLICIT TAGS EXTENSIBILITY IMPLIED ::= BEGIN EXPORTS A, b; IMPORTS C, d FROM N { 2 } E FROM O; A ::= C END",
        1,
    ),
    (
        b"M DEFINITIONS ::= BEGIN IMPORTS ; A ::= BOOLEAN B ::= OCTET STRING (SIZE (1..MAX)) C ::= INTEGER { one(1) } (0..255, ...) END",
        3,
    ),
    (
        b"M DEFINITIONS ::= BEGIN A ::= SEQUENCE { a [0] EXPLICIT B OPTIONAL, b INTEGER DEFAULT -1, COMPONENTS OF C, ..., [[ 2: c D ]], ... } END",
        1,
    ),
    (
        b"M DEFINITIONS ::= BEGIN A ::= SET SIZE (1..3) OF SEQUENCE OF item CHOICE { a NULL, ..., b [APPLICATION 3] IMPLICIT N.B } END",
        1,
    ),
    (
        b"M DEFINITIONS ::= BEGIN A ::= a < B C ::= SEQUENCE { type OBJECT IDENTIFIER, value ANY DEFINED BY type } END",
        2,
    ),
    (
        b"M DEFINITIONS ::= BEGIN a OBJECT IDENTIFIER ::= { b 3 } b INTEGER ::= -5 c C ::= d : TRUE D INTEGER ::= { 1 | 2 } END",
        4,
    ),
    (
        b"M DEFINITIONS ::= BEGIN A ::= ENUMERATED { a(0), b, ..., c } B ::= BIT STRING { d(0) } (CONTAINING A) END",
        2,
    ),
    (
        b"M DEFINITIONS ::= BEGIN A ::= SEQUENCE { } B ::= P { A, { b } } END",
        2,
    ),
    (
        b"M { iso 1 } \"/ISO/1\" DEFINITIONS ::= BEGIN IMPORTS A{}, b, C{} FROM N n D FROM O { 2 } WITH SUCCESSORS e FROM P; END",
        0,
    ),
    (
        b"M DEFINITIONS ::= BEGIN C ::= CLASS { &id INTEGER UNIQUE, &Type } WITH SYNTAX { &id IS &Type } o C ::= { 1 IS A } S C ::= { o, ... } END",
        3,
    ),
    (
        b"M DEFINITIONS ::= BEGIN A { INTEGER:n, B } ::= SEQUENCE { a B (n) } b { C } C ::= { c : 1 } D {E} ::= CLASS { &F } END",
        3,
    ),
    (
        b"M DEFINITIONS ::= BEGIN A ::= SEQUENCE { a C.&id ({S}), b C.&Type ({S}{@a}), d INSTANCE OF C } B ::= N.C.&d.&Type END",
        2,
    ),
    (
        b"M DEFINITIONS ::= BEGIN a A ::= b { 1 } c INTEGER ::= o.&id D ::= SEQUENCE { e E DEFAULT f { 2 } } END",
        3,
    ),
];

static BAD_MODULE_ROWS: [BadRow; 12] = [
    (b"", 0, Expected::TypeReference),
    (b"M DEFINITIONS ::= BEGIN A ::= END", 30, Expected::Type),
    (
        b"M DEFINITIONS ::= BEGIN X MACRO ::= BEGIN END END",
        24,
        Expected::NoMacro,
    ),
    (
        b"M DEFINITIONS ::= BEGIN A ::= SEQUENCE { a B c D } END",
        45,
        Expected::Text(","),
    ),
    (
        b"M DEFINITIONS ::= BEGIN A ::= SEQUENCE { a B, } END",
        46,
        Expected::Identifier,
    ),
    (
        b"M DEFINITIONS ::= BEGIN A ::= [B] C END",
        31,
        Expected::TagNumber,
    ),
    (
        b"M DEFINITIONS ::= BEGIN a A ::= } END",
        32,
        Expected::Value,
    ),
    (b"M DEFINITIONS ::= BEGIN", 23, Expected::Text("END")),
    (
        b"M DEFINITIONS ::= BEGIN IMPORTS A{ FROM N; END",
        35,
        Expected::Text("}"),
    ),
    (
        b"M DEFINITIONS ::= BEGIN IMPORTS A FROM N WITH B; END",
        46,
        Expected::Text("SUCCESSORS"),
    ),
    (
        b"M DEFINITIONS ::= BEGIN A ::= C.& } END",
        34,
        Expected::TypeReference,
    ),
    (
        b"M DEFINITIONS ::= BEGIN A ::= CLASS B END",
        36,
        Expected::Text("{"),
    ),
];

// Whether a source is one module of so many assignments.
fn is_module(alloc: Global, source: &[u8], assignments: usize) -> bool {
    match parse(alloc, source) {
        Ok(modules) => match modules.as_slice() {
            [module] => module.assignments.len() == assignments,
            _ => false,
        },
        Err(_) => false,
    }
}

#[test]
fn modules_are_read(rt: HostRuntime) {
    for (source, assignments) in &MODULE_ROWS {
        assert!(rt;
            is_module(rt.alloc(), source, *assignments),
            "{:?}",
            *source
        );
    }
}

#[test]
fn modules_are_rejected(rt: HostRuntime) {
    for (source, offset, expected) in &BAD_MODULE_ROWS {
        let rejected = match parse(rt.alloc(), source) {
            Err(
                SyntaxError::Malformed {
                    offset: place,
                    expected: missing,
                },
            ) => place == *offset && missing == *expected,
            _ => false,
        };
        assert!(rt; rejected, "{:?}", *source);
    }
}

// The names of the components of the first type of a module.
fn component_names(alloc: Global, source: &[u8]) -> Option<usize> {
    let modules = parse(alloc, source).ok()?;
    let module = modules.first()?;
    let Assignment::Type(_, TypeNotation::Constructed(_, components)) = module.assignments.first()?
    else {
        return None;
    };
    let count = components
        .iter()
        .filter(|component| matches!(component.part, Part::Named(..)))
        .count();
    (module.tags == TagDefault::Automatic).then_some(count)
}

#[test]
fn components_have_names(rt: HostRuntime) {
    let source = b"M DEFINITIONS AUTOMATIC TAGS ::= BEGIN A ::= SET { a B, ..., [[ c D ]] } END";
    assert!(rt; component_names(rt.alloc(), source) == Some(2));
}

// Whether two lists have the same lexical items, apart from their offsets.
fn are_alike(left: &[Token<'_>], right: &[Token<'_>]) -> bool {
    left.len() == right.len()
        && left.iter().zip(right.iter()).all(|(one, other)| one.kind == other.kind
            && one.text == other.text)
}

// Texts with a space after each.
fn spaced(alloc: Global, texts: &[&[u8]]) -> Option<Vec<u8>> {
    let mut source = Vec::new(alloc);
    for text in texts {
        source.extend_from_slice(text).ok()?;
        source.push(b' ').ok()?;
    }
    Some(source)
}

// The texts that are printed of a source's modules, with a space after each.
fn printed(alloc: Global, source: &[u8]) -> Option<Vec<u8>> {
    let modules = parse(alloc, source).ok()?;
    let texts = print(alloc, modules.as_slice()).ok()?;
    spaced(alloc, texts.as_slice())
}

// Whether two sources have lexical items that are alike.
fn are_read_alike(alloc: Global, one: &[u8], other: &[u8]) -> Option<bool> {
    let left = lex(alloc, one).ok()?;
    let right = lex(alloc, other).ok()?;
    Some(are_alike(left.as_slice(), right.as_slice()))
}

// Whether what is printed of a source's modules has lexical items that are like its own.
fn comes_back(alloc: Global, source: &[u8]) -> bool {
    match printed(alloc, source) {
        Some(other) => are_read_alike(alloc, source, other.as_slice()) == Some(true),
        None => false,
    }
}

#[test]
fn modules_are_printed(rt: HostRuntime) {
    for (source, _) in &MODULE_ROWS {
        assert!(rt; comes_back(rt.alloc(), source), "{:?}", *source);
    }
}

/// A source, an offset, and the line and the column of it.
type PlaceRow = (&'static [u8], usize, usize, usize);

static PLACE_ROWS: [PlaceRow; 7] = [
    (b"", 0, 1, 1),
    (b"ab", 1, 1, 2),
    (b"ab\ncd", 2, 1, 3),
    (b"ab\ncd", 3, 2, 1),
    (b"ab\r\n\ncd", 6, 3, 2),
    (b"ab\n", 3, 2, 1),
    (b"ab\nc", 9, 2, 2),
];

#[test]
fn offsets_have_places(rt: HostRuntime) {
    for (source, offset, line, column) in &PLACE_ROWS {
        let place = Place {
            line: *line,
            column: *column,
        };
        assert!(rt;
            place_at(source, *offset) == place,
            "{:?} {}",
            *source,
            *offset
        );
    }
}
