//! Modules (X.680, 13).
ghost use Rattle.std.specs.Prelude.{◌≡◌, ◌∷◌, [], true, codes, IfErr, IfOk, OnOk};
ghost use Rattle.asn1_syntax.specs.Tree.{assignment_then, assignments_then, braces_then, class_then, exports_then, extensible_then, import_list_then, import_then, imports_then, is_name, left, module_then, modules_then, names_then, optional_then, selection_then, syntax_then, tags_then, texts_then, type_then, Texts};
ghost use Rattle.asn1_syntax.specs.Parsing.{IsSourceOf, ParsingFails};

use crate::cursor::Cursor;
use crate::error::{Expected, SyntaxError};
use crate::lexer::lex;
use crate::located::located;
use crate::notation::{braces, value};
use crate::token::{Token, TokenKind};
use crate::tree::{Assignment, ClassNotation, Import, Module, TagDefault, TypeNotation};
use crate::types::type_notation;
use std::alloc::Global;

/// How deep types nest at most.
pub const MAX_DEPTH: usize = 100;

// The default of a module's tags.
fn tag_default(cursor: &mut Cursor<'_, '_>) -> Result<TagDefault, SyntaxError>
    ensures { IfOk result (λ tags. left cursor.old ≡ tags_then tags (left cursor.new)) }
{
    if cursor.next_is("EXPLICIT") {
        cursor.take("EXPLICIT")?;
        cursor.take("TAGS")?;
        return Ok(TagDefault::Explicit);
    }
    if cursor.next_is("IMPLICIT") {
        cursor.take("IMPLICIT")?;
        cursor.take("TAGS")?;
        return Ok(TagDefault::Implicit);
    }
    if cursor.next_is("AUTOMATIC") {
        cursor.take("AUTOMATIC")?;
        cursor.take("TAGS")?;
        return Ok(TagDefault::Automatic);
    }
    Ok(TagDefault::Omitted)
}

// Whether EXTENSIBILITY IMPLIED is next.
fn extensible(cursor: &mut Cursor<'_, '_>) -> Result<bool, SyntaxError>
    ensures { IfOk result (λ extensible. left cursor.old ≡ extensible_then extensible (left cursor.new)) }
{
    if !cursor.next_is("EXTENSIBILITY") {
        return Ok(false);
    }
    cursor.take("EXTENSIBILITY")?;
    cursor.take("IMPLIED")?;
    Ok(true)
}

// What is between EXPORTS and a semicolon, if EXPORTS is next.
fn exports<'a>(
    alloc: Global,
    cursor: &mut Cursor<'_, 'a>,
) -> Result<Option<Vec<Token<'a>>>, SyntaxError>
    ensures { IfOk result (λ exports. left cursor.old ≡ exports_then exports (left cursor.new)) }
{
    if !cursor.next_is("EXPORTS") {
        return Ok(None);
    }
    cursor.take("EXPORTS")?;
    let tokens = cursor.to_semicolon(alloc)?;
    Ok(Some(tokens))
}

// A name that is imported.
fn imported_name<'a>(cursor: &mut Cursor<'_, 'a>) -> Result<Token<'a>, SyntaxError>
    ensures text { IfOk result (λ name. left cursor.old ≡ name.text.now ∷ left cursor.new) }
    ensures kind { IfOk result (λ name. is_name name.kind ≡ true) }
{
    if cursor.next_is_kind(TokenKind::Identifier) {
        cursor.next_of(TokenKind::Identifier, Expected::Identifier)
    } else {
        cursor.next_of(TokenKind::TypeReference, Expected::TypeReference)
    }
}

// Moves the brace that is next to the end of a list of names.
fn push_brace<'a>(
    cursor: &mut Cursor<'_, 'a>,
    names: &mut Vec<Token<'a>>,
    text: &'static str,
) -> Result<(), SyntaxError>
    ensures { OnOk result (names_then names.old.items (left cursor.old) ≡ names_then names.new.items (left cursor.new)) }
{
    if !cursor.next_is(text) {
        return Err(cursor.missing(Expected::Text(text)));
    }
    let brace = cursor.next_of(TokenKind::Symbol, Expected::Text(text))?;
    names.push(brace)?;
    Ok(())
}

// Moves `{` and `}` to the end of a list of names, if they are next.
fn push_empty_braces<'a>(
    cursor: &mut Cursor<'_, 'a>,
    names: &mut Vec<Token<'a>>,
) -> Result<(), SyntaxError>
    ensures { OnOk result (names_then names.old.items (left cursor.old) ≡ names_then names.new.items (left cursor.new)) }
{
    if !cursor.next_is("{") {
        return Ok(());
    }
    push_brace(cursor, names, "{")?;
    push_brace(cursor, names, "}")
}

// Moves the name after the comma that is next to the end of a list.
fn push_other_name<'a>(
    cursor: &mut Cursor<'_, 'a>,
    names: &mut Vec<Token<'a>>,
) -> Result<(), SyntaxError>
    ensures { OnOk result (names_then names.old.items (left cursor.old) ≡ names_then names.new.items (left cursor.new)) }
{
    cursor.take(",")?;
    let name = imported_name(cursor)?;
    names.push(name)?;
    Ok(())
}

// The names that are next, each after a comma, and the braces after names.
fn other_names<'a>(
    alloc: Global,
    cursor: &mut Cursor<'_, 'a>,
) -> Result<Vec<Token<'a>>, SyntaxError>
    ensures { IfOk result (λ names. left cursor.old ≡ names_then names.items (left cursor.new)) }
{
    let mut names = Vec::new(alloc);
    for _ in 0..cursor.len() {
        push_empty_braces(cursor, &mut names)?;
        if !cursor.next_is(",") {
            return Ok(names);
        }
        push_other_name(cursor, &mut names)?;
    }
    Ok(names)
}

// Whether the name of a value is next, and no name that is imported.
fn is_identifier_value(cursor: &Cursor<'_, '_>) -> bool {
    cursor.next_is_kind(TokenKind::Identifier)
        && !cursor.second_is(",")
        && !cursor.second_is("{")
        && !cursor.second_is("FROM")
}

// The name of the value that is a module's object identifier, if it is next.
fn identifier_value<'a>(cursor: &mut Cursor<'_, 'a>) -> Result<Option<Token<'a>>, SyntaxError>
    ensures { IfOk result (λ value. left cursor.old ≡ optional_then value (left cursor.new)) }
{
    if !is_identifier_value(cursor) {
        return Ok(None);
    }
    let value = cursor.next(Expected::Identifier)?;
    Ok(Some(value))
}

// The word after WITH, if WITH is next.
fn selection<'a>(cursor: &mut Cursor<'_, 'a>) -> Result<Option<Token<'a>>, SyntaxError>
    ensures { IfOk result (λ word. left cursor.old ≡ selection_then word (left cursor.new)) }
{
    if !cursor.next_is("WITH") {
        return Ok(None);
    }
    cursor.take("WITH")?;
    if !cursor.next_is("SUCCESSORS") && !cursor.next_is("DESCENDANTS") {
        return Err(cursor.missing(Expected::Text("SUCCESSORS")));
    }
    let word = cursor.next(Expected::Text("SUCCESSORS"))?;
    Ok(Some(word))
}

// What is imported from one module.
fn import<'a>(alloc: Global, cursor: &mut Cursor<'_, 'a>) -> Result<Import<'a>, SyntaxError>
    ensures { IfOk result (λ import. left cursor.old ≡ import_then import (left cursor.new)) }
{
    let first = imported_name(cursor)?;
    let others = other_names(alloc, cursor)?;
    cursor.take("FROM")?;
    let module = cursor.next_of(TokenKind::TypeReference, Expected::TypeReference)?;
    let identifier = braces(alloc, cursor)?;
    let value = identifier_value(cursor)?;
    let selection = selection(cursor)?;
    Ok(Import {
        first,
        others,
        module,
        identifier,
        value,
        selection,
    })
}

// What is imported, up to the semicolon that is next.
fn import_list<'a>(
    alloc: Global,
    cursor: &mut Cursor<'_, 'a>,
) -> Result<Vec<Import<'a>>, SyntaxError>
    ensures { IfOk result (λ imports. left cursor.old ≡ import_list_then imports.items (left cursor.new)) }
{
    let mut imports = Vec::new(alloc);
    for _ in 0..cursor.len() {
        if cursor.next_is(";") {
            return Ok(imports);
        }
        let import = import(alloc, cursor)?;
        imports.push(import)?;
    }
    Err(cursor.missing(Expected::Text(";")))
}

// What is imported, if IMPORTS is next.
fn imports<'a>(
    alloc: Global,
    cursor: &mut Cursor<'_, 'a>,
) -> Result<Option<Vec<Import<'a>>>, SyntaxError>
    ensures { IfOk result (λ imports. left cursor.old ≡ imports_then imports (left cursor.new)) }
{
    if !cursor.next_is("IMPORTS") {
        return Ok(None);
    }
    cursor.take("IMPORTS")?;
    let imports = import_list(alloc, cursor)?;
    cursor.take(";")?;
    Ok(Some(imports))
}

// The name of an assignment that is no macro.
fn assigned_name<'a>(cursor: &mut Cursor<'_, 'a>) -> Result<Token<'a>, SyntaxError>
    ensures { IfOk result (λ name. left cursor.old ≡ name.text.now ∷ left cursor.new) }
{
    if cursor.second_is("MACRO") {
        return Err(cursor.missing(Expected::NoMacro));
    }
    imported_name(cursor)
}

// The braces after WITH SYNTAX, if WITH is next.
fn syntax<'a>(
    alloc: Global,
    cursor: &mut Cursor<'_, 'a>,
) -> Result<Option<Vec<Token<'a>>>, SyntaxError>
    ensures { IfOk result (λ syntax. left cursor.old ≡ syntax_then syntax (left cursor.new)) }
{
    if !cursor.next_is("WITH") {
        return Ok(None);
    }
    cursor.take("WITH")?;
    cursor.take("SYNTAX")?;
    let tokens = cursor.braced(alloc)?;
    Ok(Some(tokens))
}

// An information object class.
fn class<'a>(alloc: Global, cursor: &mut Cursor<'_, 'a>) -> Result<ClassNotation<'a>, SyntaxError>
    ensures { IfOk result (λ class. left cursor.old ≡ class_then class (left cursor.new)) }
{
    cursor.take("CLASS")?;
    let fields = cursor.braced(alloc)?;
    let syntax = syntax(alloc, cursor)?;
    Ok(ClassNotation { fields, syntax })
}

// The assignment of a type.
fn type_assignment<'a>(
    name: Token<'a>,
    parameters: Option<Vec<Token<'a>>>,
    notation: TypeNotation<'a>,
) -> Assignment<'a>
    ensures { (rest : Texts) → assignment_then result rest
        ≡ name.entry.text.now ∷ braces_then parameters.entry (codes "::=" ∷ type_then notation.entry rest) }
{
    match parameters {
        Some(parameters) => Assignment::ParameterizedType(name, parameters, notation),
        None => Assignment::Type(name, notation),
    }
}

// The assignment of a value, an object, or a set of these.
fn value_assignment<'a>(
    name: Token<'a>,
    parameters: Option<Vec<Token<'a>>>,
    notation: TypeNotation<'a>,
    value: Vec<Token<'a>>,
) -> Assignment<'a>
    ensures { (rest : Texts) → assignment_then result rest
        ≡ name.entry.text.now ∷ braces_then parameters.entry (type_then notation.entry (codes "::=" ∷ texts_then value.entry.items rest)) }
{
    match parameters {
        Some(parameters) => Assignment::ParameterizedValue(name, parameters, notation, value),
        None => Assignment::Value(name, notation, value),
    }
}

// What a name is assigned by `::=`, which is next: a type or a class.
fn defined<'a>(
    alloc: Global,
    cursor: &mut Cursor<'_, 'a>,
    name: Token<'a>,
    parameters: Option<Vec<Token<'a>>>,
) -> Result<Assignment<'a>, SyntaxError>
    ensures { IfOk result (λ assignment. name.entry.text.now ∷ braces_then parameters.entry (left cursor.old)
        ≡ assignment_then assignment (left cursor.new)) }
{
    cursor.take("::=")?;
    if cursor.next_is("CLASS") {
        let class = class(alloc, cursor)?;
        return Ok(Assignment::Class(name, parameters, class));
    }
    let notation = type_notation(alloc, cursor, MAX_DEPTH)?;
    Ok(type_assignment(name, parameters, notation))
}

// An assignment.
fn assignment<'a>(alloc: Global, cursor: &mut Cursor<'_, 'a>) -> Result<Assignment<'a>, SyntaxError>
    ensures { IfOk result (λ assignment. left cursor.old ≡ assignment_then assignment (left cursor.new)) }
{
    let name = assigned_name(cursor)?;
    let parameters = braces(alloc, cursor)?;
    if cursor.next_is("::=") {
        return defined(alloc, cursor, name, parameters);
    }
    let notation = type_notation(alloc, cursor, MAX_DEPTH)?;
    cursor.take("::=")?;
    let value = value(alloc, cursor)?;
    Ok(value_assignment(name, parameters, notation, value))
}

// The assignments up to END.
fn assignments<'a>(
    alloc: Global,
    cursor: &mut Cursor<'_, 'a>,
) -> Result<Vec<Assignment<'a>>, SyntaxError>
    ensures { IfOk result (λ assignments. left cursor.old ≡ assignments_then assignments.items (left cursor.new)) }
{
    let mut assignments = Vec::new(alloc);
    for _ in 0..cursor.len() {
        if cursor.next_is("END") {
            return Ok(assignments);
        }
        let assignment = assignment(alloc, cursor)?;
        assignments.push(assignment)?;
    }
    Err(cursor.missing(Expected::Text("END")))
}

// The character string after a module's object identifier, if it is next.
fn iri<'a>(cursor: &mut Cursor<'_, 'a>) -> Result<Option<Token<'a>>, SyntaxError>
    ensures { IfOk result (λ iri. left cursor.old ≡ optional_then iri (left cursor.new)) }
{
    if !cursor.next_is_kind(TokenKind::CString) {
        return Ok(None);
    }
    let text = cursor.next(Expected::Text("DEFINITIONS"))?;
    Ok(Some(text))
}

// A module.
fn module<'a>(alloc: Global, cursor: &mut Cursor<'_, 'a>) -> Result<Module<'a>, SyntaxError>
    ensures { IfOk result (λ parsed. left cursor.old ≡ module_then parsed (left cursor.new)) }
{
    let name = cursor.next_of(TokenKind::TypeReference, Expected::TypeReference)?;
    let identifier = braces(alloc, cursor)?;
    let iri = iri(cursor)?;
    cursor.take("DEFINITIONS")?;
    let tags = tag_default(cursor)?;
    let extensible = extensible(cursor)?;
    cursor.take("::=")?;
    cursor.take("BEGIN")?;
    let exports = exports(alloc, cursor)?;
    let imports = imports(alloc, cursor)?;
    let assignments = assignments(alloc, cursor)?;
    cursor.take("END")?;
    Ok(Module {
        name,
        identifier,
        iri,
        tags,
        extensible,
        exports,
        imports,
        assignments,
    })
}

// Modules up to the end of the source, one at least.
fn modules<'a>(alloc: Global, cursor: &mut Cursor<'_, 'a>) -> Result<Vec<Module<'a>>, SyntaxError>
    ensures { IfOk result (λ modules. left cursor.old ≡ modules_then modules.items []) }
{
    let mut modules = Vec::new(alloc);
    for _ in 0..cursor.len() {
        let module = module(alloc, cursor)?;
        modules.push(module)?;
        if cursor.is_at_end() {
            return Ok(modules);
        }
    }
    Err(cursor.missing(Expected::TypeReference))
}

/// The modules of a source, one at least.
///
/// Their trees have each lexical item of the source, in its order, and no other. Macros are rejected, as are types that nest more than
/// `MAX_DEPTH` deep.
///
/// If the source is rejected, the error is where `lex` finds no lexical item, or else at a lexical item or at the end.
#[tactic(auto, using(crate::proofs::Errors::lexing_failed, crate::proofs::Errors::parsing_failed))]
pub fn parse<'a>(alloc: Global, source: &'a [u8]) -> Result<Vec<Module<'a>>, SyntaxError>
    ensures ok { IfOk result (λ modules. IsSourceOf source.now modules.items) }
    ensures malformed { IfErr result (ParsingFails source.now) }
{
    let tokens = match lex(alloc, source) {
        Ok(tokens) => tokens,
        Err(error) => return Err(error),
    };
    let mut cursor = Cursor::new(tokens.as_slice(), source.len());
    match modules(alloc, &mut cursor) {
        Ok(modules) => Ok(modules),
        Err(error) => Err(located(tokens.as_slice(), source.len(), error)),
    }
}
