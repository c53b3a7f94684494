//! The parts of types and of values in which no other type is.
ghost use Rattle.std.specs.Prelude.{◌≡◌, ◌∷◌, IfOk, OnOk};
ghost use Rattle.asn1_syntax.specs.Tree.{braces_then, constraints_then, exception_then, left, list_head_then, optional_then, plain_then, presence_then, size_then, tag_then, texts_then, version_then};

use crate::cursor::Cursor;
use crate::error::{Expected, SyntaxError};
use crate::token::{Token, TokenKind};
use crate::tree::{ListHead, ListSize, PlainType, Presence, TagNotation};
use std::alloc::Global;

// Reserved words that are no type (X.680, 12.38).
const RESERVED: &[&[u8]] = &[
    b"ABSENT",
    b"ALL",
    b"APPLICATION",
    b"AUTOMATIC",
    b"BEGIN",
    b"BY",
    b"CHOICE",
    b"CLASS",
    b"COMPONENT",
    b"COMPONENTS",
    b"CONSTRAINED",
    b"CONTAINING",
    b"DEFAULT",
    b"DEFINED",
    b"DEFINITIONS",
    b"ENCODED",
    b"END",
    b"EXCEPT",
    b"EXPLICIT",
    b"EXPORTS",
    b"EXTENSIBILITY",
    b"FALSE",
    b"FROM",
    b"IDENTIFIER",
    b"IMPLICIT",
    b"IMPLIED",
    b"IMPORTS",
    b"INCLUDES",
    b"INTERSECTION",
    b"MACRO",
    b"MAX",
    b"MIN",
    b"OF",
    b"OPTIONAL",
    b"PATTERN",
    b"PDV",
    b"PRESENT",
    b"PRIVATE",
    b"SEQUENCE",
    b"SET",
    b"SIZE",
    b"STRING",
    b"SYNTAX",
    b"TAGS",
    b"TRUE",
    b"UNION",
    b"UNIQUE",
    b"UNIVERSAL",
    b"WITH",
];

// Whether a word is reserved and no type.
fn is_reserved(text: &[u8]) -> bool {
    RESERVED.iter().any(|word| *word == text)
}

/// What is in braces, if braces are next.
pub fn braces<'a>(
    alloc: Global,
    cursor: &mut Cursor<'_, 'a>,
) -> Result<Option<Vec<Token<'a>>>, SyntaxError>
    ensures { IfOk result (λ braces. left cursor.old ≡ braces_then braces (left cursor.new)) }
{
    if !cursor.next_is("{") {
        return Ok(None);
    }
    let tokens = cursor.braced(alloc)?;
    Ok(Some(tokens))
}

// Moves the words after the first one of a type to the end of a list.
fn push_words<'a>(
    cursor: &mut Cursor<'_, 'a>,
    words: &mut Vec<Token<'a>>,
    first: &[u8],
) -> Result<(), SyntaxError>
    ensures { OnOk result (texts_then words.old.items (left cursor.old) ≡ texts_then words.new.items (left cursor.new)) }
{
    match first {
        b"BIT" | b"OCTET" | b"CHARACTER" => cursor.push_text(words, "STRING"),
        b"OBJECT" => cursor.push_text(words, "IDENTIFIER"),
        b"EMBEDDED" => cursor.push_text(words, "PDV"),
        b"ANY" => push_defined_by(cursor, words),
        b"INSTANCE" => push_instance_of(cursor, words),
        _ => push_reference(cursor, words),
    }
}

// Moves DEFINED BY and a name to the end of a list, if they are next.
fn push_defined_by<'a>(
    cursor: &mut Cursor<'_, 'a>,
    words: &mut Vec<Token<'a>>,
) -> Result<(), SyntaxError>
    ensures { OnOk result (texts_then words.old.items (left cursor.old) ≡ texts_then words.new.items (left cursor.new)) }
{
    if !cursor.next_is("DEFINED") {
        return Ok(());
    }
    cursor.push_text(words, "DEFINED")?;
    cursor.push_text(words, "BY")?;
    cursor.push_next(words, Expected::Identifier)
}

// Moves OF and the name of a class to the end of a list (X.681, C.2).
fn push_instance_of<'a>(
    cursor: &mut Cursor<'_, 'a>,
    words: &mut Vec<Token<'a>>,
) -> Result<(), SyntaxError>
    ensures { OnOk result (texts_then words.old.items (left cursor.old) ≡ texts_then words.new.items (left cursor.new)) }
{
    cursor.push_text(words, "OF")?;
    push_name(cursor, words)?;
    push_reference(cursor, words)
}

// Moves a name to the end of a list.
fn push_name<'a>(cursor: &mut Cursor<'_, 'a>, words: &mut Vec<Token<'a>>) -> Result<(), SyntaxError>
    ensures { OnOk result (texts_then words.old.items (left cursor.old) ≡ texts_then words.new.items (left cursor.new)) }
{
    if !is_word(cursor) {
        return Err(cursor.missing(Expected::TypeReference));
    }
    cursor.push_next(words, Expected::TypeReference)
}

// Moves a symbol to the end of a list, if it is next.
fn push_if_next<'a>(
    cursor: &mut Cursor<'_, 'a>,
    tokens: &mut Vec<Token<'a>>,
    text: &'static str,
) -> Result<(), SyntaxError>
    ensures { OnOk result (texts_then tokens.old.items (left cursor.old) ≡ texts_then tokens.new.items (left cursor.new)) }
{
    if !cursor.next_is(text) {
        return Ok(());
    }
    cursor.push_text(tokens, text)
}

// Moves the names that are next, each after `.`, to the end of a list: the type of another module, or fields of a class after `&`.
fn push_reference<'a>(
    cursor: &mut Cursor<'_, 'a>,
    words: &mut Vec<Token<'a>>,
) -> Result<(), SyntaxError>
    ensures { OnOk result (texts_then words.old.items (left cursor.old) ≡ texts_then words.new.items (left cursor.new)) }
{
    for _ in 0..cursor.len() {
        if !cursor.next_is(".") {
            return Ok(());
        }
        cursor.push_text(words, ".")?;
        push_if_next(cursor, words, "&")?;
        push_name(cursor, words)?;
    }
    Ok(())
}

// The first word of a type.
fn first_word<'a>(cursor: &mut Cursor<'_, 'a>) -> Result<Token<'a>, SyntaxError>
    ensures { IfOk result (λ token. left cursor.old ≡ token.text.now ∷ left cursor.new) }
{
    let error = cursor.missing(Expected::Type);
    let word = cursor.next_of(TokenKind::TypeReference, Expected::Type)?;
    if is_reserved(word.text) {
        return Err(error);
    }
    Ok(word)
}

// The words of a type.
fn words<'a>(alloc: Global, cursor: &mut Cursor<'_, 'a>) -> Result<Vec<Token<'a>>, SyntaxError>
    ensures { IfOk result (λ words. left cursor.old ≡ texts_then words.items (left cursor.new)) }
{
    let mut words = Vec::new(alloc);
    let first = first_word(cursor)?;
    words.push(first)?;
    push_words(cursor, &mut words, first.text)?;
    Ok(words)
}

/// A type in which no other type is.
pub fn plain<'a>(alloc: Global, cursor: &mut Cursor<'_, 'a>) -> Result<PlainType<'a>, SyntaxError>
    ensures { IfOk result (λ plain. left cursor.old ≡ plain_then plain (left cursor.new)) }
{
    let words = words(alloc, cursor)?;
    let braces = braces(alloc, cursor)?;
    Ok(PlainType { words, braces })
}

// Whether the class of a tag is next.
fn is_tag_class(cursor: &Cursor<'_, '_>) -> bool {
    cursor.next_is("UNIVERSAL") || cursor.next_is("APPLICATION") || cursor.next_is("PRIVATE")
}

// The class of a tag, if it is next.
fn tag_class<'a>(cursor: &mut Cursor<'_, 'a>) -> Result<Option<Token<'a>>, SyntaxError>
    ensures { IfOk result (λ class. left cursor.old ≡ optional_then class (left cursor.new)) }
{
    if !is_tag_class(cursor) {
        return Ok(None);
    }
    let class = cursor.next(Expected::TagNumber)?;
    Ok(Some(class))
}

// The number of a tag.
fn tag_number<'a>(cursor: &mut Cursor<'_, 'a>) -> Result<Token<'a>, SyntaxError>
    ensures { IfOk result (λ token. left cursor.old ≡ token.text.now ∷ left cursor.new) }
{
    if cursor.next_is_kind(TokenKind::Identifier) {
        cursor.next(Expected::TagNumber)
    } else {
        cursor.next_of(TokenKind::Number, Expected::TagNumber)
    }
}

// IMPLICIT or EXPLICIT, if one of them is next.
fn tag_mode<'a>(cursor: &mut Cursor<'_, 'a>) -> Result<Option<Token<'a>>, SyntaxError>
    ensures { IfOk result (λ mode. left cursor.old ≡ optional_then mode (left cursor.new)) }
{
    if !cursor.next_is("IMPLICIT") && !cursor.next_is("EXPLICIT") {
        return Ok(None);
    }
    let mode = cursor.next(Expected::Type)?;
    Ok(Some(mode))
}

/// A tag.
pub fn tag<'a>(cursor: &mut Cursor<'_, 'a>) -> Result<TagNotation<'a>, SyntaxError>
    ensures { IfOk result (λ tag. left cursor.old ≡ tag_then tag (left cursor.new)) }
{
    cursor.take("[")?;
    let class = tag_class(cursor)?;
    let number = tag_number(cursor)?;
    cursor.take("]")?;
    let mode = tag_mode(cursor)?;
    Ok(TagNotation {
        class,
        number,
        mode,
    })
}

// The constraint of a list before OF.
fn list_size<'a>(alloc: Global, cursor: &mut Cursor<'_, 'a>) -> Result<ListSize<'a>, SyntaxError>
    ensures { IfOk result (λ size. left cursor.old ≡ size_then size (left cursor.new)) }
{
    if cursor.next_is("SIZE") {
        cursor.take("SIZE")?;
        let size = cursor.parenthesized(alloc)?;
        return Ok(ListSize::Size(size));
    }
    if cursor.next_is("(") {
        let constraint = cursor.parenthesized(alloc)?;
        return Ok(ListSize::Constraint(constraint));
    }
    Ok(ListSize::Any)
}

// The name of a list's elements, if it is next.
fn element_name<'a>(cursor: &mut Cursor<'_, 'a>) -> Result<Option<Token<'a>>, SyntaxError>
    ensures { IfOk result (λ name. left cursor.old ≡ optional_then name (left cursor.new)) }
{
    if !cursor.next_is_kind(TokenKind::Identifier) || cursor.second_is("<") {
        return Ok(None);
    }
    let name = cursor.next(Expected::Identifier)?;
    Ok(Some(name))
}

/// What is before the type of a list's elements.
pub fn list_head<'a>(
    alloc: Global,
    cursor: &mut Cursor<'_, 'a>,
) -> Result<ListHead<'a>, SyntaxError>
    ensures { IfOk result (λ head. left cursor.old ≡ list_head_then head (left cursor.new)) }
{
    let word = cursor.next(Expected::Type)?;
    let size = list_size(alloc, cursor)?;
    cursor.take("OF")?;
    let element = element_name(cursor)?;
    Ok(ListHead {
        word,
        size,
        element,
    })
}

// Moves a word, and its arguments in braces if they are next, to the end of a list.
fn push_with_arguments<'a>(
    cursor: &mut Cursor<'_, 'a>,
    tokens: &mut Vec<Token<'a>>,
) -> Result<(), SyntaxError>
    ensures { OnOk result (texts_then tokens.old.items (left cursor.old) ≡ texts_then tokens.new.items (left cursor.new)) }
{
    push_name(cursor, tokens)?;
    if !cursor.next_is("{") {
        return Ok(());
    }
    cursor.push_braced(tokens)
}

// Whether a word is next.
fn is_word(cursor: &Cursor<'_, '_>) -> bool {
    cursor.next_is_kind(TokenKind::TypeReference) || cursor.next_is_kind(TokenKind::Identifier)
}

// Moves a number, a name with or without arguments, a field, a string, or what is in braces, to the end of a list.
fn push_operand<'a>(
    cursor: &mut Cursor<'_, 'a>,
    tokens: &mut Vec<Token<'a>>,
) -> Result<(), SyntaxError>
    ensures { OnOk result (texts_then tokens.old.items (left cursor.old) ≡ texts_then tokens.new.items (left cursor.new)) }
{
    if cursor.next_is("{") {
        return cursor.push_braced(tokens);
    }
    push_if_next(cursor, tokens, "-")?;
    push_if_next(cursor, tokens, "&")?;
    if is_word(cursor) {
        return push_with_arguments(cursor, tokens);
    }
    if cursor.next_is_kind(TokenKind::Symbol) {
        return Err(cursor.missing(Expected::Value));
    }
    cursor.push_next(tokens, Expected::Value)
}

/// A value, or a set of values.
pub fn value<'a>(alloc: Global, cursor: &mut Cursor<'_, 'a>) -> Result<Vec<Token<'a>>, SyntaxError>
    ensures { IfOk result (λ tokens. left cursor.old ≡ texts_then tokens.items (left cursor.new)) }
{
    let mut tokens = Vec::new(alloc);
    for _ in 0..cursor.len() {
        push_operand(cursor, &mut tokens)?;
        if !cursor.next_is(":") && !cursor.next_is(".") {
            return Ok(tokens);
        }
        cursor.push_next(&mut tokens, Expected::Value)?;
    }
    Err(cursor.missing(Expected::Value))
}

/// Whether a component may be absent.
pub fn presence<'a>(alloc: Global, cursor: &mut Cursor<'_, 'a>) -> Result<Presence<'a>, SyntaxError>
    ensures { IfOk result (λ presence. left cursor.old ≡ presence_then presence (left cursor.new)) }
{
    if cursor.next_is("OPTIONAL") {
        cursor.take("OPTIONAL")?;
        return Ok(Presence::Optional);
    }
    if cursor.next_is("DEFAULT") {
        cursor.take("DEFAULT")?;
        let default = value(alloc, cursor)?;
        return Ok(Presence::Default(default));
    }
    Ok(Presence::Required)
}

/// An exception after `!`, if it is next.
pub fn exception<'a>(
    alloc: Global,
    cursor: &mut Cursor<'_, 'a>,
) -> Result<Option<Vec<Token<'a>>>, SyntaxError>
    ensures { IfOk result (λ exception. left cursor.old ≡ exception_then exception (left cursor.new)) }
{
    if !cursor.next_is("!") {
        return Ok(None);
    }
    cursor.take("!")?;
    let tokens = value(alloc, cursor)?;
    Ok(Some(tokens))
}

/// A version number before `:`, if it is next.
pub fn version<'a>(cursor: &mut Cursor<'_, 'a>) -> Result<Option<Token<'a>>, SyntaxError>
    ensures { IfOk result (λ version. left cursor.old ≡ version_then version (left cursor.new)) }
{
    if !cursor.next_is_kind(TokenKind::Number) {
        return Ok(None);
    }
    let number = cursor.next(Expected::TagNumber)?;
    cursor.take(":")?;
    Ok(Some(number))
}

/// The constraints in parentheses that are next.
pub fn constraints<'a>(
    alloc: Global,
    cursor: &mut Cursor<'_, 'a>,
) -> Result<Vec<Vec<Token<'a>>>, SyntaxError>
    ensures { IfOk result (λ constraints. left cursor.old ≡ constraints_then constraints.items (left cursor.new)) }
{
    let mut constraints = Vec::new(alloc);
    for _ in 0..cursor.len() {
        if !cursor.next_is("(") {
            return Ok(constraints);
        }
        let constraint = cursor.parenthesized(alloc)?;
        constraints.push(constraint)?;
    }
    Ok(constraints)
}
