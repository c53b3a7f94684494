//! The values after DEFAULT (X.680, 24.10).

use crate::bits::{named_bits, plain_bits};
use crate::constraints::{Names, named_number};
use crate::cores::{TypeAt, braces_of};
use crate::digits::{Bits, bits_of_item};
use crate::model::{Body, DefaultValue, Enumeration, Integer, Notation, TextKind};
use crate::problem::Stop;
use crate::resolver::Resolver;
use crate::tokens::is;
use crate::values::{identifier_value, integer_value, item_of_value, value_through_names};
use asn1_syntax::{Token, TokenKind};

// A notation without the tags around it.
fn without_tags(notation: &Notation) -> &Notation {
    let mut at = notation;
    while let Notation::Tagged(_, inner) = at {
        at = &**inner;
    }
    at
}

// The number of a value of an INTEGER: a named number, or any other value.
fn number<'a>(r: &Resolver<'a>, at: TypeAt<'a>, value: &'a [Token<'a>]) -> Option<Integer> {
    if let [name] = value
        && name.kind == TokenKind::Identifier
    {
        let found = braces_of(r.scope, at);
        let names = Names {
            scope: r.scope,
            module: at.module,
            braces_module: found.module,
            braces: found.braces,
        };
        let named = named_number(names, name.text);
        if named.is_some() {
            return named;
        }
    }
    integer_value(r.scope, at.module, value).ok()
}

// The item of an ENUMERATED that a value names.
fn item<'a>(enumeration: &Enumeration<'a>, value: &'a [Token<'a>]) -> Option<DefaultValue<'a>> {
    let [name] = value else {
        return None;
    };
    let found = enumeration
        .items
        .iter()
        .find(|item| item.name == name.text)?;
    Some(DefaultValue::Enumerated(found.name, found.number))
}

// Whether a value is empty braces.
fn is_empty<'a>(r: &Resolver<'a>, module: usize, value: &'a [Token<'a>]) -> bool {
    match value_through_names(r.scope, module, value) {
        Some(named) => {
            matches!(named.value, [open, close] if is(*open, b"{") && is(*close, b"}"))
        }
        None => false,
    }
}

// The value of a list, if it is empty.
fn empty_list<'a>(
    r: &Resolver<'a>,
    module: usize,
    notation: &Notation,
    value: &'a [Token<'a>],
) -> Option<DefaultValue<'a>> {
    match notation {
        Notation::SequenceOf(_, _) if is_empty(r, module, value) => {
            Some(DefaultValue::EmptySequenceOf)
        }
        Notation::SetOf(_, _) if is_empty(r, module, value) => Some(DefaultValue::EmptySetOf),
        _ => None,
    }
}

// The value of a type that has a definition: of an ENUMERATED, or of a list with a name.
fn defined<'a>(
    r: &Resolver<'a>,
    module: usize,
    index: usize,
    value: &'a [Token<'a>],
) -> Option<DefaultValue<'a>> {
    match &r.definitions.get(index)?.body {
        Body::Enumerated(enumeration) => item(enumeration, value),
        Body::Value(notation) => empty_list(r, module, without_tags(notation), value),
        _ => None,
    }
}

// The value of a BOOLEAN.
fn boolean<'a>(value: &[Token<'a>]) -> Option<DefaultValue<'a>> {
    match value {
        [token] if is(*token, b"TRUE") => Some(DefaultValue::Boolean(true)),
        [token] if is(*token, b"FALSE") => Some(DefaultValue::Boolean(false)),
        _ => None,
    }
}

// The value of an OBJECT IDENTIFIER.
fn identifier<'a>(
    r: &Resolver<'a>,
    module: usize,
    value: &'a [Token<'a>],
) -> Result<Option<DefaultValue<'a>>, Stop> {
    match identifier_value(r.alloc, r.scope, module, value) {
        Ok(arcs) => Ok(Some(DefaultValue::ObjectIdentifier(arcs))),
        Err(Stop::Rejected(_)) => Ok(None),
        Err(Stop::Memory) => Err(Stop::Memory),
    }
}

// The value of an OCTET STRING, whose octets have to be whole.
fn octets<'a>(
    r: &Resolver<'a>,
    module: usize,
    value: &'a [Token<'a>],
) -> Result<Option<DefaultValue<'a>>, Stop> {
    let Some(item) = item_of_value(r.scope, module, value) else {
        return Ok(None);
    };
    match bits_of_item(r.alloc, item)? {
        Some(Bits { octets, count }) if count % 8 == 0 => Ok(Some(DefaultValue::Octets(octets))),
        _ => Ok(None),
    }
}

// Whether characters are in ASCII, printable and no quotation marks.
fn are_plain(text: &[u8]) -> bool {
    for c in text {
        if *c < b' ' || *c > b'~' || *c == b'"' {
            return false;
        }
    }
    true
}

// The value of a string, if its characters are plain.
fn text<'a>(r: &Resolver<'a>, module: usize, value: &'a [Token<'a>]) -> Option<DefaultValue<'a>> {
    let item = item_of_value(r.scope, module, value)?;
    match (item.kind, item.text) {
        (TokenKind::CString, [_, inner @ .., _]) if are_plain(inner) => {
            Some(DefaultValue::Text(inner))
        }
        _ => None,
    }
}

// The value of a BOOLEAN, an INTEGER, a list, or a type that has a definition.
fn simple<'a>(
    r: &Resolver<'a>,
    at: TypeAt<'a>,
    notation: &Notation,
    value: &'a [Token<'a>],
) -> Option<DefaultValue<'a>> {
    match notation {
        Notation::Boolean => boolean(value),
        Notation::Integer(_, _) => Some(DefaultValue::Integer(number(r, at, value)?)),
        Notation::Defined(index) => defined(r, at.module, *index, value),
        other => empty_list(r, at.module, other, value),
    }
}

/// The value after DEFAULT of a type and its notation, if it is one that a `DefaultValue` has.
pub fn default_value<'a>(
    r: &Resolver<'a>,
    at: TypeAt<'a>,
    notation: &Notation,
    value: &'a [Token<'a>],
) -> Result<Option<DefaultValue<'a>>, Stop> {
    match without_tags(notation) {
        Notation::ObjectIdentifier => identifier(r, at.module, value),
        Notation::OctetString(_) => octets(r, at.module, value),
        Notation::BitString(_) => plain_bits(r, at.module, value),
        Notation::NamedBits(size, names) => named_bits(r, at.module, *size, *names, value),
        Notation::Text(TextKind::Bmp, _) => Ok(None),
        Notation::Text(_, _) => Ok(text(r, at.module, value)),
        other => Ok(simple(r, at, other, value)),
    }
}
