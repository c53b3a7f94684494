//! Values of INTEGER and OBJECT IDENTIFIER, through names (X.680, 18, 31 and 32).
ghost use Rattle.std.specs.Prelude.{[], IfOk, IfSome, ◌∷◌};
ghost use Rattle.asn1_types.specs.Values.{IsDecimal, MeansInteger, IsLiteral, IsOfSign, IsValueNamed};

use crate::model::{Integer, Place};
use crate::problem::{Problem, ProblemKind, Stop, problem_at};
use crate::scope::{Meaning, Scope, assignment_at, meaning_of};
use crate::tokens::{NamedItem, is};
use asn1_syntax::tree::Assignment;
use asn1_syntax::{Token, TokenKind};
use std::alloc::Global;

// How many names in a row mean one value at most.
const MAX_NAMES: usize = 100;

/// The number of decimal digits, if 64 bits hold it.
pub fn decimal(digits: &[u8]) -> Option<u64>
    ensures { IfSome result (IsDecimal digits.now) }
{
    match str::from_utf8(digits) {
        Ok(text) => text.parse::<u64>().ok(),
        Err(_) => None,
    }
}

/// An integer of a sign and a number. Zero is not negative.
pub fn signed(is_negative: bool, magnitude: u64) -> Integer
    ensures { IsOfSign is_negative magnitude result }
{
    Integer {
        is_negative: is_negative && magnitude != 0,
        magnitude,
    }
}

/// An integer as one of 64 bits with its sign.
pub fn to_i64(number: Integer) -> Option<i64> {
    let magnitude = i64::try_from(number.magnitude).ok();
    if number.is_negative {
        negated(number.magnitude)
    } else {
        magnitude
    }
}

// The negative of a number.
fn negated(magnitude: u64) -> Option<i64> {
    let below = i64::try_from(magnitude.checked_sub(1)?).ok()?;
    (-1i64).checked_sub(below)
}

/// A value and the module that it is in.
#[derive(Clone, Copy)]
pub struct NamedValue<'a> {
    /// The index of the module.
    pub module: usize,
    /// The lexical items of the value.
    pub value: &'a [Token<'a>],
}

/// The value that has a name.
pub fn value_of<'a>(
    scope: Scope<'a>,
    module: usize,
    name: Token<'a>,
) -> Result<NamedValue<'a>, Problem>
    ensures { IfOk result (λ v. IsValueNamed scope.entry.modules.now scope.entry.known.now «module» name.entry.text.now v.module v.value.now) }
{
    let Meaning::Assigned(place) = meaning_of(scope, module, name)? else {
        return Err(problem_at(module, name, ProblemKind::WrongAssignment));
    };
    match assignment_at(scope.modules, place) {
        Some(Assignment::Value(_, _, value)) => Ok(NamedValue {
            module: place.module,
            value: value.as_slice(),
        }),
        _ => Err(problem_at(module, name, ProblemKind::WrongAssignment)),
    }
}

// The problem that a value is no number, at its first lexical item.
fn no_number(module: usize, value: &[Token<'_>]) -> Problem {
    match value {
        [token, ..] => problem_at(module, *token, ProblemKind::NoNumber),
        [] => Problem {
            place: Place { module, offset: 0 },
            kind: ProblemKind::NoNumber,
            other: None,
        },
    }
}

// The number that a lexical item is.
fn literal(module: usize, is_negative: bool, token: Token<'_>) -> Result<Integer, Problem>
    ensures { IfOk result (IsLiteral is_negative token.entry.text.now) }
{
    match decimal(token.text) {
        Some(number) => Ok(signed(is_negative, number)),
        None => Err(problem_at(module, token, ProblemKind::NoNumber)),
    }
}

/// The number that a value is: digits, a minus and digits, or a name of such a value.
pub fn integer_value<'a>(
    scope: Scope<'a>,
    module: usize,
    value: &'a [Token<'a>],
) -> Result<Integer, Problem>
    ensures { IfOk result (λ x. MeansInteger scope.entry.modules.now scope.entry.known.now x «module» value.now) }
{
    let mut at = NamedValue { module, value };
    for _ in 0..MAX_NAMES {
        match at.value {
            [token] if token.kind == TokenKind::Number => return literal(at.module, false, *token),
            [sign, token] if is(*sign, b"-") => return literal(at.module, true, *token),
            [name] if name.kind == TokenKind::Identifier => {
                at = value_of(scope, at.module, *name)?;
            }
            _ => return Err(no_number(module, value)),
        }
    }
    Err(no_number(module, value))
}

/// What a value is, through names of values.
pub fn value_through_names<'a>(
    scope: Scope<'a>,
    module: usize,
    value: &'a [Token<'a>],
) -> Option<NamedValue<'a>> {
    let mut at = NamedValue { module, value };
    for _ in 0..MAX_NAMES {
        match at.value {
            [name] if name.kind == TokenKind::Identifier => {
                at = value_of(scope, at.module, *name).ok()?;
            }
            _ => return Some(at),
        }
    }
    None
}

/// The one lexical item that a value is, through names of values.
pub fn item_of_value<'a>(
    scope: Scope<'a>,
    module: usize,
    value: &'a [Token<'a>],
) -> Option<Token<'a>> {
    match value_through_names(scope, module, value)?.value {
        [item] => Some(*item),
        _ => None,
    }
}

/// The number that a lexical item is: digits, or the name of a value.
pub fn number_of<'a>(scope: Scope<'a>, module: usize, token: Token<'a>) -> Result<Integer, Problem>
    ensures { IfOk result (λ x. MeansInteger scope.entry.modules.now scope.entry.known.now x «module» (token.entry ∷ [])) }
{
    if token.kind == TokenKind::Number {
        return literal(module, false, token);
    }
    let named = value_of(scope, module, token)?;
    integer_value(scope, named.module, named.value)
}

/// The number that is written after a name in braces.
pub fn item_number<'a>(
    scope: Scope<'a>,
    module: usize,
    item: NamedItem<'a>,
) -> Result<Option<Integer>, Problem> {
    let Some(token) = item.number else {
        return Ok(None);
    };
    if item.is_negative {
        return Ok(Some(literal(module, true, token)?));
    }
    Ok(Some(number_of(scope, module, token)?))
}

/// A name of an arc of object identifiers, and its number.
type ArcName = (&'static [u8], u64);

// The names that may be without their number (X.680, 31.7; X.660, A.1 to A.3).
static ARC_NAMES: [ArcName; 12] = [
    (b"itu-t", 0),
    (b"ccitt", 0),
    (b"iso", 1),
    (b"joint-iso-itu-t", 2),
    (b"joint-iso-ccitt", 2),
    (b"recommendation", 0),
    (b"question", 1),
    (b"administration", 2),
    (b"network-operator", 3),
    (b"standard", 0),
    (b"member-body", 2),
    (b"identified-organization", 3),
];

// The number of an arc that has a name in a standard.
fn standard_arc(name: &[u8]) -> Option<u64> {
    ARC_NAMES.iter().find(|row| row.0 == name).map(|row| row.1)
}

// The arc that a lexical item is.
fn arc_of<'a>(scope: Scope<'a>, module: usize, token: Token<'a>) -> Result<u64, Problem> {
    if let Some(number) = standard_arc(token.text) {
        return Ok(number);
    }
    let number = number_of(scope, module, token)?;
    if number.is_negative {
        return Err(problem_at(module, token, ProblemKind::NoObjectIdentifier));
    }
    Ok(number.magnitude)
}

// The arcs that are left in braces.
#[derive(Clone, Copy)]
struct Arcs<'a> {
    rest: &'a [Token<'a>],
}

// The next arc, and goes past it: the number after a name, or a name or a number alone.
fn next_arc<'a>(arcs: &mut Arcs<'a>) -> Option<Token<'a>> {
    match arcs.rest {
        [_, open, arc, close, after @ ..] if is(*open, b"(") && is(*close, b")") => {
            arcs.rest = after;
            Some(*arc)
        }
        [arc, after @ ..] => {
            arcs.rest = after;
            Some(*arc)
        }
        [] => None,
    }
}

// Appends the arcs of lexical items without braces.
fn push_arcs<'a>(
    scope: Scope<'a>,
    module: usize,
    tokens: &'a [Token<'a>],
    arcs: &mut Vec<u64>,
) -> Result<(), Stop> {
    let mut rest = Arcs { rest: tokens };
    for _ in 0..tokens.len() {
        let Some(arc) = next_arc(&mut rest) else {
            return Ok(());
        };
        let number = arc_of(scope, module, arc)?;
        arcs.push(number)?;
    }
    Ok(())
}

// Whether a lexical item is the name of a value of OBJECT IDENTIFIER, and no arc.
fn is_prefix<'a>(scope: Scope<'a>, module: usize, token: Token<'a>, after: &[Token<'a>]) -> bool {
    if token.kind != TokenKind::Identifier || standard_arc(token.text).is_some() {
        return false;
    }
    if matches!(after, [open, ..] if is(*open, b"(")) {
        return false;
    }
    match value_of(scope, module, token) {
        Ok(named) => matches!(named.value, [first, ..] if is(*first, b"{")),
        Err(_) => false,
    }
}

/// Appends the arcs of a value of OBJECT IDENTIFIER: arcs in braces, or a name of such a value, through at most `depth` names.
pub fn push_identifier<'a>(
    scope: Scope<'a>,
    module: usize,
    value: &'a [Token<'a>],
    arcs: &mut Vec<u64>,
    depth: usize,
) -> Result<(), Stop> {
    if depth == 0 {
        return Err(Stop::Rejected(no_identifier(module, value)));
    }
    match value {
        [name] if name.kind == TokenKind::Identifier => {
            let named = value_of(scope, module, *name)?;
            push_identifier(scope, named.module, named.value, arcs, depth - 1)
        }
        [open, first, rest @ .., _] if is(*open, b"{") => {
            if !is_prefix(scope, module, *first, rest) {
                return push_arcs(scope, module, inside(value), arcs);
            }
            let named = value_of(scope, module, *first)?;
            push_identifier(scope, named.module, named.value, arcs, depth - 1)?;
            push_arcs(scope, module, rest, arcs)
        }
        _ => Err(Stop::Rejected(no_identifier(module, value))),
    }
}

// What is between the first and the last lexical item.
fn inside<'a>(value: &'a [Token<'a>]) -> &'a [Token<'a>] {
    match value {
        [_, inner @ .., _] => inner,
        _ => value,
    }
}

// The problem that a value is no object identifier.
fn no_identifier(module: usize, value: &[Token<'_>]) -> Problem {
    let problem = no_number(module, value);
    Problem {
        place: problem.place,
        kind: ProblemKind::NoObjectIdentifier,
        other: None,
    }
}

/// The arcs of a value of OBJECT IDENTIFIER.
pub fn identifier_value<'a>(
    alloc: Global,
    scope: Scope<'a>,
    module: usize,
    value: &'a [Token<'a>],
) -> Result<Vec<u64>, Stop> {
    let mut arcs = Vec::new(alloc);
    push_identifier(scope, module, value, &mut arcs, MAX_NAMES)?;
    Ok(arcs)
}
