//! Constraints of numbers and sizes (X.680, 49 to 51).
ghost use Rattle.asn1_types.specs.Bounds.{DiffersInBounds};

use crate::integers::{UNBOUNDED, both_bounds, both_sizes, hull, joins, size_of};
use crate::model::{Integer, IntegerBounds, Loosening, Notation, Size, TextKind};
use crate::scope::Scope;
use crate::tokens::{NamedItems, halves_around, has_text, is, named_items, next_item};
use crate::values::{integer_value, item_number};
use asn1_syntax::{Token, TokenKind};

/// What a constraint allows: numbers within bounds, and whether it allows all of them.
#[derive(Clone, Copy)]
pub struct Allowed {
    /// The bounds.
    pub bounds: IntegerBounds,
    /// Whether each number within the bounds is allowed.
    pub is_exact: bool,
}

/// Where the names of numbers in a constraint are searched: the module, and the named numbers of the INTEGER.
#[derive(Clone, Copy)]
pub struct Names<'a> {
    /// The modules.
    pub scope: Scope<'a>,
    /// The index of the module of the constraint.
    pub module: usize,
    /// The index of the module of the INTEGER.
    pub braces_module: usize,
    /// The braces of the INTEGER.
    pub braces: &'a [Token<'a>],
}

/// The number of an item in braces, by its name.
pub fn named_number<'a>(names: Names<'a>, name: &[u8]) -> Option<Integer> {
    let mut items: NamedItems<'a> = named_items(names.braces);
    for _ in 0..names.braces.len() {
        let Some(item) = next_item(&mut items) else {
            return None;
        };
        if is(item.name, name) {
            return item_number(names.scope, names.braces_module, item).ok()?;
        }
    }
    None
}

// The number at an end of a range.
fn end_of<'a>(names: Names<'a>, tokens: &'a [Token<'a>]) -> Option<Integer> {
    if let [name] = tokens
        && name.kind == TokenKind::Identifier
        && let Some(number) = named_number(names, name.text)
    {
        return Some(number);
    }
    integer_value(names.scope, names.module, tokens).ok()
}

// The lower end of a range: MIN, or a number. `None` is an end that has no number.
fn low_of<'a>(names: Names<'a>, tokens: &'a [Token<'a>]) -> Option<Option<Integer>> {
    match tokens {
        [token] if is(*token, b"MIN") => Some(None),
        _ => Some(Some(end_of(names, tokens)?)),
    }
}

// The upper end of a range: MAX, or a number. `None` is an end that has no number.
fn high_of<'a>(names: Names<'a>, tokens: &'a [Token<'a>]) -> Option<Option<Integer>> {
    match tokens {
        [token] if is(*token, b"MAX") => Some(None),
        _ => Some(Some(end_of(names, tokens)?)),
    }
}

// The bounds of one range or one number.
fn range<'a>(names: Names<'a>, tokens: &'a [Token<'a>]) -> Option<IntegerBounds> {
    match halves_around(tokens, b"..") {
        Some(ends) => Some(IntegerBounds {
            low: low_of(names, ends.before)?,
            high: high_of(names, ends.after)?,
        }),
        None => {
            let number = end_of(names, tokens)?;
            Some(IntegerBounds {
                low: Some(number),
                high: Some(number),
            })
        }
    }
}

// One range of a union, and the lexical items after it.
#[derive(Clone, Copy)]
struct First<'a> {
    bounds: IntegerBounds,
    after: &'a [Token<'a>],
}

// The first range of a union.
fn first_range<'a>(names: Names<'a>, tokens: &'a [Token<'a>]) -> Option<First<'a>> {
    match halves_around(tokens, b"|") {
        Some(ends) => Some(First {
            bounds: range(names, ends.before)?,
            after: ends.after,
        }),
        None => Some(First {
            bounds: range(names, tokens)?,
            after: &[],
        }),
    }
}

// The numbers that a union of ranges allows.
fn union_of<'a>(names: Names<'a>, tokens: &'a [Token<'a>]) -> Option<Allowed> {
    let first = first_range(names, tokens)?;
    let mut all = first.bounds;
    let mut is_exact = true;
    let mut rest = first.after;
    for _ in 0..tokens.len() {
        if rest.is_empty() {
            break;
        }
        let next = first_range(names, rest)?;
        is_exact = is_exact && joins(all, next.bounds);
        all = hull(all, next.bounds);
        rest = next.after;
    }
    Some(Allowed {
        bounds: all,
        is_exact,
    })
}

/// The numbers that a constraint allows. An extensible one allows all (X.680, 52). `None` is a constraint of another kind.
pub fn numbers<'a>(names: Names<'a>, tokens: &'a [Token<'a>]) -> Option<Allowed> {
    if has_text(tokens, b"...") {
        return Some(Allowed {
            bounds: UNBOUNDED,
            is_exact: true,
        });
    }
    union_of(names, tokens)
}

// The lexical items between the parentheses after SIZE, if nothing else is in a constraint. A constraint that goes on with `...` is extensible.
fn size_items<'a>(tokens: &'a [Token<'a>]) -> Option<&'a [Token<'a>]> {
    match tokens {
        [word, open, inner @ .., close]
            if is(*word, b"SIZE")
                && is(*open, b"(")
                && is(*close, b")")
                && !has_text(inner, b")") => { Some(inner) }
        _ => None,
    }
}

// Whether a constraint is extensible.
fn is_extensible(tokens: &[Token<'_>]) -> bool {
    matches!(tokens, [word, ..] if is(*word, b"SIZE")) && has_text(tokens, b"...")
}

/// A size, and whether a constraint allows each such size and nothing else.
#[derive(Clone, Copy)]
pub struct AllowedSize {
    /// The size.
    pub size: Size,
    /// Whether each is allowed.
    pub is_exact: bool,
}

/// The sizes that a constraint of numbers allows.
pub fn sizes_within<'a>(names: Names<'a>, tokens: &'a [Token<'a>]) -> Option<AllowedSize> {
    let allowed = numbers(names, tokens)?;
    Some(AllowedSize {
        size: size_of(allowed.bounds)?,
        is_exact: allowed.is_exact,
    })
}

/// The sizes that a constraint allows. `None` is a constraint of another kind.
pub fn sizes<'a>(names: Names<'a>, tokens: &'a [Token<'a>]) -> Option<AllowedSize> {
    if is_extensible(tokens) {
        return Some(AllowedSize {
            size: size_of(UNBOUNDED)?,
            is_exact: true,
        });
    }
    sizes_within(names, size_items(tokens)?)
}

/// What of a constraint a notation leaves out.
pub fn loosening_of(tokens: &[Token<'_>]) -> Loosening {
    if has_text(tokens, b"COMPONENTS") || has_text(tokens, b"COMPONENT") {
        return Loosening::InnerConstraint;
    }
    if has_text(tokens, b"CONTAINING")
        || has_text(tokens, b"ENCODED")
        || has_text(tokens, b"CONSTRAINED")
    {
        return Loosening::Contents;
    }
    Loosening::Constraint
}

// A size with one more constraint, or whether the constraint is omitted.
fn constrain_size<'a>(names: Names<'a>, size: &mut Size, tokens: &'a [Token<'a>]) -> bool {
    match sizes(names, tokens) {
        Some(allowed) => {
            *size = both_sizes(*size, allowed.size);
            !allowed.is_exact
        }
        None => true,
    }
}

// Bounds with one more constraint, or whether the constraint is omitted.
fn constrain_numbers<'a>(
    names: Names<'a>,
    bounds: &mut IntegerBounds,
    tokens: &'a [Token<'a>],
) -> bool {
    match numbers(names, tokens) {
        Some(allowed) => {
            *bounds = both_bounds(*bounds, allowed.bounds);
            !allowed.is_exact
        }
        None => true,
    }
}

/// Adds the constraint after SIZE, before OF, to a list, and says whether the list accepts more.
pub fn constrain_list<'a>(
    names: Names<'a>,
    notation: &mut Notation,
    tokens: &'a [Token<'a>],
) -> bool
    ensures { DiffersInBounds notation.old notation.new }
{
    match notation {
        Notation::SequenceOf(_, size) => constrain_items(names, size, tokens),
        Notation::SetOf(_, size) => constrain_items(names, size, tokens),
        _ => true,
    }
}

// A size with the constraint after SIZE, before OF, or whether the constraint is omitted.
fn constrain_items<'a>(names: Names<'a>, size: &mut Size, tokens: &'a [Token<'a>]) -> bool {
    match sizes_within(names, tokens) {
        Some(allowed) => {
            *size = both_sizes(*size, allowed.size);
            !allowed.is_exact
        }
        None => true,
    }
}

// The size of a string with one more constraint, or whether the constraint is omitted.
fn constrain_text<'a>(
    names: Names<'a>,
    kind: TextKind,
    size: &mut Size,
    tokens: &'a [Token<'a>],
) -> bool {
    let accepts_more = constrain_size(names, size, tokens);
    accepts_more || matches!(kind, TextKind::Bmp)
}

/// Adds a constraint to a notation, and says whether the notation accepts more. Sizes of named bits and of a BMPString aren't tested.
pub fn constrain<'a>(names: Names<'a>, notation: &mut Notation, tokens: &'a [Token<'a>]) -> bool
    ensures { DiffersInBounds notation.old notation.new }
{
    match notation {
        Notation::Integer(bounds, _) => constrain_numbers(names, bounds, tokens),
        Notation::NamedBits(size, _) => {
            let _ = constrain_size(names, size, tokens);
            true
        }
        Notation::Text(kind, size) => constrain_text(names, *kind, size, tokens),
        Notation::OctetString(size) => constrain_size(names, size, tokens),
        Notation::BitString(size) => constrain_size(names, size, tokens),
        Notation::SequenceOf(_, size) => constrain_size(names, size, tokens),
        Notation::SetOf(_, size) => constrain_size(names, size, tokens),
        _ => true,
    }
}
