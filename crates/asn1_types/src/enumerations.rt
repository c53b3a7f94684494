//! The items of an ENUMERATED, and their numbers (X.680, 20).

use crate::model::{Enumeration, EnumerationItem, Place};
use crate::problem::{Problem, ProblemKind, Stop, problem_at, problem_of_two};
use crate::scope::Scope;
use crate::tokens::{NamedItem, is, named_items, next_item};
use crate::values::{item_number, to_i64};
use asn1_syntax::Token;
use std::alloc::Global;

// An item, and its number if one is written.
#[derive(Clone, Copy)]
struct Written<'a> {
    name: Token<'a>,
    number: Option<i64>,
    is_addition: bool,
}

// The number that is written after an item.
fn written_number<'a>(
    scope: Scope<'a>,
    module: usize,
    item: NamedItem<'a>,
) -> Result<Option<i64>, Problem> {
    let Some(number) = item_number(scope, module, item)? else {
        return Ok(None);
    };
    match to_i64(number) {
        Some(number) => Ok(Some(number)),
        None => Err(problem_at(module, item.name, ProblemKind::NoNumber)),
    }
}

// The items as they are written.
fn written_items<'a>(
    alloc: Global,
    scope: Scope<'a>,
    module: usize,
    braces: &'a [Token<'a>],
) -> Result<Vec<Written<'a>>, Stop> {
    let mut written = Vec::new(alloc);
    let mut items = named_items(braces);
    for _ in 0..braces.len() {
        let Some(item) = next_item(&mut items) else {
            return Ok(written);
        };
        let number = written_number(scope, module, item)?;
        written.push(Written {
            name: item.name,
            number,
            is_addition: items.is_after_marker,
        })?;
    }
    Ok(written)
}

// Whether an item of the root has this number.
fn root_has_number(written: &[Written<'_>], number: i64) -> bool {
    written
        .iter()
        .any(|item| !item.is_addition && item.number == Some(number))
}

// Whether one of the items has this number.
fn has_number(items: &[EnumerationItem<'_>], number: i64) -> bool {
    items.iter().any(|item| item.number == number)
}

// The least number from `first` on that no item has.
fn free_number(written: &[Written<'_>], items: &[EnumerationItem<'_>], first: i64) -> Option<i64> {
    let mut number = first;
    for _ in 0..=written.len() {
        if !root_has_number(written, number) && !has_number(items, number) {
            return Some(number);
        }
        number = number.checked_add(1)?;
    }
    None
}

// The number after those of all additions, or zero.
fn after_additions(items: &[EnumerationItem<'_>]) -> Option<i64> {
    let mut first = 0i64;
    for item in items {
        if item.is_addition && item.number >= first {
            first = item.number.checked_add(1)?;
        }
    }
    Some(first)
}

// The number of an item without one (X.680, 20.3 and 20.6).
fn assigned_number(
    written: &[Written<'_>],
    items: &[EnumerationItem<'_>],
    is_addition: bool,
) -> Option<i64> {
    if is_addition {
        free_number(written, items, after_additions(items)?)
    } else {
        free_number(written, items, 0)
    }
}

// The place of an item.
fn place_of(module: usize, token: Token<'_>) -> Place {
    Place {
        module,
        offset: token.offset,
    }
}

// The item before an index that has a name, or a number.
fn twin_of(
    module: usize,
    written: &[Written<'_>],
    items: &[EnumerationItem<'_>],
    added: EnumerationItem<'_>,
    place: Place,
) -> Option<Problem> {
    for (item, source) in items.iter().zip(written.iter()) {
        let other = place_of(module, source.name);
        if item.name == added.name {
            return Some(problem_of_two(place, other, ProblemKind::SameName));
        }
        if item.number == added.number {
            return Some(problem_of_two(place, other, ProblemKind::SameNumber));
        }
    }
    None
}

// The items with their numbers.
fn numbered<'a>(
    alloc: Global,
    module: usize,
    written: &[Written<'a>],
) -> Result<Vec<EnumerationItem<'a>>, Stop> {
    let mut items = Vec::new(alloc);
    for item in written {
        let number = match item.number {
            Some(number) => Some(number),
            None => assigned_number(written, items.as_slice(), item.is_addition),
        };
        let Some(number) = number else {
            return Err(Stop::Rejected(problem_at(module, item.name, ProblemKind::NoNumber)));
        };
        let added = EnumerationItem {
            name: item.name.text,
            number,
            is_addition: item.is_addition,
        };
        let place = place_of(module, item.name);
        if let Some(problem) = twin_of(module, written, items.as_slice(), added, place) {
            return Err(Stop::Rejected(problem));
        }
        items.push(added)?;
    }
    Ok(items)
}

// Whether `...` is in braces.
fn has_marker(braces: &[Token<'_>]) -> bool {
    braces.iter().any(|token| is(*token, b"..."))
}

/// The items of an ENUMERATED in braces, which a module declares.
pub fn enumeration<'a>(
    alloc: Global,
    scope: Scope<'a>,
    module: usize,
    braces: &'a [Token<'a>],
) -> Result<Enumeration<'a>, Stop> {
    let written = written_items(alloc, scope, module, braces)?;
    let items = numbered(alloc, module, written.as_slice())?;
    Ok(Enumeration {
        items,
        is_extensible: has_marker(braces),
    })
}
