//! The names in the braces of an INTEGER or a BIT STRING (X.680, 19.5 and 22.3).
ghost use Rattle.asn1_types.specs.Context.{IsUnchanged};

use crate::model::{NamedNumber, NamedNumbers, Place};
use crate::plain::at;
use crate::problem::Stop;
use crate::resolver::Resolver;
use crate::scope::Scope;
use crate::tokens::{named_items, next_item};
use crate::values::item_number;
use asn1_syntax::Token;
use std::alloc::{AllocError, Global};

// The index of the names of which the first is at a place.
fn index_of(all: &[NamedNumbers<'_>], place: Place) -> Option<usize> {
    all.iter().position(|names| {
        names.place.module == place.module && names.place.offset == place.offset
    })
}

// The names in braces whose numbers are known.
fn items_of<'a>(
    alloc: Global,
    scope: Scope<'a>,
    module: usize,
    braces: &'a [Token<'a>],
) -> Result<Vec<NamedNumber<'a>>, AllocError> {
    let mut list = Vec::new(alloc);
    let mut items = named_items(braces);
    for _ in 0..braces.len() {
        let Some(item) = next_item(&mut items) else {
            break;
        };
        if let Ok(Some(number)) = item_number(scope, module, item) {
            list.push(NamedNumber {
                name: item.name.text,
                number,
            })?;
        }
    }
    Ok(list)
}

/// The index of the names in braces, which are recorded once. `None` if there are none.
pub fn names_in<'a>(
    r: &mut Resolver<'a>,
    module: usize,
    braces: &'a [Token<'a>],
) -> Result<Option<usize>, Stop>
    ensures { IsUnchanged r.old r.new }
{
    let [first, ..] = braces else {
        return Ok(None);
    };
    let place = at(module, *first);
    if let Some(index) = index_of(r.named_numbers.as_slice(), place) {
        return Ok(Some(index));
    }
    let index = r.named_numbers.len();
    let items = items_of(r.alloc, r.scope, module, braces)?;
    r.named_numbers.push(NamedNumbers { place, items })?;
    Ok(Some(index))
}
