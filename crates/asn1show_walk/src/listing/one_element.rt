//! Whether bytes are one element.
ghost use Rattle.std.specs.Prelude.{IsTrue, ◌↔◌};
ghost use Rattle.asn1show_walk.specs.WellFormed.{IsOne};

use crate::error::WalkError;
use crate::listing::item::Item;
use crate::listing::place::{Context, Place};
use crate::listing::{Visitor, list_element};

// A visitor that does nothing.
#[derive(Clone, Copy)]
struct Silent;

impl Visitor for Silent {
    ghost rejects = { λ _ _. ⊥ };

    fn visit(&mut self, _item: &Item<'_>) -> Result<(), WalkError> {
        Ok(())
    }

    fn descends_into(&self, _context: Context, _string: Place<'_>) -> bool {
        false
    }
}

/// Whether the bytes at a place are exactly one well formed element.
pub fn is_one_element(context: Context, place: Place<'_>) -> bool
    ensures { IsTrue result ↔ IsOne context.levels context.mode place.entry.left.now }
{
    match list_element(context, place, &mut Silent) {
        Ok(after) => after.left.is_empty(),
        Err(_) => false,
    }
}
