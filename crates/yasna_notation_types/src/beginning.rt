//! With which tags parts may begin. So tags distinguish an OPTIONAL part from elements after it that may have any other tag.
ghost use Rattle.std.specs.Prelude.{◌≡◌, ◌||◌, ◌&&◌, Bool, true, false};
ghost use Rattle.yasna_base.specs.declared.tag.Tag.{Tag};
ghost use Rattle.yasna_notation_types.specs.Beginning.{BeginWithin, first_may, nothing_within, part_begins};

use yasna_notation::{Notation, Parts};

/// Parts that may begin only with tags that a test passes.
pub trait Beginning: Parts {
    // The test for the tags.
    ghost may: { Tag → Bool };

    // They begin with a tag that passes, or are empty.
    ghost within: { Self.unambiguous ≡ true → BeginWithin may Self.any_parts };
}

impl Beginning for () {
    ghost may = { λ t. false };

    ghost within = { λ a. nothing_within };
}

impl<A: Notation, W: Parts> Beginning for (A, W) {
    ghost may = { first_may A.means.tags_known A.means.tags };

    ghost within = { λ a. part_begins W.unambiguous W.any_parts (λ b. (A.lawful b).own) a };
}
