//! Laws of the readings that callbacks are handed.
//!
//! These functions do nothing. Their contracts state laws that those who call this crate can rely on.
ghost use Rattle.std.specs.Prelude.{None, Result, ◌≡◌};
ghost use Rattle.yasna_base.specs.declared.error.ASN1Error.{ASN1Error};
ghost use Rattle.yasna_base.specs.declared.tag.Tag.{Tag};
ghost use Rattle.yasna_reader.specs.Sequence.{ReadsParts};
ghost use Rattle.yasna_reader.specs.Set.{RunsOnSet};
ghost use Rattle.yasna_reader.specs.SetLaws.{ListsAreOne, ListsAreSets, ReadsSet, SetsAreListed};
ghost use Rattle.yasna_reader.specs.State.{Reading, tag_of};

use crate::set::BERReaderSet;
use yasna_base::error::ASN1Result;

/// The elements that the callback of a SET is handed are exactly the contents of a SET as the grammar has it, up to their end:
/// there is a list of them exactly if there are such contents, and only one.
pub fn set_lists()
    ensures lists { ListsAreSets }
    ensures sets { SetsAreListed }
    ensures one { ListsAreOne }
{}

/// If `read_set` returns a value, there was a SET as the grammar has it, and the callback returned that value from all of its
/// elements, with no sticky error. If it rejects, there is no SET or the callback returned no value from it, unless memory ran
/// out.
pub fn set_reads<'a, T: Drop, F>()
where
    F: FnOnce(&mut BERReaderSet<'a, '_>) -> ASN1Result<T>,
    ensures { (f : F) (tag : Tag) (s z : Reading) (r : Result T ASN1Error) → ReadsParts (RunsOnSet F.FnOnce f) tag s r z → s.failed ≡ None → ReadsSet F.FnOnce f (tag_of s tag) s r z }
{}
