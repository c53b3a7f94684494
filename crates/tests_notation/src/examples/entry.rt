//! An example of `Set` with a DEFAULT, and of parts by one name: the number is in a struct of its own, as those of a long SET are in several.
//!
//! ```text
//! Entry ::= SET {
//!     number  INTEGER,
//!     flag    BOOLEAN DEFAULT FALSE }
//! ```
//!
//! The type names the parts in the order of their tags.
ghost use Rattle.std.specs.Prelude.{◌≡◌, refl};
ghost use Rattle.yasna_base.proofs.Canonical.{written_along};
ghost use Rattle.yasna_notation.specs.Making.{part};
ghost use Rattle.yasna_notation.specs.Parts.{no_parts, represented_parts};
ghost use Rattle.yasna_notation.specs.Writing.{no_part_written, part_written};
ghost use Rattle.yasna_notation.specs.contracts.canonical.I64CanonicalNotation.TheImpl.Laws.{written-law as int64_written};
ghost use Rattle.yasna_notation.specs.contracts.simple.I64Notation.TheImpl.Laws.{lawful-law as int64_law};
ghost use Rattle.yasna_notation_types.specs.SetParts.{no_set_parts, represented_set_parts, set_part};

use crate::values::Assigned;
use yasna::{ASN1Result, BERReaderSeq, BERReaderSet, DERWriterSeq};
use yasna_notation::{CanonicalParts, Default, False, Parts, PartsBy, Represents, read_parts_as};
use yasna_notation_types::{Set, SetParts, read_set_parts_as};

type Each = (i64, ());

/// The parts after the flag, and what holds their values.
#[derive(Drop)]
pub struct EntryNumber {
    number: i64,
}

impl Represents<Each> for EntryNumber {
    ghost value_of = { λ v. (v.number, tt) };

    fn from_value((number, ()): Each) -> EntryNumber {
        EntryNumber { number }
    }
}

impl Parts for EntryNumber {
    type Values = EntryNumber;

    type Inner = ();

    ghost tags_known = { ⟦<Each as Parts>⟧.tags_known };

    ghost tags = { ⟦<Each as Parts>⟧.tags };

    ghost unambiguous = { ⟦<Each as Parts>⟧.unambiguous };

    ghost parts = { λ m n v c. ⟦<Each as Parts>⟧.parts m n (⟦<EntryNumber as Represents<Each>>⟧.value_of v) c };

    ghost any_parts = { ⟦<Each as Parts>⟧.any_parts };

    ghost may_allocate = { ⟦<Each as Parts>⟧.may_allocate };

    ghost same = { λ v w. ⟦<Each as Parts>⟧.same (⟦<EntryNumber as Represents<Each>>⟧.value_of v) (⟦<EntryNumber as Represents<Each>>⟧.value_of w) };

    ghost encoding = { λ m v. ⟦<Each as Parts>⟧.encoding m (⟦<EntryNumber as Represents<Each>>⟧.value_of v) };

    ghost depth = { λ m v. ⟦<Each as Parts>⟧.depth m (⟦<EntryNumber as Represents<Each>>⟧.value_of v) };

    ghost can = { λ v. ⟦<Each as Parts>⟧.can (⟦<EntryNumber as Represents<Each>>⟧.value_of v) };

    ghost fits = { λ m n v. ⟦<Each as Parts>⟧.fits m n (⟦<EntryNumber as Represents<Each>>⟧.value_of v) };

    fn read_parts(seq: &mut BERReaderSeq) -> ASN1Result<EntryNumber> {
        read_parts_as::<Each, EntryNumber>(seq)
    }

    fn write_parts(value: &EntryNumber, seq: &mut DERWriterSeq) -> ASN1Result<()> {
        let fields = (&value.number, ());
        Each::write_each(&fields, seq)
    }

    ghost laws = { λ _. represented_parts ⟦<EntryNumber as Represents<Each>>⟧.value_of (part (int64_law refl).own no_parts) };
}

impl SetParts for EntryNumber {
    ghost set_tags = { ⟦<Each as SetParts>⟧.set_tags };

    ghost members = { ⟦<Each as SetParts>⟧.members };

    ghost picks = { λ m n v ps. ⟦<Each as SetParts>⟧.picks m n (⟦<EntryNumber as Represents<Each>>⟧.value_of v) ps };

    ghost set_unambiguous = { ⟦<Each as SetParts>⟧.set_unambiguous };

    fn read_set_parts(set: &mut BERReaderSet) -> ASN1Result<EntryNumber> {
        read_set_parts_as::<Each, EntryNumber>(set)
    }

    ghost set_laws = { λ _. represented_set_parts ⟦<EntryNumber as Represents<Each>>⟧.value_of (set_part (int64_law refl).own no_set_parts refl refl) };
}

impl CanonicalParts for EntryNumber {
    ghost written = { λ _. written_along ⟦<EntryNumber as Represents<Each>>⟧.value_of (part_written (int64_written refl).own no_part_written) };
}

/// An entry: its flag and its number.
pub struct Entry;

impl Assigned for Entry {
    type Notation = Set<(Default<bool, False>, EntryNumber)>;

    ghost unambiguous = { refl };
}
