//! An example of `Set`.
//!
//! ```text
//! Person ::= SET { age [1] IMPLICIT INTEGER, member BOOLEAN, married [0] IMPLICIT BOOLEAN OPTIONAL }
//! ```
//!
//! The type names the parts in the order of their tags.
ghost use Rattle.std.specs.Prelude.{◌≡◌, refl};
ghost use Rattle.std.proofs.Common.{arith};
ghost use Rattle.yasna_notation.specs.Canonical.{represented_written};
ghost use Rattle.yasna_notation.specs.Laws.{represented_lawful, element_non_empty};
ghost use Rattle.yasna_notation.specs.Making.{in_implicit, optional_part, part};
ghost use Rattle.yasna_notation.specs.Notation.{represented_by};
ghost use Rattle.yasna_notation.specs.Parts.{no_parts};
ghost use Rattle.yasna_notation.specs.Writing.{no_part_written, optional_written, part_written, under_context};
ghost use Rattle.yasna_notation.specs.contracts.canonical.I64CanonicalNotation.TheImpl.Laws.{written-law as int64_written};
ghost use Rattle.yasna_notation.specs.contracts.canonical.BoolCanonicalNotation.TheImpl.Laws.{written-law as boolean_written};
ghost use Rattle.yasna_notation_types.specs.SetParts.{no_set_parts, set_lawful, set_writes, set_option, set_part};
ghost use Rattle.yasna_notation.specs.contracts.simple.I64Notation.TheImpl.Laws.{lawful-law as int64};
ghost use Rattle.yasna_notation.specs.contracts.simple.BoolNotation.TheImpl.Laws.{lawful-law as boolean};

use yasna_base::tags::TAG_SET;
use yasna_base::{ASN1Result, BERMode, Tag};
use yasna_notation::{
    CanonicalNotation, Context, Implicit, Message, Notation, Optional, Represents, read_as,
};
use yasna_notation_types::Set;
use yasna_reader::BERReader;
use yasna_writer::{DERWriter, PrependBuffer};

type Parts = (
    bool,
    (
        Optional<Implicit<Context<0>, bool>>,
        (Implicit<Context<1>, i64>, ()),
    ),
);

type Fields = (bool, (Option<bool>, (i64, ())));

/// A person.
#[derive(Drop)]
pub struct Person {
    pub member: bool,
    pub married: Option<bool>,
    pub age: i64,
}

impl Represents<Fields> for Person {
    ghost value_of = { λ v. (v.member, (v.married, (v.age, tt))) };

    fn from_value((member, (married, (age, ()))): Fields) -> Person {
        Person {
            member,
            married,
            age,
        }
    }
}

impl Notation for Person {
    type Value = Person;

    type Inner = ();

    ghost means = { represented_by ⟦<Person as Represents<Fields>>⟧.value_of ⟦<Set<Parts> as Notation>⟧.means };

    fn has_tag(tag: Tag) -> bool {
        tag == TAG_SET
    }

    fn read(reader: BERReader) -> ASN1Result<Person> {
        read_as::<Set<Parts>, Person>(reader)
    }

    fn write(value: &Person, writer: DERWriter<'_>) -> ASN1Result<()> {
        Set::<Parts>::write_fields((&value.member, (&value.married, (&value.age, ()))), writer)
    }

    fn prepend(value: &Person, under: Option<Tag>, out: &mut PrependBuffer) -> ASN1Result<()> {
        Set::<Parts>::prepend_fields(
            (&value.member, (&value.married, (&value.age, ()))),
            under,
            out,
        )
    }

    fn encoded_len(value: &Person, under: Option<Tag>, mode: BERMode) -> Option<usize> {
        Set::<Parts>::fields_len(
            (&value.member, (&value.married, (&value.age, ()))),
            under,
            mode,
        )
    }

    ghost lawful = { λ _. represented_lawful ⟦<Person as Represents<Fields>>⟧.value_of (set_lawful
        (part (boolean refl).own (optional_part refl (in_implicit 0 (omega arith) (boolean refl)).own
        (part (in_implicit 1 (omega arith) (int64 refl)).own no_parts)))
        (set_part (boolean refl).own (set_option (in_implicit 0 (omega arith) (boolean refl)).own
        (set_part (in_implicit 1 (omega arith) (int64 refl)).own no_set_parts refl refl) refl refl) refl refl)) };

    ghost non_empty = { λ u m v. element_non_empty _ _ _ _ };
}

impl Message for Person {
    ghost is_unambiguous = { refl };
}

impl CanonicalNotation for Person {
    ghost written = { λ _. represented_written ⟦<Person as Represents<Fields>>⟧.value_of (set_writes
        (part_written (boolean_written refl).own (optional_written (under_context 0 (omega arith) (boolean_written refl)).own
        (part_written (under_context 1 (omega arith) (int64_written refl)).own no_part_written)))
        (set_part (boolean refl).own (set_option (in_implicit 0 (omega arith) (boolean refl)).own
        (set_part (in_implicit 1 (omega arith) (int64 refl)).own no_set_parts refl refl) refl refl) refl refl)) };
}
