//! `Accuracy` of the module PKIXTSP.
//!
//! ```text
//! Accuracy ::= SEQUENCE {
//!     seconds  INTEGER OPTIONAL,
//!     millis   [0] INTEGER (1..999) OPTIONAL,
//!     micros   [1] INTEGER (1..999) OPTIONAL }
//! ```
ghost use Rattle.std.specs.Prelude.{◌≡◌, ◌↔◌, IsTrue, refl};
ghost use Rattle.std.proofs.Common.{arith};
ghost use Rattle.yasna_notation.specs.Canonical.{represented_written};
ghost use Rattle.yasna_notation.specs.Laws.{element_non_empty, represented_lawful};
ghost use Rattle.yasna_notation.specs.Making.{from_to, in_bound, in_implicit, in_sequence, optional_part};
ghost use Rattle.yasna_notation.specs.Notation.{represented_by};
ghost use Rattle.yasna_notation.specs.Parts.{no_parts};
ghost use Rattle.yasna_notation.specs.Writing.{bound_written, no_part_written, optional_written, sequence_written, under_context};
ghost use Rattle.yasna_notation.specs.contracts.simple.U64Notation.TheImpl.Laws.{lawful-law as number_law};
ghost use Rattle.yasna_notation.specs.contracts.canonical.U64CanonicalNotation.TheImpl.Laws.{written-law as number_written};
ghost use Rattle.yasna_notation.specs.contracts.simple.BigIntegerNotation.TheImpl.Laws.{lawful-law as big_law};
ghost use Rattle.yasna_notation.specs.contracts.canonical.BigIntegerCanonicalNotation.TheImpl.Laws.{written-law as big_written};

use yasna::{ASN1Result, BERMode, BERReader, DERWriter, PrependBuffer, Tag};
use yasna_notation::{
    BigInteger, Bounded, CanonicalNotation, Context, FromTo, Implicit, Message, Notation, Optional,
    Represents, Sequence, read_as,
};
use yasna_notation_constraints::{Checked, accepts_fields};

type Parts = (
    Optional<BigInteger>,
    (
        Optional<Implicit<Context<0>, Bounded<u64, FromTo<1, 999>>>>,
        (
            Optional<Implicit<Context<1>, Bounded<u64, FromTo<1, 999>>>>,
            (),
        ),
    ),
);

type Fields = (Option<(Vec<u8>, bool)>, (Option<u64>, (Option<u64>, ())));

type Notated = Sequence<Parts>;

/// `Accuracy`.
#[derive(Drop)]
pub struct Accuracy {
    pub seconds: Option<(Vec<u8>, bool)>,
    pub millis: Option<u64>,
    pub micros: Option<u64>,
}

impl Represents<Fields> for Accuracy {
    ghost value_of = { λ v. (v.seconds, (v.millis, (v.micros, tt))) };

    fn from_value((seconds, (millis, (micros, ()))): Fields) -> Accuracy {
        Accuracy {
            seconds,
            millis,
            micros,
        }
    }
}

impl Notation for Accuracy {
    type Value = Accuracy;

    type Inner = ();

    ghost means = { represented_by ⟦<Accuracy as Represents<Fields>>⟧.value_of ⟦<Notated as Notation>⟧.means };

    fn has_tag(tag: Tag) -> bool {
        <Notated as Notation>::has_tag(tag)
    }

    fn read(reader: BERReader) -> ASN1Result<Accuracy> {
        read_as::<Notated, Accuracy>(reader)
    }

    fn write(value: &Accuracy, writer: DERWriter<'_>) -> ASN1Result<()> {
        Sequence::<Parts>::write_fields(
            (&value.seconds, (&value.millis, (&value.micros, ()))),
            writer,
        )
    }

    fn prepend(value: &Accuracy, under: Option<Tag>, out: &mut PrependBuffer) -> ASN1Result<()> {
        Sequence::<Parts>::prepend_fields(
            (&value.seconds, (&value.millis, (&value.micros, ()))),
            under,
            out,
        )
    }

    fn encoded_len(value: &Accuracy, under: Option<Tag>, mode: BERMode) -> Option<usize> {
        Sequence::<Parts>::fields_len(
            (&value.seconds, (&value.millis, (&value.micros, ()))),
            under,
            mode,
        )
    }

    ghost lawful = { λ _. represented_lawful ⟦<Accuracy as Represents<Fields>>⟧.value_of (in_sequence
        (optional_part refl (big_law refl).own (optional_part refl (in_implicit 0 (omega arith) (in_bound (from_to 1 999)
        (number_law refl))).own (optional_part refl (in_implicit 1 (omega arith) (in_bound (from_to 1 999) (number_law refl))).own no_parts)))) };

    ghost non_empty = { λ u m v. element_non_empty _ _ _ _ };
}

impl Message for Accuracy {
    ghost is_unambiguous = { refl };
}

impl CanonicalNotation for Accuracy {
    ghost written = { λ _. represented_written ⟦<Accuracy as Represents<Fields>>⟧.value_of (sequence_written
        (optional_written (big_written refl).own (optional_written (under_context 0 (omega arith) (bound_written
        (from_to 1 999) (number_written refl))).own (optional_written (under_context 1 (omega arith) (bound_written
        (from_to 1 999) (number_written refl))).own no_part_written)))) };
}

impl Checked for Accuracy {
    fn accepts(value: &Accuracy) -> bool {
        accepts_fields::<Parts, _>((&value.seconds, (&value.millis, (&value.micros, ()))))
    }
}
