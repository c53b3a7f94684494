//! `BasicConstraints` of the module PKIX1Implicit88.
//!
//! ```text
//! BasicConstraints ::= SEQUENCE {
//!     cA                 BOOLEAN DEFAULT FALSE,
//!     pathLenConstraint  INTEGER (0..MAX) OPTIONAL }
//! ```
ghost use Rattle.std.specs.Prelude.{◌≡◌, ◌↔◌, IsTrue, int_le, not, pos, false, refl};
ghost use Rattle.yasna_base.specs.Integer.{twos};
ghost use Rattle.yasna_base.proofs.Coding.{equal_same};
ghost use Rattle.yasna_base.proofs.Default.{default_alike, default_written};
ghost use Rattle.yasna_bytes.specs.Contents.{big_integer_in};
ghost use Rattle.yasna_notation.specs.Bounded.{passes_alike, within_lawful};
ghost use Rattle.yasna_notation.specs.Canonical.{bounded_written, represented_written};
ghost use Rattle.yasna_notation.specs.Laws.{element_non_empty, represented_lawful};
ghost use Rattle.yasna_notation.specs.Making.{default_part, in_sequence, optional_part};
ghost use Rattle.yasna_notation.specs.Notation.{represented_by};
ghost use Rattle.yasna_notation.specs.Parts.{detects_false, no_parts};
ghost use Rattle.yasna_notation.specs.Writing.{no_part_written, optional_written, part_written, sequence_written};
ghost use Rattle.yasna_notation_constraints.specs.Numbers.{same_number};
ghost use Rattle.yasna_notation.specs.contracts.simple.BoolNotation.TheImpl.Laws.{lawful-law as flag_law};
ghost use Rattle.yasna_notation.specs.contracts.canonical.BoolCanonicalNotation.TheImpl.Laws.{written-law as flag_written};
ghost use Rattle.yasna_notation.specs.contracts.simple.BigIntegerNotation.TheImpl.Laws.{lawful-law as big_law};
ghost use Rattle.yasna_notation.specs.contracts.canonical.BigIntegerCanonicalNotation.TheImpl.Laws.{written-law as big_written};

use yasna::{ASN1Result, BERMode, BERReader, DERWriter, PrependBuffer, Tag};
use yasna_notation::{
    BigInteger, Bounded, CanonicalNotation, Default, False, Message, Notation, Optional,
    Represents, Sequence, read_as,
};
use yasna_notation_constraints::{Checked, IntegerFrom, accepts_fields};

type Parts = (
    Default<bool, False>,
    (Optional<Bounded<BigInteger, IntegerFrom<0>>>, ()),
);

type Fields = (bool, (Option<(Vec<u8>, bool)>, ()));

type Notated = Sequence<Parts>;

/// `BasicConstraints`.
#[derive(Drop)]
pub struct BasicConstraints {
    pub ca: bool,
    pub path_len_constraint: Option<(Vec<u8>, bool)>,
}

impl Represents<Fields> for BasicConstraints {
    ghost value_of = { λ v. (v.ca, (v.path_len_constraint, tt)) };

    fn from_value((ca, (path_len_constraint, ())): Fields) -> BasicConstraints {
        BasicConstraints {
            ca,
            path_len_constraint,
        }
    }
}

impl Notation for BasicConstraints {
    type Value = BasicConstraints;

    type Inner = ();

    ghost means = { represented_by ⟦<BasicConstraints as Represents<Fields>>⟧.value_of ⟦<Notated as Notation>⟧.means };

    fn has_tag(tag: Tag) -> bool {
        <Notated as Notation>::has_tag(tag)
    }

    fn read(reader: BERReader) -> ASN1Result<BasicConstraints> {
        read_as::<Notated, BasicConstraints>(reader)
    }

    fn write(value: &BasicConstraints, writer: DERWriter<'_>) -> ASN1Result<()> {
        Sequence::<Parts>::write_fields((&value.ca, (&value.path_len_constraint, ())), writer)
    }

    fn prepend(
        value: &BasicConstraints,
        under: Option<Tag>,
        out: &mut PrependBuffer,
    ) -> ASN1Result<()> {
        Sequence::<Parts>::prepend_fields((&value.ca, (&value.path_len_constraint, ())), under, out)
    }

    fn encoded_len(value: &BasicConstraints, under: Option<Tag>, mode: BERMode) -> Option<usize> {
        Sequence::<Parts>::fields_len((&value.ca, (&value.path_len_constraint, ())), under, mode)
    }

    ghost lawful = { λ _. represented_lawful ⟦<BasicConstraints as Represents<Fields>>⟧.value_of (in_sequence
        (default_part not false detects_false refl (flag_law refl).own (optional_part refl (within_lawful (λ v. int_le
        (pos 0) (twos v.0.items)) (λ v w e. passes_alike (int_le (pos 0)) (same_number (big_integer_in v) (big_integer_in w) e))
        (big_law refl)).own no_parts))) };

    ghost non_empty = { λ u m v. element_non_empty _ _ _ _ };
}

impl Message for BasicConstraints {
    ghost is_unambiguous = { refl };
}

impl CanonicalNotation for BasicConstraints {
    ghost written = { λ _. represented_written ⟦<BasicConstraints as Represents<Fields>>⟧.value_of (sequence_written
        (part_written (default_written not (default_alike not false detects_false equal_same) (flag_written refl).own)
        (optional_written (bounded_written (λ v. int_le (pos 0) (twos v.0.items)) (λ v w e. passes_alike (int_le
        (pos 0)) (same_number (big_integer_in v) (big_integer_in w) e)) (big_written refl)).own no_part_written))) };
}

impl Checked for BasicConstraints {
    fn accepts(value: &BasicConstraints) -> bool {
        accepts_fields::<Parts, _>((&value.ca, (&value.path_len_constraint, ())))
    }
}
