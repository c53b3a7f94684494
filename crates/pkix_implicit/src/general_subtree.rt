//! `GeneralSubtree` of the module PKIX1Implicit88.
//!
//! ```text
//! GeneralSubtree ::= SEQUENCE {
//!     base     GeneralName,
//!     minimum  [0] BaseDistance DEFAULT 0,
//!     maximum  [1] BaseDistance OPTIONAL }
//! ```
//!
//! It rejects numbers that the module allows:
//!
//! - `minimum`: a number past 64 bits is rejected.
ghost use Rattle.std.specs.Prelude.{◌≡◌, ◌↔◌, IsTrue, int_le, nat_eq, pos, refl};
ghost use Rattle.std.proofs.Common.{arith};
ghost use Rattle.yasna_base.specs.Integer.{twos};
ghost use Rattle.yasna_bytes.specs.Contents.{big_integer_in};
ghost use Rattle.yasna_notation.specs.Bounded.{passes_alike, within_lawful};
ghost use Rattle.yasna_notation.specs.Laws.{element_non_empty, represented_lawful};
ghost use Rattle.yasna_notation.specs.Making.{default_part, from_to, in_bound, in_implicit, in_sequence, optional_part, part};
ghost use Rattle.yasna_notation.specs.Notation.{represented_by};
ghost use Rattle.yasna_notation.specs.Parts.{detects_number, no_parts};
ghost use Rattle.yasna_notation_constraints.specs.Numbers.{same_number};
ghost use Rattle.yasna_notation.specs.contracts.simple.U64Notation.TheImpl.Laws.{lawful-law as number_law};
ghost use Rattle.yasna_notation.specs.contracts.simple.BigIntegerNotation.TheImpl.Laws.{lawful-law as big_law};
ghost use Rattle.pkix_implicit.specs.contracts.general_name.GeneralNameNotation.TheImpl.Laws.{lawful-law as general_name_law};

use crate::general_name::GeneralName;
use yasna::{ASN1Result, BERMode, BERReader, DERWriter, PrependBuffer, Tag};
use yasna_notation::{
    BigInteger, Bounded, Context, Default, FromTo, Implicit, Message, Notation, Optional,
    Represents, Sequence, read_as,
};
use yasna_notation_constraints::{Checked, IntegerFrom, Natural, accepts_fields};

type Parts = (
    GeneralName,
    (
        Default<Implicit<Context<0>, Bounded<u64, FromTo<0, 18446744073709551615>>>, Natural<0>>,
        (
            Optional<Implicit<Context<1>, Bounded<BigInteger, IntegerFrom<0>>>>,
            (),
        ),
    ),
);

type Fields = (GeneralName, (u64, (Option<(Vec<u8>, bool)>, ())));

type Notated = Sequence<Parts>;

/// `GeneralSubtree`.
#[derive(Drop)]
pub struct GeneralSubtree {
    pub base: GeneralName,
    pub minimum: u64,
    pub maximum: Option<(Vec<u8>, bool)>,
}

impl Represents<Fields> for GeneralSubtree {
    ghost value_of = { λ v. (v.base, (v.minimum, (v.maximum, tt))) };

    fn from_value((base, (minimum, (maximum, ()))): Fields) -> GeneralSubtree {
        GeneralSubtree {
            base,
            minimum,
            maximum,
        }
    }
}

impl Notation for GeneralSubtree {
    type Value = GeneralSubtree;

    type Inner = ();

    ghost means = { represented_by ⟦<GeneralSubtree as Represents<Fields>>⟧.value_of ⟦<Notated as Notation>⟧.means };

    fn has_tag(tag: Tag) -> bool {
        <Notated as Notation>::has_tag(tag)
    }

    fn read(reader: BERReader) -> ASN1Result<GeneralSubtree> {
        read_as::<Notated, GeneralSubtree>(reader)
    }

    fn write(value: &GeneralSubtree, writer: DERWriter<'_>) -> ASN1Result<()> {
        Sequence::<Parts>::write_fields(
            (&value.base, (&value.minimum, (&value.maximum, ()))),
            writer,
        )
    }

    fn prepend(
        value: &GeneralSubtree,
        under: Option<Tag>,
        out: &mut PrependBuffer,
    ) -> ASN1Result<()> {
        Sequence::<Parts>::prepend_fields(
            (&value.base, (&value.minimum, (&value.maximum, ()))),
            under,
            out,
        )
    }

    fn encoded_len(value: &GeneralSubtree, under: Option<Tag>, mode: BERMode) -> Option<usize> {
        Sequence::<Parts>::fields_len(
            (&value.base, (&value.minimum, (&value.maximum, ()))),
            under,
            mode,
        )
    }

    ghost lawful = { λ _. represented_lawful ⟦<GeneralSubtree as Represents<Fields>>⟧.value_of (in_sequence
        (part (general_name_law refl).own (default_part (λ v. nat_eq v 0) 0 (detects_number 0) refl (in_implicit 0
        (omega arith) (in_bound (from_to 0 18446744073709551615) (number_law refl))).own (optional_part refl (in_implicit 1
        (omega arith) (within_lawful (λ v. int_le (pos 0) (twos v.0.items)) (λ v w e. passes_alike (int_le (pos 0))
        (same_number (big_integer_in v) (big_integer_in w) e)) (big_law refl))).own no_parts)))) };

    ghost non_empty = { λ u m v. element_non_empty _ _ _ _ };
}

impl Message for GeneralSubtree {
    ghost is_unambiguous = { refl };
}

impl Checked for GeneralSubtree {
    fn accepts(value: &GeneralSubtree) -> bool {
        accepts_fields::<Parts, _>((&value.base, (&value.minimum, (&value.maximum, ()))))
    }
}
