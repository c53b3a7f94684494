//! `PrivateKeyUsagePeriod` of the module PKIX1Implicit88.
//!
//! ```text
//! PrivateKeyUsagePeriod ::= SEQUENCE {
//!     notBefore  [0] GeneralizedTime OPTIONAL,
//!     notAfter   [1] GeneralizedTime OPTIONAL }
//! ```
ghost use Rattle.std.specs.Prelude.{◌≡◌, ◌↔◌, IsTrue, refl};
ghost use Rattle.std.proofs.Common.{arith};
ghost use Rattle.yasna_notation.specs.Canonical.{represented_written};
ghost use Rattle.yasna_notation.specs.Laws.{element_non_empty, represented_lawful};
ghost use Rattle.yasna_notation.specs.Making.{in_implicit, in_sequence, optional_part};
ghost use Rattle.yasna_notation.specs.Notation.{represented_by};
ghost use Rattle.yasna_notation.specs.Parts.{no_parts};
ghost use Rattle.yasna_notation.specs.Writing.{no_part_written, optional_written, sequence_written, under_context};
ghost use Rattle.yasna_notation.specs.contracts.times.GeneralizedTimeNotation.TheImpl.Laws.{lawful-law as general_law};
ghost use Rattle.yasna_notation.specs.contracts.canonical.GeneralizedTimeCanonicalNotation.TheImpl.Laws.{written-law as general_written};

use yasna::models::GeneralizedTime;
use yasna::{ASN1Result, BERMode, BERReader, DERWriter, PrependBuffer, Tag};
use yasna_notation::{
    CanonicalNotation, Context, Implicit, Message, Notation, Optional, Represents, Sequence,
    read_as,
};
use yasna_notation_constraints::{Checked, accepts_fields};

type Parts = (
    Optional<Implicit<Context<0>, GeneralizedTime>>,
    (Optional<Implicit<Context<1>, GeneralizedTime>>, ()),
);

type Fields = (Option<GeneralizedTime>, (Option<GeneralizedTime>, ()));

type Notated = Sequence<Parts>;

/// `PrivateKeyUsagePeriod`.
#[derive(Drop)]
pub struct PrivateKeyUsagePeriod {
    pub not_before: Option<GeneralizedTime>,
    pub not_after: Option<GeneralizedTime>,
}

impl Represents<Fields> for PrivateKeyUsagePeriod {
    ghost value_of = { λ v. (v.not_before, (v.not_after, tt)) };

    fn from_value((not_before, (not_after, ())): Fields) -> PrivateKeyUsagePeriod {
        PrivateKeyUsagePeriod {
            not_before,
            not_after,
        }
    }
}

impl Notation for PrivateKeyUsagePeriod {
    type Value = PrivateKeyUsagePeriod;

    type Inner = ();

    ghost means = { represented_by ⟦<PrivateKeyUsagePeriod as Represents<Fields>>⟧.value_of ⟦<Notated as Notation>⟧.means };

    fn has_tag(tag: Tag) -> bool {
        <Notated as Notation>::has_tag(tag)
    }

    fn read(reader: BERReader) -> ASN1Result<PrivateKeyUsagePeriod> {
        read_as::<Notated, PrivateKeyUsagePeriod>(reader)
    }

    fn write(value: &PrivateKeyUsagePeriod, writer: DERWriter<'_>) -> ASN1Result<()> {
        Sequence::<Parts>::write_fields((&value.not_before, (&value.not_after, ())), writer)
    }

    fn prepend(
        value: &PrivateKeyUsagePeriod,
        under: Option<Tag>,
        out: &mut PrependBuffer,
    ) -> ASN1Result<()> {
        Sequence::<Parts>::prepend_fields((&value.not_before, (&value.not_after, ())), under, out)
    }

    fn encoded_len(
        value: &PrivateKeyUsagePeriod,
        under: Option<Tag>,
        mode: BERMode,
    ) -> Option<usize> {
        Sequence::<Parts>::fields_len((&value.not_before, (&value.not_after, ())), under, mode)
    }

    ghost lawful = { λ _. represented_lawful ⟦<PrivateKeyUsagePeriod as Represents<Fields>>⟧.value_of (in_sequence
        (optional_part refl (in_implicit 0 (omega arith) (general_law refl)).own (optional_part refl (in_implicit 1
        (omega arith) (general_law refl)).own no_parts))) };

    ghost non_empty = { λ u m v. element_non_empty _ _ _ _ };
}

impl Message for PrivateKeyUsagePeriod {
    ghost is_unambiguous = { refl };
}

impl CanonicalNotation for PrivateKeyUsagePeriod {
    ghost written = { λ _. represented_written ⟦<PrivateKeyUsagePeriod as Represents<Fields>>⟧.value_of (sequence_written
        (optional_written (under_context 0 (omega arith) (general_written refl)).own (optional_written (under_context 1
        (omega arith) (general_written refl)).own no_part_written))) };
}

impl Checked for PrivateKeyUsagePeriod {
    fn accepts(value: &PrivateKeyUsagePeriod) -> bool {
        accepts_fields::<Parts, _>((&value.not_before, (&value.not_after, ())))
    }
}
