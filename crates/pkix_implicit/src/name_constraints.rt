//! `NameConstraints` of the module PKIX1Implicit88.
//!
//! ```text
//! NameConstraints ::= SEQUENCE {
//!     permittedSubtrees  [0] GeneralSubtrees OPTIONAL,
//!     excludedSubtrees   [1] GeneralSubtrees OPTIONAL }
//! ```
ghost use Rattle.std.specs.Prelude.{◌≡◌, ◌↔◌, IsTrue, refl};
ghost use Rattle.std.proofs.Common.{arith};
ghost use Rattle.yasna_notation.specs.Laws.{element_non_empty, represented_lawful};
ghost use Rattle.yasna_notation.specs.Making.{in_implicit, in_sequence, optional_part};
ghost use Rattle.yasna_notation.specs.Notation.{represented_by};
ghost use Rattle.yasna_notation.specs.Parts.{no_parts};
ghost use Rattle.pkix_implicit.specs.contracts.general_subtrees.GeneralSubtreesNotation.TheImpl.Laws.{lawful-law as general_subtrees_law};

use crate::general_subtrees::GeneralSubtrees;
use yasna::{ASN1Result, BERMode, BERReader, DERWriter, PrependBuffer, Tag};
use yasna_notation::{
    Context, Implicit, Message, Notation, Optional, Represents, Sequence, read_as,
};
use yasna_notation_constraints::{Checked, accepts_fields};

type Parts = (
    Optional<Implicit<Context<0>, GeneralSubtrees>>,
    (Optional<Implicit<Context<1>, GeneralSubtrees>>, ()),
);

type Fields = (Option<GeneralSubtrees>, (Option<GeneralSubtrees>, ()));

type Notated = Sequence<Parts>;

/// `NameConstraints`.
#[derive(Drop)]
pub struct NameConstraints {
    pub permitted_subtrees: Option<GeneralSubtrees>,
    pub excluded_subtrees: Option<GeneralSubtrees>,
}

impl Represents<Fields> for NameConstraints {
    ghost value_of = { λ v. (v.permitted_subtrees, (v.excluded_subtrees, tt)) };

    fn from_value((permitted_subtrees, (excluded_subtrees, ())): Fields) -> NameConstraints {
        NameConstraints {
            permitted_subtrees,
            excluded_subtrees,
        }
    }
}

impl Notation for NameConstraints {
    type Value = NameConstraints;

    type Inner = ();

    ghost means = { represented_by ⟦<NameConstraints as Represents<Fields>>⟧.value_of ⟦<Notated as Notation>⟧.means };

    fn has_tag(tag: Tag) -> bool {
        <Notated as Notation>::has_tag(tag)
    }

    fn read(reader: BERReader) -> ASN1Result<NameConstraints> {
        read_as::<Notated, NameConstraints>(reader)
    }

    fn write(value: &NameConstraints, writer: DERWriter<'_>) -> ASN1Result<()> {
        Sequence::<Parts>::write_fields(
            (&value.permitted_subtrees, (&value.excluded_subtrees, ())),
            writer,
        )
    }

    fn prepend(
        value: &NameConstraints,
        under: Option<Tag>,
        out: &mut PrependBuffer,
    ) -> ASN1Result<()> {
        Sequence::<Parts>::prepend_fields(
            (&value.permitted_subtrees, (&value.excluded_subtrees, ())),
            under,
            out,
        )
    }

    fn encoded_len(value: &NameConstraints, under: Option<Tag>, mode: BERMode) -> Option<usize> {
        Sequence::<Parts>::fields_len(
            (&value.permitted_subtrees, (&value.excluded_subtrees, ())),
            under,
            mode,
        )
    }

    ghost lawful = { λ _. represented_lawful ⟦<NameConstraints as Represents<Fields>>⟧.value_of (in_sequence
        (optional_part refl (in_implicit 0 (omega arith) (general_subtrees_law refl)).own (optional_part refl (in_implicit 1
        (omega arith) (general_subtrees_law refl)).own no_parts))) };

    ghost non_empty = { λ u m v. element_non_empty _ _ _ _ };
}

impl Message for NameConstraints {
    ghost is_unambiguous = { refl };
}

impl Checked for NameConstraints {
    fn accepts(value: &NameConstraints) -> bool {
        accepts_fields::<Parts, _>((&value.permitted_subtrees, (&value.excluded_subtrees, ())))
    }
}
