//! `DistributionPoint` of the module PKIX1Implicit88.
//!
//! ```text
//! DistributionPoint ::= SEQUENCE {
//!     distributionPoint  [0] DistributionPointName OPTIONAL,
//!     reasons            [1] ReasonFlags OPTIONAL,
//!     cRLIssuer          [2] GeneralNames OPTIONAL }
//! ```
ghost use Rattle.std.specs.Prelude.{◌≡◌, ◌↔◌, IsTrue, refl};
ghost use Rattle.std.proofs.Common.{arith};
ghost use Rattle.yasna_notation.specs.Laws.{element_non_empty, represented_lawful};
ghost use Rattle.yasna_notation.specs.Making.{in_explicit, in_implicit, in_sequence, optional_part};
ghost use Rattle.yasna_notation.specs.Notation.{represented_by};
ghost use Rattle.yasna_notation.specs.Parts.{no_parts};
ghost use Rattle.yasna_notation_types.specs.contracts.named_bits.NamedBitsNotation.TheImpl.Laws.{lawful-law as named_bits_law};
ghost use Rattle.pkix_implicit.specs.contracts.distribution_point_name.DistributionPointNameNotation.TheImpl.Laws.{lawful-law as distribution_point_name_law};
ghost use Rattle.pkix_implicit.specs.contracts.general_names.GeneralNamesNotation.TheImpl.Laws.{lawful-law as general_names_law};

use crate::distribution_point_name::DistributionPointName;
use crate::general_names::GeneralNames;
use yasna::{ASN1Result, BERMode, BERReader, DERWriter, PrependBuffer, Tag};
use yasna_notation::{
    Context, Explicit, Implicit, Message, Notation, Optional, Represents, Sequence, read_as,
};
use yasna_notation_constraints::{Checked, accepts_fields};
use yasna_notation_types::NamedBits;

type Parts = (
    Optional<Explicit<Context<0>, DistributionPointName>>,
    (
        Optional<Implicit<Context<1>, NamedBits>>,
        (Optional<Implicit<Context<2>, GeneralNames>>, ()),
    ),
);

type Fields = (
    Option<DistributionPointName>,
    (Option<(Vec<u8>, usize)>, (Option<GeneralNames>, ())),
);

type Notated = Sequence<Parts>;

/// `DistributionPoint`.
#[derive(Drop)]
pub struct DistributionPoint {
    pub distribution_point: Option<DistributionPointName>,
    pub reasons: Option<(Vec<u8>, usize)>,
    pub crl_issuer: Option<GeneralNames>,
}

impl Represents<Fields> for DistributionPoint {
    ghost value_of = { λ v. (v.distribution_point, (v.reasons, (v.crl_issuer, tt))) };

    fn from_value((distribution_point, (reasons, (crl_issuer, ()))): Fields) -> DistributionPoint {
        DistributionPoint {
            distribution_point,
            reasons,
            crl_issuer,
        }
    }
}

impl Notation for DistributionPoint {
    type Value = DistributionPoint;

    type Inner = ();

    ghost means = { represented_by ⟦<DistributionPoint as Represents<Fields>>⟧.value_of ⟦<Notated as Notation>⟧.means };

    fn has_tag(tag: Tag) -> bool {
        <Notated as Notation>::has_tag(tag)
    }

    fn read(reader: BERReader) -> ASN1Result<DistributionPoint> {
        read_as::<Notated, DistributionPoint>(reader)
    }

    fn write(value: &DistributionPoint, writer: DERWriter<'_>) -> ASN1Result<()> {
        Sequence::<Parts>::write_fields(
            (
                &value.distribution_point,
                (&value.reasons, (&value.crl_issuer, ())),
            ),
            writer,
        )
    }

    fn prepend(
        value: &DistributionPoint,
        under: Option<Tag>,
        out: &mut PrependBuffer,
    ) -> ASN1Result<()> {
        Sequence::<Parts>::prepend_fields(
            (
                &value.distribution_point,
                (&value.reasons, (&value.crl_issuer, ())),
            ),
            under,
            out,
        )
    }

    fn encoded_len(value: &DistributionPoint, under: Option<Tag>, mode: BERMode) -> Option<usize> {
        Sequence::<Parts>::fields_len(
            (
                &value.distribution_point,
                (&value.reasons, (&value.crl_issuer, ())),
            ),
            under,
            mode,
        )
    }

    ghost lawful = { λ _. represented_lawful ⟦<DistributionPoint as Represents<Fields>>⟧.value_of (in_sequence
        (optional_part refl (in_explicit 0 (omega arith) (distribution_point_name_law refl).own).own (optional_part refl
        (in_implicit 1 (omega arith) (named_bits_law refl)).own (optional_part refl (in_implicit 2 (omega arith)
        (general_names_law refl)).own no_parts)))) };

    ghost non_empty = { λ u m v. element_non_empty _ _ _ _ };
}

impl Message for DistributionPoint {
    ghost is_unambiguous = { refl };
}

impl Checked for DistributionPoint {
    fn accepts(value: &DistributionPoint) -> bool {
        accepts_fields::<Parts, _>((
            &value.distribution_point,
            (&value.reasons, (&value.crl_issuer, ())),
        ))
    }
}
