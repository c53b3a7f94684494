//! `IssuingDistributionPoint` of the module PKIX1Implicit88.
//!
//! ```text
//! IssuingDistributionPoint ::= SEQUENCE {
//!     distributionPoint           [0] DistributionPointName OPTIONAL,
//!     onlyContainsUserCerts       [1] BOOLEAN DEFAULT FALSE,
//!     onlyContainsCACerts         [2] BOOLEAN DEFAULT FALSE,
//!     onlySomeReasons             [3] ReasonFlags OPTIONAL,
//!     indirectCRL                 [4] BOOLEAN DEFAULT FALSE,
//!     onlyContainsAttributeCerts  [5] BOOLEAN DEFAULT FALSE }
//! ```
ghost use Rattle.std.specs.Prelude.{◌≡◌, ◌↔◌, IsTrue, not, false, refl};
ghost use Rattle.std.proofs.Common.{arith};
ghost use Rattle.yasna_notation.specs.Laws.{element_non_empty, represented_lawful};
ghost use Rattle.yasna_notation.specs.Making.{default_part, in_explicit, in_implicit, in_sequence, optional_part};
ghost use Rattle.yasna_notation.specs.Notation.{represented_by};
ghost use Rattle.yasna_notation.specs.Parts.{detects_false};
ghost use Rattle.yasna_notation.specs.contracts.simple.BoolNotation.TheImpl.Laws.{lawful-law as flag_law};
ghost use Rattle.pkix_implicit.specs.contracts.distribution_point_name.DistributionPointNameNotation.TheImpl.Laws.{lawful-law as distribution_point_name_law};
ghost use Rattle.pkix_implicit.specs.contracts.issuing_distribution_point_parts2.IssuingDistributionPointParts2Parts.TheImpl.Laws.{laws-law as issuing_distribution_point_parts2_parts};

use crate::distribution_point_name::DistributionPointName;
use crate::issuing_distribution_point_parts2::IssuingDistributionPointParts2;
use yasna::{ASN1Result, BERMode, BERReader, DERWriter, PrependBuffer, Tag};
use yasna_notation::{
    Context, Default, Explicit, Implicit, Message, Notation, Optional, Represents, Sequence,
    read_as,
};
use yasna_notation_constraints::{Checked, Unset, accepts_fields};

type Parts = (
    Optional<Explicit<Context<0>, DistributionPointName>>,
    (
        Default<Implicit<Context<1>, bool>, Unset>,
        (
            Default<Implicit<Context<2>, bool>, Unset>,
            IssuingDistributionPointParts2,
        ),
    ),
);

type Fields = (
    Option<DistributionPointName>,
    (bool, (bool, IssuingDistributionPointParts2)),
);

type Notated = Sequence<Parts>;

/// `IssuingDistributionPoint`.
#[derive(Drop)]
pub struct IssuingDistributionPoint {
    pub distribution_point: Option<DistributionPointName>,
    pub only_contains_user_certs: bool,
    pub only_contains_ca_certs: bool,
    pub only_some_reasons: Option<(Vec<u8>, usize)>,
    pub indirect_crl: bool,
    pub only_contains_attribute_certs: bool,
}

impl Represents<Fields> for IssuingDistributionPoint {
    ghost value_of = { λ v. (v.distribution_point, (v.only_contains_user_certs, (v.only_contains_ca_certs, record { only_some_reasons = v.only_some_reasons; indirect_crl = v.indirect_crl; only_contains_attribute_certs = v.only_contains_attribute_certs }))) };

    fn from_value(
        (
            distribution_point,
            (
                only_contains_user_certs,
                (
                    only_contains_ca_certs,
                    IssuingDistributionPointParts2 {
                        only_some_reasons,
                        indirect_crl,
                        only_contains_attribute_certs,
                    },
                ),
            ),
        ): Fields,
    ) -> IssuingDistributionPoint {
        IssuingDistributionPoint {
            distribution_point,
            only_contains_user_certs,
            only_contains_ca_certs,
            only_some_reasons,
            indirect_crl,
            only_contains_attribute_certs,
        }
    }
}

impl Notation for IssuingDistributionPoint {
    type Value = IssuingDistributionPoint;

    type Inner = ();

    ghost means = { represented_by ⟦<IssuingDistributionPoint as Represents<Fields>>⟧.value_of ⟦<Notated as Notation>⟧.means };

    fn has_tag(tag: Tag) -> bool {
        <Notated as Notation>::has_tag(tag)
    }

    fn read(reader: BERReader) -> ASN1Result<IssuingDistributionPoint> {
        read_as::<Notated, IssuingDistributionPoint>(reader)
    }

    fn write(value: &IssuingDistributionPoint, writer: DERWriter<'_>) -> ASN1Result<()> {
        Sequence::<Parts>::write_fields(
            (
                &value.distribution_point,
                (
                    &value.only_contains_user_certs,
                    (&value.only_contains_ca_certs, value),
                ),
            ),
            writer,
        )
    }

    fn prepend(
        value: &IssuingDistributionPoint,
        under: Option<Tag>,
        out: &mut PrependBuffer,
    ) -> ASN1Result<()> {
        Sequence::<Parts>::prepend_fields(
            (
                &value.distribution_point,
                (
                    &value.only_contains_user_certs,
                    (&value.only_contains_ca_certs, value),
                ),
            ),
            under,
            out,
        )
    }

    fn encoded_len(
        value: &IssuingDistributionPoint,
        under: Option<Tag>,
        mode: BERMode,
    ) -> Option<usize> {
        Sequence::<Parts>::fields_len(
            (
                &value.distribution_point,
                (
                    &value.only_contains_user_certs,
                    (&value.only_contains_ca_certs, value),
                ),
            ),
            under,
            mode,
        )
    }

    ghost lawful = { λ _. represented_lawful ⟦<IssuingDistributionPoint as Represents<Fields>>⟧.value_of (in_sequence
        (optional_part refl (in_explicit 0 (omega arith) (distribution_point_name_law refl).own).own (default_part not false detects_false refl
        (in_implicit 1 (omega arith) (flag_law refl)).own (default_part not false detects_false refl (in_implicit 2
        (omega arith) (flag_law refl)).own (issuing_distribution_point_parts2_parts refl))))) };

    ghost non_empty = { λ u m v. element_non_empty _ _ _ _ };
}

impl Message for IssuingDistributionPoint {
    ghost is_unambiguous = { refl };
}

impl Checked for IssuingDistributionPoint {
    fn accepts(value: &IssuingDistributionPoint) -> bool {
        accepts_fields::<Parts, _>((
            &value.distribution_point,
            (
                &value.only_contains_user_certs,
                (&value.only_contains_ca_certs, value),
            ),
        ))
    }
}
