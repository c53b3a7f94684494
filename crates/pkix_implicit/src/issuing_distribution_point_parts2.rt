//! Parts of `IssuingDistributionPoint`, by one name: what the whole requires of them is proved here once.
ghost use Rattle.std.specs.Prelude.{◌≡◌, ◌↔◌, IsTrue, not, false, refl};
ghost use Rattle.std.proofs.Common.{arith};
ghost use Rattle.yasna_notation.specs.Making.{default_part, in_implicit, optional_part};
ghost use Rattle.yasna_notation.specs.Parts.{detects_false, no_parts, represented_parts};
ghost use Rattle.yasna_notation.specs.contracts.simple.BoolNotation.TheImpl.Laws.{lawful-law as flag_law};
ghost use Rattle.yasna_notation_types.specs.contracts.named_bits.NamedBitsNotation.TheImpl.Laws.{lawful-law as named_bits_law};

use crate::issuing_distribution_point::IssuingDistributionPoint;
use yasna::{ASN1Result, BERMode, BERReaderSeq, DERWriterSeq, PrependBuffer};
use yasna_notation::{
    Context, Default, Implicit, Optional, Parts, PartsBy, Represents, read_parts_as,
};
use yasna_notation_constraints::{CheckedBy, Unset};
use yasna_notation_types::NamedBits;

type Each = (
    Optional<Implicit<Context<3>, NamedBits>>,
    (
        Default<Implicit<Context<4>, bool>, Unset>,
        (Default<Implicit<Context<5>, bool>, Unset>, ()),
    ),
);

type Fields = (Option<(Vec<u8>, usize)>, (bool, (bool, ())));

/// These parts, and what holds their values.
#[derive(Drop)]
pub struct IssuingDistributionPointParts2 {
    pub only_some_reasons: Option<(Vec<u8>, usize)>,
    pub indirect_crl: bool,
    pub only_contains_attribute_certs: bool,
}

impl Represents<Fields> for IssuingDistributionPointParts2 {
    ghost value_of = { λ v. (v.only_some_reasons, (v.indirect_crl, (v.only_contains_attribute_certs, tt))) };

    fn from_value(
        (only_some_reasons, (indirect_crl, (only_contains_attribute_certs, ()))): Fields,
    ) -> IssuingDistributionPointParts2 {
        IssuingDistributionPointParts2 {
            only_some_reasons,
            indirect_crl,
            only_contains_attribute_certs,
        }
    }
}

impl Parts for IssuingDistributionPointParts2 {
    type Values = IssuingDistributionPointParts2;

    type Inner = ();

    ghost tags_known = { ⟦<Each as Parts>⟧.tags_known };

    ghost tags = { ⟦<Each as Parts>⟧.tags };

    ghost unambiguous = { ⟦<Each as Parts>⟧.unambiguous };

    ghost parts = { λ m n v c. ⟦<Each as Parts>⟧.parts m n (⟦<IssuingDistributionPointParts2 as Represents<Fields>>⟧.value_of v) c };

    ghost any_parts = { ⟦<Each as Parts>⟧.any_parts };

    ghost may_allocate = { ⟦<Each as Parts>⟧.may_allocate };

    ghost same = { λ v w. ⟦<Each as Parts>⟧.same (⟦<IssuingDistributionPointParts2 as Represents<Fields>>⟧.value_of v) (⟦<IssuingDistributionPointParts2 as Represents<Fields>>⟧.value_of w) };

    ghost encoding = { λ m v. ⟦<Each as Parts>⟧.encoding m (⟦<IssuingDistributionPointParts2 as Represents<Fields>>⟧.value_of v) };

    ghost depth = { λ m v. ⟦<Each as Parts>⟧.depth m (⟦<IssuingDistributionPointParts2 as Represents<Fields>>⟧.value_of v) };

    ghost can = { λ v. ⟦<Each as Parts>⟧.can (⟦<IssuingDistributionPointParts2 as Represents<Fields>>⟧.value_of v) };

    ghost fits = { λ m n v. ⟦<Each as Parts>⟧.fits m n (⟦<IssuingDistributionPointParts2 as Represents<Fields>>⟧.value_of v) };

    #[inline(always)]
    fn read_parts(seq: &mut BERReaderSeq) -> ASN1Result<IssuingDistributionPointParts2> {
        read_parts_as::<Each, IssuingDistributionPointParts2>(seq)
    }

    #[inline(always)]
    fn write_parts(
        value: &IssuingDistributionPointParts2,
        seq: &mut DERWriterSeq,
    ) -> ASN1Result<()> {
        let fields = (
            &value.only_some_reasons,
            (
                &value.indirect_crl,
                (&value.only_contains_attribute_certs, ()),
            ),
        );
        Each::write_each(&fields, seq)
    }

    ghost laws = { λ _. represented_parts ⟦<IssuingDistributionPointParts2 as Represents<Fields>>⟧.value_of (optional_part refl (in_implicit 3 (omega arith) (named_bits_law refl)).own (default_part not false detects_false refl
        (in_implicit 4 (omega arith) (flag_law refl)).own (default_part not false detects_false refl (in_implicit 5
        (omega arith) (flag_law refl)).own no_parts))) };
}

impl<'a> PartsBy<&'a IssuingDistributionPoint> for IssuingDistributionPointParts2 {
    type Held = IssuingDistributionPointParts2;

    ghost held = { λ r. record { only_some_reasons = r.now.only_some_reasons; indirect_crl = r.now.indirect_crl; only_contains_attribute_certs = r.now.only_contains_attribute_certs } };

    ghost encoding_by = { ⟦<IssuingDistributionPointParts2 as Parts>⟧.encoding };

    ghost can_by = { ⟦<IssuingDistributionPointParts2 as Parts>⟧.can };

    #[inline(always)]
    fn write_each(value: &&'a IssuingDistributionPoint, seq: &mut DERWriterSeq) -> ASN1Result<()> {
        let fields = (
            &value.only_some_reasons,
            (
                &value.indirect_crl,
                (&value.only_contains_attribute_certs, ()),
            ),
        );
        Each::write_each(&fields, seq)
    }

    #[inline(always)]
    fn prepend_each(
        value: &&'a IssuingDistributionPoint,
        out: &mut PrependBuffer,
    ) -> ASN1Result<()> {
        let fields = (
            &value.only_some_reasons,
            (
                &value.indirect_crl,
                (&value.only_contains_attribute_certs, ()),
            ),
        );
        Each::prepend_each(&fields, out)
    }

    #[inline(always)]
    fn each_len(value: &&'a IssuingDistributionPoint, mode: BERMode) -> Option<usize> {
        let fields = (
            &value.only_some_reasons,
            (
                &value.indirect_crl,
                (&value.only_contains_attribute_certs, ()),
            ),
        );
        Each::each_len(&fields, mode)
    }
}

impl<'a> CheckedBy<&'a IssuingDistributionPoint> for IssuingDistributionPointParts2 {
    type Held = IssuingDistributionPointParts2;

    ghost held = { λ r. record { only_some_reasons = r.now.only_some_reasons; indirect_crl = r.now.indirect_crl; only_contains_attribute_certs = r.now.only_contains_attribute_certs } };

    ghost can_by = { ⟦<IssuingDistributionPointParts2 as Parts>⟧.can };

    #[inline(always)]
    fn accept_each(value: &&'a IssuingDistributionPoint) -> bool {
        let fields = (
            &value.only_some_reasons,
            (
                &value.indirect_crl,
                (&value.only_contains_attribute_certs, ()),
            ),
        );
        Each::accept_each(&fields)
    }
}
