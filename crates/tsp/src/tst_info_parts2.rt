//! Parts of `TstInfo`, by one name: what the whole requires of them is proved here once.
ghost use Rattle.std.specs.Prelude.{◌≡◌, ◌↔◌, IsTrue, not, false, refl};
ghost use Rattle.std.proofs.Common.{arith};
ghost use Rattle.yasna_notation.specs.Making.{default_part, in_explicit, optional_part};
ghost use Rattle.yasna_notation.specs.Parts.{detects_false, represented_parts};
ghost use Rattle.yasna_notation.specs.contracts.simple.BoolNotation.TheImpl.Laws.{lawful-law as flag_law};
ghost use Rattle.yasna_notation.specs.contracts.simple.BigIntegerNotation.TheImpl.Laws.{lawful-law as big_law};
ghost use Rattle.pkix_implicit.specs.contracts.general_name.GeneralNameNotation.TheImpl.Laws.{lawful-law as pkix_implicit_general_name_law};
ghost use Rattle.tsp.specs.contracts.tst_info_parts3.TstInfoParts3Parts.TheImpl.Laws.{laws-law as tst_info_parts3_parts};

use crate::tst_info::TstInfo;
use crate::tst_info_parts3::TstInfoParts3;
use pkix_implicit::GeneralName;
use yasna::{ASN1Result, BERMode, BERReaderSeq, DERWriterSeq, PrependBuffer};
use yasna_notation::{
    BigInteger, Context, Default, Explicit, False, Optional, Parts, PartsBy, Represents,
    read_parts_as,
};
use yasna_notation_constraints::CheckedBy;

type Each = (
    Default<bool, False>,
    (
        Optional<BigInteger>,
        (Optional<Explicit<Context<0>, GeneralName>>, TstInfoParts3),
    ),
);

type Fields = (
    bool,
    (
        Option<(Vec<u8>, bool)>,
        (Option<GeneralName>, TstInfoParts3),
    ),
);

/// These parts, and what holds their values.
#[derive(Drop)]
pub struct TstInfoParts2 {
    pub ordering: bool,
    pub nonce: Option<(Vec<u8>, bool)>,
    pub tsa: Option<GeneralName>,
    /// The parts that follow.
    pub others: TstInfoParts3,
}

impl Represents<Fields> for TstInfoParts2 {
    ghost value_of = { λ v. (v.ordering, (v.nonce, (v.tsa, v.others))) };

    fn from_value((ordering, (nonce, (tsa, others))): Fields) -> TstInfoParts2 {
        TstInfoParts2 {
            ordering,
            nonce,
            tsa,
            others,
        }
    }
}

impl Parts for TstInfoParts2 {
    type Values = TstInfoParts2;

    type Inner = ();

    ghost tags_known = { ⟦<Each as Parts>⟧.tags_known };

    ghost tags = { ⟦<Each as Parts>⟧.tags };

    ghost unambiguous = { ⟦<Each as Parts>⟧.unambiguous };

    ghost parts = { λ m n v c. ⟦<Each as Parts>⟧.parts m n (⟦<TstInfoParts2 as Represents<Fields>>⟧.value_of v) c };

    ghost any_parts = { ⟦<Each as Parts>⟧.any_parts };

    ghost may_allocate = { ⟦<Each as Parts>⟧.may_allocate };

    ghost same = { λ v w. ⟦<Each as Parts>⟧.same (⟦<TstInfoParts2 as Represents<Fields>>⟧.value_of v) (⟦<TstInfoParts2 as Represents<Fields>>⟧.value_of w) };

    ghost encoding = { λ m v. ⟦<Each as Parts>⟧.encoding m (⟦<TstInfoParts2 as Represents<Fields>>⟧.value_of v) };

    ghost depth = { λ m v. ⟦<Each as Parts>⟧.depth m (⟦<TstInfoParts2 as Represents<Fields>>⟧.value_of v) };

    ghost can = { λ v. ⟦<Each as Parts>⟧.can (⟦<TstInfoParts2 as Represents<Fields>>⟧.value_of v) };

    ghost fits = { λ m n v. ⟦<Each as Parts>⟧.fits m n (⟦<TstInfoParts2 as Represents<Fields>>⟧.value_of v) };

    #[inline(always)]
    fn read_parts(seq: &mut BERReaderSeq) -> ASN1Result<TstInfoParts2> {
        read_parts_as::<Each, TstInfoParts2>(seq)
    }

    #[inline(always)]
    fn write_parts(value: &TstInfoParts2, seq: &mut DERWriterSeq) -> ASN1Result<()> {
        let fields = (&value.ordering, (&value.nonce, (&value.tsa, &value.others)));
        Each::write_each(&fields, seq)
    }

    ghost laws = { λ _. represented_parts ⟦<TstInfoParts2 as Represents<Fields>>⟧.value_of (default_part not false detects_false refl (flag_law refl).own (optional_part refl (big_law refl).own
        (optional_part refl (in_explicit 0 (omega arith) (pkix_implicit_general_name_law refl).own).own (tst_info_parts3_parts refl)))) };
}

impl<'a> PartsBy<&'a TstInfo> for TstInfoParts2 {
    type Held = TstInfoParts2;

    ghost held = { λ r. record { ordering = r.now.ordering; nonce = r.now.nonce; tsa = r.now.tsa; others = record { extensions = r.now.extensions } } };

    ghost encoding_by = { ⟦<TstInfoParts2 as Parts>⟧.encoding };

    ghost can_by = { ⟦<TstInfoParts2 as Parts>⟧.can };

    #[inline(always)]
    fn write_each(value: &&'a TstInfo, seq: &mut DERWriterSeq) -> ASN1Result<()> {
        let fields = (&value.ordering, (&value.nonce, (&value.tsa, *value)));
        Each::write_each(&fields, seq)
    }

    #[inline(always)]
    fn prepend_each(value: &&'a TstInfo, out: &mut PrependBuffer) -> ASN1Result<()> {
        let fields = (&value.ordering, (&value.nonce, (&value.tsa, *value)));
        Each::prepend_each(&fields, out)
    }

    #[inline(always)]
    fn each_len(value: &&'a TstInfo, mode: BERMode) -> Option<usize> {
        let fields = (&value.ordering, (&value.nonce, (&value.tsa, *value)));
        Each::each_len(&fields, mode)
    }
}

impl<'a> CheckedBy<&'a TstInfo> for TstInfoParts2 {
    type Held = TstInfoParts2;

    ghost held = { λ r. record { ordering = r.now.ordering; nonce = r.now.nonce; tsa = r.now.tsa; others = record { extensions = r.now.extensions } } };

    ghost can_by = { ⟦<TstInfoParts2 as Parts>⟧.can };

    #[inline(always)]
    fn accept_each(value: &&'a TstInfo) -> bool {
        let fields = (&value.ordering, (&value.nonce, (&value.tsa, *value)));
        Each::accept_each(&fields)
    }
}
