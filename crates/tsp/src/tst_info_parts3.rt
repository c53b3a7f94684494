//! Parts of `TstInfo`, by one name: what the whole requires of them is proved here once.
ghost use Rattle.std.specs.Prelude.{◌≡◌, ◌↔◌, IsTrue, refl};
ghost use Rattle.std.proofs.Common.{arith};
ghost use Rattle.yasna_notation.specs.Making.{in_implicit, optional_part};
ghost use Rattle.yasna_notation.specs.Parts.{no_parts, represented_parts};
ghost use Rattle.x509.specs.contracts.extensions.ExtensionsNotation.TheImpl.Laws.{lawful-law as x509_extensions_law};

use crate::tst_info::TstInfo;
use x509::Extensions;
use yasna::{ASN1Result, BERMode, BERReaderSeq, DERWriterSeq, PrependBuffer};
use yasna_notation::{Context, Implicit, Optional, Parts, PartsBy, Represents, read_parts_as};
use yasna_notation_constraints::CheckedBy;

type Each = (Optional<Implicit<Context<1>, Extensions>>, ());

type Fields = (Option<Extensions>, ());

/// These parts, and what holds their values.
#[derive(Drop)]
pub struct TstInfoParts3 {
    pub extensions: Option<Extensions>,
}

impl Represents<Fields> for TstInfoParts3 {
    ghost value_of = { λ v. (v.extensions, tt) };

    fn from_value((extensions, ()): Fields) -> TstInfoParts3 {
        TstInfoParts3 { extensions }
    }
}

impl Parts for TstInfoParts3 {
    type Values = TstInfoParts3;

    type Inner = ();

    ghost tags_known = { ⟦<Each as Parts>⟧.tags_known };

    ghost tags = { ⟦<Each as Parts>⟧.tags };

    ghost unambiguous = { ⟦<Each as Parts>⟧.unambiguous };

    ghost parts = { λ m n v c. ⟦<Each as Parts>⟧.parts m n (⟦<TstInfoParts3 as Represents<Fields>>⟧.value_of v) c };

    ghost any_parts = { ⟦<Each as Parts>⟧.any_parts };

    ghost may_allocate = { ⟦<Each as Parts>⟧.may_allocate };

    ghost same = { λ v w. ⟦<Each as Parts>⟧.same (⟦<TstInfoParts3 as Represents<Fields>>⟧.value_of v) (⟦<TstInfoParts3 as Represents<Fields>>⟧.value_of w) };

    ghost encoding = { λ m v. ⟦<Each as Parts>⟧.encoding m (⟦<TstInfoParts3 as Represents<Fields>>⟧.value_of v) };

    ghost depth = { λ m v. ⟦<Each as Parts>⟧.depth m (⟦<TstInfoParts3 as Represents<Fields>>⟧.value_of v) };

    ghost can = { λ v. ⟦<Each as Parts>⟧.can (⟦<TstInfoParts3 as Represents<Fields>>⟧.value_of v) };

    ghost fits = { λ m n v. ⟦<Each as Parts>⟧.fits m n (⟦<TstInfoParts3 as Represents<Fields>>⟧.value_of v) };

    #[inline(always)]
    fn read_parts(seq: &mut BERReaderSeq) -> ASN1Result<TstInfoParts3> {
        read_parts_as::<Each, TstInfoParts3>(seq)
    }

    #[inline(always)]
    fn write_parts(value: &TstInfoParts3, seq: &mut DERWriterSeq) -> ASN1Result<()> {
        let fields = (&value.extensions, ());
        Each::write_each(&fields, seq)
    }

    ghost laws = { λ _. represented_parts ⟦<TstInfoParts3 as Represents<Fields>>⟧.value_of (optional_part refl (in_implicit 1 (omega arith) (x509_extensions_law refl)).own no_parts) };
}

impl<'a> PartsBy<&'a TstInfo> for TstInfoParts3 {
    type Held = TstInfoParts3;

    ghost held = { λ r. record { extensions = r.now.extensions } };

    ghost encoding_by = { ⟦<TstInfoParts3 as Parts>⟧.encoding };

    ghost can_by = { ⟦<TstInfoParts3 as Parts>⟧.can };

    #[inline(always)]
    fn write_each(value: &&'a TstInfo, seq: &mut DERWriterSeq) -> ASN1Result<()> {
        let fields = (&value.extensions, ());
        Each::write_each(&fields, seq)
    }

    #[inline(always)]
    fn prepend_each(value: &&'a TstInfo, out: &mut PrependBuffer) -> ASN1Result<()> {
        let fields = (&value.extensions, ());
        Each::prepend_each(&fields, out)
    }

    #[inline(always)]
    fn each_len(value: &&'a TstInfo, mode: BERMode) -> Option<usize> {
        let fields = (&value.extensions, ());
        Each::each_len(&fields, mode)
    }
}

impl<'a> CheckedBy<&'a TstInfo> for TstInfoParts3 {
    type Held = TstInfoParts3;

    ghost held = { λ r. record { extensions = r.now.extensions } };

    ghost can_by = { ⟦<TstInfoParts3 as Parts>⟧.can };

    #[inline(always)]
    fn accept_each(value: &&'a TstInfo) -> bool {
        let fields = (&value.extensions, ());
        Each::accept_each(&fields)
    }
}

impl<'a> PartsBy<&'a TstInfoParts3> for TstInfoParts3 {
    type Held = TstInfoParts3;

    ghost held = { λ r. r.now };

    ghost encoding_by = { ⟦<TstInfoParts3 as Parts>⟧.encoding };

    ghost can_by = { ⟦<TstInfoParts3 as Parts>⟧.can };

    #[inline(always)]
    fn write_each(value: &&'a TstInfoParts3, seq: &mut DERWriterSeq) -> ASN1Result<()> {
        <TstInfoParts3 as Parts>::write_parts(*value, seq)
    }
}
