//! Parts of `RsaPrivateKey`, by one name: what the whole requires of them is proved here once.
ghost use Rattle.std.specs.Prelude.{◌≡◌, ◌↔◌, IsTrue, refl};
ghost use Rattle.yasna_base.proofs.Canonical.{written_along};
ghost use Rattle.yasna_notation.specs.Making.{optional_part, part};
ghost use Rattle.yasna_notation.specs.Parts.{no_parts, represented_parts};
ghost use Rattle.yasna_notation.specs.Writing.{no_part_written, optional_written, part_written};
ghost use Rattle.yasna_notation.specs.contracts.simple.BigIntegerNotation.TheImpl.Laws.{lawful-law as big_law};
ghost use Rattle.yasna_notation.specs.contracts.canonical.BigIntegerCanonicalNotation.TheImpl.Laws.{written-law as big_written};
ghost use Rattle.rsa_keys.specs.contracts.other_prime_infos.OtherPrimeInfosNotation.TheImpl.Laws.{lawful-law as other_prime_infos_law};
ghost use Rattle.rsa_keys.specs.contracts.other_prime_infos.OtherPrimeInfosCanonicalNotation.TheImpl.Laws.{written-law as other_prime_infos_written};

use crate::other_prime_infos::OtherPrimeInfos;
use crate::rsa_private_key::RsaPrivateKey;
use yasna::{ASN1Result, BERMode, BERReaderSeq, DERWriterSeq, PrependBuffer};
use yasna_notation::{
    BigInteger, CanonicalParts, Optional, Parts, PartsBy, Represents, read_parts_as,
};
use yasna_notation_constraints::CheckedBy;

type Each = (
    BigInteger,
    (BigInteger, (BigInteger, (Optional<OtherPrimeInfos>, ()))),
);

type Fields = (
    (Vec<u8>, bool),
    (
        (Vec<u8>, bool),
        ((Vec<u8>, bool), (Option<OtherPrimeInfos>, ())),
    ),
);

/// These parts, and what holds their values.
#[derive(Drop)]
pub struct RsaPrivateKeyParts2 {
    pub exponent1: (Vec<u8>, bool),
    pub exponent2: (Vec<u8>, bool),
    pub coefficient: (Vec<u8>, bool),
    pub other_prime_infos: Option<OtherPrimeInfos>,
}

impl Represents<Fields> for RsaPrivateKeyParts2 {
    ghost value_of = { λ v. (v.exponent1, (v.exponent2, (v.coefficient, (v.other_prime_infos, tt)))) };

    fn from_value(
        (exponent1, (exponent2, (coefficient, (other_prime_infos, ())))): Fields,
    ) -> RsaPrivateKeyParts2 {
        RsaPrivateKeyParts2 {
            exponent1,
            exponent2,
            coefficient,
            other_prime_infos,
        }
    }
}

impl Parts for RsaPrivateKeyParts2 {
    type Values = RsaPrivateKeyParts2;

    type Inner = ();

    ghost tags_known = { ⟦<Each as Parts>⟧.tags_known };

    ghost tags = { ⟦<Each as Parts>⟧.tags };

    ghost unambiguous = { ⟦<Each as Parts>⟧.unambiguous };

    ghost parts = { λ m n v c. ⟦<Each as Parts>⟧.parts m n (⟦<RsaPrivateKeyParts2 as Represents<Fields>>⟧.value_of v) c };

    ghost any_parts = { ⟦<Each as Parts>⟧.any_parts };

    ghost may_allocate = { ⟦<Each as Parts>⟧.may_allocate };

    ghost same = { λ v w. ⟦<Each as Parts>⟧.same (⟦<RsaPrivateKeyParts2 as Represents<Fields>>⟧.value_of v) (⟦<RsaPrivateKeyParts2 as Represents<Fields>>⟧.value_of w) };

    ghost encoding = { λ m v. ⟦<Each as Parts>⟧.encoding m (⟦<RsaPrivateKeyParts2 as Represents<Fields>>⟧.value_of v) };

    ghost depth = { λ m v. ⟦<Each as Parts>⟧.depth m (⟦<RsaPrivateKeyParts2 as Represents<Fields>>⟧.value_of v) };

    ghost can = { λ v. ⟦<Each as Parts>⟧.can (⟦<RsaPrivateKeyParts2 as Represents<Fields>>⟧.value_of v) };

    ghost fits = { λ m n v. ⟦<Each as Parts>⟧.fits m n (⟦<RsaPrivateKeyParts2 as Represents<Fields>>⟧.value_of v) };

    #[inline(always)]
    fn read_parts(seq: &mut BERReaderSeq) -> ASN1Result<RsaPrivateKeyParts2> {
        read_parts_as::<Each, RsaPrivateKeyParts2>(seq)
    }

    #[inline(always)]
    fn write_parts(value: &RsaPrivateKeyParts2, seq: &mut DERWriterSeq) -> ASN1Result<()> {
        let fields = (
            &value.exponent1,
            (
                &value.exponent2,
                (&value.coefficient, (&value.other_prime_infos, ())),
            ),
        );
        Each::write_each(&fields, seq)
    }

    ghost laws = { λ _. represented_parts ⟦<RsaPrivateKeyParts2 as Represents<Fields>>⟧.value_of (part (big_law refl).own (part (big_law refl).own (part (big_law refl).own (optional_part refl
        (other_prime_infos_law refl).own no_parts)))) };
}

impl<'a> PartsBy<&'a RsaPrivateKey> for RsaPrivateKeyParts2 {
    type Held = RsaPrivateKeyParts2;

    ghost held = { λ r. record { exponent1 = r.now.exponent1; exponent2 = r.now.exponent2; coefficient = r.now.coefficient; other_prime_infos = r.now.other_prime_infos } };

    ghost encoding_by = { ⟦<RsaPrivateKeyParts2 as Parts>⟧.encoding };

    ghost can_by = { ⟦<RsaPrivateKeyParts2 as Parts>⟧.can };

    #[inline(always)]
    fn write_each(value: &&'a RsaPrivateKey, seq: &mut DERWriterSeq) -> ASN1Result<()> {
        let fields = (
            &value.exponent1,
            (
                &value.exponent2,
                (&value.coefficient, (&value.other_prime_infos, ())),
            ),
        );
        Each::write_each(&fields, seq)
    }

    #[inline(always)]
    fn prepend_each(value: &&'a RsaPrivateKey, out: &mut PrependBuffer) -> ASN1Result<()> {
        let fields = (
            &value.exponent1,
            (
                &value.exponent2,
                (&value.coefficient, (&value.other_prime_infos, ())),
            ),
        );
        Each::prepend_each(&fields, out)
    }

    #[inline(always)]
    fn each_len(value: &&'a RsaPrivateKey, mode: BERMode) -> Option<usize> {
        let fields = (
            &value.exponent1,
            (
                &value.exponent2,
                (&value.coefficient, (&value.other_prime_infos, ())),
            ),
        );
        Each::each_len(&fields, mode)
    }
}

impl<'a> CheckedBy<&'a RsaPrivateKey> for RsaPrivateKeyParts2 {
    type Held = RsaPrivateKeyParts2;

    ghost held = { λ r. record { exponent1 = r.now.exponent1; exponent2 = r.now.exponent2; coefficient = r.now.coefficient; other_prime_infos = r.now.other_prime_infos } };

    ghost can_by = { ⟦<RsaPrivateKeyParts2 as Parts>⟧.can };

    #[inline(always)]
    fn accept_each(value: &&'a RsaPrivateKey) -> bool {
        let fields = (
            &value.exponent1,
            (
                &value.exponent2,
                (&value.coefficient, (&value.other_prime_infos, ())),
            ),
        );
        Each::accept_each(&fields)
    }
}

impl CanonicalParts for RsaPrivateKeyParts2 {
    ghost written = { λ _. written_along ⟦<RsaPrivateKeyParts2 as Represents<Fields>>⟧.value_of (part_written (big_written refl).own (part_written (big_written refl).own (part_written
        (big_written refl).own (optional_written (other_prime_infos_written refl).own no_part_written)))) };
}
