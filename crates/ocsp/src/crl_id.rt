//! `CrlID` of the module OCSP.
//!
//! ```text
//! CrlID ::= SEQUENCE {
//!     crlUrl   [0] IA5String OPTIONAL,
//!     crlNum   [1] INTEGER OPTIONAL,
//!     crlTime  [2] GeneralizedTime OPTIONAL }
//! ```
ghost use Rattle.std.specs.Prelude.{◌≡◌, ◌↔◌, IsTrue, refl};
ghost use Rattle.std.proofs.Common.{arith};
ghost use Rattle.yasna_notation.specs.Canonical.{represented_written};
ghost use Rattle.yasna_notation.specs.Laws.{element_non_empty, represented_lawful};
ghost use Rattle.yasna_notation.specs.Making.{in_explicit, in_sequence, optional_part};
ghost use Rattle.yasna_notation.specs.Notation.{represented_by};
ghost use Rattle.yasna_notation.specs.Parts.{no_parts};
ghost use Rattle.yasna_notation.specs.Writing.{explicit_written, no_part_written, optional_written, sequence_written};
ghost use Rattle.yasna_notation.specs.contracts.simple.BigIntegerNotation.TheImpl.Laws.{lawful-law as big_law};
ghost use Rattle.yasna_notation.specs.contracts.canonical.BigIntegerCanonicalNotation.TheImpl.Laws.{written-law as big_written};
ghost use Rattle.yasna_notation.specs.contracts.strings.Ia5StringNotation.TheImpl.Laws.{lawful-law as ia5_law};
ghost use Rattle.yasna_notation.specs.contracts.canonical.Ia5StringCanonicalNotation.TheImpl.Laws.{written-law as ia5_written};
ghost use Rattle.yasna_notation.specs.contracts.times.GeneralizedTimeNotation.TheImpl.Laws.{lawful-law as general_law};
ghost use Rattle.yasna_notation.specs.contracts.canonical.GeneralizedTimeCanonicalNotation.TheImpl.Laws.{written-law as general_written};

use yasna::models::GeneralizedTime;
use yasna::{ASN1Result, BERMode, BERReader, DERWriter, PrependBuffer, Tag};
use yasna_notation::{
    BigInteger, CanonicalNotation, Context, Explicit, Ia5String, Message, Notation, Optional,
    Represents, Sequence, read_as,
};
use yasna_notation_constraints::{Checked, accepts_fields};

type Parts = (
    Optional<Explicit<Context<0>, Ia5String>>,
    (
        Optional<Explicit<Context<1>, BigInteger>>,
        (Optional<Explicit<Context<2>, GeneralizedTime>>, ()),
    ),
);

type Fields = (
    Option<String>,
    (Option<(Vec<u8>, bool)>, (Option<GeneralizedTime>, ())),
);

type Notated = Sequence<Parts>;

/// `CrlID`.
#[derive(Drop)]
pub struct CrlId {
    pub crl_url: Option<String>,
    pub crl_num: Option<(Vec<u8>, bool)>,
    pub crl_time: Option<GeneralizedTime>,
}

impl Represents<Fields> for CrlId {
    ghost value_of = { λ v. (v.crl_url, (v.crl_num, (v.crl_time, tt))) };

    fn from_value((crl_url, (crl_num, (crl_time, ()))): Fields) -> CrlId {
        CrlId {
            crl_url,
            crl_num,
            crl_time,
        }
    }
}

impl Notation for CrlId {
    type Value = CrlId;

    type Inner = ();

    ghost means = { represented_by ⟦<CrlId as Represents<Fields>>⟧.value_of ⟦<Notated as Notation>⟧.means };

    fn has_tag(tag: Tag) -> bool {
        <Notated as Notation>::has_tag(tag)
    }

    fn read(reader: BERReader) -> ASN1Result<CrlId> {
        read_as::<Notated, CrlId>(reader)
    }

    fn write(value: &CrlId, writer: DERWriter<'_>) -> ASN1Result<()> {
        Sequence::<Parts>::write_fields(
            (&value.crl_url, (&value.crl_num, (&value.crl_time, ()))),
            writer,
        )
    }

    fn prepend(value: &CrlId, under: Option<Tag>, out: &mut PrependBuffer) -> ASN1Result<()> {
        Sequence::<Parts>::prepend_fields(
            (&value.crl_url, (&value.crl_num, (&value.crl_time, ()))),
            under,
            out,
        )
    }

    fn encoded_len(value: &CrlId, under: Option<Tag>, mode: BERMode) -> Option<usize> {
        Sequence::<Parts>::fields_len(
            (&value.crl_url, (&value.crl_num, (&value.crl_time, ()))),
            under,
            mode,
        )
    }

    ghost lawful = { λ _. represented_lawful ⟦<CrlId as Represents<Fields>>⟧.value_of (in_sequence
        (optional_part refl (in_explicit 0 (omega arith) (ia5_law refl).own).own (optional_part refl (in_explicit 1
        (omega arith) (big_law refl).own).own (optional_part refl (in_explicit 2 (omega arith) (general_law refl).own).own no_parts)))) };

    ghost non_empty = { λ u m v. element_non_empty _ _ _ _ };
}

impl Message for CrlId {
    ghost is_unambiguous = { refl };
}

impl CanonicalNotation for CrlId {
    ghost written = { λ _. represented_written ⟦<CrlId as Represents<Fields>>⟧.value_of (sequence_written
        (optional_written (explicit_written (ia5_written refl).own 0 (omega arith)).own (optional_written (explicit_written
        (big_written refl).own 1 (omega arith)).own (optional_written (explicit_written (general_written refl).own 2
        (omega arith)).own no_part_written)))) };
}

impl Checked for CrlId {
    fn accepts(value: &CrlId) -> bool {
        accepts_fields::<Parts, _>((&value.crl_url, (&value.crl_num, (&value.crl_time, ()))))
    }
}
