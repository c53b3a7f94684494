//! `OtherPrimeInfo` of the module PKCS-1.
//!
//! ```text
//! OtherPrimeInfo ::= SEQUENCE {
//!     prime        INTEGER,
//!     exponent     INTEGER,
//!     coefficient  INTEGER }
//! ```
ghost use Rattle.std.specs.Prelude.{◌≡◌, ◌↔◌, IsTrue, refl};
ghost use Rattle.yasna_notation.specs.Canonical.{represented_written};
ghost use Rattle.yasna_notation.specs.Laws.{element_non_empty, represented_lawful};
ghost use Rattle.yasna_notation.specs.Making.{in_sequence, part};
ghost use Rattle.yasna_notation.specs.Notation.{represented_by};
ghost use Rattle.yasna_notation.specs.Parts.{no_parts};
ghost use Rattle.yasna_notation.specs.Writing.{no_part_written, part_written, sequence_written};
ghost use Rattle.yasna_notation.specs.contracts.simple.BigIntegerNotation.TheImpl.Laws.{lawful-law as big_law};
ghost use Rattle.yasna_notation.specs.contracts.canonical.BigIntegerCanonicalNotation.TheImpl.Laws.{written-law as big_written};

use yasna::{ASN1Result, BERMode, BERReader, DERWriter, PrependBuffer, Tag};
use yasna_notation::{
    BigInteger, CanonicalNotation, Message, Notation, Represents, Sequence, read_as,
};
use yasna_notation_constraints::{Checked, accepts_fields};

type Parts = (BigInteger, (BigInteger, (BigInteger, ())));

type Fields = ((Vec<u8>, bool), ((Vec<u8>, bool), ((Vec<u8>, bool), ())));

type Notated = Sequence<Parts>;

/// `OtherPrimeInfo`.
#[derive(Drop)]
pub struct OtherPrimeInfo {
    pub prime: (Vec<u8>, bool),
    pub exponent: (Vec<u8>, bool),
    pub coefficient: (Vec<u8>, bool),
}

impl Represents<Fields> for OtherPrimeInfo {
    ghost value_of = { λ v. (v.prime, (v.exponent, (v.coefficient, tt))) };

    fn from_value((prime, (exponent, (coefficient, ()))): Fields) -> OtherPrimeInfo {
        OtherPrimeInfo {
            prime,
            exponent,
            coefficient,
        }
    }
}

impl Notation for OtherPrimeInfo {
    type Value = OtherPrimeInfo;

    type Inner = ();

    ghost means = { represented_by ⟦<OtherPrimeInfo as Represents<Fields>>⟧.value_of ⟦<Notated as Notation>⟧.means };

    fn has_tag(tag: Tag) -> bool {
        <Notated as Notation>::has_tag(tag)
    }

    fn read(reader: BERReader) -> ASN1Result<OtherPrimeInfo> {
        read_as::<Notated, OtherPrimeInfo>(reader)
    }

    fn write(value: &OtherPrimeInfo, writer: DERWriter<'_>) -> ASN1Result<()> {
        Sequence::<Parts>::write_fields(
            (&value.prime, (&value.exponent, (&value.coefficient, ()))),
            writer,
        )
    }

    fn prepend(
        value: &OtherPrimeInfo,
        under: Option<Tag>,
        out: &mut PrependBuffer,
    ) -> ASN1Result<()> {
        Sequence::<Parts>::prepend_fields(
            (&value.prime, (&value.exponent, (&value.coefficient, ()))),
            under,
            out,
        )
    }

    fn encoded_len(value: &OtherPrimeInfo, under: Option<Tag>, mode: BERMode) -> Option<usize> {
        Sequence::<Parts>::fields_len(
            (&value.prime, (&value.exponent, (&value.coefficient, ()))),
            under,
            mode,
        )
    }

    ghost lawful = { λ _. represented_lawful ⟦<OtherPrimeInfo as Represents<Fields>>⟧.value_of (in_sequence
        (part (big_law refl).own (part (big_law refl).own (part (big_law refl).own no_parts)))) };

    ghost non_empty = { λ u m v. element_non_empty _ _ _ _ };
}

impl Message for OtherPrimeInfo {
    ghost is_unambiguous = { refl };
}

impl CanonicalNotation for OtherPrimeInfo {
    ghost written = { λ _. represented_written ⟦<OtherPrimeInfo as Represents<Fields>>⟧.value_of (sequence_written
        (part_written (big_written refl).own (part_written (big_written refl).own (part_written (big_written refl).own no_part_written)))) };
}

impl Checked for OtherPrimeInfo {
    fn accepts(value: &OtherPrimeInfo) -> bool {
        accepts_fields::<Parts, _>((&value.prime, (&value.exponent, (&value.coefficient, ()))))
    }
}
