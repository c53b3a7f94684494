//! `RSAPublicKey` of the module PKCS-1.
//!
//! ```text
//! RSAPublicKey ::= SEQUENCE {
//!     modulus         INTEGER,
//!     publicExponent  INTEGER }
//! ```
ghost use Rattle.std.specs.Prelude.{◌≡◌, ◌↔◌, IsTrue, refl};
ghost use Rattle.yasna_notation.specs.Canonical.{represented_written};
ghost use Rattle.yasna_notation.specs.Laws.{element_non_empty, represented_lawful};
ghost use Rattle.yasna_notation.specs.Making.{in_sequence, part};
ghost use Rattle.yasna_notation.specs.Notation.{represented_by};
ghost use Rattle.yasna_notation.specs.Parts.{no_parts};
ghost use Rattle.yasna_notation.specs.Writing.{no_part_written, part_written, sequence_written};
ghost use Rattle.yasna_notation.specs.contracts.simple.BigIntegerNotation.TheImpl.Laws.{lawful-law as big_law};
ghost use Rattle.yasna_notation.specs.contracts.canonical.BigIntegerCanonicalNotation.TheImpl.Laws.{written-law as big_written};

use yasna::{ASN1Result, BERMode, BERReader, DERWriter, PrependBuffer, Tag};
use yasna_notation::{
    BigInteger, CanonicalNotation, Message, Notation, Represents, Sequence, read_as,
};
use yasna_notation_constraints::{Checked, accepts_fields};

type Parts = (BigInteger, (BigInteger, ()));

type Fields = ((Vec<u8>, bool), ((Vec<u8>, bool), ()));

type Notated = Sequence<Parts>;

/// `RSAPublicKey`.
#[derive(Drop)]
pub struct RsaPublicKey {
    pub modulus: (Vec<u8>, bool),
    pub public_exponent: (Vec<u8>, bool),
}

impl Represents<Fields> for RsaPublicKey {
    ghost value_of = { λ v. (v.modulus, (v.public_exponent, tt)) };

    fn from_value((modulus, (public_exponent, ())): Fields) -> RsaPublicKey {
        RsaPublicKey {
            modulus,
            public_exponent,
        }
    }
}

impl Notation for RsaPublicKey {
    type Value = RsaPublicKey;

    type Inner = ();

    ghost means = { represented_by ⟦<RsaPublicKey as Represents<Fields>>⟧.value_of ⟦<Notated as Notation>⟧.means };

    fn has_tag(tag: Tag) -> bool {
        <Notated as Notation>::has_tag(tag)
    }

    fn read(reader: BERReader) -> ASN1Result<RsaPublicKey> {
        read_as::<Notated, RsaPublicKey>(reader)
    }

    fn write(value: &RsaPublicKey, writer: DERWriter<'_>) -> ASN1Result<()> {
        Sequence::<Parts>::write_fields((&value.modulus, (&value.public_exponent, ())), writer)
    }

    fn prepend(
        value: &RsaPublicKey,
        under: Option<Tag>,
        out: &mut PrependBuffer,
    ) -> ASN1Result<()> {
        Sequence::<Parts>::prepend_fields(
            (&value.modulus, (&value.public_exponent, ())),
            under,
            out,
        )
    }

    fn encoded_len(value: &RsaPublicKey, under: Option<Tag>, mode: BERMode) -> Option<usize> {
        Sequence::<Parts>::fields_len((&value.modulus, (&value.public_exponent, ())), under, mode)
    }

    ghost lawful = { λ _. represented_lawful ⟦<RsaPublicKey as Represents<Fields>>⟧.value_of (in_sequence
        (part (big_law refl).own (part (big_law refl).own no_parts))) };

    ghost non_empty = { λ u m v. element_non_empty _ _ _ _ };
}

impl Message for RsaPublicKey {
    ghost is_unambiguous = { refl };
}

impl CanonicalNotation for RsaPublicKey {
    ghost written = { λ _. represented_written ⟦<RsaPublicKey as Represents<Fields>>⟧.value_of (sequence_written
        (part_written (big_written refl).own (part_written (big_written refl).own no_part_written))) };
}

impl Checked for RsaPublicKey {
    fn accepts(value: &RsaPublicKey) -> bool {
        accepts_fields::<Parts, _>((&value.modulus, (&value.public_exponent, ())))
    }
}
