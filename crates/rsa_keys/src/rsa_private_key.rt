//! `RSAPrivateKey` of the module PKCS-1.
//!
//! ```text
//! RSAPrivateKey ::= SEQUENCE {
//!     version          Version,
//!     modulus          INTEGER,
//!     publicExponent   INTEGER,
//!     privateExponent  INTEGER,
//!     prime1           INTEGER,
//!     prime2           INTEGER,
//!     exponent1        INTEGER,
//!     exponent2        INTEGER,
//!     coefficient      INTEGER,
//!     otherPrimeInfos  OtherPrimeInfos OPTIONAL }
//! ```
ghost use Rattle.std.specs.Prelude.{◌≡◌, ◌↔◌, IsTrue, refl};
ghost use Rattle.yasna_notation.specs.Canonical.{represented_written};
ghost use Rattle.yasna_notation.specs.Laws.{element_non_empty, represented_lawful};
ghost use Rattle.yasna_notation.specs.Making.{at_most, in_sequence, part};
ghost use Rattle.yasna_notation.specs.Notation.{represented_by};
ghost use Rattle.yasna_notation.specs.Writing.{at_most_written, part_written, sequence_written};
ghost use Rattle.yasna_notation.specs.contracts.simple.U64Notation.TheImpl.Laws.{lawful-law as number_law};
ghost use Rattle.yasna_notation.specs.contracts.canonical.U64CanonicalNotation.TheImpl.Laws.{written-law as number_written};
ghost use Rattle.yasna_notation.specs.contracts.simple.BigIntegerNotation.TheImpl.Laws.{lawful-law as big_law};
ghost use Rattle.yasna_notation.specs.contracts.canonical.BigIntegerCanonicalNotation.TheImpl.Laws.{written-law as big_written};
ghost use Rattle.rsa_keys.specs.contracts.rsa_private_key_parts2.RsaPrivateKeyParts2Parts.TheImpl.Laws.{laws-law as rsa_private_key_parts2_parts};
ghost use Rattle.rsa_keys.specs.contracts.rsa_private_key_parts2.RsaPrivateKeyParts2CanonicalParts.TheImpl.Laws.{written-law as rsa_private_key_parts2_written};

use crate::other_prime_infos::OtherPrimeInfos;
use crate::rsa_private_key_parts2::RsaPrivateKeyParts2;
use yasna::{ASN1Result, BERMode, BERReader, DERWriter, PrependBuffer, Tag};
use yasna_notation::{
    AtMost, BigInteger, Bounded, CanonicalNotation, Message, Notation, Represents, Sequence,
    read_as,
};
use yasna_notation_constraints::{Checked, accepts_fields};

type Parts = (
    Bounded<u64, AtMost<1>>,
    (
        BigInteger,
        (
            BigInteger,
            (BigInteger, (BigInteger, (BigInteger, RsaPrivateKeyParts2))),
        ),
    ),
);

type Fields = (
    u64,
    (
        (Vec<u8>, bool),
        (
            (Vec<u8>, bool),
            (
                (Vec<u8>, bool),
                ((Vec<u8>, bool), ((Vec<u8>, bool), RsaPrivateKeyParts2)),
            ),
        ),
    ),
);

type Notated = Sequence<Parts>;

/// `RSAPrivateKey`.
#[derive(Drop)]
pub struct RsaPrivateKey {
    pub version: u64,
    pub modulus: (Vec<u8>, bool),
    pub public_exponent: (Vec<u8>, bool),
    pub private_exponent: (Vec<u8>, bool),
    pub prime1: (Vec<u8>, bool),
    pub prime2: (Vec<u8>, bool),
    pub exponent1: (Vec<u8>, bool),
    pub exponent2: (Vec<u8>, bool),
    pub coefficient: (Vec<u8>, bool),
    pub other_prime_infos: Option<OtherPrimeInfos>,
}

impl Represents<Fields> for RsaPrivateKey {
    ghost value_of = { λ v. (v.version, (v.modulus, (v.public_exponent, (v.private_exponent, (v.prime1, (v.prime2, record { exponent1 = v.exponent1; exponent2 = v.exponent2; coefficient = v.coefficient; other_prime_infos = v.other_prime_infos })))))) };

    fn from_value(
        (
            version,
            (
                modulus,
                (
                    public_exponent,
                    (
                        private_exponent,
                        (
                            prime1,
                            (
                                prime2,
                                RsaPrivateKeyParts2 {
                                    exponent1,
                                    exponent2,
                                    coefficient,
                                    other_prime_infos,
                                },
                            ),
                        ),
                    ),
                ),
            ),
        ): Fields,
    ) -> RsaPrivateKey {
        RsaPrivateKey {
            version,
            modulus,
            public_exponent,
            private_exponent,
            prime1,
            prime2,
            exponent1,
            exponent2,
            coefficient,
            other_prime_infos,
        }
    }
}

impl Notation for RsaPrivateKey {
    type Value = RsaPrivateKey;

    type Inner = ();

    ghost means = { represented_by ⟦<RsaPrivateKey as Represents<Fields>>⟧.value_of ⟦<Notated as Notation>⟧.means };

    fn has_tag(tag: Tag) -> bool {
        <Notated as Notation>::has_tag(tag)
    }

    fn read(reader: BERReader) -> ASN1Result<RsaPrivateKey> {
        read_as::<Notated, RsaPrivateKey>(reader)
    }

    fn write(value: &RsaPrivateKey, writer: DERWriter<'_>) -> ASN1Result<()> {
        Sequence::<Parts>::write_fields(
            (
                &value.version,
                (
                    &value.modulus,
                    (
                        &value.public_exponent,
                        (
                            &value.private_exponent,
                            (&value.prime1, (&value.prime2, value)),
                        ),
                    ),
                ),
            ),
            writer,
        )
    }

    fn prepend(
        value: &RsaPrivateKey,
        under: Option<Tag>,
        out: &mut PrependBuffer,
    ) -> ASN1Result<()> {
        Sequence::<Parts>::prepend_fields(
            (
                &value.version,
                (
                    &value.modulus,
                    (
                        &value.public_exponent,
                        (
                            &value.private_exponent,
                            (&value.prime1, (&value.prime2, value)),
                        ),
                    ),
                ),
            ),
            under,
            out,
        )
    }

    fn encoded_len(value: &RsaPrivateKey, under: Option<Tag>, mode: BERMode) -> Option<usize> {
        Sequence::<Parts>::fields_len(
            (
                &value.version,
                (
                    &value.modulus,
                    (
                        &value.public_exponent,
                        (
                            &value.private_exponent,
                            (&value.prime1, (&value.prime2, value)),
                        ),
                    ),
                ),
            ),
            under,
            mode,
        )
    }

    ghost lawful = { λ _. represented_lawful ⟦<RsaPrivateKey as Represents<Fields>>⟧.value_of (in_sequence
        (part (at_most 1 (number_law refl)).own (part (big_law refl).own (part (big_law refl).own (part (big_law refl).own
        (part (big_law refl).own (part (big_law refl).own (rsa_private_key_parts2_parts refl)))))))) };

    ghost non_empty = { λ u m v. element_non_empty _ _ _ _ };
}

impl Message for RsaPrivateKey {
    ghost is_unambiguous = { refl };
}

impl CanonicalNotation for RsaPrivateKey {
    ghost written = { λ _. represented_written ⟦<RsaPrivateKey as Represents<Fields>>⟧.value_of (sequence_written
        (part_written (at_most_written 1 (number_written refl)).own (part_written (big_written refl).own (part_written
        (big_written refl).own (part_written (big_written refl).own (part_written (big_written refl).own (part_written
        (big_written refl).own (rsa_private_key_parts2_written refl)))))))) };
}

impl Checked for RsaPrivateKey {
    fn accepts(value: &RsaPrivateKey) -> bool {
        accepts_fields::<Parts, _>((
            &value.version,
            (
                &value.modulus,
                (
                    &value.public_exponent,
                    (
                        &value.private_exponent,
                        (&value.prime1, (&value.prime2, value)),
                    ),
                ),
            ),
        ))
    }
}
