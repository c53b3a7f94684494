//! `ECPrivateKey` of the module ECPrivateKey.
//!
//! ```text
//! ECPrivateKey ::= SEQUENCE {
//!     version     INTEGER { ecPrivkeyVer1(1) } (ecPrivkeyVer1),
//!     privateKey  OCTET STRING,
//!     parameters  [0] ECParameters OPTIONAL,
//!     publicKey   [1] BIT STRING OPTIONAL }
//! ```
ghost use Rattle.std.specs.Prelude.{◌≡◌, ◌↔◌, IsTrue, refl};
ghost use Rattle.std.proofs.Common.{arith};
ghost use Rattle.yasna_notation.specs.Laws.{element_non_empty, represented_lawful};
ghost use Rattle.yasna_notation.specs.Making.{exactly, in_bound, in_explicit, in_sequence, optional_part, part};
ghost use Rattle.yasna_notation.specs.Notation.{represented_by};
ghost use Rattle.yasna_notation.specs.Parts.{no_parts};
ghost use Rattle.yasna_notation.specs.contracts.simple.U64Notation.TheImpl.Laws.{lawful-law as number_law};
ghost use Rattle.yasna_notation.specs.contracts.strings.VecU8Notation.TheImpl.Laws.{lawful-law as octets_law};
ghost use Rattle.yasna_notation.specs.contracts.strings.BitStringNotation.TheImpl.Laws.{lawful-law as bits_law};
ghost use Rattle.ec_keys.specs.contracts.ec_parameters.EcParametersNotation.TheImpl.Laws.{lawful-law as ec_parameters_law};

use crate::ec_parameters::EcParameters;
use yasna::{ASN1Result, BERMode, BERReader, DERWriter, PrependBuffer, Tag};
use yasna_notation::{
    BitString, Bounded, Context, Exactly, Explicit, Message, Notation, Optional, Represents,
    Sequence, read_as,
};
use yasna_notation_constraints::{Checked, accepts_fields};

type Parts = (
    Bounded<u64, Exactly<1>>,
    (
        Vec<u8>,
        (
            Optional<Explicit<Context<0>, EcParameters>>,
            (Optional<Explicit<Context<1>, BitString>>, ()),
        ),
    ),
);

type Fields = (
    u64,
    (
        Vec<u8>,
        (Option<EcParameters>, (Option<(Vec<u8>, usize)>, ())),
    ),
);

type Notated = Sequence<Parts>;

/// `ECPrivateKey`.
#[derive(Drop)]
pub struct EcPrivateKey {
    pub version: u64,
    pub private_key: Vec<u8>,
    pub parameters: Option<EcParameters>,
    pub public_key: Option<(Vec<u8>, usize)>,
}

impl Represents<Fields> for EcPrivateKey {
    ghost value_of = { λ v. (v.version, (v.private_key, (v.parameters, (v.public_key, tt)))) };

    fn from_value(
        (version, (private_key, (parameters, (public_key, ())))): Fields,
    ) -> EcPrivateKey {
        EcPrivateKey {
            version,
            private_key,
            parameters,
            public_key,
        }
    }
}

impl Notation for EcPrivateKey {
    type Value = EcPrivateKey;

    type Inner = ();

    ghost means = { represented_by ⟦<EcPrivateKey as Represents<Fields>>⟧.value_of ⟦<Notated as Notation>⟧.means };

    fn has_tag(tag: Tag) -> bool {
        <Notated as Notation>::has_tag(tag)
    }

    fn read(reader: BERReader) -> ASN1Result<EcPrivateKey> {
        read_as::<Notated, EcPrivateKey>(reader)
    }

    fn write(value: &EcPrivateKey, writer: DERWriter<'_>) -> ASN1Result<()> {
        Sequence::<Parts>::write_fields(
            (
                &value.version,
                (
                    &value.private_key,
                    (&value.parameters, (&value.public_key, ())),
                ),
            ),
            writer,
        )
    }

    fn prepend(
        value: &EcPrivateKey,
        under: Option<Tag>,
        out: &mut PrependBuffer,
    ) -> ASN1Result<()> {
        Sequence::<Parts>::prepend_fields(
            (
                &value.version,
                (
                    &value.private_key,
                    (&value.parameters, (&value.public_key, ())),
                ),
            ),
            under,
            out,
        )
    }

    fn encoded_len(value: &EcPrivateKey, under: Option<Tag>, mode: BERMode) -> Option<usize> {
        Sequence::<Parts>::fields_len(
            (
                &value.version,
                (
                    &value.private_key,
                    (&value.parameters, (&value.public_key, ())),
                ),
            ),
            under,
            mode,
        )
    }

    ghost lawful = { λ _. represented_lawful ⟦<EcPrivateKey as Represents<Fields>>⟧.value_of (in_sequence
        (part (in_bound (exactly 1) (number_law refl)).own (part (octets_law refl).own (optional_part refl (in_explicit 0
        (omega arith) (ec_parameters_law refl).own).own (optional_part refl (in_explicit 1 (omega arith) (bits_law refl).own).own no_parts))))) };

    ghost non_empty = { λ u m v. element_non_empty _ _ _ _ };
}

impl Message for EcPrivateKey {
    ghost is_unambiguous = { refl };
}

impl Checked for EcPrivateKey {
    fn accepts(value: &EcPrivateKey) -> bool {
        accepts_fields::<Parts, _>((
            &value.version,
            (
                &value.private_key,
                (&value.parameters, (&value.public_key, ())),
            ),
        ))
    }
}
