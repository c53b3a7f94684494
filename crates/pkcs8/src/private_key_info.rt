//! Private keys (RFC 5208, 5).
//!
//! ```text
//! PrivateKeyInfo ::= SEQUENCE {
//!     version              Version,
//!     privateKeyAlgorithm  AlgorithmIdentifier,
//!     privateKey           OCTET STRING,
//!     attributes           [0] IMPLICIT Attributes OPTIONAL }
//!
//! Version ::= INTEGER { v1(0) }
//!
//! Attributes ::= SET OF Attribute
//! ```
ghost use Rattle.std.specs.Prelude.{◌≡◌, ◌↔◌, IsTrue, refl};
ghost use Rattle.std.proofs.Common.{arith};
ghost use Rattle.yasna_notation.specs.Laws.{represented_lawful, element_non_empty};
ghost use Rattle.yasna_notation.specs.Making.{in_sequence, in_set_of, part, optional_part, in_implicit, at_most};
ghost use Rattle.yasna_notation.specs.Notation.{represented_by};
ghost use Rattle.yasna_notation.specs.Parts.{no_parts};
ghost use Rattle.yasna_notation.specs.contracts.simple.U64Notation.TheImpl.Laws.{lawful-law as number};
ghost use Rattle.yasna_notation.specs.contracts.strings.VecU8Notation.TheImpl.Laws.{lawful-law as octets};
ghost use Rattle.x509.specs.contracts.algorithm.AlgorithmIdentifierNotation.TheImpl.Laws.{lawful-law as algorithm};
ghost use Rattle.x509.specs.contracts.attribute.AttributeNotation.TheImpl.Laws.{lawful-law as attribute};

use x509::{AlgorithmIdentifier, Attribute};
use yasna::tags::TAG_SEQUENCE;
use yasna::{ASN1Result, BERMode, BERReader, DERWriter, PrependBuffer, Tag};
use yasna_notation::{
    AtMost, Bounded, Context, Implicit, Message, Notation, Optional, Represents, Sequence, SetOf,
    read_as,
};
use yasna_notation_constraints::{Checked, accepts_fields};

type Version = Bounded<u64, AtMost<0>>;

type Attributes = Optional<Implicit<Context<0>, SetOf<Attribute>>>;

type Parts = (Version, (AlgorithmIdentifier, (Vec<u8>, (Attributes, ()))));

type Fields = (
    u64,
    (AlgorithmIdentifier, (Vec<u8>, (Option<Vec<Attribute>>, ()))),
);

/// A private key.
#[derive(Drop)]
pub struct PrivateKeyInfo {
    /// 0, for v1.
    pub version: u64,
    /// The algorithm that the key is for.
    pub private_key_algorithm: AlgorithmIdentifier,
    /// The octets that hold the key, as its algorithm says.
    pub private_key: Vec<u8>,
    pub attributes: Option<Vec<Attribute>>,
}

impl Represents<Fields> for PrivateKeyInfo {
    ghost value_of = { λ v. (v.version, (v.private_key_algorithm, (v.private_key, (v.attributes, tt)))) };

    fn from_value(
        (version, (private_key_algorithm, (private_key, (attributes, ())))): Fields,
    ) -> PrivateKeyInfo {
        PrivateKeyInfo {
            version,
            private_key_algorithm,
            private_key,
            attributes,
        }
    }
}

impl Notation for PrivateKeyInfo {
    type Value = PrivateKeyInfo;

    type Inner = ();

    ghost means = { represented_by ⟦<PrivateKeyInfo as Represents<Fields>>⟧.value_of ⟦<Sequence<Parts> as Notation>⟧.means };

    fn has_tag(tag: Tag) -> bool {
        tag == TAG_SEQUENCE
    }

    fn read(reader: BERReader) -> ASN1Result<PrivateKeyInfo> {
        read_as::<Sequence<Parts>, PrivateKeyInfo>(reader)
    }

    fn write(value: &PrivateKeyInfo, writer: DERWriter<'_>) -> ASN1Result<()> {
        Sequence::<Parts>::write_fields(
            (
                &value.version,
                (
                    &value.private_key_algorithm,
                    (&value.private_key, (&value.attributes, ())),
                ),
            ),
            writer,
        )
    }

    fn prepend(
        value: &PrivateKeyInfo,
        under: Option<Tag>,
        out: &mut PrependBuffer,
    ) -> ASN1Result<()> {
        Sequence::<Parts>::prepend_fields(
            (
                &value.version,
                (
                    &value.private_key_algorithm,
                    (&value.private_key, (&value.attributes, ())),
                ),
            ),
            under,
            out,
        )
    }

    fn encoded_len(value: &PrivateKeyInfo, under: Option<Tag>, mode: BERMode) -> Option<usize> {
        Sequence::<Parts>::fields_len(
            (
                &value.version,
                (
                    &value.private_key_algorithm,
                    (&value.private_key, (&value.attributes, ())),
                ),
            ),
            under,
            mode,
        )
    }

    ghost lawful = { λ _. represented_lawful ⟦<PrivateKeyInfo as Represents<Fields>>⟧.value_of
        (in_sequence (part (at_most 0 (number refl)).own (part (algorithm refl).own (part (octets refl).own
        (optional_part refl (in_implicit 0 (omega arith) (in_set_of (attribute refl).own)).own no_parts))))) };

    ghost non_empty = { λ u m v. element_non_empty _ _ _ _ };
}

impl Message for PrivateKeyInfo {
    ghost is_unambiguous = { refl };
}

impl Checked for PrivateKeyInfo {
    fn accepts(value: &PrivateKeyInfo) -> bool {
        accepts_fields::<Parts, _>((
            &value.version,
            (
                &value.private_key_algorithm,
                (&value.private_key, (&value.attributes, ())),
            ),
        ))
    }
}
