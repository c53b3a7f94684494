//! Private keys, with their public keys or without (RFC 5958, 2).
//!
//! ```text
//! OneAsymmetricKey ::= SEQUENCE {
//!     version              Version,
//!     privateKeyAlgorithm  PrivateKeyAlgorithmIdentifier,
//!     privateKey           PrivateKey,
//!     attributes           [0] IMPLICIT Attributes OPTIONAL,
//!     ...,
//!     [[2: publicKey       [1] IMPLICIT PublicKey OPTIONAL ]],
//!     ... }
//!
//! Version ::= INTEGER { v1(0), v2(1) } (v1, .., v2)
//!
//! PrivateKeyAlgorithmIdentifier ::= AlgorithmIdentifier
//!
//! PrivateKey ::= OCTET STRING
//!
//! PublicKey ::= BIT STRING
//!
//! Attributes ::= SET OF Attribute
//! ```
//!
//! The notation doesn't require v2 with a public key, and v1 without one. Elements after the public key, or in place of it, that this
//! version doesn't know are read as they came, and are written again.
ghost use Rattle.std.specs.Prelude.{◌≡◌, ◌∷◌, ◌↔◌, IsTrue, [], refl};
ghost use Rattle.std.proofs.Common.{arith};
ghost use Rattle.yasna_notation.specs.Laws.{represented_lawful, element_non_empty};
ghost use Rattle.yasna_notation.specs.Making.{context, in_sequence, in_set_of, part, in_implicit, at_most};
ghost use Rattle.yasna_notation.specs.Notation.{represented_by};
ghost use Rattle.yasna_notation_types.specs.OpenChoice.{any_lawful};
ghost use Rattle.yasna_notation_types.specs.Others.{other_may, others_laws, others_within, possible, possible_may, possible_within};
ghost use Rattle.pkcs8.specs.Known.{known};
ghost use Rattle.yasna_notation.specs.contracts.simple.U64Notation.TheImpl.Laws.{lawful-law as number};
ghost use Rattle.yasna_notation.specs.contracts.strings.VecU8Notation.TheImpl.Laws.{lawful-law as octets};
ghost use Rattle.yasna_notation.specs.contracts.strings.BitStringNotation.TheImpl.Laws.{lawful-law as bits};
ghost use Rattle.x509.specs.contracts.algorithm.AlgorithmIdentifierNotation.TheImpl.Laws.{lawful-law as algorithm};
ghost use Rattle.x509.specs.contracts.attribute.AttributeNotation.TheImpl.Laws.{lawful-law as attribute};

use x509::{AlgorithmIdentifier, Attribute};
use yasna::models::TaggedDerValue;
use yasna::tags::TAG_SEQUENCE;
use yasna::{ASN1Result, BERMode, BERReader, DERWriter, PrependBuffer, Tag};
use yasna_notation::{
    AtMost, BitString, Bounded, Choice, Context, Implicit, Message, Notation, Represents, Sequence,
    SetOf, read_as,
};
use yasna_notation_constraints::{Checked, accepts_fields};
use yasna_notation_types::{Others, Possible};

type Version = Bounded<u64, AtMost<1>>;

type Attributes = Implicit<Context<0>, SetOf<Attribute>>;

type PublicKey = Implicit<Context<1>, BitString>;

type Unknown = Others<Choice<(Attributes, (PublicKey,))>>;

type Ends = Possible<Attributes, Possible<PublicKey, Unknown>>;

type Parts = (Version, (AlgorithmIdentifier, (Vec<u8>, Ends)));

type EndFields = (
    Option<Vec<Attribute>>,
    (Option<(Vec<u8>, usize)>, Vec<TaggedDerValue>),
);

type Fields = (u64, (AlgorithmIdentifier, (Vec<u8>, EndFields)));

/// A private key, and maybe its public key.
#[derive(Drop)]
pub struct OneAsymmetricKey {
    /// 0 for v1, 1 for v2.
    pub version: u64,
    /// The algorithm that the key is for.
    pub private_key_algorithm: AlgorithmIdentifier,
    /// The octets that hold the key, as its algorithm says.
    pub private_key: Vec<u8>,
    pub attributes: Option<Vec<Attribute>>,
    /// The bits of the public key, as octets and a count.
    pub public_key: Option<(Vec<u8>, usize)>,
    /// The elements at the end that this version doesn't know, as they came.
    pub unknown: Vec<TaggedDerValue>,
}

impl Represents<Fields> for OneAsymmetricKey {
    ghost value_of = { λ v. (v.version, (v.private_key_algorithm, (v.private_key, (v.attributes, (v.public_key, v.unknown))))) };

    fn from_value(
        (version, (private_key_algorithm, (private_key, others))): Fields,
    ) -> OneAsymmetricKey {
        let (attributes, (public_key, unknown)) = others;
        OneAsymmetricKey {
            version,
            private_key_algorithm,
            private_key,
            attributes,
            public_key,
            unknown,
        }
    }
}

impl Notation for OneAsymmetricKey {
    type Value = OneAsymmetricKey;

    type Inner = ();

    ghost means = { represented_by ⟦<OneAsymmetricKey as Represents<Fields>>⟧.value_of ⟦<Sequence<Parts> as Notation>⟧.means };

    fn has_tag(tag: Tag) -> bool {
        tag == TAG_SEQUENCE
    }

    fn read(reader: BERReader) -> ASN1Result<OneAsymmetricKey> {
        read_as::<Sequence<Parts>, OneAsymmetricKey>(reader)
    }

    fn write(value: &OneAsymmetricKey, writer: DERWriter<'_>) -> ASN1Result<()> {
        Sequence::<Parts>::write_fields(
            (
                &value.version,
                (
                    &value.private_key_algorithm,
                    (
                        &value.private_key,
                        (&value.attributes, (&value.public_key, &value.unknown)),
                    ),
                ),
            ),
            writer,
        )
    }

    fn prepend(
        key: &OneAsymmetricKey,
        under: Option<Tag>,
        out: &mut PrependBuffer,
    ) -> ASN1Result<()> {
        Sequence::<Parts>::prepend_fields(
            (
                &key.version,
                (
                    &key.private_key_algorithm,
                    (
                        &key.private_key,
                        (&key.attributes, (&key.public_key, &key.unknown)),
                    ),
                ),
            ),
            under,
            out,
        )
    }

    fn encoded_len(key: &OneAsymmetricKey, under: Option<Tag>, mode: BERMode) -> Option<usize> {
        Sequence::<Parts>::fields_len(
            (
                &key.version,
                (
                    &key.private_key_algorithm,
                    (
                        &key.private_key,
                        (&key.attributes, (&key.public_key, &key.unknown)),
                    ),
                ),
            ),
            under,
            mode,
        )
    }

    ghost lawful = { λ _. represented_lawful ⟦<OneAsymmetricKey as Represents<Fields>>⟧.value_of
        (in_sequence (part (at_most 1 (number refl)).own (part (algorithm refl).own (part (octets refl).own
        (possible (possible_may (context 1 ∷ []) (other_may known)) refl (in_implicit 0 (omega arith) (in_set_of (attribute refl).own)).own
        (possible (other_may known) refl (in_implicit 1 (omega arith) (bits refl)).own (others_laws known any_lawful.own)
        (others_within known any_lawful.own.coding))
        (possible_within (other_may known) (in_implicit 1 (omega arith) (bits refl)).own (others_within known any_lawful.own.coding))))))) };

    ghost non_empty = { λ u m v. element_non_empty _ _ _ _ };
}

impl Message for OneAsymmetricKey {
    ghost is_unambiguous = { refl };
}

impl Checked for OneAsymmetricKey {
    fn accepts(value: &OneAsymmetricKey) -> bool {
        accepts_fields::<Parts, _>((
            &value.version,
            (
                &value.private_key_algorithm,
                (
                    &value.private_key,
                    (&value.attributes, (&value.public_key, &value.unknown)),
                ),
            ),
        ))
    }
}
