//! A signer's signature and how it was made (RFC 5652, 5.3).
//!
//! ```text
//! SignerInfo ::= SEQUENCE {
//!     version             CMSVersion,
//!     sid                 SignerIdentifier,
//!     digestAlgorithm     DigestAlgorithmIdentifier,
//!     signedAttrs         [0] IMPLICIT SignedAttributes OPTIONAL,
//!     signatureAlgorithm  SignatureAlgorithmIdentifier,
//!     signature           SignatureValue,
//!     unsignedAttrs       [1] IMPLICIT UnsignedAttributes OPTIONAL }
//!
//! CMSVersion ::= INTEGER { v0(0), v1(1), v2(2), v3(3), v4(4), v5(5) }
//!
//! DigestAlgorithmIdentifier ::= AlgorithmIdentifier
//!
//! SignatureAlgorithmIdentifier ::= AlgorithmIdentifier
//!
//! SignatureValue ::= OCTET STRING
//! ```
ghost use Rattle.std.specs.Prelude.{◌≡◌, ◌↔◌, IsTrue, refl};
ghost use Rattle.std.proofs.Common.{arith};
ghost use Rattle.yasna_notation.specs.Laws.{represented_lawful, element_non_empty};
ghost use Rattle.yasna_notation.specs.Making.{in_sequence, part, optional_part, in_implicit, at_most};
ghost use Rattle.yasna_notation.specs.Notation.{represented_by};
ghost use Rattle.yasna_notation.specs.Parts.{no_parts};
ghost use Rattle.yasna_notation.specs.contracts.simple.U64Notation.TheImpl.Laws.{lawful-law as number};
ghost use Rattle.yasna_notation.specs.contracts.strings.VecU8Notation.TheImpl.Laws.{lawful-law as octets};
ghost use Rattle.x509.specs.contracts.algorithm.AlgorithmIdentifierNotation.TheImpl.Laws.{lawful-law as algorithm};
ghost use Rattle.cms.specs.contracts.signer_identifier.SignerIdentifierNotation.TheImpl.Laws.{lawful-law as signer};
ghost use Rattle.cms.specs.contracts.attributes.AttributesNotation.TheImpl.Laws.{lawful-law as attributes};

use crate::attributes::Attributes;
use crate::signer_identifier::SignerIdentifier;
use x509::AlgorithmIdentifier;
use yasna::tags::TAG_SEQUENCE;
use yasna::{ASN1Result, BERMode, BERReader, DERWriter, PrependBuffer, Tag};
use yasna_notation::{
    AtMost, Bounded, Context, Implicit, Message, Notation, Optional, Represents, Sequence, read_as,
};
use yasna_notation_constraints::{Checked, accepts_fields};

type Version = Bounded<u64, AtMost<5>>;

type SignedAttributes = Optional<Implicit<Context<0>, Attributes>>;

type UnsignedAttributes = Optional<Implicit<Context<1>, Attributes>>;

type Ends = (AlgorithmIdentifier, (Vec<u8>, (UnsignedAttributes, ())));

type Digest = (AlgorithmIdentifier, (SignedAttributes, Ends));

type Parts = (Version, (SignerIdentifier, Digest));

type EndFields = (AlgorithmIdentifier, (Vec<u8>, (Option<Attributes>, ())));

type DigestFields = (AlgorithmIdentifier, (Option<Attributes>, EndFields));

type Fields = (u64, (SignerIdentifier, DigestFields));

/// A signer's signature, and how it was made.
#[derive(Drop)]
pub struct SignerInfo {
    /// From 0 to 5: 1 where the signer's certificate is named by issuer and number, 3 where it is by its key.
    pub version: u64,
    pub sid: SignerIdentifier,
    pub digest_algorithm: AlgorithmIdentifier,
    pub signed_attrs: Option<Attributes>,
    pub signature_algorithm: AlgorithmIdentifier,
    pub signature: Vec<u8>,
    pub unsigned_attrs: Option<Attributes>,
}

impl Represents<Fields> for SignerInfo {
    ghost value_of = { λ v. (v.version, (v.sid, (v.digest_algorithm, (v.signed_attrs, (v.signature_algorithm, (v.signature, (v.unsigned_attrs, tt))))))) };

    fn from_value(
        (
            version,
            (
                sid,
                (
                    digest_algorithm,
                    (signed_attrs, (signature_algorithm, (signature, (unsigned_attrs, ())))),
                ),
            ),
        ): Fields,
    ) -> SignerInfo {
        SignerInfo {
            version,
            sid,
            digest_algorithm,
            signed_attrs,
            signature_algorithm,
            signature,
            unsigned_attrs,
        }
    }
}

impl Notation for SignerInfo {
    type Value = SignerInfo;

    type Inner = ();

    ghost means = { represented_by ⟦<SignerInfo as Represents<Fields>>⟧.value_of ⟦<Sequence<Parts> as Notation>⟧.means };

    fn has_tag(tag: Tag) -> bool {
        tag == TAG_SEQUENCE
    }

    fn read(reader: BERReader) -> ASN1Result<SignerInfo> {
        read_as::<Sequence<Parts>, SignerInfo>(reader)
    }

    fn write(value: &SignerInfo, writer: DERWriter<'_>) -> ASN1Result<()> {
        let ends = (
            &value.signature_algorithm,
            (&value.signature, (&value.unsigned_attrs, ())),
        );
        Sequence::<Parts>::write_fields(
            (
                &value.version,
                (
                    &value.sid,
                    (&value.digest_algorithm, (&value.signed_attrs, ends)),
                ),
            ),
            writer,
        )
    }

    fn prepend(value: &SignerInfo, under: Option<Tag>, out: &mut PrependBuffer) -> ASN1Result<()> {
        let ends = (
            &value.signature_algorithm,
            (&value.signature, (&value.unsigned_attrs, ())),
        );
        Sequence::<Parts>::prepend_fields(
            (
                &value.version,
                (
                    &value.sid,
                    (&value.digest_algorithm, (&value.signed_attrs, ends)),
                ),
            ),
            under,
            out,
        )
    }

    fn encoded_len(value: &SignerInfo, under: Option<Tag>, mode: BERMode) -> Option<usize> {
        let ends = (
            &value.signature_algorithm,
            (&value.signature, (&value.unsigned_attrs, ())),
        );
        Sequence::<Parts>::fields_len(
            (
                &value.version,
                (
                    &value.sid,
                    (&value.digest_algorithm, (&value.signed_attrs, ends)),
                ),
            ),
            under,
            mode,
        )
    }

    ghost lawful = { λ _. represented_lawful ⟦<SignerInfo as Represents<Fields>>⟧.value_of
        (in_sequence (part (at_most 5 (number refl)).own (part (signer refl).own (part (algorithm refl).own
        (optional_part refl (in_implicit 0 (omega arith) (attributes refl)).own (part (algorithm refl).own (part (octets refl).own
        (optional_part refl (in_implicit 1 (omega arith) (attributes refl)).own no_parts)))))))) };

    ghost non_empty = { λ u m v. element_non_empty _ _ _ _ };
}

impl Message for SignerInfo {
    ghost is_unambiguous = { refl };
}

impl Checked for SignerInfo {
    fn accepts(value: &SignerInfo) -> bool {
        let ends = (
            &value.signature_algorithm,
            (&value.signature, (&value.unsigned_attrs, ())),
        );
        accepts_fields::<Parts, _>((
            &value.version,
            (
                &value.sid,
                (&value.digest_algorithm, (&value.signed_attrs, ends)),
            ),
        ))
    }
}
