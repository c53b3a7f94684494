//! What is signed of a certificate (RFC 5280, 4.1).
//!
//! ```text
//! TBSCertificate ::= SEQUENCE {
//!     version               [0] EXPLICIT Version DEFAULT v1,
//!     serialNumber          CertificateSerialNumber,
//!     signature             AlgorithmIdentifier,
//!     issuer                Name,
//!     validity              Validity,
//!     subject               Name,
//!     subjectPublicKeyInfo  SubjectPublicKeyInfo,
//!     issuerUniqueID        [1] IMPLICIT UniqueIdentifier OPTIONAL,
//!     subjectUniqueID       [2] IMPLICIT UniqueIdentifier OPTIONAL,
//!     extensions            [3] EXPLICIT Extensions OPTIONAL }
//!
//! Version ::= INTEGER { v1(0), v2(1), v3(2) }
//!
//! CertificateSerialNumber ::= INTEGER
//!
//! UniqueIdentifier ::= BIT STRING
//! ```
ghost use Rattle.std.specs.Prelude.{◌≡◌, ◌↔◌, IsTrue, nat_eq, refl};
ghost use Rattle.yasna_notation.specs.Laws.{represented_lawful, element_non_empty};
ghost use Rattle.yasna_notation.specs.Making.{in_sequence, part, default_part, in_explicit, at_most};
ghost use Rattle.yasna_notation.specs.Notation.{represented_by};
ghost use Rattle.yasna_notation.specs.Parts.{detects_number};
ghost use Rattle.std.proofs.Common.{arith};
ghost use Rattle.yasna_notation.specs.contracts.simple.U64Notation.TheImpl.Laws.{lawful-law as number};
ghost use Rattle.yasna_notation.specs.contracts.simple.BigIntegerNotation.TheImpl.Laws.{lawful-law as big};
ghost use Rattle.x509.specs.contracts.algorithm.AlgorithmIdentifierNotation.TheImpl.Laws.{lawful-law as algorithm};
ghost use Rattle.x509.specs.contracts.name.NameNotation.TheImpl.Laws.{lawful-law as name};
ghost use Rattle.x509.specs.contracts.subject_parts.SubjectPartsParts.TheImpl.Laws.{laws-law as subject_parts};

use crate::algorithm::AlgorithmIdentifier;
use crate::extensions::Extensions;
use crate::name::Name;
use crate::public_key::SubjectPublicKeyInfo;
use crate::subject_parts::{SubjectFields, SubjectParts};
use crate::validity::Validity;
use yasna::tags::TAG_SEQUENCE;
use yasna::{ASN1Result, BERMode, BERReader, DERWriter, PrependBuffer, Tag};
use yasna_notation::{
    AtMost, BigInteger, Bounded, Context, Default, Explicit, Message, Notation, Number, Represents,
    Sequence,
};
use yasna_notation_constraints::{Checked, accepts_fields};

type Version = Default<Explicit<Context<0>, Bounded<u64, AtMost<2>>>, Number<0>>;

type Parts = (
    Version,
    (BigInteger, (AlgorithmIdentifier, (Name, SubjectParts))),
);

type Fields = (
    u64,
    (
        (Vec<u8>, bool),
        (AlgorithmIdentifier, (Name, SubjectFields)),
    ),
);

/// What is signed of a certificate.
#[derive(Drop)]
pub struct TbsCertificate {
    /// 0 for v1, 1 for v2, 2 for v3.
    pub version: u64,
    /// Its octets in two's complement, the highest first, and whether it isn't negative.
    pub serial_number: (Vec<u8>, bool),
    /// The algorithm of the signature.
    pub signature: AlgorithmIdentifier,
    pub issuer: Name,
    pub validity: Validity,
    pub subject: Name,
    pub subject_public_key_info: SubjectPublicKeyInfo,
    /// Bits, as octets and a count.
    pub issuer_unique_id: Option<(Vec<u8>, usize)>,
    /// Bits, as octets and a count.
    pub subject_unique_id: Option<(Vec<u8>, usize)>,
    pub extensions: Option<Extensions>,
}

impl Represents<Fields> for TbsCertificate {
    ghost value_of = { λ v. (v.version, (v.serial_number, (v.signature, (v.issuer, (v.validity, (v.subject, (v.subject_public_key_info, (v.issuer_unique_id, (v.subject_unique_id, (v.extensions, tt)))))))))) };

    fn from_value(
        (version, (serial_number, (signature, (issuer, others)))): Fields,
    ) -> TbsCertificate {
        let (validity, (subject, (subject_public_key_info, others))) = others;
        let (issuer_unique_id, (subject_unique_id, (extensions, ()))) = others;
        TbsCertificate {
            version,
            serial_number,
            signature,
            issuer,
            validity,
            subject,
            subject_public_key_info,
            issuer_unique_id,
            subject_unique_id,
            extensions,
        }
    }
}

impl Notation for TbsCertificate {
    type Value = TbsCertificate;

    type Inner = ();

    ghost means = { represented_by ⟦<TbsCertificate as Represents<Fields>>⟧.value_of ⟦<Sequence<Parts> as Notation>⟧.means };

    fn has_tag(tag: Tag) -> bool {
        tag == TAG_SEQUENCE
    }

    fn read(reader: BERReader) -> ASN1Result<TbsCertificate> {
        // As `read_as` does it, but the value, which is large, is moved less often.
        let fields = match <Sequence<Parts> as Notation>::read(reader) {
            Ok(fields) => fields,
            Err(error) => return Err(error),
        };
        Ok(<TbsCertificate as Represents<Fields>>::from_value(fields))
    }

    fn write(value: &TbsCertificate, writer: DERWriter<'_>) -> ASN1Result<()> {
        Sequence::<Parts>::write_fields(
            (
                &value.version,
                (
                    &value.serial_number,
                    (&value.signature, (&value.issuer, value)),
                ),
            ),
            writer,
        )
    }

    fn prepend(
        value: &TbsCertificate,
        under: Option<Tag>,
        out: &mut PrependBuffer,
    ) -> ASN1Result<()> {
        Sequence::<Parts>::prepend_fields(
            (
                &value.version,
                (
                    &value.serial_number,
                    (&value.signature, (&value.issuer, value)),
                ),
            ),
            under,
            out,
        )
    }

    fn encoded_len(value: &TbsCertificate, under: Option<Tag>, mode: BERMode) -> Option<usize> {
        Sequence::<Parts>::fields_len(
            (
                &value.version,
                (
                    &value.serial_number,
                    (&value.signature, (&value.issuer, value)),
                ),
            ),
            under,
            mode,
        )
    }

    ghost lawful = { λ _. represented_lawful ⟦<TbsCertificate as Represents<Fields>>⟧.value_of
        (in_sequence (default_part (λ v. nat_eq v 0) 0 (detects_number 0) refl (in_explicit 0 (omega arith) (at_most 2 (number refl)).own).own
        (part (big refl).own (part (algorithm refl).own (part (name refl).own (subject_parts refl)))))) };

    ghost non_empty = { λ u m v. element_non_empty _ _ _ _ };
}

impl Message for TbsCertificate {
    ghost is_unambiguous = { refl };
}

impl Checked for TbsCertificate {
    fn accepts(value: &TbsCertificate) -> bool {
        accepts_fields::<Parts, _>((
            &value.version,
            (
                &value.serial_number,
                (&value.signature, (&value.issuer, value)),
            ),
        ))
    }
}
