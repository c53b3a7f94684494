//! `CertificationRequestInfo` of the module PKCS-10.
//!
//! ```text
//! CertificationRequestInfo ::= SEQUENCE {
//!     version        INTEGER { v1(0) } (v1, ...),
//!     subject        Name,
//!     subjectPKInfo  SubjectPublicKeyInfo,
//!     attributes     [0] Attributes }
//! ```
ghost use Rattle.std.specs.Prelude.{◌≡◌, ◌↔◌, IsTrue, refl};
ghost use Rattle.std.proofs.Common.{arith};
ghost use Rattle.yasna_notation.specs.Laws.{element_non_empty, represented_lawful};
ghost use Rattle.yasna_notation.specs.Making.{in_implicit, in_sequence, part};
ghost use Rattle.yasna_notation.specs.Notation.{represented_by};
ghost use Rattle.yasna_notation.specs.Parts.{no_parts};
ghost use Rattle.yasna_notation.specs.contracts.simple.BigIntegerNotation.TheImpl.Laws.{lawful-law as big_law};
ghost use Rattle.pkcs10.specs.contracts.attributes.AttributesNotation.TheImpl.Laws.{lawful-law as attributes_law};
ghost use Rattle.x509.specs.contracts.name.NameNotation.TheImpl.Laws.{lawful-law as x509_name_law};
ghost use Rattle.x509.specs.contracts.public_key.SubjectPublicKeyInfoNotation.TheImpl.Laws.{lawful-law as x509_public_key_law};

use crate::attributes::Attributes;
use x509::{Name, SubjectPublicKeyInfo};
use yasna::{ASN1Result, BERMode, BERReader, DERWriter, PrependBuffer, Tag};
use yasna_notation::{
    BigInteger, Context, Implicit, Message, Notation, Represents, Sequence, read_as,
};
use yasna_notation_constraints::{Checked, accepts_fields};

type Parts = (
    BigInteger,
    (
        Name,
        (SubjectPublicKeyInfo, (Implicit<Context<0>, Attributes>, ())),
    ),
);

type Fields = (
    (Vec<u8>, bool),
    (Name, (SubjectPublicKeyInfo, (Attributes, ()))),
);

type Notated = Sequence<Parts>;

/// `CertificationRequestInfo`.
#[derive(Drop)]
pub struct CertificationRequestInfo {
    pub version: (Vec<u8>, bool),
    pub subject: Name,
    pub subject_pk_info: SubjectPublicKeyInfo,
    pub attributes: Attributes,
}

impl Represents<Fields> for CertificationRequestInfo {
    ghost value_of = { λ v. (v.version, (v.subject, (v.subject_pk_info, (v.attributes, tt)))) };

    fn from_value(
        (version, (subject, (subject_pk_info, (attributes, ())))): Fields,
    ) -> CertificationRequestInfo {
        CertificationRequestInfo {
            version,
            subject,
            subject_pk_info,
            attributes,
        }
    }
}

impl Notation for CertificationRequestInfo {
    type Value = CertificationRequestInfo;

    type Inner = ();

    ghost means = { represented_by ⟦<CertificationRequestInfo as Represents<Fields>>⟧.value_of ⟦<Notated as Notation>⟧.means };

    fn has_tag(tag: Tag) -> bool {
        <Notated as Notation>::has_tag(tag)
    }

    fn read(reader: BERReader) -> ASN1Result<CertificationRequestInfo> {
        read_as::<Notated, CertificationRequestInfo>(reader)
    }

    fn write(value: &CertificationRequestInfo, writer: DERWriter<'_>) -> ASN1Result<()> {
        Sequence::<Parts>::write_fields(
            (
                &value.version,
                (
                    &value.subject,
                    (&value.subject_pk_info, (&value.attributes, ())),
                ),
            ),
            writer,
        )
    }

    fn prepend(
        value: &CertificationRequestInfo,
        under: Option<Tag>,
        out: &mut PrependBuffer,
    ) -> ASN1Result<()> {
        Sequence::<Parts>::prepend_fields(
            (
                &value.version,
                (
                    &value.subject,
                    (&value.subject_pk_info, (&value.attributes, ())),
                ),
            ),
            under,
            out,
        )
    }

    fn encoded_len(
        value: &CertificationRequestInfo,
        under: Option<Tag>,
        mode: BERMode,
    ) -> Option<usize> {
        Sequence::<Parts>::fields_len(
            (
                &value.version,
                (
                    &value.subject,
                    (&value.subject_pk_info, (&value.attributes, ())),
                ),
            ),
            under,
            mode,
        )
    }

    ghost lawful = { λ _. represented_lawful ⟦<CertificationRequestInfo as Represents<Fields>>⟧.value_of (in_sequence
        (part (big_law refl).own (part (x509_name_law refl).own (part (x509_public_key_law refl).own (part (in_implicit 0
        (omega arith) (attributes_law refl)).own no_parts))))) };

    ghost non_empty = { λ u m v. element_non_empty _ _ _ _ };
}

impl Message for CertificationRequestInfo {
    ghost is_unambiguous = { refl };
}

impl Checked for CertificationRequestInfo {
    fn accepts(value: &CertificationRequestInfo) -> bool {
        accepts_fields::<Parts, _>((
            &value.version,
            (
                &value.subject,
                (&value.subject_pk_info, (&value.attributes, ())),
            ),
        ))
    }
}
