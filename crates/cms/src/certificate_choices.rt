//! Certificates of this format and of other formats (RFC 5652, 10.2.2).
//!
//! ```text
//! CertificateChoices ::= CHOICE {
//!     certificate          Certificate,
//!     extendedCertificate  [0] IMPLICIT ExtendedCertificate,
//!     v1AttrCert           [1] IMPLICIT AttributeCertificateV1,
//!     v2AttrCert           [2] IMPLICIT AttributeCertificateV2,
//!     other                [3] IMPLICIT OtherCertificateFormat }
//!
//! OtherCertificateFormat ::= SEQUENCE {
//!     otherCertFormat  OBJECT IDENTIFIER,
//!     otherCert        ANY DEFINED BY otherCertFormat }
//! ```
//!
//! Those of the other formats are SEQUENCEs too. Their parts are kept as they came.
ghost use Rattle.std.specs.Prelude.{◌≡◌, ◌↔◌, IsTrue, refl};
ghost use Rattle.std.proofs.Common.{arith};
ghost use Rattle.yasna_notation.specs.Choices.{either_non_empty};
ghost use Rattle.yasna_notation.specs.Laws.{represented_lawful, element_non_empty};
ghost use Rattle.yasna_notation.specs.Making.{in_sequence_of, in_choice, in_implicit, alternative};
ghost use Rattle.yasna_notation.specs.Notation.{represented_by};
ghost use Rattle.yasna_notation.specs.contracts.any.TaggedDerValueNotation.TheImpl.Laws.{lawful-law as any};
ghost use Rattle.x509.specs.contracts.certificate.CertificateNotation.TheImpl.Laws.{lawful-law as certificate};
ghost use Rattle.yasna_notation.specs.declared.choices.Either.TheVariants.{First, Second};
ghost use Rattle.cms.specs.declared.certificate_choices.CertificateChoices.TheVariants.{Certificate as Plain};
ghost use Rattle.cms.specs.declared.certificate_choices.CertificateChoices.TheVariants.{ExtendedCertificate, V1AttrCert, V2AttrCert, Other};

use x509::Certificate;
use yasna::models::TaggedDerValue;
use yasna::{ASN1Result, BERMode, BERReader, DERWriter, PrependBuffer, Tag};
use yasna_notation::Either::{First, Second};
use yasna_notation::{
    Alternatives, Choice, Context, Either, Implicit, Message, Notation, Represents, SequenceOf,
    read_as,
};
use yasna_notation_constraints::Checked;

type Extended = Implicit<Context<0>, SequenceOf<TaggedDerValue>>;

type V1 = Implicit<Context<1>, SequenceOf<TaggedDerValue>>;

type V2 = Implicit<Context<2>, SequenceOf<TaggedDerValue>>;

type OtherFormat = Implicit<Context<3>, SequenceOf<TaggedDerValue>>;

type LastFormats = (V2, (OtherFormat,));

type AttributeFormats = (V1, LastFormats);

type Formats = (Extended, AttributeFormats);

type Types = (Certificate, Formats);

type RawElements = Vec<TaggedDerValue>;

type Value = Either<
    Certificate,
    Either<RawElements, Either<RawElements, Either<RawElements, RawElements>>>,
>;

/// A certificate, or the parts of one of another format as they came.
#[derive(Drop)]
pub enum CertificateChoices {
    Certificate(Certificate),
    ExtendedCertificate(Vec<TaggedDerValue>),
    V1AttrCert(Vec<TaggedDerValue>),
    V2AttrCert(Vec<TaggedDerValue>),
    Other(Vec<TaggedDerValue>),
}

impl Represents<Value> for CertificateChoices {
    ghost value_of = { λ v. elim v [
      | Plain c ↦ First c
      | ExtendedCertificate p ↦ Second (First p)
      | V1AttrCert p ↦ Second (Second (First p))
      | V2AttrCert p ↦ Second (Second (Second (First p)))
      | Other p ↦ Second (Second (Second (Second p)))
    ] };

    fn from_value(value: Value) -> CertificateChoices {
        match value {
            First(certificate) => CertificateChoices::Certificate(certificate),
            Second(First(parts)) => CertificateChoices::ExtendedCertificate(parts),
            Second(Second(First(parts))) => CertificateChoices::V1AttrCert(parts),
            Second(Second(Second(First(parts)))) => CertificateChoices::V2AttrCert(parts),
            Second(Second(Second(Second(parts)))) => CertificateChoices::Other(parts),
        }
    }
}

impl Notation for CertificateChoices {
    type Value = CertificateChoices;

    type Inner = ();

    ghost means = { represented_by ⟦<CertificateChoices as Represents<Value>>⟧.value_of ⟦<Choice<Types> as Notation>⟧.means };

    fn has_tag(tag: Tag) -> bool {
        <Types as Alternatives>::has_tag(tag)
    }

    fn read(reader: BERReader) -> ASN1Result<CertificateChoices> {
        read_as::<Choice<Types>, CertificateChoices>(reader)
    }

    fn write(value: &CertificateChoices, writer: DERWriter<'_>) -> ASN1Result<()> {
        match value {
            CertificateChoices::Certificate(certificate) => <Certificate as Notation>::write(
                certificate,
                writer,
            ),
            CertificateChoices::ExtendedCertificate(parts) => Extended::write(parts, writer),
            CertificateChoices::V1AttrCert(parts) => V1::write(parts, writer),
            CertificateChoices::V2AttrCert(parts) => V2::write(parts, writer),
            CertificateChoices::Other(parts) => OtherFormat::write(parts, writer),
        }
    }

    fn prepend(
        value: &CertificateChoices,
        under: Option<Tag>,
        out: &mut PrependBuffer,
    ) -> ASN1Result<()> {
        match value {
            CertificateChoices::Certificate(certificate) => <Certificate as Notation>::prepend(
                certificate,
                under,
                out,
            ),
            CertificateChoices::ExtendedCertificate(parts) => Extended::prepend(parts, under, out),
            CertificateChoices::V1AttrCert(parts) => V1::prepend(parts, under, out),
            CertificateChoices::V2AttrCert(parts) => V2::prepend(parts, under, out),
            CertificateChoices::Other(parts) => OtherFormat::prepend(parts, under, out),
        }
    }

    fn encoded_len(value: &CertificateChoices, under: Option<Tag>, mode: BERMode) -> Option<usize> {
        match value {
            CertificateChoices::Certificate(certificate) => <Certificate as Notation>::encoded_len(
                certificate,
                under,
                mode,
            ),
            CertificateChoices::ExtendedCertificate(parts) => Extended::encoded_len(
                parts, under, mode,
            ),
            CertificateChoices::V1AttrCert(parts) => V1::encoded_len(parts, under, mode),
            CertificateChoices::V2AttrCert(parts) => V2::encoded_len(parts, under, mode),
            CertificateChoices::Other(parts) => OtherFormat::encoded_len(parts, under, mode),
        }
    }

    ghost lawful = { λ _. represented_lawful ⟦<CertificateChoices as Represents<Value>>⟧.value_of
        (in_choice ⟦<Choice<Types> as Notation>⟧.means.encoding_under
        (alternative (certificate refl).own refl
        (alternative (in_implicit 0 (omega arith) (in_sequence_of (any refl).own)).own refl
        (alternative (in_implicit 1 (omega arith) (in_sequence_of (any refl).own)).own refl
        (alternative (in_implicit 2 (omega arith) (in_sequence_of (any refl).own)).own refl
        (in_implicit 3 (omega arith) (in_sequence_of (any refl).own)).own))))) };

    ghost non_empty = { λ u m v.
        either_non_empty (⟦<Certificate as Notation>⟧.means.encoding_under u) (⟦<Formats as Alternatives>⟧.encoding_under u) m (λ c. element_non_empty _ _ _ _)
        (either_non_empty (⟦<Extended as Notation>⟧.means.encoding_under u) (⟦<AttributeFormats as Alternatives>⟧.encoding_under u) m
        (λ p. element_non_empty _ _ _ _)
        (either_non_empty (⟦<V1 as Notation>⟧.means.encoding_under u) (⟦<LastFormats as Alternatives>⟧.encoding_under u) m (λ p. element_non_empty _ _ _ _)
        (either_non_empty (⟦<V2 as Notation>⟧.means.encoding_under u) (⟦<OtherFormat as Notation>⟧.means.encoding_under u) m
        (λ p. element_non_empty _ _ _ _) (λ p. element_non_empty _ _ _ _)))) (⟦<CertificateChoices as Represents<Value>>⟧.value_of v) };
}

impl Message for CertificateChoices {
    ghost is_unambiguous = { refl };
}

impl Checked for CertificateChoices {
    fn accepts(value: &CertificateChoices) -> bool {
        match value {
            CertificateChoices::Certificate(certificate) => Certificate::accepts(certificate),
            CertificateChoices::ExtendedCertificate(parts) => Extended::accepts(parts),
            CertificateChoices::V1AttrCert(parts) => V1::accepts(parts),
            CertificateChoices::V2AttrCert(parts) => V2::accepts(parts),
            CertificateChoices::Other(parts) => OtherFormat::accepts(parts),
        }
    }
}
