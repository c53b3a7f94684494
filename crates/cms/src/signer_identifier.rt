//! Which certificate is a signer's (RFC 5652, 5.3).
//!
//! ```text
//! SignerIdentifier ::= CHOICE {
//!     issuerAndSerialNumber  IssuerAndSerialNumber,
//!     subjectKeyIdentifier   [0] IMPLICIT SubjectKeyIdentifier }
//!
//! SubjectKeyIdentifier ::= OCTET STRING
//! ```
ghost use Rattle.std.specs.Prelude.{◌≡◌, ◌↔◌, IsTrue, refl};
ghost use Rattle.std.proofs.Common.{arith};
ghost use Rattle.yasna_notation.specs.Choices.{either_non_empty};
ghost use Rattle.yasna_notation.specs.Laws.{represented_lawful, element_non_empty, octets_non_empty};
ghost use Rattle.yasna_notation.specs.Making.{in_choice, in_implicit, alternative};
ghost use Rattle.yasna_notation.specs.Notation.{represented_by};
ghost use Rattle.cms.specs.contracts.issuer_and_serial_number.IssuerAndSerialNumberNotation.TheImpl.Laws.{lawful-law as issuer_serial};
ghost use Rattle.yasna_notation.specs.contracts.strings.VecU8Notation.TheImpl.Laws.{lawful-law as octets};
ghost use Rattle.yasna_notation.specs.declared.choices.Either.TheVariants.{First, Second};
ghost use Rattle.cms.specs.declared.signer_identifier.SignerIdentifier.TheVariants.{IssuerAndSerialNumber as ByNumber, SubjectKeyIdentifier as ByKey};

use crate::issuer_and_serial_number::IssuerAndSerialNumber;
use yasna::{ASN1Result, BERMode, BERReader, DERWriter, PrependBuffer, Tag};
use yasna_notation::{
    Alternatives, Choice, Context, Either, Implicit, Message, Notation, Represents, read_as,
};
use yasna_notation_constraints::Checked;

type KeyIdentifier = Implicit<Context<0>, Vec<u8>>;

type Types = (IssuerAndSerialNumber, (KeyIdentifier,));

type Value = Either<IssuerAndSerialNumber, Vec<u8>>;

/// Which certificate is a signer's: by its issuer and number, or by its key.
#[derive(Drop)]
pub enum SignerIdentifier {
    IssuerAndSerialNumber(IssuerAndSerialNumber),
    SubjectKeyIdentifier(Vec<u8>),
}

impl Represents<Value> for SignerIdentifier {
    ghost value_of = { λ v. elim v [ ByNumber i ↦ First i | ByKey k ↦ Second k ] };

    fn from_value(value: Value) -> SignerIdentifier {
        match value {
            Either::First(certificate) => SignerIdentifier::IssuerAndSerialNumber(certificate),
            Either::Second(key) => SignerIdentifier::SubjectKeyIdentifier(key),
        }
    }
}

impl Notation for SignerIdentifier {
    type Value = SignerIdentifier;

    type Inner = ();

    ghost means = { represented_by ⟦<SignerIdentifier as Represents<Value>>⟧.value_of ⟦<Choice<Types> as Notation>⟧.means };

    fn has_tag(tag: Tag) -> bool {
        <Types as Alternatives>::has_tag(tag)
    }

    fn read(reader: BERReader) -> ASN1Result<SignerIdentifier> {
        read_as::<Choice<Types>, SignerIdentifier>(reader)
    }

    fn write(value: &SignerIdentifier, writer: DERWriter<'_>) -> ASN1Result<()> {
        match value {
            SignerIdentifier::IssuerAndSerialNumber(certificate) =>
                <IssuerAndSerialNumber as Notation>::write(certificate, writer),
            SignerIdentifier::SubjectKeyIdentifier(key) => KeyIdentifier::write(key, writer),
        }
    }

    fn prepend(
        value: &SignerIdentifier,
        under: Option<Tag>,
        out: &mut PrependBuffer,
    ) -> ASN1Result<()> {
        match value {
            SignerIdentifier::IssuerAndSerialNumber(certificate) =>
                <IssuerAndSerialNumber as Notation>::prepend(certificate, under, out),
            SignerIdentifier::SubjectKeyIdentifier(key) => KeyIdentifier::prepend(key, under, out),
        }
    }

    fn encoded_len(value: &SignerIdentifier, under: Option<Tag>, mode: BERMode) -> Option<usize> {
        match value {
            SignerIdentifier::IssuerAndSerialNumber(certificate) =>
                <IssuerAndSerialNumber as Notation>::encoded_len(certificate, under, mode),
            SignerIdentifier::SubjectKeyIdentifier(key) => KeyIdentifier::encoded_len(
                key, under, mode,
            ),
        }
    }

    ghost lawful = { λ _. represented_lawful ⟦<SignerIdentifier as Represents<Value>>⟧.value_of
        (in_choice ⟦<Choice<Types> as Notation>⟧.means.encoding_under
        (alternative (issuer_serial refl).own refl (in_implicit 0 (omega arith) (octets refl)).own)) };

    ghost non_empty = { λ u m v.
        either_non_empty (⟦<IssuerAndSerialNumber as Notation>⟧.means.encoding_under u) (⟦<KeyIdentifier as Notation>⟧.means.encoding_under u) m
        (λ i. element_non_empty _ _ _ _) (λ k. octets_non_empty _ m k.items) (⟦<SignerIdentifier as Represents<Value>>⟧.value_of v) };
}

impl Message for SignerIdentifier {
    ghost is_unambiguous = { refl };
}

impl Checked for SignerIdentifier {
    fn accepts(value: &SignerIdentifier) -> bool {
        match value {
            SignerIdentifier::IssuerAndSerialNumber(certificate) => IssuerAndSerialNumber::accepts(
                certificate,
            ),
            SignerIdentifier::SubjectKeyIdentifier(key) => KeyIdentifier::accepts(key),
        }
    }
}
