//! Revocation lists of this format and of other formats (RFC 5652, 10.2.1).
//!
//! ```text
//! RevocationInfoChoice ::= CHOICE {
//!     crl    CertificateList,
//!     other  [1] IMPLICIT OtherRevocationInfoFormat }
//!
//! OtherRevocationInfoFormat ::= SEQUENCE {
//!     otherRevInfoFormat  OBJECT IDENTIFIER,
//!     otherRevInfo        ANY DEFINED BY otherRevInfoFormat }
//! ```
//!
//! The parts of one of another format are kept as they came.
ghost use Rattle.std.specs.Prelude.{◌≡◌, ◌↔◌, IsTrue, refl};
ghost use Rattle.std.proofs.Common.{arith};
ghost use Rattle.yasna_notation.specs.Choices.{either_non_empty};
ghost use Rattle.yasna_notation.specs.Laws.{represented_lawful, element_non_empty};
ghost use Rattle.yasna_notation.specs.Making.{in_sequence_of, in_choice, in_implicit, alternative};
ghost use Rattle.yasna_notation.specs.Notation.{represented_by};
ghost use Rattle.yasna_notation.specs.contracts.any.TaggedDerValueNotation.TheImpl.Laws.{lawful-law as any};
ghost use Rattle.x509.specs.contracts.certificate_list.CertificateListNotation.TheImpl.Laws.{lawful-law as list};
ghost use Rattle.yasna_notation.specs.declared.choices.Either.TheVariants.{First, Second};
ghost use Rattle.cms.specs.declared.revocation_info_choice.RevocationInfoChoice.TheVariants.{Crl, Other};

use x509::CertificateList;
use yasna::models::TaggedDerValue;
use yasna::{ASN1Result, BERMode, BERReader, DERWriter, PrependBuffer, Tag};
use yasna_notation::{
    Alternatives, Choice, Context, Either, Implicit, Message, Notation, Represents, SequenceOf,
    read_as,
};
use yasna_notation_constraints::Checked;

type OtherFormat = Implicit<Context<1>, SequenceOf<TaggedDerValue>>;

type Types = (CertificateList, (OtherFormat,));

type Value = Either<CertificateList, Vec<TaggedDerValue>>;

/// A revocation list, or the parts of what another format has for one as they came.
#[derive(Drop)]
pub enum RevocationInfoChoice {
    Crl(CertificateList),
    Other(Vec<TaggedDerValue>),
}

impl Represents<Value> for RevocationInfoChoice {
    ghost value_of = { λ v. elim v [ Crl c ↦ First c | Other p ↦ Second p ] };

    fn from_value(value: Value) -> RevocationInfoChoice {
        match value {
            Either::First(list) => RevocationInfoChoice::Crl(list),
            Either::Second(parts) => RevocationInfoChoice::Other(parts),
        }
    }
}

impl Notation for RevocationInfoChoice {
    type Value = RevocationInfoChoice;

    type Inner = ();

    ghost means = { represented_by ⟦<RevocationInfoChoice as Represents<Value>>⟧.value_of ⟦<Choice<Types> as Notation>⟧.means };

    fn has_tag(tag: Tag) -> bool {
        <Types as Alternatives>::has_tag(tag)
    }

    fn read(reader: BERReader) -> ASN1Result<RevocationInfoChoice> {
        read_as::<Choice<Types>, RevocationInfoChoice>(reader)
    }

    fn write(value: &RevocationInfoChoice, writer: DERWriter<'_>) -> ASN1Result<()> {
        match value {
            RevocationInfoChoice::Crl(list) => <CertificateList as Notation>::write(list, writer),
            RevocationInfoChoice::Other(parts) => OtherFormat::write(parts, writer),
        }
    }

    fn prepend(
        value: &RevocationInfoChoice,
        under: Option<Tag>,
        out: &mut PrependBuffer,
    ) -> ASN1Result<()> {
        match value {
            RevocationInfoChoice::Crl(list) => <CertificateList as Notation>::prepend(
                list, under, out,
            ),
            RevocationInfoChoice::Other(parts) => OtherFormat::prepend(parts, under, out),
        }
    }

    fn encoded_len(
        value: &RevocationInfoChoice,
        under: Option<Tag>,
        mode: BERMode,
    ) -> Option<usize> {
        match value {
            RevocationInfoChoice::Crl(list) => <CertificateList as Notation>::encoded_len(
                list, under, mode,
            ),
            RevocationInfoChoice::Other(parts) => OtherFormat::encoded_len(parts, under, mode),
        }
    }

    ghost lawful = { λ _. represented_lawful ⟦<RevocationInfoChoice as Represents<Value>>⟧.value_of
        (in_choice ⟦<Choice<Types> as Notation>⟧.means.encoding_under
        (alternative (list refl).own refl (in_implicit 1 (omega arith) (in_sequence_of (any refl).own)).own)) };

    ghost non_empty = { λ u m v.
        either_non_empty (⟦<CertificateList as Notation>⟧.means.encoding_under u) (⟦<OtherFormat as Notation>⟧.means.encoding_under u) m
        (λ c. element_non_empty _ _ _ _) (λ p. element_non_empty _ _ _ _) (⟦<RevocationInfoChoice as Represents<Value>>⟧.value_of v) };
}

impl Message for RevocationInfoChoice {
    ghost is_unambiguous = { refl };
}

impl Checked for RevocationInfoChoice {
    fn accepts(value: &RevocationInfoChoice) -> bool {
        match value {
            RevocationInfoChoice::Crl(list) => CertificateList::accepts(list),
            RevocationInfoChoice::Other(parts) => OtherFormat::accepts(parts),
        }
    }
}
