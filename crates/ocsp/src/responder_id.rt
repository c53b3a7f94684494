//! `ResponderID` of the module OCSP.
//!
//! ```text
//! ResponderID ::= CHOICE {
//!     byName  [1] Name,
//!     byKey   [2] KeyHash }
//! ```
ghost use Rattle.std.specs.Prelude.{◌≡◌, ◌↔◌, IsTrue, refl};
ghost use Rattle.std.proofs.Common.{arith};
ghost use Rattle.yasna_notation.specs.Laws.{element_non_empty, represented_lawful};
ghost use Rattle.yasna_notation.specs.Making.{alternative, in_choice, in_explicit};
ghost use Rattle.yasna_notation.specs.Notation.{represented_by};
ghost use Rattle.yasna_notation.specs.declared.choices.Either.TheVariants.{First, Second};
ghost use Rattle.yasna_notation.specs.contracts.strings.VecU8Notation.TheImpl.Laws.{lawful-law as octets_law};
ghost use Rattle.x509.specs.contracts.name.NameNotation.TheImpl.Laws.{lawful-law as x509_name_law};
ghost use Rattle.std.specs.Prelude.{[]};
ghost use Rattle.ocsp.specs.declared.responder_id.ResponderId.TheVariants.{ByName, ByKey};

use x509::Name;
use yasna::{ASN1Result, BERMode, BERReader, DERWriter, PrependBuffer, Tag};
use yasna_notation::Either::{First, Second};
use yasna_notation::{Choice, Context, Either, Explicit, Message, Notation, Represents, read_as};
use yasna_notation_constraints::Checked;

type Types = (Explicit<Context<1>, Name>, (Explicit<Context<2>, Vec<u8>>,));

type Sides = Either<Name, Vec<u8>>;

type Notated = Choice<Types>;

/// `ResponderID`.
#[derive(Drop)]
pub enum ResponderId {
    ByName(Name),
    ByKey(Vec<u8>),
}

impl Represents<Sides> for ResponderId {
    ghost value_of = { λ v. elim v [
      | ByName x ↦ First (x)
      | ByKey x ↦ Second (x)
    ] };

    fn from_value(value: Sides) -> ResponderId {
        match value {
            First(value) => ResponderId::ByName(value),
            Second(value) => ResponderId::ByKey(value),
        }
    }
}

impl Notation for ResponderId {
    type Value = ResponderId;

    type Inner = ();

    ghost means = { represented_by ⟦<ResponderId as Represents<Sides>>⟧.value_of ⟦<Notated as Notation>⟧.means };

    fn has_tag(tag: Tag) -> bool {
        <Notated as Notation>::has_tag(tag)
    }

    fn read(reader: BERReader) -> ASN1Result<ResponderId> {
        read_as::<Notated, ResponderId>(reader)
    }

    fn write(value: &ResponderId, writer: DERWriter<'_>) -> ASN1Result<()> {
        match value {
            ResponderId::ByName(value) => <Explicit<Context<1>, Name> as Notation>::write(
                value, writer,
            ),
            ResponderId::ByKey(value) => <Explicit<Context<2>, Vec<u8>> as Notation>::write(
                value, writer,
            ),
        }
    }

    fn prepend(value: &ResponderId, under: Option<Tag>, out: &mut PrependBuffer) -> ASN1Result<()> {
        match value {
            ResponderId::ByName(value) => <Explicit<Context<1>, Name> as Notation>::prepend(
                value, under, out,
            ),
            ResponderId::ByKey(value) => <Explicit<Context<2>, Vec<u8>> as Notation>::prepend(
                value, under, out,
            ),
        }
    }

    fn encoded_len(value: &ResponderId, under: Option<Tag>, mode: BERMode) -> Option<usize> {
        match value {
            ResponderId::ByName(value) => <Explicit<Context<1>, Name> as Notation>::encoded_len(
                value, under, mode,
            ),
            ResponderId::ByKey(value) => <Explicit<Context<2>, Vec<u8>> as Notation>::encoded_len(
                value, under, mode,
            ),
        }
    }

    ghost lawful = { λ _. represented_lawful ⟦<ResponderId as Represents<Sides>>⟧.value_of (in_choice ⟦<Notated as Notation>⟧.means.encoding_under
        (alternative (in_explicit 1 (omega arith) (x509_name_law refl).own).own refl (in_explicit 2 (omega arith)
        (octets_law refl).own).own)) };

    ghost non_empty = { λ u m v. elim v as (λ k. ⟦<Notated as Notation>⟧.means.encoding_under u m (⟦<ResponderId as Represents<Sides>>⟧.value_of k) ≡ [] → ⊥) [
      | ByName x ↦ element_non_empty _ _ _ _
      | ByKey x ↦ element_non_empty _ _ _ _
    ] };
}

impl Message for ResponderId {
    ghost is_unambiguous = { refl };
}

impl Checked for ResponderId {
    fn accepts(value: &ResponderId) -> bool {
        match value {
            ResponderId::ByName(value) => <Explicit<Context<1>, Name> as Checked>::accepts(value),
            ResponderId::ByKey(value) => <Explicit<Context<2>, Vec<u8>> as Checked>::accepts(value),
        }
    }
}
