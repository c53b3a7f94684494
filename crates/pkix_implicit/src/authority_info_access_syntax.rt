//! `AuthorityInfoAccessSyntax` of the module PKIX1Implicit88.
//!
//! ```text
//! AuthorityInfoAccessSyntax ::= SEQUENCE SIZE (1..MAX) OF AccessDescription
//! ```
ghost use Rattle.std.specs.Prelude.{◌≡◌, ◌↔◌, IsTrue, refl};
ghost use Rattle.yasna_notation.specs.Laws.{element_non_empty, represented_lawful};
ghost use Rattle.yasna_notation.specs.Making.{in_sequence_of, not_empty};
ghost use Rattle.yasna_notation.specs.Notation.{represented_by};
ghost use Rattle.pkix_implicit.specs.contracts.access_description.AccessDescriptionNotation.TheImpl.Laws.{lawful-law as access_description_law};

use crate::access_description::AccessDescription;
use yasna::{ASN1Result, BERMode, BERReader, DERWriter, PrependBuffer, Tag};
use yasna_notation::{Bounded, Message, NotEmpty, Notation, Represents, SequenceOf, read_as};
use yasna_notation_constraints::Checked;

type Notated = Bounded<SequenceOf<AccessDescription>, NotEmpty>;

/// `AuthorityInfoAccessSyntax`.
#[derive(Drop)]
pub struct AuthorityInfoAccessSyntax {
    pub items: Vec<AccessDescription>,
}

impl Represents<Vec<AccessDescription>> for AuthorityInfoAccessSyntax {
    ghost value_of = { λ v. v.items };

    fn from_value(items: Vec<AccessDescription>) -> AuthorityInfoAccessSyntax {
        AuthorityInfoAccessSyntax { items }
    }
}

impl Notation for AuthorityInfoAccessSyntax {
    type Value = AuthorityInfoAccessSyntax;

    type Inner = ();

    ghost means = { represented_by ⟦<AuthorityInfoAccessSyntax as Represents<Vec<AccessDescription>>>⟧.value_of ⟦<Notated as Notation>⟧.means };

    fn has_tag(tag: Tag) -> bool {
        <Notated as Notation>::has_tag(tag)
    }

    fn read(reader: BERReader) -> ASN1Result<AuthorityInfoAccessSyntax> {
        read_as::<Notated, AuthorityInfoAccessSyntax>(reader)
    }

    fn write(value: &AuthorityInfoAccessSyntax, writer: DERWriter<'_>) -> ASN1Result<()> {
        <Notated as Notation>::write(&value.items, writer)
    }

    fn prepend(
        value: &AuthorityInfoAccessSyntax,
        under: Option<Tag>,
        out: &mut PrependBuffer,
    ) -> ASN1Result<()> {
        <Notated as Notation>::prepend(&value.items, under, out)
    }

    fn encoded_len(
        value: &AuthorityInfoAccessSyntax,
        under: Option<Tag>,
        mode: BERMode,
    ) -> Option<usize> {
        <Notated as Notation>::encoded_len(&value.items, under, mode)
    }

    ghost lawful = { λ _. represented_lawful ⟦<AuthorityInfoAccessSyntax as Represents<Vec<AccessDescription>>>⟧.value_of (not_empty (in_sequence_of
        (access_description_law refl).own)) };

    ghost non_empty = { λ u m v. element_non_empty _ _ _ _ };
}

impl Message for AuthorityInfoAccessSyntax {
    ghost is_unambiguous = { refl };
}

impl Checked for AuthorityInfoAccessSyntax {
    fn accepts(value: &AuthorityInfoAccessSyntax) -> bool {
        <Notated as Checked>::accepts(&value.items)
    }
}
