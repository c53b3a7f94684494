//! `OtherPrimeInfos` of the module PKCS-1.
//!
//! ```text
//! OtherPrimeInfos ::= SEQUENCE SIZE (1..MAX) OF OtherPrimeInfo
//! ```
ghost use Rattle.std.specs.Prelude.{◌≡◌, ◌↔◌, IsTrue, refl};
ghost use Rattle.yasna_notation.specs.Canonical.{represented_written};
ghost use Rattle.yasna_notation.specs.Laws.{element_non_empty, represented_lawful};
ghost use Rattle.yasna_notation.specs.Making.{in_sequence_of, not_empty};
ghost use Rattle.yasna_notation.specs.Notation.{represented_by};
ghost use Rattle.yasna_notation.specs.Writing.{non_empty_list_written, sequence_of_written};
ghost use Rattle.rsa_keys.specs.contracts.other_prime_info.OtherPrimeInfoNotation.TheImpl.Laws.{lawful-law as other_prime_info_law};
ghost use Rattle.rsa_keys.specs.contracts.other_prime_info.OtherPrimeInfoCanonicalNotation.TheImpl.Laws.{written-law as other_prime_info_written};

use crate::other_prime_info::OtherPrimeInfo;
use yasna::{ASN1Result, BERMode, BERReader, DERWriter, PrependBuffer, Tag};
use yasna_notation::{
    Bounded, CanonicalNotation, Message, NotEmpty, Notation, Represents, SequenceOf, read_as,
};
use yasna_notation_constraints::Checked;

type Notated = Bounded<SequenceOf<OtherPrimeInfo>, NotEmpty>;

/// `OtherPrimeInfos`.
#[derive(Drop)]
pub struct OtherPrimeInfos {
    pub items: Vec<OtherPrimeInfo>,
}

impl Represents<Vec<OtherPrimeInfo>> for OtherPrimeInfos {
    ghost value_of = { λ v. v.items };

    fn from_value(items: Vec<OtherPrimeInfo>) -> OtherPrimeInfos {
        OtherPrimeInfos { items }
    }
}

impl Notation for OtherPrimeInfos {
    type Value = OtherPrimeInfos;

    type Inner = ();

    ghost means = { represented_by ⟦<OtherPrimeInfos as Represents<Vec<OtherPrimeInfo>>>⟧.value_of ⟦<Notated as Notation>⟧.means };

    fn has_tag(tag: Tag) -> bool {
        <Notated as Notation>::has_tag(tag)
    }

    fn read(reader: BERReader) -> ASN1Result<OtherPrimeInfos> {
        read_as::<Notated, OtherPrimeInfos>(reader)
    }

    fn write(value: &OtherPrimeInfos, writer: DERWriter<'_>) -> ASN1Result<()> {
        <Notated as Notation>::write(&value.items, writer)
    }

    fn prepend(
        value: &OtherPrimeInfos,
        under: Option<Tag>,
        out: &mut PrependBuffer,
    ) -> ASN1Result<()> {
        <Notated as Notation>::prepend(&value.items, under, out)
    }

    fn encoded_len(value: &OtherPrimeInfos, under: Option<Tag>, mode: BERMode) -> Option<usize> {
        <Notated as Notation>::encoded_len(&value.items, under, mode)
    }

    ghost lawful = { λ _. represented_lawful ⟦<OtherPrimeInfos as Represents<Vec<OtherPrimeInfo>>>⟧.value_of (not_empty (in_sequence_of
        (other_prime_info_law refl).own)) };

    ghost non_empty = { λ u m v. element_non_empty _ _ _ _ };
}

impl Message for OtherPrimeInfos {
    ghost is_unambiguous = { refl };
}

impl CanonicalNotation for OtherPrimeInfos {
    ghost written = { λ _. represented_written ⟦<OtherPrimeInfos as Represents<Vec<OtherPrimeInfo>>>⟧.value_of (non_empty_list_written
        (sequence_of_written (other_prime_info_written refl).own)) };
}

impl Checked for OtherPrimeInfos {
    fn accepts(value: &OtherPrimeInfos) -> bool {
        <Notated as Checked>::accepts(&value.items)
    }
}
