//! `PreferredSignatureAlgorithms` of the module OCSP.
//!
//! ```text
//! PreferredSignatureAlgorithms ::= SEQUENCE OF PreferredSignatureAlgorithm
//! ```
ghost use Rattle.std.specs.Prelude.{◌≡◌, ◌↔◌, IsTrue, refl};
ghost use Rattle.yasna_notation.specs.Laws.{element_non_empty, represented_lawful};
ghost use Rattle.yasna_notation.specs.Making.{in_sequence_of};
ghost use Rattle.yasna_notation.specs.Notation.{represented_by};
ghost use Rattle.ocsp.specs.contracts.preferred_signature_algorithm.PreferredSignatureAlgorithmNotation.TheImpl.Laws.{lawful-law as preferred_signature_algorithm_law};

use crate::preferred_signature_algorithm::PreferredSignatureAlgorithm;
use yasna::{ASN1Result, BERMode, BERReader, DERWriter, PrependBuffer, Tag};
use yasna_notation::{Message, Notation, Represents, SequenceOf, read_as};
use yasna_notation_constraints::Checked;

type Notated = SequenceOf<PreferredSignatureAlgorithm>;

/// `PreferredSignatureAlgorithms`.
#[derive(Drop)]
pub struct PreferredSignatureAlgorithms {
    pub items: Vec<PreferredSignatureAlgorithm>,
}

impl Represents<Vec<PreferredSignatureAlgorithm>> for PreferredSignatureAlgorithms {
    ghost value_of = { λ v. v.items };

    fn from_value(items: Vec<PreferredSignatureAlgorithm>) -> PreferredSignatureAlgorithms {
        PreferredSignatureAlgorithms { items }
    }
}

impl Notation for PreferredSignatureAlgorithms {
    type Value = PreferredSignatureAlgorithms;

    type Inner = ();

    ghost means = { represented_by ⟦<PreferredSignatureAlgorithms as Represents<Vec<PreferredSignatureAlgorithm>>>⟧.value_of ⟦<Notated as Notation>⟧.means };

    fn has_tag(tag: Tag) -> bool {
        <Notated as Notation>::has_tag(tag)
    }

    fn read(reader: BERReader) -> ASN1Result<PreferredSignatureAlgorithms> {
        read_as::<Notated, PreferredSignatureAlgorithms>(reader)
    }

    fn write(value: &PreferredSignatureAlgorithms, writer: DERWriter<'_>) -> ASN1Result<()> {
        <Notated as Notation>::write(&value.items, writer)
    }

    fn prepend(
        value: &PreferredSignatureAlgorithms,
        under: Option<Tag>,
        out: &mut PrependBuffer,
    ) -> ASN1Result<()> {
        <Notated as Notation>::prepend(&value.items, under, out)
    }

    fn encoded_len(
        value: &PreferredSignatureAlgorithms,
        under: Option<Tag>,
        mode: BERMode,
    ) -> Option<usize> {
        <Notated as Notation>::encoded_len(&value.items, under, mode)
    }

    ghost lawful = { λ _. represented_lawful ⟦<PreferredSignatureAlgorithms as Represents<Vec<PreferredSignatureAlgorithm>>>⟧.value_of (in_sequence_of
        (preferred_signature_algorithm_law refl).own) };

    ghost non_empty = { λ u m v. element_non_empty _ _ _ _ };
}

impl Message for PreferredSignatureAlgorithms {
    ghost is_unambiguous = { refl };
}

impl Checked for PreferredSignatureAlgorithms {
    fn accepts(value: &PreferredSignatureAlgorithms) -> bool {
        <Notated as Checked>::accepts(&value.items)
    }
}
