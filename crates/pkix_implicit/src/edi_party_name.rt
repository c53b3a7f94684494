//! `EDIPartyName` of the module PKIX1Implicit88.
//!
//! ```text
//! EDIPartyName ::= SEQUENCE {
//!     nameAssigner  [0] DirectoryString OPTIONAL,
//!     partyName     [1] DirectoryString }
//! ```
ghost use Rattle.std.specs.Prelude.{◌≡◌, ◌↔◌, IsTrue, refl};
ghost use Rattle.std.proofs.Common.{arith};
ghost use Rattle.yasna_notation.specs.Canonical.{represented_written};
ghost use Rattle.yasna_notation.specs.Laws.{element_non_empty, represented_lawful};
ghost use Rattle.yasna_notation.specs.Making.{in_explicit, in_sequence, optional_part, part};
ghost use Rattle.yasna_notation.specs.Notation.{represented_by};
ghost use Rattle.yasna_notation.specs.Parts.{no_parts};
ghost use Rattle.yasna_notation.specs.Writing.{explicit_written, no_part_written, optional_written, part_written, sequence_written};
ghost use Rattle.pkix_implicit.specs.contracts.directory_string.DirectoryStringNotation.TheImpl.Laws.{lawful-law as directory_string_law};
ghost use Rattle.pkix_implicit.specs.contracts.directory_string.DirectoryStringCanonicalNotation.TheImpl.Laws.{written-law as directory_string_written};

use crate::directory_string::DirectoryString;
use yasna::{ASN1Result, BERMode, BERReader, DERWriter, PrependBuffer, Tag};
use yasna_notation::{
    CanonicalNotation, Context, Explicit, Message, Notation, Optional, Represents, Sequence,
    read_as,
};
use yasna_notation_constraints::{Checked, accepts_fields};

type Parts = (
    Optional<Explicit<Context<0>, DirectoryString>>,
    (Explicit<Context<1>, DirectoryString>, ()),
);

type Fields = (Option<DirectoryString>, (DirectoryString, ()));

type Notated = Sequence<Parts>;

/// `EDIPartyName`.
#[derive(Drop)]
pub struct EdiPartyName {
    pub name_assigner: Option<DirectoryString>,
    pub party_name: DirectoryString,
}

impl Represents<Fields> for EdiPartyName {
    ghost value_of = { λ v. (v.name_assigner, (v.party_name, tt)) };

    fn from_value((name_assigner, (party_name, ())): Fields) -> EdiPartyName {
        EdiPartyName {
            name_assigner,
            party_name,
        }
    }
}

impl Notation for EdiPartyName {
    type Value = EdiPartyName;

    type Inner = ();

    ghost means = { represented_by ⟦<EdiPartyName as Represents<Fields>>⟧.value_of ⟦<Notated as Notation>⟧.means };

    fn has_tag(tag: Tag) -> bool {
        <Notated as Notation>::has_tag(tag)
    }

    fn read(reader: BERReader) -> ASN1Result<EdiPartyName> {
        read_as::<Notated, EdiPartyName>(reader)
    }

    fn write(value: &EdiPartyName, writer: DERWriter<'_>) -> ASN1Result<()> {
        Sequence::<Parts>::write_fields((&value.name_assigner, (&value.party_name, ())), writer)
    }

    fn prepend(
        value: &EdiPartyName,
        under: Option<Tag>,
        out: &mut PrependBuffer,
    ) -> ASN1Result<()> {
        Sequence::<Parts>::prepend_fields(
            (&value.name_assigner, (&value.party_name, ())),
            under,
            out,
        )
    }

    fn encoded_len(value: &EdiPartyName, under: Option<Tag>, mode: BERMode) -> Option<usize> {
        Sequence::<Parts>::fields_len((&value.name_assigner, (&value.party_name, ())), under, mode)
    }

    ghost lawful = { λ _. represented_lawful ⟦<EdiPartyName as Represents<Fields>>⟧.value_of (in_sequence
        (optional_part refl (in_explicit 0 (omega arith) (directory_string_law refl).own).own (part (in_explicit 1
        (omega arith) (directory_string_law refl).own).own no_parts))) };

    ghost non_empty = { λ u m v. element_non_empty _ _ _ _ };
}

impl Message for EdiPartyName {
    ghost is_unambiguous = { refl };
}

impl CanonicalNotation for EdiPartyName {
    ghost written = { λ _. represented_written ⟦<EdiPartyName as Represents<Fields>>⟧.value_of (sequence_written
        (optional_written (explicit_written (directory_string_written refl).own 0 (omega arith)).own (part_written
        (explicit_written (directory_string_written refl).own 1 (omega arith)).own no_part_written))) };
}

impl Checked for EdiPartyName {
    fn accepts(value: &EdiPartyName) -> bool {
        accepts_fields::<Parts, _>((&value.name_assigner, (&value.party_name, ())))
    }
}
