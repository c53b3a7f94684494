//! `AccessDescription` of the module PKIX1Implicit88.
//!
//! ```text
//! AccessDescription ::= SEQUENCE {
//!     accessMethod    OBJECT IDENTIFIER,
//!     accessLocation  GeneralName }
//! ```
ghost use Rattle.std.specs.Prelude.{◌≡◌, ◌↔◌, IsTrue, refl};
ghost use Rattle.yasna_notation.specs.Laws.{element_non_empty, represented_lawful};
ghost use Rattle.yasna_notation.specs.Making.{in_sequence, part};
ghost use Rattle.yasna_notation.specs.Notation.{represented_by};
ghost use Rattle.yasna_notation.specs.Parts.{no_parts};
ghost use Rattle.yasna_notation.specs.contracts.simple.ObjectIdentifierNotation.TheImpl.Laws.{lawful-law as oid_law};
ghost use Rattle.pkix_implicit.specs.contracts.general_name.GeneralNameNotation.TheImpl.Laws.{lawful-law as general_name_law};

use crate::general_name::GeneralName;
use yasna::models::ObjectIdentifier;
use yasna::{ASN1Result, BERMode, BERReader, DERWriter, PrependBuffer, Tag};
use yasna_notation::{Message, Notation, Represents, Sequence, read_as};
use yasna_notation_constraints::{Checked, accepts_fields};

type Parts = (ObjectIdentifier, (GeneralName, ()));

type Fields = (ObjectIdentifier, (GeneralName, ()));

type Notated = Sequence<Parts>;

/// `AccessDescription`.
#[derive(Drop)]
pub struct AccessDescription {
    pub access_method: ObjectIdentifier,
    pub access_location: GeneralName,
}

impl Represents<Fields> for AccessDescription {
    ghost value_of = { λ v. (v.access_method, (v.access_location, tt)) };

    fn from_value((access_method, (access_location, ())): Fields) -> AccessDescription {
        AccessDescription {
            access_method,
            access_location,
        }
    }
}

impl Notation for AccessDescription {
    type Value = AccessDescription;

    type Inner = ();

    ghost means = { represented_by ⟦<AccessDescription as Represents<Fields>>⟧.value_of ⟦<Notated as Notation>⟧.means };

    fn has_tag(tag: Tag) -> bool {
        <Notated as Notation>::has_tag(tag)
    }

    fn read(reader: BERReader) -> ASN1Result<AccessDescription> {
        read_as::<Notated, AccessDescription>(reader)
    }

    fn write(value: &AccessDescription, writer: DERWriter<'_>) -> ASN1Result<()> {
        Sequence::<Parts>::write_fields(
            (&value.access_method, (&value.access_location, ())),
            writer,
        )
    }

    fn prepend(
        value: &AccessDescription,
        under: Option<Tag>,
        out: &mut PrependBuffer,
    ) -> ASN1Result<()> {
        Sequence::<Parts>::prepend_fields(
            (&value.access_method, (&value.access_location, ())),
            under,
            out,
        )
    }

    fn encoded_len(value: &AccessDescription, under: Option<Tag>, mode: BERMode) -> Option<usize> {
        Sequence::<Parts>::fields_len(
            (&value.access_method, (&value.access_location, ())),
            under,
            mode,
        )
    }

    ghost lawful = { λ _. represented_lawful ⟦<AccessDescription as Represents<Fields>>⟧.value_of (in_sequence
        (part (oid_law refl).own (part (general_name_law refl).own no_parts))) };

    ghost non_empty = { λ u m v. element_non_empty _ _ _ _ };
}

impl Message for AccessDescription {
    ghost is_unambiguous = { refl };
}

impl Checked for AccessDescription {
    fn accepts(value: &AccessDescription) -> bool {
        accepts_fields::<Parts, _>((&value.access_method, (&value.access_location, ())))
    }
}
