//! Names (RFC 5280, 4.1.2.4).
//!
//! ```text
//! Name ::= CHOICE { rdnSequence  RDNSequence }
//!
//! RDNSequence ::= SEQUENCE OF RelativeDistinguishedName
//! ```
ghost use Rattle.std.specs.Prelude.{◌≡◌, ◌↔◌, IsTrue, refl};
ghost use Rattle.yasna_notation.specs.Laws.{represented_lawful, element_non_empty};
ghost use Rattle.yasna_notation.specs.Making.{in_sequence_of};
ghost use Rattle.yasna_notation.specs.Notation.{represented_by};
ghost use Rattle.x509.specs.contracts.relative_distinguished_name.RelativeDistinguishedNameNotation.TheImpl.Laws.{lawful-law as level};
ghost use Rattle.x509.specs.declared.name.Name.TheVariants.{RdnSequence};

use crate::relative_distinguished_name::RelativeDistinguishedName;
use yasna::tags::TAG_SEQUENCE;
use yasna::{ASN1Result, BERMode, BERReader, DERWriter, PrependBuffer, Tag};
use yasna_notation::{Message, Notation, Represents, SequenceOf, read_as};
use yasna_notation_constraints::Checked;

/// A name: its parts, from the outermost level to the innermost.
#[derive(Drop)]
pub enum Name {
    RdnSequence(Vec<RelativeDistinguishedName>),
}

impl Represents<Vec<RelativeDistinguishedName>> for Name {
    ghost value_of = { λ v. elim v [ RdnSequence parts ↦ parts ] };

    fn from_value(parts: Vec<RelativeDistinguishedName>) -> Name {
        Name::RdnSequence(parts)
    }
}

// A CHOICE of one type is encoded as that type (X.690, 8.13).
impl Notation for Name {
    type Value = Name;

    type Inner = ();

    ghost means = { represented_by ⟦<Name as Represents<Vec<RelativeDistinguishedName>>>⟧.value_of ⟦<SequenceOf<RelativeDistinguishedName> as Notation>⟧.means };

    fn has_tag(tag: Tag) -> bool {
        tag == TAG_SEQUENCE
    }

    fn read(reader: BERReader) -> ASN1Result<Name> {
        read_as::<SequenceOf<RelativeDistinguishedName>, Name>(reader)
    }

    fn write(value: &Name, writer: DERWriter<'_>) -> ASN1Result<()> {
        match value {
            Name::RdnSequence(parts) => {
                <SequenceOf<RelativeDistinguishedName> as Notation>::write(parts, writer)
            }
        }
    }

    fn prepend(value: &Name, under: Option<Tag>, out: &mut PrependBuffer) -> ASN1Result<()> {
        match value {
            Name::RdnSequence(parts) => {
                <SequenceOf<RelativeDistinguishedName> as Notation>::prepend(parts, under, out)
            }
        }
    }

    fn encoded_len(value: &Name, under: Option<Tag>, mode: BERMode) -> Option<usize> {
        match value {
            Name::RdnSequence(parts) => {
                <SequenceOf<RelativeDistinguishedName> as Notation>::encoded_len(parts, under, mode)
            }
        }
    }

    ghost lawful = { λ _. represented_lawful ⟦<Name as Represents<Vec<RelativeDistinguishedName>>>⟧.value_of (in_sequence_of (level refl).own) };

    ghost non_empty = { λ u m v. element_non_empty _ _ _ _ };
}

impl Message for Name {
    ghost is_unambiguous = { refl };
}

impl Checked for Name {
    fn accepts(value: &Name) -> bool {
        match value {
            Name::RdnSequence(parts) => SequenceOf::<RelativeDistinguishedName>::accepts(parts),
        }
    }
}
