//! Filters by parts of a string (RFC 4511, 4.5.1.7.2).
//!
//! ```text
//! SubstringFilter ::= SEQUENCE {
//!     type        AttributeDescription,
//!     substrings  SEQUENCE SIZE (1..MAX) OF substring CHOICE { .. } }
//!
//! AttributeDescription ::= LDAPString
//! LDAPString           ::= OCTET STRING
//! ```
ghost use Rattle.std.specs.Prelude.{◌≡◌, ◌↔◌, IsTrue, refl};
ghost use Rattle.yasna_notation.specs.Laws.{represented_lawful, element_non_empty};
ghost use Rattle.yasna_notation.specs.Making.{in_sequence, in_sequence_of, not_empty, part};
ghost use Rattle.yasna_notation.specs.Notation.{represented_by};
ghost use Rattle.yasna_notation.specs.Parts.{no_parts};
ghost use Rattle.yasna_notation.specs.contracts.strings.VecU8Notation.TheImpl.Laws.{lawful-law as octets};
ghost use Rattle.ldap.specs.contracts.substring.SubstringNotation.TheImpl.Laws.{lawful-law as substring};
ghost use Rattle.yasna_notation.specs.Canonical.{represented_written};
ghost use Rattle.yasna_notation.specs.Writing.{sequence_written, sequence_of_written, part_written, no_part_written, non_empty_list_written};
ghost use Rattle.ldap.specs.contracts.substring.SubstringCanonicalNotation.TheImpl.Laws.{written-law as substring_written};
ghost use Rattle.yasna_notation.specs.contracts.canonical.VecU8CanonicalNotation.TheImpl.Laws.{written-law as octets_written};

use crate::substring::Substring;
use yasna::tags::TAG_SEQUENCE;
use yasna::{ASN1Result, BERMode, BERReader, DERWriter, PrependBuffer, Tag};
use yasna_notation::{
    Bounded, CanonicalNotation, Message, NotEmpty, Notation, Represents, Sequence, SequenceOf,
    read_as,
};
use yasna_notation_constraints::{Checked, accepts_fields};

type Parts = (Vec<u8>, (Bounded<SequenceOf<Substring>, NotEmpty>, ()));

type Fields = (Vec<u8>, (Vec<Substring>, ()));

/// A filter by parts of a string.
#[derive(Drop)]
pub struct SubstringFilter {
    /// The name of the attribute, with its options, in UTF-8.
    pub attribute_type: Vec<u8>,
    /// One or more, in their order.
    pub substrings: Vec<Substring>,
}

impl Represents<Fields> for SubstringFilter {
    ghost value_of = { λ v. (v.attribute_type, (v.substrings, tt)) };

    fn from_value((attribute_type, (substrings, ())): Fields) -> SubstringFilter {
        SubstringFilter {
            attribute_type,
            substrings,
        }
    }
}

impl Notation for SubstringFilter {
    type Value = SubstringFilter;

    type Inner = ();

    ghost means = { represented_by ⟦<SubstringFilter as Represents<Fields>>⟧.value_of ⟦<Sequence<Parts> as Notation>⟧.means };

    fn has_tag(tag: Tag) -> bool {
        tag == TAG_SEQUENCE
    }

    fn read(reader: BERReader) -> ASN1Result<SubstringFilter> {
        read_as::<Sequence<Parts>, SubstringFilter>(reader)
    }

    fn write(value: &SubstringFilter, writer: DERWriter<'_>) -> ASN1Result<()> {
        Sequence::<Parts>::write_fields((&value.attribute_type, (&value.substrings, ())), writer)
    }

    fn prepend(
        value: &SubstringFilter,
        under: Option<Tag>,
        out: &mut PrependBuffer,
    ) -> ASN1Result<()> {
        Sequence::<Parts>::prepend_fields(
            (&value.attribute_type, (&value.substrings, ())),
            under,
            out,
        )
    }

    fn encoded_len(value: &SubstringFilter, under: Option<Tag>, mode: BERMode) -> Option<usize> {
        Sequence::<Parts>::fields_len(
            (&value.attribute_type, (&value.substrings, ())),
            under,
            mode,
        )
    }

    ghost lawful = { λ _. represented_lawful ⟦<SubstringFilter as Represents<Fields>>⟧.value_of
        (in_sequence (part (octets refl).own (part (not_empty (in_sequence_of (substring refl).own)).own no_parts))) };

    ghost non_empty = { λ u m v. element_non_empty _ _ _ _ };
}

impl Message for SubstringFilter {
    ghost is_unambiguous = { refl };
}

impl CanonicalNotation for SubstringFilter {
    ghost written = { λ _. represented_written ⟦<SubstringFilter as Represents<Fields>>⟧.value_of (sequence_written (part_written (octets_written
        refl).own (part_written (non_empty_list_written (sequence_of_written (substring_written refl).own)).own no_part_written))) };
}

impl Checked for SubstringFilter {
    fn accepts(value: &SubstringFilter) -> bool {
        accepts_fields::<Parts, _>((&value.attribute_type, (&value.substrings, ())))
    }
}
