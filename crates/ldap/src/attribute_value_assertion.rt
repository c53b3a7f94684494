//! Assertions of a value of an attribute (RFC 4511, 4.1.6).
//!
//! ```text
//! AttributeValueAssertion ::= SEQUENCE {
//!     attributeDesc   AttributeDescription,
//!     assertionValue  AssertionValue }
//!
//! AttributeDescription ::= LDAPString
//! AssertionValue       ::= OCTET STRING
//! LDAPString           ::= OCTET STRING
//! ```
ghost use Rattle.std.specs.Prelude.{◌≡◌, ◌↔◌, IsTrue, refl};
ghost use Rattle.yasna_notation.specs.Laws.{represented_lawful, element_non_empty};
ghost use Rattle.yasna_notation.specs.Making.{in_sequence, part};
ghost use Rattle.yasna_notation.specs.Notation.{represented_by};
ghost use Rattle.yasna_notation.specs.Parts.{no_parts};
ghost use Rattle.yasna_notation.specs.contracts.strings.VecU8Notation.TheImpl.Laws.{lawful-law as octets};
ghost use Rattle.yasna_notation.specs.Canonical.{represented_written};
ghost use Rattle.yasna_notation.specs.Writing.{sequence_written, part_written, no_part_written};
ghost use Rattle.yasna_notation.specs.contracts.canonical.VecU8CanonicalNotation.TheImpl.Laws.{written-law as octets_written};

use yasna::tags::TAG_SEQUENCE;
use yasna::{ASN1Result, BERMode, BERReader, DERWriter, PrependBuffer, Tag};
use yasna_notation::{CanonicalNotation, Message, Notation, Represents, Sequence, read_as};
use yasna_notation_constraints::{Checked, accepts_fields};

type Parts = (Vec<u8>, (Vec<u8>, ()));

type Fields = (Vec<u8>, (Vec<u8>, ()));

/// An assertion of a value of an attribute.
#[derive(Drop)]
pub struct AttributeValueAssertion {
    /// The name of the attribute, with its options, in UTF-8.
    pub attribute_desc: Vec<u8>,
    pub assertion_value: Vec<u8>,
}

impl Represents<Fields> for AttributeValueAssertion {
    ghost value_of = { λ v. (v.attribute_desc, (v.assertion_value, tt)) };

    fn from_value((attribute_desc, (assertion_value, ())): Fields) -> AttributeValueAssertion {
        AttributeValueAssertion {
            attribute_desc,
            assertion_value,
        }
    }
}

impl Notation for AttributeValueAssertion {
    type Value = AttributeValueAssertion;

    type Inner = ();

    ghost means = { represented_by ⟦<AttributeValueAssertion as Represents<Fields>>⟧.value_of ⟦<Sequence<Parts> as Notation>⟧.means };

    fn has_tag(tag: Tag) -> bool {
        tag == TAG_SEQUENCE
    }

    fn read(reader: BERReader) -> ASN1Result<AttributeValueAssertion> {
        read_as::<Sequence<Parts>, AttributeValueAssertion>(reader)
    }

    fn write(value: &AttributeValueAssertion, writer: DERWriter<'_>) -> ASN1Result<()> {
        Sequence::<Parts>::write_fields(
            (&value.attribute_desc, (&value.assertion_value, ())),
            writer,
        )
    }

    fn prepend(
        value: &AttributeValueAssertion,
        under: Option<Tag>,
        out: &mut PrependBuffer,
    ) -> ASN1Result<()> {
        Sequence::<Parts>::prepend_fields(
            (&value.attribute_desc, (&value.assertion_value, ())),
            under,
            out,
        )
    }

    fn encoded_len(
        value: &AttributeValueAssertion,
        under: Option<Tag>,
        mode: BERMode,
    ) -> Option<usize> {
        Sequence::<Parts>::fields_len(
            (&value.attribute_desc, (&value.assertion_value, ())),
            under,
            mode,
        )
    }

    ghost lawful = { λ _. represented_lawful ⟦<AttributeValueAssertion as Represents<Fields>>⟧.value_of
        (in_sequence (part (octets refl).own (part (octets refl).own no_parts))) };

    ghost non_empty = { λ u m v. element_non_empty _ _ _ _ };
}

impl Message for AttributeValueAssertion {
    ghost is_unambiguous = { refl };
}

impl CanonicalNotation for AttributeValueAssertion {
    ghost written = { λ _. represented_written ⟦<AttributeValueAssertion as Represents<Fields>>⟧.value_of (sequence_written (part_written (octets_written
        refl).own (part_written (octets_written refl).own no_part_written))) };
}

impl Checked for AttributeValueAssertion {
    fn accepts(value: &AttributeValueAssertion) -> bool {
        accepts_fields::<Parts, _>((&value.attribute_desc, (&value.assertion_value, ())))
    }
}
