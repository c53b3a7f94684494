//! Attributes, of which the values may be omitted (RFC 4511, 4.1.7).
//!
//! ```text
//! PartialAttribute ::= SEQUENCE {
//!     type  AttributeDescription,
//!     vals  SET OF value AttributeValue,
//!     ... }
//!
//! AttributeDescription ::= LDAPString
//! AttributeValue       ::= OCTET STRING
//! LDAPString           ::= OCTET STRING
//! ```
ghost use Rattle.std.specs.Prelude.{◌≡◌, ◌↔◌, IsTrue, refl};
ghost use Rattle.yasna_notation.specs.Laws.{represented_lawful, element_non_empty};
ghost use Rattle.yasna_notation.specs.Making.{in_sequence, in_set_of, part};
ghost use Rattle.yasna_notation.specs.Notation.{represented_by};
ghost use Rattle.yasna_notation_types.specs.OpenChoice.{any_lawful};
ghost use Rattle.yasna_notation_types.specs.Rest.{rest_laws};
ghost use Rattle.yasna_notation.specs.contracts.strings.VecU8Notation.TheImpl.Laws.{lawful-law as octets};

use yasna::models::TaggedDerValue;
use yasna::tags::TAG_SEQUENCE;
use yasna::{ASN1Result, BERMode, BERReader, DERWriter, PrependBuffer, Tag};
use yasna_notation::{Message, Notation, Represents, Sequence, SetOf, read_as};
use yasna_notation_constraints::{Checked, accepts_fields};
use yasna_notation_types::Rest;

type Parts = (Vec<u8>, (SetOf<Vec<u8>>, Rest<TaggedDerValue>));

type Fields = (Vec<u8>, (Vec<Vec<u8>>, Vec<TaggedDerValue>));

/// An attribute, with values or none.
#[derive(Drop)]
pub struct PartialAttribute {
    /// The name of the attribute, with its options, in UTF-8.
    pub attribute_type: Vec<u8>,
    /// Its values. They are in no order.
    pub vals: Vec<Vec<u8>>,
    /// The components at the end that this version doesn't know, as they came.
    pub unknown: Vec<TaggedDerValue>,
}

impl Represents<Fields> for PartialAttribute {
    ghost value_of = { λ v. (v.attribute_type, (v.vals, v.unknown)) };

    fn from_value((attribute_type, (vals, unknown)): Fields) -> PartialAttribute {
        PartialAttribute {
            attribute_type,
            vals,
            unknown,
        }
    }
}

impl Notation for PartialAttribute {
    type Value = PartialAttribute;

    type Inner = ();

    ghost means = { represented_by ⟦<PartialAttribute as Represents<Fields>>⟧.value_of ⟦<Sequence<Parts> as Notation>⟧.means };

    fn has_tag(tag: Tag) -> bool {
        tag == TAG_SEQUENCE
    }

    fn read(reader: BERReader) -> ASN1Result<PartialAttribute> {
        read_as::<Sequence<Parts>, PartialAttribute>(reader)
    }

    fn write(value: &PartialAttribute, writer: DERWriter<'_>) -> ASN1Result<()> {
        Sequence::<Parts>::write_fields(
            (&value.attribute_type, (&value.vals, &value.unknown)),
            writer,
        )
    }

    fn prepend(
        value: &PartialAttribute,
        under: Option<Tag>,
        out: &mut PrependBuffer,
    ) -> ASN1Result<()> {
        Sequence::<Parts>::prepend_fields(
            (&value.attribute_type, (&value.vals, &value.unknown)),
            under,
            out,
        )
    }

    fn encoded_len(value: &PartialAttribute, under: Option<Tag>, mode: BERMode) -> Option<usize> {
        Sequence::<Parts>::fields_len(
            (&value.attribute_type, (&value.vals, &value.unknown)),
            under,
            mode,
        )
    }

    ghost lawful = { λ _. represented_lawful ⟦<PartialAttribute as Represents<Fields>>⟧.value_of
        (in_sequence (part (octets refl).own (part (in_set_of (octets refl).own).own
        (rest_laws any_lawful.own)))) };

    ghost non_empty = { λ u m v. element_non_empty _ _ _ _ };
}

impl Message for PartialAttribute {
    ghost is_unambiguous = { refl };
}

impl Checked for PartialAttribute {
    fn accepts(value: &PartialAttribute) -> bool {
        accepts_fields::<Parts, _>((&value.attribute_type, (&value.vals, &value.unknown)))
    }
}
