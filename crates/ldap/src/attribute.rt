//! Attributes (RFC 4511, 4.1.7).
//!
//! ```text
//! Attribute ::= PartialAttribute(WITH COMPONENTS {
//!     ...,
//!     vals (SIZE (1..MAX)) })
//! ```
ghost use Rattle.std.specs.Prelude.{◌≡◌, ◌↔◌, IsTrue, refl};
ghost use Rattle.yasna_notation.specs.Laws.{represented_lawful, element_non_empty};
ghost use Rattle.yasna_notation.specs.Making.{in_sequence, in_set_of, part, set_not_empty};
ghost use Rattle.yasna_notation.specs.Notation.{represented_by};
ghost use Rattle.yasna_notation_types.specs.OpenChoice.{any_lawful};
ghost use Rattle.yasna_notation_types.specs.Rest.{rest_laws};
ghost use Rattle.yasna_notation.specs.contracts.strings.VecU8Notation.TheImpl.Laws.{lawful-law as octets};

use yasna::models::TaggedDerValue;
use yasna::tags::TAG_SEQUENCE;
use yasna::{ASN1Result, BERMode, BERReader, DERWriter, PrependBuffer, Tag};
use yasna_notation::{Bounded, Message, NotEmpty, Notation, Represents, Sequence, SetOf, read_as};
use yasna_notation_constraints::{Checked, accepts_fields};
use yasna_notation_types::Rest;

type Parts = (
    Vec<u8>,
    (Bounded<SetOf<Vec<u8>>, NotEmpty>, Rest<TaggedDerValue>),
);

type Fields = (Vec<u8>, (Vec<Vec<u8>>, Vec<TaggedDerValue>));

/// An attribute, with one value or more.
#[derive(Drop)]
pub struct Attribute {
    /// The name of the attribute, with its options, in UTF-8.
    pub attribute_type: Vec<u8>,
    /// Its values, one or more. They are in no order.
    pub vals: Vec<Vec<u8>>,
    /// The components at the end that this version doesn't know, as they came.
    pub unknown: Vec<TaggedDerValue>,
}

impl Represents<Fields> for Attribute {
    ghost value_of = { λ v. (v.attribute_type, (v.vals, v.unknown)) };

    fn from_value((attribute_type, (vals, unknown)): Fields) -> Attribute {
        Attribute {
            attribute_type,
            vals,
            unknown,
        }
    }
}

impl Notation for Attribute {
    type Value = Attribute;

    type Inner = ();

    ghost means = { represented_by ⟦<Attribute as Represents<Fields>>⟧.value_of ⟦<Sequence<Parts> as Notation>⟧.means };

    fn has_tag(tag: Tag) -> bool {
        tag == TAG_SEQUENCE
    }

    fn read(reader: BERReader) -> ASN1Result<Attribute> {
        read_as::<Sequence<Parts>, Attribute>(reader)
    }

    fn write(value: &Attribute, writer: DERWriter<'_>) -> ASN1Result<()> {
        Sequence::<Parts>::write_fields(
            (&value.attribute_type, (&value.vals, &value.unknown)),
            writer,
        )
    }

    fn prepend(value: &Attribute, under: Option<Tag>, out: &mut PrependBuffer) -> ASN1Result<()> {
        Sequence::<Parts>::prepend_fields(
            (&value.attribute_type, (&value.vals, &value.unknown)),
            under,
            out,
        )
    }

    fn encoded_len(value: &Attribute, under: Option<Tag>, mode: BERMode) -> Option<usize> {
        Sequence::<Parts>::fields_len(
            (&value.attribute_type, (&value.vals, &value.unknown)),
            under,
            mode,
        )
    }

    ghost lawful = { λ _. represented_lawful ⟦<Attribute as Represents<Fields>>⟧.value_of
        (in_sequence (part (octets refl).own (part (set_not_empty (in_set_of (octets
        refl).own)).own (rest_laws any_lawful.own)))) };

    ghost non_empty = { λ u m v. element_non_empty _ _ _ _ };
}

impl Message for Attribute {
    ghost is_unambiguous = { refl };
}

impl Checked for Attribute {
    fn accepts(value: &Attribute) -> bool {
        accepts_fields::<Parts, _>((&value.attribute_type, (&value.vals, &value.unknown)))
    }
}
