//! Attributes, one or more (RFC 5652, 5.3 and 6.1).
//!
//! ```text
//! SignedAttributes ::= SET SIZE (1..MAX) OF Attribute
//!
//! UnsignedAttributes ::= SET SIZE (1..MAX) OF Attribute
//!
//! UnprotectedAttributes ::= SET SIZE (1..MAX) OF Attribute
//! ```
ghost use Rattle.std.specs.Prelude.{◌≡◌, ◌↔◌, IsTrue, refl};
ghost use Rattle.yasna_notation.specs.Laws.{represented_lawful, element_non_empty};
ghost use Rattle.yasna_notation.specs.Making.{in_set_of, set_not_empty};
ghost use Rattle.yasna_notation.specs.Notation.{represented_by};
ghost use Rattle.x509.specs.contracts.attribute.AttributeNotation.TheImpl.Laws.{lawful-law as attribute};

use x509::Attribute;
use yasna::tags::TAG_SET;
use yasna::{ASN1Result, BERMode, BERReader, DERWriter, PrependBuffer, Tag};
use yasna_notation::{Bounded, Message, NotEmpty, Notation, Represents, SetOf, read_as};
use yasna_notation_constraints::Checked;

type Set = Bounded<SetOf<Attribute>, NotEmpty>;

/// Attributes, one or more. The digest of a signer's signed attributes is that of their DER encoding as these, not under `[0]`.
#[derive(Drop)]
pub struct Attributes {
    /// One or more. They are in no order.
    pub attributes: Vec<Attribute>,
}

impl Represents<Vec<Attribute>> for Attributes {
    ghost value_of = { λ v. v.attributes };

    fn from_value(attributes: Vec<Attribute>) -> Attributes {
        Attributes { attributes }
    }
}

impl Notation for Attributes {
    type Value = Attributes;

    type Inner = ();

    ghost means = { represented_by ⟦<Attributes as Represents<Vec<Attribute>>>⟧.value_of ⟦<Set as Notation>⟧.means };

    fn has_tag(tag: Tag) -> bool {
        tag == TAG_SET
    }

    fn read(reader: BERReader) -> ASN1Result<Attributes> {
        read_as::<Set, Attributes>(reader)
    }

    fn write(value: &Attributes, writer: DERWriter<'_>) -> ASN1Result<()> {
        <Set as Notation>::write(&value.attributes, writer)
    }

    fn prepend(value: &Attributes, under: Option<Tag>, out: &mut PrependBuffer) -> ASN1Result<()> {
        <Set as Notation>::prepend(&value.attributes, under, out)
    }

    fn encoded_len(value: &Attributes, under: Option<Tag>, mode: BERMode) -> Option<usize> {
        <Set as Notation>::encoded_len(&value.attributes, under, mode)
    }

    ghost lawful = { λ _. represented_lawful ⟦<Attributes as Represents<Vec<Attribute>>>⟧.value_of
        (set_not_empty (in_set_of (attribute refl).own)) };

    ghost non_empty = { λ u m v. element_non_empty _ _ _ _ };
}

impl Message for Attributes {
    ghost is_unambiguous = { refl };
}

impl Checked for Attributes {
    fn accepts(value: &Attributes) -> bool {
        Set::accepts(&value.attributes)
    }
}
