//! Entries that a search finds (RFC 4511, 4.5.2).
//!
//! ```text
//! SearchResultEntry ::= [APPLICATION 4] SEQUENCE {
//!     objectName  LDAPDN,
//!     attributes  PartialAttributeList,
//!     ... }
//!
//! PartialAttributeList ::= SEQUENCE OF partialAttribute PartialAttribute
//! LDAPDN               ::= LDAPString
//! LDAPString           ::= OCTET STRING
//! ```
ghost use Rattle.std.specs.Prelude.{◌≡◌, ◌↔◌, IsTrue, refl};
ghost use Rattle.std.proofs.Common.{arith};
ghost use Rattle.yasna_notation.specs.Laws.{represented_lawful, element_non_empty};
ghost use Rattle.yasna_notation.specs.Making.{in_application, in_sequence, in_sequence_of, part};
ghost use Rattle.yasna_notation.specs.Notation.{represented_by};
ghost use Rattle.yasna_notation_types.specs.OpenChoice.{any_lawful};
ghost use Rattle.yasna_notation_types.specs.Rest.{rest_laws};
ghost use Rattle.yasna_notation.specs.contracts.strings.VecU8Notation.TheImpl.Laws.{lawful-law as octets};
ghost use Rattle.ldap.specs.contracts.partial_attribute.PartialAttributeNotation.TheImpl.Laws.{lawful-law as attribute};

use crate::partial_attribute::PartialAttribute;
use yasna::models::TaggedDerValue;
use yasna::{ASN1Result, BERMode, BERReader, DERWriter, PrependBuffer, Tag};
use yasna_notation::{
    Application, Implicit, Message, Notation, Represents, Sequence, SequenceOf, read_as,
};
use yasna_notation_constraints::{Checked, accepts_fields};
use yasna_notation_types::{
    Rest, implicit_fields_len, prepend_implicit_fields, write_implicit_fields,
};

type Parts = (
    Vec<u8>,
    (SequenceOf<PartialAttribute>, Rest<TaggedDerValue>),
);

type Fields = (Vec<u8>, (Vec<PartialAttribute>, Vec<TaggedDerValue>));

type Notated = Implicit<Application<4>, Sequence<Parts>>;

/// An entry that a search finds.
#[derive(Drop)]
pub struct SearchResultEntry {
    /// The name of the entry, in UTF-8.
    pub object_name: Vec<u8>,
    pub attributes: Vec<PartialAttribute>,
    /// The components at the end that this version doesn't know, as they came.
    pub unknown: Vec<TaggedDerValue>,
}

impl Represents<Fields> for SearchResultEntry {
    ghost value_of = { λ v. (v.object_name, (v.attributes, v.unknown)) };

    fn from_value((object_name, (attributes, unknown)): Fields) -> SearchResultEntry {
        SearchResultEntry {
            object_name,
            attributes,
            unknown,
        }
    }
}

impl Notation for SearchResultEntry {
    type Value = SearchResultEntry;

    type Inner = ();

    ghost means = { represented_by ⟦<SearchResultEntry as Represents<Fields>>⟧.value_of ⟦<Notated as Notation>⟧.means };

    fn has_tag(tag: Tag) -> bool {
        tag == Tag::application(4)
    }

    fn read(reader: BERReader) -> ASN1Result<SearchResultEntry> {
        read_as::<Notated, SearchResultEntry>(reader)
    }

    fn write(value: &SearchResultEntry, writer: DERWriter<'_>) -> ASN1Result<()> {
        write_implicit_fields::<Application<4>, Parts, _>(
            (&value.object_name, (&value.attributes, &value.unknown)),
            writer,
        )
    }

    fn prepend(
        value: &SearchResultEntry,
        under: Option<Tag>,
        out: &mut PrependBuffer,
    ) -> ASN1Result<()> {
        prepend_implicit_fields::<Application<4>, Parts, _>(
            (&value.object_name, (&value.attributes, &value.unknown)),
            under,
            out,
        )
    }

    fn encoded_len(value: &SearchResultEntry, under: Option<Tag>, mode: BERMode) -> Option<usize> {
        implicit_fields_len::<Application<4>, Parts, _>(
            (&value.object_name, (&value.attributes, &value.unknown)),
            under,
            mode,
        )
    }

    ghost lawful = { λ _. represented_lawful ⟦<SearchResultEntry as Represents<Fields>>⟧.value_of
        (in_application 4 (omega arith) (in_sequence (part (octets refl).own (part
        (in_sequence_of (attribute refl).own).own (rest_laws any_lawful.own))))) };

    ghost non_empty = { λ u m v. element_non_empty _ _ _ _ };
}

impl Message for SearchResultEntry {
    ghost is_unambiguous = { refl };
}

impl Checked for SearchResultEntry {
    fn accepts(value: &SearchResultEntry) -> bool {
        accepts_fields::<Parts, _>((&value.object_name, (&value.attributes, &value.unknown)))
    }
}
