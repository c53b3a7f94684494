//! Contents of any type (RFC 5652, 3).
//!
//! ```text
//! ContentInfo ::= SEQUENCE {
//!     contentType  ContentType,
//!     content      [0] EXPLICIT ANY DEFINED BY contentType }
//!
//! ContentType ::= OBJECT IDENTIFIER
//! ```
ghost use Rattle.std.specs.Prelude.{◌≡◌, ◌↔◌, IsTrue, refl};
ghost use Rattle.std.proofs.Common.{arith};
ghost use Rattle.yasna_notation.specs.Laws.{represented_lawful, element_non_empty};
ghost use Rattle.yasna_notation.specs.Making.{in_sequence, part, in_explicit};
ghost use Rattle.yasna_notation.specs.Notation.{represented_by};
ghost use Rattle.yasna_notation.specs.Parts.{no_parts};
ghost use Rattle.yasna_notation.specs.contracts.simple.ObjectIdentifierNotation.TheImpl.Laws.{lawful-law as oid};
ghost use Rattle.yasna_notation.specs.contracts.any.TaggedDerValueNotation.TheImpl.Laws.{lawful-law as any};

use yasna::models::{ObjectIdentifier, TaggedDerValue};
use yasna::tags::TAG_SEQUENCE;
use yasna::{ASN1Result, BERMode, BERReader, DERWriter, PrependBuffer, Tag};
use yasna_notation::{Context, Explicit, Message, Notation, Represents, Sequence, read_as};
use yasna_notation_constraints::{Checked, accepts_fields};

type Content = Explicit<Context<0>, TaggedDerValue>;

type Parts = (ObjectIdentifier, (Content, ()));

type Fields = (ObjectIdentifier, (TaggedDerValue, ()));

/// Contents, as they came, and their type.
#[derive(Drop)]
pub struct ContentInfo {
    pub content_type: ObjectIdentifier,
    pub content: TaggedDerValue,
}

impl Represents<Fields> for ContentInfo {
    ghost value_of = { λ v. (v.content_type, (v.content, tt)) };

    fn from_value((content_type, (content, ())): Fields) -> ContentInfo {
        ContentInfo {
            content_type,
            content,
        }
    }
}

impl Notation for ContentInfo {
    type Value = ContentInfo;

    type Inner = ();

    ghost means = { represented_by ⟦<ContentInfo as Represents<Fields>>⟧.value_of ⟦<Sequence<Parts> as Notation>⟧.means };

    fn has_tag(tag: Tag) -> bool {
        tag == TAG_SEQUENCE
    }

    fn read(reader: BERReader) -> ASN1Result<ContentInfo> {
        read_as::<Sequence<Parts>, ContentInfo>(reader)
    }

    fn write(value: &ContentInfo, writer: DERWriter<'_>) -> ASN1Result<()> {
        Sequence::<Parts>::write_fields((&value.content_type, (&value.content, ())), writer)
    }

    fn prepend(value: &ContentInfo, under: Option<Tag>, out: &mut PrependBuffer) -> ASN1Result<()> {
        Sequence::<Parts>::prepend_fields((&value.content_type, (&value.content, ())), under, out)
    }

    fn encoded_len(value: &ContentInfo, under: Option<Tag>, mode: BERMode) -> Option<usize> {
        Sequence::<Parts>::fields_len((&value.content_type, (&value.content, ())), under, mode)
    }

    ghost lawful = { λ _. represented_lawful ⟦<ContentInfo as Represents<Fields>>⟧.value_of
        (in_sequence (part (oid refl).own (part (in_explicit 0 (omega arith) (any refl).own).own no_parts))) };

    ghost non_empty = { λ u m v. element_non_empty _ _ _ _ };
}

impl Message for ContentInfo {
    ghost is_unambiguous = { refl };
}

impl Checked for ContentInfo {
    fn accepts(value: &ContentInfo) -> bool {
        accepts_fields::<Parts, _>((&value.content_type, (&value.content, ())))
    }
}
