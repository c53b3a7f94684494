//! Algorithms (RFC 5280, 4.1.1.2).
//!
//! ```text
//! AlgorithmIdentifier ::= SEQUENCE {
//!     algorithm   OBJECT IDENTIFIER,
//!     parameters  ANY DEFINED BY algorithm OPTIONAL }
//! ```
ghost use Rattle.std.specs.Prelude.{◌≡◌, ◌↔◌, IsTrue, refl};
ghost use Rattle.yasna_notation.specs.Laws.{represented_lawful, element_non_empty};
ghost use Rattle.yasna_notation.specs.Making.{in_sequence, part};
ghost use Rattle.yasna_notation.specs.Notation.{represented_by};
ghost use Rattle.yasna_notation.specs.Parts.{last_part_laws};
ghost use Rattle.yasna_notation.specs.contracts.simple.ObjectIdentifierNotation.TheImpl.Laws.{lawful-law as oid};
ghost use Rattle.yasna_notation.specs.contracts.any.TaggedDerValueNotation.TheImpl.Laws.{lawful-law as any};

use yasna::models::{ObjectIdentifier, TaggedDerValue};
use yasna::tags::TAG_SEQUENCE;
use yasna::{ASN1Result, BERMode, BERReader, DERWriter, PrependBuffer, Tag};
use yasna_notation::{Last, Message, Notation, Represents, Sequence, read_as};
use yasna_notation_constraints::{Checked, accepts_fields};

type Parts = (ObjectIdentifier, Last<TaggedDerValue>);

type Fields = (ObjectIdentifier, Option<TaggedDerValue>);

/// An algorithm, with its parameters as they came.
#[derive(Drop)]
pub struct AlgorithmIdentifier {
    pub algorithm: ObjectIdentifier,
    pub parameters: Option<TaggedDerValue>,
}

impl Represents<Fields> for AlgorithmIdentifier {
    ghost value_of = { λ v. (v.algorithm, v.parameters) };

    fn from_value((algorithm, parameters): Fields) -> AlgorithmIdentifier {
        AlgorithmIdentifier {
            algorithm,
            parameters,
        }
    }
}

impl Notation for AlgorithmIdentifier {
    type Value = AlgorithmIdentifier;

    type Inner = ();

    ghost means = { represented_by ⟦<AlgorithmIdentifier as Represents<Fields>>⟧.value_of ⟦<Sequence<Parts> as Notation>⟧.means };

    fn has_tag(tag: Tag) -> bool {
        tag == TAG_SEQUENCE
    }

    fn read(reader: BERReader) -> ASN1Result<AlgorithmIdentifier> {
        read_as::<Sequence<Parts>, AlgorithmIdentifier>(reader)
    }

    fn write(value: &AlgorithmIdentifier, writer: DERWriter<'_>) -> ASN1Result<()> {
        Sequence::<Parts>::write_fields((&value.algorithm, &value.parameters), writer)
    }

    fn prepend(
        value: &AlgorithmIdentifier,
        under: Option<Tag>,
        out: &mut PrependBuffer,
    ) -> ASN1Result<()> {
        Sequence::<Parts>::prepend_fields((&value.algorithm, &value.parameters), under, out)
    }

    fn encoded_len(
        value: &AlgorithmIdentifier,
        under: Option<Tag>,
        mode: BERMode,
    ) -> Option<usize> {
        Sequence::<Parts>::fields_len((&value.algorithm, &value.parameters), under, mode)
    }

    ghost lawful = { λ _. represented_lawful ⟦<AlgorithmIdentifier as Represents<Fields>>⟧.value_of (in_sequence
        (part (oid refl).own (last_part_laws (any refl).own))) };

    ghost non_empty = { λ u m v. element_non_empty _ _ _ _ };
}

impl Message for AlgorithmIdentifier {
    ghost is_unambiguous = { refl };
}

impl Checked for AlgorithmIdentifier {
    fn accepts(value: &AlgorithmIdentifier) -> bool {
        accepts_fields::<Parts, _>((&value.algorithm, &value.parameters))
    }
}
