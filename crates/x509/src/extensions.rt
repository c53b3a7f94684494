//! Extensions of a certificate, of a revocation list, or of an entry of one (RFC 5280, 4.1).
//!
//! ```text
//! Extensions ::= SEQUENCE SIZE (1..MAX) OF Extension
//! ```
ghost use Rattle.std.specs.Prelude.{◌≡◌, ◌↔◌, IsTrue, false, not, refl};
ghost use Rattle.yasna_notation.specs.Laws.{represented_lawful, element_non_empty};
ghost use Rattle.yasna_notation.specs.Making.{in_sequence, in_sequence_of, not_empty, part, default_part};
ghost use Rattle.yasna_notation.specs.Notation.{represented_by};
ghost use Rattle.yasna_notation.specs.Parts.{no_parts, detects_false};
ghost use Rattle.yasna_notation.specs.contracts.simple.ObjectIdentifierNotation.TheImpl.Laws.{lawful-law as oid};
ghost use Rattle.yasna_notation.specs.contracts.simple.BoolNotation.TheImpl.Laws.{lawful-law as flag};
ghost use Rattle.yasna_notation.specs.contracts.strings.VecU8Notation.TheImpl.Laws.{lawful-law as octets};

use crate::extension::Extension;
use yasna::tags::TAG_SEQUENCE;
use yasna::{ASN1Result, BERMode, BERReader, DERWriter, PrependBuffer, Tag};
use yasna_notation::{
    Bounded, DefinedType, Message, NotEmpty, Notation, Represents, SequenceOf, read_as,
};
use yasna_notation_constraints::Checked;

type List = Bounded<SequenceOf<Extension>, NotEmpty>;

/// Extensions, one or more.
#[derive(Drop)]
pub struct Extensions {
    /// One or more.
    pub extensions: Vec<Extension>,
}

impl Represents<Vec<Extension>> for Extensions {
    ghost value_of = { λ v. v.extensions };

    fn from_value(extensions: Vec<Extension>) -> Extensions {
        Extensions { extensions }
    }
}

impl Notation for Extensions {
    type Value = Extensions;

    type Inner = ();

    ghost means = { represented_by ⟦<Extensions as Represents<Vec<Extension>>>⟧.value_of ⟦<List as Notation>⟧.means };

    fn has_tag(tag: Tag) -> bool {
        tag == TAG_SEQUENCE
    }

    fn read(reader: BERReader) -> ASN1Result<Extensions> {
        read_as::<List, Extensions>(reader)
    }

    fn write(value: &Extensions, writer: DERWriter<'_>) -> ASN1Result<()> {
        <List as Notation>::write(&value.extensions, writer)
    }

    fn prepend(value: &Extensions, under: Option<Tag>, out: &mut PrependBuffer) -> ASN1Result<()> {
        <List as Notation>::prepend(&value.extensions, under, out)
    }

    fn encoded_len(value: &Extensions, under: Option<Tag>, mode: BERMode) -> Option<usize> {
        <List as Notation>::encoded_len(&value.extensions, under, mode)
    }

    ghost lawful = { λ _. represented_lawful ⟦<Extensions as Represents<Vec<Extension>>>⟧.value_of
        (not_empty (in_sequence_of (represented_lawful ⟦<Extension as DefinedType>⟧.value_of
        (in_sequence (part (oid refl).own (default_part not false detects_false refl (flag refl).own (part (octets refl).own no_parts))))).own)) };

    ghost non_empty = { λ u m v. element_non_empty _ _ _ _ };
}

impl Message for Extensions {
    ghost is_unambiguous = { refl };
}

impl Checked for Extensions {
    fn accepts(value: &Extensions) -> bool {
        List::accepts(&value.extensions)
    }
}
