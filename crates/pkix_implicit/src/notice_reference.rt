//! `NoticeReference` of the module PKIX1Implicit88.
//!
//! ```text
//! NoticeReference ::= SEQUENCE {
//!     organization   DisplayText,
//!     noticeNumbers  SEQUENCE OF INTEGER }
//! ```
ghost use Rattle.std.specs.Prelude.{◌≡◌, ◌↔◌, IsTrue, refl};
ghost use Rattle.yasna_notation.specs.Canonical.{represented_written};
ghost use Rattle.yasna_notation.specs.Laws.{element_non_empty, represented_lawful};
ghost use Rattle.yasna_notation.specs.Making.{in_sequence, in_sequence_of, part};
ghost use Rattle.yasna_notation.specs.Notation.{represented_by};
ghost use Rattle.yasna_notation.specs.Parts.{no_parts};
ghost use Rattle.yasna_notation.specs.Writing.{no_part_written, part_written, sequence_of_written, sequence_written};
ghost use Rattle.yasna_notation.specs.contracts.simple.BigIntegerNotation.TheImpl.Laws.{lawful-law as big_law};
ghost use Rattle.yasna_notation.specs.contracts.canonical.BigIntegerCanonicalNotation.TheImpl.Laws.{written-law as big_written};
ghost use Rattle.pkix_implicit.specs.contracts.display_text.DisplayTextNotation.TheImpl.Laws.{lawful-law as display_text_law};
ghost use Rattle.pkix_implicit.specs.contracts.display_text.DisplayTextCanonicalNotation.TheImpl.Laws.{written-law as display_text_written};

use crate::display_text::DisplayText;
use yasna::{ASN1Result, BERMode, BERReader, DERWriter, PrependBuffer, Tag};
use yasna_notation::{
    BigInteger, CanonicalNotation, Message, Notation, Represents, Sequence, SequenceOf, read_as,
};
use yasna_notation_constraints::{Checked, accepts_fields};

type Parts = (DisplayText, (SequenceOf<BigInteger>, ()));

type Fields = (DisplayText, (Vec<(Vec<u8>, bool)>, ()));

type Notated = Sequence<Parts>;

/// `NoticeReference`.
#[derive(Drop)]
pub struct NoticeReference {
    pub organization: DisplayText,
    pub notice_numbers: Vec<(Vec<u8>, bool)>,
}

impl Represents<Fields> for NoticeReference {
    ghost value_of = { λ v. (v.organization, (v.notice_numbers, tt)) };

    fn from_value((organization, (notice_numbers, ())): Fields) -> NoticeReference {
        NoticeReference {
            organization,
            notice_numbers,
        }
    }
}

impl Notation for NoticeReference {
    type Value = NoticeReference;

    type Inner = ();

    ghost means = { represented_by ⟦<NoticeReference as Represents<Fields>>⟧.value_of ⟦<Notated as Notation>⟧.means };

    fn has_tag(tag: Tag) -> bool {
        <Notated as Notation>::has_tag(tag)
    }

    fn read(reader: BERReader) -> ASN1Result<NoticeReference> {
        read_as::<Notated, NoticeReference>(reader)
    }

    fn write(value: &NoticeReference, writer: DERWriter<'_>) -> ASN1Result<()> {
        Sequence::<Parts>::write_fields((&value.organization, (&value.notice_numbers, ())), writer)
    }

    fn prepend(
        value: &NoticeReference,
        under: Option<Tag>,
        out: &mut PrependBuffer,
    ) -> ASN1Result<()> {
        Sequence::<Parts>::prepend_fields(
            (&value.organization, (&value.notice_numbers, ())),
            under,
            out,
        )
    }

    fn encoded_len(value: &NoticeReference, under: Option<Tag>, mode: BERMode) -> Option<usize> {
        Sequence::<Parts>::fields_len(
            (&value.organization, (&value.notice_numbers, ())),
            under,
            mode,
        )
    }

    ghost lawful = { λ _. represented_lawful ⟦<NoticeReference as Represents<Fields>>⟧.value_of (in_sequence
        (part (display_text_law refl).own (part (in_sequence_of (big_law refl).own).own no_parts))) };

    ghost non_empty = { λ u m v. element_non_empty _ _ _ _ };
}

impl Message for NoticeReference {
    ghost is_unambiguous = { refl };
}

impl CanonicalNotation for NoticeReference {
    ghost written = { λ _. represented_written ⟦<NoticeReference as Represents<Fields>>⟧.value_of (sequence_written
        (part_written (display_text_written refl).own (part_written (sequence_of_written (big_written refl).own).own no_part_written))) };
}

impl Checked for NoticeReference {
    fn accepts(value: &NoticeReference) -> bool {
        accepts_fields::<Parts, _>((&value.organization, (&value.notice_numbers, ())))
    }
}
