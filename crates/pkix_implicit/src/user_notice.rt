//! `UserNotice` of the module PKIX1Implicit88.
//!
//! ```text
//! UserNotice ::= SEQUENCE {
//!     noticeRef     NoticeReference OPTIONAL,
//!     explicitText  DisplayText OPTIONAL }
//! ```
ghost use Rattle.std.specs.Prelude.{◌≡◌, ◌↔◌, IsTrue, refl};
ghost use Rattle.yasna_notation.specs.Canonical.{represented_written};
ghost use Rattle.yasna_notation.specs.Laws.{element_non_empty, represented_lawful};
ghost use Rattle.yasna_notation.specs.Making.{in_sequence, optional_part};
ghost use Rattle.yasna_notation.specs.Notation.{represented_by};
ghost use Rattle.yasna_notation.specs.Parts.{no_parts};
ghost use Rattle.yasna_notation.specs.Writing.{no_part_written, optional_written, sequence_written};
ghost use Rattle.pkix_implicit.specs.contracts.display_text.DisplayTextNotation.TheImpl.Laws.{lawful-law as display_text_law};
ghost use Rattle.pkix_implicit.specs.contracts.display_text.DisplayTextCanonicalNotation.TheImpl.Laws.{written-law as display_text_written};
ghost use Rattle.pkix_implicit.specs.contracts.notice_reference.NoticeReferenceNotation.TheImpl.Laws.{lawful-law as notice_reference_law};
ghost use Rattle.pkix_implicit.specs.contracts.notice_reference.NoticeReferenceCanonicalNotation.TheImpl.Laws.{written-law as notice_reference_written};

use crate::display_text::DisplayText;
use crate::notice_reference::NoticeReference;
use yasna::{ASN1Result, BERMode, BERReader, DERWriter, PrependBuffer, Tag};
use yasna_notation::{
    CanonicalNotation, Message, Notation, Optional, Represents, Sequence, read_as,
};
use yasna_notation_constraints::{Checked, accepts_fields};

type Parts = (Optional<NoticeReference>, (Optional<DisplayText>, ()));

type Fields = (Option<NoticeReference>, (Option<DisplayText>, ()));

type Notated = Sequence<Parts>;

/// `UserNotice`.
#[derive(Drop)]
pub struct UserNotice {
    pub notice_ref: Option<NoticeReference>,
    pub explicit_text: Option<DisplayText>,
}

impl Represents<Fields> for UserNotice {
    ghost value_of = { λ v. (v.notice_ref, (v.explicit_text, tt)) };

    fn from_value((notice_ref, (explicit_text, ())): Fields) -> UserNotice {
        UserNotice {
            notice_ref,
            explicit_text,
        }
    }
}

impl Notation for UserNotice {
    type Value = UserNotice;

    type Inner = ();

    ghost means = { represented_by ⟦<UserNotice as Represents<Fields>>⟧.value_of ⟦<Notated as Notation>⟧.means };

    fn has_tag(tag: Tag) -> bool {
        <Notated as Notation>::has_tag(tag)
    }

    fn read(reader: BERReader) -> ASN1Result<UserNotice> {
        read_as::<Notated, UserNotice>(reader)
    }

    fn write(value: &UserNotice, writer: DERWriter<'_>) -> ASN1Result<()> {
        Sequence::<Parts>::write_fields((&value.notice_ref, (&value.explicit_text, ())), writer)
    }

    fn prepend(value: &UserNotice, under: Option<Tag>, out: &mut PrependBuffer) -> ASN1Result<()> {
        Sequence::<Parts>::prepend_fields(
            (&value.notice_ref, (&value.explicit_text, ())),
            under,
            out,
        )
    }

    fn encoded_len(value: &UserNotice, under: Option<Tag>, mode: BERMode) -> Option<usize> {
        Sequence::<Parts>::fields_len((&value.notice_ref, (&value.explicit_text, ())), under, mode)
    }

    ghost lawful = { λ _. represented_lawful ⟦<UserNotice as Represents<Fields>>⟧.value_of (in_sequence
        (optional_part refl (notice_reference_law refl).own (optional_part refl (display_text_law refl).own no_parts))) };

    ghost non_empty = { λ u m v. element_non_empty _ _ _ _ };
}

impl Message for UserNotice {
    ghost is_unambiguous = { refl };
}

impl CanonicalNotation for UserNotice {
    ghost written = { λ _. represented_written ⟦<UserNotice as Represents<Fields>>⟧.value_of (sequence_written
        (optional_written (notice_reference_written refl).own (optional_written (display_text_written refl).own no_part_written))) };
}

impl Checked for UserNotice {
    fn accepts(value: &UserNotice) -> bool {
        accepts_fields::<Parts, _>((&value.notice_ref, (&value.explicit_text, ())))
    }
}
