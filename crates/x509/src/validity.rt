//! From when until when a certificate holds (RFC 5280, 4.1.2.5).
//!
//! ```text
//! Validity ::= SEQUENCE { notBefore Time, notAfter Time }
//! ```
ghost use Rattle.std.specs.Prelude.{◌≡◌, ◌↔◌, IsTrue, refl};
ghost use Rattle.yasna_notation.specs.Laws.{represented_lawful, element_non_empty};
ghost use Rattle.yasna_notation.specs.Making.{in_sequence, part};
ghost use Rattle.yasna_notation.specs.Notation.{represented_by};
ghost use Rattle.yasna_notation.specs.Parts.{no_parts};
ghost use Rattle.x509.specs.contracts.time_part.TimePartNotation.TheImpl.Laws.{lawful-law as time};

use crate::time::Time;
use crate::time_part::TimePart;
use yasna::tags::TAG_SEQUENCE;
use yasna::{ASN1Result, BERMode, BERReader, DERWriter, PrependBuffer, Tag};
use yasna_notation::{Message, Notation, Represents, Sequence, read_as};
use yasna_notation_constraints::{Checked, accepts_fields};

type Parts = (TimePart, (TimePart, ()));

type Fields = (Time, (Time, ()));

/// From when until when a certificate holds.
#[derive(Drop)]
pub struct Validity {
    pub not_before: Time,
    pub not_after: Time,
}

impl Represents<Fields> for Validity {
    ghost value_of = { λ v. (v.not_before, (v.not_after, tt)) };

    fn from_value((not_before, (not_after, ())): Fields) -> Validity {
        Validity {
            not_before,
            not_after,
        }
    }
}

impl Notation for Validity {
    type Value = Validity;

    type Inner = ();

    ghost means = { represented_by ⟦<Validity as Represents<Fields>>⟧.value_of ⟦<Sequence<Parts> as Notation>⟧.means };

    fn has_tag(tag: Tag) -> bool {
        tag == TAG_SEQUENCE
    }

    fn read(reader: BERReader) -> ASN1Result<Validity> {
        read_as::<Sequence<Parts>, Validity>(reader)
    }

    fn write(value: &Validity, writer: DERWriter<'_>) -> ASN1Result<()> {
        Sequence::<Parts>::write_fields((&value.not_before, (&value.not_after, ())), writer)
    }

    fn prepend(value: &Validity, under: Option<Tag>, out: &mut PrependBuffer) -> ASN1Result<()> {
        Sequence::<Parts>::prepend_fields((&value.not_before, (&value.not_after, ())), under, out)
    }

    fn encoded_len(value: &Validity, under: Option<Tag>, mode: BERMode) -> Option<usize> {
        Sequence::<Parts>::fields_len((&value.not_before, (&value.not_after, ())), under, mode)
    }

    ghost lawful = { λ _. represented_lawful ⟦<Validity as Represents<Fields>>⟧.value_of (in_sequence (part (time refl).own
        (part (time refl).own no_parts))) };

    ghost non_empty = { λ u m v. element_non_empty _ _ _ _ };
}

impl Message for Validity {
    ghost is_unambiguous = { refl };
}

impl Checked for Validity {
    fn accepts(value: &Validity) -> bool {
        accepts_fields::<Parts, _>((&value.not_before, (&value.not_after, ())))
    }
}
