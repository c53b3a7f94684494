//! `PKIStatusInfo` of the module PKIXTSP.
//!
//! ```text
//! PKIStatusInfo ::= SEQUENCE {
//!     status        PKIStatus,
//!     statusString  PKIFreeText OPTIONAL,
//!     failInfo      PKIFailureInfo OPTIONAL }
//! ```
ghost use Rattle.std.specs.Prelude.{◌≡◌, ◌↔◌, IsTrue, refl};
ghost use Rattle.yasna_notation.specs.Laws.{element_non_empty, represented_lawful};
ghost use Rattle.yasna_notation.specs.Making.{in_sequence, optional_part, part};
ghost use Rattle.yasna_notation.specs.Notation.{represented_by};
ghost use Rattle.yasna_notation.specs.Parts.{no_parts};
ghost use Rattle.yasna_notation.specs.contracts.simple.BigIntegerNotation.TheImpl.Laws.{lawful-law as big_law};
ghost use Rattle.yasna_notation_types.specs.contracts.named_bits.NamedBitsNotation.TheImpl.Laws.{lawful-law as named_bits_law};
ghost use Rattle.tsp.specs.contracts.pki_free_text.PkiFreeTextNotation.TheImpl.Laws.{lawful-law as pki_free_text_law};

use crate::pki_free_text::PkiFreeText;
use yasna::{ASN1Result, BERMode, BERReader, DERWriter, PrependBuffer, Tag};
use yasna_notation::{BigInteger, Message, Notation, Optional, Represents, Sequence, read_as};
use yasna_notation_constraints::{Checked, accepts_fields};
use yasna_notation_types::NamedBits;

type Parts = (
    BigInteger,
    (Optional<PkiFreeText>, (Optional<NamedBits>, ())),
);

type Fields = (
    (Vec<u8>, bool),
    (Option<PkiFreeText>, (Option<(Vec<u8>, usize)>, ())),
);

type Notated = Sequence<Parts>;

/// `PKIStatusInfo`.
#[derive(Drop)]
pub struct PkiStatusInfo {
    pub status: (Vec<u8>, bool),
    pub status_string: Option<PkiFreeText>,
    pub fail_info: Option<(Vec<u8>, usize)>,
}

impl Represents<Fields> for PkiStatusInfo {
    ghost value_of = { λ v. (v.status, (v.status_string, (v.fail_info, tt))) };

    fn from_value((status, (status_string, (fail_info, ()))): Fields) -> PkiStatusInfo {
        PkiStatusInfo {
            status,
            status_string,
            fail_info,
        }
    }
}

impl Notation for PkiStatusInfo {
    type Value = PkiStatusInfo;

    type Inner = ();

    ghost means = { represented_by ⟦<PkiStatusInfo as Represents<Fields>>⟧.value_of ⟦<Notated as Notation>⟧.means };

    fn has_tag(tag: Tag) -> bool {
        <Notated as Notation>::has_tag(tag)
    }

    fn read(reader: BERReader) -> ASN1Result<PkiStatusInfo> {
        read_as::<Notated, PkiStatusInfo>(reader)
    }

    fn write(value: &PkiStatusInfo, writer: DERWriter<'_>) -> ASN1Result<()> {
        Sequence::<Parts>::write_fields(
            (
                &value.status,
                (&value.status_string, (&value.fail_info, ())),
            ),
            writer,
        )
    }

    fn prepend(
        value: &PkiStatusInfo,
        under: Option<Tag>,
        out: &mut PrependBuffer,
    ) -> ASN1Result<()> {
        Sequence::<Parts>::prepend_fields(
            (
                &value.status,
                (&value.status_string, (&value.fail_info, ())),
            ),
            under,
            out,
        )
    }

    fn encoded_len(value: &PkiStatusInfo, under: Option<Tag>, mode: BERMode) -> Option<usize> {
        Sequence::<Parts>::fields_len(
            (
                &value.status,
                (&value.status_string, (&value.fail_info, ())),
            ),
            under,
            mode,
        )
    }

    ghost lawful = { λ _. represented_lawful ⟦<PkiStatusInfo as Represents<Fields>>⟧.value_of (in_sequence
        (part (big_law refl).own (optional_part refl (pki_free_text_law refl).own (optional_part refl (named_bits_law refl).own no_parts)))) };

    ghost non_empty = { λ u m v. element_non_empty _ _ _ _ };
}

impl Message for PkiStatusInfo {
    ghost is_unambiguous = { refl };
}

impl Checked for PkiStatusInfo {
    fn accepts(value: &PkiStatusInfo) -> bool {
        accepts_fields::<Parts, _>((
            &value.status,
            (&value.status_string, (&value.fail_info, ())),
        ))
    }
}
