//! Messages of SNMPv1 (RFC 1157, 4).
//!
//! ```text
//! Message ::= SEQUENCE {
//!     version    INTEGER { version-1(0) },
//!     community  OCTET STRING,
//!     data       ANY }
//! ```
//!
//! The data is a protocol data unit.
ghost use Rattle.std.specs.Prelude.{◌≡◌, ◌↔◌, IsTrue, refl};
ghost use Rattle.yasna_notation.specs.Canonical.{represented_written};
ghost use Rattle.yasna_notation.specs.Laws.{represented_lawful, element_non_empty};
ghost use Rattle.yasna_notation.specs.Making.{in_sequence, part, exactly, in_bound};
ghost use Rattle.yasna_notation.specs.Notation.{represented_by};
ghost use Rattle.yasna_notation.specs.Parts.{no_parts};
ghost use Rattle.yasna_notation.specs.Writing.{no_part_written, part_written, sequence_written, bound_written};
ghost use Rattle.yasna_notation.specs.contracts.simple.U64Notation.TheImpl.Laws.{lawful-law as count64};
ghost use Rattle.yasna_notation.specs.contracts.canonical.U64CanonicalNotation.TheImpl.Laws.{written-law as count64_written};
ghost use Rattle.yasna_notation.specs.contracts.strings.VecU8Notation.TheImpl.Laws.{lawful-law as octets};
ghost use Rattle.yasna_notation.specs.contracts.canonical.VecU8CanonicalNotation.TheImpl.Laws.{written-law as octets_written};
ghost use Rattle.snmp.specs.contracts.v1.pdus.PdusNotation.TheImpl.Laws.{lawful-law as pdus1};
ghost use Rattle.snmp.specs.contracts.v1.pdus.PdusCanonicalNotation.TheImpl.Laws.{written-law as pdus1_written};

use crate::v1::pdus::Pdus;
use yasna::tags::TAG_SEQUENCE;
use yasna::{ASN1Result, BERMode, BERReader, DERWriter, PrependBuffer, Tag};
use yasna_notation::{
    Bounded, CanonicalNotation, Exactly, Message, Notation, Represents, Sequence, read_as,
};
use yasna_notation_constraints::{Checked, accepts_fields};

type Version = Bounded<u64, Exactly<0>>;

type Parts = (Version, (Vec<u8>, (Pdus, ())));

type Fields = (u64, (Vec<u8>, (Pdus, ())));

/// A message of SNMPv1.
#[derive(Drop)]
pub struct SnmpMessage {
    /// 0, for version 1.
    pub version: u64,
    pub community: Vec<u8>,
    pub data: Pdus,
}

impl Represents<Fields> for SnmpMessage {
    ghost value_of = { λ v. (v.version, (v.community, (v.data, tt))) };

    fn from_value((version, (community, (data, ()))): Fields) -> SnmpMessage {
        SnmpMessage {
            version,
            community,
            data,
        }
    }
}

impl Notation for SnmpMessage {
    type Value = SnmpMessage;

    type Inner = ();

    ghost means = { represented_by ⟦<SnmpMessage as Represents<Fields>>⟧.value_of ⟦<Sequence<Parts> as Notation>⟧.means };

    fn has_tag(tag: Tag) -> bool {
        tag == TAG_SEQUENCE
    }

    fn read(reader: BERReader) -> ASN1Result<SnmpMessage> {
        read_as::<Sequence<Parts>, SnmpMessage>(reader)
    }

    fn write(value: &SnmpMessage, writer: DERWriter<'_>) -> ASN1Result<()> {
        Sequence::<Parts>::write_fields(
            (&value.version, (&value.community, (&value.data, ()))),
            writer,
        )
    }

    fn prepend(value: &SnmpMessage, under: Option<Tag>, out: &mut PrependBuffer) -> ASN1Result<()> {
        Sequence::<Parts>::prepend_fields(
            (&value.version, (&value.community, (&value.data, ()))),
            under,
            out,
        )
    }

    fn encoded_len(value: &SnmpMessage, under: Option<Tag>, mode: BERMode) -> Option<usize> {
        Sequence::<Parts>::fields_len(
            (&value.version, (&value.community, (&value.data, ()))),
            under,
            mode,
        )
    }

    ghost lawful = { λ _. represented_lawful ⟦<SnmpMessage as Represents<Fields>>⟧.value_of (in_sequence
        (part (in_bound (exactly 0) (count64 refl)).own (part (octets refl).own
        (part (pdus1 refl).own no_parts)))) };

    ghost non_empty = { λ u m v. element_non_empty _ _ _ _ };
}

impl Message for SnmpMessage {
    ghost is_unambiguous = { refl };
}

impl CanonicalNotation for SnmpMessage {
    ghost written = { λ _. represented_written ⟦<SnmpMessage as Represents<Fields>>⟧.value_of (sequence_written
        (part_written (bound_written (exactly 0) (count64_written refl)).own
        (part_written (octets_written refl).own (part_written (pdus1_written refl).own no_part_written)))) };
}

impl Checked for SnmpMessage {
    fn accepts(value: &SnmpMessage) -> bool {
        accepts_fields::<Parts, _>((&value.version, (&value.community, (&value.data, ()))))
    }
}
