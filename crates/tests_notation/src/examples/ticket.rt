//! An example of `write_explicit_fields`: a ticket without its encrypted part (RFC 4120, 5.3).
//!
//! ```text
//! TicketName ::= [APPLICATION 1] EXPLICIT SEQUENCE {
//!     tkt-vno  [0] INTEGER,
//!     realm    [1] GeneralString,
//!     sname    [2] PrincipalName }
//! ```
ghost use Rattle.std.specs.Prelude.{◌≡◌, refl};
ghost use Rattle.std.proofs.Common.{arith};
ghost use Rattle.yasna_notation.specs.Canonical.{represented_written};
ghost use Rattle.yasna_notation.specs.Laws.{represented_lawful, element_non_empty};
ghost use Rattle.yasna_notation.specs.Making.{in_explicit, in_sequence, in_sequence_of, part};
ghost use Rattle.yasna_notation.specs.Notation.{represented_by};
ghost use Rattle.yasna_notation.specs.Parts.{no_parts};
ghost use Rattle.yasna_notation.specs.Writing.{explicit_written, sequence_written, sequence_of_written, part_written, no_part_written};
ghost use Rattle.yasna_notation.specs.contracts.canonical.I32CanonicalNotation.TheImpl.Laws.{written-law as int32_written};
ghost use Rattle.yasna_notation.specs.contracts.canonical.I64CanonicalNotation.TheImpl.Laws.{written-law as int64_written};
ghost use Rattle.yasna_notation.specs.contracts.canonical.VecU8CanonicalNotation.TheImpl.Laws.{written-law as octets_written};
ghost use Rattle.yasna_notation.specs.contracts.simple.I32Notation.TheImpl.Laws.{lawful-law as int32};
ghost use Rattle.yasna_notation.specs.contracts.simple.I64Notation.TheImpl.Laws.{lawful-law as int64};
ghost use Rattle.yasna_notation.specs.contracts.strings.VecU8Notation.TheImpl.Laws.{lawful-law as octets};
ghost use Rattle.yasna_notation_types.specs.Making.{explicit_application, explicit_application_written, in_universal, under_universal};

use crate::examples::principal_name::PrincipalName;
use yasna_base::{ASN1Result, BERMode, Tag};
use yasna_notation::{
    Application, CanonicalNotation, Context, DefinedType, Explicit, Message, Notation, Represents,
    Sequence, read_as,
};
use yasna_notation_types::{
    GeneralString, explicit_fields_len, prepend_explicit_fields, write_explicit_fields,
};
use yasna_reader::BERReader;
use yasna_writer::{DERWriter, PrependBuffer};

type Parts = (
    Explicit<Context<0>, i64>,
    (
        Explicit<Context<1>, GeneralString>,
        (Explicit<Context<2>, PrincipalName>, ()),
    ),
);

type Fields = (i64, (Vec<u8>, (PrincipalName, ())));

type Notated = Explicit<Application<1>, Sequence<Parts>>;

/// What a ticket says in plain text.
#[derive(Drop)]
pub struct Ticket {
    /// The version of the format.
    pub tkt_vno: i64,
    /// The octets of the realm's name.
    pub realm: Vec<u8>,
    /// The name of the server.
    pub sname: PrincipalName,
}

impl Represents<Fields> for Ticket {
    ghost value_of = { λ v. (v.tkt_vno, (v.realm, (v.sname, tt))) };

    fn from_value((tkt_vno, (realm, (sname, ()))): Fields) -> Ticket {
        Ticket {
            tkt_vno,
            realm,
            sname,
        }
    }
}

impl Notation for Ticket {
    type Value = Ticket;

    type Inner = ();

    ghost means = { represented_by ⟦<Ticket as Represents<Fields>>⟧.value_of ⟦<Notated as Notation>⟧.means };

    fn has_tag(tag: Tag) -> bool {
        tag == Tag::application(1)
    }

    fn read(reader: BERReader) -> ASN1Result<Ticket> {
        read_as::<Notated, Ticket>(reader)
    }

    fn write(value: &Ticket, writer: DERWriter<'_>) -> ASN1Result<()> {
        write_explicit_fields::<Application<1>, Parts, _>(
            (&value.tkt_vno, (&value.realm, (&value.sname, ()))),
            writer,
        )
    }

    fn prepend(value: &Ticket, under: Option<Tag>, out: &mut PrependBuffer) -> ASN1Result<()> {
        prepend_explicit_fields::<Application<1>, Parts, _>(
            (&value.tkt_vno, (&value.realm, (&value.sname, ()))),
            under,
            out,
        )
    }

    fn encoded_len(value: &Ticket, under: Option<Tag>, mode: BERMode) -> Option<usize> {
        explicit_fields_len::<Application<1>, Parts, _>(
            (&value.tkt_vno, (&value.realm, (&value.sname, ()))),
            under,
            mode,
        )
    }

    ghost lawful = { λ _. represented_lawful ⟦<Ticket as Represents<Fields>>⟧.value_of (explicit_application 1 (omega arith) (in_sequence
        (part (in_explicit 0 (omega arith) (int64 refl).own).own
        (part (in_explicit 1 (omega arith) (in_universal 27 (λ e. omega arith) (omega arith) (octets refl)).own).own
        (part (in_explicit 2 (omega arith) (represented_lawful ⟦<PrincipalName as DefinedType>⟧.value_of (in_sequence
        (part (in_explicit 0 (omega arith) (int32 refl).own).own
        (part (in_explicit 1 (omega arith) (in_sequence_of (in_universal 27 (λ e. omega arith) (omega arith) (octets refl)).own).own).own no_parts)))).own).own
        no_parts)))).own) };

    ghost non_empty = { λ u m v. element_non_empty _ _ _ _ };
}

impl Message for Ticket {
    ghost is_unambiguous = { refl };
}

impl CanonicalNotation for Ticket {
    ghost written = { λ _. represented_written ⟦<Ticket as Represents<Fields>>⟧.value_of (explicit_application_written (sequence_written
        (part_written (explicit_written (int64_written refl).own 0 (omega arith)).own
        (part_written (explicit_written (under_universal 27 (λ e. omega arith) (omega arith) (octets_written refl)).own 1 (omega arith)).own
        (part_written (explicit_written (represented_written ⟦<PrincipalName as DefinedType>⟧.value_of (sequence_written
        (part_written (explicit_written (int32_written refl).own 0 (omega arith)).own
        (part_written (explicit_written (sequence_of_written (under_universal 27 (λ e. omega arith) (omega arith) (octets_written refl)).own).own
        1 (omega arith)).own no_part_written)))).own 2 (omega arith)).own no_part_written)))).own 1 (omega arith)) };
}
