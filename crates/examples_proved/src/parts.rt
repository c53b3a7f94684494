//! A type whose parts are omitted, tagged, chosen, and in any order.
//!
//! ```text
//! Ticket ::= SEQUENCE {
//!     version [0] EXPLICIT INTEGER (0..18446744073709551615) DEFAULT 1,
//!     note    [1] IMPLICIT OCTET STRING OPTIONAL,
//!     serial  INTEGER,
//!     kind    CHOICE { open NULL, sealed BOOLEAN, limited [2] IMPLICIT INTEGER },
//!     marks   SET OF INTEGER }
//! ```
ghost use Rattle.std.specs.Prelude.{◌≡◌, ◌∷◌, [], ◌||◌, true, false, nat_eq};
ghost use Rattle.std.specs.Int.{w64};
ghost use Rattle.yasna.specs.Words.{Any, Enclosed, AnyEnclosed, EncodesSigned, context, set_tag, sequence_tag, null_tag, boolean_tag};
ghost use Rattle.yasna.specs.Words.{Decodes, DecodesByTags, Step, Done, ReadsOptional, ReadsDefault, IsFresh, part_of};
ghost use Rattle.yasna.specs.Words.{Reads, Primitively, IsSigned, NoLevel, NeverAllocates, integer_tag};
ghost use Rattle.examples_proved.specs.Tickets.{EncodesVersion, AnyVersion, EncodesNote, AnyNote, EncodesLimit, EncodesKind, AnyKind, EncodesMarks, AnyMarks};
ghost use Rattle.examples_proved.specs.Tickets.{Parts, AnyParts, SameParts, ticket_parts, ReadsRest, ticket_coding};

use yasna::tags::{TAG_BOOLEAN, TAG_NULL};
use yasna::{ASN1Result, BERDecodable, BERReader, BERReaderSeq, Tag};

/// What a ticket is of.
#[derive(Drop)]
pub enum TicketKind {
    Open,
    Sealed(bool),
    Limited(i64),
}

/// A ticket.
#[derive(Drop)]
pub struct Ticket {
    pub version: u64,
    pub note: Option<Vec<u8>>,
    pub serial: i64,
    pub kind: TicketKind,
    pub marks: Vec<i64>,
}

// The version, under its tag.
fn read_version(reader: BERReader) -> ASN1Result<u64>
    requires { IsFresh reader.old }
    ensures { DecodesByTags (context 0 ∷ []) false EncodesVersion AnyVersion reader.old result reader.new }
{
    reader.read_tagged(Tag::context(0), |inner| inner.read_u64())
}

// The note, whose tag is in place of its own.
fn read_note(reader: BERReader) -> ASN1Result<Vec<u8>>
    requires { IsFresh reader.old }
    ensures { DecodesByTags (context 1 ∷ []) true EncodesNote AnyNote reader.old result reader.new }
{
    reader.read_tagged_implicit(Tag::context(1), |inner| inner.read_bytes())
}

// An INTEGER.
fn read_number(reader: BERReader) -> ASN1Result<i64>
    ensures { Reads (Primitively (IsSigned w64)) NoLevel NeverAllocates integer_tag reader.old result reader.new }
{
    reader.read_i64()
}

// A limit.
fn read_limit(reader: BERReader) -> ASN1Result<i64>
    requires { IsFresh reader.old }
    ensures { DecodesByTags (context 2 ∷ []) false EncodesLimit (Any EncodesLimit) reader.old result reader.new }
{
    reader.read_tagged_implicit(Tag::context(2), read_number)
}

// The kind, by the next tag.
fn read_kind(reader: BERReader) -> ASN1Result<TicketKind>
    requires { IsFresh reader.old }
    ensures { DecodesByTags (null_tag ∷ boolean_tag ∷ context 2 ∷ []) false EncodesKind AnyKind reader.old result reader.new }
{
    match reader.lookahead_tag() {
        Ok(tag) => {
            if tag == TAG_NULL {
                match reader.read_null() {
                    Ok(()) => Ok(TicketKind::Open),
                    Err(error) => Err(error),
                }
            } else if tag == TAG_BOOLEAN {
                match reader.read_bool() {
                    Ok(sealed) => Ok(TicketKind::Sealed(sealed)),
                    Err(error) => Err(error),
                }
            } else {
                match read_limit(reader) {
                    Ok(limit) => Ok(TicketKind::Limited(limit)),
                    Err(error) => Err(error),
                }
            }
        }
        Err(error) => Err(error),
    }
}

// The marks.
fn read_marks(reader: BERReader) -> ASN1Result<Vec<i64>>
    requires { IsFresh reader.old }
    ensures { DecodesByTags (set_tag ∷ []) true EncodesMarks AnyMarks reader.old result reader.new }
{
    reader.collect_set_of(read_number)
}

// What is after the note.
fn read_rest(seq: &mut BERReaderSeq, version: u64, note: Option<Vec<u8>>) -> ASN1Result<Ticket>
    requires { IsFresh (part_of seq.old) }
    ensures { ReadsRest version note (part_of seq.old) result (part_of seq.new) }
{
    let serial = i64::decode_ber(seq.next())?;
    let kind = read_kind(seq.next())?;
    let marks = read_marks(seq.next())?;
    Ok(Ticket {
        version,
        note,
        serial,
        kind,
        marks,
    })
}

impl BERDecodable for Ticket {
    ghost encodes = { λ m n v b. Enclosed Parts sequence_tag m n (ticket_parts v) b };

    ghost elements = { AnyEnclosed AnyParts sequence_tag };

    ghost may_allocate = { (false || (true || (false || (false || (true || false))))) };

    ghost same = { λ v w. SameParts (ticket_parts v) (ticket_parts w) };

    fn decode_ber(reader: BERReader) -> ASN1Result<Ticket> {
        reader.read_sequence(
            |seq| -> ASN1Result<Ticket>
                requires { IsFresh (part_of seq.old) }
                ensures { Step (ReadsDefault (DecodesByTags (context 0 ∷ []) false EncodesVersion AnyVersion) nat_eq 1) (λ version. Step (ReadsOptional (DecodesByTags (context 1 ∷ []) true EncodesNote AnyNote)) (λ note. ReadsRest version note)) (part_of seq.old) result (part_of seq.new) }
            {
                let version = seq.read_default(1, read_version)?;
                let note = seq.read_optional(read_note)?;
                read_rest(seq, version, note)
            },
        )
    }

    ghost coding = { ticket_coding };
}
