//! Other servers where a search may go on (RFC 4511, 4.5.2).
//!
//! ```text
//! SearchResultReference ::= [APPLICATION 19] SEQUENCE SIZE (1..MAX) OF uri URI
//!
//! URI        ::= LDAPString
//! LDAPString ::= OCTET STRING
//! ```
ghost use Rattle.std.specs.Prelude.{◌≡◌, ◌↔◌, IsTrue, refl};
ghost use Rattle.std.proofs.Common.{arith};
ghost use Rattle.yasna_notation.specs.Laws.{represented_lawful, element_non_empty};
ghost use Rattle.yasna_notation.specs.Making.{in_application, in_sequence_of, not_empty};
ghost use Rattle.yasna_notation.specs.Notation.{represented_by};
ghost use Rattle.yasna_notation.specs.contracts.strings.VecU8Notation.TheImpl.Laws.{lawful-law as octets};
ghost use Rattle.yasna_notation.specs.Canonical.{represented_written};
ghost use Rattle.yasna_notation.specs.Writing.{sequence_of_written, under_application, non_empty_list_written};
ghost use Rattle.yasna_notation.specs.contracts.canonical.VecU8CanonicalNotation.TheImpl.Laws.{written-law as octets_written};

use yasna::{ASN1Result, BERMode, BERReader, DERWriter, PrependBuffer, Tag};
use yasna_notation::{
    Application, Bounded, CanonicalNotation, Implicit, Message, NotEmpty, Notation, Represents,
    SequenceOf, read_as,
};
use yasna_notation_constraints::Checked;

type Notated = Implicit<Application<19>, Bounded<SequenceOf<Vec<u8>>, NotEmpty>>;

/// Other servers where a search may go on, one or more.
#[derive(Drop)]
pub struct SearchResultReference {
    /// One or more.
    pub uris: Vec<Vec<u8>>,
}

impl Represents<Vec<Vec<u8>>> for SearchResultReference {
    ghost value_of = { λ v. v.uris };

    fn from_value(uris: Vec<Vec<u8>>) -> SearchResultReference {
        SearchResultReference { uris }
    }
}

impl Notation for SearchResultReference {
    type Value = SearchResultReference;

    type Inner = ();

    ghost means = { represented_by ⟦<SearchResultReference as Represents<Vec<Vec<u8>>>>⟧.value_of ⟦<Notated as Notation>⟧.means };

    fn has_tag(tag: Tag) -> bool {
        tag == Tag::application(19)
    }

    fn read(reader: BERReader) -> ASN1Result<SearchResultReference> {
        read_as::<Notated, SearchResultReference>(reader)
    }

    fn write(value: &SearchResultReference, writer: DERWriter<'_>) -> ASN1Result<()> {
        Notated::write(&value.uris, writer)
    }

    fn prepend(
        value: &SearchResultReference,
        under: Option<Tag>,
        out: &mut PrependBuffer,
    ) -> ASN1Result<()> {
        Notated::prepend(&value.uris, under, out)
    }

    fn encoded_len(
        value: &SearchResultReference,
        under: Option<Tag>,
        mode: BERMode,
    ) -> Option<usize> {
        Notated::encoded_len(&value.uris, under, mode)
    }

    ghost lawful = { λ _. represented_lawful ⟦<SearchResultReference as Represents<Vec<Vec<u8>>>>⟧.value_of
        (in_application 19 (omega arith) (not_empty (in_sequence_of (octets
        refl).own))) };

    ghost non_empty = { λ u m v. element_non_empty _ _ _ _ };
}

impl Message for SearchResultReference {
    ghost is_unambiguous = { refl };
}

impl CanonicalNotation for SearchResultReference {
    ghost written = { λ _. represented_written ⟦<SearchResultReference as Represents<Vec<Vec<u8>>>>⟧.value_of (under_application 19 (omega arith)
        (non_empty_list_written (sequence_of_written (octets_written refl).own))) };
}

impl Checked for SearchResultReference {
    fn accepts(value: &SearchResultReference) -> bool {
        Notated::accepts(&value.uris)
    }
}
