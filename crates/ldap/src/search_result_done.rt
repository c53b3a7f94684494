//! The end of what a search finds (RFC 4511, 4.5.2).
//!
//! ```text
//! SearchResultDone ::= [APPLICATION 5] LDAPResult
//! ```
ghost use Rattle.std.specs.Prelude.{◌≡◌, ◌↔◌, IsTrue, refl};
ghost use Rattle.std.proofs.Common.{arith};
ghost use Rattle.yasna_notation.specs.Laws.{represented_lawful, element_non_empty};
ghost use Rattle.yasna_notation.specs.Making.{in_application};
ghost use Rattle.yasna_notation.specs.Notation.{represented_by};
ghost use Rattle.ldap.specs.contracts.ldap_result.LdapResultNotation.TheImpl.Laws.{lawful-law as result};

use crate::ldap_result::LdapResult;
use yasna::{ASN1Result, BERMode, BERReader, DERWriter, PrependBuffer, Tag};
use yasna_notation::{Application, Implicit, Message, Notation, Represents, read_as};
use yasna_notation_constraints::Checked;

type Notated = Implicit<Application<5>, LdapResult>;

/// The end of what a search finds.
#[derive(Drop)]
pub struct SearchResultDone {
    pub result: LdapResult,
}

impl Represents<LdapResult> for SearchResultDone {
    ghost value_of = { λ v. v.result };

    fn from_value(outcome: LdapResult) -> SearchResultDone {
        SearchResultDone { result: outcome }
    }
}

impl Notation for SearchResultDone {
    type Value = SearchResultDone;

    type Inner = ();

    ghost means = { represented_by ⟦<SearchResultDone as Represents<LdapResult>>⟧.value_of ⟦<Notated as Notation>⟧.means };

    fn has_tag(tag: Tag) -> bool {
        tag == Tag::application(5)
    }

    fn read(reader: BERReader) -> ASN1Result<SearchResultDone> {
        read_as::<Notated, SearchResultDone>(reader)
    }

    fn write(value: &SearchResultDone, writer: DERWriter<'_>) -> ASN1Result<()> {
        Notated::write(&value.result, writer)
    }

    fn prepend(
        value: &SearchResultDone,
        under: Option<Tag>,
        out: &mut PrependBuffer,
    ) -> ASN1Result<()> {
        Notated::prepend(&value.result, under, out)
    }

    fn encoded_len(value: &SearchResultDone, under: Option<Tag>, mode: BERMode) -> Option<usize> {
        Notated::encoded_len(&value.result, under, mode)
    }

    ghost lawful = { λ _. represented_lawful ⟦<SearchResultDone as Represents<LdapResult>>⟧.value_of
        (in_application 5 (omega arith) (result refl)) };

    ghost non_empty = { λ u m v. element_non_empty _ _ _ _ };
}

impl Message for SearchResultDone {
    ghost is_unambiguous = { refl };
}

impl Checked for SearchResultDone {
    fn accepts(value: &SearchResultDone) -> bool {
        Notated::accepts(&value.result)
    }
}
