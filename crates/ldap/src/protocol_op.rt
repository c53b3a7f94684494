//! Operations (RFC 4511, 4.1.1).
//!
//! ```text
//! CHOICE {
//!     bindRequest            BindRequest,
//!     bindResponse           BindResponse,
//!     unbindRequest          UnbindRequest,
//!     searchRequest          SearchRequest,
//!     searchResultEntry      SearchResultEntry,
//!     searchResultDone       SearchResultDone,
//!     searchResultReference  SearchResultReference,
//!     ... }
//! ```
ghost use Rattle.std.specs.Prelude.{◌≡◌, ◌↔◌, [], IsTrue, refl};
ghost use Rattle.yasna_notation.specs.Laws.{represented_lawful, element_non_empty, raw_non_empty};
ghost use Rattle.yasna_notation.specs.Making.{alternative};
ghost use Rattle.yasna_notation.specs.Notation.{represented_by};
ghost use Rattle.yasna_notation.specs.declared.choices.Either.TheVariants.{First, Second};
ghost use Rattle.ldap.specs.declared.protocol_op.ProtocolOp.TheVariants.{BindRequest, BindResponse, UnbindRequest, SearchRequest, SearchResultEntry, SearchResultDone, SearchResultReference, Unknown};
ghost use Rattle.yasna_notation_types.specs.OpenChoice.{open_lawful};
ghost use Rattle.ldap.specs.contracts.bind_request.BindRequestNotation.TheImpl.Laws.{lawful-law as bind_request_lawful};
ghost use Rattle.ldap.specs.contracts.bind_response.BindResponseNotation.TheImpl.Laws.{lawful-law as bind_response_lawful};
ghost use Rattle.ldap.specs.contracts.unbind_request.UnbindRequestNotation.TheImpl.Laws.{lawful-law as unbind_request_lawful};
ghost use Rattle.ldap.specs.contracts.search_request.SearchRequestNotation.TheImpl.Laws.{lawful-law as search_request_lawful};
ghost use Rattle.ldap.specs.contracts.search_result_entry.SearchResultEntryNotation.TheImpl.Laws.{lawful-law as search_result_entry_lawful};
ghost use Rattle.ldap.specs.contracts.search_result_done.SearchResultDoneNotation.TheImpl.Laws.{lawful-law as search_result_done_lawful};
ghost use Rattle.ldap.specs.contracts.search_result_reference.SearchResultReferenceNotation.TheImpl.Laws.{lawful-law as search_result_reference_lawful};

use crate::bind_request::BindRequest;
use crate::bind_response::BindResponse;
use crate::search_request::SearchRequest;
use crate::search_result_done::SearchResultDone;
use crate::search_result_entry::SearchResultEntry;
use crate::search_result_reference::SearchResultReference;
use crate::unbind_request::UnbindRequest;
use yasna::models::TaggedDerValue;
use yasna::{ASN1Result, BERMode, BERReader, DERWriter, PrependBuffer, Tag};
use yasna_notation::Either::{First, Second};
use yasna_notation::{Choice, Either, Message, Notation, Represents, read_as};
use yasna_notation_constraints::Checked;
use yasna_notation_types::OpenChoice;

type Results = (
    SearchRequest,
    (
        SearchResultEntry,
        (SearchResultDone, (SearchResultReference,)),
    ),
);

type Types = (BindRequest, (BindResponse, (UnbindRequest, Results)));

type Notated = OpenChoice<Types>;

type LaterFields = Either<
    SearchRequest,
    Either<SearchResultEntry, Either<SearchResultDone, SearchResultReference>>,
>;

type KnownFields = Either<BindRequest, Either<BindResponse, Either<UnbindRequest, LaterFields>>>;

type Fields = Either<KnownFields, TaggedDerValue>;

/// What is in a message: a request, or a part of the result to one.
///
/// Operations of the module that have no variant, as those that modify entries, are `Unknown`.
#[derive(Drop)]
pub enum ProtocolOp {
    BindRequest(BindRequest),
    BindResponse(BindResponse),
    UnbindRequest(UnbindRequest),
    SearchRequest(SearchRequest),
    SearchResultEntry(SearchResultEntry),
    SearchResultDone(SearchResultDone),
    SearchResultReference(SearchResultReference),
    /// An operation that this crate doesn't know, as it came.
    Unknown(TaggedDerValue),
}

impl Represents<Fields> for ProtocolOp {
    ghost value_of = { λ v. elim v [
      | BindRequest o ↦ First (First o)
      | BindResponse o ↦ First (Second (First o))
      | UnbindRequest o ↦ First (Second (Second (First o)))
      | SearchRequest o ↦ First (Second (Second (Second (First o))))
      | SearchResultEntry o ↦ First (Second (Second (Second (Second (First o)))))
      | SearchResultDone o ↦ First (Second (Second (Second (Second (Second (First o))))))
      | SearchResultReference o ↦ First (Second (Second (Second (Second (Second (Second o))))))
      | Unknown o ↦ Second o
    ] };

    fn from_value(value: Fields) -> ProtocolOp {
        match value {
            First(First(operation)) => ProtocolOp::BindRequest(operation),
            First(Second(First(operation))) => ProtocolOp::BindResponse(operation),
            First(Second(Second(First(operation)))) => ProtocolOp::UnbindRequest(operation),
            First(Second(Second(Second(First(operation))))) => ProtocolOp::SearchRequest(operation),
            First(Second(Second(Second(Second(First(operation)))))) =>
                ProtocolOp::SearchResultEntry(operation),
            First(Second(Second(Second(Second(Second(First(operation))))))) =>
                ProtocolOp::SearchResultDone(operation),
            First(Second(Second(Second(Second(Second(Second(operation))))))) =>
                ProtocolOp::SearchResultReference(operation),
            Second(operation) => ProtocolOp::Unknown(operation),
        }
    }
}

impl Notation for ProtocolOp {
    type Value = ProtocolOp;

    type Inner = ();

    ghost means = { represented_by ⟦<ProtocolOp as Represents<Fields>>⟧.value_of ⟦<Notated as Notation>⟧.means };

    fn has_tag(_tag: Tag) -> bool {
        false
    }

    fn read(reader: BERReader) -> ASN1Result<ProtocolOp> {
        read_as::<Notated, ProtocolOp>(reader)
    }

    fn write(value: &ProtocolOp, writer: DERWriter<'_>) -> ASN1Result<()> {
        match value {
            ProtocolOp::BindRequest(operation) => BindRequest::write(operation, writer),
            ProtocolOp::BindResponse(operation) => BindResponse::write(operation, writer),
            ProtocolOp::UnbindRequest(operation) => UnbindRequest::write(operation, writer),
            ProtocolOp::SearchRequest(operation) => SearchRequest::write(operation, writer),
            ProtocolOp::SearchResultEntry(operation) => SearchResultEntry::write(operation, writer),
            ProtocolOp::SearchResultDone(operation) => SearchResultDone::write(operation, writer),
            ProtocolOp::SearchResultReference(operation) => SearchResultReference::write(
                operation, writer,
            ),
            ProtocolOp::Unknown(operation) => TaggedDerValue::write(operation, writer),
        }
    }

    fn prepend(value: &ProtocolOp, under: Option<Tag>, out: &mut PrependBuffer) -> ASN1Result<()> {
        match value {
            ProtocolOp::BindRequest(operation) => BindRequest::prepend(operation, under, out),
            ProtocolOp::BindResponse(operation) => BindResponse::prepend(operation, under, out),
            ProtocolOp::UnbindRequest(operation) => UnbindRequest::prepend(operation, under, out),
            ProtocolOp::SearchRequest(operation) => SearchRequest::prepend(operation, under, out),
            ProtocolOp::SearchResultEntry(operation) => SearchResultEntry::prepend(
                operation, under, out,
            ),
            ProtocolOp::SearchResultDone(operation) => SearchResultDone::prepend(
                operation, under, out,
            ),
            ProtocolOp::SearchResultReference(operation) => SearchResultReference::prepend(
                operation, under, out,
            ),
            ProtocolOp::Unknown(operation) => TaggedDerValue::prepend(operation, under, out),
        }
    }

    fn encoded_len(value: &ProtocolOp, under: Option<Tag>, mode: BERMode) -> Option<usize> {
        match value {
            ProtocolOp::BindRequest(operation) => BindRequest::encoded_len(operation, under, mode),
            ProtocolOp::BindResponse(operation) => BindResponse::encoded_len(
                operation, under, mode,
            ),
            ProtocolOp::UnbindRequest(operation) => UnbindRequest::encoded_len(
                operation, under, mode,
            ),
            ProtocolOp::SearchRequest(operation) => SearchRequest::encoded_len(
                operation, under, mode,
            ),
            ProtocolOp::SearchResultEntry(operation) => SearchResultEntry::encoded_len(
                operation, under, mode,
            ),
            ProtocolOp::SearchResultDone(operation) => SearchResultDone::encoded_len(
                operation, under, mode,
            ),
            ProtocolOp::SearchResultReference(operation) => SearchResultReference::encoded_len(
                operation, under, mode,
            ),
            ProtocolOp::Unknown(operation) => TaggedDerValue::encoded_len(operation, under, mode),
        }
    }

    ghost lawful = { λ _. represented_lawful ⟦<ProtocolOp as Represents<Fields>>⟧.value_of
        (open_lawful ⟦<Choice<Types> as Notation>⟧.means.encoding_under (alternative (bind_request_lawful
        refl).own refl (alternative (bind_response_lawful refl).own refl (alternative (unbind_request_lawful refl).own refl (alternative (search_request_lawful
        refl).own refl (alternative (search_result_entry_lawful refl).own refl (alternative (search_result_done_lawful refl).own refl
        (search_result_reference_lawful refl).own))))))) };

    ghost non_empty = { λ u m v. elim v as (λ k. ⟦<Notated as Notation>⟧.means.encoding_under u m (⟦<ProtocolOp as Represents<Fields>>⟧.value_of k) ≡ [] → ⊥) [
      | BindRequest o ↦
          element_non_empty _ _ _ _
      | BindResponse o ↦ element_non_empty _ _ _ _
      | UnbindRequest o ↦ element_non_empty _ _ _ _
      | SearchRequest o ↦ element_non_empty _ _ _ _
      | SearchResultEntry o ↦ element_non_empty _ _ _ _
      | SearchResultDone o ↦ element_non_empty _ _ _ _
      | SearchResultReference o ↦ element_non_empty _ _ _ _
      | Unknown o ↦ raw_non_empty _ m _
    ] };
}

impl Message for ProtocolOp {
    ghost is_unambiguous = { refl };
}

impl Checked for ProtocolOp {
    fn accepts(value: &ProtocolOp) -> bool {
        match value {
            ProtocolOp::BindRequest(operation) => BindRequest::accepts(operation),
            ProtocolOp::BindResponse(operation) => BindResponse::accepts(operation),
            ProtocolOp::UnbindRequest(operation) => UnbindRequest::accepts(operation),
            ProtocolOp::SearchRequest(operation) => SearchRequest::accepts(operation),
            ProtocolOp::SearchResultEntry(operation) => SearchResultEntry::accepts(operation),
            ProtocolOp::SearchResultDone(operation) => SearchResultDone::accepts(operation),
            ProtocolOp::SearchResultReference(operation) => SearchResultReference::accepts(
                operation,
            ),
            ProtocolOp::Unknown(operation) => TaggedDerValue::accepts(operation),
        }
    }
}
