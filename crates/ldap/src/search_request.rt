//! Requests to search (RFC 4511, 4.5.1).
//!
//! ```text
//! SearchRequest ::= [APPLICATION 3] SEQUENCE {
//!     baseObject    LDAPDN,
//!     scope         ENUMERATED { .. },
//!     derefAliases  ENUMERATED { .. },
//!     sizeLimit     INTEGER (0 .. maxInt),
//!     timeLimit     INTEGER (0 .. maxInt),
//!     typesOnly     BOOLEAN,
//!     filter        Filter,
//!     attributes    AttributeSelection,
//!     ... }
//!
//! AttributeSelection ::= SEQUENCE OF selector LDAPString
//! LDAPDN             ::= LDAPString
//! LDAPString         ::= OCTET STRING
//!
//! maxInt INTEGER ::= 2147483647
//! ```
ghost use Rattle.std.specs.Prelude.{◌≡◌, ◌↔◌, IsTrue, refl};
ghost use Rattle.std.proofs.Common.{arith};
ghost use Rattle.yasna_notation.specs.Laws.{represented_lawful, element_non_empty};
ghost use Rattle.yasna_notation.specs.Making.{in_application, in_sequence, in_sequence_of, part, at_most};
ghost use Rattle.yasna_notation.specs.Notation.{represented_by};
ghost use Rattle.yasna_notation_types.specs.OpenChoice.{any_lawful};
ghost use Rattle.yasna_notation_types.specs.Rest.{rest_laws};
ghost use Rattle.yasna_notation.specs.contracts.strings.VecU8Notation.TheImpl.Laws.{lawful-law as octets};
ghost use Rattle.yasna_notation.specs.Bounded.{from_zero};
ghost use Rattle.yasna_notation_types.specs.Named.{named_lawful};
ghost use Rattle.ldap.specs.Scopes.{scope_number, scope_writable};
ghost use Rattle.ldap.specs.Aliases.{aliases_number, aliases_writable};
ghost use Rattle.yasna_notation.specs.contracts.simple.U64Notation.TheImpl.Laws.{lawful-law as number};
ghost use Rattle.yasna_notation.specs.contracts.simple.BoolNotation.TheImpl.Laws.{lawful-law as flag};
ghost use Rattle.ldap.specs.contracts.filter_notation.FilterNotation.TheImpl.Laws.{lawful-law as filter};

use crate::deref_aliases::DerefAliases;
use crate::filter::Filter;
use crate::scope::Scope;
use yasna::models::TaggedDerValue;
use yasna::{ASN1Result, BERMode, BERReader, DERWriter, PrependBuffer, Tag};
use yasna_notation::{
    Application, AtMost, Bounded, Implicit, Message, Notation, Represents, Sequence, SequenceOf,
    read_as,
};
use yasna_notation_constraints::{Checked, accepts_fields};
use yasna_notation_types::{
    Named, Rest, implicit_fields_len, prepend_implicit_fields, write_implicit_fields,
};

type MaxInt = Bounded<u64, AtMost<2147483647>>;

type Ends = (bool, (Filter, (SequenceOf<Vec<u8>>, Rest<TaggedDerValue>)));

type Limits = (MaxInt, (MaxInt, Ends));

type Parts = (Vec<u8>, (Named<Scope>, (Named<DerefAliases>, Limits)));

type EndFields = (bool, (Filter, (Vec<Vec<u8>>, Vec<TaggedDerValue>)));

type Fields = (Vec<u8>, (Scope, (DerefAliases, (u64, (u64, EndFields)))));

type Notated = Implicit<Application<3>, Sequence<Parts>>;

/// A request to search.
#[derive(Drop)]
pub struct SearchRequest {
    /// The name of the entry where the search begins, in UTF-8.
    pub base_object: Vec<u8>,
    pub scope: Scope,
    pub deref_aliases: DerefAliases,
    /// The most entries that are wanted, up to 2147483647; 0 for any number.
    pub size_limit: u64,
    /// The most seconds that the search may take, up to 2147483647; 0 for any.
    pub time_limit: u64,
    /// Whether the values of attributes are omitted.
    pub types_only: bool,
    pub filter: Filter,
    /// The names of the attributes that are wanted.
    pub attributes: Vec<Vec<u8>>,
    /// The components at the end that this version doesn't know, as they came.
    pub unknown: Vec<TaggedDerValue>,
}

impl Represents<Fields> for SearchRequest {
    ghost value_of = { λ v. (v.base_object, (v.scope, (v.deref_aliases, (v.size_limit, (v.time_limit, (v.types_only, (v.filter, (v.attributes, v.unknown)))))))) };

    fn from_value(
        (base_object, (scope, (deref_aliases, (size_limit, others)))): Fields,
    ) -> SearchRequest {
        let (time_limit, (types_only, (filter, (attributes, unknown)))) = others;
        SearchRequest {
            base_object,
            scope,
            deref_aliases,
            size_limit,
            time_limit,
            types_only,
            filter,
            attributes,
            unknown,
        }
    }
}

impl Notation for SearchRequest {
    type Value = SearchRequest;

    type Inner = ();

    ghost means = { represented_by ⟦<SearchRequest as Represents<Fields>>⟧.value_of ⟦<Notated as Notation>⟧.means };

    fn has_tag(tag: Tag) -> bool {
        tag == Tag::application(3)
    }

    fn read(reader: BERReader) -> ASN1Result<SearchRequest> {
        read_as::<Notated, SearchRequest>(reader)
    }

    fn write(value: &SearchRequest, writer: DERWriter<'_>) -> ASN1Result<()> {
        write_implicit_fields::<Application<3>, Parts, _>(
            (
                &value.base_object,
                (
                    &value.scope,
                    (
                        &value.deref_aliases,
                        (
                            &value.size_limit,
                            (
                                &value.time_limit,
                                (
                                    &value.types_only,
                                    (&value.filter, (&value.attributes, &value.unknown)),
                                ),
                            ),
                        ),
                    ),
                ),
            ),
            writer,
        )
    }

    fn prepend(
        request: &SearchRequest,
        under: Option<Tag>,
        out: &mut PrependBuffer,
    ) -> ASN1Result<()> {
        prepend_implicit_fields::<Application<3>, Parts, _>(
            (
                &request.base_object,
                (
                    &request.scope,
                    (
                        &request.deref_aliases,
                        (
                            &request.size_limit,
                            (
                                &request.time_limit,
                                (
                                    &request.types_only,
                                    (&request.filter, (&request.attributes, &request.unknown)),
                                ),
                            ),
                        ),
                    ),
                ),
            ),
            under,
            out,
        )
    }

    fn encoded_len(request: &SearchRequest, under: Option<Tag>, mode: BERMode) -> Option<usize> {
        implicit_fields_len::<Application<3>, Parts, _>(
            (
                &request.base_object,
                (
                    &request.scope,
                    (
                        &request.deref_aliases,
                        (
                            &request.size_limit,
                            (
                                &request.time_limit,
                                (
                                    &request.types_only,
                                    (&request.filter, (&request.attributes, &request.unknown)),
                                ),
                            ),
                        ),
                    ),
                ),
            ),
            under,
            mode,
        )
    }

    ghost lawful = { λ _. represented_lawful ⟦<SearchRequest as Represents<Fields>>⟧.value_of
        (in_application 3 (omega arith) (in_sequence (part (octets refl).own (part (named_lawful scope_number from_zero scope_writable).own
        (part (named_lawful aliases_number from_zero aliases_writable).own (part (at_most 2147483647 (number refl)).own (part
        (at_most 2147483647 (number refl)).own (part (flag refl).own (part (filter refl).own (part (in_sequence_of (octets refl).own).own (rest_laws any_lawful.own))))))))))) };

    ghost non_empty = { λ u m v. element_non_empty _ _ _ _ };
}

impl Message for SearchRequest {
    ghost is_unambiguous = { refl };
}

impl Checked for SearchRequest {
    fn accepts(request: &SearchRequest) -> bool {
        accepts_fields::<Parts, _>((
            &request.base_object,
            (
                &request.scope,
                (
                    &request.deref_aliases,
                    (
                        &request.size_limit,
                        (
                            &request.time_limit,
                            (
                                &request.types_only,
                                (&request.filter, (&request.attributes, &request.unknown)),
                            ),
                        ),
                    ),
                ),
            ),
        ))
    }
}
