//! Responses to requests to bind (RFC 4511, 4.2.2).
//!
//! ```text
//! BindResponse ::= [APPLICATION 1] SEQUENCE {
//!     COMPONENTS OF LDAPResult,
//!     serverSaslCreds  [7] OCTET STRING OPTIONAL,
//!     ... }
//! ```
ghost use Rattle.std.specs.Prelude.{◌≡◌, ◌↔◌, ◌∷◌, [], IsTrue, refl};
ghost use Rattle.std.proofs.Common.{arith};
ghost use Rattle.yasna_notation.specs.Laws.{represented_lawful, element_non_empty};
ghost use Rattle.yasna_notation.specs.Making.{context, in_application, in_sequence, in_sequence_of, part, in_implicit, not_empty};
ghost use Rattle.yasna_notation.specs.Notation.{represented_by};
ghost use Rattle.yasna_notation_types.specs.OpenChoice.{any_lawful};
ghost use Rattle.yasna_notation_types.specs.Others.{other_may, others_laws, others_within, possible, possible_may, possible_within};
ghost use Rattle.ldap.specs.Known.{after_message};
ghost use Rattle.yasna_notation.specs.contracts.strings.VecU8Notation.TheImpl.Laws.{lawful-law as octets};
ghost use Rattle.yasna_notation.specs.Bounded.{from_zero};
ghost use Rattle.yasna_notation_types.specs.Named.{named_lawful};
ghost use Rattle.ldap.specs.ResultCodes.{code_number, code_writable};

use crate::ldap_result::LdapResult;
use crate::result_code::ResultCode;
use yasna::models::TaggedDerValue;
use yasna::{ASN1Result, BERMode, BERReader, DERWriter, PrependBuffer, Tag};
use yasna_notation::{
    Application, Bounded, Choice, Context, Implicit, Message, NotEmpty, Notation, Represents,
    Sequence, SequenceOf, read_as,
};
use yasna_notation_constraints::{Checked, accepts_fields};
use yasna_notation_types::{
    Named, Others, Possible, implicit_fields_len, prepend_implicit_fields, write_implicit_fields,
};

type Referral = Implicit<Context<3>, Bounded<SequenceOf<Vec<u8>>, NotEmpty>>;

type ServerSaslCreds = Implicit<Context<7>, Vec<u8>>;

// Others have neither of the tags of `Referral` and `ServerSaslCreds`.
type Unknown = Others<Choice<(Implicit<Context<3>, ()>, (Implicit<Context<7>, ()>,))>>;

type Ends = Possible<Referral, Possible<ServerSaslCreds, Unknown>>;

type Parts = (Named<ResultCode>, (Vec<u8>, (Vec<u8>, Ends)));

type EndFields = (Option<Vec<Vec<u8>>>, (Option<Vec<u8>>, Vec<TaggedDerValue>));

type Fields = (ResultCode, (Vec<u8>, (Vec<u8>, EndFields)));

type Notated = Implicit<Application<1>, Sequence<Parts>>;

/// What became of a request to bind.
#[derive(Drop)]
pub struct BindResponse {
    pub result: LdapResult,
    /// The mechanism's credentials for the client.
    pub server_sasl_creds: Option<Vec<u8>>,
}

impl Represents<Fields> for BindResponse {
    ghost value_of = { λ v. (v.result.result_code, (v.result.matched_dn, (v.result.diagnostic_message, (v.result.referral, (v.server_sasl_creds, v.result.unknown))))) };

    fn from_value(
        (
            result_code,
            (matched_dn, (diagnostic_message, (referral, (server_sasl_creds, unknown)))),
        ): Fields,
    ) -> BindResponse {
        let outcome = LdapResult {
            result_code,
            matched_dn,
            diagnostic_message,
            referral,
            unknown,
        };
        BindResponse {
            result: outcome,
            server_sasl_creds,
        }
    }
}

impl Notation for BindResponse {
    type Value = BindResponse;

    type Inner = ();

    ghost means = { represented_by ⟦<BindResponse as Represents<Fields>>⟧.value_of ⟦<Notated as Notation>⟧.means };

    fn has_tag(tag: Tag) -> bool {
        tag == Tag::application(1)
    }

    fn read(reader: BERReader) -> ASN1Result<BindResponse> {
        read_as::<Notated, BindResponse>(reader)
    }

    fn write(value: &BindResponse, writer: DERWriter<'_>) -> ASN1Result<()> {
        let outcome = &value.result;
        let ends = (
            &outcome.referral,
            (&value.server_sasl_creds, &outcome.unknown),
        );
        let strings = (&outcome.matched_dn, (&outcome.diagnostic_message, ends));
        write_implicit_fields::<Application<1>, Parts, _>((&outcome.result_code, strings), writer)
    }

    fn prepend(
        value: &BindResponse,
        under: Option<Tag>,
        out: &mut PrependBuffer,
    ) -> ASN1Result<()> {
        let outcome = &value.result;
        let ends = (
            &outcome.referral,
            (&value.server_sasl_creds, &outcome.unknown),
        );
        let strings = (&outcome.matched_dn, (&outcome.diagnostic_message, ends));
        prepend_implicit_fields::<Application<1>, Parts, _>(
            (&outcome.result_code, strings),
            under,
            out,
        )
    }

    fn encoded_len(value: &BindResponse, under: Option<Tag>, mode: BERMode) -> Option<usize> {
        let outcome = &value.result;
        let ends = (
            &outcome.referral,
            (&value.server_sasl_creds, &outcome.unknown),
        );
        let strings = (&outcome.matched_dn, (&outcome.diagnostic_message, ends));
        implicit_fields_len::<Application<1>, Parts, _>(
            (&outcome.result_code, strings),
            under,
            mode,
        )
    }

    ghost lawful = { λ _. represented_lawful ⟦<BindResponse as Represents<Fields>>⟧.value_of
        (in_application 1 (omega arith) (in_sequence (part (named_lawful code_number from_zero code_writable).own (part (octets refl).own (part (octets refl).own (possible (possible_may (context 7 ∷ []) (other_may after_message)) refl
        (in_implicit 3 (omega arith) (not_empty (in_sequence_of (octets refl).own))).own
        (possible (other_may after_message) refl (in_implicit 7 (omega arith) (octets refl)).own (others_laws after_message any_lawful.own)
        (others_within after_message any_lawful.own.coding))
        (possible_within (other_may after_message) (in_implicit 7 (omega arith) (octets refl)).own (others_within after_message any_lawful.own.coding)))))))) };

    ghost non_empty = { λ u m v. element_non_empty _ _ _ _ };
}

impl Message for BindResponse {
    ghost is_unambiguous = { refl };
}

impl Checked for BindResponse {
    fn accepts(value: &BindResponse) -> bool {
        let outcome = &value.result;
        let ends = (
            &outcome.referral,
            (&value.server_sasl_creds, &outcome.unknown),
        );
        let strings = (&outcome.matched_dn, (&outcome.diagnostic_message, ends));
        accepts_fields::<Parts, _>((&outcome.result_code, strings))
    }
}
