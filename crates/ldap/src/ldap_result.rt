//! Results of operations (RFC 4511, 4.1.9 and 4.1.10).
//!
//! ```text
//! LDAPResult ::= SEQUENCE {
//!     resultCode         ENUMERATED { .. },
//!     matchedDN          LDAPDN,
//!     diagnosticMessage  LDAPString,
//!     referral           [3] Referral OPTIONAL,
//!     ... }
//!
//! Referral   ::= SEQUENCE SIZE (1..MAX) OF uri URI
//! URI        ::= LDAPString
//! LDAPDN     ::= LDAPString
//! LDAPString ::= OCTET STRING
//! ```
ghost use Rattle.std.specs.Prelude.{◌≡◌, ◌↔◌, ◌∷◌, [], IsTrue, refl};
ghost use Rattle.std.proofs.Common.{arith};
ghost use Rattle.yasna_notation.specs.Laws.{represented_lawful, element_non_empty};
ghost use Rattle.yasna_notation.specs.Making.{context, in_sequence, in_sequence_of, part, in_implicit, not_empty};
ghost use Rattle.yasna_notation.specs.Notation.{represented_by};
ghost use Rattle.yasna_notation_types.specs.OpenChoice.{any_lawful};
ghost use Rattle.yasna_notation_types.specs.Others.{other_may, others_laws, others_within, possible};
ghost use Rattle.yasna_notation.specs.contracts.strings.VecU8Notation.TheImpl.Laws.{lawful-law as octets};
ghost use Rattle.yasna_notation.specs.Bounded.{from_zero};
ghost use Rattle.yasna_notation_types.specs.Named.{named_lawful};
ghost use Rattle.ldap.specs.ResultCodes.{code_number, code_writable};

use crate::result_code::ResultCode;
use yasna::models::TaggedDerValue;
use yasna::tags::TAG_SEQUENCE;
use yasna::{ASN1Result, BERMode, BERReader, DERWriter, PrependBuffer, Tag};
use yasna_notation::{
    Bounded, Context, Implicit, Message, NotEmpty, Notation, Represents, Sequence, SequenceOf,
    read_as,
};
use yasna_notation_constraints::{Checked, accepts_fields};
use yasna_notation_types::{Named, Others, Possible};

type Referral = Implicit<Context<3>, Bounded<SequenceOf<Vec<u8>>, NotEmpty>>;

type Parts = (
    Named<ResultCode>,
    (Vec<u8>, (Vec<u8>, Possible<Referral, Others<Referral>>)),
);

type Fields = (
    ResultCode,
    (
        Vec<u8>,
        (Vec<u8>, (Option<Vec<Vec<u8>>>, Vec<TaggedDerValue>)),
    ),
);

/// What became of an operation.
#[derive(Drop)]
pub struct LdapResult {
    pub result_code: ResultCode,
    /// The name of the last entry that was found, in UTF-8.
    pub matched_dn: Vec<u8>,
    /// What to show to people, in UTF-8.
    pub diagnostic_message: Vec<u8>,
    /// URIs of other servers, one or more.
    pub referral: Option<Vec<Vec<u8>>>,
    /// The components at the end that this version doesn't know, as they came. Of a response to a request to bind they are those after its
    /// credentials.
    pub unknown: Vec<TaggedDerValue>,
}

impl Represents<Fields> for LdapResult {
    ghost value_of = { λ v. (v.result_code, (v.matched_dn, (v.diagnostic_message, (v.referral, v.unknown)))) };

    fn from_value(
        (result_code, (matched_dn, (diagnostic_message, (referral, unknown)))): Fields,
    ) -> LdapResult {
        LdapResult {
            result_code,
            matched_dn,
            diagnostic_message,
            referral,
            unknown,
        }
    }
}

impl Notation for LdapResult {
    type Value = LdapResult;

    type Inner = ();

    ghost means = { represented_by ⟦<LdapResult as Represents<Fields>>⟧.value_of ⟦<Sequence<Parts> as Notation>⟧.means };

    fn has_tag(tag: Tag) -> bool {
        tag == TAG_SEQUENCE
    }

    fn read(reader: BERReader) -> ASN1Result<LdapResult> {
        read_as::<Sequence<Parts>, LdapResult>(reader)
    }

    fn write(value: &LdapResult, writer: DERWriter<'_>) -> ASN1Result<()> {
        Sequence::<Parts>::write_fields(
            (
                &value.result_code,
                (
                    &value.matched_dn,
                    (&value.diagnostic_message, (&value.referral, &value.unknown)),
                ),
            ),
            writer,
        )
    }

    fn prepend(value: &LdapResult, under: Option<Tag>, out: &mut PrependBuffer) -> ASN1Result<()> {
        Sequence::<Parts>::prepend_fields(
            (
                &value.result_code,
                (
                    &value.matched_dn,
                    (&value.diagnostic_message, (&value.referral, &value.unknown)),
                ),
            ),
            under,
            out,
        )
    }

    fn encoded_len(value: &LdapResult, under: Option<Tag>, mode: BERMode) -> Option<usize> {
        Sequence::<Parts>::fields_len(
            (
                &value.result_code,
                (
                    &value.matched_dn,
                    (&value.diagnostic_message, (&value.referral, &value.unknown)),
                ),
            ),
            under,
            mode,
        )
    }

    ghost lawful = { λ _. represented_lawful ⟦<LdapResult as Represents<Fields>>⟧.value_of
        (in_sequence (part (named_lawful code_number from_zero code_writable).own (part (octets refl).own
        (part (octets refl).own (possible (other_may (context 3 ∷ [])) refl (in_implicit 3 (omega arith) (not_empty (in_sequence_of (octets refl).own))).own
        (others_laws (context 3 ∷ []) any_lawful.own) (others_within (context 3 ∷ []) any_lawful.own.coding)))))) };

    ghost non_empty = { λ u m v. element_non_empty _ _ _ _ };
}

impl Message for LdapResult {
    ghost is_unambiguous = { refl };
}

impl Checked for LdapResult {
    fn accepts(value: &LdapResult) -> bool {
        accepts_fields::<Parts, _>((
            &value.result_code,
            (
                &value.matched_dn,
                (&value.diagnostic_message, (&value.referral, &value.unknown)),
            ),
        ))
    }
}
