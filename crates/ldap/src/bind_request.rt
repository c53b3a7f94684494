//! Requests to bind: the client's identity from then on (RFC 4511, 4.2).
//!
//! ```text
//! BindRequest ::= [APPLICATION 0] SEQUENCE {
//!     version         INTEGER (1 .. 127),
//!     name            LDAPDN,
//!     authentication  AuthenticationChoice,
//!     ... }
//!
//! LDAPDN     ::= LDAPString
//! LDAPString ::= OCTET STRING
//! ```
ghost use Rattle.std.specs.Prelude.{◌≡◌, ◌↔◌, IsTrue, refl};
ghost use Rattle.std.proofs.Common.{arith};
ghost use Rattle.yasna_notation.specs.Laws.{represented_lawful, element_non_empty};
ghost use Rattle.yasna_notation.specs.Making.{in_application, in_sequence, alternative, in_implicit, part, in_bound, from_to};
ghost use Rattle.yasna_notation.specs.Notation.{represented_by};
ghost use Rattle.yasna_notation_types.specs.OpenChoice.{any_lawful, open_lawful};
ghost use Rattle.yasna_notation_types.specs.Rest.{rest_laws};
ghost use Rattle.yasna_notation.specs.contracts.strings.VecU8Notation.TheImpl.Laws.{lawful-law as octets};
ghost use Rattle.yasna_notation.specs.contracts.simple.U64Notation.TheImpl.Laws.{lawful-law as number};
ghost use Rattle.ldap.specs.contracts.sasl_credentials.SaslCredentialsNotation.TheImpl.Laws.{lawful-law as sasl};

use crate::authentication::AuthenticationChoice;
use crate::sasl_credentials::SaslCredentials;
use yasna::models::TaggedDerValue;
use yasna::{ASN1Result, BERMode, BERReader, DERWriter, PrependBuffer, Tag};
use yasna_notation::{
    Application, Bounded, Choice, Context, DefinedType, FromTo, Implicit, Message, Notation,
    Represents, Sequence, read_as,
};
use yasna_notation_constraints::{Checked, accepts_fields};
use yasna_notation_types::{
    Rest, implicit_fields_len, prepend_implicit_fields, write_implicit_fields,
};

type Parts = (
    Bounded<u64, FromTo<1, 127>>,
    (Vec<u8>, (AuthenticationChoice, Rest<TaggedDerValue>)),
);

type Fields = (u64, (Vec<u8>, (AuthenticationChoice, Vec<TaggedDerValue>)));

type Notated = Implicit<Application<0>, Sequence<Parts>>;

/// A request to bind.
#[derive(Drop)]
pub struct BindRequest {
    /// Of the protocol, from 1 to 127: 3 today.
    pub version: u64,
    /// Of who binds, in UTF-8; empty for nobody.
    pub name: Vec<u8>,
    pub authentication: AuthenticationChoice,
    /// The components at the end that this version doesn't know, as they came.
    pub unknown: Vec<TaggedDerValue>,
}

impl Represents<Fields> for BindRequest {
    ghost value_of = { λ v. (v.version, (v.name, (v.authentication, v.unknown))) };

    fn from_value((version, (name, (authentication, unknown))): Fields) -> BindRequest {
        BindRequest {
            version,
            name,
            authentication,
            unknown,
        }
    }
}

impl Notation for BindRequest {
    type Value = BindRequest;

    type Inner = ();

    ghost means = { represented_by ⟦<BindRequest as Represents<Fields>>⟧.value_of ⟦<Notated as Notation>⟧.means };

    fn has_tag(tag: Tag) -> bool {
        tag == Tag::application(0)
    }

    fn read(reader: BERReader) -> ASN1Result<BindRequest> {
        read_as::<Notated, BindRequest>(reader)
    }

    fn write(value: &BindRequest, writer: DERWriter<'_>) -> ASN1Result<()> {
        write_implicit_fields::<Application<0>, Parts, _>(
            (
                &value.version,
                (&value.name, (&value.authentication, &value.unknown)),
            ),
            writer,
        )
    }

    fn prepend(value: &BindRequest, under: Option<Tag>, out: &mut PrependBuffer) -> ASN1Result<()> {
        prepend_implicit_fields::<Application<0>, Parts, _>(
            (
                &value.version,
                (&value.name, (&value.authentication, &value.unknown)),
            ),
            under,
            out,
        )
    }

    fn encoded_len(value: &BindRequest, under: Option<Tag>, mode: BERMode) -> Option<usize> {
        implicit_fields_len::<Application<0>, Parts, _>(
            (
                &value.version,
                (&value.name, (&value.authentication, &value.unknown)),
            ),
            under,
            mode,
        )
    }

    ghost lawful = { λ _. represented_lawful ⟦<BindRequest as Represents<Fields>>⟧.value_of
        (in_application 0 (omega arith) (in_sequence (part (in_bound (from_to 1 127) (number
        refl)).own (part (octets refl).own (part (represented_lawful ⟦<AuthenticationChoice as DefinedType>⟧.value_of (open_lawful ⟦<Choice<(Implicit<Context<0>,
      Vec<u8>>, (Implicit<Context<3>, SaslCredentials>,))> as Notation>⟧.means.encoding_under (alternative (in_implicit 0 (omega arith) (octets refl)).own refl
        (in_implicit 3 (omega arith) (sasl refl)).own))).own (rest_laws any_lawful.own)))))) };

    ghost non_empty = { λ u m v. element_non_empty _ _ _ _ };
}

impl Message for BindRequest {
    ghost is_unambiguous = { refl };
}

impl Checked for BindRequest {
    fn accepts(value: &BindRequest) -> bool {
        accepts_fields::<Parts, _>((
            &value.version,
            (&value.name, (&value.authentication, &value.unknown)),
        ))
    }
}
