//! How one who binds shows who they are (RFC 4511, 4.2).
//!
//! ```text
//! AuthenticationChoice ::= CHOICE {
//!     simple  [0] OCTET STRING,
//!     sasl    [3] SaslCredentials,
//!     ... }
//! ```
ghost use Rattle.std.specs.Prelude.{◌≡◌, ◌↔◌, IsTrue, refl};
ghost use Rattle.yasna_notation.specs.declared.choices.Either.TheVariants.{First, Second};
ghost use Rattle.ldap.specs.declared.authentication.AuthenticationChoice.TheVariants.{Simple, Sasl, Unknown};

use crate::sasl_credentials::SaslCredentials;
use yasna::models::TaggedDerValue;
use yasna::{ASN1Result, BERMode, DERWriter, PrependBuffer, Tag};
use yasna_notation::Either::{First, Second};
use yasna_notation::{Context, DefinedType, Either, Implicit, Notation};
use yasna_notation_constraints::{Checked, CheckedType};
use yasna_notation_types::OpenChoice;

type SimpleNotation = Implicit<Context<0>, Vec<u8>>;

type SaslNotation = Implicit<Context<3>, SaslCredentials>;

/// How one who binds shows who they are.
#[derive(Drop)]
pub enum AuthenticationChoice {
    /// By a password.
    Simple(Vec<u8>),
    Sasl(SaslCredentials),
    /// By a way that this version doesn't know, as it came.
    Unknown(TaggedDerValue),
}

impl DefinedType for AuthenticationChoice {
    type Notation = OpenChoice<(SimpleNotation, (SaslNotation,))>;

    ghost value_of = { λ v. elim v [ Simple s ↦ First (First s) | Sasl c ↦ First (Second c) | Unknown x ↦ Second x ] };

    fn from_value(
        value: Either<Either<Vec<u8>, SaslCredentials>, TaggedDerValue>,
    ) -> AuthenticationChoice {
        match value {
            First(First(password)) => AuthenticationChoice::Simple(password),
            First(Second(credentials)) => AuthenticationChoice::Sasl(credentials),
            Second(other) => AuthenticationChoice::Unknown(other),
        }
    }

    fn write_value(&self, writer: DERWriter<'_>) -> ASN1Result<()> {
        match self {
            AuthenticationChoice::Simple(password) => SimpleNotation::write(password, writer),
            AuthenticationChoice::Sasl(credentials) => SaslNotation::write(credentials, writer),
            AuthenticationChoice::Unknown(other) => TaggedDerValue::write(other, writer),
        }
    }

    fn prepend_value(&self, under: Option<Tag>, out: &mut PrependBuffer) -> ASN1Result<()> {
        match self {
            AuthenticationChoice::Simple(password) => SimpleNotation::prepend(password, under, out),
            AuthenticationChoice::Sasl(credentials) => SaslNotation::prepend(
                credentials,
                under,
                out,
            ),
            AuthenticationChoice::Unknown(other) => TaggedDerValue::prepend(other, under, out),
        }
    }

    fn value_len(&self, under: Option<Tag>, mode: BERMode) -> Option<usize> {
        match self {
            AuthenticationChoice::Simple(password) => SimpleNotation::encoded_len(
                password, under, mode,
            ),
            AuthenticationChoice::Sasl(credentials) => SaslNotation::encoded_len(
                credentials,
                under,
                mode,
            ),
            AuthenticationChoice::Unknown(other) => TaggedDerValue::encoded_len(other, under, mode),
        }
    }

    ghost unambiguous = { refl };
}

impl CheckedType for AuthenticationChoice {
    fn accepts_value(&self) -> bool {
        match self {
            AuthenticationChoice::Simple(password) => SimpleNotation::accepts(password),
            AuthenticationChoice::Sasl(credentials) => SaslNotation::accepts(credentials),
            AuthenticationChoice::Unknown(other) => TaggedDerValue::accepts(other),
        }
    }
}
