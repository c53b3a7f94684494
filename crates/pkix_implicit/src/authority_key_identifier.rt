//! `AuthorityKeyIdentifier` of the module PKIX1Implicit88.
//!
//! ```text
//! AuthorityKeyIdentifier ::= SEQUENCE {
//!     keyIdentifier              [0] KeyIdentifier OPTIONAL,
//!     authorityCertIssuer        [1] GeneralNames OPTIONAL,
//!     authorityCertSerialNumber  [2] CertificateSerialNumber OPTIONAL }
//! ```
ghost use Rattle.std.specs.Prelude.{◌≡◌, ◌↔◌, IsTrue, refl};
ghost use Rattle.std.proofs.Common.{arith};
ghost use Rattle.yasna_notation.specs.Laws.{element_non_empty, represented_lawful};
ghost use Rattle.yasna_notation.specs.Making.{in_implicit, in_sequence, optional_part};
ghost use Rattle.yasna_notation.specs.Notation.{represented_by};
ghost use Rattle.yasna_notation.specs.Parts.{no_parts};
ghost use Rattle.yasna_notation.specs.contracts.simple.BigIntegerNotation.TheImpl.Laws.{lawful-law as big_law};
ghost use Rattle.yasna_notation.specs.contracts.strings.VecU8Notation.TheImpl.Laws.{lawful-law as octets_law};
ghost use Rattle.pkix_implicit.specs.contracts.general_names.GeneralNamesNotation.TheImpl.Laws.{lawful-law as general_names_law};

use crate::general_names::GeneralNames;
use yasna::{ASN1Result, BERMode, BERReader, DERWriter, PrependBuffer, Tag};
use yasna_notation::{
    BigInteger, Context, Implicit, Message, Notation, Optional, Represents, Sequence, read_as,
};
use yasna_notation_constraints::{Checked, accepts_fields};

type Parts = (
    Optional<Implicit<Context<0>, Vec<u8>>>,
    (
        Optional<Implicit<Context<1>, GeneralNames>>,
        (Optional<Implicit<Context<2>, BigInteger>>, ()),
    ),
);

type Fields = (
    Option<Vec<u8>>,
    (Option<GeneralNames>, (Option<(Vec<u8>, bool)>, ())),
);

type Notated = Sequence<Parts>;

/// `AuthorityKeyIdentifier`.
#[derive(Drop)]
pub struct AuthorityKeyIdentifier {
    pub key_identifier: Option<Vec<u8>>,
    pub authority_cert_issuer: Option<GeneralNames>,
    pub authority_cert_serial_number: Option<(Vec<u8>, bool)>,
}

impl Represents<Fields> for AuthorityKeyIdentifier {
    ghost value_of = { λ v. (v.key_identifier, (v.authority_cert_issuer, (v.authority_cert_serial_number, tt))) };

    fn from_value(
        (key_identifier, (authority_cert_issuer, (authority_cert_serial_number, ()))): Fields,
    ) -> AuthorityKeyIdentifier {
        AuthorityKeyIdentifier {
            key_identifier,
            authority_cert_issuer,
            authority_cert_serial_number,
        }
    }
}

impl Notation for AuthorityKeyIdentifier {
    type Value = AuthorityKeyIdentifier;

    type Inner = ();

    ghost means = { represented_by ⟦<AuthorityKeyIdentifier as Represents<Fields>>⟧.value_of ⟦<Notated as Notation>⟧.means };

    fn has_tag(tag: Tag) -> bool {
        <Notated as Notation>::has_tag(tag)
    }

    fn read(reader: BERReader) -> ASN1Result<AuthorityKeyIdentifier> {
        read_as::<Notated, AuthorityKeyIdentifier>(reader)
    }

    fn write(value: &AuthorityKeyIdentifier, writer: DERWriter<'_>) -> ASN1Result<()> {
        Sequence::<Parts>::write_fields(
            (
                &value.key_identifier,
                (
                    &value.authority_cert_issuer,
                    (&value.authority_cert_serial_number, ()),
                ),
            ),
            writer,
        )
    }

    fn prepend(
        value: &AuthorityKeyIdentifier,
        under: Option<Tag>,
        out: &mut PrependBuffer,
    ) -> ASN1Result<()> {
        Sequence::<Parts>::prepend_fields(
            (
                &value.key_identifier,
                (
                    &value.authority_cert_issuer,
                    (&value.authority_cert_serial_number, ()),
                ),
            ),
            under,
            out,
        )
    }

    fn encoded_len(
        value: &AuthorityKeyIdentifier,
        under: Option<Tag>,
        mode: BERMode,
    ) -> Option<usize> {
        Sequence::<Parts>::fields_len(
            (
                &value.key_identifier,
                (
                    &value.authority_cert_issuer,
                    (&value.authority_cert_serial_number, ()),
                ),
            ),
            under,
            mode,
        )
    }

    ghost lawful = { λ _. represented_lawful ⟦<AuthorityKeyIdentifier as Represents<Fields>>⟧.value_of (in_sequence
        (optional_part refl (in_implicit 0 (omega arith) (octets_law refl)).own (optional_part refl (in_implicit 1
        (omega arith) (general_names_law refl)).own (optional_part refl (in_implicit 2 (omega arith) (big_law refl)).own no_parts)))) };

    ghost non_empty = { λ u m v. element_non_empty _ _ _ _ };
}

impl Message for AuthorityKeyIdentifier {
    ghost is_unambiguous = { refl };
}

impl Checked for AuthorityKeyIdentifier {
    fn accepts(value: &AuthorityKeyIdentifier) -> bool {
        accepts_fields::<Parts, _>((
            &value.key_identifier,
            (
                &value.authority_cert_issuer,
                (&value.authority_cert_serial_number, ()),
            ),
        ))
    }
}
