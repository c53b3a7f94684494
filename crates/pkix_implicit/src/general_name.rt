//! `GeneralName` of the module PKIX1Implicit88.
//!
//! ```text
//! GeneralName ::= CHOICE {
//!     otherName                  [0] AnotherName,
//!     rfc822Name                 [1] IA5String,
//!     dNSName                    [2] IA5String,
//!     x400Address                [3] ORAddress,
//!     directoryName              [4] Name,
//!     ediPartyName               [5] EDIPartyName,
//!     uniformResourceIdentifier  [6] IA5String,
//!     iPAddress                  [7] OCTET STRING,
//!     registeredID               [8] OBJECT IDENTIFIER }
//! ```
ghost use Rattle.std.specs.Prelude.{◌≡◌, ◌↔◌, IsTrue, Some, refl};
ghost use Rattle.std.proofs.Common.{arith};
ghost use Rattle.yasna_notation.specs.Laws.{element_non_empty, represented_lawful};
ghost use Rattle.yasna_notation.specs.Making.{alternative, in_choice, in_explicit, in_implicit, context, tag_or};
ghost use Rattle.yasna_notation.specs.Notation.{represented_by};
ghost use Rattle.yasna_notation.specs.declared.choices.Either.TheVariants.{First, Second};
ghost use Rattle.yasna_notation.specs.contracts.simple.ObjectIdentifierNotation.TheImpl.Laws.{lawful-law as oid_law, non_empty-law as oid_non_empty};
ghost use Rattle.yasna_notation.specs.contracts.strings.VecU8Notation.TheImpl.Laws.{lawful-law as octets_law, non_empty-law as octets_non_empty};
ghost use Rattle.yasna_notation.specs.contracts.strings.Ia5StringNotation.TheImpl.Laws.{lawful-law as ia5_law, non_empty-law as ia5_non_empty};
ghost use Rattle.pkix_implicit.specs.contracts.another_name.AnotherNameNotation.TheImpl.Laws.{lawful-law as another_name_law};
ghost use Rattle.pkix_implicit.specs.contracts.another_name.AnotherNameNotation.TheImpl.Laws.{non_empty-law as another_name_non_empty};
ghost use Rattle.pkix_implicit.specs.contracts.edi_party_name.EdiPartyNameNotation.TheImpl.Laws.{lawful-law as edi_party_name_law};
ghost use Rattle.pkix_implicit.specs.contracts.edi_party_name.EdiPartyNameNotation.TheImpl.Laws.{non_empty-law as edi_party_name_non_empty};
ghost use Rattle.pkix_implicit.specs.contracts.or_address.OrAddressNotation.TheImpl.Laws.{lawful-law as or_address_law};
ghost use Rattle.pkix_implicit.specs.contracts.or_address.OrAddressNotation.TheImpl.Laws.{non_empty-law as or_address_non_empty};
ghost use Rattle.x509.specs.contracts.name.NameNotation.TheImpl.Laws.{lawful-law as x509_name_law};
ghost use Rattle.std.specs.Prelude.{[]};
ghost use Rattle.pkix_implicit.specs.declared.general_name.GeneralName.TheVariants.{OtherName, Rfc822Name, DnsName, X400Address, DirectoryName, EdiPartyName as EdiPartyNameVariant, UniformResourceIdentifier, IpAddress, RegisteredId};

use crate::another_name::AnotherName;
use crate::edi_party_name::EdiPartyName;
use crate::or_address::OrAddress;
use x509::Name;
use yasna::models::ObjectIdentifier;
use yasna::{ASN1Result, BERMode, BERReader, DERWriter, PrependBuffer, Tag};
use yasna_notation::Either::{First, Second};
use yasna_notation::{
    Choice, Context, Either, Explicit, Ia5String, Implicit, Message, Notation, Represents, read_as,
};
use yasna_notation_constraints::Checked;

type Types = (
    Implicit<Context<0>, AnotherName>,
    (
        Implicit<Context<1>, Ia5String>,
        (
            Implicit<Context<2>, Ia5String>,
            (
                Implicit<Context<3>, OrAddress>,
                (
                    Explicit<Context<4>, Name>,
                    (
                        Implicit<Context<5>, EdiPartyName>,
                        (
                            Implicit<Context<6>, Ia5String>,
                            (
                                Implicit<Context<7>, Vec<u8>>,
                                (Implicit<Context<8>, ObjectIdentifier>,),
                            ),
                        ),
                    ),
                ),
            ),
        ),
    ),
);

type Sides = Either<
    AnotherName,
    Either<
        String,
        Either<
            String,
            Either<
                OrAddress,
                Either<
                    Name,
                    Either<EdiPartyName, Either<String, Either<Vec<u8>, ObjectIdentifier>>>,
                >,
            >,
        >,
    >,
>;

type Notated = Choice<Types>;

/// `GeneralName`.
#[derive(Drop)]
pub enum GeneralName {
    OtherName(AnotherName),
    Rfc822Name(String),
    DnsName(String),
    X400Address(OrAddress),
    DirectoryName(Name),
    EdiPartyName(EdiPartyName),
    UniformResourceIdentifier(String),
    IpAddress(Vec<u8>),
    RegisteredId(ObjectIdentifier),
}

impl Represents<Sides> for GeneralName {
    ghost value_of = { λ v. elim v [
      | OtherName x ↦ First (x)
      | Rfc822Name x ↦ Second (First (x))
      | DnsName x ↦ Second (Second (First (x)))
      | X400Address x ↦ Second (Second (Second (First (x))))
      | DirectoryName x ↦ Second (Second (Second (Second (First (x)))))
      | EdiPartyNameVariant x ↦ Second (Second (Second (Second (Second (First (x))))))
      | UniformResourceIdentifier x ↦ Second (Second (Second (Second (Second (Second (First (x)))))))
      | IpAddress x ↦ Second (Second (Second (Second (Second (Second (Second (First (x))))))))
      | RegisteredId x ↦ Second (Second (Second (Second (Second (Second (Second (Second (x))))))))
    ] };

    fn from_value(value: Sides) -> GeneralName {
        match value {
            First(value) => GeneralName::OtherName(value),
            Second(First(value)) => GeneralName::Rfc822Name(value),
            Second(Second(First(value))) => GeneralName::DnsName(value),
            Second(Second(Second(First(value)))) => GeneralName::X400Address(value),
            Second(Second(Second(Second(First(value))))) => GeneralName::DirectoryName(value),
            Second(Second(Second(Second(Second(First(value)))))) => GeneralName::EdiPartyName(
                value,
            ),
            Second(Second(Second(Second(Second(Second(First(value))))))) =>
                GeneralName::UniformResourceIdentifier(value),
            Second(Second(Second(Second(Second(Second(Second(First(value)))))))) =>
                GeneralName::IpAddress(value),
            Second(Second(Second(Second(Second(Second(Second(Second(value)))))))) =>
                GeneralName::RegisteredId(value),
        }
    }
}

impl Notation for GeneralName {
    type Value = GeneralName;

    type Inner = ();

    ghost means = { represented_by ⟦<GeneralName as Represents<Sides>>⟧.value_of ⟦<Notated as Notation>⟧.means };

    fn has_tag(tag: Tag) -> bool {
        <Notated as Notation>::has_tag(tag)
    }

    fn read(reader: BERReader) -> ASN1Result<GeneralName> {
        read_as::<Notated, GeneralName>(reader)
    }

    fn write(value: &GeneralName, writer: DERWriter<'_>) -> ASN1Result<()> {
        match value {
            GeneralName::OtherName(value) => <Implicit<Context<0>, AnotherName> as Notation>::write(
                value, writer,
            ),
            GeneralName::Rfc822Name(value) => <Implicit<Context<1>, Ia5String> as Notation>::write(
                value, writer,
            ),
            GeneralName::DnsName(value) => <Implicit<Context<2>, Ia5String> as Notation>::write(
                value, writer,
            ),
            GeneralName::X400Address(value) => <Implicit<Context<3>, OrAddress> as Notation>::write(
                value, writer,
            ),
            GeneralName::DirectoryName(value) => <Explicit<Context<4>, Name> as Notation>::write(
                value, writer,
            ),
            GeneralName::EdiPartyName(value) => <Implicit<
                Context<5>,
                EdiPartyName,
            > as Notation>::write(value, writer),
            GeneralName::UniformResourceIdentifier(value) => <Implicit<
                Context<6>,
                Ia5String,
            > as Notation>::write(value, writer),
            GeneralName::IpAddress(value) => <Implicit<Context<7>, Vec<u8>> as Notation>::write(
                value, writer,
            ),
            GeneralName::RegisteredId(value) => <Implicit<
                Context<8>,
                ObjectIdentifier,
            > as Notation>::write(value, writer),
        }
    }

    fn prepend(value: &GeneralName, under: Option<Tag>, out: &mut PrependBuffer) -> ASN1Result<()> {
        match value {
            GeneralName::OtherName(value) => <Implicit<
                Context<0>,
                AnotherName,
            > as Notation>::prepend(value, under, out),
            GeneralName::Rfc822Name(value) => <Implicit<
                Context<1>,
                Ia5String,
            > as Notation>::prepend(value, under, out),
            GeneralName::DnsName(value) => <Implicit<Context<2>, Ia5String> as Notation>::prepend(
                value, under, out,
            ),
            GeneralName::X400Address(value) => <Implicit<
                Context<3>,
                OrAddress,
            > as Notation>::prepend(value, under, out),
            GeneralName::DirectoryName(value) => <Explicit<Context<4>, Name> as Notation>::prepend(
                value, under, out,
            ),
            GeneralName::EdiPartyName(value) => <Implicit<
                Context<5>,
                EdiPartyName,
            > as Notation>::prepend(value, under, out),
            GeneralName::UniformResourceIdentifier(value) => <Implicit<
                Context<6>,
                Ia5String,
            > as Notation>::prepend(value, under, out),
            GeneralName::IpAddress(value) => <Implicit<Context<7>, Vec<u8>> as Notation>::prepend(
                value, under, out,
            ),
            GeneralName::RegisteredId(value) => <Implicit<
                Context<8>,
                ObjectIdentifier,
            > as Notation>::prepend(value, under, out),
        }
    }

    fn encoded_len(value: &GeneralName, under: Option<Tag>, mode: BERMode) -> Option<usize> {
        match value {
            GeneralName::OtherName(value) => <Implicit<
                Context<0>,
                AnotherName,
            > as Notation>::encoded_len(value, under, mode),
            GeneralName::Rfc822Name(value) => <Implicit<
                Context<1>,
                Ia5String,
            > as Notation>::encoded_len(value, under, mode),
            GeneralName::DnsName(value) => <Implicit<
                Context<2>,
                Ia5String,
            > as Notation>::encoded_len(value, under, mode),
            GeneralName::X400Address(value) => <Implicit<
                Context<3>,
                OrAddress,
            > as Notation>::encoded_len(value, under, mode),
            GeneralName::DirectoryName(value) => <Explicit<
                Context<4>,
                Name,
            > as Notation>::encoded_len(value, under, mode),
            GeneralName::EdiPartyName(value) => <Implicit<
                Context<5>,
                EdiPartyName,
            > as Notation>::encoded_len(value, under, mode),
            GeneralName::UniformResourceIdentifier(value) => <Implicit<
                Context<6>,
                Ia5String,
            > as Notation>::encoded_len(value, under, mode),
            GeneralName::IpAddress(value) => <Implicit<
                Context<7>,
                Vec<u8>,
            > as Notation>::encoded_len(value, under, mode),
            GeneralName::RegisteredId(value) => <Implicit<
                Context<8>,
                ObjectIdentifier,
            > as Notation>::encoded_len(value, under, mode),
        }
    }

    ghost lawful = { λ _. represented_lawful ⟦<GeneralName as Represents<Sides>>⟧.value_of (in_choice ⟦<Notated as Notation>⟧.means.encoding_under
        (alternative (in_implicit 0 (omega arith) (another_name_law refl)).own refl (alternative (in_implicit 1
        (omega arith) (ia5_law refl)).own refl (alternative (in_implicit 2 (omega arith) (ia5_law refl)).own refl
        (alternative (in_implicit 3 (omega arith) (or_address_law refl)).own refl (alternative (in_explicit 4 (omega arith)
        (x509_name_law refl).own).own refl (alternative (in_implicit 5 (omega arith) (edi_party_name_law refl)).own refl
        (alternative (in_implicit 6 (omega arith) (ia5_law refl)).own refl (alternative (in_implicit 7 (omega arith)
        (octets_law refl)).own refl (in_implicit 8 (omega arith) (oid_law refl)).own))))))))) };

    ghost non_empty = { λ u m v. elim v as (λ k. ⟦<Notated as Notation>⟧.means.encoding_under u m (⟦<GeneralName as Represents<Sides>>⟧.value_of k) ≡ [] → ⊥) [
      | OtherName x ↦ (another_name_non_empty (Some (tag_or u (context 0)))) m x
      | Rfc822Name x ↦ (ia5_non_empty (Some (tag_or u (context 1)))) m x
      | DnsName x ↦ (ia5_non_empty (Some (tag_or u (context 2)))) m x
      | X400Address x ↦ (or_address_non_empty (Some (tag_or u (context 3)))) m x
      | DirectoryName x ↦ element_non_empty _ _ _ _
      | EdiPartyNameVariant x ↦ (edi_party_name_non_empty (Some (tag_or u (context 5)))) m x
      | UniformResourceIdentifier x ↦ (ia5_non_empty (Some (tag_or u (context 6)))) m x
      | IpAddress x ↦ (octets_non_empty (Some (tag_or u (context 7)))) m x
      | RegisteredId x ↦ (oid_non_empty (Some (tag_or u (context 8)))) m x
    ] };
}

impl Message for GeneralName {
    ghost is_unambiguous = { refl };
}

impl Checked for GeneralName {
    fn accepts(value: &GeneralName) -> bool {
        match value {
            GeneralName::OtherName(value) => <Implicit<
                Context<0>,
                AnotherName,
            > as Checked>::accepts(value),
            GeneralName::Rfc822Name(value) => <Implicit<Context<1>, Ia5String> as Checked>::accepts(
                value,
            ),
            GeneralName::DnsName(value) => <Implicit<Context<2>, Ia5String> as Checked>::accepts(
                value,
            ),
            GeneralName::X400Address(value) => <Implicit<
                Context<3>,
                OrAddress,
            > as Checked>::accepts(value),
            GeneralName::DirectoryName(value) => <Explicit<Context<4>, Name> as Checked>::accepts(
                value,
            ),
            GeneralName::EdiPartyName(value) => <Implicit<
                Context<5>,
                EdiPartyName,
            > as Checked>::accepts(value),
            GeneralName::UniformResourceIdentifier(value) => <Implicit<
                Context<6>,
                Ia5String,
            > as Checked>::accepts(value),
            GeneralName::IpAddress(value) => <Implicit<Context<7>, Vec<u8>> as Checked>::accepts(
                value,
            ),
            GeneralName::RegisteredId(value) => <Implicit<
                Context<8>,
                ObjectIdentifier,
            > as Checked>::accepts(value),
        }
    }
}
