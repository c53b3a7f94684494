//! Values of types that SNMP adds (RFC 3416, 3).
//!
//! ```text
//! ApplicationSyntax ::= CHOICE {
//!     ipAddress-value         IpAddress,
//!     counter-value           Counter32,
//!     timeticks-value         TimeTicks,
//!     arbitrary-value         Opaque,
//!     big-counter-value       Counter64,
//!     unsigned-integer-value  Unsigned32 }
//!
//! IpAddress  ::= [APPLICATION 0] IMPLICIT OCTET STRING (SIZE (4))
//! Counter32  ::= [APPLICATION 1] IMPLICIT INTEGER (0..4294967295)
//! Unsigned32 ::= [APPLICATION 2] IMPLICIT INTEGER (0..4294967295)
//! Gauge32    ::= Unsigned32
//! TimeTicks  ::= [APPLICATION 3] IMPLICIT INTEGER (0..4294967295)
//! Opaque     ::= [APPLICATION 4] IMPLICIT OCTET STRING
//! Counter64  ::= [APPLICATION 6] IMPLICIT INTEGER (0..18446744073709551615)
//! ```
ghost use Rattle.std.specs.Prelude.{◌≡◌, ◌↔◌, IsTrue, Some, refl};
ghost use Rattle.std.proofs.Common.{arith};
ghost use Rattle.yasna_notation.specs.Canonical.{represented_written, choice_written_as};
ghost use Rattle.yasna_notation.specs.Laws.{represented_lawful};
ghost use Rattle.yasna_notation.specs.Making.{alternative, alternative_non_empty, in_application, in_choice, exactly, octets_sized};
ghost use Rattle.yasna_notation.specs.Making.{application, tag_or};
ghost use Rattle.yasna_notation.specs.Notation.{represented_by};
ghost use Rattle.yasna_notation.specs.Writing.{alternative_written, under_application, octets_sized_written};
ghost use Rattle.yasna_notation.specs.contracts.simple.U32Notation.TheImpl.Laws.{lawful-law as count32, non_empty-law as count32_non_empty};
ghost use Rattle.yasna_notation.specs.contracts.canonical.U32CanonicalNotation.TheImpl.Laws.{written-law as count32_written};
ghost use Rattle.yasna_notation.specs.contracts.simple.U64Notation.TheImpl.Laws.{lawful-law as count64, non_empty-law as count64_non_empty};
ghost use Rattle.yasna_notation.specs.contracts.canonical.U64CanonicalNotation.TheImpl.Laws.{written-law as count64_written};
ghost use Rattle.yasna_notation.specs.contracts.strings.VecU8Notation.TheImpl.Laws.{lawful-law as octets, non_empty-law as octets_non_empty};
ghost use Rattle.yasna_notation.specs.contracts.canonical.VecU8CanonicalNotation.TheImpl.Laws.{written-law as octets_written};
ghost use Rattle.yasna_notation.specs.declared.choices.Either.TheVariants.{First, Second};
ghost use Rattle.snmp.specs.declared.application_syntax.ApplicationSyntax.TheVariants.{IpAddressValue, CounterValue, TimeTicksValue, ArbitraryValue, BigCounterValue, UnsignedIntegerValue};

use yasna::{ASN1Result, BERMode, BERReader, DERWriter, PrependBuffer, Tag};
use yasna_notation::Either::{First, Second};
use yasna_notation::{
    Alternatives, Application, Bounded, CanonicalNotation, Choice, Either, Implicit, Message,
    Notation, Represents, Size, read_as,
};
use yasna_notation_constraints::Checked;

type IpAddress = Implicit<Application<0>, Bounded<Vec<u8>, Size<4>>>;

type Counter32 = Implicit<Application<1>, u32>;

type TimeTicks = Implicit<Application<3>, u32>;

type Opaque = Implicit<Application<4>, Vec<u8>>;

type Counter64 = Implicit<Application<6>, u64>;

type Unsigned32 = Implicit<Application<2>, u32>;

type Types = (
    IpAddress,
    (Counter32, (TimeTicks, (Opaque, (Counter64, (Unsigned32,))))),
);

type Sides = Either<Vec<u8>, Either<u32, Either<u32, Either<Vec<u8>, Either<u64, u32>>>>>;

/// A value of a type that SNMP adds.
#[derive(Drop)]
pub enum ApplicationSyntax {
    /// Four octets.
    IpAddressValue(Vec<u8>),
    CounterValue(u32),
    /// Hundredths of a second.
    TimeTicksValue(u32),
    ArbitraryValue(Vec<u8>),
    BigCounterValue(u64),
    UnsignedIntegerValue(u32),
}

impl Represents<Sides> for ApplicationSyntax {
    ghost value_of = { λ v. elim v [
      | IpAddressValue x ↦ First x
      | CounterValue x ↦ Second (First x)
      | TimeTicksValue x ↦ Second (Second (First x))
      | ArbitraryValue x ↦ Second (Second (Second (First x)))
      | BigCounterValue x ↦ Second (Second (Second (Second (First x))))
      | UnsignedIntegerValue x ↦ Second (Second (Second (Second (Second x))))
    ] };

    fn from_value(value: Sides) -> ApplicationSyntax {
        match value {
            First(value) => ApplicationSyntax::IpAddressValue(value),
            Second(First(value)) => ApplicationSyntax::CounterValue(value),
            Second(Second(First(value))) => ApplicationSyntax::TimeTicksValue(value),
            Second(Second(Second(First(value)))) => ApplicationSyntax::ArbitraryValue(value),
            Second(Second(Second(Second(First(value))))) => ApplicationSyntax::BigCounterValue(
                value,
            ),
            Second(Second(Second(Second(Second(value))))) =>
                ApplicationSyntax::UnsignedIntegerValue(value),
        }
    }
}

impl Notation for ApplicationSyntax {
    type Value = ApplicationSyntax;

    type Inner = ();

    ghost means = { represented_by ⟦<ApplicationSyntax as Represents<Sides>>⟧.value_of ⟦<Choice<Types> as Notation>⟧.means };

    fn has_tag(tag: Tag) -> bool {
        <Types as Alternatives>::has_tag(tag)
    }

    fn read(reader: BERReader) -> ASN1Result<ApplicationSyntax> {
        read_as::<Choice<Types>, ApplicationSyntax>(reader)
    }

    fn write(value: &ApplicationSyntax, writer: DERWriter<'_>) -> ASN1Result<()> {
        match value {
            ApplicationSyntax::IpAddressValue(value) => <IpAddress as Notation>::write(
                value, writer,
            ),
            ApplicationSyntax::CounterValue(value) => <Counter32 as Notation>::write(value, writer),
            ApplicationSyntax::TimeTicksValue(value) => <TimeTicks as Notation>::write(
                value, writer,
            ),
            ApplicationSyntax::ArbitraryValue(value) => <Opaque as Notation>::write(value, writer),
            ApplicationSyntax::BigCounterValue(value) => <Counter64 as Notation>::write(
                value, writer,
            ),
            ApplicationSyntax::UnsignedIntegerValue(value) => <Unsigned32 as Notation>::write(
                value, writer,
            ),
        }
    }

    fn prepend(
        value: &ApplicationSyntax,
        under: Option<Tag>,
        out: &mut PrependBuffer,
    ) -> ASN1Result<()> {
        match value {
            ApplicationSyntax::IpAddressValue(value) => <IpAddress as Notation>::prepend(
                value, under, out,
            ),
            ApplicationSyntax::CounterValue(value) => <Counter32 as Notation>::prepend(
                value, under, out,
            ),
            ApplicationSyntax::TimeTicksValue(value) => <TimeTicks as Notation>::prepend(
                value, under, out,
            ),
            ApplicationSyntax::ArbitraryValue(value) => <Opaque as Notation>::prepend(
                value, under, out,
            ),
            ApplicationSyntax::BigCounterValue(value) => <Counter64 as Notation>::prepend(
                value, under, out,
            ),
            ApplicationSyntax::UnsignedIntegerValue(value) => <Unsigned32 as Notation>::prepend(
                value, under, out,
            ),
        }
    }

    fn encoded_len(value: &ApplicationSyntax, under: Option<Tag>, mode: BERMode) -> Option<usize> {
        match value {
            ApplicationSyntax::IpAddressValue(value) => <IpAddress as Notation>::encoded_len(
                value, under, mode,
            ),
            ApplicationSyntax::CounterValue(value) => <Counter32 as Notation>::encoded_len(
                value, under, mode,
            ),
            ApplicationSyntax::TimeTicksValue(value) => <TimeTicks as Notation>::encoded_len(
                value, under, mode,
            ),
            ApplicationSyntax::ArbitraryValue(value) => <Opaque as Notation>::encoded_len(
                value, under, mode,
            ),
            ApplicationSyntax::BigCounterValue(value) => <Counter64 as Notation>::encoded_len(
                value, under, mode,
            ),
            ApplicationSyntax::UnsignedIntegerValue(value) => <Unsigned32 as Notation>::encoded_len(
                value, under, mode,
            ),
        }
    }

    ghost lawful = { λ _. represented_lawful ⟦<ApplicationSyntax as Represents<Sides>>⟧.value_of (in_choice ⟦<Choice<Types> as Notation>⟧.means.encoding_under
        (alternative (in_application 0 (omega arith) (octets_sized (exactly 4) (octets refl))).own refl
        (alternative (in_application 1 (omega arith) (count32 refl)).own refl (alternative (in_application 3 (omega arith) (count32 refl)).own refl
        (alternative (in_application 4 (omega arith) (octets refl)).own refl
        (alternative (in_application 6 (omega arith) (count64 refl)).own refl (in_application 2 (omega arith) (count32 refl)).own)))))) };

    ghost non_empty = { λ u m v.
        alternative_non_empty (octets_non_empty (Some (tag_or u (application 0)))) (alternative_non_empty (count32_non_empty (Some (tag_or u (application 1))))
        (alternative_non_empty (count32_non_empty (Some (tag_or u (application 3)))) (alternative_non_empty (octets_non_empty (Some (tag_or u (application 4))))
        (alternative_non_empty (count64_non_empty (Some (tag_or u (application 6)))) (count32_non_empty (Some (tag_or u (application 2)))))))) m (⟦<ApplicationSyntax as Represents<Sides>>⟧.value_of v) };
}

impl Message for ApplicationSyntax {
    ghost is_unambiguous = { refl };
}

impl CanonicalNotation for ApplicationSyntax {
    ghost written = { λ _. represented_written ⟦<ApplicationSyntax as Represents<Sides>>⟧.value_of (choice_written_as ⟦<Choice<Types> as Notation>⟧.means.encoding_under
        (alternative_written (under_application 0 (omega arith) (octets_sized_written (exactly 4) (octets_written refl))).own
        (alternative_written (under_application 1 (omega arith) (count32_written refl)).own
        (alternative_written (under_application 3 (omega arith) (count32_written refl)).own
        (alternative_written (under_application 4 (omega arith) (octets_written refl)).own
        (alternative_written (under_application 6 (omega arith) (count64_written refl)).own
        (under_application 2 (omega arith) (count32_written refl)).own)))))) };
}

impl Checked for ApplicationSyntax {
    fn accepts(value: &ApplicationSyntax) -> bool {
        match value {
            ApplicationSyntax::IpAddressValue(value) => IpAddress::accepts(value),
            ApplicationSyntax::CounterValue(value) => Counter32::accepts(value),
            ApplicationSyntax::TimeTicksValue(value) => TimeTicks::accepts(value),
            ApplicationSyntax::ArbitraryValue(value) => Opaque::accepts(value),
            ApplicationSyntax::BigCounterValue(value) => Counter64::accepts(value),
            ApplicationSyntax::UnsignedIntegerValue(value) => Unsigned32::accepts(value),
        }
    }
}
