//! Values of variables of SNMPv1 (RFC 1155, 3.2.3).
//!
//! ```text
//! SimpleSyntax ::= CHOICE {
//!     number  INTEGER,
//!     string  OCTET STRING,
//!     object  OBJECT IDENTIFIER,
//!     empty   NULL }
//!
//! ApplicationSyntax ::= CHOICE {
//!     address    NetworkAddress,
//!     counter    [APPLICATION 1] IMPLICIT INTEGER (0..4294967295),
//!     gauge      [APPLICATION 2] IMPLICIT INTEGER (0..4294967295),
//!     ticks      [APPLICATION 3] IMPLICIT INTEGER (0..4294967295),
//!     arbitrary  [APPLICATION 4] IMPLICIT OCTET STRING }
//!
//! NetworkAddress ::= CHOICE { internet [APPLICATION 0] IMPLICIT OCTET STRING (SIZE (4)) }
//! ```
//!
//! A number that 64 bits don't hold is rejected.
ghost use Rattle.std.specs.Prelude.{◌≡◌, ◌↔◌, IsTrue, Some, refl};
ghost use Rattle.std.proofs.Common.{arith};
ghost use Rattle.yasna_notation.specs.Canonical.{represented_written, choice_written_as};
ghost use Rattle.yasna_notation.specs.Laws.{represented_lawful};
ghost use Rattle.yasna_notation.specs.Making.{alternative, alternative_non_empty, in_application, in_choice, exactly, octets_sized};
ghost use Rattle.yasna_notation.specs.Making.{application, tag_or};
ghost use Rattle.yasna_notation.specs.Notation.{represented_by};
ghost use Rattle.yasna_notation.specs.Writing.{alternative_written, under_application, octets_sized_written};
ghost use Rattle.yasna_notation.specs.contracts.simple.U32Notation.TheImpl.Laws.{lawful-law as count32, non_empty-law as count32_non_empty};
ghost use Rattle.yasna_notation.specs.contracts.canonical.U32CanonicalNotation.TheImpl.Laws.{written-law as count32_written};
ghost use Rattle.yasna_notation.specs.contracts.simple.I64Notation.TheImpl.Laws.{lawful-law as int64, non_empty-law as int64_non_empty};
ghost use Rattle.yasna_notation.specs.contracts.canonical.I64CanonicalNotation.TheImpl.Laws.{written-law as int64_written};
ghost use Rattle.yasna_notation.specs.contracts.simple.UnitNotation.TheImpl.Laws.{lawful-law as null, non_empty-law as null_non_empty};
ghost use Rattle.yasna_notation.specs.contracts.canonical.UnitCanonicalNotation.TheImpl.Laws.{written-law as null_written};
ghost use Rattle.yasna_notation.specs.contracts.strings.VecU8Notation.TheImpl.Laws.{lawful-law as octets, non_empty-law as octets_non_empty};
ghost use Rattle.yasna_notation.specs.contracts.canonical.VecU8CanonicalNotation.TheImpl.Laws.{written-law as octets_written};
ghost use Rattle.yasna_notation.specs.contracts.simple.ObjectIdentifierNotation.TheImpl.Laws.{lawful-law as oid, non_empty-law as oid_non_empty};
ghost use Rattle.yasna_notation.specs.contracts.canonical.ObjectIdentifierCanonicalNotation.TheImpl.Laws.{written-law as oid_written};
ghost use Rattle.yasna_notation.specs.declared.choices.Either.TheVariants.{First, Second};
ghost use Rattle.snmp.specs.declared.v1.object_syntax.ObjectSyntax.TheVariants.{Number, String, Object, Empty, Address, Counter, Gauge, Ticks, Arbitrary};

use yasna::models::ObjectIdentifier;
use yasna::{ASN1Result, BERMode, BERReader, DERWriter, PrependBuffer, Tag};
use yasna_notation::Either::{First, Second};
use yasna_notation::{
    Alternatives, Application, Bounded, CanonicalNotation, Choice, Either, Implicit, Message,
    Notation, Represents, Size, read_as,
};
use yasna_notation_constraints::Checked;

type NetworkAddress = Implicit<Application<0>, Bounded<Vec<u8>, Size<4>>>;

type Counter = Implicit<Application<1>, u32>;

type Gauge = Implicit<Application<2>, u32>;

type TimeTicks = Implicit<Application<3>, u32>;

type Opaque = Implicit<Application<4>, Vec<u8>>;

type Types = (
    i64,
    (
        Vec<u8>,
        (
            ObjectIdentifier,
            (
                (),
                (NetworkAddress, (Counter, (Gauge, (TimeTicks, (Opaque,))))),
            ),
        ),
    ),
);

type Sides = Either<
    i64,
    Either<
        Vec<u8>,
        Either<
            ObjectIdentifier,
            Either<(), Either<Vec<u8>, Either<u32, Either<u32, Either<u32, Vec<u8>>>>>>,
        >,
    >,
>;

/// A value of a variable.
#[derive(Drop)]
pub enum ObjectSyntax {
    Number(i64),
    String(Vec<u8>),
    Object(ObjectIdentifier),
    /// The NULL of a request for values.
    Empty,
    /// Four octets.
    Address(Vec<u8>),
    Counter(u32),
    Gauge(u32),
    /// Hundredths of a second.
    Ticks(u32),
    Arbitrary(Vec<u8>),
}

impl Represents<Sides> for ObjectSyntax {
    ghost value_of = { λ v. elim v [
      | Number x ↦ First x
      | String x ↦ Second (First x)
      | Object x ↦ Second (Second (First x))
      | Empty ↦ Second (Second (Second (First tt)))
      | Address x ↦ Second (Second (Second (Second (First x))))
      | Counter x ↦ Second (Second (Second (Second (Second (First x)))))
      | Gauge x ↦ Second (Second (Second (Second (Second (Second (First x))))))
      | Ticks x ↦ Second (Second (Second (Second (Second (Second (Second (First x)))))))
      | Arbitrary x ↦ Second (Second (Second (Second (Second (Second (Second (Second x)))))))
    ] };

    fn from_value(value: Sides) -> ObjectSyntax {
        match value {
            First(value) => ObjectSyntax::Number(value),
            Second(First(value)) => ObjectSyntax::String(value),
            Second(Second(First(value))) => ObjectSyntax::Object(value),
            Second(Second(Second(First(())))) => ObjectSyntax::Empty,
            Second(Second(Second(Second(others)))) => match others {
                First(value) => ObjectSyntax::Address(value),
                Second(First(value)) => ObjectSyntax::Counter(value),
                Second(Second(First(value))) => ObjectSyntax::Gauge(value),
                Second(Second(Second(First(value)))) => ObjectSyntax::Ticks(value),
                Second(Second(Second(Second(value)))) => ObjectSyntax::Arbitrary(value),
            },
        }
    }
}

impl Notation for ObjectSyntax {
    type Value = ObjectSyntax;

    type Inner = ();

    ghost means = { represented_by ⟦<ObjectSyntax as Represents<Sides>>⟧.value_of ⟦<Choice<Types> as Notation>⟧.means };

    fn has_tag(tag: Tag) -> bool {
        <Types as Alternatives>::has_tag(tag)
    }

    fn read(reader: BERReader) -> ASN1Result<ObjectSyntax> {
        read_as::<Choice<Types>, ObjectSyntax>(reader)
    }

    fn write(value: &ObjectSyntax, writer: DERWriter<'_>) -> ASN1Result<()> {
        match value {
            ObjectSyntax::Number(value) => <i64 as Notation>::write(value, writer),
            ObjectSyntax::String(value) => <Vec<u8> as Notation>::write(value, writer),
            ObjectSyntax::Object(value) => <ObjectIdentifier as Notation>::write(value, writer),
            ObjectSyntax::Empty => <() as Notation>::write(&(), writer),
            ObjectSyntax::Address(value) => <NetworkAddress as Notation>::write(value, writer),
            ObjectSyntax::Counter(value) => <Counter as Notation>::write(value, writer),
            ObjectSyntax::Gauge(value) => <Gauge as Notation>::write(value, writer),
            ObjectSyntax::Ticks(value) => <TimeTicks as Notation>::write(value, writer),
            ObjectSyntax::Arbitrary(value) => <Opaque as Notation>::write(value, writer),
        }
    }

    fn prepend(
        value: &ObjectSyntax,
        under: Option<Tag>,
        out: &mut PrependBuffer,
    ) -> ASN1Result<()> {
        match value {
            ObjectSyntax::Number(value) => <i64 as Notation>::prepend(value, under, out),
            ObjectSyntax::String(value) => <Vec<u8> as Notation>::prepend(value, under, out),
            ObjectSyntax::Object(value) => <ObjectIdentifier as Notation>::prepend(
                value, under, out,
            ),
            ObjectSyntax::Empty => <() as Notation>::prepend(&(), under, out),
            ObjectSyntax::Address(value) => <NetworkAddress as Notation>::prepend(
                value, under, out,
            ),
            ObjectSyntax::Counter(value) => <Counter as Notation>::prepend(value, under, out),
            ObjectSyntax::Gauge(value) => <Gauge as Notation>::prepend(value, under, out),
            ObjectSyntax::Ticks(value) => <TimeTicks as Notation>::prepend(value, under, out),
            ObjectSyntax::Arbitrary(value) => <Opaque as Notation>::prepend(value, under, out),
        }
    }

    fn encoded_len(value: &ObjectSyntax, under: Option<Tag>, mode: BERMode) -> Option<usize> {
        match value {
            ObjectSyntax::Number(value) => <i64 as Notation>::encoded_len(value, under, mode),
            ObjectSyntax::String(value) => <Vec<u8> as Notation>::encoded_len(value, under, mode),
            ObjectSyntax::Object(value) => <ObjectIdentifier as Notation>::encoded_len(
                value, under, mode,
            ),
            ObjectSyntax::Empty => <() as Notation>::encoded_len(&(), under, mode),
            ObjectSyntax::Address(value) => <NetworkAddress as Notation>::encoded_len(
                value, under, mode,
            ),
            ObjectSyntax::Counter(value) => <Counter as Notation>::encoded_len(value, under, mode),
            ObjectSyntax::Gauge(value) => <Gauge as Notation>::encoded_len(value, under, mode),
            ObjectSyntax::Ticks(value) => <TimeTicks as Notation>::encoded_len(value, under, mode),
            ObjectSyntax::Arbitrary(value) => <Opaque as Notation>::encoded_len(value, under, mode),
        }
    }

    ghost lawful = { λ _. represented_lawful ⟦<ObjectSyntax as Represents<Sides>>⟧.value_of (in_choice ⟦<Choice<Types> as Notation>⟧.means.encoding_under
        (alternative (int64 refl).own refl (alternative (octets refl).own refl (alternative (oid refl).own refl (alternative (null refl).own refl
        (alternative (in_application 0 (omega arith) (octets_sized (exactly 4) (octets refl))).own refl
        (alternative (in_application 1 (omega arith) (count32 refl)).own refl (alternative (in_application 2 (omega arith) (count32 refl)).own refl
        (alternative (in_application 3 (omega arith) (count32 refl)).own refl (in_application 4 (omega arith) (octets refl)).own))))))))) };

    ghost non_empty = { λ u m v.
        alternative_non_empty (int64_non_empty u) (alternative_non_empty (octets_non_empty u) (alternative_non_empty (oid_non_empty u) (alternative_non_empty (null_non_empty u)
        (alternative_non_empty (octets_non_empty (Some (tag_or u (application 0)))) (alternative_non_empty (count32_non_empty (Some (tag_or u (application 1))))
        (alternative_non_empty (count32_non_empty (Some (tag_or u (application 2))))
        (alternative_non_empty (count32_non_empty (Some (tag_or u (application 3)))) (octets_non_empty (Some (tag_or u (application 4))))))))))) m (⟦<ObjectSyntax as Represents<Sides>>⟧.value_of v) };
}

impl Message for ObjectSyntax {
    ghost is_unambiguous = { refl };
}

impl CanonicalNotation for ObjectSyntax {
    ghost written = { λ _. represented_written ⟦<ObjectSyntax as Represents<Sides>>⟧.value_of (choice_written_as ⟦<Choice<Types> as Notation>⟧.means.encoding_under
        (alternative_written (int64_written refl).own (alternative_written (octets_written refl).own (alternative_written (oid_written refl).own
        (alternative_written (null_written refl).own
        (alternative_written (under_application 0 (omega arith) (octets_sized_written (exactly 4) (octets_written refl))).own
        (alternative_written (under_application 1 (omega arith) (count32_written refl)).own
        (alternative_written (under_application 2 (omega arith) (count32_written refl)).own
        (alternative_written (under_application 3 (omega arith) (count32_written refl)).own
        (under_application 4 (omega arith) (octets_written refl)).own))))))))) };
}

impl Checked for ObjectSyntax {
    fn accepts(value: &ObjectSyntax) -> bool {
        match value {
            ObjectSyntax::Number(value) => <i64 as Checked>::accepts(value),
            ObjectSyntax::String(value) => <Vec<u8> as Checked>::accepts(value),
            ObjectSyntax::Object(value) => ObjectIdentifier::accepts(value),
            ObjectSyntax::Empty => <() as Checked>::accepts(&()),
            ObjectSyntax::Address(value) => NetworkAddress::accepts(value),
            ObjectSyntax::Counter(value) => Counter::accepts(value),
            ObjectSyntax::Gauge(value) => Gauge::accepts(value),
            ObjectSyntax::Ticks(value) => TimeTicks::accepts(value),
            ObjectSyntax::Arbitrary(value) => Opaque::accepts(value),
        }
    }
}
