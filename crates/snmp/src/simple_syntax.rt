//! Values of types of ASN.1's own (RFC 3416, 3).
//!
//! ```text
//! SimpleSyntax ::= CHOICE {
//!     integer-value   INTEGER (-2147483648..2147483647),
//!     string-value    OCTET STRING (SIZE (0..65535)),
//!     objectID-value  OBJECT IDENTIFIER }
//! ```
ghost use Rattle.std.specs.Prelude.{◌≡◌, ◌↔◌, IsTrue, nat_lt, not, refl};
ghost use Rattle.yasna_notation.specs.Canonical.{represented_written, choice_written_as};
ghost use Rattle.yasna_notation.specs.Laws.{represented_lawful};
ghost use Rattle.yasna_notation.specs.Making.{alternative, alternative_non_empty, in_choice, octets_sized};
ghost use Rattle.yasna_notation.specs.Notation.{represented_by};
ghost use Rattle.yasna_notation.specs.Writing.{alternative_written, octets_sized_written};
ghost use Rattle.yasna_notation.specs.contracts.simple.I32Notation.TheImpl.Laws.{lawful-law as int32, non_empty-law as int32_non_empty};
ghost use Rattle.yasna_notation.specs.contracts.canonical.I32CanonicalNotation.TheImpl.Laws.{written-law as int32_written};
ghost use Rattle.yasna_notation.specs.contracts.strings.VecU8Notation.TheImpl.Laws.{lawful-law as octets, non_empty-law as octets_non_empty};
ghost use Rattle.yasna_notation.specs.contracts.canonical.VecU8CanonicalNotation.TheImpl.Laws.{written-law as octets_written};
ghost use Rattle.yasna_notation.specs.contracts.simple.ObjectIdentifierNotation.TheImpl.Laws.{lawful-law as oid, non_empty-law as oid_non_empty};
ghost use Rattle.yasna_notation.specs.contracts.canonical.ObjectIdentifierCanonicalNotation.TheImpl.Laws.{written-law as oid_written};
ghost use Rattle.yasna_notation.specs.declared.choices.Either.TheVariants.{First, Second};
ghost use Rattle.snmp.specs.declared.simple_syntax.SimpleSyntax.TheVariants.{IntegerValue, StringValue, ObjectIdValue};

use yasna::models::ObjectIdentifier;
use yasna::{ASN1Result, BERMode, BERReader, DERWriter, PrependBuffer, Tag};
use yasna_notation::Either::{First, Second};
use yasna_notation::{
    Alternatives, Bounded, CanonicalNotation, Choice, Either, Message, Notation, Represents,
    SizeAtMost, read_as,
};
use yasna_notation_constraints::Checked;

type StringNotation = Bounded<Vec<u8>, SizeAtMost<65535>>;

type Types = (i32, (StringNotation, (ObjectIdentifier,)));

type Sides = Either<i32, Either<Vec<u8>, ObjectIdentifier>>;

/// A value of a type of ASN.1's own.
#[derive(Drop)]
pub enum SimpleSyntax {
    IntegerValue(i32),
    /// 65535 octets at most.
    StringValue(Vec<u8>),
    ObjectIdValue(ObjectIdentifier),
}

impl Represents<Sides> for SimpleSyntax {
    ghost value_of = { λ v. elim v [
      | IntegerValue x ↦ First x
      | StringValue x ↦ Second (First x)
      | ObjectIdValue x ↦ Second (Second x)
    ] };

    fn from_value(value: Sides) -> SimpleSyntax {
        match value {
            First(value) => SimpleSyntax::IntegerValue(value),
            Second(First(value)) => SimpleSyntax::StringValue(value),
            Second(Second(value)) => SimpleSyntax::ObjectIdValue(value),
        }
    }
}

impl Notation for SimpleSyntax {
    type Value = SimpleSyntax;

    type Inner = ();

    ghost means = { represented_by ⟦<SimpleSyntax as Represents<Sides>>⟧.value_of ⟦<Choice<Types> as Notation>⟧.means };

    fn has_tag(tag: Tag) -> bool {
        <Types as Alternatives>::has_tag(tag)
    }

    fn read(reader: BERReader) -> ASN1Result<SimpleSyntax> {
        read_as::<Choice<Types>, SimpleSyntax>(reader)
    }

    fn write(value: &SimpleSyntax, writer: DERWriter<'_>) -> ASN1Result<()> {
        match value {
            SimpleSyntax::IntegerValue(value) => <i32 as Notation>::write(value, writer),
            SimpleSyntax::StringValue(value) => <StringNotation as Notation>::write(value, writer),
            SimpleSyntax::ObjectIdValue(value) => <ObjectIdentifier as Notation>::write(
                value, writer,
            ),
        }
    }

    fn prepend(
        value: &SimpleSyntax,
        under: Option<Tag>,
        out: &mut PrependBuffer,
    ) -> ASN1Result<()> {
        match value {
            SimpleSyntax::IntegerValue(value) => <i32 as Notation>::prepend(value, under, out),
            SimpleSyntax::StringValue(value) => <StringNotation as Notation>::prepend(
                value, under, out,
            ),
            SimpleSyntax::ObjectIdValue(value) => <ObjectIdentifier as Notation>::prepend(
                value, under, out,
            ),
        }
    }

    fn encoded_len(value: &SimpleSyntax, under: Option<Tag>, mode: BERMode) -> Option<usize> {
        match value {
            SimpleSyntax::IntegerValue(value) => <i32 as Notation>::encoded_len(value, under, mode),
            SimpleSyntax::StringValue(value) => <StringNotation as Notation>::encoded_len(
                value, under, mode,
            ),
            SimpleSyntax::ObjectIdValue(value) => <ObjectIdentifier as Notation>::encoded_len(
                value, under, mode,
            ),
        }
    }

    ghost lawful = { λ _. represented_lawful ⟦<SimpleSyntax as Represents<Sides>>⟧.value_of (in_choice ⟦<Choice<Types> as Notation>⟧.means.encoding_under
        (alternative (int32 refl).own refl
        (alternative (octets_sized (λ k. not (nat_lt 65535 k)) (octets refl)).own refl (oid refl).own))) };

    ghost non_empty = { λ u m v.
        alternative_non_empty (int32_non_empty u) (alternative_non_empty (octets_non_empty u) (oid_non_empty u)) m (⟦<SimpleSyntax as Represents<Sides>>⟧.value_of v) };
}

impl Message for SimpleSyntax {
    ghost is_unambiguous = { refl };
}

impl CanonicalNotation for SimpleSyntax {
    ghost written = { λ _. represented_written ⟦<SimpleSyntax as Represents<Sides>>⟧.value_of (choice_written_as ⟦<Choice<Types> as Notation>⟧.means.encoding_under
        (alternative_written (int32_written refl).own
        (alternative_written (octets_sized_written (λ k. not (nat_lt 65535 k)) (octets_written refl)).own (oid_written refl).own))) };
}

impl Checked for SimpleSyntax {
    fn accepts(value: &SimpleSyntax) -> bool {
        match value {
            SimpleSyntax::IntegerValue(value) => <i32 as Checked>::accepts(value),
            SimpleSyntax::StringValue(value) => StringNotation::accepts(value),
            SimpleSyntax::ObjectIdValue(value) => ObjectIdentifier::accepts(value),
        }
    }
}
