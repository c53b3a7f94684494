//! What is bound to a variable (RFC 3416, 3).
//!
//! ```text
//! CHOICE {
//!     value           ObjectSyntax,
//!     unSpecified     NULL,
//!     noSuchObject    [0] IMPLICIT NULL,
//!     noSuchInstance  [1] IMPLICIT NULL,
//!     endOfMibView    [2] IMPLICIT NULL }
//!
//! ObjectSyntax ::= CHOICE {
//!     simple            SimpleSyntax,
//!     application-wide  ApplicationSyntax }
//! ```
ghost use Rattle.std.specs.Prelude.{◌≡◌, ◌↔◌, IsTrue, Some, refl};
ghost use Rattle.std.proofs.Common.{arith};
ghost use Rattle.yasna_notation.specs.Canonical.{represented_written, choice_written_as};
ghost use Rattle.yasna_notation.specs.Laws.{represented_lawful};
ghost use Rattle.yasna_notation.specs.Making.{alternative, alternative_non_empty, in_choice, in_implicit};
ghost use Rattle.yasna_notation.specs.Making.{context, tag_or};
ghost use Rattle.yasna_notation.specs.Notation.{represented_by};
ghost use Rattle.yasna_notation.specs.Writing.{alternative_written, under_context};
ghost use Rattle.snmp.specs.contracts.application_syntax.ApplicationSyntaxNotation.TheImpl.Laws.{lawful-law as application_wide, non_empty-law as application_wide_non_empty};
ghost use Rattle.snmp.specs.contracts.application_syntax.ApplicationSyntaxCanonicalNotation.TheImpl.Laws.{written-law as application_wide_written};
ghost use Rattle.yasna_notation.specs.contracts.simple.UnitNotation.TheImpl.Laws.{lawful-law as null, non_empty-law as null_non_empty};
ghost use Rattle.yasna_notation.specs.contracts.canonical.UnitCanonicalNotation.TheImpl.Laws.{written-law as null_written};
ghost use Rattle.snmp.specs.contracts.simple_syntax.SimpleSyntaxNotation.TheImpl.Laws.{lawful-law as simple, non_empty-law as simple_non_empty};
ghost use Rattle.snmp.specs.contracts.simple_syntax.SimpleSyntaxCanonicalNotation.TheImpl.Laws.{written-law as simple_written};
ghost use Rattle.yasna_notation.specs.declared.choices.Either.TheVariants.{First, Second};
ghost use Rattle.snmp.specs.declared.v2c.bound_value.BoundValue.TheVariants.{Simple, ApplicationWide, Unspecified, NoSuchObject, NoSuchInstance, EndOfMibView};

use crate::application_syntax::ApplicationSyntax;
use crate::simple_syntax::SimpleSyntax;
use yasna::{ASN1Result, BERMode, BERReader, DERWriter, PrependBuffer, Tag};
use yasna_notation::Either::{First, Second};
use yasna_notation::{
    Alternatives, CanonicalNotation, Choice, Context, Either, Implicit, Message, Notation,
    Represents, read_as,
};
use yasna_notation_constraints::Checked;

type NoSuchObject = Implicit<Context<0>, ()>;

type NoSuchInstance = Implicit<Context<1>, ()>;

type EndOfMibView = Implicit<Context<2>, ()>;

type Types = (
    SimpleSyntax,
    (
        ApplicationSyntax,
        ((), (NoSuchObject, (NoSuchInstance, (EndOfMibView,)))),
    ),
);

type Sides = Either<
    SimpleSyntax,
    Either<ApplicationSyntax, Either<(), Either<(), Either<(), ()>>>>,
>;

/// The value that is bound to a variable, or why there is none.
#[derive(Drop)]
pub enum BoundValue {
    Simple(SimpleSyntax),
    ApplicationWide(ApplicationSyntax),
    /// The NULL of a request for values.
    Unspecified,
    NoSuchObject,
    NoSuchInstance,
    EndOfMibView,
}

impl Represents<Sides> for BoundValue {
    ghost value_of = { λ v. elim v [
      | Simple x ↦ First x
      | ApplicationWide x ↦ Second (First x)
      | Unspecified ↦ Second (Second (First tt))
      | NoSuchObject ↦ Second (Second (Second (First tt)))
      | NoSuchInstance ↦ Second (Second (Second (Second (First tt))))
      | EndOfMibView ↦ Second (Second (Second (Second (Second tt))))
    ] };

    fn from_value(value: Sides) -> BoundValue {
        match value {
            First(value) => BoundValue::Simple(value),
            Second(First(value)) => BoundValue::ApplicationWide(value),
            Second(Second(First(()))) => BoundValue::Unspecified,
            Second(Second(Second(First(())))) => BoundValue::NoSuchObject,
            Second(Second(Second(Second(First(()))))) => BoundValue::NoSuchInstance,
            Second(Second(Second(Second(Second(()))))) => BoundValue::EndOfMibView,
        }
    }
}

impl Notation for BoundValue {
    type Value = BoundValue;

    type Inner = ();

    ghost means = { represented_by ⟦<BoundValue as Represents<Sides>>⟧.value_of ⟦<Choice<Types> as Notation>⟧.means };

    fn has_tag(tag: Tag) -> bool {
        <Types as Alternatives>::has_tag(tag)
    }

    fn read(reader: BERReader) -> ASN1Result<BoundValue> {
        read_as::<Choice<Types>, BoundValue>(reader)
    }

    fn write(value: &BoundValue, writer: DERWriter<'_>) -> ASN1Result<()> {
        match value {
            BoundValue::Simple(value) => <SimpleSyntax as Notation>::write(value, writer),
            BoundValue::ApplicationWide(value) => <ApplicationSyntax as Notation>::write(
                value, writer,
            ),
            BoundValue::Unspecified => <() as Notation>::write(&(), writer),
            BoundValue::NoSuchObject => <NoSuchObject as Notation>::write(&(), writer),
            BoundValue::NoSuchInstance => <NoSuchInstance as Notation>::write(&(), writer),
            BoundValue::EndOfMibView => <EndOfMibView as Notation>::write(&(), writer),
        }
    }

    fn prepend(value: &BoundValue, under: Option<Tag>, out: &mut PrependBuffer) -> ASN1Result<()> {
        match value {
            BoundValue::Simple(value) => <SimpleSyntax as Notation>::prepend(value, under, out),
            BoundValue::ApplicationWide(value) => <ApplicationSyntax as Notation>::prepend(
                value, under, out,
            ),
            BoundValue::Unspecified => <() as Notation>::prepend(&(), under, out),
            BoundValue::NoSuchObject => <NoSuchObject as Notation>::prepend(&(), under, out),
            BoundValue::NoSuchInstance => <NoSuchInstance as Notation>::prepend(&(), under, out),
            BoundValue::EndOfMibView => <EndOfMibView as Notation>::prepend(&(), under, out),
        }
    }

    fn encoded_len(value: &BoundValue, under: Option<Tag>, mode: BERMode) -> Option<usize> {
        match value {
            BoundValue::Simple(value) => <SimpleSyntax as Notation>::encoded_len(
                value, under, mode,
            ),
            BoundValue::ApplicationWide(value) => <ApplicationSyntax as Notation>::encoded_len(
                value, under, mode,
            ),
            BoundValue::Unspecified => <() as Notation>::encoded_len(&(), under, mode),
            BoundValue::NoSuchObject => <NoSuchObject as Notation>::encoded_len(&(), under, mode),
            BoundValue::NoSuchInstance => <NoSuchInstance as Notation>::encoded_len(
                &(),
                under,
                mode,
            ),
            BoundValue::EndOfMibView => <EndOfMibView as Notation>::encoded_len(&(), under, mode),
        }
    }

    ghost lawful = { λ _. represented_lawful ⟦<BoundValue as Represents<Sides>>⟧.value_of (in_choice ⟦<Choice<Types> as Notation>⟧.means.encoding_under
        (alternative (simple refl).own refl (alternative (application_wide refl).own refl (alternative (null refl).own refl
        (alternative (in_implicit 0 (omega arith) (null refl)).own refl
        (alternative (in_implicit 1 (omega arith) (null refl)).own refl (in_implicit 2 (omega arith) (null refl)).own)))))) };

    ghost non_empty = { λ u m v.
        alternative_non_empty (simple_non_empty u) (alternative_non_empty (application_wide_non_empty u) (alternative_non_empty (null_non_empty u)
        (alternative_non_empty (null_non_empty (Some (tag_or u (context 0))))
        (alternative_non_empty (null_non_empty (Some (tag_or u (context 1)))) (null_non_empty (Some (tag_or u (context 2)))))))) m (⟦<BoundValue as Represents<Sides>>⟧.value_of v) };
}

impl Message for BoundValue {
    ghost is_unambiguous = { refl };
}

impl CanonicalNotation for BoundValue {
    ghost written = { λ _. represented_written ⟦<BoundValue as Represents<Sides>>⟧.value_of (choice_written_as ⟦<Choice<Types> as Notation>⟧.means.encoding_under
        (alternative_written (simple_written refl).own (alternative_written (application_wide_written refl).own
        (alternative_written (null_written refl).own (alternative_written (under_context 0 (omega arith) (null_written refl)).own
        (alternative_written (under_context 1 (omega arith) (null_written refl)).own (under_context 2 (omega arith) (null_written refl)).own)))))) };
}

impl Checked for BoundValue {
    fn accepts(value: &BoundValue) -> bool {
        match value {
            BoundValue::Simple(value) => SimpleSyntax::accepts(value),
            BoundValue::ApplicationWide(value) => ApplicationSyntax::accepts(value),
            BoundValue::Unspecified => <() as Checked>::accepts(&()),
            BoundValue::NoSuchObject => NoSuchObject::accepts(&()),
            BoundValue::NoSuchInstance => NoSuchInstance::accepts(&()),
            BoundValue::EndOfMibView => EndOfMibView::accepts(&()),
        }
    }
}
