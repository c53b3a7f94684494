//! Filters that aren't made of other filters (RFC 4511, 4.5.1.7).
//!
//! ```text
//! CHOICE {
//!     equalityMatch    [3] AttributeValueAssertion,
//!     substrings       [4] SubstringFilter,
//!     greaterOrEqual   [5] AttributeValueAssertion,
//!     lessOrEqual      [6] AttributeValueAssertion,
//!     present          [7] AttributeDescription,
//!     approxMatch      [8] AttributeValueAssertion,
//!     extensibleMatch  [9] MatchingRuleAssertion }
//!
//! AttributeDescription ::= LDAPString
//! LDAPString           ::= OCTET STRING
//! ```
ghost use Rattle.std.specs.Prelude.{◌≡◌, ◌↔◌, [], IsTrue, refl};
ghost use Rattle.std.proofs.Common.{arith};
ghost use Rattle.yasna_notation.specs.Laws.{represented_lawful, element_non_empty};
ghost use Rattle.yasna_notation.specs.Making.{in_choice, alternative, in_implicit};
ghost use Rattle.yasna_notation.specs.Notation.{represented_by};
ghost use Rattle.yasna_notation.specs.Laws.{octets_non_empty};
ghost use Rattle.yasna_notation.specs.declared.choices.Either.TheVariants.{First, Second};
ghost use Rattle.ldap.specs.declared.filter_item.FilterItem.TheVariants.{EqualityMatch, Substrings, GreaterOrEqual, LessOrEqual, Present, ApproxMatch, ExtensibleMatch};
ghost use Rattle.yasna_notation.specs.contracts.strings.VecU8Notation.TheImpl.Laws.{lawful-law as octets};
ghost use Rattle.ldap.specs.contracts.attribute_value_assertion.AttributeValueAssertionNotation.TheImpl.Laws.{lawful-law as assertion};
ghost use Rattle.ldap.specs.contracts.substring_filter.SubstringFilterNotation.TheImpl.Laws.{lawful-law as substring_filter};
ghost use Rattle.ldap.specs.contracts.matching_rule_assertion.MatchingRuleAssertionNotation.TheImpl.Laws.{lawful-law as matching};
ghost use Rattle.yasna_notation.specs.Canonical.{represented_written, choice_written_as};
ghost use Rattle.yasna_notation.specs.Writing.{alternative_written, under_context};
ghost use Rattle.ldap.specs.contracts.attribute_value_assertion.AttributeValueAssertionCanonicalNotation.TheImpl.Laws.{written-law as assertion_written};
ghost use Rattle.ldap.specs.contracts.matching_rule_assertion.MatchingRuleAssertionCanonicalNotation.TheImpl.Laws.{written-law as matching_written};
ghost use Rattle.ldap.specs.contracts.substring_filter.SubstringFilterCanonicalNotation.TheImpl.Laws.{written-law as substring_filter_written};
ghost use Rattle.yasna_notation.specs.contracts.canonical.VecU8CanonicalNotation.TheImpl.Laws.{written-law as octets_written};

use crate::attribute_value_assertion::AttributeValueAssertion;
use crate::matching_rule_assertion::MatchingRuleAssertion;
use crate::substring_filter::SubstringFilter;
use yasna::{ASN1Result, BERMode, BERReader, DERWriter, PrependBuffer, Tag};
use yasna_notation::Either::{First, Second};
use yasna_notation::{
    Alternatives, CanonicalNotation, Choice, Context, Either, Implicit, Message, Notation,
    Represents, read_as,
};
use yasna_notation_constraints::Checked;

type EqualityMatchNotation = Implicit<Context<3>, AttributeValueAssertion>;

type SubstringsNotation = Implicit<Context<4>, SubstringFilter>;

type GreaterOrEqualNotation = Implicit<Context<5>, AttributeValueAssertion>;

type LessOrEqualNotation = Implicit<Context<6>, AttributeValueAssertion>;

type PresentNotation = Implicit<Context<7>, Vec<u8>>;

type ApproxMatchNotation = Implicit<Context<8>, AttributeValueAssertion>;

type ExtensibleMatchNotation = Implicit<Context<9>, MatchingRuleAssertion>;

type Later = (
    PresentNotation,
    (ApproxMatchNotation, (ExtensibleMatchNotation,)),
);

type Types = (
    EqualityMatchNotation,
    (
        SubstringsNotation,
        (GreaterOrEqualNotation, (LessOrEqualNotation, Later)),
    ),
);

type Notated = Choice<Types>;

type LaterFields = Either<Vec<u8>, Either<AttributeValueAssertion, MatchingRuleAssertion>>;

type EarlierFields = Either<AttributeValueAssertion, Either<AttributeValueAssertion, LaterFields>>;

type Fields = Either<AttributeValueAssertion, Either<SubstringFilter, EarlierFields>>;

/// A filter that isn't made of other filters: an assertion about an attribute.
#[derive(Drop)]
pub enum FilterItem {
    EqualityMatch(AttributeValueAssertion),
    Substrings(SubstringFilter),
    GreaterOrEqual(AttributeValueAssertion),
    LessOrEqual(AttributeValueAssertion),
    /// The attribute of this name is there.
    Present(Vec<u8>),
    ApproxMatch(AttributeValueAssertion),
    ExtensibleMatch(MatchingRuleAssertion),
}

impl Represents<Fields> for FilterItem {
    ghost value_of = { λ v. elim v [
      | EqualityMatch o ↦ First o
      | Substrings o ↦ Second (First o)
      | GreaterOrEqual o ↦ Second (Second (First o))
      | LessOrEqual o ↦ Second (Second (Second (First o)))
      | Present o ↦ Second (Second (Second (Second (First o))))
      | ApproxMatch o ↦ Second (Second (Second (Second (Second (First o)))))
      | ExtensibleMatch o ↦ Second (Second (Second (Second (Second (Second o)))))
    ] };

    fn from_value(value: Fields) -> FilterItem {
        match value {
            First(chosen) => FilterItem::EqualityMatch(chosen),
            Second(First(chosen)) => FilterItem::Substrings(chosen),
            Second(Second(First(chosen))) => FilterItem::GreaterOrEqual(chosen),
            Second(Second(Second(First(chosen)))) => FilterItem::LessOrEqual(chosen),
            Second(Second(Second(Second(First(chosen))))) => FilterItem::Present(chosen),
            Second(Second(Second(Second(Second(First(chosen)))))) => FilterItem::ApproxMatch(
                chosen,
            ),
            Second(Second(Second(Second(Second(Second(chosen)))))) => FilterItem::ExtensibleMatch(
                chosen,
            ),
        }
    }
}

impl Notation for FilterItem {
    type Value = FilterItem;

    type Inner = ();

    ghost means = { represented_by ⟦<FilterItem as Represents<Fields>>⟧.value_of ⟦<Notated as Notation>⟧.means };

    fn has_tag(tag: Tag) -> bool {
        <Types as Alternatives>::has_tag(tag)
    }

    fn read(reader: BERReader) -> ASN1Result<FilterItem> {
        read_as::<Notated, FilterItem>(reader)
    }

    fn write(value: &FilterItem, writer: DERWriter<'_>) -> ASN1Result<()> {
        match value {
            FilterItem::EqualityMatch(chosen) => EqualityMatchNotation::write(chosen, writer),
            FilterItem::Substrings(chosen) => SubstringsNotation::write(chosen, writer),
            FilterItem::GreaterOrEqual(chosen) => GreaterOrEqualNotation::write(chosen, writer),
            FilterItem::LessOrEqual(chosen) => LessOrEqualNotation::write(chosen, writer),
            FilterItem::Present(chosen) => PresentNotation::write(chosen, writer),
            FilterItem::ApproxMatch(chosen) => ApproxMatchNotation::write(chosen, writer),
            FilterItem::ExtensibleMatch(chosen) => ExtensibleMatchNotation::write(chosen, writer),
        }
    }

    fn prepend(value: &FilterItem, under: Option<Tag>, out: &mut PrependBuffer) -> ASN1Result<()> {
        match value {
            FilterItem::EqualityMatch(chosen) => EqualityMatchNotation::prepend(chosen, under, out),
            FilterItem::Substrings(chosen) => SubstringsNotation::prepend(chosen, under, out),
            FilterItem::GreaterOrEqual(chosen) => GreaterOrEqualNotation::prepend(
                chosen, under, out,
            ),
            FilterItem::LessOrEqual(chosen) => LessOrEqualNotation::prepend(chosen, under, out),
            FilterItem::Present(chosen) => PresentNotation::prepend(chosen, under, out),
            FilterItem::ApproxMatch(chosen) => ApproxMatchNotation::prepend(chosen, under, out),
            FilterItem::ExtensibleMatch(chosen) => ExtensibleMatchNotation::prepend(
                chosen, under, out,
            ),
        }
    }

    fn encoded_len(value: &FilterItem, under: Option<Tag>, mode: BERMode) -> Option<usize> {
        match value {
            FilterItem::EqualityMatch(chosen) => EqualityMatchNotation::encoded_len(
                chosen, under, mode,
            ),
            FilterItem::Substrings(chosen) => SubstringsNotation::encoded_len(chosen, under, mode),
            FilterItem::GreaterOrEqual(chosen) => GreaterOrEqualNotation::encoded_len(
                chosen, under, mode,
            ),
            FilterItem::LessOrEqual(chosen) => LessOrEqualNotation::encoded_len(
                chosen, under, mode,
            ),
            FilterItem::Present(chosen) => PresentNotation::encoded_len(chosen, under, mode),
            FilterItem::ApproxMatch(chosen) => ApproxMatchNotation::encoded_len(
                chosen, under, mode,
            ),
            FilterItem::ExtensibleMatch(chosen) => ExtensibleMatchNotation::encoded_len(
                chosen, under, mode,
            ),
        }
    }

    ghost lawful = { λ _. represented_lawful ⟦<FilterItem as Represents<Fields>>⟧.value_of
        (in_choice ⟦<Notated as Notation>⟧.means.encoding_under (alternative (in_implicit 3 (omega
        arith) (assertion refl)).own refl (alternative (in_implicit 4 (omega arith) (substring_filter refl)).own refl (alternative (in_implicit 5 (omega
        arith) (assertion refl)).own refl (alternative (in_implicit 6 (omega arith) (assertion refl)).own refl (alternative (in_implicit 7 (omega arith)
        (octets refl)).own refl (alternative (in_implicit 8 (omega arith) (assertion refl)).own refl (in_implicit 9 (omega arith) (matching refl)).own))))))) };

    ghost non_empty = { λ u m v. elim v as (λ k. ⟦<Notated as Notation>⟧.means.encoding_under u m (⟦<FilterItem as Represents<Fields>>⟧.value_of k) ≡ [] → ⊥) [
      | EqualityMatch o ↦
          element_non_empty _ _ _ _
      | Substrings o ↦ element_non_empty _ _ _ _
      | GreaterOrEqual o ↦ element_non_empty _ _ _ _
      | LessOrEqual o ↦ element_non_empty _ _ _ _
      | Present o ↦ octets_non_empty _ m o.items
      | ApproxMatch o ↦ element_non_empty _ _ _ _
      | ExtensibleMatch o ↦ element_non_empty _ _ _ _
    ] };
}

impl Message for FilterItem {
    ghost is_unambiguous = { refl };
}

impl CanonicalNotation for FilterItem {
    ghost written = { λ _. represented_written ⟦<FilterItem as Represents<Fields>>⟧.value_of (choice_written_as ⟦<Notated as Notation>⟧.means.encoding_under
        (alternative_written (under_context 3 (omega arith) (assertion_written refl)).own (alternative_written (under_context 4 (omega arith)
        (substring_filter_written refl)).own (alternative_written (under_context 5 (omega arith) (assertion_written refl)).own (alternative_written
        (under_context 6 (omega arith) (assertion_written refl)).own (alternative_written (under_context 7 (omega arith) (octets_written refl)).own
        (alternative_written (under_context 8 (omega arith) (assertion_written refl)).own (under_context 9 (omega arith) (matching_written
        refl)).own))))))) };
}

impl Checked for FilterItem {
    fn accepts(value: &FilterItem) -> bool {
        match value {
            FilterItem::EqualityMatch(chosen) => EqualityMatchNotation::accepts(chosen),
            FilterItem::Substrings(chosen) => SubstringsNotation::accepts(chosen),
            FilterItem::GreaterOrEqual(chosen) => GreaterOrEqualNotation::accepts(chosen),
            FilterItem::LessOrEqual(chosen) => LessOrEqualNotation::accepts(chosen),
            FilterItem::Present(chosen) => PresentNotation::accepts(chosen),
            FilterItem::ApproxMatch(chosen) => ApproxMatchNotation::accepts(chosen),
            FilterItem::ExtensibleMatch(chosen) => ExtensibleMatchNotation::accepts(chosen),
        }
    }
}
