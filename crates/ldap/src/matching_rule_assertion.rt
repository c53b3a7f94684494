//! Assertions by a matching rule (RFC 4511, 4.5.1.7.7).
//!
//! ```text
//! MatchingRuleAssertion ::= SEQUENCE {
//!     matchingRule  [1] MatchingRuleId OPTIONAL,
//!     type          [2] AttributeDescription OPTIONAL,
//!     matchValue    [3] AssertionValue,
//!     dnAttributes  [4] BOOLEAN DEFAULT FALSE }
//!
//! MatchingRuleId       ::= LDAPString
//! AttributeDescription ::= LDAPString
//! AssertionValue       ::= OCTET STRING
//! LDAPString           ::= OCTET STRING
//! ```
ghost use Rattle.std.specs.Prelude.{◌≡◌, ◌↔◌, IsTrue, false, not, refl};
ghost use Rattle.std.proofs.Common.{arith};
ghost use Rattle.yasna_notation.specs.Laws.{represented_lawful, element_non_empty};
ghost use Rattle.yasna_notation.specs.Making.{in_sequence, in_implicit, part, optional_part, default_part};
ghost use Rattle.yasna_notation.specs.Notation.{represented_by};
ghost use Rattle.yasna_notation.specs.Parts.{no_parts, detects_false, tests_false};
ghost use Rattle.yasna_notation.specs.contracts.strings.VecU8Notation.TheImpl.Laws.{lawful-law as octets};
ghost use Rattle.yasna_notation.specs.contracts.simple.BoolNotation.TheImpl.Laws.{lawful-law as flag};
ghost use Rattle.yasna_notation.specs.Canonical.{represented_written};
ghost use Rattle.yasna_notation.specs.Writing.{sequence_written, under_context, part_written, optional_written, no_part_written, unset_written};
ghost use Rattle.yasna_notation.specs.contracts.canonical.BoolCanonicalNotation.TheImpl.Laws.{written-law as flag_written};
ghost use Rattle.yasna_notation.specs.contracts.canonical.VecU8CanonicalNotation.TheImpl.Laws.{written-law as octets_written};

use yasna::tags::TAG_SEQUENCE;
use yasna::{ASN1Result, BERMode, BERReader, DERWriter, PrependBuffer, Tag};
use yasna_notation::{
    CanonicalNotation, Context, Default, DefaultValue, Implicit, Message, Notation, Optional,
    Represents, Sequence, read_as,
};
use yasna_notation_constraints::{Checked, accepts_fields};

type MatchingRule = Optional<Implicit<Context<1>, Vec<u8>>>;

type AttributeType = Optional<Implicit<Context<2>, Vec<u8>>>;

type DnFlag = Implicit<Context<4>, bool>;

type Ends = (Implicit<Context<3>, Vec<u8>>, (Default<DnFlag, Unset>, ()));

/// `DEFAULT FALSE` of a BOOLEAN under a tag.
pub struct Unset;

impl DefaultValue<DnFlag> for Unset {
    ghost default = { false };

    ghost is = { not };

    fn default() -> bool {
        false
    }

    ghost detects = { detects_false };

    ghost tests = { tests_false };
}

type Parts = (
    MatchingRule,
    (
        AttributeType,
        (Implicit<Context<3>, Vec<u8>>, (Default<DnFlag, Unset>, ())),
    ),
);

type Fields = (Option<Vec<u8>>, (Option<Vec<u8>>, (Vec<u8>, (bool, ()))));

/// An assertion by a matching rule.
#[derive(Drop)]
pub struct MatchingRuleAssertion {
    /// The rule, by its name or its object identifier.
    pub matching_rule: Option<Vec<u8>>,
    /// The name of the attribute; all that have the rule, where it is omitted.
    pub attribute_type: Option<Vec<u8>>,
    pub match_value: Vec<u8>,
    /// Whether the attributes of the entry's name are looked at too.
    pub dn_attributes: bool,
}

impl Represents<Fields> for MatchingRuleAssertion {
    ghost value_of = { λ v. (v.matching_rule, (v.attribute_type, (v.match_value, (v.dn_attributes, tt)))) };

    fn from_value(
        (matching_rule, (attribute_type, (match_value, (dn_attributes, ())))): Fields,
    ) -> MatchingRuleAssertion {
        MatchingRuleAssertion {
            matching_rule,
            attribute_type,
            match_value,
            dn_attributes,
        }
    }
}

impl Notation for MatchingRuleAssertion {
    type Value = MatchingRuleAssertion;

    type Inner = ();

    ghost means = { represented_by ⟦<MatchingRuleAssertion as Represents<Fields>>⟧.value_of ⟦<Sequence<Parts> as Notation>⟧.means };

    fn has_tag(tag: Tag) -> bool {
        tag == TAG_SEQUENCE
    }

    fn read(reader: BERReader) -> ASN1Result<MatchingRuleAssertion> {
        read_as::<Sequence<Parts>, MatchingRuleAssertion>(reader)
    }

    fn write(value: &MatchingRuleAssertion, writer: DERWriter<'_>) -> ASN1Result<()> {
        Sequence::<Parts>::write_fields(
            (
                &value.matching_rule,
                (
                    &value.attribute_type,
                    (&value.match_value, (&value.dn_attributes, ())),
                ),
            ),
            writer,
        )
    }

    fn prepend(
        value: &MatchingRuleAssertion,
        under: Option<Tag>,
        out: &mut PrependBuffer,
    ) -> ASN1Result<()> {
        Sequence::<Parts>::prepend_fields(
            (
                &value.matching_rule,
                (
                    &value.attribute_type,
                    (&value.match_value, (&value.dn_attributes, ())),
                ),
            ),
            under,
            out,
        )
    }

    fn encoded_len(
        value: &MatchingRuleAssertion,
        under: Option<Tag>,
        mode: BERMode,
    ) -> Option<usize> {
        Sequence::<Parts>::fields_len(
            (
                &value.matching_rule,
                (
                    &value.attribute_type,
                    (&value.match_value, (&value.dn_attributes, ())),
                ),
            ),
            under,
            mode,
        )
    }

    ghost lawful = { λ _. represented_lawful ⟦<MatchingRuleAssertion as Represents<Fields>>⟧.value_of
        (in_sequence (optional_part refl (in_implicit 1 (omega arith) (octets
        refl)).own (optional_part refl (in_implicit 2 (omega arith) (octets refl)).own (part (in_implicit 3 (omega arith) (octets refl)).own (default_part not
        false detects_false refl (in_implicit 4 (omega arith) (flag refl)).own no_parts))))) };

    ghost non_empty = { λ u m v. element_non_empty _ _ _ _ };
}

impl Message for MatchingRuleAssertion {
    ghost is_unambiguous = { refl };
}

impl CanonicalNotation for MatchingRuleAssertion {
    ghost written = { λ _. represented_written ⟦<MatchingRuleAssertion as Represents<Fields>>⟧.value_of (sequence_written (optional_written (under_context
        1 (omega arith) (octets_written refl)).own (optional_written (under_context 2 (omega arith) (octets_written refl)).own (part_written
        (under_context 3 (omega arith) (octets_written refl)).own (unset_written (under_context 4 (omega arith) (flag_written refl)).own
        no_part_written))))) };
}

impl Checked for MatchingRuleAssertion {
    fn accepts(value: &MatchingRuleAssertion) -> bool {
        accepts_fields::<Parts, _>((
            &value.matching_rule,
            (
                &value.attribute_type,
                (&value.match_value, (&value.dn_attributes, ())),
            ),
        ))
    }
}
