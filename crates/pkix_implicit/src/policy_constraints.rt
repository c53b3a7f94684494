//! `PolicyConstraints` of the module PKIX1Implicit88.
//!
//! ```text
//! PolicyConstraints ::= SEQUENCE {
//!     requireExplicitPolicy  [0] SkipCerts OPTIONAL,
//!     inhibitPolicyMapping   [1] SkipCerts OPTIONAL }
//! ```
ghost use Rattle.std.specs.Prelude.{◌≡◌, ◌↔◌, IsTrue, int_le, pos, refl};
ghost use Rattle.std.proofs.Common.{arith};
ghost use Rattle.yasna_base.specs.Integer.{twos};
ghost use Rattle.yasna_bytes.specs.Contents.{big_integer_in};
ghost use Rattle.yasna_notation.specs.Bounded.{passes_alike, within_lawful};
ghost use Rattle.yasna_notation.specs.Canonical.{bounded_written, represented_written};
ghost use Rattle.yasna_notation.specs.Laws.{element_non_empty, represented_lawful};
ghost use Rattle.yasna_notation.specs.Making.{in_implicit, in_sequence, optional_part};
ghost use Rattle.yasna_notation.specs.Notation.{represented_by};
ghost use Rattle.yasna_notation.specs.Parts.{no_parts};
ghost use Rattle.yasna_notation.specs.Writing.{no_part_written, optional_written, sequence_written, under_context};
ghost use Rattle.yasna_notation_constraints.specs.Numbers.{same_number};
ghost use Rattle.yasna_notation.specs.contracts.simple.BigIntegerNotation.TheImpl.Laws.{lawful-law as big_law};
ghost use Rattle.yasna_notation.specs.contracts.canonical.BigIntegerCanonicalNotation.TheImpl.Laws.{written-law as big_written};

use yasna::{ASN1Result, BERMode, BERReader, DERWriter, PrependBuffer, Tag};
use yasna_notation::{
    BigInteger, Bounded, CanonicalNotation, Context, Implicit, Message, Notation, Optional,
    Represents, Sequence, read_as,
};
use yasna_notation_constraints::{Checked, IntegerFrom, accepts_fields};

type Parts = (
    Optional<Implicit<Context<0>, Bounded<BigInteger, IntegerFrom<0>>>>,
    (
        Optional<Implicit<Context<1>, Bounded<BigInteger, IntegerFrom<0>>>>,
        (),
    ),
);

type Fields = (Option<(Vec<u8>, bool)>, (Option<(Vec<u8>, bool)>, ()));

type Notated = Sequence<Parts>;

/// `PolicyConstraints`.
#[derive(Drop)]
pub struct PolicyConstraints {
    pub require_explicit_policy: Option<(Vec<u8>, bool)>,
    pub inhibit_policy_mapping: Option<(Vec<u8>, bool)>,
}

impl Represents<Fields> for PolicyConstraints {
    ghost value_of = { λ v. (v.require_explicit_policy, (v.inhibit_policy_mapping, tt)) };

    fn from_value(
        (require_explicit_policy, (inhibit_policy_mapping, ())): Fields,
    ) -> PolicyConstraints {
        PolicyConstraints {
            require_explicit_policy,
            inhibit_policy_mapping,
        }
    }
}

impl Notation for PolicyConstraints {
    type Value = PolicyConstraints;

    type Inner = ();

    ghost means = { represented_by ⟦<PolicyConstraints as Represents<Fields>>⟧.value_of ⟦<Notated as Notation>⟧.means };

    fn has_tag(tag: Tag) -> bool {
        <Notated as Notation>::has_tag(tag)
    }

    fn read(reader: BERReader) -> ASN1Result<PolicyConstraints> {
        read_as::<Notated, PolicyConstraints>(reader)
    }

    fn write(value: &PolicyConstraints, writer: DERWriter<'_>) -> ASN1Result<()> {
        Sequence::<Parts>::write_fields(
            (
                &value.require_explicit_policy,
                (&value.inhibit_policy_mapping, ()),
            ),
            writer,
        )
    }

    fn prepend(
        value: &PolicyConstraints,
        under: Option<Tag>,
        out: &mut PrependBuffer,
    ) -> ASN1Result<()> {
        Sequence::<Parts>::prepend_fields(
            (
                &value.require_explicit_policy,
                (&value.inhibit_policy_mapping, ()),
            ),
            under,
            out,
        )
    }

    fn encoded_len(value: &PolicyConstraints, under: Option<Tag>, mode: BERMode) -> Option<usize> {
        Sequence::<Parts>::fields_len(
            (
                &value.require_explicit_policy,
                (&value.inhibit_policy_mapping, ()),
            ),
            under,
            mode,
        )
    }

    ghost lawful = { λ _. represented_lawful ⟦<PolicyConstraints as Represents<Fields>>⟧.value_of (in_sequence
        (optional_part refl (in_implicit 0 (omega arith) (within_lawful (λ v. int_le (pos 0) (twos v.0.items))
        (λ v w e. passes_alike (int_le (pos 0)) (same_number (big_integer_in v) (big_integer_in w) e)) (big_law refl))).own
        (optional_part refl (in_implicit 1 (omega arith) (within_lawful (λ v. int_le (pos 0) (twos v.0.items))
        (λ v w e. passes_alike (int_le (pos 0)) (same_number (big_integer_in v) (big_integer_in w) e)) (big_law refl))).own no_parts))) };

    ghost non_empty = { λ u m v. element_non_empty _ _ _ _ };
}

impl Message for PolicyConstraints {
    ghost is_unambiguous = { refl };
}

impl CanonicalNotation for PolicyConstraints {
    ghost written = { λ _. represented_written ⟦<PolicyConstraints as Represents<Fields>>⟧.value_of (sequence_written
        (optional_written (under_context 0 (omega arith) (bounded_written (λ v. int_le (pos 0) (twos v.0.items))
        (λ v w e. passes_alike (int_le (pos 0)) (same_number (big_integer_in v) (big_integer_in w) e)) (big_written refl))).own
        (optional_written (under_context 1 (omega arith) (bounded_written (λ v. int_le (pos 0) (twos v.0.items))
        (λ v w e. passes_alike (int_le (pos 0)) (same_number (big_integer_in v) (big_integer_in w) e)) (big_written refl))).own no_part_written))) };
}

impl Checked for PolicyConstraints {
    fn accepts(value: &PolicyConstraints) -> bool {
        accepts_fields::<Parts, _>((
            &value.require_explicit_policy,
            (&value.inhibit_policy_mapping, ()),
        ))
    }
}
