//! Defaults (X.680, 25.9): `DEFAULT TRUE`, and of numbers and ENUMERATED within any tags and bounds.
ghost use Rattle.std.specs.Prelude.{◌≡◌, true, false, not, nat_eq, refl};
ghost use Rattle.std.specs.Ordering.{int_eq};
ghost use Rattle.yasna_notation.specs.Parts.{detects_false, tests_false, detects_number};
ghost use Rattle.yasna_notation_constraints.specs.Defaults.{IsPlain, plainly, detects_true, tests_true, detects_integer};

use yasna_notation::{
    Bound, Bounded, DefaultValue, Enumerated, Explicit, Implicit, Notation, TagName,
};

/// A notation whose values are equal only if they are the same.
pub trait PlainValues: Notation {
    // Equal values are the same.
    ghost plain: { IsPlain Self.means.same };
}

impl PlainValues for bool {
    ghost plain = { λ v w. (λ e. e, λ e. e) };
}

impl PlainValues for i64 {
    ghost plain = { λ v w. (λ e. e, λ e. e) };
}

impl PlainValues for u64 {
    ghost plain = { λ v w. (λ e. e, λ e. e) };
}

impl PlainValues for Enumerated {
    ghost plain = { λ v w. (λ e. e, λ e. e) };
}

impl<N: PlainValues, C: Bound<N>> PlainValues for Bounded<N, C> {
    ghost plain = { N.plain };
}

impl<T: TagName, N: PlainValues> PlainValues for Explicit<T, N> {
    ghost plain = { N.plain };
}

impl<T: TagName, N: PlainValues> PlainValues for Implicit<T, N> {
    ghost plain = { N.plain };
}

/// `DEFAULT TRUE`, of a BOOLEAN under any tags.
pub struct True;

impl<N: PlainValues<Value = bool>> DefaultValue<N> for True {
    ghost default = { true };

    ghost is = { λ v. v };

    #[inline(always)]
    fn default() -> bool {
        true
    }

    ghost detects = { plainly N.plain (λ v. v) true detects_true };

    ghost tests = { tests_true };
}

/// `DEFAULT FALSE`, of a BOOLEAN under any tags.
pub struct Unset;

impl<N: PlainValues<Value = bool>> DefaultValue<N> for Unset {
    ghost default = { false };

    ghost is = { not };

    #[inline(always)]
    fn default() -> bool {
        false
    }

    ghost detects = { plainly N.plain not false detects_false };

    ghost tests = { tests_false };
}

/// `DEFAULT D`, of an INTEGER that isn't negative, within any tags and bounds.
pub struct Natural<const D: u64>;

impl<N: PlainValues<Value = u64>, const D: u64> DefaultValue<N> for Natural<D> {
    ghost default = { D };

    ghost is = { λ v. nat_eq v D };

    #[inline(always)]
    fn default() -> u64 {
        D
    }

    ghost detects = { plainly N.plain (λ v. nat_eq v D) D (detects_number D) };

    ghost tests = { λ v. refl };
}

/// `DEFAULT D`, of an INTEGER or an ENUMERATED, within any tags and bounds.
pub struct Signed<const D: i64>;

impl<N: PlainValues<Value = i64>, const D: i64> DefaultValue<N> for Signed<D> {
    ghost default = { D };

    ghost is = { λ v. int_eq v D };

    #[inline(always)]
    fn default() -> i64 {
        D
    }

    ghost detects = { plainly N.plain (λ v. int_eq v D) D (detects_integer D) };

    ghost tests = { λ v. refl };
}
