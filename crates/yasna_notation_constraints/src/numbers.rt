//! Ranges of numbers (X.680, 51.4): `(low..high)`, `(low..MAX)` and `(MIN..high)` of an INTEGER or an ENUMERATED, below 0 too.
ghost use Rattle.std.specs.Prelude.{◌≡◌, ℤ, int_le, pos};
ghost use Rattle.yasna_notation.specs.Bounded.{passes_alike};
ghost use Rattle.yasna_notation_constraints.specs.Numbers.{between, same_natural};

use yasna_notation::{Bound, Bounded, Enumerated, Explicit, Implicit, Notation, TagName};

/// A notation whose values are integers.
pub trait HasNumber: Notation {
    // The integer.
    ghost number: { Self.Value → ℤ };

    /// Whether a value is `low` or more.
    fn is_from(value: &Self::Value, low: i64) -> bool
        ensures { result ≡ int_le low (number value.now) };

    /// Whether a value is `high` or less.
    fn is_up_to(value: &Self::Value, high: i64) -> bool
        ensures { result ≡ int_le (number value.now) high };

    // Equal values are one integer.
    ghost numbers: { (v w : Self.Value) → Self.means.same v w → number v ≡ number w };
}

/// `(LOW..HIGH)`: the integers between these, with both ends.
pub struct IntegerFromTo<const LOW: i64, const HIGH: i64>;

impl<N: HasNumber, const LOW: i64, const HIGH: i64> Bound<N> for IntegerFromTo<LOW, HIGH> {
    ghost passes = { λ v. between LOW HIGH (N.number v) };

    #[inline(always)]
    fn lets(value: &N::Value) -> bool {
        N::is_from(value, LOW) && N::is_up_to(value, HIGH)
    }

    ghost alike = { λ v w e. passes_alike (between LOW HIGH) (N.numbers v w e) };
}

/// `(LOW..MAX)`: the integers from this on.
pub struct IntegerFrom<const LOW: i64>;

impl<N: HasNumber, const LOW: i64> Bound<N> for IntegerFrom<LOW> {
    ghost passes = { λ v. int_le LOW (N.number v) };

    #[inline(always)]
    fn lets(value: &N::Value) -> bool {
        N::is_from(value, LOW)
    }

    ghost alike = { λ v w e. passes_alike (int_le LOW) (N.numbers v w e) };
}

/// `(MIN..HIGH)`: the integers up to this.
pub struct IntegerUpTo<const HIGH: i64>;

impl<N: HasNumber, const HIGH: i64> Bound<N> for IntegerUpTo<HIGH> {
    ghost passes = { λ v. int_le (N.number v) HIGH };

    #[inline(always)]
    fn lets(value: &N::Value) -> bool {
        N::is_up_to(value, HIGH)
    }

    ghost alike = { λ v w e. passes_alike (λ z. int_le z HIGH) (N.numbers v w e) };
}

impl HasNumber for i64 {
    ghost number = { λ v. v };

    #[inline(always)]
    fn is_from(value: &i64, low: i64) -> bool {
        *value >= low
    }

    #[inline(always)]
    fn is_up_to(value: &i64, high: i64) -> bool {
        *value <= high
    }

    ghost numbers = { λ v w e. e };
}

impl HasNumber for i32 {
    ghost number = { λ v. v };

    #[inline(always)]
    fn is_from(value: &i32, low: i64) -> bool {
        i64::from(*value) >= low
    }

    #[inline(always)]
    fn is_up_to(value: &i32, high: i64) -> bool {
        i64::from(*value) <= high
    }

    ghost numbers = { λ v w e. e };
}

impl HasNumber for u64 {
    ghost number = { pos };

    #[inline(always)]
    fn is_from(value: &u64, low: i64) -> bool {
        i128::from(*value) >= i128::from(low)
    }

    #[inline(always)]
    fn is_up_to(value: &u64, high: i64) -> bool {
        i128::from(*value) <= i128::from(high)
    }

    ghost numbers = { λ v w e. same_natural v w e };
}

impl HasNumber for u32 {
    ghost number = { pos };

    #[inline(always)]
    fn is_from(value: &u32, low: i64) -> bool {
        i64::from(*value) >= low
    }

    #[inline(always)]
    fn is_up_to(value: &u32, high: i64) -> bool {
        i64::from(*value) <= high
    }

    ghost numbers = { λ v w e. same_natural v w e };
}

impl HasNumber for Enumerated {
    ghost number = { λ v. v };

    #[inline(always)]
    fn is_from(value: &i64, low: i64) -> bool {
        *value >= low
    }

    #[inline(always)]
    fn is_up_to(value: &i64, high: i64) -> bool {
        *value <= high
    }

    ghost numbers = { λ v w e. e };
}

/// A type within another bound has the numbers of its values.
impl<N: HasNumber, C: Bound<N>> HasNumber for Bounded<N, C> {
    ghost number = { N.number };

    #[inline(always)]
    fn is_from(value: &N::Value, low: i64) -> bool {
        N::is_from(value, low)
    }

    #[inline(always)]
    fn is_up_to(value: &N::Value, high: i64) -> bool {
        N::is_up_to(value, high)
    }

    ghost numbers = { N.numbers };
}

/// A type under a tag of its own has the numbers of its values.
impl<T: TagName, N: HasNumber> HasNumber for Explicit<T, N> {
    ghost number = { N.number };

    #[inline(always)]
    fn is_from(value: &N::Value, low: i64) -> bool {
        N::is_from(value, low)
    }

    #[inline(always)]
    fn is_up_to(value: &N::Value, high: i64) -> bool {
        N::is_up_to(value, high)
    }

    ghost numbers = { N.numbers };
}

/// A type under a tag in place of its own has the numbers of its values.
impl<T: TagName, N: HasNumber> HasNumber for Implicit<T, N> {
    ghost number = { N.number };

    #[inline(always)]
    fn is_from(value: &N::Value, low: i64) -> bool {
        N::is_from(value, low)
    }

    #[inline(always)]
    fn is_up_to(value: &N::Value, high: i64) -> bool {
        N::is_up_to(value, high)
    }

    ghost numbers = { N.numbers };
}
