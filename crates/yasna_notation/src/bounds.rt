//! Bounds of numbers and of sizes (X.680, 51).
ghost use Rattle.std.specs.Prelude.{◌≡◌, length, nat_lt, not};
ghost use Rattle.yasna_notation.specs.Bounded.{exactly, from_to, from_zero, up_to, sized, passes_alike, sizes_alike, set_sizes_alike};

use crate::bounded::Bound;
use crate::lists::SequenceOf;
use crate::notation::Notation;
use crate::set_lists::SetOf;
use crate::simple::Enumerated;

/// `(0..MAX)` of an INTEGER that isn't negative.
pub struct AtMost<const MAX: u64>;

impl<const MAX: u64> Bound<u64> for AtMost<MAX> {
    ghost passes = { λ v. not (nat_lt MAX v) };

    #[inline(always)]
    fn lets(value: &u64) -> bool {
        *value <= MAX
    }

    ghost alike = { λ v w e. passes_alike (λ n. not (nat_lt MAX n)) e };
}

/// `(LOW..HIGH)` of an INTEGER that isn't negative.
pub struct FromTo<const LOW: u64, const HIGH: u64>;

impl<const LOW: u64, const HIGH: u64> Bound<u64> for FromTo<LOW, HIGH> {
    ghost passes = { from_to LOW HIGH };

    #[inline(always)]
    fn lets(value: &u64) -> bool {
        *value >= LOW && *value <= HIGH
    }

    ghost alike = { λ v w e. passes_alike (from_to LOW HIGH) e };
}

/// `(N)` of an INTEGER: only this number.
pub struct Exactly<const N: u64>;

impl<const N: u64> Bound<u64> for Exactly<N> {
    ghost passes = { exactly N };

    #[inline(always)]
    fn lets(value: &u64) -> bool {
        *value == N
    }

    ghost alike = { λ v w e. passes_alike (exactly N) e };
}

/// The numbers 0 to `HIGH` of an ENUMERATED.
pub struct UpTo<const HIGH: i64>;

impl<const HIGH: i64> Bound<Enumerated> for UpTo<HIGH> {
    ghost passes = { up_to HIGH };

    #[inline(always)]
    fn lets(value: &i64) -> bool {
        *value >= 0 && *value <= HIGH
    }

    ghost alike = { λ v w e. passes_alike (up_to HIGH) e };
}

/// The numbers from 0 on of an ENUMERATED that may grow.
pub struct FromZero;

impl Bound<Enumerated> for FromZero {
    ghost passes = { from_zero };

    #[inline(always)]
    fn lets(value: &i64) -> bool {
        *value >= 0
    }

    ghost alike = { λ v w e. passes_alike from_zero e };
}

/// `SIZE (N)` of an OCTET STRING.
pub struct Size<const N: u64>;

impl<const N: u64> Bound<Vec<u8>> for Size<N> {
    ghost passes = { sized (exactly N) };

    #[inline(always)]
    fn lets(value: &Vec<u8>) -> bool {
        value.len() as u64 == N
    }

    ghost alike = { λ v w e. passes_alike (λ s. exactly N (length s)) e };
}

/// `SIZE (0..MAX)` of an OCTET STRING or a SEQUENCE OF.
pub struct SizeAtMost<const MAX: u64>;

impl<const MAX: u64> Bound<Vec<u8>> for SizeAtMost<MAX> {
    ghost passes = { λ v. not (nat_lt MAX (length v.items)) };

    #[inline(always)]
    fn lets(value: &Vec<u8>) -> bool {
        value.len() as u64 <= MAX
    }

    ghost alike = { λ v w e. passes_alike (λ s. not (nat_lt MAX (length s))) e };
}

impl<N: Notation, const MAX: u64> Bound<SequenceOf<N>> for SizeAtMost<MAX> {
    ghost passes = { λ v. not (nat_lt MAX (length v.items)) };

    #[inline(always)]
    fn lets(value: &Vec<N::Value>) -> bool {
        value.len() as u64 <= MAX
    }

    ghost alike = { λ v w e. sizes_alike N.means.same (λ n. not (nat_lt MAX n)) v.items w.items e };
}

/// `SIZE (1..MAX)` of a SEQUENCE OF or a SET OF.
pub struct NotEmpty;

impl<N: Notation> Bound<SequenceOf<N>> for NotEmpty {
    ghost passes = { λ v. nat_lt 0 (length v.items) };

    #[inline(always)]
    fn lets(value: &Vec<N::Value>) -> bool {
        !value.is_empty()
    }

    ghost alike = { λ v w e. sizes_alike N.means.same (nat_lt 0) v.items w.items e };
}

impl<N: Notation> Bound<SetOf<N>> for NotEmpty {
    ghost passes = { λ v. nat_lt 0 (length v.items) };

    #[inline(always)]
    fn lets(value: &Vec<N::Value>) -> bool {
        !value.is_empty()
    }

    ghost alike = { λ v w e. set_sizes_alike N.means.same (nat_lt 0) v.items w.items e };
}
