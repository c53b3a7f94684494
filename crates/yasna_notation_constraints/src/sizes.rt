//! Sizes (X.680, 51.5): `SIZE (n)`, `SIZE (low..MAX)` and `SIZE (low..high)` of any notation whose values have one.
ghost use Rattle.std.specs.Prelude.{◌≡◌, ℕ, length};
ghost use Rattle.yasna_bytes.specs.Segments.{bits_in};
ghost use Rattle.yasna_base.specs.Text.{characters};
ghost use Rattle.yasna_notation.specs.Bounded.{exactly, from_to, passes_alike};
ghost use Rattle.yasna_notation_constraints.specs.Sizes.{from_on, list_sizes, set_sizes, bit_sizes};
ghost use Rattle.std.specs.Str.{chars};
ghost use Rattle.std.proofs.Common.{ap};

use yasna_notation::{
    BitString, Bound, Bounded, Explicit, Ia5String, Implicit, Notation, NumericString,
    PrintableString, SequenceOf, SetOf, TagName, VisibleString,
};

/// A notation whose values have a size: octets, bits, characters or items.
pub trait HasSize: Notation {
    // The size of a value.
    ghost size: { Self.Value → ℕ };

    /// How many octets, bits, characters or items a value has.
    fn size(value: &Self::Value) -> usize
        ensures { result ≡ size value.now };

    // Equal values have one size.
    ghost sizes: { (v w : Self.Value) → Self.means.same v w → size v ≡ size w };
}

/// `SIZE (N)`: values of this size.
pub struct SizeIs<const N: usize>;

impl<A: HasSize, const N: usize> Bound<A> for SizeIs<N> {
    ghost passes = { λ v. exactly N (A.size v) };

    #[inline(always)]
    fn lets(value: &A::Value) -> bool {
        A::size(value) == N
    }

    ghost alike = { λ v w e. passes_alike (exactly N) (A.sizes v w e) };
}

/// `SIZE (LOW..MAX)`: values of this size or more.
pub struct SizeFrom<const LOW: usize>;

impl<A: HasSize, const LOW: usize> Bound<A> for SizeFrom<LOW> {
    ghost passes = { λ v. from_on LOW (A.size v) };

    #[inline(always)]
    fn lets(value: &A::Value) -> bool {
        A::size(value) >= LOW
    }

    ghost alike = { λ v w e. passes_alike (from_on LOW) (A.sizes v w e) };
}

/// `SIZE (LOW..HIGH)`: values of a size between these, with both ends.
pub struct SizeFromTo<const LOW: usize, const HIGH: usize>;

impl<A: HasSize, const LOW: usize, const HIGH: usize> Bound<A> for SizeFromTo<LOW, HIGH> {
    ghost passes = { λ v. from_to LOW HIGH (A.size v) };

    #[inline(always)]
    fn lets(value: &A::Value) -> bool {
        let size = A::size(value);
        size >= LOW && size <= HIGH
    }

    ghost alike = { λ v w e. passes_alike (from_to LOW HIGH) (A.sizes v w e) };
}

/// The octets of an OCTET STRING.
impl HasSize for Vec<u8> {
    ghost size = { λ v. length v.items };

    #[inline(always)]
    fn size(value: &Vec<u8>) -> usize {
        value.len()
    }

    ghost sizes = { λ v w e. ap length e };
}

/// The bits of a BIT STRING.
impl HasSize for BitString {
    ghost size = { λ v. v.1 };

    #[inline(always)]
    fn size(value: &(Vec<u8>, usize)) -> usize {
        value.1
    }

    ghost sizes = { λ v w e. bit_sizes (bits_in v) (bits_in w) e };
}

/// The items of a SEQUENCE OF.
impl<N: Notation> HasSize for SequenceOf<N> {
    ghost size = { λ v. length v.items };

    #[inline(always)]
    fn size(value: &Vec<N::Value>) -> usize {
        value.len()
    }

    ghost sizes = { λ v w e. list_sizes N.means.same v.items w.items e };
}

/// The items of a SET OF.
impl<N: Notation> HasSize for SetOf<N> {
    ghost size = { λ v. length v.items };

    #[inline(always)]
    fn size(value: &Vec<N::Value>) -> usize {
        value.len()
    }

    ghost sizes = { λ v w e. set_sizes N.means.same v.items w.items e };
}

/// The characters of a UTF8String.
impl HasSize for String {
    ghost size = { λ v. length (characters v) };

    #[inline(always)]
    fn size(value: &String) -> usize {
        count_of(value.as_str())
    }

    ghost sizes = { λ v w e. ap length e };
}

/// The characters of a PrintableString.
impl HasSize for PrintableString {
    ghost size = { λ v. length (characters v) };

    #[inline(always)]
    fn size(value: &String) -> usize {
        count_of(value.as_str())
    }

    ghost sizes = { λ v w e. ap length e };
}

/// The characters of an IA5String.
impl HasSize for Ia5String {
    ghost size = { λ v. length (characters v) };

    #[inline(always)]
    fn size(value: &String) -> usize {
        count_of(value.as_str())
    }

    ghost sizes = { λ v w e. ap length e };
}

/// The characters of a NumericString.
impl HasSize for NumericString {
    ghost size = { λ v. length (characters v) };

    #[inline(always)]
    fn size(value: &String) -> usize {
        count_of(value.as_str())
    }

    ghost sizes = { λ v w e. ap length e };
}

/// The characters of a VisibleString.
impl HasSize for VisibleString {
    ghost size = { λ v. length (characters v) };

    #[inline(always)]
    fn size(value: &String) -> usize {
        count_of(value.as_str())
    }

    ghost sizes = { λ v w e. ap length e };
}

/// A type within another bound has the sizes of its values.
impl<N: HasSize, C: Bound<N>> HasSize for Bounded<N, C> {
    ghost size = { N.size };

    #[inline(always)]
    fn size(value: &N::Value) -> usize {
        N::size(value)
    }

    ghost sizes = { N.sizes };
}

/// A type under a tag of its own has the sizes of its values.
impl<T: TagName, N: HasSize> HasSize for Explicit<T, N> {
    ghost size = { N.size };

    #[inline(always)]
    fn size(value: &N::Value) -> usize {
        N::size(value)
    }

    ghost sizes = { N.sizes };
}

/// A type under a tag in place of its own has the sizes of its values.
impl<T: TagName, N: HasSize> HasSize for Implicit<T, N> {
    ghost size = { N.size };

    #[inline(always)]
    fn size(value: &N::Value) -> usize {
        N::size(value)
    }

    ghost sizes = { N.sizes };
}

// How many characters a text has.
fn count_of(text: &str) -> usize
    ensures { result ≡ length (chars text.now) }
{
    text.chars().count()
}
