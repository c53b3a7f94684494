//! Types that are made of others: bounds, tags, SEQUENCE, SEQUENCE OF, SET OF and CHOICE.
ghost use Rattle.std.specs.Prelude.{IsTrue, ◌↔◌};
ghost use Rattle.std.specs.List.{AllByRecursion};

use crate::alternatives::CheckedAlternatives;
use crate::checked::Checked;
use crate::components::CheckedParts;
use yasna_notation::{
    Bound, Bounded, Choice, Explicit, Implicit, Sequence, SequenceOf, SetOf, TagName,
};

impl<N: Checked, C: Bound<N>> Checked for Bounded<N, C> {
    #[inline(always)]
    fn accepts(value: &N::Value) -> bool {
        N::accepts(value) && C::lets(value)
    }
}

impl<T: TagName, N: Checked> Checked for Explicit<T, N> {
    #[inline(always)]
    fn accepts(value: &N::Value) -> bool {
        N::accepts(value)
    }
}

impl<T: TagName, N: Checked> Checked for Implicit<T, N> {
    #[inline(always)]
    fn accepts(value: &N::Value) -> bool {
        N::accepts(value)
    }
}

impl<N: Checked> Checked for SequenceOf<N> {
    #[inline(always)]
    fn accepts(value: &Vec<N::Value>) -> bool {
        accepts_each::<N>(value.as_slice())
    }
}

impl<N: Checked> Checked for SetOf<N> {
    #[inline(always)]
    fn accepts(value: &Vec<N::Value>) -> bool {
        accepts_each::<N>(value.as_slice())
    }
}

// Whether each of the values can be written.
fn accepts_each<N: Checked>(values: &[N::Value]) -> bool
    ensures { IsTrue result ↔ AllByRecursion N.means.can values.now }
{
    values.iter().all(|value| N::accepts(value))
}

impl<P: CheckedParts> Checked for Sequence<P>
where
    P::Values: Drop,
{
    #[inline(always)]
    fn accepts(value: &P::Values) -> bool {
        P::accept_parts(value)
    }
}

impl<A: CheckedAlternatives> Checked for Choice<A>
where
    A::Value: Drop,
{
    #[inline(always)]
    fn accepts(value: &A::Value) -> bool {
        A::accepts_either(value)
    }
}
