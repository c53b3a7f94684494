//! Whether a value of one of these types can be written, as `yasna_notation_constraints` tests it.
//!
//! Elements as they came can always be written, under a given tag if it is theirs. A bit string without the zeros at its end can too: bits after its last octet are zeros.
ghost use Rattle.std.specs.Prelude.{IsTrue, ◌↔◌};
ghost use Rattle.std.specs.List.{AllByRecursion};
ghost use Rattle.yasna_base.specs.Canonical.{Always};
ghost use Rattle.yasna_base.specs.Default.{default_can};
ghost use Rattle.yasna_base.specs.Optional.{option_can};
ghost use Rattle.yasna_base.specs.Sequence.{part_can};
ghost use Rattle.yasna_notation_types.specs.LeastBits.{CanLeast};

use crate::any_under::AnyUnder;
use crate::beginning::Beginning;
use crate::least_bits::LeastBits;
use crate::named::{Named, Numbered};
use crate::named_bits::NamedBits;
use crate::open_choice::OpenChoice;
use crate::others::{Others, Possible};
use crate::plain_bits::PlainBits;
use crate::possible_default::PossibleDefault;
use crate::rest::Rest;
use crate::set_parts::{Set, SetParts};
use yasna_base::models::TaggedDerValue;
use yasna_notation::{BitString, DefaultValue, Either, Notation, SequenceOf, TagName};
use yasna_notation_constraints::{
    Checked, CheckedAlternatives, CheckedBy, CheckedParts, accepts_default, accepts_optional,
};

impl<E: Numbered> Checked for Named<E> {
    #[inline(always)]
    fn accepts(value: &E) -> bool {
        E::from_number(value.number()).is_some()
    }
}

impl Checked for PlainBits {
    #[inline(always)]
    fn accepts(value: &(Vec<u8>, usize)) -> bool {
        BitString::accepts(value)
    }
}

impl Checked for NamedBits {
    #[inline(always)]
    fn accepts(value: &(Vec<u8>, usize)) -> bool {
        BitString::accepts(value)
    }
}

impl Checked for LeastBits {
    #[inline(always)]
    fn accepts(value: &(Vec<u8>, usize)) -> bool {
        can_be_trimmed(value.0.as_slice(), value.1)
    }
}

// Any octets with any count of bits can be written without the zeros at their end.
#[inline(always)]
fn can_be_trimmed(octets: &[u8], count: usize) -> bool
    ensures { IsTrue result ↔ CanLeast (record { bytes = octets.now; count = count }) }
{
    let _octets = octets;
    let _ = count;
    true
}

impl<A: CheckedAlternatives> Checked for OpenChoice<A>
where
    A::Value: Drop,
{
    #[inline(always)]
    fn accepts(value: &Either<A::Value, TaggedDerValue>) -> bool {
        match value {
            Either::First(known) => A::accepts_either(known),
            Either::Second(_) => true,
        }
    }
}

impl<T: TagName> Checked for AnyUnder<T> {
    #[inline(always)]
    fn accepts(value: &TaggedDerValue) -> bool {
        <AnyUnder<T> as Notation>::has_tag(value.tag())
    }
}

impl<P: SetParts + CheckedParts> Checked for Set<P>
where
    P::Values: Drop,
{
    #[inline(always)]
    fn accepts(value: &P::Values) -> bool {
        P::accept_parts(value)
    }
}

impl<N: Checked> CheckedParts for Rest<N> {
    #[inline(always)]
    fn accept_parts(values: &Vec<N::Value>) -> bool {
        SequenceOf::<N>::accepts(values)
    }
}

impl<'a, N: Checked> CheckedBy<&'a Vec<N::Value>> for Rest<N> {
    type Held = Vec<N::Value>;

    ghost held = { λ r. r.now };

    ghost can_by = { λ v. AllByRecursion N.means.can v.items };

    #[inline(always)]
    fn accept_each(fields: &&'a Vec<N::Value>) -> bool {
        SequenceOf::<N>::accepts(*fields)
    }
}

impl<X: Notation> CheckedParts for Others<X> {
    #[inline(always)]
    fn accept_parts(values: &Vec<TaggedDerValue>) -> bool {
        SequenceOf::<TaggedDerValue>::accepts(values)
    }
}

impl<'a, X: Notation> CheckedBy<&'a Vec<TaggedDerValue>> for Others<X> {
    type Held = Vec<TaggedDerValue>;

    ghost held = { λ r. r.now };

    ghost can_by = { λ v. AllByRecursion Always v.items };

    #[inline(always)]
    fn accept_each(fields: &&'a Vec<TaggedDerValue>) -> bool {
        SequenceOf::<TaggedDerValue>::accepts(*fields)
    }
}

impl<A: Checked, W: Beginning + CheckedParts> CheckedParts for Possible<A, W> {
    #[inline(always)]
    fn accept_parts(values: &(Option<A::Value>, W::Values)) -> bool {
        accepts_optional::<A>(&values.0) && W::accept_parts(&values.1)
    }
}

impl<'a, A: Checked, R, W: CheckedBy<R>> CheckedBy<(&'a Option<A::Value>, R)> for Possible<A, W> {
    type Held = (Option<A::Value>, W::Held);

    ghost held = { λ r. (r.0.now, W.held r.1) };

    ghost can_by = { part_can (option_can A.means.can) W.can_by };

    #[inline(always)]
    fn accept_each(fields: &(&'a Option<A::Value>, R)) -> bool {
        accepts_optional::<A>(fields.0) && W::accept_each(&fields.1)
    }
}

impl<A: Checked, D: DefaultValue<A>, W: Beginning + CheckedParts> CheckedParts
    for PossibleDefault<A, D, W>
where
    A::Value: Eq,
{
    #[inline(always)]
    fn accept_parts(values: &(A::Value, W::Values)) -> bool {
        accepts_default::<A, D>(&values.0) && W::accept_parts(&values.1)
    }
}

impl<'a, A: Checked, D: DefaultValue<A>, R, W: CheckedBy<R>> CheckedBy<(&'a A::Value, R)>
    for PossibleDefault<A, D, W>
where
    A::Value: Eq,
{
    type Held = (A::Value, W::Held);

    ghost held = { λ r. (r.0.now, W.held r.1) };

    ghost can_by = { part_can (default_can D.is A.means.can) W.can_by };

    #[inline(always)]
    fn accept_each(fields: &(&'a A::Value, R)) -> bool {
        accepts_default::<A, D>(fields.0) && W::accept_each(&fields.1)
    }
}
