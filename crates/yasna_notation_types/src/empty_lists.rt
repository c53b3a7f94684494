//! DEFAULT {} of SEQUENCE OF and SET OF (X.680, 25.9).
ghost use Rattle.std.specs.Prelude.{◌≡◌};
ghost use Rattle.yasna_notation_types.specs.EmptyLists.{is_empty_list, one_empty_sequence, one_empty_set};

use yasna_notation::{Notation, SequenceOf, SetOf};
use yasna_notation_constraints::TestedDefault;

/// `DEFAULT {}`, of a SEQUENCE OF or SET OF within any tags and bounds.
///
/// Of a struct with a list as its field `items`, the impl of `TestedDefault` tests that field by `has_no_items`.
pub struct EmptyList;

/// Whether a list has no items.
pub fn has_no_items<T>(items: &[T]) -> bool
    ensures { result ≡ is_empty_list items.now }
{
    match items {
        [] => true,
        [_, ..] => false,
    }
}

impl<N: Notation> TestedDefault<SequenceOf<N>> for EmptyList {
    ghost is = { λ v. is_empty_list v.items };

    #[inline(always)]
    fn is_default(value: &Vec<N::Value>) -> bool {
        has_no_items(value.as_slice())
    }

    ghost one = { one_empty_sequence N.means.same (λ v. v.items) };
}

impl<N: Notation> TestedDefault<SetOf<N>> for EmptyList {
    ghost is = { λ v. is_empty_list v.items };

    #[inline(always)]
    fn is_default(value: &Vec<N::Value>) -> bool {
        has_no_items(value.as_slice())
    }

    ghost one = { one_empty_set N.means.same (λ v. v.items) };
}
