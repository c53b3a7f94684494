//! Bounds made of two others (X.680, 50): `(C ^ D)` and `(C | D)`.
ghost use Rattle.std.specs.Prelude.{◌≡◌, ◌&&◌, ◌||◌};
ghost use Rattle.yasna_notation_constraints.specs.Combined.{both_alike, any_alike};

use std::marker::PhantomData;
use yasna_notation::{Bound, Notation};

/// `(C ^ D)`, or one constraint after the other: the values that both allow.
pub struct Both<C, D> {
    first: PhantomData<C>,
    second: PhantomData<D>,
}

impl<N: Notation, C: Bound<N>, D: Bound<N>> Bound<N> for Both<C, D> {
    ghost passes = { λ v. (C.passes v && D.passes v) };

    #[inline(always)]
    fn lets(value: &N::Value) -> bool {
        C::lets(value) && D::lets(value)
    }

    ghost alike = { λ v w e. both_alike (C.alike v w e) (D.alike v w e) };
}

/// `(C | D)`: the values that one of them allows.
pub struct AnyOf<C, D> {
    first: PhantomData<C>,
    second: PhantomData<D>,
}

impl<N: Notation, C: Bound<N>, D: Bound<N>> Bound<N> for AnyOf<C, D> {
    ghost passes = { λ v. (C.passes v || D.passes v) };

    #[inline(always)]
    fn lets(value: &N::Value) -> bool {
        C::lets(value) || D::lets(value)
    }

    ghost alike = { λ v w e. any_alike (C.alike v w e) (D.alike v w e) };
}
