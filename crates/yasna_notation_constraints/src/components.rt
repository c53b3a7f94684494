//! The parts of a SEQUENCE: mandatory ones, OPTIONAL ones, and ones with a DEFAULT.
ghost use Rattle.std.specs.Prelude.{IsTrue, ◌↔◌};
ghost use Rattle.yasna_base.specs.Canonical.{Always};
ghost use Rattle.yasna_base.specs.Default.{default_can};
ghost use Rattle.yasna_base.specs.Optional.{option_can};
ghost use Rattle.yasna_base.specs.Sequence.{part_can};
ghost use Rattle.yasna_notation_constraints.specs.Fields.{AllowsAlike};

use crate::checked::Checked;
use yasna_notation::{Default, DefaultValue, Last, Optional, Parts};

/// Parts of a SEQUENCE that can test whether their values can be written.
pub trait CheckedParts: Parts {
    /// Whether the values can be written.
    fn accept_parts(values: &Self::Values) -> bool
        ensures { IsTrue result ↔ Self.can values.now };
}

/// Parts that test values that are separate, as the fields of a struct: `R` is references to them, as pairs that end in `()`.
pub trait CheckedBy<R> {
    /// The values of the parts, which the references represent.
    type Held;

    // The values.
    ghost held: { R → Self.Held };

    // Which can be written. A call that tests them as parts requires that these are those of `Parts`.
    ghost can_by: { Self.Held → Type 0 };

    /// Whether the values can be written.
    fn accept_each(fields: &R) -> bool
        ensures { IsTrue result ↔ can_by (held fields.now) };
}

/// Whether a SEQUENCE of these fields can be written: references to them, as pairs that end in `()`.
#[inline(always)]
pub fn accepts_fields<P, R: Drop>(fields: R) -> bool
where
    P: Parts + CheckedBy<R, Held = P::Values>,
    requires { AllowsAlike P.can P.can_by }
    ensures { IsTrue result ↔ P.can (P.held fields) }
{
    P::accept_each(&fields)
}

impl CheckedParts for () {
    #[inline(always)]
    fn accept_parts(_values: &()) -> bool {
        true
    }
}

impl<A: Checked, W: CheckedParts> CheckedParts for (A, W) {
    #[inline(always)]
    fn accept_parts(values: &(A::Value, W::Values)) -> bool {
        A::accepts(&values.0) && W::accept_parts(&values.1)
    }
}

impl<A: Checked, W: CheckedParts> CheckedParts for (Optional<A>, W) {
    #[inline(always)]
    fn accept_parts(values: &(Option<A::Value>, W::Values)) -> bool {
        accepts_optional::<A>(&values.0) && W::accept_parts(&values.1)
    }
}

impl<A: Checked, D: DefaultValue<A>, W: CheckedParts> CheckedParts for (Default<A, D>, W)
where
    A::Value: Eq,
{
    #[inline(always)]
    fn accept_parts(values: &(A::Value, W::Values)) -> bool {
        accepts_default::<A, D>(&values.0) && W::accept_parts(&values.1)
    }
}

impl<A: Checked> CheckedParts for Last<A> {
    #[inline(always)]
    fn accept_parts(values: &Option<A::Value>) -> bool {
        accepts_optional::<A>(values)
    }
}

impl CheckedBy<()> for () {
    type Held = ();

    ghost held = { λ r. tt };

    ghost can_by = { Always };

    #[inline(always)]
    fn accept_each(_fields: &()) -> bool {
        true
    }
}

impl<'a, A: Checked, R, W: CheckedBy<R>> CheckedBy<(&'a A::Value, R)> for (A, W) {
    type Held = (A::Value, W::Held);

    ghost held = { λ r. (r.0.now, W.held r.1) };

    ghost can_by = { part_can A.means.can W.can_by };

    #[inline(always)]
    fn accept_each(fields: &(&'a A::Value, R)) -> bool {
        A::accepts(fields.0) && W::accept_each(&fields.1)
    }
}

impl<'a, A: Checked, R, W: CheckedBy<R>> CheckedBy<(&'a Option<A::Value>, R)> for (Optional<A>, W) {
    type Held = (Option<A::Value>, W::Held);

    ghost held = { λ r. (r.0.now, W.held r.1) };

    ghost can_by = { part_can (option_can A.means.can) W.can_by };

    #[inline(always)]
    fn accept_each(fields: &(&'a Option<A::Value>, R)) -> bool {
        accepts_optional::<A>(fields.0) && W::accept_each(&fields.1)
    }
}

impl<'a, A: Checked, D: DefaultValue<A>, R, W: CheckedBy<R>> CheckedBy<(&'a A::Value, R)>
    for (Default<A, D>, W)
where
    A::Value: Eq,
{
    type Held = (A::Value, W::Held);

    ghost held = { λ r. (r.0.now, W.held r.1) };

    ghost can_by = { part_can (default_can D.is A.means.can) W.can_by };

    #[inline(always)]
    fn accept_each(fields: &(&'a A::Value, R)) -> bool {
        accepts_default::<A, D>(fields.0) && W::accept_each(&fields.1)
    }
}

impl<'a, A: Checked> CheckedBy<&'a Option<A::Value>> for Last<A> {
    type Held = Option<A::Value>;

    ghost held = { λ r. r.now };

    ghost can_by = { λ v. part_can (option_can A.means.can) Always (v, tt {0}) };

    #[inline(always)]
    fn accept_each(fields: &&'a Option<A::Value>) -> bool {
        accepts_optional::<A>(*fields)
    }
}

/// Whether a part that may be omitted can be written.
#[inline(always)]
pub fn accepts_optional<A: Checked>(value: &Option<A::Value>) -> bool
    ensures { IsTrue result ↔ option_can A.means.can value.now }
{
    match value {
        Some(part) => A::accepts(part),
        None => true,
    }
}

/// Whether a part with a default can be written: the default, which is omitted, always can.
#[inline(always)]
pub fn accepts_default<A: Checked, D: DefaultValue<A>>(value: &A::Value) -> bool
where
    A::Value: Eq,
    ensures { IsTrue result ↔ default_can D.is A.means.can value.now }
{
    if *value == D::default() {
        return true;
    }
    A::accepts(value)
}
