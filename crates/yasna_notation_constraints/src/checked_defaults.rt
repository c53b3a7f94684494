//! Whether parts with a tested default can be written.
ghost use Rattle.std.specs.Prelude.{IsTrue, ◌↔◌};
ghost use Rattle.yasna_base.specs.Default.{default_can};
ghost use Rattle.yasna_base.specs.Sequence.{part_can};
ghost use Rattle.yasna_notation_constraints.specs.OrDefault.{or_default_can};

use crate::checked::Checked;
use crate::components::{CheckedBy, CheckedParts};
use crate::or_default::OrDefault;
use crate::tested_defaults::TestedDefault;

impl<A: Checked, D: TestedDefault<A>, W: CheckedParts> CheckedParts for OrDefault<A, D, W> {
    #[inline(always)]
    fn accept_parts(values: &(Option<A::Value>, W::Values)) -> bool {
        accepts_or_default::<A, D>(&values.0) && W::accept_parts(&values.1)
    }
}

impl<'a, A: Checked, D: TestedDefault<A>, R, W: CheckedBy<R>> CheckedBy<(&'a Option<A::Value>, R)>
    for OrDefault<A, D, W> {
    type Held = (Option<A::Value>, W::Held);

    ghost held = { λ r. (r.0.now, W.held r.1) };

    ghost can_by = { part_can (or_default_can D.is A.means.can) W.can_by };

    #[inline(always)]
    fn accept_each(fields: &(&'a Option<A::Value>, R)) -> bool {
        accepts_or_default::<A, D>(fields.0) && W::accept_each(&fields.1)
    }
}

/// Whether a part with a tested default can be written: the default, which is omitted, always can.
#[inline(always)]
pub fn accepts_or_default<A: Checked, D: TestedDefault<A>>(value: &Option<A::Value>) -> bool
    ensures { IsTrue result ↔ or_default_can D.is A.means.can value.now }
{
    match value {
        Some(part) => accepts_other::<A, D>(part),
        None => true,
    }
}

// Whether a value that is there can be written: the default always can.
#[inline(always)]
fn accepts_other<A: Checked, D: TestedDefault<A>>(part: &A::Value) -> bool
    ensures { IsTrue result ↔ default_can D.is A.means.can part.now }
{
    if D::is_default(part) {
        return true;
    }
    A::accepts(part)
}
