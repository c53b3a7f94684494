//! Why types are rejected.
ghost use Rattle.std.specs.Prelude.{◌≡◌};
ghost use Rattle.asn1_types.specs.declared.problem.Stop.TheVariants.{Memory, Rejected};

use crate::model::Place;
use asn1_syntax::Token;
use std::alloc::{AllocError, AllocFailed, Global};

/// What is wrong with a module.
#[derive(Clone, Copy, PartialEq)]
pub enum ProblemKind {
    /// A name that the module neither assigns nor imports (X.680, 13.14).
    NotDefined,
    /// A name of a module that is neither among the modules nor known.
    ModuleMissing,
    /// A name that its module doesn't export (X.680, 13.12).
    NotExported,
    /// A name that is assigned twice (X.680, 13.15).
    AssignedTwice,
    /// A name that is defined by itself alone.
    Circular,
    /// Types that nest too deeply.
    TooDeep,
    /// A value that is no number of at most 64 bits.
    NoNumber,
    /// A value that is no object identifier.
    NoObjectIdentifier,
    /// A value in place of a type, or a type in place of a value.
    WrongAssignment,
    /// The number of a tag that is no number.
    TagNumber,
    /// Two parts that have one tag (X.680, 24.5, 26.3 and 28.3). The other one is at the second place.
    SameTag,
    /// Any element where only a tag could distinguish it from the part at the second place.
    AnyTag,
    /// Two parts, alternatives or items of one name (X.680, 24.5). The other one is at the second place.
    SameName,
    /// Two items of an ENUMERATED that have one number (X.680, 20.2).
    SameNumber,
    /// COMPONENTS OF another type than a SEQUENCE or a SET (X.680, 24.4).
    NoComponents,
    /// A selection of another type than a CHOICE, or of an alternative that it hasn't (X.680, 29).
    NoAlternative,
    /// A CHOICE or an ENUMERATED of nothing.
    Empty,
    /// A construct that has no notation.
    Unsupported,
    /// A type that is itself rejected.
    RejectedType,
}

/// Why a type is rejected.
#[derive(Clone, Copy)]
pub struct Problem {
    /// The place.
    pub place: Place,
    /// What is wrong there.
    pub kind: ProblemKind,
    /// A second place that has to do with it.
    pub other: Option<Place>,
}

/// An assignment that is rejected.
#[derive(Clone, Copy)]
pub struct Rejection {
    /// Where the name that is assigned is.
    pub name: Place,
    /// Why it is rejected.
    pub problem: Problem,
}

/// Why a type is not resolved.
#[derive(Drop)]
pub enum Stop {
    /// Memory ran out.
    Memory,
    /// The type is rejected.
    Rejected(Problem),
}

impl From<AllocError> for Stop {
    ghost from_gives = { λ _ e. e ≡ Memory };

    fn from(_error: AllocError) -> Stop {
        Stop::Memory
    }
}

impl<T: Drop> From<AllocFailed<T>> for Stop {
    ghost from_gives = { λ _ e. e ≡ Memory };

    fn from(_error: AllocFailed<T>) -> Stop {
        Stop::Memory
    }
}

impl From<Problem> for Stop {
    ghost from_gives = { λ p e. e ≡ Rejected p };

    fn from(problem: Problem) -> Stop {
        Stop::Rejected(problem)
    }
}

/// A problem at a lexical item of a module.
pub fn problem_at(module: usize, token: Token<'_>, kind: ProblemKind) -> Problem {
    Problem {
        place: Place {
            module,
            offset: token.offset,
        },
        kind,
        other: None,
    }
}

/// A problem at two places.
pub fn problem_of_two(place: Place, other: Place, kind: ProblemKind) -> Problem {
    Problem {
        place,
        kind,
        other: Some(other),
    }
}

// Whether two problems are one.
fn is_same(a: &Problem, b: &Problem) -> bool {
    a.kind == b.kind && a.place.module == b.place.module && a.place.offset == b.place.offset
}

// How far a place is after another one, in the same module.
fn distance(from: Place, to: Place) -> Option<usize> {
    if from.module == to.module {
        to.offset.checked_sub(from.offset)
    } else {
        None
    }
}

// Whether the place of a problem is in the second of two assignments rather than in the first.
fn is_nearer(problem: &Problem, first: Place, second: Place) -> bool {
    match (
        distance(first, problem.place),
        distance(second, problem.place),
    ) {
        (Some(far), Some(near)) => near < far,
        (None, Some(_)) => true,
        _ => false,
    }
}

// The problem of an assignment: that of another one, which it names, is not reported again.
fn own_problem(rejection: &Rejection, all: &[Rejection]) -> Problem {
    let is_of_another = all.iter().any(|other| {
        is_same(&other.problem, &rejection.problem)
            && is_nearer(&rejection.problem, rejection.name, other.name)
    });
    if is_of_another {
        Problem {
            place: rejection.name,
            kind: ProblemKind::RejectedType,
            other: None,
        }
    } else {
        rejection.problem
    }
}

/// Why assignments are rejected. One that has the parts of another one, or an alternative of it, has the problems in these: it is rejected for the
/// other one then, as any type that names a rejected one.
pub fn problems_of(alloc: Global, rejections: &[Rejection]) -> Result<Vec<Problem>, AllocError> {
    let mut problems = Vec::new(alloc);
    for rejection in rejections {
        problems.push(own_problem(rejection, rejections))?;
    }
    Ok(problems)
}

/// What is wrong, in words.
pub fn problem_text(kind: ProblemKind) -> &'static str {
    match kind {
        ProblemKind::NotDefined => "this name is neither assigned nor imported",
        ProblemKind::ModuleMissing => "this name is of a module that is not given",
        ProblemKind::NotExported => "this name is not exported by its module",
        ProblemKind::AssignedTwice => "this name is assigned twice",
        ProblemKind::Circular => "this name is defined by itself",
        ProblemKind::TooDeep => "types nest too deeply here",
        ProblemKind::NoNumber => "a number of at most 64 bits is expected",
        ProblemKind::NoObjectIdentifier => "an object identifier is expected",
        ProblemKind::WrongAssignment => "this name is not of a type, or not of a value",
        ProblemKind::TagNumber => "the number of a tag is expected",
        ProblemKind::SameTag => "this part has the tag of another one",
        ProblemKind::AnyTag => "no tag distinguishes this part from another one",
        ProblemKind::SameName => "this name is that of another part",
        ProblemKind::SameNumber => "this number is that of another item",
        ProblemKind::NoComponents => "a SEQUENCE or a SET is expected",
        ProblemKind::NoAlternative => "an alternative of a CHOICE is expected",
        ProblemKind::Empty => "at least one alternative or item is expected",
        ProblemKind::Unsupported => "this construct has no notation",
        ProblemKind::RejectedType => "this type is rejected",
    }
}
