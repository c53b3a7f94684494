//! The types and values of modules.
ghost use Rattle.std.specs.Prelude.{IfOk, false, true};
ghost use Rattle.asn1_types.specs.Context.{IsUnchanged, resolved_of};
ghost use Rattle.asn1_types.specs.Definitions.{AreResolved, Continues};

use crate::constants::constants_of;
use crate::model::{KnownType, Resolved};
use crate::plain::at;
use crate::problem::{ProblemKind, Rejection, Stop, problem_of_two, problems_of};
use crate::resolver::{Resolver, new_resolver};
use crate::scope::{AssignmentPlace, Scope, assigned_name, assignment_index};
use crate::types::{MAX_DEPTH, assign};
use asn1_syntax::Token;
use asn1_syntax::tree::{Assignment, Module};
use std::alloc::{AllocError, Global};

// Records that a name is assigned twice, if an assignment before this one has it (X.680, 13.15).
fn check_name<'a>(
    r: &mut Resolver<'a>,
    module: &'a Module<'a>,
    place: AssignmentPlace,
    name: Token<'a>,
) -> Result<(), Stop>
    ensures { IsUnchanged r.old r.new }
{
    let Some(first) = assignment_index(module, name.text) else {
        return Ok(());
    };
    let Some(other) = module.assignments.get(first) else {
        return Ok(());
    };
    if first != place.assignment {
        let here = at(place.module, name);
        let there = at(place.module, assigned_name(other));
        r.rejections.push(Rejection {
            name: here,
            problem: problem_of_two(here, there, ProblemKind::AssignedTwice),
        })?;
    }
    Ok(())
}

// Resolves an assignment of a type, if it isn't yet.
fn resolve_assignment<'a>(
    r: &mut Resolver<'a>,
    module: &'a Module<'a>,
    place: AssignmentPlace,
    assignment: &'a Assignment<'a>,
) -> Result<(), Stop>
    ensures { Continues r.old r.new }
{
    check_name(r, module, place, assigned_name(assignment))?;
    assign(r, place, MAX_DEPTH)
}

// Resolves the assignments of a module.
fn resolve_module<'a>(
    r: &mut Resolver<'a>,
    index: usize,
    module: &'a Module<'a>,
) -> Result<(), Stop>
    ensures { Continues r.old r.new }
{
    for (assignment, source) in module.assignments.iter().enumerate() {
        let place = AssignmentPlace {
            module: index,
            assignment,
        };
        resolve_assignment(r, module, place, source)?;
    }
    Ok(())
}

// The types and values of modules, unless memory runs out. `is_incomplete`: a type that no module gives is `Notation::Missing`.
fn resolved<'a>(alloc: Global, scope: Scope<'a>, is_incomplete: bool) -> Result<Resolved<'a>, Stop>
    ensures { IfOk result (λ x. AreResolved (resolved_of scope.entry.modules.now scope.entry.known.now is_incomplete x)) }
{
    let mut r = new_resolver(alloc, scope, is_incomplete)?;
    for (index, module) in scope.modules.iter().enumerate() {
        resolve_module(&mut r, index, module)?;
    }
    let constants = constants_of(alloc, scope)?;
    let mut problems = problems_of(alloc, r.rejections.as_slice())?;
    for problem in &constants.problems {
        problems.push(*problem)?;
    }
    Ok(Resolved {
        definitions: r.definitions,
        tag_sets: r.tag_sets,
        named_numbers: r.named_numbers,
        constants: constants.list,
        problems,
    })
}

/// The types and values of modules, and why types are rejected.
///
/// A name that is imported from a module that is not among them is that of a known type. No type is `Notation::Missing`.
pub fn resolve<'a>(
    alloc: Global,
    modules: &'a [Module<'a>],
    known: &'a [KnownType<'a>],
) -> Result<Resolved<'a>, AllocError>
    ensures { IfOk result (λ x. AreResolved (resolved_of modules.now known.now false x)) }
{
    match resolved(alloc, Scope { modules, known }, false) {
        Ok(resolved) => Ok(resolved),
        Err(_) => Err(AllocError),
    }
}

/// As `resolve`, of modules that aren't all given. A type whose name is one word, and that no module gives, is `Notation::Missing`. A `Looser` says so.
///
/// Such a name is rejected after COMPONENTS OF and in a selection.
pub fn resolve_incomplete<'a>(
    alloc: Global,
    modules: &'a [Module<'a>],
    known: &'a [KnownType<'a>],
) -> Result<Resolved<'a>, AllocError>
    ensures { IfOk result (λ x. AreResolved (resolved_of modules.now known.now true x)) }
{
    match resolved(alloc, Scope { modules, known }, true) {
        Ok(resolved) => Ok(resolved),
        Err(_) => Err(AllocError),
    }
}
