//! What is known while the types of modules are resolved.
ghost use Rattle.std.specs.Prelude.{◌≡◌, [], IfOk, OnErr, OnOk};
ghost use Rattle.asn1_types.specs.Context.{IsAdded, IsUnchanged, context_of};
ghost use Rattle.asn1_types.specs.Tags.{environment_of};

use crate::model::{Body, Definition, Loosening, Looser, NamedNumbers, Place, TagLayer};
use crate::problem::{Rejection, Stop};
use crate::scope::{AssignmentPlace, Scope, exports_name};
use crate::tags_of_types::{TagSet, set_of_body};
use asn1_syntax::Token;
use asn1_syntax::tree::{Module, TagDefault};
use std::alloc::{AllocError, Global};

/// How far an assignment is resolved.
#[derive(Clone, Copy)]
pub enum State {
    /// It is not yet.
    Unresolved,
    /// It is being resolved.
    Open,
    /// It is the definition of this index.
    Defined(usize),
    /// It means a notation, and is the definition of this index.
    Alias(usize),
    /// It is rejected.
    Rejected,
}

/// What is known while types are resolved.
#[derive(Drop)]
pub struct Resolver<'a> {
    /// The allocator.
    pub alloc: Global,
    /// The modules.
    pub scope: Scope<'a>,
    /// Whether a type that no module gives is `Notation::Missing`. Else it is rejected.
    pub is_incomplete: bool,
    /// How far each assignment of each module is resolved.
    pub states: Vec<Vec<State>>,
    /// The definitions.
    pub definitions: Vec<Definition<'a>>,
    /// For each definition, the tags that its encodings begin with.
    pub tag_sets: Vec<TagSet>,
    /// The names of numbers and bits.
    pub named_numbers: Vec<NamedNumbers<'a>>,
    /// The assignments that are rejected.
    pub rejections: Vec<Rejection>,
    /// The definition that is being resolved.
    pub work: Work<'a>,
}

/// A definition that is being resolved.
#[derive(Drop)]
pub struct Work<'a> {
    /// The index of its assignment.
    pub assignment: usize,
    /// Whether the module exports its name.
    pub is_exported: bool,
    /// The parameters of its assignment (X.683, 8.3).
    pub parameters: &'a [Token<'a>],
    /// The names that lead to the type.
    pub path: Vec<&'a [u8]>,
    /// Where its notation accepts more than the module says.
    pub looser: Vec<Looser>,
}

// A state for each assignment of a module.
fn unresolved(alloc: Global, module: &Module<'_>) -> Result<Vec<State>, AllocError> {
    vec![in alloc; State::Unresolved; module.assignments.len()]
}

/// What is known before any type is resolved. `is_incomplete`: a type that no module gives is `Notation::Missing`.
pub fn new_resolver<'a>(
    alloc: Global,
    scope: Scope<'a>,
    is_incomplete: bool,
) -> Result<Resolver<'a>, Stop>
    ensures scope { IfOk result (λ r. r.scope ≡ scope.entry) }
    ensures incomplete { IfOk result (λ r. r.is_incomplete ≡ is_incomplete) }
    ensures definitions { IfOk result (λ r. r.definitions.items ≡ []) }
    ensures sets { IfOk result (λ r. r.tag_sets.items ≡ []) }
{
    let mut states = Vec::new(alloc);
    for module in scope.modules {
        let row = unresolved(alloc, module)?;
        states.push(row)?;
    }
    Ok(Resolver {
        alloc,
        scope,
        is_incomplete,
        states,
        definitions: Vec::new(alloc),
        tag_sets: Vec::new(alloc),
        named_numbers: Vec::new(alloc),
        rejections: Vec::new(alloc),
        work: Work {
            assignment: 0,
            is_exported: false,
            parameters: &[],
            path: Vec::new(alloc),
            looser: Vec::new(alloc),
        },
    })
}

/// How far the assignment at a place is resolved.
pub fn state_of(r: &Resolver<'_>, place: AssignmentPlace) -> State {
    match r.states.get(place.module) {
        Some(row) => match row.get(place.assignment) {
            Some(state) => *state,
            None => State::Rejected,
        },
        None => State::Rejected,
    }
}

/// Records how far the assignment at a place is resolved.
pub fn set_state(r: &mut Resolver<'_>, place: AssignmentPlace, state: State)
    ensures { IsUnchanged r.old r.new }
{
    if let Some(row) = r.states.get_mut(place.module)
        && let Some(slot) = row.get_mut(place.assignment)
    {
        *slot = state;
    }
}

/// The tags of a module (X.680, 13.2).
pub fn environment(r: &Resolver<'_>, module: usize) -> TagDefault
    ensures { result ≡ environment_of r.now.scope.modules.now «module» }
{
    match r.scope.modules.get(module) {
        Some(module) => module.tags,
        None => TagDefault::Omitted,
    }
}

/// Records that a notation accepts more than a module says.
pub fn note(r: &mut Resolver<'_>, place: Place, what: Loosening) -> Result<(), Stop>
    ensures { IsUnchanged r.old r.new }
{
    r.work.looser.push(Looser { place, what })?;
    Ok(())
}

/// Begins the definition of an assignment, and returns what was resolved before.
pub fn begin<'a>(
    r: &mut Resolver<'a>,
    place: AssignmentPlace,
    name: &'a [u8],
    parameters: &'a [Token<'a>],
) -> Result<Work<'a>, Stop>
    ensures context { context_of r.new ≡ context_of r.old }
    ensures begun { OnOk result (r.new.work.assignment ≡ place.assignment) }
    ensures before { IfOk result (λ before. before.assignment ≡ r.old.work.assignment) }
    ensures failed { OnErr result (r.new.work.assignment ≡ r.old.work.assignment) }
{
    let mut path = Vec::new(r.alloc);
    path.push(name)?;
    let is_exported = match r.scope.modules.get(place.module) {
        Some(module) => exports_name(module, name),
        None => false,
    };
    let work = Work {
        assignment: place.assignment,
        is_exported,
        parameters,
        path,
        looser: Vec::new(r.alloc),
    };
    Ok(std::mem::replace(&mut r.work, work))
}

// A copy of names.
fn copied<'a>(alloc: Global, names: &[&'a [u8]]) -> Result<Vec<&'a [u8]>, Stop> {
    let mut path = Vec::new(alloc);
    for name in names {
        path.push(*name)?;
    }
    Ok(path)
}

/// Takes what was recorded by `note`.
pub fn take_looser(r: &mut Resolver<'_>) -> Vec<Looser>
    ensures { IsUnchanged r.old r.new }
{
    std::mem::replace(&mut r.work.looser, Vec::new(r.alloc))
}

/// Adds a definition, and returns its index.
pub fn add_definition<'a>(
    r: &mut Resolver<'a>,
    place: Place,
    tags: Vec<TagLayer>,
    body: Body<'a>,
    looser: Vec<Looser>,
) -> Result<usize, Stop>
    ensures added { IfOk result (λ index. IsAdded (context_of r.old) (context_of r.new) index place r.old.work.assignment
        tags.items body.entry) }
    ensures failed { OnErr result (context_of r.new ≡ context_of r.old) }
    ensures assignment { r.new.work.assignment ≡ r.old.work.assignment }
{
    let path = copied(r.alloc, r.work.path.as_slice())?;
    let set = set_of_body(r, tags.as_slice(), &body)?;
    let index = r.definitions.len();
    let is_exported = r.work.is_exported && path.len() == 1;
    let definition = Definition {
        place,
        assignment: r.work.assignment,
        path,
        is_exported,
        tags,
        body,
        looser,
    };
    r.definitions.reserve(1)?;
    r.tag_sets.push(set)?;
    r.definitions.push(definition)?;
    Ok(index)
}
