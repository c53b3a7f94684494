//! What a name means in a module (X.680, 13.10 to 13.17).
ghost use Rattle.std.specs.Prelude.{◌≡◌, IfOk, IfSome, Some, slice_get};
ghost use Rattle.asn1_types.specs.Names.{IsImportedFrom, IsStep, IsStepFrom, Means, MeansFrom, assigned_by, assigned_index, assignment_there, exports, imports_name, known_index, module_index, name_of};

use crate::model::KnownType;
use crate::problem::{Problem, ProblemKind, problem_at};
use crate::tokens::{has_text, is};
use asn1_syntax::Token;
use asn1_syntax::tree::{Assignment, Import, Module, TypeNotation};

/// The modules that are resolved, and the types of other crates.
#[derive(Clone, Copy)]
pub struct Scope<'a> {
    /// The modules.
    pub modules: &'a [Module<'a>],
    /// The types of other crates.
    pub known: &'a [KnownType<'a>],
}

/// Where an assignment is.
#[derive(Clone, Copy)]
pub struct AssignmentPlace {
    /// The index of its module.
    pub module: usize,
    /// Its index in the module.
    pub assignment: usize,
}

/// What a name means.
#[derive(Clone, Copy)]
pub enum Meaning {
    /// What an assignment assigns.
    Assigned(AssignmentPlace),
    /// A known type, by its index.
    Known(usize),
}

/// The name that is assigned.
pub fn assigned_name<'a>(assignment: &Assignment<'a>) -> Token<'a>
    ensures { result ≡ name_of assignment.now }
{
    match assignment {
        Assignment::Type(name, _)
        | Assignment::Value(name, _, _)
        | Assignment::ParameterizedType(name, _, _)
        | Assignment::ParameterizedValue(name, _, _, _)
        | Assignment::Class(name, _, _) => *name,
    }
}

/// The type that an assignment assigns, with parameters or without.
pub fn type_assigned<'a>(assignment: &'a Assignment<'a>) -> Option<&'a TypeNotation<'a>>
    ensures { IfSome result (λ t. assigned_by assignment.now ≡ Some t.now) }
{
    match assignment {
        Assignment::Type(_, notation) => Some(notation),
        Assignment::ParameterizedType(_, _, notation) => Some(notation),
        _ => None,
    }
}

/// The parameters of an assignment.
pub fn parameters_of<'a>(assignment: &'a Assignment<'a>) -> &'a [Token<'a>] {
    match assignment {
        Assignment::ParameterizedType(_, parameters, _) => parameters.as_slice(),
        _ => &[],
    }
}

/// The index of the assignment of a name in a module.
pub fn assignment_index(module: &Module<'_>, name: &[u8]) -> Option<usize>
    ensures { result ≡ assigned_index name.now «module».now }
{
    module
        .assignments
        .iter()
        .position(|assignment| is(assigned_name(assignment), name))
}

/// The assignment at a place.
pub fn assignment_at<'a>(
    modules: &'a [Module<'a>],
    place: AssignmentPlace,
) -> Option<&'a Assignment<'a>>
    ensures { IfSome result (λ x. assignment_there (slice_get modules.now place.module) place.assignment ≡ Some x.now) }
{
    let module = modules.get(place.module)?;
    module.assignments.get(place.assignment)
}

// The module at an index.
fn module_at<'a>(modules: &'a [Module<'a>], index: usize) -> Option<&'a Module<'a>>
    ensures { IfSome result (λ m. slice_get modules.now index ≡ Some m.now) }
{
    modules.get(index)
}

// The index of the module of a name.
fn module_index(modules: &[Module<'_>], name: &[u8]) -> Option<usize>
    ensures { result ≡ module_index name.now modules.now }
{
    modules.iter().position(|module| is(module.name, name))
}

// Whether a name is among those that are imported from one module.
fn imports_name(import: &Import<'_>, name: &[u8]) -> bool
    ensures { result ≡ imports_name name.now import.now }
{
    is(import.first, name) || has_text(import.others.as_slice(), name)
}

// The name of the module that a name is imported from.
fn imported_from<'a>(module: &Module<'a>, name: &[u8]) -> Option<Token<'a>>
    ensures { IfSome result (λ from. IsImportedFrom «module».now name.now from.text.now) }
{
    let Some(imports) = &module.imports else {
        return None;
    };
    for import in imports {
        if imports_name(import, name) {
            return Some(import.module);
        }
    }
    None
}

/// Whether a module exports a name (X.680, 13.12).
pub fn exports_name(module: &Module<'_>, name: &[u8]) -> bool
    ensures { result ≡ exports name.now «module».now.exports }
{
    match &module.exports {
        None => true,
        Some(names) => has_text(names.as_slice(), name) || has_text(names.as_slice(), b"ALL"),
    }
}

// The known type of a module and a name.
fn known_index(known: &[KnownType<'_>], module: &[u8], name: &[u8]) -> Option<usize>
    ensures { result ≡ known_index «module».now name.now known.now }
{
    known
        .iter()
        .position(|row| row.module == module && row.name == name)
}

// What a name means that is imported from a module, or the index of that module.
fn imported<'a>(
    scope: Scope<'a>,
    module: usize,
    from: Token<'a>,
    name: Token<'a>,
) -> Result<Step, Problem>
    ensures { IfOk result (IsStepFrom scope.entry.modules.now scope.entry.known.now name.entry.text.now from.entry.text.now) }
{
    match known_index(scope.known, from.text, name.text) {
        Some(index) => Ok(Step::Known(index)),
        None => match module_index(scope.modules, from.text) {
            None => Err(problem_at(module, name, ProblemKind::ModuleMissing)),
            Some(index) => match module_at(scope.modules, index) {
                Some(exporter) if exports_name(exporter, name.text) => Ok(Step::Module(index)),
                _ => Err(problem_at(module, name, ProblemKind::NotExported)),
            },
        },
    }
}

// One step of a search for a name.
#[derive(Clone, Copy)]
enum Step {
    // It is assigned in the module.
    Assigned(AssignmentPlace),
    // It is a known type.
    Known(usize),
    // It is to be searched in another module.
    Module(usize),
}

// The step of a search for a name in a module.
fn next_step<'a>(
    scope: Scope<'a>,
    module: usize,
    user: usize,
    name: Token<'a>,
) -> Result<Step, Problem>
    ensures { IfOk result (IsStep scope.entry.modules.now scope.entry.known.now name.entry.text.now «module») }
{
    let Some(here) = module_at(scope.modules, module) else {
        return Err(problem_at(user, name, ProblemKind::ModuleMissing));
    };
    match assignment_index(here, name.text) {
        Some(assignment) => Ok(Step::Assigned(AssignmentPlace { module, assignment })),
        None => match imported_from(here, name.text) {
            Some(from) => imported(scope, user, from, name),
            None => Err(problem_at(user, name, ProblemKind::NotDefined)),
        },
    }
}

// What a name means in a module, on behalf of a module that names it.
fn meaning_in<'a>(
    scope: Scope<'a>,
    module: usize,
    user: usize,
    name: Token<'a>,
) -> Result<Meaning, Problem>
    ensures { IfOk result (Means scope.entry.modules.now scope.entry.known.now name.entry.text.now «module») }
{
    let mut at = module;
    for _ in 0..scope.modules.len() {
        match next_step(scope, at, user, name)? {
            Step::Assigned(place) => return Ok(Meaning::Assigned(place)),
            Step::Known(index) => return Ok(Meaning::Known(index)),
            Step::Module(next) => at = next,
        }
    }
    Err(problem_at(user, name, ProblemKind::Circular))
}

/// What a name means in a module. The name may be imported through several modules.
pub fn meaning_of<'a>(scope: Scope<'a>, module: usize, name: Token<'a>) -> Result<Meaning, Problem>
    ensures { IfOk result (Means scope.entry.modules.now scope.entry.known.now name.entry.text.now «module») }
{
    meaning_in(scope, module, module, name)
}

/// What a name means that has its module before it, as `Module.Type` (X.680, 14.6).
pub fn external_meaning<'a>(
    scope: Scope<'a>,
    module: usize,
    from: Token<'a>,
    name: Token<'a>,
) -> Result<Meaning, Problem>
    ensures { IfOk result (MeansFrom scope.entry.modules.now scope.entry.known.now name.entry.text.now from.entry.text.now) }
{
    match imported(scope, module, from, name)? {
        Step::Module(index) => meaning_in(scope, index, module, name),
        Step::Known(index) => Ok(Meaning::Known(index)),
        Step::Assigned(place) => Ok(Meaning::Assigned(place)),
    }
}
