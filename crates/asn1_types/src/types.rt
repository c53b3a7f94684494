//! Types, of whatever depth.
ghost use Rattle.std.specs.Prelude.{◌≡◌, IfOk, IfSome, Some, slice_get, true};
ghost use Rattle.asn1_types.specs.declared.model.Notation.TheVariants.{Defined};
ghost use Rattle.asn1_types.specs.declared.scope.Meaning.TheVariants.{Assigned};
ghost use Rattle.asn1_types.specs.Context.{IsUnchanged, context_of};
ghost use Rattle.asn1_types.specs.Definitions.{Continues, IsBodyOf, is_choice};
ghost use Rattle.asn1_types.specs.Cores.{HasAlternative, IsAlternative};
ghost use Rattle.asn1_types.specs.Names.{IsAssigned, Refers};
ghost use Rattle.asn1_types.specs.Notations.{IsBody, IsDefinedAt, IsEnumeratedAt, IsNotation, IsOwn, IsPlain, number_of_part};
ghost use Rattle.asn1_types.specs.PartsOf.{ArePartsOf, IsPartOf};

use crate::bodies::{
    body_of, extension_of, finished, layers, note_additions, note_constraints, numbers_of,
};
use crate::builtins::{Builtin, builtin_of};
use crate::components::{WrittenPart, WrittenParts, written_parts};
use crate::cores::{
    TypeAt, assigned_type, braces, core, first_word, place_of, reference_meaning, unconstrained,
    untagged,
};
use crate::enumerations::enumeration;
use crate::model::{Body, Components, Definition, Notation, Part, Place};
use crate::open_types::open_notation;
use crate::plain::{at, builtin_notation, constrained, list_of, recursive, tagged};
use crate::problem::{Problem, ProblemKind, Rejection, Stop, problem_at};
use crate::resolver::{Resolver, State, add_definition, begin, set_state, state_of, take_looser};
use crate::scope::{
    AssignmentPlace, Meaning, Scope, assigned_name, assignment_at, parameters_of, type_assigned,
};
use crate::tokens::is;
use asn1_syntax::Token;
use asn1_syntax::tree::{Component, Part as TreePart, PlainType, TypeNotation};

/// How deep types nest at most, through names.
pub const MAX_DEPTH: usize = 300;

// The problem that types nest too deeply.
fn too_deep(at: TypeAt<'_>) -> Stop {
    Stop::Rejected(Problem {
        place: place_of(at),
        kind: ProblemKind::TooDeep,
        other: None,
    })
}

/// The notation of a type. What is declared inside it becomes definitions.
#[cycle(types)]
pub fn notation<'a>(r: &mut Resolver<'a>, at: TypeAt<'a>, depth: usize) -> Result<Notation, Stop>
    ensures continues { Continues r.old r.new }
    ensures notation { IfOk result (IsNotation (context_of r.new) at.entry.module at.entry.notation.now) }
{
    if depth == 0 {
        return Err(too_deep(at));
    }
    match at.notation {
        TypeNotation::Plain(plain) => plain_notation(r, at, plain, depth - 1),
        TypeNotation::Tagged(tag, inner) => {
            let under = TypeAt {
                module: at.module,
                notation: inner,
            };
            let inner = notation(r, under, depth - 1)?;
            tagged(r, at.module, tag, inner)
        }
        TypeNotation::Selected(name, inner) => {
            let chosen = selected(r, inside(at, inner), *name)?;
            notation(r, chosen, depth - 1)
        }
        TypeNotation::ListOf(head, inner) => {
            r.work.path.push(b"item")?;
            let under = TypeAt {
                module: at.module,
                notation: inner,
            };
            let element = notation(r, under, depth - 1)?;
            r.work.path.pop();
            list_of(r, at.module, head.word, &head.size, element)
        }
        TypeNotation::Constructed(_, _) => {
            let index = define(r, at, depth - 1)?;
            Ok(Notation::Defined(index))
        }
        TypeNotation::Constrained(inner, constraints) => {
            let under = TypeAt {
                module: at.module,
                notation: inner,
            };
            let unbounded = notation(r, under, depth - 1)?;
            constrained(r, under, unbounded, constraints.as_slice())
        }
    }
}

// A type inside another one.
fn inside<'a>(at: TypeAt<'a>, notation: &'a TypeNotation<'a>) -> TypeAt<'a>
    ensures module { result.module ≡ at.entry.module }
    ensures notation { result.notation.now ≡ notation.now }
{
    TypeAt {
        module: at.module,
        notation,
    }
}

// The type of the alternative of a CHOICE that has a name (X.680, 29).
fn selected<'a>(
    r: &Resolver<'a>,
    choice: TypeAt<'a>,
    name: Token<'a>,
) -> Result<TypeAt<'a>, Problem>
    ensures { IfOk result (λ t. IsAlternative r.now.scope.modules.now r.now.scope.known.now choice.entry.module choice.entry.notation.now name.entry
        t.module t.notation.now) }
{
    let found = core(r.scope, choice, true)?;
    let problem = problem_at(choice.module, name, ProblemKind::NoAlternative);
    let TypeNotation::Constructed(word, components) = found.notation else {
        return Err(problem);
    };
    if !is(*word, b"CHOICE") {
        return Err(problem);
    }
    match named_type(components.as_slice(), name.text) {
        Some(notation) => Ok(inside(found, notation)),
        None => Err(problem),
    }
}

// The type of the part that has a name.
fn named_type<'a>(
    components: &'a [Component<'a, TypeNotation<'a>>],
    name: &[u8],
) -> Option<&'a TypeNotation<'a>>
    ensures { IfSome result (λ t. HasAlternative components.now name.now t.now) }
{
    for component in components {
        if let TreePart::Named(token, notation, _) = &component.part
            && is(*token, name)
        {
            return Some(notation);
        }
    }
    None
}

// The notation of a type that has a word of its own, or that is left open. `None` is a name.
fn own_notation<'a>(
    r: &mut Resolver<'a>,
    at: TypeAt<'a>,
    plain: &'a PlainType<'a>,
) -> Result<Option<Notation>, Stop>
    ensures continues { Continues r.old r.new }
    ensures own { IfOk result (λ found. IfSome found (IsOwn (context_of r.new) plain.now)) }
{
    let Some(word) = plain.words.first().copied() else {
        return Err(too_deep(at));
    };
    let Some(builtin) = builtin_of(word.text) else {
        return open_notation(r, at, plain);
    };
    match builtin {
        Builtin::Enumerated => {
            let index = define_enumeration(r, at)?;
            Ok(Some(Notation::Defined(index)))
        }
        _ => {
            let notation = builtin_notation(r, at, word, builtin)?;
            Ok(Some(notation))
        }
    }
}

// The notation of a type in which no other type is.
#[cycle(types)]
fn plain_notation<'a>(
    r: &mut Resolver<'a>,
    at: TypeAt<'a>,
    plain: &'a PlainType<'a>,
    depth: usize,
) -> Result<Notation, Stop>
    ensures continues { Continues r.old r.new }
    ensures notation { IfOk result (IsPlain (context_of r.new) at.entry.module plain.now) }
{
    let own = own_notation(r, at, plain)?;
    if let Some(notation) = own {
        return Ok(notation);
    }
    match reference_meaning(r.scope, at.module, plain)? {
        Meaning::Known(index) => Ok(Notation::Imported(index)),
        Meaning::Assigned(place) => reference(r, at, plain, place, depth),
    }
}

// An ENUMERATED inside another type, as a definition.
fn define_enumeration<'a>(r: &mut Resolver<'a>, at: TypeAt<'a>) -> Result<usize, Stop>
    ensures continues { Continues r.old r.new }
    ensures enumerated { IfOk result (IsEnumeratedAt (context_of r.new)) }
{
    let items = enumeration(r.alloc, r.scope, at.module, braces(at.notation))?;
    let tags = Vec::new(r.alloc);
    let looser = Vec::new(r.alloc);
    add_definition(r, place_of(at), tags, Body::Enumerated(items), looser)
}

// The type that an assignment assigns.
fn type_of<'a>(r: &Resolver<'a>, user: Place, place: AssignmentPlace) -> Result<TypeAt<'a>, Problem>
    ensures assigned { IfOk result (λ at. IsAssigned r.now.scope.modules.now place.module place.assignment at.notation.now) }
    ensures module { IfOk result (λ at. at.module ≡ place.module) }
{
    match assigned_type(r.scope, place) {
        Some(assigned) => Ok(assigned),
        None => Err(Problem {
            place: user,
            kind: ProblemKind::WrongAssignment,
            other: None,
        }),
    }
}

// The notation of a name that an assignment assigns.
#[cycle(types)]
fn reference<'a>(
    r: &mut Resolver<'a>,
    user: TypeAt<'a>,
    name: &'a PlainType<'a>,
    place: AssignmentPlace,
    depth: usize,
) -> Result<Notation, Stop>
    requires refers { Refers r.old.scope.modules.now r.old.scope.known.now user.module name.now.words.items (Assigned place) }
    ensures continues { Continues r.old r.new }
    ensures notation { IfOk result (IsPlain (context_of r.new) user.entry.module name.now) }
{
    let assigned = type_of(r, place_of(user), place)?;
    assign(r, place, depth)?;
    match state_of(r, place) {
        State::Defined(index) if is_defined_at(r, place, index) => Ok(Notation::Defined(index)),
        State::Alias(index) => aliased(r, assigned, place, index, depth),
        State::Open => {
            let inner = core(r.scope, assigned, false)?;
            recursive(r, place_of(user), inner)
        }
        _ => Err(Stop::Rejected(Problem {
            place: place_of(user),
            kind: ProblemKind::RejectedType,
            other: None,
        })),
    }
}

// The definition at an index.
fn definition_at<'r, 'a>(r: &'r Resolver<'a>, index: usize) -> Option<&'r Definition<'a>>
    ensures { IfSome result (λ d. slice_get r.now.definitions.items index ≡ Some d.now) }
{
    r.definitions.get(index)
}

// Whether the definition at an index is that of the assignment at a place.
fn is_defined_at(r: &Resolver<'_>, place: AssignmentPlace, index: usize) -> bool
    ensures { result ≡ true → IsDefinedAt (context_of r.now) place index }
{
    let Some(definition) = definition_at(r, index) else {
        return false;
    };
    let Some(assignment) = assignment_at(r.scope.modules, place) else {
        return false;
    };
    if definition.assignment != place.assignment || definition.place.module != place.module {
        return false;
    }
    definition.place.offset == assigned_name(assignment).offset
}

// The notation of a name for a notation. The parameters in it are those of its own assignment (X.683, 8.4).
#[cycle(types)]
fn aliased<'a>(
    r: &mut Resolver<'a>,
    assigned: TypeAt<'a>,
    place: AssignmentPlace,
    index: usize,
    depth: usize,
) -> Result<Notation, Stop>
    ensures continues { Continues r.old r.new }
    ensures notation { IfOk result (IsNotation (context_of r.new) assigned.entry.module assigned.entry.notation.now) }
{
    let before = enter_alias(r, place);
    let outcome = notation(r, assigned, depth);
    leave_alias(r, place, index, before);
    outcome
}

// Opens a name for a notation, and gives the parameters of who uses it.
fn enter_alias<'a>(r: &mut Resolver<'a>, place: AssignmentPlace) -> &'a [Token<'a>]
    ensures { IsUnchanged r.old r.new }
{
    let before = r.work.parameters;
    r.work.parameters = parameters_at(r.scope, place);
    set_state(r, place, State::Open);
    before
}

// Closes it again.
fn leave_alias<'a>(
    r: &mut Resolver<'a>,
    place: AssignmentPlace,
    index: usize,
    before: &'a [Token<'a>],
)
    ensures { IsUnchanged r.old r.new }
{
    set_state(r, place, State::Alias(index));
    r.work.parameters = before;
}

// The parameters of the assignment at a place.
fn parameters_at<'a>(scope: Scope<'a>, place: AssignmentPlace) -> &'a [Token<'a>] {
    match assignment_at(scope.modules, place) {
        Some(assignment) => parameters_of(assignment),
        None => &[],
    }
}

// Resolves the assignment of a type, if it isn't yet.
#[cycle(types)]
pub fn assign<'a>(r: &mut Resolver<'a>, place: AssignmentPlace, depth: usize) -> Result<(), Stop>
    ensures { Continues r.old r.new }
{
    let Some(assignment) = assignment_at(r.scope.modules, place) else {
        return Ok(());
    };
    let Some(notation) = type_assigned(assignment) else {
        return Ok(());
    };
    if !matches!(state_of(r, place), State::Unresolved) {
        return Ok(());
    }
    let name = assigned_name(assignment);
    set_state(r, place, State::Open);
    let before = begin(r, place, name.text, parameters_of(assignment))?;
    let assigned = TypeAt {
        module: place.module,
        notation,
    };
    let outcome = definition(r, assigned, at(place.module, name), depth);
    r.work = before;
    conclude(r, place, outcome)
}

// Where the name of an assignment is.
fn name_place<'a>(scope: Scope<'a>, place: AssignmentPlace) -> Place {
    match assignment_at(scope.modules, place) {
        Some(assignment) => at(place.module, assigned_name(assignment)),
        None => Place {
            module: place.module,
            offset: 0,
        },
    }
}

// Records what an assignment is resolved to, or why it is rejected.
fn conclude(
    r: &mut Resolver<'_>,
    place: AssignmentPlace,
    outcome: Result<State, Stop>,
) -> Result<(), Stop>
    ensures { IsUnchanged r.old r.new }
{
    match outcome {
        Ok(state) => {
            set_state(r, place, state);
            Ok(())
        }
        Err(Stop::Rejected(problem)) => {
            set_state(r, place, State::Rejected);
            let name = name_place(r.scope, place);
            r.rejections.push(Rejection { name, problem })?;
            Ok(())
        }
        Err(Stop::Memory) => Err(Stop::Memory),
    }
}

// Whether a type that is no SEQUENCE, SET or CHOICE is declared as a type of Rust: a list, or a tag before a name of such a type.
fn is_declared<'a>(r: &Resolver<'a>, at: TypeAt<'a>) -> bool {
    match unconstrained(at.notation) {
        TypeNotation::ListOf(_, _) => true,
        TypeNotation::Tagged(_, _) => match core(r.scope, at, true) {
            Ok(found) => matches!(
                found.notation,
                TypeNotation::ListOf(_, _) | TypeNotation::Constructed(_, _)
            ),
            Err(_) => false,
        },
        _ => false,
    }
}

// The definition of an assigned type.
#[cycle(types)]
fn definition<'a>(
    r: &mut Resolver<'a>,
    at: TypeAt<'a>,
    place: Place,
    depth: usize,
) -> Result<State, Stop>
    requires assigned { IsAssigned r.old.scope.modules.now at.module r.old.work.assignment at.notation.now }
    requires place { place.module ≡ at.module }
    ensures { Continues r.old r.new }
{
    let inner = untagged(at.notation);
    if let TypeNotation::Constructed(word, components) = inner {
        let body = body(r, at.module, *word, components.as_slice(), depth)?;
        return defined(r, at, place, body);
    }
    if is_enumerated(inner) {
        let items = enumeration(r.alloc, r.scope, at.module, braces(inner))?;
        return defined(r, at, place, Body::Enumerated(items));
    }
    let notation = notation(r, at, depth)?;
    if is_declared(r, at) {
        return declared(r, at, place, notation);
    }
    alias(r, at, place, notation)
}

// Adds the definition of a type that holds one value of a notation.
fn declared<'a>(
    r: &mut Resolver<'a>,
    at: TypeAt<'a>,
    place: Place,
    notation: Notation,
) -> Result<State, Stop>
    requires assigned { IsAssigned r.old.scope.modules.now at.module r.old.work.assignment at.notation.now }
    requires place { place.module ≡ at.module }
    requires notation { IsNotation (context_of r.old) at.module at.notation.now notation }
    ensures { Continues r.old r.new }
{
    let tags = Vec::new(r.alloc);
    let looser = take_looser(r);
    let index = add_definition(r, place, tags, Body::Value(notation), looser)?;
    Ok(State::Defined(index))
}

// Adds the definition of a name for a notation.
fn alias<'a>(
    r: &mut Resolver<'a>,
    at: TypeAt<'a>,
    place: Place,
    notation: Notation,
) -> Result<State, Stop>
    requires assigned { IsAssigned r.old.scope.modules.now at.module r.old.work.assignment at.notation.now }
    requires place { place.module ≡ at.module }
    requires notation { IsNotation (context_of r.old) at.module at.notation.now notation }
    ensures { Continues r.old r.new }
{
    let tags = Vec::new(r.alloc);
    let looser = take_looser(r);
    let index = add_definition(r, place, tags, Body::Alias(notation), looser)?;
    Ok(State::Alias(index))
}

// Whether a type is an ENUMERATED.
fn is_enumerated(notation: &TypeNotation<'_>) -> bool {
    match first_word(notation) {
        Some(word) => is(word, b"ENUMERATED"),
        None => false,
    }
}

// Adds the definition of a type that has this body within its tags.
fn defined<'a>(
    r: &mut Resolver<'a>,
    at: TypeAt<'a>,
    place: Place,
    body: Body<'a>,
) -> Result<State, Stop>
    requires assigned { IsAssigned r.old.scope.modules.now at.module r.old.work.assignment at.notation.now }
    requires place { place.module ≡ at.module }
    requires body { IsBodyOf (context_of r.old) at.module at.notation.now body }
    ensures { Continues r.old r.new }
{
    let tags = layers(r, at, is_choice(&body))?;
    note_constraints(r, at)?;
    let looser = take_looser(r);
    let index = add_definition(r, place, tags, body, looser)?;
    Ok(State::Defined(index))
}

// Whether a body is that of a CHOICE.
fn is_choice(body: &Body<'_>) -> bool
    ensures { result ≡ is_choice body.now }
{
    matches!(body, Body::Choice(_))
}

// Adds the definition of a SEQUENCE, a SET or a CHOICE inside another type.
#[cycle(types)]
fn define<'a>(r: &mut Resolver<'a>, at: TypeAt<'a>, depth: usize) -> Result<usize, Stop>
    ensures continues { Continues r.old r.new }
    ensures notation { IfOk result (λ index. IsNotation (context_of r.new) at.entry.module at.entry.notation.now (Defined index)) }
{
    let TypeNotation::Constructed(word, components) = at.notation else {
        return Err(too_deep(at));
    };
    let outer = take_looser(r);
    let body = body(r, at.module, *word, components.as_slice(), depth)?;
    let looser = take_looser(r);
    r.work.looser = outer;
    let tags = Vec::new(r.alloc);
    add_definition(r, place_of(at), tags, body, looser)
}

// The body of a SEQUENCE, a SET or a CHOICE.
#[cycle(types)]
fn body<'a>(
    r: &mut Resolver<'a>,
    module: usize,
    word: Token<'a>,
    components: &'a [Component<'a, TypeNotation<'a>>],
    depth: usize,
) -> Result<Body<'a>, Stop>
    ensures continues { Continues r.old r.new }
    ensures body { IfOk result (IsBody (context_of r.new) «module» word.entry components.now) }
{
    note_additions(r, module, word, components)?;
    let written = written_parts(r.alloc, r.scope, module, components, MAX_DEPTH)?;
    let parts = parts(r, module, &written, depth)?;
    let extension = extension_of(r, module, &written);
    body_of(r, at(module, word), word, Components { parts, extension })
}

// The parts in braces.
#[cycle(types)]
fn parts<'a>(
    r: &mut Resolver<'a>,
    module: usize,
    written: &WrittenParts<'a>,
    depth: usize,
) -> Result<Vec<Part<'a>>, Stop>
    ensures continues { Continues r.old r.new }
    ensures parts { IfOk result (λ parts. ArePartsOf (context_of r.new) «module» written.now.parts.items parts.items) }
{
    let sources = written.parts.as_slice();
    let numbers = numbers_of(r, module, sources)?;
    let mut parts = Vec::new(r.alloc);
    for index in 0..sources.len() {
        let number = number_of_part(numbers.as_slice(), index);
        let part = part(r, sources[index], number, depth)?;
        parts.push(part)?;
    }
    Ok(parts)
}

// The number at an index, if there is one.
fn number_of_part(numbers: &[Option<usize>], index: usize) -> Option<usize>
    ensures { result ≡ number_of_part numbers.now index }
{
    match numbers.get(index) {
        Some(number) => *number,
        None => None,
    }
}

// A part, with an automatic tag if it has a number.
#[cycle(types)]
fn part<'a>(
    r: &mut Resolver<'a>,
    source: WrittenPart<'a>,
    number: Option<usize>,
    depth: usize,
) -> Result<Part<'a>, Stop>
    ensures continues { Continues r.old r.new }
    ensures part { IfOk result (IsPartOf (context_of r.new) source.entry number) }
{
    r.work.path.push(source.name.text)?;
    let at = TypeAt {
        module: source.module,
        notation: source.notation,
    };
    let notation = notation(r, at, depth)?;
    r.work.path.pop();
    finished(r, source, at, notation, number)
}
