//! The type that a name means, through names, tags and constraints.
ghost use Rattle.std.specs.Prelude.{◌≡◌, IfOk, IfSome};
ghost use Rattle.asn1_types.specs.Cores.{IsNameOf, MeansType};
ghost use Rattle.asn1_types.specs.Names.{IsAssigned, Refers};
ghost use Rattle.asn1_types.specs.Trees.{IsWithin, has_tag_before};

use crate::builtins::builtin_of;
use crate::model::Place;
use crate::problem::{Problem, ProblemKind, problem_at};
use crate::scope::{
    AssignmentPlace, Meaning, Scope, assignment_at, external_meaning, meaning_of, type_assigned,
};
use crate::tokens::is;
use asn1_syntax::tree::{PlainType, TypeNotation};
use asn1_syntax::{Token, TokenKind};

// How many names in a row mean one type at most.
const MAX_NAMES: usize = 100;

/// A type, and the index of the module that it is in.
#[derive(Clone, Copy)]
pub struct TypeAt<'a> {
    /// The index of the module.
    pub module: usize,
    /// The type.
    pub notation: &'a TypeNotation<'a>,
}

/// Whether a type is written with a tag.
#[tactic(auto, using(crate::proofs::TagsBefore::tag_at_tagged, crate::proofs::TagsBefore::tag_at_constrained, crate::proofs::TagsBefore::tag_at_plain, crate::proofs::TagsBefore::tag_at_selected, crate::proofs::TagsBefore::tag_at_list, crate::proofs::TagsBefore::tag_at_constructed))]
pub fn is_tagged<'a>(notation: &'a TypeNotation<'a>) -> bool
    ensures { result ≡ has_tag_before notation.now }
{
    match notation {
        TypeNotation::Tagged(_, _) => true,
        TypeNotation::Constrained(inner, _) => is_tagged(inner),
        TypeNotation::Plain(_) => false,
        TypeNotation::Selected(_, _) => false,
        TypeNotation::ListOf(_, _) => false,
        TypeNotation::Constructed(_, _) => false,
    }
}

/// A type without the constraints after it.
pub fn unconstrained<'a>(notation: &'a TypeNotation<'a>) -> &'a TypeNotation<'a>
    ensures { IsWithin notation.now result.now }
{
    let mut at = notation;
    while let TypeNotation::Constrained(inner, _) = at {
        at = &**inner;
    }
    at
}

/// A type without the tags before it and the constraints after it.
pub fn untagged<'a>(notation: &'a TypeNotation<'a>) -> &'a TypeNotation<'a>
    ensures { IsWithin notation.now result.now }
{
    let mut at = notation;
    loop {
        at = match at {
            TypeNotation::Tagged(_, inner) => &**inner,
            TypeNotation::Constrained(inner, _) => &**inner,
            _ => return at,
        };
    }
}

// A type without the constraints after it, and, if `tags_too`, without the tags before it.
fn stripped<'a>(notation: &'a TypeNotation<'a>, tags_too: bool) -> &'a TypeNotation<'a>
    ensures { IsWithin notation.now result.now }
{
    if tags_too {
        untagged(notation)
    } else {
        unconstrained(notation)
    }
}

/// The first word of a type in which no other type is.
pub fn first_word<'a>(notation: &TypeNotation<'a>) -> Option<Token<'a>> {
    match notation {
        TypeNotation::Plain(plain) => plain.words.first().copied(),
        _ => None,
    }
}

/// What a reference means: a name, or the name of a module, `.` and a name.
pub fn reference_meaning<'a>(
    scope: Scope<'a>,
    module: usize,
    plain: &'a PlainType<'a>,
) -> Result<Meaning, Problem>
    ensures { IfOk result (Refers scope.entry.modules.now scope.entry.known.now «module» plain.now.words.items) }
{
    match plain.words.as_slice() {
        [name] => meaning_of(scope, module, *name),
        [from, dot, name] if is(*dot, b".") => external_meaning(scope, module, *from, *name),
        [first, ..] => Err(problem_at(module, *first, ProblemKind::Unsupported)),
        [] => Err(Problem {
            place: Place { module, offset: 0 },
            kind: ProblemKind::Unsupported,
            other: None,
        }),
    }
}

/// The type that an assignment gives a name.
pub fn assigned_type<'a>(scope: Scope<'a>, place: AssignmentPlace) -> Option<TypeAt<'a>>
    ensures assigned { IfSome result (λ at. IsAssigned scope.entry.modules.now place.module place.assignment at.notation.now) }
    ensures module { IfSome result (λ at. at.module ≡ place.module) }
{
    let notation = type_assigned(assignment_at(scope.modules, place)?)?;
    Some(TypeAt {
        module: place.module,
        notation,
    })
}

// Whether a type is a name of a type.
fn is_reference(notation: &TypeNotation<'_>) -> bool {
    match first_word(notation) {
        Some(word) => { word.kind == TokenKind::TypeReference && builtin_of(word.text).is_none() }
        None => false,
    }
}

// The type that a reference means, or `None` if it is a known type.
fn referred<'a>(scope: Scope<'a>, at: TypeAt<'a>) -> Result<Option<TypeAt<'a>>, Problem>
    ensures { IfOk result (λ found. IfSome found (λ next. IsNameOf scope.entry.modules.now scope.entry.known.now at.entry.module at.entry.notation.now
        next.module next.notation.now)) }
{
    let TypeNotation::Plain(plain) = at.notation else {
        return Ok(None);
    };
    match reference_meaning(scope, at.module, plain)? {
        Meaning::Assigned(place) => Ok(assigned_type(scope, place)),
        Meaning::Known(_) => Ok(None),
    }
}

/// The type that a type means through names and constraints, and, if `tags_too`, through tags. A known type stays a name.
pub fn core<'a>(scope: Scope<'a>, start: TypeAt<'a>, tags_too: bool) -> Result<TypeAt<'a>, Problem>
    ensures { IfOk result (λ found. MeansType scope.entry.modules.now scope.entry.known.now start.entry.module start.entry.notation.now
        found.module found.notation.now) }
{
    let mut at = start;
    for _ in 0..MAX_NAMES {
        let notation = stripped(at.notation, tags_too);
        at = TypeAt {
            module: at.module,
            notation,
        };
        if !is_reference(notation) {
            return Ok(at);
        }
        match referred(scope, at)? {
            Some(next) => at = next,
            None => return Ok(at),
        }
    }
    Err(circular(at))
}

// The problem that names mean one another.
fn circular(at: TypeAt<'_>) -> Problem {
    Problem {
        place: place_of(at),
        kind: ProblemKind::Circular,
        other: None,
    }
}

/// The place of the first lexical item of a type.
pub fn place_of<'a>(at: TypeAt<'a>) -> Place {
    Place {
        module: at.module,
        offset: first_offset(at.notation),
    }
}

// The offset of the first word of a type after its tags, or of its tag's number.
fn first_offset<'a>(notation: &'a TypeNotation<'a>) -> usize {
    match unconstrained(notation) {
        TypeNotation::Tagged(tag, _) => tag.number.offset,
        TypeNotation::Selected(name, _) => name.offset,
        TypeNotation::ListOf(head, _) => head.word.offset,
        TypeNotation::Constructed(word, _) => word.offset,
        notation => match first_word(notation) {
            Some(word) => word.offset,
            None => 0,
        },
    }
}

/// What is in the braces of the INTEGER or BIT STRING that a type means, and the module that it is in.
pub fn braces_of<'a>(scope: Scope<'a>, at: TypeAt<'a>) -> BracesAt<'a> {
    let found = match core(scope, at, true) {
        Ok(found) => found,
        Err(_) => at,
    };
    BracesAt {
        module: found.module,
        braces: braces(found.notation),
    }
}

/// What is in braces, and the index of the module that it is in.
#[derive(Clone, Copy)]
pub struct BracesAt<'a> {
    /// The index of the module.
    pub module: usize,
    /// What is in the braces.
    pub braces: &'a [Token<'a>],
}

/// What is in the braces after the words of a type.
pub fn braces<'a>(notation: &'a TypeNotation<'a>) -> &'a [Token<'a>] {
    match notation {
        TypeNotation::Plain(plain) => match &plain.braces {
            Some(tokens) => tokens.as_slice(),
            None => &[],
        },
        _ => &[],
    }
}
