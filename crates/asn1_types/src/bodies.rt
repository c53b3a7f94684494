//! The tags, the parts and the bodies of SEQUENCEs, SETs and CHOICEs.
ghost use Rattle.std.specs.Prelude.{◌≡◌, [], IfOk, OnOk, map, not};
ghost use Rattle.std.specs.List.{enumerate_from};
ghost use Rattle.asn1_types.specs.Context.{IsUnchanged};
ghost use Rattle.asn1_types.specs.Layers.{AreLayers};
ghost use Rattle.asn1_types.specs.Numbers.{AreNumbers, has_own_tag, is_added, number_at};
ghost use Rattle.asn1_types.specs.Notations.{HasParts, alternative_of};
ghost use Rattle.asn1_types.specs.Parts.{IsFinished};
ghost use Rattle.asn1_types.specs.Presence.{KeepsPresence};
ghost use Rattle.asn1_types.specs.Tagged.{IsTaggedIf};
ghost use Rattle.asn1_types.specs.Tags.{tag_site, environment_of};
ghost use Rattle.asn1_types.specs.Trees.{both, has_tag_before};

use crate::additions::untied_addition;
use crate::components::{Section, WrittenPart, WrittenParts};
use crate::constraints::loosening_of;
use crate::cores::{TypeAt, is_tagged};
use crate::defaults::default_value;
use crate::model::{
    Alternative, Alternatives, Body, Components, Loosening, Notation, Part, Place, Presence,
    TagLayer,
};
use crate::plain::{at, automatically_tagged, first_place, layer};
use crate::problem::{Problem, ProblemKind, Stop, problem_of_two};
use crate::resolver::{Resolver, environment, note};
use crate::tags::{automatic_number, is_tagged_automatically};
use crate::tags_of_types::{Distinction, check_tags};
use crate::tokens::is;
use asn1_syntax::Token;
use asn1_syntax::tree::{Component, Presence as WrittenPresence, TypeNotation};
use std::alloc::{AllocError, Global};

// Whether the tag before a type is before an untagged CHOICE, of whether the type without its tags is a CHOICE.
fn is_before_choice<'a>(is_choice: bool, inner: &'a TypeNotation<'a>) -> bool
    ensures { result ≡ both is_choice (not (has_tag_before inner.now)) }
{
    is_choice && !is_tagged(inner)
}

// Appends the layers of the tags before a type.
#[tactic(auto, using(crate::proofs::Layered::plain_ends, crate::proofs::Layered::selected_ends, crate::proofs::Layered::list_ends, crate::proofs::Layered::constructed_ends))]
fn push_layers<'a>(
    r: &Resolver<'a>,
    module: usize,
    notation: &'a TypeNotation<'a>,
    is_choice: bool,
    layers: &mut Vec<TagLayer>,
) -> Result<(), Stop>
    ensures { OnOk result (AreLayers (tag_site r.now.scope.modules.now r.now.scope.known.now «module») is_choice
        layers.old.items notation.now layers.new.items) }
{
    match notation {
        TypeNotation::Tagged(tag, inner) => {
            let next = layer(r, module, tag, is_before_choice(is_choice, inner))?;
            layers.push(next)?;
            push_layers(r, module, inner, is_choice, layers)?;
            Ok(())
        }
        TypeNotation::Constrained(inner, _) => {
            push_layers(r, module, inner, is_choice, layers)?;
            Ok(())
        }
        TypeNotation::Plain(_) => Ok(()),
        TypeNotation::Selected(_, _) => Ok(()),
        TypeNotation::ListOf(_, _) => Ok(()),
        TypeNotation::Constructed(_, _) => Ok(()),
    }
}

/// The layers of the tags before a type, outermost first, of whether the type without its tags is a CHOICE.
pub fn layers<'a>(r: &Resolver<'a>, at: TypeAt<'a>, is_choice: bool) -> Result<Vec<TagLayer>, Stop>
    ensures { IfOk result (λ layers. AreLayers (tag_site r.now.scope.modules.now r.now.scope.known.now at.entry.module) is_choice
        [] at.entry.notation.now layers.items) }
{
    let mut layers = Vec::new(r.alloc);
    push_layers(r, at.module, at.notation, is_choice, &mut layers)?;
    Ok(layers)
}

/// Records the constraints of a SEQUENCE, a SET, a CHOICE or an ENUMERATED.
pub fn note_constraints<'a>(r: &mut Resolver<'a>, at: TypeAt<'a>) -> Result<(), Stop>
    ensures { IsUnchanged r.old r.new }
{
    let mut rest = at.notation;
    loop {
        rest = match rest {
            TypeNotation::Tagged(_, inner) => &**inner,
            TypeNotation::Constrained(inner, constraints) => {
                note_each(r, at.module, constraints.as_slice())?;
                &**inner
            }
            _ => return Ok(()),
        };
    }
}

/// How many parts are before the elements that a later version may add.
pub fn extension_of(r: &Resolver<'_>, module: usize, written: &WrittenParts<'_>) -> Option<usize> {
    match written.section {
        Section::Root if is_extensible(r, module) => Some(written.parts.len()),
        Section::Root => None,
        Section::Additions => Some(written.parts.len()),
        Section::SecondRoot => Some(written.before_end),
    }
}

// Whether EXTENSIBILITY IMPLIED holds in a module (X.680, 13.4).
fn is_extensible(r: &Resolver<'_>, module: usize) -> bool {
    match r.scope.modules.get(module) {
        Some(module) => module.extensible,
        None => false,
    }
}

// Whether a part is written with a tag in these braces.
fn has_tag(part: &WrittenPart<'_>) -> bool
    ensures { result ≡ has_own_tag part.now }
{
    part.is_own && is_tagged(part.notation)
}

// For each part, whether it is written with a tag in these braces.
fn tagged_parts(alloc: Global, parts: &[WrittenPart<'_>]) -> Result<Vec<bool>, AllocError>
    ensures { IfOk result (λ flags. flags.items ≡ map has_own_tag parts.now) }
{
    parts.iter().map(|part| has_tag(part)).collect(alloc)
}

// For each part, whether it is an addition.
fn additions(alloc: Global, parts: &[WrittenPart<'_>]) -> Result<Vec<bool>, AllocError>
    ensures { IfOk result (λ flags. flags.items ≡ map is_added parts.now) }
{
    parts.iter().map(|part| part.is_addition).collect(alloc)
}

// The number of the automatic tag of the part at an index, if parts are tagged automatically.
fn number_at(
    is_automatic: bool,
    additions: &[bool],
    index: usize,
    part: &WrittenPart<'_>,
) -> Option<usize>
    ensures { result ≡ number_at is_automatic additions.now (index, part.now) }
{
    if !is_automatic {
        return None;
    }
    let before = &additions[..index.min(additions.len())];
    Some(automatic_number(before, additions, part.is_addition))
}

// The numbers of the automatic tags of parts, of which of them are additions, and whether they are tagged automatically.
fn numbers_among(
    alloc: Global,
    parts: &[WrittenPart<'_>],
    additions: &[bool],
    is_automatic: bool,
) -> Result<Vec<Option<usize>>, AllocError>
    ensures { IfOk result (λ numbers. numbers.items ≡ map (number_at is_automatic additions.now) (enumerate_from 0 parts.now)) }
{
    parts
        .iter()
        .enumerate()
        .map(|(index, part)| number_at(is_automatic, additions, index, part))
        .collect(alloc)
}

/// The numbers of the automatic tags of parts, if they are tagged automatically (X.680, 24.2 and 24.7).
pub fn numbers_of(
    r: &Resolver<'_>,
    module: usize,
    parts: &[WrittenPart<'_>],
) -> Result<Vec<Option<usize>>, Stop>
    ensures { IfOk result (λ numbers. AreNumbers (environment_of r.now.scope.modules.now «module») parts.now numbers.items) }
{
    let tagged = tagged_parts(r.alloc, parts)?;
    let is_addition = additions(r.alloc, parts)?;
    let is_automatic = is_tagged_automatically(environment(r, module), tagged.as_slice());
    let numbers = numbers_among(r.alloc, parts, is_addition.as_slice(), is_automatic)?;
    Ok(numbers)
}

// Records constraints that are not tested.
fn note_each<'a>(
    r: &mut Resolver<'a>,
    module: usize,
    constraints: &'a [Vec<Token<'a>>],
) -> Result<(), Stop>
    ensures { IsUnchanged r.old r.new }
{
    for constraint in constraints {
        let tokens = constraint.as_slice();
        note(r, first_place(module, tokens), loosening_of(tokens))?;
    }
    Ok(())
}

// Whether a part may be absent. A DEFAULT without a `DefaultValue` is OPTIONAL.
fn presence_of<'a>(
    r: &mut Resolver<'a>,
    source: WrittenPart<'a>,
    at: TypeAt<'a>,
    notation: &Notation,
) -> Result<Presence<'a>, Stop>
    ensures unchanged { IsUnchanged r.old r.new }
    ensures presence { IfOk result (λ presence. KeepsPresence source.entry.presence.now presence) }
{
    match source.presence {
        WrittenPresence::Required => Ok(Presence::Required),
        WrittenPresence::Optional => Ok(Presence::Optional),
        WrittenPresence::Default(value) => {
            let value = value.as_slice();
            if let Some(default) = default_value(r, at, notation, value)? {
                return Ok(Presence::Default(default));
            }
            note(r, first_place(source.module, value), Loosening::Default)?;
            Ok(Presence::Optional)
        }
    }
}

// A notation, under an automatic tag if it has a number.
fn tagged_if(r: &Resolver<'_>, number: Option<usize>, inner: Notation) -> Result<Notation, Stop>
    ensures { IfOk result (IsTaggedIf r.now.scope.known.now r.now.tag_sets.items number inner) }
{
    match number {
        Some(number) => automatically_tagged(r, number, inner),
        None => Ok(inner),
    }
}

/// A part of a type that is resolved, with an automatic tag if it has a number.
pub fn finished<'a>(
    r: &mut Resolver<'a>,
    source: WrittenPart<'a>,
    written: TypeAt<'a>,
    notation: Notation,
    number: Option<usize>,
) -> Result<Part<'a>, Stop>
    ensures unchanged { IsUnchanged r.old r.new }
    ensures finished { IfOk result (IsFinished r.new.scope.known.now r.new.tag_sets.items source.entry number notation) }
{
    let presence = presence_of(r, source, written, &notation)?;
    let notation = tagged_if(r, number, notation)?;
    Ok(Part {
        place: at(source.module, source.name),
        name: source.name.text,
        notation,
        presence,
        is_addition: source.is_addition,
    })
}

// Rejects two parts of one name (X.680, 24.5, 26.2 and 28.2).
fn check_names(parts: &[Part<'_>]) -> Result<(), Problem> {
    let mut rest = parts;
    while let [part, after @ ..] = rest {
        if let Some(other) = after.iter().find(|other| other.name == part.name) {
            return Err(problem_of_two(other.place, part.place, ProblemKind::SameName));
        }
        rest = after;
    }
    Ok(())
}

// The alternatives of a CHOICE, of parts.
fn alternatives_of<'a>(
    r: &Resolver<'a>,
    components: Components<'a>,
) -> Result<Alternatives<'a>, Stop>
    ensures { IfOk result (λ choice. choice.alternatives.items ≡ map alternative_of components.entry.parts.items) }
{
    let Components { parts, extension } = components;
    let mut alternatives = Vec::new(r.alloc);
    for part in parts {
        alternatives.push(Alternative {
            place: part.place,
            name: part.name,
            notation: part.notation,
            is_addition: part.is_addition,
        })?;
    }
    Ok(Alternatives {
        alternatives,
        is_extensible: extension.is_some(),
    })
}

/// Notes that an addition of a SEQUENCE or a SET may be absent where its version has it.
pub fn note_additions<'a>(
    r: &mut Resolver<'a>,
    module: usize,
    word: Token<'a>,
    components: &'a [Component<'a, TypeNotation<'a>>],
) -> Result<(), Stop>
    ensures { IsUnchanged r.old r.new }
{
    match untied_addition(components) {
        Some(name) if !is(word, b"CHOICE") => note(r, at(module, name), Loosening::Additions),
        _ => Ok(()),
    }
}

/// The body of this word and these parts. Their names and tags have to be distinct.
pub fn body_of<'a>(
    r: &Resolver<'a>,
    place: Place,
    word: Token<'a>,
    components: Components<'a>,
) -> Result<Body<'a>, Stop>
    ensures { IfOk result (HasParts word.entry components.entry.parts.items) }
{
    check_names(components.parts.as_slice())?;
    if is(word, b"SEQUENCE") {
        check_tags(r, components.parts.as_slice(), Distinction::InOrder)?;
        return Ok(Body::Sequence(components));
    }
    check_tags(r, components.parts.as_slice(), Distinction::InAnyOrder)?;
    if is(word, b"SET") {
        return Ok(Body::Set(components));
    }
    if components.parts.is_empty() {
        return Err(Stop::Rejected(Problem {
            place,
            kind: ProblemKind::Empty,
            other: None,
        }));
    }
    let alternatives = alternatives_of(r, components)?;
    Ok(Body::Choice(alternatives))
}
