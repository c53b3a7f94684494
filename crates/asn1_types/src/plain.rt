//! Types in which no other type is, tags, and constraints of a notation.
ghost use Rattle.std.specs.Prelude.{◌≡◌, IfOk};
ghost use Rattle.asn1_types.specs.Bounds.{DiffersInBounds, IsConstrained};
ghost use Rattle.asn1_types.specs.Context.{IsUnchanged};
ghost use Rattle.asn1_types.specs.declared.builtins.Builtin.TheVariants.{Enumerated};
ghost use Rattle.asn1_types.specs.Notations.{IsAsItCame, IsElementsOf, IsListOf, IsOfBuiltin, IsUnderLayer, elements_by, list_by};
ghost use Rattle.asn1_types.specs.Tagged.{IsTaggedAutomaticallyBy, IsTaggedBy};
ghost use Rattle.asn1_types.specs.Tags.{IsTagOf, tag_site, class_named, class_written, mode_named, mode_written};
ghost use Rattle.asn1_types.specs.Values.{IsTagNumber};

use crate::builtins::Builtin;
use crate::constraints::{Names, constrain, constrain_list, loosening_of};
use crate::cores::{BracesAt, TypeAt, braces, braces_of, untagged};
use crate::integers::{ANY_SIZE, UNBOUNDED};
use crate::model::{Loosening, Notation, Place, Tag, TagClass, TagLayer, TagMode};
use crate::named_numbers::names_in;
use crate::problem::{Problem, ProblemKind, Stop, problem_at};
use crate::resolver::{Resolver, environment, note};
use crate::scope::Scope;
use crate::tags::{automatic_layer, tag_layer};
use crate::tags_of_types::is_untagged;
use crate::tokens::is;
use crate::values::number_of;
use asn1_syntax::Token;
use asn1_syntax::tree::{ListSize, TagNotation, TypeNotation};
use std::alloc::Global;

// The index of the names of numbers or bits in the braces after a type, if it has some.
fn names_after<'a>(
    r: &mut Resolver<'a>,
    at: TypeAt<'a>,
    builtin: Builtin,
) -> Result<Option<usize>, Stop>
    ensures { IsUnchanged r.old r.new }
{
    match builtin {
        Builtin::Integer | Builtin::BitString => names_in(r, at.module, braces(at.notation)),
        _ => Ok(None),
    }
}

// The notation of a type that has a word of its own, and is no ENUMERATED, with the names of this index.
fn notation_of(builtin: Builtin, names: Option<usize>) -> Notation
    ensures { (builtin ≡ Enumerated → ⊥) → IsOfBuiltin result builtin }
{
    match builtin {
        Builtin::Boolean => Notation::Boolean,
        Builtin::Null => Notation::Null,
        Builtin::Integer => Notation::Integer(UNBOUNDED, names),
        Builtin::ObjectIdentifier => Notation::ObjectIdentifier,
        Builtin::OctetString => Notation::OctetString(ANY_SIZE),
        Builtin::BitString if names.is_some() => Notation::NamedBits(ANY_SIZE, names),
        Builtin::BitString => Notation::BitString(ANY_SIZE),
        Builtin::Text(kind) => Notation::Text(kind, ANY_SIZE),
        Builtin::UtcTime => Notation::UtcTime,
        Builtin::GeneralizedTime => Notation::GeneralizedTime,
        Builtin::Octets(number, _) => Notation::OctetsUnder(number),
        Builtin::Elements(number) => Notation::ElementsUnder(number),
        Builtin::Any | Builtin::Enumerated => Notation::Any,
    }
}

// What a type that has a word of its own leaves out.
fn loosening(builtin: Builtin) -> Option<Loosening> {
    match builtin {
        Builtin::Octets(_, what) => Some(what),
        Builtin::Elements(_) => Some(Loosening::Contained),
        _ => None,
    }
}

/// The notation of a type that has a word of its own, and is no ENUMERATED.
pub fn builtin_notation<'a>(
    r: &mut Resolver<'a>,
    place: TypeAt<'a>,
    word: Token<'a>,
    builtin: Builtin,
) -> Result<Notation, Stop>
    ensures unchanged { IsUnchanged r.old r.new }
    ensures builtin { IfOk result (λ n. (builtin ≡ Enumerated → ⊥) → IsOfBuiltin n builtin) }
{
    if let Some(what) = loosening(builtin) {
        note(r, at(place.module, word), what)?;
    }
    let names = names_after(r, place, builtin)?;
    Ok(notation_of(builtin, names))
}

/// The place of a lexical item.
pub fn at(module: usize, token: Token<'_>) -> Place
    ensures { result.module ≡ «module» }
{
    Place {
        module,
        offset: token.offset,
    }
}

// The class of a word before the number of a tag.
fn class_named(word: Token<'_>) -> TagClass
    ensures { result ≡ class_named word.entry }
{
    if is(word, b"APPLICATION") {
        return TagClass::Application;
    }
    if is(word, b"PRIVATE") {
        return TagClass::Private;
    }
    TagClass::Universal
}

// The class of a tag.
fn class_of(tag: &TagNotation<'_>) -> TagClass
    ensures { result ≡ class_written tag.now.class }
{
    match tag.class {
        None => TagClass::ContextSpecific,
        Some(word) => class_named(word),
    }
}

// The mode of a word after a tag.
fn mode_named(word: Token<'_>) -> TagMode
    ensures { result ≡ mode_named word.entry }
{
    if is(word, b"IMPLICIT") {
        return TagMode::Implicit;
    }
    TagMode::Explicit
}

// The word IMPLICIT or EXPLICIT of a tag.
fn written_mode(tag: &TagNotation<'_>) -> Option<TagMode>
    ensures { result ≡ mode_written tag.now.mode }
{
    match tag.mode {
        None => None,
        Some(word) => Some(mode_named(word)),
    }
}

// The class and the number of a tag.
fn tag_number<'a>(scope: Scope<'a>, module: usize, tag: &'a TagNotation<'a>) -> Result<Tag, Problem>
    ensures class { IfOk result (λ t. t.class ≡ class_written tag.now.class) }
    ensures number { IfOk result (λ t. IsTagNumber scope.entry.modules.now scope.entry.known.now «module» tag.now.number t.number) }
{
    let number = number_of(scope, module, tag.number)?;
    if number.is_negative {
        return Err(problem_at(module, tag.number, ProblemKind::TagNumber));
    }
    Ok(Tag {
        class: class_of(tag),
        number: number.magnitude,
    })
}

/// The layer of a tag before a type, which is untagged or not.
pub fn layer<'a>(
    r: &Resolver<'a>,
    module: usize,
    tag: &'a TagNotation<'a>,
    is_untagged: bool,
) -> Result<TagLayer, Problem>
    ensures { IfOk result (IsTagOf (tag_site r.now.scope.modules.now r.now.scope.known.now «module») tag.now is_untagged) }
{
    let number = tag_number(r.scope, module, tag)?;
    Ok(tag_layer(
        environment(r, module),
        number,
        written_mode(tag),
        is_untagged,
    ))
}

/// A notation under a tag.
pub fn tagged<'a>(
    r: &Resolver<'a>,
    module: usize,
    tag: &'a TagNotation<'a>,
    inner: Notation,
) -> Result<Notation, Stop>
    ensures { IfOk result (IsTaggedBy (tag_site r.now.scope.modules.now r.now.scope.known.now «module») r.now.tag_sets.items tag.now inner) }
{
    let layer = layer(r, module, tag, is_untagged(r, &inner)?)?;
    let content = Box::new(r.alloc, inner)?;
    Ok(Notation::Tagged(layer, content))
}

/// A notation under the automatic tag of a number.
pub fn automatically_tagged(
    r: &Resolver<'_>,
    number: usize,
    inner: Notation,
) -> Result<Notation, Stop>
    ensures { IfOk result (IsTaggedAutomaticallyBy r.now.scope.known.now r.now.tag_sets.items number inner) }
{
    let layer = automatic_layer(number as u64, is_untagged(r, &inner)?);
    let content = Box::new(r.alloc, inner)?;
    Ok(Notation::Tagged(layer, content))
}

// Where the names in a constraint of a type are searched.
fn names_of<'a>(scope: Scope<'a>, at: TypeAt<'a>) -> Names<'a> {
    let found: BracesAt<'a> = braces_of(scope, at);
    Names {
        scope,
        module: at.module,
        braces_module: found.module,
        braces: found.braces,
    }
}

/// The place of the first of lexical items.
pub fn first_place(module: usize, tokens: &[Token<'_>]) -> Place {
    match tokens {
        [first, ..] => at(module, *first),
        [] => Place { module, offset: 0 },
    }
}

// Records a constraint, if the notation accepts more than it says.
fn note_constraint(
    r: &mut Resolver<'_>,
    module: usize,
    tokens: &[Token<'_>],
    accepts_more: bool,
) -> Result<(), Stop>
    ensures { IsUnchanged r.old r.new }
{
    if !accepts_more {
        return Ok(());
    }
    note(r, first_place(module, tokens), loosening_of(tokens))
}

/// A notation with the constraints after its type.
pub fn constrained<'a>(
    r: &mut Resolver<'a>,
    at: TypeAt<'a>,
    notation: Notation,
    constraints: &'a [Vec<Token<'a>>],
) -> Result<Notation, Stop>
    ensures unchanged { IsUnchanged r.old r.new }
    ensures constrained { IfOk result (IsConstrained notation) }
{
    let mut constrained = notation;
    let names = names_of(r.scope, at);
    for constraint in constraints {
        let tokens = constraint.as_slice();
        let accepts_more = constrain(names, &mut constrained, tokens);
        note_constraint(r, at.module, tokens, accepts_more)?;
    }
    Ok(constrained)
}

// The lexical items of the constraint before OF.
fn size_items<'a>(size: &'a ListSize<'a>) -> &'a [Token<'a>] {
    match size {
        ListSize::Any => &[],
        ListSize::Size(tokens) | ListSize::Constraint(tokens) => tokens.as_slice(),
    }
}

// Adds the constraint before OF to a list, and says whether the list accepts more.
fn constrain_before_of<'a>(names: Names<'a>, list: &mut Notation, size: &'a ListSize<'a>) -> bool
    ensures { DiffersInBounds list.old list.new }
{
    match size {
        ListSize::Any => false,
        ListSize::Size(tokens) => constrain_list(names, list, tokens.as_slice()),
        ListSize::Constraint(tokens) => constrain(names, list, tokens.as_slice()),
    }
}

// No lexical items.
fn no_tokens<'a>() -> &'a [Token<'a>] {
    &[]
}

// A list with the constraint before OF.
fn sized<'a>(
    r: &mut Resolver<'a>,
    module: usize,
    notation: Notation,
    size: &'a ListSize<'a>,
) -> Result<Notation, Stop>
    ensures unchanged { IsUnchanged r.old r.new }
    ensures sized { IfOk result (DiffersInBounds notation) }
{
    let mut list = notation;
    let names = Names {
        scope: r.scope,
        module,
        braces_module: module,
        braces: no_tokens(),
    };
    let accepts_more = constrain_before_of(names, &mut list, size);
    note_constraint(r, module, size_items(size), accepts_more)?;
    Ok(list)
}

/// A SEQUENCE OF or a SET OF.
pub fn list_of<'a>(
    r: &mut Resolver<'a>,
    module: usize,
    word: Token<'a>,
    size: &'a ListSize<'a>,
    element: Notation,
) -> Result<Notation, Stop>
    ensures unchanged { IsUnchanged r.old r.new }
    ensures list { IfOk result (IsListOf word.entry element) }
{
    let boxed = Box::new(r.alloc, element)?;
    sized(r, module, list_by(is(word, b"SET"), boxed), size)
}

// A SET OF or a SEQUENCE OF, of any size.
fn list_by(is_set: bool, element: Box<Notation>) -> Notation
    ensures { result ≡ list_by is_set element ANY_SIZE }
{
    if is_set {
        Notation::SetOf(element, ANY_SIZE)
    } else {
        Notation::SequenceOf(element, ANY_SIZE)
    }
}

// The elements of a SET, or else of a SEQUENCE, as they came under its tag. Of another type it is any element.
fn elements_by(is_set: bool, is_sequence: bool) -> Notation
    ensures { result ≡ elements_by is_set is_sequence }
{
    if is_set {
        return Notation::ElementsUnder(17);
    }
    if is_sequence {
        Notation::ElementsUnder(16)
    } else {
        Notation::Any
    }
}

// A type inside itself that has no tag before it, whose elements are kept as they came.
fn elements_of<'a>(notation: &'a TypeNotation<'a>) -> Notation
    ensures { IsElementsOf notation.now result }
{
    match untagged(notation) {
        TypeNotation::ListOf(head, _) => elements_by(is(head.word, b"SET"), true),
        TypeNotation::Constructed(word, _) => elements_by(
            is(*word, b"SET"),
            is(*word, b"SEQUENCE"),
        ),
        _ => Notation::Any,
    }
}

// Any elements as they came, under a tag.
fn under_tag(alloc: Global, tag: Tag) -> Result<Notation, Stop>
    ensures { IfOk result (IsUnderLayer tag.class) }
{
    let layer = TagLayer {
        class: tag.class,
        number: tag.number,
        mode: TagMode::Implicit,
    };
    let content = Box::new(alloc, Notation::ElementsUnder(16))?;
    Ok(Notation::Tagged(layer, content))
}

/// A type inside itself, whose elements are kept as they came under its outermost tag.
pub fn recursive<'a>(
    r: &mut Resolver<'a>,
    place: Place,
    inner: TypeAt<'a>,
) -> Result<Notation, Stop>
    ensures unchanged { IsUnchanged r.old r.new }
    ensures notation { IfOk result (IsAsItCame inner.entry.notation.now) }
{
    note(r, place, Loosening::Recursion)?;
    let TypeNotation::Tagged(tag, _) = inner.notation else {
        return Ok(elements_of(inner.notation));
    };
    let number = tag_number(r.scope, inner.module, tag)?;
    under_tag(r.alloc, number)
}
