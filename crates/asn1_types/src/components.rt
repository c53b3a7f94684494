//! The parts in the braces of a SEQUENCE, a SET or a CHOICE, with those of COMPONENTS OF among them (X.680, 24.4).
ghost use Rattle.std.specs.Prelude.{◌≡◌, ◌++◌, IfOk, OnOk};
ghost use Rattle.asn1_types.specs.Written.{ArePushed, AreWritten, IsNext, IsPushed, after_marker, are_additions, from_others, roots};

use crate::cores::{TypeAt, core, place_of};
use crate::problem::{Problem, ProblemKind, Stop};
use crate::scope::Scope;
use crate::tokens::is;
use asn1_syntax::Token;
use asn1_syntax::tree::{Component, Part, Presence, TypeNotation};
use std::alloc::Global;

/// Where in braces a part is, by the `...` before it (X.680, 24.1).
#[derive(Clone, Copy)]
pub enum Section {
    /// Before the first one.
    Root,
    /// After the first one.
    Additions,
    /// After the second one.
    SecondRoot,
}

/// A part as a module writes it.
#[derive(Clone, Copy)]
pub struct WrittenPart<'a> {
    /// The index of the module that writes it.
    pub module: usize,
    /// The name.
    pub name: Token<'a>,
    /// The type.
    pub notation: &'a TypeNotation<'a>,
    /// Whether it may be absent.
    pub presence: &'a Presence<'a>,
    /// Whether it is an addition after `...`.
    pub is_addition: bool,
    /// Whether it is written in these braces, and not in those of COMPONENTS OF.
    pub is_own: bool,
}

/// Parts as a module writes them.
#[derive(Drop)]
pub struct WrittenParts<'a> {
    /// The parts.
    pub parts: Vec<WrittenPart<'a>>,
    /// Where a part after them would be.
    pub section: Section,
    /// How many parts are before the second `...`.
    pub before_end: usize,
}

/// The parts in braces, through COMPONENTS OF at most `depth` times.
#[cycle(components)]
pub fn written_parts<'a>(
    alloc: Global,
    scope: Scope<'a>,
    module: usize,
    components: &'a [Component<'a, TypeNotation<'a>>],
    depth: usize,
) -> Result<WrittenParts<'a>, Stop>
    ensures { IfOk result (λ written. AreWritten scope.entry.modules.now scope.entry.known.now «module» components.now written.section written.parts.items) }
{
    let mut written = WrittenParts {
        parts: Vec::new(alloc),
        section: Section::Root,
        before_end: 0,
    };
    for component in components {
        push_component(alloc, scope, &mut written, module, component, depth)?;
    }
    Ok(written)
}

// Appends the parts that a component writes.
#[cycle(components)]
fn push_component<'a>(
    alloc: Global,
    scope: Scope<'a>,
    written: &mut WrittenParts<'a>,
    module: usize,
    component: &'a Component<'a, TypeNotation<'a>>,
    depth: usize,
) -> Result<(), Stop>
    ensures { OnOk result (IsNext scope.entry.modules.now scope.entry.known.now «module» component.now written.old.section written.old.parts.items
        written.new.section written.new.parts.items) }
{
    match &component.part {
        Part::Named(name, notation, presence) => {
            push_part(written, module, *name, notation, presence)
        }
        Part::ComponentsOf(notation) => {
            let at = TypeAt { module, notation };
            push_components(alloc, scope, written, at, depth)
        }
        Part::Extension(_) => {
            mark(written);
            Ok(())
        }
        Part::GroupStart(_) => Ok(()),
        Part::GroupEnd => Ok(()),
    }
}

// Whether parts are additions.
fn are_additions(section: Section) -> bool
    ensures { result ≡ are_additions section }
{
    matches!(section, Section::Additions)
}

// Appends a part that is written here.
fn push_part<'a>(
    written: &mut WrittenParts<'a>,
    module: usize,
    name: Token<'a>,
    notation: &'a TypeNotation<'a>,
    presence: &'a Presence<'a>,
) -> Result<(), Stop>
    ensures section { written.new.section ≡ written.old.section }
    ensures part { OnOk result (IsPushed «module» written.old.section name.entry notation.now presence.now written.old.parts.items written.new.parts.items) }
{
    let is_addition = are_additions(written.section);
    written.parts.push(WrittenPart {
        module,
        name,
        notation,
        presence,
        is_addition,
        is_own: true,
    })?;
    Ok(())
}

// Goes past `...`.
fn mark(written: &mut WrittenParts<'_>)
    ensures section { written.new.section ≡ after_marker written.old.section }
    ensures parts { written.new.parts ≡ written.old.parts }
{
    match written.section {
        Section::Root => written.section = Section::Additions,
        Section::Additions => {
            written.section = Section::SecondRoot;
            written.before_end = written.parts.len();
        }
        Section::SecondRoot => {}
    }
}

// Appends the parts of a type after COMPONENTS OF, without its additions.
#[cycle(components)]
fn push_components<'a>(
    alloc: Global,
    scope: Scope<'a>,
    written: &mut WrittenParts<'a>,
    at: TypeAt<'a>,
    depth: usize,
) -> Result<(), Stop>
    ensures section { written.new.section ≡ written.old.section }
    ensures roots { OnOk result (ArePushed scope.entry.modules.now scope.entry.known.now at.entry.module at.entry.notation.now
        written.old.parts.items written.new.parts.items) }
{
    let found = core(scope, at, true)?;
    let TypeNotation::Constructed(word, components) = found.notation else {
        return Err(no_components(at));
    };
    if depth == 0 || is(*word, b"CHOICE") {
        return Err(no_components(at));
    }
    let inner = written_parts(alloc, scope, found.module, components.as_slice(), depth - 1)?;
    push_roots(written, inner.parts.as_slice())
}

// A part as braces have it that write it elsewhere.
fn from_others<'a>(part: &WrittenPart<'a>) -> WrittenPart<'a>
    ensures { result ≡ from_others part.now }
{
    WrittenPart {
        is_own: false,
        ..*part
    }
}

// Appends parts that are no additions.
fn push_roots<'a>(written: &mut WrittenParts<'a>, parts: &[WrittenPart<'a>]) -> Result<(), Stop>
    ensures section { written.new.section ≡ written.old.section }
    ensures roots { OnOk result (written.new.parts.items ≡ written.old.parts.items ++ roots parts.now) }
{
    for part in parts {
        if !part.is_addition {
            written.parts.push(from_others(part))?;
        }
    }
    Ok(())
}

// The problem that COMPONENTS OF names another type.
fn no_components(at: TypeAt<'_>) -> Stop {
    Stop::Rejected(Problem {
        place: place_of(at),
        kind: ProblemKind::NoComponents,
        other: None,
    })
}
