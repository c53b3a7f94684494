//! The tags that the encodings of types begin with, and parts that no tag distinguishes (X.680, 24.5, 26.3 and 28.3).
ghost use Rattle.std.specs.Prelude.{◌≡◌, IfOk, false, slice_get, true};
ghost use Rattle.asn1_types.specs.Untagged.{IsUntaggedAs, IsUntaggedWithin, is_untagged_known, is_untagged_set};

use crate::model::{
    Alternative, Body, Notation, Part, Place, Presence, Tag, TagClass, TagLayer, TextKind,
};
use crate::problem::{Problem, ProblemKind, Stop, problem_of_two};
use crate::resolver::Resolver;
use std::alloc::Global;

/// The tags that encodings begin with.
#[derive(Drop)]
pub struct TagSet {
    /// The tags.
    pub tags: Vec<Tag>,
    /// Whether they may begin with any tag.
    pub is_any: bool,
    /// Whether it is that of an untagged CHOICE or an open type (X.680, 30.6 c).
    pub is_untagged: bool,
}

/// A tag of the class UNIVERSAL.
fn universal(number: u64) -> Tag {
    Tag {
        class: TagClass::Universal,
        number,
    }
}

/// The tag of a layer.
pub fn tag_of(layer: TagLayer) -> Tag {
    Tag {
        class: layer.class,
        number: layer.number,
    }
}

// The number of the UNIVERSAL tag of a string.
fn text_number(kind: TextKind) -> u64 {
    match kind {
        TextKind::Utf8 => 12,
        TextKind::Numeric => 18,
        TextKind::Printable => 19,
        TextKind::Ia5 => 22,
        TextKind::Visible => 26,
        TextKind::Bmp => 30,
    }
}

// The one tag of a notation, if it has one by itself.
fn own_tag(notation: &Notation) -> Option<Tag> {
    let number = match notation {
        Notation::Boolean => 1,
        Notation::Integer(_, _) => 2,
        Notation::BitString(_) | Notation::NamedBits(_, _) => 3,
        Notation::OctetString(_) => 4,
        Notation::Null => 5,
        Notation::ObjectIdentifier => 6,
        Notation::Text(kind, _) => text_number(*kind),
        Notation::UtcTime => 23,
        Notation::GeneralizedTime => 24,
        Notation::OctetsUnder(number) | Notation::ElementsUnder(number) => *number,
        Notation::SequenceOf(_, _) => 16,
        Notation::SetOf(_, _) => 17,
        Notation::Tagged(layer, _) => return Some(tag_of(*layer)),
        Notation::Any | Notation::Missing | Notation::Defined(_) | Notation::Imported(_) => {
            return None;
        }
    };
    Some(universal(number))
}

// A set of one tag.
fn one(alloc: Global, tag: Tag) -> Result<TagSet, Stop>
    ensures { IfOk result (λ set. set.is_untagged ≡ false) }
{
    let mut tags = Vec::new(alloc);
    tags.push(tag)?;
    Ok(TagSet {
        tags,
        is_any: false,
        is_untagged: false,
    })
}

// The set of any tag.
fn any(alloc: Global) -> TagSet {
    TagSet {
        tags: Vec::new(alloc),
        is_any: true,
        is_untagged: true,
    }
}

// Appends tags.
fn push_tags(tags: &mut Vec<Tag>, more: &[Tag]) -> Result<(), Stop> {
    for tag in more {
        tags.push(*tag)?;
    }
    Ok(())
}

// A set of these tags.
fn set_from(alloc: Global, from: &[Tag], is_any: bool) -> Result<TagSet, Stop> {
    let mut tags = Vec::new(alloc);
    push_tags(&mut tags, from)?;
    Ok(TagSet {
        tags,
        is_any,
        is_untagged: false,
    })
}

// The tags that encodings of a notation begin with, whether it is untagged or not.
fn tags_of(r: &Resolver<'_>, notation: &Notation) -> Result<TagSet, Stop> {
    if let Some(tag) = own_tag(notation) {
        return one(r.alloc, tag);
    }
    match notation {
        Notation::Defined(index) => match r.tag_sets.get(*index) {
            Some(set) => set_from(r.alloc, set.tags.as_slice(), set.is_any),
            None => Err(nothing_there()),
        },
        Notation::Imported(index) => match r.scope.known.get(*index) {
            Some(known) => set_from(r.alloc, known.tags, false),
            None => Err(nothing_there()),
        },
        _ => Ok(any(r.alloc)),
    }
}

/// The tags that encodings of a notation begin with.
pub fn set_of(r: &Resolver<'_>, notation: &Notation) -> Result<TagSet, Stop>
    ensures { IfOk result (λ set. IsUntaggedAs r.now.scope.known.now r.now.tag_sets.items notation.now set.is_untagged) }
{
    let is_untagged = is_untagged(r, notation)?;
    let set = tags_of(r, notation)?;
    Ok(TagSet { is_untagged, ..set })
}

// The problem of a notation that names no definition.
fn nothing_there() -> Stop {
    Stop::Rejected(Problem {
        place: Place {
            module: 0,
            offset: 0,
        },
        kind: ProblemKind::RejectedType,
        other: None,
    })
}

// Whether a definition is of an untagged CHOICE or an open type.
fn is_untagged_definition(r: &Resolver<'_>, index: usize) -> Option<bool>
    ensures { result ≡ is_untagged_set (slice_get r.now.tag_sets.items index) }
{
    match r.tag_sets.get(index) {
        Some(set) => Some(set.is_untagged),
        None => None,
    }
}

// Whether a type of another crate is an untagged CHOICE.
fn is_untagged_known(r: &Resolver<'_>, index: usize) -> Option<bool>
    ensures { result ≡ is_untagged_known (slice_get r.now.scope.known.now index) }
{
    match r.scope.known.get(index) {
        Some(known) => Some(known.is_untagged),
        None => None,
    }
}

/// Whether a notation is of an untagged CHOICE or an open type (X.680, 30.6 c).
///
/// One that names no definition and no type of another crate is rejected.
pub fn is_untagged(r: &Resolver<'_>, notation: &Notation) -> Result<bool, Stop>
    ensures { IfOk result (IsUntaggedAs r.now.scope.known.now r.now.tag_sets.items notation.now) }
{
    match notation {
        Notation::Any => Ok(true),
        Notation::Defined(index) => match is_untagged_definition(r, *index) {
            Some(is_untagged) => Ok(is_untagged),
            None => Err(nothing_there()),
        },
        Notation::Imported(index) => match is_untagged_known(r, *index) {
            Some(is_untagged) => Ok(is_untagged),
            None => Err(nothing_there()),
        },
        _ => Ok(false),
    }
}

// The tags of all alternatives.
fn set_of_alternatives(r: &Resolver<'_>, alternatives: &[Alternative<'_>]) -> Result<TagSet, Stop>
    ensures { IfOk result (λ set. set.is_untagged ≡ true) }
{
    let mut all = TagSet {
        tags: Vec::new(r.alloc),
        is_any: false,
        is_untagged: true,
    };
    for alternative in alternatives {
        let set = set_of(r, &alternative.notation)?;
        push_tags(&mut all.tags, set.tags.as_slice())?;
        all.is_any = all.is_any || set.is_any;
    }
    Ok(all)
}

/// The tags that encodings of a definition begin with, of the tags around it and its body.
pub fn set_of_body(r: &Resolver<'_>, layers: &[TagLayer], body: &Body<'_>) -> Result<TagSet, Stop>
    ensures { IfOk result (λ set. IsUntaggedWithin r.now.scope.known.now r.now.tag_sets.items layers.now body.now set.is_untagged) }
{
    if let [outermost, ..] = layers {
        return one(r.alloc, tag_of(*outermost));
    }
    match body {
        Body::Sequence(_) => one(r.alloc, universal(16)),
        Body::Set(_) => one(r.alloc, universal(17)),
        Body::Enumerated(_) => one(r.alloc, universal(10)),
        Body::Choice(choice) => set_of_alternatives(r, choice.alternatives.as_slice()),
        Body::Value(notation) | Body::Alias(notation) => set_of(r, notation),
    }
}

/// A part, and the tags that its encodings begin with.
#[derive(Drop)]
struct PartTags {
    place: Place,
    set: TagSet,
    may_be_absent: bool,
}

// The tags of parts.
fn tags_of_parts(r: &Resolver<'_>, parts: &[Part<'_>]) -> Result<Vec<PartTags>, Stop> {
    let mut rows = Vec::new(r.alloc);
    for part in parts {
        let set = set_of(r, &part.notation)?;
        let may_be_absent = part.is_addition || !matches!(part.presence, Presence::Required);
        rows.push(PartTags {
            place: part.place,
            set,
            may_be_absent,
        })?;
    }
    Ok(rows)
}

// Whether two tags are one.
fn is_same(a: Tag, b: Tag) -> bool {
    a.class == b.class && a.number == b.number
}

// Whether tags have one in common.
fn have_common(a: &[Tag], b: &[Tag]) -> bool {
    a.iter().any(|x| b.iter().any(|y| is_same(*x, *y)))
}

// The problem that no tag distinguishes two parts.
fn clash(a: &PartTags, b: &PartTags) -> Option<Problem> {
    if a.set.is_any || b.set.is_any {
        return Some(problem_of_two(b.place, a.place, ProblemKind::AnyTag));
    }
    if have_common(a.set.tags.as_slice(), b.set.tags.as_slice()) {
        return Some(problem_of_two(b.place, a.place, ProblemKind::SameTag));
    }
    None
}

// The problem that a tag distinguishes a part from none of the parts after it, up to the first that is always there, or from none at all.
fn clash_after(part: &PartTags, after: &[PartTags], stops: bool) -> Option<Problem> {
    for other in after {
        let problem = clash(part, other);
        if problem.is_some() {
            return problem;
        }
        if stops && !other.may_be_absent {
            return None;
        }
    }
    None
}

/// Which parts a tag has to distinguish.
#[derive(Clone, Copy)]
pub enum Distinction {
    /// Those of a SEQUENCE: each that may be absent from those after it, up to the first that is always there (X.680, 24.5).
    InOrder,
    /// Those of a SET or a CHOICE: each from each other (X.680, 26.3 and 28.3).
    InAnyOrder,
}

// The first problem that no tag distinguishes two parts.
fn first_clash(rows: &[PartTags], distinction: Distinction) -> Option<Problem> {
    let stops = matches!(distinction, Distinction::InOrder);
    let mut rest = rows;
    while let [part, after @ ..] = rest {
        if part.may_be_absent || !stops {
            let problem = clash_after(part, after, stops);
            if problem.is_some() {
                return problem;
            }
        }
        rest = after;
    }
    None
}

/// Rejects parts that no tag distinguishes.
pub fn check_tags(
    r: &Resolver<'_>,
    parts: &[Part<'_>],
    distinction: Distinction,
) -> Result<(), Stop> {
    let rows = tags_of_parts(r, parts)?;
    match first_clash(rows.as_slice(), distinction) {
        Some(problem) => Err(Stop::Rejected(problem)),
        None => Ok(()),
    }
}
