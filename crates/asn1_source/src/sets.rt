//! The parts of a SET: the order of their tags, in which their notations are named, and why those of some SETs aren't read.

use crate::terms::{TypeName, TypeNames};
use crate::text::Text;
use asn1_types::model::{
    Body, Components, Notation, Part, Tag, TagClass, TagLayer, TagMode, TextKind,
};
use std::alloc::{AllocError, Global};

/// A part of a SEQUENCE or a SET.
#[derive(Clone, Copy)]
pub struct Listed {
    /// Its place in the module.
    pub place: usize,
    /// In a SET, the tag of its own if it is under no other one: it is chosen by a tag that is written.
    pub under: Option<TagLayer>,
}

// Why the parts of a SET aren't read.
const ADDITIONS: &str = "the components of a SET with `...` aren't read";

const ANY_PART: &str = "the components of a SET with a part that may be any element aren't read";

const CHOICE_PART: &str =
    "the components of a SET with a CHOICE of another crate, which has no tag, aren't read";

const AROUND: &str =
    "the components of a SET with a CHOICE whose tags are around that of another part aren't read";

// The number of the UNIVERSAL tag of a string.
fn text_number(kind: TextKind) -> u64 {
    match kind {
        TextKind::Utf8 => 12,
        TextKind::Numeric => 18,
        TextKind::Printable => 19,
        TextKind::Ia5 => 22,
        TextKind::Visible => 26,
        TextKind::Bmp => 30,
    }
}

// The number of the UNIVERSAL tag of a notation that names no type and has no other tag.
fn universal_number(notation: &Notation) -> Option<u64> {
    Some(match notation {
        Notation::Boolean => 1,
        Notation::Integer(_, _) => 2,
        Notation::BitString(_) | Notation::NamedBits(_, _) => 3,
        Notation::OctetString(_) => 4,
        Notation::Null => 5,
        Notation::ObjectIdentifier => 6,
        Notation::Text(kind, _) => text_number(*kind),
        Notation::UtcTime => 23,
        Notation::GeneralizedTime => 24,
        Notation::OctetsUnder(number) | Notation::ElementsUnder(number) => *number,
        Notation::SequenceOf(_, _) => 16,
        Notation::SetOf(_, _) => 17,
        Notation::Tagged(_, _)
        | Notation::Any
        | Notation::Missing
        | Notation::Defined(_)
        | Notation::Imported(_) => return None,
    })
}

// The one tag of a notation, if it has one of its own.
fn tag_of(notation: &Notation, names: &TypeNames) -> Option<Tag> {
    if let Notation::Tagged(layer, _) = notation {
        return Some(Tag {
            class: layer.class,
            number: layer.number,
        });
    }
    if let Some(number) = universal_number(notation) {
        return Some(Tag {
            class: TagClass::Universal,
            number,
        });
    }
    names.named(notation)?.own_tag
}

// The least of the tags of a part, and the greatest.
#[derive(Clone, Copy)]
struct Span {
    least: Tag,
    greatest: Tag,
}

// The span of some tags, if there are any.
fn span_of(tags: &[Tag]) -> Option<Span> {
    let first = tags.first()?;
    let mut span = Span {
        least: *first,
        greatest: *first,
    };
    for tag in tags {
        if is_before(*tag, span.least) {
            span.least = *tag;
        }
        if is_before(span.greatest, *tag) {
            span.greatest = *tag;
        }
    }
    Some(span)
}

// The span of the tags of a notation, if they are known: a tag of its own, or those of a CHOICE of this crate.
fn span_in(notation: &Notation, names: &TypeNames) -> Option<Span> {
    if let Some(tag) = tag_of(notation, names) {
        return Some(Span {
            least: tag,
            greatest: tag,
        });
    }
    let name = names.named(notation)?;
    span_of(name.choice_tags.as_slice())
}

// Whether the notation of a part is written with its tag.
fn has_written_tag(notation: &Notation, names: &TypeNames) -> bool {
    match notation {
        Notation::Tagged(_, _) | Notation::OctetsUnder(_) | Notation::ElementsUnder(_) => true,
        _ => match names.named(notation) {
            Some(name) => name.is_enumeration && !name.tags.is_empty(),
            None => false,
        },
    }
}

// The tag of a part that is written around its notation, if its notation isn't written with it.
fn layer_of(notation: &Notation, tag: Tag, names: &TypeNames) -> Option<TagLayer> {
    if has_written_tag(notation, names) {
        return None;
    }
    Some(TagLayer {
        class: tag.class,
        number: tag.number,
        mode: TagMode::Implicit,
    })
}

// The order of the classes (X.680, 8.6).
fn rank_of(class: TagClass) -> u8 {
    match class {
        TagClass::Universal => 0,
        TagClass::Application => 1,
        TagClass::ContextSpecific => 2,
        TagClass::Private => 3,
    }
}

// Whether a tag is before another one.
fn is_before(tag: Tag, other: Tag) -> bool {
    let (rank, next) = (rank_of(tag.class), rank_of(other.class));
    rank < next || (rank == next && tag.number < other.number)
}

/// Notes of the CHOICEs that are parts of a SET without a tag that they are.
pub fn mark_choices(body: &Body<'_>, names: &mut TypeNames) {
    let Body::Set(components) = body else { return };
    for part in components.parts.iter() {
        let Notation::Defined(place) = &part.notation else {
            continue
        };
        if let Some(name) = names.defined.get_mut(*place) {
            name.is_set_part = name.own_tag.is_none();
        }
    }
}

// Appends a tag in code.
fn put_tag(tag: Tag, out: &mut Text) {
    out.say("Tag { tag_class: TagClass::");
    out.say(match tag.class {
        TagClass::Universal => "Universal",
        TagClass::Application => "Application",
        TagClass::ContextSpecific => "ContextSpecific",
        TagClass::Private => "Private",
    });
    out.say(", tag_number: ");
    out.put_number(tag.number);
    out.say(" }");
}

/// Appends the tags of a CHOICE in code.
pub fn put_choice_tags(name: &TypeName, out: &mut Text) {
    for (place, tag) in name.choice_tags.iter().enumerate() {
        if place > 0 {
            out.say(", ");
        }
        put_tag(*tag, out);
    }
}

// Whether the tags of a part are around those of another one.
fn is_around(span: Span, other: Span) -> bool {
    is_before(span.least, other.least) && is_before(other.least, span.greatest)
}

// Whether tags of a part are around those of another one of these.
fn is_around_any(span: Span, parts: &[Part<'_>], names: &TypeNames) -> bool {
    for part in parts {
        if let Some(other) = span_in(&part.notation, names) {
            if is_around(span, other) {
                return true;
            }
        }
    }
    false
}

// Why a part keeps those of its SET from being read.
fn unread_part(part: &Part<'_>, parts: &[Part<'_>], names: &TypeNames) -> Option<&'static str> {
    match (&part.notation, span_in(&part.notation, names)) {
        (_, Some(span)) if is_around_any(span, parts, names) => Some(AROUND),
        (_, Some(_)) => None,
        (Notation::Any | Notation::Missing, None) => Some(ANY_PART),
        (_, None) => Some(CHOICE_PART),
    }
}

/// Why the parts of a type aren't read, if it is a SET whose elements are as they came.
pub fn unread(body: &Body<'_>, names: &TypeNames) -> Option<&'static str> {
    let Body::Set(components) = body else {
        return None;
    };
    if components.extension.is_some() {
        return Some(ADDITIONS);
    }
    for part in components.parts.iter() {
        let reason = unread_part(part, components.parts.as_slice(), names);
        if reason.is_some() {
            return reason;
        }
    }
    None
}

/// Parts in the order of the module.
pub fn in_order(alloc: Global, parts: &[Part<'_>]) -> Result<Vec<Listed>, AllocError> {
    let mut all = Vec::new(alloc);
    for place in 0..parts.len() {
        if all.push(Listed { place, under: None }).is_err() {
            return Err(AllocError);
        }
    }
    Ok(all)
}

// How many of the parts have a tag before this one.
fn count_before(parts: &[Part<'_>], tag: Tag, names: &TypeNames) -> usize {
    let mut count = 0usize;
    for part in parts {
        if let Some(other) = span_in(&part.notation, names) {
            if is_before(other.least, tag) {
                count = count.saturating_add(1);
            }
        }
    }
    count
}

// The tag that is written around the notation of a part.
fn under_of(notation: &Notation, names: &TypeNames) -> Option<TagLayer> {
    layer_of(notation, tag_of(notation, names)?, names)
}

// The part before which so many others are.
fn listed_at(parts: &[Part<'_>], before: usize, names: &TypeNames) -> Option<Listed> {
    for (place, part) in parts.iter().enumerate() {
        let Some(span) = span_in(&part.notation, names) else {
            continue
        };
        if count_before(parts, span.least, names) == before {
            let under = under_of(&part.notation, names);
            return Some(Listed { place, under });
        }
    }
    None
}

/// The parts of a SET that is read, in the order of their tags. No two have the same tag.
pub fn in_tag_order(
    alloc: Global,
    components: &Components<'_>,
    names: &TypeNames,
) -> Result<Vec<Listed>, AllocError> {
    let parts = components.parts.as_slice();
    let mut all = Vec::new(alloc);
    for before in 0..parts.len() {
        if let Some(listed) = listed_at(parts, before, names) {
            if all.push(listed).is_err() {
                return Err(AllocError);
            }
        }
    }
    Ok(all)
}
