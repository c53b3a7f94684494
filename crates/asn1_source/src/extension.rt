//! The end of an extensible SEQUENCE: parts that may be absent, and after them the elements that this version doesn't know.
//!
//! | Mark | Represents |
//! |---|---|
//! | `@m` | the test for the tags by which what follows a part may begin |
//! | `@l`, `@w` | the law of what follows, and the term that it begins by such tags |
//!
//! All other marks are those of `parts`.

use crate::defaults::has_tested_default;
use crate::open_choices::may_be_absent;
use crate::parts::{Field, Fields, put_mark};
use crate::terms::TypeNames;
use crate::text::Text;
use asn1_types::model::{Components, Notation, Part, Presence};

// The most parts that may be absent, of an extensible SEQUENCE.
const MOST_POSSIBLE: usize = 5;

// The place after the last part that is always there.
fn end_of_mandatory(parts: &[Part<'_>]) -> usize {
    let mut end = 0usize;
    for (place, part) in parts.iter().enumerate() {
        if !may_be_absent(part) {
            end = place.saturating_add(1);
        }
    }
    end
}

// Whether tags distinguish these parts from any other element.
fn are_tagged(parts: &[Part<'_>]) -> bool {
    for part in parts {
        if matches!(&part.notation, Notation::Any | Notation::Missing) {
            return false;
        }
    }
    true
}

/// The place after the last mandatory part of a SEQUENCE whose values hold the elements that a later version adds. `None` if it rejects such
/// elements, or none may be there.
pub fn tail_of(components: &Components<'_>) -> Option<usize> {
    let parts = components.parts.as_slice();
    let place = components.extension?;
    let start = end_of_mandatory(parts);
    let tail = parts.get(start..)?;
    if place == parts.len() && tail.len() <= MOST_POSSIBLE && are_tagged(tail) {
        Some(start)
    } else {
        None
    }
}

// The terms of what follows a part.
#[derive(Drop)]
struct Terms {
    may: Text,
    law: Text,
    within: Text,
}

// The texts of a part that may be absent.
struct Steps {
    law: &'static str,
    within: &'static str,
}

static POSSIBLE: Steps = Steps {
    law: "(possible @m refl @L.own @l @w)",
    within: "(possible_within @m @L.own @w)",
};

static POSSIBLE_DEFAULT: Steps = Steps {
    law: "(possible_default @m @I @E @T refl @L.own @l @w)",
    within: "(possible_default_begins {tags_known = true} {a = true} {b = true} true @m @I (λ _. @L.own) (λ _. @w) refl)",
};

const MAY: &str = "(possible_may ⟦<@N as Notation>⟧.means.tags @m)";

// The terms of elements with none of the tags of the parts before them.
fn others(out: &Text) -> Terms {
    let (mut may, mut law, mut within) = (out.another(), out.another(), out.another());
    may.say("(other_may ⟦<Omitted as Notation>⟧.means.tags)");
    law.say("(others_laws ⟦<Omitted as Notation>⟧.means.tags any_lawful.own)");
    within.say("(others_within ⟦<Omitted as Notation>⟧.means.tags any_lawful.own.coding)");
    Terms { may, law, within }
}

fn put_term(term: &Text, out: &mut Text) {
    out.put(term.as_slice());
    if term.is_cut() {
        out.cut();
    }
}

// The text of a part before what these terms are of.
fn step(text: &str, field: &Field<'_, '_>, terms: &Terms, names: &TypeNames) -> Text {
    let mut out = terms.law.another();
    let mut is_mark = false;
    for octet in text.as_bytes() {
        if is_mark {
            match *octet {
                b'm' => put_term(&terms.may, &mut out),
                b'l' => put_term(&terms.law, &mut out),
                b'w' => put_term(&terms.within, &mut out),
                other => put_mark(other, field, names, &mut out),
            }
            is_mark = false;
        } else if *octet == b'@' {
            is_mark = true;
        } else {
            out.put_octet(*octet);
        }
    }
    out
}

fn steps_of(part: &Part<'_>) -> &'static Steps {
    match &part.presence {
        Presence::Default(_) if !has_tested_default(part) => &POSSIBLE_DEFAULT,
        _ => &POSSIBLE,
    }
}

/// Appends the term of the law of the parts from a place on, and of the elements after them.
pub fn put_tail_law(fields: &Fields<'_, '_>, start: usize, names: &TypeNames, out: &mut Text) {
    let count = fields.count().saturating_sub(start);
    if count == 0 {
        out.say("(rest_laws (any_law refl).own)");
        return;
    }
    let mut terms = others(out);
    for back in 1..count.saturating_add(1) {
        let place = fields.count().saturating_sub(back);
        let Some(field) = fields.at(place) else { break };
        let steps = steps_of(field.part);
        let law = step(steps.law, &field, &terms, names);
        let within = step(steps.within, &field, &terms, names);
        let may = step(MAY, &field, &terms, names);
        terms = Terms { may, law, within };
    }
    put_term(&terms.law, out);
}

/// Appends the alias of the parts from a place on: their tags are those of no element after them.
pub fn put_omitted(fields: &Fields<'_, '_>, start: usize, names: &TypeNames, out: &mut Text) {
    let count = fields.count();
    if start >= count {
        return;
    }
    out.say("type Omitted = Choice<");
    for place in start..count {
        let Some(field) = fields.at(place) else { break };
        out.say("(");
        put_mark(b'N', &field, names, out);
        out.say(if place + 1 < count { ", " } else { ",)" });
    }
    out.repeat(")", count - start - 1);
    out.say(">;\n\n");
}
