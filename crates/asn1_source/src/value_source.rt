//! The source of a type that holds one value.

use crate::alternatives::{before_tag, put_waiting_tag, put_waiting_tags};
use crate::sequence_source::set_bodies;
use crate::template::Fragments;
use crate::templates::VALUE_BODIES;
use crate::terms::{Aspect, TypeNames, put_notation, put_under};
use crate::text::Text;
use asn1_types::model::{Notation, TagLayer};

// Sets a mark to a text of a notation.
fn set_notation(
    fragments: &mut Fragments,
    mark: u8,
    notation: &Notation,
    aspect: Aspect,
    names: &TypeNames,
) {
    let mut text = fragments.text();
    put_notation(notation, aspect, false, names, &mut text);
    fragments.set(mark, text);
}

// Whether the values of a notation are a list.
fn is_list(notation: &Notation) -> bool {
    let mut current = notation;
    while let Notation::Tagged(_, inner) = current {
        current = &**inner;
    }
    match current {
        Notation::SequenceOf(_, _) | Notation::SetOf(_, _) => true,
        _ => false,
    }
}

// Sets the marks of a source to those of a type of one value, of which `T`, `V`, `L`, `C` and `Z` are set.
fn set_rest(fragments: &mut Fragments, field: &[u8]) {
    fragments.set_octets(b'F', field);
    fragments.set_octets(b'P', field);
    fragments.set_filled(b'A', "type Notated = @T;\n\n");
    fragments.set_filled(
        b'S',
        "#[derive(Drop)]\npub struct @N {\n    pub @F: @V,\n}\n",
    );
    fragments.set_filled(b'v', "λ v. v.@F");
    fragments.set_filled(b'f', "@N { @F }");
    let is_element = fragments.get(b'Z').starts_with("(λ n w.".as_bytes());
    if is_element {
        fragments.set_octets(b'M', "λ u m v. element_non_empty _ _ _ _".as_bytes());
    } else {
        fragments.set_filled(b'M', "λ u m v. @Z m v.@F");
    }
    set_bodies(&VALUE_BODIES, fragments);
}

// Whether a notation is a type with a name, under tags.
fn is_named_under_tags(notation: &Notation) -> bool {
    let mut current = notation;
    while let Notation::Tagged(_, inner) = current {
        current = &**inner;
    }
    match (notation, current) {
        (Notation::Tagged(_, _), Notation::Defined(_) | Notation::Imported(_)) => true,
        _ => false,
    }
}

// A term that no encoding is empty, with the implicit tag that waits at a type with a name, which the checker doesn't find.
fn with_waiting_tag(term: Text, notation: &Notation) -> Text {
    let mut text = term.another();
    let Some(before) = before_tag(term.as_slice()) else {
        return term;
    };
    text.put(before);
    put_waiting_tag(notation, &mut text);
    text.say(")");
    if term.is_cut() {
        text.cut();
    }
    text
}

// Sets `Z` to the term that no encoding of a notation is empty.
fn set_non_empty(fragments: &mut Fragments, notation: &Notation, names: &TypeNames) {
    let mut term = fragments.text();
    put_notation(notation, Aspect::NonEmpty, false, names, &mut term);
    if is_named_under_tags(notation) {
        term = with_waiting_tag(term, notation);
    }
    fragments.set(b'Z', term);
}

/// Sets the marks of a source to those of a type that holds one value of a notation.
pub fn set_value(fragments: &mut Fragments, notation: &Notation, names: &TypeNames) {
    set_notation(fragments, b'T', notation, Aspect::Notation, names);
    set_notation(fragments, b'V', notation, Aspect::Value, names);
    set_notation(fragments, b'L', notation, Aspect::Law, names);
    set_notation(fragments, b'C', notation, Aspect::Written, names);
    set_non_empty(fragments, notation, names);
    set_rest(
        fragments,
        if is_list(notation) {
            b"items"
        } else {
            b"value"
        },
    );
}

// Sets a mark to a text under tags.
fn set_under(fragments: &mut Fragments, mark: u8, tags: &[TagLayer], aspect: Aspect, inner: u8) {
    let mut text = fragments.text();
    put_under(tags, aspect, fragments.get(inner), &mut text);
    fragments.set(mark, text);
}

/// Sets the marks of a source to those of a type under tags, of which `B` is the name and `J` what the names of its laws begin with.
pub fn set_tagged(fragments: &mut Fragments, tags: &[TagLayer]) {
    fragments.set_filled(b'i', "(@J_law refl)");
    fragments.set_filled(b'j', "(@J_written refl)");
    let mut waiting = fragments.text();
    put_waiting_tags(tags, &mut waiting);
    fragments.set(b'u', waiting);
    fragments.set_filled(b'k', "(@J_non_empty @u)");
    set_under(fragments, b'T', tags, Aspect::Notation, b'B');
    fragments.set_filled(b'V', "@B");
    set_under(fragments, b'L', tags, Aspect::Law, b'i');
    set_under(fragments, b'C', tags, Aspect::Written, b'j');
    set_under(fragments, b'Z', tags, Aspect::NonEmpty, b'k');
    set_rest(fragments, b"value");
}
