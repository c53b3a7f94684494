//! The source of a SEQUENCE or a SET.

use crate::extension::put_omitted;
use crate::parts::*;
use crate::template::Fragments;
use crate::templates::{Bodies, EXPLICIT_BODIES, IMPLICIT_BODIES, SEQUENCE_BODIES, SET_BODIES};
use crate::terms::{Aspect, TypeNames, put_under};
use crate::text::Text;
use asn1_types::model::{TagClass, TagLayer, TagMode};
use std::alloc::Global;

/// The parts that follow those of a file, by one name. All texts are empty if none follow.
#[derive(Drop)]
pub struct RestName {
    /// The name, which is also the type of their values.
    pub name: Vec<u8>,
    /// Their file.
    pub file: Vec<u8>,
    /// The number of their file: 2 for the parts after the first ones.
    pub number: usize,
    /// The lines that bring in the name, and those of the parts that follow these in turn.
    pub lines: Vec<u8>,
    /// A pattern of their values.
    pub pattern: Vec<u8>,
    /// Their values in a clause, as those of a struct's fields.
    pub value_of: Vec<u8>,
    /// Their values in a clause, as those of the fields that a reference leads to.
    pub held: Vec<u8>,
}

// The end of a listing, or the name of the parts that follow.
fn end_of(
    alloc: Global,
    rest: &RestName,
    listing: &'static Listing,
    before: &str,
    after: &str,
    of_file: bool,
) -> Text {
    let mut text = Text::new(alloc);
    if rest.name.is_empty() {
        text.say(listing.end);
        return text;
    }
    text.say(before);
    if of_file {
        text.put(rest.file.as_slice());
    } else {
        text.put(rest.name.as_slice());
    }
    text.say(after);
    text
}

// Sets a mark to parts as a listing says, before this end.
fn set_listed(
    fragments: &mut Fragments,
    mark: u8,
    listing: &'static Listing,
    fields: &Fields<'_, '_>,
    end: &Text,
    names: &TypeNames,
) {
    let mut text = fragments.text();
    put_parts(listing, fields, end.as_slice(), names, &mut text);
    if end.is_cut() {
        text.cut();
    }
    fragments.set(mark, text);
}

/// Sets `T` to the notations of parts, `U` for its values, `Q` for the term of its law and `X` for that of its law of writing. `z` is an alias that
/// the notations name. `h` is the term of the law of the parts of a SET.
pub fn set_run_texts(
    alloc: Global,
    fragments: &mut Fragments,
    fields: &Fields<'_, '_>,
    rest: &RestName,
    names: &TypeNames,
) {
    let end = end_of(alloc, rest, &NOTATIONS, "", "", false);
    set_listed(fragments, b'T', &NOTATIONS, fields, &end, names);
    let end = end_of(alloc, rest, &VALUES, "", "", false);
    set_listed(fragments, b'U', &VALUES, fields, &end, names);
    let end = end_of(alloc, rest, &LAW, "(", "_parts refl)", true);
    set_listed(fragments, b'Q', &LAW, fields, &end, names);
    let end = end_of(alloc, rest, &WRITTEN, "(", "_written refl)", true);
    set_listed(fragments, b'X', &WRITTEN, fields, &end, names);
    if fields.is_set {
        let end = end_of(alloc, rest, &SET_LAW, "(", "_set refl)", true);
        set_listed(fragments, b'h', &SET_LAW, fields, &end, names);
    }
    let mut omitted = Text::new(alloc);
    if let Some(start) = fields.tail {
        put_omitted(fields, start, names, &mut omitted);
    }
    fragments.set(b'z', omitted);
}

/// Sets a mark to parts as a listing says, before a text with marks that were set before if others follow.
pub fn set_before(
    fragments: &mut Fragments,
    mark: u8,
    listing: &'static Listing,
    fields: &Fields<'_, '_>,
    rest: &RestName,
    following: &str,
    names: &TypeNames,
) {
    let mut end = fragments.text();
    if rest.name.is_empty() {
        end.say(listing.end);
    } else {
        fragments.fill(following, &mut end);
    }
    set_listed(fragments, mark, listing, fields, &end, names);
}

/// Sets a mark to all parts as a listing says.
pub fn set_all(
    fragments: &mut Fragments,
    mark: u8,
    listing: &'static Listing,
    fields: &Fields<'_, '_>,
    names: &TypeNames,
) {
    let mut text = fragments.text();
    put_parts(listing, fields, listing.end.as_bytes(), names, &mut text);
    fragments.set(mark, text);
}

// Appends the name of a tag in code.
fn put_tag_name(tag: TagLayer, out: &mut Text) {
    out.say(match tag.class {
        TagClass::Universal => "Universal<",
        TagClass::Application => "Application<",
        TagClass::ContextSpecific => "Context<",
        TagClass::Private => "Private<",
    });
    out.put_number(tag.number);
    out.say(">");
}

/// How the fields of a SEQUENCE under a tag are written.
pub fn bodies_of(tags: &[TagLayer], fragments: &mut Fragments) -> &'static Bodies {
    let Some(tag) = tags.first() else {
        return &SEQUENCE_BODIES;
    };
    let mut name = fragments.text();
    put_tag_name(*tag, &mut name);
    fragments.set(b't', name);
    match tag.mode {
        TagMode::Implicit => &IMPLICIT_BODIES,
        TagMode::Explicit => &EXPLICIT_BODIES,
    }
}

// The notation of a SEQUENCE under tags, and the terms of its laws.
fn set_whole(tags: &[TagLayer], fragments: &mut Fragments) {
    let mut text = fragments.text();
    put_under(tags, Aspect::Notation, b"Sequence<Parts>", &mut text);
    fragments.set(b'W', text);
    fragments.set_filled(b'q', "(in_sequence @Q)");
    fragments.set_filled(b'x', "(sequence_written @X)");
    let mut law = fragments.text();
    put_under(tags, Aspect::Law, fragments.get(b'q'), &mut law);
    fragments.set(b'L', law);
    let mut written = fragments.text();
    put_under(tags, Aspect::Written, fragments.get(b'x'), &mut written);
    fragments.set(b'C', written);
}

// The notation of a SET, and the terms of its laws.
fn set_whole_set(fragments: &mut Fragments) {
    fragments.set_octets(b'W', b"Set<Parts>");
    fragments.set_filled(b'L', "(set_lawful @Q @h)");
    fragments.set_filled(b'C', "(set_writes @X @h)");
}

/// The first of some items.
pub fn first_of<T>(items: &[T], count: usize) -> &[T] {
    match items.get(..count) {
        Some(first) => first,
        None => items,
    }
}

/// Sets the marks of a source to those of a SEQUENCE or a SET, whose first parts are in its own file.
pub fn set_sequence(
    alloc: Global,
    fragments: &mut Fragments,
    count: usize,
    rest: &RestName,
    fields: &Fields<'_, '_>,
    tags: &[TagLayer],
    names: &TypeNames,
) {
    let first = fields.first(count);
    set_run_texts(alloc, fragments, &first, rest, names);
    fragments.set_octets(b'b', rest.value_of.as_slice());
    fragments.set_octets(b'Z', rest.pattern.as_slice());
    set_before(fragments, b'R', &REFERENCES, &first, rest, "value", names);
    set_all(fragments, b'D', &FIELDS, &fields.in_module(), names);
    set_before(fragments, b'o', &VALUE_OF, &first, rest, "@b", names);
    fragments.set_filled(b'v', "λ v. @o");
    set_before(fragments, b'P', &PATTERN, &first, rest, "@Z", names);
    set_all(fragments, b'n', &NAMES, &fields.in_module(), names);
    if fields.is_set {
        set_whole_set(fragments);
    } else {
        set_whole(tags, fragments);
    }
    fragments.set_octets(b'V', b"Fields");
    fragments.set_filled(
        b'A',
        "@ztype Parts = @T;\n\ntype Fields = @U;\n\ntype Notated = @W;\n\n",
    );
    fragments.set_filled(b'S', "#[derive(Drop)]\npub struct @N {\n@D}\n");
    fragments.set_filled(b'f', "@N { @n}");
    fragments.set_octets(b'M', "λ u m v. element_non_empty _ _ _ _".as_bytes());
    let bodies = if fields.is_set {
        &SET_BODIES
    } else {
        bodies_of(tags, fragments)
    };
    set_bodies(bodies, fragments);
}

/// Sets `w`, `p`, `l` and `c` to bodies.
pub fn set_bodies(bodies: &'static Bodies, fragments: &mut Fragments) {
    fragments.set_filled(b'w', bodies.write);
    fragments.set_filled(b'p', bodies.prepend);
    fragments.set_filled(b'l', bodies.len);
    fragments.set_filled(b'c', bodies.accepts);
}
