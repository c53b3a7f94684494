//! The parts of a SEQUENCE or a SET, in each place where a source lists them.
//!
//! | Mark | Represents |
//! |---|---|
//! | `@N`, `@V` | the notation of a part, and the type of its values |
//! | `@L`, `@W` | the terms of its law and of its law of writing |
//! | `@f` | the name of its field |
//! | `@u` | the name of the field of the elements that this version doesn't know |
//! | `@D` | the type of its default |
//! | `@I`, `@E`, `@T` | the test for the default, the default, and the term that the test detects it, in clauses |
//! | `@E` of a tested one | the term that the values that pass the test are one value |
//! | `@S` | the term that values that equal the default are detected alike |

use crate::defaults::{
    default_shape, default_texts, has_number_default, has_tested_default, untagged,
};
use crate::extension::put_tail_law;
use crate::sets::Listed;
use crate::terms::{Aspect, TypeNames, put_notation, put_shaped, put_under};
use crate::text::Text;
use crate::words::put_camel;
use asn1_types::model::{DefaultValue, Notation, Part, Presence, TagLayer};

/// How parts are listed in some place.
pub struct Listing {
    /// A part that is always there.
    pub required: &'static str,
    /// One that is OPTIONAL.
    pub optional: &'static str,
    /// One with a DEFAULT.
    pub default: &'static str,
    /// One that is OPTIONAL, of any element, after all others.
    pub last: &'static str,
    /// What is in place of a part after the last one.
    pub end: &'static str,
    /// What closes each of these parts.
    pub close: &'static str,
    /// One with a DEFAULT that is tested, and what closes it.
    pub tested: [&'static str; 2],
    /// A part that is OPTIONAL, at the end of an extensible SEQUENCE.
    pub possible: &'static str,
    /// One with a DEFAULT there.
    pub possible_default: &'static str,
    /// What closes each of these.
    pub possible_close: &'static str,
    /// The elements that this version doesn't know, after mandatory parts, and after others.
    pub rest: [&'static str; 2],
}

/// The notations.
pub static NOTATIONS: Listing = Listing {
    required: "(@N, ",
    optional: "(Optional<@N>, ",
    default: "(Default<@N, @D>, ",
    last: "Last<@N>",
    end: "()",
    close: ")",
    tested: ["OrDefault<@N, @D, ", ">"],
    possible: "Possible<@N, ",
    possible_default: "PossibleDefault<@N, @D, ",
    possible_close: ">",
    rest: ["Rest<TaggedDerValue>", "Others<Omitted>"],
};

/// The types of the values.
pub static VALUES: Listing = Listing {
    required: "(@V, ",
    optional: "(Option<@V>, ",
    default: "(@V, ",
    last: "Option<@V>",
    end: "()",
    close: ")",
    tested: ["(Option<@V>, ", ")"],
    possible: "(Option<@V>, ",
    possible_default: "(@V, ",
    possible_close: ")",
    rest: ["Vec<TaggedDerValue>", "Vec<TaggedDerValue>"],
};

/// The fields of a struct.
pub static FIELDS: Listing = Listing {
    required: "    pub @f: @V,\n",
    optional: "    pub @f: Option<@V>,\n",
    default: "    pub @f: @V,\n",
    last: "    pub @f: Option<@V>,\n",
    end: "",
    close: "",
    tested: [
        "    /// `None` is the default.\n    pub @f: Option<@V>,\n",
        "",
    ],
    possible: "    pub @f: Option<@V>,\n",
    possible_default: "    pub @f: @V,\n",
    possible_close: "",
    rest: [
        "    /// Elements that this version doesn't know, as they came.\n    pub @u: Vec<TaggedDerValue>,\n",
        "    /// Elements that this version doesn't know, as they came.\n    pub @u: Vec<TaggedDerValue>,\n",
    ],
};

/// The values of a struct's fields in a clause.
pub static VALUE_OF: Listing = Listing {
    required: "(v.@f, ",
    optional: "(v.@f, ",
    default: "(v.@f, ",
    last: "v.@f",
    end: "tt",
    close: ")",
    tested: ["(v.@f, ", ")"],
    possible: "(v.@f, ",
    possible_default: "(v.@f, ",
    possible_close: ")",
    rest: ["v.@u", "v.@u"],
};

/// A pattern of the values.
pub static PATTERN: Listing = Listing {
    required: "(@f, ",
    optional: "(@f, ",
    default: "(@f, ",
    last: "@f",
    end: "()",
    close: ")",
    tested: ["(@f, ", ")"],
    possible: "(@f, ",
    possible_default: "(@f, ",
    possible_close: ")",
    rest: ["@u", "@u"],
};

/// The names of the fields.
pub static NAMES: Listing = Listing {
    required: "@f, ",
    optional: "@f, ",
    default: "@f, ",
    last: "@f, ",
    end: "",
    close: "",
    tested: ["@f, ", ""],
    possible: "@f, ",
    possible_default: "@f, ",
    possible_close: "",
    rest: ["@u, ", "@u, "],
};

/// The fields of a struct in a clause, by those of another one.
pub static RECORD_OF: Listing = Listing {
    required: "@f = v.@f; ",
    optional: "@f = v.@f; ",
    default: "@f = v.@f; ",
    last: "@f = v.@f; ",
    end: "",
    close: "",
    tested: ["@f = v.@f; ", ""],
    possible: "@f = v.@f; ",
    possible_default: "@f = v.@f; ",
    possible_close: "",
    rest: ["@u = v.@u; ", "@u = v.@u; "],
};

/// The fields of a struct in a clause, by those that a reference leads to.
pub static RECORD_HELD: Listing = Listing {
    required: "@f = r.now.@f; ",
    optional: "@f = r.now.@f; ",
    default: "@f = r.now.@f; ",
    last: "@f = r.now.@f; ",
    end: "",
    close: "",
    tested: ["@f = r.now.@f; ", ""],
    possible: "@f = r.now.@f; ",
    possible_default: "@f = r.now.@f; ",
    possible_close: "",
    rest: ["@u = r.now.@u; ", "@u = r.now.@u; "],
};

/// References to the fields.
pub static REFERENCES: Listing = Listing {
    required: "(&value.@f, ",
    optional: "(&value.@f, ",
    default: "(&value.@f, ",
    last: "&value.@f",
    end: "()",
    close: ")",
    tested: ["(&value.@f, ", ")"],
    possible: "(&value.@f, ",
    possible_default: "(&value.@f, ",
    possible_close: ")",
    rest: ["&value.@u", "&value.@u"],
};

/// The term of the law.
pub static LAW: Listing = Listing {
    required: "(part @L.own ",
    optional: "(optional_part refl @L.own ",
    default: "(default_part @I @E @T refl @L.own ",
    last: "(last_part_laws @L.own)",
    end: "no_parts",
    close: ")",
    tested: [
        "(or_default_laws {a = true} {b = true} @I @E (λ _. @L.own) (λ _. ",
        ") refl)",
    ],
    possible: "",
    possible_default: "",
    possible_close: "",
    rest: ["", ""],
};

/// The term of the law of writing.
pub static WRITTEN: Listing = Listing {
    required: "(part_written @W.own ",
    optional: "(optional_written @W.own ",
    default: "(part_written (default_written @I (default_alike @I @E @T @S) @W.own) ",
    last: "(last_part_writes @W.own)",
    end: "no_part_written",
    close: ")",
    tested: [
        "(or_default_writes {a = true} {b = true} @I @E true true true (λ _. @W.own) (λ _. ",
        ") (λ _. @L.own) refl)",
    ],
    possible: "",
    possible_default: "",
    possible_close: "",
    rest: ["", ""],
};

/// The term of the law of a SET, of the parts in the order of their tags.
pub static SET_LAW: Listing = Listing {
    required: "(set_part @L.own ",
    optional: "(set_option @L.own ",
    default: "(set_with_default @I @E @T @L.own ",
    last: "",
    end: "no_set_parts",
    close: " refl refl)",
    tested: ["(set_or_default @I @E @L.own ", " refl refl)"],
    possible: "",
    possible_default: "",
    possible_close: "",
    rest: ["", ""],
};

/// Whether a part is any element, and OPTIONAL.
pub fn is_last(part: &Part<'_>) -> bool {
    matches!(&part.notation, Notation::Any | Notation::Missing) && is_optional(part)
}

// Whether a part may be absent, and has no default. An addition may be, as earlier versions leave it out.
fn is_optional(part: &Part<'_>) -> bool {
    match &part.presence {
        Presence::Required => part.is_addition,
        Presence::Optional => true,
        Presence::Default(_) => false,
    }
}

/// A part and the name of its field.
#[derive(Clone, Copy)]
pub struct Field<'p, 'a> {
    /// The part.
    pub part: &'p Part<'a>,
    /// The name of the field.
    pub name: &'p [u8],
    /// The tag that is written around its notation, though it is its own.
    pub under: Option<TagLayer>,
}

/// Parts of a SEQUENCE or a SET, and the names of their fields.
#[derive(Clone, Copy)]
pub struct Fields<'p, 'a> {
    /// The parts.
    pub parts: &'p [Part<'a>],
    /// The names of their fields, and after them those of the field of the elements that this version doesn't know, and of that of the parts that
    /// follow those of a file.
    pub names: &'p [Vec<u8>],
    /// Which parts these are, in the order of their notations.
    pub order: &'p [Listed],
    /// Those of the whole, in the order of the module.
    pub declared: &'p [Listed],
    /// The place of the first part after the mandatory ones, if elements that this version doesn't know are after all parts.
    pub tail: Option<usize>,
    /// Whether a tag is around them in their file.
    pub is_tagged: bool,
    /// Whether they are those of a SET.
    pub is_set: bool,
}

impl<'p, 'a> Fields<'p, 'a> {
    /// How many there are.
    pub fn count(&self) -> usize {
        self.order.len()
    }

    /// The part at a place.
    pub fn at(&self, place: usize) -> Option<Field<'p, 'a>> {
        let listed = self.order.get(place)?;
        match (self.parts.get(listed.place), self.names.get(listed.place)) {
            (Some(part), Some(name)) => Some(Field {
                part,
                name: name.as_slice(),
                under: listed.under,
            }),
            _ => None,
        }
    }

    /// The parts of the whole in the order of the module.
    pub fn in_module(&self) -> Fields<'p, 'a> {
        Fields {
            order: self.declared,
            ..*self
        }
    }

    /// The first of these parts.
    pub fn first(&self, count: usize) -> Fields<'p, 'a> {
        match self.order.get(..count) {
            Some(order) if count < self.order.len() => Fields {
                order,
                tail: None,
                ..*self
            },
            _ => *self,
        }
    }

    /// The parts from a place on.
    pub fn from(&self, start: usize) -> Fields<'p, 'a> {
        let tail = match self.tail {
            Some(place) => Some(place.saturating_sub(start)),
            None => None,
        };
        match self.order.get(start..) {
            Some(order) => Fields {
                order,
                tail,
                is_tagged: self.is_tagged && start == 0,
                ..*self
            },
            None => *self,
        }
    }

    // The name of the field of the elements that this version doesn't know.
    fn unknown(&self) -> &'p [u8] {
        match self.names.get(self.parts.len()) {
            Some(name) => name.as_slice(),
            None => b"",
        }
    }

    /// The name of the field of the parts that follow those of a file.
    pub fn others(&self) -> &'p [u8] {
        match self.names.last() {
            Some(name) => name.as_slice(),
            None => b"",
        }
    }
}

// Whether a part has a default.
fn has_default(part: &Part<'_>) -> bool {
    match &part.presence {
        Presence::Default(_) => true,
        _ => false,
    }
}

// How a part at the end of an extensible SEQUENCE is listed. A default that is tested elsewhere is none there.
fn listed_at_end(listing: &'static Listing, part: &Part<'_>) -> &'static str {
    if has_default(part) && !has_tested_default(part) {
        listing.possible_default
    } else {
        listing.possible
    }
}

// How another part is listed, and what closes it.
fn listed(listing: &'static Listing, field: &Field<'_, '_>) -> [&'static str; 2] {
    let part = field.part;
    if has_tested_default(part) {
        return listing.tested;
    }
    if is_last(part) {
        return [listing.last, ""];
    }
    [opened(listing, part), listing.close]
}

fn opened(listing: &'static Listing, part: &Part<'_>) -> &'static str {
    if is_optional(part) {
        return listing.optional;
    }
    if has_default(part) {
        listing.default
    } else {
        listing.required
    }
}

/// Appends the name of the type of the default of a field: an item of an ENUMERATED, or a value that is tested.
pub fn put_default_name(field: &[u8], out: &mut Text) {
    put_camel(field, out);
    out.say("Default");
}

// Appends a text of a default.
fn put_default_text(
    text: &str,
    field: &Field<'_, '_>,
    value: &DefaultValue<'_>,
    names: &TypeNames,
    out: &mut Text,
) {
    let mut shaped = out.another();
    put_shaped(text, default_shape(value), &mut shaped);
    for octet in shaped.as_slice() {
        match *octet {
            b'&' => put_default_name(field.name, out),
            b'$' => {
                if let Some(name) = names.named(untagged(&field.part.notation)) {
                    out.put(name.law.as_slice());
                }
            }
            other => out.put_octet(other),
        }
    }
    if shaped.is_cut() {
        out.cut();
    }
}

// Appends the term that values that equal a default are detected alike.
fn put_same(text: &str, field: &Field<'_, '_>, names: &TypeNames, out: &mut Text) {
    match text.split_once("@L") {
        Some((_, after)) => {
            put_field_text(Aspect::Law, field, names, out);
            out.say(after);
        }
        None => out.say(text),
    }
}

// Appends what a mark of a default represents.
fn put_default(mark: u8, field: &Field<'_, '_>, names: &TypeNames, out: &mut Text) {
    let Presence::Default(value) = &field.part.presence else {
        return;
    };
    let texts = default_texts(&field.part.notation, field.under.is_some(), value);
    match mark {
        b'D' => put_default_text(texts.name, field, value, names, out),
        b'I' => put_default_text(texts.test, field, value, names, out),
        b'E' => put_default_text(texts.value, field, value, names, out),
        b'T' => put_default_text(texts.detects, field, value, names, out),
        _ => put_same(texts.same, field, names, out),
    }
}

/// Appends a text of the notation of a part, under the tag that is written around it.
pub fn put_field_text(aspect: Aspect, field: &Field<'_, '_>, names: &TypeNames, out: &mut Text) {
    let mut inner = out.another();
    let part = field.part;
    put_notation(
        &part.notation,
        aspect,
        has_number_default(part),
        names,
        &mut inner,
    );
    match &field.under {
        Some(layer) => put_under(&[*layer], aspect, inner.as_slice(), out),
        None => out.put(inner.as_slice()),
    }
    if inner.is_cut() {
        out.cut();
    }
}

/// Appends what a mark of a part represents.
pub fn put_mark(mark: u8, field: &Field<'_, '_>, names: &TypeNames, out: &mut Text) {
    match mark {
        b'N' => put_field_text(Aspect::Notation, field, names, out),
        b'V' => put_field_text(Aspect::Value, field, names, out),
        b'L' => put_field_text(Aspect::Law, field, names, out),
        b'W' => put_field_text(Aspect::Written, field, names, out),
        b'f' => out.put(field.name),
        _ => put_default(mark, field, names, out),
    }
}

// Appends a part as a listing says.
fn put_part(text: &str, field: &Field<'_, '_>, names: &TypeNames, out: &mut Text) {
    let mut is_mark = false;
    for octet in text.as_bytes() {
        if is_mark {
            put_mark(*octet, field, names, out);
            is_mark = false;
        } else if *octet == b'@' {
            is_mark = true;
        } else {
            out.put_octet(*octet);
        }
    }
}

// Appends a text with the name of a field for its mark.
fn put_unknown(text: &str, name: &[u8], out: &mut Text) {
    let mut is_mark = false;
    for octet in text.as_bytes() {
        if is_mark {
            out.put(name);
            is_mark = false;
        } else if *octet == b'@' {
            is_mark = true;
        } else {
            out.put_octet(*octet);
        }
    }
}

// Appends the parts of the end of an extensible SEQUENCE as a listing says, and the elements after them.
fn put_tail(
    listing: &'static Listing,
    fields: &Fields<'_, '_>,
    start: usize,
    names: &TypeNames,
    out: &mut Text,
) {
    if listing.possible.is_empty() {
        put_tail_law(fields, start, names, out);
        return;
    }
    let count = fields.count().saturating_sub(start);
    for place in start..fields.count() {
        let Some(field) = fields.at(place) else { break };
        put_part(listed_at_end(listing, field.part), &field, names, out);
    }
    let [rest, others] = listing.rest;
    put_unknown(
        if count == 0 { rest } else { others },
        fields.unknown(),
        out,
    );
    out.repeat(listing.possible_close, count);
}

// Appends what closes the first parts, from the last of them on.
fn put_closers(
    listing: &'static Listing,
    fields: &Fields<'_, '_>,
    count: usize,
    names: &TypeNames,
    out: &mut Text,
) {
    for back in 0..count {
        let Some(field) = fields.at(count - 1 - back) else {
            continue
        };
        let [_, close] = listed(listing, &field);
        put_part(close, &field, names, out);
    }
}

/// Appends parts as a listing says. `end` is in place of what follows them, but for the elements that this version doesn't know.
pub fn put_parts(
    listing: &'static Listing,
    fields: &Fields<'_, '_>,
    end: &[u8],
    names: &TypeNames,
    out: &mut Text,
) {
    let count = match fields.tail {
        Some(start) => start,
        None => fields.count(),
    };
    let mut is_ended = false;
    for place in 0..count {
        let Some(field) = fields.at(place) else { break };
        let [open, _] = listed(listing, &field);
        put_part(open, &field, names, out);
        is_ended = is_ended || is_last(field.part);
    }
    match fields.tail {
        Some(start) => put_tail(listing, fields, start, names, out),
        None if is_ended => {}
        None => out.put(end),
    }
    put_closers(listing, fields, count, names, out);
}
