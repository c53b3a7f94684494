//! The alternatives of a CHOICE, in each place where a source lists them.
//!
//! | Mark | Represents |
//! |---|---|
//! | `@N`, `@V` | the notation of an alternative, and the type of its values |
//! | `@L`, `@W` | the terms of its law and of its law of writing |
//! | `@M`, `@m` | the term that no encoding of its value is empty, and the same where any value is after its place |
//! | `@v` | the name of its variant |
//! | `@g` | the name of its variant in clauses |
//! | `@T` | the name of the enum |
//! | `@(` | `(value)`, or nothing of a NULL, which has no value |
//! | `@[` | the type of a variant's value in parentheses, or nothing of a NULL |
//! | `@x`, `@y` | a reference to the value in code, and the value in a pattern |
//! | `@p`, `@q` | a variable after a variant in a clause, and the value there |
//! | `@<`, `@>` | what is before and after the value of this alternative, of the sides of the pairs of its file |
//! | `@{`, `@}` | the same of the pairs of all files |
//! | `@~` | the value `k` after the alternatives before this one, of the pairs of its file |

use crate::shapes::is_missing;
use crate::terms::{Aspect, TypeNames, put_notation};
use crate::text::Text;
use asn1_types::model::{Alternative, Notation, TagClass, TagLayer};

/// How alternatives are listed in some place.
pub struct Choices {
    /// An alternative that others follow.
    pub one: &'static str,
    /// The last one.
    pub last: &'static str,
    /// What closes each one that others follow.
    pub close: &'static str,
    /// The alternative that this version doesn't know.
    pub unknown: &'static str,
}

/// The notations.
pub static TYPES: Choices = Choices {
    one: "(@N, ",
    last: "(@N,)",
    close: ")",
    unknown: "",
};

/// The types of the values.
pub static SIDES: Choices = Choices {
    one: "Either<@V, ",
    last: "@V",
    close: ">",
    unknown: "",
};

/// The variants of an enum.
pub static VARIANTS: Choices = Choices {
    one: "    @v@[,\n",
    last: "    @v@[,\n",
    close: "",
    unknown: "    /// An alternative that this version doesn't know, as it came.\n    @v(TaggedDerValue),\n",
};

/// What each variant represents in clauses.
pub static MEANINGS: Choices = Choices {
    one: "      | @g@p ↦ @{@q@}\n",
    last: "      | @g@p ↦ @{@q@}\n",
    close: "",
    unknown: "      | @g x ↦ Second x\n",
};

/// The variant of each value of a file.
pub static FROM_VALUES: Choices = Choices {
    one: "            @<@y@> => @T::@v@(,\n",
    last: "            @<@y@> => @T::@v@(,\n",
    close: "",
    unknown: "            Second(value) => @T::@v(value),\n",
};

/// How each variant is written.
pub static WRITES: Choices = Choices {
    one: "            @T::@v@( => <@N as Notation>::write(@x, writer),\n",
    last: "            @T::@v@( => <@N as Notation>::write(@x, writer),\n",
    close: "",
    unknown: "            @T::@v(value) => <TaggedDerValue as Notation>::write(value, writer),\n",
};

/// How each variant is prepended.
pub static PREPENDS: Choices = Choices {
    one: "            @T::@v@( => <@N as Notation>::prepend(@x, under, out),\n",
    last: "            @T::@v@( => <@N as Notation>::prepend(@x, under, out),\n",
    close: "",
    unknown: "            @T::@v(value) => <TaggedDerValue as Notation>::prepend(value, under, out),\n",
};

/// How long each variant is.
pub static LENGTHS: Choices = Choices {
    one: "            @T::@v@( => <@N as Notation>::encoded_len(@x, under, mode),\n",
    last: "            @T::@v@( => <@N as Notation>::encoded_len(@x, under, mode),\n",
    close: "",
    unknown: "            @T::@v(value) => <TaggedDerValue as Notation>::encoded_len(value, under, mode),\n",
};

/// Whether each variant can be written.
pub static ACCEPTS: Choices = Choices {
    one: "            @T::@v@( => <@N as Checked>::accepts(@x),\n",
    last: "            @T::@v@( => <@N as Checked>::accepts(@x),\n",
    close: "",
    unknown: "            @T::@v(value) => <TaggedDerValue as Checked>::accepts(value),\n",
};

/// The term of the law.
pub static CHOICE_LAW: Choices = Choices {
    one: "(alternative @L.own refl ",
    last: "@L.own",
    close: ")",
    unknown: "",
};

/// The term of the law of writing.
pub static CHOICE_WRITTEN: Choices = Choices {
    one: "(alternative_written @W.own ",
    last: "@W.own",
    close: ")",
    unknown: "",
};

/// The term that no encoding of the alternatives of a file is empty.
pub static RUN_NON_EMPTY: Choices = Choices {
    one: "elim x as (λ k. ⟦<Each as Alternatives>⟧.encoding_under u m @~ ≡ [] → ⊥) [ | First x ↦ @m | Second x ↦ ",
    last: "@m",
    close: " ]",
    unknown: "",
};

/// Why no encoding of each variant is empty.
pub static NON_EMPTIES: Choices = Choices {
    one: "      | @g@p ↦ @M\n",
    last: "      | @g@p ↦ @M\n",
    close: "",
    unknown: "      | @g x ↦ raw_non_empty _ m _\n",
};

// An alternative, its names and its place: among all, and among those of its file.
#[derive(Clone, Copy)]
struct Side<'p, 'a> {
    alternative: &'p Alternative<'a>,
    variant: &'p Variant,
    choice: &'p [u8],
    place: usize,
    place_in_file: usize,
    is_last: bool,
    is_open: bool,
}

// Whether a notation is NULL within any tags.
fn is_null(notation: &Notation) -> bool {
    let mut current = notation;
    while let Notation::Tagged(_, inner) = current {
        current = &**inner;
    }
    match current {
        Notation::Null => true,
        _ => false,
    }
}

// Appends one of two texts.
fn either(is_null: bool, null: &str, other: &str, out: &mut Text) {
    out.say(if is_null { null } else { other });
}

// Appends what is before the value of an alternative, after that of so many others in the pairs. `is_outer`: the pairs are those of known ones.
fn put_path(
    side: &Side<'_, '_>,
    before: usize,
    is_outer: bool,
    second: &str,
    first: &str,
    out: &mut Text,
) {
    if is_outer {
        out.say(first);
    }
    out.repeat(second, before);
    if !side.is_last {
        out.say(first);
    }
}

// Appends what closes that.
fn put_path_end(side: &Side<'_, '_>, before: usize, is_outer: bool, out: &mut Text) {
    out.repeat(")", before);
    if !side.is_last {
        out.say(")");
    }
    if is_outer {
        out.say(")");
    }
}

// Appends the type of a variant's value in parentheses.
fn put_variant_type(side: &Side<'_, '_>, names: &TypeNames, out: &mut Text) {
    if !is_null(&side.alternative.notation) {
        out.say("(");
        put_notation(&side.alternative.notation, Aspect::Value, false, names, out);
        out.say(")");
    }
}

// Appends the name of a variant in clauses.
fn put_ghost(variant: &Variant, out: &mut Text) {
    out.put(variant.clause.as_slice());
}

// Appends the value `k` after the alternatives before this one.
fn put_remaining(side: &Side<'_, '_>, out: &mut Text) {
    if side.place_in_file == 0 {
        out.say("k");
        return;
    }
    out.say("(");
    out.repeat("Second (", side.place_in_file - 1);
    out.say("Second k");
    out.repeat(")", side.place_in_file);
}

// Appends what a mark of a place represents.
fn put_place_mark(mark: u8, side: &Side<'_, '_>, out: &mut Text) {
    let here = side.place_in_file;
    let is_first = side.is_open && here == side.place;
    match mark {
        b'<' => put_path(side, here, is_first, "Second(", "First(", out),
        b'>' => put_path_end(side, here, is_first, out),
        b'{' => put_path(side, side.place, side.is_open, "Second (", "First (", out),
        b'}' => put_path_end(side, side.place, side.is_open, out),
        _ => put_remaining(side, out),
    }
}

// Appends what a mark of a value or a name represents.
fn put_value_mark(mark: u8, side: &Side<'_, '_>, out: &mut Text) {
    let none = is_null(&side.alternative.notation);
    match mark {
        b'(' => either(none, "", "(value)", out),
        b'x' => either(none, "&()", "value", out),
        b'y' => either(none, "()", "value", out),
        b'p' => either(none, "", " x", out),
        b'q' => either(none, "tt", "x", out),
        b'g' => put_ghost(side.variant, out),
        b'v' => out.put(side.variant.name.as_slice()),
        b'T' => out.put(side.choice),
        _ => put_place_mark(mark, side, out),
    }
}

// How many implicit tags are around a type.
fn count_tags(notation: &Notation) -> usize {
    let mut count = 0usize;
    let mut current = notation;
    while let Notation::Tagged(_, inner) = current {
        count = count.saturating_add(1);
        current = &**inner;
    }
    match current {
        Notation::OctetsUnder(_) | Notation::ElementsUnder(_) => count.saturating_add(1),
        _ => count,
    }
}

// Appends a tag in a clause, and what closes `tag_or` before it.
fn put_tag(class: &str, number: u64, out: &mut Text) {
    out.say(" (");
    out.say(class);
    out.say(" ");
    out.put_number(number);
    out.say(")))");
}

// The word of a class in clauses.
fn class_word(class: TagClass) -> &'static str {
    match class {
        TagClass::Universal => "universal",
        TagClass::Application => "application",
        TagClass::ContextSpecific => "context",
        TagClass::Private => "private",
    }
}

/// Appends the implicit tag that waits at a type within its own tags, where `u` waits outside of them.
pub fn put_waiting_tag(notation: &Notation, out: &mut Text) {
    if is_missing(notation) {
        out.say("u");
        return;
    }
    out.repeat("(Some (tag_or ", count_tags(notation));
    out.say("u");
    let mut current = notation;
    while let Notation::Tagged(layer, inner) = current {
        put_tag(class_word(layer.class), layer.number, out);
        current = &**inner;
    }
    match current {
        Notation::OctetsUnder(number) | Notation::ElementsUnder(number) => {
            put_tag("universal", *number, out);
        }
        _ => {}
    }
}

/// Appends the implicit tag that waits at a type within these tags, the outermost first, where `u` waits outside of them.
pub fn put_waiting_tags(tags: &[TagLayer], out: &mut Text) {
    out.repeat("(Some (tag_or ", tags.len());
    out.say("u");
    for layer in tags {
        put_tag(class_word(layer.class), layer.number, out);
    }
}

/// A term without the `_)` at its end. Other terms have none there, or begin with a lambda.
pub fn before_tag(term: &[u8]) -> Option<&[u8]> {
    if !term.ends_with(b" _)") || term.starts_with("(λ".as_bytes()) {
        return None;
    }
    term.get(..term.len().saturating_sub(2))
}

// Appends the term that no encoding of an alternative's value is empty, under the tag that waits. Where a type has a header of its own, the
// header says so.
fn put_non_empty(notation: &Notation, value: &str, names: &TypeNames, out: &mut Text) {
    let mut term = out.another();
    put_notation(notation, Aspect::NonEmpty, false, names, &mut term);
    match before_tag(term.as_slice()) {
        Some(before) => {
            out.put(before);
            put_waiting_tag(notation, out);
            out.say(") m ");
            out.say(value);
        }
        None => out.say("element_non_empty _ _ _ _"),
    }
    if term.is_cut() {
        out.cut();
    }
}

// Appends what a mark represents.
fn put_mark(mark: u8, side: &Side<'_, '_>, names: &TypeNames, out: &mut Text) {
    let notation = &side.alternative.notation;
    match mark {
        b'N' => put_notation(notation, Aspect::Notation, false, names, out),
        b'V' => put_notation(notation, Aspect::Value, false, names, out),
        b'L' => put_notation(notation, Aspect::Law, false, names, out),
        b'W' => put_notation(notation, Aspect::Written, false, names, out),
        b'M' => {
            let value = if is_null(notation) { "tt" } else { "x" };
            put_non_empty(notation, value, names, out);
        }
        b'm' => put_non_empty(notation, "x", names, out),
        b'[' => put_variant_type(side, names, out),
        _ => put_value_mark(mark, side, out),
    }
}

// Appends an alternative as a text says.
fn put_side(text: &str, side: &Side<'_, '_>, names: &TypeNames, out: &mut Text) {
    let mut is_mark = false;
    for octet in text.as_bytes() {
        if is_mark {
            put_mark(*octet, side, names, out);
            is_mark = false;
        } else if *octet == b'@' {
            is_mark = true;
        } else {
            out.put_octet(*octet);
        }
    }
}

/// A CHOICE, and the names in its source.
#[derive(Clone, Copy)]
pub struct ChoiceSource<'p, 'a> {
    /// The alternatives.
    pub alternatives: &'p [Alternative<'a>],
    /// The variants of each, and that of the alternative that this version doesn't know if it is open.
    pub variants: &'p [Variant],
    /// The name of the enum.
    pub name: &'p [u8],
    /// Whether an alternative that this version doesn't know is a value.
    pub is_open: bool,
}

/// A CHOICE of these alternatives.
pub fn choice_of<'p, 'a>(
    alternatives: &'p [Alternative<'a>],
    variants: &'p [Variant],
    name: &'p [u8],
    is_open: bool,
) -> ChoiceSource<'p, 'a> {
    ChoiceSource {
        alternatives,
        variants,
        name,
        is_open,
    }
}

/// The name of a variant.
#[derive(Drop)]
pub struct Variant {
    /// The name.
    pub name: Vec<u8>,
    /// What a clause calls it.
    pub clause: Vec<u8>,
}

/// The alternatives of one file: the first, and how many.
#[derive(Clone, Copy)]
pub struct Run {
    /// The place of the first.
    pub start: usize,
    /// How many.
    pub count: usize,
}

/// Appends the alternatives of a file as `choices` says. `rest` is in place of those of other files after them.
pub fn put_run(
    choices: &'static Choices,
    source: &ChoiceSource<'_, '_>,
    run: Run,
    rest: &[u8],
    names: &TypeNames,
    out: &mut Text,
) {
    let mut opened = 0usize;
    let mut is_whole = false;
    for place in run.start..run.start.saturating_add(run.count) {
        let (Some(alternative), Some(variant)) = (
            source.alternatives.get(place),
            source.variants.get(place),
        ) else {
            break;
        };
        is_whole = place >= source.alternatives.len().saturating_sub(1);
        let side = Side {
            alternative,
            variant,
            choice: source.name,
            place,
            place_in_file: place.saturating_sub(run.start),
            is_last: is_whole,
            is_open: source.is_open,
        };
        put_side(
            if is_whole { choices.last } else { choices.one },
            &side,
            names,
            out,
        );
        if !is_whole {
            opened = opened.saturating_add(1);
        }
    }
    if !is_whole {
        out.put(rest);
    }
    out.repeat(choices.close, opened);
}

// Appends the text of the alternative that this version doesn't know.
fn put_unknown(text: &str, variant: &Variant, choice: &[u8], out: &mut Text) {
    let mut is_mark = false;
    for octet in text.as_bytes() {
        if is_mark {
            match *octet {
                b'g' => put_ghost(variant, out),
                b'v' => out.put(variant.name.as_slice()),
                _ => out.put(choice),
            }
            is_mark = false;
        } else if *octet == b'@' {
            is_mark = true;
        } else {
            out.put_octet(*octet);
        }
    }
}

/// Appends the alternative that this version doesn't know as `choices` says, if it is a value.
pub fn put_unknown_alternative(
    choices: &'static Choices,
    source: &ChoiceSource<'_, '_>,
    out: &mut Text,
) {
    if !source.is_open {
        return;
    }
    if let Some(variant) = source.variants.last() {
        put_unknown(choices.unknown, variant, source.name, out);
    }
}

/// Appends all alternatives as `choices` says.
pub fn put_alternatives(
    choices: &'static Choices,
    source: &ChoiceSource<'_, '_>,
    names: &TypeNames,
    out: &mut Text,
) {
    let run = Run {
        start: 0,
        count: source.alternatives.len(),
    };
    put_run(choices, source, run, b"", names, out);
    put_unknown_alternative(choices, source, out);
}
