//! The sources of the parts of a long SEQUENCE: those after the first ones have a file and a name of their own.

use crate::item_defaults::set_default_types;
use crate::open_choices::may_be_absent;
use crate::parts::{
    FIELDS, Fields, Listing, NAMES, PATTERN, RECORD_HELD, RECORD_OF, REFERENCES, VALUE_OF,
    put_parts,
};
use crate::sequence_source::{RestName, first_of, set_before, set_run_texts};
use crate::template::Fragments;
use crate::templates::{CANONICAL_PARTS_IMPL, INNER_PARTS_IMPL, PARTS_IMPLS, SET_PARTS_IMPL};
use crate::terms::{TypeName, TypeNames};
use crate::text::Text;
use crate::type_source::{CrateSource, Files, put_source, rest_clauses, set_clauses};
use crate::weights::are_light;
use std::alloc::{AllocError, Global};

// The most parts of one file, and the most among them that may be absent.
const MOST_PARTS: usize = 6;

const MOST_ABSENT: usize = 3;

// The most parts of one file under a tag, where one that may be absent counts as three: `rt check` rejects a type that is deeper.
const MOST_UNDER_TAG: usize = 8;

// Whether one file may hold so many parts, of which so many may be absent.
fn fits(count: usize, absent: usize, is_tagged: bool) -> bool {
    let weight = count.saturating_add(absent).saturating_add(absent);
    count <= MOST_PARTS && absent <= MOST_ABSENT && (!is_tagged || weight <= MOST_UNDER_TAG)
}

/// How many of these parts one file holds. Those at the end of an extensible SEQUENCE that may be absent are in one file.
pub fn first_run(fields: &Fields<'_, '_>, names: &TypeNames) -> usize {
    let all = fields.count();
    let tail = match fields.tail {
        Some(start) => start,
        None => all,
    };
    let mut count = 0usize;
    let mut absent = 0usize;
    for place in 0..tail {
        let Some(field) = fields.at(place) else { break };
        if may_be_absent(field.part) {
            absent = absent.saturating_add(1);
        }
        let next = count.saturating_add(1);
        let is_light = count == 0 || are_light(fields, next, names);
        if !is_light || !fits(next, absent, fields.is_tagged) {
            return count;
        }
        count = next;
    }
    let more = all.saturating_sub(tail);
    let (whole, absent) = (count.saturating_add(more), absent.saturating_add(more));
    let is_light = more == 0 || are_light(fields, all, names);
    if count == 0 || (is_light && fits(whole, absent, fields.is_tagged)) {
        all
    } else {
        count
    }
}

// A name with `Parts` or `_parts` and a number after it.
fn numbered(alloc: Global, name: &[u8], word: &str, number: usize) -> Text {
    let mut text = Text::new(alloc);
    text.put(name);
    text.say(word);
    text.put_number(number as u64);
    text
}

// The line that brings in the name of parts, before those of the parts that follow.
fn lines_of(alloc: Global, name: &Text, file: &Text, rest: &RestName) -> Text {
    let mut text = Text::new(alloc);
    text.say("use crate::");
    text.put(file.as_slice());
    text.say("::");
    text.put(name.as_slice());
    text.say(";\n");
    text.put(rest.lines.as_slice());
    text
}

// How long what separates fields in braces is.
const SEPARATOR: usize = 2;

// The fields of the struct of parts, as they are between braces. The last one holds the parts that follow, if any do.
fn braced(
    alloc: Global,
    listing: &'static Listing,
    fields: &Fields<'_, '_>,
    is: &str,
    following: &[u8],
    names: &TypeNames,
) -> Text {
    let mut listed = Text::new(alloc);
    put_parts(listing, fields, b"", names, &mut listed);
    let mut text = Text::new(alloc);
    if following.is_empty() {
        let count = listed.as_slice().len().saturating_sub(SEPARATOR);
        text.put(first_of(listed.as_slice(), count));
    } else {
        text.put(listed.as_slice());
        text.put(fields.others());
        text.say(is);
        text.put(following);
    }
    if listed.is_cut() {
        text.cut();
    }
    text
}

// Such fields in braces, after a word.
fn struct_of(alloc: Global, word: &[u8], fields: &Text) -> Result<Vec<u8>, AllocError> {
    let mut text = Text::new(alloc);
    text.put(word);
    text.say(" { ");
    text.put(fields.as_slice());
    text.say(" }");
    if fields.is_cut() {
        text.cut();
    }
    text.finish().ok_or(AllocError)
}

// The names and texts of parts.
fn named_rest(
    alloc: Global,
    whole: &TypeName,
    number: usize,
    fields: &Fields<'_, '_>,
    rest: &RestName,
    names: &TypeNames,
) -> Result<RestName, AllocError> {
    let name = numbered(alloc, whole.name.as_slice(), "Parts", number);
    let file = numbered(alloc, whole.file.as_slice(), "_parts", number);
    let lines = lines_of(alloc, &name, &file, rest)
        .finish()
        .ok_or(AllocError)?;
    let pattern = braced(alloc, &NAMES, fields, ": ", rest.pattern.as_slice(), names);
    let value_of = braced(
        alloc,
        &RECORD_OF,
        fields,
        " = ",
        rest.value_of.as_slice(),
        names,
    );
    let held = braced(
        alloc,
        &RECORD_HELD,
        fields,
        " = ",
        rest.held.as_slice(),
        names,
    );
    Ok(RestName {
        pattern: struct_of(alloc, name.as_slice(), &pattern)?,
        value_of: struct_of(alloc, b"record", &value_of)?,
        held: struct_of(alloc, b"record", &held)?,
        name: name.finish().ok_or(AllocError)?,
        file: file.finish().ok_or(AllocError)?,
        number,
        lines,
    })
}

// Sets `D` to the fields of the struct of parts, `o` to their values in a clause, `P` to a pattern of their values, `n` to the names of the fields,
// `B` to references to them, and `b` to the name of the field of the parts that follow.
fn set_struct(
    fragments: &mut Fragments,
    fields: &Fields<'_, '_>,
    rest: &RestName,
    names: &TypeNames,
) {
    fragments.set_octets(b'b', fields.others());
    let others = "    /// The parts that follow.\n    pub @b: @Y,\n";
    set_before(fragments, b'D', &FIELDS, fields, rest, others, names);
    set_before(fragments, b'o', &VALUE_OF, fields, rest, "v.@b", names);
    set_before(fragments, b'P', &PATTERN, fields, rest, "@b", names);
    set_before(fragments, b'n', &NAMES, fields, rest, "@b, ", names);
    set_before(
        fragments,
        b'B',
        &REFERENCES,
        fields,
        rest,
        "&value.@b",
        names,
    );
}

// The source of parts by a name.
fn rest_source(
    alloc: Global,
    source: &CrateSource<'_, '_>,
    whole: &TypeName,
    own: &RestName,
    rest: &RestName,
    fields: &Fields<'_, '_>,
) -> Result<Text, AllocError> {
    let mut fragments = Fragments::new(alloc);
    fragments.set_octets(b'K', source.krate);
    fragments.set_octets(b'R', own.name.as_slice());
    fragments.set_octets(b'O', whole.name.as_slice());
    fragments.set_octets(b'y', rest.file.as_slice());
    fragments.set_octets(b'Y', rest.name.as_slice());
    set_run_texts(alloc, &mut fragments, fields, rest, source.names);
    set_before(
        &mut fragments,
        b'E',
        &REFERENCES,
        fields,
        rest,
        "*value",
        source.names,
    );
    set_struct(&mut fragments, fields, rest, source.names);
    fragments.set_octets(b'H', own.held.as_slice());
    set_default_types(alloc, &mut fragments, source, fields)?;
    fragments.set_term(b'7', "@Q", 25);
    fragments.set_term(b'8', "@X", 25);
    fragments.set_term(b'6', "@h", 30);
    if own.number > 2 {
        fragments.set_filled(b'I', INNER_PARTS_IMPL);
    }
    let has_rest = !rest.name.is_empty();
    Ok(finished(alloc, source, whole, has_rest, fields.is_set, &fragments))
}

// The source of parts whose marks are set.
fn finished(
    alloc: Global,
    source: &CrateSource<'_, '_>,
    whole: &TypeName,
    has_rest: bool,
    is_set: bool,
    fragments: &Fragments,
) -> Text {
    let mut body = Text::new(alloc);
    fragments.fill("@ztype Each = @T;\n\ntype Fields = @U;\n", &mut body);
    fragments.fill(PARTS_IMPLS, &mut body);
    body.put(fragments.get(b'I'));
    if is_set {
        fragments.fill(SET_PARTS_IMPL, &mut body);
    }
    if whole.is_canonical {
        fragments.fill(CANONICAL_PARTS_IMPL, &mut body);
    }
    body.put(fragments.get(b'd'));
    let mut clauses = Text::new(alloc);
    fragments.fill(rest_clauses(has_rest, whole.is_canonical), &mut clauses);
    fragments.fill(set_clauses(has_rest && is_set), &mut clauses);
    clauses.put(fragments.get(b'j'));
    let mut code = Text::new(alloc);
    if has_rest {
        fragments.fill("use crate::@y::@Y;\n", &mut code);
    }
    let mut text = Text::new(alloc);
    fragments.fill(
        "//! Parts of `@O`, by one name: what the whole requires of them is proved here once.\n",
        &mut text,
    );
    put_source(
        alloc,
        source,
        b"",
        clauses.as_slice(),
        code.as_slice(),
        &body,
        &mut text,
    );
    text
}

// How many parts each file holds.
fn counts_of(
    alloc: Global,
    fields: &Fields<'_, '_>,
    names: &TypeNames,
) -> Result<Vec<usize>, AllocError> {
    let mut counts = Vec::new(alloc);
    let mut start = 0usize;
    for _ in 0..fields.count() {
        let count = first_run(&fields.from(start), names);
        if counts.push(count).is_err() {
            return Err(AllocError);
        }
        start = start.saturating_add(count);
        if start >= fields.count() {
            break;
        }
    }
    Ok(counts)
}

// No parts follow.
fn no_rest(alloc: Global) -> RestName {
    RestName {
        name: Vec::new(alloc),
        file: Vec::new(alloc),
        number: 0,
        lines: Vec::new(alloc),
        pattern: Vec::new(alloc),
        value_of: Vec::new(alloc),
        held: Vec::new(alloc),
    }
}

// Adds the file of parts, before those that follow, and returns what names them.
fn add_rest(
    alloc: Global,
    source: &CrateSource<'_, '_>,
    whole: &TypeName,
    rest: &RestName,
    number: usize,
    fields: &Fields<'_, '_>,
    files: &mut Files,
) -> Result<RestName, AllocError> {
    let own = named_rest(alloc, whole, number, fields, rest, source.names)?;
    let text = rest_source(alloc, source, whole, &own, rest, fields)?;
    files.add("src/", own.file.as_slice(), ".rt", text)?;
    Ok(own)
}

// The sum of the first numbers.
fn sum_of(counts: &[usize]) -> usize {
    let mut sum = 0usize;
    for count in counts {
        sum = sum.saturating_add(*count);
    }
    sum
}

/// Adds the files of the parts of a SEQUENCE after the first ones, and returns what the first ones name.
pub fn put_rests(
    alloc: Global,
    source: &CrateSource<'_, '_>,
    whole: &TypeName,
    fields: &Fields<'_, '_>,
    files: &mut Files,
) -> Result<RestName, AllocError> {
    let counts = counts_of(alloc, fields, source.names)?;
    let mut rest = no_rest(alloc);
    for back in 1..counts.len() {
        let place = counts.len() - back;
        let start = sum_of(first_of(counts.as_slice(), place));
        let count = match counts.get(place) {
            Some(count) => *count,
            None => 0,
        };
        let own = add_rest(
            alloc,
            source,
            whole,
            &rest,
            place.saturating_add(1),
            &fields.from(start).first(count),
            files,
        )?;
        rest = own;
    }
    Ok(rest)
}
