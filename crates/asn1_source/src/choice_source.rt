//! The source of a CHOICE.
ghost use Rattle.std.specs.Prelude.{◌<◌, ◌≤◌};

use crate::alternatives::*;
use crate::imports::Words;
use crate::naming::clause_name;
use crate::template::Fragments;
use crate::terms::TypeNames;
use crate::text::Text;
use crate::words::{is_taken, put_imported_variant};
use std::alloc::{AllocError, Global};

// Sets a mark to the alternatives as a listing says.
fn set_listed(
    fragments: &mut Fragments,
    mark: u8,
    choices: &'static Choices,
    source: &ChoiceSource<'_, '_>,
    names: &TypeNames,
) {
    let mut text = fragments.text();
    put_alternatives(choices, source, names, &mut text);
    fragments.set(mark, text);
}

// Whether a clause that has a variant's name may name something else by it.
fn clashes(name: &[u8], choice: &[u8], names: &TypeNames) -> bool {
    if is_taken(name) || name == choice {
        return true;
    }
    for other in names.defined.iter() {
        if other.name.as_slice() == name {
            return true;
        }
    }
    for other in names.imported.iter() {
        if other.name.as_slice() == name {
            return true;
        }
    }
    false
}

// The variant of a name among these, and what a clause calls it.
fn variant_of(
    alloc: Global,
    variant_names: &[Vec<u8>],
    name: &[u8],
    clashes: bool,
) -> Result<Variant, AllocError> {
    let own = Vec::from_slice(alloc, name)?;
    if !clashes {
        let clause = Vec::from_slice(alloc, name)?;
        return Ok(Variant { name: own, clause });
    }
    match clause_name(variant_names, name, alloc).finish() {
        Some(clause) => Ok(Variant { name: own, clause }),
        None => Err(AllocError),
    }
}

/// The variants of these names.
pub fn variants_of(
    alloc: Global,
    variant_names: &[Vec<u8>],
    choice: &[u8],
    names: &TypeNames,
) -> Result<Vec<Variant>, AllocError> {
    let mut variants = Vec::new(alloc);
    for name in variant_names {
        let clashes = clashes(name.as_slice(), choice, names);
        let variant = variant_of(alloc, variant_names, name.as_slice(), clashes)?;
        if variants.push(variant).is_err() {
            return Err(AllocError);
        }
    }
    Ok(variants)
}

// Sets `G` to the names of the variants in clauses.
fn set_ghosts(fragments: &mut Fragments, source: &ChoiceSource<'_, '_>) {
    let mut text = fragments.text();
    let mut is_first = true;
    for variant in source.variants {
        if !is_first {
            text.say(", ");
        }
        is_first = false;
        put_imported_variant(variant.name.as_slice(), &mut text);
        if variant.clause.as_slice() != variant.name.as_slice() {
            text.say(" as ");
            text.put(variant.clause.as_slice());
        }
    }
    fragments.set(b'G', text);
}

// Appends the pattern of the values of other files, after the alternatives of this one.
fn put_rest_pattern(is_outer: bool, count: usize, out: &mut Text) {
    out.say("            ");
    if is_outer {
        out.say("First(");
    }
    out.repeat("Second(", count);
    out.say("rest");
    out.repeat(")", count);
    if is_outer {
        out.say(")");
    }
    out.say(" => match rest {\n");
}

// Sets `1` to the variant of each value: a `match` for each file.
fn set_from_values(
    fragments: &mut Fragments,
    source: &ChoiceSource<'_, '_>,
    size: usize,
    names: &TypeNames,
) {
    let total = source.alternatives.len();
    let mut text = fragments.text();
    let mut start = 0usize;
    let mut opened = 0usize;
    for _ in 0..total {
        let run = run_at(start, size);
        put_run(&FROM_VALUES, source, run, b"", names, &mut text);
        let next = start.saturating_add(run.count);
        if next >= total {
            break;
        }
        put_rest_pattern(source.is_open && start == 0, run.count, &mut text);
        opened = opened.saturating_add(1);
        start = next;
    }
    text.repeat("            },\n", opened);
    put_unknown_alternative(&FROM_VALUES, source, &mut text);
    fragments.set(b'1', text);
}

// The most alternatives of a CHOICE with one file, and the most of one file of others: `rt check` proves no `match` that is deeper.
const MOST_ALONE: usize = 9;

const MOST_OF_MANY: usize = 7;

/// How many alternatives each file of a CHOICE has. Each but the last one is full.
pub fn run_size(count: usize, is_open: bool) -> usize
    ensures { 0 < result × result ≤ 9 }
{
    let most = if is_open { MOST_ALONE - 1 } else { MOST_ALONE };
    if count <= most { most } else { MOST_OF_MANY }
}

/// The alternatives of the file that begins with this one.
pub fn run_at(start: usize, size: usize) -> Run {
    Run { start, count: size }
}

// Sets a mark to the alternatives of a file as a listing says, before what names the others.
fn set_run(
    fragments: &mut Fragments,
    mark: u8,
    choices: &'static Choices,
    source: &ChoiceSource<'_, '_>,
    run: Run,
    rest: &str,
    names: &TypeNames,
) {
    let mut end = fragments.text();
    fragments.fill(rest, &mut end);
    let mut text = fragments.text();
    put_run(choices, source, run, end.as_slice(), names, &mut text);
    fragments.set(mark, text);
}

/// Sets `T` to the notations of a file, `U` for the sides of its values, `Q` for the term of its law and `X` for that of its law of writing, where
/// `Y` is the name of the alternatives after them, and `y` that of their file.
pub fn set_run_texts(
    fragments: &mut Fragments,
    source: &ChoiceSource<'_, '_>,
    run: Run,
    names: &TypeNames,
) {
    set_run(fragments, b'T', &TYPES, source, run, "@Y", names);
    set_run(fragments, b'U', &SIDES, source, run, "@YSides", names);
    set_run(
        fragments,
        b'Q',
        &CHOICE_LAW,
        source,
        run,
        "(@y_types refl)",
        names,
    );
    set_run(
        fragments,
        b'X',
        &CHOICE_WRITTEN,
        source,
        run,
        "(@y_written refl)",
        names,
    );
}

/// Sets `Z` to the term that no encoding of the alternatives of a file is empty.
pub fn set_run_non_empty(
    fragments: &mut Fragments,
    source: &ChoiceSource<'_, '_>,
    run: Run,
    names: &TypeNames,
) {
    set_run(
        fragments,
        b'Z',
        &RUN_NON_EMPTY,
        source,
        run,
        "@y_non_empty u m x",
        names,
    );
}

/// Sets the marks of a source to those of a CHOICE, where each file has so many alternatives.
pub fn set_choice(
    fragments: &mut Fragments,
    source: &ChoiceSource<'_, '_>,
    size: usize,
    names: &TypeNames,
) {
    set_ghosts(fragments, source);
    set_run_texts(fragments, source, run_at(0, size), names);
    set_from_values(fragments, source, size, names);
    set_listed(fragments, b'D', &VARIANTS, source, names);
    set_listed(fragments, b'm', &MEANINGS, source, names);
    set_listed(fragments, b'2', &WRITES, source, names);
    set_listed(fragments, b'3', &PREPENDS, source, names);
    set_listed(fragments, b'4', &LENGTHS, source, names);
    set_listed(fragments, b'5', &ACCEPTS, source, names);
    set_listed(fragments, b'Z', &NON_EMPTIES, source, names);
    set_choice_bodies(fragments);
    set_choice_laws(fragments, source.is_open);
}

fn set_choice_bodies(fragments: &mut Fragments) {
    fragments.set_octets(b'V', b"Sides");
    fragments.set_octets(b'P', b"value");
    fragments.set_filled(b'S', "#[derive(Drop)]\npub enum @N {\n@D}\n");
    fragments.set_filled(b'v', "λ v. elim v [\n@m    ]");
    fragments.set_filled(b'f', "match value {\n@1        }");
    fragments.set_filled(b'w', "match value {\n@2        }");
    fragments.set_filled(b'p', "match value {\n@3        }");
    fragments.set_filled(b'l', "match value {\n@4        }");
    fragments.set_filled(b'c', "match value {\n@5        }");
    fragments.set_filled(
        b'C',
        "(choice_written_as ⟦<Notated as Notation>⟧.means.encoding_under @X)",
    );
    fragments.set_filled(
        b'M',
        "λ u m v. elim v as (λ k. ⟦<Notated as Notation>⟧.means.encoding_under u m (⟦<@N as Represents<Sides>>⟧.value_of k) ≡ [] → ⊥) [\n@Z    ]",
    );
}

// Sets the notation of a CHOICE, and the term of its law.
fn set_choice_laws(fragments: &mut Fragments, is_open: bool) {
    if is_open {
        fragments.set_filled(
            b'A',
            "type Types = @T;\n\ntype Sides = Either<@U, TaggedDerValue>;\n\ntype Notated = OpenChoice<Types>;\n\n",
        );
        fragments.set_filled(
            b'L',
            "(open_lawful ⟦<Choice<Types> as Notation>⟧.means.encoding_under @Q)",
        );
    } else {
        fragments.set_filled(
            b'A',
            "type Types = @T;\n\ntype Sides = @U;\n\ntype Notated = Choice<Types>;\n\n",
        );
        fragments.set_filled(
            b'L',
            "(in_choice ⟦<Notated as Notation>⟧.means.encoding_under @Q)",
        );
    }
}
