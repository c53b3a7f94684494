//! The sources of the alternatives of a long CHOICE: those after the first ones have a file and a name of their own.

use crate::alternatives::ChoiceSource;
use crate::choice_source::{run_at, set_run_non_empty, set_run_texts};
use crate::template::Fragments;
use crate::templates::{ALTERNATIVES_IMPLS, CANONICAL_ALTERNATIVES_IMPL};
use crate::terms::TypeName;
use crate::text::Text;
use crate::type_source::{CrateSource, Files, put_source};
use std::alloc::{AllocError, Global};

// Sets `name` to the name of the alternatives of the file of this number, and `file` to that of the file. Both are empty if there is no such file.
fn set_rest(
    fragments: &mut Fragments,
    name: u8,
    file: u8,
    whole: &TypeName,
    number: usize,
    is_there: bool,
) {
    let mut text = fragments.text();
    let mut path = fragments.text();
    if is_there {
        text.put(whole.name.as_slice());
        text.say("Types");
        text.put_number(number as u64);
        path.put(whole.file.as_slice());
        path.say("_types");
        path.put_number(number as u64);
    }
    fragments.set(name, text);
    fragments.set(file, path);
}

/// Sets `Y` and `y` to the name of the alternatives after the first ones and of their file, if any follow.
pub fn set_second_file(
    fragments: &mut Fragments,
    whole: &TypeName,
    source: &ChoiceSource<'_, '_>,
    size: usize,
) {
    set_rest(
        fragments,
        b'Y',
        b'y',
        whole,
        2,
        source.alternatives.len() > size,
    );
}

// What a CHOICE brings in of the alternatives that have a name of their own.
const REST_CLAUSES: &str =
    "ghost use Rattle.@K.specs.contracts.@y.@YAlternatives.TheImpl.Laws.{laws-law as @y_types};\n";

const REST_WRITTEN_CLAUSES: &str =
    "ghost use Rattle.@K.specs.contracts.@y.@YAlternatives.TheImpl.Laws.{laws-law as @y_types};\nghost use Rattle.@K.specs.contracts.@y.@YCanonicalAlternatives.TheImpl.Laws.{written-law as @y_written};\n";

const REST_NON_EMPTY_CLAUSES: &str =
    "ghost use Rattle.@K.specs.contracts.@y.@YAlternatives.TheImpl.Laws.{non_empty-law as @y_non_empty};\n";

/// The lines that bring in the alternatives that follow others, by `@y` and `@Y`.
pub fn rest_clauses(has_rest: bool, is_canonical: bool) -> &'static str {
    if !has_rest {
        ""
    } else if is_canonical {
        REST_WRITTEN_CLAUSES
    } else {
        REST_CLAUSES
    }
}

/// The lines of code that bring in the alternatives that follow others, by `@y` and `@Y`.
pub fn rest_code(has_rest: bool) -> &'static str {
    if has_rest {
        "use crate::@y::{@Y, @YSides};\n"
    } else {
        ""
    }
}

// The source of the alternatives of one file whose marks are set.
fn finished(
    alloc: Global,
    source: &CrateSource<'_, '_>,
    whole: &TypeName,
    has_rest: bool,
    fragments: &Fragments,
) -> Text {
    let mut body = Text::new(alloc);
    fragments.fill("type Each = @T;\n", &mut body);
    fragments.fill(ALTERNATIVES_IMPLS, &mut body);
    if whole.is_canonical {
        fragments.fill(CANONICAL_ALTERNATIVES_IMPL, &mut body);
    }
    let mut clauses = Text::new(alloc);
    clauses.say("ghost use Rattle.std.specs.Prelude.{[]};\n");
    fragments.fill(rest_clauses(has_rest, whole.is_canonical), &mut clauses);
    if has_rest {
        fragments.fill(REST_NON_EMPTY_CLAUSES, &mut clauses);
    }
    let mut code = Text::new(alloc);
    fragments.fill(rest_code(has_rest), &mut code);
    let mut text = Text::new(alloc);
    fragments.fill("//! Alternatives of `@O`, by one name.\n", &mut text);
    put_source(
        alloc,
        source,
        b"",
        clauses.as_slice(),
        code.as_slice(),
        &body,
        &mut text,
    );
    text
}

// Adds the file of this number, whose first alternative is at a place.
fn add_run(
    alloc: Global,
    source: &CrateSource<'_, '_>,
    whole: &TypeName,
    choice: &ChoiceSource<'_, '_>,
    size: usize,
    start: usize,
    number: usize,
    files: &mut Files,
) -> Result<(), AllocError> {
    let run = run_at(start, size);
    let has_rest = start.saturating_add(size) < choice.alternatives.len();
    let mut fragments = Fragments::new(alloc);
    fragments.set_octets(b'K', source.krate);
    fragments.set_octets(b'O', whole.name.as_slice());
    set_rest(&mut fragments, b'R', b'r', whole, number, true);
    set_rest(
        &mut fragments,
        b'Y',
        b'y',
        whole,
        number.saturating_add(1),
        has_rest,
    );
    set_run_texts(&mut fragments, choice, run, source.names);
    set_run_non_empty(&mut fragments, choice, run, source.names);
    fragments.set_term(b'7', "@Q", 25);
    fragments.set_term(b'8', "@X", 25);
    fragments.set_term(b'9', "λ u m x. @Z", 25);
    let text = finished(alloc, source, whole, has_rest, &fragments);
    files.add("src/", fragments.get(b'r'), ".rt", text)
}

/// Adds the files of the alternatives of a CHOICE after the first ones.
pub fn add_runs(
    alloc: Global,
    source: &CrateSource<'_, '_>,
    whole: &TypeName,
    choice: &ChoiceSource<'_, '_>,
    size: usize,
    files: &mut Files,
) -> Result<(), AllocError> {
    let mut start = size;
    let mut number = 2usize;
    for _ in 0..choice.alternatives.len() {
        if start >= choice.alternatives.len() {
            break;
        }
        add_run(alloc, source, whole, choice, size, start, number, files)?;
        start = start.saturating_add(size);
        number = number.saturating_add(1);
    }
    Ok(())
}
