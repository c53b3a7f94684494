//! `asn1show` lists the elements of ASN.1 bytes, a line an element.
//!
//! `options` has those of the command line, and `schema_files` the types that name the elements. `asn1show_lines` makes the lines, and `program_io` has the input and the standard streams.
#![tactic(auto)]

ghost use Rattle.std.specs.Prelude.{◌≡◌, ◌↔◌, ◌<◌, ◌&&◌, IsTrue, length, not, if◌then◌else◌};
ghost use Rattle.asn1show_printer.specs.declared.value.Layout.TheVariants.{Html};
ghost use Rattle.asn1show_printer.specs.Conformance.{accepts};
ghost use Rattle.asn1show_walk.specs.Errors.{IsExternal};

mod options;

use asn1show_lines::{Conformance, Layout, Output, Schema, Selection, View};
use asn1show_walk::WalkError;
use options::{Options, options_of};
use program_io::{Input, ProgramError, arguments, explain, report};
use schema_files::schema_of_options;
use std::io::{BufWriter, Write};
use std::process::ExitCode;

// The status if the input is malformed, or a check of it fails.
const MALFORMED: u8 = 1;

// The status of a usage error.
const USAGE_ERROR: u8 = 2;

// What was listed: the conformance of the elements, and whether the one that is asked for wasn't found.
#[derive(Clone, Copy)]
struct Listed {
    conformance: Conformance,
    is_missing: bool,
}

// What is listed: an input, what messages call it, and what its first line does.
#[derive(Clone, Copy)]
struct Source<'s> {
    input: &'s [u8],
    name: &'s str,
    title: &'s str,
}

// What is shown of an input of this title, with the names of the types of modules.
fn named_view<'v>(options: &Options<'_>, schema: Option<&'v Schema>, title: &'v str) -> View<'v> {
    let view = options.view;
    View {
        name: title,
        selection: view.selection,
        layout: view.layout,
        numbers: view.numbers,
        width: view.width,
        has_dump: view.has_dump,
        schema,
    }
}

// Lists an input.
fn show(
    rt: &HostRuntime,
    options: &Options<'_>,
    schema: Option<&Schema>,
    source: Source<'_>,
) -> Result<Listed, WalkError> {
    let view = named_view(options, schema, source.title);
    let (mode, input_format) = (options.mode, options.input_format);
    let mut out = Output::new(BufWriter::new(rt.alloc(), rt.stdout())?);
    let shown = asn1show_lines::show(rt.alloc(), &mut out, mode, input_format, view, source.input);
    let flushed = out.flush();
    let conformance = shown?;
    flushed?;
    Ok(Listed {
        conformance,
        is_missing: out.is_missing(),
    })
}

// The status after elements were listed: 0, but 1 if the one that is asked for wasn't found, or in a check if they aren't in its mode.
fn listed_status(selection: Selection, listed: Listed) -> u8
    ensures { result ≡ if accepts selection listed.conformance && not listed.is_missing then 0 else 1 }
{
    if selection.accepts(listed.conformance) && !listed.is_missing {
        0
    } else {
        MALFORMED
    }
}

// Prints why an input wasn't listed to its end, and returns the status.
fn failed_status(rt: &HostRuntime, name: &str, error: WalkError) -> u8
    ensures malformed { (result ≡ 1) ↔ (IsExternal error → ⊥) }
    ensures external { (result ≡ 3) ↔ IsExternal error }
{
    match error {
        WalkError::Malformed { .. } => {
            report(rt, name, &error);
            MALFORMED
        }
        WalkError::Memory => ProgramError::Memory.report(rt),
        WalkError::Output => ProgramError::Output.report(rt),
        WalkError::ClosedOutput => ProgramError::ClosedPipe.report(rt),
    }
}

// Says whether the element that is asked for wasn't found, and returns the status.
fn end(rt: &HostRuntime, options: &Options<'_>, name: &str, listed: Listed) -> u8
    ensures { result ≡ if accepts options.now.view.selection listed.conformance && not listed.is_missing then 0 else 1 }
{
    if listed.is_missing {
        report(rt, name, &"no element begins at the offset");
    }
    listed_status(options.view.selection, listed)
}

// Lists an input that was read, and returns the status.
fn list(
    rt: &HostRuntime,
    options: &Options<'_>,
    schema: Option<&Schema>,
    source: Source<'_>,
) -> u8 {
    match show(rt, options, schema, source) {
        Ok(listed) => end(rt, options, source.name, listed),
        Err(error) => failed_status(rt, source.name, error),
    }
}

// Reads and lists an input, whose first line has its name if it is one of several, and returns the status.
fn run_input(
    rt: &HostRuntime,
    options: &Options<'_>,
    schema: Option<&Schema>,
    input: Input<'_>,
    is_named: bool,
) -> u8 {
    let bytes = match input.read(rt) {
        Ok(bytes) => bytes,
        Err(status) => return status,
    };
    let name = input.name();
    let title = if is_named { name } else { "input" };
    let source = Source {
        input: bytes.as_slice(),
        name,
        title,
    };
    list(rt, options, schema, source)
}

// Whether these are several files, of which a page isn't made.
fn are_too_many(layout: Layout, files: &[&str]) -> bool
    ensures { IsTrue result ↔ ((layout ≡ Html) × (1 < length files.now)) }
{
    matches!(layout, Layout::Html) && files.len() > 1
}

// Reads and lists the inputs that the options name, and returns the greatest status.
fn run_inputs(rt: &HostRuntime, options: &Options<'_>, schema: Option<&Schema>) -> u8 {
    let Some(files) = options.files() else {
        return run_input(rt, options, schema, Input::Stdin, false);
    };
    if are_too_many(options.view.layout, files) {
        report(rt, "asn1show", &"--html takes one FILE");
        return USAGE_ERROR;
    }
    let mut status = 0;
    for file in files {
        let input = Input::named(Some(*file));
        status = status.max(run_input(rt, options, schema, input, files.len() > 1));
    }
    status
}

// Reads the modules and the inputs that the options name, lists the inputs, and returns the greatest status.
fn run(rt: &HostRuntime, options: &Options<'_>) -> u8 {
    match schema_of_options(rt, options.matches()) {
        Ok(schema) => run_inputs(rt, options, schema.as_ref()),
        Err(status) => status,
    }
}

fn main(rt: HostRuntime) -> ExitCode {
    let words = match arguments(&rt) {
        Ok(words) => words,
        Err(error) => return ExitCode::from(error.report(&rt)),
    };
    let status = match options_of(rt.alloc(), words.as_slice()) {
        Ok(options) => run(&rt, &options),
        Err(error) => explain(&rt, &error),
    };
    ExitCode::from(status)
}
