//! `asn1der [OPTIONS] [FILE ..]` reads elements in BER from files or standard input, and writes the same elements in DER to standard output.
//!
//! | Status | When |
//! |---|---|
//! | 0 | the elements are written |
//! | 1 | an input isn't elements in BER, or with `--strict` their DER encoding is ambiguous: nothing is written of it |
//! | 2 | usage error |
//! | 3 | I/O error, or out of memory |
//!
//! The crate `asn1der_convert` converts bytes, `asn1der_typed` those of a type of a module, `asn1_input` reads digits and PEM, and `program_io` holds the ends.
//!
//! | Module | Holds |
//! |---|---|
//! | `options` | the options of the command line |
//! | `origin` | what messages name of an input |
//! | `pem` | blocks of PEM that are written |
//! | `conversion` | bytes as they are written |
//! | `input` | what is written of an input |
#![tactic(auto)]

mod conversion;
mod input;
mod options;
mod origin;
mod pem;

use asn1show_schema::Schema;
use input::written_of;
use options::{Options, options_of};
use program_io::{Input, arguments, explain, write_output};
use schema_files::schema_of_options;
use std::process::ExitCode;

// Converts an input, which messages name if it is one of several, and returns the status.
fn convert_input(
    rt: &HostRuntime,
    options: &Options<'_>,
    schema: Option<&Schema>,
    input: Input<'_>,
    is_named: bool,
) -> u8 {
    let name = if is_named { Some(input.name()) } else { None };
    let bytes = match input.read(rt) {
        Ok(bytes) => bytes,
        Err(status) => return status,
    };
    match written_of(rt, options, schema, name, bytes.as_slice()) {
        Ok(output) => match write_output(rt, output.as_slice()) {
            Ok(()) => 0,
            Err(error) => error.report(rt),
        },
        Err(status) => status,
    }
}

// Converts the inputs that the options name, as values of a type if it is given, and returns the greatest status.
fn convert_inputs(rt: &HostRuntime, options: &Options<'_>, schema: Option<&Schema>) -> u8 {
    let Some(files) = options.files() else {
        return convert_input(rt, options, schema, Input::Stdin, false);
    };
    let mut status = 0;
    for file in files {
        let ended = convert_input(
            rt,
            options,
            schema,
            Input::named(Some(*file)),
            files.len() > 1,
        );
        status = status.max(ended);
    }
    status
}

// Converts the inputs that the options name, and returns the greatest status.
fn run(rt: &HostRuntime, options: &Options<'_>) -> u8 {
    match schema_of_options(rt, options.matches()) {
        Ok(Some(schema)) => convert_inputs(rt, options, Some(&schema.without_selections())),
        Ok(None) => convert_inputs(rt, options, None),
        Err(status) => status,
    }
}

fn main(rt: HostRuntime) -> ExitCode {
    let words = match arguments(&rt) {
        Ok(words) => words,
        Err(error) => return ExitCode::from(error.report(&rt)),
    };
    let status = match options_of(rt.alloc(), words.as_slice()) {
        Ok(options) => run(&rt, &options),
        Err(error) => explain(&rt, &error),
    };
    ExitCode::from(status)
}
