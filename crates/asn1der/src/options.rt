//! The options of the command line.

use asn1_input::InputFormat;
use clap::{Arg, ArgAction, ArgMatches, Command, Error};
use program_io::VERSION;
use schema_files::{ModuleHelp, push_module_args};
use std::alloc::{AllocError, Global};

/// What the arguments ask for.
#[derive(Drop)]
pub struct Options<'a> {
    /// Whether input whose DER encoding is ambiguous is rejected.
    pub strict: bool,
    /// The format of each input, or None if it is to be detected.
    pub input_format: Option<InputFormat>,
    /// The label of the blocks of PEM that are written, or None if bytes are written.
    pub label: Option<&'a str>,
    matches: ArgMatches<'a>,
}

impl<'a> Options<'a> {
    /// The files to read, of which `-` is standard input, or None if none is named.
    pub fn files(&self) -> Option<&[&'a str]> {
        self.matches.get_strs("FILE")
    }

    /// The options as they are given, of which those of modules are read elsewhere.
    pub fn matches(&self) -> &ArgMatches<'a> {
        &self.matches
    }
}

const ABOUT: &str = "Reads elements in BER, and writes them in DER to standard output.
A file is bytes, hexadecimal digits or blocks of PEM.
Without a module, values that equal a DEFAULT stay, though DER leaves them out.";

const STRICT_HELP: &str = "Reject elements whose DER encoding depends on a schema";

const MODULE_HELP: ModuleHelp = ModuleHelp {
    module: "Take the elements for values of a type of this module",
    type_name: "The name of the type in the module",
};

fn flag<'a>(alloc: Global, name: &'static str, help: &'static str) -> Arg<'a> {
    Arg::new(alloc, name)
        .long(name)
        .action(ArgAction::SetTrue)
        .help(help)
}

fn pem_arg<'a>(alloc: Global) -> Arg<'a> {
    Arg::new(alloc, "pem")
        .long("pem")
        .value_name("LABEL")
        .action(ArgAction::Set)
        .help("Write a block of PEM with this label in place of the bytes")
}

fn files_arg<'a>(alloc: Global) -> Arg<'a> {
    Arg::new(alloc, "FILE")
        .action(ArgAction::Append)
        .num_args(0..)
        .help("The files to read (- is standard input, and so is none)")
}

fn all_args<'a>(alloc: Global) -> Result<Vec<Arg<'a>>, AllocError> {
    let mut args = Vec::new(alloc);
    args.push(flag(alloc, "strict", STRICT_HELP))?;
    args.push(flag(alloc, "hex", "Each file is hexadecimal text").conflicts_with("bytes")?)?;
    args.push(flag(alloc, "bytes", "Each file is the bytes themselves"))?;
    args.push(pem_arg(alloc))?;
    push_module_args(alloc, &mut args, MODULE_HELP)?;
    args.push(files_arg(alloc))?;
    Ok(args)
}

fn command<'a>(alloc: Global) -> Result<Command<'a>, AllocError> {
    let args = all_args(alloc)?;
    Command::new(alloc, "asn1der")
        .about(ABOUT)
        .version(VERSION)
        .bin_name("asn1der")?
        .args(args)
}

// The format that one of these flags names.
fn format_of(hex: bool, bytes: bool) -> Option<InputFormat> {
    if hex {
        Some(InputFormat::Hex)
    } else if bytes {
        Some(InputFormat::Bytes)
    } else {
        None
    }
}

/// The options of a command line, which begins with the program's name.
pub fn options_of<'a>(alloc: Global, words: &'a [String]) -> Result<Options<'a>, Error> {
    let mut command = command(alloc)?;
    let matches = command.try_get_matches_from_mut(words)?;
    let strict = matches.get_flag("strict");
    let input_format = format_of(matches.get_flag("hex"), matches.get_flag("bytes"));
    let label = matches.get_str("pem");
    Ok(Options {
        strict,
        input_format,
        label,
        matches,
    })
}
