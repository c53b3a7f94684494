//! The options of the command line.

use clap::{Arg, ArgAction, ArgMatches, Command, Error};
use program_io::VERSION;
use std::alloc::{AllocError, Global};

/// What the arguments ask for.
#[derive(Drop)]
pub struct Options<'a> {
    /// Whether types are listed, and no crate is written.
    pub list: bool,
    /// Whether the sources are compared with those that are there.
    pub check: bool,
    /// Whether a type is rejected that accepts more than its module.
    pub strict: bool,
    /// Whether a type that no module gives is any element.
    pub incomplete: bool,
    /// Whether a crate of tests is written too.
    pub tests: bool,
    matches: ArgMatches<'a>,
}

impl<'a> Options<'a> {
    /// The name of the crate.
    pub fn krate(&self) -> &'a str {
        self.matches.get_str("crate").unwrap_or("module_types")
    }

    /// The folder of crates.
    pub fn out(&self) -> &'a str {
        self.matches.get_str("out").unwrap_or("crates")
    }

    /// The types that are wanted, or None for all.
    pub fn types(&self) -> Option<&[&'a str]> {
        self.matches.get_strs("type")
    }

    /// The crates whose types modules may import.
    pub fn uses(&self) -> Option<&[&'a str]> {
        self.matches.get_strs("use")
    }

    /// The files to read.
    pub fn files(&self) -> Option<&[&'a str]> {
        self.matches.get_strs("FILE")
    }
}

const ABOUT: &str = "Writes a crate for the types of ASN.1 modules.
Each type is a notation of `yasna_notation`, and `rt check` proves what it accepts.";

const CHECK_HELP: &str = "Compare with the crate that is there, and write nothing";

const TESTS_HELP: &str = "Write a crate of tests too, and edits that the prover has to reject";

const INCOMPLETE_HELP: &str = "Take any element for a type that no module gives";

const STRICT_HELP: &str = "Reject a type that accepts more than its module";

fn flag<'a>(alloc: Global, name: &'static str, help: &'static str) -> Arg<'a> {
    Arg::new(alloc, name)
        .long(name)
        .action(ArgAction::SetTrue)
        .help(help)
}

fn list_flag<'a>(alloc: Global, others: &'static [&'static str]) -> Result<Arg<'a>, AllocError> {
    flag(alloc, "list", "List the types, and write nothing").conflicts_with_all(others)
}

fn tests_flag<'a>(alloc: Global, others: &'static [&'static str]) -> Result<Arg<'a>, AllocError> {
    flag(alloc, "tests", TESTS_HELP).conflicts_with_all(others)
}

// An option with a value.
struct ValueOption {
    name: &'static str,
    // What the help calls the value.
    value: &'static str,
    action: ArgAction,
    help: &'static str,
}

static VALUE_OPTIONS: [ValueOption; 4] = [
    ValueOption {
        name: "crate",
        value: "NAME",
        action: ArgAction::Set,
        help: "The name of the crate [default: module_types]",
    },
    ValueOption {
        name: "out",
        value: "FOLDER",
        action: ArgAction::Set,
        help: "The folder of crates [default: crates]",
    },
    ValueOption {
        name: "type",
        value: "TYPE",
        action: ArgAction::Append,
        help: "Write only this type and those that it names",
    },
    ValueOption {
        name: "use",
        value: "CRATE",
        action: ArgAction::Append,
        help: "Take types that modules import from this crate",
    },
];

fn value_arg<'a>(alloc: Global, option: &ValueOption) -> Arg<'a> {
    Arg::new(alloc, option.name)
        .long(option.name)
        .value_name(option.value)
        .action(option.action)
        .help(option.help)
}

fn files_arg<'a>(alloc: Global) -> Arg<'a> {
    Arg::new(alloc, "FILE")
        .required(true)
        .action(ArgAction::Append)
        .num_args(1..)
        .help("The files of the modules")
}

fn push_values(alloc: Global, args: &mut Vec<Arg<'_>>) -> Result<(), AllocError> {
    for option in &VALUE_OPTIONS {
        args.push(value_arg(alloc, option))?;
    }
    Ok(())
}

fn all_args<'a>(alloc: Global) -> Result<Vec<Arg<'a>>, AllocError> {
    let mut args = Vec::new(alloc);
    push_values(alloc, &mut args)?;
    args.push(list_flag(alloc, &["check"])?)?;
    args.push(flag(alloc, "check", CHECK_HELP))?;
    args.push(tests_flag(alloc, &["list", "check"])?)?;
    args.push(flag(alloc, "incomplete", INCOMPLETE_HELP))?;
    args.push(flag(alloc, "strict", STRICT_HELP))?;
    args.push(files_arg(alloc))?;
    Ok(args)
}

fn command<'a>(alloc: Global) -> Result<Command<'a>, AllocError> {
    let args = all_args(alloc)?;
    Command::new(alloc, "asn1compile")
        .about(ABOUT)
        .version(VERSION)
        .bin_name("asn1compile")?
        .args(args)
}

/// The options of a command line, which begins with the program's name.
pub fn options_of<'a>(alloc: Global, words: &'a [String]) -> Result<Options<'a>, Error> {
    let mut command = command(alloc)?;
    let matches = command.try_get_matches_from_mut(words)?;
    let list = matches.get_flag("list");
    let check = matches.get_flag("check");
    let incomplete = matches.get_flag("incomplete");
    let strict = matches.get_flag("strict");
    let tests = matches.get_flag("tests");
    Ok(Options {
        list,
        check,
        strict,
        incomplete,
        tests,
        matches,
    })
}
