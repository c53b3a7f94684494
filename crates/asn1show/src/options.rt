//! The options of the command line.

use asn1show_lines::{Extent, InputFormat, Layout, Numbers, Part, Selection, View};
use clap::{Arg, ArgAction, ArgMatches, Command, Error};
use program_io::VERSION;
use schema_files::{ModuleHelp, push_module_args};
use std::alloc::{AllocError, Global};
use yasna_base::mode::BERMode;

/// The options that the arguments name.
#[derive(Drop)]
pub struct Options<'a> {
    /// The encoding rules by which the input is read.
    pub mode: BERMode,
    /// The format of the input, or None if it is to be detected.
    pub input_format: Option<InputFormat>,
    /// What is shown of the elements, and how.
    pub view: View<'a>,
    matches: ArgMatches<'a>,
}

impl<'a> Options<'a> {
    /// The files to list, of which `-` is standard input, or None if none is named.
    pub fn files(&self) -> Option<&[&'a str]> {
        self.matches.get_strs("FILE")
    }

    /// The options as they are given, of which those of modules are read elsewhere.
    pub fn matches(&self) -> &ArgMatches<'a> {
        &self.matches
    }
}

const WIDTH: usize = 64;

const DEPTH_HELP: &str = "Show no elements that are more than N levels deep";

const AT_HELP: &str = "Show only the element at offset N, with what is in it";

const EXTRACT_HELP: &str = "Write the bytes of the element at offset N";

const MODULE_HELP: ModuleHelp = ModuleHelp {
    module: "Name the elements by the types of this module",
    type_name: "The type of the input in the module",
};

static MODES: [&str; 3] = ["ber", "der", "cer"];

// A flag that excludes two other flags.
struct Flag {
    name: &'static str,
    others: [&'static str; 2],
    help: &'static str,
}

static FLAGS: [Flag; 6] = [
    Flag {
        name: "ber",
        others: ["der", "cer"],
        help: "Read by the basic rules (the default)",
    },
    Flag {
        name: "der",
        others: ["ber", "cer"],
        help: "Read by the distinguished rules",
    },
    Flag {
        name: "cer",
        others: ["ber", "der"],
        help: "Read by the canonical rules",
    },
    Flag {
        name: "hex",
        others: ["pem", "bytes"],
        help: "The input is hexadecimal text",
    },
    Flag {
        name: "pem",
        others: ["hex", "bytes"],
        help: "The input has blocks of PEM",
    },
    Flag {
        name: "bytes",
        others: ["hex", "pem"],
        help: "The input is the bytes themselves",
    },
];

fn switch<'a>(alloc: Global, flag: &Flag) -> Arg<'a> {
    Arg::new(alloc, flag.name)
        .long(flag.name)
        .action(ArgAction::SetTrue)
        .help(flag.help)
}

fn flag_arg<'a>(alloc: Global, flag: &Flag) -> Result<Arg<'a>, AllocError> {
    switch(alloc, flag).conflicts_with_all(&flag.others)
}

// An argument with a value.
fn value_arg<'a>(alloc: Global, id: &'static str, help: &'static str) -> Arg<'a> {
    Arg::new(alloc, id).action(ArgAction::Set).help(help)
}

// An option with a number, which isn't given together with these others.
fn number_arg<'a>(
    alloc: Global,
    name: &'static str,
    others: &'static [&'static str],
    help: &'static str,
) -> Result<Arg<'a>, AllocError> {
    value_arg(alloc, name, help)
        .long(name)
        .value_name("N")
        .value_parser(clap::value_parser!(u32))
        .conflicts_with_all(others)
}

fn contents_arg<'a>(alloc: Global) -> Result<Arg<'a>, AllocError> {
    Arg::new(alloc, "contents")
        .long("contents")
        .action(ArgAction::SetTrue)
        .help("With --extract, write only the contents of the element")
        .requires_arg("extract")
}

fn width_arg<'a>(alloc: Global) -> Arg<'a> {
    value_arg(
        alloc,
        "width",
        "Show at most N hexadecimal digits of a value",
    )
    .long("width")
    .value_name("N")
    .value_parser(clap::value_parser!(u32))
}

fn json_arg<'a>(alloc: Global, others: &'static [&'static str]) -> Result<Arg<'a>, AllocError> {
    Arg::new(alloc, "json")
        .long("json")
        .action(ArgAction::SetTrue)
        .help("Write the elements as JSON")
        .conflicts_with_all(others)
}

fn html_arg<'a>(alloc: Global, others: &'static [&'static str]) -> Result<Arg<'a>, AllocError> {
    Arg::new(alloc, "html")
        .long("html")
        .action(ArgAction::SetTrue)
        .help("Write the elements as a page of HTML")
        .conflicts_with_all(others)
}

fn decimal_arg<'a>(alloc: Global) -> Arg<'a> {
    Arg::new(alloc, "decimal")
        .long("decimal")
        .action(ArgAction::SetTrue)
        .help("Show integers of more than 8 octets in decimal")
}

fn dump_arg<'a>(alloc: Global, others: &'static [&'static str]) -> Result<Arg<'a>, AllocError> {
    Arg::new(alloc, "dump")
        .long("dump")
        .action(ArgAction::SetTrue)
        .help("Show the first octets of an element beside its line")
        .conflicts_with_all(others)
}

fn check_arg<'a>(alloc: Global) -> Arg<'a> {
    value_arg(
        alloc,
        "check",
        "Show only what these rules reject (by default those that are read)",
    )
    .long("check")
    .value_name("MODE")
    .num_args(0..=1)
    .require_equals(true)
    .value_parser(MODES.as_slice())
}

fn files_arg<'a>(alloc: Global) -> Arg<'a> {
    Arg::new(alloc, "FILE")
        .action(ArgAction::Append)
        .num_args(0..)
        .help("The files to list (- is standard input, and so is none)")
}

fn push_flag(alloc: Global, args: &mut Vec<Arg<'_>>, flag: &Flag) -> Result<(), AllocError> {
    let arg = flag_arg(alloc, flag)?;
    Ok(args.push(arg)?)
}

fn push_values(alloc: Global, args: &mut Vec<Arg<'_>>) -> Result<(), AllocError> {
    args.push(check_arg(alloc))?;
    args.push(number_arg(alloc, "depth", &["check", "extract"], DEPTH_HELP)?)?;
    args.push(number_arg(alloc, "at", &["check", "extract"], AT_HELP)?)?;
    args.push(number_arg(alloc, "extract", &["check"], EXTRACT_HELP)?)?;
    args.push(contents_arg(alloc)?)?;
    args.push(json_arg(alloc, &["check", "extract", "html"])?)?;
    args.push(html_arg(alloc, &["check", "extract"])?)?;
    args.push(dump_arg(alloc, &["extract", "json", "html"])?)?;
    args.push(decimal_arg(alloc))?;
    args.push(width_arg(alloc))?;
    push_module_args(alloc, args, MODULE_HELP)?;
    Ok(args.push(files_arg(alloc))?)
}

fn all_args<'a>(alloc: Global) -> Result<Vec<Arg<'a>>, AllocError> {
    let mut args = Vec::new(alloc);
    for flag in &FLAGS {
        push_flag(alloc, &mut args, flag)?;
    }
    push_values(alloc, &mut args)?;
    Ok(args)
}

fn without_args<'a>(alloc: Global) -> Result<Command<'a>, AllocError> {
    Command::new(alloc, "asn1show")
        .about("Lists the elements of ASN.1 bytes, a line an element")
        .version(VERSION)
        .bin_name("asn1show")
}

fn command<'a>(alloc: Global) -> Result<Command<'a>, AllocError> {
    let args = all_args(alloc)?;
    without_args(alloc)?.args(args)
}

fn mode_of(matches: &ArgMatches<'_>) -> BERMode {
    if matches.get_flag("der") {
        BERMode::Der
    } else if matches.get_flag("cer") {
        BERMode::Cer
    } else {
        BERMode::Ber
    }
}

// The rules of a check, which are those that the input is read by if none are named.
fn checked_mode(matches: &ArgMatches<'_>) -> BERMode {
    match matches.get_str("check") {
        Some("ber") => BERMode::Ber,
        Some("der") => BERMode::Der,
        Some("cer") => BERMode::Cer,
        _ => mode_of(matches),
    }
}

// The number of an option, if it is given.
fn number_of(matches: &ArgMatches<'_>, name: &str) -> Option<usize> {
    match matches.get_one::<u32>(name) {
        Some(number) => Some(number as usize),
        None => None,
    }
}

// The elements that are listed. None is more than 255 levels deep.
fn extent_of(matches: &ArgMatches<'_>) -> Extent {
    let depth = number_of(matches, "depth").unwrap_or(usize::MAX);
    Extent {
        at: number_of(matches, "at"),
        depth: u8::try_from(depth).unwrap_or(u8::MAX),
    }
}

fn part_of(matches: &ArgMatches<'_>) -> Part {
    if matches.get_flag("contents") {
        Part::Contents
    } else {
        Part::Whole
    }
}

fn selection_of(matches: &ArgMatches<'_>) -> Selection {
    if matches.contains_id("check") {
        return Selection::Defects(checked_mode(matches));
    }
    match number_of(matches, "extract") {
        Some(at) => Selection::Bytes(at, part_of(matches)),
        None => Selection::Elements(extent_of(matches)),
    }
}

fn numbers_of(matches: &ArgMatches<'_>) -> Numbers {
    if matches.get_flag("decimal") {
        Numbers::Decimal
    } else {
        Numbers::Hexadecimal
    }
}

fn layout_of(matches: &ArgMatches<'_>) -> Layout {
    if matches.get_flag("json") {
        Layout::Json
    } else if matches.get_flag("html") {
        Layout::Html
    } else {
        Layout::Lines
    }
}

// The most hexadecimal digits of a value, if no option says it. In JSON values are whole.
fn default_width(layout: Layout) -> usize {
    match layout {
        Layout::Lines | Layout::Html => WIDTH,
        Layout::Json => usize::MAX,
    }
}

fn view_of<'a>(matches: &ArgMatches<'a>) -> View<'a> {
    let layout = layout_of(matches);
    View {
        name: "input",
        selection: selection_of(matches),
        layout,
        numbers: numbers_of(matches),
        width: number_of(matches, "width").unwrap_or(default_width(layout)),
        has_dump: matches.get_flag("dump"),
        schema: None,
    }
}

fn format_of(matches: &ArgMatches<'_>) -> Option<InputFormat> {
    if matches.get_flag("hex") {
        Some(InputFormat::Hex)
    } else if matches.get_flag("pem") {
        Some(InputFormat::Pem)
    } else if matches.get_flag("bytes") {
        Some(InputFormat::Bytes)
    } else {
        None
    }
}

fn matches_of<'a>(alloc: Global, words: &'a [String]) -> Result<ArgMatches<'a>, Error> {
    command(alloc)?.try_get_matches_from(words)
}

fn found<'a>(matches: ArgMatches<'a>) -> Options<'a> {
    Options {
        mode: mode_of(&matches),
        input_format: format_of(&matches),
        view: view_of(&matches),
        matches,
    }
}

/// The options of a command line, which begins with the program's name.
pub fn options_of<'a>(alloc: Global, words: &'a [String]) -> Result<Options<'a>, Error> {
    let matches = matches_of(alloc, words)?;
    Ok(found(matches))
}
