//! The options of the command line.

use crate::message_type::MessageType;
use crate::subject::Subject;
use asn1_input::InputFormat;
use clap::error::ErrorKind;
use clap::{Arg, ArgAction, ArgMatches, Command, Error};
use program_io::VERSION;
use schema_files::{ModuleHelp, push_module_args};
use std::alloc::{AllocError, Global};
use yasna::BERMode;

/// What the arguments ask for.
#[derive(Drop)]
pub struct Options<'a> {
    /// The type of each message, or None if the label of each block of PEM names it, or a module has it.
    pub kind: Option<MessageType>,
    /// The format of each input, or None if it is to be detected.
    pub input_format: Option<InputFormat>,
    /// Whether the DER encoding of each message is written.
    pub encode: bool,
    /// The files to read, of which `-` is standard input.
    pub files: Vec<&'a str>,
    // The encoding rules that are asked for.
    mode: Option<BERMode>,
    matches: ArgMatches<'a>,
}

impl<'a> Options<'a> {
    /// The options as they are given, of which those of modules are read elsewhere.
    pub fn matches(&self) -> &ArgMatches<'a> {
        &self.matches
    }

    /// The encoding rules by which messages are read: those that are asked for, else those that they are sent in, or DER for a type of a module.
    pub fn mode_of(&self, subject: Subject<'_>) -> BERMode {
        match (self.mode, subject) {
            (Some(mode), _) => mode,
            (None, Subject::Message(kind)) => kind.mode(),
            (None, Subject::Module(_)) => BERMode::Der,
        }
    }
}

const ENCODE_HELP: &str = "Write each message in DER to standard output";

const MODULE_HELP: ModuleHelp = ModuleHelp {
    module: "Check values of a type of this module, in place of a KIND",
    type_name: "The name of the type in the module",
};

const NO_KIND: &str = "a KIND is expected, or --module and --type";

const ABOUT: &str = "Checks that each file is messages of a type, one after the other.
A file is bytes, hexadecimal digits or blocks of PEM, whose labels name the type.
The messages of SNMP and LDAP are read in BER, all others in DER.";

// The kind of messages whose labels in PEM name their types.
const ANY: &str = "any";

const KIND_HELP: &str =
    "The type of the messages: certificate, crl, csr, public-key, private-key, rsa-public-key, rsa-private-key,
ec-private-key, cms, snmp-v1, snmp-v2c, ldap, ocsp-request, ocsp-response, tsp-request, tsp-response,
or any (that of each label)";

// A flag that excludes others.
struct FormatFlag {
    name: &'static str,
    others: [&'static str; 2],
    help: &'static str,
}

static FORMATS: [FormatFlag; 3] = [
    FormatFlag {
        name: "hex",
        others: ["pem", "bytes"],
        help: "Each file is hexadecimal text",
    },
    FormatFlag {
        name: "pem",
        others: ["hex", "bytes"],
        help: "Each file has blocks of PEM",
    },
    FormatFlag {
        name: "bytes",
        others: ["hex", "pem"],
        help: "Each file is the bytes themselves",
    },
];

fn flag<'a>(alloc: Global, name: &'static str, help: &'static str) -> Arg<'a> {
    Arg::new(alloc, name)
        .long(name)
        .action(ArgAction::SetTrue)
        .help(help)
}

fn kind_arg<'a>(alloc: Global) -> Arg<'a> {
    Arg::new(alloc, "KIND")
        .action(ArgAction::Set)
        .help(KIND_HELP)
}

fn files_arg<'a>(alloc: Global) -> Arg<'a> {
    Arg::new(alloc, "FILE")
        .action(ArgAction::Append)
        .num_args(0..)
        .help("The files to read (standard input for - or if there is none)")
}

fn format_arg<'a>(alloc: Global, format: &FormatFlag) -> Result<Arg<'a>, AllocError> {
    flag(alloc, format.name, format.help).conflicts_with_all(&format.others)
}

fn all_args<'a>(alloc: Global) -> Result<Vec<Arg<'a>>, AllocError> {
    let mut args = Vec::new(alloc);
    args.push(flag(alloc, "ber", "Read in BER").conflicts_with("der")?)?;
    args.push(flag(alloc, "der", "Read in DER"))?;
    for format in &FORMATS {
        args.push(format_arg(alloc, format)?)?;
    }
    args.push(flag(alloc, "encode", ENCODE_HELP).conflicts_with("module")?)?;
    push_module_args(alloc, &mut args, MODULE_HELP)?;
    args.push(kind_arg(alloc))?;
    args.push(files_arg(alloc))?;
    Ok(args)
}

fn command<'a>(alloc: Global) -> Result<Command<'a>, AllocError> {
    let args = all_args(alloc)?;
    Command::new(alloc, "asn1check")
        .about(ABOUT)
        .version(VERSION)
        .bin_name("asn1check")?
        .args(args)
}

// The encoding rules that the flags name.
fn asked_mode(matches: &ArgMatches<'_>) -> Option<BERMode> {
    if matches.get_flag("ber") {
        Some(BERMode::Ber)
    } else if matches.get_flag("der") {
        Some(BERMode::Der)
    } else {
        None
    }
}

// The format that the flags name.
fn asked_format(matches: &ArgMatches<'_>) -> Option<InputFormat> {
    if matches.get_flag("hex") {
        Some(InputFormat::Hex)
    } else if matches.get_flag("pem") {
        Some(InputFormat::Pem)
    } else if matches.get_flag("bytes") {
        Some(InputFormat::Bytes)
    } else {
        None
    }
}

// The names of the files. The first one is no KIND if a module is given.
fn files_of<'a>(alloc: Global, matches: &ArgMatches<'a>) -> Result<Vec<&'a str>, AllocError> {
    let mut files = Vec::new(alloc);
    if matches.contains_id("module") {
        if let Some(first) = matches.get_str("KIND") {
            files.push(first)?;
        }
    }
    for name in matches.get_strs("FILE").unwrap_or(&[]) {
        files.push(*name)?;
    }
    if files.is_empty() {
        files.push("-")?;
    }
    Ok(files)
}

// Why a word is no KIND.
fn kind_error(command: &mut Command<'_>, word: Option<&str>) -> Result<Error, AllocError> {
    match word {
        Some(_) => command.error(ErrorKind::InvalidValue, NO_KIND),
        None => command.error(ErrorKind::MissingRequiredArgument, NO_KIND),
    }
}

/// The options of a command line, which begins with the program's name.
pub fn options_of<'a>(alloc: Global, words: &'a [String]) -> Result<Options<'a>, Error> {
    let mut command = command(alloc)?;
    let matches = command.try_get_matches_from_mut(words)?;
    let word = matches.get_str("KIND");
    let kind = MessageType::named(word.unwrap_or(""));
    let is_any = matches.contains_id("module") || word == Some(ANY);
    if kind.is_none() && !is_any {
        return Err(kind_error(&mut command, word)?);
    }
    Ok(Options {
        kind,
        input_format: asked_format(&matches),
        encode: matches.get_flag("encode"),
        files: files_of(alloc, &matches)?,
        mode: asked_mode(&matches),
        matches,
    })
}
