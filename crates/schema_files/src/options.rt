//! The options of a program whose inputs are values of a type of modules.

use clap::{Arg, ArgAction};
use std::alloc::{AllocError, Global};

const INCOMPLETE_HELP: &str = "Take any element for a type that no module gives";

fn module_arg<'a>(alloc: Global, help: &'static str) -> Result<Arg<'a>, AllocError> {
    Arg::new(alloc, "module")
        .long("module")
        .value_name("FILE")
        .action(ArgAction::Append)
        .help(help)
        .requires_arg("type")
}

fn type_arg<'a>(alloc: Global, help: &'static str) -> Result<Arg<'a>, AllocError> {
    Arg::new(alloc, "type")
        .long("type")
        .value_name("NAME")
        .action(ArgAction::Set)
        .help(help)
        .requires_arg("module")
}

fn incomplete_arg<'a>(alloc: Global) -> Result<Arg<'a>, AllocError> {
    Arg::new(alloc, "incomplete")
        .long("incomplete")
        .action(ArgAction::SetTrue)
        .help(INCOMPLETE_HELP)
        .requires_arg("module")
}

/// What `--help` says of the options of modules.
#[derive(Clone, Copy)]
pub struct ModuleHelp {
    /// Of `--module`.
    pub module: &'static str,
    /// Of `--type`.
    pub type_name: &'static str,
}

/// Appends `--module`, `--type` and `--incomplete`. Neither of the first two is given without the other, and the third not without them. An Err is of
/// memory.
pub fn push_module_args<'a>(
    alloc: Global,
    args: &mut Vec<Arg<'a>>,
    help: ModuleHelp,
) -> Result<(), AllocError> {
    args.push(module_arg(alloc, help.module)?)?;
    args.push(type_arg(alloc, help.type_name)?)?;
    args.push(incomplete_arg(alloc)?)?;
    Ok(())
}
