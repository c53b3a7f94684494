//! The tables of the types of modules in files, for the programs whose inputs are of these types, and the options that name them.
#![tactic(auto)]

ghost use Rattle.std.specs.Prelude.{◌≡◌, ◌⊎◌, IfErr};

mod options;

use asn1_types::model::{KnownType, Resolved};
use asn1_types::{resolve, resolve_incomplete};
use asn1show_modules::{position_of_reference, schema_of};
use asn1show_schema::Schema;
use clap::ArgMatches;
use module_files::{ModuleFile, Modules, parse_files, read_files, report_problems};
pub use options::{ModuleHelp, push_module_args};
use program_io::{ProgramError, report};
use std::alloc::{AllocError, Global};

// The status if no module has the type.
const NO_TYPE: u8 = 1;

// The type that the inputs are of, and whether any element is taken for a type that no module gives.
#[derive(Clone, Copy)]
struct Wanted<'w> {
    type_name: &'w str,
    is_incomplete: bool,
}

// Prints that no module has the type, after what is wrong in the modules, and returns the status.
fn reject(rt: &HostRuntime, type_name: &str) -> u8
    ensures { result ≡ 1 }
{
    report(rt, type_name, &"no module has this type");
    NO_TYPE
}

// The types of modules, unless memory runs out.
fn types_of<'a>(
    alloc: Global,
    modules: &'a Modules<'a>,
    known: &'a [KnownType<'a>],
    is_incomplete: bool,
) -> Result<Resolved<'a>, AllocError> {
    let modules = modules.modules.as_slice();
    if is_incomplete {
        resolve_incomplete(alloc, modules, known)
    } else {
        resolve(alloc, modules, known)
    }
}

// The tables of modules, which are lent until the program ends. Else the error is printed, and the exit status is returned.
fn resolved_schema<'a>(
    rt: &HostRuntime,
    files: &'a [ModuleFile<'a>],
    modules: &'a Modules<'a>,
    known: &'a [KnownType<'a>],
    wanted: Wanted<'_>,
) -> Result<Schema, u8>
    ensures { IfErr result (λ status. (status ≡ 1) ⊎ (status ≡ 3)) }
{
    let Ok(resolved) = types_of(rt.alloc(), modules, known, wanted.is_incomplete) else {
        return Err(ProgramError::Memory.report(rt));
    };
    let definitions = resolved.definitions.as_slice();
    let modules_of_files = modules.modules.as_slice();
    let name = wanted.type_name.as_bytes();
    let Some(position) = position_of_reference(modules_of_files, definitions, name) else {
        report_problems(rt, files, modules, resolved.problems.as_slice());
        return Err(reject(rt, wanted.type_name));
    };
    match schema_of(rt.alloc(), modules_of_files, &resolved, position) {
        Ok(schema) => Ok(schema),
        Err(_) => Err(ProgramError::Memory.report(rt)),
    }
}

// The tables of the modules in files that were read. Else the error is printed, and the exit status is returned.
fn lent_schema<'a>(
    rt: &HostRuntime,
    files: &'a [ModuleFile<'a>],
    wanted: Wanted<'_>,
) -> Result<Schema, u8>
    ensures { IfErr result (λ status. (status ≡ 1) ⊎ (status ≡ 3)) }
{
    let modules = parse_files(rt, files)?;
    match Box::new(rt.alloc(), modules) {
        Ok(modules) => {
            let known = Vec::new(rt.alloc());
            resolved_schema(rt, files, Box::leak(modules), known.leak(), wanted)
        }
        Err(_) => Err(ProgramError::Memory.report(rt)),
    }
}

/// The tables of the modules that the options name, for values of their type, or None if they name no module. Else the error is printed, and the
/// exit status is returned: 1 if a file is rejected or none has the type, and 3 if a file can't be read or memory ran out.
pub fn schema_of_options(rt: &HostRuntime, matches: &ArgMatches<'_>) -> Result<Option<Schema>, u8>
    ensures { IfErr result (λ status. (status ≡ 1) ⊎ (status ≡ 3)) }
{
    let Some(type_name) = matches.get_str("type") else {
        return Ok(None);
    };
    let wanted = Wanted {
        type_name,
        is_incomplete: matches.get_flag("incomplete"),
    };
    let files = read_files(rt, matches.get_strs("module").unwrap_or(&[]))?;
    let schema = lent_schema(rt, files.as_slice(), wanted)?;
    Ok(Some(schema))
}
