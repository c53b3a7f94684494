//! The files of the modules, and what is wrong in them.
ghost use Rattle.std.specs.Prelude.{◌≡◌, ◌↔◌, ◌⊎◌, [], IfErr};

use crate::location::report_at;
use asn1_syntax::tree::Module;
use asn1_syntax::{SyntaxError, parse};
use asn1_types::{Problem, problem_text};
use program_io::{Input, ProgramError};
use std::alloc::Global;

// The exit status if a module is rejected.
const REJECTED: u8 = 1;

/// A file of modules.
#[derive(Drop)]
pub struct ModuleFile<'a> {
    /// The name.
    pub name: &'a str,
    /// The source.
    pub source: Vec<u8>,
}

/// Reads the files. Else the error is printed, and the exit status is returned, which is 3.
pub fn read_files<'a>(rt: &HostRuntime, names: &[&'a str]) -> Result<Vec<ModuleFile<'a>>, u8>
    ensures { IfErr result (λ status. status ≡ 3) }
{
    let mut files = Vec::new(rt.alloc());
    for name in names {
        let source = Input::named(Some(*name)).read(rt)?;
        if files
            .push(ModuleFile {
                name: *name,
                source,
            })
            .is_err()
        {
            return Err(ProgramError::Memory.report(rt));
        }
    }
    Ok(files)
}

/// The modules of files.
#[derive(Drop)]
pub struct Modules<'a> {
    /// The modules.
    pub modules: Vec<Module<'a>>,
    /// The file of each.
    pub files: Vec<usize>,
}

// Prints why a file is rejected, and returns the status.
fn reject(rt: &HostRuntime, file: &ModuleFile<'_>, error: SyntaxError) -> u8
    ensures { (result ≡ 1) ⊎ (result ≡ 3) }
{
    match error {
        SyntaxError::Memory => ProgramError::Memory.report(rt),
        SyntaxError::Malformed { offset, expected } => {
            if let Ok(why) = format!(in rt.alloc(); "expected {expected}") {
                report_at(rt, file.name, file.source.as_slice(), offset, why.as_str());
            }
            REJECTED
        }
    }
}

// Adds the modules of a file, unless memory runs out.
fn add_modules<'a>(all: &mut Modules<'a>, place: usize, modules: Vec<Module<'a>>) -> bool {
    for module in modules {
        if all.modules.push(module).is_err() || all.files.push(place).is_err() {
            return false;
        }
    }
    true
}

/// The modules of files. Else each error is printed, and the exit status is returned: 1 if a file is rejected, and 3 if memory ran out.
pub fn parse_files<'a>(rt: &HostRuntime, files: &'a [ModuleFile<'a>]) -> Result<Modules<'a>, u8>
    ensures { IfErr result (λ status. (status ≡ 1) ⊎ (status ≡ 3)) }
{
    let alloc = rt.alloc();
    let mut all = Modules {
        modules: Vec::new(alloc),
        files: Vec::new(alloc),
    };
    let mut status = 0;
    for (place, file) in files.iter().enumerate() {
        match parse(alloc, file.source.as_slice()) {
            Ok(modules) => {
                if !add_modules(&mut all, place, modules) {
                    return Err(ProgramError::Memory.report(rt));
                }
            }
            Err(error) => status = reject(rt, file, error),
        }
    }
    if status == 0 { Ok(all) } else { Err(status) }
}

/// Prints what is wrong at a place of a module.
pub fn report_place(
    rt: &HostRuntime,
    files: &[ModuleFile<'_>],
    modules: &Modules<'_>,
    module: usize,
    offset: usize,
    why: &str,
) {
    let Some(place) = modules.files.get(module) else {
        return
    };
    if let Some(file) = files.get(*place) {
        report_at(rt, file.name, file.source.as_slice(), offset, why);
    }
}

/// Prints why types are rejected, and returns the status.
pub fn report_problems(
    rt: &HostRuntime,
    files: &[ModuleFile<'_>],
    modules: &Modules<'_>,
    problems: &[Problem],
) -> u8
    ensures { (result ≡ 0) ↔ (problems.now ≡ []) }
{
    for problem in problems {
        let place = problem.place;
        report_place(
            rt,
            files,
            modules,
            place.module,
            place.offset,
            problem_text(problem.kind),
        );
        if let Some(other) = problem.other {
            report_place(
                rt,
                files,
                modules,
                other.module,
                other.offset,
                "the other one is here",
            );
        }
    }
    if problems.is_empty() { 0 } else { REJECTED }
}
