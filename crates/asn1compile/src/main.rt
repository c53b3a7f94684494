//! `asn1compile [OPTIONS] FILE ..` writes a crate for the types of ASN.1 modules.
//!
//! | Status | When |
//! |---|---|
//! | 0 | each type is in the crate |
//! | 1 | a file or a type is rejected, or the crate that is there differs from the one that would be written |
//! | 2 | usage error |
//! | 3 | I/O error, or out of memory |
//!
//! | Module | Holds |
//! |---|---|
//! | `options` | the options of the command line |
//! | `exports` | the types that crates export to modules |
//! | `type_reports` | what is printed of types: where they accept more than their modules, and which aren't there |
//! | `output` | the files of a crate: they are written, or compared with those that are there |
#![tactic(auto)]

mod exports;
mod options;
mod output;
mod type_reports;

use asn1_source::{
    CrateSource, Export, ModuleSource, SourceFile, TypeName, crate_line, differences_of,
    known_names, known_types, list_of, mutants_of, names_of, reached, source_of, sources_of,
    tests_of,
};
use asn1_syntax::tree::Module;
use asn1_types::model::{Definition, KnownType, Resolved};
use asn1_types::{resolve, resolve_incomplete};
use exports::{ExportsFile, parse_exports, read_exports};
use module_files::{ModuleFile, Modules, parse_files, read_files, report_problems};
use options::{Options, options_of};
use output::{check_files, write_files};
use program_io::{ProgramError, arguments, explain, report, write_output};
use std::alloc::{AllocError, Global};
use std::process::ExitCode;
use type_reports::{report_differences, report_unknown};

// The exit status after an I/O error, or if memory ran out.
const IO_ERROR: u8 = 3;

// The modules with their sources.
fn module_sources<'a>(
    alloc: Global,
    files: &'a [ModuleFile<'a>],
    modules: &'a Modules<'a>,
) -> Result<Vec<ModuleSource<'a>>, AllocError> {
    let mut sources = Vec::new(alloc);
    for (tree, place) in modules.modules.iter().zip(modules.files.iter()) {
        let source = match files.get(*place) {
            Some(file) => file.source.as_slice(),
            None => b"",
        };
        if sources.push(ModuleSource { source, tree }).is_err() {
            return Err(AllocError);
        }
    }
    Ok(sources)
}

// Writes or compares the files of a crate, and returns the status.
fn finish(
    rt: &HostRuntime,
    options: &Options<'_>,
    source: &CrateSource<'_, '_>,
    files: &[SourceFile],
) -> u8 {
    if options.check {
        return check_files(rt, options.out(), options.krate(), files);
    }
    let status = write_files(rt, options.out(), options.krate(), files);
    if status != 0 {
        return status;
    }
    let mut line = crate_line(rt.alloc(), source, files);
    line.say("\n");
    let status = write_text(rt, line.as_slice());
    if status == 0 && options.tests {
        return write_tests(rt, options, source);
    }
    status
}

// Writes the crate of tests and the edits of a crate, and returns the status.
fn write_tests(rt: &HostRuntime, options: &Options<'_>, source: &CrateSource<'_, '_>) -> u8 {
    let alloc = rt.alloc();
    let krate = options.krate();
    let (Ok(tests), Ok(mutants), Ok(name)) = (
        tests_of(alloc, source),
        mutants_of(alloc, source),
        format!(in alloc; "{krate}_tests"),
    ) else {
        return ProgramError::Memory.report(rt);
    };
    let edits = write_files(rt, options.out(), krate, mutants.as_slice());
    let status = edits.max(write_files(rt, options.out(), name.as_str(), tests.as_slice()));
    match format!(in alloc; "{name}: yasna yasna_notation {krate}\n") {
        Ok(line) if status == 0 => write_text(rt, line.as_bytes()),
        Ok(_) => status,
        Err(_) => ProgramError::Memory.report(rt),
    }
}

// Writes a text to standard output, and returns the status.
fn write_text(rt: &HostRuntime, text: &[u8]) -> u8 {
    match write_output(rt, text) {
        Ok(()) => 0,
        Err(error) => error.report(rt),
    }
}

// Writes the crate or the list of types, and returns the status.
fn emit(rt: &HostRuntime, options: &Options<'_>, source: &CrateSource<'_, '_>) -> u8 {
    if options.list {
        let list = list_of(rt.alloc(), source);
        return write_text(rt, list.as_slice());
    }
    match sources_of(rt.alloc(), source) {
        Ok(files) => finish(rt, options, source, files.as_slice()),
        Err(_) => ProgramError::Memory.report(rt),
    }
}

// Prints where a type accepts more than its module, and returns the status.
fn judge_one(
    rt: &HostRuntime,
    files: &[ModuleFile<'_>],
    modules: &Modules<'_>,
    definition: &Definition<'_>,
    name: &TypeName,
) -> u8 {
    match differences_of(rt.alloc(), definition, name) {
        Ok(differences) => report_differences(rt, files, modules, differences.as_slice()),
        Err(_) => ProgramError::Memory.report(rt),
    }
}

// Prints where wanted types accept more than the modules, and returns the status.
fn judge(
    rt: &HostRuntime,
    files: &[ModuleFile<'_>],
    modules: &Modules<'_>,
    source: &CrateSource<'_, '_>,
) -> u8 {
    let mut status = 0;
    for (place, name) in source.names.defined.iter().enumerate() {
        let (Some(definition), Some(is_wanted)) = (
            source.definitions.get(place),
            source.wanted.get(place),
        ) else {
            continue
        };
        if *is_wanted {
            status = judge_one(rt, files, modules, definition, name).max(status);
        }
    }
    status
}

// Prints what keeps a crate from being written: a type that isn't there, and with `--strict` one that accepts more than its module.
// Returns the status.
fn obstacles(
    rt: &HostRuntime,
    options: &Options<'_>,
    files: &[ModuleFile<'_>],
    modules: &Modules<'_>,
    source: &CrateSource<'_, '_>,
) -> u8 {
    let types = options.types().unwrap_or(&[]);
    let unknown = report_unknown(rt, types, source.definitions);
    if options.strict {
        unknown.max(judge(rt, files, modules, source))
    } else {
        unknown
    }
}

// The crate of definitions, or its list. Else memory ran out.
fn compile<'a>(
    rt: &HostRuntime,
    options: &Options<'_>,
    files: &'a [ModuleFile<'a>],
    modules: &'a Modules<'a>,
    exports: &[Export<'_>],
    resolved: &Resolved<'a>,
) -> Result<u8, AllocError> {
    let definitions = resolved.definitions.as_slice();
    let alloc = rt.alloc();
    let imported = known_names(alloc, exports)?;
    let krate = options.krate().as_bytes();
    let names = names_of(
        alloc,
        krate,
        definitions,
        resolved.tag_sets.as_slice(),
        imported,
    )?;
    let wanted = reached(alloc, definitions, options.types())?;
    let sources = module_sources(alloc, files, modules)?;
    let source = source_of(
        krate,
        sources.as_slice(),
        definitions,
        resolved.tag_sets.as_slice(),
        &names,
        wanted.as_slice(),
        resolved.constants.as_slice(),
    );
    let status = obstacles(rt, options, files, modules, &source);
    if status != 0 && !options.list {
        return Ok(status);
    }
    Ok(status.max(emit(rt, options, &source)))
}

// Compiles resolved modules, and returns the status.
fn run_resolved<'a>(
    rt: &HostRuntime,
    options: &Options<'_>,
    files: &'a [ModuleFile<'a>],
    modules: &'a Modules<'a>,
    exports: &[Export<'_>],
    resolved: &Resolved<'a>,
) -> u8 {
    let rejected = report_problems(rt, files, modules, resolved.problems.as_slice());
    match compile(rt, options, files, modules, exports, resolved) {
        Ok(status) => rejected.max(status),
        Err(_) => ProgramError::Memory.report(rt),
    }
}

// The types of modules over those of other crates, where a type that no module gives is rejected or any element.
fn resolve_all<'a>(
    alloc: Global,
    options: &Options<'_>,
    modules: &'a [Module<'a>],
    known: &'a [KnownType<'a>],
) -> Result<Resolved<'a>, AllocError> {
    if options.incomplete {
        resolve_incomplete(alloc, modules, known)
    } else {
        resolve(alloc, modules, known)
    }
}

// Resolves modules over the types that they import of other crates, compiles them, and returns the status.
fn run_known<'a>(
    rt: &HostRuntime,
    options: &Options<'_>,
    files: &'a [ModuleFile<'a>],
    modules: &'a Modules<'a>,
    exports: &'a [Export<'a>],
    known: &'a [KnownType<'a>],
) -> u8 {
    match resolve_all(rt.alloc(), options, modules.modules.as_slice(), known) {
        Ok(resolved) => run_resolved(rt, options, files, modules, exports, &resolved),
        Err(_) => ProgramError::Memory.report(rt),
    }
}

// Compiles modules over these types of other crates, which are lent until the program ends, and returns the status.
fn run_exports<'a>(
    rt: &HostRuntime,
    options: &Options<'_>,
    files: &'a [ModuleFile<'a>],
    modules: &'a Modules<'a>,
    exports: &'a [Export<'a>],
) -> u8 {
    match known_types(rt.alloc(), exports) {
        Ok(known) => run_known(rt, options, files, modules, exports, known.leak()),
        Err(_) => ProgramError::Memory.report(rt),
    }
}

// Compiles modules over the types that files of other crates list, which are lent until the program ends, and returns the status.
fn run_listed<'a>(
    rt: &HostRuntime,
    options: &Options<'_>,
    files: &'a [ModuleFile<'a>],
    modules: &'a Modules<'a>,
    listed: &'a [ExportsFile],
) -> u8 {
    match parse_exports(rt, listed, modules.modules.as_slice()) {
        Ok(exports) => run_exports(rt, options, files, modules, exports.leak()),
        Err(status) => status,
    }
}

// Compiles parsed modules, and returns the status.
fn run_parsed<'a>(
    rt: &HostRuntime,
    options: &Options<'_>,
    files: &'a [ModuleFile<'a>],
    modules: &'a Modules<'a>,
) -> u8 {
    match read_exports(rt, options.out(), options.uses().unwrap_or(&[])) {
        Ok(listed) => run_listed(rt, options, files, modules, listed.leak()),
        Err(status) => status,
    }
}

// Compiles the modules of files, which are lent until the program ends, and returns the status.
fn run_modules<'a>(rt: &HostRuntime, options: &Options<'_>, files: &'a [ModuleFile<'a>]) -> u8 {
    let modules = match parse_files(rt, files) {
        Ok(modules) => modules,
        Err(status) => return status,
    };
    match Box::new(rt.alloc(), modules) {
        Ok(modules) => run_parsed(rt, options, files, Box::leak(modules)),
        Err(_) => ProgramError::Memory.report(rt),
    }
}

fn run(rt: &HostRuntime, options: &Options<'_>) -> u8 {
    let names = options.files().unwrap_or(&[]);
    match read_files(rt, names) {
        Ok(files) => run_modules(rt, options, files.as_slice()),
        Err(status) => status,
    }
}

fn main(rt: HostRuntime) -> ExitCode {
    let words = match arguments(&rt) {
        Ok(words) => words,
        Err(error) => return ExitCode::from(error.report(&rt)),
    };
    let status = match options_of(rt.alloc(), words.as_slice()) {
        Ok(options) => run(&rt, &options),
        Err(error) => explain(&rt, &error),
    };
    ExitCode::from(status)
}
