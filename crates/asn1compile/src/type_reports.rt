//! What is printed of types: where they accept more than their modules, and which of them aren't there.
ghost use Rattle.std.specs.Prelude.{◌≡◌, ◌↔◌, []};

use asn1_source::Difference;
use asn1_types::model::Definition;
use module_files::{ModuleFile, Modules, report_place};
use program_io::report;

// The exit status if a type is rejected.
const REJECTED: u8 = 1;

/// Prints where types accept more than their modules, and returns the status.
pub fn report_differences(
    rt: &HostRuntime,
    files: &[ModuleFile<'_>],
    modules: &Modules<'_>,
    differences: &[Difference],
) -> u8
    ensures { (result ≡ 0) ↔ (differences.now ≡ []) }
{
    for one in differences {
        report_place(
            rt,
            files,
            modules,
            one.place.module,
            one.place.offset,
            one.text,
        );
    }
    if differences.is_empty() { 0 } else { REJECTED }
}

// Whether a type of this name is defined.
fn is_defined(definitions: &[Definition<'_>], name: &str) -> bool {
    for definition in definitions {
        if let [only] = definition.path.as_slice()
            && *only == name.as_bytes()
        {
            return true;
        }
    }
    false
}

/// Prints which of the types that are asked for aren't there, and returns the status.
pub fn report_unknown(rt: &HostRuntime, types: &[&str], definitions: &[Definition<'_>]) -> u8 {
    let mut status = 0;
    for name in types {
        if !is_defined(definitions, *name) {
            report(rt, *name, &"no type has this name");
            status = REJECTED;
        }
    }
    status
}
