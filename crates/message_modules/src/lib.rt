//! The modules of the messages that `asn1check` knows, as their lines, so that what is wrong in a message has the names of its parts.
//!
//! Each file but this one holds a file of `modules/`.
#![tactic(auto)]

ghost use Rattle.std.specs.Prelude.{◌≡◌, IfOk, OnOk};
ghost use Rattle.message_modules.specs.Sources.{AddsModulesOf, AreModulesOf, source_of_lines};

mod cms;
mod ec_private_key;
mod ldap;
mod ocsp;
mod pkcs1;
mod pkcs10;
mod pkcs8;
mod pkix_explicit;
mod pkix_implicit;
mod snmp;
mod tsp;

use asn1_syntax::tree::Module;
use asn1_syntax::{SyntaxError, parse};
pub use cms::CMS_LINES;
pub use ec_private_key::EC_PRIVATE_KEY_LINES;
pub use ldap::LDAP_LINES;
pub use ocsp::OCSP_LINES;
pub use pkcs1::PKCS1_LINES;
pub use pkcs8::PKCS8_LINES;
pub use pkcs10::PKCS10_LINES;
pub use pkix_explicit::PKIX_EXPLICIT_LINES;
pub use pkix_implicit::PKIX_IMPLICIT_LINES;
pub use snmp::SNMP_LINES;
use std::alloc::{AllocError, Global};
pub use tsp::TSP_LINES;

// The source of a file that has these lines. It isn't freed, since what is parsed of it is lent for as long.
fn source_of(alloc: Global, lines: &[&str]) -> Result<&'static [u8], AllocError>
    ensures { IfOk result (λ source. source.now ≡ source_of_lines lines.now) }
{
    let mut source = Vec::new(alloc);
    for line in lines {
        source.extend_from_slice(line.as_bytes())?;
        source.push(b'\n')?;
    }
    Ok(source.leak())
}

// Adds the modules of a source, unless memory runs out. A source that is malformed has none.
fn add_modules(
    alloc: Global,
    source: &'static [u8],
    all: &mut Vec<Module<'static>>,
) -> Result<(), AllocError>
    ensures { OnOk result (AddsModulesOf source.now all.old.items all.new.items) }
{
    match parse(alloc, source) {
        Ok(mut modules) => all.append(&mut modules),
        Err(SyntaxError::Malformed { .. }) => Ok(()),
        Err(SyntaxError::Memory) => Err(AllocError),
    }
}

/// The modules of files that have these lines, one file after the other. `Err` says that memory ran out.
pub fn modules_of(
    alloc: Global,
    files: &[&[&str]],
) -> Result<&'static [Module<'static>], AllocError>
    ensures { IfOk result (λ modules. AreModulesOf files.now modules.now) }
{
    let mut all = Vec::new(alloc);
    for lines in files {
        let source = source_of(alloc, lines)?;
        add_modules(alloc, source, &mut all)?;
    }
    Ok(all.leak())
}
