//! Bytes as they are written: their elements in DER, or a block of PEM with these.
ghost use Rattle.std.specs.Prelude.{◌≡◌, ◌⊎◌, IfErr, IfOk, None};
ghost use Rattle.asn1der.specs.Written.{labelled, IsOutput};

use crate::options::Options;
use crate::origin::Origin;
use crate::pem::push_block;
use asn1der_convert::ambiguity::{Ambiguities, Ambiguity};
use asn1der_convert::conversion::{Converted, convert};
use asn1der_convert::error::ConvertError;
use asn1der_typed::{TypedError, convert_by_type};
use asn1show_schema::Schema;
use program_io::ProgramError;
use std::io::Write;

/// The exit status if an input is malformed or ambiguous.
pub const REJECTED: u8 = 1;

// Reports the first ambiguity of each kind.
fn report(rt: &HostRuntime, origin: Origin<'_>, ambiguities: &Ambiguities) {
    for ambiguity in [
        Ambiguity::Segments,
        Ambiguity::ImplicitSetOf,
        Ambiguity::Order,
    ] {
        if let Some(offset) = ambiguities.first(ambiguity) {
            let _ = writeln!(rt.stderr(), "{origin}offset {offset}: {ambiguity}");
        }
    }
}

// Reports why there are no elements, and returns the status.
fn reject(rt: &HostRuntime, origin: Origin<'_>, error: &ConvertError) -> u8
    ensures { (result ≡ 1) ⊎ (result ≡ 3) }
{
    match error {
        ConvertError::Malformed { .. } => {
            let _ = writeln!(rt.stderr(), "{origin}{error}");
            REJECTED
        }
        ConvertError::Memory => ProgramError::Memory.report(rt),
    }
}

// The block of PEM of these elements, if a label is asked for, or else the elements.
fn labelled(rt: &HostRuntime, options: &Options<'_>, bytes: Vec<u8>) -> Result<Vec<u8>, u8>
    ensures output { IfOk result (λ output. output.items ≡ labelled options.now.label bytes.items) }
    ensures status { IfErr result (λ status. status ≡ 3) }
{
    let Some(label) = options.label else {
        return Ok(bytes);
    };
    let mut block = Vec::new(rt.alloc());
    match push_block(rt.alloc(), &mut block, label.as_bytes(), bytes.as_slice()) {
        Ok(()) => Ok(block),
        Err(_) => Err(ProgramError::Memory.report(rt)),
    }
}

// What is written of bytes of no known type. Else the errors are reported, and the exit status is returned.
fn written(
    rt: &HostRuntime,
    options: &Options<'_>,
    origin: Origin<'_>,
    bytes: &[u8],
) -> Result<Vec<u8>, u8>
    ensures output { IfOk result (λ output. IsOutput options.now.label bytes.now output.items) }
    ensures status { IfErr result (λ status. (status ≡ 1) ⊎ (status ≡ 3)) }
{
    match convert(rt.alloc(), bytes) {
        Ok(converted) => {
            let Converted { bytes, ambiguities } = converted;
            report(rt, origin, &ambiguities);
            if options.strict && ambiguities.are_any() {
                return Err(REJECTED);
            }
            labelled(rt, options, bytes)
        }
        Err(error) => Err(reject(rt, origin, &error)),
    }
}

// Reports why there are no values of a type, and returns the status.
fn reject_typed(rt: &HostRuntime, origin: Origin<'_>, error: &TypedError) -> u8
    ensures { (result ≡ 1) ⊎ (result ≡ 3) }
{
    if error.is_memory() {
        return ProgramError::Memory.report(rt);
    }
    let _ = writeln!(rt.stderr(), "{origin}{error}");
    REJECTED
}

// What is written of bytes that are values of a type. Else the error is reported, and the exit status is returned.
fn written_by_type(
    rt: &HostRuntime,
    options: &Options<'_>,
    schema: &Schema,
    origin: Origin<'_>,
    bytes: &[u8],
) -> Result<Vec<u8>, u8>
    ensures { IfErr result (λ status. (status ≡ 1) ⊎ (status ≡ 3)) }
{
    match convert_by_type(rt.alloc(), schema, bytes) {
        Ok(converted) => labelled(rt, options, converted),
        Err(error) => Err(reject_typed(rt, origin, &error)),
    }
}

/// What is written of bytes, which are values of a type if it is given. Else the errors are reported, and the exit status is returned.
pub fn written_as(
    rt: &HostRuntime,
    options: &Options<'_>,
    schema: Option<&Schema>,
    origin: Origin<'_>,
    bytes: &[u8],
) -> Result<Vec<u8>, u8>
    ensures output { schema.entry ≡ None → IfOk result (λ output. IsOutput options.now.label bytes.now output.items) }
    ensures status { IfErr result (λ status. (status ≡ 1) ⊎ (status ≡ 3)) }
{
    match schema {
        Some(schema) => written_by_type(rt, options, schema, origin, bytes),
        None => written(rt, options, origin, bytes),
    }
}
