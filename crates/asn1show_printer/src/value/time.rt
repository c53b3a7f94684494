//! Times as ISO 8601 writes them (X.680, 46 and 47).
ghost use Rattle.std.specs.Prelude.{◌≡◌, if◌then◌else◌, Some, None, is_some, IfOk};
ghost use Rattle.asn1show_printer.specs.Contents.{DiagnosesOf};
ghost use Rattle.asn1show_printer.specs.declared.asn_type.AsnType.TheVariants.{GeneralizedTime as OfGeneralizedTime, UtcTime as OfUtcTime};
ghost use Rattle.asn1show_printer.specs.declared.diagnostic.Diagnostic.TheVariants.{Local, NoTime, Time};

use crate::diagnostic::{Diagnostic, unless};
use crate::line::LineBuffer;
use crate::value::text::write_quoted;
use std::alloc::{AllocError, Global};
use yasna_times::models::{GeneralizedTime, Offset, UTCTime};

fn write_no_time(line: &mut LineBuffer, octets: &[u8]) -> Option<Diagnostic>
    ensures { result ≡ Some NoTime }
{
    write_quoted(line, octets);
    Some(Diagnostic::NoTime)
}

// Ends a time in UTC, and reports whether it isn't canonical.
fn end_in_utc(line: &mut LineBuffer, is_canonical: bool) -> Option<Diagnostic>
    ensures { result ≡ if is_canonical then None else Some Time }
{
    line.write_str("Z");
    unless(is_canonical, Diagnostic::Time)
}

/// Writes a UTCTime, and reports what is wrong with it.
pub fn write_utc_time(line: &mut LineBuffer, octets: &[u8]) -> Option<Diagnostic>
    ensures { DiagnosesOf OfUtcTime octets.now result }
{
    let Some(time) = UTCTime::parse(octets) else {
        return write_no_time(line, octets);
    };
    write!(line, "{}", time.datetime());
    end_in_utc(line, time.is_canonical(octets))
}

// What ISO 8601 has before the digit at a place of a canonical text.
fn separator(place: usize) -> &'static str {
    match place {
        4 | 6 => "-",
        8 => "T",
        10 | 12 => ":",
        _ => "",
    }
}

fn write_separated(line: &mut LineBuffer, text: &[u8]) {
    for (place, octet) in text.iter().enumerate() {
        line.write_str(separator(place));
        line.write_all(&[*octet]);
    }
}

// Writes a time without its zone. Its canonical text has a second 60, and all digits of the fraction.
fn write_fine_time(line: &mut LineBuffer, alloc: Global, time: &GeneralizedTime) {
    match time.to_bytes(alloc) {
        Ok(text) => write_separated(line, text.strip_suffix(b"Z").unwrap_or(text.as_slice())),
        Err(_) => line.fail_out_of_memory(),
    }
}

// Writes a GeneralizedTime in no known zone, where it is one.
fn write_local_time(
    line: &mut LineBuffer,
    alloc: Global,
    octets: &[u8],
    parsed: Option<GeneralizedTime>,
) -> Option<Diagnostic>
    ensures { result ≡ if is_some parsed then Some Local else Some NoTime }
{
    let Some(time) = parsed else {
        return write_no_time(line, octets);
    };
    write_fine_time(line, alloc, &time);
    Some(Diagnostic::Local)
}

/// Writes a GeneralizedTime, and reports what is wrong with it.
pub fn write_generalized_time(
    line: &mut LineBuffer,
    alloc: Global,
    octets: &[u8],
) -> Result<Option<Diagnostic>, AllocError>
    ensures { IfOk result (λ r. DiagnosesOf OfGeneralizedTime octets.now r) }
{
    let Some(time) = GeneralizedTime::parse(alloc, octets)? else {
        let parsed = GeneralizedTime::parse_with_offset(alloc, octets, Offset::UTC)?;
        return Ok(write_local_time(line, alloc, octets, parsed));
    };
    write_fine_time(line, alloc, &time);
    Ok(end_in_utc(line, time.is_canonical(octets)))
}
