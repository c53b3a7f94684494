//! Where something is in a source: its line, and its column.
ghost use Rattle.std.specs.Prelude.{◌≡◌, ◌+◌, count_by, take};
ghost use Rattle.asn1_syntax.specs.Places.{column_after, is_line_end};

use asn1_syntax::place_at;
use program_io::report;
use std::str;

/// A place in a source.
#[derive(Clone, Copy)]
pub struct Location<'s> {
    /// The number of the line, from 1 on.
    pub line: usize,
    /// The number of the octet in it, from 1 on.
    pub column: usize,
    /// The line.
    pub text: &'s [u8],
}

// The text up to the end of the line.
fn line_text(rest: &[u8]) -> &[u8] {
    for (place, octet) in rest.iter().enumerate() {
        if *octet == b'\n' || *octet == b'\r' {
            return match rest.get(..place) {
                Some(text) => text,
                None => rest,
            };
        }
    }
    rest
}

/// The place of an offset. An offset past the source's end is at its end.
pub fn locate(source: &[u8], offset: usize) -> Location<'_>
    ensures line { result.line ≡ count_by is_line_end (take offset source.now) + 1 }
    ensures column { result.column ≡ column_after 1 (take offset source.now) }
{
    let place = place_at(source, offset);
    let start = offset
        .min(source.len())
        .saturating_sub(place.column.saturating_sub(1));
    let rest = match source.get(start..) {
        Some(rest) => rest,
        None => b"",
    };
    Location {
        line: place.line,
        column: place.column,
        text: line_text(rest),
    }
}

/// Prints what is wrong at a place, the line, and a caret under the place.
pub fn report_at(rt: &HostRuntime, file: &str, source: &[u8], offset: usize, why: &str) {
    let found = locate(source, offset);
    let text = str::from_utf8(found.text).unwrap_or("");
    let caret = found.column.saturating_sub(1).min(200);
    let (line, column) = (found.line, found.column);
    let name = format!(in rt.alloc(); "{file}:{line}:{column}");
    let message = format!(in rt.alloc(); "{why}\n    {text}\n    {:caret$}^", "");
    if let (Ok(name), Ok(message)) = (name, message) {
        report(rt, name.as_str(), &message);
    }
}
