//! Lines and columns of a source.
ghost use Rattle.std.specs.Prelude.{◌≡◌, ◌+◌, ◌≤◌, count_by, length, take};
ghost use Rattle.asn1_syntax.specs.Places.{column_after, is_line_end};

/// A place in a source.
#[derive(Clone, Copy, Debug, PartialEq, Eq)]
pub struct Place {
    /// The line, from 1 on. An octet 10 ends a line.
    pub line: usize,
    /// The column in the line, in octets, from 1 on.
    pub column: usize,
}

// How many lines a text ends.
fn count_line_ends(text: &[u8]) -> usize
    ensures { result ≡ count_by is_line_end text.now }
{
    text.iter().filter(|c| **c == b'\n').count()
}

// The column after a text that begins in the first one.
fn column_after(text: &[u8]) -> usize
    ensures { result ≡ column_after 1 text.now }
{
    let mut rest = text;
    let mut column = 1usize;
    while let [c, more @ ..] = rest {
        column = if *c == b'\n' { 1 } else { column + 1 };
        rest = more;
    }
    column
}

/// The place of an offset of a source. An offset past the source's end is at its end.
pub fn place_at(source: &[u8], offset: usize) -> Place
    ensures line { result.line ≡ count_by is_line_end (take offset source.now) + 1 }
    ensures column { result.column ≡ column_after 1 (take offset source.now) }
{
    let before = &source[..offset.min(source.len())];
    Place {
        line: count_line_ends(before) + 1,
        column: column_after(before),
    }
}
