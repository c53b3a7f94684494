//! White space and comments between lexical items (X.680, 12.1.6 and 12.6).
ghost use Rattle.std.specs.Prelude.{◌≡◌, None, option_copied};
ghost use Rattle.asn1_syntax.specs.Spacing.{after_comment, after_hyphens, after_run, after_spacing, in_line, is_newline, is_white_space, begins_hyphens, IsGap, IsCommentPart, IsShorter};

// Whether a character ends a line.
fn is_newline(c: u8) -> bool
    ensures { result ≡ is_newline c }
{
    matches!(c, b'\n' | 0x0b | 0x0c | b'\r')
}

/// Whether a character is white space.
pub fn is_white_space(c: u8) -> bool
    ensures { result ≡ is_white_space c }
{
    c == b'\t' || c == b' ' || is_newline(c)
}

// Whether two hyphens begin a text.
fn begins_hyphens(text: &[u8]) -> bool
    ensures { result ≡ begins_hyphens text.now }
{
    matches!(text, [b'-', b'-', ..])
}

// Whether a comment that two hyphens begin goes on with this text.
fn in_line(text: &[u8]) -> bool
    ensures { result ≡ in_line text.now }
{
    match text {
        [c, ..] => !is_newline(*c) && !begins_hyphens(text),
        [] => false,
    }
}

// The text after the line, or the part of it, that a comment takes.
fn after_line(text: &[u8]) -> &[u8]
    ensures { result.now ≡ after_run in_line text.now }
{
    let mut rest = text;
    while let [_, more @ ..] = rest {
        if !in_line(rest) {
            break;
        }
        rest = more;
    }
    rest
}

// The text after two hyphens at its start, if they are there.
fn after_hyphens(text: &[u8]) -> &[u8]
    ensures { result.now ≡ after_hyphens text.now }
{
    match text {
        [b'-', b'-', more @ ..] => more,
        _ => text,
    }
}

// How the text of a comment begins, and the text after that.
enum CommentPart<'a> {
    // With `/*`, which begins a comment inside.
    Begin(&'a [u8]),
    // With `*/`.
    End(&'a [u8]),
    // With another character.
    Character(&'a [u8]),
    // The source ends.
    Nothing,
}

fn comment_part(text: &[u8]) -> CommentPart<'_>
    ensures value { IsCommentPart text.now result }
    ensures shorter { IsShorter text.now result }
{
    match text {
        [b'*', b'/', more @ ..] => CommentPart::End(more),
        [b'/', b'*', more @ ..] => CommentPart::Begin(more),
        [_, more @ ..] => CommentPart::Character(more),
        [] => CommentPart::Nothing,
    }
}

// The text after the end of the comment that `/*` has begun, if it ends. Comments nest.
fn after_comment(text: &[u8]) -> Option<&[u8]>
    ensures { option_copied result ≡ after_comment 0 text.now }
{
    let mut rest = text;
    let mut others = 0usize;
    loop {
        match comment_part(rest) {
            CommentPart::End(more) if others == 0 => return Some(more),
            CommentPart::End(more) => {
                others -= 1;
                rest = more;
            }
            CommentPart::Begin(more) => {
                others += 1;
                rest = more;
            }
            CommentPart::Character(more) => rest = more,
            CommentPart::Nothing => return None,
        }
    }
}

// The text after a white space or a comment at its start, if one that ends is there.
fn after_spacing(text: &[u8]) -> Option<&[u8]>
    ensures { option_copied result ≡ after_spacing text.now }
{
    match text {
        [c, more @ ..] if is_white_space(*c) => Some(more),
        [b'-', b'-', more @ ..] => Some(after_hyphens(after_line(more))),
        [b'/', b'*', more @ ..] => after_comment(more),
        _ => None,
    }
}

/// The text after the white space and the comments at its start. A comment that doesn't end stays.
pub fn after_gap(text: &[u8]) -> &[u8]
    ensures { IsGap text.now result.now }
{
    let mut rest = text;
    while let Some(more) = after_spacing(rest) {
        rest = more;
    }
    rest
}
