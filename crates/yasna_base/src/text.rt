//! The characters of each class of text (X.680, 41).
//!
//! They are below 128, where UTF-8 has a byte for each, so a text is validated by its bytes.
ghost use Rattle.std.specs.Prelude.{IsTrue, ◌↔◌};
ghost use Rattle.std.specs.List.{AllByRecursion};
ghost use Rattle.std.specs.Str.{chars};
ghost use Rattle.yasna_base.specs.Text.{InNumeric, InPrintable, InVisible, InIa5};

fn is_numeric_byte(byte: u8) -> bool
    ensures { IsTrue result ↔ InNumeric byte }
{
    matches!(byte, b'0'..=b'9' | b' ')
}

// Letters and digits first, which most bytes are.
fn is_printable_byte(byte: u8) -> bool
    ensures { IsTrue result ↔ InPrintable byte }
{
    if byte.is_ascii_alphanumeric() {
        return true;
    }
    b" '()+,-./:=?".contains(&byte)
}

fn is_visible_byte(byte: u8) -> bool
    ensures { IsTrue result ↔ InVisible byte }
{
    matches!(byte, b' '..=b'~')
}

/// Whether a NumericString may hold these bytes.
pub fn is_numeric(bytes: &[u8]) -> bool
    ensures { IsTrue result ↔ AllByRecursion InNumeric bytes.now }
{
    bytes.iter().all(|byte| is_numeric_byte(*byte))
}

/// Whether a PrintableString may hold these bytes.
pub fn is_printable(bytes: &[u8]) -> bool
    ensures { IsTrue result ↔ AllByRecursion InPrintable bytes.now }
{
    bytes.iter().all(|byte| is_printable_byte(*byte))
}

/// Whether a VisibleString may hold these bytes.
pub fn is_visible(bytes: &[u8]) -> bool
    ensures { IsTrue result ↔ AllByRecursion InVisible bytes.now }
{
    bytes.iter().all(|byte| is_visible_byte(*byte))
}

/// Whether an IA5String may hold these bytes.
pub fn is_ia5(bytes: &[u8]) -> bool
    ensures { IsTrue result ↔ AllByRecursion InIa5 bytes.now }
{
    bytes.is_ascii()
}

/// Whether a NumericString may hold the text: digits and space.
pub fn is_numeric_text(text: &str) -> bool
    ensures { IsTrue result ↔ AllByRecursion InNumeric (chars text.now) }
{
    is_numeric(text.as_bytes())
}

/// Whether a PrintableString may hold the text: letters, digits, space and `'()+,-./:=?`.
pub fn is_printable_text(text: &str) -> bool
    ensures { IsTrue result ↔ AllByRecursion InPrintable (chars text.now) }
{
    is_printable(text.as_bytes())
}

/// Whether a VisibleString may hold the text: the characters from space to `~`.
pub fn is_visible_text(text: &str) -> bool
    ensures { IsTrue result ↔ AllByRecursion InVisible (chars text.now) }
{
    is_visible(text.as_bytes())
}
