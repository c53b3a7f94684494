//! Lexical items.

/// The kind of a lexical item.
#[derive(Clone, Copy, Debug, PartialEq, Eq)]
pub enum TokenKind {
    /// A word that begins with a capital: a typereference, a modulereference or a reserved word (X.680, 12.2).
    TypeReference,
    /// A word that begins with a small letter: an identifier or a valuereference (X.680, 12.3).
    Identifier,
    /// Digits (X.680, 12.8). The first of several may be zero. A realnumber (X.680, 12.9) is several items.
    Number,
    /// Binary digits in apostrophes (X.680, 12.10).
    BString,
    /// Hexadecimal digits in apostrophes (X.680, 12.12).
    HString,
    /// A character string in quotation marks (X.680, 12.14).
    CString,
    /// A symbol, as `{` or `::=` (X.680, 12.20 to 12.24 and 12.37), or `&` or `*`.
    Symbol,
}

/// A lexical item of a source.
#[derive(Clone, Copy, Debug)]
pub struct Token<'a> {
    /// The kind.
    pub kind: TokenKind,
    /// The offset of its first octet in the source.
    pub offset: usize,
    /// Its octets.
    pub text: &'a [u8],
}
