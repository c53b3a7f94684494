//! The types of X.680 that have words of their own.
ghost use Rattle.std.specs.Prelude.{◌≡◌, ℕ, IfSome, MatchOption, None};
ghost use Rattle.asn1_types.specs.declared.model.TextKind.{TextKind};
ghost use Rattle.asn1_types.specs.Words.{IsContainedWord, IsElementsWord, IsNoPlainWord, IsNoWord, IsNotUnread, IsTextWord, IsUnreadWord, IsWordOf};

use crate::model::{Loosening, TextKind};

/// A type that has a word of its own.
#[derive(Clone, Copy)]
pub enum Builtin {
    /// BOOLEAN.
    Boolean,
    /// NULL.
    Null,
    /// INTEGER.
    Integer,
    /// OBJECT IDENTIFIER.
    ObjectIdentifier,
    /// OCTET STRING.
    OctetString,
    /// BIT STRING.
    BitString,
    /// ENUMERATED.
    Enumerated,
    /// A string of characters that are read.
    Text(TextKind),
    /// UTCTime.
    UtcTime,
    /// GeneralizedTime.
    GeneralizedTime,
    /// ANY.
    Any,
    /// A type whose contents are kept as octets under this UNIVERSAL tag, and what of it is omitted.
    Octets(u64, Loosening),
    /// A type whose elements are kept as they came under this UNIVERSAL tag.
    Elements(u64),
}

// The string of characters that are read of which this is the word.
fn text_kind(word: &[u8]) -> Option<TextKind>
    ensures { MatchOption result ((k : TextKind) → IsTextWord k word.now → ⊥) (λ k. IsTextWord k word.now) }
{
    if word == b"UTF8String".as_slice() {
        Some(TextKind::Utf8)
    } else if word == b"NumericString".as_slice() {
        Some(TextKind::Numeric)
    } else if word == b"PrintableString".as_slice() {
        Some(TextKind::Printable)
    } else if word == b"IA5String".as_slice() {
        Some(TextKind::Ia5)
    } else if word == b"VisibleString".as_slice() {
        Some(TextKind::Visible)
    } else if word == b"ISO646String".as_slice() {
        Some(TextKind::Visible)
    } else if word == b"BMPString".as_slice() {
        Some(TextKind::Bmp)
    } else {
        None
    }
}

// The UNIVERSAL tag of the string of this word whose characters aren't read.
fn unread_tag(word: &[u8]) -> Option<u64>
    ensures { MatchOption result ((n : ℕ) → IsUnreadWord n word.now → ⊥) (λ n. IsUnreadWord n word.now) }
{
    if word == b"ObjectDescriptor".as_slice() {
        Some(7)
    } else if word == b"TeletexString".as_slice() {
        Some(20)
    } else if word == b"T61String".as_slice() {
        Some(20)
    } else if word == b"VideotexString".as_slice() {
        Some(21)
    } else if word == b"GraphicString".as_slice() {
        Some(25)
    } else if word == b"GeneralString".as_slice() {
        Some(27)
    } else if word == b"UniversalString".as_slice() {
        Some(28)
    } else {
        None
    }
}

// The UNIVERSAL tag of the type of this word whose contents are octets that aren't read.
fn contained_tag(word: &[u8]) -> Option<u64>
    ensures { MatchOption result ((n : ℕ) → IsContainedWord n word.now → ⊥) (λ n. IsContainedWord n word.now) }
{
    if word == b"REAL".as_slice() {
        Some(9)
    } else if word == b"RELATIVE-OID".as_slice() {
        Some(13)
    } else {
        None
    }
}

// The UNIVERSAL tag of the type with this first word whose elements are kept as they came.
fn elements_tag(word: &[u8]) -> Option<u64>
    ensures { MatchOption result ((n : ℕ) → IsElementsWord n word.now → ⊥) (λ n. IsElementsWord n word.now) }
{
    if word == b"EXTERNAL".as_slice() {
        Some(8)
    } else if word == b"INSTANCE".as_slice() {
        Some(8)
    } else if word == b"EMBEDDED".as_slice() {
        Some(11)
    } else if word == b"CHARACTER".as_slice() {
        Some(29)
    } else {
        None
    }
}

// The type that has this first word, and no other one of its kind.
fn plain_type(word: &[u8]) -> Option<Builtin>
    ensures some { IfSome result (λ b. IsWordOf b word.now) }
    ensures none { result ≡ None → IsNoPlainWord word.now }
{
    if word == b"BOOLEAN".as_slice() {
        Some(Builtin::Boolean)
    } else if word == b"NULL".as_slice() {
        Some(Builtin::Null)
    } else if word == b"INTEGER".as_slice() {
        Some(Builtin::Integer)
    } else if word == b"OBJECT".as_slice() {
        Some(Builtin::ObjectIdentifier)
    } else if word == b"OCTET".as_slice() {
        Some(Builtin::OctetString)
    } else if word == b"BIT".as_slice() {
        Some(Builtin::BitString)
    } else if word == b"ENUMERATED".as_slice() {
        Some(Builtin::Enumerated)
    } else if word == b"UTCTime".as_slice() {
        Some(Builtin::UtcTime)
    } else if word == b"GeneralizedTime".as_slice() {
        Some(Builtin::GeneralizedTime)
    } else if word == b"ANY".as_slice() {
        Some(Builtin::Any)
    } else {
        None
    }
}

// The type of this first word whose octets or elements are kept as they came.
fn unread_type(word: &[u8]) -> Option<Builtin>
    ensures { MatchOption result (IsNotUnread word.now) (λ b. IsWordOf b word.now) }
{
    if let Some(number) = unread_tag(word) {
        return Some(Builtin::Octets(number, Loosening::Characters));
    }
    if let Some(number) = contained_tag(word) {
        return Some(Builtin::Octets(number, Loosening::Contained));
    }
    match elements_tag(word) {
        Some(number) => Some(Builtin::Elements(number)),
        None => None,
    }
}

/// The type of a first word, if it is no name.
pub fn builtin_of(word: &[u8]) -> Option<Builtin>
    ensures { MatchOption result (IsNoWord word.now) (λ b. IsWordOf b word.now) }
{
    if let Some(builtin) = plain_type(word) {
        return Some(builtin);
    }
    if let Some(kind) = text_kind(word) {
        return Some(Builtin::Text(kind));
    }
    unread_type(word)
}
