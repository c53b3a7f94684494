//! What many tests check of a result.

use std::alloc::Global;
use std::hash::{BuildHasher, BuildHasherDefault, FoldHasher, Hash};
use std::process::Abort;
use yasna::{ASN1Error, ASN1ErrorKind, ASN1Result, BERDecodable, BERMode, decode_ber_general};

/// The bytes that these pairs of hexadecimal digits are, or `OutOfMemory` where the text is none, which no row wants.
pub fn bytes_of(alloc: Global, text: &str) -> ASN1Result<Vec<u8>> {
    let mut bytes = Vec::new(alloc);
    for pair in text.as_bytes().chunks(2) {
        match pair {
            [high, low] => bytes.push(digit(*high)? << 4 | digit(*low)?)?,
            _ => return Err(ASN1Error::new(ASN1ErrorKind::OutOfMemory)),
        }
    }
    Ok(bytes)
}

fn digit(character: u8) -> ASN1Result<u8> {
    match character {
        b'0'..=b'9' => Ok(character - b'0'),
        b'A'..=b'F' => Ok(character - b'A' + 10),
        _ => Err(ASN1Error::new(ASN1ErrorKind::OutOfMemory)),
    }
}

/// The first text, the second so many times, the third, and the fourth as often as the second.
pub fn spelled(alloc: Global, texts: [&str; 4], times: usize) -> ASN1Result<String> {
    let [head, open, middle, close] = texts;
    let mut text = String::from_str(alloc, head)?;
    for _ in 0..times {
        text.push_str(open)?;
    }
    text.push_str(middle)?;
    for _ in 0..times {
        text.push_str(close)?;
    }
    Ok(text)
}

/// Whether the result is these items: those of a list, or the bytes of an encoding.
pub fn gives<T: PartialEq + Drop>(outcome: ASN1Result<Vec<T>>, items: &[T]) -> bool {
    match outcome {
        Ok(found) => found.as_slice() == items,
        Err(_) => false,
    }
}

/// Whether the result is a rejection of this kind.
pub fn rejects<T: Drop>(outcome: ASN1Result<T>, kind: ASN1ErrorKind) -> bool {
    match outcome {
        Ok(_) => false,
        Err(error) => is_kind(error.kind(), kind),
    }
}

/// Whether a value of this type is read from these bytes, and this is so of it.
pub fn says<T: BERDecodable, F: FnOnce(&T) -> bool>(
    alloc: Global,
    mode: BERMode,
    bytes: &[u8],
    is_so: F,
) -> bool
    requires { F.IsAlwaysCallable is_so }
{
    match decode_ber_general::<T>(alloc, bytes, mode) {
        Ok(value) => is_so(&value),
        Err(_) => false,
    }
}

/// Whether no value of this type is read from these bytes, for this cause.
pub fn is_rejected<T: BERDecodable>(
    alloc: Global,
    mode: BERMode,
    bytes: &[u8],
    kind: ASN1ErrorKind,
) -> bool {
    rejects(decode_ber_general::<T>(alloc, bytes, mode), kind)
}

/// Whether both are one kind. It doesn't ask `==`: were that always true, no test would fail for a kind.
pub fn is_kind(one: ASN1ErrorKind, other: ASN1ErrorKind) -> bool {
    one as u8 == other as u8
}

/// Whether the result says so where no rejection is wanted, or is the one that is.
pub fn results(outcome: ASN1Result<bool>, rejection: Option<ASN1ErrorKind>) -> bool {
    match outcome {
        Ok(is_so) => is_so && rejection.is_none(),
        Err(error) => match rejection {
            Some(kind) => is_kind(error.kind(), kind),
            None => false,
        },
    }
}

/// The name of the first outcome that isn't so.
pub fn first_failing(outcomes: &[(&'static str, bool)]) -> Option<&'static str> {
    for outcome in outcomes {
        if !outcome.1 {
            return Some(outcome.0);
        }
    }
    None
}

/// Whether both are one value.
pub fn is_same<T: Eq + Hash>(one: &T, other: &T) -> bool {
    let hasher = BuildHasherDefault::<FoldHasher>::default();
    *one == *other && hasher.hash_one(one) == hasher.hash_one(other)
}

/// Fails the test if a row was found, and says which.
pub fn finds_none(rt: &impl Abort, found: Option<&str>) {
    assert!(rt; found.is_none(), "{found:?}");
}

/// Fails the test unless this is so of the row, and says which.
pub fn holds(rt: &impl Abort, row: &str, is_so: ASN1Result<bool>) {
    assert!(rt; matches!(is_so, Ok(true)), "{row:?}");
}
