//! Lengths (X.690, 8.1.3, 9.1 and 10.1).
ghost use Rattle.std.specs.Prelude.{◌≡◌, ℕ, ◌^◌, ◌<◌, ◌≤◌, ◌-◌, List, ◌∷◌, ◌++◌, length, drop, Some, MatchOption, IsTrue, ◌↔◌};
ghost use Rattle.std.specs.Int.Digits.{number_from_digits};
ghost use Rattle.yasna_bytes.specs.Rejection.{BlamesBytes};
ghost use Rattle.yasna_bytes.specs.Length.{Measures, TakesSpelling, SpellsDigits, LengthAt};

use yasna_base::error::ASN1ErrorKind;
use yasna_base::mode::BERMode;

// From here on a further digit in base 256 passes 2^64 - 1.
const LEAST_TOO_LARGE: u64 = 72057594037927936;

/// The first `count` bytes and the rest, where there are as many.
#[inline(always)]
pub fn cut(s: &[u8], count: usize) -> Option<(&[u8], &[u8])>
    ensures { MatchOption result (length s.now < count) (λ o. (length o.0.now ≡ count) × (s.now ≡ o.0.now ++ o.1.now)) }
{
    if s.len() < count {
        return None;
    }
    Some(s.split_at(count))
}

/// The number that bytes spell in base 256, where it is below 2^64.
#[inline(always)]
pub fn number_of(digits: &[u8]) -> Option<u64>
    ensures { MatchOption result (2 ^ 64 ≤ number_from_digits 256 digits.now) (λ k. k ≡ number_from_digits 256 digits.now) }
{
    let mut number: u64 = 0;
    for digit in digits {
        if number >= LEAST_TOO_LARGE {
            return None;
        }
        number = number * 256 + u64::from(*digit);
    }
    Some(number)
}

// Whether a mode accepts a length spelled by these digits.
fn is_spelling(mode: BERMode, digits: &[u8], size: u64) -> bool
    requires { 0 < length digits.now }
    ensures { IsTrue result ↔ TakesSpelling mode digits.now size }
{
    match mode {
        BERMode::Ber => true,
        BERMode::Der => size >= 128 && digits.first() != Some(&0),
        BERMode::Cer => size >= 128 && digits.first() != Some(&0),
    }
}

// The length that digits spell, if a mode accepts them.
fn size_of(digits: &[u8], mode: BERMode) -> Option<usize>
    requires { 0 < length digits.now }
    ensures { MatchOption result ((k : ℕ) → SpellsDigits mode digits.now k → ⊥) (λ k. SpellsDigits mode digits.now k) }
{
    let Some(size) = number_of(digits) else {
        return None;
    };
    if is_spelling(mode, digits, size) {
        Some(size as usize)
    } else {
        None
    }
}

// The length that digits spell after a first byte above 128, which counts them, if a mode accepts them.
#[cold]
#[inline(never)]
fn long_size(first: u8, s: &[u8], mode: BERMode) -> Option<usize>
    requires { 128 < first }
    ensures { MatchOption result ((k : ℕ) (r : List ℕ) → Measures mode (first ∷ s.now) (Some k) r → ⊥) (λ k. (first - 128 ≤ length s.now) × Measures mode (first ∷ s.now) (Some k) (drop (first - 128) s.now)) }
{
    if first == 255 {
        return None;
    }
    match cut(s, usize::from(first - 128)) {
        Some((digits, _)) => size_of(digits, mode),
        None => None,
    }
}

// The kind of error if no length follows a first byte above 128.
#[cold]
#[inline(never)]
fn long_length_error(first: u8, s: &[u8]) -> ASN1ErrorKind
    requires { 128 < first }
    ensures { BlamesBytes result }
{
    match cut(s, usize::from(first - 128)) {
        Some((digits, _)) if first < 255 => match number_of(digits) {
            Some(_) => ASN1ErrorKind::Invalid,
            None => ASN1ErrorKind::Eof,
        },
        None if first < 255 => ASN1ErrorKind::Eof,
        _ => ASN1ErrorKind::Invalid,
    }
}

// Reads the rest of a length whose first byte is 128 or more.
#[inline(always)]
fn read_long(first: u8, s: &[u8], mode: BERMode) -> Result<(Option<usize>, &[u8]), ASN1ErrorKind>
    requires { 128 ≤ first }
    ensures { LengthAt mode (first ∷ s.now) result }
{
    if first == 128 {
        return Ok((None, s));
    }
    match long_size(first, s, mode) {
        Some(size) => Ok((Some(size), &s[usize::from(first - 128)..])),
        None => Err(long_length_error(first, s)),
    }
}

/// Reads a length, None for the byte of the indefinite form.
#[inline(always)]
pub fn read_length(s: &[u8], mode: BERMode) -> Result<(Option<usize>, &[u8]), ASN1ErrorKind>
    ensures { LengthAt mode s.now result }
{
    let Some((first, rest)) = s.split_first() else {
        return Err(ASN1ErrorKind::Eof);
    };
    if *first < 128 {
        return Ok((Some(usize::from(*first)), rest));
    }
    read_long(*first, rest, mode)
}
