//! Decimal digits in ASCII, of which the texts of both times are made (X.680, 46 and 47).
ghost use Rattle.std.specs.Prelude.{◌≡◌, ◌+◌, ◌/◌, ◌%◌, ◌<◌, ◌≤◌, ◌↔◌, IsTrue, pos, unsigned_abs, length};
ghost use Rattle.jiff.specs.Words.{IsBetween};
ghost use Rattle.yasna_times.specs.Decimal.{HasDigits, IsRun, two_at};

// Where the digits from `from` on end.
pub(crate) fn digits_end(bytes: &[u8], from: usize) -> usize
    requires { from ≤ length bytes.now }
    ensures { IsRun bytes.now from result }
{
    let mut end = from;
    while end < bytes.len() && bytes[end].is_ascii_digit() {
        end += 1;
    }
    end
}

// The bytes from `from` up to `to` are digits.
pub(crate) fn are_digits(bytes: &[u8], from: usize, to: usize) -> bool
    requires order { from ≤ to }
    requires inside { to ≤ length bytes.now }
    ensures { IsTrue result ↔ HasDigits bytes.now from to }
{
    digits_end(&bytes[..to], from) == to
}

// The number that the two digits at `at` spell.
pub(crate) fn two(bytes: &[u8], at: usize) -> u8
    requires inside { at + 2 ≤ length bytes.now }
    requires digits { HasDigits bytes.now at (at + 2) }
    ensures value { result ≡ two_at bytes.now at }
    ensures bound { result < 100 }
{
    (bytes[at] - b'0') * 10 + (bytes[at + 1] - b'0')
}

// The number that the two digits at `at` spell, in a signed type.
pub(crate) fn signed_two(bytes: &[u8], at: usize) -> i8
    requires inside { at + 2 ≤ length bytes.now }
    requires digits { HasDigits bytes.now at (at + 2) }
    ensures value { result ≡ pos (two_at bytes.now at) }
    ensures bound { two_at bytes.now at < 100 }
{
    two(bytes, at) as i8
}

// A part of a date or of a time of day, which has two digits at most, as a number without a sign.
pub(crate) fn unsigned(part: i8) -> u8
    requires { IsBetween (pos 0) (pos 99) part }
    ensures value { result ≡ unsigned_abs part }
    ensures bound { result < 100 }
{
    part as u8
}

// The first of two digits.
pub(crate) fn tens(number: u8) -> u8
    requires { number < 100 }
    ensures { result ≡ 48 + number / 10 }
{
    b'0' + number / 10
}

// The second of two digits.
pub(crate) fn ones(number: u8) -> u8
    requires { number < 100 }
    ensures { result ≡ 48 + number % 10 }
{
    b'0' + number % 10
}
