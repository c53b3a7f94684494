//! Whether values are as their types say: bounds, sizes and items.
ghost use Rattle.std.specs.Prelude.{◌≡◌, ◌↔◌, ◌≤◌, ◌^◌, ⊤, IsTrue, MatchOption};
ghost use Rattle.asn1show_schema.specs.Values.{
  HasNumber,
  HasSignBit,
  HasSize,
  IsNumberOf,
  NumberAt,
  digit_of,
  spelled_number,
};

use crate::schema::{Bounds, NamedNumber, Number, Rows, Schema, Size, ValueType};

/// What of its type a value doesn't have.
#[derive(Clone, Copy)]
pub enum ValueError {
    /// A number is out of its bounds (X.680, 51.4).
    Bounds,
    /// The size isn't one that the type has (X.680, 51.5).
    Size,
    /// No item of an ENUMERATED has the number (X.680, 20).
    Item,
    /// Zeros are after the last one of named bits (X.690, 11.2.2).
    LastZeros,
}

// An octet as a digit in base 256, with all its bits turned for a number below zero.
fn digit_of(octet: u8, is_negative: bool) -> u8
    ensures { result ≡ digit_of is_negative octet }
{
    if is_negative { 255 - octet } else { octet }
}

// The number that octets spell in base 256, as such digits, if 64 bits hold it.
fn spelled(octets: &[u8], is_negative: bool) -> Option<u64>
    ensures { MatchOption result (2 ^ 64 ≤ spelled_number is_negative octets.now) (λ number. number ≡ spelled_number is_negative octets.now) }
{
    let mut sum: u64 = 0;
    for octet in octets {
        sum = sum
            .checked_mul(256)?
            .checked_add(u64::from(digit_of(*octet, is_negative)))?;
    }
    Some(sum)
}

/// The number with these contents (X.690, 8.3), if 64 bits and a sign hold it.
pub fn number_of(contents: &[u8]) -> Option<Number>
    ensures { NumberAt contents.now result }
{
    if has_sign_bit(contents) {
        return Some(Number {
            is_negative: true,
            magnitude: spelled(contents, true)?.checked_add(1)?,
        });
    }
    Some(Number {
        is_negative: false,
        magnitude: spelled(contents, false)?,
    })
}

// Whether contents are those of a number below zero.
fn has_sign_bit(contents: &[u8]) -> bool
    ensures { IsTrue result ↔ HasSignBit contents.now }
{
    match contents {
        [first, ..] => *first >= 128,
        [] => false,
    }
}

// Whether a number is less than another one.
fn is_less(a: Number, b: Number) -> bool {
    match (a.is_negative, b.is_negative) {
        (true, false) => true,
        (false, true) => false,
        (false, false) => a.magnitude < b.magnitude,
        (true, true) => b.magnitude < a.magnitude,
    }
}

// Whether the number with these contents is within bounds.
fn is_within(bounds: Bounds, contents: &[u8]) -> bool {
    let Some(number) = number_of(contents) else {
        return if has_sign_bit(contents) {
            bounds.low.is_none()
        } else {
            bounds.high.is_none()
        };
    };
    let is_above = match bounds.low {
        Some(low) => !is_less(number, low),
        None => true,
    };
    let is_below = match bounds.high {
        Some(high) => !is_less(high, number),
        None => true,
    };
    is_above && is_below
}

/// Whether a size has this many.
pub fn has_size(size: Size, count: u64) -> bool
    ensures { IsTrue result ↔ HasSize size count }
{
    let is_below = match size.high {
        Some(high) => count <= high,
        None => true,
    };
    size.low <= count && is_below
}

// How many characters octets are of the string type with this UNIVERSAL tag.
fn characters(number: u64, octets: &[u8]) -> u64 {
    let count = octets.len() as u64;
    match number {
        12 => octets.iter().filter(|octet| **octet / 64 != 2).count() as u64,
        28 => count / 4,
        30 => count / 2,
        _ => count,
    }
}

// How many bits contents of a BIT STRING have.
fn bits(contents: &[u8]) -> u64 {
    match contents {
        [unused, octets @ ..] => {
            let count = (octets.len() as u64).saturating_mul(8);
            count.saturating_sub(u64::from(*unused))
        }
        [] => 0,
    }
}

// Whether the last one of the bits in contents is a zero.
fn ends_with_zero(contents: &[u8]) -> bool {
    match contents {
        [unused, .., last] if *unused < 8 => (*last >> *unused) % 2 == 0,
        _ => false,
    }
}

/// The name of a number among rows, which is empty if it has none.
pub fn name_of<'m>(schema: &'m Schema, rows: Rows, number: Number) -> &'m [u8] {
    match named(schema, rows, number) {
        Some(named) => schema.name(named.name),
        None => b"",
    }
}

// The row of a number.
fn named(schema: &Schema, rows: Rows, number: Number) -> Option<NamedNumber>
    ensures { MatchOption result ⊤ (λ found. found.number ≡ number) }
{
    for row in rows.first..rows.end {
        if let Some(named) = schema.named_numbers.get(row) {
            if named.number == number {
                return Some(*named);
            }
        }
    }
    None
}

// Whether a number is that of an item.
fn is_item(schema: &Schema, rows: Rows, contents: &[u8]) -> bool {
    match number_of(contents) {
        Some(number) => named(schema, rows, number).is_some(),
        None => false,
    }
}

// The error, unless this is so.
fn unless(is_so: bool, error: ValueError) -> Option<ValueError> {
    if is_so { None } else { Some(error) }
}

/// What the primitive contents of a value of a type don't have that it says, if they are those of its UNIVERSAL type.
pub fn error_of(schema: &Schema, value: ValueType, contents: &[u8]) -> Option<ValueError> {
    match value {
        ValueType::Integer(bounds, _) => unless(is_within(bounds, contents), ValueError::Bounds),
        ValueType::Enumerated(items, is_extensible) => unless(
            is_extensible || is_item(schema, items, contents),
            ValueError::Item,
        ),
        ValueType::BitString(size) => unless(has_size(size, bits(contents)), ValueError::Size),
        ValueType::NamedBits(_) => unless(!ends_with_zero(contents), ValueError::LastZeros),
        ValueType::OctetString(size) => unless(
            has_size(size, contents.len() as u64),
            ValueError::Size,
        ),
        ValueType::Text(number, size) => unless(
            has_size(size, characters(number, contents)),
            ValueError::Size,
        ),
        ValueType::Other(_) => None,
    }
}

// Whether the octet of a BOOLEAN has a number, which is 0 of FALSE and another one of TRUE.
fn has_truth(octet: u8, number: Number) -> bool
    ensures { IsTrue result ↔ ((octet ≡ 0) ↔ (number.magnitude ≡ 0)) }
{
    (octet != 0) == (number.magnitude != 0)
}

// Whether contents are those of a number.
fn is_number(contents: &[u8], number: Number) -> bool
    ensures { IsTrue result ↔ IsNumberOf contents.now number }
{
    number_of(contents) == Some(number)
}

/// Whether primitive contents of a value have a number, which is 0 of FALSE and 1 of TRUE.
pub fn has_number(value: ValueType, contents: &[u8], number: Number) -> bool
    ensures { IsTrue result ↔ HasNumber value contents.now number }
{
    match contents {
        [octet] if value.universal_number() == 1 => has_truth(*octet, number),
        _ => is_number(contents, number),
    }
}
