//! Values of BIT STRING. The zeros at the end of named bits mean nothing, so DER has none (X.690, 11.2.2).
ghost use Rattle.std.specs.Prelude.{◌≡◌, ◌↔◌, ◌+◌, ◌*◌, ◌/◌, ◌≤◌, IsTrue, OnOk, length};
ghost use Rattle.yasna_base.specs.Bits.{AreTheBits, IsBits, bits_contents};
ghost use Rattle.yasna_base.specs.Grammar.{max_depth};
ghost use Rattle.yasna_base.specs.declared.mode.BERMode.TheVariants.{Ber};
ghost use Rattle.asn1der_typed.specs.Appending.{
  AppendsUnder,
  AreBitsOf,
  AreUpToLastOne,
  HasDerCount,
  StartsWith,
  bit_at,
  first_bits,
};

use asn1der_convert::error::ConvertError;
use asn1der_convert::primitives::{append_bit_string, append_bits, unused_and_bytes, unused_bits};
use asn1der_convert::segments::{StringKind, string_error};
use asn1show_schema::schema::ValueType;
use std::alloc::{AllocError, Global};
use yasna_base::error::ASN1ErrorKind;
use yasna_base::tag::Tag;
use yasna_bytes::bytes::cursor::Cursor;
use yasna_bytes::bytes::segments::bit_string;

// How many octets this many bits take.
fn octets_of(count: usize) -> usize
    ensures { result ≡ (count + 7) / 8 }
{
    count.div_ceil(8)
}

// Whether the bit at a place is one.
fn is_one(octets: &[u8], at: usize) -> bool
    ensures { IsTrue result ↔ (bit_at octets.now at ≡ 1) }
{
    match octets.get(at / 8) {
        Some(octet) => (*octet >> (7 - at % 8)) % 2 == 1,
        None => false,
    }
}

// How many of the first bits of octets there are without the zeros at their end.
fn named_count(octets: &[u8], count: usize) -> usize
    ensures { AreUpToLastOne octets.now count result }
{
    let mut left = count;
    while left > 0 {
        if is_one(octets, left - 1) {
            return left;
        }
        left -= 1;
    }
    0
}

// How many of the first bits of octets DER has of a value of this type.
fn der_count(value: ValueType, octets: &[u8], count: usize) -> usize
    ensures { HasDerCount value octets.now count result }
{
    match value {
        ValueType::NamedBits(_) => named_count(octets, count),
        _ => count,
    }
}

// Appends the first bits of octets under an identifier.
fn append_first_bits(
    identifier_bytes: &[u8],
    octets: &[u8],
    count: usize,
    out: &mut Vec<u8>,
) -> Result<(), AllocError>
    requires { count ≤ 8 * length octets.now }
    ensures { OnOk result (AppendsUnder (λ c. c ≡ bits_contents (first_bits octets.now count)) identifier_bytes.now out.old.items out.new.items) }
{
    let first = &octets[..octets_of(count)];
    if first.is_empty() {
        return append_bits(out, identifier_bytes, 0, first);
    }
    append_bits(out, identifier_bytes, unused_bits(count), first)
}

/// Appends a BIT STRING of these contents under an identifier.
pub fn append_whole_bits(
    cursor: Cursor<'_>,
    value: ValueType,
    identifier_bytes: &[u8],
    contents: &[u8],
    out: &mut Vec<u8>,
) -> Result<(), ConvertError>
    ensures { OnOk result (AppendsUnder (λ c. AreBitsOf value (AreTheBits Ber) c contents.now) identifier_bytes.now out.old.items out.new.items) }
{
    let Some((unused, octets)) = unused_and_bytes(contents) else {
        return Err(ConvertError::at(cursor, ASN1ErrorKind::Invalid));
    };
    let count = octets
        .len()
        .saturating_mul(8)
        .saturating_sub(usize::from(unused));
    append_first_bits(
        identifier_bytes,
        octets,
        der_count(value, octets, count),
        out,
    )?;
    Ok(())
}

/// Appends a BIT STRING in segments under an identifier, in one piece (X.690, 10.2). It has the tag, and begins at the cursor.
pub fn append_bit_segments(
    alloc: Global,
    cursor: Cursor<'_>,
    tag: Tag,
    value: ValueType,
    identifier_bytes: &[u8],
    out: &mut Vec<u8>,
) -> Result<(), ConvertError>
    requires mode { cursor.mode ≡ Ber }
    requires levels { cursor.levels ≡ max_depth }
    ensures { OnOk result (AppendsUnder (StartsWith (AreBitsOf value (IsBits tag Ber max_depth)) cursor.entry.left.now) identifier_bytes.now out.old.items out.new.items) }
{
    let ((octets, all), _rest) = match bit_string(alloc, cursor, tag) {
        Ok(taken) => taken,
        Err(rejection) => {
            return Err(string_error(alloc, cursor, tag, StringKind::Bits, rejection.kind));
        }
    };
    let count = der_count(value, &octets, all);
    let mut first = octets;
    first.truncate(octets_of(count));
    append_bit_string(out, identifier_bytes, first, count)?;
    Ok(())
}
