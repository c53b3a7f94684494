//! Primitive elements that are appended to an output in DER: an identifier that the caller gives, a length, and contents.
ghost use Rattle.std.specs.Prelude.{◌≡◌, ◌≤◌, ◌<◌, ◌++◌, ◌*◌, ◌-◌, ◌%◌, ◌^◌, ◌∷◌, [], ℕ, List, IfErr, OnOk, MatchOption, length};
ghost use Rattle.asn1_contents.specs.Contents.{HasContents};
ghost use Rattle.yasna_base.specs.Bits.{padded};
ghost use Rattle.yasna_base.specs.Boolean.{boolean_byte};
ghost use Rattle.yasna_base.specs.declared.mode.BERMode.TheVariants.{Ber};
ghost use Rattle.asn1der_convert.specs.Parts.{AppendsBits, AppendsContents};
ghost use Rattle.asn1der_convert.specs.declared.error.ConvertError.TheVariants.{Memory};
ghost use Rattle.asn1der_convert.specs.WholeBits.{UnusedAndBytes, unused_with, AreWholeBits};

use crate::error::{ConvertError, contents_error, expected_of};
use crate::writing::{append_contents, append_element};
use asn1_contents::contents_type::ContentsType;
use asn1_contents::der_contents::der_contents;
use asn1_contents::plain::are_plain;
use std::alloc::{AllocError, Global};
use yasna_bytes::bytes::cursor::Cursor;

/// The byte that represents TRUE or FALSE.
pub fn truth_byte(truth: bool) -> u8
    ensures { result ≡ boolean_byte truth }
{
    if truth { 255 } else { 0 }
}

// The last byte of a BIT STRING, with zeros in this many unused bits.
fn cleared_byte(last: u8, unused: u8) -> u8
    requires { unused ≤ 7 }
    ensures { result ≡ last - last % 2 ^ unused }
{
    last - last % (1u8 << unused)
}

/// The count of unused bits in the last byte of a BIT STRING of this many bits.
pub fn unused_bits(count: usize) -> u8
    ensures { result ≡ (8 - count % 8) % 8 }
{
    ((8 - count % 8) % 8) as u8
}

// Clears this many unused bits of a BIT STRING's last byte (X.690, 11.2.1).
fn clear_unused(bytes: &mut Vec<u8>, unused: u8) -> Result<(), AllocError>
    requires { unused ≤ 7 }
    ensures { OnOk result (bytes.new.items ≡ padded unused bytes.old.items) }
{
    let Some(last) = bytes.pop() else {
        return Ok(());
    };
    bytes.push(cleared_byte(last, unused))?;
    Ok(())
}

/// How many bits are unused in a BIT STRING with these contents in BER, and its bytes (X.690, 8.6.2).
pub fn unused_and_bytes(contents: &[u8]) -> Option<(u8, &[u8])>
    ensures { MatchOption result ((b : UnusedAndBytes) → AreWholeBits b contents.now → ⊥) (λ x. AreWholeBits (unused_with x) contents.now) }
{
    let Some((unused, bytes)) = contents.split_first() else {
        return None;
    };
    let unused = *unused;
    if unused >= 8 || bytes.is_empty() && unused != 0 {
        return None;
    }
    // So their bits have a count.
    if bytes.len() > usize::MAX / 8 {
        return None;
    }
    Some((unused, bytes))
}

/// Appends a BIT STRING of these bytes, of which so many bits are unused and get zeros.
pub fn append_bits(
    out: &mut Vec<u8>,
    identifier_bytes: &[u8],
    unused: u8,
    bytes: &[u8],
) -> Result<(), AllocError>
    requires few { unused ≤ 7 }
    requires none_of_none { bytes.now ≡ [] → unused ≡ 0 }
    ensures { OnOk result (AppendsBits unused identifier_bytes.now bytes.now out.old.items out.new.items) }
{
    append_element(out, identifier_bytes, &[unused], bytes)?;
    clear_unused(out, unused)
}

/// Appends a BIT STRING of these bytes, of which so many bits are used and the others get zeros.
pub fn append_bit_string(
    out: &mut Vec<u8>,
    identifier_bytes: &[u8],
    bytes: Vec<u8>,
    count: usize,
) -> Result<(), AllocError>
    ensures { OnOk result (AppendsBits ((8 - count % 8) % 8) identifier_bytes.now bytes.items out.old.items out.new.items) }
{
    let mut contents = bytes;
    let unused = unused_bits(count);
    clear_unused(&mut contents, unused)?;
    contents.insert(0, unused)?;
    append_contents(out, identifier_bytes, contents)
}

/// Appends the primitive element with this identifier and the contents in DER of these. Its type says what they are, and it begins at the cursor.
pub fn append_primitive(
    alloc: Global,
    cursor: Cursor<'_>,
    contents_type: ContentsType,
    identifier_bytes: &[u8],
    contents: &[u8],
    out: &mut Vec<u8>,
) -> Result<(), ConvertError>
    ensures bytes { OnOk result (AppendsContents contents_type identifier_bytes.now contents.now out.old.items out.new.items) }
    ensures rejection { IfErr result (λ e. (e ≡ Memory → ⊥) → (d : List ℕ) → HasContents contents_type Ber d contents.now → ⊥) }
{
    if are_plain(contents_type, contents) {
        append_element(out, identifier_bytes, &[], contents)?;
        return Ok(());
    }
    let mut copy = Vec::new(alloc);
    copy.extend_from_slice(contents)?;
    let Some(converted) = der_contents(alloc, contents_type, copy)? else {
        return Err(contents_error(cursor, expected_of(contents_type)));
    };
    append_element(out, identifier_bytes, &[], &converted)?;
    Ok(())
}

/// Appends the string with this identifier and the contents in DER of these, as `append_primitive`. Its octets may take over the output.
pub fn append_string(
    alloc: Global,
    cursor: Cursor<'_>,
    contents_type: ContentsType,
    identifier_bytes: &[u8],
    octets: Vec<u8>,
    out: &mut Vec<u8>,
) -> Result<(), ConvertError>
    ensures bytes { OnOk result (AppendsContents contents_type identifier_bytes.now octets.items out.old.items out.new.items) }
    ensures rejection { IfErr result (λ e. (e ≡ Memory → ⊥) → (d : List ℕ) → HasContents contents_type Ber d octets.items → ⊥) }
{
    if are_plain(contents_type, &octets) {
        append_contents(out, identifier_bytes, octets)?;
        return Ok(());
    }
    append_primitive(alloc, cursor, contents_type, identifier_bytes, &octets, out)
}
