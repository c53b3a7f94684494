//! Identifier octets (X.690, 8.1.2), for `header`, and numbers in base 128, which `oid` has too.
ghost use Rattle.std.specs.Prelude.{◌≡◌, ◌<◌, ◌≤◌, ◌+◌, ◌*◌, ◌++◌, length, OnOk, vec_len};
ghost use Rattle.yasna_base.specs.Identifier.{identifier, class_number, bit_number, leading_byte};
ghost use Rattle.yasna_base.specs.Digits.{base128};
ghost use Rattle.yasna_base.specs.declared.tag.PCBit.TheVariants.{Constructed};
ghost use Rattle.yasna_writer.specs.Identifier.{base128_digits, base128_byte};
ghost use Rattle.yasna_writer.specs.Put.{PutBefore};

use std::alloc::AllocError;
use yasna_base::{PCBit, Tag, TagClass};

// Appends bytes.
#[inline(always)]
pub(crate) fn push_bytes(out: &mut Vec<u8>, bytes: &[u8]) -> Result<(), AllocError>
    ensures items { OnOk result (out.new.items ≡ out.old.items ++ bytes.now) }
    ensures grows { vec_len out.old ≤ vec_len out.new }
{
    if bytes.len() > out.capacity() - out.len() {
        make_room(out, bytes.len())?;
    }
    out.extend_from_slice(bytes)
}

// Makes room for this many further bytes. The first room is for 24: few allocators have a smaller block, and a small element fits
// with its header.
#[cold]
#[inline(never)]
fn make_room(out: &mut Vec<u8>, more: usize) -> Result<(), AllocError>
    ensures items { out.new.items ≡ out.old.items }
    ensures len { vec_len out.new ≡ vec_len out.old }
{
    if out.capacity() == 0 && more < 24 {
        return out.reserve(24);
    }
    out.reserve(more)
}

// Writes bytes before a place, over those that are there, and returns where the first of them is.
#[inline(always)]
pub(crate) fn put_bytes(out: &mut [u8], end: usize, bytes: &[u8]) -> usize
    requires room { length bytes.now ≤ end }
    requires within { end ≤ length out.old }
    ensures put { PutBefore bytes.now end out.old out.new result }
    ensures len { length out.new ≡ length out.old }
{
    let start = end - bytes.len();
    out[start..end].copy_from_slice(bytes);
    start
}

// The class's place in the first byte.
#[inline(always)]
fn class_bits(class: TagClass) -> u8
    ensures { result ≡ 64 * class_number class }
{
    match class {
        TagClass::Universal => 0,
        TagClass::Application => 64,
        TagClass::ContextSpecific => 128,
        TagClass::Private => 192,
    }
}

// The bit's place in the first byte.
#[inline(always)]
fn constructed_bit(bit: PCBit) -> u8
    ensures { result ≡ 32 * bit_number bit }
{
    match bit {
        PCBit::Primitive => 0,
        PCBit::Constructed => 32,
    }
}

// The one byte of an identifier whose number is below 31.
#[inline(always)]
pub(crate) fn leading(tag: Tag, bit: PCBit) -> u8
    requires { tag.tag_number < 31 }
    ensures { result ≡ leading_byte tag bit tag.tag_number }
{
    class_bits(tag.tag_class) + constructed_bit(bit) + tag.tag_number as u8
}

// The most bytes of a number of 64 bits in base 128.
pub(crate) const LONGEST_NUMBER: usize = 10;

// The count of bytes of a number in base 128.
#[tactic(auto, using(crate::proofs::Identifiers::base128_length_small, crate::proofs::Identifiers::base128_length_step, crate::proofs::Identifiers::base128_length_at_most))]
pub(crate) fn base128_length(number: u64) -> usize
    ensures { result ≡ length (base128 number) }
{
    if number < 128 {
        return 1;
    }
    base128_length(number / 128) + 1
}

// The last byte of a number in base 128.
fn base128_byte(more: bool, number: u64) -> u8
    ensures { result ≡ base128_byte more number }
{
    let digit = (number % 128) as u8;
    if more { 128 + digit } else { digit }
}

// Writes a number in base 128 before a place, with 128 added to all its digits, or to all but the last.
#[tactic(auto, using(crate::proofs::Identifiers::base128_digits_small))]
pub(crate) fn put_base128(out: &mut [u8], end: usize, number: u64, more: bool) -> usize
    requires room { length (base128_digits more number) ≤ end }
    requires within { end ≤ length out.old }
    ensures put { PutBefore (base128_digits more number) end out.old out.new result }
    ensures len { length out.new ≡ length out.old }
{
    let last = put_bytes(out, end, &[base128_byte(more, number)]);
    if number < 128 {
        return last;
    }
    put_base128(out, last, number / 128, true)
}

// Appends a number in base 128, which is put together on the stack.
#[tactic(auto, using(crate::proofs::Identifiers::base128_length_at_most, crate::proofs::Puts::put_last), unfolding(crate::specs::Identifier::base128_digits))]
pub(crate) fn push_base128(out: &mut Vec<u8>, number: u64) -> Result<(), AllocError>
    ensures items { OnOk result (out.new.items ≡ out.old.items ++ base128 number) }
    ensures grows { vec_len out.old ≤ vec_len out.new }
{
    let mut digits = [0; LONGEST_NUMBER];
    let start = put_base128(&mut digits, LONGEST_NUMBER, number, false);
    push_bytes(out, &digits[start..])
}

// Writes the identifier of a tag before a place.
#[tactic(auto, using(yasna_base::proofs::Identifier::identifier_short, yasna_base::proofs::Identifier::identifier_long), unfolding(crate::specs::Identifier::base128_digits))]
pub(crate) fn put_identifier(out: &mut [u8], end: usize, tag: Tag, bit: PCBit) -> usize
    requires room { length (identifier tag bit) ≤ end }
    requires within { end ≤ length out.old }
    ensures put { PutBefore (identifier tag bit) end out.old out.new result }
    ensures len { length out.new ≡ length out.old }
{
    if tag.tag_number < 31 {
        return put_bytes(out, end, &[leading(tag, bit)]);
    }
    let digits = put_base128(out, end, tag.tag_number, false);
    put_bytes(
        out,
        digits,
        &[class_bits(tag.tag_class) + constructed_bit(bit) + 31],
    )
}

// The count of bytes of the identifier of a constructed element.
#[tactic(auto, using(yasna_base::proofs::Identifier::identifier_short, yasna_base::proofs::Identifier::identifier_long, crate::proofs::Identifiers::base128_length_at_most))]
#[inline(always)]
pub(crate) fn identifier_length(tag: Tag) -> usize
    ensures octets { result ≡ length (identifier tag Constructed) }
    ensures few { result ≤ 11 }
{
    if tag.tag_number < 31 {
        return 1;
    }
    base128_length(tag.tag_number) + 1
}
