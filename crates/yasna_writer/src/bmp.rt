//! Texts in UTF-16, the high byte of each unit first, as a BMPString holds them (X.690, 8.23). `strings` and `buffer` call it.
ghost use Rattle.std.specs.Prelude.{◌≡◌, ◌≤◌, [], ◌∷◌, ◌++◌, length as count, OnOk, IfOk, vec_len};
ghost use Rattle.std.specs.List.{sum_by};
ghost use Rattle.std.specs.Str.{chars};
ghost use Rattle.yasna_base.specs.Text.{bmp_octets};
ghost use Rattle.yasna_writer.specs.Bmp.{octets_begun};

use crate::identifier::push_bytes;
use std::alloc::{AllocError, Global};

// How many bytes are counted at once.
const BLOCK: usize = 32;

// The count of bytes of a text in UTF-16.
pub(crate) fn bmp_length(string: &str) -> usize
    ensures { result ≡ count (bmp_octets (chars string.now)) }
{
    let mut length = 0;
    let mut rest = string.as_bytes();
    while rest.len() > BLOCK {
        let (block, after) = rest.split_at(BLOCK);
        length += begun_in(block) as usize;
        rest = after;
    }
    length + begun_in(rest) as usize
}

// The count of bytes in UTF-16 of the characters that these bytes begin in UTF-8. They are few enough for one byte.
#[inline(always)]
fn begun_in(block: &[u8]) -> u8
    requires { count block.now ≤ 32 }
    ensures { result ≡ sum_by octets_begun block.now }
{
    let mut sum = 0;
    for byte in block {
        sum += octets_begun(*byte);
    }
    sum
}

// The count of bytes in UTF-16 of the character that this byte begins, 0 if it begins none. There is no jump, so that many bytes are
// counted at once.
#[inline(always)]
fn octets_begun(byte: u8) -> u8
    ensures { result ≡ octets_begun byte }
{
    2 * (u8::from(byte < 128) + u8::from(byte >= 192) + u8::from(byte >= 240))
}

// Appends a text in UTF-16.
pub(crate) fn push_bmp(out: &mut Vec<u8>, string: &str) -> Result<(), AllocError>
    ensures items { OnOk result (out.new.items ≡ out.old.items ++ bmp_octets (chars string.now)) }
    ensures grows { vec_len out.old ≤ vec_len out.new }
{
    for c in string.chars() {
        push_character(out, c)?;
    }
    Ok(())
}

// Appends a character: one below 65536 as it is, and one past it as two surrogates.
#[tactic(auto, using(crate::proofs::Bmps::octets_of_one, crate::proofs::Bmps::octets_of_two))]
#[inline(always)]
fn push_character(out: &mut Vec<u8>, c: char) -> Result<(), AllocError>
    ensures items { OnOk result (out.new.items ≡ out.old.items ++ bmp_octets (c ∷ [])) }
    ensures grows { vec_len out.old ≤ vec_len out.new }
{
    let number = c as u32;
    if number < 65536 {
        return push_bytes(out, &[(number / 256) as u8, (number % 256) as u8]);
    }
    let over = number - 65536;
    let [high, low] = [0xD800 + over / 1024, 0xDC00 + over % 1024];
    push_bytes(
        out,
        &[
            (high / 256) as u8,
            (high % 256) as u8,
            (low / 256) as u8,
            (low % 256) as u8,
        ],
    )
}

// A text in UTF-16, of this many bytes, or `OutOfMemory`.
pub(crate) fn bmp_bytes(alloc: Global, string: &str, length: usize) -> Result<Vec<u8>, AllocError>
    ensures { IfOk result (λ octets. octets.items ≡ bmp_octets (chars string.now)) }
{
    let mut octets = Vec::with_capacity(alloc, length)?;
    push_bmp(&mut octets, string)?;
    Ok(octets)
}
