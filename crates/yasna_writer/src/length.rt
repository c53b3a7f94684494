//! Length octets, the fewest (X.690, 8.1.3 and 10.1), for `header`.
ghost use Rattle.std.specs.Prelude.{◌≡◌, ◌≤◌, length as count};
ghost use Rattle.yasna_base.specs.Length.{shortest_length};
ghost use Rattle.yasna_writer.specs.Put.{PutBefore};

use crate::identifier::put_bytes;
use crate::integer::trim_leading;

// Writes a length in the fewest bytes before a place.
#[tactic(auto, using(yasna_base::proofs::Length::short_length, crate::proofs::Lengths::length_in_two, crate::proofs::Lengths::length_in_three))]
#[inline(always)]
pub(crate) fn put_length(out: &mut [u8], end: usize, length: usize) -> usize
    requires room { count (shortest_length length) ≤ end }
    requires within { end ≤ count out.old }
    ensures put { PutBefore (shortest_length length) end out.old out.new result }
    ensures len { count out.new ≡ count out.old }
{
    if length < 128 {
        return put_bytes(out, end, &[length as u8]);
    }
    if length < 256 {
        return put_bytes(out, end, &[129, length as u8]);
    }
    if length < 65536 {
        return put_bytes(out, end, &[130, (length / 256) as u8, (length % 256) as u8]);
    }
    put_long_length(out, end, length)
}

// As `put_length`, of a length that takes four bytes or more.
#[tactic(auto, using(crate::proofs::BigEndian::length_trimmed, crate::proofs::BigEndian::trimmed_at_most))]
#[inline(never)]
fn put_long_length(out: &mut [u8], end: usize, length: usize) -> usize
    requires long { 128 ≤ length }
    requires room { count (shortest_length length) ≤ end }
    requires within { end ≤ count out.old }
    ensures put { PutBefore (shortest_length length) end out.old out.new result }
    ensures len { count out.new ≡ count out.old }
{
    let bytes = length.to_be_bytes();
    let digits = trim_leading(0, &bytes);
    let start = put_bytes(out, end, digits);
    put_bytes(out, start, &[128 + digits.len() as u8])
}

// The count of bytes of a length.
#[tactic(auto, using(yasna_base::proofs::Length::short_length, crate::proofs::BigEndian::length_trimmed, crate::proofs::BigEndian::trimmed_at_most))]
#[inline(always)]
pub(crate) fn length_length(length: usize) -> usize
    ensures octets { result ≡ count (shortest_length length) }
    ensures few { result ≤ 9 }
{
    if length < 128 {
        return 1;
    }
    trim_leading(0, &length.to_be_bytes()).len() + 1
}
