//! The octets that headers take (X.690, 8.1.2, 8.1.3 and 10.1).
ghost use Rattle.std.specs.Prelude.{◌≡◌, ◌↔◌, ◌+◌, ◌<◌, ◌≤◌, IsTrue, length, not};
ghost use Rattle.yasna_base.specs.Digits.{base128, digits};
ghost use Rattle.yasna_base.specs.Identifier.{identifier};
ghost use Rattle.yasna_base.specs.declared.tag.PCBit.{PCBit};
ghost use Rattle.yasna_base.specs.Length.{shortest_length};
ghost use Rattle.asn1show_printer.specs.Headers.{SaysOfLength};
ghost use Rattle.asn1show_printer.specs.Modes.{IsShort};

use asn1show_walk::Item;
use yasna_base::tag::Tag;

// The count of digits of a number in base 256.
#[tactic(auto, using(crate::proofs::Headers::octets_small, crate::proofs::Headers::octets_step, crate::proofs::Headers::octets_at_most))]
fn octet_count(number: usize) -> usize
    ensures { result ≡ length (digits 256 number) }
{
    if number < 256 {
        return 1;
    }
    octet_count(number / 256) + 1
}

// The count of octets of the shortest length of this size.
#[tactic(auto, using(crate::proofs::Headers::shortest_small, crate::proofs::Headers::shortest_large, crate::proofs::Headers::octets_at_most))]
fn shortest_length(size: usize) -> usize
    ensures octets { result ≡ length (shortest_length size) }
    ensures few { result ≤ 9 }
{
    if size < 128 {
        return 1;
    }
    octet_count(size) + 1
}

// The count of octets of a number in base 128.
#[tactic(auto, using(crate::proofs::Headers::base128_small, crate::proofs::Headers::base128_step, crate::proofs::Headers::base128_at_most))]
fn base128_count(number: u64) -> usize
    ensures { result ≡ length (base128 number) }
{
    if number < 128 {
        return 1;
    }
    base128_count(number / 128) + 1
}

// The count of octets of an identifier with this tag.
#[tactic(auto, using(crate::proofs::Headers::identifier_small, crate::proofs::Headers::identifier_large, crate::proofs::Headers::base128_at_most))]
fn identifier_length(tag: Tag) -> usize
    ensures octets { (bit : PCBit) → result ≡ length (identifier tag bit) }
    ensures few { result ≤ 11 }
{
    if tag.tag_number < 31 {
        return 1;
    }
    base128_count(tag.tag_number) + 1
}

/// Whether an element's length takes more octets than it needs.
pub fn is_long(item: &Item<'_>) -> bool
    ensures said { SaysOfLength item.now result }
    ensures short { IsTrue (not result) ↔ IsShort item.now.tag item.now.bit item.now.header item.now.size }
{
    let Some(size) = item.size else {
        return false;
    };
    item.header > identifier_length(item.tag) + shortest_length(size)
}
