//! The parts of a SET, in the order of their tags (X.690, 10.3; X.680, 8.6), for `set`.
ghost use Rattle.std.specs.Prelude.{◌≡◌, [], drop, if◌then◌else◌, nat_lt, OnOk, MatchOption};
ghost use Rattle.yasna_base.specs.Order.{in_order};
ghost use Rattle.yasna_base.specs.Set.{HasItsTag, part_cmp};
ghost use Rattle.yasna_writer.specs.Parts.{bytes_each, set_part_of, parts_of};
ghost use Rattle.yasna_writer.specs.Set.{TagsParts};

use std::alloc::{AllocError, Global};
use std::cmp::Ordering;
use std::convert::AsSlice;
use yasna_base::bytes::identifier::read_identifier;
use yasna_base::{ASN1Error, ASN1ErrorKind, ASN1Result, Tag};

/// A part of a SET, and the tag that it begins with.
#[derive(Drop)]
pub struct TaggedPart {
    tag: Tag,
    bytes: Vec<u8>,
}

impl AsSlice<u8> for TaggedPart {
    ghost items = { λ p. p.bytes.items };

    fn as_slice(&self) -> &[u8] {
        self.bytes.as_slice()
    }
}

impl TaggedPart {
    // The bytes by which parts of one tag are ordered: those after the first if the tag's number is 31 or more, and else none.
    fn tail(&self) -> &[u8]
        ensures { result.now ≡ (if nat_lt self.now.tag.tag_number 31 then [] else drop 1 self.now.bytes.items) }
    {
        if self.tag.tag_number < 31 {
            return &[];
        }
        match self.bytes.split_first() {
            Some((_, tail)) => tail,
            None => &[],
        }
    }

    // The order of two parts.
    fn compare(&self, other: &TaggedPart) -> Ordering
        ensures { result ≡ part_cmp (set_part_of self.now) (set_part_of other.now) }
    {
        self.tag
            .cmp(&other.tag)
            .then_with(|| self.tail().cmp(other.tail()))
    }
}

// The tag of the identifier that a part begins with.
fn first_tag(part: &[u8]) -> Option<Tag>
    ensures { MatchOption result ((t : Tag) → HasItsTag (record { tag = t; bytes = part.now }) → ⊥) (λ t. HasItsTag (record { tag = t; bytes = part.now })) }
{
    let Ok((tag, _, _)) = read_identifier(part) else {
        return None;
    };
    Some(tag)
}

/// Finds the tags of parts. A part that begins with no identifier is `Invalid`.
pub fn tag_parts(alloc: Global, parts: Vec<Vec<u8>>) -> ASN1Result<Vec<TaggedPart>>
    ensures { TagsParts (bytes_each parts.items) result }
{
    let Ok(mut tagged) = Vec::with_capacity(alloc, parts.len()) else {
        return Err(ASN1Error::new(ASN1ErrorKind::OutOfMemory));
    };
    for bytes in parts {
        let Some(tag) = first_tag(&bytes) else {
            return Err(ASN1Error::new(ASN1ErrorKind::Invalid));
        };
        let Ok(()) = tagged.push(TaggedPart { tag, bytes }) else {
            return Err(ASN1Error::new(ASN1ErrorKind::OutOfMemory));
        };
    }
    Ok(tagged)
}

/// Puts parts in the order of a SET.
pub fn order_by_tag(parts: &mut Vec<TaggedPart>) -> Result<(), AllocError>
    ensures { OnOk result (parts_of parts.new.items ≡ in_order part_cmp (parts_of parts.old.items)) }
{
    parts.sort_by(|part, other| part.compare(other))
}
