//! The parts of a SET OF, put in order (X.690, 11.6), in a buffer to which they were prepended too.
ghost use Rattle.std.specs.List.{flat_map};
ghost use Rattle.std.specs.Prelude.{◌≡◌, [], ℕ, List, IfOk, MatchResult, OnOk};
ghost use Rattle.yasna_base.specs.declared.error.ASN1ErrorKind.TheVariants.{OutOfMemory};
ghost use Rattle.yasna_base.specs.Error.{kind_of};
ghost use Rattle.yasna_base.specs.Order.{octets_cmp, in_order};
ghost use Rattle.yasna_writer.specs.Parts.{ordered_bytes};
ghost use Rattle.yasna_writer.specs.PartOrder.{BeginsWithParts, AreLengths, ArePartsInOrder, OrdersParts};

use crate::ordered_part::OrderedPart;
use crate::prepend_buffer::PrependBuffer;
use std::alloc::{AllocError, Global};
use std::convert::AsSlice;
use yasna_base::ASN1Result;

/// Puts parts in the order of a SET OF.
pub fn order_by_bytes(parts: &mut Vec<OrderedPart<'_>>) -> Result<(), AllocError>
    ensures { OnOk result (ordered_bytes parts.new.items ≡ in_order octets_cmp (ordered_bytes parts.old.items)) }
{
    parts.sort_by(|part, other| part.compare(other))
}

// The parts of these lengths, that of the last part first, each after its sort key.
fn cut_parts<'a>(
    alloc: Global,
    bytes: &'a [u8],
    lens: &[usize],
) -> Result<Vec<OrderedPart<'a>>, AllocError>
    requires { AreLengths lens.now bytes.now }
    ensures { IfOk result (λ v. (parts : List (List ℕ)) (rest : List ℕ) → BeginsWithParts lens.now bytes.now parts rest → ordered_bytes v.items ≡ parts) }
{
    let mut parts = Vec::with_capacity(alloc, lens.len())?;
    let mut rest = bytes;
    let mut others = lens;
    while let Some((len, before)) = others.split_last() {
        let (part, after) = rest.split_at(*len);
        parts.push(OrderedPart::new(part))?;
        rest = after;
        others = before;
    }
    Ok(parts)
}

// Parts, one after the other, in a vector with room for `room` bytes.
fn join_parts(alloc: Global, parts: &[OrderedPart<'_>], room: usize) -> Result<Vec<u8>, AllocError>
    ensures { IfOk result (λ v. v.items ≡ flat_map (λ part. part.bytes.now) parts.now) }
{
    let mut joined = Vec::with_capacity(alloc, room)?;
    for part in parts {
        joined.extend_from_slice(part.as_slice())?;
    }
    Ok(joined)
}

// The parts of these lengths in the order of a SET OF, one after the other, in a vector of their own.
fn ordered_parts(alloc: Global, bytes: &[u8], lens: &[usize]) -> Result<Vec<u8>, AllocError>
    requires { AreLengths lens.now bytes.now }
    ensures { IfOk result (λ v. ArePartsInOrder lens.now bytes.now v.items) }
{
    let mut parts = cut_parts(alloc, bytes, lens)?;
    order_by_bytes(&mut parts)?;
    join_parts(alloc, &parts, total(lens))
}

// The sum of lengths, or the largest number if it passes that.
fn total(lens: &[usize]) -> usize {
    let mut total: usize = 0;
    for len in lens {
        total = total.saturating_add(*len);
    }
    total
}

impl PrependBuffer {
    /// An empty list with room for the lengths of this many parts, for `order_parts`.
    pub fn part_lens(&self, parts: usize) -> ASN1Result<Vec<usize>>
        ensures { MatchResult result (λ v. v.items ≡ []) (λ e. kind_of e ≡ OutOfMemory) }
    {
        Ok(Vec::with_capacity(self.alloc(), parts)?)
    }

    /// Puts the first parts of the buffer in ascending order as bytes, as those of a SET OF (X.690, 11.6). `lens` has the lengths of the
    /// parts as they were prepended: that of the last part first.
    pub fn order_parts(&mut self, lens: &[usize]) -> ASN1Result<()>
        requires { AreLengths lens.now self.old.bytes }
        ensures { OrdersParts lens.now self.old self.new result }
    {
        let ordered = ordered_parts(self.alloc(), self.bytes(), lens)?;
        self.remove_first(ordered.len());
        self.prepend_many(&ordered)
    }
}
