//! OBJECT IDENTIFIER (X.690, 8.19), a call of users. Its contents are numbers, which are appended one by one.
ghost use Rattle.std.specs.List.{flat_map};
ghost use Rattle.std.specs.Prelude.{◌≡◌, ◌≤◌, ◌*◌, ◌∷◌, ◌++◌, length, OnOk, vec_len};
ghost use Rattle.yasna_base.specs.declared.mode.BERMode.TheVariants.{Der};
ghost use Rattle.yasna_base.specs.declared.tag.PCBit.TheVariants.{Primitive};
ghost use Rattle.yasna_base.specs.Canonical.{canonical_element};
ghost use Rattle.yasna_base.specs.Digits.{base128};
ghost use Rattle.yasna_base.specs.Identifier.{tag_or};
ghost use Rattle.yasna_base.specs.Oid.{IsEncodableOid, subidentifiers, oid_encoding, oid_tag};
ghost use Rattle.yasna_writer.specs.View.{Wrote};

use crate::header::Header;
use crate::identifier::{base128_length, push_base128, push_bytes};
use crate::state::Writer;
use std::alloc::AllocError;
use yasna_base::models::ObjectIdentifier;
use yasna_base::tags::TAG_OID;
use yasna_base::{ASN1Result, PCBit};

// The count of bytes of numbers in base 128.
#[inline(always)]
fn numbers_length(numbers: &[u64]) -> usize
    ensures octets { result ≡ length (flat_map base128 numbers.now) }
    ensures few { result ≤ 10 * length numbers.now }
{
    let mut octets = 0;
    for number in numbers {
        octets += base128_length(*number);
    }
    octets
}

// Appends a number in base 128, of up to three bytes at once.
#[tactic(auto, using(crate::proofs::Identifiers::base128_small, crate::proofs::Identifiers::base128_two, crate::proofs::Identifiers::base128_three), unfolding(crate::specs::Identifier::base128_digits))]
#[inline(always)]
fn push_number(out: &mut Vec<u8>, number: u64) -> Result<(), AllocError>
    ensures items { OnOk result (out.new.items ≡ out.old.items ++ base128 number) }
    ensures grows { vec_len out.old ≤ vec_len out.new }
{
    if number < 128 {
        return push_bytes(out, &[number as u8]);
    }
    let low = (number % 128) as u8;
    if number < 16384 {
        return push_bytes(out, &[128 + (number / 128) as u8, low]);
    }
    if number < 2097152 {
        let middle = (number / 128 % 128) as u8;
        return push_bytes(out, &[128 + (number / 128 / 128) as u8, 128 + middle, low]);
    }
    push_base128(out, number)
}

// Appends numbers in base 128.
#[inline(always)]
fn push_numbers(out: &mut Vec<u8>, numbers: &[u64]) -> Result<(), AllocError>
    ensures items { OnOk result (out.new.items ≡ out.old.items ++ flat_map base128 numbers.now) }
    ensures grows { vec_len out.old ≤ vec_len out.new }
{
    for number in numbers {
        push_number(out, *number)?;
    }
    Ok(())
}

// The count of bytes of these subidentifiers.
#[inline(always)]
pub(crate) fn contents_length(first: u64, further: &[u64]) -> usize
    ensures { result ≡ length (base128 first ++ flat_map base128 further.now) }
{
    base128_length(first) + numbers_length(further)
}

// Appends these subidentifiers.
pub(crate) fn push_subidentifiers(
    out: &mut Vec<u8>,
    first: u64,
    further: &[u64],
) -> Result<(), AllocError>
    ensures items { OnOk result (out.new.items ≡ out.old.items ++ (base128 first ++ flat_map base128 further.now)) }
    ensures grows { vec_len out.old ≤ vec_len out.new }
{
    push_number(out, first)?;
    push_numbers(out, further)
}

// The number that the first two components make, and the further components.
#[inline(always)]
pub(crate) fn subidentifiers(components: &[u64]) -> (u64, &[u64])
    requires { IsEncodableOid components.now }
    ensures { subidentifiers components.now ≡ result.0 ∷ result.1.now }
{
    (40 * components[0] + components[1], &components[2..])
}

impl Writer {
    /// Writes an OBJECT IDENTIFIER that has an encoding, as `is_encodable` says (X.690, 8.19).
    #[tactic(auto, unfolding(yasna_base::specs::Canonical::canonical_element, yasna_base::specs::Canonical::definite_element))]
    pub fn write_oid(&mut self, oid: &ObjectIdentifier) -> ASN1Result<()>
        requires { IsEncodableOid oid.now }
        ensures { Wrote (oid_encoding (tag_or self.old.tag oid_tag) self.old.mode oid.now) self.old self.new result }
    {
        if let Some(error) = self.failed() {
            return Err(error);
        }
        let tag = self.take_tag(TAG_OID);
        let (first, further) = subidentifiers(oid.components());
        let length = contents_length(first, further);
        self.append_header(Header { tag, length }, PCBit::Primitive)?;
        self.append_subidentifiers(first, further)
    }
}
