//! Raw elements, whose contents aren't given a type.
ghost use Rattle.std.specs.Prelude.{◌≡◌};
ghost use Rattle.yasna_base.specs.Octets.{octets_tag};
ghost use Rattle.yasna_base.specs.Sequence.{sequence_tag};
ghost use Rattle.yasna_base.specs.Set.{set_tag};

use crate::tag::{PCBit, Tag};
use crate::tags::{
    TAG_BITSTRING, TAG_IA5STRING, TAG_OCTETSTRING, TAG_PRINTABLESTRING, TAG_SEQUENCE, TAG_SET,
    TAG_UTF8STRING,
};
use std::alloc::AllocError;

/// A raw element: its tag, whether it is constructed, and what follows its length.
///
/// One that was read with indefinite length has the two zeros that end its contents. One that the functions below make is taken
/// as it is: the caller vouches that it is DER.
///
/// Raw elements are ordered by tag, then bit, then bytes.
#[derive(Debug, PartialEq, Eq, PartialOrd, Ord, Hash, Drop)]
pub struct TaggedDerValue {
    tag: Tag,
    pcbit: PCBit,
    value: Vec<u8>,
}

impl TaggedDerValue {
    ghost use Rattle.std.specs.Prelude.{◌≡◌, ◌<◌, ℕ, List, IfOk, IfErr, MatchOption, length};
    ghost use Rattle.yasna_base.specs.declared.tag.PCBit.TheVariants.{Primitive, Constructed};
    ghost use Rattle.yasna_base.specs.TaggedDerValue.{raw_of, raw_value, HoldsOctets, HoldsText};

    /// An OCTET STRING of these octets.
    pub fn from_octetstring(bytes: Vec<u8>) -> TaggedDerValue
        ensures { raw_of result ≡ raw_value octets_tag Primitive bytes.items }
    {
        TaggedDerValue::from_tag_pc_and_bytes(TAG_OCTETSTRING, PCBit::Primitive, bytes)
    }

    /// An element of these contents, constructed where the tag is that of a SEQUENCE or a SET.
    pub fn from_tag_and_bytes(tag: Tag, bytes: Vec<u8>) -> TaggedDerValue
        ensures sequence { tag ≡ sequence_tag → raw_of result ≡ raw_value tag Constructed bytes.items }
        ensures set { tag ≡ set_tag → raw_of result ≡ raw_value tag Constructed bytes.items }
        ensures other { (tag ≡ sequence_tag → ⊥) → (tag ≡ set_tag → ⊥) → raw_of result ≡ raw_value tag Primitive bytes.items }
    {
        let pcbit = match tag {
            TAG_SEQUENCE | TAG_SET => PCBit::Constructed,
            _ => PCBit::Primitive,
        };
        TaggedDerValue::from_tag_pc_and_bytes(tag, pcbit, bytes)
    }

    /// An element of these contents.
    pub fn from_tag_pc_and_bytes(tag: Tag, pcbit: PCBit, bytes: Vec<u8>) -> TaggedDerValue
        ensures { raw_of result ≡ raw_value tag pcbit bytes.items }
    {
        TaggedDerValue {
            tag,
            pcbit,
            value: bytes,
        }
    }

    /// The tag.
    pub fn tag(&self) -> Tag
        ensures { result ≡ (raw_of self.now).tag }
    {
        self.tag
    }

    /// Whether the element is constructed.
    pub fn pcbit(&self) -> PCBit
        ensures { result ≡ (raw_of self.now).bit }
    {
        self.pcbit
    }

    /// What follows the length.
    pub fn value(&self) -> &[u8]
        ensures { result.now ≡ (raw_of self.now).payload }
    {
        &self.value
    }

    /// The octets of a primitive OCTET STRING, or those of a primitive BIT STRING with no unused bits.
    pub fn as_bytes(&self) -> Option<&[u8]>
        ensures { MatchOption result ((b : List ℕ) → HoldsOctets (raw_of self.now) b → ⊥) (λ o. HoldsOctets (raw_of self.now) o.now) }
    {
        match (self.tag, self.pcbit) {
            (TAG_OCTETSTRING, PCBit::Primitive) => Some(&self.value),
            (TAG_BITSTRING, PCBit::Primitive) => self.value.strip_prefix(&[0]),
            _ => None,
        }
    }

    /// The text of a primitive UTF8String, PrintableString or IA5String, where it is UTF-8.
    pub fn as_str(&self) -> Option<&str>
        ensures { MatchOption result (HoldsText (raw_of self.now) → ⊥) (λ t. HoldsText (raw_of self.now) × (t.now ≡ (raw_of self.now).payload)) }
    {
        match (self.tag, self.pcbit) {
            (TAG_UTF8STRING | TAG_PRINTABLESTRING | TAG_IA5STRING, PCBit::Primitive) => {
                std::str::from_utf8(&self.value).ok()
            }
            _ => None,
        }
    }

    /// A copy of the element. Without bytes it doesn't allocate.
    pub fn clone(&self) -> Result<TaggedDerValue, AllocError>
        ensures copy { IfOk result (λ copy. raw_of copy ≡ raw_of self.now) }
        ensures memory { IfErr result (λ _. 0 < length (raw_of self.now).payload) }
    {
        let mut value = Vec::with_capacity(*self.value.allocator(), self.value.len())?;
        value.extend_from_slice(self.value.as_slice())?;
        Ok(TaggedDerValue {
            tag: self.tag,
            pcbit: self.pcbit,
            value,
        })
    }
}
