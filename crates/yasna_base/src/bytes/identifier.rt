//! Identifiers (X.690, 8.1.2).
ghost use Rattle.std.specs.Prelude.{◌≡◌, ◌+◌, ◌*◌, ◌<◌, ◌∷◌};
ghost use Rattle.yasna_base.specs.Identifier.{class_number, bit_number, NumberAt, IdentifierAt};

use crate::bytes::base128::read_base128;
use crate::error::ASN1ErrorKind;
use crate::tag::{PCBit, Tag, TagClass};

// The class, the bit and the low five bits of an identifier's first byte.
#[inline(always)]
fn leading(first: u8) -> (TagClass, PCBit, u8)
    ensures parts { first ≡ 64 * class_number result.0 + 32 * bit_number result.1 + result.2 }
    ensures low { result.2 < 32 }
{
    let class = match first / 64 {
        0 => TagClass::Universal,
        1 => TagClass::Application,
        2 => TagClass::ContextSpecific,
        _ => TagClass::Private,
    };
    let bit = if first / 32 % 2 == 0 {
        PCBit::Primitive
    } else {
        PCBit::Constructed
    };
    (class, bit, first % 32)
}

// Reads a tag number of the long form.
#[cold]
#[inline(never)]
fn read_number(s: &[u8]) -> Result<(u64, &[u8]), ASN1ErrorKind>
    ensures { NumberAt s.now result }
{
    match read_base128(s) {
        Ok((number, rest)) => {
            if number < 31 {
                return Err(ASN1ErrorKind::Invalid);
            }
            Ok((number, rest))
        }
        Err(kind) => Err(kind),
    }
}

// Reads the rest of an identifier whose first byte says that a tag number of the long form follows.
#[inline(always)]
fn read_long(
    tag_class: TagClass,
    bit: PCBit,
    s: &[u8],
) -> Result<(Tag, PCBit, &[u8]), ASN1ErrorKind>
    ensures { IdentifierAt ((64 * class_number tag_class + 32 * bit_number bit + 31) ∷ s.now) result }
{
    match read_number(s) {
        Ok((tag_number, rest)) => {
            let tag = Tag {
                tag_class,
                tag_number,
            };
            Ok((tag, bit, rest))
        }
        Err(kind) => Err(kind),
    }
}

/// Reads an identifier.
#[inline(always)]
pub fn read_identifier(s: &[u8]) -> Result<(Tag, PCBit, &[u8]), ASN1ErrorKind>
    ensures { IdentifierAt s.now result }
{
    let Some((first, rest)) = s.split_first() else {
        return Err(ASN1ErrorKind::Eof);
    };
    let (tag_class, bit, low) = leading(*first);
    if low < 31 {
        let tag = Tag {
            tag_class,
            tag_number: u64::from(low),
        };
        return Ok((tag, bit, rest));
    }
    read_long(tag_class, bit, rest)
}
