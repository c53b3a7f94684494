//! DEFAULT of BIT STRING (X.680, 22 and 25.9).
ghost use Rattle.std.specs.Prelude.{◌≡◌};
ghost use Rattle.yasna_base.specs.Bits.{BitString};
ghost use Rattle.yasna_bytes.specs.Segments.{bits_in};
ghost use Rattle.yasna_notation_types.specs.TestedBits.{is_bit_string, one_bits};

use crate::named_bits::NamedBits;
use std::marker::PhantomData;
use yasna_notation::BitString;
use yasna_notation_constraints::TestedDefault;

/// The bits of a BIT STRING that a module names. Unused bits are zeros, and with named bits the last bit is a one.
pub trait BitsValue {
    // The bits.
    ghost bits: { BitString };

    /// Their octets, the first bit of an octet being its highest.
    fn octets() -> &'static [u8]
        ensures { result.now ≡ bits.bytes };

    /// How many bits there are.
    fn count() -> usize
        ensures { result ≡ bits.count };
}

/// `DEFAULT K`, of a BIT STRING.
pub struct Bits<K> {
    named: PhantomData<K>,
}

// Whether these are the bits of a value.
fn has_bits<K: BitsValue>(value: &(Vec<u8>, usize)) -> bool
    ensures { result ≡ is_bit_string K.bits (bits_in value.now) }
{
    value.1 == K::count() && value.0.as_slice() == K::octets()
}

impl<K: BitsValue> TestedDefault<BitString> for Bits<K> {
    ghost is = { λ v. is_bit_string K.bits (bits_in v) };

    #[inline(always)]
    fn is_default(value: &(Vec<u8>, usize)) -> bool {
        has_bits::<K>(value)
    }

    ghost one = { one_bits K.bits };
}

impl<K: BitsValue> TestedDefault<NamedBits> for Bits<K> {
    ghost is = { λ v. is_bit_string K.bits (bits_in v) };

    #[inline(always)]
    fn is_default(value: &(Vec<u8>, usize)) -> bool {
        has_bits::<K>(value)
    }

    ghost one = { one_bits K.bits };
}
