//! The bits of a BIT STRING by their numbers, as the module names them (X.680, 22).
ghost use Rattle.std.specs.Prelude.{◌≡◌};
ghost use Rattle.yasna_bytes.specs.Segments.{bits_in};
ghost use Rattle.x509.specs.Bits.{has_bit};

// Whether there is a bit of this number that is one. The first bit has the number 0, and is the highest of the first byte (X.690, 8.6.2).
// Unused bits have no numbers.
pub(crate) fn has_bit(bits: &(Vec<u8>, usize), number: usize) -> bool
    ensures { result ≡ has_bit (bits_in bits.now) number }
{
    if number >= bits.1 {
        return false;
    }
    match bits.0.get(number / 8) {
        Some(byte) => (*byte >> (7 - number % 8)) % 2 == 1,
        None => false,
    }
}
