//! What a key may be used for (RFC 5280, 4.2.1.3).
//!
//! ```text
//! KeyUsage ::= BIT STRING {
//!     digitalSignature(0), nonRepudiation(1), keyEncipherment(2), dataEncipherment(3),
//!     keyAgreement(4), keyCertSign(5), cRLSign(6), encipherOnly(7), decipherOnly(8) }
//! ```
//!
//! Another bit is read too, and is written again. That at least one bit is one isn't required here.
ghost use Rattle.std.specs.Prelude.{◌≡◌, ◌↔◌, IsTrue, refl};
ghost use Rattle.yasna_bytes.specs.Segments.{bits_in};
ghost use Rattle.x509.specs.Bits.{has_bit};

use crate::bits::has_bit;
use yasna::{ASN1Result, BERMode, DERWriter, PrependBuffer, Tag};
use yasna_notation::{DefinedType, Notation};
use yasna_notation_constraints::{Checked, CheckedType};
use yasna_notation_types::LeastBits;

/// What a key may be used for: what the octets hold of an extension 2.5.29.15.
#[derive(Drop)]
pub struct KeyUsage {
    /// The bits, as octets and a count. Zero bits at the end have no meaning, and are not written.
    pub bits: (Vec<u8>, usize),
}

impl KeyUsage {
    /// Verifying signatures, other than those on certificates and revocation lists.
    pub fn digital_signature(&self) -> bool
        ensures { result ≡ has_bit (bits_in self.now.bits) 0 }
    {
        has_bit(&self.bits, 0)
    }

    /// Verifying signatures by which a signer commits to the content: nonRepudiation, of which later editions say contentCommitment.
    pub fn content_commitment(&self) -> bool
        ensures { result ≡ has_bit (bits_in self.now.bits) 1 }
    {
        has_bit(&self.bits, 1)
    }

    /// Enciphering keys.
    pub fn key_encipherment(&self) -> bool
        ensures { result ≡ has_bit (bits_in self.now.bits) 2 }
    {
        has_bit(&self.bits, 2)
    }

    /// Enciphering data that is no key.
    pub fn data_encipherment(&self) -> bool
        ensures { result ≡ has_bit (bits_in self.now.bits) 3 }
    {
        has_bit(&self.bits, 3)
    }

    /// Agreeing on keys.
    pub fn key_agreement(&self) -> bool
        ensures { result ≡ has_bit (bits_in self.now.bits) 4 }
    {
        has_bit(&self.bits, 4)
    }

    /// Verifying signatures on certificates.
    pub fn key_cert_sign(&self) -> bool
        ensures { result ≡ has_bit (bits_in self.now.bits) 5 }
    {
        has_bit(&self.bits, 5)
    }

    /// Verifying signatures on revocation lists.
    pub fn crl_sign(&self) -> bool
        ensures { result ≡ has_bit (bits_in self.now.bits) 6 }
    {
        has_bit(&self.bits, 6)
    }

    /// With `key_agreement`: only enciphering.
    pub fn encipher_only(&self) -> bool
        ensures { result ≡ has_bit (bits_in self.now.bits) 7 }
    {
        has_bit(&self.bits, 7)
    }

    /// With `key_agreement`: only deciphering.
    pub fn decipher_only(&self) -> bool
        ensures { result ≡ has_bit (bits_in self.now.bits) 8 }
    {
        has_bit(&self.bits, 8)
    }
}

impl DefinedType for KeyUsage {
    type Notation = LeastBits;

    ghost value_of = { λ v. v.bits };

    fn from_value(bits: (Vec<u8>, usize)) -> KeyUsage {
        KeyUsage { bits }
    }

    fn write_value(&self, writer: DERWriter<'_>) -> ASN1Result<()> {
        <LeastBits as Notation>::write(&self.bits, writer)
    }

    fn prepend_value(&self, under: Option<Tag>, out: &mut PrependBuffer) -> ASN1Result<()> {
        <LeastBits as Notation>::prepend(&self.bits, under, out)
    }

    fn value_len(&self, under: Option<Tag>, mode: BERMode) -> Option<usize> {
        <LeastBits as Notation>::encoded_len(&self.bits, under, mode)
    }

    ghost unambiguous = { refl };
}

impl CheckedType for KeyUsage {
    fn accepts_value(&self) -> bool {
        LeastBits::accepts(&self.bits)
    }
}
