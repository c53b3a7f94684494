//! Reasons of a revocation (RFC 5280, 4.2.1.13 and 5.2.5).
//!
//! ```text
//! ReasonFlags ::= BIT STRING {
//!     unused(0), keyCompromise(1), cACompromise(2), affiliationChanged(3), superseded(4),
//!     cessationOfOperation(5), certificateHold(6), privilegeWithdrawn(7), aACompromise(8) }
//! ```
//!
//! Bit 0 and others without a name are read too, and are written again.
ghost use Rattle.std.specs.Prelude.{◌≡◌, ◌↔◌, IsTrue, refl};
ghost use Rattle.yasna_bytes.specs.Segments.{bits_in};
ghost use Rattle.x509.specs.Bits.{has_bit};

use crate::bits::has_bit;
use yasna::{ASN1Result, BERMode, DERWriter, PrependBuffer, Tag};
use yasna_notation::{DefinedType, Notation};
use yasna_notation_constraints::{Checked, CheckedType};
use yasna_notation_types::LeastBits;

/// The reasons of a revocation for which a list is given. In a distribution point they are under `[1] IMPLICIT`, and under `[3]` in an
/// issuing one.
#[derive(Drop)]
pub struct ReasonFlags {
    /// The bits, as octets and a count. Zero bits at the end have no meaning, and are not written.
    pub bits: (Vec<u8>, usize),
}

impl ReasonFlags {
    /// The private key of the subject is compromised.
    pub fn key_compromise(&self) -> bool
        ensures { result ≡ has_bit (bits_in self.now.bits) 1 }
    {
        has_bit(&self.bits, 1)
    }

    /// The private key of the issuer is compromised.
    pub fn ca_compromise(&self) -> bool
        ensures { result ≡ has_bit (bits_in self.now.bits) 2 }
    {
        has_bit(&self.bits, 2)
    }

    /// The name of the subject changed, or something else about it.
    pub fn affiliation_changed(&self) -> bool
        ensures { result ≡ has_bit (bits_in self.now.bits) 3 }
    {
        has_bit(&self.bits, 3)
    }

    /// Another certificate is in its place.
    pub fn superseded(&self) -> bool
        ensures { result ≡ has_bit (bits_in self.now.bits) 4 }
    {
        has_bit(&self.bits, 4)
    }

    /// The certificate is no longer needed.
    pub fn cessation_of_operation(&self) -> bool
        ensures { result ≡ has_bit (bits_in self.now.bits) 5 }
    {
        has_bit(&self.bits, 5)
    }

    /// The certificate is on hold.
    pub fn certificate_hold(&self) -> bool
        ensures { result ≡ has_bit (bits_in self.now.bits) 6 }
    {
        has_bit(&self.bits, 6)
    }

    /// A privilege in the certificate was withdrawn.
    pub fn privilege_withdrawn(&self) -> bool
        ensures { result ≡ has_bit (bits_in self.now.bits) 7 }
    {
        has_bit(&self.bits, 7)
    }

    /// The private key of an attribute authority is compromised.
    pub fn aa_compromise(&self) -> bool
        ensures { result ≡ has_bit (bits_in self.now.bits) 8 }
    {
        has_bit(&self.bits, 8)
    }
}

impl DefinedType for ReasonFlags {
    type Notation = LeastBits;

    ghost value_of = { λ v. v.bits };

    fn from_value(bits: (Vec<u8>, usize)) -> ReasonFlags {
        ReasonFlags { bits }
    }

    fn write_value(&self, writer: DERWriter<'_>) -> ASN1Result<()> {
        <LeastBits as Notation>::write(&self.bits, writer)
    }

    fn prepend_value(&self, under: Option<Tag>, out: &mut PrependBuffer) -> ASN1Result<()> {
        <LeastBits as Notation>::prepend(&self.bits, under, out)
    }

    fn value_len(&self, under: Option<Tag>, mode: BERMode) -> Option<usize> {
        <LeastBits as Notation>::encoded_len(&self.bits, under, mode)
    }

    ghost unambiguous = { refl };
}

impl CheckedType for ReasonFlags {
    fn accepts_value(&self) -> bool {
        LeastBits::accepts(&self.bits)
    }
}
