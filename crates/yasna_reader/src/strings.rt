//! Reads of strings: OCTET STRING, BIT STRING and character strings (X.690, 8.6, 8.7, 8.23 and 9.2).
//!
//! In BER a string may be cut into segments, to be joined. Each segment is an element one level down, whose tag is
//! universal 3 in a BIT STRING and universal 4 in any other, whatever the tag of the string. In CER one with more than 1000 octets of
//! contents is cut so, into primitive segments of 1000.
ghost use Rattle.yasna_base.specs.Bits.{bits_tag};
ghost use Rattle.yasna_base.specs.Octets.{octets_tag};
ghost use Rattle.yasna_base.specs.Text.{utf8_tag, numeric_tag, printable_tag, ia5_tag, visible_tag, bmp_tag};

use crate::state::ReaderState;
use yasna_base::error::ASN1Result;
use yasna_base::tag::Tag;
use yasna_base::tags::{
    TAG_BITSTRING, TAG_BMPSTRING, TAG_IA5STRING, TAG_NUMERICSTRING, TAG_OCTETSTRING,
    TAG_PRINTABLESTRING, TAG_UTF8STRING, TAG_VISIBLESTRING,
};
use yasna_bytes::bytes::header::Rejection;
use yasna_bytes::bytes::segments::{bit_string, octet_string};
use yasna_bytes::bytes::text::{Class, Judge, string_of};

impl<'a> ReaderState<'a> {
    ghost use Rattle.yasna_base.specs.Bits.{IsBits, IsDeepBits};
    ghost use Rattle.yasna_base.specs.Octets.{IsOctets, IsDeepOctets};
    ghost use Rattle.yasna_base.specs.Text.{InUtf8, InNumeric, InPrintable, InIa5, InVisible, IsUtf8In, IsBmp, IsStringOf, characters};
    ghost use Rattle.yasna_bytes.specs.Contents.{MayAllocate};
    ghost use Rattle.yasna_reader.specs.Primitive.{ReadsSeen, ParsesAs};
    ghost use Rattle.yasna_bytes.specs.Segments.{bits_in};

    /// Reads OCTET STRING (X.690, 8.7): its octets, joined where they are in segments.
    #[inline(always)]
    #[tactic(auto, using(crate::proofs::Primitives::reads_prefix, crate::proofs::Primitives::reads_sticky))]
    pub fn read_bytes(&mut self) -> ASN1Result<Vec<u8>>
        ensures { ReadsSeen IsOctets (λ v. v.items) IsDeepOctets MayAllocate octets_tag self.old result self.new }
    {
        if let Some(error) = self.failed {
            return Err(error);
        }
        let parsed = self.octets(TAG_OCTETSTRING);
        self.commit(parsed)
    }

    /// Reads BIT STRING (X.690, 8.6): its bytes, the first bit the highest of the first byte, and how many bits there are.
    ///
    /// In BER the unused bits of the last byte are returned as they are; in DER and CER any but zeros are `Invalid` (11.2).
    /// So is a count of unused bits that the last byte doesn't have.
    #[inline(always)]
    #[tactic(auto, using(crate::proofs::Primitives::reads_prefix, crate::proofs::Primitives::reads_sticky))]
    pub fn read_bitvec_bytes(&mut self) -> ASN1Result<(Vec<u8>, usize)>
        ensures { ReadsSeen IsBits bits_in IsDeepBits MayAllocate bits_tag self.old result self.new }
    {
        if let Some(error) = self.failed {
            return Err(error);
        }
        let parsed = self.bits(TAG_BITSTRING);
        self.commit(parsed)
    }

    /// Reads UTF8String (X.690, 8.23.10). Octets that aren't UTF-8 are `Invalid`, once all segments are joined.
    #[inline(always)]
    pub fn read_utf8string(&mut self) -> ASN1Result<String>
        ensures { ReadsSeen (IsStringOf (IsUtf8In InUtf8)) characters IsDeepOctets MayAllocate utf8_tag self.old result self.new }
    {
        self.read_judged(TAG_UTF8STRING, Class::Utf8)
    }

    /// Reads NumericString (X.680, 41): digits and space. Any other octet is `Invalid`.
    #[inline(always)]
    pub fn read_numeric_string(&mut self) -> ASN1Result<String>
        ensures { ReadsSeen (IsStringOf (IsUtf8In InNumeric)) characters IsDeepOctets MayAllocate numeric_tag self.old result self.new }
    {
        self.read_judged(TAG_NUMERICSTRING, Class::Numeric)
    }

    /// Reads PrintableString (X.680, 41): letters, digits, space and `'()+,-./:=?`. Any other octet is `Invalid`.
    #[inline(always)]
    pub fn read_printable_string(&mut self) -> ASN1Result<String>
        ensures { ReadsSeen (IsStringOf (IsUtf8In InPrintable)) characters IsDeepOctets MayAllocate printable_tag self.old result self.new }
    {
        self.read_judged(TAG_PRINTABLESTRING, Class::Printable)
    }

    /// Reads IA5String (X.680, 41): the characters up to 127. Any other octet is `Invalid`.
    #[inline(always)]
    pub fn read_ia5_string(&mut self) -> ASN1Result<String>
        ensures { ReadsSeen (IsStringOf (IsUtf8In InIa5)) characters IsDeepOctets MayAllocate ia5_tag self.old result self.new }
    {
        self.read_judged(TAG_IA5STRING, Class::Ia5)
    }

    /// Reads BMPString (X.690, 8.23): units of UTF-16, the high byte of each first. An odd number of octets is `Invalid`.
    ///
    /// A surrogate without its partner is read as U+FFFD.
    #[inline(always)]
    pub fn read_bmp_string(&mut self) -> ASN1Result<String>
        ensures { ReadsSeen (IsStringOf IsBmp) characters IsDeepOctets MayAllocate bmp_tag self.old result self.new }
    {
        self.read_judged(TAG_BMPSTRING, Class::Bmp)
    }

    /// Reads VisibleString (X.680, 41): the characters from space to `~`. Any other octet is `Invalid`.
    #[inline(always)]
    pub fn read_visible_string(&mut self) -> ASN1Result<String>
        ensures { ReadsSeen (IsStringOf (IsUtf8In InVisible)) characters IsDeepOctets MayAllocate visible_tag self.old result self.new }
    {
        self.read_judged(TAG_VISIBLESTRING, Class::Visible)
    }

    // Reads a string whose octets are validated.
    #[inline(always)]
    #[tactic(auto, using(crate::proofs::Primitives::reads_prefix, crate::proofs::Primitives::reads_sticky))]
    pub(crate) fn read_judged<J: Judge>(&mut self, tag: Tag, judge: J) -> ASN1Result<J::Value>
        ensures { ReadsSeen (IsStringOf (J.encodes judge)) J.view IsDeepOctets MayAllocate tag self.old result self.new }
    {
        if let Some(error) = self.failed {
            return Err(error);
        }
        let parsed = self.judged(tag, judge);
        self.commit(parsed)
    }

    // Parses a string whose octets are validated.
    #[inline(always)]
    fn judged<J: Judge>(&self, tag: Tag, judge: J) -> Result<(J::Value, &'a [u8]), Rejection>
        ensures { ParsesAs (IsStringOf (J.encodes judge)) J.view IsDeepOctets MayAllocate tag self.now result }
    {
        string_of(self.alloc, self.cursor, self.expected(tag), judge)
    }

    // Parses an octet string.
    #[inline(always)]
    fn octets(&self, tag: Tag) -> Result<(Vec<u8>, &'a [u8]), Rejection>
        ensures { ParsesAs IsOctets (λ v. v.items) IsDeepOctets MayAllocate tag self.now result }
    {
        octet_string(self.alloc, self.cursor, self.expected(tag))
    }

    // Parses a bit string.
    #[inline(always)]
    fn bits(&self, tag: Tag) -> Result<((Vec<u8>, usize), &'a [u8]), Rejection>
        ensures { ParsesAs IsBits bits_in IsDeepBits MayAllocate tag self.now result }
    {
        bit_string(self.alloc, self.cursor, self.expected(tag))
    }
}
