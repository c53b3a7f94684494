//! Strings, object identifiers, times and raw elements that are prepended to a buffer (X.690, 8.6, 8.7, 8.19, 8.23, 8.25 and 8.26).
//!
//! Each call takes the tag of its element. An `Err` is `OutOfMemory`, and the buffer may then hold a part of the element. A string that
//! CER cuts into segments is written separately, from its first byte to its last.
ghost use Rattle.std.specs.List.{flat_map};
ghost use Rattle.std.specs.Prelude.{◌≡◌, ◌≤◌, ◌<◌, ◌+◌, ◌*◌, ◌∷◌, [], ◌++◌, length, Some, None};
ghost use Rattle.std.specs.Str.{chars};
ghost use Rattle.yasna_base.specs.declared.tag.PCBit.TheVariants.{Primitive};
ghost use Rattle.yasna_base.specs.Bits.{bits_contents, bits_encoding};
ghost use Rattle.yasna_base.specs.Canonical.{canonical_element};
ghost use Rattle.yasna_base.specs.Digits.{base128};
ghost use Rattle.yasna_base.specs.Octets.{octets_encoding};
ghost use Rattle.yasna_base.specs.Oid.{IsEncodableOid, oid_encoding};
ghost use Rattle.yasna_base.specs.Raw.{raw_encoding};
ghost use Rattle.yasna_base.specs.TaggedDerValue.{raw_of};
ghost use Rattle.yasna_base.specs.Text.{utf8_encoding};
ghost use Rattle.yasna_times.specs.GeneralizedTime.{generalized_time_encoding};
ghost use Rattle.yasna_times.specs.Models.{utc_of, moment_of};
ghost use Rattle.yasna_times.specs.UtcTime.{utc_time_encoding};
ghost use Rattle.yasna_writer.specs.Header.{raw_header};
ghost use Rattle.yasna_writer.specs.Prepend.{Prepends, PrependsAll};
ghost use Rattle.yasna_writer.specs.Segments.{is_cut};

use crate::identifier::{LONGEST_NUMBER, put_base128};
use crate::oid::subidentifiers;
use crate::prepend_buffer::PrependBuffer;
use crate::segments::{FULL_BITS, FULL_OCTETS};
use crate::strings::unused_bits;
use yasna_base::models::{ObjectIdentifier, TaggedDerValue};
use yasna_base::{ASN1Error, ASN1ErrorKind, ASN1Result, BERMode, PCBit, Tag};
use yasna_times::models::{GeneralizedTime, UTCTime};

impl PrependBuffer {
    /// Prepends an OCTET STRING: a primitive element, or in CER segments if it is long (X.690, 8.7 and 9.2).
    #[tactic(auto, using(crate::proofs::SegmentSteps::octets_whole))]
    #[inline(always)]
    pub fn prepend_bytes(&mut self, tag: Tag, bytes: &[u8]) -> ASN1Result<()>
        ensures { Prepends (octets_encoding tag self.old.mode bytes.now) self.old self.new result }
    {
        if bytes.len() <= FULL_OCTETS {
            return self.prepend_primitive(tag, bytes);
        }
        self.prepend_long_bytes(tag, bytes)
    }

    // As `prepend_bytes`, of octets that may be cut into segments.
    #[inline(never)]
    fn prepend_long_bytes(&mut self, tag: Tag, bytes: &[u8]) -> ASN1Result<()>
        ensures { Prepends (octets_encoding tag self.old.mode bytes.now) self.old self.new result }
    {
        match self.mode() {
            BERMode::Cer => self.prepend_cut_bytes(tag, bytes),
            BERMode::Ber => self.prepend_primitive(tag, bytes),
            BERMode::Der => self.prepend_primitive(tag, bytes),
        }
    }

    // As `prepend_bytes`, of octets that are written separately.
    fn prepend_cut_bytes(&mut self, tag: Tag, bytes: &[u8]) -> ASN1Result<()>
        ensures { Prepends (octets_encoding tag self.old.mode bytes.now) self.old self.new result }
    {
        let mut writer = self.writer();
        writer.write_octets(tag, bytes)?;
        self.prepend_writing(writer)
    }

    /// Prepends a text in UTF-8 (X.690, 8.23).
    #[inline(always)]
    pub fn prepend_text(&mut self, tag: Tag, string: &str) -> ASN1Result<()>
        ensures { Prepends (utf8_encoding tag self.old.mode (chars string.now)) self.old self.new result }
    {
        self.prepend_bytes(tag, string.as_bytes())
    }

    /// Prepends a BIT STRING of `len` bits, as `write_bitvec_bytes` writes it (X.690, 8.6, 9.2 and 11.2).
    pub fn prepend_bitvec_bytes(&mut self, tag: Tag, bytes: &[u8], len: usize) -> ASN1Result<()>
        requires enough { len ≤ 8 * length bytes.now }
        requires least { 8 * length bytes.now < len + 8 }
        ensures { Prepends (bits_encoding tag self.old.mode (record { bytes = bytes.now; count = len })) self.old self.new result }
    {
        if cuts(self.mode(), bytes.len(), FULL_BITS) {
            return self.prepend_cut_bits(tag, bytes, len);
        }
        self.prepend_whole_bits(tag, bytes, len)
    }

    // Prepends bits that are written separately.
    fn prepend_cut_bits(&mut self, tag: Tag, bytes: &[u8], len: usize) -> ASN1Result<()>
        requires enough { len ≤ 8 * length bytes.now }
        requires least { 8 * length bytes.now < len + 8 }
        ensures { Prepends (bits_encoding tag self.old.mode (record { bytes = bytes.now; count = len })) self.old self.new result }
    {
        let mut writer = self.writer_under(Some(tag));
        writer.write_bitvec_bytes(bytes, len)?;
        self.prepend_writing(writer)
    }

    // Prepends bits as one primitive element.
    #[tactic(auto, using(crate::proofs::Padding::padded_contents))]
    fn prepend_whole_bits(&mut self, tag: Tag, bytes: &[u8], len: usize) -> ASN1Result<()>
        requires enough { len ≤ 8 * length bytes.now }
        requires least { 8 * length bytes.now < len + 8 }
        ensures { Prepends (canonical_element self.old.mode tag Primitive (bits_contents (record { bytes = bytes.now; count = len }))) self.old self.new result }
    {
        let Some((last, prefix)) = bytes.split_last() else {
            return self.prepend_primitive(tag, &[0]);
        };
        let unused = unused_bits(len);
        self.prepend_bits(tag, unused, prefix, *last >> unused << unused)
    }

    // Prepends a BIT STRING, whose contents are the count of unused bits, and the bytes.
    fn prepend_bits(&mut self, tag: Tag, unused: u8, prefix: &[u8], last: u8) -> ASN1Result<()>
        ensures { Prepends (canonical_element self.old.mode tag Primitive (unused ∷ (prefix.now ++ last ∷ []))) self.old self.new result }
    {
        self.prepend(&[last])?;
        self.prepend_many(prefix)?;
        self.prepend(&[unused])?;
        self.prepend_header(tag, prefix.len() + 2, PCBit::Primitive)
    }

    /// Prepends an OBJECT IDENTIFIER that has an encoding, as `is_encodable` says (X.690, 8.19).
    pub fn prepend_oid(&mut self, tag: Tag, oid: &ObjectIdentifier) -> ASN1Result<()>
        requires { IsEncodableOid oid.now }
        ensures { Prepends (oid_encoding tag self.old.mode oid.now) self.old self.new result }
    {
        let after = self.len();
        let (first, further) = subidentifiers(oid.components());
        self.prepend_numbers(further)?;
        self.prepend_number(first)?;
        self.prepend_header(tag, self.len() - after, PCBit::Primitive)
    }

    // Prepends numbers in base 128.
    fn prepend_numbers(&mut self, numbers: &[u64]) -> ASN1Result<()>
        ensures { Prepends (flat_map base128 numbers.now) self.old self.new result }
    {
        let mut rest = numbers;
        while let Some((last, others)) = rest.split_last() {
            self.prepend_number(*last)?;
            rest = others;
        }
        Ok(())
    }

    // Prepends a number in base 128, of up to three bytes at once.
    #[tactic(auto, using(crate::proofs::Identifiers::base128_small, crate::proofs::Identifiers::base128_two, crate::proofs::Identifiers::base128_three), unfolding(crate::specs::Identifier::base128_digits))]
    #[inline(always)]
    fn prepend_number(&mut self, number: u64) -> ASN1Result<()>
        ensures { PrependsAll (base128 number) self.old self.new result }
    {
        if number < 128 {
            return self.prepend(&[number as u8]);
        }
        let low = (number % 128) as u8;
        if number < 16384 {
            return self.prepend(&[128 + (number / 128) as u8, low]);
        }
        if number < 2097152 {
            let middle = (number / 128 % 128) as u8;
            return self.prepend(&[128 + (number / 128 / 128) as u8, 128 + middle, low]);
        }
        self.prepend_long_number(number)
    }

    // Prepends a number in base 128, which is put together on the stack.
    #[tactic(auto, using(crate::proofs::Identifiers::base128_length_at_most, crate::proofs::Puts::put_last), unfolding(crate::specs::Identifier::base128_digits))]
    fn prepend_long_number(&mut self, number: u64) -> ASN1Result<()>
        ensures { PrependsAll (base128 number) self.old self.new result }
    {
        let mut digits = [0; LONGEST_NUMBER];
        let start = put_base128(&mut digits, LONGEST_NUMBER, number, false);
        self.prepend(&digits[start..])
    }

    /// Prepends a raw element under this tag, with its own bit, as `write_tagged_der` writes it (X.690, 8.1).
    pub fn prepend_tagged_der(&mut self, tag: Tag, value: &TaggedDerValue) -> ASN1Result<()>
        ensures { Prepends (raw_encoding tag self.old.mode (raw_of value.now)) self.old self.new result }
    {
        let payload = value.value();
        self.prepend_many(payload)?;
        self.prepend_raw_header(tag, payload.len(), value.pcbit())
    }

    // Prepends the identifier and the length of a payload.
    #[inline(always)]
    fn prepend_raw_header(&mut self, tag: Tag, length: usize, bit: PCBit) -> ASN1Result<()>
        ensures { Prepends (raw_header self.old.mode bit (record { tag = tag; length = length })) self.old self.new result }
    {
        match (self.mode(), bit) {
            (BERMode::Cer, PCBit::Constructed) => self.prepend_indefinite_header(tag),
            _ => self.prepend_header(tag, length, bit),
        }
    }

    /// Prepends a UTCTime: `YYMMDDhhmmssZ` (X.690, 8.26 and 11.8).
    pub fn prepend_utctime(&mut self, tag: Tag, time: &UTCTime) -> ASN1Result<()>
        ensures { Prepends (utc_time_encoding tag self.old.mode (utc_of time.now)) self.old self.new result }
    {
        self.prepend_bytes(tag, &time.text())
    }

    /// Prepends a GeneralizedTime, as `write_generalized_time` writes it (X.690, 8.25 and 11.7).
    pub fn prepend_generalized_time(&mut self, tag: Tag, time: &GeneralizedTime) -> ASN1Result<()>
        ensures { Prepends (generalized_time_encoding tag self.old.mode (moment_of time.now)) self.old self.new result }
    {
        match time.to_bytes(self.alloc()) {
            Ok(text) => self.prepend_bytes(tag, text.as_slice()),
            Err(_) => Err(ASN1Error::new(ASN1ErrorKind::OutOfMemory)),
        }
    }
}

// Whether a mode cuts `length` bytes, if `full` bytes fill a segment.
#[inline(always)]
pub(crate) fn cuts(mode: BERMode, length: usize, full: usize) -> bool
    ensures { result ≡ is_cut mode full length }
{
    match mode {
        BERMode::Cer => length > full,
        BERMode::Ber => false,
        BERMode::Der => false,
    }
}
