//! Long strings in segments, as CER requires (X.690, 9.2). `strings` and `times` call it.
//!
//! A string of more than 1000 octets is a constructed element of indefinite length. Its parts are primitive: OCTET STRINGs of 1000
//! octets, or BIT STRINGs of 999 bytes after their count of unused bits; the last part has what is left.
ghost use Rattle.std.specs.Prelude.{◌≡◌, ◌≤◌, ◌<◌, ◌+◌, ◌*◌, length, [], ◌∷◌, ◌++◌};
ghost use Rattle.yasna_base.specs.declared.tag.PCBit.TheVariants.{Primitive};
ghost use Rattle.yasna_base.specs.Bits.{bits_full, bits_tag};
ghost use Rattle.yasna_base.specs.Canonical.{canonical_element, indefinite_element};
ghost use Rattle.yasna_base.specs.Identifier.{tag_or};
ghost use Rattle.yasna_base.specs.Octets.{octets_encoding, octets_full};
ghost use Rattle.yasna_writer.specs.Header.{indefinite_header};
ghost use Rattle.yasna_writer.specs.Segments.{is_cut, octet_segment, in_octet_segments, bit_segment, in_bit_segments, bits_with};
ghost use Rattle.yasna_writer.specs.State.{Appended};
ghost use Rattle.yasna_writer.specs.View.{Wrote};

use crate::header::Header;
use crate::state::Writer;
use crate::strings::unused_bits;
use yasna_base::tags::{TAG_BITSTRING, TAG_OCTETSTRING};
use yasna_base::{ASN1Result, BERMode, PCBit, Tag};

// The octets that fill a segment.
pub(crate) const FULL_OCTETS: usize = 1000;

// The bytes of a BIT STRING that fill a segment, after the count of unused bits.
pub(crate) const FULL_BITS: usize = 999;

// The room for this many bytes in segments, and for the two zeros.
fn room(length: usize) -> usize {
    (length / FULL_BITS + 1)
        .saturating_mul(5)
        .saturating_add(length)
        .saturating_add(2)
}

impl Writer {
    // Whether `length` bytes are cut, if `full` bytes fill a segment.
    #[inline(always)]
    pub(crate) fn cuts(&self, length: usize, full: usize) -> bool
        ensures { result ≡ is_cut self.now.mode full length }
    {
        length > full && self.cuts_long()
    }

    // Whether the mode cuts long strings.
    #[inline(always)]
    fn cuts_long(&self) -> bool
        ensures { result ≡ is_cut self.now.mode 0 1 }
    {
        match self.mode() {
            BERMode::Cer => true,
            BERMode::Ber | BERMode::Der => false,
        }
    }

    // Writes octets: as one primitive element, or in segments if the mode cuts that many.
    #[tactic(auto, using(crate::proofs::SegmentSteps::octets_whole))]
    #[inline(always)]
    pub(crate) fn write_octets(&mut self, own: Tag, octets: &[u8]) -> ASN1Result<()>
        ensures { Wrote (octets_encoding (tag_or self.old.tag own) self.old.mode octets.now) self.old self.new result }
    {
        if octets.len() < 128 {
            return self.write_contents(own, octets);
        }
        self.write_long_octets(own, octets)
    }

    // As `write_octets`, of octets that may be cut into segments.
    #[inline(never)]
    fn write_long_octets(&mut self, own: Tag, octets: &[u8]) -> ASN1Result<()>
        ensures { Wrote (octets_encoding (tag_or self.old.tag own) self.old.mode octets.now) self.old self.new result }
    {
        if self.cuts(octets.len(), FULL_OCTETS) {
            return self.write_octet_segments(own, octets);
        }
        self.write_contents(own, octets)
    }

    // Writes octets in segments.
    #[tactic(auto, unfolding(yasna_base::specs::Canonical::indefinite_element))]
    #[inline(never)]
    fn write_octet_segments(&mut self, own: Tag, octets: &[u8]) -> ASN1Result<()>
        ensures { Wrote (indefinite_element (tag_or self.old.tag own) (in_octet_segments octets.now)) self.old self.new result }
    {
        self.write_segments_header(own, octets.len())?;
        self.append_octet_segments(octets)?;
        self.append(&[0, 0])
    }

    // Writes bits in segments.
    #[inline(never)]
    pub(crate) fn write_bit_segments(&mut self, bytes: &[u8], len: usize) -> ASN1Result<()>
        requires enough { len ≤ 8 * length bytes.now }
        requires least { 8 * length bytes.now < len + 8 }
        requires some { 1 ≤ length bytes.now }
        ensures { Wrote (indefinite_element (tag_or self.old.tag bits_tag) (in_bit_segments (record { bytes = bytes.now; count = len }))) self.old self.new result }
    {
        self.write_cut_bits(unused_bits(len), bytes)
    }

    // As `write_bit_segments`, by the count of unused bits.
    #[tactic(auto, unfolding(yasna_base::specs::Canonical::indefinite_element))]
    fn write_cut_bits(&mut self, unused: u8, bytes: &[u8]) -> ASN1Result<()>
        requires few { unused < 8 }
        requires some { 1 ≤ length bytes.now }
        ensures { Wrote (indefinite_element (tag_or self.old.tag bits_tag) (in_bit_segments (bits_with unused bytes.now))) self.old self.new result }
    {
        self.write_segments_header(TAG_BITSTRING, bytes.len())?;
        self.append_bit_segments(unused, bytes)?;
        self.append(&[0, 0])
    }

    // Writes the header of an element around segments of this many bytes, and makes room for them.
    fn write_segments_header(&mut self, own: Tag, length: usize) -> ASN1Result<()>
        ensures { Wrote (indefinite_header (tag_or self.old.tag own)) self.old self.new result }
    {
        if let Some(error) = self.failed() {
            return Err(error);
        }
        let tag = self.take_tag(own);
        self.append_indefinite_header(tag, room(length))
    }

    // Appends octets in segments.
    fn append_octet_segments(&mut self, octets: &[u8]) -> ASN1Result<()>
        ensures { Appended (in_octet_segments octets.now) self.old self.new result }
    {
        let mut rest = octets;
        while rest.len() > FULL_OCTETS {
            let (segment, after) = rest.split_at(FULL_OCTETS);
            self.append_full_octets(segment)?;
            rest = after;
        }
        self.append_octet_segment(rest)
    }

    // Appends a segment of octets that is full: the tag of OCTET STRING, 1000 in two bytes, and the octets.
    fn append_full_octets(&mut self, octets: &[u8]) -> ASN1Result<()>
        requires { length octets.now ≡ octets_full }
        ensures { Appended (octet_segment octets.now) self.old self.new result }
    {
        self.append(&[4, 130, 3, 232])?;
        self.append(octets)
    }

    // Appends a segment of octets.
    #[tactic(auto, unfolding(yasna_base::specs::Canonical::canonical_element))]
    fn append_octet_segment(&mut self, octets: &[u8]) -> ASN1Result<()>
        ensures { Appended (octet_segment octets.now) self.old self.new result }
    {
        self.append_primitive(TAG_OCTETSTRING, octets, &[])
    }

    // Appends bits in segments.
    fn append_bit_segments(&mut self, unused: u8, bytes: &[u8]) -> ASN1Result<()>
        requires few { unused < 8 }
        requires some { 1 ≤ length bytes.now }
        ensures { Appended (in_bit_segments (bits_with unused bytes.now)) self.old self.new result }
    {
        let mut rest = bytes;
        while rest.len() > FULL_BITS {
            let (segment, after) = rest.split_at(FULL_BITS);
            self.append_full_bits(segment)?;
            rest = after;
        }
        self.append_last_bits(unused, rest)
    }

    // Appends a segment of bits that is full: the tag of BIT STRING, 1000 in two bytes, 0 unused bits, and the bits.
    fn append_full_bits(&mut self, bytes: &[u8]) -> ASN1Result<()>
        requires { length bytes.now ≡ bits_full }
        ensures { Appended (bit_segment (bits_with 0 bytes.now)) self.old self.new result }
    {
        self.append(&[3, 130, 3, 232, 0])?;
        self.append(bytes)
    }

    // Appends the last segment of bits. Its unused bits are zero.
    #[tactic(auto, using(crate::proofs::SegmentSteps::last_segment))]
    fn append_last_bits(&mut self, unused: u8, bytes: &[u8]) -> ASN1Result<()>
        requires few { unused < 8 }
        requires some { 1 ≤ length bytes.now }
        ensures { Appended (bit_segment (bits_with unused bytes.now)) self.old self.new result }
    {
        let Some((last, prefix)) = bytes.split_last() else {
            return Ok(());
        };
        self.append_bit_string(unused, prefix, *last >> unused << unused)
    }

    // Appends a BIT STRING with these contents.
    #[tactic(auto, unfolding(yasna_base::specs::Canonical::canonical_element, yasna_base::specs::Canonical::definite_element))]
    fn append_bit_string(&mut self, unused: u8, prefix: &[u8], last: u8) -> ASN1Result<()>
        ensures { Appended (canonical_element self.old.mode bits_tag Primitive (unused ∷ (prefix.now ++ last ∷ []))) self.old self.new result }
    {
        let tag = TAG_BITSTRING;
        let length = prefix.len() + 2;
        self.append_header(Header { tag, length }, PCBit::Primitive)?;
        self.append_bits(unused, prefix, last)
    }
}
