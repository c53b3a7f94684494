//! Strings: BIT STRING, OCTET STRING and texts (X.690, 8.6, 8.7, 8.23 and 11.2), calls of users.
//!
//! Each is written as one primitive element, or in CER as segments if it is long (`segments`). Each write takes the implicit tag if
//! there is one, and else the type's own. A sticky error is returned, and nothing is written. If there is no memory for the
//! element, each returns `OutOfMemory`, which is sticky.
ghost use Rattle.std.specs.Prelude.{[], ◌∷◌, ◌≡◌, ◌≤◌, ◌<◌, ◌+◌, ◌-◌, ◌*◌, ◌%◌, ◌++◌, length, length as count};
ghost use Rattle.std.specs.List.{AllByRecursion};
ghost use Rattle.std.specs.Str.{chars};
ghost use Rattle.yasna_base.specs.declared.tag.PCBit.TheVariants.{Primitive};
ghost use Rattle.yasna_base.specs.Canonical.{canonical_element};
ghost use Rattle.yasna_base.specs.Identifier.{tag_or};
ghost use Rattle.yasna_base.specs.Octets.{octets_encoding, octets_tag};
ghost use Rattle.yasna_base.specs.Bits.{bits_contents, bits_encoding, bits_tag};
ghost use Rattle.yasna_base.specs.Text.{utf8_encoding, bmp_encoding, bmp_octets, InNumeric, InPrintable, InVisible, InIa5, utf8_tag, numeric_tag, printable_tag, ia5_tag, visible_tag, bmp_tag};
ghost use Rattle.yasna_writer.specs.Header.{header_bytes};
ghost use Rattle.yasna_writer.specs.State.{Appended};
ghost use Rattle.yasna_writer.specs.View.{Wrote};

use crate::bmp::{bmp_bytes, bmp_length};
use crate::header::Header;
use crate::segments::{FULL_BITS, FULL_OCTETS};
use crate::state::Writer;
use yasna_base::tags::{
    TAG_BITSTRING, TAG_BMPSTRING, TAG_IA5STRING, TAG_NUMERICSTRING, TAG_OCTETSTRING,
    TAG_PRINTABLESTRING, TAG_UTF8STRING, TAG_VISIBLESTRING,
};
use yasna_base::{ASN1Result, PCBit, Tag};

impl Writer {
    /// Writes an OCTET STRING (X.690, 8.7).
    #[inline(always)]
    pub fn write_bytes(&mut self, bytes: &[u8]) -> ASN1Result<()>
        ensures { Wrote (octets_encoding (tag_or self.old.tag octets_tag) self.old.mode bytes.now) self.old self.new result }
    {
        self.write_octets(TAG_OCTETSTRING, bytes)
    }

    /// Writes a BIT STRING of `len` bits, the first of a byte being its highest (X.690, 8.6). Unused bits of the last byte are written as
    /// zero (X.690, 11.2).
    pub fn write_bitvec_bytes(&mut self, bytes: &[u8], len: usize) -> ASN1Result<()>
        requires enough { len ≤ 8 * length bytes.now }
        requires least { 8 * length bytes.now < len + 8 }
        ensures { Wrote (bits_encoding (tag_or self.old.tag bits_tag) self.old.mode (record { bytes = bytes.now; count = len })) self.old self.new result }
    {
        if self.cuts(bytes.len(), FULL_BITS) {
            return self.write_bit_segments(bytes, len);
        }
        self.write_whole_bits(bytes, len)
    }

    /// Writes a UTF8String (X.690, 8.23.10).
    #[inline(always)]
    pub fn write_utf8_string(&mut self, string: &str) -> ASN1Result<()>
        ensures { Wrote (utf8_encoding (tag_or self.old.tag utf8_tag) self.old.mode (chars string.now)) self.old self.new result }
    {
        self.write_text(TAG_UTF8STRING, string)
    }

    /// As `write_utf8_string`, under the name that the reader's call has.
    #[inline(always)]
    pub fn write_utf8string(&mut self, string: &str) -> ASN1Result<()>
        ensures { Wrote (utf8_encoding (tag_or self.old.tag utf8_tag) self.old.mode (chars string.now)) self.old self.new result }
    {
        self.write_utf8_string(string)
    }

    /// Writes a NumericString (X.690, 8.23; X.680, 41): digits and space.
    #[inline(always)]
    pub fn write_numeric_string(&mut self, string: &str) -> ASN1Result<()>
        requires { AllByRecursion InNumeric (chars string.now) }
        ensures { Wrote (utf8_encoding (tag_or self.old.tag numeric_tag) self.old.mode (chars string.now)) self.old self.new result }
    {
        self.write_text(TAG_NUMERICSTRING, string)
    }

    /// Writes a PrintableString (X.690, 8.23; X.680, 41): letters, digits, space and `' ( ) + , - . / : = ?`.
    #[inline(always)]
    pub fn write_printable_string(&mut self, string: &str) -> ASN1Result<()>
        requires { AllByRecursion InPrintable (chars string.now) }
        ensures { Wrote (utf8_encoding (tag_or self.old.tag printable_tag) self.old.mode (chars string.now)) self.old self.new result }
    {
        self.write_text(TAG_PRINTABLESTRING, string)
    }

    /// Writes an IA5String (X.690, 8.23; X.680, 41): characters up to 127.
    #[inline(always)]
    pub fn write_ia5_string(&mut self, string: &str) -> ASN1Result<()>
        requires { AllByRecursion InIa5 (chars string.now) }
        ensures { Wrote (utf8_encoding (tag_or self.old.tag ia5_tag) self.old.mode (chars string.now)) self.old self.new result }
    {
        self.write_text(TAG_IA5STRING, string)
    }

    /// Writes a VisibleString (X.690, 8.23; X.680, 41): characters from 32 to 126.
    #[inline(always)]
    pub fn write_visible_string(&mut self, string: &str) -> ASN1Result<()>
        requires { AllByRecursion InVisible (chars string.now) }
        ensures { Wrote (utf8_encoding (tag_or self.old.tag visible_tag) self.old.mode (chars string.now)) self.old self.new result }
    {
        self.write_text(TAG_VISIBLESTRING, string)
    }

    /// Writes a BMPString (X.690, 8.23): the text in UTF-16, the high byte of each unit first. A character past 65535 is written as two
    /// surrogates, which X.680 doesn't provide for.
    pub fn write_bmp_string(&mut self, string: &str) -> ASN1Result<()>
        ensures { Wrote (bmp_encoding (tag_or self.old.tag bmp_tag) self.old.mode (chars string.now)) self.old self.new result }
    {
        let length = bmp_length(string);
        if self.cuts(length, FULL_OCTETS) {
            return self.write_cut_bmp(string, length);
        }
        self.write_whole_bmp(string, length)
    }

    // Writes a text in UTF-8.
    #[inline(always)]
    fn write_text(&mut self, own: Tag, string: &str) -> ASN1Result<()>
        ensures { Wrote (utf8_encoding (tag_or self.old.tag own) self.old.mode (chars string.now)) self.old self.new result }
    {
        self.write_octets(own, string.as_bytes())
    }

    // Writes a text in UTF-16 as one primitive element.
    #[tactic(auto, unfolding(yasna_base::specs::Canonical::canonical_element, yasna_base::specs::Canonical::definite_element))]
    fn write_whole_bmp(&mut self, string: &str, length: usize) -> ASN1Result<()>
        requires { length ≡ count (bmp_octets (chars string.now)) }
        ensures { Wrote (canonical_element self.old.mode (tag_or self.old.tag bmp_tag) Primitive (bmp_octets (chars string.now))) self.old self.new result }
    {
        self.write_header(TAG_BMPSTRING, length)?;
        self.append_bmp(string)
    }

    // Writes a text in UTF-16, which is made separately, in segments.
    #[cold]
    fn write_cut_bmp(&mut self, string: &str, length: usize) -> ASN1Result<()>
        ensures { Wrote (bmp_encoding (tag_or self.old.tag bmp_tag) self.old.mode (chars string.now)) self.old self.new result }
    {
        if let Some(error) = self.failed() {
            return Err(error);
        }
        match bmp_bytes(self.alloc(), string, length) {
            Ok(octets) => self.write_octets(TAG_BMPSTRING, octets.as_slice()),
            Err(_) => Err(self.fail_out_of_memory()),
        }
    }

    // Writes bits as one primitive element.
    #[tactic(auto, using(crate::proofs::Padding::padded_contents))]
    fn write_whole_bits(&mut self, bytes: &[u8], len: usize) -> ASN1Result<()>
        requires enough { len ≤ 8 * length bytes.now }
        requires least { 8 * length bytes.now < len + 8 }
        ensures { Wrote (canonical_element self.old.mode (tag_or self.old.tag bits_tag) Primitive (bits_contents (record { bytes = bytes.now; count = len }))) self.old self.new result }
    {
        let Some((last, prefix)) = bytes.split_last() else {
            return self.write_contents(TAG_BITSTRING, &[0]);
        };
        let unused = unused_bits(len);
        self.write_bits(unused, prefix, *last >> unused << unused)
    }

    // Writes an element with these contents.
    #[tactic(auto, unfolding(yasna_base::specs::Canonical::canonical_element, yasna_base::specs::Canonical::definite_element))]
    #[inline(always)]
    pub(crate) fn write_contents(&mut self, own: Tag, contents: &[u8]) -> ASN1Result<()>
        ensures { Wrote (canonical_element self.old.mode (tag_or self.old.tag own) Primitive contents.now) self.old self.new result }
    {
        self.write_header(own, contents.len())?;
        self.append(contents)
    }

    // Writes the header of an element with this many bytes of contents.
    #[inline(always)]
    pub(crate) fn write_header(&mut self, own: Tag, length: usize) -> ASN1Result<()>
        ensures { Wrote (header_bytes Primitive (record { tag = tag_or self.old.tag own; length = length })) self.old self.new result }
    {
        if let Some(error) = self.failed() {
            return Err(error);
        }
        let tag = self.take_tag(own);
        self.append_header(Header { tag, length }, PCBit::Primitive)
    }

    // Writes a BIT STRING, whose contents are the count of unused bits, and the bytes.
    #[tactic(auto, unfolding(yasna_base::specs::Canonical::canonical_element, yasna_base::specs::Canonical::definite_element))]
    fn write_bits(&mut self, unused: u8, prefix: &[u8], last: u8) -> ASN1Result<()>
        ensures { Wrote (canonical_element self.old.mode (tag_or self.old.tag bits_tag) Primitive (unused ∷ (prefix.now ++ last ∷ []))) self.old self.new result }
    {
        self.write_header(TAG_BITSTRING, prefix.len() + 2)?;
        self.append_bits(unused, prefix, last)
    }

    // Appends the contents of a BIT STRING.
    #[inline(always)]
    pub(crate) fn append_bits(&mut self, unused: u8, prefix: &[u8], last: u8) -> ASN1Result<()>
        ensures { Appended (unused ∷ (prefix.now ++ last ∷ [])) self.old self.new result }
    {
        self.append(&[unused])?;
        self.append(prefix)?;
        self.append(&[last])
    }
}

// The count of unused bits in the last byte of a BIT STRING of this many bits.
pub(crate) fn unused_bits(len: usize) -> u8
    ensures { result ≡ (8 - len % 8) % 8 }
{
    ((8 - len % 8) % 8) as u8
}
