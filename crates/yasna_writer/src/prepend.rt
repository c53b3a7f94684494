//! Elements that are prepended to a buffer: headers, elements with parts, BOOLEAN, NULL and INTEGER (X.690, 8.1 to 8.3 and 8.8).
//!
//! Each call takes the tag of its element. An `Err` is `OutOfMemory`, and the buffer may then hold a part of the element.
ghost use Rattle.std.specs.Prelude.{◌≡◌, ◌≤◌, ◌-◌, ◌∷◌, [], ◌++◌, length as count, MatchResult, pos};
ghost use Rattle.yasna_base.specs.declared.error.ASN1ErrorKind.TheVariants.{OutOfMemory};
ghost use Rattle.yasna_base.specs.declared.tag.PCBit.TheVariants.{Primitive};
ghost use Rattle.yasna_base.specs.BigInteger.{signed_number, big_integer};
ghost use Rattle.yasna_base.specs.Boolean.{boolean_encoding};
ghost use Rattle.yasna_base.specs.Canonical.{canonical_element};
ghost use Rattle.yasna_base.specs.Error.{kind_of};
ghost use Rattle.yasna_base.specs.Integer.{integer_encoding};
ghost use Rattle.yasna_base.specs.Null.{null_encoding};
ghost use Rattle.yasna_writer.specs.Header.{header_bytes, indefinite_header};
ghost use Rattle.yasna_writer.specs.Prepend.{Prepends, BeginsContents, contents_end, contents_header};

use crate::header::{LONGEST, put_any_header, put_indefinite_header};
use crate::identifier::leading;
use crate::integer::{octets, sign_byte, sign_octet, trim_leading};
use crate::prepend_buffer::PrependBuffer;
use yasna_base::{ASN1Result, BERMode, PCBit, Tag};

impl PrependBuffer {
    // Prepends a header: two bytes, if the tag's number is below 31 and the contents are short.
    #[tactic(auto, using(yasna_base::proofs::Identifier::identifier_short, yasna_base::proofs::Length::short_length))]
    #[inline(always)]
    pub(crate) fn prepend_header(&mut self, tag: Tag, length: usize, bit: PCBit) -> ASN1Result<()>
        ensures { Prepends (header_bytes bit (record { tag = tag; length = length })) self.old self.new result }
    {
        if tag.tag_number < 31 && length < 128 {
            return self.prepend(&[leading(tag, bit), length as u8]);
        }
        self.prepend_any_header(tag, length, bit)
    }

    // Prepends any header, which is put together on the stack.
    #[tactic(auto, using(crate::proofs::Headers::header_at_most, crate::proofs::Puts::put_last))]
    #[inline(never)]
    fn prepend_any_header(&mut self, tag: Tag, length: usize, bit: PCBit) -> ASN1Result<()>
        ensures { Prepends (header_bytes bit (record { tag = tag; length = length })) self.old self.new result }
    {
        let mut header = [0; LONGEST];
        let start = put_any_header(&mut header, LONGEST, tag, length, bit);
        self.prepend(&header[start..])
    }

    // Prepends the header of an element of indefinite length.
    #[tactic(auto, using(crate::proofs::Headers::indefinite_header_at_most, crate::proofs::Puts::put_last))]
    pub(crate) fn prepend_indefinite_header(&mut self, tag: Tag) -> ASN1Result<()>
        ensures { Prepends (indefinite_header tag) self.old self.new result }
    {
        let mut header = [0; LONGEST];
        let start = put_indefinite_header(&mut header, LONGEST, tag);
        self.prepend(&header[start..])
    }

    /// Begins a constructed element at its end, and returns the count of bytes after its contents (X.690, 8.1.5). Its parts follow, the
    /// last one first, and then `enclose`.
    #[inline(always)]
    pub fn begin_contents(&mut self) -> ASN1Result<usize>
        ensures { BeginsContents (contents_end self.old.mode) self.old self.new result }
    {
        match self.mode() {
            BERMode::Cer => self.begin_indefinite_contents(),
            BERMode::Ber => Ok(self.len()),
            BERMode::Der => Ok(self.len()),
        }
    }

    // As `begin_contents`, of an element of indefinite length.
    fn begin_indefinite_contents(&mut self) -> ASN1Result<usize>
        ensures { BeginsContents (0 ∷ 0 ∷ []) self.old self.new result }
    {
        self.prepend(&[0, 0])?;
        Ok(self.len())
    }

    /// Prepends the header of a constructed element to its contents, after which are `after` bytes (X.690, 8.1.2 and 8.1.3).
    #[inline(always)]
    pub fn enclose(&mut self, tag: Tag, after: usize) -> ASN1Result<()>
        requires { after ≤ count self.old.bytes }
        ensures { Prepends (contents_header self.old.mode tag (count self.old.bytes - after)) self.old self.new result }
    {
        let length = self.len() - after;
        match self.mode() {
            BERMode::Cer => self.prepend_indefinite_header(tag),
            BERMode::Ber => self.prepend_header(tag, length, PCBit::Constructed),
            BERMode::Der => self.prepend_header(tag, length, PCBit::Constructed),
        }
    }

    /// Prepends a primitive element with these contents (X.690, 8.1).
    #[inline(always)]
    pub fn prepend_primitive(&mut self, tag: Tag, contents: &[u8]) -> ASN1Result<()>
        ensures { Prepends (canonical_element self.old.mode tag Primitive contents.now) self.old self.new result }
    {
        self.prepend_many(contents)?;
        self.prepend_header(tag, contents.len(), PCBit::Primitive)
    }

    // Prepends a primitive element whose contents are two pieces.
    pub(crate) fn prepend_pieces(&mut self, tag: Tag, prefix: &[u8], rest: &[u8]) -> ASN1Result<()>
        ensures { Prepends (canonical_element self.old.mode tag Primitive (prefix.now ++ rest.now)) self.old self.new result }
    {
        self.prepend_many(rest)?;
        self.prepend(prefix)?;
        self.prepend_header(tag, prefix.len() + rest.len(), PCBit::Primitive)
    }

    // Prepends a primitive element with one byte of contents.
    #[tactic(auto, using(crate::proofs::Primitives::short_element))]
    #[inline(always)]
    fn prepend_byte(&mut self, tag: Tag, byte: u8) -> ASN1Result<()>
        ensures { Prepends (canonical_element self.old.mode tag Primitive (byte ∷ [])) self.old self.new result }
    {
        if tag.tag_number < 31 {
            return self.prepend(&[leading(tag, PCBit::Primitive), 1, byte]);
        }
        self.prepend_primitive(tag, &[byte])
    }

    /// Prepends a BOOLEAN: one byte, 255 for true (X.690, 8.2 and 11.1).
    #[inline(always)]
    pub fn prepend_bool(&mut self, tag: Tag, val: bool) -> ASN1Result<()>
        ensures { Prepends (boolean_encoding tag self.old.mode val) self.old self.new result }
    {
        let byte = if val { 255 } else { 0 };
        self.prepend_byte(tag, byte)
    }

    /// Prepends a NULL: no contents (X.690, 8.8).
    #[inline(always)]
    pub fn prepend_null(&mut self, tag: Tag) -> ASN1Result<()>
        ensures { Prepends (null_encoding tag self.old.mode tt) self.old self.new result }
    {
        self.prepend_primitive(tag, &[])
    }

    /// Prepends an INTEGER, or an ENUMERATED by its tag (X.690, 8.3 and 8.4).
    #[tactic(auto, using(crate::proofs::Integers::one_byte))]
    #[inline(always)]
    pub fn prepend_i64(&mut self, tag: Tag, val: i64) -> ASN1Result<()>
        ensures { Prepends (integer_encoding tag self.old.mode val) self.old self.new result }
    {
        match i8::try_from(val) {
            Ok(small) => self.prepend_byte(tag, small.cast_unsigned()),
            Err(_) => self.prepend_longer(tag, val),
        }
    }

    // Prepends a number of one to eight bytes.
    fn prepend_longer(&mut self, tag: Tag, val: i64) -> ASN1Result<()>
        ensures { Prepends (integer_encoding tag self.old.mode val) self.old self.new result }
    {
        let some = octets(val);
        self.prepend_last(val.to_be_bytes(), some)?;
        self.prepend_header(tag, some, PCBit::Primitive)
    }

    /// Prepends an INTEGER (X.690, 8.3).
    #[tactic(auto, using(crate::proofs::BigEndian::be_unsigned))]
    #[inline(always)]
    pub fn prepend_u64(&mut self, tag: Tag, val: u64) -> ASN1Result<()>
        ensures { Prepends (integer_encoding tag self.old.mode (pos val)) self.old self.new result }
    {
        match i64::try_from(val) {
            Ok(signed) => self.prepend_i64(tag, signed),
            Err(_) => self.prepend_signed_bytes(tag, true, &val.to_be_bytes()),
        }
    }

    /// Prepends an INTEGER of any size, as `write_bigint_bytes` writes it (X.690, 8.3).
    pub fn prepend_bigint_bytes(&mut self, tag: Tag, bytes: &[u8], positive: bool) -> ASN1Result<()>
        ensures { Prepends (integer_encoding tag self.old.mode (big_integer bytes.now positive)) self.old self.new result }
    {
        let rest = trim_leading(0, bytes);
        if rest.is_empty() {
            return self.prepend_signed_bytes(tag, true, rest);
        }
        self.prepend_signed_bytes(tag, positive, rest)
    }

    // Prepends the number that bytes and its sign represent.
    fn prepend_signed_bytes(&mut self, tag: Tag, positive: bool, bytes: &[u8]) -> ASN1Result<()>
        ensures { Prepends (integer_encoding tag self.old.mode (signed_number positive bytes.now)) self.old self.new result }
    {
        let rest = trim_leading(sign_byte(positive), bytes);
        self.prepend_pieces(tag, sign_octet(positive, rest), rest)
    }
}
