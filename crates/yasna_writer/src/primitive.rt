//! Elements without parts: BOOLEAN, INTEGER, ENUMERATED and NULL (X.690, 8.2 to 8.4 and 8.8), calls of users.
//!
//! Each write takes the implicit tag if there is one, and else the type's own. A sticky error is returned, and
//! nothing is written. If there is no memory for the element, each returns `OutOfMemory`, which is sticky.
//!
//! If the tag's number is below 31 and the contents are a few bytes, the whole element is one append.
ghost use Rattle.std.specs.Prelude.{◌≡◌, ◌≤◌, ◌-◌, ◌∷◌, [], ◌++◌, drop, length, Some, Err, MatchResult, pos};
ghost use Rattle.yasna_base.specs.declared.error.ASN1ErrorKind.TheVariants.{OutOfMemory};
ghost use Rattle.yasna_base.specs.declared.tag.PCBit.TheVariants.{Primitive};
ghost use Rattle.yasna_base.specs.Enumerated.{enumerated_tag};
ghost use Rattle.yasna_base.specs.Error.{kind_of};
ghost use Rattle.yasna_base.specs.Identifier.{tag_or};
ghost use Rattle.yasna_base.specs.Integer.{minimal_bytes, integer_encoding, integer_tag};
ghost use Rattle.yasna_base.specs.BigInteger.{signed_number, big_integer};
ghost use Rattle.yasna_base.specs.Canonical.{canonical_element};
ghost use Rattle.yasna_base.specs.Boolean.{boolean_encoding, boolean_tag};
ghost use Rattle.yasna_base.specs.Null.{null_encoding, null_tag};
ghost use Rattle.yasna_writer.specs.State.{Appended};
ghost use Rattle.yasna_writer.specs.View.{Wrote};

use crate::identifier::leading;
use crate::integer::{octets, sign_byte, sign_octet, trim_leading};
use crate::state::Writer;
use yasna_base::tags::{TAG_BOOLEAN, TAG_ENUM, TAG_INTEGER, TAG_NULL};
use yasna_base::{ASN1Result, PCBit, Tag};

impl Writer {
    /// Writes a BOOLEAN: one byte, 255 for true (X.690, 8.2 and 11.1).
    #[inline(always)]
    pub fn write_bool(&mut self, val: bool) -> ASN1Result<()>
        ensures { Wrote (boolean_encoding (tag_or self.old.tag boolean_tag) self.old.mode val) self.old self.new result }
    {
        let byte = if val { 255 } else { 0 };
        self.write_byte(TAG_BOOLEAN, byte)
    }

    /// Writes a NULL: no contents (X.690, 8.8).
    #[tactic(auto, using(crate::proofs::Primitives::short_element))]
    #[inline(always)]
    pub fn write_null(&mut self) -> ASN1Result<()>
        ensures { Wrote (null_encoding (tag_or self.old.tag null_tag) self.old.mode tt) self.old self.new result }
    {
        if let Some(error) = self.failed() {
            return Err(error);
        }
        let tag = self.take_tag(TAG_NULL);
        if tag.tag_number < 31 {
            return self.append(&[leading(tag, PCBit::Primitive), 0]);
        }
        self.append_primitive(tag, &[], &[])
    }

    /// Writes an ENUMERATED, as an INTEGER but for its tag (X.690, 8.4).
    #[inline(always)]
    pub fn write_enum(&mut self, val: i64) -> ASN1Result<()>
        ensures { Wrote (integer_encoding (tag_or self.old.tag enumerated_tag) self.old.mode val) self.old self.new result }
    {
        self.write_number(TAG_ENUM, val)
    }

    /// Writes an INTEGER (X.690, 8.3).
    #[inline(always)]
    pub fn write_i64(&mut self, val: i64) -> ASN1Result<()>
        ensures { Wrote (integer_encoding (tag_or self.old.tag integer_tag) self.old.mode val) self.old self.new result }
    {
        self.write_number(TAG_INTEGER, val)
    }

    /// Writes an INTEGER (X.690, 8.3).
    #[inline(always)]
    pub fn write_i32(&mut self, val: i32) -> ASN1Result<()>
        ensures { Wrote (integer_encoding (tag_or self.old.tag integer_tag) self.old.mode val) self.old self.new result }
    {
        self.write_i64(i64::from(val))
    }

    /// Writes an INTEGER (X.690, 8.3).
    #[inline(always)]
    pub fn write_i16(&mut self, val: i16) -> ASN1Result<()>
        ensures { Wrote (integer_encoding (tag_or self.old.tag integer_tag) self.old.mode val) self.old self.new result }
    {
        self.write_i64(i64::from(val))
    }

    /// Writes an INTEGER (X.690, 8.3).
    #[inline(always)]
    pub fn write_i8(&mut self, val: i8) -> ASN1Result<()>
        ensures { Wrote (integer_encoding (tag_or self.old.tag integer_tag) self.old.mode val) self.old self.new result }
    {
        self.write_i64(i64::from(val))
    }

    /// Writes an INTEGER (X.690, 8.3).
    #[tactic(auto, using(crate::proofs::BigEndian::be_unsigned))]
    #[inline(always)]
    pub fn write_u64(&mut self, val: u64) -> ASN1Result<()>
        ensures { Wrote (integer_encoding (tag_or self.old.tag integer_tag) self.old.mode (pos val)) self.old self.new result }
    {
        match i64::try_from(val) {
            Ok(signed) => self.write_i64(signed),
            Err(_) => self.write_signed_bytes(TAG_INTEGER, true, &val.to_be_bytes()),
        }
    }

    /// Writes an INTEGER (X.690, 8.3).
    #[inline(always)]
    pub fn write_u32(&mut self, val: u32) -> ASN1Result<()>
        ensures { Wrote (integer_encoding (tag_or self.old.tag integer_tag) self.old.mode (pos val)) self.old self.new result }
    {
        self.write_i64(i64::from(val))
    }

    /// Writes an INTEGER (X.690, 8.3).
    #[inline(always)]
    pub fn write_u16(&mut self, val: u16) -> ASN1Result<()>
        ensures { Wrote (integer_encoding (tag_or self.old.tag integer_tag) self.old.mode (pos val)) self.old self.new result }
    {
        self.write_i64(i64::from(val))
    }

    /// Writes an INTEGER (X.690, 8.3).
    #[inline(always)]
    pub fn write_u8(&mut self, val: u8) -> ASN1Result<()>
        ensures { Wrote (integer_encoding (tag_or self.old.tag integer_tag) self.old.mode (pos val)) self.old self.new result }
    {
        self.write_i64(i64::from(val))
    }

    /// Writes an INTEGER of any size (X.690, 8.3).
    ///
    /// Leading zeros of `bytes` are dropped, and the rest is the number, highest byte first, less 256 to the power of its length if
    /// `positive` is false. If nothing is left the number is 0. It is written in the fewest bytes.
    pub fn write_bigint_bytes(&mut self, bytes: &[u8], positive: bool) -> ASN1Result<()>
        ensures { Wrote (integer_encoding (tag_or self.old.tag integer_tag) self.old.mode (big_integer bytes.now positive)) self.old self.new result }
    {
        let rest = trim_leading(0, bytes);
        if rest.is_empty() {
            return self.write_signed_bytes(TAG_INTEGER, true, rest);
        }
        self.write_signed_bytes(TAG_INTEGER, positive, rest)
    }

    // Writes an element with one byte of contents.
    #[tactic(auto, using(crate::proofs::Primitives::short_element))]
    #[inline(always)]
    fn write_byte(&mut self, own: Tag, byte: u8) -> ASN1Result<()>
        ensures { Wrote (canonical_element self.old.mode (tag_or self.old.tag own) Primitive (byte ∷ [])) self.old self.new result }
    {
        if let Some(error) = self.failed() {
            return Err(error);
        }
        let tag = self.take_tag(own);
        if tag.tag_number < 31 {
            return self.append(&[leading(tag, PCBit::Primitive), 1, byte]);
        }
        self.append_primitive(tag, &[], &[byte])
    }

    // Writes a number of 64 bits.
    #[tactic(auto, using(crate::proofs::Integers::one_byte))]
    #[inline(always)]
    fn write_number(&mut self, own: Tag, val: i64) -> ASN1Result<()>
        ensures { Wrote (integer_encoding (tag_or self.old.tag own) self.old.mode val) self.old self.new result }
    {
        match i8::try_from(val) {
            Ok(small) => self.write_byte(own, small.cast_unsigned()),
            Err(_) => self.write_longer(own, val),
        }
    }

    // Writes a number of 64 bits, of one to eight bytes.
    fn write_longer(&mut self, own: Tag, val: i64) -> ASN1Result<()>
        ensures { Wrote (integer_encoding (tag_or self.old.tag own) self.old.mode val) self.old self.new result }
    {
        if let Some(error) = self.failed() {
            return Err(error);
        }
        let tag = self.take_tag(own);
        self.append_last(tag, val.to_be_bytes(), octets(val))
    }

    // Appends an element whose contents are the last `count` bytes. Two to four of them are appended as an array of fixed size.
    #[inline(always)]
    fn append_last(&mut self, tag: Tag, bytes: [u8; 8], count: usize) -> ASN1Result<()>
        requires some { 1 ≤ count }
        requires few { count ≤ 8 }
        ensures { Appended (canonical_element self.old.mode tag Primitive (drop (8 - count) bytes)) self.old self.new result }
    {
        if tag.tag_number >= 31 {
            return self.append_primitive(tag, &[], &bytes[8 - count..]);
        }
        let first = leading(tag, PCBit::Primitive);
        match count {
            2 => self.append(&[first, 2, bytes[6], bytes[7]]),
            3 => self.append(&[first, 3, bytes[5], bytes[6], bytes[7]]),
            4 => self.append(&[first, 4, bytes[4], bytes[5], bytes[6], bytes[7]]),
            _ => self.append(&headed(first, bytes, 8 - count)[8 - count..]),
        }
    }

    // Writes an element whose contents are two pieces.
    fn write_pieces(&mut self, own: Tag, prefix: &[u8], rest: &[u8]) -> ASN1Result<()>
        ensures { Wrote (canonical_element self.old.mode (tag_or self.old.tag own) Primitive (prefix.now ++ rest.now)) self.old self.new result }
    {
        if let Some(error) = self.failed() {
            return Err(error);
        }
        let tag = self.take_tag(own);
        self.append_primitive(tag, prefix, rest)
    }

    // Writes the number that bytes and its sign represent.
    fn write_signed_bytes(&mut self, own: Tag, positive: bool, bytes: &[u8]) -> ASN1Result<()>
        ensures { Wrote (integer_encoding (tag_or self.old.tag own) self.old.mode (signed_number positive bytes.now)) self.old self.new result }
    {
        let rest = trim_leading(sign_byte(positive), bytes);
        self.write_pieces(own, sign_octet(positive, rest), rest)
    }
}

// From a place on: a byte, the count of the bytes from there on, and those bytes.
#[inline(always)]
fn headed(first: u8, bytes: [u8; 8], from: usize) -> [u8; 10]
    requires { from ≤ 8 }
    ensures all { length result ≡ 10 }
    ensures last { drop from result ≡ first ∷ (8 - from) ∷ drop from bytes }
{
    let mut all = [
        0, 0, bytes[0], bytes[1], bytes[2], bytes[3], bytes[4], bytes[5], bytes[6], bytes[7],
    ];
    all[from + 1] = (8 - from) as u8;
    all[from] = first;
    all
}
