//! The length of an encoding, without making it (X.690, 8.1.2 and 8.1.3).
//!
//! Each call takes the tag of its element. `None` says that the length isn't known: it passes 64 bits, or CER cuts the string into
//! segments, or a time has a fraction of a second.
ghost use Rattle.std.specs.List.{flat_map};
ghost use Rattle.std.specs.Prelude.{◌≡◌, ◌∷◌, ◌++◌, ℕ, List, length, IfSome, pos};
ghost use Rattle.std.specs.Str.{chars};
ghost use Rattle.yasna_base.specs.declared.mode.BERMode.{BERMode};
ghost use Rattle.yasna_base.specs.declared.mode.BERMode.TheVariants.{Cer};
ghost use Rattle.yasna_base.specs.declared.tag.PCBit.{PCBit};
ghost use Rattle.yasna_base.specs.declared.tag.PCBit.TheVariants.{Primitive, Constructed};
ghost use Rattle.yasna_base.specs.BigInteger.{signed_number, big_integer};
ghost use Rattle.yasna_base.specs.Bits.{bits_encoding};
ghost use Rattle.yasna_base.specs.Canonical.{canonical_element, definite_element};
ghost use Rattle.yasna_base.specs.Digits.{base128};
ghost use Rattle.yasna_base.specs.Integer.{integer_encoding};
ghost use Rattle.yasna_base.specs.Octets.{octets_encoding};
ghost use Rattle.yasna_base.specs.Oid.{subidentifiers, oid_encoding};
ghost use Rattle.yasna_base.specs.Raw.{raw_encoding};
ghost use Rattle.yasna_base.specs.TaggedDerValue.{raw_of};
ghost use Rattle.yasna_base.specs.Text.{utf8_encoding};
ghost use Rattle.yasna_times.specs.GeneralizedTime.{generalized_time_encoding};
ghost use Rattle.yasna_times.specs.Models.{utc_of, moment_of};
ghost use Rattle.yasna_times.specs.UtcTime.{utc_time_encoding};
ghost use Rattle.yasna_writer.specs.Prepend.{KnownLength};

use crate::header::header_length;
use crate::identifier::identifier_length;
use crate::integer::{octets, sign_byte, sign_octet, trim_leading};
use crate::oid::contents_length;
use crate::prepend_strings::cuts;
use crate::segments::{FULL_BITS, FULL_OCTETS};
use yasna_base::models::{ObjectIdentifier, TaggedDerValue};
use yasna_base::{BERMode, PCBit, Tag};
use yasna_times::models::{GeneralizedTime, UTCTime};

// The length of an element of definite length with this many bytes of contents.
#[inline(always)]
fn definite_len(tag: Tag, contents: usize) -> Option<usize>
    ensures { (bit : PCBit) (c : List ℕ) → contents ≡ length c → KnownLength (definite_element tag bit c) result }
{
    contents.checked_add(header_length(tag, contents))
}

/// The length of a primitive element with `contents` bytes of contents (X.690, 8.1.2 and 8.1.3).
#[inline(always)]
pub fn primitive_len(tag: Tag, contents: usize) -> Option<usize>
    ensures { (m : BERMode) (c : List ℕ) → contents ≡ length c → KnownLength (canonical_element m tag Primitive c) result }
{
    definite_len(tag, contents)
}

/// The length of a constructed element with `contents` bytes of contents, of indefinite length in CER (X.690, 8.1.2, 8.1.3 and 9.1).
#[inline(always)]
pub fn constructed_len(mode: BERMode, tag: Tag, contents: usize) -> Option<usize>
    ensures { (c : List ℕ) → contents ≡ length c → KnownLength (canonical_element mode tag Constructed c) result }
{
    match mode {
        BERMode::Cer => contents.checked_add(identifier_length(tag) + 3),
        BERMode::Ber => definite_len(tag, contents),
        BERMode::Der => definite_len(tag, contents),
    }
}

/// The length of an INTEGER, or of an ENUMERATED by its tag (X.690, 8.3 and 8.4).
#[inline(always)]
pub fn i64_len(tag: Tag, val: i64) -> Option<usize>
    ensures { (m : BERMode) → KnownLength (integer_encoding tag m val) result }
{
    primitive_len(tag, octets(val))
}

/// The length of an INTEGER (X.690, 8.3).
#[inline(always)]
pub fn u64_len(tag: Tag, val: u64) -> Option<usize>
    ensures { (m : BERMode) → KnownLength (integer_encoding tag m (pos val)) result }
{
    match i64::try_from(val) {
        Ok(signed) => i64_len(tag, signed),
        Err(_) => signed_len(tag, true, &val.to_be_bytes()),
    }
}

/// The length of an INTEGER of any size, of the bytes and the sign that `prepend_bigint_bytes` takes (X.690, 8.3).
pub fn bigint_len(tag: Tag, bytes: &[u8], positive: bool) -> Option<usize>
    ensures { (m : BERMode) → KnownLength (integer_encoding tag m (big_integer bytes.now positive)) result }
{
    let rest = trim_leading(0, bytes);
    if rest.is_empty() {
        return signed_len(tag, true, rest);
    }
    signed_len(tag, positive, rest)
}

// The length of the number that bytes and its sign represent.
fn signed_len(tag: Tag, positive: bool, bytes: &[u8]) -> Option<usize>
    ensures { (m : BERMode) → KnownLength (integer_encoding tag m (signed_number positive bytes.now)) result }
{
    let rest = trim_leading(sign_byte(positive), bytes);
    primitive_len(tag, sign_octet(positive, rest).len() + rest.len())
}

/// The length of an OCTET STRING (X.690, 8.7 and 9.2).
#[inline(always)]
pub fn bytes_len(mode: BERMode, tag: Tag, bytes: &[u8]) -> Option<usize>
    ensures { KnownLength (octets_encoding tag mode bytes.now) result }
{
    if cuts(mode, bytes.len(), FULL_OCTETS) {
        return None;
    }
    primitive_len(tag, bytes.len())
}

/// The length of a text in UTF-8 (X.690, 8.23).
#[inline(always)]
pub fn text_len(mode: BERMode, tag: Tag, string: &str) -> Option<usize>
    ensures { KnownLength (utf8_encoding tag mode (chars string.now)) result }
{
    bytes_len(mode, tag, string.as_bytes())
}

/// The length of a BIT STRING in these bytes, however many bits of the last one are unused (X.690, 8.6 and 9.2).
#[inline(always)]
pub fn bitvec_len(mode: BERMode, tag: Tag, bytes: &[u8]) -> Option<usize>
    ensures { (k : ℕ) → KnownLength (bits_encoding tag mode (record { bytes = bytes.now; count = k })) result }
{
    if cuts(mode, bytes.len(), FULL_BITS) {
        return None;
    }
    primitive_len(tag, bytes.len() + 1)
}

// The number that the first two components make, and the further components.
#[inline(always)]
fn subidentifiers_if(components: &[u64]) -> Option<(u64, &[u64])>
    ensures { IfSome result (λ r. subidentifiers components.now ≡ r.0 ∷ r.1.now) }
{
    let (root, others) = components.split_first()?;
    let (arc, further) = others.split_first()?;
    let first = root.checked_mul(40)?.checked_add(*arc)?;
    Some((first, further))
}

/// The length of an OBJECT IDENTIFIER, if it has an encoding (X.690, 8.19).
pub fn oid_len(tag: Tag, oid: &ObjectIdentifier) -> Option<usize>
    ensures { (m : BERMode) → KnownLength (oid_encoding tag m oid.now) result }
{
    let (first, further) = subidentifiers_if(oid.components())?;
    primitive_len(tag, contents_length(first, further))
}

/// The length of a raw element under this tag (X.690, 8.1).
pub fn tagged_der_len(mode: BERMode, tag: Tag, value: &TaggedDerValue) -> Option<usize>
    ensures { KnownLength (raw_encoding tag mode (raw_of value.now)) result }
{
    raw_len(mode, tag, value.pcbit(), value.value().len())
}

// The length of a raw element with this many bytes after its length octets.
fn raw_len(mode: BERMode, tag: Tag, bit: PCBit, payload: usize) -> Option<usize>
    ensures { (c : List ℕ) → payload ≡ length c → KnownLength (raw_encoding tag mode (record { tag = tag; bit = bit; payload = c })) result }
{
    match bit {
        PCBit::Primitive => primitive_len(tag, payload),
        PCBit::Constructed => constructed_raw_len(mode, tag, payload),
    }
}

// As `raw_len`, of a constructed element. In CER the two zeros are in its payload.
fn constructed_raw_len(mode: BERMode, tag: Tag, payload: usize) -> Option<usize>
    ensures { (c : List ℕ) → payload ≡ length c → KnownLength (raw_encoding tag mode (record { tag = tag; bit = Constructed; payload = c })) result }
{
    match mode {
        BERMode::Cer => payload.checked_add(identifier_length(tag) + 1),
        BERMode::Ber => definite_len(tag, payload),
        BERMode::Der => definite_len(tag, payload),
    }
}

/// The length of a UTCTime (X.690, 8.26 and 11.8).
#[inline(always)]
pub fn utctime_len(tag: Tag, _time: &UTCTime) -> Option<usize>
    ensures { (m : BERMode) → KnownLength (utc_time_encoding tag m (utc_of _time.now)) result }
{
    primitive_len(tag, 13)
}

/// The length of a GeneralizedTime without a fraction of a second (X.690, 8.25 and 11.7).
pub fn generalized_time_len(tag: Tag, time: &GeneralizedTime) -> Option<usize>
    ensures { (m : BERMode) → KnownLength (generalized_time_encoding tag m (moment_of time.now)) result }
{
    if time.datetime().subsec_nanosecond() != 0 || !time.sub_nano().is_empty() {
        return None;
    }
    primitive_len(tag, 15)
}
