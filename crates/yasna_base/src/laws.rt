//! What is proved of the grammar itself, of which no program is part.
//!
//! These functions do nothing. Their contracts state the laws that every reader and every writer above relies on:
//! bytes have one meaning, encodings are prefix-free, and each value has one encoding in DER and one in CER.
ghost use Rattle.std.specs.Hash as fed;
ghost use Rattle.yasna_base.specs.declared.error.ASN1Error.{ASN1Error};
ghost use Rattle.yasna_base.specs.declared.error.ASN1ErrorKind.{ASN1ErrorKind};
ghost use Rattle.yasna_base.specs.declared.models.oid_text.ParseOidError.{ParseOidError};
ghost use Rattle.yasna_base.specs.Error.{kind_of};
ghost use Rattle.std.specs.Prelude.{◌≡◌, ◌++◌, ◌<◌, ◌^◌, ℕ, List, length, true, MatchResult, IsTrue, ◌↔◌, FitsSigned};
ghost use Rattle.std.specs.Int.{w64};
ghost use Rattle.std.specs.List.{AllByRecursion};
ghost use Rattle.std.specs.Cmp.Lexicographic.{slice_cmp};
ghost use Rattle.std.specs.Ordering.{nat_cmp, ordering_then};
ghost use Rattle.yasna_base.specs.declared.mode.BERMode.TheVariants.{Ber, Der, Cer};
ghost use Rattle.yasna_base.specs.declared.mode.BERMode.{BERMode};
ghost use Rattle.yasna_base.specs.declared.tag.Tag.{Tag};
ghost use Rattle.yasna_base.specs.declared.tag.TagClass.{TagClass};
ghost use Rattle.yasna_base.specs.declared.tag.PCBit.{PCBit};
ghost use Rattle.yasna_base.specs.Identifier.{universal, class_number, bit_number};
ghost use Rattle.yasna_base.specs.Laws.{IdentifiersAreUnambiguous, LengthsAreUnambiguous, PrimitiveElementsAreUnambiguous};
ghost use Rattle.yasna_base.specs.Boolean.{BooleanKeepsLaws};
ghost use Rattle.yasna_base.specs.Canonical.{leaf_depth};
ghost use Rattle.yasna_base.specs.Digits.{IsBytes};
ghost use Rattle.yasna_base.specs.Element.{Primitively};
ghost use Rattle.yasna_base.specs.Null.{NullKeepsLaws};
ghost use Rattle.yasna_base.specs.Integer.{IsSigned, integer_encoding, SignedKeepsLaws, UnsignedKeepsLaws};
ghost use Rattle.yasna_base.specs.Enumerated.{EnumeratedKeepsLaws};
ghost use Rattle.yasna_base.specs.BigInteger.{IsBigInteger, big_integer_encoding, CanBigInteger, BigIntegerKeepsLaws};
ghost use Rattle.yasna_base.specs.Segmented.{DeepIsNone};
ghost use Rattle.yasna_base.specs.Octets.{IsOctets, octets_encoding, octets_depth, octets_segmentation, OctetsKeepLaws};
ghost use Rattle.yasna_base.specs.Bits.{IsBits, bits_segmentation, BitsKeepLaws};
ghost use Rattle.yasna_base.specs.Text.{InUtf8, InNumeric, InPrintable, InVisible, InIa5, IsBmp, IsPairedBmp, IsStringOf, IsTextIn, IsUtf8In, TextKeepsLaws, BmpKeepsLaws, bmp_encoding, bmp_depth};
ghost use Rattle.yasna_base.specs.Oid.{OidKeepsLaws};
ghost use Rattle.yasna_base.specs.OidText.{ran_out_of_memory};
ghost use Rattle.yasna_base.specs.declared.models.tagged_der_value.TaggedDerValue.{TaggedDerValue};
ghost use Rattle.yasna_base.specs.TaggedDerValue.{raw_of};
ghost use Rattle.yasna_base.specs.Raw.{RawKeepsReadingLaws, TooDeepIsNotRaw};
ghost use Rattle.yasna_base.specs.SetLaws.{SetKeepsReadingLaws, SetOfOrderIsOne, SetOrderIsOne, SetContentsAreOne};
ghost use Rattle.yasna_base.specs.SetWriting.{SetOfKeepsLaws, SetOfTextKeepsLaws, SetOfBitsKeepLaws, SetOfKeepsReadingOf, SetOfRawKeepsReadingLaws, SetOfSetKeepsReadingLaws, SetKeepsWritingLaws};

use crate::error::{ASN1Error, ASN1ErrorKind};
use crate::mode::BERMode;
use crate::models::{ObjectIdentifier, ParseOidError, TaggedDerValue};
use crate::tag::{PCBit, Tag, TagClass};
use crate::tags::{
    TAG_BITSTRING, TAG_BMPSTRING, TAG_BOOLEAN, TAG_DATE, TAG_DATE_TIME, TAG_DURATION,
    TAG_EMBEDDED_PDV, TAG_ENUM, TAG_EOC, TAG_EXT, TAG_GENERALIZEDTIME, TAG_GENERALSTRING,
    TAG_GRAPHICSTRING, TAG_IA5STRING, TAG_INTEGER, TAG_NULL, TAG_NUMERICSTRING,
    TAG_OBJECT_DESCRIPTOR, TAG_OCTETSTRING, TAG_OID, TAG_OID_INTL_RESID, TAG_PRINTABLESTRING,
    TAG_REAL, TAG_RELATIVE_OID, TAG_RELATIVE_OID_INTL_RESID, TAG_SEQUENCE, TAG_SET,
    TAG_TELETEXSTRING, TAG_TIME, TAG_TIME_OF_DAY, TAG_UNIVERSALSTRING, TAG_UTCTIME, TAG_UTF8STRING,
    TAG_VIDEOTEXSTRING, TAG_VISIBLESTRING,
};
use std::alloc::Global;
use std::cmp::Ordering;
use std::hash::Hash;

/// The universal tags have the numbers that X.680, 8.6, gives them.
pub fn universal_tags()
    ensures eoc_is { TAG_EOC ≡ universal 0 }
    ensures boolean_is { TAG_BOOLEAN ≡ universal 1 }
    ensures integer_is { TAG_INTEGER ≡ universal 2 }
    ensures bitstring_is { TAG_BITSTRING ≡ universal 3 }
    ensures octetstring_is { TAG_OCTETSTRING ≡ universal 4 }
    ensures null_is { TAG_NULL ≡ universal 5 }
    ensures oid_is { TAG_OID ≡ universal 6 }
    ensures object_descriptor_is { TAG_OBJECT_DESCRIPTOR ≡ universal 7 }
    ensures ext_is { TAG_EXT ≡ universal 8 }
    ensures real_is { TAG_REAL ≡ universal 9 }
    ensures enum_is { TAG_ENUM ≡ universal 10 }
    ensures embedded_pdv_is { TAG_EMBEDDED_PDV ≡ universal 11 }
    ensures utf8string_is { TAG_UTF8STRING ≡ universal 12 }
    ensures relative_oid_is { TAG_RELATIVE_OID ≡ universal 13 }
    ensures time_is { TAG_TIME ≡ universal 14 }
    ensures sequence_is { TAG_SEQUENCE ≡ universal 16 }
    ensures set_is { TAG_SET ≡ universal 17 }
    ensures numericstring_is { TAG_NUMERICSTRING ≡ universal 18 }
    ensures printablestring_is { TAG_PRINTABLESTRING ≡ universal 19 }
    ensures teletexstring_is { TAG_TELETEXSTRING ≡ universal 20 }
    ensures videotexstring_is { TAG_VIDEOTEXSTRING ≡ universal 21 }
    ensures ia5string_is { TAG_IA5STRING ≡ universal 22 }
    ensures utctime_is { TAG_UTCTIME ≡ universal 23 }
    ensures generalizedtime_is { TAG_GENERALIZEDTIME ≡ universal 24 }
    ensures graphicstring_is { TAG_GRAPHICSTRING ≡ universal 25 }
    ensures visiblestring_is { TAG_VISIBLESTRING ≡ universal 26 }
    ensures generalstring_is { TAG_GENERALSTRING ≡ universal 27 }
    ensures universalstring_is { TAG_UNIVERSALSTRING ≡ universal 28 }
    ensures bmpstring_is { TAG_BMPSTRING ≡ universal 30 }
    ensures date_is { TAG_DATE ≡ universal 31 }
    ensures time_of_day_is { TAG_TIME_OF_DAY ≡ universal 32 }
    ensures date_time_is { TAG_DATE_TIME ≡ universal 33 }
    ensures duration_is { TAG_DURATION ≡ universal 34 }
    ensures oid_intl_resid_is { TAG_OID_INTL_RESID ≡ universal 35 }
    ensures relative_oid_intl_resid_is { TAG_RELATIVE_OID_INTL_RESID ≡ universal 36 }
{}

/// Tags are ordered by class, then by number; classes and bits by the numbers that they have in an identifier; BER
/// comes before DER, and DER before CER. Object identifiers are ordered by the first component that differs; a proper prefix comes
/// first.
pub fn orders()
    ensures tags { (t u : Tag) → ⟦<Tag as Ord>⟧.cmp t u ≡ ordering_then (nat_cmp (class_number t.tag_class) (class_number u.tag_class)) (nat_cmp t.tag_number u.tag_number) }
    ensures classes { (c d : TagClass) → ⟦<TagClass as Ord>⟧.cmp c d ≡ nat_cmp (class_number c) (class_number d) }
    ensures modes { (⟦<BERMode as Ord>⟧.cmp Ber Der ≡ Ordering.Less) × (⟦<BERMode as Ord>⟧.cmp Der Ber ≡ Ordering.Greater) × ((m : BERMode) → ⟦<BERMode as Ord>⟧.cmp m m ≡ Ordering.Equal) }
    ensures cer { (⟦<BERMode as Ord>⟧.cmp Ber Cer ≡ Ordering.Less) × (⟦<BERMode as Ord>⟧.cmp Der Cer ≡ Ordering.Less) × (⟦<BERMode as Ord>⟧.cmp Cer Ber ≡ Ordering.Greater) × (⟦<BERMode as Ord>⟧.cmp Cer Der ≡ Ordering.Greater) }
    ensures bits { (p q : PCBit) → ⟦<PCBit as Ord>⟧.cmp p q ≡ nat_cmp (bit_number p) (bit_number q) }
    ensures object_identifiers { (v w : List ℕ) → ⟦<ObjectIdentifier as Ord>⟧.cmp v w ≡ slice_cmp nat_cmp v w }
{}

/// Raw elements are ordered by tag, then bit, then bytes, and equal where all three are.
pub fn raw_orders()
    ensures order { (v w : TaggedDerValue) → ⟦<TaggedDerValue as Ord>⟧.cmp v w ≡ ordering_then (⟦<Tag as Ord>⟧.cmp v.tag w.tag) (ordering_then (⟦<PCBit as Ord>⟧.cmp v.pcbit w.pcbit) (slice_cmp nat_cmp v.value.items w.value.items)) }
    ensures equality { (v w : TaggedDerValue) → IsTrue (⟦<TaggedDerValue as PartialEq>⟧.eq v w) ↔ (raw_of v ≡ raw_of w) }
{}

/// Kinds of errors are equal where they are one, errors where their kinds are, and errors of the texts of object identifiers where
/// memory ran out for both or for neither.
pub fn error_equality()
    ensures kinds { (a b : ASN1ErrorKind) → IsTrue (⟦<ASN1ErrorKind as PartialEq>⟧.eq a b) ↔ (a ≡ b) }
    ensures errors { (a b : ASN1Error) → IsTrue (⟦<ASN1Error as PartialEq>⟧.eq a b) ↔ (kind_of a ≡ kind_of b) }
    ensures oid_errors { (a b : ParseOidError) → IsTrue (⟦<ParseOidError as PartialEq>⟧.eq a b) ↔ (ran_out_of_memory a ≡ ran_out_of_memory b) }
{}

/// A tag is hashed as its class and its number, a class and a bit as the number that they have in an identifier, and a raw element as
/// its tag, its bit and its bytes.
pub fn hashes()
    ensures classes { (c : TagClass) → ⟦<TagClass as Hash>⟧.hash_input c ≡ fed.u64 (class_number c) }
    ensures bits { (p : PCBit) → ⟦<PCBit as Hash>⟧.hash_input p ≡ fed.u64 (bit_number p) }
    ensures tags { (t : Tag) → ⟦<Tag as Hash>⟧.hash_input t ≡ fed.u64 (class_number t.tag_class) ++ fed.u64 t.tag_number }
    ensures raw { (v : TaggedDerValue) → ⟦<TaggedDerValue as Hash>⟧.hash_input v ≡ ⟦<Tag as Hash>⟧.hash_input v.tag ++ (⟦<PCBit as Hash>⟧.hash_input v.pcbit ++ fed.slice fed.u8 v.value.items) }
{}

/// The number that a class has in an identifier, as Rust numbers the variants.
pub fn class_discriminant(class: TagClass) -> u8
    ensures { result ≡ class_number class }
{
    class as u8
}

/// The number that a bit has in an identifier, as Rust numbers the variants.
pub fn bit_discriminant(bit: PCBit) -> u8
    ensures { result ≡ bit_number bit }
{
    bit as u8
}

/// Identifiers are prefix-free, and an identifier determines the tag and whether the contents are constructed.
pub fn identifiers()
    ensures { IdentifiersAreUnambiguous }
{}

/// In each mode, the spellings of lengths are prefix-free, and a spelling determines the length.
pub fn lengths()
    ensures { LengthsAreUnambiguous }
{}

/// In each mode, primitive elements are prefix-free, and an element determines the tag and the contents.
pub fn elements()
    ensures { PrimitiveElementsAreUnambiguous }
{}

/// The simple types satisfy the laws of reading and of writing, under any tag but that of the end of contents.
///
/// Reading: bytes encode at most one value, encodings are prefix-free, and what is read within some levels is read
/// within more. Writing: DER and CER read a value only from its one encoding there, BER reads both encodings too, and what BER
/// reads has them.
///
/// INTEGER satisfies them in the signed types of each width, in the unsigned types of each count of bits, and as bytes of
/// any count with a sign.
pub fn simple_types()
    ensures boolean { BooleanKeepsLaws }
    ensures null { NullKeepsLaws }
    ensures signed { SignedKeepsLaws }
    ensures unsigned { UnsignedKeepsLaws }
    ensures enumerated { EnumeratedKeepsLaws }
    ensures big_integer { BigIntegerKeepsLaws }
    ensures object_identifier { OidKeepsLaws }
{}

/// The types of strings satisfy the laws of reading and of writing, as `simple_types` says them, however BER cuts a string
/// into segments; CER cuts one that is longer than 1000 octets into segments, in one way.
///
/// A bit string whose unused bits aren't zero has no encoding of its own: it is written as the canonical string of the same
/// bits. A BMPString satisfies the laws of writing where each surrogate has its partner; any other is only read, with U+FFFD
/// in place of each surrogate that has none.
///
/// Where reading a string would go too deep, no string is there.
pub fn strings()
    ensures octets { OctetsKeepLaws }
    ensures bits { BitsKeepLaws }
    ensures utf8 { TextKeepsLaws InUtf8 }
    ensures numeric { TextKeepsLaws InNumeric }
    ensures printable { TextKeepsLaws InPrintable }
    ensures ia5 { TextKeepsLaws InIa5 }
    ensures visible { TextKeepsLaws InVisible }
    ensures bmp { BmpKeepsLaws }
    ensures deep_octets { DeepIsNone octets_segmentation }
    ensures deep_bits { DeepIsNone bits_segmentation }
{}

/// Raw elements satisfy the laws of reading, whatever their lengths and however deep they nest. Where reading one meets an
/// element that no level is left for, none is there.
pub fn raw_elements()
    ensures reading { RawKeepsReadingLaws }
    ensures depth { TooDeepIsNotRaw }
{}

/// SET satisfies the laws of reading, under any tag but that of the end of contents.
///
/// The contents of a SET OF depend only on its parts, not on their order. So do those of a SET, where parts that begin with one
/// tag are equal.
pub fn sets()
    ensures set { SetKeepsReadingLaws }
    ensures set_of_order { SetOfOrderIsOne }
    ensures set_order { SetOrderIsOne }
    ensures set_contents { SetContentsAreOne }
{}

// Numbers of 64 bits are below 2^64.
fn are_small(numbers: &[u64])
    ensures { AllByRecursion (λ n. n < 2 ^ 64) numbers.now }
{}

/// What an object identifier with components prints is read as the same one, unless memory runs out.
pub fn oid_is_read_again(
    alloc: Global,
    oid: &ObjectIdentifier,
) -> Result<ObjectIdentifier, ParseOidError>
    requires { 0 < length oid.now }
    ensures { MatchResult result (λ again. again ≡ oid.now) (λ e. ran_out_of_memory e ≡ true) }
{
    are_small(oid.components());
    match oid.to_string(alloc) {
        Ok(text) => ObjectIdentifier::from_str(alloc, &text),
        Err(_) => Err(ParseOidError::out_of_memory_error()),
    }
}

/// Sets satisfy the laws of writing, under any tag but that of the end of contents, and SET OF those of reading too.
///
/// A list of values is read from the encodings of its items where these ascend, in their mode and in BER, and DER and CER read
/// nothing else; so is a list of raw elements of DER or CER whose tags don't fall. Parts that are such encodings, in any order,
/// make a set that is read as the same values in order. Written again, what DER or CER read makes the same bytes: a SET OF with its
/// parts in any order, and a SET where each tag has one element. Where two elements of a SET have one tag, their parts have to be
/// in the order in which they were read, and that tag's number below 31.
///
/// SET OF satisfies both for elements of any type that does: these clauses say so of numbers, octets, texts of each class and BMP
/// texts whose surrogates are paired, and `set_of_is_written` of the crate `yasna` says so of each type that has its traits. A bit
/// string is written so where its unused bits are zero; BER reads others too.
pub fn sets_written()
    ensures set_of_enumerated { SetOfKeepsLaws (Primitively (IsSigned w64)) integer_encoding leaf_depth (FitsSigned w64) }
    ensures set_of_big_integer { SetOfKeepsLaws (Primitively IsBigInteger) big_integer_encoding leaf_depth CanBigInteger }
    ensures set_of_octets { SetOfKeepsLaws IsOctets octets_encoding octets_depth IsBytes }
    ensures set_of_utf8 { SetOfTextKeepsLaws InUtf8 }
    ensures set_of_numeric { SetOfTextKeepsLaws InNumeric }
    ensures set_of_printable { SetOfTextKeepsLaws InPrintable }
    ensures set_of_ia5 { SetOfTextKeepsLaws InIa5 }
    ensures set_of_visible { SetOfTextKeepsLaws InVisible }
    ensures set_of_bmp { SetOfKeepsLaws (IsStringOf IsPairedBmp) bmp_encoding bmp_depth (IsTextIn InUtf8) }
    ensures set_of_bits { SetOfBitsKeepLaws }
    ensures set_of_raw { SetOfRawKeepsReadingLaws }
    ensures set { SetKeepsWritingLaws }
{}

/// SET OF satisfies the laws of reading where its elements are of a type without traits: bit strings, texts of each class, and sets,
/// each under any tag but that of the end of contents.
///
/// `set_of_sets_is_read` of the crate `yasna` says so of a SET OF values of a type with traits.
pub fn sets_of_other_types()
    ensures bits { SetOfKeepsReadingOf IsBits }
    ensures utf8 { SetOfKeepsReadingOf (IsStringOf (IsUtf8In InUtf8)) }
    ensures numeric { SetOfKeepsReadingOf (IsStringOf (IsUtf8In InNumeric)) }
    ensures printable { SetOfKeepsReadingOf (IsStringOf (IsUtf8In InPrintable)) }
    ensures ia5 { SetOfKeepsReadingOf (IsStringOf (IsUtf8In InIa5)) }
    ensures visible { SetOfKeepsReadingOf (IsStringOf (IsUtf8In InVisible)) }
    ensures bmp { SetOfKeepsReadingOf (IsStringOf IsBmp) }
    ensures sets { SetOfSetKeepsReadingLaws }
{}
