//! OCTET STRING, BIT STRING and character strings (X.690, 8.6, 8.7 and 8.23).
ghost use Rattle.std.specs.Prelude.{◌≡◌, ◌∷◌, [], true};
ghost use Rattle.std.specs.List.{AllByRecursion};
ghost use Rattle.std.proofs.Common.{arith};
ghost use Rattle.yasna_base.specs.Bits.{IsBits, CanBits, AreCanonicalBits, bits_tag, bits_encoding, bits_depth};
ghost use Rattle.yasna_base.specs.Canonical.{Always};
ghost use Rattle.yasna_base.specs.Coding.{Any};
ghost use Rattle.yasna_base.specs.Digits.{IsBytes};
ghost use Rattle.yasna_base.specs.Exact.{written_fits};
ghost use Rattle.yasna_base.specs.Identifier.{tag_or};
ghost use Rattle.yasna_base.specs.Octets.{IsOctets, octets_tag, octets_encoding, octets_depth};
ghost use Rattle.yasna_base.specs.Text.{IsStringOf, IsUtf8In, InUtf8, InPrintable, InIa5, InNumeric, InVisible, characters, utf8_encoding, utf8_depth};
ghost use Rattle.yasna_base.specs.Text.{utf8_tag, printable_tag, ia5_tag, numeric_tag, visible_tag};
ghost use Rattle.yasna_base.proofs.Identifier.{not_end};
ghost use Rattle.yasna_base.proofs.UnderTags.{bits_under_tags};
ghost use Rattle.yasna_bytes.specs.Segments.{bits_in};
ghost use Rattle.yasna_notation.specs.Elements.{bits_elements, octets_elements, string_elements};
ghost use Rattle.yasna_notation.specs.Laws.{element_lawful, seen_laws, octets_of, octets_laws, octets_begin, bits_begin, text_begins, text_laws, class_laws};
ghost use Rattle.yasna_notation.specs.Laws.{octets_non_empty, bits_non_empty, text_non_empty};

use crate::notation::Notation;
use yasna_base::tags::{
    TAG_BITSTRING, TAG_IA5STRING, TAG_NUMERICSTRING, TAG_OCTETSTRING, TAG_PRINTABLESTRING,
    TAG_UTF8STRING, TAG_VISIBLESTRING,
};
use yasna_base::{ASN1Result, BERMode, Tag};
use yasna_reader::BERReader;
use yasna_writer::{DERWriter, PrependBuffer, bitvec_len, bytes_len, text_len};

impl Notation for Vec<u8> {
    type Value = Vec<u8>;

    type Inner = ();

    ghost means = { record {
      tags_known = true;
      tags = octets_tag ∷ [];
      retagged = true;
      under = λ u m n v b. IsOctets (tag_or u octets_tag) m n (octets_of v) b;
      any_under = λ u. Any (IsOctets (tag_or u octets_tag));
      may_allocate = true;
      same = λ v w. octets_of v ≡ octets_of w;
      encoding_under = λ u m v. octets_encoding (tag_or u octets_tag) m v.items;
      depth = λ m v. octets_depth m v.items;
      can = λ v. IsBytes v.items;
      fits = λ m n v. written_fits octets_depth IsBytes m n v.items;
    } };

    #[inline(always)]
    fn has_tag(tag: Tag) -> bool {
        tag == TAG_OCTETSTRING
    }

    #[inline(always)]
    fn read(reader: BERReader) -> ASN1Result<Vec<u8>> {
        reader.read_bytes()
    }

    #[inline(always)]
    fn write(value: &Vec<u8>, writer: DERWriter<'_>) -> ASN1Result<()> {
        writer.write_bytes(value.as_slice())
    }

    #[inline(always)]
    fn prepend(value: &Vec<u8>, under: Option<Tag>, out: &mut PrependBuffer) -> ASN1Result<()> {
        out.prepend_bytes(under.unwrap_or(TAG_OCTETSTRING), value.as_slice())
    }

    #[inline(always)]
    fn encoded_len(value: &Vec<u8>, under: Option<Tag>, mode: BERMode) -> Option<usize> {
        bytes_len(mode, under.unwrap_or(TAG_OCTETSTRING), value.as_slice())
    }

    ghost lawful = { λ _. element_lawful octets_tag (seen_laws octets_of octets_laws) octets_begin octets_elements (not_end 4 (λ e. omega arith)) (omega arith) };

    ghost non_empty = { λ u m v. octets_non_empty (tag_or u octets_tag) m v.items };
}

/// BIT STRING: its bytes, the first bit of a byte being its highest, and the count of its bits.
pub struct BitString;

impl Notation for BitString {
    type Value = (Vec<u8>, usize);

    type Inner = ();

    ghost means = { record {
      tags_known = true;
      tags = bits_tag ∷ [];
      retagged = true;
      under = λ u m n v b. IsBits (tag_or u bits_tag) m n (bits_in v) b;
      any_under = λ u. Any (IsBits (tag_or u bits_tag));
      may_allocate = true;
      same = λ v w. bits_in v ≡ bits_in w;
      encoding_under = λ u m v. bits_encoding (tag_or u bits_tag) m (bits_in v);
      depth = λ m v. bits_depth m (bits_in v);
      can = λ v. CanBits (bits_in v);
      fits = λ m n v. written_fits bits_depth AreCanonicalBits m n (bits_in v);
    } };

    #[inline(always)]
    fn has_tag(tag: Tag) -> bool {
        tag == TAG_BITSTRING
    }

    #[inline(always)]
    fn read(reader: BERReader) -> ASN1Result<(Vec<u8>, usize)> {
        reader.read_bitvec_bytes()
    }

    #[inline(always)]
    fn write(value: &(Vec<u8>, usize), writer: DERWriter<'_>) -> ASN1Result<()> {
        writer.write_bitvec_bytes(value.0.as_slice(), value.1)
    }

    #[inline(always)]
    fn prepend(
        value: &(Vec<u8>, usize),
        under: Option<Tag>,
        out: &mut PrependBuffer,
    ) -> ASN1Result<()> {
        out.prepend_bitvec_bytes(under.unwrap_or(TAG_BITSTRING), value.0.as_slice(), value.1)
    }

    #[inline(always)]
    fn encoded_len(value: &(Vec<u8>, usize), under: Option<Tag>, mode: BERMode) -> Option<usize> {
        bitvec_len(mode, under.unwrap_or(TAG_BITSTRING), value.0.as_slice())
    }

    ghost lawful = { λ _. element_lawful bits_tag (seen_laws bits_in bits_under_tags) bits_begin bits_elements (not_end 3 (λ e. omega arith)) (omega arith) };

    ghost non_empty = { λ u m v. bits_non_empty (tag_or u bits_tag) m (bits_in v) };
}

impl Notation for String {
    type Value = String;

    type Inner = ();

    ghost means = { record {
      tags_known = true;
      tags = utf8_tag ∷ [];
      retagged = true;
      under = λ u m n v b. IsStringOf (IsUtf8In InUtf8) (tag_or u utf8_tag) m n (characters v) b;
      any_under = λ u. Any (IsStringOf (IsUtf8In InUtf8) (tag_or u utf8_tag));
      may_allocate = true;
      same = λ v w. characters v ≡ characters w;
      encoding_under = λ u m v. utf8_encoding (tag_or u utf8_tag) m (characters v);
      depth = λ m v. utf8_depth m (characters v);
      can = Always;
      fits = written_fits (λ m v. utf8_depth m (characters v)) Always;
    } };

    #[inline(always)]
    fn has_tag(tag: Tag) -> bool {
        tag == TAG_UTF8STRING
    }

    #[inline(always)]
    fn read(reader: BERReader) -> ASN1Result<String> {
        reader.read_utf8string()
    }

    #[inline(always)]
    fn write(value: &String, writer: DERWriter<'_>) -> ASN1Result<()> {
        writer.write_utf8string(value.as_str())
    }

    #[inline(always)]
    fn prepend(value: &String, under: Option<Tag>, out: &mut PrependBuffer) -> ASN1Result<()> {
        out.prepend_text(under.unwrap_or(TAG_UTF8STRING), value.as_str())
    }

    #[inline(always)]
    fn encoded_len(value: &String, under: Option<Tag>, mode: BERMode) -> Option<usize> {
        text_len(mode, under.unwrap_or(TAG_UTF8STRING), value.as_str())
    }

    ghost lawful = { λ _. element_lawful utf8_tag text_laws (text_begins InUtf8) (string_elements (IsUtf8In InUtf8)) (not_end 12 (λ e. omega arith)) (omega arith) };

    ghost non_empty = { λ u m v. text_non_empty (tag_or u utf8_tag) m (characters v) };
}

/// PrintableString (X.680, 41): a text of its characters.
pub struct PrintableString;

impl Notation for PrintableString {
    type Value = String;

    type Inner = ();

    ghost means = { record {
      tags_known = true;
      tags = printable_tag ∷ [];
      retagged = true;
      under = λ u m n v b. IsStringOf (IsUtf8In InPrintable) (tag_or u printable_tag) m n (characters v) b;
      any_under = λ u. Any (IsStringOf (IsUtf8In InPrintable) (tag_or u printable_tag));
      may_allocate = true;
      same = λ v w. characters v ≡ characters w;
      encoding_under = λ u m v. utf8_encoding (tag_or u printable_tag) m (characters v);
      depth = λ m v. utf8_depth m (characters v);
      can = λ v. AllByRecursion InPrintable (characters v);
      fits = written_fits (λ m v. utf8_depth m (characters v)) (λ v. AllByRecursion InPrintable (characters v));
    } };

    #[inline(always)]
    fn has_tag(tag: Tag) -> bool {
        tag == TAG_PRINTABLESTRING
    }

    #[inline(always)]
    fn read(reader: BERReader) -> ASN1Result<String> {
        reader.read_printable_string()
    }

    #[inline(always)]
    fn write(value: &String, writer: DERWriter<'_>) -> ASN1Result<()> {
        writer.write_printable_string(value.as_str())
    }

    #[inline(always)]
    fn prepend(value: &String, under: Option<Tag>, out: &mut PrependBuffer) -> ASN1Result<()> {
        out.prepend_text(under.unwrap_or(TAG_PRINTABLESTRING), value.as_str())
    }

    #[inline(always)]
    fn encoded_len(value: &String, under: Option<Tag>, mode: BERMode) -> Option<usize> {
        text_len(mode, under.unwrap_or(TAG_PRINTABLESTRING), value.as_str())
    }

    ghost lawful = { λ _. element_lawful printable_tag (class_laws InPrintable) (text_begins InPrintable) (string_elements (IsUtf8In InPrintable)) (not_end 19 (λ e. omega arith)) (omega arith) };

    ghost non_empty = { λ u m v. text_non_empty (tag_or u printable_tag) m (characters v) };
}

/// IA5String (X.680, 41): a text of its characters.
pub struct Ia5String;

impl Notation for Ia5String {
    type Value = String;

    type Inner = ();

    ghost means = { record {
      tags_known = true;
      tags = ia5_tag ∷ [];
      retagged = true;
      under = λ u m n v b. IsStringOf (IsUtf8In InIa5) (tag_or u ia5_tag) m n (characters v) b;
      any_under = λ u. Any (IsStringOf (IsUtf8In InIa5) (tag_or u ia5_tag));
      may_allocate = true;
      same = λ v w. characters v ≡ characters w;
      encoding_under = λ u m v. utf8_encoding (tag_or u ia5_tag) m (characters v);
      depth = λ m v. utf8_depth m (characters v);
      can = λ v. AllByRecursion InIa5 (characters v);
      fits = written_fits (λ m v. utf8_depth m (characters v)) (λ v. AllByRecursion InIa5 (characters v));
    } };

    #[inline(always)]
    fn has_tag(tag: Tag) -> bool {
        tag == TAG_IA5STRING
    }

    #[inline(always)]
    fn read(reader: BERReader) -> ASN1Result<String> {
        reader.read_ia5_string()
    }

    #[inline(always)]
    fn write(value: &String, writer: DERWriter<'_>) -> ASN1Result<()> {
        writer.write_ia5_string(value.as_str())
    }

    #[inline(always)]
    fn prepend(value: &String, under: Option<Tag>, out: &mut PrependBuffer) -> ASN1Result<()> {
        out.prepend_text(under.unwrap_or(TAG_IA5STRING), value.as_str())
    }

    #[inline(always)]
    fn encoded_len(value: &String, under: Option<Tag>, mode: BERMode) -> Option<usize> {
        text_len(mode, under.unwrap_or(TAG_IA5STRING), value.as_str())
    }

    ghost lawful = { λ _. element_lawful ia5_tag (class_laws InIa5) (text_begins InIa5) (string_elements (IsUtf8In InIa5)) (not_end 22 (λ e. omega arith)) (omega arith) };

    ghost non_empty = { λ u m v. text_non_empty (tag_or u ia5_tag) m (characters v) };
}

/// NumericString (X.680, 41): a text of its characters.
pub struct NumericString;

impl Notation for NumericString {
    type Value = String;

    type Inner = ();

    ghost means = { record {
      tags_known = true;
      tags = numeric_tag ∷ [];
      retagged = true;
      under = λ u m n v b. IsStringOf (IsUtf8In InNumeric) (tag_or u numeric_tag) m n (characters v) b;
      any_under = λ u. Any (IsStringOf (IsUtf8In InNumeric) (tag_or u numeric_tag));
      may_allocate = true;
      same = λ v w. characters v ≡ characters w;
      encoding_under = λ u m v. utf8_encoding (tag_or u numeric_tag) m (characters v);
      depth = λ m v. utf8_depth m (characters v);
      can = λ v. AllByRecursion InNumeric (characters v);
      fits = written_fits (λ m v. utf8_depth m (characters v)) (λ v. AllByRecursion InNumeric (characters v));
    } };

    #[inline(always)]
    fn has_tag(tag: Tag) -> bool {
        tag == TAG_NUMERICSTRING
    }

    #[inline(always)]
    fn read(reader: BERReader) -> ASN1Result<String> {
        reader.read_numeric_string()
    }

    #[inline(always)]
    fn write(value: &String, writer: DERWriter<'_>) -> ASN1Result<()> {
        writer.write_numeric_string(value.as_str())
    }

    #[inline(always)]
    fn prepend(value: &String, under: Option<Tag>, out: &mut PrependBuffer) -> ASN1Result<()> {
        out.prepend_text(under.unwrap_or(TAG_NUMERICSTRING), value.as_str())
    }

    #[inline(always)]
    fn encoded_len(value: &String, under: Option<Tag>, mode: BERMode) -> Option<usize> {
        text_len(mode, under.unwrap_or(TAG_NUMERICSTRING), value.as_str())
    }

    ghost lawful = { λ _. element_lawful numeric_tag (class_laws InNumeric) (text_begins InNumeric) (string_elements (IsUtf8In InNumeric)) (not_end 18 (λ e. omega arith)) (omega arith) };

    ghost non_empty = { λ u m v. text_non_empty (tag_or u numeric_tag) m (characters v) };
}

/// VisibleString (X.680, 41): a text of its characters.
pub struct VisibleString;

impl Notation for VisibleString {
    type Value = String;

    type Inner = ();

    ghost means = { record {
      tags_known = true;
      tags = visible_tag ∷ [];
      retagged = true;
      under = λ u m n v b. IsStringOf (IsUtf8In InVisible) (tag_or u visible_tag) m n (characters v) b;
      any_under = λ u. Any (IsStringOf (IsUtf8In InVisible) (tag_or u visible_tag));
      may_allocate = true;
      same = λ v w. characters v ≡ characters w;
      encoding_under = λ u m v. utf8_encoding (tag_or u visible_tag) m (characters v);
      depth = λ m v. utf8_depth m (characters v);
      can = λ v. AllByRecursion InVisible (characters v);
      fits = written_fits (λ m v. utf8_depth m (characters v)) (λ v. AllByRecursion InVisible (characters v));
    } };

    #[inline(always)]
    fn has_tag(tag: Tag) -> bool {
        tag == TAG_VISIBLESTRING
    }

    #[inline(always)]
    fn read(reader: BERReader) -> ASN1Result<String> {
        reader.read_visible_string()
    }

    #[inline(always)]
    fn write(value: &String, writer: DERWriter<'_>) -> ASN1Result<()> {
        writer.write_visible_string(value.as_str())
    }

    #[inline(always)]
    fn prepend(value: &String, under: Option<Tag>, out: &mut PrependBuffer) -> ASN1Result<()> {
        out.prepend_text(under.unwrap_or(TAG_VISIBLESTRING), value.as_str())
    }

    #[inline(always)]
    fn encoded_len(value: &String, under: Option<Tag>, mode: BERMode) -> Option<usize> {
        text_len(mode, under.unwrap_or(TAG_VISIBLESTRING), value.as_str())
    }

    ghost lawful = { λ _. element_lawful visible_tag (class_laws InVisible) (text_begins InVisible) (string_elements (IsUtf8In InVisible)) (not_end 26 (λ e. omega arith)) (omega arith) };

    ghost non_empty = { λ u m v. text_non_empty (tag_or u visible_tag) m (characters v) };
}
