//! BOOLEAN, INTEGER, ENUMERATED, NULL and OBJECT IDENTIFIER (X.690, 8.2 to 8.4, 8.8 and 8.19).
ghost use Rattle.std.specs.Prelude.{◌≡◌, ◌<◌, ◌^◌, ◌∷◌, [], true, false, pos, FitsSigned};
ghost use Rattle.std.specs.Int.{w64, w32};
ghost use Rattle.std.proofs.Common.{arith};
ghost use Rattle.yasna_base.specs.BigInteger.{IsBigInteger, CanBigInteger, big_integer_encoding};
ghost use Rattle.yasna_base.specs.Boolean.{IsBoolean, boolean_tag, boolean_encoding};
ghost use Rattle.yasna_base.specs.Canonical.{Always, leaf_depth};
ghost use Rattle.yasna_base.specs.Coding.{Any};
ghost use Rattle.yasna_base.specs.Element.{Primitively};
ghost use Rattle.yasna_base.specs.Enumerated.{enumerated_tag};
ghost use Rattle.yasna_base.specs.Exact.{written_fits};
ghost use Rattle.yasna_base.specs.Identifier.{tag_or};
ghost use Rattle.yasna_base.specs.Integer.{IsSigned, IsUnsigned, integer_tag, integer_encoding};
ghost use Rattle.yasna_base.specs.Null.{IsNull, null_tag, null_encoding};
ghost use Rattle.yasna_base.specs.Oid.{AreComponents, IsEncodableOid, oid_tag, oid_encoding};
ghost use Rattle.yasna_base.proofs.Coding.{primitively_begins};
ghost use Rattle.yasna_base.proofs.Identifier.{not_end};
ghost use Rattle.yasna_bytes.specs.Contents.{big_integer_in};
ghost use Rattle.yasna_notation.specs.Elements.{primitive_elements};
ghost use Rattle.yasna_notation.specs.Laws.{element_lawful, seen_laws, boolean_laws, null_laws, signed_laws, unsigned_laws, oid_laws, big_integer_laws, element_non_empty};

use crate::notation::Notation;
use yasna_base::models::ObjectIdentifier;
use yasna_base::tags::{TAG_BOOLEAN, TAG_ENUM, TAG_INTEGER, TAG_NULL, TAG_OID};
use yasna_base::{ASN1Result, BERMode, Tag};
use yasna_reader::BERReader;
use yasna_writer::{
    DERWriter, PrependBuffer, bigint_len, i64_len, oid_len, primitive_len, u64_len,
};

impl Notation for bool {
    type Value = bool;

    type Inner = ();

    ghost means = { record {
      tags_known = true;
      tags = boolean_tag ∷ [];
      retagged = true;
      under = λ u m n v b. Primitively IsBoolean (tag_or u boolean_tag) m n v b;
      any_under = λ u. Any (Primitively IsBoolean (tag_or u boolean_tag));
      may_allocate = false;
      same = λ v w. v ≡ w;
      encoding_under = λ u. boolean_encoding (tag_or u boolean_tag);
      depth = leaf_depth;
      can = Always;
      fits = written_fits leaf_depth Always;
    } };

    #[inline(always)]
    fn has_tag(tag: Tag) -> bool {
        tag == TAG_BOOLEAN
    }

    #[inline(always)]
    fn read(reader: BERReader) -> ASN1Result<bool> {
        reader.read_bool()
    }

    #[inline(always)]
    fn write(value: &bool, writer: DERWriter<'_>) -> ASN1Result<()> {
        writer.write_bool(*value)
    }

    #[inline(always)]
    fn prepend(value: &bool, under: Option<Tag>, out: &mut PrependBuffer) -> ASN1Result<()> {
        out.prepend_bool(under.unwrap_or(TAG_BOOLEAN), *value)
    }

    #[inline(always)]
    fn encoded_len(_value: &bool, under: Option<Tag>, _mode: BERMode) -> Option<usize> {
        primitive_len(under.unwrap_or(TAG_BOOLEAN), 1)
    }

    ghost lawful = { λ _. element_lawful boolean_tag boolean_laws (primitively_begins IsBoolean) (primitive_elements IsBoolean) (not_end 1 (λ e. omega arith)) (omega arith) };

    ghost non_empty = { λ u m v. element_non_empty _ _ _ _ };
}

impl Notation for () {
    type Value = ();

    type Inner = ();

    ghost means = { record {
      tags_known = true;
      tags = null_tag ∷ [];
      retagged = true;
      under = λ u m n v b. Primitively IsNull (tag_or u null_tag) m n v b;
      any_under = λ u. Any (Primitively IsNull (tag_or u null_tag));
      may_allocate = false;
      same = λ v w. v ≡ w;
      encoding_under = λ u. null_encoding (tag_or u null_tag);
      depth = leaf_depth;
      can = Always;
      fits = written_fits leaf_depth Always;
    } };

    #[inline(always)]
    fn has_tag(tag: Tag) -> bool {
        tag == TAG_NULL
    }

    #[inline(always)]
    fn read(reader: BERReader) -> ASN1Result<()> {
        reader.read_null()
    }

    #[inline(always)]
    fn write(_value: &(), writer: DERWriter<'_>) -> ASN1Result<()> {
        writer.write_null()
    }

    #[inline(always)]
    fn prepend(_value: &(), under: Option<Tag>, out: &mut PrependBuffer) -> ASN1Result<()> {
        out.prepend_null(under.unwrap_or(TAG_NULL))
    }

    #[inline(always)]
    fn encoded_len(_value: &(), under: Option<Tag>, _mode: BERMode) -> Option<usize> {
        primitive_len(under.unwrap_or(TAG_NULL), 0)
    }

    ghost lawful = { λ _. element_lawful null_tag null_laws (primitively_begins IsNull) (primitive_elements IsNull) (not_end 5 (λ e. omega arith)) (omega arith) };

    ghost non_empty = { λ u m v. element_non_empty _ _ _ _ };
}

impl Notation for i64 {
    type Value = i64;

    type Inner = ();

    ghost means = { record {
      tags_known = true;
      tags = integer_tag ∷ [];
      retagged = true;
      under = λ u m n v b. Primitively (IsSigned w64) (tag_or u integer_tag) m n v b;
      any_under = λ u. Any (Primitively (IsSigned w64) (tag_or u integer_tag));
      may_allocate = false;
      same = λ v w. v ≡ w;
      encoding_under = λ u. integer_encoding (tag_or u integer_tag);
      depth = leaf_depth;
      can = FitsSigned w64;
      fits = written_fits leaf_depth (FitsSigned w64);
    } };

    #[inline(always)]
    fn has_tag(tag: Tag) -> bool {
        tag == TAG_INTEGER
    }

    #[inline(always)]
    fn read(reader: BERReader) -> ASN1Result<i64> {
        reader.read_i64()
    }

    #[inline(always)]
    fn write(value: &i64, writer: DERWriter<'_>) -> ASN1Result<()> {
        writer.write_i64(*value)
    }

    #[inline(always)]
    fn prepend(value: &i64, under: Option<Tag>, out: &mut PrependBuffer) -> ASN1Result<()> {
        out.prepend_i64(under.unwrap_or(TAG_INTEGER), *value)
    }

    #[inline(always)]
    fn encoded_len(value: &i64, under: Option<Tag>, _mode: BERMode) -> Option<usize> {
        i64_len(under.unwrap_or(TAG_INTEGER), *value)
    }

    ghost lawful = { λ _. element_lawful integer_tag (signed_laws w64) (primitively_begins (IsSigned w64)) (primitive_elements (IsSigned w64)) (not_end 2 (λ e. omega arith)) (omega arith) };

    ghost non_empty = { λ u m v. element_non_empty _ _ _ _ };
}

impl Notation for i32 {
    type Value = i32;

    type Inner = ();

    ghost means = { record {
      tags_known = true;
      tags = integer_tag ∷ [];
      retagged = true;
      under = λ u m n v b. Primitively (IsSigned w32) (tag_or u integer_tag) m n v b;
      any_under = λ u. Any (Primitively (IsSigned w32) (tag_or u integer_tag));
      may_allocate = false;
      same = λ v w. v ≡ w;
      encoding_under = λ u. integer_encoding (tag_or u integer_tag);
      depth = leaf_depth;
      can = FitsSigned w32;
      fits = written_fits leaf_depth (FitsSigned w32);
    } };

    #[inline(always)]
    fn has_tag(tag: Tag) -> bool {
        tag == TAG_INTEGER
    }

    #[inline(always)]
    fn read(reader: BERReader) -> ASN1Result<i32> {
        reader.read_i32()
    }

    #[inline(always)]
    fn write(value: &i32, writer: DERWriter<'_>) -> ASN1Result<()> {
        writer.write_i32(*value)
    }

    #[inline(always)]
    fn prepend(value: &i32, under: Option<Tag>, out: &mut PrependBuffer) -> ASN1Result<()> {
        out.prepend_i64(under.unwrap_or(TAG_INTEGER), i64::from(*value))
    }

    #[inline(always)]
    fn encoded_len(value: &i32, under: Option<Tag>, _mode: BERMode) -> Option<usize> {
        i64_len(under.unwrap_or(TAG_INTEGER), i64::from(*value))
    }

    ghost lawful = { λ _. element_lawful integer_tag (signed_laws w32) (primitively_begins (IsSigned w32)) (primitive_elements (IsSigned w32)) (not_end 2 (λ e. omega arith)) (omega arith) };

    ghost non_empty = { λ u m v. element_non_empty _ _ _ _ };
}

impl Notation for u64 {
    type Value = u64;

    type Inner = ();

    ghost means = { record {
      tags_known = true;
      tags = integer_tag ∷ [];
      retagged = true;
      under = λ u m n v b. Primitively (IsUnsigned 64) (tag_or u integer_tag) m n v b;
      any_under = λ u. Any (Primitively (IsUnsigned 64) (tag_or u integer_tag));
      may_allocate = false;
      same = λ v w. v ≡ w;
      encoding_under = λ u m v. integer_encoding (tag_or u integer_tag) m (pos v);
      depth = leaf_depth;
      can = λ n. n < 2 ^ 64;
      fits = written_fits leaf_depth (λ n. n < 2 ^ 64);
    } };

    #[inline(always)]
    fn has_tag(tag: Tag) -> bool {
        tag == TAG_INTEGER
    }

    #[inline(always)]
    fn read(reader: BERReader) -> ASN1Result<u64> {
        reader.read_u64()
    }

    #[inline(always)]
    fn write(value: &u64, writer: DERWriter<'_>) -> ASN1Result<()> {
        writer.write_u64(*value)
    }

    #[inline(always)]
    fn prepend(value: &u64, under: Option<Tag>, out: &mut PrependBuffer) -> ASN1Result<()> {
        out.prepend_u64(under.unwrap_or(TAG_INTEGER), *value)
    }

    #[inline(always)]
    fn encoded_len(value: &u64, under: Option<Tag>, _mode: BERMode) -> Option<usize> {
        u64_len(under.unwrap_or(TAG_INTEGER), *value)
    }

    ghost lawful = { λ _. element_lawful integer_tag (unsigned_laws 64) (primitively_begins (IsUnsigned 64)) (primitive_elements (IsUnsigned 64)) (not_end 2 (λ e. omega arith)) (omega arith) };

    ghost non_empty = { λ u m v. element_non_empty _ _ _ _ };
}

impl Notation for u32 {
    type Value = u32;

    type Inner = ();

    ghost means = { record {
      tags_known = true;
      tags = integer_tag ∷ [];
      retagged = true;
      under = λ u m n v b. Primitively (IsUnsigned 32) (tag_or u integer_tag) m n v b;
      any_under = λ u. Any (Primitively (IsUnsigned 32) (tag_or u integer_tag));
      may_allocate = false;
      same = λ v w. v ≡ w;
      encoding_under = λ u m v. integer_encoding (tag_or u integer_tag) m (pos v);
      depth = leaf_depth;
      can = λ n. n < 2 ^ 32;
      fits = written_fits leaf_depth (λ n. n < 2 ^ 32);
    } };

    #[inline(always)]
    fn has_tag(tag: Tag) -> bool {
        tag == TAG_INTEGER
    }

    #[inline(always)]
    fn read(reader: BERReader) -> ASN1Result<u32> {
        reader.read_u32()
    }

    #[inline(always)]
    fn write(value: &u32, writer: DERWriter<'_>) -> ASN1Result<()> {
        writer.write_u32(*value)
    }

    #[inline(always)]
    fn prepend(value: &u32, under: Option<Tag>, out: &mut PrependBuffer) -> ASN1Result<()> {
        out.prepend_i64(under.unwrap_or(TAG_INTEGER), i64::from(*value))
    }

    #[inline(always)]
    fn encoded_len(value: &u32, under: Option<Tag>, _mode: BERMode) -> Option<usize> {
        i64_len(under.unwrap_or(TAG_INTEGER), i64::from(*value))
    }

    ghost lawful = { λ _. element_lawful integer_tag (unsigned_laws 32) (primitively_begins (IsUnsigned 32)) (primitive_elements (IsUnsigned 32)) (not_end 2 (λ e. omega arith)) (omega arith) };

    ghost non_empty = { λ u m v. element_non_empty _ _ _ _ };
}

/// ENUMERATED, as its number.
pub struct Enumerated;

impl Notation for Enumerated {
    type Value = i64;

    type Inner = ();

    ghost means = { record {
      tags_known = true;
      tags = enumerated_tag ∷ [];
      retagged = true;
      under = λ u m n v b. Primitively (IsSigned w64) (tag_or u enumerated_tag) m n v b;
      any_under = λ u. Any (Primitively (IsSigned w64) (tag_or u enumerated_tag));
      may_allocate = false;
      same = λ v w. v ≡ w;
      encoding_under = λ u. integer_encoding (tag_or u enumerated_tag);
      depth = leaf_depth;
      can = FitsSigned w64;
      fits = written_fits leaf_depth (FitsSigned w64);
    } };

    #[inline(always)]
    fn has_tag(tag: Tag) -> bool {
        tag == TAG_ENUM
    }

    #[inline(always)]
    fn read(reader: BERReader) -> ASN1Result<i64> {
        reader.read_enum()
    }

    #[inline(always)]
    fn write(value: &i64, writer: DERWriter<'_>) -> ASN1Result<()> {
        writer.write_enum(*value)
    }

    #[inline(always)]
    fn prepend(value: &i64, under: Option<Tag>, out: &mut PrependBuffer) -> ASN1Result<()> {
        out.prepend_i64(under.unwrap_or(TAG_ENUM), *value)
    }

    #[inline(always)]
    fn encoded_len(value: &i64, under: Option<Tag>, _mode: BERMode) -> Option<usize> {
        i64_len(under.unwrap_or(TAG_ENUM), *value)
    }

    ghost lawful = { λ _. element_lawful enumerated_tag (signed_laws w64) (primitively_begins (IsSigned w64)) (primitive_elements (IsSigned w64)) (not_end 10 (λ e. omega arith)) (omega arith) };

    ghost non_empty = { λ u m v. element_non_empty _ _ _ _ };
}

impl Notation for ObjectIdentifier {
    type Value = ObjectIdentifier;

    type Inner = ();

    ghost means = { record {
      tags_known = true;
      tags = oid_tag ∷ [];
      retagged = true;
      under = λ u m n v b. Primitively AreComponents (tag_or u oid_tag) m n v b;
      any_under = λ u. Any (Primitively AreComponents (tag_or u oid_tag));
      may_allocate = true;
      same = λ v w. v ≡ w;
      encoding_under = λ u. oid_encoding (tag_or u oid_tag);
      depth = leaf_depth;
      can = IsEncodableOid;
      fits = written_fits leaf_depth IsEncodableOid;
    } };

    #[inline(always)]
    fn has_tag(tag: Tag) -> bool {
        tag == TAG_OID
    }

    #[inline(always)]
    fn read(reader: BERReader) -> ASN1Result<ObjectIdentifier> {
        reader.read_oid()
    }

    #[inline(always)]
    fn write(value: &ObjectIdentifier, writer: DERWriter<'_>) -> ASN1Result<()> {
        writer.write_oid(value)
    }

    #[inline(always)]
    fn prepend(
        value: &ObjectIdentifier,
        under: Option<Tag>,
        out: &mut PrependBuffer,
    ) -> ASN1Result<()> {
        out.prepend_oid(under.unwrap_or(TAG_OID), value)
    }

    #[inline(always)]
    fn encoded_len(value: &ObjectIdentifier, under: Option<Tag>, _mode: BERMode) -> Option<usize> {
        oid_len(under.unwrap_or(TAG_OID), value)
    }

    ghost lawful = { λ _. element_lawful oid_tag oid_laws (primitively_begins AreComponents) (primitive_elements AreComponents) (not_end 6 (λ e. omega arith)) (omega arith) };

    ghost non_empty = { λ u m v. element_non_empty _ _ _ _ };
}

/// INTEGER of any size: its contents in two's complement, and whether it isn't negative.
pub struct BigInteger;

impl Notation for BigInteger {
    type Value = (Vec<u8>, bool);

    type Inner = ();

    ghost means = { record {
      tags_known = true;
      tags = integer_tag ∷ [];
      retagged = true;
      under = λ u m n v b. Primitively IsBigInteger (tag_or u integer_tag) m n (big_integer_in v) b;
      any_under = λ u. Any (Primitively IsBigInteger (tag_or u integer_tag));
      may_allocate = true;
      same = λ v w. big_integer_in v ≡ big_integer_in w;
      encoding_under = λ u m v. big_integer_encoding (tag_or u integer_tag) m (big_integer_in v);
      depth = leaf_depth;
      can = λ v. CanBigInteger (big_integer_in v);
      fits = λ m n v. written_fits leaf_depth CanBigInteger m n (big_integer_in v);
    } };

    #[inline(always)]
    fn has_tag(tag: Tag) -> bool {
        tag == TAG_INTEGER
    }

    #[inline(always)]
    fn read(reader: BERReader) -> ASN1Result<(Vec<u8>, bool)> {
        reader.read_bigint_bytes()
    }

    #[inline(always)]
    fn write(value: &(Vec<u8>, bool), writer: DERWriter<'_>) -> ASN1Result<()> {
        writer.write_bigint_bytes(value.0.as_slice(), value.1)
    }

    #[inline(always)]
    fn prepend(
        value: &(Vec<u8>, bool),
        under: Option<Tag>,
        out: &mut PrependBuffer,
    ) -> ASN1Result<()> {
        out.prepend_bigint_bytes(under.unwrap_or(TAG_INTEGER), value.0.as_slice(), value.1)
    }

    #[inline(always)]
    fn encoded_len(value: &(Vec<u8>, bool), under: Option<Tag>, _mode: BERMode) -> Option<usize> {
        bigint_len(under.unwrap_or(TAG_INTEGER), value.0.as_slice(), value.1)
    }

    ghost lawful = { λ _. element_lawful integer_tag (seen_laws big_integer_in big_integer_laws) (primitively_begins IsBigInteger) (primitive_elements IsBigInteger) (not_end 2 (λ e. omega arith)) (omega arith) };

    ghost non_empty = { λ u m v. element_non_empty _ _ _ _ };
}
