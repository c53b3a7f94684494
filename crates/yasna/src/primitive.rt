//! BOOLEAN, NULL, and INTEGER as the number types of Rust that hold it (X.690, 8.2, 8.3 and 8.8).
ghost use Rattle.std.specs.Prelude.{◌≡◌, ◌<◌, ◌^◌, false, pos, FitsSigned};
ghost use Rattle.std.specs.Int.{w64, w32, w16};
ghost use Rattle.yasna_base.specs.Coding.{Any};
ghost use Rattle.yasna_base.specs.Canonical.{leaf_depth, Always};
ghost use Rattle.yasna_base.specs.Boolean.{EncodesBoolean, boolean_encoding, boolean_tag};
ghost use Rattle.yasna_base.specs.Null.{EncodesNull, null_encoding, null_tag};
ghost use Rattle.yasna_base.specs.Integer.{EncodesSigned, EncodesUnsigned, integer_encoding, integer_tag};
ghost use Rattle.yasna_base.proofs.Boolean.{bool_coding, bool_written};
ghost use Rattle.yasna_base.proofs.Null.{unit_coding, unit_written};
ghost use Rattle.yasna_base.proofs.Integer.{signed_coding, signed_written, unsigned_coding, unsigned_written};

use crate::traits::{BERDecodable, DERCanonical, DEREncodable};
use yasna_base::error::ASN1Result;
use yasna_base::mode::BERMode;
use yasna_base::tags::{TAG_BOOLEAN, TAG_INTEGER, TAG_NULL};
use yasna_reader::BERReader;
use yasna_writer::{DERWriter, PrependBuffer, i64_len, primitive_len, u64_len};

impl BERDecodable for () {
    ghost encodes = { EncodesNull };

    ghost elements = { Any EncodesNull };

    ghost may_allocate = { false };

    ghost same = { λ v w. v ≡ w };

    fn decode_ber(reader: BERReader) -> ASN1Result<()> {
        reader.read_null()
    }

    ghost coding = { unit_coding };
}

impl DEREncodable for () {
    ghost encoding = { null_encoding null_tag };

    ghost depth = { leaf_depth };

    ghost encodable = { Always };

    fn encode_der(&self, writer: DERWriter<'_>) -> ASN1Result<()> {
        writer.write_null()
    }

    #[inline(always)]
    fn prepend_der(&self, out: &mut PrependBuffer) -> ASN1Result<()> {
        out.prepend_null(TAG_NULL)
    }

    #[inline(always)]
    fn encoded_len(&self, _mode: BERMode) -> Option<usize> {
        primitive_len(TAG_NULL, 0)
    }
}

impl DERCanonical for () {
    ghost written = { unit_written };
}

impl BERDecodable for bool {
    ghost encodes = { EncodesBoolean };

    ghost elements = { Any EncodesBoolean };

    ghost may_allocate = { false };

    ghost same = { λ v w. v ≡ w };

    fn decode_ber(reader: BERReader) -> ASN1Result<bool> {
        reader.read_bool()
    }

    ghost coding = { bool_coding };
}

impl DEREncodable for bool {
    ghost encoding = { boolean_encoding boolean_tag };

    ghost depth = { leaf_depth };

    ghost encodable = { Always };

    fn encode_der(&self, writer: DERWriter<'_>) -> ASN1Result<()> {
        writer.write_bool(*self)
    }

    #[inline(always)]
    fn prepend_der(&self, out: &mut PrependBuffer) -> ASN1Result<()> {
        out.prepend_bool(TAG_BOOLEAN, *self)
    }

    #[inline(always)]
    fn encoded_len(&self, _mode: BERMode) -> Option<usize> {
        primitive_len(TAG_BOOLEAN, 1)
    }
}

impl DERCanonical for bool {
    ghost written = { bool_written };
}

impl BERDecodable for i64 {
    ghost encodes = { EncodesSigned w64 };

    ghost elements = { Any (EncodesSigned w64) };

    ghost may_allocate = { false };

    ghost same = { λ v w. v ≡ w };

    fn decode_ber(reader: BERReader) -> ASN1Result<i64> {
        reader.read_i64()
    }

    ghost coding = { signed_coding w64 };
}

impl DEREncodable for i64 {
    ghost encoding = { λ m v. integer_encoding integer_tag m v };

    ghost depth = { leaf_depth };

    ghost encodable = { FitsSigned w64 };

    fn encode_der(&self, writer: DERWriter<'_>) -> ASN1Result<()> {
        writer.write_i64(*self)
    }

    #[inline(always)]
    fn prepend_der(&self, out: &mut PrependBuffer) -> ASN1Result<()> {
        out.prepend_i64(TAG_INTEGER, *self)
    }

    #[inline(always)]
    fn encoded_len(&self, _mode: BERMode) -> Option<usize> {
        i64_len(TAG_INTEGER, *self)
    }
}

impl DERCanonical for i64 {
    ghost written = { signed_written w64 };
}

impl BERDecodable for i32 {
    ghost encodes = { EncodesSigned w32 };

    ghost elements = { Any (EncodesSigned w32) };

    ghost may_allocate = { false };

    ghost same = { λ v w. v ≡ w };

    fn decode_ber(reader: BERReader) -> ASN1Result<i32> {
        reader.read_i32()
    }

    ghost coding = { signed_coding w32 };
}

impl DEREncodable for i32 {
    ghost encoding = { λ m v. integer_encoding integer_tag m v };

    ghost depth = { leaf_depth };

    ghost encodable = { FitsSigned w32 };

    fn encode_der(&self, writer: DERWriter<'_>) -> ASN1Result<()> {
        writer.write_i32(*self)
    }

    #[inline(always)]
    fn prepend_der(&self, out: &mut PrependBuffer) -> ASN1Result<()> {
        out.prepend_i64(TAG_INTEGER, i64::from(*self))
    }

    #[inline(always)]
    fn encoded_len(&self, _mode: BERMode) -> Option<usize> {
        i64_len(TAG_INTEGER, i64::from(*self))
    }
}

impl DERCanonical for i32 {
    ghost written = { signed_written w32 };
}

impl BERDecodable for i16 {
    ghost encodes = { EncodesSigned w16 };

    ghost elements = { Any (EncodesSigned w16) };

    ghost may_allocate = { false };

    ghost same = { λ v w. v ≡ w };

    fn decode_ber(reader: BERReader) -> ASN1Result<i16> {
        reader.read_i16()
    }

    ghost coding = { signed_coding w16 };
}

impl DEREncodable for i16 {
    ghost encoding = { λ m v. integer_encoding integer_tag m v };

    ghost depth = { leaf_depth };

    ghost encodable = { FitsSigned w16 };

    fn encode_der(&self, writer: DERWriter<'_>) -> ASN1Result<()> {
        writer.write_i16(*self)
    }

    #[inline(always)]
    fn prepend_der(&self, out: &mut PrependBuffer) -> ASN1Result<()> {
        out.prepend_i64(TAG_INTEGER, i64::from(*self))
    }

    #[inline(always)]
    fn encoded_len(&self, _mode: BERMode) -> Option<usize> {
        i64_len(TAG_INTEGER, i64::from(*self))
    }
}

impl DERCanonical for i16 {
    ghost written = { signed_written w16 };
}

impl BERDecodable for u64 {
    ghost encodes = { EncodesUnsigned 64 };

    ghost elements = { Any (EncodesUnsigned 64) };

    ghost may_allocate = { false };

    ghost same = { λ v w. v ≡ w };

    fn decode_ber(reader: BERReader) -> ASN1Result<u64> {
        reader.read_u64()
    }

    ghost coding = { unsigned_coding 64 };
}

impl DEREncodable for u64 {
    ghost encoding = { λ m v. integer_encoding integer_tag m (pos v) };

    ghost depth = { leaf_depth };

    ghost encodable = { λ v. v < 2 ^ 64 };

    fn encode_der(&self, writer: DERWriter<'_>) -> ASN1Result<()> {
        writer.write_u64(*self)
    }

    #[inline(always)]
    fn prepend_der(&self, out: &mut PrependBuffer) -> ASN1Result<()> {
        out.prepend_u64(TAG_INTEGER, *self)
    }

    #[inline(always)]
    fn encoded_len(&self, _mode: BERMode) -> Option<usize> {
        u64_len(TAG_INTEGER, *self)
    }
}

impl DERCanonical for u64 {
    ghost written = { unsigned_written 64 };
}

impl BERDecodable for u32 {
    ghost encodes = { EncodesUnsigned 32 };

    ghost elements = { Any (EncodesUnsigned 32) };

    ghost may_allocate = { false };

    ghost same = { λ v w. v ≡ w };

    fn decode_ber(reader: BERReader) -> ASN1Result<u32> {
        reader.read_u32()
    }

    ghost coding = { unsigned_coding 32 };
}

impl DEREncodable for u32 {
    ghost encoding = { λ m v. integer_encoding integer_tag m (pos v) };

    ghost depth = { leaf_depth };

    ghost encodable = { λ v. v < 2 ^ 32 };

    fn encode_der(&self, writer: DERWriter<'_>) -> ASN1Result<()> {
        writer.write_u32(*self)
    }

    #[inline(always)]
    fn prepend_der(&self, out: &mut PrependBuffer) -> ASN1Result<()> {
        out.prepend_i64(TAG_INTEGER, i64::from(*self))
    }

    #[inline(always)]
    fn encoded_len(&self, _mode: BERMode) -> Option<usize> {
        i64_len(TAG_INTEGER, i64::from(*self))
    }
}

impl DERCanonical for u32 {
    ghost written = { unsigned_written 32 };
}

impl BERDecodable for u16 {
    ghost encodes = { EncodesUnsigned 16 };

    ghost elements = { Any (EncodesUnsigned 16) };

    ghost may_allocate = { false };

    ghost same = { λ v w. v ≡ w };

    fn decode_ber(reader: BERReader) -> ASN1Result<u16> {
        reader.read_u16()
    }

    ghost coding = { unsigned_coding 16 };
}

impl DEREncodable for u16 {
    ghost encoding = { λ m v. integer_encoding integer_tag m (pos v) };

    ghost depth = { leaf_depth };

    ghost encodable = { λ v. v < 2 ^ 16 };

    fn encode_der(&self, writer: DERWriter<'_>) -> ASN1Result<()> {
        writer.write_u16(*self)
    }

    #[inline(always)]
    fn prepend_der(&self, out: &mut PrependBuffer) -> ASN1Result<()> {
        out.prepend_i64(TAG_INTEGER, i64::from(*self))
    }

    #[inline(always)]
    fn encoded_len(&self, _mode: BERMode) -> Option<usize> {
        i64_len(TAG_INTEGER, i64::from(*self))
    }
}

impl DERCanonical for u16 {
    ghost written = { unsigned_written 16 };
}
