//! Elements of any tag, whose contents aren't given a type (X.690, 8.1).
ghost use Rattle.std.specs.Prelude.{◌≡◌, true};
ghost use Rattle.yasna_base.specs.Canonical.{Always, leaf_depth};
ghost use Rattle.yasna_base.specs.Coding.{Any};
ghost use Rattle.yasna_base.specs.Raw.{IsRaw};
ghost use Rattle.yasna_base.specs.SetWriting.{own_encoding};
ghost use Rattle.yasna_base.specs.TaggedDerValue.{raw_of};
ghost use Rattle.yasna_base.proofs.Coding.{along};
ghost use Rattle.yasna_base.proofs.Raw.{raw_coding};

use crate::traits::{BERDecodable, DEREncodable};
use yasna_base::error::ASN1Result;
use yasna_base::mode::BERMode;
use yasna_base::models::TaggedDerValue;
use yasna_reader::BERReader;
use yasna_writer::{DERWriter, PrependBuffer, tagged_der_len};

impl BERDecodable for TaggedDerValue {
    ghost encodes = { λ m n v b. IsRaw m n (raw_of v) b };

    ghost elements = { Any IsRaw };

    ghost may_allocate = { true };

    ghost same = { λ v w. raw_of v ≡ raw_of w };

    fn decode_ber(reader: BERReader) -> ASN1Result<TaggedDerValue> {
        reader.read_tagged_der()
    }

    ghost coding = { along raw_of raw_coding };
}

/// It is written as it came, so one that BER read with indefinite length isn't an element of DER. Its depth isn't counted.
impl DEREncodable for TaggedDerValue {
    ghost encoding = { λ m v. own_encoding m (raw_of v) };

    ghost depth = { leaf_depth };

    ghost encodable = { Always };

    fn encode_der(&self, writer: DERWriter<'_>) -> ASN1Result<()> {
        writer.write_tagged_der(self)
    }

    #[inline(always)]
    fn prepend_der(&self, out: &mut PrependBuffer) -> ASN1Result<()> {
        out.prepend_tagged_der(self.tag(), self)
    }

    #[inline(always)]
    fn encoded_len(&self, mode: BERMode) -> Option<usize> {
        tagged_der_len(mode, self.tag(), self)
    }
}
