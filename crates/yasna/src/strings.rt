//! OCTET STRING and UTF8String as the types of Rust that hold them (X.690, 8.7 and 8.23).
ghost use Rattle.std.specs.Prelude.{◌≡◌, true};
ghost use Rattle.yasna_base.specs.Canonical.{Always};
ghost use Rattle.yasna_base.specs.Coding.{Any};
ghost use Rattle.yasna_base.specs.Digits.{IsBytes};
ghost use Rattle.yasna_base.specs.Octets.{EncodesOctets, EncodesVec, octets_encoding, octets_depth, octets_tag};
ghost use Rattle.yasna_base.specs.Text.{EncodesText, EncodesString, utf8_encoding, utf8_depth, characters, utf8_tag};
ghost use Rattle.yasna_base.proofs.Octets.{vec_coding, vec_written};
ghost use Rattle.yasna_base.proofs.Texts.{text_coding, text_written};

use crate::traits::{BERDecodable, DERCanonical, DEREncodable};
use yasna_base::error::ASN1Result;
use yasna_base::mode::BERMode;
use yasna_base::tags::{TAG_OCTETSTRING, TAG_UTF8STRING};
use yasna_reader::BERReader;
use yasna_writer::{DERWriter, PrependBuffer, bytes_len, text_len};

impl BERDecodable for Vec<u8> {
    ghost encodes = { EncodesVec };

    ghost elements = { Any EncodesOctets };

    ghost may_allocate = { true };

    ghost same = { λ v w. v.items ≡ w.items };

    fn decode_ber(reader: BERReader) -> ASN1Result<Vec<u8>> {
        reader.read_bytes()
    }

    ghost coding = { vec_coding };
}

impl DEREncodable for Vec<u8> {
    ghost encoding = { λ m v. octets_encoding octets_tag m v.items };

    ghost depth = { λ m v. octets_depth m v.items };

    ghost encodable = { λ v. IsBytes v.items };

    fn encode_der(&self, writer: DERWriter<'_>) -> ASN1Result<()> {
        writer.write_bytes(self.as_slice())
    }

    #[inline(always)]
    fn prepend_der(&self, out: &mut PrependBuffer) -> ASN1Result<()> {
        out.prepend_bytes(TAG_OCTETSTRING, self.as_slice())
    }

    #[inline(always)]
    fn encoded_len(&self, mode: BERMode) -> Option<usize> {
        bytes_len(mode, TAG_OCTETSTRING, self.as_slice())
    }
}

impl DERCanonical for Vec<u8> {
    ghost written = { vec_written };
}

impl BERDecodable for String {
    ghost encodes = { EncodesString };

    ghost elements = { Any EncodesText };

    ghost may_allocate = { true };

    ghost same = { λ v w. characters v ≡ characters w };

    fn decode_ber(reader: BERReader) -> ASN1Result<String> {
        reader.read_utf8string()
    }

    ghost coding = { text_coding };
}

impl DEREncodable for String {
    ghost encoding = { λ m v. utf8_encoding utf8_tag m (characters v) };

    ghost depth = { λ m v. utf8_depth m (characters v) };

    ghost encodable = { Always };

    fn encode_der(&self, writer: DERWriter<'_>) -> ASN1Result<()> {
        writer.write_utf8_string(self.as_str())
    }

    #[inline(always)]
    fn prepend_der(&self, out: &mut PrependBuffer) -> ASN1Result<()> {
        out.prepend_text(TAG_UTF8STRING, self.as_str())
    }

    #[inline(always)]
    fn encoded_len(&self, mode: BERMode) -> Option<usize> {
        text_len(mode, TAG_UTF8STRING, self.as_str())
    }
}

impl DERCanonical for String {
    ghost written = { text_written };
}
