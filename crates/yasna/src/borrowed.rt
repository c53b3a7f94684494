//! Borrowed octets and texts: they are written as `Vec<u8>` and `String` are.
ghost use Rattle.std.specs.Str.{chars};
ghost use Rattle.yasna_base.specs.Canonical.{Always};
ghost use Rattle.yasna_base.specs.Digits.{IsBytes};
ghost use Rattle.yasna_base.specs.Octets.{octets_encoding, octets_depth, octets_tag};
ghost use Rattle.yasna_base.specs.Text.{utf8_encoding, utf8_depth, utf8_tag};

use crate::traits::DEREncodable;
use yasna_base::error::ASN1Result;
use yasna_base::mode::BERMode;
use yasna_base::tags::{TAG_OCTETSTRING, TAG_UTF8STRING};
use yasna_writer::{DERWriter, PrependBuffer, bytes_len, text_len};

impl<'a> DEREncodable for &'a [u8] {
    ghost encoding = { λ m v. octets_encoding octets_tag m v.now };

    ghost depth = { λ m v. octets_depth m v.now };

    ghost encodable = { λ v. IsBytes v.now };

    fn encode_der(&self, writer: DERWriter<'_>) -> ASN1Result<()> {
        writer.write_bytes(*self)
    }

    #[inline(always)]
    fn prepend_der(&self, out: &mut PrependBuffer) -> ASN1Result<()> {
        out.prepend_bytes(TAG_OCTETSTRING, *self)
    }

    #[inline(always)]
    fn encoded_len(&self, mode: BERMode) -> Option<usize> {
        bytes_len(mode, TAG_OCTETSTRING, *self)
    }
}

impl<'a> DEREncodable for &'a str {
    ghost encoding = { λ m v. utf8_encoding utf8_tag m (chars v.now) };

    ghost depth = { λ m v. utf8_depth m (chars v.now) };

    ghost encodable = { Always };

    fn encode_der(&self, writer: DERWriter<'_>) -> ASN1Result<()> {
        writer.write_utf8_string(*self)
    }

    #[inline(always)]
    fn prepend_der(&self, out: &mut PrependBuffer) -> ASN1Result<()> {
        out.prepend_text(TAG_UTF8STRING, *self)
    }

    #[inline(always)]
    fn encoded_len(&self, mode: BERMode) -> Option<usize> {
        text_len(mode, TAG_UTF8STRING, *self)
    }
}
