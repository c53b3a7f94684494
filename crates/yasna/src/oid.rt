//! OBJECT IDENTIFIER (X.690, 8.19).
ghost use Rattle.std.specs.Prelude.{◌≡◌, true};
ghost use Rattle.yasna_base.specs.Canonical.{leaf_depth};
ghost use Rattle.yasna_base.specs.Coding.{Any};
ghost use Rattle.yasna_base.specs.Oid.{EncodesOid, IsEncodableOid, oid_encoding, oid_tag};
ghost use Rattle.yasna_base.proofs.Oid.{oid_coding, oid_written};

use crate::traits::{BERDecodable, DERCanonical, DEREncodable};
use yasna_base::error::ASN1Result;
use yasna_base::mode::BERMode;
use yasna_base::models::ObjectIdentifier;
use yasna_base::tags::TAG_OID;
use yasna_reader::BERReader;
use yasna_writer::{DERWriter, PrependBuffer, oid_len};

impl BERDecodable for ObjectIdentifier {
    ghost encodes = { EncodesOid };

    ghost elements = { Any EncodesOid };

    ghost may_allocate = { true };

    ghost same = { λ v w. v ≡ w };

    fn decode_ber(reader: BERReader) -> ASN1Result<ObjectIdentifier> {
        reader.read_oid()
    }

    ghost coding = { oid_coding };
}

impl DEREncodable for ObjectIdentifier {
    ghost encoding = { oid_encoding oid_tag };

    ghost depth = { leaf_depth };

    ghost encodable = { IsEncodableOid };

    fn encode_der(&self, writer: DERWriter<'_>) -> ASN1Result<()> {
        writer.write_oid(self)
    }

    #[inline(always)]
    fn prepend_der(&self, out: &mut PrependBuffer) -> ASN1Result<()> {
        out.prepend_oid(TAG_OID, self)
    }

    #[inline(always)]
    fn encoded_len(&self, _mode: BERMode) -> Option<usize> {
        oid_len(TAG_OID, self)
    }
}

impl DERCanonical for ObjectIdentifier {
    ghost written = { oid_written };
}
