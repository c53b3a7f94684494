//! Types that are written by other means than one call: one allocates first, one may write nothing.
ghost use Rattle.std.specs.Prelude.{◌≡◌, ◌<◌, ◌^◌, pos, true, reverse, FitsSigned};
ghost use Rattle.std.specs.Int.{w64};
ghost use Rattle.std.specs.List.{AllByRecursion};
ghost use Rattle.yasna.specs.Words.{leaf_depth, enclosed_encoding, enclosed_depth, Any, EncodesSigned, integer_encoding, integer_tag};
ghost use Rattle.yasna.specs.Words.{option_encoding, option_depth, option_can, Each, sequence_tag, IsListOf, AnyListOf, elements_encoding};
ghost use Rattle.yasna.specs.Words.{elements_depth};
ghost use Rattle.yasna.proofs.Laws.{list_along, list_written, signed_coding, signed_written};

use yasna::{
    ASN1Error, ASN1ErrorKind, ASN1Result, BERDecodable, BERReader, DERCanonical, DEREncodable,
    DERWriter,
};

/// The steps of a way, stored from the last to the first: a SEQUENCE OF INTEGER from the first to the last.
#[derive(Drop)]
pub struct Trail {
    pub steps: Vec<i64>,
}

impl BERDecodable for Trail {
    ghost encodes = { λ m n v b. IsListOf (EncodesSigned w64) sequence_tag m n (reverse v.steps.items) b };

    ghost elements = { AnyListOf (Any (EncodesSigned w64)) sequence_tag };

    ghost may_allocate = { true };

    ghost same = { λ v w. Each (λ x y. x ≡ y) (reverse v.steps.items) (reverse w.steps.items) };

    fn decode_ber(reader: BERReader) -> ASN1Result<Trail> {
        match <Vec<i64>>::decode_ber(reader) {
            Ok(mut steps) => {
                steps.as_mut_slice().reverse();
                Ok(Trail { steps })
            }
            Err(error) => Err(error),
        }
    }

    ghost coding = { list_along (λ v. reverse v.steps.items) (signed_coding w64) };
}

impl DEREncodable for Trail {
    ghost encoding = { λ m v. enclosed_encoding (elements_encoding (integer_encoding integer_tag)) sequence_tag m (reverse v.steps.items) };

    ghost depth = { λ m v. enclosed_depth (elements_depth leaf_depth) m (reverse v.steps.items) };

    ghost encodable = { λ v. AllByRecursion (FitsSigned w64) (reverse v.steps.items) };

    fn encode_der(&self, writer: DERWriter<'_>) -> ASN1Result<()> {
        let Ok(mut steps) = Vec::from_slice(*self.steps.allocator(), self.steps.as_slice()) else {
            return Err(ASN1Error::new(ASN1ErrorKind::OutOfMemory));
        };
        steps.as_mut_slice().reverse();
        steps.encode_der(writer)
    }
}

impl DERCanonical for Trail {
    ghost written = { list_written (λ v. reverse v.steps.items) (signed_written w64) };
}

/// A number that is written as an INTEGER, or not at all: a part of a SEQUENCE that may be omitted.
///
/// It isn't read as a whole: no bytes are the beginning of any.
#[derive(Drop)]
pub struct Serial {
    pub number: Option<u64>,
}

impl DEREncodable for Serial {
    ghost encoding = { λ m v. option_encoding (λ m n. integer_encoding integer_tag m (pos n)) m v.number };

    ghost depth = { λ m v. option_depth leaf_depth m v.number };

    ghost encodable = { λ v. option_can (λ n. n < 2 ^ 64) v.number };

    fn encode_der(&self, writer: DERWriter<'_>) -> ASN1Result<()> {
        match self.number {
            Some(number) => writer.write_u64(number),
            None => Ok(()),
        }
    }
}
