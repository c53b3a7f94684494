//! A user's type that is read by a closure, step by step.

ghost use Rattle.std.specs.Prelude.{◌≡◌, ◌<◌, ◌^◌, ◌||◌, false, pos, FitsSigned};
ghost use Rattle.std.specs.Int.{w64};
ghost use Rattle.yasna.specs.Words.{EncodesBoolean, boolean_encoding, leaf_depth, enclosed_encoding, enclosed_depth, Always, Any, Enclosed, boolean_tag, integer_tag};
ghost use Rattle.yasna.specs.Words.{AnyEnclosed, EncodesSigned, EncodesUnsigned, integer_encoding, sequence_tag, PartOf};
ghost use Rattle.yasna.specs.Words.{NoParts, AnyPart, AnyNothing, SamePart, SameNothing, part_encoding, part_depth, part_can};
ghost use Rattle.yasna.specs.Words.{nothing_encoding, nothing_depth, Decodes, Step, Done, IsFresh, part_of};
ghost use Rattle.yasna.proofs.Laws.{part, no_part, tuple, bool_coding, signed_coding, unsigned_coding};
ghost use Rattle.yasna.proofs.Laws.{part_written, no_part_written, tuple_written, bool_written, signed_written, unsigned_written};

use yasna::{
    ASN1Result, BERDecodable, BERReader, DERCanonical, DEREncodable, DERWriter, EncodableParts,
};

/// A count, whether it is the last, and a shift: a SEQUENCE of INTEGER, BOOLEAN and INTEGER.
#[derive(Drop)]
pub struct Sample {
    pub count: u32,
    pub last: bool,
    pub shift: i64,
}

impl BERDecodable for Sample {
    ghost encodes = { λ m n v b. Enclosed (PartOf (EncodesUnsigned 32) (PartOf EncodesBoolean (PartOf (EncodesSigned w64) NoParts))) sequence_tag m n (v.count, (v.last, (v.shift, tt))) b };

    ghost elements = { AnyEnclosed (AnyPart (Any (EncodesUnsigned 32)) (AnyPart (Any EncodesBoolean) (AnyPart (Any (EncodesSigned w64)) AnyNothing))) sequence_tag };

    ghost may_allocate = { (false || (false || (false || false))) };

    ghost same = { λ v w. SamePart (λ x y. x ≡ y) (SamePart (λ x y. x ≡ y) (SamePart (λ x y. x ≡ y) SameNothing)) (v.count, (v.last, (v.shift, tt))) (w.count, (w.last, (w.shift, tt))) };

    fn decode_ber(reader: BERReader) -> ASN1Result<Sample> {
        reader.read_sequence(
            |seq| -> ASN1Result<Sample>
                requires { IsFresh (part_of seq.old) }
                ensures { Step (Decodes false (EncodesUnsigned 32) (Any (EncodesUnsigned 32))) (λ count.
                    Step (Decodes false EncodesBoolean (Any EncodesBoolean)) (λ last.
                    Step (Decodes false (EncodesSigned w64) (Any (EncodesSigned w64))) (λ shift.
                    Done (record { count = count; last = last; shift = shift })))) (part_of seq.old) result (part_of seq.new) }
            {
                let count = u32::decode_ber(seq.next())?;
                let last = bool::decode_ber(seq.next())?;
                let shift = i64::decode_ber(seq.next())?;
                Ok(Sample { count, last, shift })
            },
        )
    }

    ghost coding = { tuple (λ v. (v.count, (v.last, (v.shift, tt)))) (part (unsigned_coding 32) (part bool_coding (part (signed_coding w64) no_part))) };
}

impl DEREncodable for Sample {
    ghost encoding = { λ m v. enclosed_encoding (part_encoding (λ m v. integer_encoding integer_tag m (pos v)) (part_encoding (boolean_encoding boolean_tag) (part_encoding (integer_encoding integer_tag) nothing_encoding))) sequence_tag m (v.count, (v.last, (v.shift, tt))) };

    ghost depth = { λ m v. enclosed_depth (part_depth leaf_depth (part_depth leaf_depth (part_depth leaf_depth nothing_depth))) m (v.count, (v.last, (v.shift, tt))) };

    ghost encodable = { λ v. part_can (λ n. n < 2 ^ 32) (part_can Always (part_can (FitsSigned w64) Always)) (v.count, (v.last, (v.shift, tt {0}))) };

    fn encode_der(&self, writer: DERWriter<'_>) -> ASN1Result<()> {
        writer.write_sequence(|seq| (self.count, (self.last, (self.shift, ()))).write_parts(seq))
    }
}

impl DERCanonical for Sample {
    ghost written = { tuple_written (λ v. (v.count, (v.last, (v.shift, tt)))) (part_written (unsigned_written 32) (part_written bool_written (part_written (signed_written w64) no_part_written))) };
}
