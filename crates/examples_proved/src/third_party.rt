//! Types of a separate crate that are read step by step, with typed reads and with allocation.
ghost use Rattle.std.specs.Prelude.{IfOk, IfErr, ◌≡◌, ◌<◌, ◌^◌, true, false, ◌||◌, pos, FitsSigned};
ghost use Rattle.std.specs.Int.{w64};
ghost use Rattle.yasna.specs.Words.{OutOfMemory, Ber, Der, kind_of, Any, IsBytes, EncodesOctets, EncodesVec, boolean_tag, integer_tag, utf8_tag};
ghost use Rattle.yasna.specs.Words.{octets_tag, octets_encoding, octets_depth, EncodesText, EncodesString, characters, utf8_encoding};
ghost use Rattle.yasna.specs.Words.{utf8_depth, sequence_tag, PartOf, NoParts, AnyPart, AnyNothing, SamePart, SameNothing};
ghost use Rattle.yasna.specs.Words.{Enclosed, AnyEnclosed, Primitively, EncodesBoolean, IsUnsigned, EncodesSigned};
ghost use Rattle.yasna.specs.Words.{EncodesUnsigned, integer_encoding, Decodes, Step, Done, boolean_encoding, leaf_depth, enclosed_encoding};
ghost use Rattle.yasna.specs.Words.{enclosed_depth, Always, part_encoding, part_depth, part_can, nothing_encoding, nothing_depth, NeverAllocates};
ghost use Rattle.yasna.specs.Words.{Reads, NoLevel, IsFresh, max_depth, part_of};
ghost use Rattle.yasna.proofs.Laws.{part, no_part, tuple, bool_coding, signed_coding, unsigned_coding, vec_coding, text_coding};
ghost use Rattle.yasna.proofs.Laws.{part_written, no_part_written, tuple_written, bool_written, signed_written, unsigned_written, vec_written, text_written};

use std::alloc::Global;
use yasna::{
    ASN1Result, BERDecodable, BERReader, DERCanonical, DEREncodable, DERWriter, EncodableParts,
    decode_ber, encode_der,
};

/// A version's number, and whether a flag is set: a SEQUENCE of INTEGER and BOOLEAN.
#[derive(Drop)]
pub struct Version {
    pub major: u16,
    pub flag: bool,
}

impl BERDecodable for Version {
    ghost encodes = { λ m n v b. Enclosed (PartOf (EncodesUnsigned 16) (PartOf EncodesBoolean NoParts)) sequence_tag m n (v.major, (v.flag, tt)) b };

    ghost elements = { AnyEnclosed (AnyPart (Any (EncodesUnsigned 16)) (AnyPart (Any EncodesBoolean) AnyNothing)) sequence_tag };

    ghost may_allocate = { (false || (false || false)) };

    ghost same = { λ v w. SamePart (λ x y. x ≡ y) (SamePart (λ x y. x ≡ y) SameNothing) (v.major, (v.flag, tt)) (w.major, (w.flag, tt)) };

    fn decode_ber(reader: BERReader) -> ASN1Result<Version> {
        reader.read_sequence(
            |seq| -> ASN1Result<Version>
                requires { IsFresh (part_of seq.old) }
                ensures { Step (Reads (Primitively (IsUnsigned 16)) NoLevel NeverAllocates integer_tag) (λ major. Step (Decodes false EncodesBoolean (Any EncodesBoolean)) (λ flag. Done (record { major = major; flag = flag }))) (part_of seq.old) result (part_of seq.new) }
            {
                let major = seq.next().read_u16()?;
                let flag = bool::decode_ber(seq.next())?;
                Ok(Version { major, flag })
            },
        )
    }

    ghost coding = { tuple (λ v. (v.major, (v.flag, tt))) (part (unsigned_coding 16) (part bool_coding no_part)) };
}

impl DEREncodable for Version {
    ghost encoding = { λ m v. enclosed_encoding (part_encoding (λ m v. integer_encoding integer_tag m (pos v)) (part_encoding (boolean_encoding boolean_tag) nothing_encoding)) sequence_tag m (v.major, (v.flag, tt)) };

    ghost depth = { λ m v. enclosed_depth (part_depth leaf_depth (part_depth leaf_depth nothing_depth)) m (v.major, (v.flag, tt)) };

    ghost encodable = { λ v. part_can (λ n. n < 2 ^ 16) (part_can Always Always) (v.major, (v.flag, tt {0})) };

    fn encode_der(&self, writer: DERWriter<'_>) -> ASN1Result<()> {
        writer.write_sequence(|seq| (self.major, (self.flag, ())).write_parts(seq))
    }
}

impl DERCanonical for Version {
    ghost written = { tuple_written (λ v. (v.major, (v.flag, tt))) (part_written (unsigned_written 16) (part_written bool_written no_part_written)) };
}

/// A name, the bytes that came under it, and the number that they represent: a SEQUENCE of UTF8String, OCTET STRING and
/// INTEGER.
#[derive(Drop)]
pub struct Report {
    pub name: String,
    pub raw: Vec<u8>,
    pub number: i64,
}

impl BERDecodable for Report {
    ghost encodes = { λ m n v b. Enclosed (PartOf EncodesString (PartOf EncodesVec (PartOf (EncodesSigned w64) NoParts))) sequence_tag m n (v.name, (v.raw, (v.number, tt))) b };

    ghost elements = { AnyEnclosed (AnyPart (Any EncodesText) (AnyPart (Any EncodesOctets) (AnyPart (Any (EncodesSigned w64)) AnyNothing))) sequence_tag };

    ghost may_allocate = { (true || (true || (false || false))) };

    ghost same = { λ v w. SamePart (λ x y. characters x ≡ characters y) (SamePart (λ x y. x.items ≡ y.items) (SamePart (λ x y. x ≡ y) SameNothing)) (v.name, (v.raw, (v.number, tt))) (w.name, (w.raw, (w.number, tt))) };

    fn decode_ber(reader: BERReader) -> ASN1Result<Report> {
        reader.read_sequence(
            |seq| -> ASN1Result<Report>
                requires { IsFresh (part_of seq.old) }
                ensures { Step (Decodes true EncodesString (Any EncodesText)) (λ name.
                    Step (Decodes true EncodesVec (Any EncodesOctets)) (λ raw.
                    Step (Decodes false (EncodesSigned w64) (Any (EncodesSigned w64))) (λ number.
                    Done (record { name = name; raw = raw; number = number })))) (part_of seq.old) result (part_of seq.new) }
            {
                let name = String::decode_ber(seq.next())?;
                let raw = Vec::<u8>::decode_ber(seq.next())?;
                let number = i64::decode_ber(seq.next())?;
                Ok(Report { name, raw, number })
            },
        )
    }

    ghost coding = { tuple (λ v. (v.name, (v.raw, (v.number, tt)))) (part text_coding (part vec_coding (part (signed_coding w64) no_part))) };
}

impl DEREncodable for Report {
    ghost encoding = { λ m v. enclosed_encoding (part_encoding (λ m s. utf8_encoding utf8_tag m (characters s)) (part_encoding (λ m r. octets_encoding octets_tag m r.items) (part_encoding (integer_encoding integer_tag) nothing_encoding))) sequence_tag m (v.name, (v.raw, (v.number, tt))) };

    ghost depth = { λ m v. enclosed_depth (part_depth (λ m s. utf8_depth m (characters s)) (part_depth (λ m r. octets_depth m r.items) (part_depth leaf_depth nothing_depth))) m (v.name, (v.raw, (v.number, tt))) };

    ghost encodable = { λ v. part_can Always (part_can (λ r. IsBytes r.items) (part_can (FitsSigned w64) Always)) (v.name, (v.raw, (v.number, tt {0}))) };

    fn encode_der(&self, writer: DERWriter<'_>) -> ASN1Result<()> {
        writer.write_sequence(|seq| (&self.name, (&self.raw, (self.number, ()))).write_parts(seq))
    }
}

impl DERCanonical for Report {
    ghost written = { tuple_written (λ v. (v.name, (v.raw, (v.number, tt)))) (part_written text_written (part_written vec_written (part_written (signed_written w64) no_part_written))) };
}

/// The DER encoding of a report that is given part by part.
pub fn encoded_report(alloc: Global, name: String, raw: Vec<u8>, number: i64) -> ASN1Result<Vec<u8>>
    ensures encoding { IfOk result (λ bytes. bytes.items ≡ ⟦<Report as DEREncodable>⟧.encoding Der (record { name = name; raw = raw; number = number })) }
    ensures memory { IfErr result (λ e. kind_of e ≡ OutOfMemory) }
{
    encode_der(alloc, &Report { name, raw, number })
}

/// The DER encoding of a value that these bytes are in BER. What was read can be written, by the law of `DERCanonical`.
pub fn normalized<T: DERCanonical>(alloc: Global, src: &[u8]) -> ASN1Result<Vec<u8>>
    ensures encoding { IfOk result (λ bytes. (v : T) × T.encodes Ber max_depth v src.now × (bytes.items ≡ T.encoding Der v)) }
    ensures rejected { IfErr result (λ e. (kind_of e ≡ OutOfMemory → ⊥) → (v : T) → T.encodes Ber max_depth v src.now → ⊥) }
{
    let value: T = decode_ber(alloc, src)?;
    encode_der(alloc, &value)
}

/// The DER encoding of a report that these bytes are in BER.
pub fn normalized_report(alloc: Global, src: &[u8]) -> ASN1Result<Vec<u8>>
    ensures encoding { IfOk result (λ bytes. (v : Report) × ⟦<Report as BERDecodable>⟧.encodes Ber max_depth v src.now × (bytes.items ≡ ⟦<Report as DEREncodable>⟧.encoding Der v)) }
    ensures rejected { IfErr result (λ e. (kind_of e ≡ OutOfMemory → ⊥) → (v : Report) → ⟦<Report as BERDecodable>⟧.encodes Ber max_depth v src.now → ⊥) }
{
    normalized::<Report>(alloc, src)
}
