//! AlgorithmIdentifier and SubjectPublicKeyInfo (RFC 5280, 4.1), of which one part may be omitted and is of any type.
//!
//! Neither has DERCanonical, since what BER reads of them has no one encoding. Parameters are kept as the bytes that came, and
//! are written so: where lengths within them are indefinite, DER doesn't read what is written. And BER takes any bits
//! where a BIT STRING has unused ones, while zeros are written there.
ghost use Rattle.std.specs.Prelude.{◌≡◌, ◌↔◌, true, false, ◌||◌, ◌⊎◌, IfOk, IfErr, IsTrue};
ghost use Rattle.yasna.specs.Words.{Invalid, OutOfMemory, Der, IsBits, IsDeepBits, bits_encoding, bits_depth, leaf_depth, enclosed_encoding, bits_tag, oid_tag};
ghost use Rattle.yasna.specs.Words.{enclosed_depth, Always, Any, Enclosed, AnyEnclosed, kind_of, EncodesOid};
ghost use Rattle.yasna.specs.Words.{IsEncodableOid, oid_encoding, option_encoding, option_depth, option_can, IsRaw, raw_encoding, sequence_tag};
ghost use Rattle.yasna.specs.Words.{PartOf, NoParts, AnyPart, AnyNothing, SamePart, SameNothing, part_encoding, part_depth, part_can};
ghost use Rattle.yasna.specs.Words.{nothing_encoding, nothing_depth, raw_of, MayAllocate, Decodes, Step, Done, ReadsOptional};
ghost use Rattle.yasna.specs.Words.{ReadsSeen, ReadsRaw, bits_in, IsFresh, part_of};
ghost use Rattle.yasna.proofs.Laws.{bit_string_coding, no_part, part, tuple};
ghost use Rattle.examples_proved.specs.Algorithm.{FillsItsBytes, EncodesAlgorithm, AnyAlgorithm, SameAlgorithm, algorithm_coding};

use std::alloc::Global;
use yasna::models::{ObjectIdentifier, TaggedDerValue};
use yasna::{
    ASN1Error, ASN1ErrorKind, ASN1Result, BERDecodable, BERReader, DEREncodable, DERWriter,
    EncodableParts, encode_der,
};

/// An algorithm, and its parameters, of a type that the algorithm says: a SEQUENCE of OBJECT IDENTIFIER and of any element,
/// which may be omitted.
#[derive(Drop)]
pub struct AlgorithmIdentifier {
    pub algorithm: ObjectIdentifier,
    pub parameters: Option<TaggedDerValue>,
}

impl BERDecodable for AlgorithmIdentifier {
    ghost encodes = { EncodesAlgorithm };

    ghost elements = { AnyAlgorithm };

    ghost may_allocate = { (true || (true || false)) };

    ghost same = { SameAlgorithm };

    fn decode_ber(reader: BERReader) -> ASN1Result<AlgorithmIdentifier> {
        reader.read_sequence(
            |seq| -> ASN1Result<AlgorithmIdentifier>
                requires { IsFresh (part_of seq.old) }
                ensures { Step (Decodes true EncodesOid (Any EncodesOid)) (λ algorithm. Step (ReadsOptional (ReadsRaw IsRaw raw_of)) (λ parameters. Done (record { algorithm = algorithm; parameters = parameters }))) (part_of seq.old) result (part_of seq.new) }
            {
                let algorithm = ObjectIdentifier::decode_ber(seq.next())?;
                let parameters = seq.read_optional(|part| part.read_tagged_der())?;
                Ok(AlgorithmIdentifier {
                    algorithm,
                    parameters,
                })
            },
        )
    }

    ghost coding = { algorithm_coding };
}

// Of parameters only the outermost level is counted: they aren't descended into.
impl DEREncodable for AlgorithmIdentifier {
    ghost encoding = { λ m v. enclosed_encoding (part_encoding (oid_encoding oid_tag) (part_encoding (option_encoding (λ m v. raw_encoding (raw_of v).tag m (raw_of v))) nothing_encoding)) sequence_tag m (v.algorithm, (v.parameters, tt)) };

    ghost depth = { λ m v. enclosed_depth (part_depth leaf_depth (part_depth (option_depth leaf_depth) nothing_depth)) m (v.algorithm, (v.parameters, tt)) };

    ghost encodable = { λ v. part_can IsEncodableOid (part_can (option_can Always) Always) (v.algorithm, (v.parameters, tt {0})) };

    fn encode_der(&self, writer: DERWriter<'_>) -> ASN1Result<()> {
        match &self.parameters {
            Some(parameters) => {
                writer.write_sequence(|seq| (&self.algorithm, (parameters, ())).write_parts(seq))
            }
            None => writer.write_sequence(|seq| self.algorithm.encode_der(seq.next())),
        }
    }
}

/// A key, and the algorithm that it is for: a SEQUENCE of AlgorithmIdentifier and BIT STRING.
#[derive(Drop)]
pub struct SubjectPublicKeyInfo {
    pub algorithm: AlgorithmIdentifier,
    /// The bytes that hold the bits of the key.
    pub key: Vec<u8>,
    /// The count of bits.
    pub bits: usize,
}

impl BERDecodable for SubjectPublicKeyInfo {
    ghost encodes = { λ m n v b. Enclosed (PartOf EncodesAlgorithm (PartOf (λ m n v b. IsBits bits_tag m n (bits_in v) b) NoParts)) sequence_tag m n (v.algorithm, ((v.key, v.bits), tt)) b };

    ghost elements = { AnyEnclosed (AnyPart AnyAlgorithm (AnyPart (Any (IsBits bits_tag)) AnyNothing)) sequence_tag };

    ghost may_allocate = { (true || (true || false)) };

    ghost same = { λ v w. SamePart SameAlgorithm (SamePart (λ x y. bits_in x ≡ bits_in y) SameNothing) (v.algorithm, ((v.key, v.bits), tt)) (w.algorithm, ((w.key, w.bits), tt)) };

    fn decode_ber(reader: BERReader) -> ASN1Result<SubjectPublicKeyInfo> {
        reader.read_sequence(
            |seq| -> ASN1Result<SubjectPublicKeyInfo>
                requires { IsFresh (part_of seq.old) }
                ensures { Step (Decodes true EncodesAlgorithm AnyAlgorithm) (λ algorithm. Step (ReadsSeen IsBits bits_in IsDeepBits MayAllocate bits_tag) (λ bits. Done (record { algorithm = algorithm; key = bits.0; bits = bits.1 }))) (part_of seq.old) result (part_of seq.new) }
            {
                let algorithm = AlgorithmIdentifier::decode_ber(seq.next())?;
                let (key, bits) = seq.next().read_bitvec_bytes()?;
                Ok(SubjectPublicKeyInfo {
                    algorithm,
                    key,
                    bits,
                })
            },
        )
    }

    ghost coding = { tuple (λ v. (v.algorithm, ((v.key, v.bits), tt))) (part algorithm_coding (part bit_string_coding no_part)) };
}

// What can be written has as many bytes as its bits need.
impl DEREncodable for SubjectPublicKeyInfo {
    ghost encoding = { λ m v. enclosed_encoding (part_encoding ⟦<AlgorithmIdentifier as DEREncodable>⟧.encoding (part_encoding (λ m v. bits_encoding bits_tag m (bits_in v)) nothing_encoding)) sequence_tag m (v.algorithm, ((v.key, v.bits), tt)) };

    ghost depth = { λ m v. enclosed_depth (part_depth ⟦<AlgorithmIdentifier as DEREncodable>⟧.depth (part_depth (λ m x. bits_depth m (bits_in x)) nothing_depth)) m (v.algorithm, ((v.key, v.bits), tt)) };

    ghost encodable = { λ v. part_can ⟦<AlgorithmIdentifier as DEREncodable>⟧.encodable (part_can (λ x. FillsItsBytes (bits_in x)) Always) (v.algorithm, ((v.key, v.bits), tt {0})) };

    fn encode_der(&self, writer: DERWriter<'_>) -> ASN1Result<()> {
        writer.write_sequence(|seq| {
            self.algorithm.encode_der(seq.next())?;
            seq.next().write_bitvec_bytes(&self.key, self.bits)
        })
    }
}

impl SubjectPublicKeyInfo {
    /// Whether a key has a DER encoding: its algorithm's name has one, and there are as many bytes as the bits need.
    pub fn is_encodable(&self) -> bool
        ensures { IsTrue result ↔ ⟦<SubjectPublicKeyInfo as DEREncodable>⟧.encodable self.now }
    {
        let whole = self.bits / 8;
        let bytes = if self.bits % 8 == 0 { whole } else { whole + 1 };
        self.algorithm.algorithm.is_encodable() && self.key.len() == bytes
    }
}

/// The DER encoding of a key, or `Invalid` if it has none, or `OutOfMemory`.
pub fn encoded_key(alloc: Global, key: &SubjectPublicKeyInfo) -> ASN1Result<Vec<u8>>
    ensures ok { IfOk result (λ bytes. ⟦<SubjectPublicKeyInfo as DEREncodable>⟧.encodable key.now × (bytes.items ≡ ⟦<SubjectPublicKeyInfo as DEREncodable>⟧.encoding Der key.now)) }
    ensures err { IfErr result (λ e. (kind_of e ≡ OutOfMemory) ⊎ ((kind_of e ≡ Invalid) × (⟦<SubjectPublicKeyInfo as DEREncodable>⟧.encodable key.now → ⊥))) }
{
    if !key.is_encodable() {
        return Err(ASN1Error::new(ASN1ErrorKind::Invalid));
    }
    encode_der(alloc, key)
}
