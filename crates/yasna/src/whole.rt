//! Whole inputs and outputs.
ghost use Rattle.std.specs.Prelude.{◌≡◌, ◌↔◌, ◌<◌, ◌≤◌, ◌^◌, ◌++◌, ℕ, List, [], length, IfOk, IfErr, MatchResult};
ghost use Rattle.yasna_base.specs.Grammar.{max_depth};
ghost use Rattle.yasna_base.specs.declared.mode.BERMode.{BERMode};
ghost use Rattle.yasna_base.specs.declared.error.ASN1ErrorKind.TheVariants.{OutOfMemory};
ghost use Rattle.yasna_base.specs.Error.{kind_of};
ghost use Rattle.yasna_base.specs.declared.mode.BERMode.TheVariants.{Ber, Der, Cer};
ghost use Rattle.yasna_reader.specs.Decodes.{Decoded};
ghost use Rattle.yasna_reader.specs.Parse.{Parses};

use crate::traits::{BERDecodable, DERCanonical, DEREncodable};
use std::alloc::Global;
use yasna_base::error::ASN1Result;
use yasna_base::mode::BERMode;
use yasna_reader::parse_ber_general;
use yasna_writer::{PrependBuffer, construct_cer, construct_der};

/// Reads a value from all of the bytes, in a mode.
///
/// An `Err` is the sticky error that `T::decode_ber` left on a reading of all the bytes, or else the one that it returned, or `Extra` if
/// it left some bytes.
pub fn decode_ber_general<T: BERDecodable>(
    alloc: Global,
    src: &[u8],
    mode: BERMode,
) -> ASN1Result<T>
    ensures decoded { Decoded T.may_allocate T.encodes T.elements mode src.now result }
    ensures parses { Parses T.reads mode src.now result }
    ensures exact { (v : T) → T.encodes mode max_depth v src.now → MatchResult result (λ w. T.same w v) (λ e. kind_of e ≡ OutOfMemory) }
{
    parse_ber_general(alloc, src, mode, |reader| T::decode_ber(reader))
}

/// Reads a value from all of the bytes, by the basic encoding rules (X.690, clause 8).
pub fn decode_ber<T: BERDecodable>(alloc: Global, src: &[u8]) -> ASN1Result<T>
    ensures decoded { Decoded T.may_allocate T.encodes T.elements Ber src.now result }
    ensures parses { Parses T.reads Ber src.now result }
    ensures exact { (v : T) → T.encodes Ber max_depth v src.now → MatchResult result (λ w. T.same w v) (λ e. kind_of e ≡ OutOfMemory) }
{
    decode_ber_general(alloc, src, BERMode::Ber)
}

/// Reads a value from all of the bytes, by the distinguished encoding rules (X.690, clause 10).
///
/// A value is returned only from its one DER encoding.
pub fn decode_der<T: BERDecodable>(alloc: Global, src: &[u8]) -> ASN1Result<T>
    ensures decoded { Decoded T.may_allocate T.encodes T.elements Der src.now result }
    ensures parses { Parses T.reads Der src.now result }
    ensures exact { (v : T) → T.encodes Der max_depth v src.now → MatchResult result (λ w. T.same w v) (λ e. kind_of e ≡ OutOfMemory) }
{
    decode_ber_general(alloc, src, BERMode::Der)
}

/// Reads a value from all of the bytes, by the canonical encoding rules (X.690, clause 9).
///
/// A value is returned only from its one CER encoding.
pub fn decode_cer<T: BERDecodable>(alloc: Global, src: &[u8]) -> ASN1Result<T>
    ensures decoded { Decoded T.may_allocate T.encodes T.elements Cer src.now result }
    ensures parses { Parses T.reads Cer src.now result }
    ensures exact { (v : T) → T.encodes Cer max_depth v src.now → MatchResult result (λ w. T.same w v) (λ e. kind_of e ≡ OutOfMemory) }
{
    decode_ber_general(alloc, src, BERMode::Cer)
}

/// The DER encoding of a value that has one, or `OutOfMemory`.
pub fn encode_der<T: DEREncodable>(alloc: Global, value: &T) -> ASN1Result<Vec<u8>>
    requires { T.encodable value.now }
    ensures encoding { IfOk result (λ bytes. bytes.items ≡ T.encoding Der value.now) }
    ensures memory { IfErr result (λ e. kind_of e ≡ OutOfMemory) }
{
    match value.encoded_len(BERMode::Der) {
        Some(len) => encode_backwards(alloc, value, BERMode::Der, len),
        None => construct_der(alloc, |writer| value.encode_der(writer)),
    }
}

/// The CER encoding of a value that has one, or `OutOfMemory`.
pub fn encode_cer<T: DEREncodable>(alloc: Global, value: &T) -> ASN1Result<Vec<u8>>
    requires { T.encodable value.now }
    ensures encoding { IfOk result (λ bytes. bytes.items ≡ T.encoding Cer value.now) }
    ensures memory { IfErr result (λ e. kind_of e ≡ OutOfMemory) }
{
    match value.encoded_len(BERMode::Cer) {
        Some(len) => encode_backwards(alloc, value, BERMode::Cer, len),
        None => construct_cer(alloc, |writer| value.encode_der(writer)),
    }
}

// The encoding of a value in a mode, of this length, from its last byte to its first.
#[inline(always)]
fn encode_backwards<T: DEREncodable>(
    alloc: Global,
    value: &T,
    mode: BERMode,
    len: usize,
) -> ASN1Result<Vec<u8>>
    requires { T.encodable value.now }
    ensures encoding { IfOk result (λ bytes. bytes.items ≡ T.encoding mode value.now) }
    ensures memory { IfErr result (λ e. kind_of e ≡ OutOfMemory) }
{
    let mut out = PrependBuffer::with_len(alloc, mode, len);
    value.prepend_der(&mut out)?;
    out.finish()
}

/// The theorem on DER, for every type that satisfies the laws.
///
/// DER reads a value only from its DER encoding, and BER reads it from that too. What BER reads has a DER encoding. Encodings are
/// unambiguous and prefix-free. All of this is within 101 levels.
pub fn one_encoding<T: DERCanonical>()
    ensures der { (v : T) (s : List ℕ) → length s < 2 ^ 64 → T.encodes Der max_depth v s ↔ (T.encodable v × (T.depth Der v ≤ max_depth) × (s ≡ T.encoding Der v)) }
    ensures ber { (v : T) → T.encodable v → T.depth Der v ≤ max_depth → length (T.encoding Der v) < 2 ^ 64 → T.encodes Ber max_depth v (T.encoding Der v) }
    ensures written { (v : T) (s : List ℕ) → T.encodes Ber max_depth v s → T.encodable v × (T.depth Der v ≤ max_depth) }
    ensures unique { (m : BERMode) (v w : T) (s r : List ℕ) → T.encodes m max_depth v s → T.encodes m max_depth w (s ++ r) → T.same v w × (r ≡ []) }
{}

/// The theorem on CER, for every type that satisfies the laws: CER reads a value only from its CER encoding, and BER reads it from that
/// too.
///
/// That encoding may be one level deeper than that of DER, where a string is cut into segments. In CER too, encodings are unambiguous
/// and prefix-free, as `one_encoding` says of each mode. All of this is within 101 levels.
pub fn one_encoding_cer<T: DERCanonical>()
    ensures cer { (v : T) (s : List ℕ) → length s < 2 ^ 64 → T.encodes Cer max_depth v s ↔ (T.encodable v × (T.depth Cer v ≤ max_depth) × (s ≡ T.encoding Cer v)) }
    ensures ber { (v : T) → T.encodable v → T.depth Cer v ≤ max_depth → length (T.encoding Cer v) < 2 ^ 64 → T.encodes Ber max_depth v (T.encoding Cer v) }
{}
