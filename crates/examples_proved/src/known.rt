//! Calls whose closures are known: what they return follows from what the calls of `yasna` promise.
ghost use Rattle.std.specs.Prelude.{◌≡◌, ℤ, Bool, List, true, false, IfOk, IfErr, MatchResult};
ghost use Rattle.std.specs.Int.{w64};
ghost use Rattle.yasna.specs.Words.{Der, OutOfMemory, kind_of, Any, EncodesBoolean, Decodes, Step, Done, IsFresh, integer_tag};
ghost use Rattle.yasna.specs.Words.{part_of, EncodesSigned, integer_encoding, max_depth};
ghost use Rattle.examples_proved.specs.Pair.{EncodesPair, AnyPair};
ghost use Rattle.examples_proved.specs.Numbers.{EncodesNumbers, AnyNumbers};

use std::alloc::Global;
use yasna::{
    ASN1Result, BERDecodable, BERReader, BERReaderSeq, construct_der, parse_ber, parse_der,
};

/// The number whose DER encoding as an INTEGER these bytes are.
///
/// Rejects exactly the bytes that aren't the encoding of such a number.
pub fn parsed_integer(alloc: Global, buf: &[u8]) -> ASN1Result<i64>
    ensures number { IfOk result (λ v. EncodesSigned w64 Der max_depth v buf.now × (buf.now ≡ integer_encoding integer_tag Der v)) }
    ensures rejected { IfErr result (λ e. ((v : ℤ) → EncodesSigned w64 Der max_depth v buf.now → ⊥) × (kind_of e ≡ OutOfMemory → ⊥)) }
{
    parse_der(alloc, buf, |reader| reader.read_i64())
}

/// The DER encoding of a number as an INTEGER, or `OutOfMemory`.
pub fn constructed_integer(alloc: Global, number: i64) -> ASN1Result<Vec<u8>>
    ensures encoding { IfOk result (λ bytes. bytes.items ≡ integer_encoding integer_tag Der number) }
    ensures memory { IfErr result (λ e. kind_of e ≡ OutOfMemory) }
{
    construct_der(alloc, |writer| writer.write_i64(number))
}

/// The number and the flag whose DER encoding as a SEQUENCE these bytes are.
///
/// Rejects exactly the bytes that aren't the encoding of such a pair.
pub fn parsed_pair(alloc: Global, buf: &[u8]) -> ASN1Result<(i64, bool)>
    ensures pair { IfOk result (λ v. EncodesPair Der max_depth v buf.now) }
    ensures rejected { IfErr result (λ e. ((v : ℤ × Bool) → EncodesPair Der max_depth v buf.now → ⊥) × (kind_of e ≡ OutOfMemory → ⊥)) }
{
    parse_der(
        alloc,
        buf,
        |reader| -> ASN1Result<(i64, bool)>
            requires { IsFresh reader.old }
            ensures { Decodes false EncodesPair AnyPair reader.old result reader.new }
        {
            reader.read_sequence(
                |seq| -> ASN1Result<(i64, bool)>
                    requires { IsFresh (part_of seq.old) }
                    ensures { Step (Decodes false (EncodesSigned w64) (Any (EncodesSigned w64))) (λ number. Step (Decodes false EncodesBoolean (Any EncodesBoolean)) (λ flag. Done (number, flag))) (part_of seq.old) result (part_of seq.new) }
                {
                    let number = i64::decode_ber(seq.next())?;
                    let flag = bool::decode_ber(seq.next())?;
                    Ok((number, flag))
                },
            )
        },
    )
}

/// The numbers whose DER encoding as a SEQUENCE OF INTEGER these bytes are, in order.
///
/// Rejects exactly the bytes that aren't the encoding of such a list, unless memory runs out.
pub fn parsed_numbers(alloc: Global, buf: &[u8]) -> ASN1Result<Vec<i64>>
    ensures numbers { IfOk result (λ v. EncodesNumbers Der max_depth v.items buf.now) }
    ensures exactly { (vs : List ℤ) → EncodesNumbers Der max_depth vs buf.now → MatchResult result (λ v. v.items ≡ vs) (λ e. kind_of e ≡ OutOfMemory) }
{
    parse_der(
        alloc,
        buf,
        |reader| -> ASN1Result<Vec<i64>>
            requires { IsFresh reader.old }
            ensures { Decodes true (λ m n v b. EncodesNumbers m n v.items b) AnyNumbers reader.old result reader.new }
        { reader.collect_sequence_of(|item| item.read_i64()) },
    )
}

/// The third number of a SEQUENCE of three INTEGERs, where the other two are looked at by no one.
///
/// A failed read of one of them is returned by the read of the third, and by the parse.
pub fn third_number(alloc: Global, buf: &[u8]) -> ASN1Result<i64> {
    parse_ber(alloc, buf, read_third)
}

fn read_third(reader: BERReader) -> ASN1Result<i64> {
    reader.read_sequence(third_part)
}

fn third_part(parts: &mut BERReaderSeq) -> ASN1Result<i64>
    requires { IsFresh (part_of parts.old) }
{
    let _ = i64::decode_ber(parts.next());
    let _ = i64::decode_ber(parts.next());
    i64::decode_ber(parts.next())
}
