//! Calls that read.
ghost use Rattle.std.specs.Prelude.{◌≡◌, if◌then◌else◌};
ghost use Rattle.yasna.specs.base.declared.mode.BERMode.TheVariants.{Ber, Der};

use crate::{length, mixed, number_of};
use std::alloc::Global;
use yasna::{
    ASN1Result, BERMode, BERReader, BERReaderSeq, Tag, decode_ber_general, parse_ber_general,
};

// The mode to read in.
pub(crate) fn mode(der: bool) -> BERMode
    ensures { result ≡ (if der then Der else Ber) }
{
    if der { BERMode::Der } else { BERMode::Ber }
}

/// The checksum that `read` returns of `count` parts of a SEQUENCE.
#[inline(always)]
pub(crate) fn of_parts<F>(alloc: Global, bytes: &[u8], count: usize, der: bool, read: F) -> u64
where
    F: FnOnce(&mut BERReaderSeq, usize) -> ASN1Result<u64>,
    requires { F.IsAlwaysCallable read }
{
    number_of(parse_ber_general(
        alloc,
        bytes,
        mode(der),
        |reader| reader.read_sequence(|seq| read(seq, count)),
    ))
}

/// The checksum of a pair, decoded as a whole.
#[unsafe(no_mangle)]
pub extern "C" fn yasna_decode_pair(alloc: Global, bytes: &[u8], der: bool) -> u64 {
    number_of(decode_ber_general(alloc, bytes, mode(der)).map(pair_checksum))
}

// The checksum of a pair.
fn pair_checksum(pair: (i64, bool)) -> u64 {
    let (number, flag) = pair;
    mixed(u64::from(flag), number)
}

/// The checksum of `count` numbers in a SEQUENCE, as they are read.
#[unsafe(no_mangle)]
pub extern "C" fn yasna_read_integers(alloc: Global, bytes: &[u8], count: usize, der: bool) -> u64 {
    of_parts(alloc, bytes, count, der, integers)
}

// The checksum of `count` numbers.
fn integers(seq: &mut BERReaderSeq, count: usize) -> ASN1Result<u64> {
    let mut checksum = 0;
    for _ in 0..count {
        checksum = mixed(checksum, seq.next().read_i64()?);
    }
    Ok(checksum)
}

/// The checksum of the numbers of a SEQUENCE OF, which are collected first.
#[unsafe(no_mangle)]
pub extern "C" fn yasna_list_integers(alloc: Global, bytes: &[u8], der: bool) -> u64 {
    let list = parse_ber_general(
        alloc,
        bytes,
        mode(der),
        |reader| reader.collect_sequence_of(|item| item.read_i64()),
    );
    number_of(list.map(|numbers| list_checksum(&numbers)))
}

// The checksum of a list of numbers.
pub(crate) fn list_checksum(numbers: &[i64]) -> u64 {
    let mut checksum = 0;
    for number in numbers {
        checksum = mixed(checksum, *number);
    }
    checksum
}

/// The checksum of `count` pairs in a SEQUENCE.
#[unsafe(no_mangle)]
pub extern "C" fn yasna_read_pairs(alloc: Global, bytes: &[u8], count: usize, der: bool) -> u64 {
    of_parts(alloc, bytes, count, der, pairs)
}

// The checksum of `count` pairs.
fn pairs(seq: &mut BERReaderSeq, count: usize) -> ASN1Result<u64> {
    let mut checksum = 0;
    for _ in 0..count {
        let pair = seq.next().read_sequence(|parts| {
            let number = parts.next().read_i64()?;
            let flag = parts.next().read_bool()?;
            Ok((number, flag))
        })?;
        checksum = mixed(checksum, pair_checksum(pair).cast_signed());
    }
    Ok(checksum)
}

/// The checksum of `count` pairs in a SEQUENCE, whose parts are optional, after an omitted part.
#[unsafe(no_mangle)]
pub extern "C" fn yasna_read_options(alloc: Global, bytes: &[u8], count: usize, der: bool) -> u64 {
    of_parts(alloc, bytes, count, der, options)
}

// The checksum of `count` pairs of optional parts.
fn options(seq: &mut BERReaderSeq, count: usize) -> ASN1Result<u64> {
    let mut checksum = 0;
    for _ in 0..count {
        let pair = seq.next().read_sequence(|parts| {
            let null = parts.read_optional(|part| part.read_null())?;
            let number = parts.read_optional(|part| part.read_i64())?;
            let flag = parts.read_default(false, |part| part.read_bool())?;
            Ok((number.unwrap_or(0), flag != null.is_some()))
        })?;
        checksum = mixed(checksum, pair_checksum(pair).cast_signed());
    }
    Ok(checksum)
}

/// The checksum of `count` numbers in a SEQUENCE, each with an implicit tag inside an explicit one.
#[unsafe(no_mangle)]
pub extern "C" fn yasna_read_tagged(alloc: Global, bytes: &[u8], count: usize, der: bool) -> u64 {
    of_parts(alloc, bytes, count, der, tagged)
}

// The checksum of `count` numbers with an implicit tag inside an explicit one.
fn tagged(seq: &mut BERReaderSeq, count: usize) -> ASN1Result<u64> {
    let mut checksum = 0;
    for _ in 0..count {
        let number = seq.next().read_tagged(
            Tag::context(0),
            |inner| inner.read_tagged_implicit(Tag::context(1), |number| number.read_i64()),
        )?;
        checksum = mixed(checksum, number);
    }
    Ok(checksum)
}

/// The length of the contents of an INTEGER of any size.
#[unsafe(no_mangle)]
pub extern "C" fn yasna_read_big_integer(alloc: Global, bytes: &[u8], der: bool) -> u64 {
    let read = parse_ber_general(alloc, bytes, mode(der), |reader| reader.read_bigint_bytes());
    length(read.map(|(contents, _)| contents))
}

/// The checksum of the number in `depth` SEQUENCEs, one in the other.
#[unsafe(no_mangle)]
pub extern "C" fn yasna_read_nested(alloc: Global, bytes: &[u8], depth: usize, der: bool) -> u64 {
    let number = parse_ber_general(alloc, bytes, mode(der), |reader| nested(reader, depth));
    number_of(number.map(|number| mixed(0, number)))
}

// The number in `depth` sequences, one in the other.
fn nested(reader: BERReader, depth: usize) -> ASN1Result<i64> {
    match depth.checked_sub(1) {
        None => reader.read_i64(),
        Some(below) => reader.read_sequence(|seq| nested_within(seq, below)),
    }
}

// The number in `depth` sequences, in the contents of another sequence.
fn nested_within(seq: &mut BERReaderSeq, depth: usize) -> ASN1Result<i64> {
    match depth.checked_sub(1) {
        None => seq.next().read_i64(),
        Some(below) => seq
            .next()
            .read_sequence(|inner| nested_within(inner, below)),
    }
}
