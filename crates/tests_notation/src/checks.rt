//! What is checked of every type. It is generic: so it is proved once, and not for each type anew.
//!
//! A table passes a type by the fewest bounds. What the traits of `yasna` ask of `Encoded` follows here, once: at a type of many parts its proof
//! takes longer than all functions of the type.

use crate::values::{Assigned, ValueOf};
use std::alloc::Global;
use std::process::Abort;
use yasna::{
    ASN1Result, BERDecodable, DERCanonical, DEREncodable, DERExact, decode_ber, decode_der,
    encode_der, one_der_encoding, one_encoding,
};
use yasna_notation::{CanonicalNotation, DefinedType, Encoded, Message};
use yasna_notation_constraints::{Checked, IsValid};

/// What is so of a row's octets.
#[derive(Clone, Copy)]
pub enum Claim {
    /// They are the DER encoding of a value, and come back.
    IsEncoding,
    /// DER rejects them, BER reads them, and these are the value's DER encoding.
    Becomes(&'static str),
    /// BER rejects them, and so does DER.
    IsRejected,
}

/// A type of those whose rows are in one table.
pub trait Kind: Copy {
    /// Whether the claim is so of these octets.
    fn is_so(self, alloc: Global, bytes: &[u8], claim: Claim) -> bool;
}

/// A type, what is claimed, the row's name, and its octets in hexadecimal.
pub type Row<K> = (K, Claim, &'static str, &'static str);

/// The octets that these hexadecimal digits are, if they are some and there is memory.
pub fn bytes_of(alloc: Global, text: &str) -> Option<Vec<u8>> {
    hex::decode(alloc, text).ok()
}

// What is read in DER, written again.
fn rewritten<T: BERDecodable + DEREncodable + DERExact>(
    alloc: Global,
    bytes: &[u8],
) -> ASN1Result<Vec<u8>> {
    one_der_encoding::<T>();
    let value: T = decode_der(alloc, bytes)?;
    encode_der(alloc, &value)
}

// What is read in BER, written in DER.
fn in_der<T: DERCanonical>(alloc: Global, bytes: &[u8]) -> ASN1Result<Vec<u8>> {
    one_encoding::<T>();
    let value: T = decode_ber(alloc, bytes)?;
    encode_der(alloc, &value)
}

fn gives(outcome: ASN1Result<Vec<u8>>, bytes: &[u8]) -> bool {
    match outcome {
        Ok(found) => found.as_slice() == bytes,
        Err(_) => false,
    }
}

fn becomes<T: DERCanonical>(alloc: Global, bytes: &[u8], encoding: &str) -> bool {
    match bytes_of(alloc, encoding) {
        Some(encoding) => gives(in_der::<T>(alloc, bytes), &encoding),
        None => false,
    }
}

// Whether the claim is so, where a type has one DER encoding of each value.
fn holds<T: BERDecodable + DEREncodable + DERExact>(
    alloc: Global,
    bytes: &[u8],
    claim: Claim,
) -> bool {
    match claim {
        Claim::IsEncoding => gives(rewritten::<T>(alloc, bytes), bytes),
        Claim::Becomes(_) => false,
        Claim::IsRejected => {
            decode_ber::<T>(alloc, bytes).is_err() && decode_der::<T>(alloc, bytes).is_err()
        }
    }
}

// Whether the claim is so, where what BER reads is written in DER.
fn holds_in_ber<T: DERCanonical>(alloc: Global, bytes: &[u8], claim: Claim) -> bool {
    let in_der_mode = decode_der::<T>(alloc, bytes).is_ok();
    match claim {
        Claim::IsEncoding => in_der_mode && gives(in_der::<T>(alloc, bytes), bytes),
        Claim::Becomes(encoding) => !in_der_mode && becomes::<T>(alloc, bytes, encoding),
        Claim::IsRejected => !in_der_mode && decode_ber::<T>(alloc, bytes).is_err(),
    }
}

// Whether the claim is so, where both are so of a type.
fn holds_in_both<T: BERDecodable + DEREncodable + DERExact + DERCanonical>(
    alloc: Global,
    bytes: &[u8],
    claim: Claim,
) -> bool {
    match claim {
        Claim::IsEncoding => {
            holds::<T>(alloc, bytes, claim) && holds_in_ber::<T>(alloc, bytes, claim)
        }
        _ => holds_in_ber::<T>(alloc, bytes, claim),
    }
}

// What BER reads and can be written, written in DER.
fn valid_in_der<T: Message + Checked>(alloc: Global, bytes: &[u8]) -> ASN1Result<Option<Vec<u8>>> {
    let message: Encoded<T> = decode_ber(alloc, bytes)?;
    if !message.value.is_valid() {
        return Ok(None);
    }
    let encoding = encode_der(alloc, &message)?;
    Ok(Some(encoding))
}

// Whether DER rejects these octets, and what BER reads of them has this DER encoding.
fn becomes_if_valid<T: Message + Checked>(alloc: Global, bytes: &[u8], encoding: &str) -> bool {
    if decode_der::<Encoded<T>>(alloc, bytes).is_ok() {
        return false;
    }
    match (valid_in_der::<T>(alloc, bytes), bytes_of(alloc, encoding)) {
        (Ok(Some(found)), Some(encoding)) => found.as_slice() == encoding.as_slice(),
        _ => false,
    }
}

/// Whether the claim is so of a message, where BER may read some values that can't be written.
pub fn holds_if_valid<T: Message + Checked>(alloc: Global, bytes: &[u8], claim: Claim) -> bool {
    match claim {
        Claim::Becomes(encoding) => becomes_if_valid::<T>(alloc, bytes, encoding),
        _ => holds::<Encoded<T>>(alloc, bytes, claim),
    }
}

/// Whether the claim is so of a message that has one DER encoding of each value.
pub fn holds_of<T: Message>(alloc: Global, bytes: &[u8], claim: Claim) -> bool {
    holds::<Encoded<T>>(alloc, bytes, claim)
}

/// Whether the claim is so of a message, and what BER reads is written in DER.
pub fn holds_of_canonical<T: Message + CanonicalNotation>(
    alloc: Global,
    bytes: &[u8],
    claim: Claim,
) -> bool {
    holds_in_both::<Encoded<T>>(alloc, bytes, claim)
}

/// Whether the claim is so of a type with a struct, and what BER reads is written in DER.
pub fn holds_of_defined<T: DefinedType>(alloc: Global, bytes: &[u8], claim: Claim) -> bool
where
    T::Notation: CanonicalNotation,
{
    holds_of_canonical::<T>(alloc, bytes, claim)
}

/// Whether the claim is so of a type without a struct.
pub fn holds_of_assigned<A: Assigned>(alloc: Global, bytes: &[u8], claim: Claim) -> bool {
    holds_of::<ValueOf<A>>(alloc, bytes, claim)
}

/// Whether the claim is so of a type without a struct, and what BER reads is written in DER.
pub fn holds_of_assigned_canonical<A: Assigned>(alloc: Global, bytes: &[u8], claim: Claim) -> bool
where
    A::Notation: CanonicalNotation,
{
    holds_of_defined::<ValueOf<A>>(alloc, bytes, claim)
}

/// Whether the claim is so of a type without a struct, of which BER reads values that can't be written.
pub fn holds_of_checked<A: Assigned>(alloc: Global, bytes: &[u8], claim: Claim) -> bool
where
    A::Notation: Checked,
{
    holds_if_valid::<ValueOf<A>>(alloc, bytes, claim)
}

fn is_row<K: Kind>(alloc: Global, row: &Row<K>) -> bool {
    match bytes_of(alloc, row.3) {
        Some(bytes) => row.0.is_so(alloc, &bytes, row.1),
        None => false,
    }
}

/// The name of the first row that isn't so.
pub fn first_failing<K: Kind>(alloc: Global, rows: &[Row<K>]) -> Option<&'static str> {
    for row in rows {
        if !is_row(alloc, row) {
            return Some(row.2);
        }
    }
    None
}

/// Fails the test if a row was found, and says which.
pub fn finds_none(rt: &impl Abort, found: Option<&str>) {
    assert!(rt; found.is_none(), "{found:?}");
}
