//! How values of any type, and messages, are checked and encoded.
//!
//! A message's type is passed by the fewest bounds. What the traits of `yasna` ask of `Encoded` follows here, once, and not for each type anew.
ghost use Rattle.std.specs.Prelude.{◌≡◌};
ghost use Rattle.yasna.proofs.Laws.{can_be_written};
ghost use Rattle.asn1check.specs.Rewriting.{Rewritten};
ghost use Rattle.asn1check.specs.Messages.{AllChecked, Checked, Reencoded};

use asn1_input::first_piece;
use std::alloc::Global;
use yasna::{
    ASN1Result, BERDecodable, BERMode, DERCanonical, DEREncodable, DERExact, Located,
    decode_ber_general, decode_der, encode_der, one_der_encoding, parse_ber_located,
    parse_cer_located, parse_der_located,
};
use yasna_notation::{CanonicalNotation, Encoded, Message};

// Reads a value, and drops it.
fn checked<T: BERDecodable>(alloc: Global, mode: BERMode, bytes: &[u8]) -> ASN1Result<()>
    ensures { Checked T.encodes mode bytes.now result }
{
    let _value: T = decode_ber_general(alloc, bytes, mode)?;
    Ok(())
}

// Reads values, one after the other, drops them, and returns how many they are.
fn all_checked<T: BERDecodable>(alloc: Global, mode: BERMode, bytes: &[u8]) -> ASN1Result<usize>
    ensures { AllChecked T.encodes mode bytes.now result }
{
    let (first, mut left) = first_piece(bytes);
    checked::<T>(alloc, mode, first)?;
    let mut count: usize = 1;
    while !left.is_empty() {
        let (piece, rest) = first_piece(left);
        checked::<T>(alloc, mode, piece)?;
        count += 1;
        left = rest;
    }
    Ok(count)
}

// Reads a value in DER, and writes it.
fn rewritten<T: BERDecodable + DEREncodable + DERExact>(
    alloc: Global,
    bytes: &[u8],
) -> ASN1Result<Vec<u8>>
    ensures { Rewritten T.encodes T.encoding bytes.now result }
{
    one_der_encoding::<T>();
    let value: T = decode_der(alloc, bytes)?;
    encode_der(alloc, &value)
}

// Reads a value in this mode, and writes it in DER.
fn converted<T: DERCanonical>(alloc: Global, mode: BERMode, bytes: &[u8]) -> ASN1Result<Vec<u8>>
    ensures { Reencoded T.encodes T.encoding mode bytes.now result }
{
    let message: T = decode_ber_general(alloc, bytes, mode)?;
    encode_der(alloc, &message)
}

// Why bytes are rejected as a value, and where, or None if they are one.
fn locate<T: BERDecodable>(alloc: Global, mode: BERMode, bytes: &[u8]) -> Option<Located> {
    let read: Result<T, Located> = match mode {
        BERMode::Ber => parse_ber_located(alloc, bytes, |reader| T::decode_ber(reader)),
        BERMode::Der => parse_der_located(alloc, bytes, |reader| T::decode_ber(reader)),
        BERMode::Cer => parse_cer_located(alloc, bytes, |reader| T::decode_ber(reader)),
    };
    match read {
        Ok(_) => None,
        Err(located) => Some(located),
    }
}

/// Reads messages, one after the other, drops them, and returns how many they are.
pub fn messages_checked<M: Message>(alloc: Global, mode: BERMode, bytes: &[u8]) -> ASN1Result<usize>
    ensures { AllChecked ⟦<Encoded<M> as BERDecodable>⟧.encodes mode bytes.now result }
{
    all_checked::<Encoded<M>>(alloc, mode, bytes)
}

/// Reads a message in DER, and writes it.
pub fn message_rewritten<M: Message>(alloc: Global, bytes: &[u8]) -> ASN1Result<Vec<u8>>
    ensures { Rewritten ⟦<Encoded<M> as BERDecodable>⟧.encodes ⟦<Encoded<M> as DEREncodable>⟧.encoding bytes.now result }
{
    rewritten::<Encoded<M>>(alloc, bytes)
}

/// Reads a message in this mode, and writes it in DER.
pub fn message_converted<M: Message + CanonicalNotation>(
    alloc: Global,
    mode: BERMode,
    bytes: &[u8],
) -> ASN1Result<Vec<u8>>
    ensures { Reencoded ⟦<Encoded<M> as BERDecodable>⟧.encodes ⟦<Encoded<M> as DEREncodable>⟧.encoding mode bytes.now result }
{
    converted::<Encoded<M>>(alloc, mode, bytes)
}

/// Why bytes are rejected as a message, and where, or None if they are one.
pub fn message_located<M: Message>(alloc: Global, mode: BERMode, bytes: &[u8]) -> Option<Located> {
    locate::<Encoded<M>>(alloc, mode, bytes)
}
