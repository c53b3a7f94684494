//! What is checked of every type. It is generic: so it is proved once, and not for each type anew.

use std::alloc::Global;
use std::process::Abort;
use yasna::{
    ASN1Error, ASN1ErrorKind, ASN1Result, BERDecodable, BERMode, DERCanonical, DEREncodable,
    DERExact, PrependBuffer, construct_cer, construct_der, decode_ber, decode_ber_general,
    decode_cer, decode_der, encode_cer, encode_der, one_der_encoding, one_encoding,
};
use yasna_notation::{CanonicalNotation, Encoded, Message};
use yasna_notation_constraints::{Checked, IsValid};

/// What is so of a row's bytes.
#[derive(Clone, Copy)]
pub enum Claim {
    /// They are the DER encoding of a value, and come back.
    IsEncoding,
    /// They are the CER encoding of a value, and come back.
    IsCerEncoding,
    /// DER rejects them.
    IsNoEncoding,
    /// These rules reject them.
    IsRejected(BERMode),
    /// BER rejects them as `Invalid`.
    IsInvalid,
    /// By these rules a value is read whose fields are as the row says.
    Says(BERMode, Fields),
    /// DER rejects them, BER reads them, and the value's DER encoding is that of this text.
    Becomes(&'static str),
    /// The signature is over those of these places: from the first up to the second.
    IsSigned(usize, usize),
}

/// What fields a row speaks of.
#[derive(Clone, Copy)]
pub enum Fields {
    /// Those that the type's other rows don't speak of.
    All,
    /// The version, where it is the first one; of signed contents, also that no one signed them.
    FirstVersion,
    /// The issuer's number.
    IssuerId,
    /// The numbers that a module names.
    Numbers,
    /// What the module doesn't know.
    Unknown,
}

/// A type whose fields a row speaks of.
pub trait Looks {
    /// Whether the fields are as the row says.
    fn has(&self, fields: Fields) -> bool;
}

/// The bytes that these pairs of hexadecimal digits are, or `OutOfMemory` where the text is none, which no row wants.
pub fn bytes_of(alloc: Global, text: &str) -> ASN1Result<Vec<u8>> {
    let mut bytes = Vec::new(alloc);
    for pair in text.as_bytes().chunks(2) {
        match byte_of(pair) {
            Some(byte) => bytes.push(byte)?,
            None => return Err(ASN1Error::new(ASN1ErrorKind::OutOfMemory)),
        }
    }
    Ok(bytes)
}

fn byte_of(pair: &[u8]) -> Option<u8> {
    match pair {
        [high, low] => Some(digit(*high)? << 4 | digit(*low)?),
        _ => None,
    }
}

fn digit(character: u8) -> Option<u8> {
    match character {
        b'0'..=b'9' => Some(character - b'0'),
        b'a'..=b'f' => Some(character - b'a' + 10),
        _ => None,
    }
}

/// Whether the outcome is these bytes.
pub fn gives(outcome: ASN1Result<Vec<u8>>, bytes: &[u8]) -> bool {
    match outcome {
        Ok(found) => found.as_slice() == bytes,
        Err(_) => false,
    }
}

// Whether a value is written as these bytes from its last byte to its first, and from its first byte to its last, and is as long as it
// says. In CER a length needn't be known.
fn is_written_as<T: DEREncodable>(
    alloc: Global,
    value: &T,
    mode: BERMode,
    bytes: &[u8],
) -> ASN1Result<bool>
    requires { T.encodable value.now }
{
    let mut out = PrependBuffer::new(alloc, mode);
    value.prepend_der(&mut out)?;
    let backwards = out.finish()?;
    let (whole, forwards) = match mode {
        BERMode::Cer => (
            encode_cer(alloc, value)?,
            construct_cer(alloc, |writer| value.encode_der(writer))?,
        ),
        _ => (
            encode_der(alloc, value)?,
            construct_der(alloc, |writer| value.encode_der(writer))?,
        ),
    };
    let has_len = match value.encoded_len(mode) {
        Some(len) => len == bytes.len(),
        None => mode == BERMode::Cer,
    };
    let are_bytes = backwards.as_slice() == bytes && forwards.as_slice() == bytes;
    Ok(has_len && are_bytes && whole.as_slice() == bytes)
}

// Whether these bytes are what the value that they encode is written as.
fn is_encoding<T: BERDecodable + DEREncodable + DERExact>(
    alloc: Global,
    bytes: &[u8],
) -> ASN1Result<bool> {
    one_der_encoding::<T>();
    let value: T = decode_der(alloc, bytes)?;
    is_written_as(alloc, &value, BERMode::Der, bytes)
}

// As `is_encoding`, in CER.
fn is_cer_encoding<T: BERDecodable + DEREncodable + DERExact>(
    alloc: Global,
    bytes: &[u8],
) -> ASN1Result<bool> {
    one_der_encoding::<T>();
    let value: T = decode_cer(alloc, bytes)?;
    is_written_as(alloc, &value, BERMode::Cer, bytes)
}

/// Whether the outcome is a rejection as `Invalid`.
pub fn rejects<T: Drop>(outcome: ASN1Result<T>) -> bool {
    match outcome {
        Ok(_) => false,
        Err(error) => matches!(error.kind(), ASN1ErrorKind::Invalid),
    }
}

// Whether the claim is so of these bytes, where it is of no fields.
fn holds<T: BERDecodable + DEREncodable + DERExact>(
    alloc: Global,
    bytes: &[u8],
    claim: Claim,
) -> bool {
    match claim {
        Claim::IsEncoding => is_encoding::<T>(alloc, bytes).unwrap_or(false),
        Claim::IsCerEncoding => is_cer_encoding::<T>(alloc, bytes).unwrap_or(false),
        Claim::IsNoEncoding => decode_der::<T>(alloc, bytes).is_err(),
        Claim::IsRejected(mode) => decode_ber_general::<T>(alloc, bytes, mode).is_err(),
        Claim::IsInvalid => rejects(decode_ber::<T>(alloc, bytes)),
        _ => false,
    }
}

/// Whether a value of this type is read from these bytes, whose fields are as the row says.
pub fn says<T: BERDecodable + Looks>(
    alloc: Global,
    bytes: &[u8],
    mode: BERMode,
    fields: Fields,
) -> bool {
    match decode_ber_general::<T>(alloc, bytes, mode) {
        Ok(value) => value.has(fields),
        Err(_) => false,
    }
}

/// Whether the claim is so of a message, where it is of no fields.
pub fn holds_of<T: Message>(alloc: Global, bytes: &[u8], claim: Claim) -> bool {
    holds::<Encoded<T>>(alloc, bytes, claim)
}

// Whether a message is read from these bytes, whose fields are as the row says.
fn message_says<T: Message + Looks>(
    alloc: Global,
    bytes: &[u8],
    mode: BERMode,
    fields: Fields,
) -> bool {
    match decode_ber_general::<Encoded<T>>(alloc, bytes, mode) {
        Ok(read) => read.value.has(fields),
        Err(_) => false,
    }
}

/// Whether the claim is so of a message, where it may be of fields.
pub fn holds_or_says<T: Message + Looks>(alloc: Global, bytes: &[u8], claim: Claim) -> bool {
    match claim {
        Claim::Says(mode, fields) => message_says::<T>(alloc, bytes, mode, fields),
        _ => holds::<Encoded<T>>(alloc, bytes, claim),
    }
}

fn normalized<T: BERDecodable + DEREncodable + DERCanonical>(
    alloc: Global,
    bytes: &[u8],
) -> ASN1Result<Vec<u8>> {
    one_encoding::<T>();
    let value: T = decode_ber(alloc, bytes)?;
    encode_der(alloc, &value)
}

// Whether DER rejects these bytes, which BER reads, and whose DER encoding is that of the text.
fn becomes<T: BERDecodable + DEREncodable + DERCanonical>(
    alloc: Global,
    bytes: &[u8],
    encoding: &str,
) -> bool {
    match bytes_of(alloc, encoding) {
        Ok(encoding) => {
            gives(normalized::<T>(alloc, bytes), &encoding)
                && decode_der::<T>(alloc, bytes).is_err()
        }
        Err(_) => false,
    }
}

/// Whether DER rejects these bytes, which BER reads, and the message's DER encoding is that of the text.
pub fn message_becomes<T: Message + CanonicalNotation>(
    alloc: Global,
    bytes: &[u8],
    encoding: &str,
) -> bool {
    becomes::<Encoded<T>>(alloc, bytes, encoding)
}

// The DER encoding of a message that BER reads from these bytes, or none if it can't be written.
fn valid_encoding<T: Message + Checked>(
    alloc: Global,
    bytes: &[u8],
) -> ASN1Result<Option<Vec<u8>>> {
    let read: Encoded<T> = decode_ber(alloc, bytes)?;
    let message = read.value;
    if !message.is_valid() {
        return Ok(None);
    }
    let encoded = Encoded { value: message };
    Ok(Some(encode_der(alloc, &encoded)?))
}

// Whether DER rejects these bytes, BER reads them, and the message's DER encoding is that of the text.
fn is_made_der<T: Message + Checked>(alloc: Global, bytes: &[u8], encoding: &str) -> bool {
    let Ok(encoding) = bytes_of(alloc, encoding) else {
        return false;
    };
    match valid_encoding::<T>(alloc, bytes) {
        Ok(Some(written)) => {
            written.as_slice() == encoding.as_slice()
                && decode_der::<Encoded<T>>(alloc, bytes).is_err()
        }
        _ => false,
    }
}

/// Whether the claim is so of these bytes, where it is of no fields, of a message that may keep parts as they came.
pub fn holds_of_message<T: Message + Checked>(alloc: Global, bytes: &[u8], claim: Claim) -> bool {
    match claim {
        Claim::Becomes(encoding) => is_made_der::<T>(alloc, bytes, encoding),
        _ => holds::<Encoded<T>>(alloc, bytes, claim),
    }
}

/// Fails the test if a row was found, and says which.
pub fn finds_none(rt: &impl Abort, found: Option<&str>) {
    assert!(rt; found.is_none(), "{found:?}");
}
