//! A message that is read and written as a whole.

use std::alloc::Global;
use x509::Extension;
use yasna::{ASN1Result, decode_ber, decode_der, encode_der, one_der_encoding};
use yasna_notation::Encoded;

pub fn extension_from_ber(alloc: Global, bytes: &[u8]) -> ASN1Result<Extension> {
    let encoded: Encoded<Extension> = decode_ber(alloc, bytes)?;
    Ok(encoded.into_value())
}

pub fn rewritten_extension(alloc: Global, bytes: &[u8]) -> ASN1Result<Vec<u8>> {
    one_der_encoding::<Encoded<Extension>>();
    let encoded: Encoded<Extension> = decode_der(alloc, bytes)?;
    encode_der(alloc, &encoded)
}
