//! What goes in comes out: a section of docs/GUIDE.md, which shows this module word for word.
ghost use Rattle.std.specs.Prelude.{◌≡◌, ℕ, IfOk, IfErr};
ghost use Rattle.yasna.specs.Words.{Der, OutOfMemory, kind_of, max_depth};

use std::alloc::Global;
use yasna::{ASN1Result, DERCanonical, decode_der, encode_der, one_encoding};

/// Reads a value in DER and writes it again. These are the bytes that were read, for every type that satisfies the laws.
pub fn reencoded<T: DERCanonical>(alloc: Global, bytes: &[u8]) -> ASN1Result<Vec<u8>>
    ensures same { IfOk result (λ out. out.items ≡ bytes.now) }
    ensures rejected { IfErr result (λ e. (kind_of e ≡ OutOfMemory → ⊥) → (v : T) → T.encodes Der max_depth v bytes.now → ⊥) }
{
    one_encoding::<T>();
    let value: T = decode_der(alloc, bytes)?;
    encode_der(alloc, &value)
}
