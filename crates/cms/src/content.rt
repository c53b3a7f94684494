//! What a ContentInfo contains, as a value of its type (RFC 5652, 3).
ghost use Rattle.std.specs.Prelude.{◌≡◌, IfErr, IfOk};
ghost use Rattle.yasna.specs.Words.{Ber, OutOfMemory, kind_of, max_depth, raw_of};
ghost use Rattle.cms.specs.Content.{WithPayload};

use crate::content_info::ContentInfo;
use std::alloc::Global;
use yasna::{ASN1ErrorKind, ASN1Result, BERDecodable, decode_ber, encode_cer, encode_der};

/// Reads the content of a `ContentInfo` as a value of a type, by the basic encoding rules, whether its length is definite or indefinite.
///
/// The type is the one that `content_type` names, such as `Encoded<SignedData>`. A content of indefinite length holds the two zeros that
/// end it, so it is read after the octet 128 if it can't be read after its shortest length. Levels count from the content on. An `Err`
/// other than `OutOfMemory` says that it encodes no value in either way.
pub fn decode_content<T: BERDecodable>(alloc: Global, info: &ContentInfo) -> ASN1Result<T>
    ensures value { IfOk result (λ v. WithPayload (T.encodes Ber max_depth v) (raw_of info.now.content)) }
    ensures rejected { IfErr result (λ e. (kind_of e ≡ OutOfMemory → ⊥) → WithPayload (T.elements Ber max_depth) (raw_of info.now.content) → ⊥) }
{
    let definite = encode_der(alloc, &info.content)?;
    match decode_ber(alloc, &definite) {
        Ok(value) => Ok(value),
        Err(error) => match error.kind() {
            ASN1ErrorKind::OutOfMemory => Err(error),
            _ => {
                let indefinite = encode_cer(alloc, &info.content)?;
                decode_ber(alloc, &indefinite)
            }
        },
    }
}
