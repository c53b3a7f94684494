//! The contents of INTEGER of any size (X.690, 8.3).
ghost use Rattle.std.specs.Prelude.{◌≡◌, IfOk, IfErr};
ghost use Rattle.yasna_base.specs.BigInteger.{BigInteger, IsBigInteger};
ghost use Rattle.yasna_base.specs.declared.error.ASN1ErrorKind.TheVariants.{OutOfMemory};
ghost use Rattle.yasna_bytes.specs.Contents.{big_integer_in, MayAllocate};

use crate::bytes::contents::Contents;
use crate::bytes::contents::integer::is_minimal;
use std::alloc::Global;
use yasna_base::error::ASN1ErrorKind;
use yasna_base::mode::BERMode;

// A copy, in one piece of memory.
fn copied(alloc: Global, bytes: &[u8]) -> Result<Vec<u8>, ASN1ErrorKind>
    ensures bytes { IfOk result (λ copy. copy.items ≡ bytes.now) }
    ensures memory { IfErr result (λ kind. kind ≡ OutOfMemory) }
{
    let Ok(mut copy) = Vec::with_capacity(alloc, bytes.len()) else {
        return Err(ASN1ErrorKind::OutOfMemory);
    };
    match copy.extend_from_slice(bytes) {
        Ok(()) => Ok(copy),
        Err(_) => Err(ASN1ErrorKind::OutOfMemory),
    }
}

/// The contents as they are, and whether the number isn't negative.
impl Contents for (Vec<u8>, bool) {
    ghost Seen = { BigInteger };

    ghost view = { big_integer_in };

    ghost means = { IsBigInteger };

    ghost may_allocate = { MayAllocate };

    #[inline(always)]
    fn of_contents(
        alloc: Global,
        _mode: BERMode,
        contents: &[u8],
    ) -> Result<(Vec<u8>, bool), ASN1ErrorKind> {
        if !is_minimal(contents) {
            return Err(ASN1ErrorKind::Invalid);
        }
        match copied(alloc, contents) {
            Ok(copy) => Ok((copy, contents[0] < 128)),
            Err(kind) => Err(kind),
        }
    }
}
