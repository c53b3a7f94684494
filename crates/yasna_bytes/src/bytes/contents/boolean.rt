//! The contents of BOOLEAN (X.690, 8.2 and 11.1).
ghost use Rattle.std.specs.Prelude.{Bool, IsTrue, ◌↔◌};
ghost use Rattle.yasna_base.specs.Boolean.{IsBoolean, EncodesTrue};
ghost use Rattle.yasna_bytes.specs.Contents.{NeverAllocates};

use crate::bytes::contents::Contents;
use std::alloc::Global;
use yasna_base::error::ASN1ErrorKind;
use yasna_base::mode::BERMode;

// Whether a byte that isn't 0 in BER, or is 255 in DER and CER, represents true.
#[inline(always)]
fn is_true(mode: BERMode, byte: u8) -> bool
    ensures { IsTrue result ↔ EncodesTrue mode byte }
{
    match mode {
        BERMode::Ber => byte != 0,
        BERMode::Der => byte == 255,
        BERMode::Cer => byte == 255,
    }
}

impl Contents for bool {
    ghost Seen = { Bool };

    ghost view = { λ v. v };

    ghost means = { IsBoolean };

    ghost may_allocate = { NeverAllocates };

    #[inline(always)]
    fn of_contents(_alloc: Global, mode: BERMode, contents: &[u8]) -> Result<bool, ASN1ErrorKind> {
        match contents {
            [0] => Ok(false),
            [byte] => {
                if is_true(mode, *byte) {
                    Ok(true)
                } else {
                    Err(ASN1ErrorKind::Invalid)
                }
            }
            _ => Err(ASN1ErrorKind::Invalid),
        }
    }
}
