//! The contents of NULL (X.690, 8.8).
ghost use Rattle.yasna_base.specs.Null.{IsNull};
ghost use Rattle.yasna_bytes.specs.Contents.{NeverAllocates};

use crate::bytes::contents::Contents;
use std::alloc::Global;
use yasna_base::error::ASN1ErrorKind;
use yasna_base::mode::BERMode;

impl Contents for () {
    ghost Seen = { Unit {0} };

    ghost view = { λ v. v };

    ghost means = { IsNull };

    ghost may_allocate = { NeverAllocates };

    #[inline(always)]
    fn of_contents(_alloc: Global, _mode: BERMode, contents: &[u8]) -> Result<(), ASN1ErrorKind> {
        if contents.is_empty() {
            Ok(())
        } else {
            Err(ASN1ErrorKind::Invalid)
        }
    }
}
