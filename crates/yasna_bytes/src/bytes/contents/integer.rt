//! The contents of INTEGER and ENUMERATED, in each type of Rust (X.690, 8.3 and 8.4).
ghost use Rattle.std.specs.Prelude.{ℕ, ℤ, ◌≡◌, ◌≤◌, ◌<◌, ◌+◌, ◌-◌, length, slice_index, IsTrue, ◌↔◌};
ghost use Rattle.std.specs.Int.{w8, w16, w32, w64};
ghost use Rattle.yasna_base.specs.Integer.{IsMinimal, twos, IsSigned, IsUnsigned};
ghost use Rattle.yasna_bytes.specs.Contents.{NeverAllocates};

use crate::bytes::contents::Contents;
use crate::bytes::length::number_of;
use std::alloc::Global;
use yasna_base::error::ASN1ErrorKind;
use yasna_base::mode::BERMode;

/// Whether these are the fewest bytes of a number: one at least, and the first nine bits aren't all equal.
#[inline(always)]
pub fn is_minimal(contents: &[u8]) -> bool
    ensures { IsTrue result ↔ IsMinimal contents.now }
{
    match contents {
        [] => false,
        [_] => true,
        [first, second, ..] => (*first != 0 || *second >= 128) && (*first != 255 || *second < 128),
    }
}

// One of the bytes of a number that is extended to eight: leading ones repeat the first bit of its contents.
#[inline(always)]
fn extended(contents: &[u8], trailing: usize) -> u8
    requires some { 1 ≤ length contents.now }
    requires in_eight { trailing < length contents.now + 8 }
    ensures positive { trailing < 8 → slice_index contents.now 0 < 128 → result ≡ 0 }
    ensures negative { trailing < 8 → 128 ≤ slice_index contents.now 0 → result ≡ 255 }
    ensures contents { 8 ≤ trailing → result ≡ slice_index contents.now (trailing - 8) }
{
    let byte = contents[trailing.saturating_sub(8)];
    let sign = if contents[0] < 128 { 0 } else { 255 };
    if trailing < 8 { sign } else { byte }
}

// The number that up to eight bytes represent in two's complement. More than one are extended to eight, so that no branch depends
// on how many there are.
#[inline(always)]
fn signed_of(contents: &[u8]) -> i64
    requires some { 1 ≤ length contents.now }
    requires few { length contents.now ≤ 8 }
    ensures { result ≡ twos contents.now }
{
    let mut number: i64 = if contents[0] < 128 { 0 } else { -1 };
    if contents.len() == 1 {
        return number * 256 + i64::from(contents[0]);
    }
    for place in 0..8usize {
        let byte = extended(contents, contents.len() + place);
        number = number * 256 + i64::from(byte);
    }
    number
}

impl Contents for i64 {
    ghost Seen = { ℤ };

    ghost view = { λ v. v };

    ghost means = { IsSigned w64 };

    ghost may_allocate = { NeverAllocates };

    #[inline(always)]
    fn of_contents(_alloc: Global, _mode: BERMode, contents: &[u8]) -> Result<i64, ASN1ErrorKind> {
        if !is_minimal(contents) {
            return Err(ASN1ErrorKind::Invalid);
        }
        if contents.len() > 8 {
            return Err(ASN1ErrorKind::IntegerOverflow);
        }
        Ok(signed_of(contents))
    }
}

impl Contents for i32 {
    ghost Seen = { ℤ };

    ghost view = { λ v. v };

    ghost means = { IsSigned w32 };

    ghost may_allocate = { NeverAllocates };

    #[inline(always)]
    fn of_contents(alloc: Global, mode: BERMode, contents: &[u8]) -> Result<i32, ASN1ErrorKind> {
        let wide = i64::of_contents(alloc, mode, contents)?;
        i32::try_from(wide).map_err(|_| ASN1ErrorKind::IntegerOverflow)
    }
}

impl Contents for i16 {
    ghost Seen = { ℤ };

    ghost view = { λ v. v };

    ghost means = { IsSigned w16 };

    ghost may_allocate = { NeverAllocates };

    #[inline(always)]
    fn of_contents(alloc: Global, mode: BERMode, contents: &[u8]) -> Result<i16, ASN1ErrorKind> {
        let wide = i64::of_contents(alloc, mode, contents)?;
        i16::try_from(wide).map_err(|_| ASN1ErrorKind::IntegerOverflow)
    }
}

impl Contents for i8 {
    ghost Seen = { ℤ };

    ghost view = { λ v. v };

    ghost means = { IsSigned w8 };

    ghost may_allocate = { NeverAllocates };

    #[inline(always)]
    fn of_contents(alloc: Global, mode: BERMode, contents: &[u8]) -> Result<i8, ASN1ErrorKind> {
        let wide = i64::of_contents(alloc, mode, contents)?;
        i8::try_from(wide).map_err(|_| ASN1ErrorKind::IntegerOverflow)
    }
}

impl Contents for u64 {
    ghost Seen = { ℕ };

    ghost view = { λ v. v };

    ghost means = { IsUnsigned 64 };

    ghost may_allocate = { NeverAllocates };

    #[inline(always)]
    fn of_contents(_alloc: Global, _mode: BERMode, contents: &[u8]) -> Result<u64, ASN1ErrorKind> {
        if contents.is_empty() {
            return Err(ASN1ErrorKind::Invalid);
        }
        if contents[0] >= 128 {
            return Err(ASN1ErrorKind::IntegerOverflow);
        }
        if !is_minimal(contents) {
            return Err(ASN1ErrorKind::Invalid);
        }
        match number_of(contents) {
            Some(number) => Ok(number),
            None => Err(ASN1ErrorKind::IntegerOverflow),
        }
    }
}

impl Contents for u32 {
    ghost Seen = { ℕ };

    ghost view = { λ v. v };

    ghost means = { IsUnsigned 32 };

    ghost may_allocate = { NeverAllocates };

    #[inline(always)]
    fn of_contents(alloc: Global, mode: BERMode, contents: &[u8]) -> Result<u32, ASN1ErrorKind> {
        let wide = u64::of_contents(alloc, mode, contents)?;
        u32::try_from(wide).map_err(|_| ASN1ErrorKind::IntegerOverflow)
    }
}

impl Contents for u16 {
    ghost Seen = { ℕ };

    ghost view = { λ v. v };

    ghost means = { IsUnsigned 16 };

    ghost may_allocate = { NeverAllocates };

    #[inline(always)]
    fn of_contents(alloc: Global, mode: BERMode, contents: &[u8]) -> Result<u16, ASN1ErrorKind> {
        let wide = u64::of_contents(alloc, mode, contents)?;
        u16::try_from(wide).map_err(|_| ASN1ErrorKind::IntegerOverflow)
    }
}

impl Contents for u8 {
    ghost Seen = { ℕ };

    ghost view = { λ v. v };

    ghost means = { IsUnsigned 8 };

    ghost may_allocate = { NeverAllocates };

    #[inline(always)]
    fn of_contents(alloc: Global, mode: BERMode, contents: &[u8]) -> Result<u8, ASN1ErrorKind> {
        let wide = u64::of_contents(alloc, mode, contents)?;
        u8::try_from(wide).map_err(|_| ASN1ErrorKind::IntegerOverflow)
    }
}
