//! Calls of users that begin a writing and end it, in DER (X.690, clause 10) or in CER (clause 9).
ghost use Rattle.std.specs.Prelude.{◌≡◌, Result};
ghost use Rattle.std.specs.Fn.{FnOnceTakesAtMut, FnOnceReturnsAtMut};
ghost use Rattle.yasna_base.specs.declared.error.ASN1Error.{ASN1Error};
ghost use Rattle.yasna_base.specs.declared.mode.BERMode.TheVariants.{Cer};
ghost use Rattle.yasna_writer.specs.View.{Written, begun, empty_writing};
ghost use Rattle.yasna_writer.specs.Construct.{Constructed};

use crate::sequence::DERWriterSeq;
use crate::state::{DERWriter, Writer};
use std::alloc::Global;
use yasna_base::{ASN1Error, ASN1Result, BERMode};

/// The bytes that a closure writes in DER (X.690, clause 10).
///
/// Returns the first error of a write, whatever the closure returns; else the closure's own `Err`; else the bytes, or
/// `OutOfMemory` if there is no memory for them.
pub fn construct_der<F: FnOnce(DERWriter<'_>) -> ASN1Result<()>>(
    alloc: Global,
    f: F,
) -> ASN1Result<Vec<u8>>
    requires { FnOnceTakesAtMut F.FnOnce f empty_writing }
    ensures { (own : Result (Unit {0}) ASN1Error) × (left : Written) × FnOnceReturnsAtMut F.FnOnce f empty_writing own left × Constructed (λ k e. e ≡ k) left own result }
{
    try_construct_der(alloc, f)
}

/// The bytes that a closure writes in DER, where the closure returns its own type of errors.
///
/// Returns as `construct_der` does, with the errors of the writing turned into `E`.
#[inline(always)]
pub fn try_construct_der<E: From<ASN1Error> + Drop, F: FnOnce(DERWriter<'_>) -> Result<(), E>>(
    alloc: Global,
    f: F,
) -> Result<Vec<u8>, E>
    requires { FnOnceTakesAtMut F.FnOnce f empty_writing }
    ensures { (own : Result (Unit {0}) E) × (left : Written) × FnOnceReturnsAtMut F.FnOnce f empty_writing own left × Constructed E.from_gives left own result }
{
    construct_by(alloc, BERMode::Der, f)
}

// The bytes that a closure writes in a mode.
#[inline(always)]
fn construct_by<E: From<ASN1Error> + Drop, F: FnOnce(DERWriter<'_>) -> Result<(), E>>(
    alloc: Global,
    mode: BERMode,
    f: F,
) -> Result<Vec<u8>, E>
    requires { FnOnceTakesAtMut F.FnOnce f (begun mode) }
    ensures { (own : Result (Unit {0}) E) × (left : Written) × FnOnceReturnsAtMut F.FnOnce f (begun mode) own left × Constructed E.from_gives left own result }
{
    let mut writer = Writer::new(alloc, mode);
    let own = f(&mut writer);
    writer.finish(own)
}

/// The bytes that a closure writes in CER (X.690, clause 9).
///
/// Elements with parts have indefinite length, and strings of more than 1000 octets are in segments. Returns as `construct_der`
/// does.
pub fn construct_cer<F: FnOnce(DERWriter<'_>) -> ASN1Result<()>>(
    alloc: Global,
    f: F,
) -> ASN1Result<Vec<u8>>
    requires { FnOnceTakesAtMut F.FnOnce f (begun Cer) }
    ensures { (own : Result (Unit {0}) ASN1Error) × (left : Written) × FnOnceReturnsAtMut F.FnOnce f (begun Cer) own left × Constructed (λ k e. e ≡ k) left own result }
{
    construct_by(alloc, BERMode::Cer, f)
}

/// The bytes that a closure writes in DER as parts, one after the other, with no header around them.
///
/// Returns as `construct_der` does.
pub fn construct_der_seq<F: FnOnce(&mut DERWriterSeq) -> ASN1Result<()>>(
    alloc: Global,
    f: F,
) -> ASN1Result<Vec<u8>>
    requires { FnOnceTakesAtMut F.FnOnce f empty_writing }
    ensures { (own : Result (Unit {0}) ASN1Error) × (left : Written) × FnOnceReturnsAtMut F.FnOnce f empty_writing own left × Constructed (λ k e. e ≡ k) left own result }
{
    try_construct_der_seq(alloc, f)
}

/// The bytes that a closure writes in DER as parts, where the closure returns its own type of errors.
///
/// Returns as `try_construct_der` does.
#[inline(always)]
pub fn try_construct_der_seq<
    E: From<ASN1Error> + Drop,
    F: FnOnce(&mut DERWriterSeq) -> Result<(), E>,
>(alloc: Global, f: F) -> Result<Vec<u8>, E>
    requires { FnOnceTakesAtMut F.FnOnce f empty_writing }
    ensures { (own : Result (Unit {0}) E) × (left : Written) × FnOnceReturnsAtMut F.FnOnce f empty_writing own left × Constructed E.from_gives left own result }
{
    construct_by(alloc, BERMode::Der, f)
}
