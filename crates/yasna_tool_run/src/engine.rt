//! One run: read to the end, decode, encode, write.
ghost use Rattle.std.specs.Prelude.{◌≡◌, ◌≢◌, ◌-◌, ◌^◌, ◌<◌, ◌⊎◌, true, IfOk, OnOk, OnErr, IfSome};
ghost use Rattle.std.specs.Io.KnownBytes.{Appends, Consumes, IsAtEnd, Keeps};
ghost use Rattle.yasna.specs.base.Error.{kind_of};
ghost use Rattle.yasna.specs.base.Grammar.{max_depth};
ghost use Rattle.yasna_tool_run.specs.Engine.{IfRejected, IfIoError};
ghost use Rattle.yasna_tool_run.specs.Failures.{AreAsBefore};

use crate::ends::{Sink, Source};
use std::alloc::Global;
use yasna::{ASN1Error, ASN1ErrorKind, BERMode, DERCanonical, decode_ber_general, encode_der};

/// Why a run wrote no value.
#[derive(Clone, Copy, PartialEq, Eq, Debug)]
pub enum RunFault {
    /// The bytes encode no value, or there was no memory.
    Refused(ASN1Error),
    /// A read or a write failed.
    Device,
}

impl From<ASN1Error> for RunFault {
    ghost use Rattle.yasna_tool_run.specs.declared.engine.RunFault.TheVariants.{Refused};

    ghost from_gives = { λ e f. f ≡ Refused e };

    fn from(error: ASN1Error) -> RunFault {
        RunFault::Refused(error)
    }
}

/// All bytes that `reader` has left.
fn read_all<R: Source>(alloc: Global, reader: &mut R) -> Result<Vec<u8>, RunFault>
    requires { R.failed reader.old < 2 ^ 64 - 1 }
    ensures bytes { IfOk result (λ v. Consumes (R.remaining reader.old) (R.remaining reader.new) v.items) }
    ensures end { OnOk result (IsAtEnd (R.remaining reader.new)) }
    ensures ok { OnOk result (R.failed reader.new ≡ R.failed reader.old) }
    ensures rejected { IfRejected result (λ e. (kind_of e ≡ ASN1ErrorKind.OutOfMemory)
        × (R.failed reader.new ≡ R.failed reader.old)) }
    ensures io_error { IfIoError result (R.failed reader.old < R.failed reader.new) }
{
    let mut all = Vec::new(alloc);
    let mut piece = [0u8; 4096];
    loop {
        match reader.pull(&mut piece) {
            Ok(0) => return Ok(all),
            Ok(count) => {
                if all.extend_from_slice(&piece[..count]).is_err() {
                    let error = ASN1Error::new(ASN1ErrorKind::OutOfMemory);
                    return Err(RunFault::Refused(error));
                }
            }
            Err(_) => return Err(RunFault::Device),
        }
    }
}

/// Writes all of `bytes`, and flushes.
fn write_all<W: Sink>(writer: &mut W, bytes: &[u8]) -> Result<(), RunFault>
    requires { W.failed writer.old < 2 ^ 64 - 1 }
    ensures bytes { OnOk result (Appends (W.contents writer.old) (W.contents writer.new) bytes.now) }
    ensures ok { OnOk result (W.failed writer.new ≡ W.failed writer.old) }
    ensures flushed { OnOk result (W.flushed writer.new ≡ true) }
    ensures err { OnErr result ((result ≡ Err RunFault.Device)
        × (W.failed writer.old < W.failed writer.new)) }
{
    let mut rest = bytes;
    while !rest.is_empty() {
        match writer.push(rest) {
            Ok(0) => return Err(RunFault::Device),
            Ok(count) => rest = &rest[count..],
            Err(_) => return Err(RunFault::Device),
        }
    }
    match writer.flush() {
        Ok(()) => Ok(()),
        Err(_) => Err(RunFault::Device),
    }
}

/// Reads `reader` to its end, decodes its bytes as a `T`, and writes the DER encoding of that value to `writer`.
///
/// If a write fails, some bytes may have gone out before.
pub fn run<T: DERCanonical, R: Source, W: Sink>(
    alloc: Global,
    mode: BERMode,
    reader: &mut R,
    writer: &mut W,
) -> Result<(), RunFault>
    requires reads { R.failed reader.old < 2 ^ 64 - 1 }
    requires writes { W.failed writer.old < 2 ^ 64 - 1 }

    // The bytes of `reader` encode some value, whose encoding was written.
    ensures ok { OnOk result (IfSome (R.remaining reader.old) (λ s. (v : T) × T.encodes mode max_depth v s
        × Appends (W.contents writer.old) (W.contents writer.new) (T.encoding BERMode.Der v))) }
    ensures to_the_end { OnOk result (IsAtEnd (R.remaining reader.new)) }
    ensures flushed { OnOk result (W.flushed writer.new ≡ true) }
    ensures counts { OnOk result (AreAsBefore (R.failed reader.old) (R.failed reader.new) (W.failed writer.old) (W.failed writer.new)) }
    ensures rejected_counts { IfRejected result (λ _. AreAsBefore (R.failed reader.old) (R.failed reader.new) (W.failed writer.old) (W.failed writer.new)) }
    ensures rejected_writes_nothing { IfRejected result (λ _. Keeps (W.contents writer.old) (W.contents writer.new)) }

    // Unless memory runs out, only bytes that encode no value are rejected.
    ensures rejected { IfRejected result (λ e. kind_of e ≢ ASN1ErrorKind.OutOfMemory → IsAtEnd (R.remaining reader.new)
        × IfSome (R.remaining reader.old) (λ s. T.elements mode max_depth s → ⊥)) }
    ensures io_error { IfIoError result ((R.failed reader.old < R.failed reader.new)
        ⊎ (W.failed writer.old < W.failed writer.new)) }
    ensures failed_read { R.failed reader.old < R.failed reader.new → Keeps (W.contents writer.old) (W.contents writer.new) }
{
    let bytes = read_all(alloc, reader)?;
    let value: T = decode_ber_general(alloc, bytes.as_slice(), mode)?;
    // the input is gone before its encoding is made, so memory holds the value and one of them
    drop(bytes);
    let encoding = encode_der(alloc, &value)?;
    write_all(writer, encoding.as_slice())
}
