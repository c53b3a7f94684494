//! The types of values that the program knows.
ghost use Rattle.std.specs.Prelude.{◌≡◌, ◌≢◌, ◌-◌, ◌^◌, ◌<◌, ◌⊎◌, ℕ, List, true, OnOk, IfSome, MatchOption};
ghost use Rattle.std.specs.Io.KnownBytes.{Appends, IsAtEnd, Keeps};
ghost use Rattle.yasna.specs.base.Error.{kind_of};
ghost use Rattle.yasna_tool_run.specs.Engine.{IfRejected, IfIoError};
ghost use Rattle.yasna_tool_run.specs.Kinds.{Recodes};
ghost use Rattle.yasna_tool_run.specs.Words.{kind_word};
ghost use Rattle.yasna_tool_run.specs.declared.value_type.ValueType.{ValueType};

use crate::ends::{Sink, Source};
use crate::engine::{RunFault, run};
use std::alloc::Global;
use yasna::models::{GeneralizedTime, ObjectIdentifier, UTCTime};
use yasna::{ASN1ErrorKind, BERMode};

/// A type of values that the program knows.
#[derive(Clone, Copy, PartialEq, Eq, Debug)]
pub enum ValueType {
    Pair,
    Int,
    Bool,
    Null,
    Octets,
    Text,
    Oid,
    Utime,
    Gtime,
    Ints,
}

/// The type of this name.
pub fn kind_named(word: &str) -> Option<ValueType>
    ensures { MatchOption result ((k : ValueType) → word.now ≡ kind_word k → ⊥) (λ k. word.now ≡ kind_word k) }
{
    match word {
        "pair" => Some(ValueType::Pair),
        "int" => Some(ValueType::Int),
        "bool" => Some(ValueType::Bool),
        "null" => Some(ValueType::Null),
        "octets" => Some(ValueType::Octets),
        "text" => Some(ValueType::Text),
        "oid" => Some(ValueType::Oid),
        "utime" => Some(ValueType::Utime),
        "gtime" => Some(ValueType::Gtime),
        "ints" => Some(ValueType::Ints),
        _ => None,
    }
}

/// Runs over values of this type.
pub fn run_kind<R: Source, W: Sink>(
    alloc: Global,
    mode: BERMode,
    kind: ValueType,
    reader: &mut R,
    writer: &mut W,
) -> Result<(), RunFault>
    requires reads { R.failed reader.old < 2 ^ 64 - 1 }
    requires writes { W.failed writer.old < 2 ^ 64 - 1 }
    ensures to_the_end { OnOk result (IsAtEnd (R.remaining reader.new)) }
    ensures flushed { OnOk result (W.flushed writer.new ≡ true) }
    // The bytes are a value of the kind, whose encoding was written.
    ensures recoded { OnOk result (IfSome (R.remaining reader.old) (λ s. (out : List ℕ) × Recodes kind mode s out × Appends (W.contents writer.old) (W.contents writer.new) out)) }
    // Unless memory runs out, only bytes that are no value of the type are rejected.
    ensures none { IfRejected result (λ e. kind_of e ≢ ASN1ErrorKind.OutOfMemory → IfSome (R.remaining reader.old) (λ s. (out : List ℕ) → Recodes kind mode s out → ⊥)) }
    ensures rejected { IfRejected result (λ _. Keeps (W.contents writer.old) (W.contents writer.new)) }
    ensures io_error { IfIoError result ((R.failed reader.old < R.failed reader.new)
        ⊎ (W.failed writer.old < W.failed writer.new)) }
    ensures failed_read { R.failed reader.old < R.failed reader.new → Keeps (W.contents writer.old) (W.contents writer.new) }
{
    match kind {
        ValueType::Pair => run::<(i64, bool), R, W>(alloc, mode, reader, writer),
        ValueType::Int => run::<i64, R, W>(alloc, mode, reader, writer),
        ValueType::Bool => run::<bool, R, W>(alloc, mode, reader, writer),
        ValueType::Null => run::<(), R, W>(alloc, mode, reader, writer),
        ValueType::Octets => run::<Vec<u8>, R, W>(alloc, mode, reader, writer),
        ValueType::Text => run::<String, R, W>(alloc, mode, reader, writer),
        ValueType::Oid => run::<ObjectIdentifier, R, W>(alloc, mode, reader, writer),
        ValueType::Utime => run::<UTCTime, R, W>(alloc, mode, reader, writer),
        ValueType::Gtime => run::<GeneralizedTime, R, W>(alloc, mode, reader, writer),
        ValueType::Ints => run::<Vec<i64>, R, W>(alloc, mode, reader, writer),
    }
}
