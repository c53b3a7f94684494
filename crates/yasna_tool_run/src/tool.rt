//! The program over any two ends: arguments, texts of errors, exit statuses.
ghost use Rattle.std.specs.Prelude.{◌≡◌, ◌-◌, ◌^◌, ◌<◌, ◌≤◌, ◌⊎◌, ℕ, List, true, map, IfSome, MatchOption};
ghost use Rattle.std.specs.Io.KnownBytes.{Appends, IsAtEnd, Keeps};
ghost use Rattle.std.specs.String.{string_bytes};
ghost use Rattle.yasna.specs.base.declared.mode.BERMode.{BERMode};
ghost use Rattle.yasna_tool_run.specs.Kinds.{Recodes};
ghost use Rattle.yasna_tool_run.specs.Words.{mode_word, AreWords, AreTaken};
ghost use Rattle.yasna_tool_run.specs.declared.value_type.ValueType.{ValueType};

use crate::ends::{Sink, Source};
use crate::engine::RunFault;
use crate::value_type::{ValueType, kind_named, run_kind};
use std::alloc::Global;
use std::io::Write;
use yasna::{ASN1Error, BERMode};

/// Reports that a read or a write failed, or that there are no arguments to read, and returns the status of an I/O error.
pub fn report_io_error<E: Write>(errors: &mut E) -> u8
    ensures { result ≡ 3 }
{
    let _ = errors.write_all(b"io\n");
    3
}

/// Prints the usage, and returns the status of a usage error.
fn report_usage<E: Write>(errors: &mut E) -> u8
    ensures { result ≡ 2 }
{
    let _ = errors.write_all(b"usage: yasna_tool ber|der|cer KIND\n");
    2
}

/// Reports why the bytes were rejected, and returns the status of that.
fn report_rejection<E: Write>(errors: &mut E, error: ASN1Error) -> u8
    ensures { result ≡ 1 }
{
    let _ = writeln!(errors, "{error}");
    1
}

/// The mode of this name.
fn mode_named(word: &str) -> Option<BERMode>
    ensures { MatchOption result ((m : BERMode) → word.now ≡ mode_word m → ⊥) (λ m. word.now ≡ mode_word m) }
{
    match word {
        "ber" => Some(BERMode::Ber),
        "der" => Some(BERMode::Der),
        "cer" => Some(BERMode::Cer),
        _ => None,
    }
}

/// The mode and the type that the words name, if they name nothing else.
fn named(words: &[String]) -> Option<(BERMode, ValueType)>
    ensures { MatchOption result (AreTaken (map string_bytes words.now) → ⊥) (λ x. AreWords x.0 x.1 (map string_bytes words.now)) }
{
    let [mode, kind] = words else {
        return None;
    };
    match (mode_named(mode.as_str()), kind_named(kind.as_str())) {
        (Some(mode), Some(kind)) => Some((mode, kind)),
        _ => None,
    }
}

/// Runs the program on the words after its name, and returns its exit status.
///
/// An error's text goes to `errors`, and a failure to write it changes nothing.
pub fn tool<R: Source, W: Sink, E: Write>(
    alloc: Global,
    words: &[String],
    reader: &mut R,
    writer: &mut W,
    errors: &mut E,
) -> u8
    requires reads { R.failed reader.old < 2 ^ 64 - 1 }
    requires writes { W.failed writer.old < 2 ^ 64 - 1 }
    ensures status { result ≤ 3 }
    ensures ok { result ≡ 0 → IsAtEnd (R.remaining reader.new) }
    ensures flushed { result ≡ 0 → W.flushed writer.new ≡ true }
    // The words name a mode and a kind, and the DER encoding was written of what the bytes are in these.
    ensures recoded { result ≡ 0 → (m : BERMode) × (k : ValueType) × AreWords m k (map string_bytes words.now) × IfSome (R.remaining reader.old) (λ s. (out : List ℕ) × Recodes k m s out × Appends (W.contents writer.old) (W.contents writer.new) out) }
    ensures rejected { result ≡ 1 → Keeps (W.contents writer.old) (W.contents writer.new) }
    ensures taken { AreTaken (map string_bytes words.now) ⊎ (result ≡ 2) }
    ensures not_taken { result ≡ 2 → AreTaken (map string_bytes words.now) → ⊥ }
    ensures usage { result ≡ 2 → (reader.new ≡ reader.old) × (writer.new ≡ writer.old) }
    ensures io_error { result ≡ 3 → (R.failed reader.old < R.failed reader.new)
        ⊎ (W.failed writer.old < W.failed writer.new) }
    ensures failed_read { R.failed reader.old < R.failed reader.new → Keeps (W.contents writer.old) (W.contents writer.new) }
{
    let Some((mode, kind)) = named(words) else {
        return report_usage(errors);
    };
    match run_kind(alloc, mode, kind, reader, writer) {
        Ok(()) => 0,
        Err(RunFault::Refused(error)) => report_rejection(errors, error),
        Err(RunFault::Device) => report_io_error(errors),
    }
}
