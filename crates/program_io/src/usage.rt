//! Help, the version and usage errors.
ghost use Rattle.std.specs.Prelude.{◌≡◌, ◌≢◌, ◌⊎◌};
ghost use Rattle.clap.specs.Values.{kind_of};
ghost use Rattle.clap.specs.declared.error.kind.ErrorKind.{ErrorKind};

use crate::error::ProgramError;
use clap::Error;
use clap::error::ErrorKind;

// The exit status after a usage error.
const USAGE_ERROR: u8 = 2;

// The exit status if nothing can be printed.
const IO_ERROR: u8 = 3;

/// The version of the programs, and the logic in which they are proved, as `rt version` prints it.
pub const VERSION: &str = "0.6.0, logic dac8208d650f15bf";

/// Prints why a command line gives no options, and returns the exit status.
///
/// It is 0 after help or the version, and 2 after a usage error; 3 if nothing can be printed, or memory ran out.
pub fn explain(rt: &HostRuntime, error: &Error) -> u8
    ensures shown { (kind_of error.now ≡ ErrorKind.DisplayHelp) ⊎ (kind_of error.now ≡ ErrorKind.DisplayVersion) → (result ≡ 0) ⊎ (result ≡ 3) }
    ensures memory { kind_of error.now ≡ ErrorKind.OutOfMemory → result ≡ 3 }
    ensures usage { (kind_of error.now ≢ ErrorKind.DisplayHelp) → (kind_of error.now ≢ ErrorKind.DisplayVersion) → (result ≡ 2) ⊎ (result ≡ 3) }
{
    if error.kind() == ErrorKind::OutOfMemory {
        return ProgramError::Memory.report(rt);
    }
    if error.print(rt).is_err() {
        return IO_ERROR;
    }
    if error.use_stderr() { USAGE_ERROR } else { 0 }
}
