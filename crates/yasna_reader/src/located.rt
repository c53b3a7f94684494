//! Parses of whole inputs that return the place of an error.
ghost use Rattle.yasna_base.specs.declared.mode.BERMode.TheVariants.{Ber, Der, Cer};
ghost use Rattle.std.specs.Fn.{FnOnceTakesAtMut, FnOnceReturnsAtMut};
ghost use Rattle.yasna_reader.specs.State.{starts};
ghost use Rattle.yasna_reader.specs.Located.{LocatesParse};

use crate::state::{BERReader, ReaderState};
use std::alloc::Global;
use std::error::Error;
use std::fmt;
use yasna_base::error::{ASN1Error, ASN1Result};
use yasna_base::mode::BERMode;

// The most elements that are around one which is read, or which is rejected as too deep.
const DEEPEST: usize = 101;

/// An error and its place in the input.
#[derive(Clone, Copy, PartialEq, Eq, Debug)]
pub struct Located {
    /// The error.
    pub error: ASN1Error,
    /// The offset of the element that was rejected, in bytes. If none is left, it is where that was found; if a callback rejected what
    /// it had read, it is where that ended.
    pub offset: usize,
    /// The number of elements around it, at most 101.
    pub depth: usize,
}

/// One line: the error, the offset and the depth.
impl fmt::Display for Located {
    ghost use Rattle.std.specs.Prelude.{Some};
    ghost use Rattle.yasna_reader.specs.Located.{located_text};

    ghost output = { λ l. Some (located_text l) };

    fn fmt<W: fmt::Write>(&self, f: &mut fmt::Formatter<W>) -> fmt::Result {
        write!(
            f,
            "{} at offset {}, depth {}",
            self.error, self.offset, self.depth
        )
    }
}

impl Error for Located {}

/// Reads bytes by the basic encoding rules (X.690, clause 8), as `parse_ber` does. An Err has its place.
#[inline(always)]
pub fn parse_ber_located<'a, T: Drop, F>(
    alloc: Global,
    buf: &'a [u8],
    callback: F,
) -> Result<T, Located>
where
    F: for<'b> FnOnce(BERReader<'a, 'b>) -> ASN1Result<T>,
    requires { FnOnceTakesAtMut F.FnOnce callback (starts buf.now Ber) }
    ensures { LocatesParse (FnOnceReturnsAtMut F.FnOnce callback) Ber buf.now result }
{
    parse_located(alloc, buf, BERMode::Ber, callback)
}

/// Reads bytes by the distinguished encoding rules (X.690, clause 10), as `parse_der` does. An Err has its place.
#[inline(always)]
pub fn parse_der_located<'a, T: Drop, F>(
    alloc: Global,
    buf: &'a [u8],
    callback: F,
) -> Result<T, Located>
where
    F: for<'b> FnOnce(BERReader<'a, 'b>) -> ASN1Result<T>,
    requires { FnOnceTakesAtMut F.FnOnce callback (starts buf.now Der) }
    ensures { LocatesParse (FnOnceReturnsAtMut F.FnOnce callback) Der buf.now result }
{
    parse_located(alloc, buf, BERMode::Der, callback)
}

/// Reads bytes by the canonical encoding rules (X.690, clause 9), as `parse_cer` does. An Err has its place.
#[inline(always)]
pub fn parse_cer_located<'a, T: Drop, F>(
    alloc: Global,
    buf: &'a [u8],
    callback: F,
) -> Result<T, Located>
where
    F: for<'b> FnOnce(BERReader<'a, 'b>) -> ASN1Result<T>,
    requires { FnOnceTakesAtMut F.FnOnce callback (starts buf.now Cer) }
    ensures { LocatesParse (FnOnceReturnsAtMut F.FnOnce callback) Cer buf.now result }
{
    parse_located(alloc, buf, BERMode::Cer, callback)
}

// Reads bytes in a mode, and returns the place of an error.
#[inline(always)]
fn parse_located<'a, T: Drop, F>(
    alloc: Global,
    buf: &'a [u8],
    mode: BERMode,
    callback: F,
) -> Result<T, Located>
where
    F: for<'b> FnOnce(BERReader<'a, 'b>) -> ASN1Result<T>,
    requires { FnOnceTakesAtMut F.FnOnce callback (starts buf.now mode) }
    ensures { LocatesParse (FnOnceReturnsAtMut F.FnOnce callback) mode buf.now result }
{
    let mut state = ReaderState::new(alloc, buf, mode);
    let returned = callback(&mut state);
    state.located(returned, buf)
}

impl<'a> ReaderState<'a> {
    ghost use Rattle.yasna_reader.specs.Located.{IsLocated, IsParsedWithPlace};

    // The result of a parse of these bytes whose callback returned this.
    #[inline(always)]
    fn located<T: Drop>(&self, returned: ASN1Result<T>, buf: &[u8]) -> Result<T, Located>
        ensures { IsParsedWithPlace returned self.now buf.now result }
    {
        match self.parsed(returned) {
            Ok(value) => Ok(value),
            Err(error) => Err(self.locate(error, buf)),
        }
    }

    // The place where an error was found in these bytes.
    #[cold]
    fn locate(&self, error: ASN1Error, buf: &[u8]) -> Located
        ensures { IsLocated error buf.now result }
    {
        Located {
            error,
            offset: self.place().min(buf.len()),
            depth: usize::from(self.deeper).min(DEEPEST),
        }
    }
}
