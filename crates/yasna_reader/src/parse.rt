//! Parses of whole inputs, where users begin: one element that a callback reads, and nothing after it (X.690, 8 to 11).
ghost use Rattle.yasna_base.specs.declared.mode.BERMode.TheVariants.{Ber, Der, Cer};
ghost use Rattle.std.specs.Fn.{FnOnceTakesAtMut, FnOnceReturnsAtMut};
ghost use Rattle.yasna_reader.specs.State.{starts};
ghost use Rattle.yasna_reader.specs.Parse.{Parses, TryParses};

use crate::state::{BERReader, ReaderState};
use std::alloc::Global;
use yasna_base::error::{ASN1Error, ASN1ErrorKind, ASN1Result};
use yasna_base::mode::BERMode;

/// Reads bytes in a mode. The callback has to read all of them.
///
/// Returns the sticky error of the reading, if there is one; else the callback's Err; else `Extra` if bytes are left; else the
/// callback's value.
#[inline(always)]
pub fn parse_ber_general<'a, T: Drop, F>(
    alloc: Global,
    buf: &'a [u8],
    mode: BERMode,
    callback: F,
) -> ASN1Result<T>
where
    F: for<'b> FnOnce(BERReader<'a, 'b>) -> ASN1Result<T>,
    requires { FnOnceTakesAtMut F.FnOnce callback (starts buf.now mode) }
    ensures { Parses (FnOnceReturnsAtMut F.FnOnce callback) mode buf.now result }
{
    try_parse(alloc, buf, mode, callback)
}

/// Reads bytes by the basic encoding rules (X.690, clause 8), as `parse_ber_general` does.
#[inline(always)]
pub fn parse_ber<'a, T: Drop, F>(alloc: Global, buf: &'a [u8], callback: F) -> ASN1Result<T>
where
    F: for<'b> FnOnce(BERReader<'a, 'b>) -> ASN1Result<T>,
    requires { FnOnceTakesAtMut F.FnOnce callback (starts buf.now Ber) }
    ensures { Parses (FnOnceReturnsAtMut F.FnOnce callback) Ber buf.now result }
{
    parse_ber_general(alloc, buf, BERMode::Ber, callback)
}

/// Reads bytes by the distinguished encoding rules (X.690, clause 10), as `parse_ber_general` does.
#[inline(always)]
pub fn parse_der<'a, T: Drop, F>(alloc: Global, buf: &'a [u8], callback: F) -> ASN1Result<T>
where
    F: for<'b> FnOnce(BERReader<'a, 'b>) -> ASN1Result<T>,
    requires { FnOnceTakesAtMut F.FnOnce callback (starts buf.now Der) }
    ensures { Parses (FnOnceReturnsAtMut F.FnOnce callback) Der buf.now result }
{
    parse_ber_general(alloc, buf, BERMode::Der, callback)
}

/// Reads bytes by the canonical encoding rules (X.690, clause 9), as `parse_ber_general` does.
#[inline(always)]
pub fn parse_cer<'a, T: Drop, F>(alloc: Global, buf: &'a [u8], callback: F) -> ASN1Result<T>
where
    F: for<'b> FnOnce(BERReader<'a, 'b>) -> ASN1Result<T>,
    requires { FnOnceTakesAtMut F.FnOnce callback (starts buf.now Cer) }
    ensures { Parses (FnOnceReturnsAtMut F.FnOnce callback) Cer buf.now result }
{
    parse_ber_general(alloc, buf, BERMode::Cer, callback)
}

/// Reads bytes by the basic encoding rules (X.690, clause 8), where the callback returns its own type of errors.
///
/// Returns as `parse_ber_general` does, with the errors of the reading turned into `E`.
#[inline(always)]
pub fn try_parse_ber<'a, T: Drop, E: From<ASN1Error> + Drop, F>(
    alloc: Global,
    buf: &'a [u8],
    callback: F,
) -> Result<T, E>
where
    F: for<'b> FnOnce(BERReader<'a, 'b>) -> Result<T, E>,
    requires { FnOnceTakesAtMut F.FnOnce callback (starts buf.now Ber) }
    ensures { TryParses (FnOnceReturnsAtMut F.FnOnce callback) E.from_gives Ber buf.now result }
{
    try_parse(alloc, buf, BERMode::Ber, callback)
}

/// Reads bytes by the distinguished encoding rules (X.690, clause 10), as `try_parse_ber` does.
#[inline(always)]
pub fn try_parse_der<'a, T: Drop, E: From<ASN1Error> + Drop, F>(
    alloc: Global,
    buf: &'a [u8],
    callback: F,
) -> Result<T, E>
where
    F: for<'b> FnOnce(BERReader<'a, 'b>) -> Result<T, E>,
    requires { FnOnceTakesAtMut F.FnOnce callback (starts buf.now Der) }
    ensures { TryParses (FnOnceReturnsAtMut F.FnOnce callback) E.from_gives Der buf.now result }
{
    try_parse(alloc, buf, BERMode::Der, callback)
}

/// Reads bytes by the canonical encoding rules (X.690, clause 9), as `try_parse_ber` does.
#[inline(always)]
pub fn try_parse_cer<'a, T: Drop, E: From<ASN1Error> + Drop, F>(
    alloc: Global,
    buf: &'a [u8],
    callback: F,
) -> Result<T, E>
where
    F: for<'b> FnOnce(BERReader<'a, 'b>) -> Result<T, E>,
    requires { FnOnceTakesAtMut F.FnOnce callback (starts buf.now Cer) }
    ensures { TryParses (FnOnceReturnsAtMut F.FnOnce callback) E.from_gives Cer buf.now result }
{
    try_parse(alloc, buf, BERMode::Cer, callback)
}

// Reads bytes in a mode.
#[inline(always)]
fn try_parse<'a, T: Drop, E: From<ASN1Error> + Drop, F>(
    alloc: Global,
    buf: &'a [u8],
    mode: BERMode,
    callback: F,
) -> Result<T, E>
where
    F: for<'b> FnOnce(BERReader<'a, 'b>) -> Result<T, E>,
    requires { FnOnceTakesAtMut F.FnOnce callback (starts buf.now mode) }
    ensures { TryParses (FnOnceReturnsAtMut F.FnOnce callback) E.from_gives mode buf.now result }
{
    let mut state = ReaderState::new(alloc, buf, mode);
    let returned = callback(&mut state);
    state.parsed(returned)
}

impl<'a> ReaderState<'a> {
    ghost use Rattle.yasna_reader.specs.Parse.{IsParsed};

    // The result of a parse whose callback returned this.
    #[inline(always)]
    pub(crate) fn parsed<T: Drop, E: From<ASN1Error> + Drop>(
        &self,
        returned: Result<T, E>,
    ) -> Result<T, E>
        ensures { IsParsed E.from_gives returned self.now result }
    {
        if let Some(error) = self.failed {
            return Err(E::from(error));
        }
        match returned {
            Ok(value) => {
                if self.cursor.left.is_empty() {
                    Ok(value)
                } else {
                    Err(E::from(ASN1Error::new(ASN1ErrorKind::Extra)))
                }
            }
            Err(error) => Err(error),
        }
    }
}
