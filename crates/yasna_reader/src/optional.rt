//! Reads of parts of a SEQUENCE that may be omitted: OPTIONAL and DEFAULT (X.690, 8.9.3 and 11.5). Users call them on the parts
//! that a callback is handed; `set_optional` shares the test of a value against its default.
ghost use Rattle.std.specs.Prelude.{IsTrue, ◌↔◌};
ghost use Rattle.yasna_reader.specs.Optional.{TakesDefault};

use crate::callback::Outcome;
use crate::state::{BERReader, PartsReader, ReaderState};
use yasna_base::error::{ASN1Error, ASN1ErrorKind, ASN1Result};
use yasna_base::mode::BERMode;

// Whether a mode accepts a value that is its default (X.690, 11.5).
#[inline(always)]
fn takes_default(mode: BERMode) -> bool
    ensures { IsTrue result ↔ TakesDefault mode }
{
    match mode {
        BERMode::Ber => true,
        BERMode::Der => false,
        BERMode::Cer => false,
    }
}

impl<'a> ReaderState<'a> {
    ghost use Rattle.std.specs.Prelude.{length};
    ghost use Rattle.yasna_reader.specs.Optional.{DefaultsTo, UnlessDefault};

    // A value that was read, unless it is the default and the mode rejects that. The error is sticky if input was consumed.
    #[inline(always)]
    pub(crate) fn unless_default<T: Eq + Drop>(
        &mut self,
        place: usize,
        value: T,
        default: T,
        consumed: bool,
    ) -> ASN1Result<T>
        ensures { UnlessDefault T.eq default value consumed self.old result self.new }
    {
        if takes_default(self.cursor.mode) || value != default {
            return Ok(value);
        }
        let error = ASN1Error::new(ASN1ErrorKind::Invalid);
        if consumed {
            self.set_place(place, 0);
            self.failed = Some(error);
        }
        Err(error)
    }

    // The value of a part with this default, by the outcome of the callback that read it.
    #[inline(always)]
    fn or_default<T: Eq + Drop>(
        &mut self,
        before: usize,
        outcome: Outcome<T>,
        default: T,
    ) -> ASN1Result<T>
        ensures { DefaultsTo T.eq default before outcome self.old result self.new }
    {
        let value = match outcome {
            Outcome::Matched(value) => value,
            Outcome::NoMatch(_) => return Ok(default),
            Outcome::Failed(error) => return Err(error),
        };
        let consumed = self.cursor.left.len() < before;
        let place = self.place_before(before);
        self.unless_default(place, value, default, consumed)
    }
}

impl<'a> PartsReader<ReaderState<'a>> {
    ghost use Rattle.std.specs.Prelude.{None, ◌≡◌};
    ghost use Rattle.std.specs.Fn.{FnOnceTakesAtMut, FnOnceReturnsAtMut};
    ghost use Rattle.yasna_reader.specs.Optional.{ReadsOptional, ReadsDefault};
    ghost use Rattle.yasna_reader.specs.State.{part_of, untagged};

    /// Reads a part that may be omitted (X.690, 8.9.3).
    ///
    /// Returns `None` if the callback failed without consuming anything: the part is absent. Any other error is returned, and is
    /// sticky; so are `OutOfMemory` and `StackOverflow`, even if nothing was consumed.
    #[inline(always)]
    pub fn read_optional<T: Drop, F>(&mut self, f: F) -> ASN1Result<Option<T>>
    where
        F: FnOnce(BERReader<'a, '_>) -> ASN1Result<T>,
        requires { (part_of self.old).failed ≡ None → FnOnceTakesAtMut F.FnOnce f (untagged (part_of self.old)) }
        ensures { ReadsOptional (FnOnceReturnsAtMut F.FnOnce f) (part_of self.old) result (part_of self.new) }
    {
        let reader = &mut self.reader;
        if let Some(error) = reader.failed {
            return Err(error);
        }
        reader.untag();
        let value = match reader.hand(f) {
            Outcome::Matched(value) => value,
            Outcome::NoMatch(_) => return Ok(None),
            Outcome::Failed(error) => return Err(error),
        };
        Ok(Some(value))
    }

    /// Reads a part with a default, as `read_optional` does: an absent part is the default.
    ///
    /// In DER and CER a part that equals the default is rejected as `Invalid` (X.690, 11.5).
    #[inline(always)]
    pub fn read_default<T: Eq + Drop, F>(&mut self, default: T, f: F) -> ASN1Result<T>
    where
        F: FnOnce(BERReader<'a, '_>) -> ASN1Result<T>,
        requires { (part_of self.old).failed ≡ None → FnOnceTakesAtMut F.FnOnce f (untagged (part_of self.old)) }
        ensures { ReadsDefault (FnOnceReturnsAtMut F.FnOnce f) T.eq default (part_of self.old) result (part_of self.new) }
    {
        let reader = &mut self.reader;
        if let Some(error) = reader.failed {
            return Err(error);
        }
        reader.untag();
        let before = reader.cursor.left.len();
        let outcome = reader.hand(f);
        reader.or_default(before, outcome, default)
    }
}
