//! Reads that also return the bytes that they consumed, as a signature over an element needs them: `read_with_buffer` of a reader
//! and of a SEQUENCE's parts, which users call.

use crate::callback::Outcome;
use crate::state::{BERReader, BERReaderSeq, PartsReader, ReaderState};
use yasna_base::error::ASN1Result;

impl<'a> ReaderState<'a> {
    ghost use Rattle.std.specs.Prelude.{List, None, ℕ, ◌++◌, ◌≡◌};
    ghost use Rattle.std.specs.Fn.{FnOnceTakesAtMut, FnOnceReturnsAtMut};
    ghost use Rattle.yasna_reader.specs.Buffer.{Buffered, ReadsBuffer};

    // The outcome of a callback, with the bytes that it consumed of these.
    #[inline(always)]
    fn with_taken<T: Drop>(
        &self,
        before: &'a [u8],
        outcome: Outcome<T>,
    ) -> ASN1Result<(T, &'a [u8])>
        requires { (taken : List ℕ) × (before.now ≡ taken ++ self.now.left) }
        ensures { Buffered before.now outcome result self.now.left }
    {
        let value = match outcome {
            Outcome::Matched(value) => value,
            Outcome::NoMatch(error) | Outcome::Failed(error) => return Err(error),
        };
        let taken = before.len() - self.cursor.left.len();
        Ok((value, &before[..taken]))
    }

    /// Reads what the callback reads, and returns the bytes that it consumed beside its value.
    ///
    /// The bytes are the input's own: they outlive this reading. An implicit tag that waits is passed on, and waits again where
    /// the callback's Err consumed nothing.
    #[inline(always)]
    pub fn read_with_buffer<T: Drop, F>(&mut self, f: F) -> ASN1Result<(T, &'a [u8])>
    where
        F: FnOnce(BERReader<'a, '_>) -> ASN1Result<T>,
        requires { self.old.failed ≡ None → FnOnceTakesAtMut F.FnOnce f self.old }
        ensures { ReadsBuffer (FnOnceReturnsAtMut F.FnOnce f) self.old result self.new }
    {
        if let Some(error) = self.failed {
            return Err(error);
        }
        let before = self.cursor.left;
        let outcome = self.hand_under(self.tag, f);
        self.with_taken(before, outcome)
    }
}

impl<'a> PartsReader<ReaderState<'a>> {
    ghost use Rattle.std.specs.Prelude.{None, ◌≡◌};
    ghost use Rattle.std.specs.Fn.{FnOnceTakesAtMut};
    ghost use Rattle.yasna_reader.specs.Buffer.{ReadsBuffer};
    ghost use Rattle.yasna_reader.specs.Sequence.{Runs};
    ghost use Rattle.yasna_reader.specs.State.{part_of, untagged};

    /// Reads what the callback reads of these parts, and returns the bytes that it consumed beside its value.
    ///
    /// The bytes are the input's own: they outlive this reading.
    #[inline(always)]
    pub fn read_with_buffer<T: Drop, F>(&mut self, f: F) -> ASN1Result<(T, &'a [u8])>
    where
        F: FnOnce(&mut BERReaderSeq<'a, '_>) -> ASN1Result<T>,
        requires { (part_of self.old).failed ≡ None → FnOnceTakesAtMut F.FnOnce f (record { reader = untagged (part_of self.old) }) }
        ensures { ReadsBuffer (Runs F.FnOnce f) (untagged (part_of self.old)) result (part_of self.new) }
    {
        self.reader.untag();
        if let Some(error) = self.reader.failed {
            return Err(error);
        }
        let before = self.reader.cursor;
        let returned = f(self);
        let outcome = self.reader.take_back(before, returned);
        self.reader.with_taken(before.left, outcome)
    }
}
