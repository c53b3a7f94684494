//! Reads under explicit and implicit tags (X.690, 8.14). Users call them on a reader.

use crate::callback::Outcome;
use crate::state::{BERReader, ReaderState};
use yasna_base::error::ASN1Result;
use yasna_base::tag::Tag;

impl<'a> ReaderState<'a> {
    ghost use Rattle.std.specs.Prelude.{None, ◌≡◌};
    ghost use Rattle.std.specs.Fn.{FnOnceTakesAtMut, FnOnceReturnsAtMut};
    ghost use Rattle.yasna_reader.specs.Sequence.{TakesContents, ReadsParts};
    ghost use Rattle.yasna_reader.specs.Tagged.{ReadsImplicitly, reading_under};

    /// Reads a constructed element of this tag, explicit tagging (X.690, 8.14): the callback reads the element inside.
    ///
    /// An implicit tag that waits is in place of this one. An error in the callback is sticky, whatever it returns.
    #[inline(always)]
    #[tactic(auto, using(crate::proofs::Sequences::stepped_in, crate::proofs::Sequences::stayed_out, crate::proofs::Sequences::takes_inside))]
    pub fn read_tagged<T: Drop, F>(&mut self, tag: Tag, f: F) -> ASN1Result<T>
    where
        F: FnOnce(BERReader<'a, '_>) -> ASN1Result<T>,
        requires { TakesContents (FnOnceTakesAtMut F.FnOnce f) tag self.old }
        ensures { ReadsParts (FnOnceReturnsAtMut F.FnOnce f) tag self.old result self.new }
    {
        let opened = self.step_in(tag)?;
        let mut contents = self.contents_reader(&opened);
        let returned = f(&mut contents);
        self.leave(&opened, &returned, &contents)?;
        returned
    }

    /// Puts this tag in place of that of the next element that the callback reads, implicit tagging (X.690, 8.14).
    ///
    /// An implicit tag that waits already is in place of this one: the outermost wins. An Err of the callback is sticky if it consumed
    /// input, or is `StackOverflow` or `OutOfMemory`. Any other leaves the reading as it was, and the tag that waited waits again.
    #[inline(always)]
    pub fn read_tagged_implicit<T: Drop, F>(&mut self, tag: Tag, f: F) -> ASN1Result<T>
    where
        F: FnOnce(BERReader<'a, '_>) -> ASN1Result<T>,
        requires { self.old.failed ≡ None → FnOnceTakesAtMut F.FnOnce f (reading_under tag self.old) }
        ensures { ReadsImplicitly (FnOnceReturnsAtMut F.FnOnce f) tag self.old result self.new }
    {
        if let Some(error) = self.failed {
            return Err(error);
        }
        let value = match self.hand_under(Some(self.expected(tag)), f) {
            Outcome::Matched(value) => value,
            Outcome::NoMatch(error) | Outcome::Failed(error) => return Err(error),
        };
        Ok(value)
    }
}
