//! How a reading is handed to a callback and taken back, for the calls with callbacks: `optional`, `set_optional`, `tagged`,
//! `buffer` and `sequence_of`.
//!
//! Of the reading that a callback left, only its sticky error counts, and the number of bytes that are left. A callback under an
//! implicit tag, or whose bytes are returned too, is lent a copy: the reading stays as it is where there is no match, with the tag that
//! waited.
ghost use Rattle.std.specs.Prelude.{IsTrue, ◌↔◌, ◌≡◌, length};
ghost use Rattle.yasna_bytes.specs.Rejection.{BlamesBytes};

use crate::state::{BERReader, ReaderState};
use yasna_base::error::{ASN1Error, ASN1ErrorKind, ASN1Result};
use yasna_base::tag::Tag;
use yasna_bytes::bytes::cursor::Cursor;

/// The outcome of a callback.
#[derive(Drop)]
pub enum Outcome<T> {
    /// A value, with no sticky error.
    Matched(T),
    /// An Err that consumed nothing and is neither `StackOverflow` nor `OutOfMemory`, with no sticky error.
    NoMatch(ASN1Error),
    /// An error, which is sticky.
    Failed(ASN1Error),
}

// Whether a kind is neither `StackOverflow` nor `OutOfMemory`.
#[inline(always)]
fn blames_bytes(kind: ASN1ErrorKind) -> bool
    ensures { IsTrue result ↔ BlamesBytes kind }
{
    match kind {
        ASN1ErrorKind::StackOverflow | ASN1ErrorKind::OutOfMemory => false,
        _ => true,
    }
}

impl<'a> ReaderState<'a> {
    ghost use Rattle.std.specs.Prelude.{Err, None, length, ◌≡◌};
    ghost use Rattle.std.specs.Fn.{FnOnceTakesAtMut, FnOnceReturnsAtMut};
    ghost use Rattle.yasna_base.specs.Error.{kind_of};
    ghost use Rattle.yasna_reader.specs.Callback.{ConsumedNothing, ComesTo, Barred, BarredBy, Hands, Lent, FailsAs, Regains, WithSome, at_cursor, advanced_as};
    ghost use Rattle.yasna_reader.specs.State.{failing};

    // Hands this reading to a callback, and takes it back.
    #[inline(always)]
    pub(crate) fn hand<T: Drop, F>(&mut self, f: F) -> Outcome<T>
    where
        F: FnOnce(BERReader<'a, '_>) -> ASN1Result<T>,
        requires { FnOnceTakesAtMut F.FnOnce f self.old }
        ensures { Hands (FnOnceReturnsAtMut F.FnOnce f) self.old result self.new }
    {
        let before = self.cursor;
        let returned = f(self);
        self.take_back(before, returned)
    }

    // Lends a callback a copy of this reading, with this tag in place of the one that waits. Where the callback has no match, this
    // reading is as it was. The copy is made word by word: sixteen bytes at once would wait for two words that were just stored.
    #[inline(always)]
    pub(crate) fn hand_under<T: Drop, F>(&mut self, tag: Option<Tag>, f: F) -> Outcome<T>
    where
        F: FnOnce(BERReader<'a, '_>) -> ASN1Result<T>,
        requires failed { self.old.failed ≡ None }
        requires may { FnOnceTakesAtMut F.FnOnce f (record self.old { tag = tag }) }
        ensures { Lent (FnOnceReturnsAtMut F.FnOnce f) (record self.old { tag = tag }) self.old result self.new }
    {
        let mut lent = ReaderState {
            cursor: self.cursor.further(self.cursor.left),
            tag,
            failed: None,
            deeper: 0,
            alloc: self.alloc,
        };
        let returned = f(&mut lent);
        self.regain(&lent, returned)
    }

    // The outcome of a callback that left this of a copy and returned this result, which is tested first, as in `leave`.
    #[inline(always)]
    #[tactic(auto, using(crate::proofs::Callbacks::barred_regains))]
    fn regain<T: Drop>(&mut self, lent: &ReaderState<'a>, returned: ASN1Result<T>) -> Outcome<T>
        requires { self.old.failed ≡ None }
        ensures { Regains returned lent.now self.old result self.new }
    {
        let error = match returned {
            Ok(value) => match self.barred_by(lent) {
                None => {
                    self.advance(lent);
                    return Outcome::Matched(value);
                }
                Some(failed) => failed,
            },
            Err(error) => match self.barred_by(lent) {
                None => {
                    if self.has_no_match(lent, error) {
                        return Outcome::NoMatch(error);
                    }
                    error
                }
                Some(failed) => failed,
            },
        };
        self.fail_as(lent, error)
    }

    // Whether an Err is no match, where nothing bars going on.
    #[inline(always)]
    fn has_no_match(&self, lent: &ReaderState<'a>, error: ASN1Error) -> bool
        ensures { IsTrue result ↔ (ConsumedNothing self.now.left lent.now × BlamesBytes (kind_of error)) }
    {
        lent.cursor.left.len() == self.cursor.left.len() && blames_bytes(error.kind())
    }

    // The error that bars going on where a callback left this of a copy.
    #[inline(always)]
    fn barred_by(&self, lent: &ReaderState<'a>) -> Option<ASN1Error>
        ensures { BarredBy self.now lent.now result }
    {
        if let Some(error) = lent.failed {
            return Some(error);
        }
        if self.cursor.left.len() < lent.cursor.left.len() {
            return Some(ASN1Error::new(ASN1ErrorKind::Invalid));
        }
        None
    }

    // Goes on at the place where a callback left a copy.
    #[inline(always)]
    fn advance(&mut self, lent: &ReaderState<'a>)
        ensures { self.new ≡ record (advanced_as self.old lent.now) { failed = self.old.failed } }
    {
        let all = self.cursor.left.len();
        let remaining = lent.cursor.left.len();
        self.untag();
        self.cursor.left = &self.cursor.left[all.saturating_sub(remaining)..];
    }

    // As `advance`, with an error, which stays at its place if it was sticky in the copy.
    #[inline(always)]
    fn fail_as<T>(&mut self, lent: &ReaderState<'a>, error: ASN1Error) -> Outcome<T>
        ensures { FailsAs error (advanced_as self.old lent.now) result self.new }
    {
        self.advance(lent);
        if lent.failed.is_some() {
            self.set_place(lent.place_of_error(), lent.deeper);
        }
        self.fail_outcome(error)
    }

    // The outcome of a callback that began at this place and returned this result, which is tested first, as in `leave`. The reading
    // goes on where the callback left it.
    #[inline(always)]
    #[tactic(auto, using(crate::proofs::Callbacks::place_unconsumed, crate::proofs::Callbacks::barred_fails))]
    pub(crate) fn take_back<T: Drop>(
        &mut self,
        before: Cursor<'a>,
        returned: ASN1Result<T>,
    ) -> Outcome<T>
        ensures { ComesTo (at_cursor before.entry) returned self.old result self.new }
    {
        let value = match returned {
            Ok(value) => value,
            Err(error) => return self.take_back_failed(before, error),
        };
        if let Some(error) = self.barred(before) {
            return Outcome::Failed(error);
        }
        self.go_on(before);
        Outcome::Matched(value)
    }

    // As `take_back`, of a result that stays where it is.
    #[inline(always)]
    #[tactic(auto, using(crate::proofs::Callbacks::barred_fails, crate::proofs::Callbacks::none_given))]
    pub(crate) fn look_back<T>(
        &mut self,
        before: Cursor<'a>,
        returned: &ASN1Result<T>,
    ) -> Outcome<()>
        ensures { WithSome (λ o. ComesTo (at_cursor before.entry) returned.now self.old o self.new) result }
    {
        match returned {
            Ok(_) => {
                if let Some(error) = self.barred(before) {
                    return Outcome::Failed(error);
                }
                self.go_on(before);
                Outcome::Matched(())
            }
            Err(error) => self.take_back_failed(before, *error),
        }
    }

    // The outcome of a callback that returned an Err.
    #[inline(always)]
    #[tactic(auto, using(crate::proofs::Callbacks::place_unconsumed, crate::proofs::Callbacks::barred_fails))]
    fn take_back_failed<T>(&mut self, before: Cursor<'a>, error: ASN1Error) -> Outcome<T>
        ensures { ComesTo (at_cursor before.entry) (Err error) self.old result self.new }
    {
        if let Some(failed) = self.barred(before) {
            return Outcome::Failed(failed);
        }
        if self.cursor.left.len() == before.left.len() && blames_bytes(error.kind()) {
            self.go_back(before);
            return Outcome::NoMatch(error);
        }
        self.fail_back(before, error)
    }

    // The error that bars going on where a callback left this reading, whatever it returned: its sticky error, or a place before
    // the one where it began. It is sticky.
    #[inline(always)]
    fn barred(&mut self, before: Cursor<'a>) -> Option<ASN1Error>
        ensures { Barred (at_cursor before.entry) self.old result self.new }
    {
        if let Some(error) = self.failed {
            self.go_on_failed(before);
            return Some(error);
        }
        if before.left.len() < self.cursor.left.len() {
            let error = ASN1Error::new(ASN1ErrorKind::Invalid);
            self.go_on(before);
            self.failed = Some(error);
            return Some(error);
        }
        None
    }

    // Goes back to the place where a callback began.
    #[inline(always)]
    fn go_back(&mut self, before: Cursor<'a>)
        ensures { self.new ≡ record (at_cursor before.entry) { failed = self.old.failed } }
    {
        self.cursor = before;
        self.untag();
    }

    // Goes on at the place where a callback left this reading.
    #[inline(always)]
    fn go_on(&mut self, before: Cursor<'a>)
        ensures { self.new ≡ record (advanced_as (at_cursor before.entry) self.old) { failed = self.old.failed } }
    {
        let all = before.left.len();
        let remaining = self.cursor.left.len();
        self.go_back(before);
        self.cursor.left = &before.left[all.saturating_sub(remaining)..];
    }

    // As `go_on`, of a reading with a sticky error, which stays at the place where that was found.
    #[inline(always)]
    fn go_on_failed(&mut self, before: Cursor<'a>)
        ensures { self.new ≡ record (advanced_as (at_cursor before.entry) self.old) { failed = self.old.failed } }
    {
        let place = self.place_of_error();
        self.go_on(before);
        self.set_place(place, self.deeper);
    }

    // The outcome of a callback after which this error is found.
    #[inline(always)]
    fn fail_back<T>(&mut self, before: Cursor<'a>, error: ASN1Error) -> Outcome<T>
        ensures { FailsAs error (advanced_as (at_cursor before.entry) self.old) result self.new }
    {
        self.go_on(before);
        self.fail_outcome(error)
    }

    // Makes an error sticky, as an outcome.
    #[inline(always)]
    pub(crate) fn fail_outcome<T>(&mut self, error: ASN1Error) -> Outcome<T>
        ensures { FailsAs error self.old result self.new }
    {
        self.failed = Some(error);
        Outcome::Failed(error)
    }
}
