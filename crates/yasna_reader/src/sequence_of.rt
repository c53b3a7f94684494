//! Reads of SEQUENCE OF, whose elements a callback reads one by one (X.690, 8.10). Users call them on a reader; `set_of` shares the
//! turns of the callback.
ghost use Rattle.yasna_base.specs.Sequence.{sequence_tag};

use crate::callback::Outcome;
use crate::set_of::{Order, first_bound};
use crate::state::{BERReader, PartsReader, ReaderState};
use yasna_base::error::{ASN1Error, ASN1ErrorKind, ASN1Result};
use yasna_base::tag::Tag;
use yasna_base::tags::TAG_SEQUENCE;
use yasna_bytes::bytes::cursor::Cursor;

impl<'a> ReaderState<'a> {
    ghost use Rattle.std.specs.Fn.{CalledAtMut};
    ghost use Rattle.yasna_reader.specs.Callback.{WithSome, at_cursor};
    ghost use Rattle.yasna_reader.specs.Sequence.{TakesContents, ReadsParts};
    ghost use Rattle.yasna_reader.specs.SequenceOf.{TakesTurn, TakesTurns, TurnsOut, Collects, Visits};
    ghost use Rattle.yasna_reader.specs.SetOf.{CollectsInOrder, TakesTurnsInOrder, VisitsInOrder, TurnsOutInOrder, bound_bytes};
    ghost use Rattle.yasna_reader.specs.State.{IsFresh};

    /// Reads a SEQUENCE OF (X.690, 8.10): the callback reads one element each time that it is called.
    ///
    /// It is called until its Err consumes nothing, which has to be at the end of the list. `StackOverflow` and `OutOfMemory` end no list:
    /// they are sticky. If the callback returns Ok and consumed nothing, that is `Invalid`, and sticky.
    #[inline(always)]
    #[tactic(auto, using(crate::proofs::ListTurns::visits_any))]
    pub fn read_sequence_of<F>(&mut self, f: F) -> ASN1Result<()>
    where
        F: FnMut(BERReader<'a, '_>) -> ASN1Result<()> + Drop,
        requires { TakesContents (TakesTurns F.FnMut f) sequence_tag self.old }
        ensures { ReadsParts (Visits (CalledAtMut F.FnMut) f) sequence_tag self.old result self.new }
    {
        self.read_list(TAG_SEQUENCE, Order::Any, f)
    }

    /// Reads a SEQUENCE OF as `read_sequence_of` does, into a vector of what the callback returned, in order.
    ///
    /// If there is no memory for the vector, it returns `OutOfMemory`, which is sticky.
    #[inline(always)]
    #[tactic(auto, using(crate::proofs::ListTurns::collects_any))]
    pub fn collect_sequence_of<T: Drop, F>(&mut self, f: F) -> ASN1Result<Vec<T>>
    where
        F: FnMut(BERReader<'a, '_>) -> ASN1Result<T> + Drop,
        requires { TakesContents (TakesTurns F.FnMut f) sequence_tag self.old }
        ensures { ReadsParts (Collects (CalledAtMut F.FnMut) f) sequence_tag self.old result self.new }
    {
        self.collect_list(TAG_SEQUENCE, Order::Any, f)
    }

    // Reads a list under this tag, or the implicit one.
    #[inline(always)]
    #[tactic(auto, using(crate::proofs::Sequences::stepped_in, crate::proofs::Sequences::stayed_out, crate::proofs::Sequences::takes_inside))]
    pub(crate) fn read_list<F>(&mut self, tag: Tag, order: Order, f: F) -> ASN1Result<()>
    where
        F: FnMut(BERReader<'a, '_>) -> ASN1Result<()> + Drop,
        requires { TakesContents (TakesTurnsInOrder order F.FnMut f) tag self.old }
        ensures { ReadsParts (VisitsInOrder order (CalledAtMut F.FnMut) f) tag self.old result self.new }
    {
        let opened = self.step_in(tag)?;
        let mut contents = self.contents_reader(&opened);
        let returned = contents.visit(order, f);
        self.leave(&opened, &returned, &contents)?;
        returned
    }

    // Reads a list under this tag, or the implicit one, into a vector.
    #[inline(always)]
    #[tactic(auto, using(crate::proofs::Sequences::stepped_in, crate::proofs::Sequences::stayed_out, crate::proofs::Sequences::takes_inside))]
    pub(crate) fn collect_list<T: Drop, F>(
        &mut self,
        tag: Tag,
        order: Order,
        f: F,
    ) -> ASN1Result<Vec<T>>
    where
        F: FnMut(BERReader<'a, '_>) -> ASN1Result<T> + Drop,
        requires { TakesContents (TakesTurnsInOrder order F.FnMut f) tag self.old }
        ensures { ReadsParts (CollectsInOrder order (CalledAtMut F.FnMut) f) tag self.old result self.new }
    {
        let opened = self.step_in(tag)?;
        let mut contents = self.contents_reader(&opened);
        let returned = contents.collect(order, f);
        self.leave(&opened, &returned, &contents)?;
        returned
    }

    // Calls a callback until it has no match.
    #[inline(always)]
    fn visit<F>(&mut self, order: Order, mut f: F) -> ASN1Result<()>
    where
        F: FnMut(BERReader<'a, '_>) -> ASN1Result<()> + Drop,
        requires fresh { IsFresh self.old }
        requires turns { TakesTurnsInOrder order F.FnMut f self.old }
        ensures { VisitsInOrder order (CalledAtMut F.FnMut) f self.old result self.new }
    {
        let mut bound = first_bound(order, self.cursor.mode);
        loop {
            let before = self.cursor;
            let returned = self.call(&mut f);
            match self.turned(before, &returned, &mut bound) {
                Outcome::Matched(()) => {}
                Outcome::NoMatch(_) => return Ok(()),
                Outcome::Failed(error) => return Err(error),
            }
        }
    }

    // Calls a callback until it has no match, and collects its values.
    #[inline(always)]
    fn collect<T: Drop, F>(&mut self, order: Order, mut f: F) -> ASN1Result<Vec<T>>
    where
        F: FnMut(BERReader<'a, '_>) -> ASN1Result<T> + Drop,
        requires fresh { IsFresh self.old }
        requires turns { TakesTurnsInOrder order F.FnMut f self.old }
        ensures { CollectsInOrder order (CalledAtMut F.FnMut) f self.old result self.new }
    {
        let mut items = Vec::new(self.alloc);
        let mut bound = first_bound(order, self.cursor.mode);
        loop {
            let before = self.cursor;
            let returned = self.call(&mut f);
            match self.turned(before, &returned, &mut bound) {
                Outcome::Matched(()) => {}
                Outcome::NoMatch(_) => return Ok(items),
                Outcome::Failed(error) => return Err(error),
            }
            if items.push(returned?).is_err() {
                return self.fail(ASN1Error::new(ASN1ErrorKind::OutOfMemory));
            }
        }
    }

    // Hands this reading to a list's callback.
    #[inline(always)]
    fn call<T: Drop, F>(&mut self, f: &mut F) -> ASN1Result<T>
    where
        F: FnMut(BERReader<'a, '_>) -> ASN1Result<T>,
        requires { TakesTurn F.FnMut f.old self.old }
        ensures { CalledAtMut F.FnMut f.old self.old result f.new self.new }
    {
        f(self)
    }

    // The outcome of a turn of a list's callback that began at this place and returned this result. No element may be less than the
    // bound, which becomes the element. The result stays where it is: a list's elements may be large.
    #[inline(always)]
    fn turned<T>(
        &mut self,
        before: Cursor<'a>,
        returned: &ASN1Result<T>,
        bound: &mut Option<&'a [u8]>,
    ) -> Outcome<()>
        ensures { TurnsOutInOrder (bound_bytes bound.old) (at_cursor before.entry) returned.now self.old result (bound_bytes bound.new) self.new }
    {
        let outcome = self.take_turn(before, returned);
        self.in_order(before.left, outcome, bound)
    }

    // The outcome of a turn that began at this place and whose callback returned this result.
    #[inline(always)]
    fn take_turn<T>(&mut self, before: Cursor<'a>, returned: &ASN1Result<T>) -> Outcome<()>
        ensures { WithSome (λ o. TurnsOut (at_cursor before.entry) returned.now self.old o self.new) result }
    {
        let outcome = self.look_back(before, returned);
        if let Outcome::Matched(()) = outcome
            && before.left.len() <= self.cursor.left.len()
        {
            return self.fail_outcome(ASN1Error::new(ASN1ErrorKind::Invalid));
        }
        outcome
    }
}

impl<'a> PartsReader<ReaderState<'a>> {
    ghost use Rattle.std.specs.Fn.{CalledAtMut};
    ghost use Rattle.yasna_reader.specs.SequenceOf.{TakesTurns, Collects};
    ghost use Rattle.yasna_reader.specs.State.{IsFresh, part_of};

    /// Reads the parts that are left, up to the end, as the elements of a list. The callback reads one element each time that it is called.
    ///
    /// It is called, and its errors end the list, as by `collect_sequence_of`. If there is no memory for the vector, it returns `OutOfMemory`,
    /// which is sticky.
    #[inline(always)]
    #[tactic(auto, using(crate::proofs::ListTurns::collected_any))]
    pub fn collect_rest<T: Drop, F>(&mut self, f: F) -> ASN1Result<Vec<T>>
    where
        F: FnMut(BERReader<'a, '_>) -> ASN1Result<T> + Drop,
        requires fresh { IsFresh (part_of self.old) }
        requires turns { TakesTurns F.FnMut f (part_of self.old) }
        ensures { Collects (CalledAtMut F.FnMut) f (part_of self.old) result (part_of self.new) }
    {
        let reader = &mut self.reader;
        reader.collect(Order::Any, f)
    }
}
