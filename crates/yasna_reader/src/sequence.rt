//! Reads of constructed elements whose contents a callback reads (X.690, 8.1.3 to 8.1.5 and 8.9): `read_sequence`, which users call,
//! and how an element is entered and left, which lists, sets and tagged elements share.
ghost use Rattle.yasna_reader.specs.Sequence.{ClosesFrom};
ghost use Rattle.yasna_base.specs.Sequence.{sequence_tag};

use crate::state::{BERReaderSeq, PartsReader, ReaderState};
use yasna_base::error::{ASN1Error, ASN1ErrorKind, ASN1Result};
use yasna_base::tag::Tag;
use yasna_base::tags::TAG_SEQUENCE;
use yasna_bytes::bytes::header::{Opened, Rejection, close, open_constructed};

// The bytes after an element of whose contents a callback left this many bytes.
#[inline(always)]
fn close_from<'a>(opened: &Opened<'a>, remaining: usize) -> Result<&'a [u8], ASN1ErrorKind>
    ensures { ClosesFrom opened.now.end opened.now.contents remaining result }
{
    let contents = opened.contents;
    if contents.len() < remaining {
        return Err(ASN1ErrorKind::Invalid);
    }
    close(opened, &contents[contents.len() - remaining..])
}

impl<'a> ReaderState<'a> {
    ghost use Rattle.std.specs.Prelude.{◌≡◌, ◌≤◌, Ok};
    ghost use Rattle.yasna_bytes.specs.Header.{ConstructedAt};
    ghost use Rattle.yasna_reader.specs.State.{inside, untagged, tag_of};
    ghost use Rattle.yasna_reader.specs.Sequence.{Fails, Left, TakesParts, Runs, ReadsParts, StepsAt, after_leaving};

    /// Reads a SEQUENCE (X.690, 8.9), whose parts the callback reads.
    ///
    /// The callback has to read all of them: bytes that it leaves are `Extra`, or `Invalid` if the length is indefinite. An error in it
    /// is sticky, whatever it returns: later calls return it.
    #[inline(always)]
    #[tactic(auto, using(crate::proofs::Sequences::stepped_in, crate::proofs::Sequences::stayed_out, crate::proofs::Sequences::takes_inside))]
    pub fn read_sequence<T: Drop, F>(&mut self, f: F) -> ASN1Result<T>
    where
        F: FnOnce(&mut BERReaderSeq<'a, '_>) -> ASN1Result<T>,
        requires { TakesParts F.FnOnce f sequence_tag self.old }
        ensures { ReadsParts (Runs F.FnOnce f) sequence_tag self.old result self.new }
    {
        let opened = self.step_in(TAG_SEQUENCE)?;
        let mut parts = PartsReader {
            reader: self.contents_reader(&opened),
        };
        let returned = f(&mut parts);
        self.leave(&opened, &returned, &parts.reader)?;
        returned
    }

    // Reads the header of a constructed element of this tag, or of the implicit one, whose contents are read next. A sticky error
    // comes first.
    #[inline(always)]
    pub(crate) fn step_in(&mut self, tag: Tag) -> ASN1Result<Opened<'a>>
        ensures { StepsAt (tag_of self.old tag) self.old result self.new }
    {
        if let Some(error) = self.failed {
            return Err(error);
        }
        match self.enter(tag) {
            Ok(opened) => Ok(opened),
            Err(rejection) => self.commit(Err(rejection)),
        }
    }

    // Reads the header of a constructed element of this tag, or of the implicit one.
    #[inline(always)]
    pub(crate) fn enter(&self, tag: Tag) -> Result<Opened<'a>, Rejection>
        ensures { ConstructedAt self.now.mode self.now.levels (tag_of self.now tag) self.now.left result }
    {
        open_constructed(self.cursor, self.expected(tag))
    }

    // The reading of an element's contents.
    #[inline(always)]
    pub(crate) fn contents_reader(&self, opened: &Opened<'a>) -> ReaderState<'a>
        requires { 1 ≤ self.now.levels }
        ensures { result ≡ inside self.now opened.now.contents }
    {
        ReaderState {
            cursor: self.cursor.inside(opened),
            tag: None,
            failed: None,
            deeper: 0,
            alloc: self.alloc,
        }
    }

    // Goes on after an element, by what its callback returned and left of the contents. A sticky error there comes first. The result
    // is tested in place: a value that waits for other tests would be moved through memory.
    #[inline(always)]
    #[tactic(auto, using(crate::proofs::Sequences::closed_with, crate::proofs::Sequences::not_closed_with))]
    pub(crate) fn leave<T>(
        &mut self,
        opened: &Opened<'a>,
        returned: &ASN1Result<T>,
        left: &ReaderState<'a>,
    ) -> ASN1Result<()>
        ensures { Left opened.now.end opened.now.contents left.now.failed left.now.left returned.now (untagged self.old) (after_leaving returned.now result) self.new }
    {
        match returned {
            Ok(_) => self.close(opened, left),
            Err(error) => {
                self.untag();
                self.fail_within(left.failed.unwrap_or(*error), left)
            }
        }
    }

    // Goes on after an element, by what a callback left of its contents.
    #[inline(always)]
    fn close(&mut self, opened: &Opened<'a>, left: &ReaderState<'a>) -> ASN1Result<()>
        ensures { Left opened.now.end opened.now.contents left.now.failed left.now.left (Ok tt) (untagged self.old) result self.new }
    {
        self.untag();
        if let Some(error) = left.failed {
            return self.fail_within(error, left);
        }
        match close_from(opened, left.cursor.left.len()) {
            Ok(rest) => {
                self.cursor.left = rest;
                Ok(())
            }
            Err(kind) => self.fail_within(ASN1Error::new(kind), left),
        }
    }

    // Makes an error sticky that was found in an element's contents, and returns it.
    #[inline(always)]
    fn fail_within<T>(&mut self, error: ASN1Error, contents: &ReaderState<'a>) -> ASN1Result<T>
        ensures { Fails error self.old result self.new }
    {
        self.set_place_in(contents);
        self.fail(error)
    }

    // Makes an error sticky, and returns it.
    #[inline(always)]
    pub(crate) fn fail<T>(&mut self, error: ASN1Error) -> ASN1Result<T>
        ensures { Fails error self.old result self.new }
    {
        self.failed = Some(error);
        Err(error)
    }
}
