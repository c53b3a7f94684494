//! Reads of a SET's elements that may be omitted: OPTIONAL and DEFAULT (X.690, 8.11.3 and 11.5). Users call them on the elements
//! that the callback of `read_set` is handed.

use crate::callback::Outcome;
use crate::set::{Choose, Chosen, SetElement};
use crate::state::{BERReader, ReaderState};
use std::collections::VecDeque;
use yasna_base::error::{ASN1Error, ASN1ErrorKind, ASN1Result};
use yasna_base::tag::Tag;

impl<'a> ReaderState<'a> {
    ghost use Rattle.std.specs.Fn.{FnOnceTakesAtMut, FnOnceReturnsAtMut};
    ghost use Rattle.yasna_reader.specs.SetOptional.{DefaultsChosen, ReadsSingle};

    // Lets a callback read all that is left, and makes its error sticky.
    #[inline(always)]
    fn read_single<T: Drop, F>(&mut self, f: F) -> ASN1Result<T>
    where
        F: FnOnce(BERReader<'a, '_>) -> ASN1Result<T>,
        requires { FnOnceTakesAtMut F.FnOnce f self.old }
        ensures { ReadsSingle (FnOnceReturnsAtMut F.FnOnce f) self.old result self.new }
    {
        match self.hand(f) {
            Outcome::Matched(value) => {
                if self.cursor.left.is_empty() {
                    Ok(value)
                } else {
                    self.fail(ASN1Error::new(ASN1ErrorKind::Extra))
                }
            }
            Outcome::NoMatch(error) | Outcome::Failed(error) => self.fail(error),
        }
    }

    // The value of an element with this default, by the result of reading it as one that may be omitted.
    #[inline(always)]
    fn chosen_or_default<T: Eq + Drop>(
        &mut self,
        returned: ASN1Result<Option<T>>,
        default: T,
    ) -> ASN1Result<T>
        ensures { DefaultsChosen T.eq default returned self.old result self.new }
    {
        match returned {
            Ok(Some(value)) => self.unless_default(self.place(), value, default, true),
            Ok(None) => Ok(default),
            Err(error) => Err(error),
        }
    }
}

impl<'a> Chosen<ReaderState<'a>, VecDeque<SetElement<'a>>> {
    ghost use Rattle.std.specs.Fn.{FnOnceReturnsAtMut};
    ghost use Rattle.yasna_reader.specs.SetOptional.{ReadsChosen, ReadsChosenDefault, TakesChosen};

    /// Reads the first element left that has one of these tags, and takes it out.
    ///
    /// Returns `None` if there is none. The callback is handed only that element, and has to read all of it, else `Extra` is returned.
    /// Each Err of the callback is sticky and returned, even if it consumed nothing, since the element was taken out.
    #[inline(always)]
    pub fn read_optional<T: Drop, F>(&mut self, tags: &[Tag], f: F) -> ASN1Result<Option<T>>
    where
        F: FnOnce(BERReader<'a, '_>) -> ASN1Result<T>,
        requires { TakesChosen F.FnOnce f tags.now self.old }
        ensures { ReadsChosen (FnOnceReturnsAtMut F.FnOnce f) tags.now self.old result self.new }
    {
        match self.list.choose(tags, &mut self.reader) {
            Ok(()) => {
                let value = self.reader.read_single(f)?;
                Ok(Some(value))
            }
            Err(error) => match self.reader.failed {
                Some(_) => Err(error),
                None => Ok(None),
            },
        }
    }

    /// Reads an element with a default, as `read_optional` does: an absent element is the default.
    ///
    /// In DER and CER an element that equals the default is rejected as `Invalid`, and this is sticky (X.690, 11.5).
    #[inline(always)]
    pub fn read_default<T: Eq + Drop, F>(&mut self, tags: &[Tag], default: T, f: F) -> ASN1Result<T>
    where
        F: FnOnce(BERReader<'a, '_>) -> ASN1Result<T>,
        requires { TakesChosen F.FnOnce f tags.now self.old }
        ensures { ReadsChosenDefault (FnOnceReturnsAtMut F.FnOnce f) T.eq default tags.now self.old result self.new }
    {
        let returned = self.read_optional(tags, f);
        self.reader.chosen_or_default(returned, default)
    }
}
