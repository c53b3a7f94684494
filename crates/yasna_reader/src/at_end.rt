//! Where contents end (X.690, 8.1.5): nothing is left, or the end of contents is there.
ghost use Rattle.std.specs.Prelude.{IsTrue, ◌↔◌, ◌≡◌};
ghost use Rattle.yasna_base.specs.Identifier.{AtEnd, end_tag};

use crate::state::{PartsReader, ReaderState};
use yasna_base::bytes::identifier::read_identifier;
use yasna_base::tag::Tag;
use yasna_base::tags::TAG_EOC;

#[inline(always)]
fn is_end(tag: Tag) -> bool
    ensures { IsTrue result ↔ (tag ≡ end_tag) }
{
    tag == TAG_EOC
}

// Whether contents end before these bytes.
#[inline(always)]
#[tactic(auto, using(crate::proofs::Following::ends_by_tag, crate::proofs::Following::tag_at_end, crate::proofs::Following::empty_at_end))]
fn end_here(s: &[u8]) -> bool
    ensures { IsTrue result ↔ AtEnd s.now }
{
    match read_identifier(s) {
        Ok((tag, _, _)) => is_end(tag),
        Err(_) => s.is_empty(),
    }
}

impl<'a> ReaderState<'a> {
    ghost use Rattle.yasna_reader.specs.Lookahead.{NothingFollows};

    #[inline(always)]
    fn nothing_follows(&self) -> bool
        ensures { IsTrue result ↔ NothingFollows self.now.failed self.now.left }
    {
        match self.failed {
            Some(_) => true,
            None => end_here(self.cursor.left),
        }
    }
}

impl<'a> PartsReader<ReaderState<'a>> {
    ghost use Rattle.yasna_reader.specs.State.{part_of};
    ghost use Rattle.yasna_reader.specs.Lookahead.{NothingFollows};

    /// Whether no part follows: nothing is left, or the end of contents is next. It is true with a sticky error too, since then no read
    /// consumes anything: so a loop until the end of contents ends.
    #[inline(always)]
    pub fn is_at_end(&self) -> bool
        ensures { IsTrue result ↔ NothingFollows (part_of self.now).failed (part_of self.now).left }
    {
        let reader = &self.reader;
        reader.nothing_follows()
    }
}
