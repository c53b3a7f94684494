//! The elements in contents, one after the other.
ghost use Rattle.asn1show_printer.specs.Pieces.{IsFirst};

use yasna_base::mode::BERMode;
use yasna_bytes::bytes::cursor::Cursor;
use yasna_bytes::bytes::walk::{RawElement, raw_element};

/// The first element in contents, and what is after it. `None` if they begin with none.
pub fn first_element(contents: &[u8]) -> Option<(RawElement<'_>, &[u8])>
    ensures { IsFirst contents.now result }
{
    match raw_element(Cursor::start(contents, BERMode::Ber)) {
        Ok(first) => Some(first),
        Err(_) => None,
    }
}

/// The elements from a place on, up to the first malformed one.
#[derive(Drop)]
pub struct Elements<'a> {
    left: &'a [u8],
}

impl<'a> Elements<'a> {
    /// The elements in contents.
    pub fn new(contents: &'a [u8]) -> Elements<'a> {
        Elements { left: contents }
    }
}

impl<'a> Iterator for Elements<'a> {
    ghost use Rattle.std.specs.Prelude.{length};
    ghost use Rattle.std.specs.Iterator.{at_most};

    type Item = RawElement<'a>;

    ghost remaining = { λ s. at_most (length s.left.now) };

    fn next(&mut self) -> Option<RawElement<'a>> {
        match first_element(self.left) {
            Some((element, rest)) => {
                self.left = rest;
                Some(element)
            }
            None => None,
        }
    }
}
