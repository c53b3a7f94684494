//! Elements in memory, one after the other, of which only the headers are read.
ghost use Rattle.std.specs.Prelude.{◌≡◌, ◌↔◌, ◌≤◌, IsTrue, List, length};
ghost use Rattle.std.specs.List.{AllByRecursion};
ghost use Rattle.yasna_base.specs.Set.{SetPart};
ghost use Rattle.asn1der_convert.specs.Rows.{AreElements, FirstAt, part_tags};
ghost use Rattle.asn1der_convert.specs.Tree.{HaveOneTag};

use yasna_base::mode::BERMode;
use yasna_base::tag::Tag;
use yasna_bytes::bytes::cursor::Cursor;
use yasna_bytes::bytes::walk::{RawElement, raw_element};

/// The first of elements, and what follows it.
pub fn first_element(elements: &[u8]) -> Option<(RawElement<'_>, &[u8])>
    ensures { FirstAt elements.now result }
{
    match raw_element(Cursor::start(elements, BERMode::Ber)) {
        Ok(taken) => Some(taken),
        Err(_) => None,
    }
}

fn is_tag(found: Tag, expected: Tag) -> bool
    ensures { IsTrue result ↔ (found ≡ expected) }
{
    found == expected
}

/// Whether all of these elements have the tag.
pub fn all_have_tag(elements: &[u8], tag: Tag) -> bool
    ensures { (ps : List SetPart) → AreElements ps elements.now → IsTrue result ↔ AllByRecursion (λ p. p.tag ≡ tag) ps }
{
    let mut left = elements;
    while let Some((element, rest)) = first_element(left) {
        if !is_tag(element.tag, tag) {
            return false;
        }
        left = rest;
    }
    true
}

/// Whether these elements have one tag.
pub fn have_one_tag(elements: &[u8]) -> bool
    ensures { (ps : List SetPart) → AreElements ps elements.now → IsTrue result ↔ HaveOneTag (part_tags ps) }
{
    let Some((first, rest)) = first_element(elements) else {
        return true;
    };
    all_have_tag(rest, first.tag)
}

/// How many elements there are.
pub fn count_elements(elements: &[u8]) -> usize
    ensures count { (ps : List SetPart) → AreElements ps elements.now → result ≡ length ps }
    ensures few { result ≤ length elements.now }
{
    let mut left = elements;
    let mut count = 0;
    while let Some((_, rest)) = first_element(left) {
        count += 1;
        left = rest;
    }
    count
}
