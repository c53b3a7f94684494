//! The report of an element.
ghost use Rattle.std.specs.Prelude.{◌≡◌, ◌+◌, ◌-◌, ◌^◌, ◌<◌, ◌≤◌, length};

use crate::listing::place::Place;
use yasna_base::tag::{PCBit, Tag};
use yasna_bytes::bytes::header::ContentsEnd;

/// An element whose header was read.
#[derive(Clone, Copy)]
pub struct Item<'a> {
    /// The offset of its first byte.
    pub offset: usize,
    /// The count of octets of its identifier and its length.
    pub header: usize,
    /// The count of octets of its contents, if the length is definite.
    pub size: Option<usize>,
    /// The number of elements around it.
    pub depth: u8,
    /// Whether it is in the contents of a string.
    pub in_string: bool,
    /// The tag.
    pub tag: Tag,
    /// Whether the contents are elements.
    pub bit: PCBit,
    /// The contents, or all bytes that are left if the length is indefinite.
    pub contents: &'a [u8],

    ghost fits: { offset + header + length contents.now < 2 ^ 64 },
}

impl<'a> Item<'a> {
    /// The place where the contents begin.
    pub(super) fn contents_place(&self) -> Place<'a>
        ensures left { result.left.now ≡ self.now.contents.now }
        ensures offset { result.offset ≡ self.now.offset + self.now.header }
    {
        Place {
            left: self.contents,
            offset: self.offset + self.header,
        }
    }
}

/// An element, and where its contents end.
#[derive(Clone, Copy)]
pub struct OpenedItem<'a> {
    /// The element.
    pub item: Item<'a>,
    /// Where its contents end.
    pub end: ContentsEnd<'a>,
}
