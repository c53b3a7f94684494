//! Strings of bytes, in one element or cut into segments (X.690, 8.6, 8.7, 8.23 and 9.2).
//!
//! `string` reads any kind of string, whose own file holds its impl of `Tally`.
ghost use Rattle.std.specs.Prelude.{◌≡◌, ℕ, ◌-◌, List, IsTrue, ◌↔◌, length};
ghost use Rattle.yasna_base.specs.Segmented.{Segmentation};
ghost use Rattle.yasna_base.proofs.Segmented.{SegmentsOnce};
ghost use Rattle.yasna_bytes.specs.Segments.{GoOn, EncodesWhole, HoldsBytes, IsOfNone, Adds, DecidesWhetherMore, WholeAt, SegmentsAt, StringAt, WithVecAt};

mod bits;
mod cuts;
mod octets;

use crate::bytes::cursor::Cursor;
use crate::bytes::header::{ContentsEnd, Rejection, close, open, reject};
pub use bits::bit_string;
use cuts::{Cuts, inner_mode, may_segment, stays_whole, takes_cuts};
pub use octets::{octet_string, whole_octets};
use std::alloc::Global;
use yasna_base::error::ASN1ErrorKind;
use yasna_base::mode::BERMode;
use yasna_base::tag::{PCBit, Tag};

/// What is counted of a kind of string besides its bytes, as its segments are read.
pub trait Tally: Sized + Copy {
    // The values of such strings, and how the strings are cut.
    ghost Value: { Type 0 };

    ghost segmentation: { Segmentation Value };

    // The value of bytes of which this is known besides.
    ghost value: { List ℕ → Self → Value };

    /// The tag of each segment.
    fn tag() -> Tag
        ensures { result ≡ segmentation.segment };

    /// How many bytes fill a segment of CER.
    fn full() -> usize
        ensures { result ≡ segmentation.full };

    /// The tally of no segments.
    fn none() -> Self
        ensures { IsOfNone segmentation value result };

    /// The tally of a primitive element, and its bytes.
    fn of_contents(mode: BERMode, contents: &[u8]) -> Result<(Self, &[u8]), ASN1ErrorKind>
        ensures { EncodesWhole segmentation value mode contents.now result };

    /// The tally of these segments and one more.
    fn with(self, segment: Self) -> Result<Self, ASN1ErrorKind>
        ensures { Adds segmentation value self segment result };

    /// Whether a further segment may follow.
    fn may_go_on(self) -> bool
        ensures { DecidesWhetherMore segmentation value self (IsTrue result) };

    ghost holds: { HoldsBytes segmentation value };

    ghost once: { SegmentsOnce segmentation };

    ghost go_on: { GoOn segmentation };
}

// Appends the bytes of a primitive element, and returns its tally.
#[inline(always)]
fn whole<T: Tally>(out: &mut Vec<u8>, mode: BERMode, contents: &[u8]) -> Result<T, ASN1ErrorKind>
    ensures { WholeAt T.segmentation T.value mode contents.now out.old.items result out.new.items }
{
    match T::of_contents(mode, contents) {
        Ok((tally, bytes)) => {
            if !stays_whole(mode, T::full(), bytes.len()) {
                return Err(ASN1ErrorKind::Invalid);
            }
            match out.extend_from_slice(bytes) {
                Ok(()) => Ok(tally),
                Err(_) => Err(ASN1ErrorKind::OutOfMemory),
            }
        }
        Err(kind) => Err(kind),
    }
}

// How many bytes were appended so far.
#[inline(always)]
fn count(out: &Vec<u8>) -> usize
    ensures { result ≡ length out.now.items }
{
    out.as_slice().len()
}

// Reads a string with this tag, and appends its bytes.
#[cycle(string)]
#[inline(always)]
fn element<'a, T: Tally>(
    out: &mut Vec<u8>,
    cursor: Cursor<'a>,
    tag: Tag,
) -> Result<(T, &'a [u8]), Rejection>
    ensures { StringAt T.segmentation T.value cursor.entry.levels cursor.entry.mode tag cursor.entry.left.now out.old.items result out.new.items }
{
    let opened = match open(cursor, tag) {
        Ok(opened) => opened,
        Err(rejection) => return Err(rejection),
    };
    match opened.bit {
        PCBit::Primitive => {
            let ContentsEnd::Definite(after) = opened.end else {
                // No mode accepts the indefinite form here.
                return Err(reject(ASN1ErrorKind::Invalid, true));
            };
            match whole::<T>(out, cursor.mode, opened.contents) {
                Ok(tally) => Ok((tally, after)),
                Err(kind) => Err(reject(kind, true)),
            }
        }
        PCBit::Constructed => {
            if !may_segment(cursor.mode) {
                return Err(reject(ASN1ErrorKind::Invalid, true));
            }
            let contents = cursor.inside(&opened).with_mode(inner_mode(cursor.mode));
            let ((tally, cuts), rest) = match segments::<T>(out, contents) {
                Ok(taken) => taken,
                Err(rejection) => return Err(rejection),
            };
            if !takes_cuts(cursor.mode, cuts) {
                return Err(reject(ASN1ErrorKind::Invalid, true));
            }
            match close(&opened, rest) {
                Ok(after) => Ok((tally, after)),
                Err(kind) => Err(reject(kind, true)),
            }
        }
    }
}

// Reads all segments that are there, appends their bytes, and returns their tally and how they are cut.
#[cycle(string)]
#[inline(never)]
fn segments<'a, T: Tally>(
    out: &mut Vec<u8>,
    contents: Cursor<'a>,
) -> Result<((T, Cuts), &'a [u8]), Rejection>
    ensures { SegmentsAt T.segmentation T.value contents.entry.levels contents.entry.mode contents.entry.left.now out.old.items result out.new.items }
{
    let mut place = contents;
    let mut tally = T::none();
    let mut cuts = Cuts::none();
    while tally.may_go_on() {
        let before = count(out);
        let (segment, rest) = match element::<T>(out, place, T::tag()) {
            Ok(taken) => taken,
            Err(rejection) => {
                if rejection.consumed {
                    return Err(rejection);
                }
                return Ok(((tally, cuts), place.left));
            }
        };
        place = place.further(rest);
        cuts = cuts.with(T::full(), count(out) - before);
        tally = match tally.with(segment) {
            Ok(all) => all,
            Err(kind) => return Err(reject(kind, true)),
        };
    }
    Ok(((tally, cuts), place.left))
}

/// Reads a string with this tag, and returns its bytes, its tally and the rest.
#[inline(always)]
pub fn string<'a, T: Tally + Drop>(
    alloc: Global,
    cursor: Cursor<'a>,
    tag: Tag,
) -> Result<((Vec<u8>, T), &'a [u8]), Rejection>
    ensures { WithVecAt T.segmentation T.value cursor.entry.levels cursor.entry.mode tag cursor.entry.left.now result }
{
    let mut bytes = Vec::new(alloc);
    match element::<T>(&mut bytes, cursor, tag) {
        Ok((tally, rest)) => Ok(((bytes, tally), rest)),
        Err(rejection) => Err(rejection),
    }
}
