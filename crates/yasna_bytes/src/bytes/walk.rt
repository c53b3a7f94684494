//! Raw elements: the elements in their contents are walked, and not decoded (X.690, 8.1).
//!
//! In DER constructed contents are walked, in BER and CER only those of indefinite length. The walk is one loop that counts the
//! bytes after each open element, and doesn't allocate.
ghost use Rattle.std.specs.Prelude.{IsTrue, ◌↔◌, ◌≡◌, ◌≤◌, ◌-◌, ◌++◌, length, take, drop, MatchOption, Err};
ghost use Rattle.yasna_base.specs.Raw.{DescendsInto, IsPayload};
ghost use Rattle.yasna_bytes.specs.Header.{NoEnd};
ghost use Rattle.yasna_bytes.specs.Rejection.{BlamesBytes};
ghost use Rattle.yasna_bytes.specs.Walk.{IsEndByte, AnyOpenedAt, EndsWithin, TurnsTo, TurnOf, TakesEnd, IsWalked, WalksTo, FollowsAt, following, follows, IsRest, HasRest, RawElementAt};

use crate::bytes::cursor::Cursor;
use crate::bytes::header::{
    ContentsEnd, Opened, Rejection, end_of_contents, end_of_contents_error, open_after_identifier,
    reject,
};
use yasna_base::bytes::identifier::read_identifier;
use yasna_base::error::ASN1ErrorKind;
use yasna_base::mode::BERMode;
use yasna_base::tag::{PCBit, Tag};

/// A raw element at the start of bytes.
#[derive(Clone, Copy)]
pub struct RawElement<'a> {
    /// The tag.
    pub tag: Tag,
    /// Whether the contents are elements.
    pub bit: PCBit,
    /// What follows the length, with the two zeros that end contents of indefinite length.
    pub payload: &'a [u8],
    /// The whole element.
    pub bytes: &'a [u8],
}

// What a walk meets at a place.
#[derive(Drop)]
enum Turn<'a> {
    // The end of the innermost element, and the bytes that are left after it.
    Left(&'a [u8]),
    // An element that isn't descended into, and what follows it.
    Passed(&'a [u8]),
    // The header of an element that is descended into.
    Entered(Opened<'a>),
}

// Whether contents whose length is counted are walked.
#[inline(always)]
fn descends_into(mode: BERMode, bit: PCBit) -> bool
    ensures { IsTrue result ↔ DescendsInto mode bit }
{
    match mode {
        BERMode::Ber => false,
        BERMode::Der => match bit {
            PCBit::Primitive => false,
            PCBit::Constructed => true,
        },
        BERMode::Cer => false,
    }
}

// Whether the identifier of the end of contents begins so, of a primitive element or a constructed one.
#[inline(always)]
fn is_end(first: u8) -> bool
    ensures { IsTrue result ↔ IsEndByte first }
{
    first == 0 || first == 32
}

// Reads the header of an element of any tag but that of the end of contents.
#[inline(always)]
fn open_any(cursor: Cursor<'_>) -> Result<(Tag, Opened<'_>), Rejection>
    ensures { AnyOpenedAt cursor.entry.mode cursor.entry.levels cursor.entry.left.now result }
{
    let [first, ..] = cursor.left else {
        return Err(reject(ASN1ErrorKind::Eof, false));
    };
    if is_end(*first) {
        return Err(reject(ASN1ErrorKind::Invalid, false));
    }
    let (tag, bit, rest) = match read_identifier(cursor.left) {
        Ok(identifier) => identifier,
        Err(kind) => return Err(reject(kind, true)),
    };
    match open_after_identifier(cursor, bit, rest) {
        Ok(opened) => Ok((tag, opened)),
        Err(rejection) => Err(rejection),
    }
}

// The bytes that are left after contents, if those end here.
#[inline(always)]
fn left_after<'a>(opened: &Opened<'_>, rest: &'a [u8]) -> Option<&'a [u8]>
    ensures { MatchOption result (NoEnd opened.now.end rest.now) (λ a. EndsWithin opened.now.end rest.now a.now) }
{
    match opened.end {
        ContentsEnd::Definite(_) => { if rest.is_empty() { Some(rest) } else { None } }
        ContentsEnd::Indefinite => end_of_contents(rest),
    }
}

// The kind of error if contents don't end, and nothing is left or the tag of the end-of-contents octets is there. In contents
// of definite length that tag is invalid.
#[cold]
#[inline(never)]
fn stray_end_error(opened: &Opened<'_>, rest: &[u8]) -> ASN1ErrorKind
    ensures { BlamesBytes result }
{
    match opened.end {
        ContentsEnd::Definite(_) => ASN1ErrorKind::Invalid,
        ContentsEnd::Indefinite => end_of_contents_error(rest),
    }
}

// What a walk does with an element whose header was read.
#[inline(always)]
fn pass_or_enter<'a>(mode: BERMode, opened: Opened<'a>) -> Turn<'a>
    ensures { TurnsTo mode opened.entry result }
{
    match opened.end {
        ContentsEnd::Indefinite => Turn::Entered(opened),
        ContentsEnd::Definite(after) => {
            if descends_into(mode, opened.bit) {
                Turn::Entered(opened)
            } else {
                Turn::Passed(after)
            }
        }
    }
}

// One step of a walk in an element that ends as the outermost does.
#[inline(always)]
fn take_turn<'a>(cursor: Cursor<'a>, outermost: &Opened<'_>) -> Result<Turn<'a>, ASN1ErrorKind>
    ensures { TurnOf cursor.entry.mode cursor.entry.levels outermost.now.end cursor.entry.left.now result }
{
    match open_any(cursor) {
        Ok((_, opened)) => Ok(pass_or_enter(cursor.mode, opened)),
        Err(rejection) => {
            if rejection.consumed {
                return Err(rejection.kind);
            }
            match left_after(outermost, cursor.left) {
                Some(after) => Ok(Turn::Left(after)),
                None => Err(stray_end_error(outermost, cursor.left)),
            }
        }
    }
}

// The bytes but for the last `count`.
#[inline(always)]
fn all_but(s: &[u8], count: usize) -> &[u8]
    requires { count ≤ length s.now }
    ensures { result.now ≡ take (length s.now - count) s.now }
{
    &s[..s.len() - count]
}

// The last `count` bytes.
#[inline(always)]
fn last(s: &[u8], count: usize) -> &[u8]
    requires { count ≤ length s.now }
    ensures { result.now ≡ drop (length s.now - count) s.now }
{
    &s[s.len() - count..]
}

// The count of bytes that follow an element in the contents around it, 0 if its length is indefinite.
#[inline(always)]
fn count_following(opened: &Opened<'_>) -> usize
    ensures { result ≡ length (following opened.now.end) }
{
    match opened.end {
        ContentsEnd::Definite(after) => after.len(),
        ContentsEnd::Indefinite => 0,
    }
}

// The bytes after an element whose contents end before these.
#[inline(always)]
fn followed_by<'a>(opened: &Opened<'a>, after: &'a [u8]) -> &'a [u8]
    ensures { result.now ≡ follows opened.now.end after.now }
{
    match opened.end {
        ContentsEnd::Definite(after) => after,
        ContentsEnd::Indefinite => after,
    }
}

// The error of a walk, in a function outside of its loop.
#[cold]
#[inline(never)]
fn stopped<'a>(kind: ASN1ErrorKind) -> Result<&'a [u8], ASN1ErrorKind>
    ensures { result ≡ Err kind }
{
    Err(kind)
}

// Walks over the elements in the contents of one, and returns what follows it. A mode walks either contents of definite length or
// those of indefinite length, so all contents within end in one way.
#[inline(always)]
fn walk_contents<'a>(cursor: Cursor<'a>, outermost: &Opened<'a>) -> Result<&'a [u8], ASN1ErrorKind>
    requires shallow { cursor.levels ≤ 100 }
    requires walked { IsWalked cursor.mode outermost.now.end }
    ensures { WalksTo cursor.entry.mode cursor.entry.levels outermost.now.end cursor.entry.left.now result }
{
    // The count of bytes in the outermost contents that follow the innermost element; and of those around it, each at the number of
    // levels that are left one element further in.
    let mut trailing: usize = 0;
    let mut outer: [usize; 100] = [0; 100];
    let mut left = cursor.left;
    let mut levels = cursor.levels;
    loop {
        match take_turn(cursor.at_depth(left, trailing, levels), outermost) {
            Ok(Turn::Left(after)) => {
                if levels == cursor.levels {
                    return Ok(followed_by(outermost, after));
                }
                let rest = last(cursor.left, trailing + after.len());
                trailing = outer[usize::from(levels)];
                levels += 1;
                left = all_but(rest, trailing);
            }
            Ok(Turn::Passed(after)) => left = after,
            Ok(Turn::Entered(opened)) => {
                levels -= 1;
                outer[usize::from(levels)] = trailing;
                trailing += count_following(&opened);
                left = opened.contents;
            }
            Err(kind) => return stopped(kind),
        }
    }
}

// As `walk_contents`, by a loop for each mode, which tests the mode once and not at each step.
#[inline(never)]
fn walk<'a>(cursor: Cursor<'a>, outermost: &Opened<'a>) -> Result<&'a [u8], ASN1ErrorKind>
    requires shallow { cursor.levels ≤ 100 }
    requires walked { IsWalked cursor.mode outermost.now.end }
    ensures { WalksTo cursor.entry.mode cursor.entry.levels outermost.now.end cursor.entry.left.now result }
{
    match cursor.mode {
        BERMode::Ber => walk_contents(cursor.with_mode(BERMode::Ber), outermost),
        BERMode::Der => walk_contents(cursor.with_mode(BERMode::Der), outermost),
        BERMode::Cer => walk_contents(cursor.with_mode(BERMode::Cer), outermost),
    }
}

// Reads an element's contents to their end, and returns what follows it.
#[inline(always)]
fn follow<'a>(cursor: Cursor<'a>, opened: &Opened<'a>) -> Result<&'a [u8], ASN1ErrorKind>
    requires level { 1 ≤ cursor.levels }
    requires taken { TakesEnd cursor.mode opened.now.bit opened.now.end }
    ensures { FollowsAt cursor.entry.mode (cursor.entry.levels - 1) opened.now.bit opened.now.contents opened.now.end result }
{
    if let ContentsEnd::Definite(after) = opened.end {
        if !descends_into(cursor.mode, opened.bit) {
            return Ok(after);
        }
    }
    // A copy, so that an element that isn't walked stays in registers.
    let outermost = Opened {
        bit: opened.bit,
        contents: opened.contents,
        end: opened.end,
    };
    walk(cursor.inside(opened), &outermost)
}

/// The bytes of `s` before its suffix `rest`.
#[inline(always)]
pub fn prefix_before<'a>(s: &'a [u8], rest: &[u8]) -> &'a [u8]
    requires { IsRest s.now rest.now }
    ensures { s.now ≡ result.now ++ rest.now }
{
    &s[..s.len() - rest.len()]
}

// The payload of an element that ends before `rest`: what follows its length.
#[inline(always)]
fn payload<'a>(opened: &Opened<'a>, rest: &[u8]) -> &'a [u8]
    requires { HasRest opened.now.end opened.now.contents rest.now }
    ensures { IsPayload opened.now.contents opened.now.end rest.now result.now }
{
    match opened.end {
        ContentsEnd::Definite(_) => opened.contents,
        ContentsEnd::Indefinite => prefix_before(opened.contents, rest),
    }
}

/// Reads a raw element of any tag but that of the end of contents, and returns the rest too.
#[inline(always)]
pub fn raw_element(cursor: Cursor<'_>) -> Result<(RawElement<'_>, &[u8]), Rejection>
    ensures { RawElementAt cursor.entry.mode cursor.entry.levels cursor.entry.left.now result }
{
    match open_any(cursor) {
        Ok((tag, opened)) => match follow(cursor, &opened) {
            Ok(rest) => {
                let element = RawElement {
                    tag,
                    bit: opened.bit,
                    payload: payload(&opened, rest),
                    bytes: prefix_before(cursor.left, rest),
                };
                Ok((element, rest))
            }
            Err(kind) => Err(reject(kind, true)),
        },
        Err(rejection) => Err(rejection),
    }
}
