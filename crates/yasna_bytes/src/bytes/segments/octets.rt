//! Octet strings (X.690, 8.7 and 9.2).
ghost use Rattle.std.proofs.Common.{refl};
ghost use Rattle.std.specs.Prelude.{List, ℕ};
ghost use Rattle.yasna_base.proofs.Octets.{octets_once};
ghost use Rattle.yasna_base.specs.Octets.{octets_segmentation};
ghost use Rattle.yasna_bytes.specs.Segments.{OctetsAt, WholeOctetsAt};

use crate::bytes::cursor::Cursor;
use crate::bytes::header::{ContentsEnd, Rejection, open, reject};
use crate::bytes::segments::cuts::stays_whole;
use crate::bytes::segments::{Tally, string};
use std::alloc::Global;
use yasna_base::error::ASN1ErrorKind;
use yasna_base::mode::BERMode;
use yasna_base::tag::{PCBit, Tag};
use yasna_base::tags::TAG_OCTETSTRING;

/// The tally of an octet string, which is empty.
#[derive(Clone, Copy, Drop)]
pub struct Octets;

impl Tally for Octets {
    ghost Value = { List ℕ };

    ghost segmentation = { octets_segmentation };

    ghost value = { λ b x. b };

    #[inline(always)]
    fn tag() -> Tag {
        TAG_OCTETSTRING
    }

    #[inline(always)]
    fn full() -> usize {
        1000
    }

    #[inline(always)]
    fn none() -> Octets {
        Octets
    }

    #[inline(always)]
    fn of_contents(_mode: BERMode, contents: &[u8]) -> Result<(Octets, &[u8]), ASN1ErrorKind> {
        Ok((Octets, contents))
    }

    #[inline(always)]
    fn with(self, _segment: Octets) -> Result<Octets, ASN1ErrorKind> {
        Ok(Octets)
    }

    #[inline(always)]
    fn may_go_on(self) -> bool {
        true
    }

    ghost holds = { λ b x. refl };

    ghost once = { octets_once };

    ghost go_on = { record { joined = λ m vs ws w v h. tt {0}; more = λ vs ws w h. tt {0} } };
}

/// Reads an octet string with this tag, and returns it and the rest.
#[inline(always)]
pub fn octet_string<'a>(
    alloc: Global,
    cursor: Cursor<'a>,
    tag: Tag,
) -> Result<(Vec<u8>, &'a [u8]), Rejection>
    ensures { OctetsAt cursor.entry.levels cursor.entry.mode tag cursor.entry.left.now result }
{
    match string::<Octets>(alloc, cursor, tag) {
        Ok(((bytes, _), rest)) => Ok((bytes, rest)),
        Err(rejection) => Err(rejection),
    }
}

/// Reads a string with this tag in place: its octets and the rest, or `None` if it is constructed.
#[inline(always)]
pub fn whole_octets(cursor: Cursor<'_>, tag: Tag) -> Result<Option<(&[u8], &[u8])>, Rejection>
    ensures { WholeOctetsAt cursor.entry.levels cursor.entry.mode tag cursor.entry.left.now result }
{
    let opened = match open(cursor, tag) {
        Ok(opened) => opened,
        Err(rejection) => return Err(rejection),
    };
    match opened.bit {
        PCBit::Primitive => {
            let ContentsEnd::Definite(after) = opened.end else {
                // No mode accepts the indefinite form here.
                return Err(reject(ASN1ErrorKind::Invalid, true));
            };
            if !stays_whole(cursor.mode, Octets::full(), opened.contents.len()) {
                return Err(reject(ASN1ErrorKind::Invalid, true));
            }
            Ok(Some((opened.contents, after)))
        }
        PCBit::Constructed => Ok(None),
    }
}
