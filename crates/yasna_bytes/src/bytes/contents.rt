//! The contents of types of one primitive element (X.690, 8.2 to 8.4, 8.8 and 8.19).
//!
//! A type's file holds its impl of `Contents`; `value` reads any such type.
ghost use Rattle.std.specs.Prelude.{ℕ, List};
ghost use Rattle.yasna_base.specs.declared.mode.BERMode.{BERMode};
ghost use Rattle.yasna_base.specs.declared.tag.Tag.{Tag};
ghost use Rattle.yasna_bytes.specs.Contents.{Decides, ValueAt};

mod big_integer;
mod boolean;
mod integer;
mod null;
mod oid;

use crate::bytes::cursor::Cursor;
use crate::bytes::header::{Rejection, read_primitive_contents, reject};
use std::alloc::Global;
use yasna_base::error::ASN1ErrorKind;
use yasna_base::mode::BERMode;
use yasna_base::tag::Tag;

/// A type that the contents of one primitive element hold.
pub trait Contents: Sized {
    // What contracts see of such values, and what contents say in a mode.
    ghost Seen: { Type 0 };

    ghost view: { Self → Seen };

    ghost means: { BERMode → Seen → List ℕ → Type 0 };

    // Whether reading within so many levels, under a tag, may allocate.
    ghost may_allocate: { ℕ → Tag → List ℕ → Type 0 };

    /// The value that these contents encode in this mode.
    fn of_contents(alloc: Global, mode: BERMode, contents: &[u8]) -> Result<Self, ASN1ErrorKind>
        ensures { Decides (means mode) view may_allocate contents.now result };
}

/// The value that a primitive element of this tag holds, and the rest.
#[inline(always)]
pub fn read_value<T: Contents>(
    alloc: Global,
    cursor: Cursor<'_>,
    tag: Tag,
) -> Result<(T, &[u8]), Rejection>
    ensures { ValueAt T.means T.view T.may_allocate cursor.entry.levels cursor.entry.mode tag cursor.entry.left.now result }
{
    match read_primitive_contents(cursor, tag) {
        Ok((contents, rest)) => match T::of_contents(alloc, cursor.mode, contents) {
            Ok(value) => Ok((value, rest)),
            Err(kind) => Err(reject(kind, true)),
        },
        Err(rejection) => Err(rejection),
    }
}
