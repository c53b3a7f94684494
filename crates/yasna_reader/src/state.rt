//! The state of a reading: what is left, the tag that waits (X.690, 8.14) and the sticky error; and what the calls on it
//! share. Each other module adds reads to it.
ghost use Rattle.std.specs.Prelude.{◌≡◌};

use std::alloc::Global;
use std::marker::Model;
use yasna_base::error::{ASN1Error, ASN1Result};
use yasna_base::mode::BERMode;
use yasna_base::tag::Tag;
use yasna_bytes::bytes::cursor::Cursor;
use yasna_bytes::bytes::header::Rejection;

/// A reading of bytes: its place, its mode and its sticky error.
///
/// Users name it `BERReader`.
#[derive(Drop)]
pub struct ReaderState<'a> {
    pub(crate) cursor: Cursor<'a>,
    // the implicit tag of the next element
    pub(crate) tag: Option<Tag>,
    pub(crate) failed: Option<ASN1Error>,
    // how many elements there are around the sticky error, besides those around this reading
    pub(crate) deeper: u8,
    pub(crate) alloc: Global,
}

impl<'a> Model for ReaderState<'a> {
    ghost use Rattle.yasna_reader.specs.State.{Reading};

    ghost Value = { Reading };

    ghost view = { λ s. record { left = s.cursor.left.now; mode = s.cursor.mode; levels = s.cursor.levels; tag = s.tag; failed = s.failed } };
}

impl<'a> ReaderState<'a> {
    ghost use Rattle.std.specs.Prelude.{◌≡◌};
    ghost use Rattle.yasna_reader.specs.State.{starts, tag_of, untagged};
    ghost use Rattle.yasna_reader.specs.Primitive.{Commits};

    /// The mode of this reading.
    pub fn mode(&self) -> BERMode
        ensures { result ≡ self.now.mode }
    {
        self.cursor.mode
    }

    #[inline(always)]
    pub(crate) fn new(alloc: Global, buf: &'a [u8], mode: BERMode) -> ReaderState<'a>
        ensures { result ≡ starts buf.now mode }
    {
        ReaderState {
            cursor: Cursor::start(buf, mode),
            tag: None,
            failed: None,
            deeper: 0,
            alloc,
        }
    }

    // The tag expected of the next element, whose type's own is this one. The tag that waits is copied by its fields, so that its
    // padding isn't read back from memory.
    #[inline(always)]
    pub(crate) fn expected(&self, tag: Tag) -> Tag
        ensures { result ≡ tag_of self.now tag }
    {
        match self.tag {
            Some(
                Tag {
                    tag_class,
                    tag_number,
                },
            ) => Tag {
                tag_class,
                tag_number,
            },
            None => tag,
        }
    }

    // Lets no implicit tag wait. Mostly none does: a branch is cheaper than the store.
    #[inline(always)]
    pub(crate) fn untag(&mut self)
        ensures { self.new ≡ untagged self.old }
    {
        if self.tag.is_some() {
            self.tag = None;
        }
    }

    // Consumes what was parsed, or makes the error sticky if it consumed input. An error that consumed nothing leaves the reading as it
    // was.
    #[inline(always)]
    pub(crate) fn commit<T: Drop>(
        &mut self,
        parsed: Result<(T, &'a [u8]), Rejection>,
    ) -> ASN1Result<T>
        ensures { Commits self.old parsed.entry result self.new }
    {
        match parsed {
            Ok((value, rest)) => {
                self.tag = None;
                self.cursor.left = rest;
                Ok(value)
            }
            Err(rejection) => {
                let error = ASN1Error::new(rejection.kind);
                if rejection.consumed {
                    self.tag = None;
                    self.failed = Some(error);
                }
                Err(error)
            }
        }
    }
}

/// The reading of one element.
///
/// Each read consumes what it reads. If nothing is left (`Eof`), or an element of another tag is next (`Invalid`), it leaves the reading
/// as it was, and an implicit tag that waits too. Any other error of a read is sticky: each later call returns it, and so does the
/// parse around it, whatever callbacks return. Such are
///
/// - `Eof` where a header or contents end early,
/// - `Invalid` for a header or contents that the mode rejects,
/// - `IntegerOverflow` for a tag number or a position past 2^64-1,
/// - `Extra` for bytes that are left of contents of definite length,
/// - `StackOverflow` for an element on level 102,
/// - `OutOfMemory` if there is no memory for its result;
///
/// those of contents and callbacks are described with each read.
///
/// Two readings over bytes of one lifetime can be exchanged by `std::mem::swap`. A sticky error goes with its reading; a call
/// around a callback takes back only that error and the number of bytes that are left, and cuts from its own bytes.
///
/// ```rust
/// pub fn read_point(reader: BERReader) -> ASN1Result<Point> {
///     reader.read_sequence(|parts| {
///         let x = parts.next().read_i64()?;
///         let y = parts.next().read_i64()?;
///         Ok(Point { x, y })
///     })
/// }
/// ```
pub type BERReader<'a, 'b> = &'b mut ReaderState<'a>;

/// The contents of a constructed element, which holds the reading of them.
#[derive(Drop)]
pub struct PartsReader<S> {
    pub(crate) reader: S,
}

impl<S> PartsReader<S> {
    ghost use Rattle.std.specs.Borrow.{sem};
    ghost use Rattle.yasna_reader.specs.State.{LendsReader, part_of};

    /// The reading of the next part.
    #[inline(always)]
    pub fn next(&mut self) -> &mut S
        ensures* lends { sem 𝓛 (LendsReader S.row self.entry result) }
        ensures value { result.now ≡ part_of self.old }
    {
        &mut self.reader
    }
}

/// The parts of a SEQUENCE, read one after the other.
///
/// ```rust
/// pub fn read_person(reader: BERReader) -> ASN1Result<Person> {
///     reader.read_sequence(|parts| {
///         let name = parts.next().read_utf8string()?;
///         let age = parts.read_optional(|part| part.read_u16())?;
///         Ok(Person { name, age })
///     })
/// }
/// ```
pub type BERReaderSeq<'a, 'b> = PartsReader<ReaderState<'a>>;

impl<'a> PartsReader<ReaderState<'a>> {
    ghost use Rattle.std.specs.Prelude.{◌≡◌};
    ghost use Rattle.yasna_reader.specs.State.{part_of};

    /// The mode in which the parts are read.
    pub fn mode(&self) -> BERMode
        ensures { result ≡ (part_of self.now).mode }
    {
        let reader = &self.reader;
        reader.cursor.mode
    }
}
