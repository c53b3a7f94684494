//! The writer: a buffer, the implicit tag that waits, and the sticky error. The writes of all other modules are built on it.
ghost use Rattle.std.specs.Prelude.{◌≡◌, ◌++◌, length, Ok, Err, Some, None, MatchResult};
ghost use Rattle.yasna_base.specs.Error.{kind_of};
ghost use Rattle.yasna_base.specs.declared.error.ASN1ErrorKind.TheVariants.{OutOfMemory};
ghost use Rattle.yasna_base.specs.Canonical.{canonical_element};
ghost use Rattle.yasna_base.specs.Digits.{base128};
ghost use Rattle.std.specs.List.{flat_map};
ghost use Rattle.std.specs.Str.{chars};
ghost use Rattle.yasna_base.specs.Text.{bmp_octets};
ghost use Rattle.yasna_base.specs.declared.tag.PCBit.TheVariants.{Primitive};
ghost use Rattle.yasna_writer.specs.View.{Written, begun};
ghost use Rattle.yasna_base.specs.Identifier.{tag_or};
ghost use Rattle.yasna_writer.specs.Construct.{Constructed};
ghost use Rattle.yasna_writer.specs.Sequence.{ReturnsSticky};
ghost use Rattle.yasna_writer.specs.Header.{header_bytes, indefinite_header};
ghost use Rattle.yasna_writer.specs.Parts.{begun_set};
ghost use Rattle.yasna_writer.specs.State.{Appended, TakesTag, BeginsAt, EndsElement};
ghost use Rattle.yasna_writer.specs.Tagged.{writing_under, LeftAfter};

use crate::buffer::{Buffer, OpenElement};
use crate::header::Header;
use crate::set::DERWriterSet;
use std::alloc::Global;
use std::marker::Model;
use yasna_base::{ASN1Error, ASN1ErrorKind, ASN1Result, BERMode, PCBit, Tag};

/// A writing: the bytes so far, their mode (DER or CER), the implicit tag of the next element, and the sticky error.
///
/// A write that finds no memory returns `OutOfMemory`. That error is sticky: each later write returns it, and so does the call that
/// began the writing.
#[derive(Drop)]
pub struct Writer {
    buffer: Buffer,
    tag: Option<Tag>,
    failed: Option<ASN1Error>,
    alloc: Global,
    // The mode in which it writes.
    mode: BERMode,
}

impl Model for Writer {
    ghost use Rattle.yasna_writer.specs.View.{Written};

    ghost Value = { Written };

    ghost view = { λ s. record { bytes = s.buffer; mode = s.mode; tag = s.tag; failed = s.failed } };
}

/// The writer of one element.
///
/// Each write takes the implicit tag if there is one, and else the type's own. Two writers of nested writings can be exchanged by
/// `std::mem::swap`. Each then goes on with the bytes, the mode and the sticky error of the other. An element that is open in one
/// ends over what that holds then, in the mode that the element began with, from its place by the count of bytes on; if fewer bytes
/// are there, it fails as `Invalid`, which is sticky. What follows it is written in its own mode again.
///
/// ```rust
/// pub fn write_time(time: &Time, writer: DERWriter<'_>) -> ASN1Result<()> {
///     match time {
///         Time::Utc(time) => writer.write_utctime(time),
///         Time::Generalized(time) => writer.write_generalized_time(time),
///     }
/// }
/// ```
pub type DERWriter<'a> = &'a mut Writer;

impl Writer {
    // An empty writing in this mode.
    #[inline(always)]
    pub(crate) fn new(alloc: Global, mode: BERMode) -> Writer
        ensures { result ≡ begun mode }
    {
        Writer {
            buffer: Buffer::new(alloc),
            tag: None,
            failed: None,
            alloc,
            mode,
        }
    }

    // An empty writing in this mode, with this implicit tag.
    #[inline(always)]
    pub(crate) fn under(alloc: Global, mode: BERMode, tag: Option<Tag>) -> Writer
        ensures { result ≡ record (begun mode) { tag = tag } }
    {
        Writer {
            buffer: Buffer::new(alloc),
            tag,
            failed: None,
            alloc,
            mode,
        }
    }

    // The mode in which it writes.
    #[inline(always)]
    pub(crate) fn mode(&self) -> BERMode
        ensures { result ≡ self.now.mode }
    {
        self.mode
    }

    // The sticky error.
    #[inline(always)]
    pub(crate) fn failed(&self) -> Option<ASN1Error>
        ensures { result ≡ self.now.failed }
    {
        self.failed
    }

    // The allocator.
    #[inline(always)]
    pub(crate) fn alloc(&self) -> Global {
        self.alloc
    }

    // Takes the implicit tag, or else a type's own. The one that waits is copied by its fields, so that its padding isn't read back
    // from memory.
    #[inline(always)]
    pub(crate) fn take_tag(&mut self, own: Tag) -> Tag
        ensures tag { result ≡ tag_or self.old.tag own }
        ensures taken { self.new ≡ record self.old { tag = None } }
    {
        match self.tag {
            None => own,
            Some(
                Tag {
                    tag_class,
                    tag_number,
                },
            ) => {
                self.tag = None;
                Tag {
                    tag_class,
                    tag_number,
                }
            }
        }
    }

    // Drops the implicit tag. Mostly none waits: a branch is cheaper than the store.
    #[inline(always)]
    pub(crate) fn untag(&mut self)
        ensures { self.new ≡ record self.old { tag = None } }
    {
        if self.tag.is_some() {
            self.tag = None;
        }
    }

    // Fails with a sticky `OutOfMemory`.
    #[cold]
    pub(crate) fn fail_out_of_memory(&mut self) -> ASN1Error
        ensures kind { kind_of result ≡ OutOfMemory }
        ensures failed { self.new ≡ record self.old { failed = Some result } }
    {
        let out_of_memory = ASN1Error::new(ASN1ErrorKind::OutOfMemory);
        self.failed = Some(out_of_memory);
        out_of_memory
    }

    // Appends bytes, or fails with a sticky `OutOfMemory`.
    #[inline(always)]
    pub(crate) fn append(&mut self, bytes: &[u8]) -> ASN1Result<()>
        ensures { Appended bytes.now self.old self.new result }
    {
        match self.buffer.add(bytes) {
            Ok(()) => Ok(()),
            Err(_) => Err(self.fail_out_of_memory()),
        }
    }

    // Appends the header of an element whose contents follow, or fails with a sticky `OutOfMemory`.
    #[inline(always)]
    pub(crate) fn append_header(&mut self, header: Header, bit: PCBit) -> ASN1Result<()>
        ensures { Appended (header_bytes bit header) self.old self.new result }
    {
        match self.buffer.add_header(header, bit) {
            Ok(()) => Ok(()),
            Err(_) => Err(self.fail_out_of_memory()),
        }
    }

    // Appends the header of an element of indefinite length, with room for this many bytes after it, or fails with a sticky `OutOfMemory`.
    pub(crate) fn append_indefinite_header(&mut self, tag: Tag, length: usize) -> ASN1Result<()>
        ensures { Appended (indefinite_header tag) self.old self.new result }
    {
        match self.buffer.add_indefinite_header(tag, length) {
            Ok(()) => Ok(()),
            Err(_) => Err(self.fail_out_of_memory()),
        }
    }

    // Appends an element without parts, whose contents are two pieces, or fails with a sticky `OutOfMemory`. Mostly the first is empty.
    #[tactic(auto, unfolding(yasna_base::specs::Canonical::canonical_element, yasna_base::specs::Canonical::definite_element))]
    pub(crate) fn append_primitive(
        &mut self,
        tag: Tag,
        prefix: &[u8],
        rest: &[u8],
    ) -> ASN1Result<()>
        ensures { Appended (canonical_element self.old.mode tag Primitive (prefix.now ++ rest.now)) self.old self.new result }
    {
        let Some(length) = prefix.len().checked_add(rest.len()) else {
            return Err(self.fail_out_of_memory());
        };
        self.append_header(Header { tag, length }, PCBit::Primitive)?;
        if !prefix.is_empty() {
            self.append(prefix)?;
        }
        self.append(rest)
    }

    // Appends numbers in base 128, or fails with a sticky `OutOfMemory`.
    pub(crate) fn append_subidentifiers(&mut self, first: u64, further: &[u64]) -> ASN1Result<()>
        ensures { Appended (base128 first ++ flat_map base128 further.now) self.old self.new result }
    {
        match self.buffer.add_subidentifiers(first, further) {
            Ok(()) => Ok(()),
            Err(_) => Err(self.fail_out_of_memory()),
        }
    }

    // Appends a text in UTF-16, or fails with a sticky `OutOfMemory`.
    pub(crate) fn append_bmp(&mut self, string: &str) -> ASN1Result<()>
        ensures { Appended (bmp_octets (chars string.now)) self.old self.new result }
    {
        match self.buffer.add_bmp(string) {
            Ok(()) => Ok(()),
            Err(_) => Err(self.fail_out_of_memory()),
        }
    }

    // The result of the writing, if the closure returned `own`.
    #[inline(always)]
    pub(crate) fn finish<E: From<ASN1Error> + Drop>(
        &mut self,
        own: Result<(), E>,
    ) -> Result<Vec<u8>, E>
        ensures { Constructed E.from_gives self.old own result }
    {
        if let Some(error) = self.failed {
            return Err(E::from(error));
        }
        if let Err(error) = own {
            return Err(error);
        }
        match self.take_bytes() {
            Ok(bytes) => Ok(bytes),
            Err(error) => Err(E::from(error)),
        }
    }

    // The tag of an element that begins, if no error is sticky.
    #[inline(always)]
    pub(crate) fn fresh_tag(&mut self, own: Tag) -> Result<Tag, ASN1Error>
        ensures { TakesTag own self.old self.new result }
    {
        if let Some(error) = self.failed {
            return Err(error);
        }
        Ok(self.take_tag(own))
    }

    // Takes out the bytes. Nothing is written to the buffer that is left.
    #[inline(always)]
    pub(crate) fn take_bytes(&mut self) -> ASN1Result<Vec<u8>>
        ensures { MatchResult result (λ v. v.items ≡ self.old.bytes) (λ e. kind_of e ≡ OutOfMemory) }
    {
        match self.buffer.take_joined(self.alloc) {
            Ok(bytes) => Ok(bytes),
            Err(_) => Err(ASN1Error::new(ASN1ErrorKind::OutOfMemory)),
        }
    }

    // Begins again, in this mode and with this sticky error.
    #[inline(always)]
    pub(crate) fn restart(&mut self, mode: BERMode, failed: Option<ASN1Error>)
        ensures { self.new ≡ record (begun mode) { failed = failed } }
    {
        self.mode = mode;
        self.buffer = Buffer::new(self.alloc);
        self.tag = None;
        self.failed = failed;
    }

    // Begins a set, in the mode of the writing.
    #[inline(always)]
    pub(crate) fn begin_set(&self) -> DERWriterSet
        ensures { result ≡ begun_set self.now.mode }
    {
        DERWriterSet::new(self.alloc, self.mode)
    }

    // Makes an error sticky.
    #[cold]
    pub(crate) fn fail(&mut self, error: ASN1Error)
        ensures { self.new ≡ record self.old { failed = Some error } }
    {
        self.failed = Some(error);
    }

    // Begins an element with parts.
    #[inline(always)]
    pub(crate) fn begin(&mut self, tag: Tag) -> OpenElement
        ensures { BeginsAt tag self.old self.new result }
    {
        self.buffer.open_element(self.alloc, tag, self.mode)
    }

    // Ends an element over what is left from its beginning on, in the mode that it began with, or fails with a sticky error.
    #[inline(always)]
    pub(crate) fn end(&mut self, opened: OpenElement)
        ensures { EndsElement opened self.old self.new }
    {
        if self.failed.is_none() {
            self.mode = opened.mode;
            self.untag();
            if let Err(error) = self.buffer.enclose(self.alloc, opened) {
                self.failed = Some(error);
            }
        }
    }

    // Lets this tag wait for the next element, if none waits, and returns the count of bytes so far.
    #[inline(always)]
    pub(crate) fn tag_next(&mut self, tag: Tag) -> usize
        ensures tagged { self.new ≡ writing_under tag self.old }
        ensures start { result ≡ length self.old.bytes }
    {
        if self.tag.is_none() {
            self.tag = Some(tag);
        }
        self.buffer.len()
    }

    // Drops the implicit tag after a closure, and fails with a sticky error if it left fewer bytes than these.
    #[inline(always)]
    pub(crate) fn end_tagging(&mut self, start: usize)
        ensures { LeftAfter start self.old self.new }
    {
        self.untag();
        if self.failed.is_none() && self.buffer.len() < start {
            self.failed = Some(ASN1Error::new(ASN1ErrorKind::Invalid));
        }
    }

    // The result of a call with a closure, if the closure returned `own`.
    #[inline(always)]
    pub(crate) fn resolve<T: Drop, E: From<ASN1Error> + Drop>(
        &self,
        own: Result<T, E>,
    ) -> Result<T, E>
        ensures { ReturnsSticky E.from_gives self.now.failed own result }
    {
        match self.failed {
            Some(error) => Err(E::from(error)),
            None => own,
        }
    }
}
