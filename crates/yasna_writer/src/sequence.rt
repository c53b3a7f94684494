//! SEQUENCE and SEQUENCE OF (X.690, 8.9 and 8.10), calls of users. The length is definite in DER (10.1), and indefinite in CER (9.1).
ghost use Rattle.std.specs.Prelude.{◌≡◌, None};
ghost use Rattle.std.specs.Fn.{FnOnceTakesAtMut};
ghost use Rattle.yasna_base.specs.declared.tag.PCBit.TheVariants.{Constructed};
ghost use Rattle.yasna_base.specs.Identifier.{tag_or};
ghost use Rattle.yasna_base.specs.Canonical.{canonical_element};
ghost use Rattle.yasna_base.specs.Sequence.{sequence_tag};
ghost use Rattle.yasna_writer.specs.View.{handed};
ghost use Rattle.yasna_writer.specs.Sequence.{Encloses};

use crate::state::{DERWriter, Writer};
use yasna_base::ASN1Error;
use yasna_base::tags::TAG_SEQUENCE;

/// The parts of a sequence, which a closure writes one after the other.
///
/// ```rust
/// pub fn write_point(point: Point, writer: DERWriter<'_>) -> ASN1Result<()> {
///     writer.write_sequence(|parts| {
///         parts.next().write_i64(point.x)?;
///         parts.next().write_i64(point.y)
///     })
/// }
/// ```
pub type DERWriterSeq = Writer;

impl Writer {
    /// The writer of the next part, which is this one with no implicit tag.
    #[inline(always)]
    pub fn next(&mut self) -> DERWriter<'_>
        ensures same_reference { result.ghost_name ≡ self.entry.ghost_name }
        ensures value { result.now ≡ record self.old { tag = None } }
    {
        self.untag();
        self
    }

    /// Writes a SEQUENCE (X.690, 8.9): its contents are what the closure writes.
    ///
    /// A sticky error is returned, and the closure doesn't run. Else the closure's result is returned. After an `Err` of the closure's own
    /// the element still ends over what was written so far, and the writing goes on. If a write of the closure failed, or there is no
    /// memory for the header (`OutOfMemory`), or the closure left fewer bytes than there were (`Invalid`), that error is returned
    /// instead, and is sticky.
    #[inline(always)]
    pub fn write_sequence<
        T: Drop,
        E: From<ASN1Error> + Drop,
        F: FnOnce(&mut DERWriterSeq) -> Result<T, E>,
    >(&mut self, f: F) -> Result<T, E>
        requires { self.old.failed ≡ None → FnOnceTakesAtMut F.FnOnce f (handed self.old) }
        ensures { Encloses F.FnOnce E.from_gives f (canonical_element self.old.mode (tag_or self.old.tag sequence_tag) Constructed) self.old self.new result }
    {
        self.write_tagged(TAG_SEQUENCE, f)
    }

    /// Writes a SEQUENCE OF (X.690, 8.10), as `write_sequence` writes a SEQUENCE.
    #[inline(always)]
    pub fn write_sequence_of<
        T: Drop,
        E: From<ASN1Error> + Drop,
        F: FnOnce(&mut DERWriterSeq) -> Result<T, E>,
    >(&mut self, f: F) -> Result<T, E>
        requires { self.old.failed ≡ None → FnOnceTakesAtMut F.FnOnce f (handed self.old) }
        ensures { Encloses F.FnOnce E.from_gives f (canonical_element self.old.mode (tag_or self.old.tag sequence_tag) Constructed) self.old self.new result }
    {
        self.write_sequence(f)
    }
}
