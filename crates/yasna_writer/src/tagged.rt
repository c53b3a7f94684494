//! Elements under explicit and implicit tags (X.690, 8.14), calls of users. The length of an explicit one is definite in DER, and
//! indefinite in CER.
ghost use Rattle.std.specs.Prelude.{◌≡◌, None};
ghost use Rattle.std.specs.Fn.{FnOnceTakesAtMut};
ghost use Rattle.yasna_base.specs.declared.tag.PCBit.TheVariants.{Constructed};
ghost use Rattle.yasna_base.specs.Identifier.{tag_or};
ghost use Rattle.yasna_base.specs.Canonical.{canonical_element};
ghost use Rattle.yasna_writer.specs.View.{handed};
ghost use Rattle.yasna_writer.specs.Sequence.{Encloses};
ghost use Rattle.yasna_writer.specs.Tagged.{writing_under, WritesTagged};

use crate::state::{DERWriter, Writer};
use yasna_base::{ASN1Error, Tag};

impl Writer {
    /// Writes a constructed element of this tag, explicit tagging (X.690, 8.14): its contents are what the closure writes.
    ///
    /// An implicit tag that waits is in place of this one. Errors are those of `write_sequence`.
    pub fn write_tagged<
        T: Drop,
        E: From<ASN1Error> + Drop,
        F: FnOnce(DERWriter<'_>) -> Result<T, E>,
    >(&mut self, tag: Tag, f: F) -> Result<T, E>
        requires { self.old.failed ≡ None → FnOnceTakesAtMut F.FnOnce f (handed self.old) }
        ensures { Encloses F.FnOnce E.from_gives f (canonical_element self.old.mode (tag_or self.old.tag tag) Constructed) self.old self.new result }
    {
        let tag = match self.fresh_tag(tag) {
            Ok(tag) => tag,
            Err(error) => return Err(E::from(error)),
        };
        let opened = self.begin(tag);
        let own = f(self);
        self.end(opened);
        self.resolve(own)
    }

    /// Puts this tag in place of that of the next element that the closure writes, implicit tagging (X.690, 8.14).
    ///
    /// An implicit tag that waits already is in place of this one: the outermost wins. Only what the closure writes is written. A sticky
    /// error is returned, and the closure doesn't run. Else the closure's result is returned, unless a write of it failed: then that
    /// error is returned. If the closure left fewer bytes than there were, the error is `Invalid`, and is sticky.
    pub fn write_tagged_implicit<
        T: Drop,
        E: From<ASN1Error> + Drop,
        F: FnOnce(DERWriter<'_>) -> Result<T, E>,
    >(&mut self, tag: Tag, f: F) -> Result<T, E>
        requires { self.old.failed ≡ None → FnOnceTakesAtMut F.FnOnce f (writing_under tag self.old) }
        ensures { WritesTagged F.FnOnce E.from_gives f tag self.old self.new result }
    {
        if let Some(error) = self.failed() {
            return Err(E::from(error));
        }
        let start = self.tag_next(tag);
        let own = f(self);
        self.end_tagging(start);
        self.resolve(own)
    }
}
