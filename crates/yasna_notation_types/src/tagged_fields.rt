//! How the fields of a SEQUENCE are written under a tag of its own, IMPLICIT or EXPLICIT (X.690, 8.14).
//!
//! Fields are references to them, as pairs that end in `()`. A tag `under` is in place of `T`.
ghost use Rattle.yasna_base.specs.Canonical.{enclosed_encoding};
ghost use Rattle.yasna_base.specs.Identifier.{tag_or};
ghost use Rattle.yasna_base.specs.Sequence.{sequence_tag};
ghost use Rattle.yasna_writer.specs.Prepend.{Prepends, KnownLength};
ghost use Rattle.yasna_writer.specs.View.{Writes};
ghost use Rattle.yasna_notation.specs.Parts.{WrittenAlike};

use yasna_base::{ASN1Result, BERMode, Tag};
use yasna_notation::{Parts, PartsBy, Sequence, TagName};
use yasna_writer::{DERWriter, PrependBuffer, constructed_len};

/// Writes a SEQUENCE of these fields under the tag `T` in place of its own.
#[inline(always)]
pub fn write_implicit_fields<
    T: TagName,
    P: Parts + PartsBy<R, Held = <P as Parts>::Values>,
    R: Drop,
>(fields: R, writer: DERWriter<'_>) -> ASN1Result<()>
    requires can { P.can (P.held fields) }
    requires alike { WrittenAlike P.encoding P.can P.encoding_by P.can_by }
    ensures { Writes (enclosed_encoding P.encoding (tag_or writer.old.tag T.tag) writer.old.mode (P.held fields)) writer.old writer.new result }
{
    writer.write_tagged_implicit(T::tag(), |inner| Sequence::<P>::write_fields(fields, inner))
}

/// Prepends a SEQUENCE of these fields under the tag `T` to a buffer. `Err` is `OutOfMemory`.
#[inline(always)]
pub fn prepend_implicit_fields<
    T: TagName,
    P: Parts + PartsBy<R, Held = <P as Parts>::Values>,
    R: Drop,
>(fields: R, under: Option<Tag>, out: &mut PrependBuffer) -> ASN1Result<()>
    requires can { P.can (P.held fields) }
    requires alike { WrittenAlike P.encoding P.can P.encoding_by P.can_by }
    ensures { Prepends (enclosed_encoding P.encoding (tag_or under T.tag) out.old.mode (P.held fields)) out.old out.new result }
{
    Sequence::<P>::prepend_fields(fields, Some(under.unwrap_or(T::tag())), out)
}

/// The length of that SEQUENCE, if it is known.
#[inline(always)]
pub fn implicit_fields_len<T: TagName, P: Parts + PartsBy<R, Held = <P as Parts>::Values>, R: Drop>(
    fields: R,
    under: Option<Tag>,
    mode: BERMode,
) -> Option<usize>
    requires can { P.can (P.held fields) }
    requires alike { WrittenAlike P.encoding P.can P.encoding_by P.can_by }
    ensures { KnownLength (enclosed_encoding P.encoding (tag_or under T.tag) mode (P.held fields)) result }
{
    Sequence::<P>::fields_len(fields, Some(under.unwrap_or(T::tag())), mode)
}

/// Writes a SEQUENCE of these fields in an element of the tag `T`.
#[inline(always)]
pub fn write_explicit_fields<
    T: TagName,
    P: Parts + PartsBy<R, Held = <P as Parts>::Values>,
    R: Drop,
>(fields: R, writer: DERWriter<'_>) -> ASN1Result<()>
    requires can { P.can (P.held fields) }
    requires alike { WrittenAlike P.encoding P.can P.encoding_by P.can_by }
    ensures { Writes (enclosed_encoding (enclosed_encoding P.encoding sequence_tag) (tag_or writer.old.tag T.tag) writer.old.mode (P.held fields)) writer.old writer.new result }
{
    writer.write_tagged(T::tag(), |inner| Sequence::<P>::write_fields(fields, inner))
}

/// Prepends a SEQUENCE of these fields in an element of the tag `T` to a buffer. `Err` is `OutOfMemory`.
#[inline(always)]
pub fn prepend_explicit_fields<
    T: TagName,
    P: Parts + PartsBy<R, Held = <P as Parts>::Values>,
    R: Drop,
>(fields: R, under: Option<Tag>, out: &mut PrependBuffer) -> ASN1Result<()>
    requires can { P.can (P.held fields) }
    requires alike { WrittenAlike P.encoding P.can P.encoding_by P.can_by }
    ensures { Prepends (enclosed_encoding (enclosed_encoding P.encoding sequence_tag) (tag_or under T.tag) out.old.mode (P.held fields)) out.old out.new result }
{
    let after = out.begin_contents()?;
    Sequence::<P>::prepend_fields(fields, None, out)?;
    out.enclose(under.unwrap_or(T::tag()), after)
}

/// The length of that element, if it is known.
#[inline(always)]
pub fn explicit_fields_len<T: TagName, P: Parts + PartsBy<R, Held = <P as Parts>::Values>, R: Drop>(
    fields: R,
    under: Option<Tag>,
    mode: BERMode,
) -> Option<usize>
    requires can { P.can (P.held fields) }
    requires alike { WrittenAlike P.encoding P.can P.encoding_by P.can_by }
    ensures { KnownLength (enclosed_encoding (enclosed_encoding P.encoding sequence_tag) (tag_or under T.tag) mode (P.held fields)) result }
{
    let contents = Sequence::<P>::fields_len(fields, None, mode)?;
    constructed_len(mode, under.unwrap_or(T::tag()), contents)
}
