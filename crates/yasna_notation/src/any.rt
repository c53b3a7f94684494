//! An element of any tag, whose contents aren't given a type (ANY of X.208; X.690, 8.1).
ghost use Rattle.std.specs.Prelude.{◌≡◌, [], true, false};
ghost use Rattle.yasna_base.specs.Canonical.{Always, leaf_depth};
ghost use Rattle.yasna_base.specs.Coding.{Any};
ghost use Rattle.yasna_base.specs.Exact.{raw_fits};
ghost use Rattle.yasna_base.specs.Identifier.{tag_or};
ghost use Rattle.yasna_base.specs.Raw.{IsRaw, raw_encoding};
ghost use Rattle.yasna_base.specs.TaggedDerValue.{raw_of};
ghost use Rattle.yasna_notation.specs.Laws.{any_laws, never_retagged, raw_non_empty};

use crate::notation::Notation;
use yasna_base::models::TaggedDerValue;
use yasna_base::{ASN1Result, BERMode, Tag};
use yasna_reader::BERReader;
use yasna_writer::{DERWriter, PrependBuffer, tagged_der_len};

/// It is written as it came, so one that BER read with indefinite length isn't an element of DER. Its depth isn't counted.
impl Notation for TaggedDerValue {
    type Value = TaggedDerValue;

    type Inner = ();

    ghost means = { record {
      tags_known = false;
      tags = [];
      retagged = false;
      under = λ u m n v b. IsRaw m n (raw_of v) b;
      any_under = λ u. Any IsRaw;
      may_allocate = true;
      same = λ v w. raw_of v ≡ raw_of w;
      encoding_under = λ u m v. raw_encoding (tag_or u (raw_of v).tag) m (raw_of v);
      depth = leaf_depth;
      can = Always;
      fits = λ m n v. raw_fits m n (raw_of v);
    } };

    #[inline(always)]
    fn has_tag(_tag: Tag) -> bool {
        false
    }

    #[inline(always)]
    fn read(reader: BERReader) -> ASN1Result<TaggedDerValue> {
        reader.read_tagged_der()
    }

    #[inline(always)]
    fn write(value: &TaggedDerValue, writer: DERWriter<'_>) -> ASN1Result<()> {
        writer.write_tagged_der(value)
    }

    #[inline(always)]
    fn prepend(
        value: &TaggedDerValue,
        under: Option<Tag>,
        out: &mut PrependBuffer,
    ) -> ASN1Result<()> {
        out.prepend_tagged_der(under.unwrap_or(value.tag()), value)
    }

    #[inline(always)]
    fn encoded_len(value: &TaggedDerValue, under: Option<Tag>, mode: BERMode) -> Option<usize> {
        tagged_der_len(mode, under.unwrap_or(value.tag()), value)
    }

    ghost lawful = { λ _. record { own = any_laws; others = λ e. never_retagged e } };

    ghost non_empty = { λ u m v. raw_non_empty (tag_or u (raw_of v).tag) m (raw_of v) };
}
