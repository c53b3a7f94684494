//! UTCTime and GeneralizedTime (X.690, 8.25).
ghost use Rattle.std.specs.Prelude.{◌≡◌, ◌∷◌, [], true};
ghost use Rattle.std.proofs.Common.{arith};
ghost use Rattle.yasna_base.specs.Canonical.{Always};
ghost use Rattle.yasna_base.specs.Coding.{Any};
ghost use Rattle.yasna_base.specs.Exact.{written_fits};
ghost use Rattle.yasna_base.specs.Identifier.{tag_or};
ghost use Rattle.yasna_base.specs.Text.{IsStringOf};
ghost use Rattle.yasna_base.proofs.Identifier.{not_end};
ghost use Rattle.yasna_times.specs.Models.{utc_of, moment_of};
ghost use Rattle.yasna_times.specs.UtcTime.{SpellsUtcTime, utc_time_tag, utc_text, utc_time_encoding, utc_time_depth};
ghost use Rattle.yasna_times.specs.GeneralizedTime.{SpellsGeneralizedTime, generalized_time_tag, general_text, generalized_time_encoding, generalized_time_depth};
ghost use Rattle.yasna_notation.specs.Elements.{string_elements};
ghost use Rattle.yasna_notation.specs.Laws.{element_lawful, string_begins, utc_laws, general_laws, octets_non_empty};

use crate::notation::Notation;
use yasna_base::tags::{TAG_GENERALIZEDTIME, TAG_UTCTIME};
use yasna_base::{ASN1Result, BERMode, Tag};
use yasna_reader::BERReader;
use yasna_times::models::{GeneralizedTime, UTCTime};
use yasna_writer::{DERWriter, PrependBuffer, generalized_time_len, utctime_len};

impl Notation for UTCTime {
    type Value = UTCTime;

    type Inner = ();

    ghost means = { record {
      tags_known = true;
      tags = utc_time_tag ∷ [];
      retagged = true;
      under = λ u m n v b. IsStringOf SpellsUtcTime (tag_or u utc_time_tag) m n (utc_of v) b;
      any_under = λ u. Any (IsStringOf SpellsUtcTime (tag_or u utc_time_tag));
      may_allocate = true;
      same = λ v w. utc_of v ≡ utc_of w;
      encoding_under = λ u m v. utc_time_encoding (tag_or u utc_time_tag) m (utc_of v);
      depth = λ m v. utc_time_depth m (utc_of v);
      can = Always;
      fits = written_fits (λ m v. utc_time_depth m (utc_of v)) Always;
    } };

    #[inline(always)]
    fn has_tag(tag: Tag) -> bool {
        tag == TAG_UTCTIME
    }

    #[inline(always)]
    fn read(reader: BERReader) -> ASN1Result<UTCTime> {
        reader.read_utctime()
    }

    #[inline(always)]
    fn write(value: &UTCTime, writer: DERWriter<'_>) -> ASN1Result<()> {
        writer.write_utctime(value)
    }

    #[inline(always)]
    fn prepend(value: &UTCTime, under: Option<Tag>, out: &mut PrependBuffer) -> ASN1Result<()> {
        out.prepend_utctime(under.unwrap_or(TAG_UTCTIME), value)
    }

    #[inline(always)]
    fn encoded_len(value: &UTCTime, under: Option<Tag>, _mode: BERMode) -> Option<usize> {
        utctime_len(under.unwrap_or(TAG_UTCTIME), value)
    }

    ghost lawful = { λ _. element_lawful utc_time_tag utc_laws (string_begins SpellsUtcTime) (string_elements SpellsUtcTime) (not_end 23 (λ e. omega arith)) (omega arith) };

    ghost non_empty = { λ u m v. octets_non_empty (tag_or u utc_time_tag) m (utc_text (utc_of v)) };
}

impl Notation for GeneralizedTime {
    type Value = GeneralizedTime;

    type Inner = ();

    ghost means = { record {
      tags_known = true;
      tags = generalized_time_tag ∷ [];
      retagged = true;
      under = λ u m n v b. IsStringOf SpellsGeneralizedTime (tag_or u generalized_time_tag) m n (moment_of v) b;
      any_under = λ u. Any (IsStringOf SpellsGeneralizedTime (tag_or u generalized_time_tag));
      may_allocate = true;
      same = λ v w. moment_of v ≡ moment_of w;
      encoding_under = λ u m v. generalized_time_encoding (tag_or u generalized_time_tag) m (moment_of v);
      depth = λ m v. generalized_time_depth m (moment_of v);
      can = Always;
      fits = written_fits (λ m v. generalized_time_depth m (moment_of v)) Always;
    } };

    #[inline(always)]
    fn has_tag(tag: Tag) -> bool {
        tag == TAG_GENERALIZEDTIME
    }

    #[inline(always)]
    fn read(reader: BERReader) -> ASN1Result<GeneralizedTime> {
        reader.read_generalized_time()
    }

    #[inline(always)]
    fn write(value: &GeneralizedTime, writer: DERWriter<'_>) -> ASN1Result<()> {
        writer.write_generalized_time(value)
    }

    #[inline(always)]
    fn prepend(
        value: &GeneralizedTime,
        under: Option<Tag>,
        out: &mut PrependBuffer,
    ) -> ASN1Result<()> {
        out.prepend_generalized_time(under.unwrap_or(TAG_GENERALIZEDTIME), value)
    }

    #[inline(always)]
    fn encoded_len(value: &GeneralizedTime, under: Option<Tag>, _mode: BERMode) -> Option<usize> {
        generalized_time_len(under.unwrap_or(TAG_GENERALIZEDTIME), value)
    }

    ghost lawful = { λ _. element_lawful generalized_time_tag general_laws (string_begins SpellsGeneralizedTime) (string_elements SpellsGeneralizedTime) (not_end 24 (λ e. omega arith)) (omega arith) };

    ghost non_empty = { λ u m v. octets_non_empty (tag_or u generalized_time_tag) m (general_text (moment_of v)) };
}
