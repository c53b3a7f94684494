//! UTCTime and GeneralizedTime (X.680, 46 and 47; X.690, 11.7 and 11.8).
ghost use Rattle.std.specs.Prelude.{◌≡◌, true};
ghost use Rattle.yasna_base.specs.Canonical.{Always};
ghost use Rattle.yasna_base.specs.Coding.{Any};
ghost use Rattle.yasna_times.specs.GeneralizedTime.{EncodesGeneralizedTime, generalized_time_encoding, generalized_time_depth, generalized_time_tag};
ghost use Rattle.yasna_times.specs.Models.{EncodesUtc, EncodesGeneral, utc_of, moment_of};
ghost use Rattle.yasna_times.specs.UtcTime.{EncodesUtcTime, utc_time_encoding, utc_time_depth, utc_time_tag};
ghost use Rattle.yasna_times.proofs.TimeLaws.{utc_coding, utc_written, general_coding, general_written};

use crate::traits::{BERDecodable, DERCanonical, DEREncodable};
use yasna_base::error::ASN1Result;
use yasna_base::mode::BERMode;
use yasna_base::tags::{TAG_GENERALIZEDTIME, TAG_UTCTIME};
use yasna_reader::BERReader;
use yasna_times::models::{GeneralizedTime, UTCTime};
use yasna_writer::{DERWriter, PrependBuffer, generalized_time_len, utctime_len};

impl BERDecodable for UTCTime {
    ghost encodes = { EncodesUtc };

    ghost elements = { Any EncodesUtcTime };

    ghost may_allocate = { true };

    ghost same = { λ v w. utc_of v ≡ utc_of w };

    fn decode_ber(reader: BERReader) -> ASN1Result<UTCTime> {
        reader.read_utctime()
    }

    ghost coding = { utc_coding };
}

impl DEREncodable for UTCTime {
    ghost encoding = { λ m v. utc_time_encoding utc_time_tag m (utc_of v) };

    ghost depth = { λ m v. utc_time_depth m (utc_of v) };

    ghost encodable = { Always };

    fn encode_der(&self, writer: DERWriter<'_>) -> ASN1Result<()> {
        writer.write_utctime(self)
    }

    #[inline(always)]
    fn prepend_der(&self, out: &mut PrependBuffer) -> ASN1Result<()> {
        out.prepend_utctime(TAG_UTCTIME, self)
    }

    #[inline(always)]
    fn encoded_len(&self, _mode: BERMode) -> Option<usize> {
        utctime_len(TAG_UTCTIME, self)
    }
}

impl DERCanonical for UTCTime {
    ghost written = { utc_written };
}

impl BERDecodable for GeneralizedTime {
    ghost encodes = { EncodesGeneral };

    ghost elements = { Any EncodesGeneralizedTime };

    ghost may_allocate = { true };

    ghost same = { λ v w. moment_of v ≡ moment_of w };

    fn decode_ber(reader: BERReader) -> ASN1Result<GeneralizedTime> {
        reader.read_generalized_time()
    }

    ghost coding = { general_coding };
}

impl DEREncodable for GeneralizedTime {
    ghost encoding = { λ m v. generalized_time_encoding generalized_time_tag m (moment_of v) };

    ghost depth = { λ m v. generalized_time_depth m (moment_of v) };

    ghost encodable = { Always };

    fn encode_der(&self, writer: DERWriter<'_>) -> ASN1Result<()> {
        writer.write_generalized_time(self)
    }

    #[inline(always)]
    fn prepend_der(&self, out: &mut PrependBuffer) -> ASN1Result<()> {
        out.prepend_generalized_time(TAG_GENERALIZEDTIME, self)
    }

    #[inline(always)]
    fn encoded_len(&self, _mode: BERMode) -> Option<usize> {
        generalized_time_len(TAG_GENERALIZEDTIME, self)
    }
}

impl DERCanonical for GeneralizedTime {
    ghost written = { general_written };
}
