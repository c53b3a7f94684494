//! UTCTime and GeneralizedTime: their canonical texts (X.690, 11.7 and 11.8), calls of users.
ghost use Rattle.yasna_times.specs.GeneralizedTime.{generalized_time_encoding, generalized_time_tag};
ghost use Rattle.yasna_base.specs.Identifier.{tag_or};
ghost use Rattle.yasna_times.specs.Models.{utc_of, moment_of};
ghost use Rattle.yasna_times.specs.UtcTime.{utc_time_encoding, utc_time_tag};
ghost use Rattle.yasna_writer.specs.View.{Wrote};

use crate::state::Writer;
use yasna_base::ASN1Result;
use yasna_base::tags::{TAG_GENERALIZEDTIME, TAG_UTCTIME};
use yasna_times::models::{GeneralizedTime, UTCTime};

impl Writer {
    /// Writes a UTCTime (X.690, 8.26 and 11.8): `YYMMDDhhmmssZ`.
    pub fn write_utctime(&mut self, time: &UTCTime) -> ASN1Result<()>
        ensures { Wrote (utc_time_encoding (tag_or self.old.tag utc_time_tag) self.old.mode (utc_of time.now)) self.old self.new result }
    {
        self.write_octets(TAG_UTCTIME, &time.text())
    }

    /// Writes a GeneralizedTime (X.690, 8.25 and 11.7): `YYYYMMDDhhmmss`, the fraction of the second after `.` if there is one, `Z`.
    pub fn write_generalized_time(&mut self, time: &GeneralizedTime) -> ASN1Result<()>
        ensures { Wrote (generalized_time_encoding (tag_or self.old.tag generalized_time_tag) self.old.mode (moment_of time.now)) self.old self.new result }
    {
        if let Some(error) = self.failed() {
            return Err(error);
        }
        match time.to_bytes(self.alloc()) {
            Ok(text) => self.write_octets(TAG_GENERALIZEDTIME, text.as_slice()),
            Err(_) => Err(self.fail_out_of_memory()),
        }
    }
}
