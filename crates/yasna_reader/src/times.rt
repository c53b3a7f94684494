//! Reads of UTCTime and GeneralizedTime (X.680, 46 and 47; X.690, 11.7 and 11.8).
//!
//! In BER the text of a time may be cut into segments as an octet string, each with the tag universal 4. In CER it is cut so if it
//! is longer than 1000 octets.
ghost use Rattle.std.specs.Prelude.{IsTrue, ◌↔◌};
ghost use Rattle.yasna_base.specs.Canonical.{IsCanonicalMode};
ghost use Rattle.yasna_times.specs.GeneralizedTime.{SpellsGeneralizedTime, generalized_time_tag};
ghost use Rattle.yasna_times.specs.Models.{DateTime, utc_of, moment_of};
ghost use Rattle.yasna_times.specs.Moment.{Moment};
ghost use Rattle.yasna_times.specs.UtcTime.{SpellsUtcTime, utc_time_tag};

use crate::state::ReaderState;
use std::alloc::Global;
use yasna_base::error::{ASN1ErrorKind, ASN1Result};
use yasna_base::mode::BERMode;
use yasna_base::tags::{TAG_GENERALIZEDTIME, TAG_UTCTIME};
use yasna_bytes::bytes::text::Judge;
use yasna_times::models::{GeneralizedTime, UTCTime};

// Whether a mode accepts only the canonical text (X.690, 11.7 and 11.8).
#[inline(always)]
fn requires_canonical(mode: BERMode) -> bool
    ensures { IsTrue result ↔ IsCanonicalMode mode }
{
    match mode {
        BERMode::Ber => false,
        BERMode::Der => true,
        BERMode::Cer => true,
    }
}

// The text of a UTCTime.
#[derive(Clone, Copy, Drop)]
struct UtcText;

impl Judge for UtcText {
    type Value = UTCTime;

    ghost Seen = { DateTime };

    ghost view = { utc_of };

    ghost encodes = { λ _. SpellsUtcTime };

    #[inline(always)]
    fn judge(self, _alloc: Global, mode: BERMode, text: &[u8]) -> Result<UTCTime, ASN1ErrorKind> {
        let utc = match UTCTime::parse(text) {
            Some(utc) => utc,
            None => return Err(ASN1ErrorKind::Invalid),
        };
        if !requires_canonical(mode) {
            return Ok(utc);
        }
        if utc.is_canonical(text) {
            Ok(utc)
        } else {
            Err(ASN1ErrorKind::Invalid)
        }
    }
}

// The text of a GeneralizedTime.
#[derive(Clone, Copy, Drop)]
struct GeneralText;

impl Judge for GeneralText {
    type Value = GeneralizedTime;

    ghost Seen = { Moment };

    ghost view = { moment_of };

    ghost encodes = { λ _. SpellsGeneralizedTime };

    #[inline(always)]
    fn judge(
        self,
        alloc: Global,
        mode: BERMode,
        text: &[u8],
    ) -> Result<GeneralizedTime, ASN1ErrorKind> {
        if text.is_empty() {
            return Err(ASN1ErrorKind::Invalid);
        }
        let time = match GeneralizedTime::parse(alloc, text) {
            Ok(Some(time)) => time,
            Ok(None) => return Err(ASN1ErrorKind::Invalid),
            Err(_) => return Err(ASN1ErrorKind::OutOfMemory),
        };
        if !requires_canonical(mode) {
            return Ok(time);
        }
        if time.is_canonical(text) {
            Ok(time)
        } else {
            Err(ASN1ErrorKind::Invalid)
        }
    }
}

impl<'a> ReaderState<'a> {
    ghost use Rattle.yasna_base.specs.Octets.{IsDeepOctets};
    ghost use Rattle.yasna_base.specs.Text.{IsStringOf};
    ghost use Rattle.yasna_bytes.specs.Contents.{MayAllocate};
    ghost use Rattle.yasna_reader.specs.Primitive.{ReadsSeen};

    /// Reads UTCTime (X.690, 8.26 and 11.8).
    ///
    /// BER accepts any text that `UTCTime::parse` accepts, DER and CER only the canonical one. Any other is `Invalid`.
    #[inline(always)]
    pub fn read_utctime(&mut self) -> ASN1Result<UTCTime>
        ensures { ReadsSeen (IsStringOf SpellsUtcTime) utc_of IsDeepOctets MayAllocate utc_time_tag self.old result self.new }
    {
        self.read_judged(TAG_UTCTIME, UtcText)
    }

    /// Reads GeneralizedTime (X.690, 8.25 and 11.7).
    ///
    /// BER accepts any text that `GeneralizedTime::parse` accepts, DER and CER only the canonical one. Any other is `Invalid`.
    #[inline(always)]
    pub fn read_generalized_time(&mut self) -> ASN1Result<GeneralizedTime>
        ensures { ReadsSeen (IsStringOf SpellsGeneralizedTime) moment_of IsDeepOctets MayAllocate generalized_time_tag self.old result self.new }
    {
        self.read_judged(TAG_GENERALIZEDTIME, GeneralText)
    }
}
