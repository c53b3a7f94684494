//! Contents in BER turned into those in DER (X.690, 11).
ghost use Rattle.std.specs.Prelude.{◌≡◌, IfOk, MatchOption, List, ℕ};
ghost use Rattle.yasna_base.specs.declared.mode.BERMode.TheVariants.{Ber};
ghost use Rattle.asn1_contents.specs.Contents.{HasContents, IsUtcTimeOf, IsGeneralizedTimeOf};

use crate::contents_type::ContentsType;
use crate::plain::are_plain;
use std::alloc::{AllocError, Global};
use yasna_times::models::{GeneralizedTime, UTCTime};

// A UTCTime in DER's form: the second is there, and the zone is Z (X.690, 11.8).
fn utc_time(alloc: Global, contents: Vec<u8>) -> Result<Option<Vec<u8>>, AllocError>
    ensures { IfOk result (λ o. MatchOption o ((d : List ℕ) → ¬ (IsUtcTimeOf Ber d contents.items))
        (λ d. IsUtcTimeOf Ber d.items contents.items)) }
{
    let Some(time) = UTCTime::parse(&contents) else {
        return Ok(None);
    };
    if time.is_canonical(&contents) {
        return Ok(Some(contents));
    }
    Ok(Some(time.to_bytes(alloc)?))
}

// A GeneralizedTime in DER's form: as `utc_time`, and the fraction has a point and no zeros at its end (X.690, 11.7).
fn generalized_time(alloc: Global, contents: Vec<u8>) -> Result<Option<Vec<u8>>, AllocError>
    ensures { IfOk result (λ o. MatchOption o ((d : List ℕ) → ¬ (IsGeneralizedTimeOf Ber d contents.items))
        (λ d. IsGeneralizedTimeOf Ber d.items contents.items)) }
{
    let Some(moment) = GeneralizedTime::parse(alloc, &contents)? else {
        return Ok(None);
    };
    if moment.is_canonical(&contents) {
        return Ok(Some(contents));
    }
    Ok(Some(moment.to_bytes(alloc)?))
}

/// The contents in DER of the value that these encode in BER, or None if they encode none that has contents in DER.
///
/// A GeneralizedTime without a zone is such a value: DER has no local time (X.690, 11.7.1). Contents that are in DER already stay in
/// their memory.
pub fn der_contents(
    alloc: Global,
    contents_type: ContentsType,
    contents: Vec<u8>,
) -> Result<Option<Vec<u8>>, AllocError>
    ensures { IfOk result (λ o. MatchOption o ((d : List ℕ) → ¬ (HasContents contents_type Ber d contents.items))
        (λ d. HasContents contents_type Ber d.items contents.items)) }
{
    match contents_type {
        ContentsType::UtcTime => utc_time(alloc, contents),
        ContentsType::GeneralizedTime => generalized_time(alloc, contents),
        _ => {
            if are_plain(contents_type, &contents) {
                Ok(Some(contents))
            } else {
                Ok(None)
            }
        }
    }
}
