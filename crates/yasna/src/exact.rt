//! Types of which only DER and CER have one encoding (X.690, 9 to 11), as one that keeps an element of any type as it came.
ghost use Rattle.std.specs.Prelude.{◌≡◌, ◌↔◌, ◌<◌, ◌^◌, ◌++◌, ℕ, List, [], length, FitsSigned};
ghost use Rattle.std.specs.Int.{w64, w32, w16};
ghost use Rattle.std.specs.List.{AllByRecursion};
ghost use Rattle.yasna_base.specs.Grammar.{max_depth};
ghost use Rattle.yasna_base.specs.declared.mode.BERMode.{BERMode};
ghost use Rattle.yasna_base.specs.declared.mode.BERMode.TheVariants.{Ber, Der, Cer};
ghost use Rattle.yasna_base.specs.Canonical.{Always, leaf_depth};
ghost use Rattle.yasna_base.specs.Digits.{IsBytes};
ghost use Rattle.yasna_base.specs.Exact.{Fitting, IsExact, written_fits, enclosed_fits, elements_fit, raw_fits};
ghost use Rattle.yasna_base.specs.Octets.{octets_depth};
ghost use Rattle.yasna_base.specs.Oid.{IsEncodableOid};
ghost use Rattle.yasna_base.specs.TaggedDerValue.{raw_of};
ghost use Rattle.yasna_base.specs.Text.{utf8_depth, characters};
ghost use Rattle.yasna_times.specs.Models.{utc_of, moment_of};
ghost use Rattle.yasna_times.specs.UtcTime.{utc_time_depth};
ghost use Rattle.yasna_times.specs.GeneralizedTime.{generalized_time_depth};
ghost use Rattle.yasna_base.proofs.Exact.{written_exact, exact_along, list_exact, raw_keeps_exact};
ghost use Rattle.yasna_base.proofs.Boolean.{bool_written};
ghost use Rattle.yasna_base.proofs.Null.{unit_written};
ghost use Rattle.yasna_base.proofs.Integer.{signed_written, unsigned_written};
ghost use Rattle.yasna_base.proofs.Octets.{vec_written};
ghost use Rattle.yasna_base.proofs.Oid.{oid_written};
ghost use Rattle.yasna_base.proofs.Texts.{text_written};
ghost use Rattle.yasna_times.proofs.TimeLaws.{utc_written, general_written};

use crate::shapes::{EncodeShape, FromShape};
use crate::traits::{BERDecodable, DEREncodable};
use yasna_base::models::{ObjectIdentifier, TaggedDerValue};
use yasna_times::models::{GeneralizedTime, UTCTime};

/// A type that DER and CER read only from its one encoding there, which BER reads too.
///
/// Unlike `DERCanonical`, it says nothing of how what BER reads is written. So a type can have it that keeps an element of any type as
/// it came, or the unused bits of a BIT STRING. Every type with `DERCanonical` can have it by the lemma `written_exact`. It has no
/// function: an impl proves the law.
///
/// ```rust
/// impl DERExact for Measurement {
///     ghost fits = { written_fits Self.depth Self.encodable };
///
///     ghost exact = { written_exact (tuple_written (λ v. (v.number, (v.valid, tt))) (part_written (signed_written w64) (part_written bool_written no_part_written))) };
/// }
/// ```
pub trait DERExact: BERDecodable + DEREncodable {
    // Which values have an encoding in a mode within a number of levels.
    ghost fits: { Fitting Self };

    // The encoding is read, in its mode and in BER; a canonical mode reads nothing else; what has an encoding can be written; equal
    // values are written alike.
    ghost exact: { IsExact Self.same Self.encodes Self.encoding fits Self.encodable };
}

/// The laws of every type of which only a canonical mode has one encoding.
///
/// DER reads a value only from its DER encoding, CER only from its CER encoding, and BER from both. What DER or CER reads can be
/// written. Encodings are unambiguous and prefix-free. All of this is within 101 levels.
pub fn one_der_encoding<T: DERExact>()
    ensures der { (v : T) (s : List ℕ) → length s < 2 ^ 64 → T.encodes Der max_depth v s ↔ (T.fits Der max_depth v × (s ≡ T.encoding Der v)) }
    ensures cer { (v : T) (s : List ℕ) → length s < 2 ^ 64 → T.encodes Cer max_depth v s ↔ (T.fits Cer max_depth v × (s ≡ T.encoding Cer v)) }
    ensures ber { (v : T) → T.fits Der max_depth v → length (T.encoding Der v) < 2 ^ 64 → T.encodes Ber max_depth v (T.encoding Der v) }
    ensures ber_of_cer { (v : T) → T.fits Cer max_depth v → length (T.encoding Cer v) < 2 ^ 64 → T.encodes Ber max_depth v (T.encoding Cer v) }
    ensures written { (v : T) (s : List ℕ) → T.encodes Der max_depth v s → T.encodable v }
    ensures written_of_cer { (v : T) (s : List ℕ) → T.encodes Cer max_depth v s → T.encodable v }
    ensures unique { (m : BERMode) (v w : T) (s r : List ℕ) → T.encodes m max_depth v s → T.encodes m max_depth w (s ++ r) → T.same v w × (r ≡ []) }
{}

impl DERExact for () {
    ghost fits = { written_fits leaf_depth Always };

    ghost exact = { written_exact unit_written };
}

impl DERExact for bool {
    ghost fits = { written_fits leaf_depth Always };

    ghost exact = { written_exact bool_written };
}

impl DERExact for i64 {
    ghost fits = { written_fits leaf_depth (FitsSigned w64) };

    ghost exact = { written_exact (signed_written w64) };
}

impl DERExact for i32 {
    ghost fits = { written_fits leaf_depth (FitsSigned w32) };

    ghost exact = { written_exact (signed_written w32) };
}

impl DERExact for i16 {
    ghost fits = { written_fits leaf_depth (FitsSigned w16) };

    ghost exact = { written_exact (signed_written w16) };
}

impl DERExact for u64 {
    ghost fits = { written_fits leaf_depth (λ n. n < 2 ^ 64) };

    ghost exact = { written_exact (unsigned_written 64) };
}

impl DERExact for u32 {
    ghost fits = { written_fits leaf_depth (λ n. n < 2 ^ 32) };

    ghost exact = { written_exact (unsigned_written 32) };
}

impl DERExact for u16 {
    ghost fits = { written_fits leaf_depth (λ n. n < 2 ^ 16) };

    ghost exact = { written_exact (unsigned_written 16) };
}

impl DERExact for Vec<u8> {
    ghost fits = { written_fits (λ m v. octets_depth m v.items) (λ v. IsBytes v.items) };

    ghost exact = { written_exact vec_written };
}

impl DERExact for String {
    ghost fits = { written_fits (λ m v. utf8_depth m (characters v)) Always };

    ghost exact = { written_exact text_written };
}

impl DERExact for ObjectIdentifier {
    ghost fits = { written_fits leaf_depth IsEncodableOid };

    ghost exact = { written_exact oid_written };
}

impl DERExact for UTCTime {
    ghost fits = { written_fits (λ m v. utc_time_depth m (utc_of v)) Always };

    ghost exact = { written_exact utc_written };
}

impl DERExact for GeneralizedTime {
    ghost fits = { written_fits (λ m v. generalized_time_depth m (moment_of v)) Always };

    ghost exact = { written_exact general_written };
}

impl DERExact for TaggedDerValue {
    ghost fits = { λ m n v. raw_fits m n (raw_of v) };

    ghost exact = { exact_along raw_of raw_keeps_exact };
}

impl<T: DERExact> DERExact for Vec<T> {
    ghost fits = { λ m n v. enclosed_fits (elements_fit T.fits) m n v.items };

    ghost exact = { list_exact (λ v. v.items) T.exact };
}

impl<T: FromShape + EncodeShape + Drop> DERExact for T
where
    T::Shape: DERExact,
{
    ghost fits = { λ m n v. T.Shape.fits m n (T.shape_of v) };

    ghost exact = { exact_along T.shape_of T.Shape.exact };
}
