//! Notations of which also BER is written again: what any mode reads has an encoding in DER and in CER.
//!
//! `TaggedDerValue` isn't one, since it is written as it came, nor is BIT STRING, since its unused bits are.
ghost use Rattle.std.specs.Prelude.{◌≡◌, ◌<◌, ◌^◌, ◌∷◌, None, true, pos, FitsSigned};
ghost use Rattle.std.specs.Int.{w64, w32};
ghost use Rattle.std.proofs.Common.{arith};
ghost use Rattle.yasna_base.specs.Beginnings.{share_none};
ghost use Rattle.yasna_base.specs.Boolean.{boolean_tag};
ghost use Rattle.yasna_base.specs.Canonical.{IsWritten};
ghost use Rattle.yasna_base.specs.Enumerated.{enumerated_tag};
ghost use Rattle.yasna_base.specs.Identifier.{end_tag};
ghost use Rattle.yasna_base.specs.Integer.{integer_tag};
ghost use Rattle.yasna_base.specs.Null.{null_tag};
ghost use Rattle.yasna_base.specs.Octets.{octets_tag};
ghost use Rattle.yasna_base.specs.Oid.{oid_tag};
ghost use Rattle.yasna_base.specs.Sequence.{sequence_tag};
ghost use Rattle.yasna_base.specs.Set.{set_tag};
ghost use Rattle.yasna_base.specs.Text.{InUtf8, InPrintable, InIa5, InNumeric, InVisible};
ghost use Rattle.yasna_base.specs.Text.{utf8_tag, printable_tag, ia5_tag, numeric_tag, visible_tag};
ghost use Rattle.yasna_base.proofs.BigInteger.{big_integer_written};
ghost use Rattle.yasna_base.proofs.Boolean.{boolean_written};
ghost use Rattle.yasna_base.proofs.Canonical.{written_along, enclosed_written};
ghost use Rattle.yasna_base.proofs.ExplicitTags.{tagged_written};
ghost use Rattle.yasna_base.proofs.Identifier.{not_end};
ghost use Rattle.yasna_base.proofs.Integer.{number_written};
ghost use Rattle.yasna_base.proofs.Null.{null_written};
ghost use Rattle.yasna_base.proofs.Octets.{octets_written};
ghost use Rattle.yasna_base.proofs.Oid.{oid_written_under};
ghost use Rattle.yasna_base.proofs.Sequence.{no_part_written};
ghost use Rattle.yasna_bytes.specs.Contents.{big_integer_in};
ghost use Rattle.yasna_times.specs.UtcTime.{utc_time_tag};
ghost use Rattle.yasna_times.specs.GeneralizedTime.{generalized_time_tag};
ghost use Rattle.yasna_notation.specs.Canonical.{element_written, text_under, class_under, utc_under, general_under, list_under, set_of_under};
ghost use Rattle.yasna_notation.specs.Canonical.{bounded_written, implicit_written, part_writes, option_writes, default_writes, last_part_writes};
ghost use Rattle.yasna_notation.specs.Canonical.{either_writes, last_writes, choice_written_as, represented_written};
ghost use Rattle.yasna_notation.specs.Laws.{octets_of};
ghost use Rattle.yasna_notation.specs.Notation.{IsWrittenMeaning};

use crate::bounded::{Bound, Bounded};
use crate::choices::{Alternatives, Choice};
use crate::defaults::{Default, DefaultValue};
use crate::defined_type::DefinedType;
use crate::encoded::Encoded;
use crate::explicit_tags::Explicit;
use crate::implicit_tags::Implicit;
use crate::last::Last;
use crate::lists::SequenceOf;
use crate::messages::Message;
use crate::notation::Notation;
use crate::parts::{Optional, Parts};
use crate::sequences::Sequence;
use crate::set_lists::SetOf;
use crate::simple::{BigInteger, Enumerated};
use crate::strings::{Ia5String, NumericString, PrintableString, VisibleString};
use crate::tag_names::TagName;
use yasna::DERCanonical;
use yasna_base::models::ObjectIdentifier;
use yasna_times::models::{GeneralizedTime, UTCTime};

/// A notation whose values, in whatever mode they are read, have one encoding in DER and one in CER. It has no function: an impl proves
/// the laws.
pub trait CanonicalNotation: Notation {
    // The laws of writing, under the type's own tag and under those that may be in place of it.
    ghost written: { Self.unambiguous ≡ true → IsWrittenMeaning Self.means };
}

/// Parts of a SEQUENCE, each of a `CanonicalNotation`.
pub trait CanonicalParts: Parts {
    // The laws of writing.
    ghost written: { Self.unambiguous ≡ true → IsWritten Self.same Self.parts Self.encoding Self.depth Self.can };
}

/// Types of a CHOICE, each a `CanonicalNotation`.
pub trait CanonicalAlternatives: Alternatives {
    // The laws of writing.
    ghost written: { Self.unambiguous ≡ true → IsWritten Self.same Self.encodes (Self.encoding_under None) Self.depth Self.can };
}

impl CanonicalNotation for bool {
    ghost written = { λ _. element_written boolean_tag (λ t _ range. boolean_written t range) (not_end 1 (λ e. omega arith)) (omega arith) };
}

impl CanonicalNotation for () {
    ghost written = { λ _. element_written null_tag (λ t _ range. null_written t range) (not_end 5 (λ e. omega arith)) (omega arith) };
}

impl CanonicalNotation for i64 {
    ghost written = { λ _. element_written integer_tag (λ t _ range. number_written (λ z. z) (FitsSigned w64) t range) (not_end 2 (λ e. omega arith)) (omega arith) };
}

impl CanonicalNotation for i32 {
    ghost written = { λ _. element_written integer_tag (λ t _ range. number_written (λ z. z) (FitsSigned w32) t range) (not_end 2 (λ e. omega arith)) (omega arith) };
}

impl CanonicalNotation for u64 {
    ghost written = { λ _. element_written integer_tag (λ t _ range. number_written pos (λ n. n < 2 ^ 64) t range) (not_end 2 (λ e. omega arith)) (omega arith) };
}

impl CanonicalNotation for u32 {
    ghost written = { λ _. element_written integer_tag (λ t _ range. number_written pos (λ n. n < 2 ^ 32) t range) (not_end 2 (λ e. omega arith)) (omega arith) };
}

impl CanonicalNotation for Enumerated {
    ghost written = { λ _. element_written enumerated_tag (λ t _ range. number_written (λ z. z) (FitsSigned w64) t range) (not_end 10 (λ e. omega arith)) (omega arith) };
}

impl CanonicalNotation for ObjectIdentifier {
    ghost written = { λ _. element_written oid_tag (λ t _ range. oid_written_under t range) (not_end 6 (λ e. omega arith)) (omega arith) };
}

impl CanonicalNotation for BigInteger {
    ghost written = { λ _. element_written integer_tag (λ t _ range. written_along big_integer_in (big_integer_written t range)) (not_end 2 (λ e. omega arith)) (omega arith) };
}

impl CanonicalNotation for Vec<u8> {
    ghost written = { λ _. element_written octets_tag (λ t _ range. written_along octets_of (octets_written t range)) (not_end 4 (λ e. omega arith)) (omega arith) };
}

impl CanonicalNotation for String {
    ghost written = { λ _. element_written utf8_tag text_under (not_end 12 (λ e. omega arith)) (omega arith) };
}

impl CanonicalNotation for PrintableString {
    ghost written = { λ _. element_written printable_tag (class_under InPrintable) (not_end 19 (λ e. omega arith)) (omega arith) };
}

impl CanonicalNotation for Ia5String {
    ghost written = { λ _. element_written ia5_tag (class_under InIa5) (not_end 22 (λ e. omega arith)) (omega arith) };
}

impl CanonicalNotation for NumericString {
    ghost written = { λ _. element_written numeric_tag (class_under InNumeric) (not_end 18 (λ e. omega arith)) (omega arith) };
}

impl CanonicalNotation for VisibleString {
    ghost written = { λ _. element_written visible_tag (class_under InVisible) (not_end 26 (λ e. omega arith)) (omega arith) };
}

impl CanonicalNotation for UTCTime {
    ghost written = { λ _. element_written utc_time_tag utc_under (not_end 23 (λ e. omega arith)) (omega arith) };
}

impl CanonicalNotation for GeneralizedTime {
    ghost written = { λ _. element_written generalized_time_tag general_under (not_end 24 (λ e. omega arith)) (omega arith) };
}

impl<T: TagName, N: CanonicalNotation> CanonicalNotation for Explicit<T, N> {
    ghost written = { λ a. element_written T.tag (λ t _ range. tagged_written t range (N.written a).own) T.not_end T.in_range };
}

impl<T: TagName, N: CanonicalNotation> CanonicalNotation for Implicit<T, N> {
    ghost written = { λ a. implicit_written T.tag N.written a T.not_end T.in_range };
}

impl<N: CanonicalNotation> CanonicalNotation for SequenceOf<N> {
    ghost written = { λ a. element_written sequence_tag (list_under (N.written a).own) (not_end 16 (λ e. omega arith)) (omega arith) };
}

impl<N: CanonicalNotation> CanonicalNotation for SetOf<N> {
    ghost written = { λ a. element_written set_tag (set_of_under (N.written a).own) (not_end 17 (λ e. omega arith)) (omega arith) };
}

impl<N: CanonicalNotation, C: Bound<N>> CanonicalNotation for Bounded<N, C> {
    ghost written = { λ a. bounded_written C.passes C.alike (N.written a) };
}

impl CanonicalParts for () {
    ghost written = { λ _. no_part_written };
}

impl<A: CanonicalNotation, W: CanonicalParts> CanonicalParts for (A, W) {
    ghost written = { λ a. part_writes (λ b. (A.written b).own) W.written a };
}

impl<A: CanonicalNotation, W: CanonicalParts> CanonicalParts for (Optional<A>, W) {
    ghost written = { λ a. option_writes (λ b. (A.written b).own) W.written A.means.tags_known W.tags_known (share_none A.means.tags (end_tag ∷ W.tags)) a };
}

impl<A: CanonicalNotation, D: DefaultValue<A>, W: CanonicalParts> CanonicalParts
    for (Default<A, D>, W)
where
    A::Value: Eq,
{
    ghost written = { λ a. default_writes (λ b. (A.written b).own) W.written D.is D.default D.detects A.means.tags_known W.tags_known (share_none A.means.tags (end_tag ∷ W.tags)) (λ b. (A.lawful b).own) a };
}

impl<A: CanonicalNotation> CanonicalParts for Last<A> {
    ghost written = { λ a. last_part_writes (A.written a).own };
}

impl<P: CanonicalParts> CanonicalNotation for Sequence<P>
where
    P::Values: Drop,
{
    ghost written = { λ a. element_written sequence_tag (λ t _ range. enclosed_written t range (P.written a)) (not_end 16 (λ e. omega arith)) (omega arith) };
}

impl<A: CanonicalNotation> CanonicalAlternatives for (A,) {
    ghost written = { λ a. last_writes (λ b. (A.written b).own) A.means.tags_known a };
}

impl<A: CanonicalNotation, W: CanonicalAlternatives> CanonicalAlternatives for (A, W) {
    ghost written = { λ a. either_writes (λ b. (A.written b).own) W.written A.means.tags_known (share_none A.means.tags W.tags) a };
}

impl<A: CanonicalAlternatives> CanonicalNotation for Choice<A>
where
    A::Value: Drop,
{
    ghost written = { λ a. choice_written_as A.encoding_under (A.written a) };
}

impl<T: DefinedType> CanonicalNotation for T
where
    T::Notation: CanonicalNotation,
{
    ghost written = { λ _. represented_written T.value_of (T.Notation.written T.unambiguous) };
}

impl<T: Message + CanonicalNotation> DERCanonical for Encoded<T> {
    ghost written = { written_along (λ v. v.value) (T.written T.is_unambiguous).own };
}
