//! DEFAULT: a part that is omitted if it is the default (X.690, 8.9.3 and 11.5).
//!
//! A value that was read is tested by a `match`, as in `parts`.
ghost use Rattle.std.specs.Prelude.{◌≡◌, ◌++◌, ◌∷◌, ◌||◌, ◌&&◌, Bool, None, true, false, not, nat_eq, refl};
ghost use Rattle.yasna_base.specs.Beginnings.{share_none};
ghost use Rattle.yasna_base.specs.Coding.{Any};
ghost use Rattle.yasna_base.specs.Default.{DetectsDefault, DefaultOf, default_encoding, default_depth, default_can, default_fits};
ghost use Rattle.yasna_base.specs.Exact.{part_fits};
ghost use Rattle.yasna_base.specs.Identifier.{end_tag};
ghost use Rattle.yasna_base.specs.Sequence.{PartOf, AnyPart, SamePart, part_encoding, part_depth, part_can};
ghost use Rattle.yasna_writer.specs.Prepend.{Prepends, KnownLength};
ghost use Rattle.yasna_writer.specs.View.{WroteParts};
ghost use Rattle.yasna_notation.specs.Parts.{all_known, default_laws, detects_false, tests_false, detects_number};

use crate::bounded::{Bound, Bounded};
use crate::explicit_tags::Explicit;
use crate::notation::Notation;
use crate::parts::{Parts, PartsBy};
use crate::tag_names::TagName;
use std::marker::PhantomData;
use yasna_base::{ASN1Result, BERMode};
use yasna_reader::BERReaderSeq;
use yasna_writer::{DERWriterSeq, PrependBuffer};

/// The default of a part of this notation: its value if it is omitted.
pub trait DefaultValue<N: Notation>
where
    N::Value: Eq,
{
    // The default.
    ghost default: { N.Value };

    // The test for the default.
    ghost is: { N.Value → Bool };

    /// Makes the default.
    fn default() -> N::Value
        ensures { result ≡ default };

    // Exactly the values that equal the default pass the test, which is that of `==`.
    ghost detects: { DetectsDefault N.means.same is default };

    ghost tests: { (v : N.Value) → is v ≡ N.Value.eq v default };
}

/// `DEFAULT FALSE`.
pub struct False;

impl DefaultValue<bool> for False {
    ghost default = { false };

    ghost is = { not };

    #[inline(always)]
    fn default() -> bool {
        false
    }

    ghost detects = { detects_false };

    ghost tests = { tests_false };
}

/// `DEFAULT N`, of an INTEGER that isn't negative.
pub struct Number<const N: u64>;

impl<const N: u64> DefaultValue<u64> for Number<N> {
    ghost default = { N };

    ghost is = { λ v. nat_eq v N };

    #[inline(always)]
    fn default() -> u64 {
        N
    }

    ghost detects = { detects_number N };

    ghost tests = { λ v. refl };
}

impl<T: TagName, const N: u64> DefaultValue<Explicit<T, u64>> for Number<N> {
    ghost default = { N };

    ghost is = { λ v. nat_eq v N };

    #[inline(always)]
    fn default() -> u64 {
        N
    }

    ghost detects = { detects_number N };

    ghost tests = { λ v. refl };
}

impl<T: TagName, C: Bound<u64>, const N: u64> DefaultValue<Explicit<T, Bounded<u64, C>>>
    for Number<N> {
    ghost default = { N };

    ghost is = { λ v. nat_eq v N };

    #[inline(always)]
    fn default() -> u64 {
        N
    }

    ghost detects = { detects_number N };

    ghost tests = { λ v. refl };
}

/// `N DEFAULT D`.
pub struct Default<N, D> {
    of: PhantomData<N>,
    value: PhantomData<D>,
}

impl<A: Notation, D: DefaultValue<A>, W: Parts> Parts for (Default<A, D>, W)
where
    A::Value: Eq,
{
    type Values = (A::Value, W::Values);

    type Inner = (A::Inner, W::Inner);

    ghost tags_known = { true };

    ghost tags = { A.means.tags ++ W.tags };

    ghost unambiguous = { all_known A.means.tags_known W.tags_known (share_none A.means.tags (end_tag ∷ W.tags)) (A.unambiguous && W.unambiguous) };

    ghost parts = { PartOf (DefaultOf D.is (A.means.under None)) W.parts };

    ghost any_parts = { AnyPart (Any (DefaultOf D.is (A.means.under None))) W.any_parts };

    ghost may_allocate = { (A.means.may_allocate || W.may_allocate) };

    ghost same = { SamePart A.means.same W.same };

    ghost encoding = { part_encoding (default_encoding D.is (A.means.encoding_under None)) W.encoding };

    ghost depth = { part_depth (default_depth D.is A.means.depth) W.depth };

    ghost can = { part_can (default_can D.is A.means.can) W.can };

    ghost fits = { part_fits (default_fits D.is A.means.fits) W.fits };

    #[inline(always)]
    fn read_parts(seq: &mut BERReaderSeq) -> ASN1Result<(A::Value, W::Values)> {
        let first = match seq.read_default(D::default(), |part| A::read(part)) {
            Ok(first) => first,
            Err(error) => return Err(error),
        };
        let others = match W::read_parts(seq) {
            Ok(others) => others,
            Err(error) => return Err(error),
        };
        Ok((first, others))
    }

    #[inline(always)]
    fn write_parts(values: &(A::Value, W::Values), seq: &mut DERWriterSeq) -> ASN1Result<()> {
        write_unless_default::<A, D>(&values.0, seq)?;
        W::write_parts(&values.1, seq)
    }

    #[inline(always)]
    fn prepend_parts(values: &(A::Value, W::Values), out: &mut PrependBuffer) -> ASN1Result<()> {
        W::prepend_parts(&values.1, out)?;
        prepend_unless_default::<A, D>(&values.0, out)
    }

    #[inline(always)]
    fn parts_len(values: &(A::Value, W::Values), mode: BERMode) -> Option<usize> {
        let first = unless_default_len::<A, D>(&values.0, mode)?;
        let others = W::parts_len(&values.1, mode)?;
        first.checked_add(others)
    }

    ghost laws = { λ a. default_laws D.is D.default D.detects (λ b. (A.lawful b).own) W.laws a };
}

impl<'a, A: Notation, D: DefaultValue<A>, R, W: PartsBy<R>> PartsBy<(&'a A::Value, R)>
    for (Default<A, D>, W)
where
    A::Value: Eq,
{
    type Held = (A::Value, W::Held);

    ghost held = { λ r. (r.0.now, W.held r.1) };

    ghost encoding_by = { part_encoding (default_encoding D.is (A.means.encoding_under None)) W.encoding_by };

    ghost can_by = { part_can (default_can D.is A.means.can) W.can_by };

    #[inline(always)]
    fn write_each(fields: &(&'a A::Value, R), seq: &mut DERWriterSeq) -> ASN1Result<()> {
        write_unless_default::<A, D>(fields.0, seq)?;
        W::write_each(&fields.1, seq)
    }

    #[inline(always)]
    fn prepend_each(fields: &(&'a A::Value, R), out: &mut PrependBuffer) -> ASN1Result<()> {
        W::prepend_each(&fields.1, out)?;
        prepend_unless_default::<A, D>(fields.0, out)
    }

    #[inline(always)]
    fn each_len(fields: &(&'a A::Value, R), mode: BERMode) -> Option<usize> {
        let first = unless_default_len::<A, D>(fields.0, mode)?;
        let others = W::each_len(&fields.1, mode)?;
        first.checked_add(others)
    }
}

/// Writes a part, unless it is the default.
#[inline(always)]
pub fn write_unless_default<A: Notation, D: DefaultValue<A>>(
    value: &A::Value,
    seq: &mut DERWriterSeq,
) -> ASN1Result<()>
where
    A::Value: Eq,
    requires { default_can D.is A.means.can value.now }
    ensures { WroteParts (default_encoding D.is (A.means.encoding_under None) seq.old.mode value.now) seq.old seq.new result }
{
    if *value == D::default() {
        return Ok(());
    }
    A::write(value, seq.next())
}

/// Prepends a part to a buffer, as `Notation::prepend`, unless it is the default.
#[inline(always)]
pub fn prepend_unless_default<A: Notation, D: DefaultValue<A>>(
    value: &A::Value,
    out: &mut PrependBuffer,
) -> ASN1Result<()>
where
    A::Value: Eq,
    requires { default_can D.is A.means.can value.now }
    ensures { Prepends (default_encoding D.is (A.means.encoding_under None) out.old.mode value.now) out.old out.new result }
{
    if *value == D::default() {
        Ok(())
    } else {
        A::prepend(value, None, out)
    }
}

/// The length of a part, as `Notation::encoded_len`, or 0 if it is the default.
#[inline(always)]
pub fn unless_default_len<A: Notation, D: DefaultValue<A>>(
    value: &A::Value,
    mode: BERMode,
) -> Option<usize>
where
    A::Value: Eq,
    requires { default_can D.is A.means.can value.now }
    ensures { KnownLength (default_encoding D.is (A.means.encoding_under None) mode value.now) result }
{
    if *value == D::default() {
        Some(0)
    } else {
        A::encoded_len(value, None, mode)
    }
}
