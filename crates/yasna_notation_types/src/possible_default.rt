//! A part with a DEFAULT in an extensible SEQUENCE, before parts that may begin with any other tag (X.680, 25 and 52).
ghost use Rattle.std.specs.Prelude.{◌≡◌, ◌||◌, ◌&&◌, [], None, false};
ghost use Rattle.yasna_base.specs.Coding.{Any};
ghost use Rattle.yasna_base.specs.Default.{DefaultOf, default_encoding, default_depth, default_can, default_fits};
ghost use Rattle.yasna_base.specs.Exact.{part_fits};
ghost use Rattle.yasna_base.specs.Sequence.{PartOf, AnyPart, SamePart, part_encoding, part_depth, part_can};
ghost use Rattle.yasna_writer.specs.View.{WroteParts};
ghost use Rattle.yasna_notation_types.specs.Beginning.{none_may, first_may};
ghost use Rattle.yasna_notation_types.specs.Others.{possible_default_laws, possible_default_begins};

use crate::beginning::Beginning;
use std::marker::PhantomData;
use yasna_base::{ASN1Result, BERMode};
use yasna_notation::{
    DefaultValue, Notation, Parts, PartsBy, prepend_unless_default, unless_default_len,
    write_unless_default,
};
use yasna_reader::BERReaderSeq;
use yasna_writer::{DERWriterSeq, PrependBuffer};

/// `N DEFAULT D` and the parts `W` after it, which may begin with any other tag.
pub struct PossibleDefault<N, D, W> {
    of: PhantomData<N>,
    value: PhantomData<D>,
    before: PhantomData<W>,
}

impl<A: Notation, D: DefaultValue<A>, W: Beginning> Parts for PossibleDefault<A, D, W>
where
    A::Value: Eq,
{
    type Values = (A::Value, W::Values);

    type Inner = (A::Inner, W::Inner);

    ghost tags_known = { false };

    ghost tags = { [] };

    ghost unambiguous = { (A.means.tags_known && (none_may W.may A.means.tags && (A.unambiguous && W.unambiguous))) };

    ghost parts = { PartOf (DefaultOf D.is (A.means.under None)) W.parts };

    ghost any_parts = { AnyPart (Any (DefaultOf D.is (A.means.under None))) W.any_parts };

    ghost may_allocate = { (A.means.may_allocate || W.may_allocate) };

    ghost same = { SamePart A.means.same W.same };

    ghost encoding = { part_encoding (default_encoding D.is (A.means.encoding_under None)) W.encoding };

    ghost depth = { part_depth (default_depth D.is A.means.depth) W.depth };

    ghost can = { part_can (default_can D.is A.means.can) W.can };

    ghost fits = { part_fits (default_fits D.is A.means.fits) W.fits };

    #[inline(always)]
    fn read_parts(seq: &mut BERReaderSeq) -> ASN1Result<(A::Value, W::Values)> {
        let first = match seq.read_default(D::default(), |part| A::read(part)) {
            Ok(first) => first,
            Err(error) => return Err(error),
        };
        let others = match W::read_parts(seq) {
            Ok(others) => others,
            Err(error) => return Err(error),
        };
        Ok((first, others))
    }

    #[inline(always)]
    fn write_parts(values: &(A::Value, W::Values), seq: &mut DERWriterSeq) -> ASN1Result<()> {
        write_unless_default::<A, D>(&values.0, seq)?;
        W::write_parts(&values.1, seq)
    }

    #[inline(always)]
    fn prepend_parts(values: &(A::Value, W::Values), out: &mut PrependBuffer) -> ASN1Result<()> {
        W::prepend_parts(&values.1, out)?;
        prepend_unless_default::<A, D>(&values.0, out)
    }

    #[inline(always)]
    fn parts_len(values: &(A::Value, W::Values), mode: BERMode) -> Option<usize> {
        let first = unless_default_len::<A, D>(&values.0, mode)?;
        let others = W::parts_len(&values.1, mode)?;
        first.checked_add(others)
    }

    ghost laws = { λ a. possible_default_laws W.may D.is D.default D.detects (λ b. (A.lawful b).own) W.laws W.within a };
}

impl<'a, A: Notation, D: DefaultValue<A>, R, W: PartsBy<R>> PartsBy<(&'a A::Value, R)>
    for PossibleDefault<A, D, W>
where
    A::Value: Eq,
{
    type Held = (A::Value, W::Held);

    ghost held = { λ r. (r.0.now, W.held r.1) };

    ghost encoding_by = { part_encoding (default_encoding D.is (A.means.encoding_under None)) W.encoding_by };

    ghost can_by = { part_can (default_can D.is A.means.can) W.can_by };

    #[inline(always)]
    fn write_each(fields: &(&'a A::Value, R), seq: &mut DERWriterSeq) -> ASN1Result<()> {
        write_unless_default::<A, D>(fields.0, seq)?;
        W::write_each(&fields.1, seq)
    }

    #[inline(always)]
    fn prepend_each(fields: &(&'a A::Value, R), out: &mut PrependBuffer) -> ASN1Result<()> {
        W::prepend_each(&fields.1, out)?;
        prepend_unless_default::<A, D>(fields.0, out)
    }

    #[inline(always)]
    fn each_len(fields: &(&'a A::Value, R), mode: BERMode) -> Option<usize> {
        let first = unless_default_len::<A, D>(fields.0, mode)?;
        let others = W::each_len(&fields.1, mode)?;
        first.checked_add(others)
    }
}

impl<A: Notation, D: DefaultValue<A>, W: Beginning> Beginning for PossibleDefault<A, D, W>
where
    A::Value: Eq,
{
    ghost may = { λ t. first_may A.means.tags_known A.means.tags t || W.may t };

    ghost within = { λ a. possible_default_begins (none_may W.may A.means.tags) W.may D.is (λ b. (A.lawful b).own) W.within a };
}
